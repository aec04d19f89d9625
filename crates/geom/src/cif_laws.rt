// Small CIF texts by the definitions.

ghost use Rattle.geom.specs.CifExamples.{CifTextsDraw, CifTextsAreRefused};

/// What small CIF texts draw, and why others are refused.
pub fn cif_examples()
    ensures draw { CifTextsDraw }
    ensures refused { CifTextsAreRefused }
{}
