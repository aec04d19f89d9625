// What the text of a chip draws.
ghost use Rattle.cif_write.specs.WrittenChips.{ChipTextsDraw};

/// The text of a chip draws its kinds at its calls, with its labels, by the definitions of CIF. The chip's edges, places of
/// calls and squares of labels are within 2^32 lambda of the origin, its calls name kinds, and its labels stand on diffusion,
/// poly or metal.
pub fn chip_texts_draw()
    ensures { ChipTextsDraw }
{}
