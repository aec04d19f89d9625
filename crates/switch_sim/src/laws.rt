// What holds of the texts of traces, and of runs.

ghost use Rattle.std.specs.Prelude.{◌≡◌, ◌⊎◌, ℕ, Bool, List};
ghost use Rattle.rx_text.specs.declared.place.Place.{Place};
ghost use Rattle.switch_net.specs.Circuit.{Circuit};
ghost use Rattle.switch_net.specs.Validity.{IsNetwork};
ghost use Rattle.switch_sim.specs.ServedLaws.{ServedRunsExist, ServedRunsAreOne, UnservedRunsWriteLines, UnservedRunsWriteFronts};
ghost use Rattle.switch_sim.specs.ServedParts.{EndedAreToldTheirPart, OthersAreToldAll};
ghost use Rattle.switch_sim.specs.TraceLines.{TraceLines};
ghost use Rattle.switch_sim.specs.TraceTexts.{IsTrace, TraceRefusal};
ghost use Rattle.switch_sim.specs.TraceLaws.{BeginsWithTrace};
ghost use Rattle.switch_sim.specs.declared.trace_code.TraceCode.{TraceCode};

use switch_net::ternary_runs_exist;

/// Every text begins with one trace or is refused with one code at one place, and never both. It runs nothing: a caller
/// has the law from its contract.
pub fn texts_are_traces_or_refused()
    ensures either { (text : List ℕ) → BeginsWithTrace text ⊎ ((code : TraceCode) × (place : Place) × TraceRefusal text code place) }
    ensures exclusive { (text : List ℕ) (code : TraceCode) (place : Place) → BeginsWithTrace text → TraceRefusal text code place → ⊥ }
    ensures one_trace { (text : List ℕ) (some others : List (List Bool)) (place elsewhere : ℕ)
        → IsTrace text some place → IsTrace text others elsewhere → (some ≡ others) × (place ≡ elsewhere) }
    ensures one_refusal { (text : List ℕ) (code other : TraceCode) (place elsewhere : Place)
        → TraceRefusal text code place → TraceRefusal text other elsewhere → (code ≡ other) × (place ≡ elsewhere) }
{}

/// A run through these vectors has an output. It runs nothing: a caller has the law from its contract.
pub fn traces_have_an_output()
    ensures { (circuit : Circuit) → IsNetwork circuit → (vectors : List (List Bool)) → (text : List ℕ) × TraceLines circuit vectors text }
{
    ternary_runs_exist();
}

/// And it has no other. It runs nothing: a caller has the law from its contract.
pub fn traces_have_one_output()
    ensures { (circuit : Circuit) → IsNetwork circuit → (vectors : List (List Bool)) (some others : List ℕ)
        → TraceLines circuit vectors some → TraceLines circuit vectors others → some ≡ others }
{
    ternary_runs_exist();
}

/// What a served probe is told of the samples that are due to it: the shortest front of them, of those that are not empty, that
/// ends it, and all where there is none. It runs nothing.
pub fn probes_are_told_in_order()
    ensures ended { EndedAreToldTheirPart }
    ensures others { OthersAreToldAll }
{}

/// A run that serves probes exists. It runs nothing.
pub fn served_runs_exist()
    ensures { ServedRunsExist }
{
    ternary_runs_exist();
}

/// What it writes, which probes it leaves and what they have seen is a function of the network, the vectors and the meanings of the
/// probes. It runs nothing.
pub fn served_runs_are_one()
    ensures { ServedRunsAreOne }
{
    ternary_runs_exist();
}

/// Where no probe is served, a run writes the lines of its clocks alone, and the probes are as they were. It runs nothing.
pub fn unserved_runs_write_lines()
    ensures done { UnservedRunsWriteLines }
    ensures failed { UnservedRunsWriteFronts }
{}
