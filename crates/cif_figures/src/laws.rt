// Commands that do nothing.

ghost use Rattle.std.specs.Prelude.{ℕ, List};
ghost use Rattle.geom.specs.CifDrawings.{CifState};
ghost use Rattle.cif_kinds.specs.declared.kinds.CommandKind.TheVariants as kind;
ghost use Rattle.cif_figures.specs.Figures.{CommandOf, command_of, Leads};

/// Empty commands and comments meet no code, and leave all as it is.
pub fn others_lead_on()
    ensures empty { (s : CifState) (text : List ℕ) (first end : ℕ) (c : CommandOf text first end kind.Empty)
        → Leads s (command_of text first end kind.Empty c) (λ place. s) }
    ensures comment { (s : CifState) (text : List ℕ) (first end : ℕ) (c : CommandOf text first end kind.Comment)
        → Leads s (command_of text first end kind.Comment c) (λ place. s) }
{}
