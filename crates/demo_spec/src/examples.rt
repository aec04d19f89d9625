// Worked examples of the definitions. Each is the contract of a function that does nothing.

ghost use Rattle.std.specs.Prelude.{◌≡◌, ◌∷◌, []};
ghost use Rattle.demo_spec.specs.Examples.{draws, two_leaves};
ghost use Rattle.demo_spec.specs.Generator.{demo};

/// The first draws from 1.
pub fn draws_from_one()
    ensures { draws 7 1 ≡ 16838 ∷ 5758 ∷ 10113 ∷ 17515 ∷ 31051 ∷ 5627 ∷ 23010 ∷ [] }
{}

/// From 1, for two leaves: `expr (s2 | s1 !y0)? !y0;`.
pub fn makes_two_leaves()
    ensures { (demo 1 2).statements ≡ two_leaves ∷ [] }
{}
