// A linear congruential sequence of draws.

ghost use Rattle.std.specs.Prelude.{◌≡◌, ◌≤◌, ◌%◌, ◌^◌};
ghost use Rattle.demo_spec.specs.Generator.{drawn, next_seed};

use std::marker::Model;

/// What seeds are less than.
const MODULUS: u64 = 1 << 31;

/// The seed behind the last draw.
#[derive(Drop)]
pub(crate) struct Draws {
    seed: u64,
}

impl Model for Draws {
    ghost use Rattle.std.specs.Prelude.{ℕ, ◌<◌, ◌^◌};

    ghost Value = { ℕ };

    ghost view = { λ d. d.seed };

    ghost invariant = { λ d. d.seed < 2 ^ 31 };
}

impl Draws {
    /// The sequence that this number starts.
    pub(crate) fn new(start: u64) -> Draws
        ensures { result ≡ start % 2 ^ 31 }
    {
        Draws {
            seed: start % MODULUS,
        }
    }

    /// A draw modulo this number.
    pub(crate) fn draw(&mut self, sides: u64) -> u64
        requires { 1 ≤ sides }
        ensures drawn { result ≡ drawn self.old % sides }
        ensures seed { self.new ≡ next_seed self.old }
    {
        self.seed = (1_103_515_245 * self.seed + 12_345) % MODULUS;
        self.seed / 65_536 % sides
    }
}
