// How large a square has to be.

ghost use Rattle.std.specs.Prelude.{◌≤◌};
ghost use Rattle.rx_lang.specs.Squares.{IsLevel};

/// The least level whose squares have room for so many blocks.
pub fn level_of(number: usize) -> u32
    requires { number ≤ 8192 }
    ensures level { IsLevel number result }
    ensures few { result ≤ 7 }
{
    let mut level = 0;
    let mut room = 1;
    while room < number {
        room *= 4;
        level += 1;
    }
    level
}
