// Straight stretches of lines, and numbers of rows and columns that shift.

ghost use Rattle.std.specs.Prelude.{◌≡◌, ◌+◌, ◌<◌, ◌^◌};
ghost use Rattle.block_grid.specs.Lines.{separates};
ghost use Rattle.block_grid.specs.Changes.{shifted};

/// The border before number `border` lies between the numbers `one` and `other`.
pub(crate) fn separates(one: u32, other: u32, border: u32) -> bool
    ensures { result ≡ separates one other border }
{
    (one < border) != (other < border)
}

/// The number of a line once `by` lines stand before line `at`.
pub(crate) fn shifted(number: u32, at: u32, by: u32) -> u32
    requires { number + by < 2 ^ 32 }
    ensures { result ≡ shifted at by number }
{
    if number < at { number } else { number + by }
}
