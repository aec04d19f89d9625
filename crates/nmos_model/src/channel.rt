// Channels: regions of a drawing where poly lies over diffusion.

/// A rectangle of channel squares, by its edges in lambda: columns from `x1` up to but not including `x2`, and rows from
/// `y1` up to but not including `y2`.
#[derive(Clone, Copy, Debug, PartialEq, Eq)]
pub struct Channel {
    pub x1: i64,
    pub y1: i64,
    pub x2: i64,
    pub y2: i64,
    /// Its terminals lie above and below it, and not to its left and right.
    pub upright: bool,
    /// It lies under implant.
    pub depletion: bool,
}
