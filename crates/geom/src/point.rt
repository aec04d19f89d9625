// Points of a plane.

/// A point, in a unit that is said where it is used.
#[derive(Clone, Copy, Debug, PartialEq, Eq)]
pub struct Point {
    pub x: i64,
    pub y: i64,
}
