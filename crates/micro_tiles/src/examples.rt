//! Worked examples of the definitions of classes and nets of squares. Each is the contract of a function that runs nothing.

ghost use Rattle.micro_tiles.specs.Examples.{CornersPart, SidesJoin, CrossingsPart, CutsJoin, ChannelsPart};

/// Squares are of one class by sides, and not by corners.
pub fn squares_join_by_sides()
    ensures corners { CornersPart }
    ensures sides { SidesJoin }
{}

/// Layers are joined under a cut, and not where they cross; poly parts the diffusion below it.
pub fn layers_join_under_cuts()
    ensures crossings { CrossingsPart }
    ensures cuts { CutsJoin }
    ensures channels { ChannelsPart }
{}
