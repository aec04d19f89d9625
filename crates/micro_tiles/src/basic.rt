// The basic tiles by name.

ghost use Rattle.std.specs.Prelude.{◌≡◌};
ghost use Rattle.micro_tiles.specs.Basics.{number_named};

use crate::tile::Tile;

/// A basic tile by its wires, which lead to these sides. `EastWestToPolyNorth` has metal to the east and to the west, which
/// meets poly to the north under a cut.
#[derive(Clone, Copy, Debug, PartialEq, Eq)]
pub enum Basic {
    Empty,
    MetalEastWest,
    MetalEast,
    MetalWest,
    PolyNorthSouth,
    PolyNorth,
    PolySouth,
    PolyNorthEastSouth,
    PolySouthWest,
    Crossing,
    EastWestToPolyNorthSouth,
    EastWestToPolyNorth,
    EastWestToPolySouth,
    EastToPolyNorthSouth,
    EastToPolyNorth,
    EastToPolySouth,
    WestToPolyNorthSouth,
    WestToPolyNorth,
    WestToPolySouth,
    WestToPolyEast,
    EastWestToDiffusionNorth,
    EastWestToDiffusionSouth,
    EastToDiffusionNorth,
    EastToDiffusionSouth,
    WestToDiffusionNorth,
    WestToDiffusionSouth,
    Pass,
    Load,
}

impl Basic {
    /// The tile of this name.
    pub fn tile(self) -> Tile
        ensures { result ≡ number_named self }
    {
        match self {
            Basic::Empty => Tile::numbered(0),
            Basic::MetalEastWest => Tile::numbered(1),
            Basic::MetalEast => Tile::numbered(2),
            Basic::MetalWest => Tile::numbered(3),
            Basic::PolyNorthSouth => Tile::numbered(4),
            Basic::PolyNorth => Tile::numbered(5),
            Basic::PolySouth => Tile::numbered(6),
            Basic::PolyNorthEastSouth => Tile::numbered(7),
            Basic::PolySouthWest => Tile::numbered(8),
            Basic::Crossing => Tile::numbered(9),
            Basic::EastWestToPolyNorthSouth => Tile::numbered(10),
            Basic::EastWestToPolyNorth => Tile::numbered(11),
            Basic::EastWestToPolySouth => Tile::numbered(12),
            Basic::EastToPolyNorthSouth => Tile::numbered(13),
            Basic::EastToPolyNorth => Tile::numbered(14),
            Basic::EastToPolySouth => Tile::numbered(15),
            Basic::WestToPolyNorthSouth => Tile::numbered(16),
            Basic::WestToPolyNorth => Tile::numbered(17),
            Basic::WestToPolySouth => Tile::numbered(18),
            Basic::WestToPolyEast => Tile::numbered(19),
            Basic::EastWestToDiffusionNorth => Tile::numbered(20),
            Basic::EastWestToDiffusionSouth => Tile::numbered(21),
            Basic::EastToDiffusionNorth => Tile::numbered(22),
            Basic::EastToDiffusionSouth => Tile::numbered(23),
            Basic::WestToDiffusionNorth => Tile::numbered(24),
            Basic::WestToDiffusionSouth => Tile::numbered(25),
            Basic::Pass => Tile::numbered(26),
            Basic::Load => Tile::numbered(27),
        }
    }
}
