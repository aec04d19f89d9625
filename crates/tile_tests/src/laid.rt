//! Grids of tiles from texts.

ghost use Rattle.std.specs.Prelude.{◌≡◌, ◌<◌, true};
ghost use Rattle.micro_tiles.specs.declared.tile.TheConstants.{TILES};
ghost use Rattle.stick_grid.specs.Joins.{MeetsRight, MeetsBelow};
ghost use Rattle.stick_grid.specs.Tilings.{MeetsEast, MeetsSouth};

use micro_tiles::{Side, TILES, Tile, port};
use std::alloc::Global;
use std::test::Fail;
use stick_grid::Grid;

/// The grid of one tile.
fn single(alloc: Global, tile: Tile) -> Result<Grid, Fail> {
    prove!(tile.number() < TILES);
    let mut tiles = Vec::new(alloc);
    tiles.push(tile)?;
    Ok(Grid::new(alloc, 1, 1, tiles)?)
}

/// The two tiles carry the same on their common side where the second lies to the east of the first.
fn meets_east(west: Tile, east: Tile) -> bool
    ensures { result ≡ true → MeetsEast west east }
{
    port(west, Side::East) == port(east, Side::West)
}

/// The two tiles carry the same on their common side where the second lies to the south of the first.
fn meets_south(north: Tile, south: Tile) -> bool
    ensures { result ≡ true → MeetsSouth north south }
{
    port(north, Side::South) == port(south, Side::North)
}

/// The two grids can lie side by side.
fn meets_right(left: &Grid, right: &Grid) -> bool
    ensures { result ≡ true → MeetsRight left.now right.now }
{
    if left.rows() != right.rows() || left.cols() + right.cols() > 1 << 20 {
        return false;
    }
    for row in 0..left.rows() {
        if !meets_east(left.tile_at(row, left.cols() - 1), right.tile_at(row, 0)) {
            return false;
        }
    }
    true
}

/// The first grid can lie above the second.
fn meets_below(upper: &Grid, lower: &Grid) -> bool
    ensures { result ≡ true → MeetsBelow upper.now lower.now }
{
    if upper.cols() != lower.cols() || upper.rows() + lower.rows() > 1 << 20 {
        return false;
    }
    for col in 0..upper.cols() {
        if !meets_south(upper.tile_at(upper.rows() - 1, col), lower.tile_at(0, col)) {
            return false;
        }
    }
    true
}

/// A row of tiles by their numbers, if they meet.
fn row_of(alloc: Global, numbers: &str) -> Result<Option<Grid>, Fail> {
    let mut row: Option<Grid> = None;
    for number in numbers.split(' ') {
        let tile = Tile::new(number.parse::<u8>()?).ok_or("no tile")?;
        let next = single(alloc, tile)?;
        row = match row {
            None => Some(next),
            Some(before) if meets_right(&before, &next) => Some(before.beside(alloc, next)?),
            Some(_) => return Ok(None),
        };
    }
    Ok(row)
}

/// Rows of tiles by their numbers, one above another, if they meet.
pub(crate) fn laid(alloc: Global, tiles: &str) -> Result<Option<Grid>, Fail> {
    let mut grid: Option<Grid> = None;
    for numbers in tiles.split('/') {
        let Some(next) = row_of(alloc, numbers)? else {
            return Ok(None);
        };
        grid = match grid {
            None => Some(next),
            Some(before) if meets_below(&before, &next) => Some(before.above(alloc, next)?),
            Some(_) => return Ok(None),
        };
    }
    Ok(grid)
}
