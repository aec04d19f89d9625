// Channel regions: blocks of channel squares with diffusion on two opposite sides.

ghost use Rattle.std.specs.Prelude.{◌≡◌, ◌↔◌, ℕ, ◌<◌, ◌≤◌, ◌+◌, ◌*◌, ◌^◌, ◌/◌, ◌%◌, Bool, true, false, List, length, IfOk, IfErr, IfSome, IfNone, OnOk, pos, ◌+ℤ◌, ◌≤ℤ◌, neg_ℤ};
ghost use Rattle.geom.specs.Rows.{Among, Pairwise};
ghost use Rattle.geom.specs.Squares.{BoxShape, Covered};
ghost use Rattle.nmos_model.specs.Channels.{AreChannels, IsEarlier};
ghost use Rattle.nmos_model.specs.Extents.{IsNear};
ghost use Rattle.nmos_model.specs.Lists.{Matched};
ghost use Rattle.nmos_model.specs.Rasters.{Shows, cover_at, number_of};
ghost use Rattle.nmos_model.specs.Refusals.{HasChannels, IsOddBy};
ghost use Rattle.nmos_model.specs.Regions.{HasMargin, IsCut, IsEnd, IsInnerBlock, IsOddFirst, IsRegion, cover_in, is_channel, square_at};

use crate::block::{Block, Region};
use crate::channel::Channel;
use crate::channel_squares::{ChannelSquares, Kind, channel_kind, is_channel};
use crate::classes::classify;
use crate::edges::refusal_at;
use crate::raster::{Cover, Frame, Stretch};
use crate::refusal::{ExtractCode, ReadChipFault};
use crate::terminals::with_terminals;
use std::alloc::Global;

/// The channels of the squares, in row order of their first squares. Takes time and memory in proportion to the squares.
///
/// # Errors
///
/// `Fault` with the first region that is no full rectangle or lies partly under implant (`X1`), else the first that has not
/// conducting diffusion along two opposite sides and nowhere along the others (`X2`), by its first square; `NoMemory` where an
/// allocation was refused.
pub(crate) fn channels_of(
    alloc: Global,
    frame: Frame,
    squares: &[Cover],
) -> Result<Vec<Channel>, ReadChipFault>
    requires near { IsNear frame }
    requires few { length squares.now + frame.width < 2 ^ 32 }
    requires shows { (boxes : List BoxShape) × Shows frame squares.now (Covered boxes) }
    ensures channels { (boxes : List BoxShape) → Shows frame squares.now (Covered boxes) → IfOk result (λ channels. AreChannels (Covered boxes) channels.items) }
    ensures order { (boxes : List BoxShape) → Shows frame squares.now (Covered boxes) → IfOk result (λ channels. Pairwise IsEarlier channels.items) }
    ensures even { (boxes : List BoxShape) → Shows frame squares.now (Covered boxes) → OnOk result (HasChannels (Covered boxes)) }
    ensures fault { (boxes : List BoxShape) → Shows frame squares.now (Covered boxes) → IfErr result (IsOddBy (Covered boxes)) }
{
    let squares = ChannelSquares::new(frame, squares);
    let classes = classify(alloc, &squares)?;
    let regions = regions_of(alloc, &squares, classes.firsts())?;
    with_terminals(alloc, &squares, &regions)
}

/// The regions of these first squares.
fn regions_of(
    alloc: Global,
    squares: &ChannelSquares<'_>,
    firsts: &[u32],
) -> Result<Vec<Region>, ReadChipFault>
    requires margin { HasMargin squares.now }
    requires channel { (first : ℕ) → Among firsts.now first → is_channel (cover_at squares.now.covers first) ≡ true }
    requires near { IsNear squares.now.frame }
    ensures regions { IfOk result (λ regions. Matched (IsRegion squares.now) firsts.now regions.items) }
    ensures fault { IfErr result (IsOddFirst squares.now firsts.now) }
{
    let mut regions = Vec::new(alloc);
    for first in firsts {
        match region_at(squares, *first) {
            Some(region) => regions.push(region)?,
            None => return Err(odd_channel(squares.frame(), *first)),
        }
    }
    Ok(regions)
}

/// The region that begins at the square of this number, where it is a full rectangle with one kind of implant.
fn region_at(squares: &ChannelSquares<'_>, first: u32) -> Option<Region>
    requires margin { HasMargin squares.now }
    requires channel { is_channel (cover_at squares.now.covers first) ≡ true }
    ensures some { IfSome result (IsRegion squares.now first) }
    ensures none { IfNone result ((region : Region) → IsRegion squares.now first region → ⊥) }
{
    let region = widest(squares, first);
    if is_cut(squares, region) {
        Some(region)
    } else {
        None
    }
}

/// The only rectangle that the region of this first square can be.
fn widest(squares: &ChannelSquares<'_>, first: u32) -> Region
    requires margin { HasMargin squares.now }
    requires channel { is_channel (cover_at squares.now.covers first) ≡ true }
    ensures inner { IsInnerBlock squares.now.frame result.block }
    ensures first { first ≡ number_of squares.now.frame.width result.block.columns.from result.block.rows.from }
    ensures only { (region : Region) → IsRegion squares.now first region → region ≡ result }
{
    let width = squares.frame().width;
    let column = first % width;
    let row = first / width;
    Region {
        block: Block {
            columns: Stretch {
                from: column,
                to: end_of_row(squares, column, row),
            },
            rows: Stretch {
                from: row,
                to: end_of_column(squares, column, row),
            },
        },
        depletion: squares.cover(column, row).implant,
    }
}

/// The first column from this one on where the square of the row is no channel square.
fn end_of_row(squares: &ChannelSquares<'_>, column: u32, row: u32) -> u32
    requires column { column < squares.now.frame.width }
    requires row { row < squares.now.frame.height }
    ensures { IsEnd (λ at. is_channel (cover_in squares.now at row)) column squares.now.frame.width result }
{
    let width = squares.frame().width;
    for at in column..width {
        if !is_channel(squares.cover(at, row)) {
            return at;
        }
    }
    width
}

/// The first row from this one on where the square of the column is no channel square.
fn end_of_column(squares: &ChannelSquares<'_>, column: u32, row: u32) -> u32
    requires column { column < squares.now.frame.width }
    requires row { row < squares.now.frame.height }
    ensures { IsEnd (λ at. is_channel (cover_in squares.now column at)) row squares.now.frame.height result }
{
    let height = squares.frame().height;
    for at in row..height {
        if !is_channel(squares.cover(column, at)) {
            return at;
        }
    }
    height
}

/// All squares of the region are channel squares of one kind, and none next to it is a channel square.
fn is_cut(squares: &ChannelSquares<'_>, region: Region) -> bool
    requires { IsInnerBlock squares.now.frame region.block }
    ensures { (result ≡ true) ↔ IsCut squares.now region }
{
    let block = region.block;
    squares.all(block, channel_kind(region.depletion))
        && squares.both(block.above_and_below(), Kind::NoChannel)
        && squares.both(block.left_and_right(), Kind::NoChannel)
}

/// The fault that the region with this first square is no full rectangle, or lies partly under implant.
fn odd_channel(frame: Frame, first: u32) -> ReadChipFault
    requires within { first < frame.width * frame.height }
    requires near { IsNear frame }
    ensures { result ≡ ReadChipFault.Fault (record { code = ExtractCode.X1; place = square_at frame (first % frame.width) (first / frame.width) }) }
{
    refusal_at(
        ExtractCode::X1,
        frame,
        first % frame.width,
        first / frame.width,
    )
}
