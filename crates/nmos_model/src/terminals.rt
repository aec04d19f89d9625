// Terminals of channel regions: conducting diffusion along two opposite sides.

ghost use Rattle.std.specs.Prelude.{◌≡◌, ◌↔◌, ◌<◌, Bool, true, IfOk, IfErr, IfSome, IfNone, pos, ◌+ℤ◌};
ghost use Rattle.geom.specs.Rows.{Among};
ghost use Rattle.nmos_model.specs.declared.block.Region.{Region};
ghost use Rattle.nmos_model.specs.declared.channel_squares.Kind.TheVariants.{Terminal, NoTerminal};
ghost use Rattle.nmos_model.specs.Extents.{IsNear};
ghost use Rattle.nmos_model.specs.Lists.{Matched};
ghost use Rattle.nmos_model.specs.Regions.{AreBoth, AreWithin, HasEnds, IsChannelOf, IsInnerBlock, IsOddEnds, channel_at, square_at};

use crate::block::{Block, Lines, Region};
use crate::channel::Channel;
use crate::channel_squares::{ChannelSquares, Kind};
use crate::edges::{column_edge, refusal_at, row_edge};
use crate::raster::Frame;
use crate::refusal::{ExtractCode, ReadChipFault};
use std::alloc::Global;

/// The channels of the regions, in their order.
pub(crate) fn with_terminals(
    alloc: Global,
    squares: &ChannelSquares<'_>,
    regions: &[Region],
) -> Result<Vec<Channel>, ReadChipFault>
    requires inner { (region : Region) → Among regions.now region → IsInnerBlock squares.now.frame region.block }
    requires near { IsNear squares.now.frame }
    ensures channels { IfOk result (λ channels. Matched (IsChannelOf squares.now) regions.now channels.items) }
    ensures fault { IfErr result (IsOddEnds squares.now regions.now) }
{
    let mut channels = Vec::new(alloc);
    for region in regions {
        match channel_of(squares, *region) {
            Some(channel) => channels.push(channel)?,
            None => return Err(odd_terminals(squares.frame(), *region)),
        }
    }
    Ok(channels)
}

/// The channel of the region, where it has terminals.
fn channel_of(squares: &ChannelSquares<'_>, region: Region) -> Option<Channel>
    requires inner { IsInnerBlock squares.now.frame region.block }
    requires near { IsNear squares.now.frame }
    ensures some { IfSome result (IsChannelOf squares.now region) }
    ensures none { IfNone result ((upright : Bool) → HasEnds squares.now upright region.block → ⊥) }
{
    let upright = direction(squares, region.block)?;
    Some(channel_at(squares.frame(), upright, region))
}

/// Whether the block has terminals above and below it, or to its left and right.
fn direction(squares: &ChannelSquares<'_>, block: Block) -> Option<bool>
    requires { IsInnerBlock squares.now.frame block }
    ensures some { IfSome result (λ upright. HasEnds squares.now upright block) }
    ensures none { IfNone result ((upright : Bool) → HasEnds squares.now upright block → ⊥) }
{
    let vertical = block.above_and_below();
    let horizontal = block.left_and_right();
    if are_terminals(squares, vertical, horizontal) {
        Some(true)
    } else if are_terminals(squares, horizontal, vertical) {
        Some(false)
    } else {
        None
    }
}

/// All squares of the ends are conducting diffusion, and none of the sides is.
fn are_terminals(squares: &ChannelSquares<'_>, ends: Lines, sides: Lines) -> bool
    requires ends { AreWithin squares.now.frame ends }
    requires sides { AreWithin squares.now.frame sides }
    ensures { (result ≡ true) ↔ (AreBoth squares.now ends Terminal × AreBoth squares.now sides NoTerminal) }
{
    squares.both(ends, Kind::Terminal) && squares.both(sides, Kind::NoTerminal)
}

/// The channel with the squares of the region, in lambda.
fn channel_at(frame: Frame, upright: bool, region: Region) -> Channel
    requires inner { IsInnerBlock frame region.block }
    requires near { IsNear frame }
    ensures { result ≡ channel_at frame upright region }
{
    let Block { columns, rows } = region.block;
    Channel {
        x1: column_edge(frame, columns.from),
        y1: row_edge(frame, rows.from),
        x2: column_edge(frame, columns.to),
        y2: row_edge(frame, rows.to),
        upright,
        depletion: region.depletion,
    }
}

/// The fault that the region has no terminals.
fn odd_terminals(frame: Frame, region: Region) -> ReadChipFault
    requires inner { IsInnerBlock frame region.block }
    requires near { IsNear frame }
    ensures { result ≡ ReadChipFault.Fault (record { code = ExtractCode.X2; place = square_at frame region.block.columns.from region.block.rows.from }) }
{
    refusal_at(
        ExtractCode::X2,
        frame,
        region.block.columns.from,
        region.block.rows.from,
    )
}
