// The channel squares of a raster as the nodes of a graph, and what its squares are.

ghost use Rattle.std.specs.Prelude.{◌≡◌, ◌↔◌, ℕ, ◌<◌, ◌≤◌, ◌+◌, ◌*◌, ◌^◌, ◌-◌, Some, true, length, slice_get};
ghost use Rattle.nmos_model.specs.Rasters.{cover_at, number_of, IsIn};
ghost use Rattle.nmos_model.specs.Regions.{Raster, AreAll, AreBoth, AreWithin, IsWithin, channel_kind, channel_link, channel_links, cover_in, is_channel, is_kind};

use crate::block::{Block, Lines};
use crate::classes::Graph;
use crate::conductors::conducts;
use crate::raster::{Cover, Frame, Stretch};
use geom::Layer;
use std::marker::Model;

/// How many links each node has: to its four sides.
const LINKS: u32 = 4;

/// What a square is, as far as channels go.
#[derive(Clone, Copy, Debug, PartialEq, Eq)]
pub(crate) enum Kind {
    /// A channel square under implant.
    Depletion,
    /// A channel square beside implant.
    Enhancement,
    /// No channel square.
    NoChannel,
    /// Conducting diffusion.
    Terminal,
    /// No conducting diffusion.
    NoTerminal,
}

/// The squares of a frame, by rows from the lowest. Their numbers are nodes where they are channel squares.
#[derive(Drop)]
pub(crate) struct ChannelSquares<'a> {
    frame: Frame,
    squares: &'a [Cover],
}

impl<'a> Model for ChannelSquares<'a> {
    ghost use Rattle.std.specs.Prelude.{◌≡◌, ◌<◌, ◌+◌, ◌*◌, ◌^◌, length};
    ghost use Rattle.nmos_model.specs.Regions.{Raster};

    ghost Value = { Raster };

    ghost view = { λ c. record { frame = c.frame; covers = c.squares.now } };

    ghost invariant = { λ c. (length c.squares.now ≡ c.frame.width * c.frame.height) × (length c.squares.now + c.frame.width < 2 ^ 32) };
}

impl<'a> ChannelSquares<'a> {
    /// The squares of the frame.
    pub(crate) fn new(frame: Frame, squares: &'a [Cover]) -> ChannelSquares<'a>
        requires size { length squares.now ≡ frame.width * frame.height }
        requires few { length squares.now + frame.width < 2 ^ 32 }
        ensures { result ≡ record { frame = frame; covers = squares.now } }
    {
        ChannelSquares { frame, squares }
    }

    /// The frame of the squares.
    pub(crate) fn frame(&self) -> Frame
        ensures frame { result ≡ self.now.frame }
        ensures size { length self.now.covers ≡ result.width * result.height }
        ensures few { length self.now.covers + result.width < 2 ^ 32 }
    {
        self.frame
    }

    /// What covers the square of the column and row.
    pub(crate) fn cover(&self, column: u32, row: u32) -> Cover
        requires column { column < self.now.frame.width }
        requires row { row < self.now.frame.height }
        ensures { result ≡ cover_in self.now column row }
    {
        self.squares[(row * self.frame.width + column) as usize]
    }

    /// All squares of both lines are of the kind.
    pub(crate) fn both(&self, lines: Lines, kind: Kind) -> bool
        requires { AreWithin self.now.frame lines }
        ensures { (result ≡ true) ↔ AreBoth self.now lines kind }
    {
        self.all(lines.one, kind) && self.all(lines.other, kind)
    }

    /// All squares of the block are of the kind.
    pub(crate) fn all(&self, block: Block, kind: Kind) -> bool
        requires { IsWithin self.now.frame block }
        ensures { (result ≡ true) ↔ AreAll self.now block kind }
    {
        for row in block.rows.from..block.rows.to {
            if !self.all_of_row(block.columns, row, kind) {
                return false;
            }
        }
        true
    }

    /// All squares in these columns of the row are of the kind.
    fn all_of_row(&self, columns: Stretch, row: u32, kind: Kind) -> bool
        requires columns { columns.to ≤ self.now.frame.width }
        requires row { row < self.now.frame.height }
        ensures { (result ≡ true) ↔ ((column : ℕ) → IsIn columns column → is_kind kind (cover_in self.now column row) ≡ true) }
    {
        for column in columns.from..columns.to {
            if !is_kind(kind, self.cover(column, row)) {
                return false;
            }
        }
        true
    }

    /// A link to the number, where it is a channel square's.
    fn link_to(&self, number: u32) -> Option<u32>
        ensures { result ≡ channel_link self.now number }
    {
        if number < self.size() && self.is_node(number) {
            Some(number)
        } else {
            None
        }
    }
}

/// It is a channel square.
pub(crate) fn is_channel(cover: Cover) -> bool
    ensures { result ≡ is_channel cover }
{
    cover.diffusion && cover.poly
}

/// The square is of the kind.
fn is_kind(kind: Kind, cover: Cover) -> bool
    ensures { result ≡ is_kind kind cover }
{
    match kind {
        Kind::Depletion => is_channel(cover) && cover.implant,
        Kind::Enhancement => is_channel(cover) && !cover.implant,
        Kind::NoChannel => !is_channel(cover),
        Kind::Terminal => conducts(Layer::Diffusion, cover),
        Kind::NoTerminal => !conducts(Layer::Diffusion, cover),
    }
}

/// The kind of the squares of a channel.
pub(crate) fn channel_kind(depletion: bool) -> Kind
    ensures { result ≡ channel_kind depletion }
{
    if depletion {
        Kind::Depletion
    } else {
        Kind::Enhancement
    }
}

impl<'a> Graph for ChannelSquares<'a> {
    ghost size = { λ c. length c.covers };

    ghost is_node = { λ c number. is_channel (cover_at c.covers number) };

    ghost links = { channel_links };

    fn size(&self) -> u32
        ensures { result ≡ length self.now.covers }
    {
        self.squares.len() as u32
    }

    fn is_node(&self, number: u32) -> bool
        requires { number < length self.now.covers }
        ensures { result ≡ is_channel (cover_at self.now.covers number) }
    {
        is_channel(self.squares[number as usize])
    }

    fn link_count(&self, node: u32) -> u32
        requires within { node < length self.now.covers }
        requires node { is_channel (cover_at self.now.covers node) ≡ true }
        ensures { result ≡ length (channel_links self.now node) }
    {
        LINKS
    }

    fn link(&self, node: u32, at: u32) -> Option<u32>
        requires within { node < length self.now.covers }
        requires node { is_channel (cover_at self.now.covers node) ≡ true }
        requires link { at < length (channel_links self.now node) }
        ensures { Some result ≡ slice_get (channel_links self.now node) at }
    {
        let row = self.frame.width;
        match at {
            0 => self.link_to(node.saturating_sub(1)),
            1 => self.link_to(node + 1),
            2 => self.link_to(node.saturating_sub(row)),
            _ => self.link_to(node + row),
        }
    }
}
