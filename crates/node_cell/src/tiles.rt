// The tiles of a block.

ghost use Rattle.std.specs.Prelude.{◌≡◌, ◌≤◌, ◌<◌, ◌^◌, ◌++◌, length, map, All, IfOk, OnOk};
ghost use Rattle.std.specs.List.{range_with_len};
ghost use Rattle.star_normal.specs.Tables.{parts, whole};
ghost use Rattle.star_normal.specs.Sizes.{AreSizes};
ghost use Rattle.star_normal.specs.Trees.{leaves};
ghost use Rattle.stick_grid.specs.Plans.{plan_of};
ghost use Rattle.stick_grid.specs.Windows.{HaveSameTiles, tiling_of};
ghost use Rattle.cell_network.specs.Home.{AreFew};
ghost use Rattle.cell_network.specs.Parts.{counts_of, node_at, part_of};
ghost use Rattle.node_cell.specs.Blocks.{IsBlockOf, block_side, is_left_light};
ghost use Rattle.node_cell.specs.BlockTiles.{block_plan, part_rows};
ghost use Rattle.node_cell.specs.Made.{form_of, form_plan, matrix_of, part_tile, shape_plan, wires_tile};

use crate::bundles::wires_tile;
use crate::ends::{cap_tile, foot_tile};
use crate::fits::parts_fit_blocks;
use crate::form::Form;
use crate::laws::blocks_are_modules;
use crate::lines::{block_side, part_rows};
use crate::matrix::matrix_of;
use block_grid::BlockKind;
use cell_network::{Counts, node_part};
use gate_matrix::Matrix;
use gate_matrix::laws::parts_fill_rows;
use micro_tiles::Tile;
use rx_lang::Spec;
use rx_text::NoMemory;
use star_normal::{Node, NodeKind, Tree, sizes};
use std::alloc::Global;
use std::marker::Model;
use stick_grid::Grid;
use stick_grid::laws::same_tiles_agree;

/// A block of a tree's layout, each tile of which is told by its row and column.
#[derive(Drop)]
pub struct BlockTiles {
    counts: Counts,
    form: Form,
    part: Matrix,
}

impl Model for BlockTiles {
    ghost use Rattle.node_cell.specs.Made.{BlockShape, IsMade};

    ghost Value = { BlockShape };

    ghost view = { λ b. record { counts = b.counts; form = b.form; part = b.part } };

    ghost invariant = { λ b. IsMade b.counts b.form b.part };
}

impl BlockTiles {
    /// The block of this kind, for a node of the tree or its frame with the part that `node_part` has for it.
    ///
    /// # Errors
    ///
    /// `NoMemory` where an allocation was refused.
    pub fn new(
        alloc: Global,
        kind: BlockKind,
        tree: &Tree,
        spec: &Spec,
    ) -> Result<BlockTiles, NoMemory>
        requires kind { IsBlockOf tree.now kind }
        requires symbols { All (λ s. s < length spec.now.symbols) (leaves (whole tree.now)) }
        ensures { IfOk result (λ block. shape_plan block ≡ block_plan tree.now spec.now kind) }
    {
        let counts = Counts::of(tree, spec);
        match kind {
            BlockKind::Node(node) => {
                let form = node_form(alloc, tree, node)?;
                part_block(alloc, form, tree, node, spec)
            }
            BlockKind::Frame(node) => part_block(alloc, Form::Frame, tree, node, spec),
            _ => wires_block(alloc, counts, kind),
        }
    }

    /// How many rows of tiles it has, and as many columns.
    pub fn side(&self) -> u32
        ensures side { result ≡ block_side self.now.counts }
        ensures few { result ≤ 700 }
    {
        block_side(self.counts)
    }

    /// The tile in this row and column, from the north and from the west.
    pub fn tile_at(&self, row: u32, col: u32) -> Tile
        requires is_row { row < block_side self.now.counts }
        requires is_col { col < block_side self.now.counts }
        ensures { result ≡ (shape_plan self.now).tile row col }
    {
        match self.form {
            Form::Wires(kind) => wires_tile(self.counts, kind, row, col),
            Form::Leaf | Form::Pair(_) | Form::Frame => {
                part_tile(self.counts, self.form, &self.part, row, col)
            }
        }
    }

    /// Its tiles, row by row.
    fn all_tiles(&self, alloc: Global) -> Result<Vec<Tile>, NoMemory>
        ensures { IfOk result (λ tiles. tiles.items ≡ (tiling_of (shape_plan self.now)).tiles) }
    {
        let mut tiles = Vec::new(alloc);
        for row in 0..self.side() {
            self.add_row(row, &mut tiles)?;
        }
        Ok(tiles)
    }

    /// Adds the tiles of a row.
    fn add_row(&self, row: u32, tiles: &mut Vec<Tile>) -> Result<(), NoMemory>
        requires { row < block_side self.now.counts }
        ensures { OnOk result (tiles.new.items ≡ tiles.old.items ++ map ((shape_plan self.now).tile row) (range_with_len 0 (block_side self.now.counts))) }
    {
        for col in 0..self.side() {
            tiles.push(self.tile_at(row, col))?;
        }
        Ok(())
    }
}

/// The tile in this row and column of a block with a part.
fn part_tile(counts: Counts, form: Form, part: &Matrix, row: u32, col: u32) -> Tile
    requires few { AreFew counts }
    requires rows { length part.now.rows ≡ part_rows counts }
    requires cols { part.now.cols ≡ block_side counts }
    requires nets { length part.now.at ≤ 2 ^ 16 }
    requires is_row { row < block_side counts }
    requires is_col { col < block_side counts }
    ensures { result ≡ part_tile counts form part.now row col }
{
    let height = part_rows(counts);
    if row == 0 {
        cap_tile(counts, form, part.nets(), col)
    } else if row <= height {
        part.tile(row as usize - 1, col as usize)
    } else {
        foot_tile(counts, form, part.nets(), row - 1 - height, col)
    }
}

/// A block of bundles alone.
fn wires_block(alloc: Global, counts: Counts, kind: BlockKind) -> Result<BlockTiles, NoMemory>
    requires { AreFew counts }
    ensures { IfOk result (λ block. shape_plan block ≡ record { rows = block_side counts; cols = block_side counts; tile = wires_tile counts kind }) }
{
    let part = Matrix::new(alloc, Vec::new(alloc), Vec::new(alloc), block_side(counts))?;
    Ok(BlockTiles {
        counts,
        form: Form::Wires(kind),
        part,
    })
}

/// The form of the block of a node.
fn node_form(alloc: Global, tree: &Tree, node: u32) -> Result<Form, NoMemory>
    requires { node < length tree.now.nodes }
    ensures { IfOk result (λ form. form ≡ form_of tree.now.nodes (node_at tree.now.nodes node).kind) }
{
    let sizes = sizes(alloc, tree)?;
    let nodes = tree.nodes();
    let node = nodes[node as usize];
    Ok(form_of(nodes, &sizes, node.kind))
}

/// The form of the block of a node of this kind.
fn form_of(nodes: &[Node], sizes: &[u32], kind: NodeKind) -> Form
    requires sizes { AreSizes nodes.now sizes.now }
    requires parts { All (λ child. child < length nodes.now) (parts kind) }
    ensures { result ≡ form_of nodes.now kind }
{
    match kind {
        NodeKind::Leaf(_) => Form::Leaf,
        NodeKind::Seq { left, right } => Form::Pair(is_left_light(nodes, sizes, left, right)),
        NodeKind::Alt { left, right } => Form::Pair(is_left_light(nodes, sizes, left, right)),
    }
}

/// Whether the left one of two parts has no more leaves than the right one, so that it is the light one. `sizes` has the number of
/// leaves of each node.
pub fn is_left_light(nodes: &[Node], sizes: &[u32], left: u32, right: u32) -> bool
    requires sizes { AreSizes nodes.now sizes.now }
    requires left { left < length nodes.now }
    requires right { right < length nodes.now }
    ensures { result ≡ is_left_light nodes.now left right }
{
    sizes[left as usize] <= sizes[right as usize]
}

/// The block of a node or of the frame, of this form.
fn part_block(
    alloc: Global,
    form: Form,
    tree: &Tree,
    node: u32,
    spec: &Spec,
) -> Result<BlockTiles, NoMemory>
    requires node { node ≤ length tree.now.nodes }
    requires symbols { All (λ s. s < length spec.now.symbols) (leaves (whole tree.now)) }
    ensures { IfOk result (λ block. shape_plan block ≡ form_plan (counts_of tree.now spec.now) form (matrix_of (counts_of tree.now spec.now) (part_of tree.now spec.now node))) }
{
    parts_fit_blocks();
    parts_fill_rows();
    let counts = Counts::of(tree, spec);
    let part = node_part(alloc, tree, node, spec)?;
    let part = matrix_of(alloc, counts, &part)?;
    Ok(BlockTiles { counts, form, part })
}

/// The block of this kind as a grid.
///
/// # Errors
///
/// `NoMemory` where an allocation was refused.
pub fn block(alloc: Global, kind: BlockKind, tree: &Tree, spec: &Spec) -> Result<Grid, NoMemory>
    requires kind { IsBlockOf tree.now kind }
    requires symbols { All (λ s. s < length spec.now.symbols) (leaves (whole tree.now)) }
    ensures tiles { IfOk result (λ grid. grid ≡ tiling_of (block_plan tree.now spec.now kind)) }
    ensures same { IfOk result (λ grid. HaveSameTiles (block_plan tree.now spec.now kind) (plan_of grid)) }
{
    blocks_are_modules();
    same_tiles_agree();
    let counts = Counts::of(tree, spec);
    let side = block_side(counts);
    let block = BlockTiles::new(alloc, kind, tree, spec)?;
    let tiles = block.all_tiles(alloc)?;
    Grid::new(alloc, side, side, tiles)
}
