// Boxes merged into runs.

ghost use Rattle.std.specs.Prelude.{◌≡◌, ◌+◌, ◌↔◌, IsTrue, IfOk, OnOk};
ghost use Rattle.geom.specs.Squares.{IsBox};
ghost use Rattle.geom.specs.Merged.{Merges, MergedOnce, rank};
ghost use Rattle.geom.specs.Wholes.{IsChosen, SortsRows, AreLayers};

use crate::layer::Layer;
use crate::layer_box::Box2;
use crate::stacking::stacked;
use crate::sweep::row_runs;
use rx_text::NoMemory;
use std::alloc::Global;

/// Merges boxes: the result covers the same squares of each layer. In it no two boxes of one layer share a square or
/// a stretch of a vertical edge, and no two of one layer with equal `x1` and equal `x2` share a horizontal edge. It
/// is ordered by layer, then by `y1`, then by `x1`.
///
/// # Errors
///
/// `NoMemory` where an allocation was refused.
pub fn merge_runs(alloc: Global, boxes: &[Box2]) -> Result<Vec<Box2>, NoMemory>
    ensures { IfOk result (λ merged. Merges boxes.now merged.items) }
{
    let mut merged = Vec::new(alloc);
    add_layer(alloc, boxes, Layer::Diffusion, &mut merged)?;
    add_layer(alloc, boxes, Layer::Poly, &mut merged)?;
    add_layer(alloc, boxes, Layer::Metal, &mut merged)?;
    add_layer(alloc, boxes, Layer::Cut, &mut merged)?;
    add_layer(alloc, boxes, Layer::Implant, &mut merged)?;
    Ok(merged)
}

/// Adds the merged boxes of the layer behind those of the layers before it.
fn add_layer(
    alloc: Global,
    boxes: &[Box2],
    layer: Layer,
    merged: &mut Vec<Box2>,
) -> Result<(), NoMemory>
    requires { AreLayers boxes.now (rank layer) merged.old.items }
    ensures { OnOk result (AreLayers boxes.now (rank layer + 1) merged.new.items) }
{
    let chosen = choose(alloc, boxes, layer)?;
    let columns = stacked(alloc, chosen)?;
    let parts = row_runs(alloc, &columns, layer)?;
    let mut runs = stacked(alloc, parts)?;
    sort_by_row(&mut runs)?;
    merged.extend_from_slice(&runs)?;
    Ok(())
}

/// The boxes of the layer.
fn choose(alloc: Global, boxes: &[Box2], layer: Layer) -> Result<Vec<Box2>, NoMemory>
    ensures { IfOk result (λ chosen. IsChosen boxes.now layer chosen.items) }
{
    let mut chosen = Vec::new(alloc);
    for b in boxes {
        if is_of(b, layer) {
            chosen.push(*b)?;
        }
    }
    Ok(chosen)
}

/// The box is of the layer.
fn is_of(b: &Box2, layer: Layer) -> bool
    ensures belongs { IsTrue result ↔ (b.now.layer ≡ layer) }
    ensures shaped { IsBox b.now }
{
    b.layer == layer
}

/// Sorts boxes by their lower edges, and leaves those of equal lower edges in their order.
fn sort_by_row(boxes: &mut Vec<Box2>) -> Result<(), NoMemory>
    ensures { OnOk result (SortsRows boxes.old.items boxes.new.items) }
{
    boxes.sort_by_key(|b| lower_edge(b))?;
    Ok(())
}

/// The lower edge of the box.
fn lower_edge(b: &Box2) -> i64
    ensures { result ≡ b.now.y1 }
{
    b.y1
}

/// What boxes merge into is a function of their squares.
pub fn merged_once()
    ensures { MergedOnce }
{}
