// The squares of a drawing, layer by layer.

ghost use Rattle.std.specs.Prelude.{IfOk};
ghost use Rattle.geom.specs.Squares.{Covered};
ghost use Rattle.geom.specs.Merged.{InRuns};
ghost use Rattle.nmos_extract.specs.Layers.{AreLayers};

use canonical_boxes::Canonical;
use geom::{Box2, Layer, merge_runs};
use rx_text::NoMemory;
use std::alloc::Global;

/// The squares that each layer covers.
#[derive(Drop)]
pub struct Layers {
    pub diffusion: Canonical,
    pub poly: Canonical,
    pub metal: Canonical,
    pub cut: Canonical,
    pub implant: Canonical,
}

/// The squares that the boxes cover, layer by layer. Takes n log n steps.
///
/// # Errors
///
/// `NoMemory` where an allocation was refused.
pub fn layers_of(alloc: Global, boxes: &[Box2]) -> Result<Layers, NoMemory>
    ensures { IfOk result (AreLayers (Covered boxes.now)) }
{
    let merged = merge_runs(alloc, boxes)?;
    let layers = sets_of(alloc, &merged)?;
    Ok(layers)
}

/// The squares that the boxes cover, which are merged into runs, layer by layer.
fn sets_of(alloc: Global, merged: &[Box2]) -> Result<Layers, NoMemory>
    requires { InRuns merged.now }
    ensures { IfOk result (AreLayers (Covered merged.now)) }
{
    let diffusion = Canonical::of_layer(alloc, merged, Layer::Diffusion)?;
    let poly = Canonical::of_layer(alloc, merged, Layer::Poly)?;
    let metal = Canonical::of_layer(alloc, merged, Layer::Metal)?;
    let cut = Canonical::of_layer(alloc, merged, Layer::Cut)?;
    let implant = Canonical::of_layer(alloc, merged, Layer::Implant)?;
    Ok(Layers {
        diffusion,
        poly,
        metal,
        cut,
        implant,
    })
}
