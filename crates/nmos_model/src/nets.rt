// The nets of a drawing.

ghost use Rattle.std.specs.Prelude.{◌≡◌, ◌<◌, ◌+◌, ◌*◌, ◌^◌, ℕ, List, IfOk, IfSome, length, ℤ, pos, neg_ℤ, ◌-ℤ◌, ◌≤ℤ◌};
ghost use Rattle.geom.specs.declared.layer.Layer.{Layer};
ghost use Rattle.geom.specs.Squares.{BoxShape, Covered};
ghost use Rattle.nmos_model.specs.NetMaps.{conductor, counted, net_count, net_of};
ghost use Rattle.nmos_model.specs.Nets.{AreNets};
ghost use Rattle.nmos_model.specs.Rasters.{Shows, number_of};

use crate::classes::{Classes, classify};
use crate::conductors::Conductors;
use crate::network::NetMap;
use crate::raster::{Cover, Frame};
use geom::Layer;
use rx_text::NoMemory;
use std::alloc::Global;
use std::marker::Model;

/// The nets of a drawing, numbered from 0, and the net of each conducting square.
#[derive(Drop)]
pub(crate) struct Nets {
    frame: Frame,
    classes: Classes,
}

impl Model for Nets {
    ghost use Rattle.std.specs.Prelude.{◌≡◌, ◌*◌, ◌<◌, ◌^◌, length};
    ghost use Rattle.nmos_model.specs.NetMaps.{NetMap};

    ghost Value = { NetMap };

    ghost view = { λ n. record { frame = n.frame; classes = n.classes } };

    ghost invariant = { λ n. (length n.classes.numbers ≡ 3 * (n.frame.width * n.frame.height)) × (length n.classes.numbers < 2 ^ 32) × (length n.classes.firsts < 2 ^ 32) };
}

/// The nets of the squares. A square of metal or poly conducts, and one of diffusion where no poly lies over it. Squares of one
/// layer that share a side are of one net, and so are two layers of a square under a cut. Takes time and memory in proportion
/// to the squares.
///
/// # Errors
///
/// `NoMemory` where an allocation was refused.
pub(crate) fn nets_of(alloc: Global, frame: Frame, squares: Vec<Cover>) -> Result<Nets, NoMemory>
    requires shows { (boxes : List BoxShape) × Shows frame squares.items (Covered boxes) }
    requires few { 3 * (length squares.items + frame.width + 1) < 2 ^ 32 }
    ensures { (boxes : List BoxShape) → Shows frame squares.items (Covered boxes) → IfOk result (λ nets. AreNets (Covered boxes) (net_count nets) (net_of nets)) }
{
    let classes = classify(alloc, &Conductors::new(frame.width, squares))?;
    Ok(Nets { frame, classes })
}

impl Nets {
    /// How many nets there are.
    pub(crate) fn count(&self) -> u32
        ensures { result ≡ net_count self.now }
    {
        self.classes.firsts().len() as u32
    }
}

impl NetMap for Nets {
    ghost net = { net_of };

    fn net_at(&self, layer: Layer, x: i64, y: i64) -> Option<u32>
        ensures { result ≡ net_of self.now layer x y }
    {
        let layer = conductor(layer)?;
        let column = counted(self.frame.x, self.frame.width, x)?;
        let row = counted(self.frame.y, self.frame.height, y)?;
        self.classes
            .class(number_in(self.frame, layer, column, row))
    }
}

/// The number of the square of this column and row in the layer.
fn number_in(frame: Frame, layer: u32, column: u32, row: u32) -> u32
    requires layer { layer < 3 }
    requires column { column < frame.width }
    requires row { row < frame.height }
    requires few { 3 * (frame.width * frame.height) < 2 ^ 32 }
    ensures number { result ≡ 3 * number_of frame.width column row + layer }
    ensures within { result < 3 * (frame.width * frame.height) }
{
    3 * (row * frame.width + column) + layer
}

/// The number of the layer among those that conduct.
fn conductor(layer: Layer) -> Option<u32>
    ensures number { result ≡ conductor layer }
    ensures few { IfSome result (λ number. number < 3) }
{
    match layer {
        Layer::Metal => Some(0),
        Layer::Poly => Some(1),
        Layer::Diffusion => Some(2),
        Layer::Cut | Layer::Implant => None,
    }
}

/// The column or row, counted from the first of the frame, where the frame has it.
fn counted(origin: i64, size: u32, at: i64) -> Option<u32>
    ensures number { result ≡ counted size (at -ℤ origin) }
    ensures within { IfSome result (λ number. number < size) }
{
    let distance = i128::from(at) - i128::from(origin);
    if 0 <= distance && distance < i128::from(size) {
        Some(distance as u32)
    } else {
        None
    }
}
