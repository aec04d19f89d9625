// Squares in layers whose nets are asked.

ghost use Rattle.std.specs.Prelude.{◌≡◌, map, IfOk};
ghost use Rattle.nmos_model.specs.Devices.{IsNear};
ghost use Rattle.nmos_model.specs.Sites.{first_site, gate_site, label_site, second_site};

use crate::channel::Channel;
use geom::{Label, Layer};
use rx_text::NoMemory;
use std::alloc::Global;

/// A square in a layer, by its lower left corner in lambda.
#[derive(Clone, Copy, Debug, PartialEq, Eq)]
pub struct Site {
    pub layer: Layer,
    pub x: i64,
    pub y: i64,
}

/// The sites of the labels.
pub(crate) fn label_sites(alloc: Global, labels: &[Label]) -> Result<Vec<Site>, NoMemory>
    ensures { IfOk result (λ sites. sites.items ≡ map label_site labels.now) }
{
    Ok(labels.iter().map(|label| label_site(label)).collect(alloc)?)
}

/// The site of the label.
fn label_site(label: &Label) -> Site
    ensures { result ≡ label_site label.now }
{
    Site {
        layer: label.layer,
        x: label.x,
        y: label.y,
    }
}

/// The site of the channel's gate.
pub(crate) fn gate_site(channel: &Channel) -> Site
    ensures { result ≡ gate_site channel.now }
{
    Site {
        layer: Layer::Poly,
        x: channel.x1,
        y: channel.y1,
    }
}

/// The site of the terminal above the channel or to its left.
pub(crate) fn first_site(channel: &Channel) -> Site
    requires { IsNear channel.now }
    ensures { result ≡ first_site channel.now }
{
    if channel.upright {
        diffusion_site(channel.x1, channel.y2)
    } else {
        diffusion_site(channel.x1 - 1, channel.y1)
    }
}

/// The site of the terminal below the channel or to its right.
pub(crate) fn second_site(channel: &Channel) -> Site
    requires { IsNear channel.now }
    ensures { result ≡ second_site channel.now }
{
    if channel.upright {
        diffusion_site(channel.x1, channel.y1 - 1)
    } else {
        diffusion_site(channel.x2, channel.y1)
    }
}

/// The site of the square in diffusion.
fn diffusion_site(x: i64, y: i64) -> Site
    ensures { result ≡ record { layer = Layer.Diffusion; x = x; y = y } }
{
    Site {
        layer: Layer::Diffusion,
        x,
        y,
    }
}
