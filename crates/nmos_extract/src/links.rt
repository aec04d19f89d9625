// Links between boxes that conduct.

ghost use Rattle.std.specs.Prelude.{◌≡◌, ◌<◌, ◌+◌, ◌^◌, length, IfOk, OnOk};
ghost use Rattle.nmos_extract.specs.Conducting.{AreSets, node_count};
ghost use Rattle.nmos_extract.specs.Links.{AddsTouches, AreLinks, link};

use crate::conductors::Conductors;
use crate::cuts::add_cuts;
use canonical_boxes::{Canonical, both, touches};
use geom::Layer;
use rx_text::NoMemory;
use std::alloc::Global;

/// Two nodes that are linked.
#[derive(Clone, Copy, Debug, PartialEq, Eq)]
pub(crate) struct Link {
    pub from: u32,
    pub to: u32,
}

/// The links between the boxes that conduct: one for each two that touch, and one for each box of squares where a cut joins metal to
/// another layer.
pub(crate) fn links_of(
    alloc: Global,
    conductors: &Conductors<'_>,
    cut: &Canonical,
) -> Result<Vec<Link>, NoMemory>
    requires few { node_count conductors.now < 2 ^ 32 }
    requires sets { AreSets conductors.now }
    ensures { IfOk result (λ links. AreLinks conductors.now cut.now links.items) }
{
    let metal = conductors.metal();
    let poly = conductors.poly();
    let diffusion = conductors.diffusion();
    let first_poly = conductors.first_node(Layer::Poly);
    let first_diffusion = conductors.first_node(Layer::Diffusion);
    let under = both(alloc, cut, metal)?;
    let to_poly = both(alloc, &under, poly)?;
    let to_diffusion = both(alloc, &under, diffusion)?;
    let mut links = Vec::new(alloc);
    add_touches(alloc, metal, 0, &mut links)?;
    add_touches(alloc, poly, first_poly, &mut links)?;
    add_touches(alloc, diffusion, first_diffusion, &mut links)?;
    add_cuts(alloc, &to_poly, metal, poly, first_poly, &mut links)?;
    add_cuts(
        alloc,
        &to_diffusion,
        metal,
        diffusion,
        first_diffusion,
        &mut links,
    )?;
    Ok(links)
}

/// Adds a link for each two boxes of the set that touch. The node of its first box is `first`.
pub(crate) fn add_touches(
    alloc: Global,
    set: &Canonical,
    first: u32,
    links: &mut Vec<Link>,
) -> Result<(), NoMemory>
    requires { first + length set.now < 2 ^ 32 }
    ensures { OnOk result (AddsTouches set.now first links.old.items links.new.items) }
{
    let found = touches(alloc, set)?;
    for touch in &found {
        links.push(link_of(first, first, touch.lower, touch.upper))?;
    }
    Ok(())
}

/// The link between the boxes of these numbers in two sets, whose first boxes have the nodes `first` and `second`.
pub(crate) fn link_of(first: u32, second: u32, from: usize, to: usize) -> Link
    requires from { first + from < 2 ^ 32 }
    requires to { second + to < 2 ^ 32 }
    ensures { result ≡ link (first + from) (second + to) }
{
    Link {
        from: first + from as u32,
        to: second + to as u32,
    }
}
