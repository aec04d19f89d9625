// The nets of a drawing, as classes of its boxes.

ghost use Rattle.std.specs.Prelude.{◌≡◌, ◌<◌, List, length, map, IfOk, IfSome};
ghost use Rattle.geom.specs.Squares.{BoxShape, Covered};
ghost use Rattle.geom.specs.declared.layer.Layer.{Layer};
ghost use Rattle.nmos_model.specs.Nets.{AreNets};
ghost use Rattle.nmos_model.specs.Sites.{site_net};
ghost use Rattle.nmos_extract.specs.Conducting.{boxes_in, first_node};
ghost use Rattle.nmos_extract.specs.Layers.{AreLayers};
ghost use Rattle.nmos_extract.specs.Terminals.{AreTerminals};
ghost use Rattle.nmos_extract.specs.NetTables.{class_over, found_in, net_count, net_of, square_of};

use crate::conductors::Conductors;
use crate::graph::LinkGraph;
use crate::layers::Layers;
use crate::links::links_of;
use canonical_boxes::laws::{boxes_are_numbered, boxes_stand_for_squares};
use canonical_boxes::{Canonical, locate};
use geom::{Layer, Point};
use nmos_model::{Classes, Site, SiteNets, classify};
use rx_text::NoMemory;
use std::alloc::Global;
use std::marker::Model;

/// The nets of a drawing, numbered from 0, and the net of each conducting square.
#[derive(Drop)]
pub struct Nets<'a> {
    conductors: Conductors<'a>,
    classes: Classes,
}

impl<'a> Model for Nets<'a> {
    ghost use Rattle.nmos_extract.specs.NetTables.{IsTable, NetTable};

    ghost Value = { NetTable };

    ghost view = { λ n. record { conductors = n.conductors; classes = n.classes } };

    ghost invariant = { λ n. IsTable (record { conductors = n.conductors; classes = n.classes }) };
}

/// The nets of the drawing with these layers and this diffusion without poly: the classes of boxes that touch, or that cuts join.
/// Takes n log n steps in the boxes of the sets and of their squares under cuts.
///
/// # Errors
///
/// `NoMemory` where an allocation was refused. The list of the classes has an entry for each box, and no list of 2^32 entries is
/// granted.
pub fn nets_of<'a>(
    alloc: Global,
    layers: &'a Layers,
    terminals: &'a Canonical,
) -> Result<Nets<'a>, NoMemory>
    ensures { (boxes : List BoxShape) → AreLayers (Covered boxes) layers.now → AreTerminals (Covered boxes) terminals.now
        → IfOk result (λ nets. AreNets (Covered boxes) (net_count nets) (net_of nets)) }
{
    boxes_are_numbered();
    boxes_stand_for_squares();
    let conductors = Conductors::new(&layers.metal, &layers.poly, terminals)?;
    let nodes = conductors.nodes();
    let links = links_of(alloc, &conductors, &layers.cut)?;
    let graph = LinkGraph::new(alloc, nodes, &links)?;
    let classes = classify(alloc, &graph)?;
    Ok(Nets {
        conductors,
        classes,
    })
}

impl Nets<'_> {
    /// How many nets there are.
    pub fn count(&self) -> u32
        ensures { result ≡ net_count self.now }
    {
        self.classes.firsts().len() as u32
    }

    /// The net of the box of this number in the layer.
    fn class_over(&self, layer: Layer, number: Option<usize>) -> Option<u32>
        requires { IfSome number (λ i. i < length (boxes_in self.now.conductors layer)) }
        ensures { result ≡ class_over self.now.classes.numbers (first_node self.now.conductors layer) number }
    {
        let number = number?;
        self.classes
            .class(self.conductors.first_node(layer) + number as u32)
    }
}

impl<'a> SiteNets for Nets<'a> {
    ghost net = { net_of };

    fn nets_at(&self, alloc: Global, sites: &[Site]) -> Result<Vec<Option<u32>>, NoMemory>
        ensures { IfOk result (λ found. found.items ≡ map (site_net (net_of self.now)) sites.now) }
    {
        boxes_are_numbered();
        let squares = squares_of(alloc, sites)?;
        let metal = locate(alloc, self.conductors.metal(), &squares)?;
        let poly = locate(alloc, self.conductors.poly(), &squares)?;
        let diffusion = locate(alloc, self.conductors.diffusion(), &squares)?;
        let mut found = Vec::new(alloc);
        for (at, site) in sites.iter().enumerate() {
            let number = found_in(site.layer, metal[at], poly[at], diffusion[at]);
            found.push(self.class_over(site.layer, number))?;
        }
        Ok(found)
    }
}

/// The squares of the sites.
fn squares_of(alloc: Global, sites: &[Site]) -> Result<Vec<Point>, NoMemory>
    ensures { IfOk result (λ squares. squares.items ≡ map square_of sites.now) }
{
    Ok(sites.iter().map(|site| square_of(site)).collect(alloc)?)
}

/// The square of the site.
fn square_of(site: &Site) -> Point
    ensures { result ≡ square_of site.now }
{
    Point {
        x: site.x,
        y: site.y,
    }
}

/// Of what is found in metal, in poly and in diffusion, that of the layer.
fn found_in(
    layer: Layer,
    metal: Option<usize>,
    poly: Option<usize>,
    diffusion: Option<usize>,
) -> Option<usize>
    ensures { result ≡ found_in layer metal poly diffusion }
{
    match layer {
        Layer::Metal => metal,
        Layer::Poly => poly,
        Layer::Diffusion => diffusion,
        Layer::Cut | Layer::Implant => None,
    }
}
