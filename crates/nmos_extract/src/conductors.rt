// The squares that conduct, layer by layer.

ghost use Rattle.std.specs.Prelude.{◌≡◌, ◌<◌, ◌^◌, ◌+◌, length, IfOk};
ghost use Rattle.canonical_boxes.specs.Canonical.{IsCanonical};
ghost use Rattle.nmos_extract.specs.Conducting.{AreSets, first_node, node_count};

use canonical_boxes::Canonical;
use geom::Layer;
use rx_text::NoMemory;
use std::marker::Model;

/// The squares of metal, of poly, and of diffusion without poly. Their boxes are the nodes of a graph, in this order.
#[derive(Drop)]
pub(crate) struct Conductors<'a> {
    metal: &'a Canonical,
    poly: &'a Canonical,
    diffusion: &'a Canonical,
    first_poly: u32,
    first_diffusion: u32,
    nodes: u32,
}

impl<'a> Model for Conductors<'a> {
    ghost use Rattle.std.specs.Prelude.{◌≡◌, ◌+◌, length};
    ghost use Rattle.nmos_extract.specs.Conducting.{AreSets, Conducting, node_count};

    ghost Value = { Conducting };

    ghost view = { λ c. record { metal = c.metal.now; poly = c.poly.now; diffusion = c.diffusion.now } };

    ghost invariant = { λ c. AreSets (record { metal = c.metal.now; poly = c.poly.now; diffusion = c.diffusion.now })
        × (c.first_poly ≡ length c.metal.now) × (c.first_diffusion ≡ length c.metal.now + length c.poly.now)
        × (c.nodes ≡ node_count (record { metal = c.metal.now; poly = c.poly.now; diffusion = c.diffusion.now })) };
}

impl<'a> Conductors<'a> {
    /// These sets.
    ///
    /// # Errors
    ///
    /// `NoMemory` where they have 2^32 boxes or more, since nodes have numbers of 32 bits.
    pub(crate) fn new(
        metal: &'a Canonical,
        poly: &'a Canonical,
        diffusion: &'a Canonical,
    ) -> Result<Conductors<'a>, NoMemory>
        ensures { IfOk result (λ c. c ≡ record { metal = metal.now; poly = poly.now; diffusion = diffusion.now }) }
    {
        let first_poly = count_of(0, metal)?;
        let first_diffusion = count_of(first_poly, poly)?;
        let nodes = count_of(first_diffusion, diffusion)?;
        Ok(Conductors {
            metal,
            poly,
            diffusion,
            first_poly,
            first_diffusion,
            nodes,
        })
    }

    /// The squares of metal.
    pub(crate) fn metal(&self) -> &'a Canonical
        ensures { result.now ≡ self.now.metal }
    {
        self.metal
    }

    /// The squares of poly.
    pub(crate) fn poly(&self) -> &'a Canonical
        ensures { result.now ≡ self.now.poly }
    {
        self.poly
    }

    /// The squares of diffusion without poly.
    pub(crate) fn diffusion(&self) -> &'a Canonical
        ensures { result.now ≡ self.now.diffusion }
    {
        self.diffusion
    }

    /// The node of the first box of the layer.
    pub(crate) fn first_node(&self, layer: Layer) -> u32
        ensures { result ≡ first_node self.now layer }
    {
        match layer {
            Layer::Poly => self.first_poly,
            Layer::Diffusion => self.first_diffusion,
            Layer::Metal | Layer::Cut | Layer::Implant => 0,
        }
    }

    /// How many nodes there are: one for each box.
    pub(crate) fn nodes(&self) -> u32
        ensures count { result ≡ node_count self.now }
        ensures few { node_count self.now < 2 ^ 32 }
        ensures sets { AreSets self.now }
    {
        self.nodes
    }
}

/// How many boxes there are with those of this set, behind so many others.
fn count_of(others: u32, set: &Canonical) -> Result<u32, NoMemory>
    ensures count { IfOk result (λ count. count ≡ others + length set.now) }
    ensures canonical { IsCanonical set.now }
{
    let Ok(own) = u32::try_from(set.boxes().len()) else {
        return Err(NoMemory);
    };
    match others.checked_add(own) {
        Some(count) => Ok(count),
        None => Err(NoMemory),
    }
}
