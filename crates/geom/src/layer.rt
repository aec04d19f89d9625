// The layers that boxes are drawn in.

/// A layer of the nMOS process, in the order in which boxes are listed.
#[derive(Clone, Copy, Debug, PartialEq, Eq, PartialOrd, Ord)]
pub enum Layer {
    Diffusion,
    Poly,
    Metal,
    Cut,
    Implant,
}
