// The components of a set of squares, as classes of its boxes.

ghost use Rattle.std.specs.Prelude.{IfOk};
ghost use Rattle.nmos_extract.specs.Components.{AreComponents};

use crate::graph::LinkGraph;
use crate::links::add_touches;
use canonical_boxes::Canonical;
use nmos_model::{Classes, classify};
use rx_text::NoMemory;
use std::alloc::Global;

/// The classes of the boxes of a set, in which boxes that touch are of one class. Their squares are the components of the set. Classes are
/// numbered from 0 by their first boxes. Takes n log n steps.
///
/// # Errors
///
/// `NoMemory` where an allocation was refused. The list of the classes has an entry for each box, and no list of 2^32 entries is
/// granted.
pub fn classes_of(alloc: Global, set: &Canonical) -> Result<Classes, NoMemory>
    ensures { IfOk result (AreComponents set.now) }
{
    let Ok(nodes) = u32::try_from(set.boxes().len()) else {
        return Err(NoMemory);
    };
    let mut links = Vec::new(alloc);
    add_touches(alloc, set, 0, &mut links)?;
    let graph = LinkGraph::new(alloc, nodes, &links)?;
    let classes = classify(alloc, &graph)?;
    Ok(classes)
}
