// The labels of an array's pads.

ghost use Rattle.std.specs.Prelude.{◌≡◌, ◌<◌, ◌≤◌, length, map, All, IfOk};
ghost use Rattle.rx_lang.specs.Tables.{specification};
ghost use Rattle.stick_grid.specs.Plans.{Covers};
ghost use Rattle.position_nfa.specs.Agreement.{IsAutomatonOf};
ghost use Rattle.pla_plan.specs.Planes.{planes_plan};
ghost use Rattle.pla_plan.specs.ArrayOf.{array_of};
ghost use Rattle.pla_plan.specs.ArrayNetworks.{pad_label, array_labels, DrawsRecogniser};

use crate::array_laws::arrays_recognise;
use crate::array_plan::array_places;
use geom::{Label, Layer};
use nor_net::to_switch;
use position_nfa::laws::automata_show_the_languages;
use position_nfa::{Nfa, register_net};
use rx_lang::Spec;
use rx_text::NoMemory;
use std::alloc::Global;
use switch_net::Pad;

/// The labels of the array's pads, each on the poly of its net at the south border: the supplies, the clocks, the reset, the
/// lines, the outputs. With them the squares of the array of a specification's own automaton stand for a network of the
/// specification. The pads are those of the registers' switch network, which is made for this.
///
/// # Errors
///
/// `NoMemory` where an allocation was refused.
pub fn pad_labels(alloc: Global, nfa: &Nfa, spec: &Spec) -> Result<Vec<Label>, NoMemory>
    ensures labels { IfOk result (λ labels. labels.items ≡ array_labels nfa.now spec.now) }
    ensures recogniser { IfOk result (λ labels. length nfa.now.symbols ≤ 256 → IsAutomatonOf (specification spec.now) nfa.now
        → DrawsRecogniser (specification spec.now) (Covers (planes_plan (array_of nfa.now spec.now))) labels.items) }
{
    arrays_recognise();
    automata_show_the_languages();
    let lines = spec.lines().len() as u32;
    let positions = nfa.symbols().len() as u32;
    let outputs = spec.outputs().len() as u32;
    let net = register_net(alloc, nfa, spec)?;
    let network = to_switch(alloc, &net)?;
    let at = array_places(alloc, 2 + 2 * lines + positions, positions, outputs)?;
    let labels = labels_of(alloc, network.pads(), &at)?;
    Ok(labels)
}

/// The labels of pads on nets that have their poly in these columns.
fn labels_of(alloc: Global, pads: &[Pad], at: &[u32]) -> Result<Vec<Label>, NoMemory>
    requires { All (λ pad. pad.net.0 < length at.now) pads.now }
    ensures { IfOk result (λ labels. labels.items ≡ map (pad_label at.now) pads.now) }
{
    let mut labels = Vec::new(alloc);
    for pad in pads {
        labels.push(label_of(*pad, at))?;
    }
    Ok(labels)
}

/// The pad's name on the poly of its net at the south border.
fn label_of(pad: Pad, at: &[u32]) -> Label
    requires { pad.net.0 < length at.now }
    ensures { result ≡ pad_label at.now pad }
{
    Label {
        pad: pad.name,
        layer: Layer::Poly,
        x: 14 * at[pad.net.0 as usize] as i64 + 6,
        y: 0,
    }
}
