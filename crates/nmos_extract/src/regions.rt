// Channel regions that are boxes.

ghost use Rattle.std.specs.Prelude.{◌≡◌, ◌&&◌, ◌||◌, map, IfOk, IfErr};
ghost use Rattle.nmos_model.specs.declared.refusal.ExtractCode.TheVariants.{X1};
ghost use Rattle.nmos_extract.specs.Areas.{above};
ghost use Rattle.nmos_extract.specs.Implants.{AreCovers};
ghost use Rattle.nmos_extract.specs.Regions.{AreRegions, IsFaultAt, IsSomeRegion};
ghost use Rattle.nmos_extract.specs.Sides.{AreFree};

use crate::areas::{all_above, areas_of};
use canonical_boxes::{Canonical, both, holds, holds_in_plane, outside, without};
use geom::Box2;
use nmos_model::{ExtractCode, ExtractFault, ReadChipFault};
use rx_text::{NoMemory, Place};
use std::alloc::Global;

/// Whether each box lies wholly under implant, or wholly beside it.
#[derive(Drop)]
pub(crate) struct Covers {
    pub under: Vec<bool>,
    pub beside: Vec<bool>,
}

/// For each box of these squares of channels, which is then a region of its own, whether it lies under implant.
///
/// # Errors
///
/// `Fault` with the first box that is no region, or lies partly under implant (`X1`), by its first square; `NoMemory` where an
/// allocation was refused.
pub(crate) fn depletion_of(
    alloc: Global,
    squares: &Canonical,
    implant: &Canonical,
) -> Result<Vec<bool>, ReadChipFault>
    ensures regions { IfOk result (λ depletion. AreRegions squares.now implant.now depletion.items) }
    ensures fault { IfErr result (IsFaultAt X1 (IsSomeRegion squares.now implant.now) squares.now) }
{
    let boxes = squares.boxes();
    let tops = tops_of(alloc, squares)?;
    let covers = covers_of(alloc, squares, implant)?;
    let mut depletion = Vec::new(alloc);
    for at in 0..boxes.len() {
        let under = covers.under[at];
        if !is_region(tops[at], under, covers.beside[at]) {
            return Err(fault_at(ExtractCode::X1, &boxes[at]));
        }
        depletion.push(under)?;
    }
    Ok(depletion)
}

/// Whether a box is a region, of which there is whether none of its squares' set lies above it, and whether it lies wholly under implant,
/// or wholly beside it.
fn is_region(top: bool, under: bool, beside: bool) -> bool
    ensures { result ≡ (top && (under || beside)) }
{
    top && (under || beside)
}

/// Whether the squares right above each box are none of the set's.
fn tops_of(alloc: Global, squares: &Canonical) -> Result<Vec<bool>, NoMemory>
    ensures { IfOk result (λ tops. AreFree squares.now (map above squares.now) tops.items) }
{
    let boxes = squares.boxes();
    let beyond = outside(alloc, squares)?;
    let areas = all_above(alloc, boxes)?;
    let tops = holds_in_plane(alloc, &beyond, &areas)?;
    Ok(tops)
}

/// Whether each box lies wholly under implant, or wholly beside it.
pub(crate) fn covers_of(
    alloc: Global,
    squares: &Canonical,
    implant: &Canonical,
) -> Result<Covers, NoMemory>
    ensures { IfOk result (AreCovers squares.now implant.now) }
{
    let boxes = squares.boxes();
    let areas = areas_of(alloc, boxes)?;
    let implanted = both(alloc, squares, implant)?;
    let under = holds(alloc, &implanted, &areas)?;
    let other = without(alloc, squares, implant)?;
    let beside = holds(alloc, &other, &areas)?;
    Ok(Covers { under, beside })
}

/// The fault of this code at the first square of the box.
pub(crate) fn fault_at(code: ExtractCode, b: &Box2) -> ReadChipFault
    ensures { result ≡ ReadChipFault.Fault (record { code = code; place = Place.Square b.now.x1 b.now.y1 }) }
{
    ReadChipFault::Fault(ExtractFault {
        code,
        place: Place::Square { x: b.x1, y: b.y1 },
    })
}
