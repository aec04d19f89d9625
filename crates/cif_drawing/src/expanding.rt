// The boxes of what stands in a drawing.

ghost use Rattle.std.specs.Prelude.{◌≡◌, true, ◌<◌, ◌≤◌, length, slice_index_or, ◌-◌, ◌*◌, ◌^◌, ◌++◌, ◌∷◌, [], map, OnOk};
ghost use Rattle.std.specs.List.{list_all};
ghost use Rattle.cif_drawing.specs.Shapes.{kept_ink};
ghost use Rattle.cif_drawing.specs.Placements.{placed, IsNear};
ghost use Rattle.cif_drawing.specs.Measures.{is_box, IsMeasure};
ghost use Rattle.cif_drawing.specs.Inks.{closed_symbols, ink_boxes, ink_chain, IsInk, AreSymbols};

use crate::ink::Symbol;
use crate::kept::{Call, Kept};
use crate::measure::{Extent, Measure};
use crate::measuring::{called, measure_boxes};
use crate::placement::Placement;
use geom::Box2;
use rx_text::NoMemory;

/// The measure of what stands behind these symbols.
pub fn measure_kept(symbols: &[Symbol], kept: &Kept) -> Option<Measure>
    requires symbols { AreSymbols [] symbols.now }
    requires ink { IsInk (closed_symbols symbols.now) (kept_ink kept.now) }
    ensures { IsMeasure (ink_chain (closed_symbols symbols.now) (kept_ink kept.now)) result (ink_boxes (closed_symbols symbols.now) (kept_ink kept.now)) }
{
    match kept.call() {
        Some(call) => called(symbol_of(symbols, call).measure, call.placement),
        None => measure_boxes(kept.boxes()),
    }
}

/// Adds the boxes of what stands behind these symbols, placed. A chain of calls is at most 64 deep.
pub fn expand(
    symbols: &[Symbol],
    kept: &Kept,
    placement: Placement,
    boxes: &mut Vec<Box2>,
) -> Result<(), NoMemory>
    requires symbols { AreSymbols [] symbols.now }
    requires ink { IsInk (closed_symbols symbols.now) (kept_ink kept.now) }
    requires short { ink_chain (closed_symbols symbols.now) (kept_ink kept.now) ≤ 64 }
    requires near { IsNear ((66 - ink_chain (closed_symbols symbols.now) (kept_ink kept.now)) * 2 ^ 103) placement.by }
    requires within { list_all is_box (map (placed placement) (ink_boxes (closed_symbols symbols.now) (kept_ink kept.now))) ≡ true }
    ensures { OnOk result
        (boxes.new.items ≡ boxes.old.items ++ map (placed placement) (ink_boxes (closed_symbols symbols.now) (kept_ink kept.now))) }
{
    match kept.call() {
        Some(call) => {
            let inner = call.placement.then(placement);
            for ink in &symbol_of(symbols, call).inks {
                expand(symbols, ink.kept(), inner, boxes)?;
            }
            Ok(())
        }
        None => add_placed(kept.boxes(), placement, boxes),
    }
}

/// The symbol that is called.
fn symbol_of(symbols: &[Symbol], call: Call) -> &Symbol
    requires { call.symbol < length symbols.now }
    ensures { result.now ≡ slice_index_or symbols.now call.symbol result.now }
{
    &symbols[call.symbol]
}

/// The box, placed.
fn place(b: Box2, placement: Placement) -> Box2
    requires near { IsNear (2 ^ 120) placement.by }
    requires within { is_box (placed placement b) ≡ true }
    ensures { result ≡ placed placement b }
{
    Extent::of(b).placed(placement).boxed(b.layer)
}

/// Adds the boxes, placed.
fn add_placed(several: &[Box2], placement: Placement, boxes: &mut Vec<Box2>) -> Result<(), NoMemory>
    requires near { IsNear (2 ^ 120) placement.by }
    requires within { list_all is_box (map (placed placement) several.now) ≡ true }
    ensures { OnOk result (boxes.new.items ≡ boxes.old.items ++ map (placed placement) several.now) }
{
    for b in several {
        boxes.push(place(*b, placement))?;
    }
    Ok(())
}
