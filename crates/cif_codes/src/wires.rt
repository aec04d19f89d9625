// The codes of wires.

ghost use Rattle.std.specs.Prelude.{◌≡◌, ℕ, ◌+◌, ◌≤◌, ◌<◌, ◌^◌, ◌-◌, pos, List, [], ◌∷◌, ◌++◌, length, map, flat_map};
ghost use Rattle.std.specs.Bool.{Decides};
ghost use Rattle.geom.specs.declared.point.Point.{Point};
ghost use Rattle.geom.specs.CifCommands.{DrawsWire, command_parts, point_parts};
ghost use Rattle.geom.specs.CifShapes.{wire_outlines};
ghost use Rattle.geom.specs.CifDrawings.{CifState, scale_of, doubled};
ghost use Rattle.geom.specs.CifCodes.{outline_distances};
ghost use Rattle.cif_values.specs.Parts.{PartsAt};
ghost use Rattle.cif_values.specs.Numbers.{StandsFor};
ghost use Rattle.cif_values.specs.Values.{IsNearNumber};
ghost use Rattle.cif_codes.specs.Scales.{ratio, grid_of, IsScale};
ghost use Rattle.cif_codes.specs.Checks.{Checked};
ghost use Rattle.cif_codes.specs.Wires.{WireChecked};
ghost use Rattle.cif_codes.specs.Bends.{IsNearBend, IsNearLast, BendAt, IsLast, IsOblique, BendsChecked, wire_numbers, between_points};
ghost use Rattle.cif_codes.specs.Least.{IsLeastCode};

use crate::bends::{Bend, bend_here, is_straight, segment_edges};
use crate::checks::Checks;
use crate::edges::with_edges;
use crate::points::{MOST_POINTS, points_stand};
use crate::scale::Scale;
use crate::truths::{either, is_bare};
use crate::verdicts::shape_verdict_code;
use cif_values::{behind_letters, number_here};
use geom::{CifCode, Layer};

/// What is wrong with the width and the points of a wire.
#[derive(Clone, Copy, Debug, PartialEq, Eq)]
pub struct WireChecks {
    pub checks: Checks,
    pub count: usize,
    /// The width is 0, or a segment lies along no axis.
    pub odd: bool,
}

/// What is wrong with the points of a wire so far.
#[derive(Clone, Copy, Debug, PartialEq, Eq)]
struct Bends {
    checks: Checks,
    count: usize,
    /// The last of them, if there are any.
    last: Option<Bend>,
    /// A segment lies along no axis.
    oblique: bool,
}

/// What is wrong with the wire of the command that stands here.
pub fn wire_checks(text: &[u8], at: usize, scale: Scale) -> WireChecks
    requires place { at ≤ length text.now }
    requires scale { IsScale scale }
    ensures { (stop width : ℕ) (points : List Point) → PartsAt text.now at stop (command_parts (DrawsWire width points))
        → WireChecked (ratio scale) width points result }
{
    let (width, from) = number_here(text, behind_letters(text, at, 1), scale.grid());
    let bends = bends_here(text, from, scale, width);
    WireChecks {
        checks: bends.closed(text, scale, width),
        count: bends.count,
        odd: either(is_zero(width), bends.oblique),
    }
}

/// The width is 0.
fn is_zero(width: i64) -> bool
    ensures { (divisor w : ℕ) → StandsFor divisor (pos w) width → Decides result (w ≡ 0) }
{
    width == 0
}

/// What is wrong with the width and with the points that stand here up to the semicolon.
fn bends_here(text: &[u8], at: usize, scale: Scale, width: i64) -> Bends
    requires place { at ≤ length text.now }
    requires scale { IsScale scale }
    requires near { IsNearNumber width }
    ensures checked { (stop w : ℕ) (points : List Point) → PartsAt text.now at stop (flat_map point_parts points) → StandsFor (grid_of scale) (pos w) width
        → BendsChecked text.now (grid_of scale) (ratio scale) w points result }
    ensures near { IsNearLast text.now result.last }
{
    let mut bends = Bends {
        checks: Checks::none().with_number(scale, width),
        count: 0,
        last: None,
        oblique: false,
    };
    let mut from = at;
    while points_stand(text, from) {
        let (bend, next) = bend_here(text, from, scale);
        bends = bends.with_bend(text, scale, width, bend);
        from = next;
    }
    bends
}

impl Bends {
    /// With a point more.
    fn with_bend(self, text: &[u8], scale: Scale, width: i64, bend: Bend) -> Bends
        requires scale { IsScale scale }
        requires width { IsNearNumber width }
        requires last { IsNearLast text.now self.last }
        requires near { IsNearBend text.now bend }
        requires room { self.count < 2 ^ 64 - 1 }
        ensures checked { (w : ℕ) (points : List Point) (p : Point) → StandsFor (grid_of scale) (pos w) width
            → BendsChecked text.now (grid_of scale) (ratio scale) w points self → BendAt text.now (grid_of scale) p bend
            → BendsChecked text.now (grid_of scale) (ratio scale) w (points ++ p ∷ []) result }
        ensures counted { result.count ≡ self.count + 1 }
        ensures near { IsNearLast text.now result.last }
    {
        let x = self.checks.with_number(scale, bend.x.value);
        let y = x.with_number(scale, bend.y.value);
        let (checks, oblique) = self.joined(text, scale, width, y, bend);
        Bends {
            checks,
            count: self.count + 1,
            last: Some(bend),
            oblique,
        }
    }

    /// With the segment to a point more, whose numbers are checked.
    fn joined(
        self,
        text: &[u8],
        scale: Scale,
        width: i64,
        checks: Checks,
        bend: Bend,
    ) -> (Checks, bool)
        requires scale { IsScale scale }
        requires width { IsNearNumber width }
        requires last { IsNearLast text.now self.last }
        requires near { IsNearBend text.now bend }
        ensures { (w : ℕ) (points : List Point) (p : Point) → StandsFor (grid_of scale) (pos w) width
            → IsLast text.now (grid_of scale) points self.last → IsOblique w points self.oblique → BendAt text.now (grid_of scale) p bend
            → Checked (ratio scale) (wire_numbers w (points ++ p ∷ [])) (between_points w points) checks
            → Checked (ratio scale) (wire_numbers w (points ++ p ∷ [])) (between_points w (points ++ p ∷ [])) result.0
            × IsOblique w (points ++ p ∷ []) result.1 }
    {
        match self.last {
            Some(last) => {
                let edges = segment_edges(text, width, last, bend);
                let straight = is_straight(last, bend);
                (
                    with_edges(scale, checks, edges),
                    either(self.oblique, !straight),
                )
            }
            None => (checks, self.oblique),
        }
    }

    /// What is wrong with the numbers and the edges, where no point follows: those of a square, where there is one point.
    fn closed(self, text: &[u8], scale: Scale, width: i64) -> Checks
        requires scale { IsScale scale }
        requires width { IsNearNumber width }
        requires last { IsNearLast text.now self.last }
        ensures { (w : ℕ) (points : List Point) → StandsFor (grid_of scale) (pos w) width
            → BendsChecked text.now (grid_of scale) (ratio scale) w points self
            → Checked (ratio scale) (wire_numbers w points) (flat_map outline_distances (wire_outlines w (map doubled points))) result }
    {
        match self.last {
            Some(last) => {
                if self.count == 1 {
                    let edges = segment_edges(text, width, last, last);
                    with_edges(scale, self.checks, edges)
                } else {
                    self.checks
                }
            }
            None => self.checks,
        }
    }
}

/// The least code that a wire meets, by what is wrong with it, where this layer is set.
pub fn wire_code(layer: Option<Layer>, found: WireChecks) -> Option<CifCode>
    ensures { (s : CifState) (width : ℕ) (points : List Point) → s.layer ≡ layer → WireChecked (scale_of s.opening) width points found
        → IsLeastCode s (DrawsWire width points) result }
{
    let bare = is_bare(layer);
    let many = MOST_POINTS < found.count;
    shape_verdict_code(bare, found.checks.off, found.checks.far, found.odd, many)
}
