// What stands behind the name of a pad.

ghost use Rattle.std.specs.Prelude.{◌≡◌, ◌≤◌, ◌||◌, ℕ, ℤ, List, [], Some, None, length, drop, if◌then◌else◌};
ghost use Rattle.std.specs.Bool.{Decides};
ghost use Rattle.std.specs.List.{list_all};
ghost use Rattle.rx_text.specs.NumberInText.{is_digit};
ghost use Rattle.geom.specs.CifCommands.{IsShortName, WritesSigned, is_capital};
ghost use Rattle.geom.specs.CifCodes.{IsTooGreat, HasGreatNumber};
ghost use Rattle.geom.specs.CifLabels.{label_words, bears_labels, has_bytes};
ghost use Rattle.cif_values.specs.Values.{IsNearNumber};
ghost use Rattle.cif_labels.specs.Spots.{Reads, IsSpotOf, IsNearSpot, OffTold, layer_in, point_of};

use crate::words::word_here;
use cif_codes::{Checks, Scale, is_great};
use cif_kinds::layer_named;
use cif_values::written_number;
use geom::{Layer, Point};

/// What remainders are taken by: twice the units in one lambda.
const GRID: u64 = 400;

/// What stands behind the name of a pad.
#[derive(Clone, Copy, Debug, PartialEq, Eq)]
pub struct Spot {
    /// The first word, where it is a number, or what stands for it.
    pub x: Option<i64>,
    /// The second word.
    pub y: Option<i64>,
    /// There are three words, and the third is as short as the name of a layer, and made of such bytes.
    pub named: bool,
    /// The layer that the third names, of those on which labels stand, where no fourth follows.
    pub layer: Option<Layer>,
}

/// What stands here.
pub fn spot_here(text: &[u8], at: usize) -> Spot
    requires { at ≤ length text.now }
    ensures spot { IsSpotOf (label_words (drop at text.now)) result }
    ensures near { IsNearSpot result }
{
    let (x, second) = word_here(text, at);
    let (y, third) = word_here(text, second);
    let (layer, fourth) = word_here(text, third);
    let (more, _) = word_here(text, fourth);
    Spot {
        x: written_number(x, GRID),
        y: written_number(y, GRID),
        named: is_last_name(layer, more),
        layer: last_layer(layer, more),
    }
}

/// The word is 1 to 4 capital letters or digits, and nothing stands behind it.
fn is_last_name(word: &[u8], more: &[u8]) -> bool
    ensures { Decides result ((more.now ≡ []) × IsShortName word.now) }
{
    if more.is_empty() {
        is_short_name(word)
    } else {
        false
    }
}

/// The layer of the name, of those on which labels stand, where nothing stands behind it.
fn last_layer(word: &[u8], more: &[u8]) -> Option<Layer>
    ensures { result ≡ if has_bytes more.now then None else layer_in word.now }
{
    if more.is_empty() {
        layer_of(word)
    } else {
        None
    }
}

/// 1 to 4 capital letters or digits.
fn is_short_name(word: &[u8]) -> bool
    ensures { Decides result (IsShortName word.now) }
{
    if word.is_empty() {
        return false;
    }
    if word.len() > 4 {
        return false;
    }
    has_name_bytes(word)
}

/// Capital letters and digits alone.
fn has_name_bytes(word: &[u8]) -> bool
    ensures { result ≡ list_all (λ byte. is_capital byte || is_digit byte) word.now }
{
    word.iter().all(|byte| is_name_byte(*byte))
}

/// A capital letter or a digit.
fn is_name_byte(byte: u8) -> bool
    ensures { result ≡ (is_capital byte || is_digit byte) }
{
    byte.is_ascii_uppercase() || byte.is_ascii_digit()
}

/// The layer of this name, of those on which labels stand.
fn layer_of(word: &[u8]) -> Option<Layer>
    ensures { result ≡ layer_in word.now }
{
    match layer_named(word) {
        Some(layer) if bears_labels(layer) => Some(layer),
        _ => None,
    }
}

/// Labels stand on this layer.
fn bears_labels(layer: Layer) -> bool
    ensures { result ≡ bears_labels layer }
{
    match layer {
        Layer::Diffusion | Layer::Poly | Layer::Metal => true,
        Layer::Cut | Layer::Implant => false,
    }
}

impl Spot {
    /// Where both are numbers.
    pub fn point(self) -> Option<Point>
        ensures { result ≡ point_of self }
    {
        match (self.x, self.y) {
            (Some(x), Some(y)) => Some(Point { x, y }),
            _ => None,
        }
    }

    /// Both are numbers, of which one is off the grid.
    pub fn is_off(self) -> bool
        requires { IsNearSpot self }
        ensures { OffTold (point_of self) result }
    {
        match self.point() {
            Some(point) => is_off(point),
            None => false,
        }
    }

    /// One of the numbers is too great.
    pub fn is_great(self) -> bool
        ensures { (behind : List (List ℕ)) → IsSpotOf behind self → Decides result (HasGreatNumber behind) }
    {
        either(is_great_number(self.x), is_great_number(self.y))
    }
}

/// It is a number that is too great.
fn is_great_number(word: Option<i64>) -> bool
    ensures { (written : List ℕ) → Reads written word → Decides result ((z : ℤ) × WritesSigned z written × IsTooGreat z) }
{
    match word {
        Some(value) => is_great(value),
        None => false,
    }
}

/// The point is off the grid.
fn is_off(point: Point) -> bool
    requires x { IsNearNumber point.x }
    requires y { IsNearNumber point.y }
    ensures { OffTold (Some point) result }
{
    let one = Scale { times: 1, per: 1 };
    let across = Checks::none().with_coordinate(one, point.x);
    across.with_coordinate(one, point.y).off
}

/// One of the two.
fn either(one: bool, other: bool) -> bool
    ensures { result ≡ (one || other) }
{
    one || other
}
