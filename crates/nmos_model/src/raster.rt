// Rasters: squares in a frame, by rows from the lowest, each by the layers that cover it.

ghost use Rattle.std.specs.Prelude.{◌≡◌, ◌↔◌, ◌⊎◌, ◌<◌, ◌≤◌, ◌+◌, ◌*◌, ◌^◌, ◌∷◌, [], IfOk, ℕ, true, List, length, pos, ◌+ℤ◌, ◌<ℤ◌, ◌≤ℤ◌};
ghost use Rattle.geom.specs.declared.layer.Layer.{Layer};
ghost use Rattle.geom.specs.Squares.{BoxShape, Covered};
ghost use Rattle.geom.specs.Rows.{Among};
ghost use Rattle.nmos_model.specs.Rasters.{Holds, IsAmong, Paints, Shows, ShowsBoxes, covers};

use geom::{Box2, Layer};
use rx_text::NoMemory;
use std::alloc::Global;

/// Which layers cover a square.
#[derive(Clone, Copy, Debug, PartialEq, Eq)]
pub(crate) struct Cover {
    pub diffusion: bool,
    pub poly: bool,
    pub metal: bool,
    pub cut: bool,
    pub implant: bool,
}

/// Where a raster lies: its lower left square, in lambda, and how many squares it has across and upward.
#[derive(Clone, Copy, Debug, PartialEq, Eq)]
pub(crate) struct Frame {
    pub x: i64,
    pub y: i64,
    pub width: u32,
    pub height: u32,
}

/// Columns or rows of a frame, from one up to but not including another.
#[derive(Clone, Copy, Debug, PartialEq, Eq)]
pub(crate) struct Stretch {
    pub from: u32,
    pub to: u32,
}

impl Cover {
    /// No layer.
    const BARE: Cover = Cover {
        diffusion: false,
        poly: false,
        metal: false,
        cut: false,
        implant: false,
    };

    /// The square with this layer too.
    fn with(self, layer: Layer) -> Cover
        ensures { (other : Layer) → (covers other result ≡ true) ↔ ((covers other self ≡ true) ⊎ (layer ≡ other)) }
    {
        match layer {
            Layer::Diffusion => Cover {
                diffusion: true,
                ..self
            },
            Layer::Poly => Cover { poly: true, ..self },
            Layer::Metal => Cover {
                metal: true,
                ..self
            },
            Layer::Cut => Cover { cut: true, ..self },
            Layer::Implant => Cover {
                implant: true,
                ..self
            },
        }
    }
}

/// Paints the squares from one number up to but not including another.
fn paint_run(squares: &mut [Cover], from: usize, to: usize, layer: Layer)
    requires order { from ≤ to }
    requires within { to ≤ length squares.old }
    ensures size { length squares.new ≡ length squares.old }
    ensures painted { Paints (λ at. (from ≤ at) × (at < to)) layer squares.old squares.new }
{
    for at in from..to {
        squares[at] = squares[at].with(layer);
    }
}

/// Paints the squares in these columns and rows of a frame of this width.
pub(crate) fn paint(
    squares: &mut [Cover],
    width: u32,
    columns: Stretch,
    rows: Stretch,
    layer: Layer,
)
    requires columns { (columns.from ≤ columns.to) × (columns.to ≤ width) }
    requires rows { rows.from ≤ rows.to }
    requires within { rows.to * width ≤ length squares.old }
    ensures size { length squares.new ≡ length squares.old }
    ensures painted { Paints (IsAmong width columns rows) layer squares.old squares.new }
{
    for row in rows.from..rows.to {
        let start = row as usize * width as usize;
        paint_run(
            squares,
            start + columns.from as usize,
            start + columns.to as usize,
            layer,
        );
    }
}

/// The columns of the box in the frame.
fn columns(frame: Frame, b: &Box2) -> Stretch
    requires { Holds frame b.now }
    ensures left { b.now.x1 ≡ frame.x +ℤ pos result.from }
    ensures right { b.now.x2 ≡ frame.x +ℤ pos result.to }
    ensures order { result.from ≤ result.to }
    ensures within { result.to ≤ frame.width }
{
    Stretch {
        from: (b.x1 - frame.x) as u32,
        to: (b.x2 - frame.x) as u32,
    }
}

/// The rows of the box in the frame.
fn rows(frame: Frame, b: &Box2) -> Stretch
    requires { Holds frame b.now }
    ensures bottom { b.now.y1 ≡ frame.y +ℤ pos result.from }
    ensures top { b.now.y2 ≡ frame.y +ℤ pos result.to }
    ensures order { result.from ≤ result.to }
    ensures within { result.to ≤ frame.height }
{
    Stretch {
        from: (b.y1 - frame.y) as u32,
        to: (b.y2 - frame.y) as u32,
    }
}

/// Paints the squares of the box.
fn paint_box(squares: &mut [Cover], frame: Frame, b: &Box2)
    requires holds { Holds frame b.now }
    requires size { length squares.old ≡ frame.width * frame.height }
    ensures size { length squares.new ≡ length squares.old }
    ensures painted { (boxes : List BoxShape) → ShowsBoxes frame boxes squares.old → ShowsBoxes frame (b.now ∷ boxes) squares.new }
{
    let columns = columns(frame, b);
    let rows = rows(frame, b);
    paint(squares, frame.width, columns, rows, b.layer);
}

/// The squares of the frame, each by the layers of the boxes that cover it.
pub(crate) fn painted(alloc: Global, frame: Frame, boxes: &[Box2]) -> Result<Vec<Cover>, NoMemory>
    requires { (b : BoxShape) → Among boxes.now b → Holds frame b }
    ensures { IfOk result (λ squares. Shows frame squares.items (Covered boxes.now)) }
{
    let mut squares = bare(alloc, frame)?;
    paint_boxes(&mut squares, frame, boxes);
    Ok(squares)
}

/// Paints the squares of the boxes, where nothing is painted yet.
fn paint_boxes(squares: &mut [Cover], frame: Frame, boxes: &[Box2])
    requires holds { (b : BoxShape) → Among boxes.now b → Holds frame b }
    requires size { length squares.old ≡ frame.width * frame.height }
    requires bare { ShowsBoxes frame [] squares.old }
    ensures size { length squares.new ≡ length squares.old }
    ensures painted { ShowsBoxes frame boxes.now squares.new }
{
    for b in boxes {
        paint_box(squares, frame, b);
    }
}

/// The squares of the frame without any layer.
fn bare(alloc: Global, frame: Frame) -> Result<Vec<Cover>, NoMemory>
    ensures size { IfOk result (λ squares. length squares.items ≡ frame.width * frame.height) }
    ensures bare { IfOk result (λ squares. ShowsBoxes frame [] squares.items) }
{
    let size = frame.width as usize * frame.height as usize;
    Ok(vec![in alloc; Cover::BARE; size]?)
}
