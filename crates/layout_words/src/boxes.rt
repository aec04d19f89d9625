//! Boxes and labels as texts: a layer and four edges, and the name of a pad with a layer and a square.

use geom::{Box2, Label, Layer};
use rx_text::{Name, PadName, Role};
use std::alloc::Global;
use std::test::Fail;

/// The layer of this letter.
fn layer_of(letter: &str) -> Option<Layer> {
    match letter {
        "D" => Some(Layer::Diffusion),
        "P" => Some(Layer::Poly),
        "M" => Some(Layer::Metal),
        "C" => Some(Layer::Cut),
        "I" => Some(Layer::Implant),
        _ => None,
    }
}

/// The letter of this layer.
fn letter_of(layer: Layer) -> &'static str {
    match layer {
        Layer::Diffusion => "D",
        Layer::Poly => "P",
        Layer::Metal => "M",
        Layer::Cut => "C",
        Layer::Implant => "I",
    }
}

/// The pad of this name: `VDD`, `GND`, `PHI1`, `PHI2`, `RESET`, `IN:name` or `OUT:name`.
fn pad_of(text: &str) -> Option<PadName> {
    match text {
        "VDD" => Some(PadName::plain(Role::Vdd)),
        "GND" => Some(PadName::plain(Role::Gnd)),
        "PHI1" => Some(PadName::plain(Role::Phi1)),
        "PHI2" => Some(PadName::plain(Role::Phi2)),
        "RESET" => Some(PadName::plain(Role::Reset)),
        _ => match text.split_once(':')? {
            ("IN", name) => Some(PadName::input(Name::new(name.as_bytes())?)),
            (_, name) => Some(PadName::output(Name::new(name.as_bytes())?)),
        },
    }
}

/// The box of a layer's letter and four edges.
fn box_of(layer: &str, x1: &str, y1: &str, x2: &str, y2: &str) -> Result<Box2, Fail> {
    let layer = layer_of(layer).ok_or("no layer")?;
    let (x1, y1) = (x1.parse::<i64>()?, y1.parse::<i64>()?);
    let (x2, y2) = (x2.parse::<i64>()?, y2.parse::<i64>()?);
    Ok(Box2::new(layer, x1, y1, x2, y2).ok_or("no box")?)
}

/// The label of a pad's name, a layer's letter and a square.
fn label_of(pad: &str, layer: &str, x: &str, y: &str) -> Result<Label, Fail> {
    Ok(Label {
        pad: pad_of(pad).ok_or("no pad")?,
        layer: layer_of(layer).ok_or("no layer")?,
        x: x.parse::<i64>()?,
        y: y.parse::<i64>()?,
    })
}

/// The boxes and the labels of a text, in their order. A semicolon and a blank part them: `M 0 0 4 2; IN:x M 1 0` is a box of
/// metal, from (0, 0) to (4, 2) in lambda, and the label of the input `x` on its square (1, 0).
///
/// # Errors
///
/// A failed test where a layer, a pad, a number or a box is none, and where memory was refused.
pub fn shapes(alloc: Global, text: &str) -> Result<(Vec<Box2>, Vec<Label>), Fail> {
    let mut boxes = Vec::new(alloc);
    let mut labels = Vec::new(alloc);
    for part in text.split("; ") {
        let words: Vec<&str> = part.split(' ').collect(alloc)?;
        match words.as_slice() {
            [layer, x1, y1, x2, y2] => boxes.push(box_of(layer, x1, y1, x2, y2)?)?,
            [pad, layer, x, y] => labels.push(label_of(pad, layer, x, y)?)?,
            _ => {}
        }
    }
    Ok((boxes, labels))
}

/// The text of these boxes.
///
/// # Errors
///
/// A failed test where memory was refused.
pub fn text_of(alloc: Global, boxes: &[Box2]) -> Result<String, Fail> {
    let mut text = String::new(alloc);
    for b in boxes {
        let separator = if text.is_empty() { "" } else { "; " };
        let letter = letter_of(b.layer);
        text.push_str(format!(in alloc;
            "{separator}{letter} {} {} {} {}",
            b.x1, b.y1, b.x2, b.y2
        )?.as_str())?;
    }
    Ok(text)
}
