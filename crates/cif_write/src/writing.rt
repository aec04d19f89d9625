// The writer of a chip's text.
ghost use Rattle.std.specs.Prelude.{◌≡◌, ◌≤◌, ◌+◌, ◌*ℤ◌, ◌-ℤ◌, ◌+ℤ◌, ◌++◌, pos, None, OnErr, OnOk, codes};
ghost use Rattle.std.specs.Io.KnownBytes.{Appends};
ghost use Rattle.std.specs.Fmt.{signed_decimal};
ghost use Rattle.std.specs.List.{flat_map};
ghost use Rattle.rx_io.specs.Causes.{Rose};
ghost use Rattle.rx_io.specs.Streams.{AppendsFront};
ghost use Rattle.geom.specs.CifLabels.{layer_word, pad_word, label_word};
ghost use Rattle.cif_write.specs.Gathered.{Puts};
ghost use Rattle.cif_write.specs.ChipText.{pair_text, box_line, layer_line, is_same_layer, box_lines, kind_lines, kinds_lines, call_line, label_line, chip_text};

use crate::page::Page;
use geom::{Box2, Call, Chip, Kind, Label, Layer};
use rx_io::{Failed, Sink};
use rx_text::{NumberText, PadName, Role};

/// Writes the text of the chip: its kinds, numbered from 1, its calls and its labels, in their order. After a failure the
/// sink has gained a front of the text, perhaps nothing. Takes no memory.
///
/// # Errors
///
/// `Failed` where a write failed.
pub fn write_cif<K: Sink>(chip: &Chip, sink: &mut K) -> Result<(), Failed>
    ensures ok { OnOk result (Appends (K.held sink.old) (K.held sink.new) (chip_text chip.now)) }
    ensures failed { OnErr result
        (AppendsFront (K.held sink.old) (K.held sink.new) (chip_text chip.now)) }
    ensures never_falls { K.faults sink.old ≤ K.faults sink.new }
    ensures cause { OnErr result (Rose (K.faults sink.old) (K.faults sink.new)) }
{
    let mut page = Page::new();
    put_chip(&mut page, sink, chip)?;
    page.flush(sink)
}

/// Writes the text of the chip, of which a last part may wait in the page.
fn put_chip<K: Sink>(page: &mut Page, sink: &mut K, chip: &Chip) -> Result<(), Failed>
    ensures bytes { Puts result (K.held sink.old) (K.held sink.new) page.old page.new
        (chip_text chip.now) }
    ensures never_falls { K.faults sink.old ≤ K.faults sink.new }
    ensures cause { OnErr result (Rose (K.faults sink.old) (K.faults sink.new)) }
{
    put_kinds(page, sink, chip.kinds())?;
    put_calls(page, sink, chip.calls())?;
    put_labels(page, sink, chip.labels())?;
    page.put(sink, b"E\n")
}

/// Writes a definition for each kind.
fn put_kinds<K: Sink>(page: &mut Page, sink: &mut K, kinds: &[Kind]) -> Result<(), Failed>
    ensures bytes { Puts result (K.held sink.old) (K.held sink.new) page.old page.new
        (kinds_lines 0 kinds.now) }
    ensures never_falls { K.faults sink.old ≤ K.faults sink.new }
    ensures cause { OnErr result (Rose (K.faults sink.old) (K.faults sink.new)) }
{
    for (before, kind) in kinds.iter().enumerate() {
        put_kind(page, sink, before, kind.boxes())?;
    }
    Ok(())
}

/// Writes the definition of the kind before which so many stand.
fn put_kind<K: Sink>(
    page: &mut Page,
    sink: &mut K,
    before: usize,
    boxes: &[Box2],
) -> Result<(), Failed>
    ensures bytes { Puts result (K.held sink.old) (K.held sink.new) page.old page.new
        (kind_lines (before + 1) boxes.now) }
    ensures never_falls { K.faults sink.old ≤ K.faults sink.new }
    ensures cause { OnErr result (Rose (K.faults sink.old) (K.faults sink.new)) }
{
    put_word(
        page,
        sink,
        b"DS ",
        kind_number(before).as_bytes(),
        b" 100 1;\n",
    )?;
    put_boxes(page, sink, boxes)?;
    page.put(sink, b"DF;\n")
}

/// Writes the lines of boxes.
fn put_boxes<K: Sink>(page: &mut Page, sink: &mut K, boxes: &[Box2]) -> Result<(), Failed>
    ensures bytes { Puts result (K.held sink.old) (K.held sink.new) page.old page.new
        (box_lines None boxes.now) }
    ensures never_falls { K.faults sink.old ≤ K.faults sink.new }
    ensures cause { OnErr result (Rose (K.faults sink.old) (K.faults sink.new)) }
{
    let mut before = None;
    for b in boxes {
        put_box(page, sink, before, *b)?;
        before = Some(layer_of(b));
    }
    Ok(())
}

/// The layer of a box.
fn layer_of(b: &Box2) -> Layer
    ensures { result ≡ b.now.layer }
{
    b.layer
}

/// Writes the line of a box behind one of this layer, and before it the line of its layer where that is another.
fn put_box<K: Sink>(
    page: &mut Page,
    sink: &mut K,
    before: Option<Layer>,
    b: Box2,
) -> Result<(), Failed>
    ensures bytes { Puts result (K.held sink.old) (K.held sink.new) page.old page.new
        (layer_line before b.layer ++ box_line b) }
    ensures never_falls { K.faults sink.old ≤ K.faults sink.new }
    ensures cause { OnErr result (Rose (K.faults sink.old) (K.faults sink.new)) }
{
    put_layer(page, sink, before, b.layer)?;
    put_box_line(page, sink, b)
}

/// Writes the line of a box.
fn put_box_line<K: Sink>(page: &mut Page, sink: &mut K, b: Box2) -> Result<(), Failed>
    ensures bytes { Puts result (K.held sink.old) (K.held sink.new) page.old page.new
        (box_line b) }
    ensures never_falls { K.faults sink.old ≤ K.faults sink.new }
    ensures cause { OnErr result (Rose (K.faults sink.old) (K.faults sink.new)) }
{
    put_pair(
        page,
        sink,
        b"B ",
        &side(b.x1, b.x2),
        &side(b.y1, b.y2),
        b" ",
    )?;
    put_pair(
        page,
        sink,
        b"",
        &middle(b.x1, b.x2),
        &middle(b.y1, b.y2),
        b";\n",
    )
}

/// Writes the line of a layer, where it is not that of the box before.
fn put_layer<K: Sink>(
    page: &mut Page,
    sink: &mut K,
    before: Option<Layer>,
    layer: Layer,
) -> Result<(), Failed>
    ensures bytes { Puts result (K.held sink.old) (K.held sink.new) page.old page.new
        (layer_line before layer) }
    ensures never_falls { K.faults sink.old ≤ K.faults sink.new }
    ensures cause { OnErr result (Rose (K.faults sink.old) (K.faults sink.new)) }
{
    if is_same_layer(before, layer) {
        return Ok(());
    }
    put_word(page, sink, b"L ", layer_word(layer), b";\n")
}

/// Whether the layer is that of the box before.
fn is_same_layer(before: Option<Layer>, layer: Layer) -> bool
    ensures { result ≡ is_same_layer before layer }
{
    match before {
        Some(before) => before == layer,
        None => false,
    }
}

/// Writes a line for each call.
fn put_calls<K: Sink>(page: &mut Page, sink: &mut K, calls: &[Call]) -> Result<(), Failed>
    ensures bytes { Puts result (K.held sink.old) (K.held sink.new) page.old page.new
        (flat_map call_line calls.now) }
    ensures never_falls { K.faults sink.old ≤ K.faults sink.new }
    ensures cause { OnErr result (Rose (K.faults sink.old) (K.faults sink.new)) }
{
    for call in calls {
        put_call(page, sink, *call)?;
    }
    Ok(())
}

/// Writes the line of a call.
fn put_call<K: Sink>(page: &mut Page, sink: &mut K, call: Call) -> Result<(), Failed>
    ensures bytes { Puts result (K.held sink.old) (K.held sink.new) page.old page.new
        (call_line call) }
    ensures never_falls { K.faults sink.old ≤ K.faults sink.new }
    ensures cause { OnErr result (Rose (K.faults sink.old) (K.faults sink.new)) }
{
    put_word(page, sink, b"C ", called_number(call.kind).as_bytes(), b" ")?;
    put_pair(page, sink, b"T ", &units(call.x), &units(call.y), b";\n")
}

/// Writes a line for each label.
fn put_labels<K: Sink>(page: &mut Page, sink: &mut K, labels: &[Label]) -> Result<(), Failed>
    ensures bytes { Puts result (K.held sink.old) (K.held sink.new) page.old page.new
        (flat_map label_line labels.now) }
    ensures never_falls { K.faults sink.old ≤ K.faults sink.new }
    ensures cause { OnErr result (Rose (K.faults sink.old) (K.faults sink.new)) }
{
    for label in labels {
        put_label(page, sink, *label)?;
    }
    Ok(())
}

/// Writes the line of a label.
fn put_label<K: Sink>(page: &mut Page, sink: &mut K, label: Label) -> Result<(), Failed>
    ensures bytes { Puts result (K.held sink.old) (K.held sink.new) page.old page.new
        (label_line label) }
    ensures never_falls { K.faults sink.old ≤ K.faults sink.new }
    ensures cause { OnErr result (Rose (K.faults sink.old) (K.faults sink.new)) }
{
    put_pad_name(page, sink, label.pad)?;
    put_pair(page, sink, b" ", &units(label.x), &units(label.y), b" ")?;
    put_word(page, sink, b"", layer_word(label.layer), b";\n")
}

/// Writes `94` and the name of a pad.
fn put_pad_name<K: Sink>(page: &mut Page, sink: &mut K, pad: PadName) -> Result<(), Failed>
    ensures bytes { Puts result (K.held sink.old) (K.held sink.new) page.old page.new
        (codes "94 " ++ label_word pad) }
    ensures never_falls { K.faults sink.old ≤ K.faults sink.new }
    ensures cause { OnErr result (Rose (K.faults sink.old) (K.faults sink.new)) }
{
    match pad.name {
        Some(name) => put_word(page, sink, b"94 ", pad_word(pad.role), name.as_bytes()),
        None => put_word(page, sink, b"94 ", pad_word(pad.role), b""),
    }
}

/// Writes two numbers, between these bytes and those.
fn put_pair<K: Sink>(
    page: &mut Page,
    sink: &mut K,
    before: &[u8],
    x: &NumberText,
    y: &NumberText,
    behind: &[u8],
) -> Result<(), Failed>
    ensures bytes { Puts result (K.held sink.old) (K.held sink.new) page.old page.new
        (before.now ++ x.now ++ codes " " ++ y.now ++ behind.now) }
    ensures never_falls { K.faults sink.old ≤ K.faults sink.new }
    ensures cause { OnErr result (Rose (K.faults sink.old) (K.faults sink.new)) }
{
    put_word(page, sink, before, x.as_bytes(), b" ")?;
    put_word(page, sink, b"", y.as_bytes(), behind)
}

/// Writes a word, between these bytes and those.
fn put_word<K: Sink>(
    page: &mut Page,
    sink: &mut K,
    before: &[u8],
    word: &[u8],
    behind: &[u8],
) -> Result<(), Failed>
    ensures bytes { Puts result (K.held sink.old) (K.held sink.new) page.old page.new
        (before.now ++ word.now ++ behind.now) }
    ensures never_falls { K.faults sink.old ≤ K.faults sink.new }
    ensures cause { OnErr result (Rose (K.faults sink.old) (K.faults sink.new)) }
{
    page.put(sink, before)?;
    page.put(sink, word)?;
    page.put(sink, behind)
}

/// The short name of a layer.
fn layer_word(layer: Layer) -> &'static [u8]
    ensures { result.now ≡ layer_word layer }
{
    match layer {
        Layer::Diffusion => b"ND",
        Layer::Poly => b"NP",
        Layer::Metal => b"NM",
        Layer::Cut => b"NC",
        Layer::Implant => b"NI",
    }
}

/// The word of a role in labels.
fn pad_word(role: Role) -> &'static [u8]
    ensures { result.now ≡ pad_word role }
{
    match role {
        Role::Vdd => b"VDD",
        Role::Gnd => b"GND",
        Role::Phi1 => b"PHI1",
        Role::Phi2 => b"PHI2",
        Role::Reset => b"RESET",
        Role::Input => b"IN:",
        Role::Output => b"OUT:",
    }
}

/// A number of lambda in units.
fn units(lambda: i64) -> NumberText
    ensures { result ≡ signed_decimal (pos 200 *ℤ lambda) }
{
    NumberText::of(200 * i128::from(lambda))
}

/// A side of a box in halves of lambda, which the scale of 100 takes to units.
fn side(from: i64, to: i64) -> NumberText
    ensures { result ≡ signed_decimal (pos 2 *ℤ (to -ℤ from)) }
{
    NumberText::of(2 * (i128::from(to) - i128::from(from)))
}

/// The middle of a side, in halves of lambda too.
fn middle(from: i64, to: i64) -> NumberText
    ensures { result ≡ signed_decimal (from +ℤ to) }
{
    NumberText::of(i128::from(from) + i128::from(to))
}

/// The number of the kind before which so many stand.
fn kind_number(before: usize) -> NumberText
    ensures { result ≡ signed_decimal (pos (before + 1)) }
{
    NumberText::of(before as i128 + 1)
}

/// The number of the kind of a call.
fn called_number(kind: u32) -> NumberText
    ensures { result ≡ signed_decimal (pos (kind + 1)) }
{
    NumberText::of(i128::from(kind) + 1)
}
