// The writer of a network's text.
ghost use Rattle.std.specs.Prelude.{◌≡◌, ◌≤◌, true, All, IfSome, OnErr, OnOk};
ghost use Rattle.std.specs.Io.KnownBytes.{Appends};
ghost use Rattle.std.specs.Fmt.{decimal};
ghost use Rattle.std.specs.List.{flat_map};
ghost use Rattle.rx_io.specs.Causes.{Rose};
ghost use Rattle.rx_io.specs.Streams.{AppendsFront};
ghost use Rattle.net_text.specs.Gathered.{PutsBehind};
ghost use Rattle.rx_text.specs.Name.{is_name};
ghost use Rattle.net_text.specs.NetworkText.{IsNamed, IsNetworkText, number_part, name_part, role_word, head_lines, pad_line, device_line, network_text};

use crate::page::Page;
use rx_io::{Failed, Sink};
use rx_text::{Name, NumberText, Role};
use switch_net::{Device, Network, Pad};

/// Writes the text of the network, its pads and devices in their order. After a failure the sink has gained a front
/// of the text, perhaps nothing. Takes no memory. What is written of a network with at most 16,777,216 nets is read back as
/// this network, number by number.
///
/// # Errors
///
/// `Failed` where a write failed.
pub fn write_net<K: Sink>(net: &Network, sink: &mut K) -> Result<(), Failed>
    ensures ok { OnOk result (Appends (K.held sink.old) (K.held sink.new) (network_text net.now)) }
    ensures failed { OnErr result
        (AppendsFront (K.held sink.old) (K.held sink.new) (network_text net.now)) }
    ensures reads_back { OnOk result (net.now.nets ≤ 16777216 → IsNetworkText (network_text net.now) net.now) }
    ensures never_falls { K.faults sink.old ≤ K.faults sink.new }
    ensures cause { OnErr result (Rose (K.faults sink.old) (K.faults sink.new)) }
{
    let mut page = Page::new();
    put_net(&mut page, sink, net)?;
    page.flush(sink)
}

/// Writes the text of the network, of which a last part may wait in the page.
fn put_net<K: Sink>(page: &mut Page, sink: &mut K, net: &Network) -> Result<(), Failed>
    ensures bytes { PutsBehind result (K.held sink.old) (K.held sink.new) page.old page.new
        (network_text net.now) }
    ensures reads_back { OnOk result (net.now.nets ≤ 16777216 → IsNetworkText (network_text net.now) net.now) }
    ensures never_falls { K.faults sink.old ≤ K.faults sink.new }
    ensures cause { OnErr result (Rose (K.faults sink.old) (K.faults sink.new)) }
{
    put_head(page, sink, net.nets())?;
    put_pads(page, sink, net.pads())?;
    put_devices(page, sink, net.devices())?;
    page.put(sink, b"end\n")
}

/// Writes the version and the number of nets.
fn put_head<K: Sink>(page: &mut Page, sink: &mut K, nets: u32) -> Result<(), Failed>
    ensures bytes { PutsBehind result (K.held sink.old) (K.held sink.new) page.old page.new
        (head_lines nets) }
    ensures never_falls { K.faults sink.old ≤ K.faults sink.new }
    ensures cause { OnErr result (Rose (K.faults sink.old) (K.faults sink.new)) }
{
    page.put(sink, b"rxnet 1\nnets")?;
    put_number(page, sink, nets)?;
    page.put(sink, b"\n")
}

/// Writes a line for each pad.
fn put_pads<K: Sink>(page: &mut Page, sink: &mut K, pads: &[Pad]) -> Result<(), Failed>
    ensures bytes { PutsBehind result (K.held sink.old) (K.held sink.new) page.old page.new
        (flat_map pad_line pads.now) }
    ensures named { OnOk result (All IsNamed pads.now) }
    ensures never_falls { K.faults sink.old ≤ K.faults sink.new }
    ensures cause { OnErr result (Rose (K.faults sink.old) (K.faults sink.new)) }
{
    for pad in pads {
        put_pad(page, sink, *pad)?;
    }
    Ok(())
}

/// Writes a line for each device.
fn put_devices<K: Sink>(page: &mut Page, sink: &mut K, devices: &[Device]) -> Result<(), Failed>
    ensures bytes { PutsBehind result (K.held sink.old) (K.held sink.new) page.old page.new
        (flat_map device_line devices.now) }
    ensures never_falls { K.faults sink.old ≤ K.faults sink.new }
    ensures cause { OnErr result (Rose (K.faults sink.old) (K.faults sink.new)) }
{
    for device in devices {
        put_device(page, sink, *device)?;
    }
    Ok(())
}

/// Writes the line of a pad.
fn put_pad<K: Sink>(page: &mut Page, sink: &mut K, pad: Pad) -> Result<(), Failed>
    ensures bytes { PutsBehind result (K.held sink.old) (K.held sink.new) page.old page.new
        (pad_line pad) }
    ensures named { OnOk result (IsNamed pad) }
    ensures never_falls { K.faults sink.old ≤ K.faults sink.new }
    ensures cause { OnErr result (Rose (K.faults sink.old) (K.faults sink.new)) }
{
    page.put(sink, word_of(pad.name.role))?;
    put_name(page, sink, pad.name.name)?;
    put_number(page, sink, pad.net.0)?;
    page.put(sink, b"\n")
}

/// Writes the line of a device.
fn put_device<K: Sink>(page: &mut Page, sink: &mut K, device: Device) -> Result<(), Failed>
    ensures bytes { PutsBehind result (K.held sink.old) (K.held sink.new) page.old page.new
        (device_line device) }
    ensures never_falls { K.faults sink.old ≤ K.faults sink.new }
    ensures cause { OnErr result (Rose (K.faults sink.old) (K.faults sink.new)) }
{
    match device {
        Device::Pass { gate, a, b } => {
            page.put(sink, b"pass")?;
            put_number(page, sink, gate.0)?;
            put_number(page, sink, a.0)?;
            put_number(page, sink, b.0)?;
            page.put(sink, b"\n")
        }
        Device::Load { net } => {
            page.put(sink, b"load")?;
            put_number(page, sink, net.0)?;
            page.put(sink, b"\n")
        }
    }
}

/// Writes a space and the name, if there is one.
fn put_name<K: Sink>(page: &mut Page, sink: &mut K, name: Option<Name>) -> Result<(), Failed>
    ensures bytes { PutsBehind result (K.held sink.old) (K.held sink.new) page.old page.new
        (name_part name) }
    ensures named { OnOk result (IfSome name (λ bytes. is_name bytes ≡ true)) }
    ensures never_falls { K.faults sink.old ≤ K.faults sink.new }
    ensures cause { OnErr result (Rose (K.faults sink.old) (K.faults sink.new)) }
{
    match name {
        Some(name) => {
            page.put(sink, b" ")?;
            page.put(sink, name.as_bytes())
        }
        None => Ok(()),
    }
}

/// Writes a space and the number.
fn put_number<K: Sink>(page: &mut Page, sink: &mut K, number: u32) -> Result<(), Failed>
    ensures bytes { PutsBehind result (K.held sink.old) (K.held sink.new) page.old page.new
        (number_part number) }
    ensures never_falls { K.faults sink.old ≤ K.faults sink.new }
    ensures cause { OnErr result (Rose (K.faults sink.old) (K.faults sink.new)) }
{
    page.put(sink, b" ")?;
    page.put(sink, decimal_text(number).as_bytes())
}

/// The digits of the number.
fn decimal_text(number: u32) -> NumberText
    ensures { result ≡ decimal number }
{
    NumberText::of(i128::from(number))
}

/// The word of a role.
fn word_of(role: Role) -> &'static [u8]
    ensures { result.now ≡ role_word role }
{
    match role {
        Role::Vdd => b"vdd",
        Role::Gnd => b"gnd",
        Role::Phi1 => b"phi1",
        Role::Phi2 => b"phi2",
        Role::Reset => b"reset",
        Role::Input => b"in",
        Role::Output => b"out",
    }
}
