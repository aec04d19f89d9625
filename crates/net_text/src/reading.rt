// The reader of a network's text.

ghost use Rattle.std.specs.Prelude.{ℕ, ◌≡◌, ◌<◌, ◌≤◌, ◌+◌, ◌-◌, ◌^◌, ◌++◌, [], true, false, nat_lt, if◌then◌else◌, Ok, Err, length, take, drop, IsTrue, IfOk, IfErr};
ghost use Rattle.std.specs.Fmt.{decimal};
ghost use Rattle.net_text.specs.NetworkText.{IsNetworkText};
ghost use Rattle.net_text.specs.NetRefusals.{IsReadNetFault};
ghost use Rattle.net_text.specs.Reading.{first_lines, later_lines, line_at, line_word, number_due};
ghost use Rattle.net_text.specs.Stages.{PadNet, BehindRole, BehindPass, LinesDue, DueAt, EndsInSpace, IsFirst};
ghost use Rattle.net_text.specs.Steps.{Reads, ReadsName, ReadsPad, ReadsDevice, ReadTo, ReadLine, IsRead, StopsFirst, fault_in_line, fault_of_pads};
ghost use Rattle.rx_text.specs.declared.pad_name.Role.{Role};
ghost use Rattle.net_text.specs.declared.line_kind.LineKind.TheVariants as kind;
ghost use Rattle.net_text.specs.declared.net_fault.NetCode.TheVariants.{N2, N6};

use crate::line_kind::LineKind;
use crate::net_fault::{NetCode, NetFault, ReadNetFault};
use crate::numbers::{name_before_space, number_before};
use crate::words::{TextFault, behind_word, line_kind};
use rx_text::{PadName, Place, Role, place_at};
use std::alloc::{AllocFailed, Global};
use switch_net::network::faultless_is_network;
use switch_net::{Device, Net, Network, NoMemory, Pad, first_double_pad, first_missing};

/// The most nets that a text may have.
const MOST_NETS: u32 = 16_777_216;

/// The lines that may follow the head or a pad.
const PAD_LINES: [LineKind; 10] = [
    LineKind::Pad(Role::Vdd),
    LineKind::Pad(Role::Gnd),
    LineKind::Pad(Role::Phi1),
    LineKind::Pad(Role::Phi2),
    LineKind::Pad(Role::Reset),
    LineKind::Pad(Role::Input),
    LineKind::Pad(Role::Output),
    LineKind::Pass,
    LineKind::Load,
    LineKind::End,
];

/// The lines that may follow a device.
const DEVICE_LINES: [LineKind; 3] = [LineKind::Pass, LineKind::Load, LineKind::End];

/// Why reading stops.
#[derive(Clone, Copy, Debug, PartialEq, Eq)]
enum Stop {
    Fault(TextFault),
    NoMemory,
}

impl From<TextFault> for Stop {
    ghost use Rattle.net_text.specs.declared.reading.Stop.TheVariants as stop;

    ghost from_gives = { λ fault e. e ≡ stop.Fault fault };

    fn from(fault: TextFault) -> Stop {
        Stop::Fault(fault)
    }
}

impl<T: Drop> From<AllocFailed<T>> for Stop {
    ghost use Rattle.net_text.specs.declared.reading.Stop.TheVariants as stop;

    ghost from_gives = { λ _ e. e ≡ stop.NoMemory };

    fn from(_refused: AllocFailed<T>) -> Stop {
        Stop::NoMemory
    }
}

/// What was read of a network.
#[derive(Drop)]
struct Parts {
    nets: u32,
    pads: Vec<Pad>,
    devices: Vec<Device>,
}

impl Parts {
    /// Reads the line that is due here: the place behind it, or `None` where it is the last one and ends the text.
    fn read_line(&mut self, text: &[u8], at: usize) -> Result<Option<usize>, Stop>
        requires { ReadTo text.now self.old.nets self.old.pads.items self.old.devices.items at }
        ensures line { IfOk result
            (λ next. ReadLine text.now self.new.nets self.new.pads.items self.new.devices.items at next) }
        ensures fault { IfErr result (λ stop. StopsFirst text.now stop) }
    {
        let (kind, behind) = first_word(text, at, self.devices.is_empty())?;
        match kind {
            LineKind::Pad(role) => {
                let (pad, next) = read_pad(text, behind, role, self.nets)?;
                self.pads.push(pad)?;
                Ok(Some(next))
            }
            LineKind::Pass => {
                let (device, next) = read_pass(text, behind, self.nets)?;
                self.devices.push(device)?;
                Ok(Some(next))
            }
            LineKind::Load => {
                let (net, next) = read_net_before(text, behind, self.nets, b"\n")?;
                self.devices.push(Device::Load { net })?;
                Ok(Some(next))
            }
            LineKind::End => {
                end_of_text(text, behind)?;
                Ok(None)
            }
        }
    }
}

/// The kind of the line that is due here, and the place behind its word. Pads stand before all devices.
fn first_word(text: &[u8], at: usize, pads_may_follow: bool) -> Result<(LineKind, usize), TextFault>
    requires { at ≤ length text.now }
    ensures is { result ≡ line_at (if pads_may_follow then first_lines else later_lines) at (drop at text.now) }
    ensures reads { IfOk result (λ read. Reads text.now at read.1 (line_word read.0)) }
    ensures pads_first { IfOk result (λ read. (role : Role) → read.0 ≡ kind.Pad role → IsTrue pads_may_follow) }
{
    if pads_may_follow {
        line_kind(text, at, &PAD_LINES)
    } else {
        line_kind(text, at, &DEVICE_LINES)
    }
}

/// Tests that the text ends here.
fn end_of_text(text: &[u8], at: usize) -> Result<(), TextFault>
    ensures { result ≡ if nat_lt at (length text.now) then Err (record { code = N6; at = at }) else Ok tt }
{
    if at < text.len() {
        return Err(TextFault {
            code: NetCode::N6,
            at,
        });
    }
    Ok(())
}

/// The rest of a pad's line.
fn read_pad(text: &[u8], at: usize, role: Role, nets: u32) -> Result<(Pad, usize), TextFault>
    requires within { at ≤ length text.now }
    requires due { DueAt nets text.now at (BehindRole role) }
    requires space { EndsInSpace (take at text.now) }
    ensures read { IfOk result (λ read. ReadsPad text.now at read.1 role nets read.0) }
    ensures due { IfOk result (λ read. DueAt nets text.now read.1 (LinesDue true)) }
    ensures fault { IfErr result (λ fault. IsFirst text.now fault) }
{
    let (name, at) = read_pad_name(text, at, role)?;
    let (net, next) = read_net_before(text, at, nets, b"\n")?;
    Ok((Pad { name, net }, next))
}

/// The name of a pad with this role, and the place of its net.
fn read_pad_name(text: &[u8], at: usize, role: Role) -> Result<(PadName, usize), TextFault>
    requires within { at ≤ length text.now }
    requires space { EndsInSpace (take at text.now) }
    ensures read { IfOk result (λ read. ReadsName text.now at read.1 role read.0) }
    ensures due { (nets : ℕ) → DueAt nets text.now at (BehindRole role) → IfOk result (λ read. DueAt nets text.now read.1 PadNet) }
    ensures space { IfOk result (λ read. EndsInSpace (take read.1 text.now)) }
    ensures fault { (nets : ℕ) → DueAt nets text.now at (BehindRole role) → IfErr result (λ fault. IsFirst text.now fault) }
{
    match role {
        Role::Input => {
            let (name, next) = name_before_space(text, at)?;
            Ok((PadName::input(name), next))
        }
        Role::Output => {
            let (name, next) = name_before_space(text, at)?;
            Ok((PadName::output(name), next))
        }
        _ => Ok((PadName::plain(role), at)),
    }
}

/// The nets of a pass device's line.
fn read_pass(text: &[u8], at: usize, nets: u32) -> Result<(Device, usize), TextFault>
    requires within { at ≤ length text.now }
    requires due { DueAt nets text.now at BehindPass }
    requires space { EndsInSpace (take at text.now) }
    ensures read { IfOk result (λ read. ReadsDevice text.now at read.1 kind.Pass nets read.0) }
    ensures due { IfOk result (λ read. DueAt nets text.now read.1 (LinesDue false)) }
    ensures fault { IfErr result (λ fault. IsFirst text.now fault) }
{
    let (gate, at) = read_net_before(text, at, nets, b" ")?;
    let (a, at) = read_net_before(text, at, nets, b" ")?;
    let (b, next) = read_net_before(text, at, nets, b"\n")?;
    Ok((Device::Pass { gate, a, b }, next))
}

/// A net, and the word behind it.
fn read_net_before(
    text: &[u8],
    at: usize,
    nets: u32,
    word: &[u8],
) -> Result<(Net, usize), TextFault>
    requires { at ≤ length text.now }
    ensures reads { IfOk result (λ read. Reads text.now at read.1 (decimal read.0.0 ++ word.now)) }
    ensures below { IfOk result (λ read. read.0.0 < nets) }
    ensures number { IfOk result (λ read. number_due nets N2 word.now at text.now ≡ Ok (read.0.0, read.1)) }
    ensures fault { IfErr result (λ fault. number_due nets N2 word.now at text.now ≡ Err fault) }
{
    let (number, next) = number_before(text, at, nets, NetCode::N2, word)?;
    Ok((Net(number), next))
}

/// The number of nets, and the place behind the first two lines.
fn read_head(text: &[u8]) -> Result<(u32, usize), TextFault>
    ensures read { IfOk result (λ read. ReadTo text.now read.0 [] [] read.1) }
    ensures fault { IfErr result (λ fault. IsFirst text.now fault) }
{
    let at = behind_word(text, 0, b"rxnet 1\nnets ")?;
    let (nets, next) = number_before(text, at, MOST_NETS + 1, NetCode::N5, b"\n")?;
    Ok((nets, next))
}

/// Reads the parts of a network.
fn read_parts(alloc: Global, text: &[u8]) -> Result<Parts, Stop>
    ensures read { IfOk result (λ parts. IsRead text.now parts.nets parts.pads.items parts.devices.items) }
    ensures fault { IfErr result (λ stop. StopsFirst text.now stop) }
{
    let (nets, mut at) = read_head(text)?;
    let mut parts = Parts {
        nets,
        pads: Vec::new(alloc),
        devices: Vec::new(alloc),
    };
    while let Some(next) = parts.read_line(text, at)? {
        at = next;
    }
    Ok(parts)
}

/// Reads the text of a network. Takes memory in proportion to the text.
///
/// # Errors
///
/// `Fault` where the text is no network's, with its one refusal: the first of N1, N2, N5 and N6 in the text, else N3 at the
/// first line of a pad that repeats the name or the net of an earlier one, else N4 at the line `end`. A number is as large as
/// the longest numeral at its place says, so N2 and N5 come before an N1 behind its first byte. A network's text never gets
/// a `Fault`. `NoMemory` where an allocation was refused.
pub fn read_net(alloc: Global, text: &[u8]) -> Result<Network, ReadNetFault>
    requires { length text.now < 2 ^ 32 - 1 }
    ensures network { IfOk result (λ network. IsNetworkText text.now network) }
    ensures fault { IfErr result (λ fault. IsReadNetFault text.now fault) }
{
    faultless_is_network();
    let parts = match read_parts(alloc, text) {
        Ok(parts) => parts,
        Err(Stop::NoMemory) => return Err(ReadNetFault::NoMemory),
        Err(Stop::Fault(fault)) => {
            return Err(ReadNetFault::Fault(NetFault {
                code: fault.code,
                place: place_at(text, fault.at),
            }));
        }
    };
    let last = (parts.pads.len() + parts.devices.len() + 3) as u32;
    if let Some(fault) = fault_of_pads(alloc, &parts.pads, last)? {
        return Err(ReadNetFault::Fault(fault));
    }
    Ok(Network::from_parts(parts.nets, parts.pads, parts.devices))
}

/// The fault of these pads, whose nets are all in range, where this is the last line.
fn fault_of_pads(alloc: Global, pads: &[Pad], last: u32) -> Result<Option<NetFault>, NoMemory>
    requires pads_fit { length pads.now + 3 < 2 ^ 32 }
    ensures { IfOk result (λ fault. fault ≡ fault_of_pads pads.now last) }
{
    if let Some(at) = first_double_pad(alloc, pads)? {
        return Ok(Some(fault_in_line(NetCode::N3, at + 3)));
    }
    Ok(first_missing(pads).map(|_| fault_in_line(NetCode::N4, last)))
}

/// A fault at the first byte of this line.
fn fault_in_line(code: NetCode, line: u32) -> NetFault
    ensures { result ≡ fault_in_line code line }
{
    NetFault {
        code,
        place: Place::Text { line, column: 1 },
    }
}
