//! Parts of netlists as texts: the number of nets, gates `out=input,input`, loads `+net`, and transfers `clock:from>to`. Nets 0 to 3
//! are the supplies and the clocks.

ghost use Rattle.std.specs.Prelude.{◌≡◌, ◌≢◌, ◌⊎◌, ◌<◌, ◌≤◌, ◌^◌, true, All, AllPairs};
ghost use Rattle.rx_text.specs.declared.pad_name.Role.TheVariants.{Phi1, Phi2};
ghost use Rattle.nor_net.specs.Part.{IsPartGate, IsPartTransfer};
ghost use Rattle.gate_matrix.specs.Columns.{AreWires};
ghost use Rattle.gate_matrix.specs.Drawn.{FitsPart};

use gate_matrix::needed;
use nor_net::{Gate, Part, Supplies, Transfer};
use rx_text::Role;
use std::alloc::Global;
use std::test::Fail;

/// The most nets of a part, and the most entries of each list.
const MOST: usize = 65536;

/// The nets are below this number.
fn are_below(nets: &[u32], count: u32) -> bool
    ensures { result ≡ true → All (λ net. net < count) nets.now }
{
    for net in nets {
        if *net >= count {
            return false;
        }
    }
    true
}

/// No net is listed twice.
fn differ(nets: &[u32]) -> bool
    ensures { result ≡ true → AllPairs (λ a b. a ≢ b) nets.now }
{
    for at in 0..nets.len() {
        if nets[..at].contains(&nets[at]) {
            return false;
        }
    }
    true
}

/// The gates name nets of the part, and no input twice.
fn are_gates(gates: &[Gate], count: u32) -> bool
    ensures { result ≡ true → All (IsPartGate count) gates.now }
{
    for gate in gates {
        if gate.out() >= count || !are_below(gate.inputs(), count) || !differ(gate.inputs()) {
            return false;
        }
    }
    true
}

/// The transfers name nets of the part, and clocks.
fn are_transfers(transfers: &[Transfer], count: u32) -> bool
    ensures { result ≡ true → All (IsPartTransfer count) transfers.now }
{
    for transfer in transfers {
        if transfer.from >= count || transfer.to >= count || !is_clock(transfer.clock) {
            return false;
        }
    }
    true
}

fn is_clock(role: Role) -> bool
    ensures { result ≡ true → (role ≡ Phi1) ⊎ (role ≡ Phi2) }
{
    role == Role::Phi1 || role == Role::Phi2
}

/// The part of these nets and devices, where it is one.
fn checked(
    alloc: Global,
    nets: u32,
    gates: Vec<Gate>,
    loads: Vec<u32>,
    transfers: Vec<Transfer>,
) -> Option<Part> {
    let few = nets as usize <= MOST
        && gates.len() <= MOST
        && loads.len() <= MOST
        && transfers.len() <= MOST;
    if !few || nets < 4 || !are_gates(&gates, nets) || !are_below(&loads, nets) {
        return None;
    }
    if !differ(&loads) || !are_transfers(&transfers, nets) {
        return None;
    }
    let supplies = Supplies {
        vdd: 0,
        gnd: 1,
        phi1: 2,
        phi2: 3,
    };
    Some(Part::new(nets, supplies, gates, loads, transfers, Vec::new(alloc)))
}

/// The numbers between commas.
fn numbers(alloc: Global, text: &str) -> Result<Vec<u32>, Fail> {
    let mut numbers = Vec::new(alloc);
    if !text.is_empty() {
        for number in text.split(',') {
            numbers.push(number.parse::<u32>()?)?;
        }
    }
    Ok(numbers)
}

/// The transfer of a clock's number and two nets.
fn transfer(clock: &str, ends: &str) -> Result<Transfer, Fail> {
    let (from, to) = ends.split_once('>').ok_or("no transfer")?;
    Ok(Transfer {
        clock: if clock == "1" { Role::Phi1 } else { Role::Phi2 },
        from: from.parse::<u32>()?,
        to: to.parse::<u32>()?,
    })
}

/// The part of the text, where it is one.
pub(crate) fn part_of(alloc: Global, text: &str) -> Result<Option<Part>, Fail> {
    let mut nets = 0;
    let mut gates = Vec::new(alloc);
    let mut loads = Vec::new(alloc);
    let mut transfers = Vec::new(alloc);
    for word in text.split(' ') {
        if let Some((out, inputs)) = word.split_once('=') {
            gates.push(Gate::new(out.parse::<u32>()?, numbers(alloc, inputs)?))?;
        } else if let Some((clock, ends)) = word.split_once(':') {
            transfers.push(transfer(clock, ends)?)?;
        } else if let Some(net) = word.strip_prefix("+") {
            loads.push(net.parse::<u32>()?)?;
        } else {
            nets = word.parse::<u32>()?;
        }
    }
    Ok(checked(alloc, nets, gates, loads, transfers))
}

/// Each column is at least two behind the one before, and another column is behind the last.
fn are_wires(at: &[u32], cols: u32) -> bool
    ensures { result ≡ true → AreWires at.now cols }
{
    let mut first = 2;
    for col in at {
        if *col < first || *col > 1 << 20 {
            return false;
        }
        first = *col + 2;
    }
    first <= cols
}

/// The part can be drawn in so many rows and columns, and its nets have their poly in these.
pub(crate) fn fits(part: &Part, at: &[u32], rows: u32, cols: u32) -> bool
    ensures room { result ≡ true → FitsPart part.now at.now rows cols }
    ensures few_rows { result ≡ true → rows ≤ 2 ^ 20 }
    ensures few_cols { result ≡ true → cols ≤ 2 ^ 20 }
{
    1 <= rows
        && rows <= 1 << 20
        && cols <= 1 << 20
        && needed(part).0 <= rows
        && at.len() == part.nets() as usize
        && are_wires(at, cols)
}
