// The orders in which the nets of the registers are evaluated.

ghost use Rattle.std.specs.Prelude.{◌≡◌, ◌+◌, ◌*◌, ◌<◌, ◌≤◌, ◌^◌, ◌++◌, map, IfOk, OnOk};
ghost use Rattle.std.specs.List.{range_with_len};
ghost use Rattle.position_nfa.specs.Registers.{AreFew, fixed_nets, first_nets, second_nets};

use crate::array_nets::ArrayCounts;
use rx_text::NoMemory;
use std::alloc::Global;

/// The order of evaluation under PHI1, in which what is stored then comes last.
pub fn first_order(alloc: Global, counts: ArrayCounts, terms: u32) -> Result<Vec<u32>, NoMemory>
    requires few { AreFew counts }
    requires terms { terms ≤ 2 ^ 22 }
    ensures { IfOk result (λ order. order.items ≡ fixed_nets counts ++ second_nets counts terms ++ first_nets counts) }
{
    let mut order = Vec::new(alloc);
    add_fixed(&mut order, counts)?;
    add_second(&mut order, counts, terms)?;
    add_first(&mut order, counts)?;
    Ok(order)
}

/// The order of evaluation under PHI2, in which what was stored under PHI1 comes before the rest.
pub fn second_order(alloc: Global, counts: ArrayCounts, terms: u32) -> Result<Vec<u32>, NoMemory>
    requires few { AreFew counts }
    requires terms { terms ≤ 2 ^ 22 }
    ensures { IfOk result (λ order. order.items ≡ fixed_nets counts ++ first_nets counts ++ second_nets counts terms) }
{
    let mut order = Vec::new(alloc);
    add_fixed(&mut order, counts)?;
    add_first(&mut order, counts)?;
    add_second(&mut order, counts, terms)?;
    Ok(order)
}

/// Adds the nets that pads fix.
fn add_fixed(order: &mut Vec<u32>, counts: ArrayCounts) -> Result<(), NoMemory>
    requires { AreFew counts }
    ensures { OnOk result (order.new.items ≡ order.old.items ++ fixed_nets counts) }
{
    order.push(0)?;
    order.push(counts.ground_net())?;
    order.push(counts.phi1_net())?;
    order.push(counts.phi2_net())?;
    order.push(counts.reset_net())?;
    add_run(order, counts.line_net(0), 1, counts.lines)
}

/// Adds what is stored while PHI1 is high, and the inverses of it.
fn add_first(order: &mut Vec<u32>, counts: ArrayCounts) -> Result<(), NoMemory>
    requires { AreFew counts }
    ensures { OnOk result (order.new.items ≡ order.old.items ++ first_nets counts) }
{
    add_run(order, counts.master_net(0), 4, counts.positions)?;
    order.push(counts.start_master_net())?;
    add_run(order, counts.inverse_net(0), 4, counts.positions)?;
    order.push(counts.start_inverse_net())?;
    Ok(())
}

/// Adds what is stored while PHI2 is high, and then the planes.
fn add_second(order: &mut Vec<u32>, counts: ArrayCounts, terms: u32) -> Result<(), NoMemory>
    requires few { AreFew counts }
    requires terms { terms ≤ 2 ^ 22 }
    ensures { OnOk result (order.new.items ≡ order.old.items ++ second_nets counts terms) }
{
    add_run(order, counts.stored_net(0), 4, counts.positions)?;
    order.push(counts.start_net())?;
    add_run(order, counts.complement_net(0), 1, counts.lines)?;
    add_run(order, counts.state_net(0), 1, counts.positions)?;
    add_run(order, counts.term_net(0), 1, terms)?;
    add_run(order, counts.sum_net(0), 4, counts.positions)?;
    add_run(order, counts.shared_net(0), 2, counts.outputs)?;
    add_run(order, counts.output_net(0), 2, counts.outputs)?;
    Ok(())
}

/// Adds so many nets from this one on, so far apart.
fn add_run(order: &mut Vec<u32>, from: u32, apart: u32, count: u32) -> Result<(), NoMemory>
    requires first { from < 2 ^ 16 }
    requires apart { apart ≤ 4 }
    requires few { count ≤ 2 ^ 22 }
    ensures { OnOk result (order.new.items ≡ order.old.items ++ map (λ i. from + apart * i) (range_with_len 0 count)) }
{
    for i in 0..count {
        order.push(from + apart * i)?;
    }
    Ok(())
}
