// The nets that are due: those whose groups are to be looked at, since a gate at them was told after the last look.

ghost use Rattle.std.specs.Prelude.{◌≡◌, ◌⊎◌, ◌||◌, ◌+◌, ◌<◌, ◌≤◌, ℕ, None, Some, true, false, [], length, IfSome, slice_index_or};
ghost use Rattle.switch_net.specs.Settling.{fixed_level};
ghost use Rattle.switch_net.specs.Ternary.{possible};
ghost use Rattle.switch_net.specs.declared.network.Level.TheVariants as level;
ghost use Rattle.switch_sim.specs.Gating.{AreGates};
ghost use Rattle.switch_sim.specs.Grouping.{IsSight};
ghost use Rattle.switch_sim.specs.Incidence.{one_end, other_end};
ghost use Rattle.switch_sim.specs.Simulation.{level_at};
ghost use Rattle.switch_sim.specs.Waiting.{Waits};
ghost use Rattle.switch_sim.specs.DueNets.{LeadsLow, IsWoken, AreWoken, Wakes, Remain};

use crate::gates::Gates;
use crate::group::{Conduct, Sight, both, device_at, is_on};
use crate::incidence::{one_end, other_end};
use crate::waiting::Waiting;
use switch_net::{Device, Level, Net};

/// The nets at the ends of all devices that the net gates are due from now on, but for those that are held: where the net was
/// told low and a device no longer leads to ground, but another may do so still, nothing is told by this.
pub(crate) fn wake(
    sight: &Sight,
    gates: &Gates,
    net: u32,
    seen: &mut [bool],
    watch: &mut [usize],
    next: &mut Waiting,
)
    requires sight { IsSight sight.now }
    requires gates { AreGates sight.now.network.now.devices gates.now }
    requires within { net < length gates.now.last.items }
    requires inside { net < sight.now.network.now.nets }
    requires seen_size { length seen.old ≡ sight.now.network.now.nets }
    requires watch_size { length watch.old ≡ sight.now.network.now.nets }
    requires room { next.old.size ≡ sight.now.network.now.nets }
    ensures woken { AreWoken sight.now.network.now sight.now.drive.now sight.now.levels.now seen.new net }
    ensures wakes { Wakes seen.old next.old.nets seen.new next.new.nets }
    ensures seen_size { length seen.new ≡ length seen.old }
    ensures watch_size { length watch.new ≡ length watch.old }
    ensures room { next.new.size ≡ next.old.size }
{
    let low = is_low(sight, net);
    let mut behind = gates.behind_last(net);
    while behind > 0 {
        let at = behind - 1;
        wake_ends(sight, low, device_at(sight, at), seen, watch, next);
        behind = gates.behind_earlier(at);
    }
}

/// The nets at both ends of a device are due from now on, unless they are held.
fn wake_ends(
    sight: &Sight,
    low: bool,
    device: Device,
    seen: &mut [bool],
    watch: &mut [usize],
    next: &mut Waiting,
)
    requires sight { IsSight sight.now }
    requires one { one_end device < sight.now.network.now.nets }
    requires other { other_end device < sight.now.network.now.nets }
    requires seen_size { length seen.old ≡ sight.now.network.now.nets }
    requires watch_size { length watch.old ≡ sight.now.network.now.nets }
    requires room { next.old.size ≡ sight.now.network.now.nets }
    ensures one { (gate : ℕ) → (low ≡ true → level_at sight.now.levels.now gate ≡ level.Low)
        → IsWoken sight.now.network.now sight.now.drive.now sight.now.levels.now seen.new gate (one_end device) (other_end device) }
    ensures other { (gate : ℕ) → (low ≡ true → level_at sight.now.levels.now gate ≡ level.Low)
        → IsWoken sight.now.network.now sight.now.drive.now sight.now.levels.now seen.new gate (other_end device) (one_end device) }
    ensures wakes { Wakes seen.old next.old.nets seen.new next.new.nets }
    ensures seen_size { length seen.new ≡ length seen.old }
    ensures watch_size { length watch.new ≡ length watch.old }
    ensures room { next.new.size ≡ next.old.size }
{
    let one = one_end(device);
    let other = other_end(device);
    wake_end(sight, low, one, other, seen, watch, next);
    wake_end(sight, low, other, one, seen, watch, next);
}

/// The net at this end of a device is due from now on, unless it is held.
fn wake_end(
    sight: &Sight,
    low: bool,
    end: u32,
    other: u32,
    seen: &mut [bool],
    watch: &mut [usize],
    next: &mut Waiting,
)
    requires sight { IsSight sight.now }
    requires end { end < sight.now.network.now.nets }
    requires other { other < sight.now.network.now.nets }
    requires seen_size { length seen.old ≡ sight.now.network.now.nets }
    requires watch_size { length watch.old ≡ sight.now.network.now.nets }
    requires room { next.old.size ≡ sight.now.network.now.nets }
    ensures woken { (gate : ℕ) → (low ≡ true → level_at sight.now.levels.now gate ≡ level.Low)
        → IsWoken sight.now.network.now sight.now.drive.now sight.now.levels.now seen.new gate end other }
    ensures wakes { Wakes seen.old next.old.nets seen.new next.new.nets }
    ensures seen_size { length seen.new ≡ length seen.old }
    ensures watch_size { length watch.new ≡ length watch.old }
    ensures room { next.new.size ≡ next.old.size }
{
    if both(low, is_ground(sight, other)) {
        if leads_low(sight, end, watch) {
            return;
        }
    }
    wake_net(end, seen, next);
}

/// The net is low.
fn is_low(sight: &Sight, net: u32) -> bool
    requires sight { IsSight sight.now }
    requires within { net < sight.now.network.now.nets }
    ensures { result ≡ true → level_at sight.now.levels.now net ≡ level.Low }
{
    sight.levels[net as usize] == Level::Low
}

/// The net is fixed low.
fn is_ground(sight: &Sight, net: u32) -> bool
    requires sight { IsSight sight.now }
    requires within { net < sight.now.network.now.nets }
    ensures { result ≡ true → fixed_level sight.now.network.now.pads sight.now.drive.now net ≡ Some false }
{
    match sight.fixed[net as usize] {
        Some(level) => !level,
        None => false,
    }
}

/// A device at the net may lead to one that is fixed low. The watch tells how far the devices at the net were looked through:
/// those after it no longer do so in this settling.
fn leads_low(sight: &Sight, net: u32, watch: &mut [usize]) -> bool
    requires sight { IsSight sight.now }
    requires within { net < sight.now.network.now.nets }
    requires size { length watch.old ≡ sight.now.network.now.nets }
    ensures leads { result ≡ true
        → LeadsLow sight.now.network.now sight.now.drive.now (possible (level_at sight.now.levels.now)) net }
    ensures size { length watch.new ≡ length watch.old }
{
    let mut behind = watch[net as usize];
    while behind > 0 {
        if pulls_low(sight, behind - 1, net) {
            watch[net as usize] = behind;
            return true;
        }
        behind = earlier(sight, behind - 1, net);
    }
    watch[net as usize] = 0;
    false
}

/// The device of this number may lead from the net to one that is fixed low.
fn pulls_low(sight: &Sight, at: usize, net: u32) -> bool
    requires { IsSight sight.now }
    ensures { result ≡ true
        → LeadsLow sight.now.network.now sight.now.drive.now (possible (level_at sight.now.levels.now)) net }
{
    if at >= sight.network.devices().len() {
        return false;
    }
    match device_at(sight, at) {
        Device::Load { net: _ } => false,
        Device::Pass { gate, a, b } => {
            let on = is_on(sight, Conduct::Possible, gate);
            let by_a = both(a.0 == net, is_ground(sight, b.0));
            let by_b = both(b.0 == net, is_ground(sight, a.0));
            both(on, either(by_a, by_b))
        }
    }
}

fn either(one: bool, other: bool) -> bool
    ensures { result ≡ (one || other) }
{
    one || other
}

/// The number behind the device before this one at the net, and 0 where there is none.
fn earlier(sight: &Sight, at: usize, net: u32) -> usize
    requires { IsSight sight.now }
    ensures { result ≤ at }
{
    if at >= sight.network.devices().len() {
        return 0;
    }
    let device = device_at(sight, at);
    if one_end(device) != net && other_end(device) != net {
        return 0;
    }
    sight
        .incidence
        .behind_earlier(sight.network.devices(), at, net)
}

/// The net is due from now on.
fn wake_net(net: u32, seen: &mut [bool], next: &mut Waiting)
    requires within { net < length seen.old }
    requires room { next.old.size ≡ length seen.old }
    ensures here { slice_index_or seen.new net false ≡ false }
    ensures wakes { Wakes seen.old next.old.nets seen.new next.new.nets }
    ensures size { length seen.new ≡ length seen.old }
    ensures room { next.new.size ≡ next.old.size }
{
    if seen[net as usize] {
        seen[net as usize] = false;
        next.add(Net(net));
    }
}

/// Takes the net that waits longest: those that begin to wait in `next` are turned over to `now` once none is left there.
pub(crate) fn take(now: &mut Waiting, next: &mut Waiting) -> Option<u32>
    requires { now.old.size ≡ next.old.size }
    ensures none { result ≡ None → (net : ℕ) → Waits now.old.nets net ⊎ Waits next.old.nets net → ⊥ }
    ensures some { IfSome result (Remain now.old.nets next.old.nets now.new.nets next.new.nets) }
    ensures within { IfSome result (λ net. net < now.old.size) }
    ensures less { IfSome result (λ net. length now.new.nets + length next.new.nets < length now.old.nets + length next.old.nets) }
    ensures now_room { now.new.size ≡ now.old.size }
    ensures next_room { next.new.size ≡ next.old.size }
{
    turn(now, next);
    now.pop()
}

/// Turns the nets that wait in `next` over to `now`, where none is left.
fn turn(now: &mut Waiting, next: &mut Waiting)
    requires { now.old.size ≡ next.old.size }
    ensures none { now.new.nets ≡ [] → next.new.nets ≡ [] }
    ensures kept { (net : ℕ) → Waits now.old.nets net ⊎ Waits next.old.nets net → Waits now.new.nets net ⊎ Waits next.new.nets net }
    ensures most { length now.new.nets + length next.new.nets ≤ length now.old.nets + length next.old.nets }
    ensures now_room { now.new.size ≡ now.old.size }
    ensures next_room { next.new.size ≡ next.old.size }
{
    if now.len() > 0 {
        return;
    }
    while let Some(net) = next.pop() {
        now.add(Net(net));
    }
}
