// The group of a net, and what it is led to.

ghost use Rattle.std.specs.Prelude.{◌≡◌, ◌≢◌, ◌<◌, ◌⊎◌, ◌||◌, ◌&&◌, ℕ, true, [], length, slice_index_or};
ghost use Rattle.switch_net.specs.Settling.{Joins};
ghost use Rattle.switch_net.specs.declared.network.Device.{Device};
ghost use Rattle.switch_net.specs.declared.network.Level.TheVariants as level;
ghost use Rattle.switch_sim.specs.Grouping.{conducts, lit, IsSight, IsFollowed, IsVisited, IsMore, IsOf, IsExplored, StaysTrue, IsMet, told_by};
ghost use Rattle.switch_sim.specs.Simulation.{level_at};
ghost use Rattle.switch_sim.specs.declared.group.Conduct.{Conduct};

use crate::gates::Gates;
use crate::incidence::Incidence;
use crate::waiting::Waiting;
use switch_net::{Device, Level, Net, Network};

/// Which devices conduct: those whose gates are high for sure, or those whose gates may be high.
#[derive(Clone, Copy)]
pub(crate) enum Conduct {
    Sure,
    Possible,
}

/// What a group is led to: whether it is pulled low or high, and whether a net of it held another charge than low or than high.
#[derive(Clone, Copy)]
pub(crate) struct Findings {
    pub(crate) low: bool,
    pub(crate) high: bool,
    pub(crate) not_low: bool,
    pub(crate) not_high: bool,
}

/// What stands while a network settles: the network, how it is driven, the devices at each net and those that it gates, what
/// the nets are fixed to, and their charges.
#[derive(Drop)]
pub(crate) struct Scene<'a> {
    pub(crate) network: &'a Network,
    pub(crate) drive: &'a [bool],
    pub(crate) incidence: &'a Incidence,
    pub(crate) gates: &'a Gates,
    pub(crate) fixed: &'a [Option<bool>],
    pub(crate) charges: &'a [Level],
}

/// Where groups are looked for: the network, how it is driven, the devices at each net, what the nets are fixed to, their charges and
/// their levels.
#[derive(Drop)]
pub(crate) struct Sight<'a> {
    pub(crate) network: &'a Network,
    pub(crate) drive: &'a [bool],
    pub(crate) incidence: &'a Incidence,
    pub(crate) fixed: &'a [Option<bool>],
    pub(crate) charges: &'a [Level],
    pub(crate) levels: &'a [Level],
}

/// Finds the nets of a free net's group, and what it is led to.
pub(crate) fn explore(sight: &Sight, conduct: Conduct, net: u32, group: &mut Waiting) -> Findings
    requires sight { IsSight sight.now }
    requires within { net < sight.now.network.now.nets }
    requires room { group.old.size ≡ sight.now.network.now.nets }
    ensures explored { IsExplored sight.now conduct net group.new.nets result }
    ensures room { group.new.size ≡ group.old.size }
{
    let mut found = Findings {
        low: false,
        high: false,
        not_low: false,
        not_high: false,
    };
    clear(group);
    group.add(Net(net));
    let mut at = 0;
    while at < group.len() {
        visit(sight, conduct, group.get(at), group, &mut found);
        at += 1;
    }
    found
}

/// Empties the group.
fn clear(group: &mut Waiting)
    ensures none { group.new.nets ≡ [] }
    ensures room { group.new.size ≡ group.old.size }
{
    while let Some(_) = group.pop() {}
}

/// Looks at a net of the group: its charge, and the devices at it.
fn visit(sight: &Sight, conduct: Conduct, net: u32, group: &mut Waiting, found: &mut Findings)
    requires sight { IsSight sight.now }
    requires within { net < sight.now.network.now.nets }
    requires room { group.old.size ≡ sight.now.network.now.nets }
    ensures more { IsMore group.old.nets found.old group.new.nets found.new }
    ensures visited { IsVisited sight.now conduct group.new.nets found.new net }
    ensures sound { StaysTrue sight.now conduct net group.old.nets found.old group.new.nets found.new }
    ensures room { group.new.size ≡ group.old.size }
{
    let charge = charge_of(sight, net);
    add_charge(charge, found);
    let mut behind = sight.incidence.behind_last(net);
    while behind > 0 {
        let at = behind - 1;
        let device = device_at(sight, at);
        follow(sight, conduct, device, net, group, found);
        behind = sight
            .incidence
            .behind_earlier(sight.network.devices(), at, net);
    }
}

/// Puts down the charge of a net of the group.
fn add_charge(charge: Level, found: &mut Findings)
    ensures low { found.new.low ≡ found.old.low }
    ensures high { found.new.high ≡ found.old.high }
    ensures not_low { found.new.not_low ≡ true → (found.old.not_low ≡ true) ⊎ (charge ≢ level.Low) }
    ensures not_high { found.new.not_high ≡ true → (found.old.not_high ≡ true) ⊎ (charge ≢ level.High) }
    ensures is_low { (found.old.not_low ≡ true) ⊎ (charge ≢ level.Low) → found.new.not_low ≡ true }
    ensures is_high { (found.old.not_high ≡ true) ⊎ (charge ≢ level.High) → found.new.not_high ≡ true }
{
    match charge {
        Level::Low => found.not_high = true,
        Level::High => found.not_low = true,
        Level::Unknown => {
            found.not_low = true;
            found.not_high = true;
        }
    }
}

/// Looks at a device at a net of the group.
fn follow(
    sight: &Sight,
    conduct: Conduct,
    device: Device,
    net: u32,
    group: &mut Waiting,
    found: &mut Findings,
)
    requires sight { IsSight sight.now }
    requires of { IsOf sight.now device }
    requires room { group.old.size ≡ sight.now.network.now.nets }
    ensures more { IsMore group.old.nets found.old group.new.nets found.new }
    ensures followed { IsFollowed sight.now conduct net group.new.nets found.new device }
    ensures sound { StaysTrue sight.now conduct net group.old.nets found.old group.new.nets found.new }
    ensures room { group.new.size ≡ group.old.size }
{
    match device {
        Device::Load { net: at } => add_load(at.0 == net, found),
        Device::Pass { gate, a, b } => {
            let on = is_on(sight, conduct, gate);
            let at_a = both(on, a.0 == net);
            let at_b = both(on, b.0 == net);
            meet(sight, at_a, b, group, found);
            meet(sight, at_b, a, group, found);
        }
    }
}

/// Puts down a load of the group, where it is one.
fn add_load(here: bool, found: &mut Findings)
    ensures low { found.new.low ≡ found.old.low }
    ensures high { found.new.high ≡ (here || found.old.high) }
    ensures not_low { found.new.not_low ≡ found.old.not_low }
    ensures not_high { found.new.not_high ≡ found.old.not_high }
{
    found.high = here || found.high;
}

/// Looks at the net to which a conducting device leads from the group, where it does.
fn meet(sight: &Sight, here: bool, other: Net, group: &mut Waiting, found: &mut Findings)
    requires sight { IsSight sight.now }
    requires within { other.0 < sight.now.network.now.nets }
    requires room { group.old.size ≡ sight.now.network.now.nets }
    ensures more { IsMore group.old.nets found.old group.new.nets found.new }
    ensures met { here ≡ true → IsMet sight.now group.new.nets found.new other.0 }
    ensures sound { (conduct : Conduct) (net : ℕ)
        → (here ≡ true → Joins sight.now.network.now.devices (lit sight.now conduct) net other.0)
        → StaysTrue sight.now conduct net group.old.nets found.old group.new.nets found.new }
    ensures room { group.new.size ≡ group.old.size }
{
    if here {
        match sight.fixed[other.0 as usize] {
            Some(true) => found.high = true,
            Some(false) => found.low = true,
            None => group.add(other),
        }
    }
}

/// The device of this number.
pub(crate) fn device_at(sight: &Sight, at: usize) -> Device
    requires { at < length sight.now.network.now.devices }
    ensures { (x : Device) → slice_index_or sight.now.network.now.devices at x ≡ result }
{
    sight.network.devices()[at]
}

/// The charge of a net.
fn charge_of(sight: &Sight, net: u32) -> Level
    requires sight { IsSight sight.now }
    requires within { net < sight.now.network.now.nets }
    ensures { result ≡ level_at sight.now.charges.now net }
{
    sight.charges[net as usize]
}

/// A device with this gate conducts.
pub(crate) fn is_on(sight: &Sight, conduct: Conduct, gate: Net) -> bool
    requires sight { IsSight sight.now }
    requires within { gate.0 < sight.now.network.now.nets }
    ensures { result ≡ lit sight.now conduct gate.0 }
{
    conducts(conduct, sight.levels[gate.0 as usize])
}

pub(crate) fn both(one: bool, other: bool) -> bool
    ensures { result ≡ (one && other) }
{
    one && other
}

/// A device whose gate has this level conducts.
fn conducts(conduct: Conduct, gate: Level) -> bool
    ensures { result ≡ conducts conduct gate }
{
    match conduct {
        Conduct::Sure => gate == Level::High,
        Conduct::Possible => gate != Level::Low,
    }
}

/// What a net is told whose possible group and whose sure group are led to these.
pub(crate) fn told_by(possible: Findings, sure: Findings) -> Option<bool>
    ensures { result ≡ told_by possible sure }
{
    if sure.low {
        Some(false)
    } else if possible.low {
        None
    } else if sure.high {
        Some(true)
    } else if possible.high {
        None
    } else if !possible.not_low {
        Some(false)
    } else if !possible.not_high {
        Some(true)
    } else {
        None
    }
}
