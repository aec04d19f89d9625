// One settling: nets are told one after another, until none is due.

ghost use Rattle.std.specs.Prelude.{◌≡◌, ◌≢◌, ◌⊎◌, ℕ, ◌<◌, ◌≤◌, None, true, false, length, All, AllPairs, IfOk, replicate, slice_set, slice_index_or};
ghost use Rattle.switch_net.specs.Settling.{pad_level, fixed_level, IsFree};
ghost use Rattle.switch_net.specs.Ternary.{StartsUnknown, SettledLevels};
ghost use Rattle.switch_net.specs.Validity.{AreDistinct, IsNetwork};
ghost use Rattle.switch_net.specs.declared.network.Level.TheVariants as level;
ghost use Rattle.switch_sim.specs.DueNets.{AreListed, AreHandled};
ghost use Rattle.switch_sim.specs.Gating.{AreGates};
ghost use Rattle.switch_sim.specs.Grouping.{IsScene};
ghost use Rattle.switch_sim.specs.Incidence.{IsIncidence};
ghost use Rattle.switch_sim.specs.Nets.{fixed_at};
ghost use Rattle.switch_sim.specs.Simulation.{level_at};
ghost use Rattle.switch_sim.specs.ToldLevels.{LeadsOn, IsCloser};
ghost use Rattle.switch_sim.specs.Nets.{AreFixed, first_level, IsSized};
ghost use Rattle.switch_sim.specs.Rooms.{HaveRoom};
ghost use Rattle.switch_sim.specs.Waiting.{Waits};

use crate::gates::Gates;
use crate::group::Scene;
use crate::incidence::Incidence;
use crate::telling::look_and_tell;
use crate::waiting::{Lists, Waiting};
use crate::worklist::take;
use rx_text::{NoMemory, Role};
use std::alloc::Global;
use switch_net::{Level, Net, Network, Pad, settled_levels_are_least};

/// What a simulation holds of each net: what its pad fixes it to, its charge, its level, what it is told, whether it was seen
/// since a gate at it was told, the devices at it and those that it gates; nets of groups, and nets that wait to be looked at.
#[derive(Drop)]
pub(crate) struct Nets {
    pub(crate) fixed: Vec<Option<bool>>,
    pub(crate) charges: Vec<Level>,
    pub(crate) levels: Vec<Level>,
    pub(crate) told: Vec<Option<bool>>,
    pub(crate) seen: Vec<bool>,
    pub(crate) watch: Vec<usize>,
    pub(crate) incidence: Incidence,
    pub(crate) gates: Gates,
    pub(crate) lists: Lists,
}

impl Nets {
    /// Room for what a simulation of the network holds, in which nothing is known of any net.
    ///
    /// # Errors
    ///
    /// `NoMemory` where an allocation was refused.
    pub(crate) fn new(alloc: Global, network: &Network) -> Result<Nets, NoMemory>
        ensures sized { IfOk result (IsSized network.now) }
        ensures levels { IfOk result (λ nets. nets.levels.items ≡ replicate network.now.nets level.Unknown) }
    {
        let count = network.nets() as usize;
        let _valid = network.pads();
        Ok(Nets {
            fixed: vec![in alloc; None; count]?,
            charges: vec![in alloc; Level::Unknown; count]?,
            levels: vec![in alloc; Level::Unknown; count]?,
            told: vec![in alloc; None; count]?,
            seen: vec![in alloc; false; count]?,
            watch: vec![in alloc; 0; count]?,
            incidence: Incidence::new(alloc, network.devices(), count)?,
            gates: Gates::new(alloc, network.devices(), count)?,
            lists: Lists::new(alloc, count)?,
        })
    }
}

/// Settles the network from the levels, which become charges, while the pads are driven so.
pub(crate) fn settle(network: &Network, drive: &[bool], nets: &mut Nets)
    requires sized { IsSized network.now nets.old }
    requires driven { length drive.now ≡ length network.now.pads }
    ensures levels { SettledLevels network.now drive.now (level_at nets.old.levels.items)
        (level_at nets.new.levels.items) }
    ensures size { IsSized network.now nets.new }
{
    settle_levels(
        network,
        drive,
        &nets.incidence,
        &nets.gates,
        &mut nets.fixed,
        &mut nets.charges,
        &mut nets.lists,
        &mut nets.told,
        &mut nets.seen,
        &mut nets.watch,
        &mut nets.levels,
    );
}

/// Settles the network from the levels.
fn settle_levels(
    network: &Network,
    drive: &[bool],
    incidence: &Incidence,
    gates: &Gates,
    fixed: &mut [Option<bool>],
    charges: &mut [Level],
    lists: &mut Lists,
    told: &mut [Option<bool>],
    seen: &mut [bool],
    watch: &mut [usize],
    levels: &mut [Level],
)
    requires driven { length drive.now ≡ length network.now.pads }
    requires chains { IsIncidence network.now.devices incidence.now }
    requires last { length incidence.now.last.items ≡ network.now.nets }
    requires gates { AreGates network.now.devices gates.now }
    requires gates_last { length gates.now.last.items ≡ network.now.nets }
    requires fixed_size { length fixed.old ≡ network.now.nets }
    requires charges_size { length charges.old ≡ network.now.nets }
    requires levels_size { length levels.old ≡ network.now.nets }
    requires room { HaveRoom network.now.nets lists.old }
    requires told_size { length told.old ≡ network.now.nets }
    requires seen_size { length seen.old ≡ network.now.nets }
    requires watch_size { length watch.old ≡ network.now.nets }
    ensures levels { SettledLevels network.now drive.now (level_at levels.old) (level_at levels.new) }
    ensures fixed_size { length fixed.new ≡ length fixed.old }
    ensures charges_size { length charges.new ≡ length charges.old }
    ensures levels_size { length levels.new ≡ length levels.old }
    ensures room { HaveRoom network.now.nets lists.new }
    ensures told_size { length told.new ≡ length told.old }
    ensures seen_size { length seen.new ≡ length seen.old }
    ensures watch_size { length watch.new ≡ length watch.old }
{
    fix(network.pads(), drive, fixed);
    charges.copy_from_slice(levels);
    forget(fixed, levels);
    begin(network.nets(), fixed, seen, &mut lists.next);
    incidence.begin_watch(watch);
    let scene = Scene {
        network,
        drive,
        incidence,
        gates,
        fixed,
        charges,
    };
    tell_all(&scene, lists, told, seen, watch, levels);
}

/// Looks at the groups of all nets that are due, until none is.
fn tell_all(
    scene: &Scene,
    lists: &mut Lists,
    told: &mut [Option<bool>],
    seen: &mut [bool],
    watch: &mut [usize],
    levels: &mut [Level],
)
    requires scene { IsScene scene.now }
    requires levels_size { length levels.old ≡ scene.now.network.now.nets }
    requires room { HaveRoom scene.now.network.now.nets lists.old }
    requires told_size { length told.old ≡ scene.now.network.now.nets }
    requires seen_size { length seen.old ≡ scene.now.network.now.nets }
    requires watch_size { length watch.old ≡ scene.now.network.now.nets }
    requires unknown { StartsUnknown scene.now.network.now scene.now.drive.now (level_at levels.old) }
    requires handled { AreHandled scene.now.network.now scene.now.drive.now scene.now.charges.now levels.old seen.old }
    requires listed { AreListed scene.now.network.now scene.now.drive.now seen.old lists.old.now.nets lists.old.next.nets }
    ensures levels { SettledLevels scene.now.network.now scene.now.drive.now (level_at scene.now.charges.now) (level_at levels.new) }
    ensures levels_size { length levels.new ≡ length levels.old }
    ensures room { HaveRoom scene.now.network.now.nets lists.new }
    ensures told_size { length told.new ≡ length told.old }
    ensures seen_size { length seen.new ≡ length seen.old }
    ensures watch_size { length watch.new ≡ length watch.old }
{
    settled_levels_are_least();
    while let Some(net) = take(&mut lists.now, &mut lists.next) {
        look_if_due(scene, net, lists, told, seen, watch, levels);
        lists.now.fits();
    }
}

/// Looks at the group of the net where it is due.
fn look_if_due(
    scene: &Scene,
    net: u32,
    lists: &mut Lists,
    told: &mut [Option<bool>],
    seen: &mut [bool],
    watch: &mut [usize],
    levels: &mut [Level],
)
    requires scene { IsScene scene.now }
    requires within { net < scene.now.network.now.nets }
    requires levels_size { length levels.old ≡ scene.now.network.now.nets }
    requires room { HaveRoom scene.now.network.now.nets lists.old }
    requires told_size { length told.old ≡ scene.now.network.now.nets }
    requires seen_size { length seen.old ≡ scene.now.network.now.nets }
    requires watch_size { length watch.old ≡ scene.now.network.now.nets }
    ensures leads { LeadsOn scene.now.network.now scene.now.drive.now scene.now.charges.now levels.old levels.new }
    ensures handled { AreHandled scene.now.network.now scene.now.drive.now scene.now.charges.now levels.old seen.old
        → AreHandled scene.now.network.now scene.now.drive.now scene.now.charges.now levels.new seen.new }
    ensures listed { (k : ℕ) → IsFree scene.now.network.now scene.now.drive.now k → slice_index_or seen.new k false ≡ false
        → ((slice_index_or seen.old k false ≡ false) × (net ≢ k)) ⊎ Waits lists.new.next.nets k }
    ensures kept { (k : ℕ) → Waits lists.old.next.nets k → Waits lists.new.next.nets k }
    ensures closer { IsCloser levels.old lists.old.next.nets levels.new lists.new.next.nets }
    ensures now { lists.new.now ≡ lists.old.now }
    ensures fits { length lists.new.next.nets ≤ lists.new.next.size }
    ensures levels_size { length levels.new ≡ length levels.old }
    ensures room { HaveRoom scene.now.network.now.nets lists.new }
    ensures told_size { length told.new ≡ length told.old }
    ensures seen_size { length seen.new ≡ length seen.old }
    ensures watch_size { length watch.new ≡ length watch.old }
{
    lists.next.fits();
    if !is_due(scene.fixed, seen, net) {
        return;
    }
    look_and_tell(scene, net, lists, told, seen, watch, levels);
    lists.next.fits();
}

/// The net is free, and was not seen since a gate at it was told.
fn is_due(fixed: &[Option<bool>], seen: &[bool], net: u32) -> bool
    requires fixed_size { net < length fixed.now }
    requires seen_size { net < length seen.now }
    ensures due { result ≡ true → fixed_at fixed.now net ≡ None }
    ensures rest { result ≡ false → fixed_at fixed.now net ≡ None → slice_index_or seen.now net false ≡ true }
{
    fixed[net as usize].is_none() && !seen[net as usize]
}

/// All free nets are due.
fn begin(nets: u32, fixed: &[Option<bool>], seen: &mut [bool], next: &mut Waiting)
    requires fixed_size { length fixed.now ≡ nets }
    requires room { next.old.size ≡ nets }
    ensures due { (net : ℕ) → slice_index_or seen.new net false ≡ false }
    ensures waits { (net : ℕ) → net < nets → fixed_at fixed.now net ≡ None → Waits next.new.nets net }
    ensures seen_size { length seen.new ≡ length seen.old }
    ensures next_room { next.new.size ≡ next.old.size }
{
    seen.fill(false);
    for net in 0..nets {
        add_free(fixed, net, next);
    }
}

/// The net waits, where it is free.
fn add_free(fixed: &[Option<bool>], net: u32, next: &mut Waiting)
    requires within { net < length fixed.now }
    requires room { next.old.size ≡ length fixed.now }
    ensures waits { fixed_at fixed.now net ≡ None → Waits next.new.nets net }
    ensures kept { (k : ℕ) → Waits next.old.nets k → Waits next.new.nets k }
    ensures room { next.new.size ≡ next.old.size }
{
    if fixed[net as usize].is_none() {
        next.add(Net(net));
    }
}

/// Finds what each net is fixed to.
fn fix(pads: &[Pad], drive: &[bool], fixed: &mut [Option<bool>])
    requires within { All (λ pad. pad.net.0 < length fixed.old) pads.now }
    requires distinct { AllPairs AreDistinct pads.now }
    requires driven { length drive.now ≡ length pads.now }
    ensures levels { (net : ℕ) → fixed_at fixed.new net ≡ fixed_level pads.now drive.now net }
    ensures size { length fixed.new ≡ length fixed.old }
{
    fixed.fill(None);
    for (at, pad) in pads.iter().enumerate() {
        fix_net(*pad, drive[at], fixed);
    }
}

/// Finds what the pad's net is fixed to.
fn fix_net(pad: Pad, drive: bool, fixed: &mut [Option<bool>])
    requires { pad.net.0 < length fixed.old }
    ensures fixed { fixed.new ≡ slice_set fixed.old pad.net.0 (pad_level pad.name.role drive) }
    ensures size { length fixed.new ≡ length fixed.old }
{
    fixed[pad.net.0 as usize] = pad_level(pad.name.role, drive);
}

/// What a pad of this role fixes its net to, where it is driven so.
fn pad_level(role: Role, drive: bool) -> Option<bool>
    ensures { result ≡ pad_level role drive }
{
    match role {
        Role::Vdd => Some(true),
        Role::Gnd => Some(false),
        Role::Phi1 | Role::Phi2 | Role::Reset | Role::Input => Some(drive),
        Role::Output => None,
    }
}

/// Puts the fixed nets to their levels, and all others to unknown.
fn forget(fixed: &[Option<bool>], levels: &mut [Level])
    requires { length fixed.now ≡ length levels.old }
    ensures levels { (net : ℕ) → net < length levels.old
        → level_at levels.new net ≡ first_level (fixed_at fixed.now net) }
    ensures size { length levels.new ≡ length levels.old }
{
    for (net, level) in levels.iter_mut().enumerate() {
        *level = first_level(fixed[net]);
    }
}

/// The level of a net before the first update.
fn first_level(fixed: Option<bool>) -> Level
    ensures { result ≡ first_level fixed }
{
    match fixed {
        Some(true) => Level::High,
        Some(false) => Level::Low,
        None => Level::Unknown,
    }
}
