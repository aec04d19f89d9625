// What the nets of a group are told.

ghost use Rattle.std.specs.Prelude.{◌≡◌, ◌≢◌, ◌≤◌, ◌<◌, ◌⊎◌, ℕ, Bool, List, true, false, length, slice_index_or, Some, None};
ghost use Rattle.switch_net.specs.LeastLevels.{Tells};
ghost use Rattle.switch_net.specs.Ternary.{level_of, possible};
ghost use Rattle.switch_net.specs.declared.network.Level.TheVariants as level;
ghost use Rattle.switch_sim.specs.Simulation.{level_at};
ghost use Rattle.switch_sim.specs.ToldLevels.{TellsAt, LeadsOn, unknowns};
ghost use Rattle.switch_net.specs.Settling.{IsFree, Grouped};
ghost use Rattle.switch_sim.specs.DueNets.{AreWoken, AllAreWoken, Wakes, AreHandled};
ghost use Rattle.switch_sim.specs.Grouping.{IsScene, IsSight, IsExplored, AreRight, IsRightlyTold, told_at};
ghost use Rattle.switch_sim.specs.Rooms.{HaveRoom};
ghost use Rattle.switch_sim.specs.Waiting.{Waits};
ghost use Rattle.switch_sim.specs.declared.group.Conduct.TheVariants as which;

use crate::group::{Conduct, Findings, Scene, Sight, explore, told_by};
use crate::waiting::{Lists, Waiting};
use crate::worklist::wake;
use switch_net::Level;

/// Marks the nets of a group as not seen.
fn unmark(group: &Waiting, seen: &mut [bool])
    requires { group.now.size ≤ length seen.old }
    ensures off { (k : ℕ) → Waits group.now.nets k → slice_index_or seen.new k false ≡ false }
    ensures only { (k : ℕ) → slice_index_or seen.new k false ≡ true → slice_index_or seen.old k false ≡ true }
    ensures rest { (k : ℕ) → (Waits group.now.nets k → ⊥) → slice_index_or seen.new k false ≡ slice_index_or seen.old k false }
    ensures size { length seen.new ≡ length seen.old }
{
    for at in 0..group.len() {
        seen[group.get(at) as usize] = false;
    }
}

/// Puts down what the nets of a sure group are told.
fn put_down(level: Option<bool>, part: &Waiting, seen: &mut [bool], told: &mut [Option<bool>])
    requires seen_size { part.now.size ≤ length seen.old }
    requires told_size { part.now.size ≤ length told.old }
    ensures seen { (k : ℕ) → Waits part.now.nets k → slice_index_or seen.new k false ≡ true }
    ensures told { (k : ℕ) → Waits part.now.nets k → told_at told.new k ≡ level }
    ensures seen_rest { (k : ℕ) → (Waits part.now.nets k → ⊥) → slice_index_or seen.new k false ≡ slice_index_or seen.old k false }
    ensures told_rest { (k : ℕ) → (Waits part.now.nets k → ⊥) → told_at told.new k ≡ told_at told.old k }
    ensures seen_length { length seen.new ≡ length seen.old }
    ensures told_length { length told.new ≡ length told.old }
{
    for at in 0..part.len() {
        let net = part.get(at) as usize;
        seen[net] = true;
        told[net] = level;
    }
}

/// Finds what the sure group of a member of a group is told, unless it was seen.
fn look_part(
    sight: &Sight,
    possible: Findings,
    member: u32,
    part: &mut Waiting,
    seen: &mut [bool],
    told: &mut [Option<bool>],
)
    requires sight { IsSight sight.now }
    requires within { member < sight.now.network.now.nets }
    requires room { part.old.size ≡ sight.now.network.now.nets }
    requires seen_size { length seen.old ≡ sight.now.network.now.nets }
    requires told_size { length told.old ≡ sight.now.network.now.nets }
    ensures right { (start : ℕ) (group : List ℕ) → IsExplored sight.now which.Possible start group possible
        → IsFree sight.now.network.now sight.now.drive.now start → Waits group member
        → AreRight sight.now group seen.old told.old → AreRight sight.now group seen.new told.new }
    ensures only { (start : ℕ) (group : List ℕ) → IsExplored sight.now which.Possible start group possible
        → IsFree sight.now.network.now sight.now.drive.now start → Waits group member
        → (k : ℕ) → slice_index_or seen.new k false ≡ true → (slice_index_or seen.old k false ≡ true) ⊎ Waits group k }
    ensures kept { (k : ℕ) → slice_index_or seen.old k false ≡ true → slice_index_or seen.new k false ≡ true }
    ensures here { slice_index_or seen.new member false ≡ true }
    ensures room { part.new.size ≡ part.old.size }
    ensures seen_length { length seen.new ≡ length seen.old }
    ensures told_length { length told.new ≡ length told.old }
{
    if !seen[member as usize] {
        let sure = explore(sight, Conduct::Sure, member, part);
        let level = told_by(possible, sure);
        put_down(level, part, seen, told);
    }
}

/// Finds the group of a free net, and what each net of it is told.
pub(crate) fn look(
    sight: &Sight,
    net: u32,
    group: &mut Waiting,
    part: &mut Waiting,
    seen: &mut [bool],
    told: &mut [Option<bool>],
)
    requires sight { IsSight sight.now }
    requires free { IsFree sight.now.network.now sight.now.drive.now net }
    requires group_room { group.old.size ≡ sight.now.network.now.nets }
    requires part_room { part.old.size ≡ sight.now.network.now.nets }
    requires seen_size { length seen.old ≡ sight.now.network.now.nets }
    requires told_size { length told.old ≡ sight.now.network.now.nets }
    ensures begun { Waits group.new.nets net }
    ensures members { (k : ℕ) → Waits group.new.nets k → IsFree sight.now.network.now sight.now.drive.now k }
    ensures right { (k : ℕ) → Waits group.new.nets k → IsRightlyTold sight.now k (told_at told.new k) }
    ensures seen { (k : ℕ) → Waits group.new.nets k → slice_index_or seen.new k false ≡ true }
    ensures only { (k : ℕ) → slice_index_or seen.new k false ≡ true
        → (slice_index_or seen.old k false ≡ true) ⊎ Waits group.new.nets k }
    ensures kept { (k : ℕ) → slice_index_or seen.old k false ≡ true → slice_index_or seen.new k false ≡ true }
    ensures closed { (k m : ℕ) → Waits group.new.nets k
        → Grouped sight.now.network.now sight.now.drive.now (possible (level_at sight.now.levels.now)) k m → Waits group.new.nets m }
    ensures group_room { group.new.size ≡ group.old.size }
    ensures part_room { part.new.size ≡ part.old.size }
    ensures seen_length { length seen.new ≡ length seen.old }
    ensures told_length { length told.new ≡ length told.old }
{
    let possible = explore(sight, Conduct::Possible, net, group);
    unmark(group, seen);
    for at in 0..group.len() {
        look_part(sight, possible, group.get(at), part, seen, told);
    }
}

/// Looks at the group of a free net and tells its nets, and answers whether one was told.
pub(crate) fn look_and_tell(
    scene: &Scene,
    net: u32,
    lists: &mut Lists,
    told: &mut [Option<bool>],
    seen: &mut [bool],
    watch: &mut [usize],
    levels: &mut [Level],
) -> bool
    requires scene { IsScene scene.now }
    requires free { IsFree scene.now.network.now scene.now.drive.now net }
    requires levels_size { length levels.old ≡ scene.now.network.now.nets }
    requires room { HaveRoom scene.now.network.now.nets lists.old }
    requires seen_size { length seen.old ≡ scene.now.network.now.nets }
    requires told_size { length told.old ≡ scene.now.network.now.nets }
    requires watch_size { length watch.old ≡ scene.now.network.now.nets }
    ensures leads { LeadsOn scene.now.network.now scene.now.drive.now scene.now.charges.now levels.old levels.new }
    ensures handled { AreHandled scene.now.network.now scene.now.drive.now scene.now.charges.now levels.old seen.old
        → AreHandled scene.now.network.now scene.now.drive.now scene.now.charges.now levels.new seen.new }
    ensures listed { (k : ℕ) → slice_index_or seen.new k false ≡ false
        → ((slice_index_or seen.old k false ≡ false) × (net ≢ k)) ⊎ Waits lists.new.next.nets k }
    ensures kept { (k : ℕ) → Waits lists.old.next.nets k → Waits lists.new.next.nets k }
    ensures quiet { result ≡ false → lists.new.next.nets ≡ lists.old.next.nets }
    ensures rest { result ≡ false → levels.new ≡ levels.old }
    ensures fewer { result ≡ true → unknowns levels.new < unknowns levels.old }
    ensures levels_size { length levels.new ≡ length levels.old }
    ensures now { lists.new.now ≡ lists.old.now }
    ensures room { HaveRoom scene.now.network.now.nets lists.new }
    ensures seen_size { length seen.new ≡ length seen.old }
    ensures told_size { length told.new ≡ length told.old }
    ensures watch_size { length watch.new ≡ length watch.old }
{
    let sight = Sight {
        network: scene.network,
        drive: scene.drive,
        incidence: scene.incidence,
        fixed: scene.fixed,
        charges: scene.charges,
        levels,
    };
    look(&sight, net, &mut lists.group, &mut lists.part, seen, told);
    tell(
        scene,
        &lists.group,
        told,
        levels,
        seen,
        watch,
        &mut lists.next,
    )
}

/// Tells the unknown nets of a group, and answers whether there was one. The ends of the devices that they gate are due, or held.
fn tell(
    scene: &Scene,
    group: &Waiting,
    told: &[Option<bool>],
    levels: &mut [Level],
    seen: &mut [bool],
    watch: &mut [usize],
    next: &mut Waiting,
) -> bool
    requires scene { IsScene scene.now }
    requires levels_size { length levels.old ≡ scene.now.network.now.nets }
    requires group_room { group.now.size ≡ scene.now.network.now.nets }
    requires told_size { length told.now ≡ scene.now.network.now.nets }
    requires seen_size { length seen.old ≡ scene.now.network.now.nets }
    requires watch_size { length watch.old ≡ scene.now.network.now.nets }
    requires next_room { next.old.size ≡ scene.now.network.now.nets }
    ensures leads { ((k : ℕ) → Waits group.now.nets k → IsFree scene.now.network.now scene.now.drive.now k)
        → ((k : ℕ) (told_as : Bool) → Waits group.now.nets k → told_at told.now k ≡ Some told_as
        → Tells scene.now.network.now scene.now.drive.now (level_at scene.now.charges.now) (level_at levels.old) k told_as)
        → LeadsOn scene.now.network.now scene.now.drive.now scene.now.charges.now levels.old levels.new }
    ensures none { (k : ℕ) → Waits group.now.nets k → level_at levels.new k ≡ level.Unknown → told_at told.now k ≡ None }
    ensures woken { AllAreWoken scene.now.network.now scene.now.drive.now levels.old levels.new seen.new }
    ensures wakes { Wakes seen.old next.old.nets seen.new next.new.nets }
    ensures quiet { result ≡ false → next.new.nets ≡ next.old.nets }
    ensures rest { result ≡ false → levels.new ≡ levels.old }
    ensures fewer { result ≡ true → unknowns levels.new < unknowns levels.old }
    ensures levels_size { length levels.new ≡ length levels.old }
    ensures seen_size { length seen.new ≡ length seen.old }
    ensures watch_size { length watch.new ≡ length watch.old }
    ensures next_room { next.new.size ≡ next.old.size }
{
    let mut changed = false;
    for at in 0..group.len() {
        changed |= tell_and_wake(scene, group.get(at), told, levels, seen, watch, next);
    }
    changed
}

/// Tells a net that is unknown, where it is told a level, and answers whether it was. The ends of the devices that it gates
/// are due then, or held.
fn tell_and_wake(
    scene: &Scene,
    net: u32,
    told: &[Option<bool>],
    levels: &mut [Level],
    seen: &mut [bool],
    watch: &mut [usize],
    next: &mut Waiting,
) -> bool
    requires scene { IsScene scene.now }
    requires within { net < scene.now.network.now.nets }
    requires levels_size { length levels.old ≡ scene.now.network.now.nets }
    requires told_size { length told.now ≡ scene.now.network.now.nets }
    requires seen_size { length seen.old ≡ scene.now.network.now.nets }
    requires watch_size { length watch.old ≡ scene.now.network.now.nets }
    requires next_room { next.old.size ≡ scene.now.network.now.nets }
    ensures tells { result ≡ true → TellsAt levels.old levels.new told.now net }
    ensures rest { result ≡ false → levels.new ≡ levels.old }
    ensures none { result ≡ false → level_at levels.old net ≡ level.Unknown → told_at told.now net ≡ None }
    ensures woken { result ≡ true → AreWoken scene.now.network.now scene.now.drive.now levels.new seen.new net }
    ensures wakes { Wakes seen.old next.old.nets seen.new next.new.nets }
    ensures quiet { result ≡ false → next.new.nets ≡ next.old.nets }
    ensures levels_size { length levels.new ≡ length levels.old }
    ensures seen_size { length seen.new ≡ length seen.old }
    ensures watch_size { length watch.new ≡ length watch.old }
    ensures next_room { next.new.size ≡ next.old.size }
{
    if !tell_one(net, told, levels) {
        return false;
    }
    let sight = Sight {
        network: scene.network,
        drive: scene.drive,
        incidence: scene.incidence,
        fixed: scene.fixed,
        charges: scene.charges,
        levels,
    };
    wake(&sight, scene.gates, net, seen, watch, next);
    true
}

/// Tells a net that is unknown, where it is told a level, and answers whether it was.
fn tell_one(net: u32, told: &[Option<bool>], levels: &mut [Level]) -> bool
    requires levels_size { net < length levels.old }
    requires told_size { net < length told.now }
    ensures tells { result ≡ true → TellsAt levels.old levels.new told.now net }
    ensures rest { result ≡ false → levels.new ≡ levels.old }
    ensures none { result ≡ false → level_at levels.old net ≡ level.Unknown → told_at told.now net ≡ None }
    ensures size { length levels.new ≡ length levels.old }
{
    if is_known(levels[net as usize]) {
        return false;
    }
    match told[net as usize] {
        Some(value) => {
            levels[net as usize] = level_of(value);
            true
        }
        None => false,
    }
}

/// The level is low or high.
fn is_known(net: Level) -> bool
    ensures unknown { result ≡ false → net ≡ level.Unknown }
    ensures known { result ≡ true → net ≢ level.Unknown }
{
    net != Level::Unknown
}

/// The level of a value.
fn level_of(value: bool) -> Level
    ensures { result ≡ level_of value }
{
    if value { Level::High } else { Level::Low }
}
