// What a ternary level says of the values of a net.

ghost use Rattle.switch_net.specs.Ternary.{SettledLevelsAreSure, RunLevelsAreSure};
ghost use Rattle.switch_net.specs.LeastLevels.{UpdatesAreMonotone, UpdatesOnlyTell, UpdatesEnd, SettledLevelsAreLeast, AnyOrderSettles, SettledLevelsAlike, SettledLevelsExist, SettledLevelsAreOne, ClockLevelsExist, ClocksLevelsExist, RunLevelsExist, RunLevelsAreOne};
ghost use Rattle.switch_net.specs.TernaryLogic.{ToldNetsSettle};

/// A low or high level of a ternary settling is the value of the net in each settled assignment from charges that the
/// levels before it cover. So one of a ternary run, which begins with nothing known, is the value in each run from all
/// charges. It runs nothing: a caller has the laws from its contract.
pub fn ternary_levels_are_sure()
    ensures settled { SettledLevelsAreSure }
    ensures runs { RunLevelsAreSure }
{}

/// In clocked logic a gate is known by one high input or by all its inputs, and a storage node by its source while its clock
/// is high and by its charge while it is low: nets that are known by one another have their values in a ternary settling,
/// whatever charges are unknown. It runs nothing: a caller has the law from its contract.
pub fn told_nets_settle()
    ensures { ToldNetsSettle }
{}

/// In the order of what levels tell an update is monotone. So updates from unknown levels on only tell more, come to their
/// end after at most as many as there are nets, and leave the least levels that an update keeps; and nets may as well be
/// told one by one, in any order. It runs nothing: a caller has the laws from its contract.
pub fn settled_levels_are_least()
    ensures monotone { UpdatesAreMonotone }
    ensures only_tell { UpdatesOnlyTell }
    ensures end { UpdatesEnd }
    ensures least { SettledLevelsAreLeast }
    ensures any_order { AnyOrderSettles }
    ensures alike { SettledLevelsAlike }
{}

/// From all charges a ternary settling, a clock and a run exist, and the settling and the run are one on the nets of the
/// circuit. It runs nothing: a caller has the laws from its contract.
pub fn ternary_runs_exist()
    ensures settled { SettledLevelsExist }
    ensures one_settled { SettledLevelsAreOne }
    ensures clock { ClockLevelsExist }
    ensures clocks { ClocksLevelsExist }
    ensures run { RunLevelsExist }
    ensures one_run { RunLevelsAreOne }
{}
