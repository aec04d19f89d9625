// What holds of settled values, of clocks and of runs in every circuit.

ghost use Rattle.switch_net.specs.SettlingLaws.{FixedNetsAreDriven, GroupsAreAlike, PulledValuesForgetCharges, PadsHaveDrives, ClocksSplit, RunsSplit, ClocksHaveValues, RunsHaveValues};

/// Settled values keep to the driven pads, are the same throughout a group, and do not depend on the charges where
/// every free net is pulled. It runs nothing: a caller has the laws from its contract.
pub fn settled_values_keep_to_groups()
    ensures fixed_nets_are_driven { FixedNetsAreDriven }
    ensures groups_are_alike { GroupsAreAlike }
    ensures pulled_values_forget_charges { PulledValuesForgetCharges }
{}

/// A run has values after the reset clock and after each vector, and splits at each place into a shorter run and
/// clocks from the values that it leaves. It runs nothing: a caller has the laws from its contract.
pub fn runs_split()
    ensures pads_have_drives { PadsHaveDrives }
    ensures clocks_split { ClocksSplit }
    ensures runs_split { RunsSplit }
    ensures clocks_have_values { ClocksHaveValues }
    ensures runs_have_values { RunsHaveValues }
{}
