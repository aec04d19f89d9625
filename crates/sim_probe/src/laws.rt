// What holds of probes, and of their texts.

ghost use Rattle.sim_probe.specs.Examples.{FollowedWaves, NoWaves, QuietWaves, LateWaves};
ghost use Rattle.sim_probe.specs.Regular.{DueSamplesAreRegular};
ghost use Rattle.sim_probe.specs.Examples.{FollowedToggles, MixedToggles, NoToggles, TogglesEndAtStops};

/// Worked examples of the texts of `Waves` and of `Toggles`. It runs nothing.
pub fn samples_give_texts()
    ensures followed_waves { FollowedWaves }
    ensures no_waves { NoWaves }
    ensures quiet_waves { QuietWaves }
    ensures late_waves { LateWaves }
    ensures followed_toggles { FollowedToggles }
    ensures mixed_toggles { MixedToggles }
    ensures no_toggles { NoToggles }
{}

/// A `Toggles` has enough exactly at a sample of the clock at which it is to stop. It runs nothing.
pub fn toggles_end_at_stops()
    ensures { TogglesEndAtStops }
{}

/// The samples that are due to a probe after the clocks of a run of at most 10,000 vectors are regular: those of the clocks from 0 on,
/// each with the same pads in ascending order. It runs nothing.
pub fn due_samples_are_regular()
    ensures { DueSamplesAreRegular }
{}
