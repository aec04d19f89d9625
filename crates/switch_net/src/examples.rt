// What settling and a clock make of small circuits.

ghost use Rattle.switch_net.specs.Examples.{InverterInverts, InverterSettles, GroundBeatsLoad, SamplerHolds, OpenCircuitHolds, ChargeIsShared, SharedChargeIsFree, FixedNetBlocks, RegisterStores, RegisterRuns, RegisterFollows};

/// Small circuits settle as the switch-level rule means: ground beats a load, a net that nothing leads to keeps its
/// charge, nets that share unlike charges may have either level, and a fixed net parts what it joins. It runs nothing.
pub fn small_circuits_settle()
    ensures inverter_inverts { InverterInverts }
    ensures inverter_settles { InverterSettles }
    ensures ground_beats_load { GroundBeatsLoad }
    ensures sampler_holds { SamplerHolds }
    ensures open_circuit_holds { OpenCircuitHolds }
    ensures charge_is_shared { ChargeIsShared }
    ensures shared_charge_is_free { SharedChargeIsFree }
    ensures fixed_net_blocks { FixedNetBlocks }
{}

/// A clocked register stores its input, and the reset sets it, whatever its charges were. It runs over each word. This
/// function itself runs nothing.
pub fn register_stores()
    ensures stores { RegisterStores }
    ensures runs { RegisterRuns }
    ensures follows { RegisterFollows }
{}
