// A worked example.

ghost use Rattle.nor_net.specs.Netlist.{IsNetlist};
ghost use Rattle.nor_net.specs.Examples.{register, RegisterShows};

/// A register of three gates and two transfers is a netlist, and shows the NOR of its line and the reset. It runs nothing.
pub fn register_shows()
    ensures netlist { IsNetlist register }
    ensures shows { RegisterShows }
{}
