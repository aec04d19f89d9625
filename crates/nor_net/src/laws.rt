//! What holds of every netlist, and of circuits that are put together from parts.

ghost use Rattle.nor_net.specs.Equations.{ClocksSolve};
ghost use Rattle.nor_net.specs.Assembly.{AssembliesAreSame};

use switch_net::clocked_logic_settles;

/// The values after one clock solve the equations of the netlist, whatever its orders of evaluation: pads are as they are
/// driven, each gate's output is the NOR of its gates' inputs, and the target of a transfer follows its source while the
/// clock is high.
pub fn clocks_solve_the_equations()
    ensures { ClocksSolve }
{
    clocked_logic_settles();
}

/// Two circuits that are put together from the same parts, with the same meetings of ports and the same pads, are the same
/// network.
pub fn assemblies_are_the_same()
    ensures { AssembliesAreSame }
{}
