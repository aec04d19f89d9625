//! What the parts of the cells have in common, and the netlist that they make. Each law is the contract of a function that does nothing.

ghost use Rattle.cell_network.specs.CellNetlists.{CellsAreNetlists};
ghost use Rattle.cell_network.specs.WireMeetings.{WiresMeet};

/// Nets of two parts meet exactly where the second is a wire of a part and the first is the net of the part above that it is there.
pub fn wires_meet()
    ensures { WiresMeet }
{}

/// The cells of a tree are a netlist: its pads differ and its gates and transfers are well formed.
pub fn cells_are_netlists()
    ensures { CellsAreNetlists }
{}
