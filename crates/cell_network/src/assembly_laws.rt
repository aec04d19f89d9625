//! The network of cells as an assembly of parts. Each law is the contract of a function that does nothing.

ghost use Rattle.cell_network.specs.Assembled.{CellsAreDriven, CellsHaveTheirDevices, CellsAreAssembled};
ghost use Rattle.cell_network.specs.TreeParts.{TreesHaveParts, PartsHaveShapes};

/// The network of cells is the assembly of the parts of all nodes and of the frame, which meet at ports by the ports' names: nets of
/// parts are one net exactly where meetings lead from the one to the other, each net has one net of a part that drives it, and the
/// devices are those of all parts.
pub fn cells_are_assembled()
    ensures driven { CellsAreDriven }
    ensures devices { CellsHaveTheirDevices }
    ensures assembled { CellsAreAssembled }
{}

/// What `node_part` makes of each node and of the frame is a part, with so many nets, whose supplies and clocks are its wires.
pub fn trees_have_parts()
    ensures { TreesHaveParts }
{}

/// How many gates with and without a load, loads without a gate and transfers a part has at most, from which its height follows
/// where it is drawn.
pub fn parts_have_shapes()
    ensures { PartsHaveShapes }
{}
