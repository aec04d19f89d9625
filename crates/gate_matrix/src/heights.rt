// How many rows and columns a part needs.

ghost use Rattle.std.specs.Prelude.{◌≡◌, ◌≤◌, ◌*◌, ◌^◌, [], sum_by};
ghost use Rattle.nor_net.specs.Part.{IsPart};
ghost use Rattle.gate_matrix.specs.OpenLoads.{AreOpen};
ghost use Rattle.gate_matrix.specs.PartRows.{height_of_gates, height_of_load, height_of_part, width_of_part};

use crate::open_loads::OpenLoads;
use nor_net::Part;

/// How many rows and columns `draw` needs for the part: five rows for each gate that is the first with its output, where the
/// output's load is in the part, and three for each other gate, each load that no gate has, and each transfer; two columns for
/// each net, and two more. It takes no memory, and looks at each gate and each load once.
pub fn needed(part: &Part) -> (u32, u32)
    ensures rows { result.0 ≡ height_of_part part.now }
    ensures cols { result.1 ≡ width_of_part part.now }
    ensures part { IsPart part.now }
{
    let mut open_loads = OpenLoads::of(part);
    let transfers = part.transfers().len() as u32;
    let gates = gates_height(part, &mut open_loads);
    let rows = gates + loads_height(part, &open_loads) + 3 * transfers;
    (rows, 2 * part.nets() + 2)
}

/// The rows of all gates, each with its load where that is still open.
fn gates_height(part: &Part, open_loads: &mut OpenLoads) -> u32
    requires { AreOpen part.now [] open_loads.old }
    ensures height { result ≡ height_of_gates part.now [] part.now.gates }
    ensures few { result ≤ 5 * 2 ^ 16 }
    ensures taken { AreOpen part.now part.now.gates open_loads.new }
{
    let mut height = 0;
    for gate in part.gates() {
        height += if open_loads.take(gate.out()) { 5 } else { 3 };
    }
    height
}

/// The rows of the loads that no gate has.
fn loads_height(part: &Part, open_loads: &OpenLoads) -> u32
    requires { AreOpen part.now part.now.gates open_loads.now }
    ensures height { result ≡ sum_by (height_of_load part.now) part.now.loads }
    ensures few { result ≤ 3 * 2 ^ 16 }
{
    let mut height = 0;
    for net in part.loads() {
        height += if open_loads.has(*net) { 3 } else { 0 };
    }
    height
}
