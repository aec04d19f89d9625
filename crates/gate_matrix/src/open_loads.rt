// The loads of a part that no gate has yet.

ghost use Rattle.std.specs.Prelude.{◌≡◌, ℕ, ◌<◌, ◌^◌, ◌||◌, ◌==◌, [], false, length, get_or, slice_set};
ghost use Rattle.std.specs.List.{list_any};
ghost use Rattle.gate_matrix.specs.OpenLoads.{AreOpen};

use nor_net::Part;
use std::marker::Model;

/// How many nets a part has at most.
const MOST_NETS: usize = 65536;

/// For each net whether its load is open: it is in the part, and none of the gates so far has it. It takes no memory.
#[derive(Drop)]
pub(crate) struct OpenLoads {
    marks: [bool; MOST_NETS],
}

impl Model for OpenLoads {
    ghost use Rattle.std.specs.Prelude.{Bool, List};

    ghost Value = { List Bool };

    ghost view = { λ loads. loads.marks };
}

impl OpenLoads {
    /// The loads of the part, before its gates.
    pub fn of(part: &Part) -> OpenLoads
        ensures { AreOpen part.now [] result }
    {
        let mut marks = [false; MOST_NETS];
        mark(&mut marks, part.loads());
        OpenLoads { marks }
    }

    /// Whether the load of the net is open.
    pub fn has(&self, net: u32) -> bool
        requires { net < 2 ^ 16 }
        ensures { result ≡ get_or self.now net false }
    {
        self.marks[net as usize]
    }

    /// Whether the load of the net was open, which a gate has from now on.
    pub fn take(&mut self, net: u32) -> bool
        requires { net < 2 ^ 16 }
        ensures was { result ≡ get_or self.old net false }
        ensures taken { self.new ≡ slice_set self.old net false }
    {
        let was = self.marks[net as usize];
        self.marks[net as usize] = false;
        was
    }
}

/// Marks these nets.
fn mark(marks: &mut [bool], nets: &[u32])
    requires { (k : ℕ) → k < length nets.now → get_or nets.now k 0 < length marks.old }
    ensures { (net : ℕ) → net < length marks.old
        → get_or marks.new net false ≡ (list_any (λ one. one == net) nets.now || get_or marks.old net false) }
{
    for net in nets {
        marks[*net as usize] = true;
    }
}
