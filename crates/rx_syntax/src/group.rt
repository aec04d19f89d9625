// Open groups: expressions in parentheses, or of whole statements, that have not ended.

ghost use Rattle.std.specs.Prelude.{◌≡◌, IfOk, OnOk};
ghost use Rattle.rx_syntax.specs.NodeBuilder.{chain, empty_group, whole};

use crate::node_table::{Join, NodeTable};
use rx_text::NoMemory;

/// The nodes of an open group: what stands before its last bar, before its last part, and the last part.
#[derive(Clone, Copy)]
pub(crate) struct Group {
    pub union_before: Option<u32>,
    pub sequence_before: Option<u32>,
    pub last: Option<u32>,
}

impl Group {
    pub(crate) fn empty() -> Group
        ensures { result ≡ empty_group }
    {
        Group {
            union_before: None,
            sequence_before: None,
            last: None,
        }
    }

    /// The node of the sequence behind the last bar.
    pub(crate) fn chain(self, table: &mut NodeTable) -> Result<Option<u32>, NoMemory>
        ensures part { IfOk result (λ part. part ≡ (chain table.old self).part) }
        ensures nodes { OnOk result (table.new ≡ (chain table.old self).nodes) }
    {
        table.join(Join::Sequence, self.sequence_before, self.last)
    }

    /// The node of the whole expression.
    pub(crate) fn whole(self, table: &mut NodeTable) -> Result<Option<u32>, NoMemory>
        ensures part { IfOk result (λ part. part ≡ (whole table.old self).part) }
        ensures nodes { OnOk result (table.new ≡ (whole table.old self).nodes) }
    {
        let chain = self.chain(table)?;
        table.join(Join::Union, self.union_before, chain)
    }
}
