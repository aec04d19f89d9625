// The nodes of the expressions of a specification.

ghost use Rattle.std.specs.Prelude.{◌≡◌, ℕ, ◌≤◌, map, IfOk};
ghost use Rattle.rx_lang.specs.Tables.{tree_at, trees};
ghost use Rattle.rx_syntax.specs.Grammar.{Syntax};
ghost use Rattle.rx_syntax.specs.Accepted.{Says, said};
ghost use Rattle.rx_syntax.specs.NameReading.{Declares};
ghost use Rattle.rx_syntax.specs.NodeTables.{AreNodes};

use crate::declarations::Declarations;
use crate::lexeme::piece_at;
use crate::machine::{Due, State};
use crate::node_builder::NodeBuilder;
use crate::version::version_of;
use rx_lang::ExprNode;
use rx_text::NoMemory;
use std::alloc::Global;

/// The nodes of the expressions of a text, and the roots of its `expr` and `scan` statements, where these are its
/// declarations and no fault stands in it. One stack entry stands for each open parenthesis or bracket, and nothing recurses.
pub(crate) fn read_nodes(
    alloc: Global,
    text: &[u8],
    declarations: &Declarations<'_>,
) -> Result<(Vec<ExprNode>, Vec<u32>, Vec<u32>), NoMemory>
    requires { (limit : ℕ) × (limit ≤ 4096) × Declares text.now limit declarations.now }
    ensures nodes { IfOk result (λ parts. AreNodes declarations.now parts.0.items parts.1.items parts.2.items) }
    ensures statements { IfOk result (λ parts. (syntax : Syntax) → Says text.now syntax
        → map (tree_at (trees parts.0.items)) parts.1.items ≡ (said text.now syntax).statements) }
    ensures scans { IfOk result (λ parts. (syntax : Syntax) → Says text.now syntax
        → map (tree_at (trees parts.0.items)) parts.2.items ≡ (said text.now syntax).scans) }
{
    let (version, start) = version_of(text);
    let mut builder = NodeBuilder::new(alloc);
    let mut at = start;
    let mut state = State {
        due: Due::FirstLine,
        depth: 0,
    };
    while at < text.len() {
        let (kind, behind) = piece_at(version, text, at);
        builder.read_piece(declarations, state.due, kind, &text[at..behind])?;
        match state.over(kind) {
            Ok(next) => state = next,
            Err(_) => unreachable!(),
        }
        at = behind;
    }
    Ok(builder.into_parts())
}
