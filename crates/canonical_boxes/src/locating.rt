// The boxes over points.

ghost use Rattle.std.specs.Prelude.{◌≡◌, ◌<◌, length, IfOk, OnOk};
ghost use Rattle.geom.specs.Rows.{Among};
ghost use Rattle.canonical_boxes.specs.Located.{AreLocated};
ghost use Rattle.canonical_boxes.specs.Queries.{AreQueries, AreQueriesBelow};

use crate::canonical::Canonical;
use crate::sweep::Sweep;
use geom::Point;
use rx_text::NoMemory;
use std::alloc::Global;

/// For each of the squares the number of the box over it, or `None` where the set does not have it. Takes n log n steps in the
/// boxes and the squares.
///
/// # Errors
///
/// `NoMemory` where an allocation was refused.
pub fn locate(
    alloc: Global,
    set: &Canonical,
    squares: &[Point],
) -> Result<Vec<Option<usize>>, NoMemory>
    ensures { IfOk result (λ found. AreLocated set.now squares.now found.items) }
{
    let queries = by_row(alloc, squares)?;
    let mut found = vec![in alloc; None; squares.len()]?;
    let mut sweep = Sweep::new(alloc, set.boxes());
    for query in &queries {
        sweep.rise(query.y)?;
        found[query.number] = sweep.box_at(squares[query.number].x, query.y);
    }
    Ok(found)
}

/// A square that is asked about, by its row and its number.
#[derive(Clone, Copy, Debug, PartialEq, Eq)]
pub(crate) struct Query {
    y: i64,
    number: usize,
}

/// The squares by their rows, from the lowest.
fn by_row(alloc: Global, squares: &[Point]) -> Result<Vec<Query>, NoMemory>
    ensures { IfOk result (λ queries. AreQueries squares.now queries.items) }
{
    let mut queries = as_queries(alloc, squares)?;
    queries.sort_by_key(|q| q.y)?;
    Ok(queries)
}

/// The squares in their order.
fn as_queries(alloc: Global, squares: &[Point]) -> Result<Vec<Query>, NoMemory>
    ensures { IfOk result (λ queries. AreQueriesBelow squares.now (length squares.now) queries.items) }
{
    let mut queries = Vec::new(alloc);
    for number in 0..squares.len() {
        queries.push(Query {
            y: squares[number].y,
            number,
        })?;
    }
    Ok(queries)
}
