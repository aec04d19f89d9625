// Edges between the quarters of a square.

ghost use Rattle.std.specs.Prelude.{◌≡◌, ◌+◌, ◌*◌, ◌<◌, ◌≤◌, ◌^◌, ◌++◌, All, AllPairs, IfOk, OnOk, length};
ghost use Rattle.channel_route.specs.Drawing.{is_heavy};
ghost use Rattle.tree_layout.specs.Drawing.{AreApart, IsOrdered, MayLink};
ghost use Rattle.tree_layout.specs.Numbered.{child_at, node_at};
ghost use Rattle.tree_layout.specs.Squares.{link_to, links_between, links_out, with_link, with_links};

use crate::numbered::Entry;
use block_grid::Blocks;
use channel_route::laws::drawing_adds_one_edge;
use channel_route::{EdgeRole, draw_edge};
use rx_text::NoMemory;
use std::alloc::Global;

/// An edge by the numbers of its nodes, and whether it goes to a heavy child.
#[derive(Clone, Copy, Debug, PartialEq, Eq)]
pub struct Link {
    pub parent: u32,
    pub child: u32,
    pub heavy: bool,
}

/// The edges between the quarters of a square, those from the first quarter first.
pub fn links_between(
    alloc: Global,
    entries: &[Entry],
    first: u32,
    quarter: u32,
) -> Result<Vec<Link>, NoMemory>
    requires { first + 4 * quarter ≤ 4 ^ 8 }
    ensures { IfOk result (λ links. links.items ≡ links_between entries.now first quarter) }
{
    let end = first + 4 * quarter;
    let mut links = Vec::new(alloc);
    push_out(&mut links, entries, first, first + quarter, end)?;
    push_out(
        &mut links,
        entries,
        first + quarter,
        first + 2 * quarter,
        end,
    )?;
    push_out(
        &mut links,
        entries,
        first + 2 * quarter,
        first + 3 * quarter,
        end,
    )?;
    Ok(links)
}

/// The edges from the entries from number `from` up to, and not with, number `border` to those from there up to `end`.
fn push_out(
    links: &mut Vec<Link>,
    entries: &[Entry],
    from: u32,
    border: u32,
    end: u32,
) -> Result<(), NoMemory>
    requires { from ≤ border }
    ensures { OnOk result (links.new.items ≡ links.old.items ++ links_out entries.now from border end) }
{
    for number in from..border {
        push_link(
            links,
            number,
            false,
            child_at(entries, false, number),
            border,
            end,
        )?;
        push_link(
            links,
            number,
            true,
            child_at(entries, true, number),
            border,
            end,
        )?;
    }
    Ok(())
}

/// The number of the child in a role, where there is one.
fn child_at(entries: &[Entry], heavy: bool, number: u32) -> Option<u32>
    ensures { result ≡ child_at entries.now heavy number }
{
    let entry = entries.get(number as usize)?;
    if heavy { entry.heavy } else { entry.light }
}

/// The edge to a child, where there is one whose number is from `border` up to, and not with, `end`.
fn push_link(
    links: &mut Vec<Link>,
    parent: u32,
    heavy: bool,
    child: Option<u32>,
    border: u32,
    end: u32,
) -> Result<(), NoMemory>
    ensures { OnOk result (links.new.items ≡ links.old.items ++ link_to border end parent heavy child) }
{
    if let Some(child) = child {
        if border <= child && child < end {
            links.push(Link {
                parent,
                child,
                heavy,
            })?;
        }
    }
    Ok(())
}

/// Draws edges one after another.
pub fn draw_links(
    alloc: Global,
    blocks: &mut Blocks,
    entries: &[Entry],
    links: &[Link],
) -> Result<(), NoMemory>
    requires ordered { IsOrdered entries.now }
    requires may { All (MayLink entries.now blocks.old) links.now }
    requires apart { AllPairs AreApart links.now }
    requires few_rows { blocks.old.rows + 2 * length links.now ≤ 2 ^ 20 }
    requires few_cols { blocks.old.cols + length links.now ≤ 2 ^ 20 }
    ensures { OnOk result (blocks.new ≡ with_links entries.now blocks.old links.now) }
{
    drawing_adds_one_edge();
    for link in links {
        draw_link(alloc, blocks, entries, *link)?;
    }
    Ok(())
}

/// Draws an edge.
fn draw_link(
    alloc: Global,
    blocks: &mut Blocks,
    entries: &[Entry],
    link: Link,
) -> Result<(), NoMemory>
    requires may { MayLink entries.now blocks.old link }
    requires few_rows { blocks.old.rows + 2 ≤ 2 ^ 20 }
    requires few_cols { blocks.old.cols + 1 ≤ 2 ^ 20 }
    ensures { OnOk result (blocks.new ≡ with_link entries.now blocks.old link) }
{
    let parent = node_at(entries, link.parent);
    let child = node_at(entries, link.child);
    draw_edge(alloc, blocks, parent, child, role_of(link.heavy))
}

/// The node with this number.
fn node_at(entries: &[Entry], number: u32) -> u32
    requires { number < length entries.now }
    ensures { result ≡ node_at entries.now number }
{
    entries[number as usize].node
}

/// The role of an edge that goes to a heavy child, or to a light one.
fn role_of(heavy: bool) -> EdgeRole
    ensures { is_heavy result ≡ heavy }
{
    if heavy {
        EdgeRole::Heavy
    } else {
        EdgeRole::Light
    }
}
