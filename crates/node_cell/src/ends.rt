// What leads to a part from the north, and out of it to the south and to the east.

ghost use Rattle.std.specs.Prelude.{◌≡◌, ◌≤◌, ◌<◌, ◌^◌, ◌+◌, ◌*◌, [], ◌∷◌, IfSome, Some, None, nat_lt, if◌then◌else◌};
ghost use Rattle.std.specs.List.{list_any};
ghost use Rattle.std.specs.Option.{option_map_or};
ghost use Rattle.wiring.specs.Wirings.{crosses, wiring_tile};
ghost use Rattle.cell_network.specs.Home.{AreFew};
ghost use Rattle.node_cell.specs.Blocks.{heavy_net, light_net};
ghost use Rattle.node_cell.specs.BlockTiles.{cap, ended, foot, frame_spans, foot_rows, pair_run, pair_spans, span};
ghost use Rattle.node_cell.specs.Made.{child_net, coming, foot_run, foot_spans};

use crate::form::Form;
use crate::lines::{east_wire, foot_rows, inn_wire, net_in_col};
use crate::run::{Run, crosses, tile_of};
use cell_network::Counts;
use micro_tiles::Tile;

/// The tile above a part of so many nets in this column.
pub(crate) fn cap_tile(counts: Counts, form: Form, nets: u32, col: u32) -> Tile
    requires few { AreFew counts }
    requires nets { nets ≤ 2 ^ 16 }
    requires col { col < 2 ^ 16 }
    ensures { result ≡ wiring_tile (cap counts nets (coming counts form)) 0 col }
{
    let net = net_in_col(nets, col);
    let coming = coming(counts, form);
    tile_of(
        cap_poly(coming, net, 0),
        cap_poly(coming, net, 1),
        &None,
        col,
    )
}

/// How many wires come from the north.
fn coming(counts: Counts, form: Form) -> u32
    requires { AreFew counts }
    ensures { result ≡ coming counts form }
{
    match form {
        Form::Frame => 0,
        Form::Wires(_) | Form::Leaf | Form::Pair(_) => counts.bundle(),
    }
}

/// Whether the poly of a net, if the column has one, crosses a border above the part. So many nets come from the north.
fn cap_poly(coming: u32, net: Option<u32>, border: u32) -> bool
    ensures { result ≡ list_any (crosses border) (option_map_or (λ net. span (if nat_lt net coming then 0 else 1) 1 net ∷ []) net []) }
{
    match net {
        None => false,
        Some(net) => crosses(if net < coming { 0 } else { 1 }, 1, border),
    }
}

/// The tile in this row and column below a part of so many nets.
pub(crate) fn foot_tile(counts: Counts, form: Form, nets: u32, row: u32, col: u32) -> Tile
    requires few { AreFew counts }
    requires nets { nets ≤ 2 ^ 16 }
    requires row { row < 2 ^ 16 }
    requires col { col < 2 ^ 16 }
    ensures { result ≡ wiring_tile (foot counts nets (foot_spans counts form) (foot_run counts form)) row col }
{
    let net = net_in_col(nets, col);
    let metal = foot_metal(counts, form, row);
    tile_of(
        foot_poly(counts, form, net, row),
        foot_poly(counts, form, net, row + 1),
        &metal,
        col,
    )
}

/// Whether the poly of a net, if the column has one, crosses the north border of the row below the part.
fn foot_poly(counts: Counts, form: Form, net: Option<u32>, border: u32) -> bool
    requires few { AreFew counts }
    requires net { IfSome net (λ i. i < 2 ^ 16) }
    ensures { result ≡ list_any (crosses border) (option_map_or (foot_spans counts form) net []) }
{
    let Some(net) = net else {
        return false;
    };
    match form {
        Form::Pair(left_light) => pair_poly(counts, left_light, net, border),
        Form::Frame => frame_poly(counts, net, border),
        Form::Wires(_) | Form::Leaf => crosses(0, 0, border),
    }
}

/// Whether the poly of a net crosses a border below the frame's part: that of the bundle to the root leads on to its row.
fn frame_poly(counts: Counts, net: u32, border: u32) -> bool
    requires few { AreFew counts }
    requires net { net < 2 ^ 16 }
    ensures { result ≡ list_any (crosses border) (frame_spans counts net) }
{
    if net < counts.bundle() {
        crosses(0, 3 + 2 * net, border)
    } else {
        crosses(0, 0, border)
    }
}

/// Whether the poly of a net crosses a border below the part of a node with two parts. The columns of IN and OUT end, and IN and OUT of
/// the light part take their places; those of the heavy part lead on to their rows.
fn pair_poly(counts: Counts, left_light: bool, net: u32, border: u32) -> bool
    requires few { AreFew counts }
    requires net { net < 2 ^ 16 }
    ensures { result ≡ list_any (crosses border) (pair_spans counts left_light net) }
{
    let inn = inn_wire(counts);
    let end = foot_rows(counts);
    if net == inn {
        crosses(0, 0, border) || crosses(2, end, border)
    } else if net == inn + 1 {
        crosses(0, 0, border) || crosses(3, end, border)
    } else if net < counts.bundle() {
        crosses(0, end, border)
    } else if net == light_net(counts, left_light, inn) {
        crosses(0, 1, border)
    } else if net == light_net(counts, left_light, inn + 1) {
        crosses(0, 2, border)
    } else if net == heavy_net(counts, left_light, inn) {
        crosses(0, 3 + 2 * inn, border)
    } else if net == heavy_net(counts, left_light, inn + 1) {
        crosses(0, 3 + 2 * (inn + 1), border)
    } else {
        crosses(0, 0, border)
    }
}

/// The net of a node's part that is a wire of its light part's bundle.
fn light_net(counts: Counts, left_light: bool, wire: u32) -> u32
    requires few { AreFew counts }
    requires wire { wire < 2 ^ 16 }
    ensures net { result ≡ light_net counts left_light wire }
    ensures few { result < 2 ^ 17 }
{
    if left_light {
        child_net(counts, 0, wire)
    } else {
        child_net(counts, 2, wire)
    }
}

/// The net of a node's part that is a wire of its heavy part's bundle.
fn heavy_net(counts: Counts, left_light: bool, wire: u32) -> u32
    requires few { AreFew counts }
    requires wire { wire < 2 ^ 16 }
    ensures net { result ≡ heavy_net counts left_light wire }
    ensures few { result < 2 ^ 17 }
{
    if left_light {
        child_net(counts, 2, wire)
    } else {
        child_net(counts, 0, wire)
    }
}

/// The net of a node's part that is a wire of a part's bundle, whose IN and OUT stand so far behind the node's own bundle.
fn child_net(counts: Counts, own: u32, wire: u32) -> u32
    requires few { AreFew counts }
    requires own { own ≤ 2 }
    requires wire { wire < 2 ^ 16 }
    ensures { result ≡ child_net counts own wire }
{
    let inn = inn_wire(counts);
    if wire == inn {
        counts.bundle() + own
    } else if wire == inn + 1 {
        counts.bundle() + own + 1
    } else {
        wire
    }
}

/// The metal in the row below the part, if there is any.
fn foot_metal(counts: Counts, form: Form, row: u32) -> Option<Run>
    requires { AreFew counts }
    ensures { result ≡ foot_run counts form row }
{
    match form {
        Form::Pair(left_light) => pair_metal(counts, left_light, row),
        Form::Frame => {
            let wire = east_wire(counts, row)?;
            Some(eastward(wire))
        }
        Form::Wires(_) | Form::Leaf => None,
    }
}

/// The metal in the row below the part of a node with two parts.
fn pair_metal(counts: Counts, left_light: bool, row: u32) -> Option<Run>
    requires { AreFew counts }
    ensures { result ≡ pair_run counts left_light row }
{
    let inn = inn_wire(counts);
    if row == 1 {
        Some(across(inn, light_net(counts, left_light, inn)))
    } else if row == 2 {
        Some(across(inn + 1, light_net(counts, left_light, inn + 1)))
    } else {
        let wire = east_wire(counts, row)?;
        Some(eastward(heavy_net(counts, left_light, wire)))
    }
}

/// Metal from the column of a wire to that of a net.
fn across(wire: u32, net: u32) -> Run
    requires wire { wire < 2 ^ 16 }
    requires net { net < 2 ^ 17 }
    ensures { result ≡ record { from = Some (2 + 2 * wire); to = Some (2 + 2 * net); net = net } }
{
    Run {
        from: Some(2 + 2 * wire),
        to: Some(2 + 2 * net),
        net,
    }
}

/// Metal from the column of a net to the east.
fn eastward(net: u32) -> Run
    requires { net < 2 ^ 17 }
    ensures { result ≡ record { from = Some (2 + 2 * net); to = None; net = net } }
{
    Run {
        from: Some(2 + 2 * net),
        to: None,
        net,
    }
}
