//! What the layout of a tree stands for. Each law is the contract of a function that runs nothing.

ghost use Rattle.tree_chip.specs.TreeNetworks.{TreesRecognise};
ghost use Rattle.tree_chip.specs.TreePlans.{TreesArePlans, TreesDrawCells};

use block_grid::laws::{bundles_go_on, edges_lead, nodes_are_found, nodes_stand_apart};
use cell_network::assembly_laws::{cells_are_assembled, trees_have_parts};
use cell_network::meeting_laws::{cells_are_netlists, wires_meet};
use light_order::laws::each_node_stands_once;
use node_cell::laws::blocks_are_modules;
use nor_net::laws::assemblies_are_the_same;
use stick_grid::laws::{coverings_are_modules, plans_stand_for_networks};
use switch_net::{same_networks_agree, same_networks_run_alike};

/// The tiles of a tree's layout are a plan. Its squares with the labels of the pads stand for a network that is the same as that of the
/// cells: the blocks of nodes have the devices of their parts, and each wire of a bundle is one net from the parent to the child.
pub fn trees_draw_cells()
    ensures plan { TreesArePlans }
    ensures network { TreesDrawCells }
{
    blocks_are_modules();
    bundles_go_on();
    edges_lead();
    nodes_are_found();
    nodes_stand_apart();
    cells_are_assembled();
    trees_have_parts();
    wires_meet();
    cells_are_netlists();
    each_node_stands_once();
    assemblies_are_the_same();
    coverings_are_modules();
    plans_stand_for_networks();
    same_networks_agree();
}

/// Where the network of the cells recognises a specification's languages, surely so, the layout of the tree stands for one that does.
pub fn trees_recognise()
    ensures { TreesRecognise }
{
    trees_draw_cells();
    cells_are_assembled();
    trees_have_parts();
    cells_are_netlists();
    same_networks_agree();
    same_networks_run_alike();
}
