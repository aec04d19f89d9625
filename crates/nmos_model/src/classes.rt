// Classes of linked nodes, by flooding.

ghost use Rattle.std.specs.Prelude.{◌≡◌, ◌<◌, ◌≤◌, ◌+◌, ◌^◌, ◌∷◌, ◌++◌, ℕ, Bool, true, List, Option, None, Some, [], length, IfOk, OnOk, slice_get, slice_index_or};
ghost use Rattle.nmos_model.specs.Classes.{IsGraph, IsClassing, class_at};
ghost use Rattle.nmos_model.specs.Flooding.{IsFlooding, IsOpen, Takes, behind_first, work_left};

use rx_text::NoMemory;
use std::alloc::Global;
use std::marker::Model;

/// Nodes among the numbers from 0, and links from node to node.
pub trait Graph {
    // how many numbers there are
    ghost size: { Self → ℕ };

    // the number is a node's
    ghost is_node: { Self → ℕ → Bool };

    // the links of a node, some of which may lead nowhere
    ghost links: { Self → ℕ → List (Option ℕ) };

    /// How many numbers there are, of nodes and others.
    fn size(&self) -> u32
        ensures { result ≡ size self.now };

    /// The number is a node's.
    fn is_node(&self, number: u32) -> bool
        requires { number < size self.now }
        ensures { result ≡ is_node self.now number };

    /// How many links the node has, with those that lead nowhere.
    fn link_count(&self, node: u32) -> u32
        requires within { node < size self.now }
        requires node { is_node self.now node ≡ true }
        ensures { result ≡ length (links self.now node) };

    /// The node to which the link of this number leads, from 0.
    fn link(&self, node: u32, at: u32) -> Option<u32>
        requires within { node < size self.now }
        requires node { is_node self.now node ≡ true }
        requires link { at < length (links self.now node) }
        ensures { Some result ≡ slice_get (links self.now node) at };
}

/// The class of each node, and the first node of each class. Nodes have one class exactly where links lead from one to the
/// other. Classes are numbered from 0 by their first nodes.
#[derive(Drop)]
pub struct Classes {
    numbers: Vec<Option<u32>>,
    firsts: Vec<u32>,
}

impl Model for Classes {
    ghost use Rattle.nmos_model.specs.Classes.{Classing};

    ghost Value = { Classing };

    ghost view = { λ c. record { numbers = c.numbers.items; firsts = c.firsts.items } };
}

impl Classes {
    /// The class of the number, where it is a node's.
    pub fn class(&self, number: u32) -> Option<u32>
        requires { number < length self.now.numbers }
        ensures { result ≡ class_at self.now.numbers number }
    {
        self.numbers[number as usize]
    }

    /// The first node of each class.
    pub fn firsts(&self) -> &[u32]
        ensures { result.now ≡ self.now.firsts }
    {
        &self.firsts
    }
}

/// The classes so far, and the nodes whose links wait to be followed.
#[derive(Drop)]
struct Flood {
    numbers: Vec<Option<u32>>,
    firsts: Vec<u32>,
    waiting: Vec<u32>,
}

/// The classes of the nodes. Takes time and memory in proportion to the numbers and the links.
///
/// # Errors
///
/// `NoMemory` where an allocation was refused.
pub fn classify<G: Graph>(alloc: Global, graph: &G) -> Result<Classes, NoMemory>
    requires { IsGraph (G.size graph.now) (G.is_node graph.now) (G.links graph.now) }
    ensures { IfOk result (IsClassing (G.size graph.now) (G.is_node graph.now) (G.links graph.now)) }
{
    let size = graph.size();
    let mut flood = Flood {
        numbers: without_classes(alloc, size)?,
        firsts: Vec::new(alloc),
        waiting: Vec::new(alloc),
    };
    for number in 0..size {
        flood.visit(graph, number)?;
    }
    Ok(Classes {
        numbers: flood.numbers,
        firsts: flood.firsts,
    })
}

/// So many numbers without a class.
fn without_classes(alloc: Global, size: u32) -> Result<Vec<Option<u32>>, NoMemory>
    ensures size { IfOk result (λ numbers. length numbers.items ≡ size) }
    ensures none { IfOk result (λ numbers. (a : ℕ) → class_at numbers.items a ≡ None) }
{
    Ok(vec![in alloc; None; size as usize]?)
}

impl Flood {
    /// Floods a class from the number, where it is a node's without a class.
    fn visit<G: Graph>(&mut self, graph: &G, number: u32) -> Result<(), NoMemory>
        requires graph { IsGraph (G.size graph.now) (G.is_node graph.now) (G.links graph.now) }
        requires within { number < G.size graph.now }
        requires flooded { IsFlooding (G.size graph.now) (G.is_node graph.now) (G.links graph.now) number
            self.old.numbers.items self.old.firsts.items [] }
        requires rest { self.old.waiting.items ≡ [] }
        ensures flooded { OnOk result (IsFlooding (G.size graph.now) (G.is_node graph.now) (G.links graph.now) (number + 1)
            self.new.numbers.items self.new.firsts.items []) }
        ensures rest { OnOk result (self.new.waiting.items ≡ []) }
    {
        if graph.is_node(number) && self.numbers[number as usize].is_none() {
            let class = self.firsts.len() as u32;
            self.firsts.push(number)?;
            self.numbers[number as usize] = Some(class);
            self.waiting.push(number)?;
            self.spread(graph, class)?;
        }
        Ok(())
    }

    /// Gives the class to all nodes to which paths lead from those that wait.
    fn spread<G: Graph>(&mut self, graph: &G, class: u32) -> Result<(), NoMemory>
        requires graph { IsGraph (G.size graph.now) (G.is_node graph.now) (G.links graph.now) }
        requires flooded { IsFlooding (G.size graph.now) (G.is_node graph.now) (G.links graph.now) (behind_first self.old.firsts.items class)
            self.old.numbers.items self.old.firsts.items self.old.waiting.items }
        requires open { IsOpen class self.old.numbers.items self.old.firsts.items self.old.waiting.items }
        ensures flooded { OnOk result (IsFlooding (G.size graph.now) (G.is_node graph.now) (G.links graph.now) (behind_first self.old.firsts.items class)
            self.new.numbers.items self.old.firsts.items []) }
        ensures firsts { self.new.firsts ≡ self.old.firsts }
        ensures rest { OnOk result (self.new.waiting.items ≡ []) }
    {
        while let Some(node) = self.waiting.pop() {
            self.follow(graph, node, class)?;
        }
        Ok(())
    }

    /// Gives the class to the nodes to which this one is linked, where they have none.
    fn follow<G: Graph>(&mut self, graph: &G, node: u32, class: u32) -> Result<(), NoMemory>
        requires graph { IsGraph (G.size graph.now) (G.is_node graph.now) (G.links graph.now) }
        requires flooded { IsFlooding (G.size graph.now) (G.is_node graph.now) (G.links graph.now) (behind_first self.old.firsts.items class)
            self.old.numbers.items self.old.firsts.items (node ∷ self.old.waiting.items) }
        requires open { IsOpen class self.old.numbers.items self.old.firsts.items (node ∷ self.old.waiting.items) }
        ensures flooded { OnOk result (IsFlooding (G.size graph.now) (G.is_node graph.now) (G.links graph.now) (behind_first self.old.firsts.items class)
            self.new.numbers.items self.old.firsts.items self.new.waiting.items) }
        ensures open { OnOk result (IsOpen class self.new.numbers.items self.old.firsts.items self.new.waiting.items) }
        ensures firsts { self.new.firsts ≡ self.old.firsts }
        ensures less { OnOk result (work_left self.new.numbers.items self.new.waiting.items ≤ work_left self.old.numbers.items self.old.waiting.items) }
    {
        for at in 0..graph.link_count(node) {
            if let Some(next) = graph.link(node, at) {
                self.take(next, class)?;
            }
        }
        Ok(())
    }

    /// Gives the class to the node, where it has none.
    fn take(&mut self, node: u32, class: u32) -> Result<(), NoMemory>
        requires { node < length self.old.numbers.items }
        ensures takes { OnOk result (Takes node class self.old.numbers.items self.old.waiting.items self.new.numbers.items self.new.waiting.items) }
        ensures firsts { self.new.firsts ≡ self.old.firsts }
    {
        if self.numbers[node as usize].is_none() {
            self.numbers[node as usize] = Some(class);
            self.waiting.push(node)?;
        }
        Ok(())
    }
}
