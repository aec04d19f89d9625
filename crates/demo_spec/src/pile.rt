// A pile of expressions in a table of nodes.

ghost use Rattle.std.specs.Prelude.{◌≡◌, ◌+◌, ◌<◌, ◌≤◌, ◌^◌, ◌++◌, ◌∷◌, [], length, reverse, IfOk};
ghost use Rattle.rx_lang.specs.Expression.{symbol};
ghost use Rattle.demo_spec.specs.Generator.{joined, on_top, postfixed};
ghost use Rattle.demo_spec.specs.Piles.{IsDeclared, IsPile, join_node, signed, stack_of};

use crate::sign::Sign;
use rx_lang::ExprNode;
use rx_text::NoMemory;
use std::alloc::Global;
use std::marker::Model;

/// The nodes of all expressions, and the numbers of those that stand on the pile, the top last.
#[derive(Drop)]
pub(crate) struct Pile {
    nodes: Vec<ExprNode>,
    numbers: Vec<u32>,
}

impl Model for Pile {
    ghost use Rattle.std.specs.Prelude.{reverse};
    ghost use Rattle.demo_spec.specs.Piles.{IsPile, Piled};

    ghost Value = { Piled };

    ghost view = { λ p. record { nodes = p.nodes.items; numbers = reverse p.numbers.items } };

    ghost invariant = { λ p. IsPile p.nodes.items (reverse p.numbers.items) };
}

impl Pile {
    pub(crate) fn new(alloc: Global) -> Pile
        ensures { result ≡ record { nodes = []; numbers = [] } }
    {
        Pile {
            nodes: Vec::new(alloc),
            numbers: Vec::new(alloc),
        }
    }

    /// How many expressions stand on the pile.
    pub(crate) fn len(&self) -> usize
        ensures { result ≡ length self.now.numbers }
    {
        self.numbers.len()
    }

    /// The symbol with this number on the top.
    pub(crate) fn with_symbol(self, number: u8) -> Result<Pile, NoMemory>
        requires declared { number < 4 }
        requires room { length self.nodes < 2 ^ 16 }
        ensures stack { IfOk result (λ pile. stack_of pile ≡ symbol number ∷ stack_of self) }
        ensures nodes { IfOk result (λ pile. length pile.nodes ≡ length self.nodes + 1) }
    {
        with_node(self.nodes, self.numbers, ExprNode::Leaf(number))
    }

    /// The sign on the expression on the top.
    pub(crate) fn with_sign(self, sign: Sign) -> Result<Pile, NoMemory>
        requires some { 1 ≤ length self.numbers }
        requires declared { IsDeclared sign }
        requires room { length self.nodes < 2 ^ 16 }
        ensures stack { IfOk result (λ pile. stack_of pile ≡ on_top (signed sign) (stack_of self)) }
        ensures nodes { IfOk result (λ pile. length pile.nodes ≡ length self.nodes + 1) }
    {
        let mut numbers = self.numbers;
        let top = take(&mut numbers);
        with_node(self.nodes, numbers, sign.node(top))
    }

    /// What the draw puts on the expression on the top.
    pub(crate) fn with_postfix(self, draw: u64) -> Result<Pile, NoMemory>
        requires some { 1 ≤ length self.numbers }
        requires room { length self.nodes < 2 ^ 16 }
        ensures stack { IfOk result (λ pile. stack_of pile ≡ on_top (postfixed draw) (stack_of self)) }
        ensures nodes { IfOk result (λ pile. length pile.nodes ≤ length self.nodes + 1) }
    {
        match draw {
            0 => self.with_sign(Sign::Star),
            1 => self.with_sign(Sign::Plus),
            2 => self.with_sign(Sign::Optional),
            3 => self.with_sign(Sign::Marked(0)),
            4 => self.with_sign(Sign::Marked(1)),
            _ => Ok(self),
        }
    }

    /// The two expressions on the top as one, in sequence where the draw is 0.
    pub(crate) fn joined(self, draw: u64) -> Result<Pile, NoMemory>
        requires some { 2 ≤ length self.numbers }
        requires room { length self.nodes < 2 ^ 16 }
        ensures stack { IfOk result (λ pile. stack_of pile ≡ joined draw (stack_of self)) }
        ensures nodes { IfOk result (λ pile. length pile.nodes ≡ length self.nodes + 1) }
    {
        let mut numbers = self.numbers;
        let right = take(&mut numbers);
        let left = take(&mut numbers);
        with_node(self.nodes, numbers, join_node(draw, left, right))
    }

    /// The nodes, and the numbers of the expressions on the pile, the top last.
    pub(crate) fn into_parts(self) -> (Vec<ExprNode>, Vec<u32>)
        ensures pile { IsPile result.0.items (reverse result.1.items) }
        ensures nodes { result.0.items ≡ self.nodes }
        ensures numbers { reverse result.1.items ≡ self.numbers }
    {
        (self.nodes, self.numbers)
    }
}

// Takes the number on the top.
fn take(numbers: &mut Vec<u32>) -> u32
    requires { 1 ≤ length numbers.old.items }
    ensures { numbers.old.items ≡ numbers.new.items ++ result ∷ [] }
{
    match numbers.pop() {
        Some(number) => number,
        None => unreachable!(),
    }
}

// The node of a sequence of two expressions, where the draw is 0, else of their union.
fn join_node(draw: u64, left: u32, right: u32) -> ExprNode
    ensures { result ≡ join_node draw left right }
{
    if draw == 0 {
        ExprNode::Seq(left, right)
    } else {
        ExprNode::Alt(left, right)
    }
}

// The pile with one more node on it, which has taken its children from the pile.
fn with_node(nodes: Vec<ExprNode>, numbers: Vec<u32>, node: ExprNode) -> Result<Pile, NoMemory>
    requires pile { IsPile (nodes.items ++ node ∷ []) (length nodes.items ∷ reverse numbers.items) }
    requires room { length nodes.items < 2 ^ 16 }
    ensures { IfOk result (λ pile. pile ≡ record {
      nodes = nodes.items ++ node ∷ [];
      numbers = length nodes.items ∷ reverse numbers.items;
    }) }
{
    let mut nodes = nodes;
    let mut numbers = numbers;
    let number = nodes.len() as u32;
    nodes.push(node)?;
    numbers.push(number)?;
    Ok(Pile { nodes, numbers })
}
