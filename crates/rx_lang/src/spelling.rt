// Which words an expression spells, by trying every cut.

ghost use Rattle.std.specs.Prelude.{◌≡◌, ◌↔◌, ◌<◌, ◌^◌, IsTrue, length};
ghost use Rattle.rx_lang.specs.Around.{ManyAround};
ghost use Rattle.rx_lang.specs.Expression.{repeated, sequence, star};
ghost use Rattle.rx_lang.specs.declared.wrapped.Core.TheVariants.{Symbol};
ghost use Rattle.rx_lang.specs.VectorWords.{SpellsWord, node_tree};
ghost use Rattle.rx_lang.specs.Wrapped.{HasEntries, core_tree, wrap};

use crate::matching::matches_symbol;
use crate::spec::Spec;
use crate::vector::Vector;
use crate::wrapped::{Core, Wrapped, unwrapped};

/// Whether the expression with this root node spells the word. It takes no memory and tries every cut, so it is slow. Calls
/// nest a few deep for each leaf, copies counted, and for each halving of the word, however long the chains of signs are.
#[cycle(spelling)]
pub fn accepts(spec: &Spec, expr: u32, word: &[Vector]) -> bool
    requires in_table { expr < length spec.now.nodes }
    requires few_vectors { length word.now < 2 ^ 32 }
    ensures { IsTrue result ↔ SpellsWord spec.now (node_tree spec.now expr) word.now }
{
    spells_wrapped(spec, unwrapped(spec, expr), word)
}

#[cycle(spelling)]
pub(crate) fn spells_wrapped(spec: &Spec, wrapped: Wrapped, word: &[Vector]) -> bool
    requires in_table { HasEntries spec.now wrapped.core }
    requires few_vectors { length word.now < 2 ^ 32 }
    ensures { IsTrue result ↔ SpellsWord spec.now (wrap wrapped.loops wrapped.empty (core_tree spec.now wrapped.core)) word.now }
{
    if word.is_empty() {
        wrapped.empty || spells_once(spec, wrapped.core, word)
    } else if wrapped.loops {
        spells_many(spec, wrapped.core, word)
    } else {
        spells_once(spec, wrapped.core, word)
    }
}

#[cycle(spelling)]
fn spells_once(spec: &Spec, core: Core, word: &[Vector]) -> bool
    requires in_table { HasEntries spec.now core }
    requires few_vectors { length word.now < 2 ^ 32 }
    ensures { IsTrue result ↔ SpellsWord spec.now (core_tree spec.now core) word.now }
{
    match core {
        Core::Symbol(symbol) => spells_symbol(spec, symbol, word),
        Core::Sequence(first, second) => spells_sequence(spec, first, second, word),
        Core::Union(one, other) => accepts(spec, one, word) || accepts(spec, other, word),
        Core::Repeat(inner, least, most) => spells_repeat(spec, inner, least, most, word),
    }
}

fn spells_symbol(spec: &Spec, symbol: u8, word: &[Vector]) -> bool
    requires { symbol < length spec.now.symbols }
    ensures { IsTrue result ↔ SpellsWord spec.now (core_tree spec.now (Symbol symbol)) word.now }
{
    match word {
        [letter] => matches_symbol(spec, symbol, *letter),
        _ => false,
    }
}

#[cycle(spelling)]
fn spells_sequence(spec: &Spec, first: u32, second: u32, word: &[Vector]) -> bool
    requires first_in_table { first < length spec.now.nodes }
    requires second_in_table { second < length spec.now.nodes }
    requires few_vectors { length word.now < 2 ^ 32 }
    ensures { IsTrue result ↔ SpellsWord spec.now (sequence (node_tree spec.now first) (node_tree spec.now second)) word.now }
{
    // Sequences group to the left, so the second part is the smaller one as a rule.
    for cut in 0..=word.len() {
        let (front, rest) = word.split_at(cut);
        if accepts(spec, second, rest) && accepts(spec, first, front) {
            return true;
        }
    }
    false
}

// Whether the word is so many words of the expression, at least and at most.
#[cycle(spelling)]
fn spells_repeat(spec: &Spec, inner: u32, least: u8, most: u8, word: &[Vector]) -> bool
    requires in_table { inner < length spec.now.nodes }
    requires few_vectors { length word.now < 2 ^ 32 }
    ensures { IsTrue result ↔ SpellsWord spec.now (repeated (node_tree spec.now inner) least most) word.now }
{
    if is_left_out(least, word) {
        true
    } else if most == 0 {
        false
    } else {
        spells_next(spec, inner, least.saturating_sub(1), most - 1, word)
    }
}

// Whether no further word is due, and none is there.
fn is_left_out(least: u8, word: &[Vector]) -> bool
    ensures { IsTrue result ↔ ((least ≡ 0) × (length word.now ≡ 0)) }
{
    least == 0 && word.is_empty()
}

// Whether the word is a word of the expression and behind it so many further ones.
#[cycle(spelling)]
fn spells_next(spec: &Spec, inner: u32, least: u8, most: u8, word: &[Vector]) -> bool
    requires in_table { inner < length spec.now.nodes }
    requires few_vectors { length word.now < 2 ^ 32 }
    ensures { IsTrue result ↔ SpellsWord spec.now (sequence (node_tree spec.now inner) (repeated (node_tree spec.now inner) least most)) word.now }
{
    for cut in 0..=word.len() {
        let (front, rest) = word.split_at(cut);
        if accepts(spec, inner, front) && spells_repeat(spec, inner, least, most, rest) {
            return true;
        }
    }
    false
}

// Whether the word is any number of words of the expression. One of them covers the letter in the middle.
#[cycle(spelling)]
pub(crate) fn spells_many(spec: &Spec, core: Core, word: &[Vector]) -> bool
    requires in_table { HasEntries spec.now core }
    requires few_vectors { length word.now < 2 ^ 32 }
    ensures { IsTrue result ↔ SpellsWord spec.now (star (core_tree spec.now core)) word.now }
{
    if word.is_empty() {
        return true;
    }
    let middle = word.len() / 2;
    for start in 0..=middle {
        let (front, behind) = word.split_at(start);
        if spells_around(spec, core, front, behind, middle - start + 1) {
            return true;
        }
    }
    false
}

#[cycle(spelling)]
fn spells_around(spec: &Spec, core: Core, front: &[Vector], behind: &[Vector], least: usize) -> bool
    requires in_table { HasEntries spec.now core }
    requires few_in_front { length front.now < 2 ^ 32 }
    requires few_behind { length behind.now < 2 ^ 32 }
    ensures { IsTrue result ↔ ManyAround spec.now (core_tree spec.now core) front.now behind.now least }
{
    for size in least..=behind.len() {
        let (one, further) = behind.split_at(size);
        if spells_once(spec, core, one)
            && spells_many(spec, core, front)
            && spells_many(spec, core, further)
        {
            return true;
        }
    }
    false
}
