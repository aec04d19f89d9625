// Which words a specification marks for an output, by trying every cut.

ghost use Rattle.std.specs.Prelude.{◌↔◌, ◌<◌, ◌^◌, All, IsTrue, length, map};
ghost use Rattle.rx_lang.specs.Expression.{plus};
ghost use Rattle.rx_lang.specs.Meaning.{SomeMarks, EndsIn};
ghost use Rattle.rx_lang.specs.Specification.{Language, MatchesSymbol};
ghost use Rattle.rx_lang.specs.Tables.{specification};
ghost use Rattle.rx_lang.specs.VectorWords.{MarksWord, node_tree, word_bits};
ghost use Rattle.rx_lang.specs.Wrapped.{HasEntries, MarksBehind, MarksLater, MarksRepeated, core_tree};

use crate::spec::Spec;
use crate::spelling::{accepts, spells_many, spells_wrapped};
use crate::vector::Vector;
use crate::wrapped::{Core, marked_below};

/// Whether the word is in the language of the output with this number. It takes no memory and is slow, as `accepts`.
pub fn shows(spec: &Spec, output: u8, word: &[Vector]) -> bool
    requires in_table { output < length spec.now.outputs }
    requires few_vectors { length word.now < 2 ^ 32 }
    ensures { IsTrue result ↔ Language (specification spec.now) output (word_bits spec.now word.now) }
{
    some_marks(spec, spec.exprs(), output, word) || scans_mark(spec, output, word)
}

// Whether some expression with one of these roots marks the word.
fn some_marks(spec: &Spec, roots: &[u32], output: u8, word: &[Vector]) -> bool
    requires in_table { All (λ root. root < length spec.now.nodes) roots.now }
    requires few_vectors { length word.now < 2 ^ 32 }
    ensures { IsTrue result ↔ SomeMarks (MatchesSymbol spec.now.symbols) (map (node_tree spec.now) roots.now) output (word_bits spec.now word.now) }
{
    for root in roots {
        if marks(spec, *root, output, word) {
            return true;
        }
    }
    false
}

// Whether some rest of the word is marked by a `scan` statement.
fn scans_mark(spec: &Spec, output: u8, word: &[Vector]) -> bool
    requires few_vectors { length word.now < 2 ^ 32 }
    ensures { IsTrue result ↔ EndsIn (SomeMarks (MatchesSymbol spec.now.symbols) (map (node_tree spec.now) spec.now.scans) output) (word_bits spec.now word.now) }
{
    for cut in 0..=word.len() {
        let (_, rest) = word.split_at(cut);
        if some_marks(spec, spec.scans(), output, rest) {
            return true;
        }
    }
    false
}

#[cycle(marking)]
fn marks(spec: &Spec, expr: u32, output: u8, word: &[Vector]) -> bool
    requires in_table { expr < length spec.now.nodes }
    requires few_vectors { length word.now < 2 ^ 32 }
    ensures { IsTrue result ↔ MarksWord spec.now (node_tree spec.now expr) output word.now }
{
    let below = marked_below(spec, expr, output);
    if below.marked && spells_wrapped(spec, below.wrapped, word) {
        true
    } else if below.wrapped.loops {
        marks_behind(spec, below.wrapped.core, output, word)
    } else {
        marks_once(spec, below.wrapped.core, output, word)
    }
}

#[cycle(marking)]
fn marks_once(spec: &Spec, core: Core, output: u8, word: &[Vector]) -> bool
    requires in_table { HasEntries spec.now core }
    requires few_vectors { length word.now < 2 ^ 32 }
    ensures { IsTrue result ↔ MarksWord spec.now (core_tree spec.now core) output word.now }
{
    match core {
        Core::Symbol(_) => false,
        Core::Sequence(first, second) => {
            marks(spec, first, output, word) || marks_second(spec, first, second, output, word)
        }
        Core::Union(one, other) => marks(spec, one, output, word)
            || marks(spec, other, output, word),
        Core::Repeat(inner, _, most) => marks_repeat(spec, inner, most, output, word),
    }
}

// Whether the expression marks the word behind fewer than so many of its own words.
#[cycle(marking)]
fn marks_repeat(spec: &Spec, inner: u32, most: u8, output: u8, word: &[Vector]) -> bool
    requires in_table { inner < length spec.now.nodes }
    requires few_vectors { length word.now < 2 ^ 32 }
    ensures { IsTrue result ↔ MarksRepeated spec.now (node_tree spec.now inner) most output word.now }
{
    most > 0
        && (marks(spec, inner, output, word) || marks_next(spec, inner, most - 1, output, word))
}

// Whether the expression marks the word behind one of its own words and fewer than so many further ones.
#[cycle(marking)]
fn marks_next(spec: &Spec, inner: u32, most: u8, output: u8, word: &[Vector]) -> bool
    requires in_table { inner < length spec.now.nodes }
    requires few_vectors { length word.now < 2 ^ 32 }
    ensures { IsTrue result ↔ MarksLater spec.now (node_tree spec.now inner) most output word.now }
{
    for cut in 0..=word.len() {
        let (front, rest) = word.split_at(cut);
        if accepts(spec, inner, front) && marks_repeat(spec, inner, most, output, rest) {
            return true;
        }
    }
    false
}

// Whether the second expression marks the word behind a word of the first.
#[cycle(marking)]
fn marks_second(spec: &Spec, first: u32, second: u32, output: u8, word: &[Vector]) -> bool
    requires first_in_table { first < length spec.now.nodes }
    requires second_in_table { second < length spec.now.nodes }
    requires few_vectors { length word.now < 2 ^ 32 }
    ensures { IsTrue result ↔ MarksBehind spec.now (node_tree spec.now first) (node_tree spec.now second) output word.now }
{
    for cut in 0..=word.len() {
        let (front, rest) = word.split_at(cut);
        if marks(spec, second, output, rest) && accepts(spec, first, front) {
            return true;
        }
    }
    false
}

// Whether the expression marks the word behind any number of its own words.
#[cycle(marking)]
fn marks_behind(spec: &Spec, core: Core, output: u8, word: &[Vector]) -> bool
    requires in_table { HasEntries spec.now core }
    requires few_vectors { length word.now < 2 ^ 32 }
    ensures { IsTrue result ↔ MarksWord spec.now (plus (core_tree spec.now core)) output word.now }
{
    for cut in 0..=word.len() {
        let (front, rest) = word.split_at(cut);
        if spells_many(spec, core, front) && marks_once(spec, core, output, rest) {
            return true;
        }
    }
    false
}
