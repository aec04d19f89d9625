//! Worked examples of the definitions. Each is the contract of a function that does nothing. Of a language they tell, for
//! the empty word and for each longer front of a word, whether it is in the language: `1` where it is.

ghost use Rattle.std.specs.Prelude.{◌≡◌, ◌∷◌, [], codes};
ghost use Rattle.rx_lang.specs.Specification.{Language};
ghost use Rattle.rx_lang.specs.Examples.{Answers, counted_symbol, digits, last_symbol_marked, last_symbol_tables, loop_in_loop, mark_in_each_part, mark_in_repeat, marked_option_in_loop, marked_symbol, overlapping_symbols, scanned_option, scanned_pair, shared_node_tables, unmarked_symbol};
ghost use Rattle.rx_lang.specs.Tables.{IsSpecification, specification};
ghost use Rattle.rx_lang.specs.Vector.{bits_of};

/// `a !z` on 1, 0, 1.
pub fn marks_a_symbol()
    ensures { Answers (Language marked_symbol 0) (digits (codes "1") ∷ digits (codes "0") ∷ digits (codes "1") ∷ []) (digits (codes "0100")) }
{}

/// `(a|b)* a !z` on 10, 01, 11, 00, 10.
pub fn marks_the_last_symbol()
    ensures { Answers (Language last_symbol_marked 0) (digits (codes "10") ∷ digits (codes "01") ∷ digits (codes "11") ∷ digits (codes "00") ∷ digits (codes "10") ∷ []) (digits (codes "010100")) }
{}

/// `(a? !z)*` on 1, 0.
pub fn marks_an_option_in_a_loop()
    ensures { Answers (Language marked_option_in_loop 0) (digits (codes "1") ∷ digits (codes "0") ∷ []) (digits (codes "110")) }
{}

/// `((a*)* | b?)+ !z` on 0, 1, 0.
pub fn marks_a_loop_of_loops()
    ensures { Answers (Language loop_in_loop 0) (digits (codes "0") ∷ digits (codes "1") ∷ digits (codes "0") ∷ []) (digits (codes "1111")) }
{}

/// `(a !y) b !z` on 1, 0.
pub fn marks_each_part_for_its_output()
    ensures first { Answers (Language mark_in_each_part 0) (digits (codes "1") ∷ digits (codes "0") ∷ []) (digits (codes "010")) }
    ensures second { Answers (Language mark_in_each_part 1) (digits (codes "1") ∷ digits (codes "0") ∷ []) (digits (codes "001")) }
{}

/// `a b !z; b a !v` on 11, 11, which match both symbols.
pub fn matches_several_symbols()
    ensures first { Answers (Language overlapping_symbols 0) (digits (codes "11") ∷ digits (codes "11") ∷ []) (digits (codes "001")) }
    ensures second { Answers (Language overlapping_symbols 1) (digits (codes "11") ∷ digits (codes "11") ∷ []) (digits (codes "001")) }
{}

/// `a` without a mark on 1, 1.
pub fn marks_nothing_without_a_mark()
    ensures { Answers (Language unmarked_symbol 0) (digits (codes "1") ∷ digits (codes "1") ∷ []) (digits (codes "000")) }
{}

/// `a{2,3} !z` on 1, 1, 1, 1.
pub fn counts_a_symbol()
    ensures { Answers (Language counted_symbol 0) (digits (codes "1") ∷ digits (codes "1") ∷ digits (codes "1") ∷ digits (codes "1") ∷ []) (digits (codes "00110")) }
{}

/// `(a !z){0,2} a{2,2}` on 1, 1, 1.
pub fn marks_each_copy()
    ensures { Answers (Language mark_in_repeat 0) (digits (codes "1") ∷ digits (codes "1") ∷ digits (codes "1") ∷ []) (digits (codes "0110")) }
{}

/// `scan a b !z` on 1, 0, 1, 0.
pub fn scans_from_each_place()
    ensures { Answers (Language scanned_pair 0) (digits (codes "1") ∷ digits (codes "0") ∷ digits (codes "1") ∷ digits (codes "0") ∷ []) (digits (codes "00101")) }
{}

/// `expr b !y; scan a? !z` on 0, 0: a scan of the empty word marks every word.
pub fn scans_the_empty_word_everywhere()
    ensures first { Answers (Language scanned_option 0) (digits (codes "0") ∷ digits (codes "0") ∷ []) (digits (codes "010")) }
    ensures second { Answers (Language scanned_option 1) (digits (codes "0") ∷ digits (codes "0") ∷ []) (digits (codes "111")) }
{}

/// The tables of `expr (a|b)* a !z;` stand for its tree. Tables in which a node is the child of two stand for none.
pub fn tables_stand_for_trees()
    ensures tree { specification last_symbol_tables ≡ last_symbol_marked }
    ensures kept { IsSpecification last_symbol_tables }
    ensures shared { IsSpecification shared_node_tables → ⊥ }
{}

/// The lowest bit of a vector is the first line's.
pub fn vectors_begin_with_the_lowest_bit()
    ensures { bits_of 3 (record { bits = 13 }) ≡ digits (codes "101") }
{}
