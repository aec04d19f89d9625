//! Laws of the cells of a normal form, on their equations alone. Each is the contract of a function that does nothing.

ghost use Rattle.std.specs.Prelude.{◌≡◌, ℕ, Bool, true, false, List, [], ◌∷◌};
ghost use Rattle.rx_lang.specs.Vector.{Bits};
ghost use Rattle.rx_lang.specs.Specification.{NamedPattern, MatchesSymbol};
ghost use Rattle.cell_network.specs.Cells.{CellRun};
ghost use Rattle.star_normal.specs.Tables.{TreeTable, IsTree};
ghost use Rattle.cell_network.specs.declared.numbering.Counts.{Counts};
ghost use Rattle.cell_network.specs.Meeting.{PartsMeet};
ghost use Rattle.cell_network.specs.Laws.{Passes, TestsSymbols, RootTellsWords, PullsTellMarks};
ghost use Rattle.cell_network.specs.Examples.{bit, pulled, marked_node, marked_table, marked_run, looped_node, looped_table, looped_run, first_node, second_node, sequence_table, sequence_run, passed_run};

/// In every run of the cells of a normal form OUT of the root tells the words of the tree that are not empty, and the
/// nodes pull the shared wire of an output exactly at the words that the tree marks for it. The letters are input vectors,
/// under the patterns of symbols or under any other test for them.
pub fn cells_tell_the_languages()
    ensures words { (symbols : List NamedPattern) (is : ℕ → Bits → Bool) → TestsSymbols symbols is → RootTellsWords is (MatchesSymbol symbols) }
    ensures marks { (symbols : List NamedPattern) (is : ℕ → Bits → Bool) → TestsSymbols symbols is → PullsTellMarks is (MatchesSymbol symbols) }
    ensures words_of_tests { (is : ℕ → Bits → Bool) → RootTellsWords is (Passes is) }
    ensures marks_of_tests { (is : ℕ → Bits → Bool) → PullsTellMarks is (Passes is) }
{}

/// Runs written out: of `a !z` under a b a, of `(a? !z)*` under a b, and of `(a? !y) b !z` under a b and under b, with what pulls
/// the outputs' shared wires after the reset clock and after each letter.
pub fn runs_written_out()
    ensures marked { CellRun bit marked_table (true ∷ false ∷ true ∷ []) marked_run }
    ensures marked_output { pulled 0 marked_node 0 marked_run ≡ false ∷ true ∷ false ∷ false ∷ [] }
    ensures looped { CellRun bit looped_table (true ∷ false ∷ []) looped_run }
    ensures looped_output { pulled 0 looped_node 0 looped_run ≡ true ∷ true ∷ false ∷ [] }
    ensures sequence { CellRun bit sequence_table (true ∷ false ∷ []) sequence_run }
    ensures first_output { pulled 0 first_node 0 sequence_run ≡ true ∷ true ∷ false ∷ [] }
    ensures second_output { pulled 1 second_node 1 sequence_run ≡ false ∷ false ∷ true ∷ [] }
    ensures passed { CellRun bit sequence_table (false ∷ []) passed_run }
    ensures passed_output { pulled 1 second_node 1 passed_run ≡ false ∷ true ∷ [] }
{}

/// In the whole network of cells each part has the nets of its parent's part at the ports between them.
pub fn parts_meet_at_ports()
    ensures { (counts : Counts) (tree : TreeTable) → IsTree tree → PartsMeet counts tree }
{}
