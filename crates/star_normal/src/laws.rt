//! Laws of the normal form of expressions. Each is the contract of a function that does nothing.
//! The letters are input vectors under any table of symbols, and the occurrences of symbols.

ghost use Rattle.std.specs.Prelude.{◌≡◌, ◌⊎◌, ◌+◌, ◌*◌, ◌↔◌, ℕ, Bool, ◌≤◌, true, false, IsTrue, Some, None, List, [], ◌∷◌, ◌++◌, length, map, flat_map, count_by, slice_get};
ghost use Rattle.rx_lang.specs.Expression.{Expr, marked, optional};
ghost use Rattle.rx_lang.specs.Copies.{IsItself, all_numbered, copied, occurrences};
ghost use Rattle.rx_lang.specs.Meaning.{Spells};
ghost use Rattle.rx_lang.specs.Specification.{NamedPattern, MatchesSymbol};
ghost use Rattle.star_normal.specs.Trees.{FlaggedTree, leaf, alt, leaves};
ghost use Rattle.star_normal.specs.Normal.{bare, emptied, held, marking, normal, normal_form, nullable, scanned};
ghost use Rattle.star_normal.specs.Shapes.{strip, AreStripped, IsExact, size, tree_numbered, rest_part, scan_part};
ghost use Rattle.star_normal.specs.declared.node.Node.{Node};
ghost use Rattle.star_normal.specs.declared.node.NodeKind.{NodeKind};
ghost use Rattle.star_normal.specs.Tables.{TreeTable, IsTree, is_leaf, parts, whole};
ghost use Rattle.star_normal.specs.Sizes.{size_at, light_child, heavy_child, ShareLeaves};
ghost use Rattle.star_normal.specs.Laws.{HasLanguages, PartHasWords};
ghost use Rattle.star_normal.specs.Examples.{a, b, c, plain_rows, loop_rows, marked_rows, repeat_rows, weighed_nodes};

/// The normal form of statements spells and marks what some of them does, the words of scans beginning at any time. Where
/// each occurrence is a letter of its own the scan node has the words of the scans, and the rest of the tree those of the others.
pub fn normal_forms_have_the_languages()
    ensures vectors { (symbols : List NamedPattern) (es scans : List Expr) → 1 ≤ length (es ++ scans)
        → HasLanguages (MatchesSymbol symbols) (map copied es) (map copied scans) (normal_form (map copied es) (map copied scans)) }
    ensures occurrences { (es scans : List Expr) → 1 ≤ length (es ++ scans)
        → PartHasWords IsItself (all_numbered 0 (map copied es)) (rest_part (tree_numbered 0 (normal_form (map copied es) (map copied scans)))) }
    ensures scan_occurrences { (es scans : List Expr) → 1 ≤ length (es ++ scans)
        → PartHasWords IsItself (all_numbered (length (flat_map occurrences (map copied es))) (map copied scans))
        (scan_part (tree_numbered 0 (normal_form (map copied es) (map copied scans)))) }
{}

/// The leaves from left to right are the occurrences in the order of the text, and a tree with n leaves has 2n - 1 nodes.
pub fn leaves_are_the_occurrences()
    ensures leaves { (es scans : List Expr) → 1 ≤ length (es ++ scans)
        → leaves (normal_form (map copied es) (map copied scans)) ≡ flat_map occurrences (map copied es ++ map copied scans) }
    ensures nodes { (t : FlaggedTree) → size t + 1 ≡ 2 * length (leaves t) }
{}

/// The base of each loop of a normal form is its own strip, and no expression that is its own strip spells the empty word.
pub fn no_loop_stands_over_the_empty_word()
    ensures stripped { (e : Expr) → AreStripped (normal false (copied e)) }
    ensures full { (e : Expr) → strip e ≡ e → nullable e ≡ false }
    ensures vectors { (symbols : List NamedPattern) (e : Expr) → IsTrue (nullable (copied e)) ↔ Spells (MatchesSymbol symbols) (copied e) [] }
    ensures occurrences { (e : Expr) → IsTrue (nullable (copied e)) ↔ Spells IsItself (copied e) [] }
{}

/// At every node of a normal form the flag of the empty word tells whether the node spells it.
pub fn flags_of_the_empty_word_are_exact()
    ensures vectors { (symbols : List NamedPattern) (e : Expr) → IsExact (MatchesSymbol symbols) (normal false (copied e)) }
    ensures occurrences { (e : Expr) → IsExact IsItself (normal false (copied e)) }
{}

/// The normal forms of expressions, written out: without loops, with loops, with marks, and with counted repeats. Last, those of
/// statements with scans.
pub fn normal_forms_written_out()
    ensures plain { map (λ row. normal false (copied row.expr)) plain_rows ≡ map (λ row. row.form) plain_rows }
    ensures loops { map (λ row. normal false (copied row.expr)) loop_rows ≡ map (λ row. row.form) loop_rows }
    ensures marks { map (λ row. normal false (copied row.expr)) marked_rows ≡ map (λ row. row.form) marked_rows }
    ensures repeats { map (λ row. normal false (copied row.expr)) repeat_rows ≡ map (λ row. row.form) repeat_rows }
    ensures scan { normal_form [] (marked (optional a) 0 ∷ []) ≡ scanned (leaf (marking 0 true (emptied bare)) 0) }
    ensures both { normal_form (a ∷ b ∷ []) (optional c ∷ []) ≡ alt (held true) (alt bare (leaf bare 0) (leaf bare 1)) (scanned (leaf (emptied bare) 2)) }
{}

/// A tree has the leaves of its table, and with n leaves the table has 2n - 1 nodes.
pub fn tables_have_the_leaves_of_their_trees()
    ensures leaves { (table : TreeTable) → IsTree table → count_by (λ node. is_leaf node.kind) table.nodes ≡ length (leaves (whole table)) }
    ensures nodes { (table : TreeTable) → IsTree table → length table.nodes + 1 ≡ 2 * count_by (λ node. is_leaf node.kind) table.nodes }
{}

/// The light child and the heavy child of a node are its parts, the left one light where both have as many leaves. The light
/// one has no more leaves than the heavy one, and together they have those of the node. Last, those of the nodes of
/// `(a b | c) | a` are written out.
pub fn light_children_have_fewer_leaves()
    ensures parts { (size : ℕ → ℕ) (kind : NodeKind) (light heavy : ℕ) → light_child size kind ≡ Some light → heavy_child size kind ≡ Some heavy
        → (parts kind ≡ light ∷ heavy ∷ []) ⊎ (parts kind ≡ heavy ∷ light ∷ []) }
    ensures tie { (size : ℕ → ℕ) (kind : NodeKind) (light heavy : ℕ) → light_child size kind ≡ Some light → heavy_child size kind ≡ Some heavy
        → size light ≡ size heavy → parts kind ≡ light ∷ heavy ∷ [] }
    ensures share { (table : TreeTable) → IsTree table → (k light heavy : ℕ) (node : Node) → slice_get table.nodes k ≡ Some node
        → light_child (size_at table.nodes) node.kind ≡ Some light → heavy_child (size_at table.nodes) node.kind ≡ Some heavy → ShareLeaves table.nodes k light heavy }
    ensures light { map (λ node. light_child (size_at weighed_nodes) node.kind) weighed_nodes ≡ None ∷ None ∷ Some 0 ∷ None ∷ Some 3 ∷ None ∷ Some 5 ∷ [] }
    ensures heavy { map (λ node. heavy_child (size_at weighed_nodes) node.kind) weighed_nodes ≡ None ∷ None ∷ Some 1 ∷ None ∷ Some 2 ∷ None ∷ Some 4 ∷ [] }
{}
