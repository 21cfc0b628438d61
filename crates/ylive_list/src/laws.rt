//! Laws of stores that tell of a document.

ghost use Rattle.std.specs.Prelude.{◌≡◌, ◌≤◌, ◌++◌, ◌+◌, [], ℕ, false, Option, Some, length, get_or, map, List};
ghost use Rattle.std.specs.Iterator.{Drains, Yields, YieldsFirstBy};
ghost use Rattle.std.specs.Option.{option_map_or};
ghost use Rattle.yspec.specs.Forest.{size};
ghost use Rattle.yspec.specs.types.Types.{Raw};
ghost use Rattle.yspec.specs.schema.Schema.{Kind, Schema, SchemaNode, has_value, node_at};
ghost use Rattle.yspec.specs.document.Fitting.{Fits, IsNumbered};
ghost use Rattle.yspec.specs.document.Instances.{Tuple, tuple};
ghost use Rattle.yspec.specs.document.Faults.{Times, RowTimes, faults_at, faults_of, own_faults};
ghost use Rattle.ycheck.specs.Walk.{marks_told, value_told};
ghost use Rattle.yspec_fit.specs.Fit.{CasesInChoices};
ghost use Rattle.yspec_play.specs.Merging.{listed};
ghost use Rattle.ystore.specs.Store.{node_count, play_at, same_at, total_at};
ghost use Rattle.ystore.specs.declared.nodes.Nodes.{Nodes};
ghost use Rattle.ystore_rows.specs.declared.row.Row.TheVariants.{Top};
ghost use Rattle.ystore_tree.specs.Hanging.{Branches, Hangs, Numbered, child_of, stored_of, tree_of};
ghost use Rattle.ylive_list.specs.Listed.{judged_at, judged_told, list_told, own_told};
ghost use Rattle.ylive_list.specs.Seen.{seen_view};
ghost use Rattle.ylive_list.specs.Telling.{Tells, all_told, is_same, same_of};
ghost use Rattle.ylive_list.specs.Walked.{left};
ghost use Rattle.ylive_list.specs.declared.seen.Seen.{Seen};
ghost use Rattle.ylive_list.specs.declared.walk.Walk.{Walk};

/// What a store lists, where it holds of each node what is told there, is the list of its document's faults, and where the
/// document fits, these are all; then the total of the top is how many they are.
pub fn told_documents()
    ensures listed { (schema : Schema) (nodes : Nodes) (f : Branches) → Hangs nodes Top f
        → size f ≤ node_count nodes → Tells schema nodes f
        → list_told schema nodes ≡ listed schema (tree_of f) }
    ensures faults { (schema : Schema) (nodes : Nodes) (f : Branches) → Hangs nodes Top f
        → size f ≤ node_count nodes → Tells schema nodes f → IsNumbered 0 schema.nodes
        → CasesInChoices false schema.nodes → Fits schema (tree_of f)
        → list_told schema nodes ≡ faults_of schema (tree_of f) }
    ensures total { (schema : Schema) (nodes : Nodes) (f : Branches) → Tells schema nodes f
        → total_at nodes Top ≡ length (play_at nodes Top) + all_told nodes f
        → IsNumbered 0 schema.nodes → CasesInChoices false schema.nodes
        → Fits schema (tree_of f) → total_at nodes Top ≡ length (faults_of schema (tree_of f)) }
{}

/// The faults at a node are those of its value, and those of what others have too.
pub fn parted_faults()
    ensures { (times : Times) (row : RowTimes) (n : SchemaNode) (kind : Kind) (value : Option Raw) (tuples : ℕ
        → Option Tuple)
        → own_faults times row n kind value tuples ≡ value_told times kind value
        ++ marks_told (has_value kind) 0 (same_of row n kind value tuples) }
{}

/// So a store holds what is told at a node where it holds what is told of its value, and of each question, by its number,
/// whether others have the same.
pub fn told_nodes()
    ensures { (times : Times) (row : RowTimes) (schema : Schema) (nodes : Nodes) (n : Numbered) (below : Branches) (m : SchemaNode)
        → node_at schema n.schema.0 ≡ Some m
        → option_map_or judged_told (judged_at nodes n.id) [] ≡ value_told times m.kind n.value
        → ((u : ℕ) → get_or (same_at nodes n.id) u false
        ≡ is_same row m m.kind n.value (tuple schema (stored_of n) (tree_of below)) u)
        → own_told schema nodes (child_of n) ≡ faults_at times row schema (stored_of n) (tree_of below) }
{}

/// What calls of a walk have given are the first of the faults that were left, and those of which it gave nothing more are all.
pub fn walked_faults()
    ensures first { (before after : Walk) (seen : List Seen) → Yields (YieldsFirstBy seen_view left) before seen after
        → left before ≡ map seen_view seen ++ left after }
    ensures all { (before : Walk) (seen : List Seen) → Drains (YieldsFirstBy seen_view left) before seen
        → left before ≡ map seen_view seen }
{}
