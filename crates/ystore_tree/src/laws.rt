//! Laws of what hangs in a store.

ghost use Rattle.std.specs.Prelude.{◌≡◌, ◌<◌, ◌-◌, ◌++◌, ◌∷◌, [], length, slice_get, ℕ, List, Option, Some, None, option_map};
ghost use Rattle.yspec.specs.Forest.{end, node, join};
ghost use Rattle.yspec.specs.document.Document.{Stored, Tree, Step, instances_in};
ghost use Rattle.yspec.specs.document.Sorting.{IsSorted};
ghost use Rattle.yspec.specs.edit.Edit.{edit_at, instance_index};
ghost use Rattle.yspec.specs.edit.Editing.{with_branch, with_instead, with_moved, without};
ghost use Rattle.yschema_model.specs.declared.node.SchemaId.{SchemaId};
ghost use Rattle.ystore_rows.specs.Rows.{added, put, without_at, shifted, of_schema};
ghost use Rattle.ystore.specs.Held.{Label, Told, new_held, with_children, with_told, with_total, with_room};
ghost use Rattle.ystore.specs.Entries.{Entry};
ghost use Rattle.ystore.specs.Store.{children_at, ChangesRow, ChangesEntry, CountsOne, Stays};
ghost use Rattle.ystore.specs.declared.key.Key.{Key};
ghost use Rattle.ystore_rows.specs.declared.row.NodeId.{NodeId};
ghost use Rattle.ystore_rows.specs.declared.row.Row.{Row};
ghost use Rattle.ystore_rows.specs.declared.row.Row.TheVariants.{Top, Below};
ghost use Rattle.ystore.specs.declared.nodes.Nodes.{Nodes};
ghost use Rattle.ystore_tree.specs.Hanging.{Numbered, Branches, Stands, Hangs, Keeps, Holds, shape_at, times, child_of, stored_of, tree_of};
ghost use Rattle.ystore_tree.specs.Ways.{Frame, Way, Goes, Found, around, end_of};
ghost use Rattle.ystore_tree.specs.Changes.{SameShapes, with_node, with_node_at};
ghost use Rattle.ystore_tree.specs.Copies.{ids_of, laid};
ghost use Rattle.ystore_tree.specs.Growing.{Grows, Inserts, Removes};

/// A forest stands in a store as long as the shapes of its nodes stay.
pub fn kept_forests()
    ensures forests { (before after : Nodes) (above : Row) (f : Branches) → ((id : NodeId) → 0 < times id.0 f
        → shape_at after (Below id) ≡ shape_at before (Below id))
        → Stands before above f → Stands after above f }
    ensures trees { (before after : Nodes) (tree : Branches) (above : Row) (loose : Branches) → SameShapes before after
        → Keeps before tree above loose → Keeps after tree above loose }
    ensures documents { (before after : Nodes) (tree : Tree) → SameShapes before after
        → Holds before tree → Holds after tree }
{}

/// What is told, totals, room for children, entries of the index and reads leave all shapes.
pub fn kept_shapes()
    ensures told { (above : Row) (before after : Nodes) (change : Told → Told)
        → ChangesRow above (option_map (with_told change)) before after → SameShapes before after }
    ensures total { (above : Row) (before after : Nodes) (change : ℕ → ℕ)
        → ChangesRow above (option_map (with_total change)) before after → SameShapes before after }
    ensures room { (above : Row) (before after : Nodes) (room : ℕ)
        → ChangesRow above (option_map (with_room room)) before after → SameShapes before after }
    ensures entries { (key : Key) (change : Option Entry → Option Entry) (before after : Nodes)
        → ChangesEntry key change before after → SameShapes before after }
    ensures growth { (before after : Nodes) → Stays before after → SameShapes before after }
    ensures reads { (before after : Nodes) → CountsOne before after → SameShapes before after }
{}

/// A row of the tree changes, wherever it stands, as the store's list of it does; what is taken out of it stays beside the
/// tree with all that hangs on it, and what is put in no longer stands there.
pub fn changed_trees()
    ensures added { (before after : Nodes) (way : Way) (f : Branches) (n : Numbered) (below : Branches)
        → Keeps before (around way f) (end_of Top way) (node n below end)
        → ChangesRow (end_of Top way) (option_map (with_children (added (child_of n)))) before after
        → Keeps after (around way (with_node n below f)) (end_of Top way) end }
    ensures put { (before after : Nodes) (way : Way) (first rest : Branches) (m : Numbered) (under : Branches) (n : Numbered) (below : Branches)
        → Keeps before (around way (join first (node m under rest))) (end_of Top way) (node n below end)
        → m.schema ≡ n.schema
        → ChangesRow (end_of Top way) (option_map (with_children (put (child_of m) n.id))) before after
        → Keeps after (around way (join first (node n below rest))) (end_of Top way) (node m under end) }
    ensures taken { (before after : Nodes) (way : Way) (first rest : Branches) (m : Numbered) (under : Branches)
        → Keeps before (around way (join first (node m under rest))) (end_of Top way) end
        → ChangesRow (end_of Top way) (option_map (with_children (without_at m.schema (instances_in (tree_of first) m.schema.0)))) before after
        → Keeps after (around way (join first rest)) (end_of Top way) (node m under end) }
    ensures moved { (before after : Nodes) (way : Way) (first rest : Branches) (m : Numbered) (under : Branches) (place : ℕ) (loose : Branches)
        → Keeps before (around way (join first (node m under rest))) (end_of Top way) loose
        → ChangesRow (end_of Top way) (option_map (with_children (shifted m.schema (instances_in (tree_of first) m.schema.0) place))) before after
        → Keeps after (around way (with_node_at place m under (join first rest))) (end_of Top way) loose }
{}

/// What is put into a store beside its tree stands there, and what is given back is gone; the tree hangs on the top as it did.
pub fn nodes_beside_trees()
    ensures put_in { (before after : Nodes) (above : Row) (id : NodeId) (label : Stored) (below : Tree) (had has : List NodeId) (tree : Branches)
        → (made : Inserts above id label below before after had has) → Keeps before tree Top end
        → Keeps after tree above (node made.root (laid made.branches) end) }
    ensures given_back { (before after : Nodes) (tree : Branches) (above : Row) (loose : Branches)
        → Keeps before tree above loose → Removes (ids_of loose) before after → Keeps after tree above end }
    ensures left_behind { (before after : Nodes) (above : Row) (f : Branches) → Grows before after
        → Hangs before Top f → Hangs after Top f }
    ensures in_order { (f : Branches) → IsSorted (tree_of f) → laid f ≡ f }
{}

/// What a change of a numbered row is to documents: a branch behind those of its schema node and earlier ones, or at a place
/// of a row; or a node of a row at another place among those of its schema node.
pub fn changed_documents()
    ensures added { (n : Numbered) (below f : Branches) → tree_of (with_node n below f)
        ≡ with_branch (record { label = stored_of n; below = tree_of below }) (tree_of f) }
    ensures joined { (f g : Branches) → tree_of (join f g) ≡ join (tree_of f) (tree_of g) }
    ensures put { (step : Step) (first rest : Branches) (m : Numbered) (under : Branches) (n : Numbered) (below : Branches)
        → m.schema.0 ≡ step.schema_number → instances_in (tree_of first) step.schema_number ≡ instance_index step
        → with_instead step (record { label = stored_of n; below = tree_of below }) (tree_of (join first (node m under rest)))
        ≡ tree_of (join first (node n below rest)) }
    ensures taken { (step : Step) (first rest : Branches) (m : Numbered) (under : Branches)
        → m.schema.0 ≡ step.schema_number → instances_in (tree_of first) step.schema_number ≡ instance_index step
        → without step (tree_of (join first (node m under rest))) ≡ tree_of (join first rest) }
    ensures moved { (step : Step) (position : ℕ) (first rest : Branches) (m : Numbered) (under : Branches)
        → IsSorted (tree_of (join first (node m under rest)))
        → m.schema.0 ≡ step.schema_number → instances_in (tree_of first) step.schema_number ≡ instance_index step
        → with_moved step position (tree_of (join first (node m under rest)))
        ≡ tree_of (with_node_at (position - 1) m under (join first rest)) }
    ensures along { (steps : List Step) (way : Way) (change : Tree → Tree) (f g : Branches) → Goes steps way
        → change (tree_of f) ≡ tree_of g → edit_at steps change (tree_of (around way f)) ≡ tree_of (around way g) }
{}

/// A child that is found by its schema node and an index is the one that the definition's steps mean, and its row is a step
/// further; what hangs on the row at the end of a way is what stands there.
pub fn found_children()
    ensures found { (nodes : Nodes) (above : Row) (f : Branches) (s : SchemaId) (index : ℕ) (id : NodeId)
        → Hangs nodes above f → slice_get (of_schema s (children_at nodes above)) index ≡ Some id
        → Found s index id f }
    ensures count { (nodes : Nodes) (above : Row) (f : Branches) (s : SchemaId) → Hangs nodes above f
        → length (of_schema s (children_at nodes above)) ≡ instances_in (tree_of f) s.0 }
    ensures row { (nodes : Nodes) (above : Row) (way : Way) (f : Branches)
        → Hangs nodes above (around way f) → Hangs nodes (end_of above way) f }
    ensures further { (way : Way) (frame : Frame) (f : Branches) → around (way ++ frame ∷ []) f
        ≡ around way (join frame.before (node frame.label f frame.after)) }
    ensures ends { (above : Row) (way : Way) (frame : Frame)
        → end_of above (way ++ frame ∷ []) ≡ Below frame.label.id }
    ensures steps { (steps : List Step) (way : Way) (step : Step) (frame : Frame) → Goes steps way
        → frame.label.schema.0 ≡ step.schema_number
        → instances_in (tree_of frame.before) step.schema_number ≡ instance_index step
        → Goes (steps ++ step ∷ []) (way ++ frame ∷ []) }
{}
