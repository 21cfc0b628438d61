//! Worked examples of what hangs in a store.

ghost use Rattle.std.specs.Prelude.{◌≡◌, [], ◌∷◌, codes, Some, None};
ghost use Rattle.yspec.specs.Forest.{end, node};
ghost use Rattle.yspec.specs.types.Types.{text, empty};
ghost use Rattle.ystore.specs.Store.{children_at, held_at};
ghost use Rattle.ystore_rows.specs.declared.row.Row.TheVariants.{Top, Below};
ghost use Rattle.ystore.specs.declared.nodes.Nodes.{Nodes};
ghost use Rattle.ystore_tree.specs.Hanging.{Hangs, child_of, shape_at, shape_of, times, tree_of};
ghost use Rattle.ystore_tree.specs.Changes.{with_node, with_node_at};
ghost use Rattle.ystore_tree.specs.Copies.{ids_of, laid};
ghost use Rattle.ystore_tree.specs.Ways.{around, end_of};
ghost use Rattle.ystore_tree.specs.Worked.{container, leaf, item, other, rows_below, tree, inner};

/// What is held of a container with a leaf and two items, where it hangs on the top, and where it doesn't.
pub fn hanging_trees()
    ensures hangs { (nodes : Nodes) → children_at nodes Top ≡ child_of container ∷ []
        → shape_at nodes inner ≡ Some (shape_of Top container rows_below)
        → shape_at nodes (Below leaf.id) ≡ Some (shape_of inner leaf end)
        → shape_at nodes (Below item.id) ≡ Some (shape_of inner item end)
        → shape_at nodes (Below other.id) ≡ Some (shape_of inner other end) → Hangs nodes Top tree }
    ensures another_parent { (nodes : Nodes) → shape_at nodes (Below item.id) ≡ Some (shape_of Top item end)
        → Hangs nodes Top tree → ⊥ }
    ensures not_there { (nodes : Nodes) → held_at nodes (Below other.id) ≡ None → Hangs nodes Top tree → ⊥ }
{}

/// The document that it is, its numbers, and changes of its row.
pub fn worked_trees()
    ensures document { tree_of tree
        ≡ node (record { schema_number = 1; value = None }) (node (record { schema_number = 2; value = Some empty }) end
        (node (record { schema_number = 3; value = Some (text (codes "a")) }) end
        (node (record { schema_number = 3; value = Some (text (codes "b")) }) end end))) end }
    ensures numbers { ids_of tree ≡ container.id ∷ leaf.id ∷ item.id ∷ other.id ∷ [] }
    ensures there { times 5 tree ≡ 1 }
    ensures nowhere { times 6 tree ≡ 0 }
    ensures added { with_node item end (node container end (node leaf end (node other end end)))
        ≡ node container end (node leaf end (node other end (node item end end))) }
    ensures first { with_node leaf end (node item end end) ≡ node leaf end (node item end end) }
    ensures moved { with_node_at 0 other end (node leaf end (node item end end))
        ≡ node leaf end (node other end (node item end end)) }
    ensures laid { laid (node item end (node other end (node leaf end end))) ≡ rows_below }
    ensures way { around (record { before = end; label = container; after = end } ∷ []) rows_below ≡ tree }
    ensures row { end_of Top (record { before = end; label = container; after = end } ∷ []) ≡ inner }
{}
