//! Laws of the parts of edits.

ghost use Rattle.std.specs.Prelude.{◌≡◌, ◌≤◌, ◌==◌, ◌+◌, ℕ, List, Ok, Err, true, false};
ghost use Rattle.std.specs.List.{list_all};
ghost use Rattle.yspec.specs.Forest.{weigh};
ghost use Rattle.yspec.specs.text.Text.{Text};
ghost use Rattle.yspec.specs.schema.Schema.{Schema};
ghost use Rattle.yspec.specs.document.Document.{Stored, Tree};
ghost use Rattle.yspec.specs.edit.EditText.{Edit, Path, create, replace, remove, move_to};
ghost use Rattle.yspec.specs.edit.Editing.{EditRefusal, applied};
ghost use Rattle.yspec_reach.specs.Parts.{Exchange, exchange_of, outside, tree_with, tree_within};
ghost use Rattle.yspec_reach.specs.Referring.{Reference, are_distinct, referring};
ghost use Rattle.yspec_reach.specs.Shared.{is_shared_value, value_pairs};

/// An edit exchanges its parts, and is refused where it has none; else for the number of nodes alone.
pub fn edits_by_parts()
    ensures created { (schema : Schema) (tree : Tree) (path : Path) (text : Text)
        → applied schema tree (create path text)
        ≡ tree_within tree (exchange_of schema tree (create path text)) }
    ensures replaced { (schema : Schema) (tree : Tree) (path : Path) (text : Text)
        → applied schema tree (replace path text)
        ≡ tree_within tree (exchange_of schema tree (replace path text)) }
    ensures removed { (schema : Schema) (tree : Tree) (path : Path)
        → applied schema tree (remove path)
        ≡ tree_with tree (exchange_of schema tree (remove path)) }
    ensures moved { (schema : Schema) (tree : Tree) (path : Path) (position : ℕ)
        → applied schema tree (move_to path position)
        ≡ tree_with tree (exchange_of schema tree (move_to path position)) }
{}

/// Where an edit has no parts, that isn't for the number of nodes.
pub fn parts_beyond_the_limit()
    ensures { (schema : Schema) (tree : Tree) (edit : Edit) (refusal : EditRefusal)
        → exchange_of schema tree edit ≡ Err refusal → (refusal.code == 11) ≡ false }
{}

/// What stands outside the parts of an edit, with what it takes away, is what was there: so is any sum over labels.
pub fn parts_of_documents()
    ensures { (weight : Stored → ℕ) (schema : Schema) (tree : Tree) (edit : Edit) (x : Exchange)
        → exchange_of schema tree edit ≡ Ok x
        → weigh weight tree ≡ weigh weight (outside x tree) + weigh weight x.old }
{}

/// Different values that are shared have, outside the parts, no more nodes that refer to them than are counted: what is told anew of
/// each node that refers to one of them is paid for.
pub fn references_to_shared_values()
    ensures { (schema : Schema) (x : Exchange) (tree : Tree) (values : List Reference)
        → list_all (λ r. is_shared_value schema x r.0 r.1) values ≡ true → are_distinct values ≡ true
        → referring schema values (outside x tree) ≤ value_pairs schema x tree }
{}
