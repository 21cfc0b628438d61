//! Keys that are the same, and how often values are given.

ghost use Rattle.std.specs.Prelude.{◌≡◌, ◌↔◌, ◌==◌, ℕ, suc, ◌≤◌, ◌<◌, List, [], length, map, Some, None, true, count_by, IsTrue, if◌then◌else◌};
ghost use Rattle.std.specs.Option.{option_map_or};
ghost use Rattle.yspec.specs.Forest.{Forest};
ghost use Rattle.yspec.specs.types.Types.{Val};
ghost use Rattle.yspec.specs.schema.Schema.{Schema, SchemaNode, keys_in, node_at};
ghost use Rattle.yspec.specs.document.Document.{Stored, Tree, instances_in};
ghost use Rattle.yspec.specs.document.Instances.{Tuple, value_of, is_value, times_below, tuples_in, items_in};
ghost use Rattle.yspec.specs.document.Faults.{Times, RowTimes, faults_at};
ghost use Rattle.yspec.specs.edit.EditText as edit;
ghost use Rattle.yspec.specs.edit.Editing.{key_text, fits_keys, positions_where};
ghost use Rattle.yspec_play.specs.Absences.{defaults_in, is_default};
ghost use Rattle.ystore.specs.Store.{same_key};
ghost use Rattle.ystore_rows.specs.declared.row.Row.{Row};
ghost use Rattle.ylive_facts.specs.Given.{is_referred, own_values, referred};
ghost use Rattle.ylive_facts.specs.Keys as words;
ghost use Rattle.ylive_facts.specs.Telling as telling;

/// Keys are the same where all that they hold is the same: then a view shows them as one.
pub fn viewed_keys()
    ensures same { (k : _) → (l : _) → same_key k l ≡ words.same (words.key_view k) (words.key_view l) }
    ensures told_apart { (k : _) → (l : _) → IsTrue (same_key k l) ↔ (words.key_view k ≡ words.key_view l) }
    ensures turned { (k : _) → (l : _) → same_key k l ≡ true → same_key l k ≡ true }
    ensures alike { (k : _) → (l : _) → (other : _) → same_key k l ≡ true → same_key k other ≡ same_key l other }
{}

/// A value of a schema node that is referred to is given as often as instances have it: by a stored node, and by the
/// defaults in use in a row.
pub fn given_values()
    ensures own { (schema : Schema) (number : ℕ) (v : Val) (s : Stored) → is_referred schema number ≡ true
        → count_by (is_default number v) (referred schema (own_values schema s))
        ≡ (if s.schema_number == number then (if is_value v (value_of schema s) then 1 else 0) else 0) }
    ensures below { (schema : Schema) (number : ℕ) (v : Val) (children : Forest SchemaNode) (below : Tree) → is_referred schema number ≡ true
        → count_by (is_default number v) (referred schema (defaults_in (instances_in below) [] children))
        ≡ times_below schema number v children below }
{}

/// A node has the keys of a slot at that slot, and none behind its flags; the key of a value that it has is of what it
/// refers to; as many nodes of a row have a tuple, or an item's value, as are counted of the row.
pub fn held_keys()
    ensures slots { (schema : Schema) (above : Row) (s : Stored) (below : Tree) (slot : ℕ) (key : words.Key)
        → words.key_at schema above s below slot ≡ Some key → words.slot_of key ≡ Some slot }
    ensures few { (schema : Schema) (above : Row) (s : Stored) (below : Tree) (slot : ℕ) → words.slots_of schema s.schema_number ≤ slot
        → words.key_at schema above s below slot ≡ None }
    ensures references { (schema : Schema) (above : Row) (s : Stored) (below : Tree) (key : words.Key)
        → words.reference_key schema s ≡ Some key → words.key_at schema above s below 0 ≡ Some key }
    ensures values { (schema : Schema) (above : Row) (s : Stored) (below : Tree) (target : ℕ) (v : Val)
        → words.key_at schema above s below 0 ≡ Some (words.value_key target v)
        → words.reference_key schema s ≡ Some (words.value_key target v) }
    ensures tuples { (schema : Schema) (above : Row) (t : Tree) (number u : ℕ) (vs : Tuple)
        → words.times_held schema above t (suc u) (words.tuple_key above number u vs) ≡ tuples_in schema t number u vs }
    ensures items { (schema : Schema) (above : Row) (t : Tree) (number : ℕ) (v : Val) → words.is_item schema number ≡ true
        → words.times_held schema above t 1 (words.item_key above number v) ≡ items_in schema t number v }
{}

/// An entry of a list that has a key fits the keys of a path exactly where it holds the key of their texts, and as many
/// nodes of a row hold that as entries fit the keys.
pub fn found_entries()
    ensures fits { (schema : Schema) (above : Row) (s : Stored) (below : Tree) (n : SchemaNode) (keys : List edit.Key)
        → node_at schema s.schema_number ≡ Some n → 0 < length (keys_in n.kind)
        → fits_keys schema (keys_in n.kind) keys below
        ≡ words.is_held (words.texts_key above s.schema_number (map (key_text keys schema) (keys_in n.kind)))
        (words.key_at schema above s below 0) }
    ensures positions { (schema : Schema) (above : Row) (t : Tree) (number : ℕ) (n : SchemaNode) (keys : List edit.Key)
        → node_at schema number ≡ Some n → 0 < length (keys_in n.kind)
        → length (positions_where number (fits_keys schema (keys_in n.kind) keys) 1 t)
        ≡ words.times_held schema above t 0 (words.texts_key above number (map (key_text keys schema) (keys_in n.kind))) }
{}

/// The faults at a node are what its type says of its value, what it refers to, and a flag for each key that another node of
/// its row has too.
pub fn told_nodes()
    ensures { (times : Times) (row : RowTimes) (schema : Schema) (above : Row) (s : Stored) (below : Tree)
        → faults_at times row schema s below
        ≡ option_map_or (λ n. telling.told_faults n (telling.judged_at (telling.times_of times row) schema s)
        (telling.flags_at (telling.times_of times row) schema above s below)) (node_at schema s.schema_number) [] }
{}
