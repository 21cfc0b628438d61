//! Laws and worked examples of edits, from their lines to what comes of a document.

ghost use Rattle.std.specs.Prelude.{◌≡◌, ◌≤◌, List, [], ◌∷◌, codes, Some, None, Err};
ghost use Rattle.yspec.specs.schema.Schema.{Schema};
ghost use Rattle.yspec.specs.Forest.{size};
ghost use Rattle.yspec.specs.document.Document.{Tree, document_limit};
ghost use Rattle.yspec.specs.document.FaultCode.{V1, V3};
ghost use Rattle.yspec.specs.document.Fitting.{IsNumbered, LeafsAreBare, Fits};
ghost use Rattle.yspec.specs.document.Sorting.{IsSorted};
ghost use Rattle.yspec.specs.document.Writing.{NamesDiffer, IsDocument};
ghost use Rattle.yspec.specs.edit.Editing.{after, applied};
ghost use Rattle.yspec.specs.edit.EditText.{Edit, Path, unsaid, at_position, with_keys, path_of, edit_of, create, replace, remove, move_to};
ghost use Rattle.yspec.specs.edit.Examples.{accepted, at_id, checked_as, checked_lines, edited, edited_under, module_p, module_rows, module_text, refused_as, rows_edited, rows_refused, three_rows, value_refused_as};
ghost use Rattle.yspec.specs.edit.Live.{of_document, of_modules};

/// A document that fits its schema fits it after any edits.
pub fn edited_documents_fit()
    ensures { (schema : Schema) (tree : Tree) (edits : List Edit) → IsNumbered 0 schema.nodes
        → Fits schema tree
        → Fits schema (after schema tree edits) }
{}

/// It does so in its values too, where no two siblings are written with one name and below a leaf stands nothing.
pub fn edited_documents_are_whole()
    ensures { (schema : Schema) (tree : Tree) (edits : List Edit) → IsNumbered 0 schema.nodes
        → NamesDiffer schema → LeafsAreBare schema.nodes
        → IsDocument schema tree → IsDocument schema (after schema tree edits) }
{}

/// Edits keep the order of its rows, whether it fits or not.
pub fn edited_rows_stay_in_order()
    ensures { (schema : Schema) (tree : Tree) (edits : List Edit) → IsNumbered 0 schema.nodes
        → IsSorted tree
        → IsSorted (after schema tree edits) }
{}

/// An edit keeps a document within the limit.
pub fn edited_documents_are_within()
    ensures { (schema : Schema) (tree : Tree) (edits : List Edit) → size tree ≤ document_limit
        → size (after schema tree edits) ≤ document_limit }
{}

/// What texts of paths spell: names, positions and keys; and texts that spell none.
pub fn texts_of_paths()
    ensures names { path_of (codes "/p:c/id")
        ≡ Some (record { name = codes "p:c"; predicate = unsaid }
        ∷ record { name = codes "id"; predicate = unsaid } ∷ []) }
    ensures position { path_of (codes "/p:l[12]/x")
        ≡ Some (record { name = codes "p:l"; predicate = at_position 12 }
        ∷ record { name = codes "x"; predicate = unsaid } ∷ []) }
    ensures far_position { path_of (codes "/p:l[99999999999]")
        ≡ Some (record { name = codes "p:l"; predicate = at_position 4294967295 } ∷ []) }
    ensures keys { path_of (codes "/p:l[a='x/]y'][b=\"'\"]")
        ≡ Some (record {
          name = codes "p:l";
          predicate = with_keys (record { name = codes "a"; text = codes "x/]y" } ∷ record { name = codes "b"; text = codes "'" } ∷ []);
        } ∷ []) }
    ensures position_zero { path_of (codes "/p:l[0]") ≡ None }
    ensures leading_zero { path_of (codes "/p:l[01]") ≡ None }
    ensures two_positions { path_of (codes "/p:l[1][2]") ≡ None }
    ensures prefixed_key { path_of (codes "/p:l[p:a='x']") ≡ None }
    ensures open_quote { path_of (codes "/p:l[a='x]") ≡ None }
    ensures blank { path_of (codes "/p:l[ 1]") ≡ None }
    ensures no_step { path_of (codes "/") ≡ None }
    ensures no_slash { path_of (codes "p:c") ≡ None }
{}

/// What lines of edits spell, and lines that spell none.
pub fn texts_of_edits()
    ensures value { edit_of (codes "create  /p:c  {} ")
        ≡ Some (create (record { name = codes "p:c"; predicate = unsaid } ∷ []) (codes "{} ")) }
    ensures spaces_behind { edit_of (codes "remove /p:c  ")
        ≡ Some (remove (record { name = codes "p:c"; predicate = unsaid } ∷ [])) }
    ensures space_in_a_key { edit_of (codes "replace /p:l[a='x y'] 1")
        ≡ Some (replace (record {
          name = codes "p:l";
          predicate = with_keys
              (record { name = codes "a"; text = codes "x y" } ∷ []);
        } ∷ []) (codes "1")) }
    ensures no_value { edit_of (codes "replace /p:c/id") ≡ None }
    ensures spaces_for_a_value { edit_of (codes "create /p:c   ") ≡ None }
    ensures a_value_too_many { edit_of (codes "remove /p:c {}") ≡ None }
    ensures indented { edit_of (codes " remove /p:c") ≡ None }
    ensures tab { edit_of (codes "remove\t/p:c") ≡ None }
    ensures other_verb { edit_of (codes "merge /p:c 1") ≡ None }
    ensures position_to_move_to { edit_of (codes "move /p:t[2]  3  ")
        ≡ Some (move_to (record { name = codes "p:t"; predicate = at_position 2 } ∷ []) 3) }
    ensures far_position_to_move_to { edit_of (codes "move /p:t[2] 99999999999")
        ≡ Some (move_to (record { name = codes "p:t"; predicate = at_position 2 } ∷ []) 4294967295) }
    ensures no_position_to_move_to { edit_of (codes "move /p:t[2] ") ≡ None }
    ensures position_zero_to_move_to { edit_of (codes "move /p:t[2] 0") ≡ None }
    ensures leading_zero_to_move_to { edit_of (codes "move /p:t[2] 01") ≡ None }
    ensures two_positions_to_move_to { edit_of (codes "move /p:t[2] 1 1") ≡ None }
    ensures sign_to_move_to { edit_of (codes "move /p:t[2] +1") ≡ None }
    ensures quoted_to_move_to { edit_of (codes "move /p:t[2] \"1\"") ≡ None }
{}

/// A leaf and a container replaced, and why they can't be.
pub fn replacements()
    ensures leaf { edited (codes "{\"p:c\":{\"id\":256,\"note\":\"x\"}}") (codes "replace /p:c/id 7"
        ∷ [])
        ≡ accepted (codes "{\"p:c\":{\"id\":7,\"note\":\"x\"}}") }
    ensures container { edited (codes "{\"p:c\":{\"id\":300}}")
        (codes "replace /p:c {\"note\":\"y\"}" ∷ [])
        ≡ accepted (codes "{\"p:c\":{\"note\":\"y\"}}") }
    ensures wrong_kind { edited (codes "{\"p:c\":{\"note\":\"x\"}}") (codes "replace /p:c/note {}"
        ∷ [])
        ≡ value_refused_as 5 (codes "{\"p:c\":{\"note\":\"x\"}}") }
    ensures fraction { edited (codes "{\"p:c\":{\"id\":1}}") (codes "replace /p:c/id 1.5" ∷ [])
        ≡ value_refused_as 6 (codes "{\"p:c\":{\"id\":1}}") }
    ensures unknown_member { edited (codes "{\"p:c\":{}}") (codes "replace /p:c {\"zz\":1}" ∷ [])
        ≡ value_refused_as 3 (codes "{\"p:c\":{}}") }
    ensures no_json { edited (codes "{\"p:c\":{\"id\":1}}") (codes "replace /p:c/id x" ∷ [])
        ≡ refused_as 9 (codes "{\"p:c\":{\"id\":1}}") }
    ensures unknown { edited (codes "{\"p:c\":{\"id\":1}}") (codes "replace /p:c/zz 1" ∷ [])
        ≡ refused_as 2 (codes "{\"p:c\":{\"id\":1}}") }
    ensures unqualified { edited (codes "{\"p:c\":{\"id\":1}}") (codes "replace /c/id 1" ∷ [])
        ≡ refused_as 2 (codes "{\"p:c\":{\"id\":1}}") }
    ensures position { edited (codes "{\"p:c\":{\"id\":1}}") (codes "replace /p:c[1]/id 1" ∷ [])
        ≡ refused_as 3 (codes "{\"p:c\":{\"id\":1}}") }
    ensures name_before_position { edited (codes "{}") (codes "replace /p:c[1]/zz 1" ∷ [])
        ≡ refused_as 2 (codes "{}") }
    ensures nothing_there { edited (codes "{\"p:c\":{\"note\":\"y\"}}") (codes "replace /p:c/id 1"
        ∷ []) ≡ refused_as 7 (codes "{\"p:c\":{\"note\":\"y\"}}") }
    ensures nothing_above { edited (codes "{}") (codes "replace /p:c/id 1" ∷ [])
        ≡ refused_as 4 (codes "{}") }
{}

/// Nodes created and removed: a container stays stored when what is in it goes.
pub fn creations_and_removals()
    ensures in_its_place { edited (codes "{\"p:c\":{\"note\":\"x\"}}") (codes "create /p:c/id 1"
        ∷ [])
        ≡ accepted (codes "{\"p:c\":{\"id\":1,\"note\":\"x\"}}") }
    ensures there_already { edited (codes "{\"p:c\":{}}") (codes "create /p:c {\"id\":1}" ∷ [])
        ≡ refused_as 8 (codes "{\"p:c\":{}}") }
    ensures created_above_nothing { edited (codes "{}") (codes "create /p:c/id 1" ∷ [])
        ≡ refused_as 4 (codes "{}") }
    ensures removed { edited (codes "{\"p:c\":{\"id\":1}}") (codes "remove /p:c/id" ∷ [])
        ≡ accepted (codes "{\"p:c\":{}}") }
    ensures removed_already { edited (codes "{\"p:c\":{}}") (codes "remove /p:c/id" ∷ [])
        ≡ refused_as 7 (codes "{\"p:c\":{}}") }
    ensures one_after_the_other { edited (codes "{}") (codes "create /p:c {}"
        ∷ codes "create /p:c/id 7" ∷ codes "remove /p:c" ∷ [])
        ≡ Some (None ∷ None ∷ None ∷ [], codes "{}") }
{}

/// Entries and items moved up and down, or to where they are, the others in their order; and why they can't be.
pub fn moves()
    ensures up { rows_edited (codes "move /p:l[3] 1" ∷ []) ≡ accepted (three_rows (codes "c") (codes "a") (codes "b")) }
    ensures down { rows_edited (codes "move /p:l[1] 3" ∷ []) ≡ accepted (three_rows (codes "b") (codes "c") (codes "a")) }
    ensures one_down { rows_edited (codes "move /p:l[1] 2" ∷ []) ≡ accepted (three_rows (codes "b") (codes "a") (codes "c")) }
    ensures by_key { rows_edited (codes "move /p:l[k='b'] 1" ∷ []) ≡ accepted (three_rows (codes "b") (codes "a") (codes "c")) }
    ensures where_it_is { rows_edited (codes "move /p:l[2] 2" ∷ []) ≡ accepted (three_rows (codes "a") (codes "b") (codes "c")) }
    ensures item { edited_under module_rows (codes "{\"p:t\":[\"x\",\"y\",\"x\"]}") (codes "move /p:t[2] 3" ∷ [])
        ≡ accepted (codes "{\"p:t\":[\"x\",\"x\",\"y\"]}") }
    ensures within_an_entry { edited_under module_rows (codes "{\"p:l\":[{\"k\":\"a\",\"m\":[1,2]}],\"p:t\":[\"x\"]}")
        (codes "move /p:l[1]/m[2] 1" ∷ [])
        ≡ accepted (codes "{\"p:l\":[{\"k\":\"a\",\"m\":[2,1]}],\"p:t\":[\"x\"]}") }
    ensures past_the_end { rows_edited (codes "move /p:l[k='a'] 4" ∷ []) ≡ rows_refused 5 }
    ensures from_past_the_end { rows_edited (codes "move /p:l[4] 1" ∷ []) ≡ rows_refused 5 }
    ensures no_such_key { rows_edited (codes "move /p:l[k='z'] 1" ∷ []) ≡ rows_refused 7 }
    ensures no_such_key_first { rows_edited (codes "move /p:l[k='z'] 9" ∷ []) ≡ rows_refused 7 }
    ensures two_such_keys { edited_under module_rows (three_rows (codes "a") (codes "b") (codes "a")) (codes "move /p:l[k='a'] 2" ∷ [])
        ≡ refused_as 6 (three_rows (codes "a") (codes "b") (codes "a")) }
    ensures no_predicate { rows_edited (codes "move /p:l 1" ∷ []) ≡ rows_refused 3 }
    ensures container { rows_edited (codes "move /p:c 1" ∷ []) ≡ rows_refused 3 }
    ensures leaf { rows_edited (codes "move /p:l[1]/k 1" ∷ []) ≡ rows_refused 3 }
    ensures leaf_of_no_entry { rows_edited (codes "move /p:l[9]/k 1" ∷ []) ≡ rows_refused 3 }
    ensures unknown { rows_edited (codes "move /p:zz 1" ∷ []) ≡ rows_refused 2 }
    ensures absent_list { rows_edited (codes "move /p:t[1] 1" ∷ []) ≡ rows_refused 5 }
    ensures above_nothing { rows_edited (codes "move /p:l[k='z']/m[1] 1" ∷ []) ≡ rows_refused 4 }
    ensures position_zero { (schema : Schema) (tree : Tree) (path : Path) → applied schema tree (move_to path 0)
        ≡ Err (record { code = 1; document_code = None }) }
{}

/// What comes of edits of a document, and its faults after them; and a document and a module that are refused.
pub fn edits_checked()
    ensures mended { checked_lines module_p (codes "{\"p:c\":{\"id\":256}}")
        (codes "replace /p:c/id 7" ∷ []) ≡ checked_as (None ∷ []) [] }
    ensures spoiled { checked_lines module_p (codes "{\"p:c\":{\"id\":7}}")
        (codes "replace /p:c/id 300" ∷ codes "replace /p:c {}" ∷ codes "replace /p:c/id {}" ∷ [])
        ≡ checked_as (None ∷ None ∷ Some (record { code = 7; document_code = None }) ∷ []) (at_id V3
        ∷ []) }
    ensures refused_value { checked_lines module_p (codes "{\"p:c\":{\"id\":256}}")
        (codes "replace /p:c/id {}" ∷ [])
        ≡ checked_as (Some (record { code = 10; document_code = Some 5 }) ∷ []) (at_id V1 ∷ []) }
    ensures no_edits { checked_lines module_p (codes "{}") [] ≡ checked_as [] (at_id V3 ∷ []) }
    ensures refused_document { checked_lines module_p (codes "[]") []
        ≡ Some (Err (of_document (record { code = 2; place = [] }))) }
    ensures refused_module { checked_lines (module_text (codes "p") (codes "  leaf x;\n"))
        (codes "[]") []
        ≡ Some (Err (of_modules (record { code = 2; module_number = 0; line = 5 }))) }
{}
