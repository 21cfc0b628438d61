//! A worked example of the keys that nodes hold.

ghost use Rattle.std.specs.Prelude.{◌≡◌, [], ◌∷◌, codes, pos, Some, None};
ghost use Rattle.yspec.specs.Forest.{end};
ghost use Rattle.yspec.specs.types.Types.{int};
ghost use Rattle.ystore_rows.specs.declared.row.Row.TheVariants.{Top};
ghost use Rattle.ylive_facts.specs.Keys.{held_by, key_at, texts_key, tuple_key, value_key};
ghost use Rattle.ylive_facts.specs.Worked.{schema, stored, keyless, seven, whole, word, wordless, wrong};

/// By what paths find entries of lists with a key and without one, what else such an entry holds, and to what a leaf
/// refers.
pub fn worked_keys()
    ensures entry { held_by schema Top (stored 0 None) whole
        ≡ texts_key Top 0 (codes "a" ∷ codes "7" ∷ []) ∷ tuple_key Top 0 0 (word ∷ seven ∷ []) ∷ [] }
    ensures wordless { key_at schema Top (stored 0 None) wordless 0 ≡ None }
    ensures wrong { key_at schema Top (stored 0 None) wrong 0 ≡ None }
    ensures keyless { held_by schema Top (stored 4 None) keyless ≡ [] }
    ensures reference { held_by schema Top (stored 3 (Some (int (pos 7)))) end ≡ value_key 1 seven ∷ [] }
{}
