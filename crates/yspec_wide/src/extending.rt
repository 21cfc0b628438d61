//! Augments below a `uses`: where they stand, what they lead to, and what comes of them.

ghost use Rattle.std.specs.Prelude.{◌≡◌, ◌++◌, [], ◌∷◌, codes, map, Some, true, false};
ghost use Rattle.yspec_wide.specs.Language.{core, rfc_with};
ghost use Rattle.yspec_wide.specs.Samples.{told, nodes, counted_with, outcome_in, with_all_in_1, with_features, faults_with, faults_unjudged, text_in_1_1, extended};

/// Where they stand, how often, and what stands below them; their paths are relative.
pub fn places()
    ensures taken { map extended (codes "  uses g { augment c { leaf a { type string; } } augment c { list n { key j; leaf j { type string; } } } }\n" ∷
        codes "  uses g { augment c { description d; reference e; status current; } }\n" ∷
        codes "  uses g { augment m:c/m:h { case i { leaf a { type string; } } } augment c { choice i; anydata b; } }\n" ∷ []) ≡ nodes (codes "c" ∷ codes "x" ∷ codes "l" ∷ codes "k" ∷ codes "h" ∷ codes "y" ∷ codes "y" ∷ codes "a" ∷ codes "n" ∷ codes "j" ∷ codes "z" ∷ []) ∷ nodes (codes "c" ∷ codes "x" ∷ codes "l" ∷ codes "k" ∷ codes "h" ∷ codes "y" ∷ codes "y" ∷ codes "z" ∷ []) ∷ nodes (codes "c" ∷ codes "x" ∷ codes "l" ∷ codes "k" ∷ codes "h" ∷ codes "y" ∷ codes "y" ∷ codes "i" ∷ codes "a" ∷ codes "i" ∷ codes "b" ∷ codes "z" ∷ []) ∷ [] }
    ensures misplaced { map extended (codes "  uses g {\n    leaf a { type string; }\n  }\n" ∷
        codes "  uses g {\n    augment c {\n      typedef t { type string; }\n    }\n  }\n" ∷
        codes "  uses g {\n    refine c {\n      augment h;\n    }\n  }\n" ∷ []) ≡ told 1 0 7 ∷ told 1 0 8 ∷ told 1 0 8 ∷ [] }
    ensures paths { map extended (codes "  uses g {\n    augment /c { leaf a { type string; } }\n  }\n" ∷
        codes "  uses g {\n    augment;\n  }\n" ∷
        codes "  augment c { leaf a { type string; } }\n" ∷
        codes "  uses g {\n    augment n:c { leaf a { type string; } }\n  }\n" ∷
        codes "  uses g {\n    augment c/n:h { leaf a { type string; } }\n  }\n" ∷ []) ≡ told 3 0 7 ∷ told 3 0 7 ∷ told 3 0 6 ∷ told 6 0 7 ∷ told 6 0 7 ∷ [] }
    ensures counts { map extended (codes "  uses g {\n    augment c { description d; description e; }\n  }\n" ∷ []) ≡ told 2 0 7 ∷ [] }
    ensures of_yang_1 { map with_all_in_1 (codes "  grouping g { container c { leaf x { type string; } list l { key k; leaf k { type string; } } choice h { leaf y { type string; } } } leaf z { type string; } }\n  uses g { augment c { leaf a { type string; } } augment c { choice q; } }\n" ∷
        codes "  grouping g { container c { leaf x { type string; } list l { key k; leaf k { type string; } } choice h { leaf y { type string; } } } leaf z { type string; } }\n  uses g {\n    augment c/h { choice q; }\n  }\n" ∷
        codes "  grouping g { container c { leaf x { type string; } list l { key k; leaf k { type string; } } choice h { leaf y { type string; } } } leaf z { type string; } }\n  uses g {\n    augment c { anydata b; }\n  }\n" ∷ []) ≡ nodes (codes "c" ∷ codes "x" ∷ codes "l" ∷ codes "k" ∷ codes "h" ∷ codes "y" ∷ codes "y" ∷ codes "a" ∷ codes "q" ∷ codes "z" ∷ []) ∷ told 14 0 7 ∷ told 1 0 7 ∷ [] }
    ensures in_the_core { outcome_in core (text_in_1_1 (codes "  grouping g { container c { leaf x { type string; } list l { key k; leaf k { type string; } } choice h { leaf y { type string; } } } leaf z { type string; } }\n  uses g {\n    augment c { leaf a { type string; } }\n  }\n") ∷ []) ≡ told 1 0 7 }
{}

/// Each leads to a node that may take what it adds, among those that the `uses` brings.
pub fn targets()
    ensures taken { map extended (codes "  uses g { augment c/l { leaf a { type string; } } }\n" ∷
        codes "  uses g { augment c/h { leaf a { type string; } } }\n" ∷
        codes "  uses g { augment c/h/y { leaf a { type string; } } }\n" ∷
        codes "  uses g { augment c { action a; } }\n" ∷ []) ≡ nodes (codes "c" ∷ codes "x" ∷ codes "l" ∷ codes "k" ∷ codes "a" ∷ codes "h" ∷ codes "y" ∷ codes "y" ∷ codes "z" ∷ []) ∷ nodes (codes "c" ∷ codes "x" ∷ codes "l" ∷ codes "k" ∷ codes "h" ∷ codes "y" ∷ codes "y" ∷ codes "a" ∷ codes "a" ∷ codes "z" ∷ []) ∷ nodes (codes "c" ∷ codes "x" ∷ codes "l" ∷ codes "k" ∷ codes "h" ∷ codes "y" ∷ codes "y" ∷ codes "a" ∷ codes "z" ∷ []) ∷ nodes (codes "c" ∷ codes "x" ∷ codes "l" ∷ codes "k" ∷ codes "h" ∷ codes "y" ∷ codes "y" ∷ codes "z" ∷ []) ∷ [] }
    ensures missing { map extended (codes "  container d;\n  uses g {\n    augment d { leaf a { type string; } }\n  }\n" ∷
        codes "  uses g {\n    augment z { leaf a { type string; } }\n  }\n" ∷
        codes "  uses g {\n    augment c { case b { leaf a { type string; } } }\n  }\n" ∷
        codes "  grouping f { leaf b { type string; } }\n  uses g {\n    augment c/h { uses f; }\n  }\n" ∷
        codes "  grouping f;\n  uses f {\n    augment c { leaf a { type string; } }\n  }\n" ∷
        codes "  uses g {\n    augment c/h { action a; }\n  }\n" ∷ []) ≡ told 14 0 8 ∷ told 14 0 7 ∷ told 14 0 7 ∷ told 14 0 8 ∷ told 14 0 8 ∷ told 14 0 7 ∷ [] }
    ensures unused { map extended (codes "  grouping f { uses g { augment q { leaf a { type string; } } } }\n" ∷ []) ≡ nodes [] ∷ [] }
{}

/// They come behind the refines, and one after another as they stand; what they add is refined by an outer `uses`.
pub fn turns()
    ensures later { map extended (codes "  uses g { augment c { container d; } augment c/d { leaf a { type string; } } }\n" ∷
        codes "  uses g {\n    augment c/d { leaf a { type string; } }\n    augment c { container d; }\n  }\n" ∷ []) ≡ nodes (codes "c" ∷ codes "x" ∷ codes "l" ∷ codes "k" ∷ codes "h" ∷ codes "y" ∷ codes "y" ∷ codes "d" ∷ codes "a" ∷ codes "z" ∷ []) ∷ told 14 0 7 ∷ [] }
    ensures refines { map extended (codes "  uses g {\n    augment c { leaf a { type string; } }\n    refine c/a { default a; }\n  }\n" ∷
        codes "  grouping f { uses g { augment c { leaf a { type string; } } } }\n  uses f { refine c/a { default b; } augment c/l { leaf b { type string; } } }\n" ∷ []) ≡ told 14 0 8 ∷ nodes (codes "c" ∷ codes "x" ∷ codes "l" ∷ codes "k" ∷ codes "b" ∷ codes "h" ∷ codes "y" ∷ codes "y" ∷ codes "a" ∷ codes "z" ∷ []) ∷ [] }
    ensures refined { map (λ lines. faults_with [] (codes "  grouping g { container c { leaf x { type string; } list l { key k; leaf k { type string; } } choice h { leaf y { type string; } } } leaf z { type string; } }\n" ++ lines) (codes "{}")) (codes "  grouping f { uses g { augment c { leaf a { mandatory true; type string; } } } }\n  uses f { refine c/a { mandatory false; } }\n" ∷
        codes "  grouping f { uses g { augment c { leaf a { type string; } } } }\n  uses f { refine c/a { mandatory true; } }\n" ∷ []) ≡ Some [] ∷ Some (3 ∷ []) ∷ [] }
    ensures first { map extended (codes "  uses g {\n    augment c {\n      leaf x { type string; }\n    }\n  }\n" ∷ []) ≡ told 13 0 8 ∷ [] }
{}

/// What they add may use groupings, with augments again; a grouping that so leads to itself is on a circle.
pub fn uses_in_them()
    ensures brought { map extended (codes "  grouping f { leaf b { type string; } }\n  uses g { augment c { uses f; } }\n" ∷
        codes "  grouping f { container e; }\n  uses g { augment c { uses f { augment e { leaf w { type string; } } } } }\n" ∷
        codes "  grouping f { container e; }\n  grouping i { uses f { augment e { uses g { augment c/l { leaf v { type string; } } } } } }\n  container d { uses i; }\n" ∷ []) ≡ nodes (codes "c" ∷ codes "x" ∷ codes "l" ∷ codes "k" ∷ codes "h" ∷ codes "y" ∷ codes "y" ∷ codes "b" ∷ codes "z" ∷ []) ∷ nodes (codes "c" ∷ codes "x" ∷ codes "l" ∷ codes "k" ∷ codes "h" ∷ codes "y" ∷ codes "y" ∷ codes "e" ∷ codes "w" ∷ codes "z" ∷ []) ∷ nodes (codes "d" ∷ codes "e" ∷ codes "c" ∷ codes "x" ∷ codes "l" ∷ codes "k" ∷ codes "v" ∷ codes "h" ∷ codes "y" ∷ codes "y" ∷ codes "z" ∷ []) ∷ [] }
    ensures circle { map extended (codes "  grouping f {\n    uses g {\n      augment c { uses f; }\n    }\n  }\n" ∷ []) ≡ told 9 0 8 ∷ [] }
    ensures unfit { map extended (codes "  grouping e;\n  uses g {\n    augment c {\n      uses e {\n        refine q { description d; }\n      }\n    }\n  }\n" ∷
        codes "  grouping e;\n  uses e {\n    augment c {\n      uses e {\n        refine q { description d; }\n      }\n    }\n  }\n" ∷ []) ≡ told 14 0 10 ∷ told 14 0 8 ∷ [] }
    ensures scopes { map extended (codes "  uses g { augment c { container d { typedef t { type string; } leaf a { type t; } } } }\n" ∷
        codes "  uses g {\n    augment c {\n      leaf a { type t; }\n    }\n  }\n" ∷ []) ≡ nodes (codes "c" ∷ codes "x" ∷ codes "l" ∷ codes "k" ∷ codes "h" ∷ codes "y" ∷ codes "y" ∷ codes "d" ∷ codes "a" ∷ codes "z" ∷ []) ∷ told 8 0 8 ∷ [] }
{}

/// What they add belongs to the module that uses, which may add what must be; names in their paths without a prefix are of that module too.
pub fn owners()
    ensures using { outcome_in (rfc_with []) (codes "module n { yang-version 1.1; namespace urn:n; prefix n; grouping g { container c { leaf x { type string; } } } }" ∷ text_in_1_1 (codes "  import n { prefix n; }\n  uses n:g { augment c { leaf a { mandatory true; type string; } } }\n  leaf q { type leafref { path /m:c/m:a; } }\n") ∷ []) ∷ outcome_in (rfc_with []) (codes "module n { yang-version 1.1; namespace urn:n; prefix n; grouping g { container c { leaf x { type string; } } } }" ∷ text_in_1_1 (codes "  import n { prefix n; }\n  uses n:g {\n    augment n:c { leaf a { type string; } }\n  }\n") ∷ []) ∷ outcome_in (rfc_with []) (codes "module n { yang-version 1.1; namespace urn:n; prefix n; grouping f { container c { leaf x { type string; } } } grouping g { uses f { augment c { leaf a { type string; } } } } }" ∷ text_in_1_1 (codes "  import n { prefix n; }\n  uses n:g;\n  leaf q { type leafref { path /m:c/m:a; } }\n") ∷ []) ∷ outcome_in (rfc_with []) (codes "module n { yang-version 1.1; namespace urn:n; prefix n; grouping f { container c { leaf x { type string; } } } grouping g { uses f { augment n:c { leaf a { type string; } } } } }" ∷ text_in_1_1 (codes "  import n { prefix n; }\n  uses n:g;\n") ∷ []) ∷ [] ≡ nodes (codes "c" ∷ codes "x" ∷ codes "a" ∷ codes "q" ∷ []) ∷ told 14 1 7 ∷ nodes (codes "c" ∷ codes "x" ∷ codes "a" ∷ codes "q" ∷ []) ∷ told 14 0 1 ∷ [] }
    ensures needed { faults_with [] (codes "  grouping g { container c { presence p; } }\n  uses g { augment c { leaf a { mandatory true; type string; } } }\n") (codes "{\"m:c\":{}}") ≡ Some (3 ∷ []) }
{}

/// Their conditions are asked of each node that they add, and their `when` too.
pub fn guards()
    ensures chosen { map (λ lines. with_features (codes "f" ∷ []) (codes "  feature f;\n  grouping g { container c { leaf x { type string; } list l { key k; leaf k { type string; } } choice h { leaf y { type string; } } } leaf z { type string; } }\n" ++ lines)) (codes "  uses g { augment c { if-feature f; leaf a { type string; } } }\n" ∷
        codes "  uses g { augment c/h { if-feature f; leaf a { type string; } } }\n" ∷
        codes "  uses g { if-feature f; augment c { leaf a { type string; } } }\n" ∷
        codes "  uses g { augment c { leaf a { if-feature f; type string; } container b; } }\n" ∷ []) ≡ nodes (codes "c" ∷ codes "x" ∷ codes "l" ∷ codes "k" ∷ codes "h" ∷ codes "y" ∷ codes "y" ∷ codes "a" ∷ codes "z" ∷ []) ∷ nodes (codes "c" ∷ codes "x" ∷ codes "l" ∷ codes "k" ∷ codes "h" ∷ codes "y" ∷ codes "y" ∷ codes "a" ∷ codes "a" ∷ codes "z" ∷ []) ∷ nodes (codes "c" ∷ codes "x" ∷ codes "l" ∷ codes "k" ∷ codes "h" ∷ codes "y" ∷ codes "y" ∷ codes "a" ∷ codes "z" ∷ []) ∷ nodes (codes "c" ∷ codes "x" ∷ codes "l" ∷ codes "k" ∷ codes "h" ∷ codes "y" ∷ codes "y" ∷ codes "a" ∷ codes "b" ∷ codes "z" ∷ []) ∷ [] }
    ensures off { map (λ lines. with_features [] (codes "  feature f;\n  grouping g { container c { leaf x { type string; } list l { key k; leaf k { type string; } } choice h { leaf y { type string; } } } leaf z { type string; } }\n" ++ lines)) (codes "  uses g { augment c { if-feature f; leaf a { type string; } } }\n" ∷
        codes "  uses g { augment c/h { if-feature f; leaf a { type string; } } }\n" ∷
        codes "  uses g { if-feature f; augment c { leaf a { type string; } } }\n" ∷
        codes "  uses g { augment c { leaf a { if-feature f; type string; } container b; } }\n" ∷ []) ≡ nodes (codes "c" ∷ codes "x" ∷ codes "l" ∷ codes "k" ∷ codes "h" ∷ codes "y" ∷ codes "y" ∷ codes "z" ∷ []) ∷ nodes (codes "c" ∷ codes "x" ∷ codes "l" ∷ codes "k" ∷ codes "h" ∷ codes "y" ∷ codes "y" ∷ codes "z" ∷ []) ∷ nodes [] ∷ nodes (codes "c" ∷ codes "x" ∷ codes "l" ∷ codes "k" ∷ codes "h" ∷ codes "y" ∷ codes "y" ∷ codes "b" ∷ codes "z" ∷ []) ∷ [] }
    ensures whens { map (λ lines. faults_unjudged (codes "  grouping g { container c; }\n" ++ lines) (codes "{}")) (codes "  uses g { augment c { when a; leaf a { mandatory true; type string; } } }\n" ∷
        codes "  uses g { augment c { leaf a { mandatory true; type string; } } }\n" ∷ []) ≡ Some [] ∷ Some (3 ∷ []) ∷ [] }
{}

/// What they add counts, each time that a grouping is used; a single node of a choice counts without the case for which it stands.
pub fn counts()
    ensures plain { counted_with (codes "  grouping g { container c; }\n  uses g;\n") ≡ 1 }
    ensures added { counted_with (codes "  grouping g { container c; }\n  uses g { augment c { leaf a { type string; } leaf b { type string; } } }\n") ≡ 3 }
    ensures nested { counted_with (codes "  grouping g { container c; }\n  grouping f { uses g { augment c { container d { leaf a { type string; } } } } }\n  container e { uses f; }\n  augment /e { uses g { augment c { uses g; } } }\n") ≡ 6 }
    ensures single { counted_with (codes "  grouping g { container c; }\n  grouping h { choice k; }\n  uses h { augment k { leaf a { type string; } container b; } }\n") ≡ 3 }
    ensures cases { counted_with (codes "  grouping g { container c; }\n  uses g { augment c { choice k { leaf a { type string; } case b { leaf b { type string; } } } } }\n") ≡ 6 }
{}
