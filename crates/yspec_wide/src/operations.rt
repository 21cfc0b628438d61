//! Operations: where they stand, what is asked of them, and that nothing of them is in a schema.

ghost use Rattle.std.specs.Prelude.{◌≡◌, ◌++◌, [], ◌∷◌, codes, map, Some, None, true};
ghost use Rattle.yspec_wide.specs.Language.{core, rfc_with};
ghost use Rattle.yspec_wide.specs.Samples.{told, nodes, outcome_in, with_all, with_all_in_1, with_features, with_unjudged, faults_with, text_in_1, text_in_1_1, unjudging};

/// Where each stands, and what stands below it; an `input` and an `output` have no argument.
pub fn places()
    ensures taken { map with_all (codes "  feature f;\n  rpc r { if-feature f; typedef t { type string; } grouping g { leaf x { type t; } } input { typedef u { type t; } uses g; } output { leaf-list y { type t; } } status current; description d; reference e; }\n  rpc s;\n"
        ∷ codes "  feature f;\n  notification n { if-feature f; typedef t { type string; } grouping g { leaf x { type t; } } uses g; list l { leaf y { type t; } } status current; description d; reference e; }\n"
        ∷ codes "  container c { action a { output { leaf x { type string; } } } leaf z { type string; } notification n { leaf y { type string; } } }\n"
        ∷ codes "  list l { key k; leaf k { type string; } action a; notification n; }\n  grouping g { action b; notification m; }\n  augment /l { action c; notification o; uses g; }\n" ∷ [])
        ≡ nodes [] ∷ nodes [] ∷ nodes (codes "c" ∷ codes "z" ∷ []) ∷ nodes (codes "l" ∷ codes "k" ∷ []) ∷ [] }
    ensures misplaced { map with_all (codes "  container c {\n    rpc r;\n  }\n" ∷ codes "  action a;\n" ∷ codes "  input { leaf x { type string; } }\n" ∷ codes "  choice c {\n    notification n;\n  }\n"
        ∷ codes "  choice c {\n    case d {\n      action a;\n    }\n  }\n" ∷ codes "  rpc r {\n    leaf x { type string; }\n  }\n" ∷ codes "  rpc r {\n    action a;\n  }\n" ∷ codes "  notification n {\n    input { leaf x { type string; } }\n  }\n"
        ∷ codes "  rpc r {\n    input {\n      notification n;\n    }\n  }\n" ∷ codes "  rpc r {\n    input {\n      description d;\n    }\n  }\n" ∷ codes "  notification n {\n    config false;\n  }\n" ∷ [])
        ≡ told 1 0 6 ∷ told 1 0 5 ∷ told 1 0 5 ∷ told 1 0 6 ∷ told 1 0 7 ∷ told 1 0 6 ∷ told 1 0 6 ∷ told 1 0 6 ∷ told 1 0 7 ∷ told 1 0 7 ∷ told 1 0 6 ∷ [] }
    ensures arguments { map with_all (codes "  rpc r {\n    input i { leaf x { type string; } }\n  }\n" ∷ codes "  rpc r {\n    output \"\" { leaf x { type string; } }\n  }\n" ∷ codes "  rpc { description d; }\n" ∷ codes "  notification \"n n\";\n"
        ∷ codes "  container c {\n    action;\n  }\n" ∷ [])
        ≡ told 3 0 6 ∷ told 3 0 6 ∷ told 3 0 5 ∷ told 3 0 5 ∷ told 3 0 6 ∷ [] }
    ensures counts { map with_all (codes "  rpc r {\n    input { leaf x { type string; } }\n    input { leaf y { type string; } }\n  }\n" ∷ codes "  container c {\n    action a { output { leaf x { type string; } } output { leaf y { type string; } } }\n  }\n" ∷ [])
        ≡ told 2 0 5 ∷ told 2 0 6 ∷ [] }
    ensures of_yang_1 { map with_all_in_1 (codes "  rpc r { input { leaf x { type string; } } }\n  notification n { leaf x { type string; } }\n" ∷ codes "  container c {\n    action a;\n  }\n" ∷ codes "  list l {\n    notification n;\n  }\n"
        ∷ codes "  grouping g {\n    notification n;\n  }\n" ∷ codes "  augment /c {\n    notification n;\n  }\n" ∷ [])
        ≡ nodes [] ∷ told 1 0 6 ∷ told 1 0 6 ∷ told 1 0 6 ∷ told 1 0 6 ∷ [] }
    ensures in_the_core { map (λ lines. outcome_in core (text_in_1_1 lines ∷ [])) (codes "  rpc r;\n" ∷ codes "  notification n;\n" ∷ codes "  container c {\n    action a;\n  }\n" ∷ [])
        ≡ told 1 0 5 ∷ told 1 0 5 ∷ told 1 0 6 ∷ [] }
{}

/// A `must` that isn't judged stands in a notification, an `input` and an `output`, but not in YANG 1; an `rpc` bears none.
pub fn musts()
    ensures taken { with_unjudged true true (codes "  rpc r { input { must a; leaf x { when b; type string; } } output { must a; leaf x { type string; } } }\n  notification n { must a; must b; }\n") ≡ nodes [] }
    ensures misplaced { map (with_unjudged true true) (codes "  rpc r {\n    must a;\n  }\n" ∷ codes "  notification n {\n    when a;\n  }\n" ∷ []) ≡ told 1 0 6 ∷ told 1 0 6 ∷ [] }
    ensures of_yang_1 { map (λ lines. outcome_in (unjudging true true) (text_in_1 lines ∷ []))
        (codes "  notification n {\n    must a;\n  }\n" ∷ codes "  rpc r {\n    input {\n      must a;\n    }\n  }\n" ∷ codes "  rpc r {\n    output {\n      must a;\n    }\n  }\n" ∷ [])
        ≡ told 1 0 6 ∷ told 1 0 7 ∷ told 1 0 7 ∷ [] }
{}

/// Their names are those of siblings, and what they define and name is judged as elsewhere.
pub fn names()
    ensures siblings { map with_all (codes "  container r;\n  rpc r;\n" ∷ codes "  rpc r;\n  notification r;\n" ∷ codes "  container c {\n    leaf a { type string; }\n    action a;\n  }\n"
        ∷ codes "  rpc r {\n    input { leaf x { type string; } }\n    output { leaf x { type string; } leaf input { type string; } }\n  }\n"
        ∷ codes "  rpc r {\n    input {\n      leaf x { type string; }\n      leaf x { type string; }\n    }\n  }\n" ∷ [])
        ≡ told 13 0 6 ∷ told 13 0 6 ∷ told 13 0 7 ∷ nodes [] ∷ told 13 0 8 ∷ [] }
    ensures definitions { map with_all (codes "  rpc r {\n    typedef t { type string; }\n    input { leaf x { type t; } }\n  }\n  leaf y { type t; }\n" ∷ codes "  typedef t { type string; }\n  rpc r {\n    input {\n      typedef t { type string; }\n    }\n  }\n"
        ∷ codes "  notification n {\n    uses g;\n  }\n" ∷ codes "  rpc r {\n    input { leaf x { type int8 { length 1; } } }\n  }\n" ∷ codes "  grouping g {\n    action a {\n      input { uses g; }\n    }\n  }\n"
        ∷ codes "  rpc r {\n    if-feature f;\n  }\n" ∷ [])
        ≡ told 8 0 9 ∷ told 7 0 8 ∷ told 8 0 6 ∷ told 10 0 6 ∷ told 9 0 7 ∷ told 22 0 6 ∷ [] }
{}

/// What augments and refines find in them: an `input`, an `output` and a notification take nodes, an `rpc` and an action do not; and
/// only containers and lists take operations.
pub fn targets()
    ensures taken { map with_all (codes "  rpc r { input { leaf x { type string; } } output { container c; } }\n  notification n;\n  augment /r/input { leaf y { type string; } }\n  augment /r/output/c { leaf y { type string; } }\n  augment /n { choice c; }\n  augment /n/c { leaf y { type string; } }\n"
        ∷ codes "  container c { action a { input { leaf x { type string; } } } list l { key k; leaf k { type string; } } }\n  augment /c/a/input { leaf y { type string; } }\n  augment /c { action b; }\n  augment /c/l { notification n; }\n" ∷ [])
        ≡ nodes [] ∷ nodes (codes "c" ∷ codes "l" ∷ codes "k" ∷ []) ∷ [] }
    ensures closed { map with_all (codes "  rpc r { input { leaf x { type string; } } }\n  augment /r { leaf y { type string; } }\n" ∷ codes "  rpc r;\n  augment /r/input { leaf y { type string; } }\n"
        ∷ codes "  container c { action a; }\n  augment /c/a { leaf y { type string; } }\n" ∷ codes "  rpc r { input { leaf x { type string; } } }\n  augment /r/x { leaf y { type string; } }\n" ∷ [])
        ≡ told 14 0 6 ∷ told 14 0 6 ∷ told 14 0 6 ∷ told 14 0 6 ∷ [] }
    ensures no_operations { map with_all (codes "  choice c { case d; }\n  augment /c { action a; }\n" ∷ codes "  choice c { case d; }\n  augment /c/d { notification n; }\n" ∷ codes "  rpc r { input { leaf x { type string; } } }\n  augment /r/input { action a; }\n"
        ∷ codes "  notification n;\n  augment /n { notification m; }\n" ∷ [])
        ≡ told 14 0 6 ∷ told 14 0 6 ∷ told 14 0 6 ∷ told 14 0 6 ∷ [] }
    ensures refined { map (λ lines. with_all (codes "  feature f;\n  grouping g { action a { input { leaf x { type string; } container d; } } notification n; }\n" ++ lines))
        (codes "  container c {\n    uses g {\n      refine a/input/x { mandatory true; if-feature f; }\n      refine a/input/d { presence p; config false; }\n      refine a/input { description d; }\n      refine n { reference d; }\n    }\n  }\n"
        ∷ codes "  container c {\n    uses g {\n      refine a { config false; }\n    }\n  }\n" ∷ codes "  container c {\n    uses g {\n      refine n { if-feature f; }\n    }\n  }\n"
        ∷ codes "  container c {\n    uses g {\n      refine a/input { presence p; }\n    }\n  }\n" ∷ [])
        ≡ nodes (codes "c" ∷ []) ∷ told 14 0 9 ∷ told 14 0 9 ∷ told 14 0 9 ∷ [] }
{}

/// Where a grouping or an augment brings an action or a notification: not below a choice or a case, an operation, or a list without a
/// key, and an action not to the top.
pub fn brought()
    ensures tops { map with_all (codes "  grouping g {\n    action a;\n  }\n  uses g;\n" ∷ codes "  grouping g {\n    notification n;\n  }\n  uses g;\n" ∷ []) ≡ told 24 0 6 ∷ nodes [] ∷ [] }
    ensures cases { map with_all (codes "  grouping g {\n    notification n;\n  }\n  choice c {\n    case d { uses g; }\n  }\n" ∷ codes "  grouping g {\n    notification n;\n  }\n  choice c {\n    case d { container e { uses g; } }\n  }\n" ∷ [])
        ≡ told 24 0 6 ∷ nodes (codes "c" ∷ codes "d" ∷ codes "e" ∷ []) ∷ [] }
    ensures operations { map with_all (codes "  grouping g {\n    action a;\n  }\n  rpc r {\n    input { uses g; }\n  }\n" ∷ codes "  grouping g {\n    container c {\n      notification a;\n    }\n  }\n  notification n { uses g; }\n"
        ∷ codes "  rpc r { output { container c; } }\n  augment /r/output/c {\n    action a;\n  }\n" ∷ codes "  container c {\n    action a { output { list l { key k; leaf k { type string; } container d { action b; } } } }\n  }\n" ∷ [])
        ≡ told 24 0 6 ∷ told 24 0 7 ∷ told 24 0 7 ∷ told 24 0 6 ∷ [] }
    ensures lists { map with_all (codes "  list l {\n    config false;\n    action a;\n  }\n" ∷ codes "  list l {\n    config false;\n    container c {\n      notification n;\n    }\n  }\n"
        ∷ codes "  list l {\n    key k;\n    leaf k { type string; }\n    container c { action a; }\n  }\n" ∷ [])
        ≡ told 24 0 7 ∷ told 24 0 8 ∷ nodes (codes "l" ∷ codes "k" ∷ codes "c" ∷ []) ∷ [] }
    ensures with_names { map with_all (codes "  list l {\n    config false;\n    action a;\n  }\n  leaf l { type string; }\n" ∷ codes "  leaf l { type string; }\n  leaf l { type string; }\n  list m {\n    config false;\n    action a;\n  }\n" ∷ [])
        ≡ told 24 0 7 ∷ told 13 0 6 ∷ [] }
    ensures off { with_features [] (codes "  feature f;\n  list l {\n    config false;\n    action a { if-feature f; }\n  }\n") ≡ told 24 0 8 }
{}

/// Nothing of them is a node of a document, nor is asked of what must be stored, and of theirs neither keys, defaults, leafrefs nor what is
/// configuration.
pub fn left_out()
    ensures documents { map (faults_with [] (codes "  container c { action a { input { leaf x { type string; } } } leaf y { type string; } }\n  rpc r { input { leaf x { type string; } } }\n"))
        (codes "{\"m:c\":{\"y\":\"\"}}" ∷ codes "{\"m:c\":{\"a\":{}}}" ∷ codes "{\"m:r\":{}}" ∷ []) ≡ Some [] ∷ None ∷ None ∷ [] }
    ensures not_asked { with_all (codes "  rpc r { input { list l { leaf x { type int8; default a; } } leaf y { type leafref { path /z; } } list m { key k; } container c { config false; leaf x { config true; type string; } } } }\n") ≡ nodes [] }
    ensures named { with_all (codes "  rpc r { input { leaf x { type string; } } }\n  leaf y {\n    type leafref { path /r/input/x; }\n  }\n") ≡ told 17 0 6 }
    ensures needed { map (faults_with [] (codes "  container c { action a { input { leaf x { mandatory true; type string; } } } }\n  choice h { default d; case d { container e { action a { input { leaf x { mandatory true; type string; } } } } } }\n"))
        (codes "{}" ∷ []) ≡ Some [] ∷ [] }
    ensures added { map (λ lines. outcome_in (rfc_with []) (codes "module n { yang-version 1.1; namespace urn:n; prefix n; container c; rpc r { input { leaf x { type string; } } } }"
        ∷ text_in_1_1 (codes "  import n { prefix n; }\n" ++ lines) ∷ []))
        (codes "  augment /n:r/n:input { leaf y { mandatory true; type string; } }\n" ∷ codes "  augment /n:c { container d { action a { input { leaf y { mandatory true; type string; } } } } }\n"
        ∷ codes "  augment /n:c { action a { input { leaf y { mandatory true; type string; } } } }\n" ∷ codes "  augment /n:c { container d { action a; leaf y { mandatory true; type string; } } }\n" ∷ [])
        ≡ nodes (codes "c" ∷ []) ∷ nodes (codes "c" ∷ codes "d" ∷ []) ∷ nodes (codes "c" ∷ []) ∷ told 15 1 6 ∷ [] }
{}
