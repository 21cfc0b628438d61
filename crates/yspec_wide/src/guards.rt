//! Conditions that aren't judged: where they stand, and what is asked of the nodes that hang on them.

ghost use Rattle.std.specs.Prelude.{◌≡◌, [], ◌∷◌, codes, map, Some, None, true, false};
ghost use Rattle.yspec_wide.specs.Samples.{told, nodes, outcome_in, with_all, with_unjudged, unjudging, faults_unjudged, text_in_1, text_in_1_1};

/// Each is read where it isn't to be judged, and else it is no keyword.
pub fn words()
    ensures none { map with_all (codes "  leaf x { must \"../y\"; type string; }\n" ∷ codes "  leaf x { when \"../y\"; type string; }\n" ∷ [])
        ≡ told 1 0 5 ∷ told 1 0 5 ∷ [] }
    ensures musts { map (with_unjudged true false) (codes "  leaf x { must \"../y\"; type string; }\n" ∷ codes "  leaf x { when \"../y\"; type string; }\n" ∷ [])
        ≡ nodes (codes "x" ∷ []) ∷ told 1 0 5 ∷ [] }
    ensures whens { map (with_unjudged false true) (codes "  leaf x { must \"../y\"; type string; }\n" ∷ codes "  leaf x { when \"../y\"; type string; }\n" ∷ [])
        ≡ told 1 0 5 ∷ nodes (codes "x" ∷ []) ∷ [] }
{}

/// Where each stands, how often, and what stands below it; its argument may be any text, but there is one.
pub fn places()
    ensures taken { map (with_unjudged true true) (codes "  container c { must a; must b; when c; }\n  list l { config false; must a; when b; }\n  leaf-list m { must a; when b; type string; }\n  choice h {\n    when a;\n    case k { when a; leaf x { type string; } }\n  }\n"
        ∷ codes "  grouping g { leaf x { type string; } }\n  uses g { when a; refine x { must a; must b; } }\n  augment /c { when a; leaf y { type string; } }\n  container c;\n"
        ∷ codes "  leaf x { must \"\" { error-message a; error-app-tag b; description c; reference d; } when \"\" { description c; reference d; } type string; }\n" ∷ [])
        ≡ nodes (codes "c" ∷ codes "l" ∷ codes "m" ∷ codes "h" ∷ codes "k" ∷ codes "x" ∷ []) ∷ nodes (codes "x" ∷ codes "c" ∷ codes "y" ∷ []) ∷ nodes (codes "x" ∷ []) ∷ [] }
    ensures misplaced { map (with_unjudged true true) (codes "  must a;\n" ∷ codes "  when a;\n" ∷ codes "  choice c {\n    must a;\n  }\n"
        ∷ codes "  grouping g { leaf x { type string; } }\n  uses g {\n    refine x { when a; }\n  }\n"
        ∷ codes "  typedef t { type string; when a; }\n" ∷ codes "  container c {\n    when a { error-message b; }\n  }\n" ∷ [])
        ≡ told 1 0 5 ∷ told 1 0 5 ∷ told 1 0 6 ∷ told 1 0 7 ∷ told 1 0 5 ∷ told 1 0 6 ∷ [] }
    ensures counts { map (with_unjudged true true) (codes "  container c {\n    when a;\n    when b;\n  }\n" ∷ codes "  container c {\n    must a { description b; description c; }\n  }\n"
        ∷ codes "  container c {\n    must;\n  }\n" ∷ codes "  container c {\n    when;\n  }\n" ∷ [])
        ≡ told 2 0 5 ∷ told 2 0 6 ∷ told 3 0 6 ∷ told 3 0 6 ∷ [] }
    ensures of_yang_1 { outcome_in (unjudging true true) (text_in_1 (codes "  grouping g { leaf x { when a; type string; } }\n  uses g { when b; refine x { must a; } }\n") ∷ [])
        ≡ nodes (codes "x" ∷ []) }
{}

/// A node that hangs on a `when` may be absent, with all below it: it isn't mandatory, there needn't be some of it, and no default of it
/// is in use. So it is by the `when` of what brings it.
pub fn absences()
    ensures own { map (λ lines. faults_unjudged lines (codes "{}")) (codes "  leaf x { when a; mandatory true; type string; }\n"
        ∷ codes "  leaf-list x { when a; min-elements 1; type string; }\n" ∷ codes "  list x { when a; key k; min-elements 1; leaf k { type string; } }\n"
        ∷ codes "  choice x { when a; mandatory true; leaf y { type string; } }\n" ∷ codes "  leaf x { must a; mandatory true; type string; }\n" ∷ [])
        ≡ Some [] ∷ Some [] ∷ Some [] ∷ Some [] ∷ Some (3 ∷ []) ∷ [] }
    ensures below { map (faults_unjudged (codes "  container c { when a; container d { leaf x { mandatory true; type string; } } leaf y { type string; } }\n  container e { leaf z { mandatory true; type string; } }\n"))
        (codes "{}" ∷ codes "{\"m:c\":{\"y\":\"\"},\"m:e\":{\"z\":\"\"}}" ∷ []) ≡ Some (3 ∷ []) ∷ Some [] ∷ [] }
    ensures defaults { map (λ lines. faults_unjudged lines (codes "{\"m:y\":1}")) (codes "  leaf x { default 1; type int8; }\n  leaf y { type leafref { path /x; } }\n"
        ∷ codes "  leaf x { when a; default 1; type int8; }\n  leaf y { type leafref { path /x; } }\n"
        ∷ codes "  leaf-list x { when a; default 1; type int8; }\n  leaf y { when a; type leafref { path /x; } }\n" ∷ [])
        ≡ Some [] ∷ Some (11 ∷ []) ∷ Some (11 ∷ []) ∷ [] }
    ensures cases { map (faults_unjudged (codes "  choice h {\n    mandatory true;\n    case k { when a; leaf x { type string; } leaf y { mandatory true; type string; } }\n    leaf z { type string; }\n  }\n"))
        (codes "{\"m:x\":\"\"}" ∷ codes "{}" ∷ codes "{\"m:x\":\"\",\"m:z\":\"\"}" ∷ []) ≡ Some [] ∷ Some (4 ∷ []) ∷ Some (5 ∷ []) ∷ [] }
    ensures used { map (faults_unjudged (codes "  grouping g { leaf x { mandatory true; type string; } container c { leaf y { mandatory true; type string; } } }\n  container d { uses g { when a; } }\n  container e { presence p; uses g; }\n"))
        (codes "{}" ∷ codes "{\"m:e\":{\"x\":\"\"}}" ∷ []) ≡ Some [] ∷ Some (3 ∷ []) ∷ [] }
    ensures added { faults_unjudged (codes "  container c { container d; }\n  augment /c { when a; leaf x { mandatory true; type string; } }\n  augment /c/d { uses g { when a; } leaf z { mandatory true; type string; } }\n  grouping g { leaf y { mandatory true; type string; } }\n")
        (codes "{}") ≡ Some (3 ∷ []) }
{}

/// What is there is judged as ever: by its type, its keys, what may come once, and how many there may be.
pub fn presences()
    ensures judged { map (faults_unjudged (codes "  container c {\n    when a;\n    leaf x { type int8; }\n    leaf-list y { max-elements 1; type string; }\n    list l { key k; unique u; leaf k { type string; } leaf u { type string; } }\n  }\n"))
        (codes "{\"m:c\":{\"x\":200}}" ∷ codes "{\"m:c\":{\"y\":[\"a\",\"b\"]}}" ∷ codes "{\"m:c\":{\"l\":[{\"u\":\"a\"}]}}"
        ∷ codes "{\"m:c\":{\"l\":[{\"k\":\"a\"},{\"k\":\"a\"}]}}" ∷ codes "{\"m:c\":{\"l\":[{\"k\":\"a\",\"u\":\"a\"},{\"k\":\"b\",\"u\":\"a\"}]}}" ∷ [])
        ≡ Some (1 ∷ []) ∷ Some (7 ∷ []) ∷ Some (2 ∷ []) ∷ Some (8 ∷ 8 ∷ []) ∷ Some (9 ∷ 9 ∷ []) ∷ [] }
{}

/// A key bears none in YANG 1.1, and in YANG 1 it may. An augment with a `when` may add what must be, in YANG 1.1.
pub fn rules()
    ensures keys { map (with_unjudged true true) (codes "  list l {\n    key k;\n    leaf k { when a; type string; }\n  }\n" ∷ codes "  list l {\n    key k;\n    uses g { when a; }\n  }\n  grouping g { leaf k { must a; type string; } }\n" ∷ [])
        ≡ told 12 0 5 ∷ nodes (codes "l" ∷ codes "k" ∷ []) ∷ [] }
    ensures keys_of_yang_1 { outcome_in (unjudging true true) (text_in_1 (codes "  list l {\n    key k;\n    leaf k { when a; type string; }\n  }\n") ∷ []) ≡ nodes (codes "l" ∷ codes "k" ∷ []) }
    ensures additions { map (λ lines. outcome_in (unjudging true true) (codes "module n { yang-version 1.1; namespace urn:n; prefix n; container c; }" ∷ text_in_1_1 lines ∷ []))
        (codes "  import n { prefix n; }\n  augment /n:c { when a; leaf x { mandatory true; type string; } }\n"
        ∷ codes "  import n { prefix n; }\n  augment /n:c { leaf x { when a; mandatory true; type string; } }\n" ∷ [])
        ≡ nodes (codes "c" ∷ codes "x" ∷ []) ∷ told 15 1 6 ∷ [] }
    ensures additions_of_yang_1 { outcome_in (unjudging true true) (codes "module n { namespace urn:n; prefix n; container c; }"
        ∷ text_in_1 (codes "  import n { prefix n; }\n  augment /n:c { when a; leaf x { mandatory true; type string; } }\n") ∷ []) ≡ told 15 1 6 }
{}
