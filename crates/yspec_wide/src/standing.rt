//! What is off is as if it weren't there: behind C13 and C14, and ahead of C11, C12 and C17.

ghost use Rattle.std.specs.Prelude.{◌≡◌, [], ◌∷◌, codes, map, Some};
ghost use Rattle.yspec_wide.specs.Language.{rfc_with};
ghost use Rattle.yspec_wide.specs.Samples.{told, nodes, chosen, outcome_in, with_features, with_all, faults_with, text_in_1_1};

/// Conditions of a `uses`, a refine and an `augment` are those of the nodes that they bring or change.
pub fn nodes_that_stand()
    ensures used { with_features [] (codes "  feature a;\n  grouping g {\n    leaf x { type string; }\n    container c {\n      leaf y { type string; }\n    }\n  }\n  uses g {\n    if-feature \"not a\";\n    refine c/y { if-feature a; }\n  }\n  container d {\n    uses g { if-feature a; }\n  }\n")
        ≡ nodes (codes "x" ∷ codes "c" ∷ codes "d" ∷ []) }
    ensures refined_besides { with_features (codes "b" ∷ []) (codes "  feature a;\n  feature b;\n  grouping g {\n    leaf x { if-feature a; type string; }\n  }\n  uses g {\n    refine x { if-feature b; }\n  }\n") ≡ nodes [] }
    ensures added { with_features (codes "b" ∷ []) (codes "  feature a;\n  feature b;\n  container c;\n  augment /c {\n    if-feature a;\n    leaf x { type string; }\n  }\n  augment /c {\n    if-feature b;\n    leaf y { type string; }\n    leaf z { if-feature a; type string; }\n  }\n")
        ≡ nodes (codes "c" ∷ codes "y" ∷ []) }
    ensures below { with_features [] (codes "  feature a;\n  container c {\n    if-feature a;\n    leaf x { type string; }\n  }\n  augment /c {\n    leaf y { type string; }\n  }\n  leaf z { type string; }\n") ≡ nodes (codes "z" ∷ []) }
    ensures cases { with_features [] (codes "  feature a;\n  choice c {\n    default x;\n    leaf x { if-feature a; type string; }\n    leaf y { if-feature a; type string; }\n    case z {\n      leaf z { if-feature a; type string; }\n    }\n  }\n  augment /c/y {\n    leaf w { type string; }\n  }\n")
        ≡ nodes (codes "c" ∷ codes "y" ∷ codes "w" ∷ codes "z" ∷ []) }
{}

/// Names are asked of all nodes; keys, defaults and leafrefs of those that stand.
pub fn refused()
    ensures name_twice { with_features [] (codes "  feature a;\n  leaf x { if-feature a; type string; }\n  leaf x { if-feature \"not a\"; type string; }\n") ≡ told 13 0 7 }
    ensures leafref { with_features [] (codes "  feature a;\n  leaf x { if-feature a; type string; }\n  leaf y {\n    type leafref { path /x; }\n  }\n") ≡ told 17 0 7 }
    ensures key_with_a_condition { with_all (codes "  feature a;\n  list l {\n    key k;\n    leaf k { if-feature a; type string; }\n  }\n") ≡ told 12 0 6 }
    ensures marked_default { map with_all (codes "  feature a;\n  leaf x {\n    type enumeration {\n      enum p { if-feature a; }\n      enum q;\n    }\n    default p;\n  }\n"
        ∷ codes "  feature a;\n  identity b;\n  identity p { if-feature a; base b; }\n  leaf x {\n    type identityref { base b; }\n    default p;\n  }\n" ∷ [])
        ≡ told 11 0 6 ∷ told 11 0 8 ∷ [] }
    ensures mandatory_in_what_is_off { outcome_in (rfc_with (chosen (codes "n") [] ∷ []))
        (codes "module n { yang-version 1.1; namespace urn:n; prefix n; feature a; container c { if-feature a; } }"
        ∷ text_in_1_1 (codes "  import n { prefix n; }\n  augment /n:c {\n    leaf x { type string; mandatory true; }\n  }\n") ∷ [])
        ≡ told 15 1 6 }
{}

/// Names of values that are off aren't taken, and those that are on are.
pub fn values_that_stand()
    ensures off { faults_with [] (codes "  feature a;\n  identity b;\n  identity p { if-feature a; base b; }\n  identity q { base b; }\n  leaf x {\n    type enumeration { enum r { if-feature a; } enum s; }\n  }\n  leaf-list y { type identityref { base b; } }\n")
        (codes "{\"m:x\":\"r\",\"m:y\":[\"p\",\"q\"]}") ≡ Some (1 ∷ 1 ∷ []) }
    ensures on { faults_with (codes "a" ∷ []) (codes "  feature a;\n  identity b;\n  identity p { if-feature a; base b; }\n  identity q { base b; }\n  leaf x {\n    type enumeration { enum r { if-feature a; } enum s; }\n  }\n  leaf-list y { type identityref { base b; } }\n")
        (codes "{\"m:x\":\"r\",\"m:y\":[\"p\",\"q\"]}") ≡ Some [] }
{}
