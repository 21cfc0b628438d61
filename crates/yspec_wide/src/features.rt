//! Features that are on, and what is told of them.

ghost use Rattle.std.specs.Prelude.{◌≡◌, [], ◌∷◌, codes, map};
ghost use Rattle.yspec_wide.specs.Language.{rfc_with};
ghost use Rattle.yspec_wide.specs.Samples.{told, nodes, chosen, outcome_in, with_features, with_all, text_in_1_1};

/// A feature is on where it is chosen and its own conditions hold; of a module that isn't named all are chosen.
pub fn features_that_are_on()
    ensures chosen_alone { with_features (codes "a" ∷ []) (codes "  feature a;\n  feature b;\n  leaf x { if-feature a; type string; }\n  leaf y { if-feature b; type string; }\n  leaf z { if-feature \"a or b\"; type string; }\n")
        ≡ nodes (codes "x" ∷ codes "z" ∷ []) }
    ensures by_others { with_features (codes "a" ∷ codes "c" ∷ []) (codes "  feature a { if-feature \"b or c\"; }\n  feature b;\n  feature c { if-feature \"not b\"; }\n  feature d;\n  leaf x { if-feature a; type string; }\n  leaf y { if-feature \"a and d\"; type string; }\n")
        ≡ nodes (codes "x" ∷ []) }
    ensures of_another_module { outcome_in (rfc_with (chosen (codes "n") [] ∷ []))
        (codes "module n { yang-version 1.1; namespace urn:n; prefix n; feature a; leaf w { if-feature a; type string; } }"
        ∷ text_in_1_1 (codes "  import n { prefix o; }\n  feature a;\n  leaf x { if-feature o:a; type string; }\n  leaf y { if-feature m:a; type string; }\n") ∷ [])
        ≡ nodes (codes "y" ∷ []) }
{}

/// No expression, a prefix that is unknown, a second feature of a name, and one that isn't there; what leads to itself is told at each
/// `if-feature` on the way.
pub fn refused()
    ensures each { map with_all (codes "  feature a;\n  leaf x { type string; if-feature \"a or\"; }\n"
        ∷ codes "  leaf x {\n    if-feature \"a or q:a\";\n    type string;\n  }\n"
        ∷ codes "  feature a;\n  feature b;\n  feature a;\n"
        ∷ codes "  feature a;\n  leaf x { if-feature \"not (a and b)\"; type string; }\n" ∷ [])
        ≡ told 3 0 6 ∷ told 6 0 6 ∷ told 7 0 7 ∷ told 22 0 6 ∷ [] }
    ensures circular { map with_all (codes "  feature a { if-feature b; }\n  feature b {\n    if-feature \"not c\";\n    if-feature \"c or a\";\n  }\n  feature c;\n"
        ∷ codes "  feature a {\n    if-feature c;\n    if-feature \"c or a\";\n  }\n  feature c;\n" ∷ [])
        ≡ told 22 0 5 ∷ told 22 0 7 ∷ [] }
{}
