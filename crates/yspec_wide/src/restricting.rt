//! Names that restrict enumerations and bits (RFC 7950, 9.6.4 and 9.7.4): what is told of them, and what they make of values.

ghost use Rattle.std.specs.Prelude.{◌≡◌, [], ◌∷◌, ◌++◌, codes, map, Some, None};
ghost use Rattle.yspec_wide.specs.Language.{core};
ghost use Rattle.yspec_wide.specs.Samples.{told, nodes, outcome_in, with_all, with_all_in_1, text_in_1_1, faults_with, colours, speeds};

/// Names below a derived type are some of its own, each once and with no other number.
pub fn names()
    ensures left { map with_all ((colours ++ codes "  leaf x { type c { enum white; enum yellow { value 2; } } }\n")
        ∷ (speeds ++ codes "  leaf x { type b { bit fast; bit slow { position 4; } } }\n") ∷ [])
        ≡ nodes (codes "x" ∷ []) ∷ nodes (codes "x" ∷ []) ∷ [] }
    ensures refused { map with_all ((colours ++ codes "  leaf x {\n    type c {\n      enum white; enum blue;\n    }\n  }\n")
        ∷ (colours ++ codes "  leaf x {\n    type c { enum red { value 4; } }\n  }\n")
        ∷ (colours ++ codes "  leaf x {\n    type c { enum red; enum red; }\n  }\n")
        ∷ (colours ++ codes "  typedef d { type c { enum red; } }\n  leaf x {\n    type d { enum white; }\n  }\n")
        ∷ (speeds ++ codes "  leaf x {\n    type b { bit fast { position 0; } }\n  }\n") ∷ [])
        ≡ told 10 0 7 ∷ told 10 0 7 ∷ told 10 0 7 ∷ told 10 0 8 ∷ told 10 0 7 ∷ [] }
    ensures of_other_types { map with_all ((colours ++ codes "  leaf x {\n    type c { bit red; }\n  }\n")
        ∷ (speeds ++ codes "  leaf x {\n    type b { enum fast; }\n  }\n")
        ∷ codes "  typedef t { type string; }\n  leaf x {\n    type t { enum a; }\n  }\n"
        ∷ (colours ++ codes "  typedef u { type union { type c; } }\n  leaf x {\n    type u { enum red; }\n  }\n")
        ∷ codes "  leaf y { type string; }\n  typedef r { type leafref { path /y; } }\n  leaf x {\n    type r { enum a; }\n  }\n" ∷ [])
        ≡ told 10 0 7 ∷ told 10 0 7 ∷ told 10 0 7 ∷ told 10 0 8 ∷ told 10 0 8 ∷ [] }
    ensures elsewhere { outcome_in core (text_in_1_1 (colours ++ codes "  leaf x {\n    type c { enum white; }\n  }\n") ∷ [])
        ∷ with_all_in_1 (colours ++ codes "  leaf x {\n    type c { enum white; }\n  }\n") ∷ [] ≡ told 10 0 7 ∷ told 10 0 7 ∷ [] }
{}

/// What isn't named is no value any longer, as a default and in a document; bits stand in the order of the first type.
pub fn values()
    ensures defaults { map with_all ((colours ++ codes "  leaf x {\n    type c { enum white; enum yellow; }\n    default red;\n  }\n")
        ∷ (colours ++ codes "  typedef d { type c; default red; }\n  leaf x { type d { enum white; } }\n") ∷ [])
        ≡ told 11 0 6 ∷ told 11 0 7 ∷ [] }
    ensures documents { map (faults_with [] (colours ++ speeds ++ codes "  leaf x { type c { enum white; enum yellow; } }\n  leaf y { type b { bit slow; bit fast; } }\n"))
        (codes "{\"m:x\":\"red\"}" ∷ codes "{\"m:x\":\"yellow\",\"m:y\":\"slow fast\"}" ∷ codes "{\"m:y\":\"fast half\"}" ∷ [])
        ≡ Some (1 ∷ []) ∷ Some [] ∷ Some (1 ∷ []) ∷ [] }
{}

/// A name is one where no condition takes it away, neither below the restriction nor below the type that it restricts; that a
/// restriction names one that is off breaks no rule.
pub fn conditions()
    ensures off_above { map (faults_with [] (codes "  feature f;\n  typedef c { type enumeration { enum white { if-feature f; } enum red; } }\n  leaf x { type c { enum white; enum red; } }\n"))
        (codes "{\"m:x\":\"white\"}" ∷ codes "{\"m:x\":\"red\"}" ∷ []) ≡ Some (1 ∷ []) ∷ Some [] ∷ [] }
    ensures off_below { map (faults_with [] (codes "  feature f;\n  typedef c { type enumeration { enum white; enum red; } }\n  leaf x { type c { enum white { if-feature f; } enum red; } }\n"))
        (codes "{\"m:x\":\"white\"}" ∷ codes "{\"m:x\":\"red\"}" ∷ []) ≡ Some (1 ∷ []) ∷ Some [] ∷ [] }
    ensures all_off { faults_with [] (codes "  feature f;\n  typedef c { type enumeration { enum white; enum red; } }\n  leaf x { type c { enum white { if-feature f; } } }\n")
        (codes "{\"m:x\":\"red\"}") ≡ Some (1 ∷ []) }
    ensures of_a_default { map with_all (codes "  feature f;\n  typedef c { type enumeration { enum white { if-feature f; } enum red; } }\n  leaf x {\n    type c { enum white; }\n    default white;\n  }\n"
        ∷ codes "  feature f;\n  typedef c { type enumeration { enum white; enum red; } }\n  leaf x {\n    type c { enum white { if-feature f; } enum red; }\n    default white;\n  }\n" ∷ [])
        ≡ told 11 0 7 ∷ told 11 0 7 ∷ [] }
{}
