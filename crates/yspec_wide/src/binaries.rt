//! Leafs of octets: where modules may have them, and what their values are.

ghost use Rattle.std.specs.Prelude.{◌≡◌, [], ◌∷◌, codes, map, Some, None};
ghost use Rattle.yspec_wide.specs.Language.{core};
ghost use Rattle.yspec_wide.specs.Samples.{told, nodes, outcome_in, with_all, with_all_in_1, text_in_1_1, tags_with};

/// A binary bears a length and no other restriction, in either version (RFC 7950, 9.8.2); the core has none, nor has any language
/// the type `instance-identifier`.
pub fn places()
    ensures lengths { map with_all (codes "  typedef t { type binary { length 1..9; } }\n  leaf x { type t { length 3..5; } }\n"
        ∷ codes "  typedef t { type binary { length 1..9; } }\n  leaf x {\n    type t { length 0..5; }\n  }\n" ∷ [])
        ≡ nodes (codes "x" ∷ []) ∷ told 10 0 7 ∷ [] }
    ensures others { map with_all (codes "  leaf x {\n    type binary { range 1; }\n  }\n"
        ∷ codes "  leaf x {\n    type binary { pattern a; }\n  }\n"
        ∷ codes "  typedef t { type binary; }\n  leaf x {\n    type t { pattern a; }\n  }\n" ∷ [])
        ≡ told 10 0 6 ∷ told 10 0 6 ∷ told 10 0 7 ∷ [] }
    ensures of_yang_1 { with_all_in_1 (codes "  leaf x { type binary { length 3; } }\n") ≡ nodes (codes "x" ∷ []) }
    ensures in_the_core { outcome_in core (text_in_1_1 (codes "  leaf x { type binary; }\n") ∷ []) ≡ told 1 0 5 }
    ensures no_instance_identifier { with_all (codes "  leaf x { type instance-identifier; }\n") ≡ told 1 0 5 }
    ensures no_name_of_a_typedef { with_all (codes "  typedef binary { type string; }\n") ≡ told 7 0 5 }
{}

/// A default is base64, and lengths count octets.
pub fn values()
    ensures defaults { map with_all (codes "  leaf x { type binary { length 2; } default Zm8=; }\n"
        ∷ codes "  leaf x {\n    type binary;\n    default Zm8;\n  }\n"
        ∷ codes "  leaf x {\n    type binary { length 4; }\n    default Zm8=;\n  }\n" ∷ [])
        ≡ nodes (codes "x" ∷ []) ∷ told 11 0 5 ∷ told 11 0 5 ∷ [] }
    ensures documents { map (tags_with (codes "  leaf x { type binary { length 2 { error-app-tag two; } } }\n"))
        (codes "{\"m:x\":\"Zm8=\"}" ∷ codes "{\"m:x\":\"Zm9v\"}" ∷ codes "{\"m:x\":\"Zm8\"}" ∷ [])
        ≡ Some [] ∷ Some ((1, Some (codes "two")) ∷ []) ∷ Some ((1, None) ∷ []) ∷ [] }
{}
