//! Patterns of types: what is told of them, and what they make of values.

ghost use Rattle.std.specs.Prelude.{◌≡◌, [], ◌∷◌, codes, map, Some, None};
ghost use Rattle.yspec_wide.specs.Language.{core};
ghost use Rattle.yspec_wide.specs.Samples.{told, nodes, outcome_in, with_all, with_all_in_1, text_in_1_1, tags_with};

/// A pattern stands below a type of strings, derived or not, and below no other; its modifier is `invert-match`, once at most, which
/// YANG 1 lacks.
pub fn places()
    ensures types { map with_all (codes "  leaf x {\n    type int8 {\n      pattern a;\n    }\n  }\n"
        ∷ codes "  typedef u { type union { type string; type int8; } }\n  leaf x {\n    type u { pattern a; }\n  }\n"
        ∷ codes "  leaf y { type string; }\n  typedef r { type leafref { path /y; } }\n  leaf x {\n    type r { pattern a; }\n  }\n"
        ∷ codes "  typedef t { type string { length 1..3; pattern \"[a-z]+\"; } }\n  leaf x { type t { pattern a.*; length 2; } }\n" ∷ [])
        ≡ told 10 0 6 ∷ told 10 0 7 ∷ told 10 0 8 ∷ nodes (codes "x" ∷ []) ∷ [] }
    ensures modifiers { map with_all (codes "  leaf x { type string { pattern a { modifier x; } } }\n"
        ∷ codes "  leaf x {\n    type string {\n      pattern a { modifier invert-match; modifier invert-match; }\n    }\n  }\n" ∷ []) ≡ told 3 0 5 ∷ told 2 0 7 ∷ [] }
    ensures of_yang_1 { map with_all_in_1 (codes "  leaf x { type string { pattern a; } }\n"
        ∷ codes "  leaf x {\n    type string { pattern a { modifier invert-match; } }\n  }\n" ∷ []) ≡ nodes (codes "x" ∷ []) ∷ told 1 0 6 ∷ [] }
    ensures in_the_core { outcome_in core (text_in_1_1 (codes "  leaf x { type string { pattern a; } }\n") ∷ []) ≡ told 1 0 5 }
{}

/// One that spells none is told where it stands, in the order of types that are wrong.
pub fn unread()
    ensures each { map with_all (codes "  leaf x {\n    type string {\n      pattern \"[a\";\n    }\n  }\n"
        ∷ codes "  leaf y { type string { pattern \"(\"; } }\n  leaf x { type int8 { length 1; } }\n"
        ∷ codes "  leaf x { type int8 { length 1; } } leaf y { type string { pattern \"(\"; } }\n"
        ∷ codes "  typedef t { type string { pattern \"(\"; } }\n  leaf x { type t { length 3..2; } }\n" ∷ [])
        ≡ told 20 0 7 ∷ told 20 0 5 ∷ told 10 0 5 ∷ told 20 0 5 ∷ [] }
{}

/// A default is one of the values, and of a document the first restriction that excludes a value is told, a length ahead of the
/// patterns of its type.
pub fn values()
    ensures defaults { map with_all (codes "  leaf x {\n    type string { pattern \"[a-z]+\"; }\n    default a1;\n  }\n"
        ∷ codes "  typedef t { type string { pattern \"[a-z]+\"; } }\n  leaf x {\n    type t { pattern b.* { modifier invert-match; } }\n    default b;\n  }\n" ∷ [])
        ≡ told 11 0 5 ∷ told 11 0 6 ∷ [] }
    ensures documents { map (tags_with (codes "  typedef t { type string { pattern \"[a-z]+\" { error-app-tag low; } } }\n  leaf x { type t { pattern \"a.*\" { error-app-tag a; } length 1..3 { error-app-tag len; } pattern .*b { modifier invert-match; } } }\n"))
        (codes "{\"m:x\":\"B\"}" ∷ codes "{\"m:x\":\"bbbb\"}" ∷ codes "{\"m:x\":\"bb\"}" ∷ codes "{\"m:x\":\"ab\"}" ∷ codes "{\"m:x\":\"abc\"}" ∷ [])
        ≡ Some ((1, Some (codes "low")) ∷ []) ∷ Some ((1, Some (codes "len")) ∷ []) ∷ Some ((1, Some (codes "a")) ∷ []) ∷ Some ((1, None) ∷ []) ∷ Some [] ∷ [] }
{}
