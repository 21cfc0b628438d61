//! Versions of YANG: what is read in each.

ghost use Rattle.std.specs.Prelude.{◌≡◌, [], ◌∷◌, codes, map, Some, None};
ghost use Rattle.yspec_wide.specs.Language.{core, rfc_with, yang_1, yang_1_1};
ghost use Rattle.yspec_wide.specs.Samples.{told, nodes, slips, spells, reading_of, outcome_in, with_all, with_all_in_1, text_in_1, text_in_1_1};

/// A module says YANG 1 or YANG 1.1, or nothing, which is YANG 1. The core reads YANG 1.1 alone, and no features.
pub fn versions()
    ensures unsaid { outcome_in (rfc_with []) (codes "module m {\n  namespace urn:m;\n  prefix m;\n  leaf-list l { type string; default x; }\n}\n" ∷ []) ≡ told 1 0 4 }
    ensures unknown { outcome_in (rfc_with []) (codes "module m {\n  namespace urn:m;\n  yang-version 1.2;\n  prefix m;\n}\n" ∷ []) ≡ told 4 0 3 }
    ensures in_the_core { outcome_in core (text_in_1 (codes "  leaf l { type string; }\n") ∷ []) ≡ told 4 0 1 }
    ensures no_feature_in_the_core { outcome_in core (text_in_1_1 (codes "  leaf l { type string; }\n  feature a;\n") ∷ []) ≡ told 1 0 6 }
{}

/// What YANG 1 lacks of YANG 1.1: statements, types that may be used, and an import by revision of a module of YANG 1.1.
pub fn lacking()
    ensures statements { map with_all_in_1 (codes "  leaf-list l { type string; default x; }\n"
        ∷ codes "  feature a;\n  leaf x {\n    if-feature a;\n    type enumeration {\n      enum p { if-feature a; }\n    }\n  }\n"
        ∷ codes "  identity a;\n  identity b;\n  identity c { base a; base b; }\n"
        ∷ codes "  import n { prefix xml; }\n  leaf XMl-a { type string; }\n" ∷ [])
        ≡ told 1 0 5 ∷ told 1 0 9 ∷ told 2 0 7 ∷ told 3 0 6 ∷ [] }
    ensures types { map with_all_in_1 (codes "  leaf x { type string; }\n  leaf y {\n    type leafref { path /x; require-instance true; }\n  }\n"
        ∷ codes "  leaf x {\n    type union {\n      type string;\n      type empty;\n    }\n  }\n"
        ∷ codes "  list l {\n    key k;\n    leaf k { type empty; }\n  }\n" ∷ [])
        ≡ told 10 0 7 ∷ told 10 0 8 ∷ told 12 0 5 ∷ [] }
    ensures later_import { outcome_in (rfc_with []) (text_in_1 (codes "  import n { prefix n; revision-date 2020-01-01; }\n")
        ∷ codes "module n { yang-version 1.1; namespace urn:n; prefix n; revision 2020-01-01; }" ∷ []) ≡ told 5 0 5 }
    ensures of_yang_1_1 { with_all (codes "  leaf-list l { type string; default x; }\n  leaf y {\n    type leafref { path /l; require-instance true; }\n  }\n  leaf XMl-a { type union { type empty; } }\n")
        ≡ nodes (codes "l" ∷ codes "y" ∷ codes "XMl-a" ∷ []) }
{}

/// In YANG 1 an argument may hold quotes, a keyword may not, and a backslash before most characters is itself.
pub fn texts()
    ensures of_yang_1 { reading_of (codes "m a\"b { x'c' 'd'; e \"\\q\\n\"; }") ≡ slips 5 1 }
    ensures quotes { reading_of (codes "m a\"b { x'c'; e \"\\q\\\\\"; }")
        ≡ spells yang_1 ((codes "m", Some (codes "a\"b")) ∷ (codes "x", Some (codes "c")) ∷ (codes "e", Some (codes "\\q\\")) ∷ []) }
    ensures of_yang_1_1 { map reading_of (codes "m a { yang-version 1.1; e \"\\q\"; }" ∷ codes "m a { yang-version \"1\" + '.1'; x a\"b\"; }" ∷ []) ≡ slips 4 1 ∷ slips 5 1 ∷ [] }
    ensures wrong_before_the_version { map reading_of (codes "m a { e \"\\q\"; 9 b; yang-version 1.1; }" ∷ codes "m a { e \"\\q\"; yang-version 1.1 }" ∷ []) ≡ slips 8 1 ∷ slips 5 1 ∷ [] }
    ensures version_of_another { reading_of (codes "m a { c { yang-version 1.1; } e \"\\\\\\q\"; }")
        ≡ spells yang_1 ((codes "m", Some (codes "a")) ∷ (codes "c", None) ∷ (codes "yang-version", Some (codes "1.1")) ∷ (codes "e", Some (codes "\\\\q")) ∷ []) }
{}
