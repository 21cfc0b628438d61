//! Nodes without a type: where they stand, what may name them, and what documents have for them.

ghost use Rattle.std.specs.Prelude.{◌≡◌, ◌++◌, true, [], ◌∷◌, codes, map, replicate, Some, Ok, Err};
ghost use Rattle.yspec_wide.specs.Language.{core, rfc_with};
ghost use Rattle.yspec_wide.specs.Samples.{told, nodes, nested, outcome_in, with_all, with_all_in_1, with_unjudged, written_with, faults_with, text_in_1_1};

/// Where each stands, and what stands below it.
pub fn places()
    ensures taken { map with_all (codes "  anydata a;\n  anyxml b { config false; mandatory true; status deprecated; description d; reference e; }\n"
        ∷ codes "  list l { key k; leaf k { type string; } anydata a; }\n  choice h { anydata b; case d { anyxml e; } }\n  augment /l { anyxml i; }\n"
        ∷ codes "  feature f;\n  grouping g { anyxml a { if-feature f; } anydata b { if-feature \"not f\"; } }\n  container c { uses g { refine a { mandatory true; config false; } } }\n"
        ∷ codes "  rpc r { input { anydata a; } output { anyxml b; } }\n  notification n { anydata a; }\n" ∷ [])
        ≡ nodes (codes "a" ∷ codes "b" ∷ []) ∷ nodes (codes "l" ∷ codes "k" ∷ codes "a" ∷ codes "i" ∷ codes "h" ∷ codes "b" ∷ codes "b" ∷ codes "d" ∷ codes "e" ∷ [])
        ∷ nodes (codes "c" ∷ codes "a" ∷ []) ∷ nodes [] ∷ [] }
    ensures misplaced { map with_all (codes "  anydata a {\n    default x;\n  }\n" ∷ codes "  anyxml a {\n    type string;\n  }\n" ∷ codes "  anydata;\n" ∷ codes "  anyxml a { config true; config true; }\n"
        ∷ codes "  anydata a {\n    leaf b { type string; }\n  }\n" ∷ codes "  leaf a {\n    type string;\n    anydata b;\n  }\n" ∷ [])
        ≡ told 1 0 6 ∷ told 1 0 6 ∷ told 3 0 5 ∷ told 2 0 5 ∷ told 1 0 6 ∷ told 1 0 7 ∷ [] }
    ensures of_yang_1 { map with_all_in_1 (codes "  anyxml a;\n  choice h { anyxml b; }\n  rpc r { input { anyxml c; } }\n  notification n { anyxml d; }\n" ∷ codes "  anydata a;\n" ∷ codes "  container c {\n    anydata a;\n  }\n"
        ∷ codes "  rpc r {\n    input {\n      anydata a;\n    }\n  }\n" ∷ [])
        ≡ nodes (codes "a" ∷ codes "h" ∷ codes "b" ∷ codes "b" ∷ []) ∷ told 1 0 5 ∷ told 1 0 6 ∷ told 1 0 7 ∷ [] }
    ensures conditions { map (with_unjudged true true) (codes "  anydata a { must b; when c; }\n" ∷ codes "  anyxml a {\n    when b;\n    when c;\n  }\n" ∷ [])
        ≡ nodes (codes "a" ∷ []) ∷ told 2 0 5 ∷ [] }
    ensures in_the_core { map (λ lines. outcome_in core (text_in_1_1 lines ∷ [])) (codes "  anydata a;\n" ∷ codes "  anyxml a;\n" ∷ []) ≡ told 1 0 5 ∷ told 1 0 5 ∷ [] }
    ensures levels { map with_all (nested 30 (codes "anydata a;") ∷ nested 31 (codes "anydata a;") ∷ nested 31 (codes "leaf a { type string; }") ∷ [])
        ≡ nodes (replicate 30 (codes "c") ++ codes "a" ∷ []) ∷ told 18 0 1 ∷ nodes (replicate 31 (codes "c") ++ codes "a" ∷ []) ∷ [] }
{}

/// Names differ, and what is configuration; no key, `unique` or leafref names them, no refine gives them a default, nothing is added below
/// them.
pub fn names()
    ensures siblings { map with_all (codes "  anydata a;\n  anyxml a;\n" ∷ codes "  container c { config false;\n    anyxml a { config true; }\n  }\n" ∷ codes "  choice h { default a;\n    anydata a { mandatory true; }\n  }\n" ∷ [])
        ≡ told 13 0 6 ∷ told 16 0 6 ∷ told 11 0 5 ∷ [] }
    ensures named { map with_all (codes "  list l { key a; anyxml a; }\n" ∷ codes "  list l { key k; unique b; leaf k { type string; } anydata b; }\n" ∷ codes "  anydata a;\n  leaf b { type leafref { path /a; } }\n"
        ∷ codes "  anydata a;\n  leaf b { type union { type leafref { path /a; } type string; } }\n" ∷ codes "  grouping g { anyxml a; }\n  uses g {\n    refine a { default x; }\n  }\n"
        ∷ codes "  anydata a;\n  augment /a { leaf b { type string; } }\n" ∷ [])
        ≡ told 12 0 5 ∷ told 12 0 5 ∷ told 17 0 6 ∷ told 17 0 6 ∷ told 14 0 7 ∷ told 14 0 6 ∷ [] }
{}

/// What documents have for them is kept; of a member that comes twice the last, members in order.
pub fn values()
    ensures kept { map (written_with (codes "  anydata a;\n  anyxml b;\n")) (codes "{\"m:b\": [1, true, {\"y\": null, \"x\": \"\\u0041\"}], \"m:a\": {\"z\": 1, \"n:y\": [[], {}], \"z\": -2}}"
        ∷ codes "{\"m:b\": null}" ∷ codes "{\"m:b\": \"\"}" ∷ codes "{\"m:a\": {}}" ∷ [])
        ≡ Some (Ok (codes "{\"m:a\":{\"n:y\":[[],{}],\"z\":-2},\"m:b\":[1,true,{\"x\":\"A\",\"y\":null}]}"))
        ∷ Some (Ok (codes "{\"m:b\":null}")) ∷ Some (Ok (codes "{\"m:b\":\"\"}")) ∷ Some (Ok (codes "{\"m:a\":{}}")) ∷ [] }
    ensures refused { map (written_with (codes "  anydata a;\n  anyxml b;\n")) (codes "{\"m:a\": [1]}" ∷ codes "{\"m:a\": null}" ∷ codes "{\"m:a\": \"x\"}" ∷ [])
        ≡ Some (Err 5) ∷ Some (Err 5) ∷ Some (Err 5) ∷ [] }
    ensures fractions { map (written_with (codes "  anydata a;\n  anyxml b;\n")) (codes "{\"m:b\": 1.5}" ∷ codes "{\"m:a\": {\"x\": [18446744073709551616]}}" ∷ codes "{\"m:a\": {\"x\": [18446744073709551615, -9223372036854775808]}}" ∷ [])
        ≡ Some (Err 6) ∷ Some (Err 6) ∷ Some (Ok (codes "{\"m:a\":{\"x\":[18446744073709551615,-9223372036854775808]}}")) ∷ [] }
    ensures faults { map (faults_with [] (codes "  container c { presence p; anydata a { mandatory true; } }\n  anyxml b;\n")) (codes "{}" ∷ codes "{\"m:c\": {}}" ∷ codes "{\"m:c\": {\"a\": {\"x\": 1}}, \"m:b\": \"y\"}" ∷ [])
        ≡ Some [] ∷ Some (3 ∷ []) ∷ Some [] ∷ [] }
{}
