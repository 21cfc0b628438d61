//! Unions with leafrefs among their members (RFC 7950, 9.9 and 9.12): where they may stand, and what their values refer to.

ghost use Rattle.std.specs.Prelude.{◌≡◌, [], ◌∷◌, ◌++◌, codes, map, Some, None};
ghost use Rattle.yspec_wide.specs.Language.{core};
ghost use Rattle.yspec_wide.specs.Samples.{told, nodes, outcome_in, with_all, with_all_in_1, text_in_1_1, faults_with, referring_union};

/// A leafref is a member in YANG 1.1 alone, by itself or by a typedef, and such a union bears no restriction.
pub fn places()
    ensures members { map with_all (codes "  leaf y { type string; }\n  leaf x { type union { type uint8; type leafref { path /y; } } }\n"
        ∷ codes "  leaf y { type string; }\n  typedef r { type leafref { path /m:y; } }\n  typedef u { type union { type uint8; type r; } }\n  leaf x { type union { type u; type r { require-instance false; } } }\n" ∷ [])
        ≡ nodes (codes "y" ∷ codes "x" ∷ []) ∷ nodes (codes "y" ∷ codes "x" ∷ []) ∷ [] }
    ensures in_yang_1 { map with_all_in_1 (referring_union
        ∷ codes "  leaf y { type string; }\n  typedef r { type leafref { path /m:y; } }\n  leaf x {\n    type union {\n      type r;\n    }\n  }\n" ∷ [])
        ≡ told 10 0 8 ∷ told 10 0 9 ∷ [] }
    ensures in_the_core { outcome_in core (text_in_1_1 referring_union ∷ []) ≡ told 10 0 8 }
    ensures restricted { map with_all (codes "  leaf y { type string; }\n  typedef u { type union { type leafref { path /y; } } }\n  leaf x {\n    type u { require-instance false; }\n  }\n"
        ∷ codes "  leaf y { type string; }\n  typedef u { type union { type leafref { path /y; } } }\n  leaf x {\n    type u { pattern a; }\n  }\n" ∷ [])
        ≡ told 10 0 8 ∷ told 10 0 8 ∷ [] }
    ensures wrong_beside { with_all (codes "  leaf y { type string; }\n  leaf x {\n    type union {\n      type leafref { path /y; }\n      type uint8 { length 1; }\n    }\n  }\n")
        ≡ told 10 0 9 }
{}

/// Members lead to leafs and leaf-lists, not in circles, and not from configuration to state where an instance is required.
pub fn references()
    ensures nowhere { map with_all (codes "  container y;\n  leaf x { type union { type string; type leafref { path /y; } } }\n"
        ∷ codes "  leaf x { type union { type string; type leafref { path /y; } } }\n" ∷ []) ≡ told 17 0 6 ∷ told 17 0 5 ∷ [] }
    ensures circles { map with_all (codes "  leaf x { type union { type string; type leafref { path /x; } } }\n"
        ∷ codes "  leaf y { type leafref { path /x; } }\n  leaf x { type union { type leafref { path /y; } type string; } }\n"
        ∷ codes "  leaf a { type union { type leafref { path /b; } type string; } }\n  leaf b { type string; }\n  leaf c { type union { type leafref { path /d; } type string; } }\n  leaf d { type union { type leafref { path /b; } type leafref { path /c; } } }\n" ∷ [])
        ≡ told 17 0 5 ∷ told 17 0 5 ∷ told 17 0 7 ∷ [] }
    ensures state { map with_all (codes "  leaf y { config false; type string; }\n  leaf x { type union { type uint8; type leafref { path /y; } } }\n"
        ∷ codes "  leaf y { config false; type string; }\n  leaf x { type union { type uint8; type leafref { path /y; require-instance false; } } }\n" ∷ [])
        ≡ told 17 0 6 ∷ nodes (codes "y" ∷ codes "x" ∷ []) ∷ [] }
    ensures defaults { map with_all (codes "  leaf y { type uint8; }\n  leaf x { type union { type leafref { path /y; } type boolean; } default 7; }\n"
        ∷ codes "  leaf y { type uint8; }\n  leaf x { type union { type leafref { path /y; } type boolean; } default 300; }\n" ∷ [])
        ≡ nodes (codes "y" ∷ codes "x" ∷ []) ∷ told 11 0 6 ∷ [] }
{}

/// The first member that takes a value decides; where that is a leafref's, V11 is asked of it.
pub fn values()
    ensures of_one { map (faults_with [] (codes "  leaf-list y { type uint8; }\n  leaf x { type union { type enumeration { enum a; } type leafref { path /y; } type int16; } }\n"))
        (codes "{\"m:x\":\"a\"}" ∷ codes "{\"m:x\":7}" ∷ codes "{\"m:y\":[6],\"m:x\":7}" ∷ codes "{\"m:y\":[6,7],\"m:x\":7}" ∷ codes "{\"m:x\":300}" ∷ codes "{\"m:x\":\"b\"}" ∷ [])
        ≡ Some [] ∷ Some (11 ∷ []) ∷ Some (11 ∷ []) ∷ Some [] ∷ Some [] ∷ Some (1 ∷ []) ∷ [] }
    ensures not_required { map (faults_with [] (codes "  leaf-list y { type uint8; }\n  typedef r { type leafref { path /m:y; } }\n  leaf x { type union { type r { require-instance false; } type boolean; } }\n"))
        (codes "{\"m:x\":7}" ∷ codes "{\"m:x\":300}" ∷ codes "{\"m:x\":true}" ∷ []) ≡ Some [] ∷ Some (1 ∷ []) ∷ Some [] ∷ [] }
    ensures of_two { map (faults_with [] (codes "  leaf y { type uint8; }\n  leaf z { type uint16; }\n  leaf x { type union { type leafref { path /y; } type leafref { path /z; } } }\n"))
        (codes "{\"m:y\":7,\"m:x\":7}" ∷ codes "{\"m:z\":7,\"m:x\":7}" ∷ codes "{\"m:z\":300,\"m:x\":300}" ∷ codes "{\"m:y\":7,\"m:x\":300}" ∷ [])
        ≡ Some [] ∷ Some (11 ∷ []) ∷ Some [] ∷ Some (11 ∷ []) ∷ [] }
    ensures to_a_union { map (faults_with [] (codes "  leaf-list y { type union { type uint8; type boolean; } }\n  leaf x { type union { type int8 { range \"-9..-1\"; } type leafref { path /y; } } }\n"))
        (codes "{\"m:y\":[true],\"m:x\":true}" ∷ codes "{\"m:y\":[7],\"m:x\":7}" ∷ codes "{\"m:y\":[7],\"m:x\":true}" ∷ codes "{\"m:y\":[7],\"m:x\":-7}" ∷ [])
        ≡ Some [] ∷ Some [] ∷ Some (11 ∷ []) ∷ Some [] ∷ [] }
    ensures to_such_a_union { map (faults_with [] (codes "  leaf-list y { type uint8; }\n  leaf-list u { type union { type boolean; type leafref { path /y; } } }\n  leaf x { type leafref { path /u; } }\n  leaf z { type union { type int8; type leafref { path /u; } } }\n"))
        (codes "{\"m:y\":[7],\"m:u\":[7],\"m:x\":7}" ∷ codes "{\"m:u\":[7],\"m:x\":7}" ∷ codes "{\"m:y\":[7],\"m:x\":7}"
        ∷ codes "{\"m:y\":[200],\"m:u\":[200],\"m:z\":200}" ∷ codes "{\"m:u\":[true],\"m:z\":200}" ∷ codes "{\"m:u\":[true],\"m:z\":true}" ∷ [])
        ≡ Some [] ∷ Some (11 ∷ []) ∷ Some (11 ∷ []) ∷ Some [] ∷ Some (11 ∷ []) ∷ Some [] ∷ [] }
    ensures by_default { map (faults_with [] (codes "  leaf y { type uint8; default 7; }\n  leaf x { type union { type leafref { path /y; } type boolean; } default 8; }\n"))
        (codes "{}" ∷ codes "{\"m:x\":7}" ∷ codes "{\"m:x\":8}" ∷ []) ≡ Some [] ∷ Some [] ∷ Some (11 ∷ []) ∷ [] }
{}

/// Values of such unions are told apart as all are: as items, as keys and in uniques.
pub fn repeated()
    ensures items { map (faults_with [] (codes "  leaf y { type uint8; default 7; }\n  leaf-list x { type union { type boolean; type leafref { path /y; } } }\n"))
        (codes "{\"m:x\":[7,true]}" ∷ codes "{\"m:x\":[7,7]}" ∷ []) ≡ Some [] ∷ Some (10 ∷ 10 ∷ []) ∷ [] }
    ensures entries { map (faults_with [] (codes "  leaf y { type uint8; default 7; }\n  list l { key k; unique u; leaf k { type union { type leafref { path /y; } type boolean; } } leaf u { type union { type boolean; type leafref { path /l/k; } } } }\n"))
        (codes "{\"m:l\":[{\"k\":7},{\"k\":true}]}" ∷ codes "{\"m:l\":[{\"k\":7},{\"k\":7}]}" ∷ codes "{\"m:l\":[{\"k\":7,\"u\":7},{\"k\":true,\"u\":7}]}" ∷ codes "{\"m:l\":[{\"k\":true,\"u\":7}]}" ∷ [])
        ≡ Some [] ∷ Some (8 ∷ 8 ∷ []) ∷ Some (9 ∷ 9 ∷ []) ∷ Some (11 ∷ []) ∷ [] }
{}
