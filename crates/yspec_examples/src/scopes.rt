//! Worked examples of linking: imports, what names mean where they stand, circles, and types by way of typedefs.

ghost use Rattle.std.specs.Prelude.{◌≡◌, ◌++◌, [], ◌∷◌, codes, pos, true, false, Some, None};
ghost use Rattle.yspec.specs.edit.Examples.{module_text};
ghost use Rattle.yspec_examples.specs.RunExamples.{counted, shown, without_faults};
ghost use Rattle.yspec_examples.specs.Printing.{failed, found};
ghost use Rattle.yspec.specs.types.Ranges.{within};
ghost use Rattle.yspec.specs.types.Types.{integer_base, uint8, single};
ghost use Rattle.yspec.specs.linking.TypeStatements.{own, of_target};
ghost use Rattle.yspec.specs.linking.Circles.{import_circles, definition_circles};
ghost use Rattle.yspec_examples.specs.CompilingSamples.{compiled_lines, told_at};
ghost use Rattle.yspec_examples.specs.ScopeSamples.{told_of_names, told_line, all_told, named_at, type_at, default_at, chained, circular};

/// Imports of what is in the set, or isn't, and of the newest revision or another.
pub fn imports()
    ensures met { told_of_names (module_text (codes "a") (codes "  import b { prefix x; }\n")
        ∷ module_text (codes "b") [] ∷ []) ≡ None }
    ensures met_before { told_of_names (module_text (codes "b") []
        ∷ module_text (codes "a") (codes "  import b { prefix x; }\n") ∷ []) ≡ None }
    ensures missing { told_of_names (module_text (codes "a") (codes "  import c {\n    prefix x; }\n")
        ∷ module_text (codes "b") [] ∷ []) ≡ Some (5, (0, 5)) }
    ensures newest { told_of_names
        (module_text (codes "a") (codes "  import b { prefix x; revision-date 2020-01-02; }\n")
        ∷ module_text (codes "b") (codes "  revision 2019-12-31;\n  revision 2020-01-02;\n  revision 2020-01-01;\n")
        ∷ []) ≡ None }
    ensures older { told_of_names
        (module_text (codes "a") (codes "  import b { prefix x; revision-date 2020-01-01; }\n")
        ∷ module_text (codes "b") (codes "  revision 2020-01-01;\n  revision 2020-01-02;\n")
        ∷ []) ≡ Some (5, (0, 5)) }
    ensures undated { told_of_names
        (module_text (codes "a") (codes "  import b { prefix x; revision-date 2020-01-01; }\n")
        ∷ module_text (codes "b") [] ∷ []) ≡ Some (5, (0, 5)) }
    ensures prefix_twice { told_of_names
        (module_text (codes "a") (codes "  import b { prefix x; }\n  import c {\n    prefix x; }\n")
        ∷ module_text (codes "b") [] ∷ module_text (codes "c") [] ∷ []) ≡ Some (6, (0, 7)) }
    ensures own_prefix_behind { told_of_names
        (codes "module a { yang-version 1.1; namespace a;\n  import b { prefix x; }\n  prefix x;\n}"
        ∷ module_text (codes "b") [] ∷ []) ≡ Some (6, (0, 3)) }
    ensures module_twice { told_of_names (module_text (codes "b") [] ∷ module_text (codes "b") [] ∷ [])
        ≡ Some (7, (1, 1)) }
{}

/// Circles of imports: all that lie on one are told, and none that leads to it.
pub fn circles_of_imports()
    ensures itself { all_told import_circles (module_text (codes "a") (codes "  import a { prefix x; }\n") ∷ [])
        ≡ (9, (0, 5)) ∷ [] }
    ensures two { all_told import_circles
        (module_text (codes "a") (codes "  import b { prefix b; }\n  import c { prefix c; }\n")
        ∷ module_text (codes "b") (codes "\n  import a { prefix a; }\n")
        ∷ module_text (codes "c") (codes "  import d { prefix d; }\n")
        ∷ module_text (codes "e") (codes "  import a { prefix a; }\n") ∷ [])
        ≡ (9, (0, 5)) ∷ (9, (1, 6)) ∷ [] }
    ensures first_of_two { told_of_names (module_text (codes "a") (codes "  import b { prefix b; }\n")
        ∷ module_text (codes "b") (codes "\n  import a { prefix a; }\n") ∷ []) ≡ Some (9, (0, 5)) }
    ensures first_of_two_turned { told_of_names
        (module_text (codes "b") (codes "\n  import a { prefix a; }\n")
        ∷ module_text (codes "a") (codes "  import b { prefix b; }\n") ∷ []) ≡ Some (9, (0, 6)) }
    ensures first_of_three { told_of_names (module_text (codes "d") (codes "  import a { prefix a; }\n")
        ∷ module_text (codes "c") (codes "\n\n  import a { prefix a; }\n")
        ∷ module_text (codes "a") (codes "  import b { prefix b; }\n")
        ∷ module_text (codes "b") (codes "\n  import c { prefix c; }\n") ∷ []) ≡ Some (9, (1, 7)) }
{}

/// Edges on circles, between circles, and off them.
pub fn circles_of_edges()
    ensures alone { circular ((0, 0) ∷ []) ≡ true ∷ [] }
    ensures into_and_out { circular ((0, 1) ∷ (1, 2) ∷ (2, 1) ∷ (2, 3) ∷ [])
        ≡ false ∷ true ∷ true ∷ false ∷ [] }
    ensures between { circular ((0, 1) ∷ (1, 0) ∷ (1, 2) ∷ (2, 3) ∷ (3, 2) ∷ [])
        ≡ true ∷ true ∷ false ∷ true ∷ true ∷ [] }
    ensures two_ways { circular ((0, 1) ∷ (0, 2) ∷ (1, 3) ∷ (2, 3) ∷ [])
        ≡ false ∷ false ∷ false ∷ false ∷ [] }
    ensures in_any_order { circular ((5, 0) ∷ (2, 5) ∷ (0, 2) ∷ (4, 0) ∷ (3, 3) ∷ [])
        ≡ true ∷ true ∷ true ∷ false ∷ true ∷ [] }
{}

/// Names that are taken: twice in one statement, by an outer statement, by a built-in type.
pub fn taken_names()
    ensures twice { told_line (codes "  typedef t { type string; }\n  typedef t { type uint8; }\n")
        ≡ Some (7, 6) }
    ensures kinds_apart { told_line (codes "  typedef t { type string; }\n  grouping t;\n") ≡ None }
    ensures groupings { told_line (codes "  grouping g;\n  grouping g;\n") ≡ Some (7, 6) }
    ensures outer_before { told_line
        (codes "  typedef t { type string; }\n  container c {\n    typedef t { type string; }\n  }\n")
        ≡ Some (7, 7) }
    ensures outer_behind { told_line
        (codes "  container c {\n    typedef t { type string; }\n  }\n  typedef t { type string; }\n")
        ≡ Some (7, 6) }
    ensures beside { told_line
        (codes "  container c { typedef t { type string; } }\n  container d { typedef t { type string; } }\n")
        ≡ None }
    ensures in_itself { told_line (codes "  grouping g {\n    grouping g;\n  }\n") ≡ Some (7, 6) }
    ensures built_in { told_line (codes "  typedef uint8 { type string; }\n") ≡ Some (7, 5) }
    ensures built_in_outside { told_line (codes "  typedef binary { type string; }\n") ≡ Some (7, 5) }
{}

/// What a name means: a definition of an ancestor, or one at the top of another module.
pub fn meanings()
    ensures inner { named_at (module_text (codes "m")
        (codes "  container c { typedef t { type string; } leaf a { type t; } }\n") ∷ []) 8 ≡ Some 5 }
    ensures behind { named_at (module_text (codes "m")
        (codes "  leaf a { type m:t; }\n  typedef t { type string; }\n") ∷ []) 5 ≡ Some 6 }
    ensures of_another { named_at (module_text (codes "a")
        (codes "  import b { prefix x; }\n  typedef t { type string; }\n  leaf a { type x:t; }\n")
        ∷ module_text (codes "b") (codes "  typedef t { type uint8; }\n") ∷ []) 9 ≡ Some 14 }
    ensures a_grouping { named_at (module_text (codes "m")
        (codes "  typedef g { type string; }\n  grouping g;\n  container c { uses g; }\n") ∷ []) 8 ≡ Some 6 }
    ensures none_for_built_in { named_at (module_text (codes "m") (codes "  leaf a { type string; }\n") ∷ []) 5
        ≡ None }
    ensures beside { told_line
        (codes "  container c { typedef t { type string; } }\n  leaf a { type t; }\n") ≡ Some (8, 6) }
    ensures inner_of_another { told_of_names (module_text (codes "a")
        (codes "  import b { prefix x; }\n  leaf a {\n type x:t; }\n")
        ∷ module_text (codes "b") (codes "  container c { typedef t { type uint8; } }\n") ∷ [])
        ≡ Some (8, (0, 7)) }
    ensures without_the_module { told_of_names (module_text (codes "a")
        (codes "  leaf a { type x:t; }\n  import b { prefix x; }\n") ∷ []) ≡ Some (8, (0, 5)) }
    ensures own_prefix_of_built_in { told_line (codes "  leaf a { type m:string; }\n") ≡ Some (8, 5) }
    ensures lost_grouping { told_line (codes "  container c { uses g; }\n") ≡ Some (8, 5) }
    ensures unused { told_line (codes "  grouping g { leaf a {\n type t; } }\n") ≡ Some (8, 6) }
{}

/// With the own prefix a name means what it means without one: a definition of an ancestor, too.
pub fn own_prefixes()
    ensures typedef { shown (module_text (codes "m") (codes "  container c {\n    typedef t { type uint8 { range 1..5; } }\n    leaf a { type m:t; }\n  }\n"))
        (codes "{\"m:c\":{\"a\":6}}") ≡ found 1 (codes "V1 invalid-value - /m:c/a -\n1 faults\n") }
    ensures grouping { shown (module_text (codes "m") (codes "  container c {\n    grouping g { leaf a { type string; } }\n    uses m:g;\n  }\n"))
        (codes "{\"m:c\":{\"a\":\"x\"}}") ≡ without_faults }
{}

/// A grouping may be named as a built-in type, and `uses` means it.
pub fn groupings_named_as_built_in_types()
    ensures unused { counted (module_text (codes "m")
        (codes "  grouping string { leaf a { type string; } }\n")) ≡ found 0 (codes "0 nodes\n") }
    ensures used { counted (module_text (codes "m")
        (codes "  grouping string { leaf a { type string; } }\n  uses string;\n"))
        ≡ found 0 (codes "1 nodes\n") }
    ensures outside { counted (module_text (codes "m")
        (codes "  grouping binary { leaf a { type uint8; } }\n  uses binary;\n"))
        ≡ found 0 (codes "1 nodes\n") }
    ensures lost { counted (module_text (codes "m") (codes "  uses string;\n"))
        ≡ failed 2 (codes "m.yang:5: C8") }
{}

/// Typedefs and groupings that refer to themselves.
pub fn circles_of_definitions()
    ensures a_typedef { told_line (codes "  typedef t { type t; }\n") ≡ Some (9, 5) }
    ensures two_typedefs { all_told definition_circles (module_text (codes "m")
        (codes "  typedef a { type b; }\n  typedef b { type a; }\n  typedef c { type a; }\n") ∷ [])
        ≡ (9, (0, 5)) ∷ (9, (0, 6)) ∷ [] }
    ensures a_member { all_told definition_circles (module_text (codes "m")
        (codes "  typedef a {\n    type union {\n      type string;\n      type b; } }\n  typedef b { type a; }\n")
        ∷ []) ≡ (9, (0, 8)) ∷ (9, (0, 9)) ∷ [] }
    ensures a_grouping { told_line (codes "  grouping h { uses h; }\n") ≡ Some (9, 5) }
    ensures an_inner_grouping { all_told definition_circles (module_text (codes "m")
        (codes "  grouping g {\n    grouping h { uses g; }\n    uses h; }\n") ∷ [])
        ≡ (9, (0, 6)) ∷ (9, (0, 7)) ∷ [] }
    ensures used_in_its_body { all_told definition_circles (module_text (codes "m")
        (codes "  grouping g { grouping h { uses k; } }\n  grouping k { uses g; }\n") ∷ []) ≡ [] }
{}

/// Types by way of typedefs: each range stands behind that of the type within, and must lie within it.
pub fn derived_types()
    ensures chain { type_at (module_text (codes "m") (codes "  typedef a { type uint8 { range 0..9; } }\n  typedef b { type a { range 1..5; } }\n  leaf c { type b; }\n")
        ∷ []) 11 ≡ Some (own (record {
          shape = single (record {
            base = integer_base uint8;
            limits = record { test = within (record { low = pos 0; high = pos 9 } ∷ []); error = record { message = None; app_tag = None } }
                ∷ record { test = within (record { low = pos 1; high = pos 5 } ∷ []); error = record { message = None; app_tag = None } } ∷ [];
          });
          requires_instance = None;
        })) }
    ensures wider { told_line (codes "  typedef a { type int32 { range 1..10; } }\n  typedef b { type a { range 0..10; } }\n")
        ≡ Some (10, 6) }
    ensures by_the_typedef { told_line (codes "  typedef a { type int32 { range 1..10; } }\n  leaf b { type a { range 1..11; } }\n")
        ≡ Some (10, 6) }
    ensures not_judged_behind { told_line (codes "  typedef b { type a { range 0..11; } }\n  typedef a { type int32 { range 10..1; } }\n")
        ≡ Some (10, 6) }
    ensures in_a_list_of_a_grouping { told_line (codes "  grouping g {\n    list l {\n      key k;\n      typedef t { type uint8 { range 1..5; } }\n      leaf k { type t { range 2..6; } } } }\n")
        ≡ Some (10, 9) }
    ensures length_of_a_number { told_line (codes "  typedef a { type int32; }\n  leaf b { type a { length 1; } }\n")
        ≡ Some (10, 6) }
    ensures enum_of_a_derived_type { told_line (codes "  typedef a { type enumeration { enum x; } }\n  leaf b { type a { enum x; } }\n")
        ≡ Some (10, 6) }
    ensures leafref_member { told_line (codes "  typedef a { type leafref { path /b; } }\n  leaf b { type union {\n type string;\n type a; } }\n")
        ≡ Some (10, 8) }
    ensures instance_required { type_at (module_text (codes "m") (codes "  typedef a { type leafref { path /b; require-instance false; } }\n  leaf b { type a; }\n  leaf c { type a { require-instance true; } }\n")
        ∷ []) 9 ≡ Some (of_target 0 (record { prefix = None; identifier = codes "b" } ∷ []) false) }
    ensures instance_required_again { type_at (module_text (codes "m") (codes "  typedef a { type leafref { path /b; require-instance false; } }\n  leaf b { type a; }\n  leaf c { type a { require-instance true; } }\n")
        ∷ []) 11 ≡ Some (of_target 0 (record { prefix = None; identifier = codes "b" } ∷ []) true) }
    ensures range_of_a_reference { told_line (codes "  typedef a { type leafref { path /m:b; } }\n  leaf b { type uint8; }\n  leaf c { type a { range 1..2; } }\n")
        ≡ Some (10, 7) }
    ensures length_of_a_reference { told_line (codes "  typedef a { type leafref { path /m:b; } }\n  leaf b { type string; }\n  leaf c { type a { length 1; } }\n")
        ≡ Some (10, 7) }
    ensures path_of_a_reference { told_line (codes "  typedef a { type leafref { path /m:b; } }\n  leaf b { type uint8; }\n  leaf c { type a { path /m:b; } }\n")
        ≡ Some (10, 7) }
    ensures path_of_another { type_at (module_text (codes "a") (codes "  import b { prefix x; }\n  leaf c { type x:r; }\n")
        ∷ module_text (codes "b") (codes "  typedef r { type leafref { path /x; } }\n") ∷ []) 7
        ≡ Some (of_target 1 (record { prefix = None; identifier = codes "x" } ∷ []) true) }
{}

/// A chain of twenty typedefs, whose range and default are judged by way of all.
pub fn long_chains()
    ensures whole { told_line (chained 20 (codes "100")) ≡ None }
    ensures counted { counted (module_text (codes "m") (chained 20 (codes "100")))
        ≡ found 0 (codes "1 nodes\n") }
    ensures default_refused { compiled_lines (chained 20 (codes "101")) ≡ told_at 11 26 }
{}

/// The default that a type has: the nearest typedef's that states one.
pub fn defaults_of_types()
    ensures nearest { default_at (module_text (codes "m") (codes "  typedef a { type uint8; default 3; }\n  typedef b { type a; default 4; }\n  typedef c { type b; }\n  leaf d { type c; }\n")
        ∷ []) 13 ≡ Some (codes "4") }
    ensures behind { default_at (module_text (codes "m") (codes "  typedef a { type uint8; default 3; }\n  leaf d { type a; }\n")
        ∷ []) 8 ≡ Some (codes "3") }
    ensures none { default_at (module_text (codes "m") (codes "  leaf d { type uint8; default 3; }\n")
        ∷ []) 5 ≡ None }
{}
