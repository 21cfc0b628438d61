//! Worked examples of identities: which derive from which, what names them in documents and modules, and what is refused.

ghost use Rattle.std.specs.Prelude.{◌≡◌, ◌++◌, [], ◌∷◌, codes, Some, None};
ghost use Rattle.yspec_examples.specs.Printing.{found};
ghost use Rattle.yspec_examples.specs.RunExamples.{faulty, shown, without_faults};
ghost use Rattle.yspec_examples.specs.CompilingSamples.{compiled_lines, compiled_texts, told_at};
ghost use Rattle.yspec_examples.specs.ExpansionSamples.{told_in};
ghost use Rattle.yspec_examples.specs.ScopeSamples.{all_told, told_line, told_of_names};
ghost use Rattle.yspec.specs.edit.Examples.{module_text};
ghost use Rattle.yspec.specs.linking.Circles.{definition_circles};
ghost use Rattle.yspec_examples.specs.IdentitySamples.{shown_of_identities, shown_across, dumped_across};

/// An identity derives from its bases and from all that those derive from, never from itself; a leaf takes those that derive
/// from all its bases, by their names with a module's, or alone where that is the leaf's.
pub fn identities_of_two_modules()
    ensures derived { shown_of_identities
        (codes "{\"i:t\":[\"eth\",\"i:fast\",\"j:opt\",\"base1\",\"odd\",\"opt\",\"i:eth\"]}")
        ≡ found 1 (codes "V10 operation-failed - /i:t[1] -\nV1 invalid-value - /i:t[4] -\nV1 invalid-value - /i:t[5] -\n"
        ++ codes "V1 invalid-value - /i:t[6] -\nV10 operation-failed - /i:t[7] -\n5 faults\n") }
    ensures two_bases { shown_of_identities (codes "{\"j:both\":\"opt\"}") ≡ without_faults }
    ensures one_of_two { shown_of_identities (codes "{\"j:both\":\"i:fast\"}")
        ≡ found 1 (codes "V1 invalid-value - /j:both -\n1 faults\n") }
    ensures with_its_module { shown_of_identities (codes "{\"j:one\":\"i:eth\"}") ≡ without_faults }
    ensures of_another_module { shown_of_identities (codes "{\"j:one\":\"eth\"}")
        ≡ found 1 (codes "V1 invalid-value - /j:one -\n1 faults\n") }
    ensures not_quite_names { shown_of_identities
        (codes "{\"i:t\":[\"\",\"eth:\",\"i:eth:i\",\":eth\"]}")
        ≡ found 1 (codes "V1 invalid-value - /i:t[1] -\nV1 invalid-value - /i:t[2] -\n"
        ++ codes "V1 invalid-value - /i:t[3] -\nV1 invalid-value - /i:t[4] -\n4 faults\n") }
{}

/// A plain name is one of the module of the leaf: that which uses a grouping, whatever module its type stands in. Both
/// spellings of an identity are one value: in tuples, among items, and for references; a leafref's own module counts.
pub fn identities_by_way_of_groupings()
    ensures plain { shown_across (codes "{\"u:v\":\"r1\"}") ≡ without_faults }
    ensures with_the_module_of_the_type { shown_across (codes "{\"u:v\":\"s:r1\"}") ≡ without_faults }
    ensures base_itself { shown_across (codes "{\"u:v\":\"s:r\"}")
        ≡ found 1 (codes "V1 invalid-value - /u:v -\n1 faults\n") }
    ensures prefix_in_a_document { shown_across (codes "{\"u:v\":\"p:r1\"}")
        ≡ found 1 (codes "V1 invalid-value - /u:v -\n1 faults\n") }
    ensures members_of_unions { shown_across
        (codes "{\"u:k\":[\"r1\",\"u:r1\",\"s:r1\",1,\"1\",\"zz\",\"r1\"]}")
        ≡ found 1 (codes "V10 operation-failed - /u:k[1] -\nV10 operation-failed - /u:k[2] -\n"
        ++ codes "V10 operation-failed - /u:k[7] -\n3 faults\n") }
    ensures referred_to { shown_across (codes "{\"u:v\":\"u:r1\",\"u:c\":{\"ref\":\"r1\"}}") ≡ without_faults }
    ensures default_referred_to { shown_across (codes "{\"u:c\":{\"ref\":\"s:r1\"}}") ≡ without_faults }
    ensures another_referred_to { shown_across (codes "{\"u:c\":{\"ref\":\"r1\"}}")
        ≡ found 1 (codes "V11 data-missing instance-required /u:c/ref -\n1 faults\n") }
    ensures in_tuples { shown_across
        (codes "{\"u:l\":[{\"k1\":\"r1\"},{\"k1\":\"u:r1\",\"x\":\"s:r1\"},{\"k1\":\"s:r1\"}]}")
        ≡ found 1 (codes "V8 operation-failed - /u:l[1] -\nV9 operation-failed data-not-unique /u:l[1] 1\n"
        ++ (codes "V8 operation-failed - /u:l[2] -\nV9 operation-failed data-not-unique /u:l[2] 1\n"
        ++ codes "V9 operation-failed data-not-unique /u:l[3] 1\n5 faults\n")) }
{}

/// Keys of edits name identities as documents do.
pub fn edits_by_identities()
    ensures edits { dumped_across
        (codes "{\"u:l\":[{\"k1\":\"r1\"},{\"k1\":\"u:r1\",\"x\":\"s:r1\"},{\"k1\":\"s:r1\"}]}")
        (codes "create /u:l[k1='s:r1']/x \"r1\"\nreplace /u:l[k1='r1']/x \"r1\"\nreplace /u:l[3]/x \"s:r1\"\n"
        ++ codes "remove /u:l[k1='u:r1']\nremove /u:l[1]\nremove /u:l[k1='u:r1']\n")
        ≡ faulty (codes "line 2: E4\nline 4: E6\n") (codes "{\"u:l\":[{\"k1\":\"s:r1\",\"x\":\"s:r1\"}]}\n") }
{}

/// Where identities and their bases may stand, and what a base names.
pub fn statements_of_identities()
    ensures in_a_container { compiled_lines (codes "  container c { identity x; }\n") ≡ told_at 1 5 }
    ensures base_alone { compiled_lines (codes "  base x;\n") ≡ told_at 1 5 }
    ensures below_a_base { compiled_lines (codes "  identity y;\n  identity x {\n    base y { status current; }\n  }\n") ≡ told_at 1 7 }
    ensures no_identifier { compiled_lines (codes "  identity m:x;\n") ≡ told_at 3 5 }
    ensures unknown_prefix { told_line (codes "  identity x { base q:y; }\n") ≡ Some (6, 5) }
    ensures twice { told_line (codes "  identity x;\n  leaf a { type string; }\n  identity x;\n") ≡ Some (7, 7) }
    ensures in_two_modules { told_of_names
        (module_text (codes "a") (codes "  identity x;\n") ∷ module_text (codes "b") (codes "  identity x;\n") ∷ []) ≡ None }
    ensures as_a_typedef { told_line (codes "  typedef x { type string; }\n  grouping x;\n  identity x;\n") ≡ None }
    ensures unknown_base { told_line (codes "  identity x { base y; }\n") ≡ Some (8, 5) }
    ensures a_typedef_is_no_base { told_line (codes "  typedef y { type string; }\n  identity x { base y; }\n") ≡ Some (8, 6) }
    ensures unknown_base_of_a_type { told_line (codes "  leaf a { type identityref { base y; } }\n") ≡ Some (8, 5) }
    ensures own_prefix { told_line (codes "  identity x { base m:y; }\n  identity y;\n") ≡ None }
    ensures its_own_base { told_line (codes "  identity x { base x; }\n") ≡ Some (9, 5) }
    ensures a_circle { all_told definition_circles (module_text (codes "m") (codes "  identity x { base y; }\n  identity y { base x; }\n") ∷ [])
        ≡ (9, (0, 5)) ∷ (9, (0, 6)) ∷ [] }
    ensures into_a_circle { all_told definition_circles
        (module_text (codes "m") (codes "  identity x { base y; }\n  identity y { base z; }\n  identity z { base y; }\n") ∷ [])
        ≡ (9, (0, 6)) ∷ (9, (0, 7)) ∷ [] }
    ensures the_name_of_the_type { told_line (codes "  typedef identityref { type string; }\n") ≡ Some (7, 5) }
{}

/// Where types have bases, and where they may not.
pub fn types_of_identities()
    ensures without_a_base { told_line (codes "  leaf a { type identityref; }\n") ≡ Some (10, 5) }
    ensures base_of_another_type { told_line (codes "  identity x;\n  leaf a { type string { base x; } }\n") ≡ Some (10, 6) }
    ensures base_of_a_derived_type { told_line (codes "  identity x;\n  typedef t { type identityref { base x; } }\n  leaf a { type t { base x; } }\n")
        ≡ Some (10, 7) }
    ensures length_of_a_derived_type { told_line (codes "  identity x;\n  typedef t { type identityref { base x; } }\n  leaf a { type t { length 1; } }\n")
        ≡ Some (10, 7) }
    ensures range { told_line (codes "  identity x;\n  leaf a { type identityref { base x; range 1; } }\n") ≡ Some (10, 6) }
{}

/// Defaults name identities as the module does in which they stand.
pub fn defaults_that_are_identities()
    ensures the_base { compiled_lines (codes "  identity x;\n  leaf a { type identityref { base x; } default x; }\n") ≡ told_at 11 6 }
    ensures own_prefix { shown (module_text (codes "m")
        (codes "  identity x;\n  identity y { base x; }\n  leaf a { type identityref { base x; } default m:y; }\n")) (codes "{}") ≡ without_faults }
    ensures unknown_prefix { compiled_lines
        (codes "  identity x;\n  identity y { base x; }\n  leaf a { type identityref { base x; } default q:y; }\n") ≡ told_at 11 7 }
    ensures a_modules_name { compiled_texts
        (module_text (codes "a") (codes "  identity x;\n  identity y { base x; }\n")
        ∷ module_text (codes "b") (codes "  import a { prefix q; }\n  leaf l { type identityref { base q:x; } default a:y; }\n") ∷ [])
        ≡ told_in 1 11 6 }
    ensures of_the_leafs_module { compiled_texts
        (module_text (codes "b") (codes "  import a { prefix q; }\n  identity y { base q:x; }\n  leaf l { type identityref { base q:x; } default y; }\n")
        ∷ module_text (codes "a") (codes "  identity x;\n  typedef t { type identityref { base x; } default y; }\n  leaf l { type t; }\n") ∷ [])
        ≡ told_in 1 11 7 }
{}
