//! Worked examples, from the bytes of a module and a document to the bytes that are printed.

ghost use Rattle.std.specs.Prelude.{◌≡◌, ◌++◌, [], ◌∷◌, codes, Some, None};
ghost use Rattle.yspec_wide.specs.Language.{core};
ghost use Rattle.yspec_run.specs.Output.{plainly, validate};
ghost use Rattle.yspec_examples.specs.Printing.{failed, found, printed_by};
ghost use Rattle.yspec.specs.edit.Examples.{module_text, module_p, container_module};
ghost use Rattle.yspec_examples.specs.RunExamples.{shown, shown_of_two, shown_by_p, compiled_alone, without_faults, nested_module, rewritten};

/// A missing mandatory leaf, a number out of range, a good document, and a container that is in play though it isn't stored.
pub fn documents_of_a_container()
    ensures missing { shown_by_p (codes "{\"p:c\":{\"note\":\"x\"}}")
        ≡ found 1 (codes "V3 data-missing - /p:c/id -\n1 faults\n") }
    ensures out_of_range { shown_by_p (codes "{\"p:c\":{\"id\":256}}")
        ≡ found 1 (codes "V1 invalid-value - /p:c/id -\n1 faults\n") }
    ensures good { shown_by_p (codes "{\"p:c\":{\"id\":255}}") ≡ without_faults }
    ensures implied { shown_by_p (codes "{}")
        ≡ found 1 (codes "V3 data-missing - /p:c/id -\n1 faults\n") }
    ensures implied_of_int32 { shown (container_module (codes "int32")) (codes "{}")
        ≡ found 1 (codes "V3 data-missing - /p:c/id -\n1 faults\n") }
    ensures good_of_int32 { shown (container_module (codes "int32"))
        (codes "{\"p:c\":{\"id\":-256}}") ≡ without_faults }
{}

/// Faults stand in order of definition.
pub fn two_faults()
    ensures both { shown_by_p (codes "{\"p:c\":{\"id\":256,\"note\":5}}")
        ≡ found 1 (codes "V1 invalid-value - /p:c/id -\n"
        ++ codes "V1 invalid-value - /p:c/note -\n2 faults\n") }
    ensures whatever_the_order_of_members { shown_by_p (codes "{\"p:c\":{\"note\":5,\"id\":256}}")
        ≡ shown_by_p (codes "{\"p:c\":{\"id\":256,\"note\":5}}") }
{}

/// A mandatory leaf two containers deep is missing whichever of them are stored.
pub fn nested_containers()
    ensures none_stored { shown nested_module (codes "{}")
        ≡ found 1 (codes "V3 data-missing - /q:a/b/c -\n1 faults\n") }
    ensures one_stored { shown nested_module (codes "{\"q:a\":{\"d\":[null]}}")
        ≡ found 1 (codes "V3 data-missing - /q:a/b/c -\n"
        ++ codes "V1 invalid-value - /q:a/d -\n2 faults\n") }
    ensures both_stored { shown nested_module (codes "{\"q:a\":{\"b\":{}}}")
        ≡ found 1 (codes "V3 data-missing - /q:a/b/c -\n1 faults\n") }
    ensures good { shown nested_module (codes "{\"q:a\":{\"b\":{\"c\":0}}}") ≡ without_faults }
{}

/// Each refusal of a document, with its place.
pub fn refused_documents()
    ensures no_json { shown_by_p [] ≡ failed 2 (codes "d.json: J1 /") }
    ensures no_object { shown_by_p (codes "[]") ≡ failed 2 (codes "d.json: J2 /") }
    ensures unknown { shown_by_p (codes "{\"p:d\":1}") ≡ failed 2 (codes "d.json: J3 /") }
    ensures unqualified { shown_by_p (codes "{\"c\":{}}") ≡ failed 2 (codes "d.json: J4 /") }
    ensures qualified { shown_by_p (codes "{\"p:c\":{\"p:id\":1}}")
        ≡ failed 2 (codes "d.json: J4 /p:c") }
    ensures wrong_kind { shown_by_p (codes "{\"p:c\":{\"id\":{}}}")
        ≡ failed 2 (codes "d.json: J5 /p:c/id") }
    ensures fraction { shown_by_p (codes "{\"p:c\":{\"id\":1.5}}")
        ≡ failed 2 (codes "d.json: J6 /p:c/id") }
{}

/// What is written of documents: the same values, compact, members in byte order of their names.
pub fn written_documents()
    ensures order { rewritten module_p (codes "{\"p:c\": {\"note\": \"x\", \"id\": 256}}")
        ≡ Some (codes "{\"p:c\":{\"id\":256,\"note\":\"x\"}}") }
    ensures values { rewritten nested_module (codes "{\"q:a\":{\"d\":[ null ],\"b\":{\"c\":-5}}}")
        ≡ Some (codes "{\"q:a\":{\"b\":{\"c\":-5},\"d\":[null]}}") }
    ensures nothing { rewritten module_p (codes " {} ") ≡ Some (codes "{}") }
    ensures unread { rewritten module_p (codes "{\"c\":{}}") ≡ None }
{}

/// Refusals of a module, each with its line.
pub fn refused_modules()
    ensures type_outside { shown (container_module (codes "binary")) (codes "{}")
        ≡ failed 2 (codes "m.yang:6: C1") }
    ensures two_types { compiled_alone (codes "  leaf a { type string;\n type uint8; }\n")
        ≡ failed 2 (codes "m.yang:5: C2") }
    ensures no_name { compiled_alone (codes "  container;\n") ≡ failed 2 (codes "m.yang:5: C3") }
    ensures other_version { shown (codes "\nmodule a { namespace b; prefix c; yang-version 1; }")
        (codes "{}")
        ≡ failed 2 (codes "m.yang:2: C4") }
    ensures one_name_twice { compiled_alone (codes "  leaf a { type string; }\n  container a;\n")
        ≡ failed 2 (codes "m.yang:6: C13") }
    ensures least_line { compiled_alone (codes "  leaf a;\n  leaf a { type int8; }\n")
        ≡ failed 2 (codes "m.yang:5: C2") }
    ensures text { shown [] (codes "{}") ≡ failed 2 (codes "m.yang:1: L6") }
{}

/// Two modules of different names, and two of one name, which is told at the second.
pub fn sets_of_modules()
    ensures two { shown_of_two module_p nested_module (codes "{}")
        ≡ found 1 (codes "V3 data-missing - /p:c/id -\nV3 data-missing - /q:a/b/c -\n2 faults\n") }
    ensures one_name { shown_of_two module_p (codes "\n\n"
        ++ module_text (codes "p") []) (codes "{}")
        ≡ failed 2 (codes "n.yang:3: C7") }
    ensures before_names_of_siblings { shown_of_two
        (module_text (codes "p") (codes "  container c;\n  container c;\n")) module_p (codes "{}")
        ≡ failed 2 (codes "n.yang:1: C7") }
    ensures after_statements { shown_of_two module_p
        (module_text (codes "p") (codes "  container;\n")) (codes "{}")
        ≡ failed 2 (codes "n.yang:5: C3") }
{}

/// The first file that can't be read is told, and nothing else.
pub fn unread_files()
    ensures of_a_document { printed_by (validate core plainly (codes "d.json") (codes "m.yang" ∷ [])) (Some module_p
        ∷ None ∷ [])
        ≡ failed 4 (codes "cannot read d.json") }
    ensures of_a_module { printed_by (validate core plainly (codes "d.json") (codes "m.yang" ∷ [])) (None ∷ [])
        ≡ failed 4 (codes "cannot read m.yang") }
{}
