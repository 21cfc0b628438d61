//! Worked examples of refusals told as JSON: the object of each stands on the output, and its line on the error side as
//! without.

ghost use Rattle.std.specs.Prelude.{◌≡◌, ◌++◌, ◌∷◌, [], codes, map, Some, None, true};
ghost use Rattle.yspec.specs.edit.Examples.{module_p, module_text};
ghost use Rattle.yspec_wide.specs.Language.{core};
ghost use Rattle.yspec_run.specs.Output.{as_dump, outcome, plainly, printed, told_as_json, validate};
ghost use Rattle.yspec_run.specs.RefusalData.{document_tag, edit_tag, module_tag};
ghost use Rattle.yspec_examples.specs.RefusalExamples.{both, edited_told, object_of, strictly_told, told, told_of};
ghost use Rattle.yspec_examples.specs.RunExamples.{shown};

/// Modules that are refused in a line: for their text, and for a rule that they break.
pub fn refused_modules()
    ensures text { told (Some (codes "module a { prefix \"x") ∷ Some (codes "{}") ∷ [])
        ≡ both 2 (codes "m.yang:1: L3\n")
        (object_of (codes "A quoted string or a comment isn't closed.") (codes "malformed-message")
        (codes ",\"yanglive:code\":\"L3\",\"yanglive:file\":\"m.yang\",\"yanglive:line\":1")) }
    ensures unknown_statement { told
        (Some (module_text (codes "p") (codes "  frob x;\n")) ∷ Some (codes "{}") ∷ [])
        ≡ both 2 (codes "m.yang:5: C1\n")
        (object_of (codes "A statement or a built-in type isn't known, may not stand there, or isn't read by this program.") (codes "operation-not-supported")
        (codes ",\"yanglive:code\":\"C1\",\"yanglive:file\":\"m.yang\",\"yanglive:line\":5")) }
    ensures unknown_type { told
        (Some (module_text (codes "p") (codes "  leaf a { type b; }\n")) ∷ Some (codes "{}") ∷ [])
        ≡ both 2 (codes "m.yang:5: C8\n")
        (object_of (codes "A type, a grouping or an identity of that name isn't found.") (codes "operation-failed")
        (codes ",\"yanglive:code\":\"C8\",\"yanglive:file\":\"m.yang\",\"yanglive:line\":5")) }
    ensures as_text { shown (module_text (codes "p") (codes "  leaf a { type b; }\n")) (codes "{}")
        ≡ both 2 (codes "m.yang:5: C8\n") [] }
{}

/// Documents that are refused at a place.
pub fn refused_documents()
    ensures no_json { told_of (codes "{") ≡ both 2 (codes "d.json: J1 /\n")
        (object_of (codes "The document isn't JSON.") (codes "malformed-message")
        (codes ",\"yanglive:code\":\"J1\",\"yanglive:file\":\"d.json\",\"yanglive:path\":\"/\"")) }
    ensures no_object { told_of (codes "[]") ≡ both 2 (codes "d.json: J2 /\n")
        (object_of (codes "The document isn't an object.") (codes "malformed-message")
        (codes ",\"yanglive:code\":\"J2\",\"yanglive:file\":\"d.json\",\"yanglive:path\":\"/\"")) }
    ensures unknown_name { told_of (codes "{\"p:c\":{\"x\":1}}") ≡ both 2 (codes "d.json: J3 /p:c\n")
        (object_of (codes "No node of that name may stand there.") (codes "unknown-element")
        (codes ",\"yanglive:code\":\"J3\",\"yanglive:file\":\"d.json\",\"yanglive:path\":\"/p:c\"")) }
    ensures no_module { told_of (codes "{\"c\":{}}") ≡ both 2 (codes "d.json: J4 /\n")
        (object_of (codes "A name has a module where it must have none, or none where it must have one.") (codes "unknown-namespace")
        (codes ",\"yanglive:code\":\"J4\",\"yanglive:file\":\"d.json\",\"yanglive:path\":\"/\"")) }
    ensures another_kind { told_of (codes "{\"p:c\":[]}") ≡ both 2 (codes "d.json: J5 /p:c\n")
        (object_of (codes "A value is of another kind than its node: no object for a container or an entry, no array for a list or leaf-list.") (codes "invalid-value")
        (codes ",\"yanglive:code\":\"J5\",\"yanglive:file\":\"d.json\",\"yanglive:path\":\"/p:c\"")) }
    ensures fraction { told_of (codes "{\"p:c\":{\"id\":1.5}}") ≡ both 2 (codes "d.json: J6 /p:c/id\n")
        (object_of (codes "A number has a fraction or an exponent.") (codes "invalid-value")
        (codes ",\"yanglive:code\":\"J6\",\"yanglive:file\":\"d.json\",\"yanglive:path\":\"/p:c/id\"")) }
    ensures given_twice { strictly_told (codes "{\"p:c\":{\"id\":1,\"id\":2}}") ≡ both 2 (codes "d.json: J8 /p:c/id\n")
        (object_of (codes "A member is given twice in one object, which --strict refuses; without it the last one counts.") (codes "bad-element")
        (codes ",\"yanglive:code\":\"J8\",\"yanglive:file\":\"d.json\",\"yanglive:path\":\"/p:c/id\"")) }
{}

/// Files that can't be read, and what the reasons say of them, on the error side alone.
pub fn unread_files()
    ensures of_a_module { told (None ∷ []) ≡ both 4 (codes "cannot read m.yang\n")
        (object_of (codes "The file can't be read.") (codes "operation-failed") (codes ",\"yanglive:file\":\"m.yang\"")) }
    ensures of_a_document { told (Some module_p ∷ None ∷ []) ≡ both 4 (codes "cannot read d.json\n")
        (object_of (codes "The file can't be read.") (codes "operation-failed") (codes ",\"yanglive:file\":\"d.json\"")) }
    ensures escaped { printed true
        (outcome (validate core told_as_json (codes "a\"b") (codes "m.yang" ∷ [])) (Some module_p ∷ None ∷ []))
        ≡ both 4 (codes "cannot read a\"b\n")
        (object_of (codes "The file can't be read.") (codes "operation-failed") (codes ",\"yanglive:file\":\"a\\\"b\"")) }
    ensures as_text { printed true
        (outcome (validate core plainly (codes "d.json") (codes "m.yang" ∷ [])) (Some module_p ∷ None ∷ []))
        ≡ both 4 (codes "cannot read d.json\n") [] }
{}

/// Lines of scripts that are refused: their objects stand before those of the faults. Where the document is dumped it stands
/// alone, but what is refused before it is read is an object still.
pub fn refused_lines()
    ensures lines { edited_told plainly (codes "{\"p:c\":{\"id\":256}}") (codes "# x\nfrob\nreplace /p:c []\nremove /p:c/note")
        ≡ both 1 (codes "line 2: E1\nline 3: E10 J5\nline 4: E7\n")
        (object_of (codes "The line isn't an edit.") (codes "malformed-message") (codes ",\"yanglive:code\":\"E1\",\"yanglive:line\":2")
        ++ (object_of (codes "A value is of another kind than its node: no object for a container or an entry, no array for a list or leaf-list.") (codes "invalid-value")
        (codes ",\"yanglive:code\":\"E10\",\"yanglive:line\":3,\"yanglive:value-code\":\"J5\"")
        ++ (object_of (codes "What is to be replaced, removed or moved isn't stored.") (codes "data-missing") (codes ",\"yanglive:code\":\"E7\",\"yanglive:line\":4")
        ++ (codes "{\"error-message\":\"256 isn't a value of uint8: it takes an integer without quotes in 0..255.\",\"error-path\":\"/p:c/id\",\"error-tag\":\"invalid-value\",\"error-type\":\"application\",\"yanglive:code\":\"V1\",\"yanglive:path\":\"/p:c/id\"}\n"
        ++ codes "{\"yanglive:faults\":1}\n")))) }
    ensures dumped { edited_told as_dump (codes "{\"p:c\":{\"id\":1}}") (codes "remove /p:c/note")
        ≡ both 1 (codes "line 1: E7\n") (codes "{\"p:c\":{\"id\":1}}\n") }
    ensures refused_before { edited_told as_dump (codes "[]") (codes "remove /p:c/note")
        ≡ both 2 (codes "d.json: J2 /\n") (object_of (codes "The document isn't an object.") (codes "malformed-message")
        (codes ",\"yanglive:code\":\"J2\",\"yanglive:file\":\"d.json\",\"yanglive:path\":\"/\"")) }
{}

/// The error-tag of each code.
pub fn error_tags()
    ensures modules { map module_tag (1 ∷ 2 ∷ 18 ∷ [])
        ≡ codes "operation-not-supported" ∷ codes "operation-failed" ∷ codes "operation-failed" ∷ [] }
    ensures documents { map document_tag (1 ∷ 2 ∷ 3 ∷ 4 ∷ 5 ∷ 6 ∷ 7 ∷ 8 ∷ [])
        ≡ codes "malformed-message" ∷ codes "malformed-message" ∷ codes "unknown-element" ∷ codes "unknown-namespace"
        ∷ codes "invalid-value" ∷ codes "invalid-value" ∷ codes "too-big" ∷ codes "bad-element" ∷ [] }
    ensures edits { map edit_tag (1 ∷ 2 ∷ 3 ∷ 4 ∷ 5 ∷ 6 ∷ 7 ∷ 8 ∷ 9 ∷ 10 ∷ 11 ∷ 12 ∷ 13 ∷ [])
        ≡ codes "malformed-message" ∷ codes "unknown-element" ∷ codes "bad-element" ∷ codes "data-missing"
        ∷ codes "data-missing" ∷ codes "operation-failed" ∷ codes "data-missing" ∷ codes "data-exists"
        ∷ codes "malformed-message" ∷ codes "invalid-value" ∷ codes "too-big" ∷ codes "resource-denied"
        ∷ codes "operation-failed" ∷ [] }
{}
