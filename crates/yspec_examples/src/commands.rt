//! Worked examples of commands: what is printed of the nodes of modules, and of documents after scripts of edits.

ghost use Rattle.std.specs.Prelude.{◌≡◌, ◌++◌, [], ◌∷◌, None, Some, codes, false, true};
ghost use Rattle.yspec_examples.specs.CompilingSamples.{net_module, k_module, t_module, restricted_module};
ghost use Rattle.yspec_examples.specs.Printing.{failed, found, printed_by};
ghost use Rattle.yspec_wide.specs.Language.{core, rfc_with};
ghost use Rattle.yspec_run.specs.Output.{a_directory, as_dump, compile, draw_all, edit, explain, outcome, plainly, printed, printed_with, told_as_json, validate};
ghost use Rattle.yspec_run.specs.Script.{lines_of};
ghost use Rattle.yspec_examples.specs.SchemaExamples.{hosts, one_host};
ghost use Rattle.yspec.specs.edit.Examples.{module_p, module_text};
ghost use Rattle.yspec_examples.specs.RunExamples.{shown_by_lines, told_by_lines, and_saved, conditions_module, configured, counted, counted_in, drawn_as, dumped, edited_configuration, edited_with_reasons, explained_in, faulty, feature_module, keyed_module, line_with_reasons, no_features, of_configuration, refused_alone, refused_beside, saved_by, scripted, shown, shown_as_json, shown_of_configuration, shown_of_two, state_module, without_faults, one_with_reasons, referring_module, referring_to, refused_with_reasons, shown_with_reasons, strictly_edited, strictly_shown, validated_in, validated_unjudged, with_reasons};

/// How many nodes modules define.
pub fn counts()
    ensures network { counted net_module ≡ found 0 (codes "12 nodes\n") }
    ensures container { counted module_p ≡ found 0 (codes "3 nodes\n") }
    ensures refused { counted (codes "module a { prefix \"x") ≡ failed 2 (codes "m.yang:1: L3") }
{}

/// The nodes that modules define in each language: the core takes no module of YANG 1, a feature that isn't chosen takes away
/// what rests on it, and of a module that isn't named all are chosen.
pub fn languages()
    ensures counted_in_the_core { counted feature_module ≡ failed 2 (codes "m.yang:1: C4") }
    ensures counted_with_all { counted_in (rfc_with []) feature_module ≡ found 0 (codes "2 nodes\n") }
    ensures counted_without { counted_in (rfc_with (no_features (codes "a") ∷ [])) feature_module
        ≡ found 0 (codes "1 nodes\n") }
    ensures counted_under_another_name { counted_in (rfc_with (no_features (codes "b") ∷ [])) feature_module
        ≡ found 0 (codes "2 nodes\n") }
    ensures validated_with_all { validated_in (rfc_with []) feature_module (codes "{}")
        ≡ found 1 (codes "V3 data-missing - /a:x -\n1 faults\n") }
    ensures validated_without { validated_in (rfc_with (no_features (codes "a") ∷ [])) feature_module (codes "{}")
        ≡ found 0 (codes "0 faults\n") }
    ensures core_modules { counted_in (rfc_with []) module_p ≡ found 0 (codes "3 nodes\n") }
{}

/// What is said of conditions that aren't judged, ahead of all else on the error side; nothing where a module is refused or has
/// none.
pub fn unjudged()
    ensures both { validated_unjudged true true conditions_module
        ≡ faulty (codes "not judged: 2 must, 1 when\n") (codes "V3 data-missing - /b:y -\n1 faults\n") }
    ensures musts { validated_unjudged true false conditions_module ≡ failed 2 (codes "m.yang:5: C1") }
    ensures whens { validated_unjudged false true conditions_module ≡ failed 2 (codes "m.yang:5: C1") }
    ensures none { validated_unjudged true true module_p ≡ found 1 (codes "V3 data-missing - /p:c/id -\n1 faults\n") }
{}

/// Unions with leafrefs among their members: the first that takes a value decides, and V11 is told where it is a leafref and
/// nothing has the value there.
pub fn unions_that_refer()
    ensures in_the_core { counted referring_module ≡ failed 2 (codes "m.yang:6: C10") }
    ensures by_a_leafref { validated_in (rfc_with []) referring_module (codes "{\"u:x\":7}")
        ≡ found 1 (codes "V11 data-missing instance-required /u:x -\n1 faults\n") }
    ensures by_another { validated_in (rfc_with []) referring_module (codes "{\"u:x\":true}")
        ≡ found 0 (codes "0 faults\n") }
    ensures to_an_instance { validated_in (rfc_with []) referring_module (codes "{\"u:y\":[7],\"u:x\":7}")
        ≡ found 0 (codes "0 faults\n") }
    ensures explained { explained_in (rfc_with []) referring_module (codes "{\"u:x\":7}")
        ≡ one_with_reasons (codes "V11 data-missing instance-required /u:x -") (codes "/u:x: no instance of /u:y is 7.") (codes "V11") }
    ensures nowhere { counted_in (rfc_with []) (referring_to (codes "/z")) ≡ failed 2 (codes "m.yang:5: C17") }
    ensures on_a_circle { counted_in (rfc_with []) (referring_to (codes "/x")) ≡ failed 2 (codes "m.yang:5: C17") }
{}

/// The diagram of a module by its name, and names that no module has.
pub fn drawn_modules()
    ensures network { drawn_as (codes "ex-net") net_module ≡ found 0 (codes "module: ex-net\n  +--rw net\n     +--rw host* [name]\n        +--rw name        string\n"
        ++ (codes "        +--rw addr?       string\n        +--rw port?       uint16\n        +--rw uplink?     -> /net/host/name\n"
        ++ (codes "        +--rw use-port?   -> /net/host/port\n        +--rw (mode)\n           +--:(auto)\n"
        ++ codes "           |  +--rw auto?   empty\n           +--:(fixed)\n              +--rw speed?   uint32\n"))) }
    ensures missing { drawn_as (codes "zz") net_module ≡ failed 2 (codes "zz: no such module") }
    ensures prefix { drawn_as (codes "ex") net_module ≡ failed 2 (codes "ex: no such module") }
    ensures refused { drawn_as (codes "a") (codes "module a { prefix \"x")
        ≡ failed 2 (codes "m.yang:1: L3") }
    ensures one { printed_by (draw_all core (codes "m.yang" ∷ [])) (Some module_p ∷ [])
        ≡ drawn_as (codes "p") module_p }
    ensures all { printed_by (draw_all core (codes "m.yang" ∷ codes "n.yang" ∷ [])) (Some module_p ∷ Some (module_text (codes "q") (codes "  leaf a { type string; }\n")) ∷ [])
        ≡ found 0 (codes "module: p\n  +--rw c\n     +--rw id      uint8\n     +--rw note?   string\n\nmodule: q\n  +--rw a?   string\n") }
    ensures one_refused { printed_by (draw_all core (codes "m.yang" ∷ codes "n.yang" ∷ [])) (Some module_p ∷ Some (codes "module a {") ∷ [])
        ≡ failed 2 (codes "n.yang:1: L6") }
{}

/// Lines of scripts. A carriage return goes with its line feed alone.
pub fn lines_of_scripts()
    ensures none { lines_of [] ≡ [] ∷ [] }
    ensures unended { lines_of (codes "a\nb") ≡ codes "a" ∷ codes "b" ∷ [] }
    ensures ended { lines_of (codes "a\n") ≡ codes "a" ∷ [] ∷ [] }
    ensures returns { lines_of (codes "a\r\r\n\rb\r") ≡ codes "a\r" ∷ codes "\rb\r" ∷ [] }
{}

/// Lines are passed over, refused and applied.
pub fn lines_of_every_kind()
    ensures shown { scripted module_p (codes "{}") (codes "# x\n\ncreate /p:c {\"id\":1}\r\n"
        ++ (255 ∷ codes "\nreplace /p:c/id 300"))
        ≡ faulty (codes "line 4: E1\n") (codes "V1 invalid-value - /p:c/id -\n1 faults\n") }
    ensures dumped { dumped module_p (codes "{}") (codes "# x\n\ncreate /p:c {\"id\":1}\r\n"
        ++ (255 ∷ codes "\nreplace /p:c/id 300"))
        ≡ faulty (codes "line 4: E1\n") (codes "{\"p:c\":{\"id\":300}}\n") }
    ensures other_bytes_behind_a_sign { scripted module_p (codes "{\"p:c\":{\"id\":1}}") (codes "#"
        ++ (255 ∷ [])) ≡ without_faults }
    ensures unread { scripted module_p (codes "{\"c\":{}}") (codes "#")
        ≡ failed 2 (codes "d.json: J4 /") }
{}

/// Without edits it is what `validate` prints.
pub fn scripts_without_edits()
    ensures faulty { scripted module_p (codes "{\"p:c\":{\"id\":256}}") []
        ≡ shown module_p (codes "{\"p:c\":{\"id\":256}}") }
    ensures good { scripted module_p (codes "{\"p:c\":{\"id\":7}}") (codes "\n\n")
        ≡ without_faults }
{}

/// Defaults in use go out of use and come back.
pub fn defaults_in_use()
    ensures stored { scripted net_module (hosts (codes
        "{\"name\":\"a\",\"auto\":[null],\"use-port\":80}"))
        (codes "create /ex-net:net/host[1]/port 22")
        ≡ found 1 (codes "V11 data-missing instance-required /ex-net:net/host[1]/use-port -\n1 faults\n") }
    ensures removed { scripted net_module
        (hosts (codes "{\"name\":\"a\",\"auto\":[null],\"use-port\":80}"))
        (codes "create /ex-net:net/host[1]/port 22\nremove /ex-net:net/host[1]/port") ≡ without_faults }
    ensures of_a_case { scripted k_module (codes "{\"k:want\":3}") (codes "create /k:boost 1")
        ≡ found 1 (codes "V11 data-missing instance-required /k:want -\n1 faults\n") }
    ensures of_a_case_again { scripted k_module (codes "{\"k:want\":3}")
        (codes "create /k:boost 1\nremove /k:boost\n") ≡ without_faults }
{}

/// References lose what they refer to, or keep it in another entry.
pub fn references()
    ensures lost { scripted net_module (hosts (codes
        "{\"name\":\"a\",\"auto\":[null],\"uplink\":\"b\"},{\"name\":\"b\",\"auto\":[null]}"))
        (codes "remove /ex-net:net/host[name='b']")
        ≡ found 1 (codes "V11 data-missing instance-required /ex-net:net/host[1]/uplink -\n1 faults\n") }
    ensures kept { scripted net_module (hosts (codes
        "{\"name\":\"a\",\"auto\":[null],\"uplink\":\"b\"},{\"name\":\"b\",\"auto\":[null]}"))
        (codes "replace /ex-net:net/host[2] {\"name\":\"b\",\"speed\":7}") ≡ without_faults }
{}

/// Positions move, and a key that two entries have names neither.
pub fn entries_removed()
    ensures moved { scripted net_module (hosts (codes
        "{\"name\":\"a\",\"auto\":[null]},{\"name\":\"b\",\"auto\":[null]},{\"name\":\"c\"}"))
        (codes "remove /ex-net:net/host[1]")
        ≡ found 1 (codes "V4 data-missing missing-choice /ex-net:net/host[2] mode\n1 faults\n") }
    ensures twice { scripted net_module
        (hosts (codes "{\"name\":\"a\",\"auto\":[null]},{\"name\":\"a\",\"auto\":[null]}"))
        (codes "remove /ex-net:net/host[name='a']\nremove /ex-net:net/host[2]") ≡ faulty (codes "line 1: E6\n") (codes "0 faults\n") }
    ensures one_left { scripted net_module one_host
        (codes "create /ex-net:net/host[1]/name \"b\"\nremove /ex-net:net/host[1]")
        ≡ faulty (codes "line 1: E8\n") (codes "V6 operation-failed too-few-elements /ex-net:net/host -\n1 faults\n") }
    ensures none_left { dumped net_module one_host
        (codes "create /ex-net:net/host[1]/name \"b\"\nremove /ex-net:net/host[1]")
        ≡ faulty (codes "line 1: E8\n") (codes "{\"ex-net:net\":{}}\n") }
{}

/// Refused edits, of which the first is told with its line.
pub fn refused_edits()
    ensures above { scripted net_module (codes "{}")
        (codes "create /ex-net:net/host {\"name\":\"z\",\"auto\":[null]}")
        ≡ faulty (codes "line 1: E4\n") (codes "V6 operation-failed too-few-elements /ex-net:net/host -\n1 faults\n") }
    ensures others { scripted net_module one_host (codes "replace /ex-net:net/host[1]/port 9\nreplace /ex-net:net/host[1]/name {}\n"
        ++ codes "remove /ex-net:net/host\n\nremove /ex-net:net/host[2]\n")
        ≡ faulty (codes "line 1: E7\nline 2: E10 J5\nline 3: E3\nline 5: E5\n")
        (codes "0 faults\n") }
{}

/// The default of a type, in use where a leaf has none of its own.
pub fn defaults_of_types()
    ensures in_use { shown (module_text (codes "m") (codes "  typedef t { type uint8; default 3; }\n  leaf a { type t; }\n  leaf b { type leafref { path /m:a; } }\n"))
        (codes "{\"m:b\":3}") ≡ without_faults }
    ensures not_its_own { shown (module_text (codes "m") (codes "  typedef t { type uint8; default 3; }\n  leaf a { type t; default 4; }\n  leaf b { type leafref { path /m:a; } }\n"))
        (codes "{\"m:b\":3}") ≡ found 1 (codes "V11 data-missing instance-required /m:b -\n1 faults\n") }
    ensures range_of_the_typedef { shown (module_text (codes "m") (codes "  typedef t { type uint8 { range 0..9; } }\n  leaf a { type t; }\n"))
        (codes "{\"m:a\":10}") ≡ found 1 (codes "V1 invalid-value - /m:a -\n1 faults\n") }
{}

/// A range within that of the typedef before it, or wider; documents of the module that compiles.
pub fn restricted_typedefs()
    ensures within { counted t_module ≡ found 0 (codes "1 nodes\n") }
    ensures wider { counted (restricted_module (codes "0..10")) ≡ failed 2 (codes "m.yang:6: C10") }
    ensures greatest { shown t_module (codes "{\"t:d\":\"9.223372036854775807\"}") ≡ without_faults }
    ensures too_great { shown t_module (codes "{\"t:d\":\"9.223372036854775808\"}")
        ≡ found 1 (codes "V1 invalid-value - /t:d -\n1 faults\n") }
{}

/// Values by way of typedefs: in a scope, of a leafref, members of a union, of another module.
pub fn derived_values()
    ensures in_a_container { shown (module_text (codes "m") (codes "  container c { typedef t { type uint8 { range 1..5; } } leaf a { type t; } }\n"))
        (codes "{\"m:c\":{\"a\":6}}") ≡ found 1 (codes "V1 invalid-value - /m:c/a -\n1 faults\n") }
    ensures reference { shown (module_text (codes "m") (codes "  typedef r { type leafref { path /m:b; } }\n  leaf a { type r; }\n  leaf b { type string; }\n"))
        (codes "{\"m:a\":\"x\"}")
        ≡ found 1 (codes "V11 data-missing instance-required /m:a -\n1 faults\n") }
    ensures members { shown (module_text (codes "m") (codes "  typedef s { type string { length 1; } }\n  typedef n { type uint8 { range 2..20; } }\n  typedef u { type union { type n; type s; } }\n  leaf-list a { type u; }\n"))
        (codes "{\"m:a\":[2,\"2\",\"22\",1]}")
        ≡ found 1 (codes "V1 invalid-value - /m:a[3] -\nV1 invalid-value - /m:a[4] -\n2 faults\n") }
    ensures of_another { shown_of_two
        (module_text (codes "u") (codes "  import s { prefix x; }\n  typedef t { type string; }\n  leaf v { type x:t; }\n  leaf w { type t; }\n"))
        (module_text (codes "s") (codes "  typedef t { type uint8 { range 0..9; } default 4; }\n"))
        (codes "{\"u:v\":10,\"u:w\":\"a\"}")
        ≡ found 1 (codes "V1 invalid-value - /u:v -\n1 faults\n") }
{}

/// What is said of codes: by the command, and where it is asked for below the lines that tell them.
pub fn reasons()
    ensures of_a_fault { printed true (outcome (validate core plainly (codes "d.json") (codes "m.yang" ∷ []))
        (Some module_p ∷ Some (codes "{\"p:c\":{}}") ∷ []))
        ≡ found 1 (codes "V3 data-missing - /p:c/id -\n  /p:c: id is missing.\n  A leaf that must be there is missing. Add it, or take the node out around which it must be there.\n1 fault\n") }
    ensures unasked { printed false (outcome (validate core plainly (codes "d.json") (codes "m.yang" ∷ []))
        (Some module_p ∷ Some (codes "{\"p:c\":{}}") ∷ []))
        ≡ found 1 (codes "V3 data-missing - /p:c/id -\n1 faults\n") }
    ensures of_a_value { printed true (outcome (edit core as_dump (codes "d.json") (codes "s.txt") (codes "m.yang" ∷ []))
        (Some module_p ∷ Some (codes "{\"p:c\":{\"id\":1}}") ∷ Some (codes "replace /p:c []") ∷ []))
        ≡ faulty (codes "line 1: E10 J5\n  | replace /p:c []\n  an array stands where an object is due.\n  A value is of another kind than its node: no object for a container or an entry, no array for a list or leaf-list. Write a container as an object, a list as an array of objects, a leaf-list as an array of values, an empty leaf as [null].\n")
        (codes "{\"p:c\":{\"id\":1}}\n") }
    ensures of_a_text { printed true (outcome (compile core (codes "m.yang" ∷ []))
        (Some (codes "module a;}") ∷ []))
        ≡ failed 2 (codes "m.yang:1: L6\n  | module a;}\n  no { is open for this }.\n  The text isn't one whole module: it ends within a statement, has a } too many, no statement, or a second one at the top. Balance the braces; one file holds one module.") }
    ensures of_a_slip { printed true (outcome (compile core (codes "m.yang" ∷ []))
        (Some (codes "module a {\n\tprefix \"\\x\";\n}") ∷ []))
        ≡ failed 2 (codes "m.yang:2: L4\n  | prefix \"\\x\";\n  In a string in double quotes a backslash stands before another character than n, t, a double quote or a backslash. Double the backslash, or use single quotes, in which it is itself.") }
    ensures of_a_word { printed true (outcome (compile core (codes "a.yang" ∷ codes "m.yang" ∷ []))
        (Some module_p ∷ Some (codes "module m {\n  yang-version 1.1; namespace n; prefix m;\n  contaner c;\n}\n") ∷ []))
        ≡ failed 2 (codes "m.yang:3: C1\n  | contaner c;\n  no statement is called contaner; near it: container.\n  A statement or a built-in type isn't known, may not stand there, or isn't read by this program. Correct its name, or move it; README says what of YANG is read.") }
    ensures of_a_keyword { printed true (outcome (compile core (codes "m.yang" ∷ []))
        (Some (codes "module m {\n  yang-version 1.1; namespace n; prefix m;\n  leaf c { type string { pattern x; } }\n}\n") ∷ []))
        ≡ failed 2 (codes "m.yang:3: C1\n  | leaf c { type string { pattern x; } }\n  pattern is YANG 1.1, and isn't read here.\n  with --profile rfc this is read.\n  A statement or a built-in type isn't known, may not stand there, or isn't read by this program. Correct its name, or move it; README says what of YANG is read.") }
    ensures of_a_place { printed true (outcome (compile core (codes "m.yang" ∷ []))
        (Some (codes "module m {\n  yang-version 1.1; namespace n; prefix m;\n  key c;\n}\n") ∷ []))
        ≡ failed 2 (codes "m.yang:3: C1\n  | key c;\n  key can't stand here.\n  A statement or a built-in type isn't known, may not stand there, or isn't read by this program. Correct its name, or move it; README says what of YANG is read.") }
    ensures of_a_rule { printed true (outcome (compile core (codes "m.yang" ∷ []))
        (Some (codes "module m {\n  yang-version 1.1; namespace n;\n  key c;\n}\n") ∷ []))
        ≡ failed 2 (codes "m.yang:1: C2\n  | module m {\n  module lacks a prefix.\n  A statement has too many or too few substatements of a kind. Leave one of them, or add the one that must be there: a leaf needs a type, a module its namespace and prefix.") }
    ensures of_an_argument { printed true (outcome (compile core (codes "m.yang" ∷ []))
        (Some (codes "module m {\n  yang-version 1.1; namespace n; prefix m;\n  leaf c { type string; mandatory yes; }\n}\n") ∷ []))
        ≡ failed 2 (codes "m.yang:3: C3\n  | leaf c { type string; mandatory yes; }\n  mandatory takes true or false, not \"yes\".\n  The argument of a statement is missing or not of its form. Write it as its statement wants it: an identifier, a number, true or false, a date, a path.") }
    ensures of_a_code { printed false (outcome (explain (codes "V10" ∷ [])) [])
        ≡ found 0 (codes "V10: Another item of a configuration leaf-list has the same value.\n  Told: the item.\n  To do: Take one of them out.\n  Source: RFC 7950, 7.7.\n") }
    ensures in_small_letters { printed false (outcome (explain (codes "v10" ∷ [])) [])
        ≡ printed false (outcome (explain (codes "V10" ∷ [])) []) }
    ensures of_no_code { printed true (outcome (explain (codes "V10" ∷ codes "v0" ∷ [])) [])
        ≡ failed 2 (codes "v0: no such code") }
{}

/// What is said of faults, where that is asked for: their places by keys, and what stands there.
pub fn explained_faults()
    ensures value { shown_with_reasons module_p (codes "{\"p:c\":{\"id\":256}}")
        ≡ one_with_reasons (codes "V1 invalid-value - /p:c/id -") (codes "/p:c/id: 256 isn't a value of uint8: it takes an integer without quotes in 0..255.") (codes "V1") }
    ensures inner_message { shown_with_reasons
        (module_text (codes "m") (codes "  typedef t { type uint8 { range \"0..9\" { error-message \"Too\\ngreat.\"; } } }\n  leaf v { type t { range \"2..5\" { error-message \"Outside.\"; } } }\n"))
        (codes "{\"m:v\":10}")
        ≡ one_with_reasons (codes "V1 invalid-value - /m:v -") (codes "/m:v: 10 isn't a value of t: it takes an integer without quotes in 2..5. Its module says: Too great.") (codes "V1") }
    ensures outer_message { shown_with_reasons
        (module_text (codes "m") (codes "  typedef t { type uint8 { range \"0..9\" { error-message \"Too\\ngreat.\"; } } }\n  leaf v { type t { range \"2..5\" { error-message \"Outside.\"; } } }\n"))
        (codes "{\"m:v\":6}")
        ≡ one_with_reasons (codes "V1 invalid-value - /m:v -") (codes "/m:v: 6 isn't a value of t: it takes an integer without quotes in 2..5. Its module says: Outside.") (codes "V1") }
    ensures missing_key { shown_with_reasons net_module (hosts (codes "{\"auto\":[null]}"))
        ≡ one_with_reasons (codes "V2 missing-element - /ex-net:net/host[1]/name -") (codes "/ex-net:net/host[1]: its key name is missing.") (codes "V2") }
    ensures missing_case { shown_with_reasons net_module (hosts (codes "{\"name\":\"it's\"}"))
        ≡ one_with_reasons (codes "V4 data-missing missing-choice /ex-net:net/host[1] mode") (codes "/ex-net:net/host[name=\"it's\"]: no case of the choice mode is there.") (codes "V4") }
    ensures several_cases { shown_with_reasons net_module
        (hosts (codes "{\"name\":\"a\",\"auto\":[null],\"speed\":1}"))
        ≡ one_with_reasons (codes "V5 bad-element - /ex-net:net/host[1] mode") (codes "/ex-net:net/host[name='a']: the choice mode has nodes of more than one case: auto, fixed.") (codes "V5") }
    ensures too_few { shown_with_reasons net_module (hosts [])
        ≡ one_with_reasons (codes "V6 operation-failed too-few-elements /ex-net:net/host -") (codes "/ex-net:net/host: it has 0, and must have at least 1.") (codes "V6") }
    ensures same_key { shown_with_reasons net_module (hosts (codes
        "{\"name\":\"a\",\"auto\":[null]},{\"name\":\"b\",\"auto\":[null]},{\"name\":\"a\",\"auto\":[null]}"))
        ≡ found 1 (with_reasons (codes "V8 operation-failed - /ex-net:net/host[1] -") (codes "/ex-net:net/host[1]: its key name='a' is that of /ex-net:net/host[3].") (codes "V8")
        ++ (with_reasons (codes "V8 operation-failed - /ex-net:net/host[3] -") (codes "/ex-net:net/host[3]: its key name='a' is that of /ex-net:net/host[1].") (codes "V8")
        ++ codes "2 faults\n")) }
    ensures no_target { shown_with_reasons net_module
        (hosts (codes "{\"name\":\"a\",\"auto\":[null],\"uplink\":\"b\"}"))
        ≡ one_with_reasons (codes "V11 data-missing instance-required /ex-net:net/host[1]/uplink -") (codes "/ex-net:net/host[name='a']/uplink: no instance of /ex-net:net/host/name is \"b\".") (codes "V11") }
    ensures after_edits { printed true (outcome (edit core plainly (codes "d.json") (codes "s.txt") (codes "m.yang" ∷ []))
        (Some module_p ∷ Some (codes "{\"p:c\":{\"id\":1}}")
        ∷ Some (codes "replace /p:c/id 300") ∷ []))
        ≡ one_with_reasons (codes "V1 invalid-value - /p:c/id -") (codes "/p:c/id: 300 isn't a value of uint8: it takes an integer without quotes in 0..255.") (codes "V1") }
{}

/// The paths of faults, which an edit takes: keys by their canonical texts, in quotes that these don't have, else positions;
/// a terminal obeys nothing of what is said.
pub fn paths_of_faults()
    ensures canonical { shown_with_reasons keyed_module (codes "{\"k:n\":[{\"a\":\"007\"}]}")
        ≡ one_with_reasons (codes "V3 data-missing - /k:n[1]/v -") (codes "/k:n[a='7']: v is missing.") (codes "V3") }
    ensures taken { scripted keyed_module (codes "{\"k:n\":[{\"a\":\"007\"}]}")
        (codes "create /k:n[a='7']/v 1") ≡ without_faults }
    ensures invalid { shown_with_reasons keyed_module (codes "{\"k:n\":[{\"a\":\"x\",\"v\":1}]}")
        ≡ one_with_reasons (codes "V1 invalid-value - /k:n[1]/a -") (codes "/k:n[1]/a: \"x\" isn't a value of uint64: it takes an integer in quotes in 0..18446744073709551615.") (codes "V1") }
    ensures single_quote { shown_with_reasons keyed_module (codes "{\"k:t\":[{\"a\":\"it's\"}]}")
        ≡ one_with_reasons (codes "V3 data-missing - /k:t[1]/v -") (codes "/k:t[a=\"it's\"]: v is missing.") (codes "V3") }
    ensures double_quote { shown_with_reasons keyed_module (codes "{\"k:t\":[{\"a\":\"q\\\"q\\\\\"}]}")
        ≡ one_with_reasons (codes "V3 data-missing - /k:t[1]/v -") (codes "/k:t[a='q\"q\\']: v is missing.") (codes "V3") }
    ensures both_quotes { shown_with_reasons keyed_module (codes "{\"k:t\":[{\"a\":\"it's \\\"\"}]}")
        ≡ one_with_reasons (codes "V3 data-missing - /k:t[1]/v -") (codes "/k:t[1]: v is missing.") (codes "V3") }
    ensures control { shown_with_reasons keyed_module (codes "{\"k:t\":[{\"a\":\"" ++ (194 ∷ 155 ∷ codes "31m\"}]}"))
        ≡ one_with_reasons (codes "V3 data-missing - /k:t[1]/v -") (codes "/k:t[1]: v is missing.") (codes "V3") }
    ensures item { shown_with_reasons keyed_module (codes "{\"k:i\":[\"x" ++ (127 ∷ (194 ∷ 155 ∷ codes "31m\"]}")))
        ≡ one_with_reasons (codes "V1 invalid-value - /k:i[1] -") (codes "/k:i[1]: \"x\\u007f\\u009b31m\" isn't a value of uint8: it takes an integer without quotes in 0..255.") (codes "V1") }
    ensures message { shown_with_reasons keyed_module (codes "{\"k:m\":10}")
        ≡ one_with_reasons (codes "V1 invalid-value - /k:m -") (codes "/k:m: 10 isn't a value of uint8: it takes an integer without quotes in 0..9. Its module says: Too  great.") (codes "V1") }
    ensures by_position { shown_as_json keyed_module (codes "{\"k:n\":[{\"a\":\"1\",\"v\":1},{\"a\":\"01\",\"v\":1}]}")
        ≡ found 1 (codes "{\"error-message\":\"its key a='1' is that of /k:n[2].\",\"error-path\":\"/k:n[1]\",\"error-tag\":\"operation-failed\",\"error-type\":\"application\",\"yanglive:code\":\"V8\",\"yanglive:path\":\"/k:n[1]\"}\n"
        ++ (codes "{\"error-message\":\"its key a='01' is that of /k:n[1].\",\"error-path\":\"/k:n[2]\",\"error-tag\":\"operation-failed\",\"error-type\":\"application\",\"yanglive:code\":\"V8\",\"yanglive:path\":\"/k:n[2]\"}\n"
        ++ codes "{\"yanglive:faults\":2}\n")) }
{}

/// Faults as objects of JSON: their members in order, what is left out, and the last line; a document that is dumped stands
/// in their place.
pub fn faults_as_json()
    ensures value { shown_as_json module_p (codes "{\"p:c\":{\"id\":256}}")
        ≡ found 1 (codes "{\"error-message\":\"256 isn't a value of uint8: it takes an integer without quotes in 0..255.\",\"error-path\":\"/p:c/id\",\"error-tag\":\"invalid-value\",\"error-type\":\"application\",\"yanglive:code\":\"V1\",\"yanglive:path\":\"/p:c/id\"}\n"
        ++ codes "{\"yanglive:faults\":1}\n") }
    ensures own_message { shown_as_json
        (module_text (codes "m") (codes "  typedef t { type uint8 { range \"0..9\" { error-message \"Too\\ngreat.\"; } } }\n  leaf v { type t { range \"2..5\" { error-message \"Outside.\"; } } }\n"))
        (codes "{\"m:v\":10}")
        ≡ found 1 (codes "{\"error-message\":\"Too\\ngreat.\",\"error-path\":\"/m:v\",\"error-tag\":\"invalid-value\",\"error-type\":\"application\",\"yanglive:code\":\"V1\",\"yanglive:path\":\"/m:v\"}\n"
        ++ codes "{\"yanglive:faults\":1}\n") }
    ensures missing_case { shown_as_json net_module (hosts (codes "{\"name\":\"a\"}"))
        ≡ found 1 (codes "{\"error-app-tag\":\"missing-choice\",\"error-message\":\"no case of the choice mode is there.\",\"error-path\":\"/ex-net:net/host[name='a']\",\"error-tag\":\"data-missing\",\"error-type\":\"application\",\"yanglive:code\":\"V4\",\"yanglive:info\":\"mode\",\"yanglive:path\":\"/ex-net:net/host[1]\"}\n"
        ++ codes "{\"yanglive:faults\":1}\n") }
    ensures none { shown_as_json module_p (codes "{\"p:c\":{\"id\":1}}")
        ≡ found 0 (codes "{\"yanglive:faults\":0}\n") }
    ensures with_reasons { printed true (outcome (validate core told_as_json (codes "d.json") (codes "m.yang" ∷ []))
        (Some module_p ∷ Some (codes "{\"p:c\":{\"id\":1}}") ∷ []))
        ≡ found 0 (codes "{\"yanglive:faults\":0}\n") }
    ensures dump { printed false (outcome (edit core (record told_as_json { is_dump = true }) (codes "d.json") (codes "s.txt") (codes "m.yang" ∷ []))
        (Some module_p ∷ Some (codes "{\"p:c\":{\"id\":1}}") ∷ Some [] ∷ []))
        ≡ found 0 (codes "{\"p:c\":{\"id\":1}}\n") }
{}

/// What the kit and the system say besides, where reasons are wanted: where a document stops being JSON, of no other refusal,
/// and why a file can't be read.
pub fn said_besides()
    ensures no_json { refused_beside (codes "{\n  ")
        ≡ refused_alone (codes "{\n  ") ++ codes "d.json:2:3: reading stops here\n" }
    ensures no_object { refused_beside (codes "[]") ≡ refused_alone (codes "[]") ++ [] }
    ensures another_name { refused_beside (codes "{\"c\":{}}") ≡ refused_alone (codes "{\"c\":{}}") ++ [] }
    ensures unread { (printed_with (record { line = 2; column = 3; cause = a_directory }) true
        (outcome (compile core (codes "m.yang" ∷ [])) (None ∷ []))).errors
        ≡ codes "cannot read m.yang\n  it is a directory.\n" }
    ensures unasked { (printed_with (record { line = 2; column = 3; cause = a_directory }) false
        (outcome (compile core (codes "m.yang" ∷ [])) (None ∷ []))).errors
        ≡ codes "cannot read m.yang\n" }
{}

/// The configuration of a document alone: no state is wanted, none of its defaults is in use, and what is stored of it is
/// told, once for each schema node and row; the document is dumped as a whole.
pub fn configuration_alone()
    ensures wanted { shown state_module (codes "{\"s:host\":[{\"name\":\"a\",\"auto\":[null]},{\"name\":\"b\",\"auto\":[null]}]}")
        ≡ found 1 (codes "V9 operation-failed data-not-unique /s:host[1] 1\nV3 data-missing - /s:host[1]/up -\nV6 operation-failed too-few-elements /s:host[1]/counter -\n"
        ++ (codes "V9 operation-failed data-not-unique /s:host[2] 1\nV3 data-missing - /s:host[2]/up -\nV6 operation-failed too-few-elements /s:host[2]/counter -\n"
        ++ codes "6 faults\n")) }
    ensures unasked { configured (codes "{\"s:host\":[{\"name\":\"a\",\"auto\":[null]},{\"name\":\"b\",\"auto\":[null]}]}")
        ≡ without_faults }
    ensures state { configured (codes "{\"s:host\":[{\"name\":\"a\",\"auto\":[null]},{\"name\":\"b\",\"up\":\"x\",\"counter\":[{\"n\":1},{\"n\":300}],\"seen\":[null]}]}")
        ≡ found 1 (codes "V12 unknown-element - /s:host[2]/up -\nV12 unknown-element - /s:host[2]/counter -\nV12 unknown-element - /s:host[2]/seen -\n"
        ++ codes "V4 data-missing missing-choice /s:host[2] mode\n4 faults\n") }
    ensures of_two_entries { configured (codes "{\"s:host\":[{\"name\":\"a\",\"auto\":[null],\"up\":true},{\"name\":\"a\",\"auto\":[null],\"up\":true}]}")
        ≡ found 1 (codes "V12 unknown-element - /s:host[1]/up -\nV12 unknown-element - /s:host[2]/up -\n"
        ++ codes "V8 operation-failed - /s:host[1] -\nV8 operation-failed - /s:host[2] -\n4 faults\n") }
    ensures after_edits { edited_configuration false (codes "{\"s:host\":[{\"name\":\"a\",\"auto\":[null]}]}") (codes "create /s:host[1]/up true")
        ≡ found 1 (codes "V12 unknown-element - /s:host[1]/up -\n1 faults\n") }
    ensures dumped { edited_configuration true (codes "{\"s:host\":[{\"name\":\"a\",\"auto\":[null]}]}") (codes "create /s:host[1]/up true")
        ≡ found 1 (codes "{\"s:host\":[{\"auto\":[null],\"name\":\"a\",\"up\":true}]}\n") }
{}

/// Of state no case of a choice and no number of items is wanted where configuration alone is looked at.
pub fn state_that_must_be()
    ensures choice { shown (module_text (codes "m") (codes "  choice h { config false; mandatory true; leaf x { type empty; } }\n")) (codes "{}")
        ≡ found 1 (codes "V4 data-missing missing-choice / h\n1 faults\n") }
    ensures no_choice { shown_of_configuration (module_text (codes "m") (codes "  choice h { config false; mandatory true; leaf x { type empty; } }\n")) (codes "{}")
        ≡ without_faults }
    ensures items { shown (module_text (codes "m")
        (codes "  leaf-list i { config false; min-elements 1; type uint8; }\n")) (codes "{}")
        ≡ found 1 (codes "V6 operation-failed too-few-elements /m:i -\n1 faults\n") }
    ensures no_items { shown_of_configuration (module_text (codes "m")
        (codes "  leaf-list i { config false; min-elements 1; type uint8; }\n")) (codes "{}")
        ≡ without_faults }
{}

/// With `--output` the document after the edits is written as a whole: whatever is wrong with it, whatever is printed of it,
/// and with its state where configuration alone is looked at.
pub fn saved_documents()
    ensures good { saved_by plainly module_p (codes "{\"p:c\":{\"id\":1}}") (codes "replace /p:c/id 2")
        ≡ and_saved without_faults (codes "{\"p:c\":{\"id\":2}}\n") }
    ensures with_a_fault { saved_by plainly module_p (codes "{\"p:c\":{\"id\":1}}") (codes "replace /p:c/id 300")
        ≡ and_saved (found 1 (codes "V1 invalid-value - /p:c/id -\n1 faults\n"))
        (codes "{\"p:c\":{\"id\":300}}\n") }
    ensures with_a_refused_edit { saved_by plainly module_p (codes "{\"p:c\":{\"id\":1}}") (codes "replace /p:c/id 2\nremove /p:c/note")
        ≡ and_saved (faulty (codes "line 2: E7\n") (codes "0 faults\n")) (codes "{\"p:c\":{\"id\":2}}\n") }
    ensures dumped { saved_by as_dump module_p (codes "{\"p:c\":{\"id\":1}}") (codes "replace /p:c/id 300")
        ≡ and_saved (found 1 (codes "{\"p:c\":{\"id\":300}}\n")) (codes "{\"p:c\":{\"id\":300}}\n") }
    ensures with_its_state { saved_by of_configuration state_module (codes "{\"s:host\":[{\"name\":\"a\",\"auto\":[null]}]}") (codes "create /s:host[1]/up true")
        ≡ and_saved (found 1 (codes "V12 unknown-element - /s:host[1]/up -\n1 faults\n"))
        (codes "{\"s:host\":[{\"auto\":[null],\"name\":\"a\",\"up\":true}]}\n") }
    ensures refused { saved_by plainly module_p (codes "{\"c\":{}}") []
        ≡ failed 2 (codes "d.json: J4 /") }
{}

/// Lines with the places to which an editor jumps: of faults, of a document, of a module, and of a script.
pub fn told_by_lines()
    ensures value { shown_by_lines module_p (codes "{\"p:c\":\n {\"id\":256}}")
        ≡ found 1 (codes "d.json:2:8: error: V1 /p:c/id: 256 isn't a value of uint8: it takes an integer without quotes in 0..255.\n1 faults\n") }
    ensures absent { shown_by_lines module_p (codes "{\"p:c\":{}}")
        ≡ found 1 (codes "d.json:1:8: error: V3 /p:c: id is missing.\n1 faults\n") }
    ensures none { shown_by_lines module_p (codes "{\"p:c\":{\"id\":1}}") ≡ found 0 (codes "0 faults\n") }
    ensures member { shown_by_lines module_p (codes "{\"p:c\":{\"noet\":1}}") ≡ failed 2 (codes "d.json:1:8: error: J3 /p:c") }
    ensures no_json { shown_by_lines module_p (codes "{") ≡ failed 2 (codes "d.json:3:9: error: J1 /") }
    ensures statement { told_by_lines (compile core (codes "m.yang" ∷ [])) (Some (codes "module m { yang-version 1.1; namespace \"m\"; prefix m;\n \tfrob;\n}\n") ∷ [])
        ≡ failed 2 (codes "m.yang:2:3: error: C1") }
    ensures text { told_by_lines (compile core (codes "m.yang" ∷ [])) (Some (codes "  module m {") ∷ [])
        ≡ failed 2 (codes "m.yang:1:3: error: L6") }
    ensures unread { told_by_lines (compile core (codes "m.yang" ∷ [])) (None ∷ [])
        ≡ failed 4 (codes "cannot read m.yang") }
    ensures script { told_by_lines (edit core plainly (codes "d.json") (codes "s.txt") (codes "m.yang" ∷ []))
        (Some module_p ∷ Some (codes "{\"p:c\":{\"id\":1}}") ∷ Some (codes "\nremove /p:c/id\nadd\n") ∷ [])
        ≡ record { output = codes "V3 data-missing - /p:c/id -\n1 faults\n"; errors = codes "s.txt:3:1: error: E1\n"; status = 1; saved = None } }
{}

/// What is said of refused documents, where that is asked for: which member isn't known, or is written otherwise, and which
/// value stands there.
pub fn explained_refusals()
    ensures near { shown_with_reasons module_p (codes "{\"p:c\":{\"noet\":\"x\"}}")
        ≡ refused_with_reasons (codes "d.json: J3 /p:c") (codes "nothing called \"noet\" may stand here; near it: note.") (codes "J3") }
    ensures far { shown_with_reasons module_p (codes "{\"p:c\":{},\"q:box\":1}")
        ≡ refused_with_reasons (codes "d.json: J3 /") (codes "nothing called \"q:box\" may stand here.") (codes "J3") }
    ensures without_module { shown_with_reasons module_p (codes "{\"c\":{}}")
        ≡ refused_with_reasons (codes "d.json: J4 /") (codes "here \"c\" is written p:c.") (codes "J4") }
    ensures with_module { shown_with_reasons module_p (codes "{\"p:c\":{\"p:id\":1}}")
        ≡ refused_with_reasons (codes "d.json: J4 /p:c") (codes "here \"p:id\" is written id.") (codes "J4") }
    ensures another_kind { shown_with_reasons module_p (codes "{\"p:c\":[]}")
        ≡ refused_with_reasons (codes "d.json: J5 /p:c") (codes "an array stands where an object is due.") (codes "J5") }
    ensures before_edits { printed true (outcome (edit core as_dump (codes "d.json") (codes "s.txt") (codes "m.yang" ∷ []))
        (Some module_p ∷ Some (codes "{\"p:c\":{\"id\":{}}}") ∷ Some [] ∷ []))
        ≡ refused_with_reasons (codes "d.json: J5 /p:c/id") (codes "an object stands where a leaf's value is due.") (codes "J5") }
    ensures number { shown_with_reasons module_p (codes "{\"p:c\":{\"id\":1.5}}")
        ≡ refused_with_reasons (codes "d.json: J6 /p:c/id") (codes "a number with a point or an exponent, or beyond 64 bits, isn't a value of uint8: it takes an integer without quotes in 0..255.") (codes "J6") }
    ensures no_json { shown_with_reasons module_p (codes "{\"p:c\":{\"id\":1,}}")
        ≡ refused_with_reasons (codes "d.json: J1 /") (codes "no comma stands behind the last member.") (codes "J1") }
    ensures nothing_more { shown_with_reasons module_p (codes "[]")
        ≡ failed 2 (codes "d.json: J2 /\n  The document isn't an object. Put the top nodes into an object: {\"module:name\": ..}.") }
{}

/// What is said of the refused lines of a script, where that is asked for: which name of a path isn't known, or is written
/// otherwise, and which value stands there.
pub fn explained_edits()
    ensures near { edited_with_reasons (codes "create /p:c/noet \"x\"")
        ≡ faulty (line_with_reasons (codes "line 1: E2") (codes "create /p:c/noet \"x\"") (codes "nothing called \"noet\" may stand here; near it: note.") (codes "E2")) (codes "{\"p:c\":{\"id\":1}}\n") }
    ensures far { edited_with_reasons (codes "remove /q:box")
        ≡ faulty (line_with_reasons (codes "line 1: E2") (codes "remove /q:box") (codes "nothing called \"q:box\" may stand here.") (codes "E2")) (codes "{\"p:c\":{\"id\":1}}\n") }
    ensures without_module { edited_with_reasons (codes "# the first line\nremove /c/id")
        ≡ faulty (line_with_reasons (codes "line 2: E2") (codes "remove /c/id") (codes "here \"c\" is written p:c.") (codes "E2")) (codes "{\"p:c\":{\"id\":1}}\n") }
    ensures with_module { edited_with_reasons (codes "remove /p:c/p:id")
        ≡ faulty (line_with_reasons (codes "line 1: E2") (codes "remove /p:c/p:id") (codes "here \"p:id\" is written id.") (codes "E2")) (codes "{\"p:c\":{\"id\":1}}\n") }
    ensures member { edited_with_reasons (codes "replace /p:c {\"noet\":\"x\"}")
        ≡ faulty (line_with_reasons (codes "line 1: E10 J3") (codes "replace /p:c {\"noet\":\"x\"}") (codes "nothing called \"noet\" may stand here; near it: note.") (codes "J3")) (codes "{\"p:c\":{\"id\":1}}\n") }
    ensures other_member { edited_with_reasons (codes "replace /p:c {\"p:id\":1}")
        ≡ faulty (line_with_reasons (codes "line 1: E10 J4") (codes "replace /p:c {\"p:id\":1}") (codes "here \"p:id\" is written id.") (codes "J4")) (codes "{\"p:c\":{\"id\":1}}\n") }
    ensures value { edited_with_reasons (codes "replace /p:c/id []")
        ≡ faulty (line_with_reasons (codes "line 1: E10 J5") (codes "replace /p:c/id []") (codes "an array stands where a leaf's value is due.") (codes "J5")) (codes "{\"p:c\":{\"id\":1}}\n") }
    ensures no_edit { edited_with_reasons (codes "add /p:c/note \"x\"")
        ≡ faulty (line_with_reasons (codes "line 1: E1") (codes "add /p:c/note \"x\"") (codes "no edit is called \"add\": write create, replace, remove or move.") (codes "E1")) (codes "{\"p:c\":{\"id\":1}}\n") }
    ensures predicate { edited_with_reasons (codes "remove /p:c/id[1]")
        ≡ faulty (line_with_reasons (codes "line 1: E3") (codes "remove /p:c/id[1]") (codes "id is a leaf: no predicate stands behind it.") (codes "E3")) (codes "{\"p:c\":{\"id\":1}}\n") }
    ensures no_json { edited_with_reasons (codes "create /p:c/note eth0")
        ≡ faulty (line_with_reasons (codes "line 1: E9") (codes "create /p:c/note eth0") (codes "eth0 isn't JSON; a text stands in double quotes.") (codes "E9")) (codes "{\"p:c\":{\"id\":1}}\n") }
    ensures stored { edited_with_reasons (codes "create /p:c/id 2")
        ≡ faulty (line_with_reasons (codes "line 1: E8") (codes "create /p:c/id 2") (codes "/p:c/id is 1.") (codes "E8")) (codes "{\"p:c\":{\"id\":1}}\n") }
    ensures not_stored { edited_with_reasons (codes "remove /p:c/note")
        ≡ faulty (line_with_reasons (codes "line 1: E7") (codes "remove /p:c/note") (codes "note isn't stored in /p:c.") (codes "E7")) (codes "{\"p:c\":{\"id\":1}}\n") }
{}

/// With `--strict` a document that gives a member twice is refused where that comes again, and an edit's value doesn't fit;
/// without it the last member counts.
pub fn members_given_twice()
    ensures last_counts { shown module_p (codes "{\"p:c\":{\"id\":{},\"id\":1}}") ≡ without_faults }
    ensures once { strictly_shown (codes "{\"p:c\":{\"id\":1}}") ≡ without_faults }
    ensures twice { strictly_shown (codes "{\"p:c\":{\"id\":{},\"id\":1}}")
        ≡ refused_with_reasons (codes "d.json: J8 /p:c/id") (codes "id is given twice.") (codes "J8") }
    ensures refused_before { strictly_shown (codes "{\"p:c\":{\"id\":1,\"id\":{}}}")
        ≡ refused_with_reasons (codes "d.json: J5 /p:c/id") (codes "an object stands where a leaf's value is due.") (codes "J5") }
    ensures values { strictly_edited
        (codes "replace /p:c {\"id\":2,\"id\":3}\nreplace /p:c/id 4\ncreate /p:x {\"id\":1,\"id\":1}\ncreate /p:c/note {")
        ≡ faulty (codes "line 1: E10 J8\nline 3: E10 J8\nline 4: E9\n") (codes "{\"p:c\":{\"id\":4}}\n") }
    ensures moves { strictly_edited (codes "move /p:c 1") ≡ faulty (codes "line 1: E3\n") (codes "{\"p:c\":{\"id\":1}}\n") }
{}
