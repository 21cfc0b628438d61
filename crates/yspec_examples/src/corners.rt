//! Worked examples of corners, each of which a plausible slip of a definition would turn.

ghost use Rattle.std.specs.Prelude.{◌≡◌, ◌++◌, ◌∷◌, [], List, true, false, codes, replicate, Some, nat_lt};
ghost use Rattle.yspec.specs.Forest.{Forest, end, node, size};
ghost use Rattle.yspec.specs.document.Document.{document_limit};
ghost use Rattle.yspec.specs.schema.Breaks.{broken, first_broken, level_limit, limit_breaks, node_limit};
ghost use Rattle.yspec.specs.schema.Diagram.{diagram};
ghost use Rattle.yspec.specs.text.Statement.{Statement, text_limit};
ghost use Rattle.yspec.specs.text.Text.{is_identifier};
ghost use Rattle.yspec.specs.linking.Keyword.{keywords};
ghost use Rattle.yspec.specs.linking.Source.{Source};
ghost use Rattle.yspec.specs.linking.TypeStatements.{member_limit, means, of_members, own, told, too_large};
ghost use Rattle.yspec.specs.types.Restriction.{member_count, union_type};
ghost use Rattle.yspec.specs.types.Types.{YangType};
ghost use Rattle.yspec_examples.specs.TableSamples.{table_text};
ghost use Rattle.yspec.specs.linking.Compiling.{is_too_deep, phases_of_plan};
ghost use Rattle.yspec.specs.linking.Expansion.{unfit_breaks};
ghost use Rattle.yspec.specs.linking.Augments.{augment_breaks};
ghost use Rattle.yspec.specs.linking.NodeBreaks.{name_breaks, node_breaks};
ghost use Rattle.yspec.specs.linking.NodeCounts.{node_count};
ghost use Rattle.yspec.specs.linking.Planned.{Plan, Planned};
ghost use Rattle.yspec_examples.specs.CompilingSamples.{compiled_lines, compiled_texts, told_at, v_module};
ghost use Rattle.yspec_examples.specs.CornerExamples.{full, nested, other_choice_schema, other_container_schema, other_target_schema, same_name_schema};
ghost use Rattle.yspec.specs.edit.Examples.{module_p, module_text};
ghost use Rattle.yspec_examples.specs.AugmentSamples.{two_added_to_choice};
ghost use Rattle.yspec_examples.specs.ExpansionSamples.{count_of_texts, names_in};
ghost use Rattle.yspec_examples.specs.RunExamples.{counted, faulty, scripted, shown, shown_of_two, without_faults};
ghost use Rattle.yspec_examples.specs.Printing.{failed, found};
ghost use Rattle.yspec_examples.specs.SchemaExamples.{shown_under};

/// The limits; they are told at the module given last, and the number of nodes before their names.
pub fn limits()
    ensures documents { document_limit ≡ 1000000 }
    ensures nodes { node_limit ≡ 65535 }
    ensures levels { level_limit ≡ 60 }
    ensures texts { text_limit ≡ 4194304 }
    ensures members { member_limit ≡ 65535 }
    ensures as_many_members { (types : List YangType) → nat_lt member_limit (member_count (union_type types)) ≡ false
        → of_members types ≡ means (own (union_type types)) }
    ensures more_members { (types : List YangType) → nat_lt member_limit (member_count (union_type types)) ≡ true
        → of_members types ≡ too_large }
    ensures members_told { (s : Source) → told s too_large ≡ broken 18 s.home s.statement.line }
    ensures longest_identifier { is_identifier (replicate 64 97) ≡ true }
    ensures too_long_identifier { is_identifier (replicate 65 97) ≡ false }
    ensures deepest { counted (module_text (codes "m") (nested 60)) ≡ found 0 (codes "60 nodes\n") }
    ensures too_deep { compiled_lines (nested 61) ≡ told_at 18 1 }
    ensures last_module { (s t : Statement) (below inner : Forest Statement)
        → limit_breaks true (node s below (node t inner end)) ≡ broken 18 1 t.line }
    ensures before_names { (s : Statement) (below : Forest Statement) (plan : Plan)
        → nat_lt node_limit (node_count plan.modules) ≡ true
        → first_broken (phases_of_plan (node s below end) plan)
        ≡ Some (record { code = 18; module_number = 0; line = s.line }) }
    ensures behind_defaults { compiled_lines (nested 61
        ++ codes "\n  leaf a { type uint8; default 300; }\n") ≡ told_at 11 6 }
{}

/// The number of nodes is judged once more where all are made: a single node that an augment gives a choice counts without its
/// case before.
pub fn all_nodes()
    ensures counted_before { count_of_texts two_added_to_choice ≡ 5 }
    ensures made { names_in (compiled_texts two_added_to_choice)
        ≡ (0, codes "h") ∷ (0, codes "k") ∷ (0, codes "k") ∷ (1, codes "y") ∷ (1, codes "y")
        ∷ (1, codes "z") ∷ (1, codes "z") ∷ [] }
    ensures most { (p : Planned) → is_too_deep (full p 16) ≡ false }
    ensures one_more { (p : Planned) → is_too_deep (node p (full p 16) end) ≡ true }
    ensures told { (s : Statement) (below : Forest Statement) (plan : Plan)
        → nat_lt node_limit (node_count plan.modules) ≡ false
        → unfit_breaks plan.modules ++ augment_breaks plan.modules ≡ [] → name_breaks plan ≡ []
        → node_breaks plan ≡ [] → nat_lt node_limit (size plan.nodes) ≡ true
        → first_broken (phases_of_plan (node s below end) plan)
        ≡ Some (record { code = 18; module_number = 0; line = s.line }) }
{}

/// The table of statements: the form of each argument, and how many there may be of each substatement.
pub fn table()
    ensures { table_text keywords ≡ codes "module identifier: yang-version 1 namespace 1 prefix 1 import * organization ? contact ? revision * extension * augment * identity * description ? reference ? typedef * grouping * uses * container * leaf * leaf-list * list * choice *\n"
        ++ (codes "yang-version text:\n"
        ++ (codes "namespace text:\n"
        ++ (codes "prefix identifier:\n"
        ++ (codes "import identifier: prefix 1 revision-date ? description ? reference ?\n"
        ++ (codes "revision-date date:\n"
        ++ (codes "organization text:\n"
        ++ (codes "contact text:\n"
        ++ (codes "description text:\n"
        ++ (codes "reference text:\n"
        ++ (codes "revision date: description ? reference ?\n"
        ++ (codes "extension text:\n"
        ++ (codes "typedef identifier: type 1 units ? default ? status ? description ? reference ?\n"
        ++ (codes "grouping identifier: typedef * grouping * uses * container * leaf * leaf-list * list * choice * status ? description ? reference ?\n"
        ++ (codes "augment absolute path: case * uses * container * leaf * leaf-list * list * choice * status ? description ? reference ?\n"
        ++ (codes "container identifier: presence ? config ? typedef * grouping * uses * container * leaf * leaf-list * list * choice * status ? description ? reference ?\n"
        ++ (codes "leaf identifier: type 1 units ? default ? config ? mandatory ? status ? description ? reference ?\n"
        ++ (codes "leaf-list identifier: type 1 units ? default * config ? ordered-by ? min-elements ? max-elements ? status ? description ? reference ?\n"
        ++ (codes "list identifier: key ? unique * config ? ordered-by ? min-elements ? max-elements ? typedef * grouping * uses * container * leaf * leaf-list * list * choice * status ? description ? reference ?\n"
        ++ (codes "choice identifier: default ? config ? mandatory ? case * container * leaf * leaf-list * list * choice * status ? description ? reference ?\n"
        ++ (codes "case identifier: uses * container * leaf * leaf-list * list * choice * status ? description ? reference ?\n"
        ++ (codes "uses name: refine * status ? description ? reference ?\n"
        ++ (codes "refine relative path: default * mandatory ? presence ? config ? min-elements ? max-elements ? description ? reference ?\n"
        ++ (codes "type name: fraction-digits ? range ? length ? enum * bit * path ? require-instance ? type * base *\n"
        ++ (codes "fraction-digits digits:\n"
        ++ (codes "range ranges: error-message ? error-app-tag ? description ? reference ?\n"
        ++ (codes "length ranges: error-message ? error-app-tag ? description ? reference ?\n"
        ++ (codes "enum text: value ? status ? description ? reference ?\n"
        ++ (codes "bit identifier: position ? status ? description ? reference ?\n"
        ++ (codes "path path:\n"
        ++ (codes "require-instance flag:\n"
        ++ (codes "error-message text:\n"
        ++ (codes "error-app-tag text:\n"
        ++ (codes "value number:\n"
        ++ (codes "position count:\n"
        ++ (codes "units text:\n"
        ++ (codes "default text:\n"
        ++ (codes "config flag:\n"
        ++ (codes "mandatory flag:\n"
        ++ (codes "presence text:\n"
        ++ (codes "min-elements count:\n"
        ++ (codes "max-elements count or unbounded:\n"
        ++ (codes "ordered-by order:\n"
        ++ (codes "status status:\n"
        ++ (codes "key names:\n"
        ++ (codes "unique relative paths:\n"
        ++ (codes "identity identifier: base * status ? description ? reference ?\n"
        ++ (codes "base name:\n"))))))))))))))))))))))))))))))))))))))))))))))) }
{}

/// Prefixes that name nothing, in each statement whose argument has names.
pub fn prefixes()
    ensures of_a_type { compiled_lines (codes "  leaf a { type q:t; }\n") ≡ told_at 6 5 }
    ensures of_a_key { compiled_lines (codes "  list l { key q:k; leaf k { type string; } }\n")
        ≡ told_at 6 5 }
    ensures of_a_unique { compiled_lines
        (codes "  list l { key k; unique q:k; leaf k { type string; } }\n") ≡ told_at 6 5 }
    ensures of_a_path { compiled_lines (codes "  leaf a { type leafref { path /q:a; } }\n")
        ≡ told_at 6 5 }
{}

/// The same of a name that isn't the first of its statement.
pub fn later_prefixes()
    ensures of_a_path { compiled_lines (codes "  container a { leaf b { type string; } }\n  leaf r { type leafref { path /m:a/q:b; } }\n") ≡ told_at 6 6 }
    ensures of_a_refine { compiled_lines (codes "  grouping g { container a { leaf b { type string; } } }\n  uses g {\n    refine a/q:b { default 7; } }\n") ≡ told_at 6 7 }
    ensures of_an_augment { compiled_lines (codes "  container a { container b; }\n  augment /m:a/q:b { leaf c { type string; } }\n") ≡ told_at 6 6 }
    ensures of_a_key { compiled_lines (codes "  list l { key \"k q:j\"; leaf k { type string; } leaf j { type string; } }\n") ≡ told_at 6 5 }
    ensures of_a_unique { compiled_lines (codes "  list l { key k; unique \"u q:v\"; leaf k { type string; } leaf u { type string; } leaf v { type string; } }\n") ≡ told_at 6 5 }
    ensures of_a_step_of_a_unique { compiled_lines (codes "  list l { key k; unique c/q:v; leaf k { type string; } container c { leaf v { type string; } } }\n") ≡ told_at 6 5 }
{}

/// Keys, defaults and references of modules that are just refused, or just not.
pub fn modules()
    ensures state_key { compiled_lines
        (codes "  list l { key k; leaf k { config false; type string; } }\n") ≡ told_at 12 5 }
    ensures state_target { counted (module_text (codes "m") (codes "  leaf a { type leafref { path /m:b; require-instance false; } }\n  leaf b { config false; type string; }\n"))
        ≡ found 0 (codes "2 nodes\n") }
    ensures entries_in_a_default_case { compiled_lines (codes "  choice c { default a; case a { container b { list l { key k; min-elements 1; leaf k { type string; } } } } }\n") ≡ told_at 11 5 }
    ensures mandatory_choice { compiled_lines (codes "  choice c { default a; mandatory true; leaf a { type string; } }\n") ≡ told_at 11 5 }
    ensures state_defaults { counted (module_text (codes "m") (codes "  leaf-list a { config false; type uint8; default 1; default 1; }\n"))
        ≡ found 0 (codes "1 nodes\n") }
    ensures choice_in_a_choice { counted (module_text (codes "m")
        (codes "  choice h { choice i { leaf a { type uint8; } } }\n"))
        ≡ found 0 (codes "5 nodes\n") }
    ensures default_of_a_key { counted (module_text (codes "m")
        (codes "  list l { key k; leaf k { type uint8; default 300; } }\n"))
        ≡ found 0 (codes "2 nodes\n") }
    ensures presence_in_a_default_case { counted (module_text (codes "m") (codes "  choice c { default a; case a { container b { presence x; leaf d { type uint8; mandatory true; } } } }\n"))
        ≡ found 0 (codes "4 nodes\n") }
    ensures two_defaults { compiled_lines
        (codes "  leaf a { type uint8; default 1;\n default 2; }\n") ≡ told_at 2 5 }
    ensures default_before_reference { compiled_lines (codes "  leaf a { default 300; type leafref { path /m:b; } }\n  leaf b { config false; type uint8; }\n") ≡ told_at 11 5 }
    ensures choice_in_a_default_case { compiled_lines (codes "  choice c { default a; case a { choice d { mandatory true; leaf b { type string; } } } }\n") ≡ told_at 11 5 }
    ensures name_before_default { compiled_lines (codes "  leaf a { type uint8; default 300; }\n  leaf b { type string; }\n  leaf b { type string; }\n") ≡ told_at 13 7 }
    ensures default_beside_one_that_is_due { compiled_lines
        (codes "  leaf-list a { type uint8; min-elements 1; default 1; }\n") ≡ told_at 11 5 }
{}

/// Several modules: a rule of an earlier one is told before the name of a later one, and names are of one module.
pub fn sets_of_modules()
    ensures prefix_before_name { compiled_texts (module_text (codes "m")
        (codes "  leaf a { type q:t; }\n") ∷ module_text (codes "m") [] ∷ []) ≡ told_at 6 5 }
    ensures one_name { shown_of_two (module_text (codes "m") (codes "  leaf a { type uint8; }\n"))
        (module_text (codes "n") (codes "  leaf a { type uint8; }\n"))
        (codes "{\"m:a\":1,\"n:a\":2}") ≡ without_faults }
{}

/// Values that are just taken, just not, or just not the same.
pub fn values()
    ensures least { shown (module_text (codes "m") (codes "  leaf a { type int64; }\n"))
        (codes "{\"m:a\":-9223372036854775808}")
        ≡ found 1 (codes "V1 invalid-value - /m:a -\n1 faults\n") }
    ensures less { shown (module_text (codes "m") (codes "  leaf a { type int64; }\n"))
        (codes "{\"m:a\":-9223372036854775809}") ≡ failed 2 (codes "d.json: J6 /m:a") }
    ensures hexadecimal { shown (module_text (codes "m") (codes "  leaf a { type int64; }\n"))
        (codes "{\"m:a\":\"0x1F\"}")
        ≡ found 1 (codes "V1 invalid-value - /m:a -\n1 faults\n") }
    ensures leading_zero { shown (module_text (codes "m")
        (codes "  leaf a { type int64 { range 17; } }\n")) (codes "{\"m:a\":\"017\"}")
        ≡ without_faults }
    ensures carriage_return { shown (module_text (codes "m")
        (codes "  leaf a { type string { length 3; } }\n")) (codes "{\"m:a\":\"a\\rb\"}")
        ≡ without_faults }
    ensures members { shown (module_text (codes "m")
        (codes "  leaf-list a { type union { type uint8; type int64; } }\n"))
        (codes "{\"m:a\":[5,\"5\"]}") ≡ without_faults }
    ensures one_value { shown (module_text (codes "m") (codes "  leaf a { type empty; }\n"))
        (codes "{\"m:a\":[5]}") ≡ failed 2 (codes "d.json: J5 /m:a") }
    ensures no_text { shown (module_text (codes "m") (codes "  leaf a { type string; }\n"))
        (codes "{\"m:a\":\"" ++ (255 ∷ codes "\"}")) ≡ failed 2 (codes "d.json: J1 /") }
{}

/// What is in play, and in which order it is told.
pub fn documents()
    ensures mandatory_key { shown (module_text (codes "m") (codes "  list l { key k; leaf k { type string; mandatory true; } }\n")) (codes "{\"m:l\":[{}]}")
        ≡ found 1 (codes "V2 missing-element - /m:l[1]/k -\n1 faults\n") }
    ensures state_items { shown (module_text (codes "m")
        (codes "  leaf-list a { config false; type uint8; }\n")) (codes "{\"m:a\":[1,1]}")
        ≡ without_faults }
    ensures reference_before_repetition { shown (module_text (codes "m") (codes "  leaf-list a { type leafref { path /m:b; } }\n  leaf b { type string; }\n")) (codes "{\"m:a\":[\"x\",\"x\"]}")
        ≡ found 1 (codes "V11 data-missing instance-required /m:a[1] -\nV10 operation-failed - /m:a[1] -\n"
        ++ codes "V11 data-missing instance-required /m:a[2] -\nV10 operation-failed - /m:a[2] -\n4 faults\n") }
    ensures implied_default { shown (module_text (codes "m") (codes "  list l { key k; unique c/d; leaf k { type uint8; } container c { leaf d { type uint8; default 1; } } }\n")) (codes "{\"m:l\":[{\"k\":1},{\"k\":2,\"c\":{\"d\":1}}]}")
        ≡ found 1 (codes "V9 operation-failed data-not-unique /m:l[1] 1\nV9 operation-failed data-not-unique /m:l[2] 1\n2 faults\n") }
    ensures both_cases { shown (module_text (codes "m") (codes "  choice h {\n    case a { leaf x { type uint8; } leaf y { type uint8; mandatory true; } }\n    case b { leaf z { type uint8; } leaf u { type uint8; mandatory true; } } }\n")) (codes "{\"m:x\":1,\"m:z\":1}")
        ≡ found 1 (codes "V5 bad-element - / h\nV3 data-missing - /m:y -\nV3 data-missing - /m:u -\n3 faults\n") }
    ensures printed_tag { shown (module_text (codes "m")
        (codes "  leaf a { type uint8 { range 1 { error-app-tag \"a\tb c\"; } } }\n"))
        (codes "{\"m:a\":2}")
        ≡ found 1 (codes "V1 invalid-value a_b_c /m:a -\n1 faults\n") }
    ensures name_of_a_later_child { shown_under same_name_schema (codes "{\"m:c\":{\"n\":\"v\"}}")
        ≡ without_faults }
    ensures path_through_another_module { shown_under other_container_schema
        (codes "{\"m:c\":{\"a:d\":{\"e\":5}}}")
        ≡ found 1 (codes "V1 invalid-value - /m:c/a:d/e -\n1 faults\n") }
    ensures name_of_an_earlier_child { shown_under same_name_schema
        (codes "{\"m:c\":{\"a:n\":\"v\"}}") ≡ without_faults }
{}

/// Uniques of state alone; references that lead into a circle, and that lead on.
pub fn references()
    ensures state_unique { counted (module_text (codes "m") (codes "  list l { key k; unique s; leaf k { type string; } leaf s { config false; type string; } }\n"))
        ≡ found 0 (codes "3 nodes\n") }
    ensures into_a_circle { compiled_lines (codes "  leaf a { type leafref { path /m:b; } }\n  leaf b { type leafref { path /m:c; } }\n  leaf c { type leafref { path /m:b; } }\n") ≡ told_at 17 6 }
    ensures type_at_the_end { shown (module_text (codes "m") (codes "  leaf a { type leafref { path /m:b; } }\n  leaf b { type leafref { path /m:c; } }\n  leaf c { type uint8; default 7; }\n")) (codes "{\"m:a\":300,\"m:b\":7}")
        ≡ found 1 (codes "V1 invalid-value - /m:a -\n1 faults\n") }
    ensures each_default { shown (module_text (codes "m") (codes "  leaf-list b { type uint8; default 1; default 2; }\n  leaf a { type leafref { path /m:b; } }\n")) (codes "{\"m:a\":2}") ≡ without_faults }
    ensures no_default { shown (module_text (codes "m") (codes "  leaf-list b { type uint8; default 1; default 2; }\n  leaf a { type leafref { path /m:b; } }\n")) (codes "{\"m:a\":3}")
        ≡ found 1 (codes "V11 data-missing instance-required /m:a -\n1 faults\n") }
    ensures default_without_presence { shown (module_text (codes "m") (codes "  container c { presence x; leaf d { type uint8; default 1; } }\n  leaf a { type leafref { path /m:c/m:d; } }\n")) (codes "{\"m:a\":1}")
        ≡ found 1 (codes "V11 data-missing instance-required /m:a -\n1 faults\n") }
    ensures required_by_the_first { shown (module_text (codes "m") (codes "  leaf a { type leafref { path /m:b; } }\n  leaf b { type leafref { path /m:c; require-instance false; } }\n  leaf c { type uint8; }\n")) (codes "{\"m:a\":1,\"m:b\":2}")
        ≡ found 1 (codes "V11 data-missing instance-required /m:a -\n1 faults\n") }
{}

/// What is in play in cases, in containers, and of entries whose keys are missing or invalid.
pub fn plays()
    ensures without_presence { shown (module_text (codes "m") (codes "  container c { presence x; list l { key k; min-elements 1; leaf k { type string; } } }\n")) (codes "{}") ≡ without_faults }
    ensures other_case { shown (module_text (codes "m") (codes "  choice h { case a { list l { key k; min-elements 1; leaf k { type string; } } } leaf z { type uint8; } }\n")) (codes "{\"m:z\":1}") ≡ without_faults }
    ensures inner_choice_of_another_case { shown (module_text (codes "m") (codes "  choice h { case a { leaf x { type uint8; } choice i { mandatory true; leaf y { type uint8; } } } leaf z { type uint8; } }\n")) (codes "{\"m:z\":1}") ≡ without_faults }
    ensures inner_choice { shown (module_text (codes "m") (codes "  choice h { case a { leaf x { type uint8; } choice i { mandatory true; leaf y { type uint8; } } } leaf z { type uint8; } }\n")) (codes "{\"m:x\":1}")
        ≡ found 1 (codes "V4 data-missing missing-choice / i\n1 faults\n") }
    ensures empty_container_chooses { shown (module_text (codes "m") (codes "  choice h { default b; case a { container c { } leaf y { type uint8; mandatory true; } } case b { leaf z { type uint8; } } }\n")) (codes "{\"m:c\":{}}")
        ≡ found 1 (codes "V3 data-missing - /m:y -\n1 faults\n") }
    ensures part_of_a_key { shown (module_text (codes "m")
        (codes "  list l { key \"a b\"; leaf a { type uint8; } leaf b { type uint8; } }\n"))
        (codes "{\"m:l\":[{\"a\":1},{\"a\":1}]}")
        ≡ found 1 (codes "V2 missing-element - /m:l[1]/b -\nV2 missing-element - /m:l[2]/b -\n2 faults\n") }
    ensures invalid_keys { shown (module_text (codes "m")
        (codes "  list l { key a; leaf a { type uint8; } }\n"))
        (codes "{\"m:l\":[{\"a\":300},{\"a\":300}]}")
        ≡ found 1 (codes "V1 invalid-value - /m:l[1]/a -\nV1 invalid-value - /m:l[2]/a -\n2 faults\n") }
    ensures in_order_of_names { shown module_p (codes "{\"p:c\":{\"zz\":1,\"id\":{}}}")
        ≡ failed 2 (codes "d.json: J5 /p:c/id") }
    ensures number_at_a_container { shown module_p (codes "{\"p:c\":1.5}")
        ≡ failed 2 (codes "d.json: J5 /p:c") }
    ensures two_nulls { shown module_p (codes "{\"p:c\":{\"id\":[null,null]}}")
        ≡ failed 2 (codes "d.json: J5 /p:c/id") }
    ensures too_great_a_number { shown module_p (codes "{\"p:c\":{\"id\":18446744073709551616}}")
        ≡ failed 2 (codes "d.json: J6 /p:c/id") }
{}

/// Positions in absent lists; a value that doesn't fit where nothing is stored.
pub fn edits()
    ensures absent_list { scripted v_module (codes "{}")
        (codes "remove /v:e[1]\ncreate /v:e[1]/id 1")
        ≡ faulty (codes "line 1: E5\nline 2: E5\n") (codes "0 faults\n") }
    ensures absent_leaf { scripted module_p (codes "{\"p:c\":{}}") (codes "replace /p:c/id {}")
        ≡ faulty (codes "line 1: E7\n") (codes "V3 data-missing - /p:c/id -\n1 faults\n") }
    ensures canonical_key { scripted (module_text (codes "m")
        (codes "  list l { key k; leaf k { type int64; } }\n")) (codes "{\"m:l\":[{\"k\":\"+7\"}]}")
        (codes "remove /m:l[k='+7']\nremove /m:l[k='7']")
        ≡ faulty (codes "line 1: E7\n") (codes "0 faults\n") }
    ensures invalid_key { scripted (module_text (codes "m")
        (codes "  list l { key k; leaf k { type uint8; } }\n")) (codes "{\"m:l\":[{\"k\":300}]}")
        (codes "remove /m:l[k='300']\nremove /m:l[k='']\nremove /m:l[1]")
        ≡ faulty (codes "line 1: E7\nline 2: E7\n") (codes "0 faults\n") }
    ensures created_at_a_position { scripted (module_text (codes "m")
        (codes "  leaf-list a { type uint8; }\n")) (codes "{}") (codes "create /m:a[1] 1")
        ≡ faulty (codes "line 1: E3\n") (codes "0 faults\n") }
{}

/// Choices and cases of another module bear its prefix in their parentheses, and so do steps of paths.
pub fn diagrams()
    ensures other_choice { diagram other_choice_schema 1 ≡ codes "module: m\n  +--rw c\n     +--rw (a:h)?\n        +--:(a:k)\n           +--rw a:x?   string\n" }
    ensures other_target { diagram other_target_schema 1 ≡ codes "module: m\n  +--rw c\n     +--rw a:x?   string\n     +--rw a:r?   -> /c/a:x\n" }
{}
