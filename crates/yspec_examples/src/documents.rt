//! Worked examples of documents of every kind of node, under schemas written out as values: from bytes to the lines that are printed.

ghost use Rattle.std.specs.Prelude.{◌≡◌, [], ◌∷◌, codes, Some, None};
ghost use Rattle.yspec.specs.document.Document.{step_to, step_at};
ghost use Rattle.yspec_examples.specs.Printing.{found, failed};
ghost use Rattle.yspec_examples.specs.SchemaExamples.{net_schema, k_schema, v_schema, y_schema, w_schema, t_schema, m_schema, shown_under, refused_within, hosts, one_host, two_hosts, entries};

/// How many entries a list has: too few, too many, and as many as it may.
pub fn amounts()
    ensures too_few { shown_under net_schema (codes "{}")
        ≡ found 1 (codes "V6 operation-failed too-few-elements /ex-net:net/host -\n1 faults\n") }
    ensures one { shown_under net_schema one_host ≡ found 0 (codes "0 faults\n") }
    ensures too_many { shown_under net_schema (hosts
        (codes "{\"name\":\"a\",\"auto\":[null]},{\"name\":\"b\",\"auto\":[null]},{\"name\":\"c\",\"auto\":[null]},{\"name\":\"d\",\"auto\":[null]}"))
        ≡ found 1 (codes "V7 operation-failed too-many-elements /ex-net:net/host -\n1 faults\n") }
{}

/// Values outside a restriction have its error-app-tag, those outside the built-in type none.
pub fn restricted_values()
    ensures outside { shown_under net_schema
        (hosts (codes "{\"name\":\"a\",\"auto\":[null],\"port\":1025}"))
        ≡ found 1 (codes "V1 invalid-value bad-port /ex-net:net/host[1]/port -\n1 faults\n") }
    ensures last { shown_under net_schema
        (hosts (codes "{\"name\":\"a\",\"auto\":[null],\"port\":1024}"))
        ≡ found 0 (codes "0 faults\n") }
    ensures alone { shown_under net_schema
        (hosts (codes "{\"name\":\"a\",\"auto\":[null],\"port\":8080}"))
        ≡ found 0 (codes "0 faults\n") }
    ensures outside_itself { shown_under net_schema
        (hosts (codes "{\"name\":\"a\",\"auto\":[null],\"port\":70000}"))
        ≡ found 1 (codes "V1 invalid-value - /ex-net:net/host[1]/port -\n1 faults\n") }
{}

/// Two cases of a choice, none of a mandatory one, and a default case whose default is a target.
pub fn choices()
    ensures two_cases { shown_under net_schema
        (hosts (codes "{\"name\":\"a\",\"auto\":[null],\"speed\":5}"))
        ≡ found 1 (codes "V5 bad-element - /ex-net:net/host[1] mode\n1 faults\n") }
    ensures no_case { shown_under net_schema (hosts (codes "{\"name\":\"a\"}"))
        ≡ found 1 (codes "V4 data-missing missing-choice /ex-net:net/host[1] mode\n1 faults\n") }
    ensures third_entry { shown_under net_schema (hosts
        (codes "{\"name\":\"a\",\"auto\":[null]},{\"name\":\"b\",\"auto\":[null]},{\"name\":\"c\"}"))
        ≡ found 1 (codes "V4 data-missing missing-choice /ex-net:net/host[3] mode\n1 faults\n") }
    ensures default_case { shown_under k_schema (codes "{\"k:want\":3}")
        ≡ found 0 (codes "0 faults\n") }
{}

/// Equal keys and equal tuples of a `unique` are told at each entry; a default in use stands in a tuple.
pub fn tuples()
    ensures default_in_a_tuple { shown_under net_schema
        (hosts (codes "{\"name\":\"a\",\"addr\":\"x\",\"auto\":[null]},{\"name\":\"b\",\"addr\":\"x\",\"port\":80,\"auto\":[null]}"))
        ≡ found 1 (codes "V9 operation-failed data-not-unique /ex-net:net/host[1] 1\nV9 operation-failed data-not-unique /ex-net:net/host[2] 1\n2 faults\n") }
    ensures equal_keys { shown_under net_schema
        (hosts (codes "{\"name\":\"a\",\"auto\":[null]},{\"name\":\"a\",\"auto\":[null]}"))
        ≡ found 1 (codes "V8 operation-failed - /ex-net:net/host[1] -\nV8 operation-failed - /ex-net:net/host[2] -\n2 faults\n") }
    ensures through_a_container { shown_under v_schema entries
        ≡ found 1 (codes "V9 operation-failed data-not-unique /v:e[1] 1\nV9 operation-failed data-not-unique /v:e[2] 1\nV10 operation-failed - /v:e[2]/m[1] -\nV10 operation-failed - /v:e[2]/m[3] -\nV2 missing-element - /v:e[3]/id -\n5 faults\n") }
    ensures no_keys { shown_under w_schema (codes "{\"w:log\":[{\"at\":\"1\"},{\"at\":\"1\"}]}")
        ≡ found 0 (codes "0 faults\n") }
    ensures missing_leaf { shown_under w_schema (codes "{\"w:log\":[{}]}")
        ≡ found 1 (codes "V3 data-missing - /w:log[1]/at -\n1 faults\n") }
{}

/// Items of a leaf-list are equal where one member of a union took them and their values are equal.
pub fn equal_items()
    ensures in_a_union { shown_under y_schema (codes "{\"y:z\":[5,\"5\",5]}")
        ≡ found 1 (codes "V10 operation-failed - /y:z[1] -\nV10 operation-failed - /y:z[3] -\n2 faults\n") }
{}

/// A reference names a value of its target, a default in use included.
pub fn references()
    ensures default_target { shown_under net_schema
        (hosts (codes "{\"name\":\"a\",\"auto\":[null],\"use-port\":80}"))
        ≡ found 0 (codes "0 faults\n") }
    ensures later_entry { shown_under net_schema two_hosts ≡ found 0 (codes "0 faults\n") }
{}

/// Numbers with fractions at the end of their range, and nodes of other modules than their parents'.
pub fn other_modules()
    ensures largest { shown_under t_schema (codes "{\"t:d\":\"9.223372036854775807\"}")
        ≡ found 0 (codes "0 faults\n") }
    ensures too_large { shown_under t_schema (codes "{\"t:d\":\"9.223372036854775808\"}")
        ≡ found 1 (codes "V1 invalid-value - /t:d -\n1 faults\n") }
    ensures qualified { shown_under m_schema (codes "{\"m:c\":{\"b:x\":{\"a:y\":\"v\"}}}")
        ≡ found 0 (codes "0 faults\n") }
    ensures unqualified { shown_under m_schema (codes "{\"m:c\":{\"x\":{}}}")
        ≡ failed 2 (codes "d.json: J4 /m:c") }
{}

/// Each refusal of a document, with its place.
pub fn refused_forms()
    ensures qualified_list { shown_under net_schema (codes "{\"ex-net:net\":{\"ex-net:host\":[]}}")
        ≡ failed 2 (codes "d.json: J4 /ex-net:net") }
    ensures unqualified_top { shown_under net_schema (codes "{\"net\":{}}")
        ≡ failed 2 (codes "d.json: J4 /") }
    ensures fraction { shown_under net_schema (hosts (codes "{\"name\":\"a\",\"port\":1.5}"))
        ≡ failed 2 (codes "d.json: J6 /ex-net:net/host[1]/port") }
    ensures no_bytes { shown_under net_schema [] ≡ failed 2 (codes "d.json: J1 /") }
    ensures no_object { shown_under net_schema (codes "[]") ≡ failed 2 (codes "d.json: J2 /") }
    ensures unknown { shown_under net_schema (codes "{\"ex-net:nat\":1}")
        ≡ failed 2 (codes "d.json: J3 /") }
    ensures no_array { shown_under net_schema (codes "{\"ex-net:net\":{\"host\":{}}}")
        ≡ failed 2 (codes "d.json: J5 /ex-net:net/host") }
    ensures no_entry { shown_under net_schema (codes "{\"ex-net:net\":{\"host\":[1]}}")
        ≡ failed 2 (codes "d.json: J5 /ex-net:net/host[1]") }
    ensures choice_is_no_member { shown_under net_schema
        (hosts (codes "{\"name\":\"a\",\"mode\":{}}"))
        ≡ failed 2 (codes "d.json: J3 /ex-net:net/host[1]") }
{}

/// The limit of nodes counts right ones in the order of reading, and is told before what comes behind it.
pub fn limited_rooms()
    ensures room_for_all { refused_within 3 w_schema (codes "{\"w:c\":{\"tag\":[\"a\",\"b\"]}}")
        ≡ None }
    ensures one_too_many { refused_within 2 w_schema (codes "{\"w:c\":{\"tag\":[\"a\",\"b\"]}}")
        ≡ Some (record { code = 7; place = [] }) }
    ensures refused_before { refused_within 2 w_schema (codes "{\"w:c\":{\"tag\":[\"a\",{}]}}")
        ≡ Some (record { code = 5; place = step_to 0 ∷ step_at 1 2 ∷ [] }) }
    ensures refused_behind { refused_within 1 w_schema (codes "{\"w:c\":{\"tag\":[\"a\",{}]}}")
        ≡ Some (record { code = 7; place = [] }) }
{}
