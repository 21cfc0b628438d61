//! Worked examples of edits under schemas written out as values: from lines to what comes of each, and the faults or the text of the document after them.

ghost use Rattle.std.specs.Prelude.{◌≡◌, [], ◌∷◌, codes, Some};
ghost use Rattle.yspec_examples.specs.SchemaExamples.{net_schema, k_schema, v_schema, w_schema, hosts, one_host, two_hosts, entries, edited_by, dumped, accepted_edit, refused_edit, refused_value_of};

/// A target goes and comes back: as a default in use, as an entry, and within one replacement.
pub fn targets_changed()
    ensures default_gone { edited_by net_schema (hosts
        (codes "{\"name\":\"a\",\"auto\":[null],\"use-port\":80}"))
        (codes "create /ex-net:net/host[1]/port 22" ∷ [])
        ≡ Some ((accepted_edit ∷ []), codes "V11 data-missing instance-required /ex-net:net/host[1]/use-port -\n1 faults\n") }
    ensures default_again { edited_by net_schema (hosts
        (codes "{\"name\":\"a\",\"auto\":[null],\"use-port\":80}"))
        (codes "create /ex-net:net/host[1]/port 22" ∷ codes "remove /ex-net:net/host[1]/port" ∷ [])
        ≡ Some ((accepted_edit ∷ accepted_edit ∷ []), codes "0 faults\n") }
    ensures entry_gone { edited_by net_schema two_hosts (codes "remove /ex-net:net/host[name='b']"
        ∷ [])
        ≡ Some ((accepted_edit ∷ []), codes "V11 data-missing instance-required /ex-net:net/host[1]/uplink -\n1 faults\n") }
    ensures entry_replaced { edited_by net_schema two_hosts
        (codes "replace /ex-net:net/host[2] {\"name\":\"b\",\"speed\":7}" ∷ [])
        ≡ Some ((accepted_edit ∷ []), codes "0 faults\n") }
    ensures case_chosen { edited_by k_schema (codes "{\"k:want\":3}") (codes "create /k:boost 1"
        ∷ [])
        ≡ Some (
          (accepted_edit ∷ []),
          codes
              "V11 data-missing instance-required /k:want -\n1 faults\n",
        ) }
    ensures case_again { edited_by k_schema (codes "{\"k:want\":3}") (codes "create /k:boost 1"
        ∷ codes "remove /k:boost" ∷ [])
        ≡ Some ((accepted_edit ∷ accepted_edit ∷ []), codes "0 faults\n") }
{}

/// Positions are counted anew when an entry goes, and a key that several entries have names none of them.
pub fn entries_removed()
    ensures positions { edited_by net_schema (hosts
        (codes "{\"name\":\"a\",\"auto\":[null]},{\"name\":\"b\",\"auto\":[null]},{\"name\":\"c\"}")) (codes "remove /ex-net:net/host[1]" ∷ [])
        ≡ Some ((accepted_edit ∷ []), codes "V4 data-missing missing-choice /ex-net:net/host[2] mode\n1 faults\n") }
    ensures equal_keys { edited_by net_schema (hosts
        (codes "{\"name\":\"a\",\"auto\":[null]},{\"name\":\"a\",\"auto\":[null]}"))
        (codes "remove /ex-net:net/host[name='a']" ∷ codes "remove /ex-net:net/host[2]" ∷ [])
        ≡ Some ((refused_edit 6 ∷ accepted_edit ∷ []), codes "0 faults\n") }
    ensures fewer { edited_by net_schema (hosts (codes
        "{\"name\":\"a\",\"auto\":[null]},{\"name\":\"b\",\"auto\":[null]},{\"name\":\"c\",\"auto\":[null]},{\"name\":\"d\",\"auto\":[null]}")) (codes "remove /ex-net:net/host[4]" ∷ [])
        ≡ Some ((accepted_edit ∷ []), codes "0 faults\n") }
    ensures last_entry { edited_by net_schema one_host
        (codes "create /ex-net:net/host[1]/name \"b\"" ∷ codes "remove /ex-net:net/host[1]" ∷ [])
        ≡ Some ((refused_edit 8 ∷ accepted_edit ∷ []), codes "V6 operation-failed too-few-elements /ex-net:net/host -\n1 faults\n") }
    ensures container_stays { dumped net_schema one_host
        (codes "create /ex-net:net/host[1]/name \"b\"" ∷ codes "remove /ex-net:net/host[1]" ∷ [])
        ≡ Some (codes "{\"ex-net:net\":{}}") }
{}

/// Each refusal of an edit where there are lists.
pub fn refused_edits()
    ensures nothing_above { edited_by net_schema (codes "{}")
        (codes "create /ex-net:net/host {\"name\":\"z\",\"auto\":[null]}" ∷ [])
        ≡ Some ((refused_edit 4 ∷ []), codes "V6 operation-failed too-few-elements /ex-net:net/host -\n1 faults\n") }
    ensures in_turn { edited_by net_schema one_host (codes "replace /ex-net:net/host[1]/port 9"
        ∷ codes "replace /ex-net:net/host[1]/name {}" ∷ codes "remove /ex-net:net/host"
        ∷ codes "remove /ex-net:net/host[2]" ∷ codes "replace /ex-net:net/host[9]/zz 1"
        ∷ codes "remove /ex-net:net[1]" ∷ codes "create /ex-net:net/host[1] {}"
        ∷ codes "create /ex-net:net/host [{}]" ∷ codes "replace /ex-net:net/host[1]/port 1.5"
        ∷ codes "replace /ex-net:net/host[1]/name x" ∷ [])
        ≡ Some (
          (refused_edit 7 ∷ refused_value_of 5 ∷ refused_edit 3 ∷ refused_edit 5
              ∷ refused_edit 2 ∷ refused_edit 3 ∷ refused_edit 3 ∷ refused_value_of 5
              ∷ refused_edit 7
              ∷ refused_edit 9 ∷ []),
          codes "0 faults\n",
        ) }
    ensures keys { edited_by net_schema one_host (codes "remove /ex-net:net/host[name='z']"
        ∷ codes "remove /ex-net:net/host[addr='a']"
        ∷ codes "remove /ex-net:net/host[name='a'][name='a']"
        ∷ codes "create /ex-net:net/host[name='z']/addr \"q\"" ∷ codes "remove /w:log[at='1']" ∷ [])
        ≡ Some (
          (refused_edit 7 ∷ refused_edit 3 ∷ refused_edit 3 ∷ refused_edit 4 ∷ refused_edit 2
              ∷ []),
          codes "0 faults\n",
        ) }
    ensures no_keys { edited_by w_schema (codes "{\"w:log\":[{\"at\":\"1\"}]}")
        (codes "remove /w:log[at='1']" ∷ codes "remove /w:log[1]" ∷ [])
        ≡ Some ((refused_edit 3 ∷ accepted_edit ∷ []), codes "0 faults\n") }
{}

/// Entries and items come last in their lists, and a key's text names an entry.
pub fn entries_and_items()
    ensures by_key { dumped net_schema one_host
        (codes "create /ex-net:net/host[name=\"a\"]/addr \"q\"" ∷ [])
        ≡ Some (codes "{\"ex-net:net\":{\"host\":[{\"addr\":\"q\",\"auto\":[null],\"name\":\"a\"}]}}") }
    ensures entry { dumped net_schema one_host
        (codes "create /ex-net:net/host {\"name\":\"c\",\"addr\":\"q\",\"speed\":7}" ∷ [])
        ≡ Some (codes "{\"ex-net:net\":{\"host\":[{\"auto\":[null],\"name\":\"a\"},{\"addr\":\"q\",\"name\":\"c\",\"speed\":7}]}}") }
    ensures items { dumped w_schema (codes "{}") (codes "create /w:c/tag \"a\""
        ∷ codes "create /w:c {}" ∷ codes "create /w:c/tag \"a\"" ∷ codes "create /w:c/tag \"b\""
        ∷ codes "remove /w:c/tag[1]" ∷ [])
        ≡ Some (codes "{\"w:c\":{\"tag\":[\"b\"]}}") }
    ensures last_item { edited_by w_schema (codes "{}") (codes "create /w:c/tag \"a\""
        ∷ codes "create /w:c {}" ∷ codes "create /w:c/tag \"a\"" ∷ codes "remove /w:c/tag[1]" ∷ [])
        ≡ Some (
          (refused_edit 4 ∷ accepted_edit ∷ accepted_edit ∷ accepted_edit
              ∷ []),
          codes "0 faults\n",
        ) }
    ensures no_items { dumped w_schema (codes "{}") (codes "create /w:c {}"
        ∷ codes "create /w:c/tag \"a\"" ∷ codes "remove /w:c/tag[1]" ∷ [])
        ≡ Some (codes "{\"w:c\":{}}") }
{}

/// A tuple changes with a leaf in a container below its entry, and goes with its entry.
pub fn tuples_changed()
    ensures below_a_container { edited_by v_schema entries (codes "replace /v:e[2]/in/x \"q\"" ∷ [])
        ≡ Some ((accepted_edit ∷ []), codes "V10 operation-failed - /v:e[2]/m[1] -\nV10 operation-failed - /v:e[2]/m[3] -\nV2 missing-element - /v:e[3]/id -\n3 faults\n") }
    ensures entry_gone { edited_by v_schema entries (codes "remove /v:e[1]" ∷ [])
        ≡ Some ((accepted_edit ∷ []), codes "V10 operation-failed - /v:e[1]/m[1] -\nV10 operation-failed - /v:e[1]/m[3] -\nV2 missing-element - /v:e[2]/id -\n3 faults\n") }
    ensures key_again { edited_by v_schema entries (codes "create /v:e[3]/id 2" ∷ [])
        ≡ Some ((accepted_edit ∷ []), codes "V9 operation-failed data-not-unique /v:e[1] 1\nV8 operation-failed - /v:e[2] -\nV9 operation-failed data-not-unique /v:e[2] 1\nV10 operation-failed - /v:e[2]/m[1] -\nV10 operation-failed - /v:e[2]/m[3] -\nV8 operation-failed - /v:e[3] -\n6 faults\n") }
{}
