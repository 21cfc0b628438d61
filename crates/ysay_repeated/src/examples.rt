//! What is given twice in documents and values.

ghost use Rattle.std.specs.Prelude.{◌≡◌, codes, false, true};
ghost use Rattle.ysay_repeated.specs.Repeated.{has_repeated};
ghost use Rattle.ysay_repeated.specs.Samples.{repeated_under, said_under};

/// The place of the first member that is given twice.
pub fn documents()
    ensures none { repeated_under (codes "{\"p:host\":{\"name\":\"a\",\"tag\":[\"a\",\"a\"]}}")
        ≡ codes "none" }
    ensures at_the_top { repeated_under (codes "{\"p:host\":{},\"p:host\":{}}") ≡ codes "/p:host" }
    ensures of_a_leaf { repeated_under (codes "{\"p:host\":{\"name\":\"a\",\"tag\":[],\"name\":\"a\"}}")
        ≡ codes "/p:host/name" }
    ensures of_a_list { repeated_under (codes "{\"p:host\":{\"port\":[{\"id\":1}],\"port\":[]}}")
        ≡ codes "/p:host/port" }
    ensures in_an_entry { repeated_under (codes "{\"p:host\":{\"port\":[{\"id\":1},{\"id\":2,\"id\":2}]}}")
        ≡ codes "/p:host/port[2]/id" }
    ensures of_two_entries { repeated_under (codes "{\"p:host\":{\"port\":[{\"id\":1},{\"id\":1}]}}")
        ≡ codes "none" }
    ensures escaped { repeated_under (codes "{\"p:host\":{\"name\":\"a\",\"n\\u0061me\":\"a\"}}")
        ≡ codes "/p:host/name" }
    ensures inner_first { repeated_under (codes "{\"p:host\":{\"name\":\"a\",\"name\":\"b\"},\"p:host\":{}}")
        ≡ codes "/p:host/name" }
    ensures outer_first { repeated_under (codes "{\"p:host\":{},\"p:host\":{\"name\":\"a\",\"name\":\"b\"}}")
        ≡ codes "/p:host" }
    ensures in_order_of_the_text { repeated_under
        (codes "{\"p:host\":{\"tag\":[],\"name\":\"a\",\"tag\":[],\"name\":\"b\"}}")
        ≡ codes "/p:host/tag" }
    ensures three_times { repeated_under (codes "{\"p:host\":{\"name\":\"a\",\"name\":\"b\",\"name\":\"c\"}}")
        ≡ codes "/p:host/name" }
    ensures in_what_is_not_known { repeated_under (codes "{\"p:host\":{\"x\":{\"a\":1,\"a\":1}}}")
        ≡ codes "none" }
    ensures no_json { repeated_under (codes "{") ≡ codes "none" }
{}

/// What is said of it.
pub fn sentences()
    ensures of_a_leaf { said_under (codes "{\"p:host\":{\"name\":\"a\",\"name\":\"a\"}}")
        ≡ codes "name is given twice." }
    ensures at_the_top { said_under (codes "{\"p:host\":{},\"p:host\":{}}")
        ≡ codes "host is given twice." }
{}

/// Whether any member of a value is given twice.
pub fn values()
    ensures number { has_repeated (codes "1") ≡ false }
    ensures once { has_repeated (codes "{\"a\":1,\"b\":{\"a\":1}}") ≡ false }
    ensures twice { has_repeated (codes "{\"a\":1,\"b\":2,\"a\":1}") ≡ true }
    ensures below { has_repeated (codes "{\"a\":[1,{\"b\":{},\"b\":{}}]}") ≡ true }
    ensures apart { has_repeated (codes "[{\"a\":1},{\"a\":1}]") ≡ false }
    ensures no_json { has_repeated (codes "{\"a\":1,\"a\":1") ≡ false }
{}
