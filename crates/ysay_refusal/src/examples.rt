//! What is said of documents that are refused.

ghost use Rattle.std.specs.Prelude.{◌≡◌, [], codes};
ghost use Rattle.ysay_refusal.specs.Samples.{said_under};

/// Members that aren't known, or not in that form (J3, J4).
pub fn members()
    ensures near { said_under (codes "{\"p:hots\":{}}")
        ≡ codes "nothing called \"p:hots\" may stand here; near it: p:host." }
    ensures far { said_under (codes "{\"p:host\":{\"name\":\"a\",\"uplink\":1}}")
        ≡ codes "nothing called \"uplink\" may stand here." }
    ensures without_module_near { said_under (codes "{\"hots\":{}}")
        ≡ codes "nothing called \"hots\" may stand here; near it: p:host." }
    ensures of_another_module { said_under (codes "{\"net:host\":{}}")
        ≡ codes "nothing called \"net:host\" may stand here; near it: p:host." }
    ensures with_module_near { said_under (codes "{\"p:host\":{\"p:nmae\":\"a\"}}")
        ≡ codes "nothing called \"p:nmae\" may stand here; near it: name." }
    ensures in_an_entry { said_under (codes "{\"p:host\":{\"port\":[{\"id\":1},{\"id\":2,\"sped\":1}]}}")
        ≡ codes "nothing called \"sped\" may stand here; near it: speed." }
    ensures first { said_under (codes "{\"p:host\":{\"b\":1,\"a\":1}}")
        ≡ codes "nothing called \"a\" may stand here." }
    ensures without_module { said_under (codes "{\"host\":{}}")
        ≡ codes "here \"host\" is written p:host." }
    ensures with_module { said_under (codes "{\"p:host\":{\"p:name\":\"a\"}}")
        ≡ codes "here \"p:name\" is written name." }
    ensures control { said_under (codes "{\"p:\\u001bost\":{}}")
        ≡ codes "nothing called \"p:\\x1bost\" may stand here; near it: p:host." }
{}

/// Texts that are no JSON (J1).
pub fn texts()
    ensures comma_in_object { said_under (codes "{\"p:host\":{\"name\":\"a\",}}")
        ≡ codes "no comma stands behind the last member." }
    ensures comma_in_array { said_under (codes "{\"p:host\":{\"tag\":[\"a\", ]}}")
        ≡ codes "no comma stands behind the last item." }
    ensures comment { said_under (codes "{ // first\n}") ≡ codes "JSON has no comments." }
    ensures block { said_under (codes "{\"p:host\":{}/* last */}") ≡ codes "JSON has no comments." }
    ensures single_quotes { said_under (codes "{'p:host':{}}") ≡ codes "JSON wants double quotes." }
    ensures early_end { said_under (codes "{\"p:host\":{\"name\":\"}\"}")
        ≡ codes "the document ends before all brackets are closed." }
    ensures in_a_text { said_under (codes "{\"p:host\":{\"name\":\"it's // a \\\",}\"}")
        ≡ codes "the document ends before all brackets are closed." }
    ensures other_before { said_under (codes "{\"p:host\":{\"name\" \"a\",}}") ≡ [] }
    ensures no_quotes { said_under (codes "{\"p:host\":{\"name\":http://a}}") ≡ [] }
    ensures too_many { said_under (codes "{}}") ≡ [] }
    ensures nothing { said_under [] ≡ [] }
{}

/// Values of another kind than is due (J5), numbers that are no whole ones of 64 bits (J6), and a document that is read.
pub fn values()
    ensures no_object { said_under (codes "{\"p:host\":7}")
        ≡ codes "a number stands where an object is due." }
    ensures no_array { said_under (codes "{\"p:host\":{\"tag\":\"a\"}}")
        ≡ codes "a text stands where an array is due." }
    ensures no_entry { said_under (codes "{\"p:host\":{\"port\":[[]]}}")
        ≡ codes "an array stands where an object is due." }
    ensures no_value { said_under (codes "{\"p:host\":{\"name\":{}}}")
        ≡ codes "an object stands where a leaf's value is due." }
    ensures null_value { said_under (codes "{\"p:host\":{\"tag\":[null]}}")
        ≡ codes "null stands where an item's value is due." }
    ensures flag { said_under (codes "{\"p:host\":{\"port\":[true]}}")
        ≡ codes "true stands where an object is due." }
    ensures fraction { said_under (codes "{\"p:host\":{\"port\":[{\"id\":1.0}]}}")
        ≡ codes "a number with a point or an exponent, or beyond 64 bits, isn't a value of uint8: it takes an integer without quotes in 0..255." }
    ensures fraction_for_text { said_under (codes "{\"p:host\":{\"name\":1.5}}")
        ≡ codes "a number with a point or an exponent, or beyond 64 bits, isn't a value of string: it takes a text in quotes." }
    ensures is_read { said_under (codes "{}") ≡ codes "read" }
{}
