//! Where values stand in texts.

ghost use Rattle.std.specs.Prelude.{◌≡◌, ◌++◌, ◌∷◌, [], codes};
ghost use Rattle.ysay_lines.specs.Lines.{at_line};
ghost use Rattle.ysay_lines.specs.Samples.{place_under, host, name, tags, tag, ports, port, id, speed};
ghost use Rattle.ysay_lines.specs.Starts as spec;

/// The offsets at which tokens begin.
pub fn starts_of_tokens()
    ensures none { spec.starts (codes " \t\r\n") ≡ [] }
    ensures word { spec.starts (codes "-1.5e3") ≡ 0 ∷ [] }
    ensures nested { spec.starts (codes " {\"a\\\"\": [-1.5,null , \"\"]}")
        ≡ 1 ∷ 2 ∷ 9 ∷ 10 ∷ 15 ∷ 22 ∷ 24 ∷ 25 ∷ [] }
    ensures in_strings { spec.starts (codes "[\"[1,{\\\\\",\"\\\"]\"]") ≡ 0 ∷ 1 ∷ 10 ∷ 15 ∷ [] }
    ensures close_together { spec.starts (codes "[[true]]") ≡ 0 ∷ 1 ∷ 2 ∷ 6 ∷ 7 ∷ [] }
{}

/// Lines and columns of values.
pub fn lines_and_columns()
    ensures top { place_under (codes " {}") [] ≡ at_line 1 2 }
    ensures on_one_line { place_under (codes "{\"p:host\": {}}") (host ∷ []) ≡ at_line 1 12 }
    ensures on_others { place_under (codes "{\n  \"p:host\": {\n    \"name\": \"a\"\n  }\n}")
        (host ∷ name ∷ []) ≡ at_line 3 13 }
    ensures behind_carriage_returns { place_under (codes "{\r\n\"p:host\":\r\n{}}") (host ∷ [])
        ≡ at_line 3 1 }
    ensures behind_tabs { place_under (codes "{\t\"p:host\"\t:\t{}}") (host ∷ []) ≡ at_line 1 14 }
    ensures behind_many_bytes { place_under
        (codes "{\"p:host\":{\"tag\":[\"" ++ ((195 ∷ 169 ∷ []) ++ codes "\",\"b\"]}}"))
        (host ∷ tag 2 ∷ []) ≡ at_line 1 24 }
    ensures behind_escapes { place_under (codes "{\"p:host\":{\"name\":\"\\\"{,\\n\\\\\",\"tag\":[]}}")
        (host ∷ tags ∷ []) ≡ at_line 1 36 }
    ensures no_json { place_under (codes "\n{") [] ≡ at_line 1 1 }
{}

/// Which member counts.
pub fn members_by_name()
    ensures escaped { place_under (codes "{\"p:host\":{\"n\\u0061me\":1}}") (host ∷ name ∷ [])
        ≡ at_line 1 24 }
    ensures given_twice { place_under (codes "{\"p:host\":{\"name\":\"a\",\"name\":\"b\"}}")
        (host ∷ name ∷ []) ≡ at_line 1 30 }
    ensures behind_others { place_under (codes "{\"p:host\":{\"x\":[1,{}],\"name\":true}}")
        (host ∷ name ∷ []) ≡ at_line 1 30 }
    ensures of_another_form { place_under (codes "{\"host\":{},\"p:host\":{}}") (host ∷ [])
        ≡ at_line 1 21 }
{}

/// Entries and what stands in them.
pub fn entries()
    ensures whole_list { place_under (codes "{\"p:host\":{\"port\":[{\"id\":1},{\"id\":2}]}}")
        (host ∷ ports ∷ []) ≡ at_line 1 19 }
    ensures entry { place_under (codes "{\"p:host\":{\"port\":[{\"id\":1},{\"id\":2}]}}")
        (host ∷ port 2 ∷ []) ≡ at_line 1 29 }
    ensures in_an_entry { place_under (codes "{\"p:host\":{\"port\":[{\"id\":1},{\"id\":2}]}}")
        (host ∷ port 2 ∷ id ∷ []) ≡ at_line 1 35 }
    ensures item { place_under (codes "{\"p:host\":{\"tag\":[\"a\",\n\"b\"]}}")
        (host ∷ tag 2 ∷ []) ≡ at_line 2 1 }
{}

/// What isn't there is told at what lacks it.
pub fn absent_nodes()
    ensures top_node { place_under (codes "{}") (host ∷ name ∷ []) ≡ at_line 1 1 }
    ensures leaf { place_under (codes "{\"p:host\":{\"tag\":[]}}") (host ∷ name ∷ [])
        ≡ at_line 1 11 }
    ensures in_an_entry { place_under (codes "{\"p:host\":{\"port\":[{\"id\":1},{\"id\":2}]}}")
        (host ∷ port 2 ∷ speed ∷ []) ≡ at_line 1 29 }
    ensures entry { place_under (codes "{\"p:host\":{\"port\":[{\"id\":1}]}}")
        (host ∷ port 2 ∷ id ∷ []) ≡ at_line 1 19 }
    ensures of_no_object { place_under (codes "{\"p:host\":[{\"name\":\"a\"}]}")
        (host ∷ name ∷ []) ≡ at_line 1 11 }
    ensures of_no_array { place_under (codes "{\"p:host\":{\"port\":{\"id\":1}}}")
        (host ∷ port 1 ∷ id ∷ []) ≡ at_line 1 19 }
{}
