//! What the definitions say of single words, names and lines.

ghost use Rattle.std.specs.Prelude.{◌≡◌, ◌++◌, ◌∷◌, [], true, false, codes, replicate, Some, None};
ghost use Rattle.ysay_text.specs.Control.{visible};
ghost use Rattle.ysay_text.specs.Line.{shown_line};
ghost use Rattle.ysay_text.specs.Near.{is_near, nearest};
ghost use Rattle.ysay_text.specs.Sentence.{of_word};
ghost use Rattle.ysay_text.specs.Word.{yang_words};
ghost use Rattle.ysay_text.specs.Samples.{said};

/// Whether so many edits lead from one text to another.
pub fn edits()
    ensures same { is_near 0 (codes "leaf") (codes "leaf") ≡ true }
    ensures less { is_near 1 (codes "contaner") (codes "container") ≡ true }
    ensures more { is_near 1 (codes "lleaf") (codes "leaf") ≡ true }
    ensures other { is_near 1 (codes "keaf") (codes "leaf") ≡ true }
    ensures exchanged { is_near 1 (codes "tpye") (codes "type") ≡ true }
    ensures one_is_few { is_near 0 (codes "tpye") (codes "type") ≡ false }
    ensures at_the_end { is_near 1 (codes "leafs") (codes "leaf") ≡ true }
    ensures two { is_near 2 (codes "gruoping") (codes "groupings") ≡ true }
    ensures two_are_many { is_near 1 (codes "gruoping") (codes "groupings") ≡ false }
    ensures three { is_near 2 (codes "abc") (codes "xyz") ≡ false }
{}

/// Which name is nearest.
pub fn names()
    ensures fewest { nearest (codes "lisst") (codes "lists" ∷ codes "list" ∷ []) ≡ Some (codes "lists") }
    ensures one_before_two { nearest (codes "speed") (codes "spend-" ∷ codes "sped" ∷ []) ≡ Some (codes "sped") }
    ensures itself { nearest (codes "host") (codes "hosts" ∷ codes "host" ∷ []) ≡ Some (codes "host") }
    ensures none { nearest (codes "uplink") (codes "host" ∷ codes "speed" ∷ []) ≡ None }
    ensures short { nearest (codes "a") (codes "b" ∷ []) ≡ None }
    ensures of_two { nearest (codes "id") (codes "name" ∷ codes "ip" ∷ []) ≡ Some (codes "ip") }
{}

/// What is said of a word that is no keyword which is read.
pub fn words()
    ensures near { of_word (codes "contaner")
        ≡ codes "no statement is called contaner; near it: container." }
    ensures far { of_word (codes "interface") ≡ codes "no statement is called interface." }
    ensures unread { of_word (codes "pattern")
        ≡ codes "pattern is YANG 1.1, and isn't read here." }
    ensures near_unread { of_word (codes "patern")
        ≡ codes "no statement is called patern; near it: pattern." }
    ensures control { of_word (codes "le" ++ (194 ∷ 155 ∷ codes "af"))
        ≡ codes "no statement is called le\\xc2\\x9baf; near it: leaf." }
    ensures read_first { nearest (codes "wher") (codes "where" ∷ yang_words) ≡ Some (codes "where") }
{}

/// What is said of the statements of a line.
pub fn statements()
    ensures misplaced { said 2 (codes "leaf") None ≡ codes "leaf can't stand here." }
    ensures foreign_type { said 2 (codes "type") (Some (codes "binary"))
        ≡ codes "the type binary is YANG 1.1, and isn't read here." }
    ensures prefixed_control { said 2 (codes "x:" ++ (127 ∷ [])) None
        ≡ codes "x:\\x7f can't stand here." }
    ensures prefixed { said 2 (codes "x:leaf") None ≡ codes "x:leaf can't stand here." }
    ensures elsewhere { said 3 (codes "leaf") None ≡ [] }
{}

/// Texts of which a terminal shows all.
pub fn visibly()
    ensures letters { visible (codes "it's" ++ (195 ∷ 169 ∷ [])) ≡ codes "it's" ++ (195 ∷ 169 ∷ []) }
    ensures first { visible (0 ∷ []) ≡ codes "\\u0000" }
    ensures escape { visible (27 ∷ codes "[2J") ≡ codes "\\u001b[2J" }
    ensures last_of_few { visible (31 ∷ codes " ") ≡ codes "\\u001f " }
    ensures delete { visible (codes "a" ++ (127 ∷ codes "b")) ≡ codes "a\\u007fb" }
    ensures before_delete { visible (codes "~") ≡ codes "~" }
    ensures above_delete { visible (194 ∷ 128 ∷ []) ≡ codes "\\u0080" }
    ensures introducer { visible (194 ∷ 155 ∷ codes "31m") ≡ codes "\\u009b31m" }
    ensures last { visible (194 ∷ 159 ∷ []) ≡ codes "\\u009f" }
    ensures above { visible (194 ∷ 160 ∷ []) ≡ 194 ∷ 160 ∷ [] }
{}

/// Lines as they are shown.
pub fn lines()
    ensures second { shown_line 2 (codes "module a {\n  leaf b;\n}\n") ≡ codes "leaf b;" }
    ensures last { shown_line 3 (codes "module a {\n  leaf b;\n}") ≡ codes "}" }
    ensures beyond { shown_line 5 (codes "module a {\n}\n") ≡ [] }
    ensures returns { shown_line 1 (codes "module a {\r\n}\n") ≡ codes "module a {" }
    ensures control { shown_line 1 (27 ∷ codes "[2J") ≡ codes "\\x1b[2J" }
    ensures broken { shown_line 1 (codes "a" ++ (255 ∷ codes "b")) ≡ codes "a\\xffb" }
    ensures letters { shown_line 1 (195 ∷ 169 ∷ []) ≡ 195 ∷ 169 ∷ [] }
    ensures turned { shown_line 1 (226 ∷ 128 ∷ 174 ∷ []) ≡ codes "\\xe2\\x80\\xae" }
    ensures whole { shown_line 1 (replicate 100 97) ≡ replicate 100 97 }
    ensures cut { shown_line 1 (replicate 101 97) ≡ replicate 100 97 ++ codes " .." }
{}
