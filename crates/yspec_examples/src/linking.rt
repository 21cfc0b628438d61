//! Worked examples of the table of statements: what each form of argument spells, each refusal once, and what is kept.

ghost use Rattle.std.specs.Prelude.{◌≡◌, ◌-◌, ◌^◌, [], ◌∷◌, codes, pos, negsuc, Some, None};
ghost use Rattle.yspec.specs.types.Ranges.{least, greatest, number};
ghost use Rattle.yspec.specs.schema.Schema.{deprecated};
ghost use Rattle.yspec.specs.linking.Keyword.{Keyword, keyword_named, keyword_text};
ghost use Rattle.yspec.specs.linking.Arguments.{identifier_of, name_of, relative_path_of, absolute_path_of, leafref_path_of, key_of, unique_of, date_of, status_of, ordered_by_of, by_user, count_of, max_elements_of, value_of, fraction_digits_of, spans_of};
ghost use Rattle.yspec_examples.specs.LinkingSamples.{told, told_of_lines, told_of_texts, kept_of_texts};

/// Each keyword is the one that its text names.
pub fn keywords()
    ensures named { (k : Keyword) → keyword_named (keyword_text k) ≡ Some k }
    ensures prefixed { keyword_named (codes "y:leaf") ≡ None }
    ensures other_case { keyword_named (codes "Leaf") ≡ None }
{}

/// Names, alone and in paths and rows.
pub fn named_things()
    ensures identifier { identifier_of (codes "a-1") ≡ Some (codes "a-1") }
    ensures plain { name_of (codes "a") ≡ Some (record { prefix = None; identifier = codes "a" }) }
    ensures prefixed { name_of (codes "p:a")
        ≡ Some (record { prefix = Some (codes "p"); identifier = codes "a" }) }
    ensures two_colons { name_of (codes "p:q:a") ≡ None }
    ensures relative { relative_path_of (codes "a/p:b")
        ≡ Some (record { prefix = None; identifier = codes "a" }
        ∷ record { prefix = Some (codes "p"); identifier = codes "b" } ∷ []) }
    ensures not_relative { relative_path_of (codes "/a") ≡ None }
    ensures absolute { absolute_path_of (codes "/a")
        ≡ Some (record { prefix = None; identifier = codes "a" } ∷ []) }
    ensures slash { absolute_path_of (codes "/") ≡ None }
    ensures spaced { leafref_path_of (codes " / a /\n\tb")
        ≡ Some (record { prefix = None; identifier = codes "a" }
        ∷ record { prefix = None; identifier = codes "b" } ∷ []) }
    ensures open_end { leafref_path_of (codes "/a ") ≡ None }
    ensures key { key_of (codes "a  b")
        ≡ Some (record { prefix = None; identifier = codes "a" }
        ∷ record { prefix = None; identifier = codes "b" } ∷ []) }
    ensures no_key { key_of [] ≡ None }
    ensures key_at_end { key_of (codes "a ") ≡ None }
    ensures unique { unique_of (codes "a/b c") ≡ Some (
        (record { prefix = None; identifier = codes "a" }
        ∷ record { prefix = None; identifier = codes "b" } ∷ [])
        ∷ (record { prefix = None; identifier = codes "c" } ∷ []) ∷ []) }
{}

/// Numbers, dates and words.
pub fn numbers_and_words()
    ensures date { date_of (codes "2024-02-30") ≡ Some (codes "2024-02-30") }
    ensures short_date { date_of (codes "2024-2-30") ≡ None }
    ensures status { status_of (codes "deprecated") ≡ Some deprecated }
    ensures order { ordered_by_of (codes "user") ≡ Some by_user }
    ensures none { count_of (codes "0") ≡ Some 0 }
    ensures leading_zero { count_of (codes "01") ≡ None }
    ensures most { count_of (codes "4294967295") ≡ Some 4294967295 }
    ensures too_many { count_of (codes "4294967296") ≡ None }
    ensures unbounded { max_elements_of (codes "unbounded") ≡ Some None }
    ensures at_most_three { max_elements_of (codes "3") ≡ Some (Some 3) }
    ensures at_most_none { max_elements_of (codes "0") ≡ None }
    ensures value { value_of (codes "-2147483648") ≡ Some (negsuc (2 ^ 31 - 1)) }
    ensures low_value { value_of (codes "-2147483649") ≡ None }
    ensures minus_zero { value_of (codes "-0") ≡ Some (pos 0) }
    ensures plus { value_of (codes "+1") ≡ None }
    ensures digits { fraction_digits_of (codes "18") ≡ Some 18 }
    ensures too_many_digits { fraction_digits_of (codes "19") ≡ None }
{}

/// Ranges and lengths.
pub fn ranges_and_lengths()
    ensures two { spans_of (codes "1..10 | 20")
        ≡ Some (record { first = number (pos 1) 0; last = number (pos 10) 0 }
        ∷ record { first = number (pos 20) 0; last = number (pos 20) 0 } ∷ []) }
    ensures three { spans_of (codes "min..5 | 7 | 9..max")
        ≡ Some (record { first = least; last = number (pos 5) 0 }
        ∷ record { first = number (pos 7) 0; last = number (pos 7) 0 }
        ∷ record { first = number (pos 9) 0; last = greatest } ∷ []) }
    ensures point { spans_of (codes "-1.50 .. max")
        ≡ Some (record { first = number (negsuc 149) 2; last = greatest } ∷ []) }
    ensures far_out { spans_of (codes "99999999999999999999999999")
        ≡ Some (record { first = number (pos (2 ^ 64)) 0; last = number (pos (2 ^ 64)) 0 } ∷ []) }
    ensures no_digit { spans_of (codes "1.") ≡ None }
    ensures zero_in_front { spans_of (codes "01..2") ≡ None }
    ensures three_bounds { spans_of (codes "1..2..3") ≡ None }
    ensures no_part { spans_of (codes "1 |") ≡ None }
{}

/// Each refusal once.
pub fn refused_statements()
    ensures good { told_of_lines (codes "  list l { key a; leaf a { type uint8 { range 1..10; } } }\n") ≡ None }
    ensures unknown { told_of_lines (codes "  leafs a;\n") ≡ Some (1, 5) }
    ensures misplaced { told_of_lines (codes "  container c {\n    key a; }\n") ≡ Some (1, 6) }
    ensures not_judged_below { told_of_lines (codes "  x { leaf; }\n") ≡ Some (1, 5) }
    ensures augment { told_of_lines (codes "  augment /a;\n") ≡ None }
    ensures augment_inside { told_of_lines (codes "  container c {\n    augment /a; }\n")
        ≡ Some (1, 6) }
    ensures type_outside { told_of_lines (codes "  leaf a {\n    type binary; }\n") ≡ Some (1, 6) }
    ensures too_many { told_of_lines (codes "  leaf a { type string; units a;\n units b; }\n")
        ≡ Some (2, 5) }
    ensures too_few { told_of_lines (codes "\n  leaf-list a;\n") ≡ Some (2, 6) }
    ensures missing { told_of_lines (codes "  leaf {\n type string; }\n") ≡ Some (3, 5) }
    ensures wrong_form { told_of_lines (codes "  leaf a { type string;\n config yes; }\n")
        ≡ Some (3, 6) }
    ensures no_version { told (codes "module a { namespace b;\n prefix c; leaf; }") ≡ Some (4, 1) }
    ensures other_version { told (codes "module a { namespace b;\n prefix c;\n yang-version 1; }")
        ≡ Some (4, 1) }
    ensures extended { told_of_lines (codes "  y:z { leaf; }\n  leaf a { type string; y:z; }\n")
        ≡ None }
    ensures extension { told_of_lines (codes "  extension { leaf; }\n") ≡ None }
    ensures extension_below { told_of_lines (codes "  container c {\n    extension z; }\n")
        ≡ Some (1, 6) }
    ensures submodule { told (codes "submodule a { leaf; }") ≡ Some (1, 1) }
    ensures extended_top { told (codes "\na:module b;") ≡ Some (1, 2) }
    ensures second { told_of_texts (codes "module a { yang-version 1.1; namespace b; prefix c; }"
        ∷ codes "\nleaf a;" ∷ [])
        ≡ Some (1, (1, 2)) }
{}

/// What is kept, in order.
pub fn kept_statements()
    ensures numbers { kept_of_texts (codes "module a { y:z { leaf b; } prefix c { description d; } extension e { argument f; } leaf g; }"
        ∷ codes "module h { contact; }" ∷ [])
        ≡ (0, (codes "module", (codes "a", 0))) ∷ (1, (codes "prefix", (codes "c", 0)))
        ∷ (2, (codes "description", (codes "d", 0))) ∷ (3, (codes "leaf", (codes "g", 0)))
        ∷ (4, (codes "module", (codes "h", 1))) ∷ (5, (codes "contact", (codes "contact", 1))) ∷ [] }
{}
