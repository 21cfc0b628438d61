//! Worked examples of types: texts, numbers, restrictions, and what each makes of a value.

ghost use Rattle.std.specs.Prelude.{◌≡◌, ◌^◌, ◌-◌, [], ◌∷◌, pos, negsuc, true, false, codes, option_and_then, is_some};
ghost use Rattle.yspec.specs.types.Names.{enum_names, bit_names};
ghost use Rattle.yspec.specs.types.Ranges.{number};
ghost use Rattle.yspec.specs.types.Types.{text, int, bool, int8, int32, int64, uint8, uint16, uint64, text_value, number_value, integer_type, uint8_type, string_type, value, type_in, taken, app_tag_of, message_of};
ghost use Rattle.yspec.specs.types.Order.{same_value, TellsValues};
ghost use Rattle.yspec.specs.types.Restriction.{of_enums, of_bits, require_instance, narrowed, union_type, leafref_type};
ghost use Rattle.yspec.specs.types.Values.{canonical, value_of_text};
ghost use Rattle.yspec.specs.types.TypeExamples.{decimal, shown, number_is, default_of, from_to, one, at, tagged, explained, untagged, measured, gaps, twice_narrowed, all_narrowed, matched, hex_digits, no_xml_name, is_taken, tag_by, named, numbered, five_enums, enumeration, bits, three_bits, three_colours, coloured, bits_among, taken_by, shown_by, identity_sample, names_sample};

/// Numbers with a point, of two digits after it and of eighteen.
pub fn decimals()
    ensures leading_zeros { shown (decimal 2) (codes "+007.5") ≡ Some (codes "7.5") }
    ensures whole { shown (decimal 2) (codes "7") ≡ Some (codes "7.0") }
    ensures no_sign_of_zero { shown (decimal 2) (codes "-0") ≡ Some (codes "0.0") }
    ensures inner_zero { shown (decimal 3) (codes "-0.050") ≡ Some (codes "-0.05") }
    ensures no_digit_before { taken (decimal 2) (text (codes ".5")) ≡ None }
    ensures no_digit_after { taken (decimal 2) (text (codes "1.")) ≡ None }
    ensures too_many_digits { taken (decimal 2) (text (codes "1.234")) ≡ None }
    ensures no_number { taken (decimal 2) (int (pos 7)) ≡ None }
    ensures greatest_of_one_digit { shown (decimal 1) (codes "922337203685477580.7")
        ≡ Some (codes "922337203685477580.7") }
    ensures past_greatest_of_one_digit { taken (decimal 1) (text (codes "922337203685477580.8"))
        ≡ None }
    ensures least { taken (decimal 18) (text (codes "-9.223372036854775808"))
        ≡ number_is (negsuc (2 ^ 63 - 1)) }
    ensures greatest { taken (decimal 18) (text (codes "9.223372036854775807"))
        ≡ number_is (pos (2 ^ 63 - 1)) }
    ensures past_greatest { taken (decimal 18) (text (codes "9.223372036854775808")) ≡ None }
{}

/// Integers of 64 bits are strings, the others numbers.
pub fn integers()
    ensures sign { taken (integer_type int64) (text (codes "+5")) ≡ number_is (pos 5) }
    ensures leading_zeros { taken (integer_type int64) (text (codes "007")) ≡ number_is (pos 7) }
    ensures no_number { taken (integer_type int64) (int (pos 5)) ≡ None }
    ensures no_space { taken (integer_type int64) (text (codes " 5")) ≡ None }
    ensures greatest { taken (integer_type uint64) (text (codes "18446744073709551615"))
        ≡ number_is (pos (2 ^ 64 - 1)) }
    ensures past_greatest { taken (integer_type uint64) (text (codes "18446744073709551616"))
        ≡ None }
    ensures least { taken (integer_type int8) (int (negsuc 127)) ≡ number_is (negsuc 127) }
    ensures below_least { taken (integer_type int8) (int (negsuc 128)) ≡ None }
    ensures no_text { taken (integer_type int8) (text (codes "5")) ≡ None }
{}

/// A default may be hexadecimal or octal.
pub fn defaults()
    ensures hexadecimal { default_of uint8 (codes "0x1F") ≡ number_is (pos 31) }
    ensures octal { default_of uint8 (codes "017") ≡ number_is (pos 15) }
    ensures zeros { default_of uint8 (codes "00") ≡ number_is (pos 0) }
    ensures no_octal_digit { default_of uint8 (codes "08") ≡ None }
    ensures negative { default_of int8 (codes "-0x80") ≡ number_is (negsuc 127) }
    ensures minus_zero { default_of int8 (codes "-0") ≡ number_is (pos 0) }
    ensures plus { default_of uint8 (codes "+0xff") ≡ number_is (pos 255) }
    ensures negative_octal { default_of int8 (codes "-0200") ≡ number_is (negsuc 127) }
    ensures no_hexadecimal_digit { default_of uint8 (codes "0x") ≡ None }
    ensures too_large { default_of uint8 (codes "256") ≡ None }
{}

/// A range of three parts.
pub fn ranges()
    ensures five { is_taken (narrowed uint8_type gaps) (int (pos 5)) ≡ true }
    ensures six { is_taken (narrowed uint8_type gaps) (int (pos 6)) ≡ false }
    ensures seven { is_taken (narrowed uint8_type gaps) (int (pos 7)) ≡ true }
    ensures eight { is_taken (narrowed uint8_type gaps) (int (pos 8)) ≡ false }
    ensures nine { is_taken (narrowed uint8_type gaps) (int (pos 9)) ≡ true }
    ensures greatest { is_taken (narrowed uint8_type gaps) (int (pos 255)) ≡ true }
    ensures outside { is_taken (narrowed uint8_type gaps) (int (pos 256)) ≡ false }
{}

/// The innermost restriction that excludes a value gives its tag.
pub fn tags()
    ensures outer { option_and_then (λ t. app_tag_of t (int (pos 7)))
        (twice_narrowed uint8_type (tagged (from_to (pos 1) (pos 10) ∷ []) (codes "t1"))
        (tagged (from_to (pos 2) (pos 5) ∷ []) (codes "t2")))
        ≡ Some (codes "t2") }
    ensures inner { option_and_then (λ t. app_tag_of t (int (pos 20)))
        (twice_narrowed uint8_type (tagged (from_to (pos 1) (pos 10) ∷ []) (codes "t1"))
        (tagged (from_to (pos 2) (pos 5) ∷ []) (codes "t2")))
        ≡ Some (codes "t1") }
    ensures built_in { option_and_then (λ t. app_tag_of t (int (pos 300)))
        (twice_narrowed uint8_type (tagged (from_to (pos 1) (pos 10) ∷ []) (codes "t1"))
        (tagged (from_to (pos 2) (pos 5) ∷ []) (codes "t2")))
        ≡ None }
    ensures port { option_and_then (λ t. app_tag_of t (int (pos 1025)))
        (narrowed (integer_type uint16)
        (tagged (from_to (pos 1) (pos 1024) ∷ one (pos 8080) ∷ []) (codes "bad-port")))
        ≡ Some (codes "bad-port") }
    ensures last_port { option_and_then (λ t. taken t (int (pos 1024)))
        (narrowed (integer_type uint16)
        (tagged (from_to (pos 1) (pos 1024) ∷ one (pos 8080) ∷ []) (codes "bad-port")))
        ≡ number_is (pos 1024) }
    ensures listed_port { option_and_then (λ t. taken t (int (pos 8080)))
        (narrowed (integer_type uint16)
        (tagged (from_to (pos 1) (pos 1024) ∷ one (pos 8080) ∷ []) (codes "bad-port")))
        ≡ number_is (pos 8080) }
    ensures no_port { option_and_then (λ t. app_tag_of t (int (pos 70000)))
        (narrowed (integer_type uint16)
        (tagged (from_to (pos 1) (pos 1024) ∷ one (pos 8080) ∷ []) (codes "bad-port")))
        ≡ None }
{}

/// It gives its message as well, and no other's.
pub fn messages()
    ensures outer { option_and_then (λ t. message_of t (int (pos 7)))
        (twice_narrowed uint8_type (explained (from_to (pos 1) (pos 10) ∷ []) (codes "m1"))
        (explained (from_to (pos 2) (pos 5) ∷ []) (codes "m2")))
        ≡ Some (codes "m2") }
    ensures inner { option_and_then (λ t. message_of t (int (pos 20)))
        (twice_narrowed uint8_type (explained (from_to (pos 1) (pos 10) ∷ []) (codes "m1"))
        (explained (from_to (pos 2) (pos 5) ∷ []) (codes "m2")))
        ≡ Some (codes "m1") }
    ensures inner_without { option_and_then (λ t. message_of t (int (pos 20)))
        (twice_narrowed uint8_type (untagged (from_to (pos 1) (pos 10) ∷ []))
        (explained (from_to (pos 2) (pos 5) ∷ []) (codes "m2")))
        ≡ None }
    ensures taken { option_and_then (λ t. message_of t (int (pos 3)))
        (narrowed uint8_type (explained (from_to (pos 2) (pos 5) ∷ []) (codes "m2")))
        ≡ None }
{}

/// A restriction lies within what it restricts, and only there where the type may bear it.
pub fn restrictions()
    ensures same { is_some (twice_narrowed uint8_type (untagged (from_to (pos 1) (pos 10) ∷ []))
        (untagged (from_to (pos 1) (pos 10) ∷ [])))
        ≡ true }
    ensures wider { twice_narrowed uint8_type (untagged (from_to (pos 1) (pos 10) ∷ []))
        (untagged (from_to (pos 0) (pos 10) ∷ []))
        ≡ None }
    ensures same_of_int32 { is_some (twice_narrowed (integer_type int32)
        (untagged (from_to (pos 1) (pos 10) ∷ [])) (untagged (from_to (pos 1) (pos 10) ∷ [])))
        ≡ true }
    ensures wider_of_int32 { twice_narrowed (integer_type int32)
        (untagged (from_to (pos 1) (pos 10) ∷ [])) (untagged (from_to (pos 0) (pos 10) ∷ []))
        ≡ None }
    ensures across_parts { is_some (twice_narrowed uint8_type
        (untagged (from_to (pos 1) (pos 5) ∷ from_to (pos 6) (pos 10) ∷ []))
        (untagged (from_to (pos 3) (pos 8) ∷ [])))
        ≡ true }
    ensures across_a_gap { twice_narrowed uint8_type
        (untagged (from_to (pos 1) (pos 5) ∷ from_to (pos 7) (pos 10) ∷ []))
        (untagged (from_to (pos 3) (pos 8) ∷ []))
        ≡ None }
    ensures downwards { narrowed uint8_type (untagged (from_to (pos 5) (pos 1) ∷ [])) ≡ None }
    ensures overlapping { narrowed uint8_type
        (untagged (from_to (pos 1) (pos 5) ∷ from_to (pos 5) (pos 9) ∷ [])) ≡ None }
    ensures point { narrowed uint8_type
        (untagged (record { first = number (pos 10) 1; last = at (pos 5) } ∷ [])) ≡ None }
    ensures of_a_string { narrowed string_type (untagged (from_to (pos 1) (pos 5) ∷ [])) ≡ None }
    ensures of_a_number { narrowed uint8_type (measured (from_to (pos 1) (pos 5) ∷ [])) ≡ None }
    ensures instance { narrowed uint8_type (require_instance false) ≡ None }
    ensures instance_of_leafref { option_and_then (λ t. t.requires_instance)
        (narrowed (leafref_type uint8_type) (require_instance false))
        ≡ Some false }
{}

/// Enums are numbered on from the highest so far.
pub fn enumerations()
    ensures first { taken_by (enumeration five_enums) (codes "a") ≡ number_is (pos 0) }
    ensures given { taken_by (enumeration five_enums) (codes "b") ≡ number_is (pos 5) }
    ensures next { taken_by (enumeration five_enums) (codes "c") ≡ number_is (pos 6) }
    ensures lower { taken_by (enumeration five_enums) (codes "d") ≡ number_is (pos 2) }
    ensures after_the_highest { taken_by (enumeration five_enums) (codes "e") ≡ number_is (pos 7) }
    ensures other { taken_by (enumeration five_enums) (codes "f") ≡ None }
    ensures canonical { shown_by (enumeration five_enums) (codes "d") ≡ Some (codes "d") }
    ensures past_the_end { enum_names (numbered (codes "a") (pos (2 ^ 31 - 1)) ∷ named (codes "b")
        ∷ []) ≡ None }
    ensures one_name_twice { enum_names (named (codes "a") ∷ named (codes "a") ∷ []) ≡ None }
    ensures one_number_twice { enum_names (named (codes "a") ∷ numbered (codes "b") (pos 0) ∷ [])
        ≡ None }
    ensures space_at_the_end { enum_names (named (codes "a ") ∷ []) ≡ None }
    ensures no_name { enum_names (named [] ∷ []) ≡ None }
{}

/// Bits stand by position.
pub fn sets_of_bits()
    ensures order { shown_by (bits three_bits) (codes "y  z") ≡ Some (codes "z y") }
    ensures ends { shown_by (bits three_bits) (codes " x y z ") ≡ Some (codes "z x y") }
    ensures twice { taken_by (bits three_bits) (codes "y y") ≡ None }
    ensures none { shown_by (bits three_bits) [] ≡ Some [] }
    ensures past_the_end { bit_names (numbered (codes "a") (pos (2 ^ 32 - 1)) ∷ named (codes "b")
        ∷ []) ≡ None }
{}

/// A union's value bears the member that took it.
pub fn unions()
    ensures number { taken (union_type (uint8_type ∷ string_type ∷ [])) (int (pos 5))
        ≡ Some (value (Some 0) (number_value (pos 5))) }
    ensures string { taken (union_type (uint8_type ∷ string_type ∷ [])) (text (codes "5"))
        ≡ Some (value (Some 1) (text_value (codes "5"))) }
    ensures neither { taken (union_type (uint8_type ∷ string_type ∷ [])) (bool true) ≡ None }
    ensures of_unions { taken (union_type (uint8_type
        ∷ union_type (integer_type int8 ∷ string_type ∷ []) ∷ [])) (int (negsuc 0))
        ≡ Some (value (Some 1) (number_value (negsuc 0))) }
{}

/// A length counts characters.
pub fn lengths()
    ensures three { is_taken (narrowed string_type (measured (from_to (pos 1) (pos 3) ∷ [])))
        (text (240 ∷ 159 ∷ 152 ∷ 128 ∷ 240 ∷ 159 ∷ 152 ∷ 128 ∷ 240 ∷ 159 ∷ 152 ∷ 128 ∷ [])) ≡ true }
    ensures four { is_taken (narrowed string_type (measured (from_to (pos 1) (pos 3) ∷ [])))
        (text (codes "abcd")) ≡ false }
    ensures greatest { is_some
        (narrowed string_type (measured (from_to (pos 0) (pos (2 ^ 64 - 1)) ∷ []))) ≡ true }
    ensures past_the_greatest { narrowed string_type
        (measured (from_to (pos 0) (pos (2 ^ 64)) ∷ [])) ≡ None }
{}

/// A pattern takes texts as a whole, and one with `invert-match` those that it doesn't match; the first that excludes a text
/// gives its tag.
pub fn patterns()
    ensures digits { is_taken hex_digits (text (codes "9A00")) ≡ true }
    ensures too_long { is_taken hex_digits (text (codes "00ABAB")) ≡ false }
    ensures no_digits { is_taken hex_digits (text (codes "xx00")) ≡ false }
    ensures digits_in_front { is_taken hex_digits (text (codes "00xx")) ≡ false }
    ensures empty { is_taken hex_digits (text []) ≡ true }
    ensures name { is_taken no_xml_name (text (codes "enabled")) ≡ true }
    ensures no_name { tag_by no_xml_name (codes "10-mbit") ≡ Some (codes "name") }
    ensures inverted { tag_by no_xml_name (codes "xml-element") ≡ Some (codes "xml") }
    ensures first { tag_by no_xml_name [] ≡ Some (codes "short") }
    ensures of_no_text { is_taken no_xml_name (int (pos 1)) ≡ false }
    ensures of_a_default { option_and_then (λ t. value_of_text (names_sample (codes "m")) t (codes "00xx")) hex_digits
        ≡ None }
    ensures wider_length { all_narrowed string_type (measured (from_to (pos 0) (pos 4) ∷ [])
        ∷ matched (codes "a*") ∷ measured (from_to (pos 0) (pos 5) ∷ []) ∷ []) ≡ None }
    ensures of_a_number { narrowed uint8_type (matched (codes "1")) ≡ None }
    ensures of_a_union { narrowed (union_type (string_type ∷ [])) (matched (codes "1")) ≡ None }
{}

/// A type may name some of the names of another, which keep their numbers; what it doesn't name is no value any longer.
pub fn restricted_names()
    ensures number_kept { taken_by (coloured (named (codes "red") ∷ [])) (codes "red") ≡ number_is (pos 7) }
    ensures number_said { taken_by (coloured (numbered (codes "yellow") (pos 1) ∷ [])) (codes "yellow")
        ≡ number_is (pos 1) }
    ensures named_no_more { taken_by (coloured (named (codes "white") ∷ named (codes "yellow") ∷ [])) (codes "red")
        ≡ None }
    ensures order_of_numbers { shown_by (coloured (named (codes "red") ∷ named (codes "white") ∷ [])) (codes "white")
        ≡ Some (codes "white") }
    ensures none_of_these { coloured (named (codes "white") ∷ named (codes "black") ∷ []) ≡ None }
    ensures another_number { coloured (named (codes "white") ∷ numbered (codes "red") (pos 1) ∷ []) ≡ None }
    ensures named_twice { coloured (named (codes "red") ∷ numbered (codes "red") (pos 7) ∷ []) ≡ None }
    ensures of_one_that_is_gone { option_and_then (λ t. narrowed t (of_enums (named (codes "red") ∷ [])))
        (coloured (named (codes "white") ∷ named (codes "yellow") ∷ [])) ≡ None }
    ensures again { taken_by (option_and_then (λ t. narrowed t (of_enums (named (codes "yellow") ∷ [])))
        (coloured (named (codes "white") ∷ named (codes "yellow") ∷ []))) (codes "yellow") ≡ number_is (pos 1) }
    ensures bits_by_position { shown_by (bits_among (named (codes "y") ∷ named (codes "z") ∷ [])) (codes "y z")
        ≡ Some (codes "z y") }
    ensures bit_named_no_more { taken_by (bits_among (named (codes "y") ∷ named (codes "z") ∷ [])) (codes "x z") ≡ None }
    ensures another_position { bits_among (numbered (codes "z") (pos 1) ∷ []) ≡ None }
    ensures bits_of_enums { option_and_then (λ t. narrowed t (of_bits (named (codes "red") ∷ []))) (enumeration three_colours)
        ≡ None }
    ensures enums_of_bits { option_and_then (λ t. narrowed t (of_enums (named (codes "x") ∷ []))) (bits three_bits) ≡ None }
    ensures of_a_number { narrowed uint8_type (of_enums (named (codes "red") ∷ [])) ≡ None }
{}

/// Two values are the same where the same member took them and their contents are the same.
pub fn equal_values()
    ensures told_apart { TellsValues }
    ensures of_two_members { same_value (value (Some 0) (number_value (pos 5)))
        (value (Some 1) (number_value (pos 5)))
        ≡ false }
{}

/// An identity is named with its module, or alone where that is the leaf's; its value is the same, and so is its canonical text.
pub fn identities()
    ensures plain { taken identity_sample (text (codes "eth")) ≡ number_is (pos 4) }
    ensures with_module { taken identity_sample (text (codes "i:eth")) ≡ number_is (pos 4) }
    ensures canonical { shown identity_sample (codes "eth") ≡ Some (codes "i:eth") }
    ensures of_another_module { shown identity_sample (codes "j:opt") ≡ Some (codes "j:opt") }
    ensures plain_of_another_module { taken identity_sample (text (codes "opt")) ≡ None }
    ensures plain_where_the_leaf_stands { shown (type_in (codes "j") identity_sample) (codes "opt")
        ≡ Some (codes "j:opt") }
    ensures plain_no_more { taken (type_in (codes "j") identity_sample) (text (codes "eth")) ≡ None }
    ensures the_base_itself { taken identity_sample (text (codes "i:base1")) ≡ None }
    ensures not_derived { taken identity_sample (text (codes "odd")) ≡ None }
    ensures no_name { taken identity_sample (text []) ≡ None }
    ensures no_module { taken identity_sample (text (codes ":eth")) ≡ None }
    ensures two_colons { taken identity_sample (text (codes "i:eth:")) ≡ None }
    ensures no_text { taken identity_sample (int (pos 4)) ≡ None }
    ensures default_plain { value_of_text (names_sample (codes "i")) identity_sample (codes "eth")
        ≡ number_is (pos 4) }
    ensures default_with_prefix { value_of_text (names_sample (codes "j")) identity_sample (codes "p:eth")
        ≡ number_is (pos 4) }
    ensures default_of_own_module { value_of_text (names_sample (codes "j")) identity_sample (codes "opt")
        ≡ number_is (pos 9) }
    ensures default_with_module { value_of_text (names_sample (codes "j")) identity_sample (codes "i:eth")
        ≡ None }
    ensures default_elsewhere { value_of_text (names_sample (codes "j")) identity_sample (codes "eth")
        ≡ None }
    ensures in_a_union { taken (union_type (uint8_type ∷ identity_sample ∷ string_type ∷ []))
        (text (codes "eth")) ≡ Some (value (Some 1) (number_value (pos 4))) }
    ensures behind_it_in_a_union { taken (union_type (uint8_type ∷ identity_sample ∷ string_type ∷ []))
        (text (codes "odd")) ≡ Some (value (Some 2) (text_value (codes "odd"))) }
    ensures no_range { narrowed identity_sample (untagged (one (pos 4) ∷ [])) ≡ None }
{}
