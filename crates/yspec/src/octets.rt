//! Worked examples of binaries, and that octets have one text.

ghost use Rattle.std.specs.Prelude.{◌≡◌, ◌↔◌, List, [], ◌∷◌, map, replicate, ℕ, pos, None, Some, false, codes};
ghost use Rattle.base64.specs.GeneralPurpose.{IsBytes};
ghost use Rattle.yspec.specs.types.Types.{text, int, text_value, octets_value, string_type, value, taken};
ghost use Rattle.yspec.specs.types.Octets.{base64_text, octets_of};
ghost use Rattle.yspec.specs.types.Order.{same_value};
ghost use Rattle.yspec.specs.types.Restriction.{narrowed, union_type};
ghost use Rattle.yspec.specs.types.Values.{value_of_text};
ghost use Rattle.yspec.specs.types.TypeExamples.{shown, one, untagged, matched, taken_by, tag_by, names_sample};
ghost use Rattle.yspec.specs.types.OctetExamples.{binary_sample, octets_are, all_octets, measured_octets};

/// A binary takes base64 with padding (RFC 7950, 9.8): the vectors of RFC 4648, 10, and what is no base64.
pub fn binaries()
    ensures vectors { all_octets (codes "" ∷ codes "Zg==" ∷ codes "Zm8=" ∷ codes "Zm9v" ∷ codes "Zm9vYg==" ∷ codes "Zm9vYmE=" ∷ codes "Zm9vYmFy" ∷ [])
        ≡ map octets_are (codes "" ∷ codes "f" ∷ codes "fo" ∷ codes "foo" ∷ codes "foob" ∷ codes "fooba" ∷ codes "foobar" ∷ []) }
    ensures last_symbols { all_octets (codes "+/8=" ∷ []) ≡ octets_are (251 ∷ 255 ∷ []) ∷ [] }
    ensures of_urls { all_octets (codes "-_8=" ∷ []) ≡ None ∷ [] }
    ensures less_padding { all_octets (codes "Zg" ∷ codes "Zg=" ∷ codes "Zm8" ∷ codes "Zm9vYg" ∷ []) ≡ replicate 4 None }
    ensures more_padding { all_octets (codes "=" ∷ codes "====" ∷ codes "Zm9v=" ∷ codes "Zm9v====" ∷ codes "Z===" ∷ []) ≡ replicate 5 None }
    ensures padding_inside { all_octets (codes "Zg==Zg==" ∷ codes "Z=g=" ∷ []) ≡ replicate 2 None }
    ensures other_characters { all_octets (codes "Zm9v\nYmFy" ∷ codes "Zm9v\n" ∷ codes " Zm9v" ∷ codes "Zm9 Zm9v" ∷ codes "Zm9*" ∷ []) ≡ replicate 5 None }
    ensures bits_behind { all_octets (codes "Zh==" ∷ codes "Zm9=" ∷ []) ≡ replicate 2 None }
    ensures no_text { taken binary_sample (int (pos 5)) ≡ None }
    ensures canonical { shown binary_sample (codes "Zm9vYg==") ≡ Some (codes "Zm9vYg==") }
    ensures default { value_of_text (names_sample (codes "m")) binary_sample (codes "Zm8=") ≡ octets_are (codes "fo") }
    ensures wrong_default { value_of_text (names_sample (codes "m")) binary_sample (codes "Zm8") ≡ None }
    ensures three_octets { taken_by measured_octets (codes "Zm9v") ≡ octets_are (codes "foo") }
    ensures two_octets { tag_by measured_octets (codes "Zm8=") ≡ Some (codes "octets") }
    ensures four_octets { tag_by measured_octets (codes "Zm9vYg==") ≡ Some (codes "octets") }
    ensures five_octets { taken_by measured_octets (codes "Zm9vYmE=") ≡ octets_are (codes "fooba") }
    ensures no_base64 { tag_by measured_octets (codes "Zm9") ≡ None }
    ensures no_pattern { narrowed binary_sample (matched (codes ".*")) ≡ None }
    ensures no_range { narrowed binary_sample (untagged (one (pos 4) ∷ [])) ≡ None }
    ensures in_a_union { taken (union_type (binary_sample ∷ string_type ∷ [])) (text (codes "Zm8="))
        ≡ Some (value (Some 0) (octets_value (codes "fo"))) }
    ensures behind_it_in_a_union { taken (union_type (binary_sample ∷ string_type ∷ [])) (text (codes "Zm8"))
        ≡ Some (value (Some 1) (text_value (codes "Zm8"))) }
    ensures no_text_of_its_octets { same_value (value None (octets_value (codes "fo"))) (value None (text_value (codes "fo"))) ≡ false }
{}

/// A text reads as octets exactly where it is their text: octets have one text, and it is no other octets'.
pub fn texts_of_octets()
    ensures { (t octets : List ℕ) → IsBytes t → IsBytes octets → (octets_of t ≡ Some octets) ↔ (t ≡ base64_text octets) }
{}
