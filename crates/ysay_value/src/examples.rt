//! Expressions that texts match, in words, worked out.

ghost use Rattle.std.specs.Prelude.{◌≡◌, [], ◌∷◌, codes, false};
ghost use Rattle.ysay_value.specs.ExpressionWords.{expressions_words};
ghost use Rattle.ysay_value.specs.IdentityWords.{hint_by};
ghost use Rattle.ysay_value.specs.Samples as sample;
ghost use Rattle.ysay_value.specs.TakenWords.{simple_words};

/// What a type of texts takes.
pub fn taken_texts()
    ensures any { simple_words sample.any_text ≡ codes "a text in quotes" }
    ensures one { simple_words sample.letters ≡ codes "a text in quotes that matches \"[a-z]+\"" }
    ensures several { simple_words sample.names
        ≡ codes "a text in quotes of length 1..3 that matches \"[a-z]+\" and doesn't match \"xml.*\"" }
    ensures quoted { expressions_words ((codes "\"\\d\"", false) ∷ [])
        ≡ codes " that matches \"\\\"\\\\d\\\"\"" }
{}

/// Which of several expressions a text breaks.
pub fn broken_texts()
    ensures first { hint_by (sample.names ∷ []) (sample.written (codes "A1")) ≡ codes ". It doesn't match \"[a-z]+\"." }
    ensures inverted { hint_by (sample.names ∷ []) (sample.written (codes "xml")) ≡ codes ". It matches \"xml.*\"." }
    ensures length { hint_by (sample.names ∷ []) (sample.written (codes "abcd")) ≡ codes "." }
    ensures only_one { hint_by (sample.letters ∷ []) (sample.written (codes "A1")) ≡ codes "." }
    ensures of_a_union { hint_by (sample.names ∷ sample.letters ∷ []) (sample.written (codes "A1")) ≡ codes "." }
    ensures number { hint_by (sample.names ∷ []) sample.five ≡ codes "." }
{}
