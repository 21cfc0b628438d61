//! Expressions of `if-feature`, worked out.

ghost use Rattle.std.specs.Prelude.{◌≡◌, List, [], ◌∷◌, codes, length, nat_lt, Some, None, true, false};
ghost use Rattle.yspec_wide.specs.Expressions.{Token, expression_read};
ghost use Rattle.yspec_wide.specs.Language.{yang_1, yang_1_1};
ghost use Rattle.yspec_wide.specs.Samples.{all_tell};

/// `not` binds closest, then `and`, then `or`; a parenthesis parts words as white space does.
pub fn joined()
    ensures closest { all_tell yang_1_1 (codes "b" ∷ []) (codes "not a or b" ∷ codes "not (a or b)" ∷ codes "not a and c" ∷ codes "not not b" ∷ [])
        ≡ Some true ∷ Some false ∷ Some false ∷ Some true ∷ [] }
    ensures next { all_tell yang_1_1 (codes "a" ∷ []) (codes "a or b and c" ∷ codes "(a or b) and c" ∷ codes "c and b or a" ∷ codes "c and (b or a)" ∷ [])
        ≡ Some true ∷ Some false ∷ Some true ∷ Some false ∷ [] }
    ensures parted { all_tell yang_1_1 (codes "a" ∷ []) (codes "not(b)and(p:a)" ∷ codes "a\n\tor\n b" ∷ codes " a " ∷ codes "nota" ∷ [])
        ≡ Some true ∷ Some true ∷ Some true ∷ Some false ∷ [] }
{}

/// Texts that are no expressions; in YANG 1 only a name is one.
pub fn refused()
    ensures words_missing { all_tell yang_1_1 (codes "a" ∷ [])
        ([] ∷ codes "a or" ∷ codes "and a" ∷ codes "not" ∷ codes "a b" ∷ codes "a or or a" ∷ [])
        ≡ None ∷ None ∷ None ∷ None ∷ None ∷ None ∷ [] }
    ensures parentheses { all_tell yang_1_1 (codes "a" ∷ []) (codes "(a" ∷ codes "a)" ∷ codes "()" ∷ codes "(a) a" ∷ codes "p:" ∷ [])
        ≡ None ∷ None ∷ None ∷ None ∷ None ∷ [] }
    ensures long { (tokens : List Token) → nat_lt 127 (length tokens) ≡ true → expression_read tokens ≡ None }
    ensures of_yang_1 { all_tell yang_1 (codes "a" ∷ codes "not" ∷ []) (codes "a" ∷ codes "p:a" ∷ codes "not" ∷ codes "not b" ∷ codes "(a)" ∷ codes " a" ∷ [])
        ≡ Some true ∷ Some true ∷ Some true ∷ None ∷ None ∷ None ∷ [] }
{}
