//! Classes in brackets, worked out (XML Schema, part 2, appendix F.1).

ghost use Rattle.std.specs.Prelude.{◌≡◌, [], ◌∷◌, codes, Some, true, false};
ghost use Rattle.yspec_patterns.specs.Samples.{all_taken, all_read};

/// Characters, ranges and sets, and what lies outside.
pub fn members()
    ensures ranges { all_taken (codes "[b-d5]") (codes "b" ∷ codes "c" ∷ codes "d" ∷ codes "5" ∷ codes "a" ∷ codes "e" ∷ codes "-" ∷ [])
        ≡ Some true ∷ Some true ∷ Some true ∷ Some true ∷ Some false ∷ Some false ∷ Some false ∷ [] }
    ensures inverted { all_taken (codes "[^b-d]") (codes "b" ∷ codes "e" ∷ codes "^" ∷ [] ∷ []) ≡ Some false ∷ Some true ∷ Some true ∷ Some false ∷ [] }
    ensures sets { all_taken (codes "[\\d\\]\\n.]") (codes "4" ∷ codes "]" ∷ (10 ∷ []) ∷ codes "." ∷ codes "n" ∷ codes "a" ∷ [])
        ≡ Some true ∷ Some true ∷ Some true ∷ Some true ∷ Some false ∷ Some false ∷ [] }
    ensures carets { all_taken (codes "[a^]") (codes "^" ∷ codes "a" ∷ codes "b" ∷ []) ≡ Some true ∷ Some true ∷ Some false ∷ [] }
{}

/// A `-` is itself where it stands between no two characters.
pub fn dashes()
    ensures first { all_taken (codes "[-a]") (codes "-" ∷ codes "a" ∷ codes "b" ∷ []) ≡ Some true ∷ Some true ∷ Some false ∷ [] }
    ensures last { all_taken (codes "[a-]") (codes "-" ∷ codes "a" ∷ codes "b" ∷ []) ≡ Some true ∷ Some true ∷ Some false ∷ [] }
    ensures behind_a_range { all_taken (codes "[a-c-e]") (codes "-" ∷ codes "d" ∷ codes "e" ∷ []) ≡ Some true ∷ Some false ∷ Some true ∷ [] }
    ensures behind_a_set { all_taken (codes "[\\d-a]") (codes "-" ∷ codes "a" ∷ codes "A" ∷ []) ≡ Some true ∷ Some true ∷ Some false ∷ [] }
    ensures of_a_range { all_taken (codes "[+--][--/]") (codes ",." ∷ codes ".." ∷ codes ",+" ∷ []) ≡ Some true ∷ Some false ∷ Some false ∷ [] }
    ensures escaped { all_taken (codes "[\\--/]") (codes "." ∷ codes "+" ∷ []) ≡ Some true ∷ Some false ∷ [] }
{}

/// A class without another.
pub fn subtractions()
    ensures less { all_taken (codes "[a-z-[aeiou]]") (codes "b" ∷ codes "e" ∷ codes "-" ∷ []) ≡ Some true ∷ Some false ∷ Some false ∷ [] }
    ensures nested { all_taken (codes "[a-z-[a-m-[c]]]") (codes "c" ∷ codes "a" ∷ codes "z" ∷ []) ≡ Some true ∷ Some false ∷ Some true ∷ [] }
    ensures of_inverted { all_taken (codes "[^a-[b]]") (codes "a" ∷ codes "b" ∷ codes "c" ∷ []) ≡ Some false ∷ Some false ∷ Some true ∷ [] }
    ensures inverted { all_taken (codes "[a-c-[^b]]") (codes "a" ∷ codes "b" ∷ []) ≡ Some false ∷ Some true ∷ [] }
    ensures of_a_range { all_taken (codes "[+-.-[-]]") (codes "+" ∷ codes "." ∷ codes "-" ∷ []) ≡ Some true ∷ Some true ∷ Some false ∷ [] }
{}

/// What is no class.
pub fn unread()
    ensures unended { all_read (codes "[" ∷ codes "[a" ∷ codes "[^" ∷ codes "[a-" ∷ codes "[a-[b]" ∷ []) ≡ false ∷ false ∷ false ∷ false ∷ false ∷ [] }
    ensures empty { all_read (codes "[]" ∷ codes "[^]" ∷ codes "[a-[]]" ∷ codes "[-[a]]" ∷ []) ≡ false ∷ false ∷ false ∷ false ∷ [] }
    ensures ranges { all_read (codes "[z-a]" ∷ codes "[a-\\d]" ∷ codes "[a-a]" ∷ []) ≡ false ∷ false ∷ true ∷ [] }
    ensures brackets { all_read (codes "[a[b]]" ∷ codes "[a-[b]c]" ∷ codes "a]" ∷ []) ≡ false ∷ false ∷ false ∷ [] }
{}
