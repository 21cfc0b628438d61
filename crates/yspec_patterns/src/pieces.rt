//! Pieces, branches and parentheses, worked out (XML Schema, part 2, appendix F).

ghost use Rattle.std.specs.Prelude.{◌≡◌, [], ◌∷◌, codes, Some, true, false};
ghost use Rattle.yspec_patterns.specs.Samples.{all_taken, all_read};

/// How often a piece stands.
pub fn quantities()
    ensures optional { all_taken (codes "ab?") (codes "a" ∷ codes "ab" ∷ codes "abb" ∷ []) ≡ Some true ∷ Some true ∷ Some false ∷ [] }
    ensures any_number { all_taken (codes "ab*") (codes "a" ∷ codes "abbb" ∷ codes "abab" ∷ []) ≡ Some true ∷ Some true ∷ Some false ∷ [] }
    ensures some { all_taken (codes "ab+") (codes "a" ∷ codes "ab" ∷ codes "abbb" ∷ []) ≡ Some false ∷ Some true ∷ Some true ∷ [] }
    ensures exactly { all_taken (codes "b{10}") (codes "bbbbbbbbb" ∷ codes "bbbbbbbbbb" ∷ codes "bbbbbbbbbbb" ∷ []) ≡ Some false ∷ Some true ∷ Some false ∷ [] }
    ensures at_least { all_taken (codes "b{2,}") (codes "b" ∷ codes "bb" ∷ codes "bbbbb" ∷ []) ≡ Some false ∷ Some true ∷ Some true ∷ [] }
    ensures between { all_taken (codes "b{1,3}") ([] ∷ codes "b" ∷ codes "bbb" ∷ codes "bbbb" ∷ []) ≡ Some false ∷ Some true ∷ Some true ∷ Some false ∷ [] }
    ensures never { all_taken (codes "ab{0}c{00,00}") (codes "a" ∷ codes "ab" ∷ codes "ac" ∷ []) ≡ Some true ∷ Some false ∷ Some false ∷ [] }
    ensures groups { all_taken (codes "(ab|c){2}") (codes "abab" ∷ codes "cab" ∷ codes "abb" ∷ codes "c" ∷ []) ≡ Some true ∷ Some true ∷ Some false ∷ Some false ∷ [] }
    ensures classes { all_taken (codes "[ab]{2}") (codes "ba" ∷ codes "a" ∷ []) ≡ Some true ∷ Some false ∷ [] }
{}

/// Branches, parentheses, and characters that are themselves; the whole of a text is taken.
pub fn branches()
    ensures branches { all_taken (codes "ab|c|") (codes "ab" ∷ codes "c" ∷ [] ∷ codes "ac" ∷ codes "abc" ∷ []) ≡ Some true ∷ Some true ∷ Some true ∷ Some false ∷ Some false ∷ [] }
    ensures groups { all_taken (codes "a(b|(c|d)e)f") (codes "abf" ∷ codes "adef" ∷ codes "adf" ∷ codes "ab" ∷ []) ≡ Some true ∷ Some true ∷ Some false ∷ Some false ∷ [] }
    ensures nothing { all_taken (codes "()") ([] ∷ codes "a" ∷ []) ≡ Some true ∷ Some false ∷ [] }
    ensures empty { all_taken [] ([] ∷ codes "a" ∷ []) ≡ Some true ∷ Some false ∷ [] }
    ensures whole { all_taken (codes "b") (codes "ab" ∷ codes "bc" ∷ codes "b" ∷ []) ≡ Some false ∷ Some false ∷ Some true ∷ [] }
    ensures anchors { all_taken (codes "^a$") (codes "a" ∷ codes "^a$" ∷ []) ≡ Some false ∷ Some true ∷ [] }
    ensures any { all_taken (codes ".") (codes "." ∷ codes "x" ∷ (0x10FFFF ∷ []) ∷ (10 ∷ []) ∷ (13 ∷ []) ∷ [] ∷ [])
        ≡ Some true ∷ Some true ∷ Some true ∷ Some false ∷ Some false ∷ Some false ∷ [] }
    ensures signs { all_taken (codes "-,:\"") (codes "-,:\"" ∷ []) ≡ Some true ∷ [] }
{}

/// Texts that are no patterns.
pub fn unread()
    ensures groups { all_read (codes "(a" ∷ codes "a)" ∷ codes "(a))" ∷ codes "((a)" ∷ []) ≡ false ∷ false ∷ false ∷ false ∷ [] }
    ensures nothing_repeated { all_read (codes "*" ∷ codes "?a" ∷ codes "a|+" ∷ codes "(*a)" ∷ codes "a**" ∷ codes "a{1}{2}" ∷ codes "{1}" ∷ [])
        ≡ false ∷ false ∷ false ∷ false ∷ false ∷ false ∷ false ∷ [] }
    ensures counts { all_read (codes "a{" ∷ codes "a{1" ∷ codes "a{1," ∷ codes "a{1,2" ∷ codes "a{}" ∷ codes "a{,2}" ∷ codes "a{ 1}" ∷ codes "a{1,2,3}" ∷ codes "a{-1}" ∷ [])
        ≡ false ∷ false ∷ false ∷ false ∷ false ∷ false ∷ false ∷ false ∷ false ∷ [] }
    ensures orders { all_read (codes "a{3,2}" ∷ codes "a{2,2}" ∷ []) ≡ false ∷ true ∷ [] }
    ensures braces { all_read (codes "a}" ∷ codes "}" ∷ codes "]" ∷ codes "\\{\\}\\]" ∷ []) ≡ false ∷ false ∷ false ∷ true ∷ [] }
{}
