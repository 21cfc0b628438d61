//! What stands behind a backslash, worked out (XML Schema, part 2, appendix F.1.1).

ghost use Rattle.std.specs.Prelude.{◌≡◌, ◌++◌, [], ◌∷◌, codes, Some, true, false};
ghost use Rattle.yspec_patterns.specs.Samples.{all_taken, all_read, is_of};

/// Characters, and sets by a letter.
pub fn letters()
    ensures characters { all_taken (codes "\\n\\r\\t\\\\\\.\\-") ((10 ∷ 13 ∷ 9 ∷ codes "\\.-") ∷ codes "nrt\\.-" ∷ [])
        ≡ Some true ∷ Some false ∷ [] }
    ensures digits { all_taken (codes "\\d") (codes "7" ∷ (0x663 ∷ []) ∷ codes "x" ∷ (0xB2 ∷ []) ∷ [])
        ≡ Some true ∷ Some true ∷ Some false ∷ Some false ∷ [] }
    ensures white { all_taken (codes "\\s") (codes " " ∷ (9 ∷ []) ∷ (10 ∷ []) ∷ (13 ∷ []) ∷ (11 ∷ []) ∷ (0xA0 ∷ []) ∷ [])
        ≡ Some true ∷ Some true ∷ Some true ∷ Some true ∷ Some false ∷ Some false ∷ [] }
    ensures words { all_taken (codes "\\w") (codes "a" ∷ codes "5" ∷ codes "+" ∷ codes "_" ∷ codes " " ∷ (0xAD ∷ []) ∷ [])
        ≡ Some true ∷ Some true ∷ Some true ∷ Some false ∷ Some false ∷ Some false ∷ [] }
    ensures name_starts { all_taken (codes "\\i") (codes ":" ∷ codes "_" ∷ codes "Q" ∷ (0x2160 ∷ []) ∷ codes "-" ∷ codes "1" ∷ (0x2B0 ∷ []) ∷ [])
        ≡ Some true ∷ Some true ∷ Some true ∷ Some true ∷ Some false ∷ Some false ∷ Some false ∷ [] }
    ensures name_characters { all_taken (codes "\\c") (codes ":" ∷ codes "-" ∷ codes "." ∷ codes "1" ∷ (0xB7 ∷ []) ∷ (0x2B0 ∷ []) ∷ (0x301 ∷ []) ∷ codes "," ∷ codes "/" ∷ [])
        ≡ Some true ∷ Some true ∷ Some true ∷ Some true ∷ Some true ∷ Some true ∷ Some true ∷ Some false ∷ Some false ∷ [] }
    ensures outside { all_taken (codes "\\D\\S\\W\\I\\C") (codes "ab-1 " ∷ codes "1b-1 " ∷ codes "a -1 " ∷ codes "aba1 " ∷ codes "ab-a " ∷ codes "ab-11" ∷ [])
        ≡ Some true ∷ Some false ∷ Some false ∷ Some false ∷ Some false ∷ Some false ∷ [] }
{}

/// Categories of Unicode by their names.
pub fn categories()
    ensures groups { is_of (codes "L") 97 ∷ is_of (codes "M") 0x301 ∷ is_of (codes "N") 49 ∷ is_of (codes "P") 33 ∷ is_of (codes "Z") 32 ∷ is_of (codes "S") 43 ∷ is_of (codes "C") 0 ∷ []
        ≡ Some true ∷ Some true ∷ Some true ∷ Some true ∷ Some true ∷ Some true ∷ Some true ∷ [] }
    ensures letters { is_of (codes "Lu") 65 ∷ is_of (codes "Ll") 97 ∷ is_of (codes "Lt") 0x1C5 ∷ is_of (codes "Lm") 0x2B0 ∷ is_of (codes "Lo") 0x5D0 ∷ is_of (codes "Lu") 97 ∷ []
        ≡ Some true ∷ Some true ∷ Some true ∷ Some true ∷ Some true ∷ Some false ∷ [] }
    ensures marks_and_numbers { is_of (codes "Mn") 0x301 ∷ is_of (codes "Mc") 0x903 ∷ is_of (codes "Me") 0x488 ∷ is_of (codes "Nd") 49 ∷ is_of (codes "Nl") 0x2160 ∷ is_of (codes "No") 0xB2 ∷ []
        ≡ Some true ∷ Some true ∷ Some true ∷ Some true ∷ Some true ∷ Some true ∷ [] }
    ensures punctuation { is_of (codes "Pc") 95 ∷ is_of (codes "Pd") 45 ∷ is_of (codes "Ps") 40 ∷ is_of (codes "Pe") 41 ∷ is_of (codes "Pi") 0xAB ∷ is_of (codes "Pf") 0xBB ∷ is_of (codes "Po") 33 ∷ []
        ≡ Some true ∷ Some true ∷ Some true ∷ Some true ∷ Some true ∷ Some true ∷ Some true ∷ [] }
    ensures separators_and_symbols { is_of (codes "Zs") 32 ∷ is_of (codes "Zl") 0x2028 ∷ is_of (codes "Zp") 0x2029 ∷ is_of (codes "Sm") 43 ∷ is_of (codes "Sc") 36 ∷ is_of (codes "Sk") 94 ∷ is_of (codes "So") 0xA6 ∷ []
        ≡ Some true ∷ Some true ∷ Some true ∷ Some true ∷ Some true ∷ Some true ∷ Some true ∷ [] }
    ensures others { is_of (codes "Cc") 0 ∷ is_of (codes "Cf") 0xAD ∷ is_of (codes "Co") 0xE000 ∷ is_of (codes "Cn") 0x378 ∷ []
        ≡ Some true ∷ Some true ∷ Some true ∷ Some true ∷ [] }
    ensures outside { all_taken (codes "\\P{Lu}") (codes "a" ∷ codes "A" ∷ []) ≡ Some true ∷ Some false ∷ [] }
{}

/// What no backslash stands before.
pub fn unread()
    ensures characters { all_read (codes "\\" ∷ codes "\\y" ∷ codes "\\$" ∷ codes "\\p" ∷ codes "\\pL" ∷ codes "\\p{" ∷ codes "\\p{L" ∷ [])
        ≡ false ∷ false ∷ false ∷ false ∷ false ∷ false ∷ false ∷ [] }
    ensures names { all_read (codes "\\p{}" ∷ codes "\\p{X}" ∷ codes "\\p{Lx}" ∷ codes "\\p{Cs}" ∷ codes "\\p{Luu}" ∷ codes "\\p{IsGreek}" ∷ codes "\\p{Lu}" ∷ [])
        ≡ false ∷ false ∷ false ∷ false ∷ false ∷ false ∷ true ∷ [] }
{}
