//! How large a pattern may be, worked out.

ghost use Rattle.std.specs.Prelude.{◌≡◌, ◌∷◌, [], codes, false, true};
ghost use Rattle.yspec_patterns.specs.Samples.{all_read, nested};

/// Patterns at the limit, and above it.
pub fn limits()
    ensures repeated { all_read (codes "aaa{50000}" ∷ codes "aaa{50001}" ∷ []) ≡ true ∷ false ∷ [] }
    ensures at_most { all_read (codes "a{1,49999}" ∷ codes "aa{1,49999}" ∷ []) ≡ true ∷ false ∷ [] }
    ensures without_bound { all_read (codes "aa{49998,}" ∷ codes "aa{49999,}" ∷ []) ≡ true ∷ false ∷ [] }
    ensures groups { all_read (codes "(a{100}){300}" ∷ codes "(a{100}){400}" ∷ []) ≡ true ∷ false ∷ [] }
    ensures nothing { all_read (codes "(){50000}" ∷ codes "(|||){50000}" ∷ []) ≡ true ∷ false ∷ [] }
    ensures loops { all_read (codes "((a*)*b{9000})*" ∷ codes "((a*)*b{30000})*" ∷ []) ≡ true ∷ false ∷ [] }
    ensures any { all_read (codes "\\.{50000}" ∷ codes ".{50000}" ∷ []) ≡ true ∷ false ∷ [] }
    ensures named { all_read (codes "\\d{2000}" ∷ codes "\\d{3000}" ∷ codes "[\\d\\s]{2000}" ∷ []) ≡ true ∷ false ∷ false ∷ [] }
{}

/// What is repeated side by side isn't added, and what never stands isn't counted.
pub fn passed_over()
    ensures side_by_side { all_read (codes "a{9000}b{9000}c{9000}" ∷ codes "a{20000}|b{20000}" ∷ []) ≡ true ∷ true ∷ [] }
    ensures never { all_read (codes "(a{500000}){0}" ∷ codes "(a{500000}){1}" ∷ []) ≡ true ∷ false ∷ [] }
{}

/// Numbers and groups in one another have a limit of their own.
pub fn own_limits()
    ensures numbers { all_read (codes "(a{500000}){0}" ∷ codes "(a{500001}){0}" ∷ codes "(a{1,500001}){0}" ∷ []) ≡ true ∷ false ∷ false ∷ [] }
    ensures depth { all_read (nested 200 ∷ nested 201 ∷ []) ≡ true ∷ false ∷ [] }
{}
