//! Where patterns stop, and what is said of that, worked out.

ghost use Rattle.std.specs.Prelude.{◌≡◌, ◌∷◌, [], codes, Some, None};
ghost use Rattle.ysay_pattern.specs.Stop.{at, too_soon};
ghost use Rattle.ysay_pattern.specs.Samples.{said, stops};

/// Where patterns stop.
pub fn places()
    ensures nowhere { stops (codes "a(b|[c-e])*" ∷ [] ∷ codes "\\p{Lu}{2,3}" ∷ []) ≡ None ∷ None ∷ None ∷ [] }
    ensures groups { stops (codes "a)b" ∷ codes "(a))" ∷ codes "(a(b)" ∷ []) ≡ Some (at 2) ∷ Some (at 4) ∷ Some too_soon ∷ [] }
    ensures classes { stops (codes "x[b-a]" ∷ codes "[]" ∷ codes "a[b" ∷ codes "a]" ∷ []) ≡ Some (at 5) ∷ Some (at 2) ∷ Some too_soon ∷ Some (at 2) ∷ [] }
    ensures escapes { stops (codes "ab\\q" ∷ codes "\\p{Xx}" ∷ codes "\\p{IsGreek}" ∷ codes "a\\" ∷ []) ≡ Some (at 4) ∷ Some (at 6) ∷ Some (at 6) ∷ Some too_soon ∷ [] }
    ensures quantities { stops (codes "*a" ∷ codes "a**" ∷ codes "a{2,1}" ∷ codes "a{x}" ∷ codes "a{3" ∷ codes "(*)" ∷ [])
        ≡ Some (at 1) ∷ Some (at 3) ∷ Some (at 6) ∷ Some (at 3) ∷ Some too_soon ∷ Some (at 2) ∷ [] }
{}

/// What is said of the patterns of a line.
pub fn sentences()
    ensures character { said 2 (codes "a)b" ∷ []) ≡ codes "character 2 of the pattern can't stand there: )b" }
    ensures end { said 2 (codes "(a" ∷ []) ≡ codes "the pattern ends too soon." }
    ensures first { said 2 (codes "a" ∷ codes "a]" ∷ codes "(a" ∷ []) ≡ codes "character 2 of the pattern can't stand there: ]" }
    ensures none { said 2 (codes "a" ∷ []) ≡ codes "the pattern is too large." }
    ensures elsewhere { said 1 (codes "a)b" ∷ []) ≡ [] }
{}
