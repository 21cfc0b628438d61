//! Which break of a set of modules is told.

ghost use Rattle.std.specs.Prelude.{◌≡◌, ◌↔◌, List, [], Some, None};
ghost use Rattle.std.specs.List.{All};
ghost use Rattle.yspec.specs.schema.Breaks.{Break, first_broken};
ghost use Rattle.yspec_laws.specs.Told.{IsFirstAndLeast};

/// Nothing is told exactly where no phase has a break. What is told is a break of the first phase that has one, and none of
/// that phase comes before it by module, line and number.
pub fn told_breaks()
    ensures none { (phases : List (List Break)) → (first_broken phases ≡ None) ↔ All (λ phase. phase ≡ [])
        phases }
    ensures least { (phases : List (List Break)) (told : Break) → first_broken phases ≡ Some told
        → IsFirstAndLeast phases told }
{}
