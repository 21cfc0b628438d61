//! Quantities.

ghost use Rattle.std.specs.Prelude.{◌≤◌};
ghost use Rattle.std.specs.Option.{ForSome};

/// How often at least, and how often at most where there is a bound.
#[derive(Clone, Copy, Debug)]
pub struct Times {
    pub least: u32,
    pub most: Option<u32>,
    ghost ordered: { ForSome most (λ m. least ≤ m) },
}
