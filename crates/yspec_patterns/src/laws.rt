//! The law on patterns.

ghost use Rattle.std.specs.Prelude.{◌↔◌, IsTrue};
ghost use Rattle.yspec_patterns.specs.Pattern.{Fits, accepts};

/// The test of a pattern, which goes through a text once, tells the texts that fit it.
pub fn telling()
    ensures tells { (p t : _) → IsTrue (accepts p t) ↔ Fits p t }
{}
