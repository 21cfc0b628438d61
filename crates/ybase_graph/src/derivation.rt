//! Which nodes derive from which others: the law, and worked examples of it.

ghost use Rattle.std.specs.Prelude.{◌≡◌, ◌↔◌, ◌∷◌, [], ℕ, List, false, true};
ghost use Rattle.yspec.specs.linking.Graph.{Edge};
ghost use Rattle.ybase_graph.specs.Reaching.{HasEdge};
ghost use Rattle.ybase_graph.specs.Derivation.{derives, Derives};
ghost use Rattle.ybase_graph.specs.DerivationSamples.{circle, two_bases};

/// A node derives from another exactly where a list of two or more leads there, each next one the target of an edge of the one
/// before.
pub fn derives_by_edges()
    ensures { (edges : List Edge) (a b : ℕ) → (derives edges a b ≡ true) ↔ Derives (HasEdge edges) a b }
{}

/// A node with two bases, of which one has a base itself: it derives from all three and not from itself, and none of them from
/// it.
pub fn two_bases()
    ensures first { derives two_bases 0 1 ≡ true }
    ensures second { derives two_bases 0 2 ≡ true }
    ensures further { derives two_bases 0 3 ≡ true }
    ensures itself { derives two_bases 0 0 ≡ false }
    ensures back { derives two_bases 3 0 ≡ false }
    ensures beside { derives two_bases 1 3 ≡ false }
{}

/// On a circle each node derives from itself, and one that leads into it doesn't.
pub fn a_circle()
    ensures around { derives circle 1 1 ≡ true }
    ensures into { derives circle 0 2 ≡ true }
    ensures outside { derives circle 0 0 ≡ false }
{}
