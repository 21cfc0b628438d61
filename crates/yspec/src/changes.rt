//! Laws of changes of a forest: a change of one row leaves everything else.

ghost use Rattle.std.specs.Prelude.{◌≡◌, ◌+◌, ◌∷◌, ℕ, List, Bool, Some, None, option_map};
ghost use Rattle.yspec.specs.Forest.{Forest, row, weigh, edit_at, row_to, IsLocal, Place, total, place_at};
ghost use Rattle.yspec.specs.schema.Schema.{Schema};
ghost use Rattle.yspec.specs.types.Types.{Val};
ghost use Rattle.yspec.specs.document.Document.{Stored, Tree};
ghost use Rattle.yspec.specs.document.Instances.{times_in, times_at, times_below};

/// The row to which the steps lead is changed; where they lead to none, nothing is; and the labels of the rows above stay.
pub fn changed_rows<L>()
    ensures changed { (steps : List ((L → Bool) × ℕ)) (change : Forest L → Forest L) (f : Forest L)
        → row_to steps (edit_at steps change f) ≡ option_map change (row_to steps f) }
    ensures nowhere { (steps : List ((L → Bool) × ℕ)) (change : Forest L → Forest L) (f : Forest L)
        → row_to steps f ≡ None → edit_at steps change f ≡ f }
    ensures above { (step : (L → Bool) × ℕ) (steps : List ((L → Bool) × ℕ)) (change : Forest L
        → Forest L) (f : Forest L)
        → row (edit_at (step ∷ steps) change f) ≡ row f }
{}

/// A sum over labels changes by the row that is changed; one of weights that see the labels below a node too, by that row
/// and the node above it.
pub fn changed_sums<L>()
    ensures labels { (weight : L → ℕ) (steps : List ((L → Bool) × ℕ)) (change : Forest L
        → Forest L) (f r : Forest L)
        → row_to steps f ≡ Some r → weigh weight (edit_at steps change f) + weigh weight r
        ≡ weigh weight f + weigh weight (change r) }
    ensures local { (weight : L → Forest L → ℕ) (top : Forest L
        → ℕ) (steps : List ((L → Bool) × ℕ)) (change : Forest L → Forest L)
        (f : Forest L) (p : Place L) → IsLocal weight
        → ((g h : Forest L) → row g ≡ row h → top g ≡ top h) → place_at weight top steps f ≡ Some p
        → total top weight (edit_at steps change f) + total p.top weight p.below
        ≡ total top weight f + total p.top weight (change p.below) }
{}

/// So how many instances of a schema node have a value, defaults in use included, changes by those in the changed row and
/// the defaults in use below the node above it.
pub fn changed_instances()
    ensures { (schema : Schema) (number : ℕ) (v : Val) (steps : List ((Stored → Bool) × ℕ))
        (change : Tree → Tree) (tree : Tree) (p : Place Stored)
        → place_at (times_at schema number v) (times_below schema number v schema.nodes) steps tree
        ≡ Some p
        → times_in schema (edit_at steps change tree) number v
        + total p.top (times_at schema number v) p.below
        ≡ times_in schema tree number v + total p.top (times_at schema number v) (change p.below) }
{}
