//! Laws of fellows.

ghost use Rattle.std.specs.Prelude.{◌≡◌, ◌==◌, ◌<◌, ℕ, Some, None, false};
ghost use Rattle.yspec.specs.schema.Schema.{Schema};
ghost use Rattle.yspec.specs.types.Types.{Val};
ghost use Rattle.yspec.specs.document.Document.{Step, Tree};
ghost use Rattle.yspec.specs.document.Instances.{Tuple, tuple, is_tuple, value_of, is_value, tuples_in, items_in};
ghost use Rattle.ysay_fault.specs.Fellows.{fellow_by, fellow_entry, fellow_item};

/// No entry or item is its own fellow.
pub fn fellow_is_another()
    ensures entries { (schema : Schema) (u own position : ℕ) (row : Tree) (step : Step) → step.position ≡ Some own
        → fellow_entry schema u row step ≡ Some position → (position == own) ≡ false }
    ensures items { (schema : Schema) (own position : ℕ) (row : Tree) (step : Step) → step.position ≡ Some own
        → fellow_item schema row step ≡ Some position → (position == own) ≡ false }
{}

/// Where more than one entry of a list has a tuple, or item of a leaf-list a value, as V8 to V10 tell, there is one at
/// another position than any given one.
pub fn repeated_has_fellow()
    ensures entries { (schema : Schema) (row : Tree) (number u own : ℕ) (vs : Tuple)
        → 1 < tuples_in schema row number u vs
        → fellow_by (λ s below. is_tuple vs (tuple schema s below u)) row number own ≡ None → ⊥ }
    ensures items { (schema : Schema) (row : Tree) (number own : ℕ) (v : Val)
        → 1 < items_in schema row number v
        → fellow_by (λ s below. is_value v (value_of schema s)) row number own ≡ None → ⊥ }
{}
