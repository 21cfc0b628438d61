//! What is left once things were done in turn, each as soon as it is ready, and that no augment is lost.

ghost use Rattle.std.specs.Prelude.{◌≡◌, ◌≤◌, ◌⊎◌, ℕ, Bool, List, [], Ok, length, map, is_some, false, true};
ghost use Rattle.std.specs.List.{All, Contains};
ghost use Rattle.yspec.specs.Forest.{Forest};
ghost use Rattle.yspec.specs.text.Statement.{Statement};
ghost use Rattle.yspec.specs.schema.Schema.{Schema};
ghost use Rattle.yspec.specs.linking.Source.{Source, sources_of};
ghost use Rattle.yspec.specs.linking.Augments.{Augment, augmented, augments_of, in_turn, is_ready};
ghost use Rattle.yspec.specs.linking.Compiling.{compiled, plan_of, target_found};
ghost use Rattle.yspec_laws.specs.Listed.{augment_counts};

/// Where there are as many turns as things that wait, nothing that is left in the end is ready by then.
pub fn left_in_turn<S, A>()
    ensures { (ready : S → A → Bool) (apply : A → S → S) (turns : ℕ) (state : S) (waiting : List A)
        → length waiting ≤ turns → let done = in_turn ready apply turns state waiting in
        All (λ a. ready done.0 a ≡ false) done.1 }
{}

/// Once the augments of a set of modules are applied, none that is left has a target which may take what it adds.
pub fn augments_left()
    ensures { (modules : Forest Source) → All
        (λ a. is_ready modules (augmented modules).0 a ≡ false) (augmented modules).1 }
{}

/// Each augment of a set of modules is left, or has in the end a target which may take what it adds: none is lost, and what
/// others add takes no target away.
pub fn augments_kept()
    ensures { (modules : Forest Source) (a : Augment) → Contains (augments_of modules) a
        → Contains (augmented modules).1 a ⊎ (is_ready modules (augmented modules).0 a ≡ true) }
{}

/// Where none is left, each augment of a set of modules has its target among the nodes that are planned; so the schema of
/// modules that compile lists, of each, as many augments as it states.
pub fn augments_listed()
    ensures found { (modules : Forest Source) (a : Augment) → (augmented modules).1 ≡ []
        → Contains (augments_of modules) a
        → is_some (target_found (plan_of modules) a) ≡ true }
    ensures listed { (modules : Forest Statement) (schema : Schema) → compiled modules ≡ Ok schema
        → map (λ m. length m.augments) schema.modules ≡ augment_counts (sources_of modules) }
{}
