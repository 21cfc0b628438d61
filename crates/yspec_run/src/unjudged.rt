//! What is said of conditions that aren't judged: nothing, where all are.

ghost use Rattle.std.specs.Prelude.{◌≡◌, ℕ, List, Option};
ghost use Rattle.yspec.specs.text.Text.{Text};
ghost use Rattle.yspec_wide.specs.Language.{Choosing, core, rfc_with};
ghost use Rattle.yspec_run.specs.Output.{Options, compile, edit, outcome, validate};
ghost use Rattle.yspec_run.specs.Unjudged.{outcome_said};

/// Under the core, and under `rfc` with features alone, a run prints what it finds and nothing besides.
pub fn all_are_judged()
    ensures compiled { (modules : List Text) (answers : List (Option (List ℕ)))
        → outcome_said (compile core modules) answers ≡ outcome (compile core modules) answers }
    ensures validated { (options : Options) (document : Text) (modules : List Text) (answers : List (Option (List ℕ)))
        → outcome_said (validate core options document modules) answers ≡ outcome (validate core options document modules) answers }
    ensures edited { (options : Options) (document script : Text) (modules : List Text) (answers : List (Option (List ℕ)))
        → outcome_said (edit core options document script modules) answers ≡ outcome (edit core options document script modules) answers }
    ensures with_features { (choosings : List Choosing) (options : Options) (document : Text) (modules : List Text) (answers : List (Option (List ℕ)))
        → outcome_said (validate (rfc_with choosings) options document modules) answers
        ≡ outcome (validate (rfc_with choosings) options document modules) answers }
{}
