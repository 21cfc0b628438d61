//! The law of formats: what tells of faults and refusals as JSON is told on the output alone.

ghost use Rattle.std.specs.Prelude.{ℕ, List, Option, false, true};
ghost use Rattle.yspec.specs.text.Text.{Text};
ghost use Rattle.yspec_wide.specs.Language.{Language};
ghost use Rattle.yspec_run.specs.Output.{Options, edit, validate};
ghost use Rattle.yspec_run.specs.Unjudged.{outcome_said};
ghost use Rattle.yspec_run.specs.Format.{AlikeBesides, in_format};

/// In any language a run prints the same on the error side with `--format json` and without, and ends with the same status and file.
pub fn formats_differ_on_the_output()
    ensures validated { (language : Language) (options : Options) (document : Text) (modules : List Text)
        (answers : List (Option (List ℕ)))
        → AlikeBesides (outcome_said (validate language (in_format true options) document modules) answers)
        (outcome_said (validate language (in_format false options) document modules) answers) }
    ensures edited { (language : Language) (options : Options) (document script : Text) (modules : List Text)
        (answers : List (Option (List ℕ)))
        → AlikeBesides (outcome_said (edit language (in_format true options) document script modules) answers)
        (outcome_said (edit language (in_format false options) document script modules) answers) }
{}
