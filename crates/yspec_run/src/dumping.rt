//! The law that joins the commands: what is found of an edited document is found of what is dumped of it.

ghost use Rattle.std.specs.Prelude.{◌≡◌, ◌≤◌, ◌++◌, ◌∷◌, [], ℕ, List, Option, Some, false, true, length, take};
ghost use Rattle.yspec.specs.text.Text.{Text};
ghost use Rattle.yspec_wide.specs.Language.{Language};
ghost use Rattle.yspec_run.specs.Output.{as_dump, edit, outcome, plainly, printed, validate};

/// In any language, where `edit` reports on a document (status 0 or 1), `validate` reports the same, under the same modules, on
/// a file with the bytes that `edit --dump` writes, and refuses nothing of it.
pub fn dumped_documents_are_validated()
    ensures alike { (language : Language) (document script name : Text) (modules : List Text)
        (answers : List (Option (List ℕ)))
        → let shown = outcome (edit language plainly document script modules) answers in
        let bytes = (printed false (outcome (edit language as_dump document script modules) answers)).output in
        let again = outcome (validate language plainly name modules) (take (length modules) answers ++ Some bytes
        ∷ []) in
        shown.status ≤ 1 → again.output ≡ shown.output }
    ensures unrefused { (language : Language) (document script name : Text) (modules : List Text)
        (answers : List (Option (List ℕ)))
        → let bytes = (printed false (outcome (edit language as_dump document script modules) answers)).output in
        let again = outcome (validate language plainly name modules) (take (length modules) answers ++ Some bytes
        ∷ []) in
        (outcome (edit language plainly document script modules) answers).status ≤ 1 → again.errors ≡ [] }
{}
