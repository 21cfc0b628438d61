//! Configuration alone, and all of a document.

ghost use Rattle.std.specs.Prelude.{◌≡◌, ◌≤◌, ◌↔◌, ◌++◌, ℕ, List, [], true, false, length, map, Some};
ghost use Rattle.yspec.specs.text.Text.{Text};
ghost use Rattle.yspec.specs.schema.Schema.{Schema};
ghost use Rattle.yspec.specs.document.Document.{Tree};
ghost use Rattle.yspec.specs.document.StateData.{configuration_tree, inspected, state_faults};
ghost use Rattle.yspec_wide.specs.Language.{Language};
ghost use Rattle.yspec_run.specs.Output.{Options, edit, outcome, validate};
ghost use Rattle.yspec_laws.specs.Stateless.{Give, HasNoState, IsGiven, looking};

/// State data is told of a document exactly where leaving it out changes the document.
pub fn told_state()
    ensures { (schema : Schema) (tree : Tree)
        → (state_faults schema tree ≡ []) ↔ (configuration_tree schema tree ≡ tree) }
{}

/// Under a schema without state the configuration of a document is all of it, and has the same faults.
pub fn all_is_configuration()
    ensures { (schema : Schema) (tree : Tree) → HasNoState schema
        → inspected true schema tree ≡ inspected false schema tree }
{}

/// Where in a language a run reports on a document, its modules give a schema, which is that of a set that compiles.
pub fn given_schemas()
    ensures { (language : Language) (options : Options) (document : Text) (names : List Text) (contents more : List (List ℕ))
        → length contents ≡ length names
        → (outcome (validate language options document names) (map Some (contents ++ more))).status ≤ 1
        → IsGiven language names contents }
{}

/// In any language, under modules without state `--config` changes nothing of what a run prints, of its status and of the file that is due.
pub fn same_runs()
    ensures validated { (language : Language) (options : Options) (document : Text) (names : List Text)
        (contents more : List (List ℕ)) (schema : Schema) → length contents ≡ length names
        → Give language names contents schema → HasNoState schema
        → outcome (validate language (looking true options) document names) (map Some (contents ++ more))
        ≡ outcome (validate language (looking false options) document names) (map Some (contents ++ more)) }
    ensures edited { (language : Language) (options : Options) (document script : Text) (names : List Text)
        (contents more : List (List ℕ)) (schema : Schema) → length contents ≡ length names
        → Give language names contents schema → HasNoState schema
        → outcome (edit language (looking true options) document script names)
        (map Some (contents ++ more))
        ≡ outcome (edit language (looking false options) document script names)
        (map Some (contents ++ more)) }
{}
