//! Where nothing is to be looked for, nothing is found, and no file is asked.

ghost use Rattle.std.specs.Prelude.{◌≡◌, [], List, map, true};
ghost use Rattle.std.specs.List.{list_all, list_any};
ghost use Rattle.yspec.specs.text.Text.{Text, is_text};
ghost use Rattle.yspec_wide.specs.Language.{Language};
ghost use Rattle.yspec_wide.specs.Texts.{module_in};
ghost use Rattle.yspec_search.specs.Search.{Answers, name_of, search_for, wanted_of_all};

/// Without a folder.
pub fn without_folders()
    ensures { (language : Language) (texts : List Text) (answers : Answers)
        → search_for language [] texts answers ≡ record { found = []; asked = [] } }
{}

/// Where each import of some texts asks for a module of one of them, whatever the folders.
pub fn all_are_named()
    ensures { (language : Language) (folders : List Text) (texts : List Text) (answers : Answers)
        → list_all (λ w. list_any (is_text w.name) (map (λ t. name_of (module_in language t)) texts)) (wanted_of_all language texts) ≡ true
        → search_for language folders texts answers ≡ record { found = []; asked = [] } }
{}
