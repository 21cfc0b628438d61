//! Worked examples of augments: what they add and where, in which order, what is left of them, and what they may not add.

ghost use Rattle.std.specs.Prelude.{◌≡◌, ◌++◌, [], ◌∷◌, codes, Some, None, false};
ghost use Rattle.yspec.specs.linking.Prefixes.{prefix_breaks};
ghost use Rattle.yspec.specs.linking.Augments.{augment_breaks, left_breaks};
ghost use Rattle.yspec.specs.edit.Examples.{module_text};
ghost use Rattle.yspec_examples.specs.Printing.{failed, found};
ghost use Rattle.yspec_examples.specs.RunExamples.{faulty, without_faults};
ghost use Rattle.yspec.specs.schema.Schema.{leaf, choice, case, allowed};
ghost use Rattle.yspec.specs.types.Types.{integer_base, uint8, plain};
ghost use Rattle.yspec_examples.specs.SchemaExamples.{of_base, referring};
ghost use Rattle.yspec_examples.specs.ScopeSamples.{all_told};
ghost use Rattle.yspec_examples.specs.ExpansionSamples.{kinds_in, names_in, drawn, text_leaf, plain_container, number_leaf, used_number, told_in, count_of_texts};
ghost use Rattle.yspec_examples.specs.CompilingSamples.{compiled_texts};
ghost use Rattle.yspec_examples.specs.AugmentSamples.{counted_of_three, dumped_of_three, shown_of_three, made_anyway, additions_told, m_and_a, added_to_c, added_to_choice, a_b_and_m, three_with};

/// A container, in it a container of another module, and in that a leaf of a third, whose module is given first.
pub fn nodes_of_three_modules()
    ensures nodes { names_in (compiled_texts (three_with (codes "leaf y { type string; }")))
        ≡ (2, codes "c") ∷ (1, codes "x") ∷ (0, codes "y") ∷ [] }
    ensures of_the_container { drawn 2 (compiled_texts (three_with
        (codes "leaf y { type string; }")))
        ≡ codes "module: m\n  +--rw c\n     +--rw b:x\n        +--rw a:y?   string\n" }
    ensures of_the_second { drawn 1 (compiled_texts (three_with (codes "leaf y { type string; }")))
        ≡ codes "module: b\n\n  augment /m:c:\n    +--rw x\n       +--rw a:y?   string\n" }
    ensures of_the_third { drawn 0 (compiled_texts (three_with (codes "leaf y { type string; }")))
        ≡ codes "module: a\n\n  augment /m:c/b:x:\n    +--rw y?   string\n" }
{}

/// Always the first augment that has its target by then, in the order of modules and their texts.
pub fn augments_in_turn()
    ensures in_order { names_in (compiled_texts (added_to_c
        (codes "  augment /m:c { leaf q { type string; } }\n"
        ++ codes "  augment /m:c { leaf p { type string; } }\n")))
        ≡ (0, codes "c") ∷ (1, codes "q") ∷ (1, codes "p") ∷ [] }
    ensures the_first { names_in (compiled_texts (added_to_c
        (codes "  augment /m:c/x { leaf p { type string; } }\n" ++
        (codes "  augment /m:c { leaf q { type string; } }\n  augment /m:c { container x { } }\n"
        ++ codes "  augment /m:c/x { leaf r { type string; } }\n"))))
        ≡ (0, codes "c") ∷ (1, codes "q") ∷ (1, codes "x") ∷ (1, codes "p")
        ∷ (1, codes "r") ∷ [] }
    ensures one_by_one { names_in (compiled_texts (added_to_c
        (codes "  augment /m:c/x/z { leaf p { type string; } }\n" ++
        (codes "  augment /m:c/x { container z { } }\n  augment /m:c { container x { } }\n" ++
        (codes "  augment /m:c/x/z { leaf r { type string; } }\n"
        ++ codes "  augment /m:c/x { leaf s { type string; } }\n")))))
        ≡ (0, codes "c") ∷ (1, codes "x") ∷ (1, codes "z") ∷ (1, codes "p")
        ∷ (1, codes "r") ∷ (1, codes "s") ∷ [] }
    ensures of_modules { names_in (compiled_texts (module_text (codes "b")
        (codes "  import m { prefix m; }\n  augment /m:c { leaf z { type string; } }\n")
        ∷ m_and_a (codes "  container c { }\n  augment /c { leaf o { type string; } }\n")
        (codes "  augment /m:c { leaf y { type string; } }\n")))
        ≡ (1, codes "c") ∷ (0, codes "z") ∷ (1, codes "o") ∷ (2, codes "y") ∷ [] }
{}

/// Each augment is drawn with what it adds itself, in the order of the text, whatever comes first in turn.
pub fn drawn_augments()
    ensures in_order { drawn 0 (compiled_texts (a_b_and_m
        (codes "  augment /m:c/b:x { leaf p { type string; } }\n"
        ++ codes "  augment /m:c { leaf longer { type string; } }\n")))
        ≡ codes "module: a\n\n  augment /m:c/b:x:\n    +--rw p?   string\n"
        ++ codes "\n  augment /m:c:\n    +--rw longer?   string\n" }
    ensures in_turn { drawn 2 (compiled_texts (a_b_and_m
        (codes "  augment /m:c/b:x { leaf p { type string; } }\n"
        ++ codes "  augment /m:c { leaf longer { type string; } }\n")))
        ≡ codes "module: m\n  +--rw c\n     +--rw a:longer?   string\n"
        ++ codes "     +--rw b:x\n        +--rw a:p?   string\n" }
    ensures one_target { drawn 0 (compiled_texts (a_b_and_m
        (codes "  augment /m:c { leaf p { type string; } }\n"
        ++ codes "  augment /m:c { leaf longer { type string; } }\n")))
        ≡ codes "module: a\n\n  augment /m:c:\n    +--rw p?   string\n"
        ++ codes "\n  augment /m:c:\n    +--rw longer?   string\n" }
    ensures in_a_case { drawn 1 (compiled_texts (added_to_choice
        (codes "  augment /m:h/m:k { leaf y { type string; } }\n")))
        ≡ codes "module: a\n\n  augment /m:h/m:k:\n    +--rw y?   string\n" }
    ensures nothing { drawn 1 (compiled_texts (added_to_c
        (codes "  augment /m:c { description x; }\n")))
        ≡ codes "module: a\n\n  augment /m:c:\n" }
{}

/// What is added comes last below the target, and belongs to the module of the augment.
pub fn added_nodes()
    ensures last { names_in (compiled_texts (m_and_a
        (codes "  container c { leaf u { type string; } leaf t { type string; } }\n")
        (codes "  augment /m:c { leaf w { type string; } leaf v { type string; } }\n")))
        ≡ (0, codes "c") ∷ (0, codes "u") ∷ (0, codes "t") ∷ (1, codes "w")
        ∷ (1, codes "v") ∷ [] }
    ensures of_its_own_module { drawn 0 (compiled_texts (module_text (codes "m")
        (codes "  augment /c { leaf v { type string; } }\n  container c { }\n") ∷ []))
        ≡ codes "module: m\n  +--rw c\n     +--rw v?   string\n" }
    ensures one_name_in_two_modules { names_in (compiled_texts (m_and_a
        (codes "  container c { leaf v { type string; } }\n")
        (codes "  augment /m:c { leaf v { type string; } }\n")))
        ≡ (0, codes "c") ∷ (0, codes "v") ∷ (1, codes "v") ∷ [] }
    ensures cases_of_one_name { names_in (compiled_texts (m_and_a
        (codes "  choice h { case k { leaf x { type string; } } }\n")
        (codes "  augment /m:h { case k { leaf y { type string; } } }\n")))
        ≡ (0, codes "h") ∷ (0, codes "k") ∷ (0, codes "x") ∷ (1, codes "k")
        ∷ (1, codes "y") ∷ [] }
    ensures one_case_twice { compiled_texts (added_to_choice
        (codes "  augment /m:h { case c { leaf x { type string; } } }\n  augment /m:h {\n"
        ++ codes "    case c { leaf y { type string; } } }\n"))
        ≡ told_in 1 13 8 }
    ensures one_name_twice { compiled_texts (added_to_c
        (codes "  augment /m:c { leaf v { type string; } }\n  augment /m:c {\n"
        ++ codes "    leaf v { type string; } }\n"))
        ≡ told_in 1 13 8 }
    ensures state { drawn 0 (compiled_texts (m_and_a
        (codes "  container c { config false; }\n")
        (codes "  augment /m:c { leaf v { type string; } }\n")))
        ≡ codes "module: m\n  +--ro c\n     +--ro a:v?   string\n" }
    ensures types { kinds_in (compiled_texts (m_and_a
        (codes "  typedef t { type string; }\n  container c { }\n")
        (codes "  typedef t { type uint8; }\n  augment /m:c { leaf v { type t; } }\n")))
        ≡ plain_container (codes "c")
        ∷ (codes "v", leaf (of_base (codes "t") (integer_base uint8)) allowed) ∷ [] }
    ensures single_nodes { kinds_in (compiled_texts (added_to_choice
        (codes "  augment /m:h { leaf y { type string; } case z { leaf w { type string; } } }\n")))
        ≡ (codes "h", choice None false) ∷ (codes "k", case) ∷ plain_container (codes "k")
        ∷ (codes "y", case) ∷ text_leaf (codes "y") allowed ∷ (codes "z", case)
        ∷ text_leaf (codes "w") allowed ∷ [] }
    ensures cases { drawn 0 (compiled_texts (added_to_choice
        (codes "  augment /m:h { leaf y { type string; } case z { leaf w { type string; } } }\n")))
        ≡ codes "module: m\n  +--rw (h)?\n     +--:(k)\n     |  +--rw k\n     +--:(a:y)\n"
        ++ codes "     |  +--rw a:y?   string\n     +--:(a:z)\n        +--rw a:w?   string\n" }
    ensures added_cases { drawn 1 (compiled_texts (added_to_choice
        (codes "  augment /m:h { leaf y { type string; } case z { leaf w { type string; } } }\n")))
        ≡ codes "module: a\n\n  augment /m:h:\n    +--:(y)\n    |  +--rw y?   string\n"
        ++ codes "    +--:(z)\n       +--rw w?   string\n" }
    ensures used { names_in (compiled_texts (m_and_a
        (codes "  grouping g { leaf v { type string; } container o { } }\n  container c { }\n")
        (codes "  augment /m:c { uses m:g; leaf w { type string; } }\n")))
        ≡ (0, codes "c") ∷ (1, codes "v") ∷ (1, codes "o") ∷ (1, codes "w") ∷ [] }
    ensures refined { kinds_in (compiled_texts (added_to_c
        (codes "  grouping g { leaf v { type uint8; } }\n"
        ++ codes "  augment /m:c { uses g { refine v { default 7; } } }\n")))
        ≡ plain_container (codes "c") ∷ number_leaf (codes "v") (used_number 7) ∷ [] }
{}

/// A path leads through choices and cases; a name without a prefix is of the module of the augment.
pub fn ways_to_targets()
    ensures to_a_case { drawn 0 (compiled_texts (added_to_choice
        (codes "  augment /m:h/m:k { leaf y { type string; } }\n")))
        ≡ codes "module: m\n  +--rw (h)?\n     +--:(k)\n        +--rw k\n        +--rw a:y?   string\n" }
    ensures through_a_case { drawn 0 (compiled_texts (added_to_choice
        (codes "  augment /m:h/m:k/m:k { leaf y { type string; } }\n")))
        ≡ codes "module: m\n  +--rw (h)?\n     +--:(k)\n        +--rw k\n           +--rw a:y?   string\n" }
    ensures without_the_choice { compiled_texts (added_to_choice
        (codes "  augment /m:k { leaf y { type string; } }\n"))
        ≡ told_in 1 14 6 }
    ensures to_a_list { names_in (compiled_texts (m_and_a
        (codes "  list l { key k; leaf k { type string; } }\n")
        (codes "  augment /m:l { leaf y { type string; } }\n")))
        ≡ (0, codes "l") ∷ (0, codes "k") ∷ (1, codes "y") ∷ [] }
    ensures plain_names { names_in (compiled_texts (added_to_c
        (codes "  container c { }\n  augment /c { leaf y { type string; } }\n")))
        ≡ (0, codes "c") ∷ (1, codes "c") ∷ (1, codes "y") ∷ [] }
    ensures plain_names_of_others { compiled_texts (added_to_c
        (codes "  augment /c { leaf y { type string; } }\n"))
        ≡ told_in 1 14 6 }
    ensures its_own_prefix { names_in (compiled_texts (added_to_c
        (codes "  augment /m:c { container x { } }\n"
        ++ codes "  augment /m:c/a:x { leaf y { type string; } }\n")))
        ≡ (0, codes "c") ∷ (1, codes "x") ∷ (1, codes "y") ∷ [] }
    ensures unknown_prefix { all_told prefix_breaks (added_to_c
        (codes "  augment /m:c/x:x { leaf y { type string; } }\n"))
        ≡ (6, (1, 6)) ∷ [] }
    ensures first_of_a_name { names_in (made_anyway (m_and_a
        (codes "  container c { }\n  container c { leaf u { type string; } }\n")
        (codes "  augment /m:c { leaf y { type string; } }\n")))
        ≡ (0, codes "c") ∷ (1, codes "y") ∷ (0, codes "c") ∷ (0, codes "u") ∷ [] }
    ensures first_alone { all_told left_breaks (m_and_a
        (codes "  leaf c { type string; }\n  container c { container d { } }\n")
        (codes "  augment /m:c { leaf y { type string; } }\n"
        ++ codes "  augment /m:c/m:d { leaf y { type string; } }\n"))
        ≡ (14, (1, 6)) ∷ (14, (1, 7)) ∷ [] }
{}

/// Augments without a target, or with one that may not take all that they add; and unfit refines in them.
pub fn augments_that_are_left()
    ensures no_target { compiled_texts (added_to_c
        (codes "  augment /m:d { leaf y { type string; } }\n"))
        ≡ told_in 1 14 6 }
    ensures no_way { compiled_texts (added_to_c
        (codes "  augment /m:d/m:c { leaf y { type string; } }\n"))
        ≡ told_in 1 14 6 }
    ensures leaf { compiled_texts (m_and_a (codes "  leaf c { type string; }\n")
        (codes "  augment /m:c { leaf y { type string; } }\n"))
        ≡ told_in 1 14 6 }
    ensures leaf_list { compiled_texts (m_and_a (codes "  leaf-list c { type string; }\n")
        (codes "  augment /m:c { leaf y { type string; } }\n"))
        ≡ told_in 1 14 6 }
    ensures case_in_a_container { compiled_texts (added_to_c
        (codes "  augment /m:c {\n    leaf y { type string; } case k { } }\n"))
        ≡ told_in 1 14 6 }
    ensures case_in_a_case { compiled_texts (added_to_choice
        (codes "  augment /m:h/m:k { case z { } }\n"))
        ≡ told_in 1 14 6 }
    ensures uses_in_a_choice { compiled_texts (added_to_choice
        (codes "  grouping g { leaf y { type string; } }\n  augment /m:h { uses g; }\n"))
        ≡ told_in 1 14 7 }
    ensures uses_in_a_case { names_in (compiled_texts (added_to_choice
        (codes "  grouping g { leaf y { type string; } }\n  augment /m:h/m:k { uses g; }\n")))
        ≡ (0, codes "h") ∷ (0, codes "k") ∷ (0, codes "k") ∷ (1, codes "y") ∷ [] }
    ensures that_alone { all_told left_breaks (added_to_c
        (codes "  augment /m:c { leaf y { type string; } }\n" ++
        (codes "  augment /m:d { leaf y { type string; } }\n"
        ++ codes "  augment /m:c { leaf z { type string; } }\n")))
        ≡ (14, (1, 7)) ∷ [] }
    ensures nothing_added { names_in (made_anyway (added_to_c
        (codes "  augment /m:c { leaf y { type string; } }\n" ++
        (codes "  augment /m:c { case k { } leaf x { type string; } }\n"
        ++ codes "  augment /m:c { leaf z { type string; } }\n"))))
        ≡ (0, codes "c") ∷ (1, codes "y") ∷ (1, codes "z") ∷ [] }
    ensures each_waiting_for_the_other { all_told left_breaks (added_to_c
        (codes "  augment /m:c/x { container y { } }\n  augment /m:c/y { container x { } }\n"))
        ≡ (14, (1, 6)) ∷ (14, (1, 7)) ∷ [] }
    ensures unfit_refine { all_told augment_breaks (added_to_c
        (codes "  grouping g { leaf v { type uint8; } }\n  augment /m:c {\n"
        ++ codes "    uses g { refine w { default 7; } } }\n"))
        ≡ (14, (1, 8)) ∷ [] }
    ensures unfit_refine_of_one_left { all_told augment_breaks (added_to_c
        (codes "  grouping g { leaf v { type uint8; } }\n  augment /m:d {\n"
        ++ codes "    uses g { refine w { default 7; } } }\n"))
        ≡ (14, (1, 8)) ∷ (14, (1, 7)) ∷ [] }
{}

/// Configuration that must be may not be added to a node of another module; what must be is judged once all is added.
pub fn configuration_added_to_others()
    ensures leaf { compiled_texts (added_to_c
        (codes "  augment /m:c {\n    leaf y { type string; mandatory true; } }\n"))
        ≡ told_in 1 15 6 }
    ensures choice { compiled_texts (added_to_c
        (codes "  augment /m:c {\n    choice y { mandatory true; leaf z { type string; } } }\n"))
        ≡ told_in 1 15 6 }
    ensures list { compiled_texts (added_to_c (codes "  augment /m:c {\n"
        ++ codes "    list y { key k; min-elements 1; leaf k { type string; } } }\n"))
        ≡ told_in 1 15 6 }
    ensures list_of_none { names_in (compiled_texts (added_to_c (codes "  augment /m:c {\n"
        ++ codes "    list y { key k; leaf k { type string; mandatory true; } } }\n")))
        ≡ (0, codes "c") ∷ (1, codes "y") ∷ (1, codes "k") ∷ [] }
    ensures leaf_list { compiled_texts (added_to_c
        (codes "  augment /m:c {\n    leaf-list y { type string; min-elements 1; } }\n"))
        ≡ told_in 1 15 6 }
    ensures container { compiled_texts (added_to_c (codes "  augment /m:c {\n"
        ++ codes "    container x { leaf y { type string; mandatory true; } } }\n"))
        ≡ told_in 1 15 6 }
    ensures presence { names_in (compiled_texts (added_to_c (codes "  augment /m:c {\n"
        ++ codes "    container x { presence x; leaf y { type string; mandatory true; } } }\n")))
        ≡ (0, codes "c") ∷ (1, codes "x") ∷ (1, codes "y") ∷ [] }
    ensures later { all_told additions_told (added_to_c
        (codes "  augment /m:c { container x { } }\n"
        ++ codes "  augment /m:c/x { leaf y { type string; mandatory true; } }\n"))
        ≡ (15, (1, 6)) ∷ [] }
    ensures three_modules { all_told additions_told (three_with
        (codes "leaf y { type string; mandatory true; }"))
        ≡ (15, (1, 6)) ∷ (15, (0, 7)) ∷ [] }
    ensures refined { compiled_texts (added_to_c
        (codes "  grouping g { leaf v { type uint8; } }\n"
        ++ codes "  augment /m:c { uses g { refine v { mandatory true; } } }\n"))
        ≡ told_in 1 15 7 }
    ensures to_a_case { compiled_texts (added_to_choice
        (codes "  augment /m:h/m:k {\n    leaf y { type string; mandatory true; } }\n"))
        ≡ told_in 1 15 6 }
    ensures to_a_list { compiled_texts (m_and_a
        (codes "  list l { key k; leaf k { type string; } }\n")
        (codes "  augment /m:l {\n    leaf y { type string; mandatory true; } }\n"))
        ≡ told_in 1 15 6 }
    ensures to_a_container_with_presence { compiled_texts (m_and_a
        (codes "  container c { presence x; }\n")
        (codes "  augment /m:c {\n    leaf y { type string; mandatory true; } }\n"))
        ≡ told_in 1 15 6 }
    ensures single_node { names_in (compiled_texts (added_to_choice
        (codes "  augment /m:h { leaf y { type string; mandatory true; } }\n")))
        ≡ (0, codes "h") ∷ (0, codes "k") ∷ (0, codes "k") ∷ (1, codes "y")
        ∷ (1, codes "y") ∷ [] }
    ensures case { names_in (compiled_texts (added_to_choice
        (codes "  augment /m:h { case y { leaf z { type string; mandatory true; } } }\n")))
        ≡ (0, codes "h") ∷ (0, codes "k") ∷ (0, codes "k") ∷ (1, codes "y")
        ∷ (1, codes "z") ∷ [] }
    ensures state { names_in (compiled_texts (added_to_c
        (codes "  augment /m:c { leaf y { config false; type string; mandatory true; } }\n")))
        ≡ (0, codes "c") ∷ (1, codes "y") ∷ [] }
    ensures below_state { names_in (compiled_texts (m_and_a
        (codes "  container c { config false; }\n")
        (codes "  augment /m:c { leaf y { type string; mandatory true; } }\n")))
        ≡ (0, codes "c") ∷ (1, codes "y") ∷ [] }
    ensures its_own_module { names_in (compiled_texts (added_to_c (codes "  container d { }\n"
        ++ codes "  augment /d { leaf y { type string; mandatory true; } }\n")))
        ≡ (0, codes "c") ∷ (1, codes "d") ∷ (1, codes "y") ∷ [] }
{}

/// Other rules, too, are judged once all is added: of leafrefs, default cases and configuration.
pub fn judged_once_added()
    ensures reference { kinds_in (compiled_texts (added_to_c (codes "  augment /m:c {\n"
        ++ codes "    leaf r { type leafref { path /m:c/y; } } leaf y { type uint8; } }\n")))
        ≡ plain_container (codes "c")
        ∷ (codes "r", leaf (referring (plain (integer_base uint8)).shape 2) allowed)
        ∷ number_leaf (codes "y") allowed ∷ [] }
    ensures default_case { kinds_in (compiled_texts (module_text (codes "m")
        (codes "  choice h { default k; }\n  augment /h { leaf k { type string; } }\n") ∷ []))
        ≡ (codes "h", choice (Some 1) false) ∷ (codes "k", case)
        ∷ text_leaf (codes "k") allowed ∷ [] }
    ensures default_case_of_another { compiled_texts (m_and_a
        (codes "  choice h { default k; }\n")
        (codes "  augment /m:h { leaf k { type string; } }\n"))
        ≡ told_in 0 11 5 }
    ensures mandatory_in_a_default_case { compiled_texts (module_text (codes "m")
        (codes "  choice h { default k; container k { } }\n"
        ++ codes "  augment /h/k { leaf y { type string; mandatory true; } }\n") ∷ [])
        ≡ told_in 0 11 5 }
    ensures configuration_below_state { compiled_texts (m_and_a
        (codes "  container c { config false; }\n")
        (codes "  augment /m:c {\n    leaf y { config true; type string; } }\n"))
        ≡ told_in 1 16 7 }
    ensures no_key { compiled_texts (added_to_c
        (codes "  augment /m:c {\n    list l { leaf k { type string; } } }\n"))
        ≡ told_in 1 16 7 }
{}

/// What augments state is counted as it stands, whether they find a target or not: a single node for a choice without a
/// case.
pub fn counted_augments()
    ensures bodies { count_of_texts (added_to_c
        (codes "  augment /m:c { leaf u { type string; } container w { leaf v { type string; } } }\n"
        ++ codes "  augment /m:c { leaf z { type string; } }\n"))
        ≡ 5 }
    ensures single_nodes { count_of_texts (added_to_choice
        (codes "  augment /m:h { leaf y { type string; } }\n"))
        ≡ 4 }
    ensures implied_cases { count_of_texts (added_to_c
        (codes "  augment /m:c { choice h { leaf y { type string; } } }\n"))
        ≡ 4 }
    ensures left { count_of_texts (added_to_c
        (codes "  augment /m:d { leaf y { type string; } case k { } }\n"))
        ≡ 3 }
    ensures used { count_of_texts (added_to_c
        (codes "  grouping g { leaf u { type string; } leaf v { type string; } }\n"
        ++ codes "  augment /m:c { uses g; uses g { refine w { default 7; } } }\n"))
        ≡ 5 }
{}

/// Documents with nodes of three modules: a name bears its module where that isn't the one of the data node above.
pub fn documents_of_three_modules()
    ensures nodes { counted_of_three ≡ found 0 (codes "3 nodes\n") }
    ensures read { shown_of_three (codes "{\"m:c\":{\"b:x\":{\"a:y\":\"v\"}}}") ≡ without_faults }
    ensures without_its_module { shown_of_three (codes "{\"m:c\":{\"x\":{}}}")
        ≡ failed 2 (codes "d.json: J4 /m:c") }
    ensures of_another_module { shown_of_three (codes "{\"m:c\":{\"b:x\":{\"b:y\":\"v\"}}}")
        ≡ failed 2 (codes "d.json: J3 /m:c/b:x") }
    ensures fault { shown_of_three (codes "{\"m:c\":{\"b:x\":{\"a:y\":5}}}")
        ≡ faulty [] (codes "V1 invalid-value - /m:c/b:x/a:y -\n1 faults\n") }
    ensures edit { dumped_of_three (codes "{\"m:c\":{}}") (codes "create /m:c/b:x {\"a:y\":\"v\"}")
        ≡ found 0 (codes "{\"m:c\":{\"b:x\":{\"a:y\":\"v\"}}}\n") }
    ensures refused_edit { dumped_of_three (codes "{\"m:c\":{}}") (codes "create /m:c/x {}")
        ≡ faulty (codes "line 1: E2\n") (codes "{\"m:c\":{}}\n") }
{}
