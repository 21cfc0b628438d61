//! Worked examples of groupings: what is used, refined, counted and refused.

ghost use Rattle.std.specs.Prelude.{◌≡◌, ◌++◌, [], ◌∷◌, codes, true, false, Some, None, Err, nat_lt};
ghost use Rattle.yspec.specs.Forest.{Forest, end, node};
ghost use Rattle.yspec.specs.text.Statement.{Statement};
ghost use Rattle.yspec.specs.schema.Breaks.{first_broken, node_limit};
ghost use Rattle.yspec.specs.linking.Planned.{Plan};
ghost use Rattle.yspec.specs.linking.NodeCounts.{node_count};
ghost use Rattle.yspec.specs.linking.Compiling.{phases_of_plan};
ghost use Rattle.yspec.specs.edit.Examples.{module_text};
ghost use Rattle.yspec_examples.specs.SchemaExamples.{of_base, state_node, any_amount, number_value_of, referring, limited_to, unrestricted, within};
ghost use Rattle.yspec.specs.schema.Schema.{container, leaf, leaf_list, list, choice, case, own_type, current, allowed, default_used, mandatory, key};
ghost use Rattle.yspec.specs.types.Types.{integer_base, string_base, uint8, plain};
ghost use Rattle.yspec_examples.specs.Printing.{found};
ghost use Rattle.yspec_examples.specs.RunExamples.{shown_of_two};
ghost use Rattle.yspec_examples.specs.CompilingSamples.{compiled_lines, compiled_texts, nodes_in, told_at};
ghost use Rattle.yspec_examples.specs.ExpansionSamples.{kinds_in, kinds_made, names_in, drawn, number_leaf, text_leaf, plain_container, used_number, told_in, s_and_u, s_and_other_s, two_typedefs, doubling_module, count_of_texts, told_of_nodes};

/// A grouping of another module: its types are those of that module, its nodes belong to the one that uses it.
pub fn groupings_of_another_module()
    ensures nodes { nodes_in (compiled_texts two_typedefs) ≡ Some (node (record {
      number = 0;
      module_number = 1;
      name = codes "v";
      config = true;
      distinct_items = true;
      status = current;
      kind = leaf (own_type (codes "t")
          (unrestricted (limited_to (integer_base uint8) (within 0 9 ∷ []) None))) allowed;
    }) end end) }
    ensures diagram { drawn 1 (compiled_texts two_typedefs) ≡ codes "module: u\n  +--rw v?   t\n" }
    ensures no_diagram { drawn 0 (compiled_texts two_typedefs) ≡ codes "module: s\n" }
    ensures through_a_third { names_in (compiled_texts (module_text (codes "a")
        (codes "  grouping g { container c { leaf v { type string; } } }\n")
        ∷ module_text (codes "b")
        (codes "  import a { prefix x; }\n  grouping h { uses x:g; leaf w { type string; } }\n")
        ∷ module_text (codes "d") (codes "  import b { prefix y; }\n  uses y:h;\n") ∷ []))
        ≡ (2, codes "c") ∷ (2, codes "v") ∷ (2, codes "w") ∷ [] }
    ensures reference { kinds_in (compiled_texts (s_and_u
        (codes "  grouping g { leaf a { type uint8; } leaf r { type leafref { path /a; } } }\n")
        (codes "  uses s:g;\n")))
        ≡ number_leaf (codes "a") allowed
        ∷ (codes "r", leaf (referring (plain (integer_base uint8)).shape 0) allowed) ∷ [] }
    ensures prefixed_reference { compiled_texts (s_and_u
        (codes "  grouping g { leaf a { type uint8; }\n"
        ++ codes "    leaf r { type leafref { path /s:a; } } }\n") (codes "  uses s:g;\n"))
        ≡ told_in 0 17 6 }
    ensures key_and_unique { shown_of_two
        (module_text (codes "s") (codes "  grouping g { list l { key k; unique c/v; leaf k { type string; } container c { leaf v { type string; } } } }\n"))
        (module_text (codes "u") (codes "  import s { prefix s; }\n  uses s:g;\n"))
        (codes "{\"u:l\":[{\"k\":\"a\",\"c\":{\"v\":\"x\"}},{\"k\":\"a\",\"c\":{\"v\":\"x\"}}]}")
        ≡ found 1 (codes "V8 operation-failed - /u:l[1] -\nV9 operation-failed data-not-unique /u:l[1] 1\n"
        ++ codes "V8 operation-failed - /u:l[2] -\nV9 operation-failed data-not-unique /u:l[2] 1\n4 faults\n") }
    ensures prefixed_key { compiled_texts (s_and_u
        (codes "  grouping g {\n    list l { key s:k; leaf k { type string; } } }\n")
        (codes "  uses s:g;\n"))
        ≡ told_in 0 12 6 }
    ensures key_by_its_own_prefixes { compiled_texts (s_and_other_s
        (codes "  grouping g {\n    list l { key s:k; leaf k { type string; } } }\n"))
        ≡ told_in 0 12 6 }
    ensures path_by_its_own_prefixes { compiled_texts (s_and_other_s
        (codes "  grouping g { leaf a { type uint8; }\n"
        ++ codes "    leaf r { type leafref { path /s:a; } } }\n"))
        ≡ told_in 0 17 6 }
    ensures path_to_its_own_module { kinds_in (compiled_texts (s_and_other_s
        (codes "  leaf a { type uint8; }\n"
        ++ codes "  grouping g { leaf r { type leafref { path /s:a; } } }\n")))
        ≡ number_leaf (codes "a") allowed
        ∷ (codes "r", leaf (referring (plain (integer_base uint8)).shape 0) allowed) ∷ [] }
    ensures told_where_it_stands { compiled_texts (s_and_u
        (codes "  typedef t { type uint8; }\n  grouping g { leaf v { type t; } }\n")
        (codes "  leaf v { type string; }\n  uses s:g;\n"))
        ≡ told_in 0 13 6 }
{}

/// What a grouping brings: its nodes alone, each `uses` in it replaced; the groupings in it stay where they are.
pub fn used_groupings()
    ensures nested { names_in (compiled_lines
        (codes "  grouping g {\n    grouping h { leaf a { type string; } }\n"
        ++ codes "    container c { uses h; }\n    uses h;\n  }\n  container d { uses g; }\n"))
        ≡ (0, codes "d") ∷ (0, codes "c") ∷ (0, codes "a") ∷ (0, codes "a") ∷ [] }
    ensures in_order { names_in (compiled_lines
        (codes "  leaf a { type string; }\n  uses g;\n  leaf c { type string; }\n"
        ++ codes "  grouping g { leaf b { type string; } }\n"))
        ≡ (0, codes "a") ∷ (0, codes "b") ∷ (0, codes "c") ∷ [] }
    ensures status_and_config_of_its_own { nodes_in (compiled_lines
        (codes "  grouping g { status obsolete; leaf b { type string; } }\n"
        ++ codes "  container c { config false; uses g { status deprecated; } }\n"))
        ≡ Some (node (state_node 0 (codes "c") (container false))
        (node (state_node 1 (codes "b") (leaf (of_base (codes "string") string_base) allowed)) end
        end) end) }
    ensures typedefs { kinds_in (compiled_lines
        (codes "  grouping g {\n    typedef t { type uint8; default 3; }\n"
        ++ codes "    leaf b { type t; }\n  }\n  container c { uses g; }\n"))
        ≡ plain_container (codes "c")
        ∷ (codes "b", leaf (of_base (codes "t") (integer_base uint8)) (used_number 3)) ∷ [] }
    ensures keys { kinds_in (compiled_lines
        (codes "  grouping g { leaf k { type string; mandatory true; } }\n"
        ++ codes "  list l { key k; uses g; }\n"))
        ≡ (codes "l", list (record { keys = 1 ∷ []; uniques = [] }) any_amount)
        ∷ text_leaf (codes "k") key ∷ [] }
    ensures cases { kinds_in (compiled_lines
        (codes "  grouping g { choice c { default a; leaf a { type string; } case b { uses h; }"
        ++ (codes " } }\n" ++ codes "  grouping h { leaf b { type string; } }\n  uses g;\n")))
        ≡ (codes "c", choice (Some 1) false) ∷ (codes "a", case) ∷ text_leaf (codes "a") allowed
        ∷ (codes "b", case) ∷ text_leaf (codes "b") allowed ∷ [] }
    ensures empty { nodes_in (compiled_lines (codes "  grouping g;\n  uses g;\n")) ≡ Some end }
{}

/// What breaks a rule in a grouping is told where it stands there, once the grouping is used.
pub fn rules_of_used_groupings()
    ensures itself { compiled_lines (codes "  grouping h { uses h; }\n") ≡ told_at 9 5 }
    ensures lost { compiled_lines (codes "  container c { uses g; }\n") ≡ told_at 8 5 }
    ensures unknown_prefix { compiled_lines (codes "  uses x:g;\n") ≡ told_at 6 5 }
    ensures twice { compiled_lines
        (codes "  grouping g { leaf a { type string; } }\n\n  leaf a { type string; }\n"
        ++ codes "  uses g;\n")
        ≡ told_at 13 5 }
    ensures twice_used { compiled_lines
        (codes "  grouping g { leaf a { type string; } }\n  uses g;\n  uses g;\n")
        ≡ told_at 13 5 }
    ensures default { compiled_lines
        (codes "  grouping g {\n    leaf a { type uint8; default 256; }\n  }\n  uses g;\n")
        ≡ told_at 11 6 }
    ensures unused { names_in (compiled_lines
        (codes "  grouping g {\n    leaf a { type uint8; default 256; }\n"
        ++ codes "    leaf a { type string; }\n  }\n  leaf b { type string; }\n"))
        ≡ (0, codes "b") ∷ [] }
    ensures configuration_below_state { compiled_lines
        (codes "  grouping g {\n    leaf a { type string; config true; }\n  }\n"
        ++ codes "  container c {\n    config false;\n    uses g;\n  }\n")
        ≡ told_at 16 6 }
    ensures no_key { compiled_lines
        (codes "  grouping g { list l { leaf a { type string; } } }\n  uses g;\n")
        ≡ told_at 16 5 }
    ensures no_key_of_state { names_in (compiled_lines
        (codes "  grouping g { list l { leaf a { type string; } } }\n"
        ++ codes "  container c { config false; uses g; }\n"))
        ≡ (0, codes "c") ∷ (0, codes "l") ∷ (0, codes "a") ∷ [] }
{}

/// A refine's statements take the place of those of their kind that the node has.
pub fn refined_nodes()
    ensures default { kinds_in (compiled_lines (codes "  grouping g { leaf a { type uint8; } }\n"
        ++ codes "  uses g { refine a { default 7; } }\n"))
        ≡ number_leaf (codes "a") (used_number 7) ∷ [] }
    ensures default_replaced { kinds_in (compiled_lines
        (codes "  grouping g { leaf a { type uint8; default 8; } }\n"
        ++ codes "  uses g { refine a { default 7; } }\n"))
        ≡ number_leaf (codes "a") (used_number 7) ∷ [] }
    ensures all_defaults { kinds_in (compiled_lines
        (codes "  grouping g { leaf-list a { type uint8; default 1; default 2; } }\n"
        ++ codes "  uses g { refine a { default 7; default 8; } }\n"))
        ≡ (
          codes "a",
          leaf_list (of_base (codes "uint8") (integer_base uint8)) (number_value_of 7
              ∷ number_value_of 8 ∷ []) any_amount,
        ) ∷ [] }
    ensures amounts { kinds_in (compiled_lines
        (codes "  grouping g { leaf-list a { type uint8; min-elements 1; } }\n"
        ++ codes "  uses g { refine a { min-elements 2; max-elements 3; } }\n"))
        ≡ (
          codes "a",
          leaf_list (of_base (codes "uint8") (integer_base uint8)) []
              (record { min_elements = 2; max_elements = Some 3 }),
        )
        ∷ [] }
    ensures presence { kinds_in (compiled_lines
        (codes "  grouping g { container a; }\n  uses g { refine a { presence x; } }\n"))
        ≡ (codes "a", container true) ∷ [] }
    ensures configuration { drawn 0 (compiled_lines
        (codes "  grouping g { container a { leaf b { type string; } } leaf c { type string; } }\n"
        ++ codes "  uses g { refine a { config false; } refine c { mandatory true; } }\n"))
        ≡ codes "module: m\n  +--ro a\n  |  +--ro b?   string\n  +--rw c   string\n" }
    ensures not_mandatory { kinds_in (compiled_lines
        (codes "  grouping g { leaf a { type string; mandatory true; } }\n"
        ++ codes "  uses g { refine a { mandatory false; } }\n"))
        ≡ text_leaf (codes "a") allowed ∷ [] }
    ensures choice { kinds_in (compiled_lines
        (codes "  grouping g { choice c { default a; leaf a { type uint8; } container b; } }\n" ++
        (codes "  uses g { refine c { default b; } refine c/a/a { default 7; } refine c/b {"
        ++ codes " description x; } }\n")))
        ≡ (codes "c", choice (Some 3) false) ∷ (codes "a", case)
        ∷ number_leaf (codes "a") (used_number 7) ∷ (codes "b", case)
        ∷ plain_container (codes "b") ∷ [] }
    ensures one_use_alone { kinds_in (compiled_lines
        (codes "  grouping g { leaf a { type uint8; default 1; } }\n" ++
        (codes "  container c { uses g { refine a { default 7; } } }\n"
        ++ codes "  container d { uses g; }\n")))
        ≡ plain_container (codes "c") ∷ number_leaf (codes "a") (used_number 7)
        ∷ plain_container (codes "d") ∷ number_leaf (codes "a") (used_number 1) ∷ [] }
{}

/// Refines reach the nodes of inner groupings too; of several the outer one holds, and there the later.
pub fn nested_refines()
    ensures along_a_path { kinds_in (compiled_lines
        (codes "  grouping g { leaf a { type uint8; } }\n" ++
        (codes "  grouping h { container x { uses g; } container y { uses g; } }\n"
        ++ codes "  uses h { refine y/a { default 7; } }\n")))
        ≡ plain_container (codes "x") ∷ number_leaf (codes "a") allowed
        ∷ plain_container (codes "y") ∷ number_leaf (codes "a") (used_number 7) ∷ [] }
    ensures outer { kinds_in (compiled_lines (codes "  grouping g { leaf a { type uint8; } }\n" ++
        (codes "  grouping h { uses g { refine a { default 6; } } }\n"
        ++ codes "  uses h { refine a { default 7; } }\n")))
        ≡ number_leaf (codes "a") (used_number 7) ∷ [] }
    ensures inner { kinds_in (compiled_lines (codes "  grouping g { leaf a { type uint8; } }\n" ++
        (codes "  grouping h { uses g { refine a { default 6; } } }\n"
        ++ codes "  uses h { refine a { config false; } }\n")))
        ≡ number_leaf (codes "a") (used_number 6) ∷ [] }
    ensures later { kinds_in (compiled_lines (codes "  grouping g { leaf a { type uint8; } }\n"
        ++ codes "  uses g { refine a { default 6; } refine a { default 7; } }\n"))
        ≡ number_leaf (codes "a") (used_number 7) ∷ [] }
    ensures first_of_a_name { compiled_lines
        (codes "  grouping g { leaf a { type uint8; }\n    leaf a { type string; } }\n"
        ++ codes "  uses g { refine a { default 300; } }\n")
        ≡ told_at 13 6 }
    ensures of_the_user { kinds_in (compiled_texts (s_and_u
        (codes "  grouping g { leaf a { type uint8; } }\n")
        (codes "  uses s:g { refine u:a { default 7; } }\n")))
        ≡ number_leaf (codes "a") (used_number 7) ∷ [] }
    ensures of_whoever_uses_it { kinds_in (compiled_texts (s_and_u
        (codes "  grouping g { leaf a { type uint8; } }\n"
        ++ codes "  grouping h { uses g { refine a { default 7; } } }\n") (codes "  uses s:h;\n")))
        ≡ number_leaf (codes "a") (used_number 7) ∷ [] }
    ensures of_the_grouping { compiled_texts (s_and_u
        (codes "  grouping g { leaf a { type uint8; } }\n  grouping h {\n"
        ++ codes "    uses g { refine s:a { default 7; } } }\n  uses h;\n")
        (codes "  uses s:h;\n"))
        ≡ told_in 0 14 7 }
    ensures by_its_own_prefixes { compiled_texts (s_and_other_s
        (codes "  grouping h { leaf a { type uint8; } }\n"
        ++ codes "  grouping g { uses h { refine s:a { default 7; } } }\n"))
        ≡ told_in 0 14 6 }
{}

/// Refines without a target, or with one that may not bear what they give.
pub fn unfit_refines()
    ensures no_target { compiled_lines (codes "  grouping g { leaf a { type uint8; } }\n"
        ++ codes "  uses g { refine b { default 7; } }\n")
        ≡ told_at 14 6 }
    ensures no_way { compiled_lines (codes "  grouping g { leaf a { type uint8; } }\n"
        ++ codes "  uses g { refine a/b { default 7; } }\n")
        ≡ told_at 14 6 }
    ensures not_in_the_grouping { compiled_lines
        (codes "  grouping g { leaf a { type uint8; } }\n  leaf b { type uint8; }\n"
        ++ codes "  uses g {\n    refine b { default 7; } }\n")
        ≡ told_at 14 8 }
    ensures presence_of_a_leaf { compiled_lines
        (codes "  grouping g { leaf a { type uint8; } }\n  uses g {\n"
        ++ codes "    refine a { default 7; }\n    refine a { presence x; } }\n")
        ≡ told_at 14 8 }
    ensures default_of_a_container { compiled_lines
        (codes "  grouping g { container a; }\n  uses g { refine a { default 7; } }\n")
        ≡ told_at 14 6 }
    ensures amount_of_a_leaf { compiled_lines (codes "  grouping g { leaf a { type uint8; } }\n"
        ++ codes "  uses g { refine a { min-elements 0; } }\n")
        ≡ told_at 14 6 }
    ensures mandatory_list { compiled_lines (codes "  grouping g { list a { config false; } }\n"
        ++ codes "  uses g { refine a { mandatory true; } }\n")
        ≡ told_at 14 6 }
    ensures two_defaults { compiled_lines (codes "  grouping g { leaf a { type uint8; } }\n"
        ++ codes "  uses g { refine a { default 7; default 8; } }\n")
        ≡ told_at 14 6 }
    ensures two_default_cases { compiled_lines
        (codes "  grouping g { choice c { container a; } }\n"
        ++ codes "  uses g { refine c { default a; default a; } }\n")
        ≡ told_at 14 6 }
    ensures an_implied_case { compiled_lines
        (codes "  grouping g { choice c { leaf a { type uint8; } } }\n"
        ++ codes "  uses g { refine c/a { config false; } }\n")
        ≡ told_at 14 6 }
    ensures no_case { compiled_lines
        (codes "  grouping g { choice c { leaf a { type uint8; } } }\n"
        ++ codes "  uses g { refine c/b/a { default 7; } }\n")
        ≡ told_at 14 6 }
    ensures nothing_changed { kinds_made
        (codes "  grouping g { leaf a { type uint8; default 1; } }\n"
        ++ codes "  uses g { refine a { default 7; presence x; } }\n")
        ≡ number_leaf (codes "a") (used_number 1) ∷ [] }
    ensures in_a_grouping { compiled_lines
        (codes "  grouping g { leaf a { type uint8; } }\n  grouping h {\n"
        ++ codes "    container c { uses g { refine b { default 7; } } } }\n  uses h;\n")
        ≡ told_at 14 7 }
    ensures without_nodes { compiled_lines
        (codes "  grouping g;\n  grouping h {\n    uses g { refine b { default 7; } } }\n"
        ++ codes "  uses h;\n")
        ≡ told_at 14 7 }
    ensures unused { names_in (compiled_lines (codes "  grouping g { leaf a { type uint8; } }\n"
        ++ (codes "  grouping h { uses g { refine b { default 7; } } }\n"
        ++ codes "  leaf c { type string; }\n")))
        ≡ (0, codes "c") ∷ [] }
    ensures before_names { compiled_lines
        (codes "  grouping g { leaf a { type uint8; }\n  leaf a { type uint8; } }\n"
        ++ codes "  uses g { refine b { default 7; } }\n")
        ≡ told_at 14 7 }
    ensures unknown_prefix { compiled_lines (codes "  grouping g { leaf a { type uint8; } }\n"
        ++ codes "  grouping h { uses g { refine x:a; } }\n")
        ≡ told_at 6 6 }
{}

/// Nodes are counted without expanding, before refines are judged; groupings that nobody uses count nothing.
pub fn counted_nodes()
    ensures doubled { count_of_texts (doubling_module 40 ∷ []) ≡ 3298534883326 }
    ensures before_refines { (s : Statement) (below : Forest Statement) (plan : Plan)
        → nat_lt node_limit (node_count plan.modules) ≡ true
        → first_broken (phases_of_plan (node s below end) plan)
        ≡ Some (record { code = 18; module_number = 0; line = s.line }) }
    ensures limit_of_forty { told_of_nodes (doubling_module 40 ∷ [])
        ≡ Some (record { code = 18; module_number = 0; line = 1 }) }
    ensures limit { compiled_texts (doubling_module 17 ∷ []) ≡ told_in 0 18 1 }
    ensures made { count_of_texts (doubling_module 3 ∷ []) ≡ 22 }
    ensures implied_cases { count_of_texts (module_text (codes "m")
        (codes "  grouping g { choice c { leaf a { type string; } case b { container b; } } }\n"
        ++ (codes "  grouping h { leaf x { type string; } }\n  container d { uses g; }\n"
        ++ codes "  uses g;\n")) ∷ [])
        ≡ 11 }
{}
