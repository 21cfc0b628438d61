//! Worked examples of compiling: the schemas of modules' texts, and each refusal.

ghost use Rattle.std.specs.Prelude.{◌≡◌, [], ◌∷◌, codes, true, false, Some, None, Ok};
ghost use Rattle.yspec.specs.Forest.{end, node};
ghost use Rattle.yspec_examples.specs.SchemaExamples.{net_schema, k_schema, v_schema, y_schema, t_schema, node_of, state_node, of_base, any_amount, number_value_of};
ghost use Rattle.yspec.specs.schema.Schema.{leaf, leaf_list, list, choice, case, allowed, default_used, mandatory, key};
ghost use Rattle.yspec.specs.types.Types.{integer_base, string_base, uint8};
ghost use Rattle.yspec_examples.specs.CompilingSamples.{compiled_texts, compiled_lines, told_at, nodes_in, net_module, k_module, v_module, y_module, t_module};

/// Schemas that are written out as values elsewhere are those of modules' texts.
pub fn schemas_of_texts()
    ensures net { compiled_texts (net_module ∷ []) ≡ Ok net_schema }
    ensures default_case { compiled_texts (k_module ∷ []) ≡ Ok k_schema }
    ensures unique_through_a_container { compiled_texts (v_module ∷ []) ≡ Ok v_schema }
    ensures members { compiled_texts (y_module ∷ []) ≡ Ok y_schema }
    ensures digits { compiled_texts (t_module ∷ []) ≡ Ok t_schema }
{}

/// A single node in a choice stands for a case; a hexadecimal default; a state list without a key.
pub fn nodes_of_lines()
    ensures implied_case { nodes_in
        (compiled_lines (codes "  choice c { leaf a { type string; } }\n"))
        ≡ Some (node (node_of 0 (codes "c") (choice None false)) (node (node_of 1 (codes "a") case)
        (node (node_of 2 (codes "a") (leaf (of_base (codes "string") string_base) allowed)) end end)
        end) end) }
    ensures hexadecimal { nodes_in
        (compiled_lines (codes "  leaf a { type uint8; default 0x1F; }\n"))
        ≡ Some (node (node_of 0 (codes "a") (leaf (of_base (codes "uint8") (integer_base uint8))
        (default_used (number_value_of 31)))) end end) }
    ensures state_list { nodes_in
        (compiled_lines (codes "  list l { config false; leaf a { type string; } }\n"))
        ≡ Some (node (state_node 0 (codes "l")
        (list (record { keys = []; uniques = [] }) any_amount))
        (node (state_node 1 (codes "a") (leaf (of_base (codes "string") string_base) allowed)) end
        end) end) }
    ensures nothing { compiled_texts [] ≡ Ok (record { modules = []; nodes = end }) }
{}

/// Prefixes that name nothing, modules of one name, and types that aren't found.
pub fn refused_names()
    ensures prefix { compiled_lines (codes "  leaf a { type x:t; }\n") ≡ told_at 6 5 }
    ensures prefix_in_a_path { compiled_lines (codes "  leaf a {\n    type leafref {\n      path /x:b;\n    }\n  }\n") ≡ told_at 6 7 }
    ensures type_name { compiled_lines (codes "  leaf a { type t; }\n") ≡ told_at 8 5 }
    ensures own_prefix { compiled_lines (codes "  leaf a { type m:uint8; }\n") ≡ told_at 8 5 }
    ensures before_types { compiled_lines (codes "  leaf a { type uint8 { range 5..1; } }\n  leaf b { type t; }\n") ≡ told_at 8 6 }
    ensures twice { compiled_lines (codes "  leaf b { type string; }\n  leaf b { type string; }\n")
        ≡ told_at 13 6 }
    ensures through_a_choice { compiled_lines (codes "  leaf b { type string; }\n  choice c {\n    leaf b { type string; }\n  }\n") ≡ told_at 13 7 }
    ensures cases { compiled_lines (codes "  choice c {\n    leaf b { type string; }\n    case b;\n  }\n") ≡ told_at 13 7 }
{}

/// Types that break a rule of their own.
pub fn refused_types()
    ensures descending { compiled_lines (codes "  leaf a { type uint8 { range 5..1; } }\n  leaf b { type string; }\n  leaf b { type string; }\n") ≡ told_at 10 5 }
    ensures out_of_place { compiled_lines (codes "  leaf a { type boolean { length 1; } }\n")
        ≡ told_at 10 5 }
    ensures no_digits { compiled_lines (codes "  leaf a { type decimal64; }\n") ≡ told_at 10 5 }
    ensures no_enum { compiled_lines (codes "  leaf a { type enumeration; }\n") ≡ told_at 10 5 }
    ensures no_path { compiled_lines (codes "  leaf a { type leafref; }\n") ≡ told_at 10 5 }
    ensures no_member { compiled_lines (codes "  leaf a { type union; }\n") ≡ told_at 10 5 }
    ensures member { compiled_lines (codes "  leaf a { type union {\n    type string;\n    type uint8 { range 256; } } }\n") ≡ told_at 10 7 }
    ensures member_leafref { compiled_lines (codes "  leaf a { type union {\n    type leafref { path /m:a; } } }\n") ≡ told_at 10 6 }
{}

/// Nodes that break a rule: defaults, keys, uniques, configuration, references.
pub fn refused_nodes()
    ensures too_great_a_default { compiled_lines (codes "  leaf a { type uint8; default 256; }\n")
        ≡ told_at 11 5 }
    ensures mandatory_default { compiled_lines
        (codes "  leaf a { type uint8; default 1; mandatory true; }\n") ≡ told_at 11 5 }
    ensures equal_defaults { compiled_lines
        (codes "  leaf-list a { type uint8; default 1; default 0x1; }\n") ≡ told_at 11 5 }
    ensures no_case { compiled_lines (codes "  choice c { default b; leaf a { type string; } }\n")
        ≡ told_at 11 5 }
    ensures mandatory_in_default_case { compiled_lines (codes "  choice c { default a; leaf a { type string; mandatory true; } }\n") ≡ told_at 11 5 }
    ensures no_key_leaf { compiled_lines (codes "  list l { key b; leaf a { type string; } }\n")
        ≡ told_at 12 5 }
    ensures key_twice { compiled_lines
        (codes "  list l { key \"a m:a\"; leaf a { type string; } }\n") ≡ told_at 12 5 }
    ensures container_key { compiled_lines (codes "  list l { key a; container a; }\n")
        ≡ told_at 12 5 }
    ensures mixed_unique { compiled_lines
        (codes "  list l { key a; unique \"a b\"; leaf a { type string; } leaf b { type string; config false; } }\n") ≡ told_at 12 5 }
    ensures unique_through_a_list { compiled_lines (codes
        "  list l { key a; unique \"k/a\"; leaf a { type string; } list k { key a; leaf a { type string; } } }\n") ≡ told_at 12 5 }
    ensures no_key { compiled_lines (codes "  list l { leaf a { type string; } }\n")
        ≡ told_at 16 5 }
    ensures below_state { compiled_lines (codes "  container c { config false;\n    leaf a { type string; config true; } }\n") ≡ told_at 16 6 }
    ensures nowhere { compiled_lines (codes "  leaf a { type leafref { path /m:b; } }\n")
        ≡ told_at 17 5 }
    ensures to_a_container { compiled_lines
        (codes "  leaf a { type leafref { path /m:b; } }\n  container b;\n") ≡ told_at 17 5 }
    ensures to_itself { compiled_lines (codes "  leaf a { type leafref { path /m:a; } }\n")
        ≡ told_at 17 5 }
    ensures to_state { compiled_lines (codes "  leaf a { type leafref { path /m:b; } }\n  leaf b { type string; config false; }\n") ≡ told_at 17 5 }
    ensures least_line { compiled_lines (codes "  leaf a { type leafref { path /m:b; } }\n  leaf c { type uint8; default x; }\n") ≡ told_at 17 5 }
{}

/// Leafs whose types are typedefs: their defaults, keys and references are judged at the leaf.
pub fn derived_leafs()
    ensures default_refused { compiled_lines
        (codes "  typedef t { type uint8; default 30; }\n  leaf a { type t { range 0..20; } }\n")
        ≡ told_at 11 6 }
    ensures own_default_first { compiled_lines (codes "  typedef t { type uint8; default 30; }\n  leaf a { type t { range 0..20; } default 21; }\n  leaf b { type t { range 0..20; } default 20; }\n") ≡ told_at 11 6 }
    ensures no_default_beside_mandatory { compiled_lines (codes "  typedef t { type uint8; default 300; }\n  leaf a { type t; mandatory true; }\n  leaf-list b { type t; min-elements 1; }\n  leaf c { type t; }\n") ≡ told_at 11 8 }
    ensures of_a_leaf_list { compiled_lines
        (codes "  typedef t { type uint8; default 300; }\n  leaf-list a { type t; }\n") ≡ told_at 11 6 }
    ensures unused_default { compiled_lines (codes "  typedef t { type uint8; default 300; }\n  leaf a { type leafref { path /m:b; } }\n") ≡ told_at 17 6 }
    ensures lost_in_a_grouping { compiled_lines
        (codes "  grouping g { typedef t { type u; } }\n") ≡ told_at 8 5 }
    ensures circular { compiled_lines (codes "  typedef a { type b; }\n  typedef b { type a; }\n")
        ≡ told_at 9 5 }
    ensures no_default_of_items_that_are_due { nodes_in (compiled_lines
        (codes "  typedef t { type uint8; default 3; }\n  leaf-list a { type t; min-elements 1; }\n"))
        ≡ Some (node (node_of 0 (codes "a") (leaf_list (of_base (codes "t") (integer_base uint8)) []
        (record { min_elements = 1; max_elements = None }))) end end) }
    ensures default_of_items { nodes_in (compiled_lines
        (codes "  typedef t { type uint8; default 3; }\n  leaf-list a { type t; }\n"))
        ≡ Some (node (node_of 0 (codes "a") (leaf_list (of_base (codes "t") (integer_base uint8))
        (number_value_of 3 ∷ []) any_amount)) end end) }
    ensures reference_at_the_leaf { compiled_lines
        (codes "  typedef t { type leafref { path /m:b; } }\n  leaf a { type t; }\n") ≡ told_at 17 6 }
{}
