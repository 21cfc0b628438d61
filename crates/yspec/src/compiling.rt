//! Laws of modules that are compiled, and of their schemas.

ghost use Rattle.std.specs.Prelude.{◌≡◌, ◌≤◌, ◌↔◌, List, [], false, Ok, Some, None};
ghost use Rattle.std.specs.List.{All, Contains};
ghost use Rattle.std.specs.Cmp.Lexicographic.{slice_cmp};
ghost use Rattle.std.specs.Ordering.{is_gt, nat_cmp};
ghost use Rattle.yspec.specs.Forest.{Forest, levels, size};
ghost use Rattle.yspec.specs.text.Text.{Text};
ghost use Rattle.yspec.specs.text.Statement.{Statement};
ghost use Rattle.yspec.specs.schema.Schema.{Schema};
ghost use Rattle.yspec.specs.schema.Breaks.{level_limit, node_limit};
ghost use Rattle.yspec.specs.document.Fitting.{IsNumbered, LeafsAreBare};
ghost use Rattle.yspec.specs.document.Writing.{NamesDiffer};
ghost use Rattle.yspec.specs.linking.Imports.{newest_from};
ghost use Rattle.yspec.specs.linking.Compiling.{compiled};

/// The nodes of a schema of linked modules are numbered in preorder, its leafs and leaf-lists have no children, no two
/// siblings are written with one name, and its nodes and levels are within the limits.
pub fn linked_schemas()
    ensures numbered { (modules : Forest Statement) (schema : Schema) → compiled modules ≡ Ok schema
        → IsNumbered 0 schema.nodes }
    ensures bare { (modules : Forest Statement) (schema : Schema) → compiled modules ≡ Ok schema
        → LeafsAreBare schema.nodes }
    ensures names { (modules : Forest Statement) (schema : Schema) → compiled modules ≡ Ok schema
        → NamesDiffer schema }
    ensures within { (modules : Forest Statement) (schema : Schema) → compiled modules ≡ Ok schema
        → levels schema.nodes ≤ level_limit }
    ensures few { (modules : Forest Statement) (schema : Schema) → compiled modules ≡ Ok schema
        → size schema.nodes ≤ node_limit }
{}

/// The newest of some dates is one of them, none of them is later, and only of no dates there is none.
pub fn newest_dates()
    ensures one { (dates : List Text) (date : Text) → newest_from None dates ≡ Some date
        → Contains dates date }
    ensures latest { (dates : List Text) (date : Text) → newest_from None dates ≡ Some date
        → All (λ other. is_gt (slice_cmp nat_cmp other date) ≡ false) dates }
    ensures none { (dates : List Text) → (newest_from None dates ≡ None) ↔ (dates ≡ []) }
{}
