//! What a name of a type or a grouping means.

ghost use Rattle.std.specs.Prelude.{◌≡◌, List, [], true};
ghost use Rattle.std.specs.List.{Contains};
ghost use Rattle.yspec.specs.Forest.{Forest};
ghost use Rattle.yspec.specs.text.Text.{Text};
ghost use Rattle.yspec.specs.linking.Keyword.{Keyword};
ghost use Rattle.yspec.specs.linking.Source.{Source};
ghost use Rattle.yspec.specs.linking.Scopes.{Placed, around, defines, is_definition, statements_of, taken_breaks};

/// Where no name is taken, two typedefs, or two groupings, of one name that stand around a statement are one: so it doesn't
/// matter in which order they are looked for.
pub fn one_meaning()
    ensures { (modules : Forest Source) (kind : Keyword) (name : Text) (p : Placed) (a b : Source)
        → taken_breaks modules ≡ [] → Contains (statements_of modules) p
        → Contains (around p.ancestors) a → Contains (around p.ancestors) b
        → defines kind name a ≡ true → defines kind name b ≡ true → is_definition a ≡ true
        → a.number ≡ b.number }
{}
