//! Which typedef, grouping or identity each `type`, `uses` and `base` statement names (RFC 7950, 5.5, 6.2.1, 6.4.1, 7.13 and
//! 7.18.2).

ghost use Rattle.std.specs.Prelude.{◌≡◌, ◌++◌, List, IfOk, OnOk, map};
ghost use Rattle.yspec.specs.Forest.{Forest};
ghost use Rattle.yspec.specs.linking.Source as sources;
ghost use Rattle.yspec.specs.linking.Scopes as spec;
ghost use Rattle.ybase_preorder.specs.View.{row_by};
ghost use Rattle.ylink_grammar.specs.LinkView.{view};
ghost use Rattle.ylink_grammar.specs.SourceView.{source_view};
ghost use Rattle.ylink_names.specs.PrefixView.{IsOf};
ghost use Rattle.ylink_names.specs.DefinitionView.{IsAround};
ghost use Rattle.ylink_names.specs.MeaningView.{number_meant, AreMeanings, AreModules, AreTopsOf};

use crate::definitions::{DefinitionKind, Definitions, Scope, has_any_definition, nothing_of};
use crate::prefix::Prefixes;
use crate::taken::is_built_in;
use std::alloc::{AllocError, Global};
use ybase_preorder::Siblings;
use ybase_words::Keyword;
use ylink_arguments::{Name, name_of};
use ylink_grammar::{Source, Sources};

/// The modules of a set, as prefixes name them, with the definitions at their tops.
#[derive(Drop)]
struct NamedModules<'a, 't> {
    prefixes: &'a Prefixes<'t>,
    tops: Vec<Definitions<'t>>,
}

/// The definitions at the top of each module of a set.
fn tops_of<'t>(alloc: Global, sources: &Sources<'t>) -> Result<Vec<Definitions<'t>>, AllocError>
    ensures { IfOk result (λ tops. AreTopsOf tops.items (view sources.now)) }
{
    let mut tops = Vec::new(alloc);
    for module in sources.modules() {
        tops.push(Definitions::of(alloc, module.children())?)?;
    }
    Ok(tops)
}

impl<'a, 't> NamedModules<'a, 't> {
    ghost use Rattle.std.specs.Prelude.{◌≡◌, ℕ};
    ghost use Rattle.yspec.specs.Forest.{Forest};
    ghost use Rattle.yspec.specs.linking.Scopes as spec;
    ghost use Rattle.yspec.specs.linking.Source as sources;
    ghost use Rattle.ylink_arguments.specs.NameView.{name_view};
    ghost use Rattle.ylink_grammar.specs.SourceView.{source_view};
    ghost use Rattle.ylink_names.specs.DefinitionView.{kind_word, IsAround};
    ghost use Rattle.ylink_names.specs.MeaningView.{named_in, numbered, number_meant, top_in, AreModules};
    ghost use Rattle.ylink_names.specs.ScopeView.{placed_at};

    /// The definition of a kind and name at the top of a module.
    fn top(&self, module: usize, kind: DefinitionKind, name: &str) -> Option<u32>
        ensures { result ≡ top_in self.now.tops.items «module» kind name.now }
    {
        match self.tops.get(module) {
            Some(definitions) => definitions.first(kind, name),
            None => None,
        }
    }

    /// The definition of a kind and name in a module, as a scope in the module of a number sees it.
    fn defined_in(
        &self,
        scope: &Scope<'_, '_>,
        home: usize,
        module: usize,
        kind: DefinitionKind,
        name: &str,
    ) -> Option<u32>
        ensures { (modules : Forest sources.Source) (p : spec.Placed) → AreModules self.now modules
            → IsAround scope.now p.ancestors → home ≡ p.source.home
            → result ≡ numbered (spec.defined_in modules (kind_word kind) name.now p «module») }
    {
        if module == home {
            scope.innermost(kind, name)
        } else {
            self.top(module, kind, name)
        }
    }

    /// The definition of a kind that a name means.
    fn definition_named(
        &self,
        scope: &Scope<'_, '_>,
        home: usize,
        kind: DefinitionKind,
        name: &Name<'_>,
    ) -> Option<u32>
        ensures { (modules : Forest sources.Source) (p : spec.Placed) → AreModules self.now modules
            → IsAround scope.now p.ancestors → home ≡ p.source.home
            → result ≡ numbered (spec.definition_named modules (kind_word kind) p
            (name_view name.now)) }
    {
        let module = match name.prefix {
            Some(prefix) => self.prefixes.module_meant(home, prefix)?,
            None => home,
        };
        self.defined_in(scope, home, module, kind, name.identifier)
    }

    /// The definition of a kind that the argument of a statement names.
    fn definition_of(
        &self,
        scope: &Scope<'_, '_>,
        kind: DefinitionKind,
        statement: &Source<'_>,
    ) -> Option<u32>
        ensures { (modules : Forest sources.Source) (number : ℕ) (below : _) (ancestors : _)
            → AreModules self.now modules → IsAround scope.now ancestors
            → result ≡ named_in modules (kind_word kind)
            (placed_at (source_view number statement.now) below ancestors) }
    {
        match name_of(statement.argument()) {
            Some(name) => self.definition_named(scope, statement.home, kind, &name),
            None => None,
        }
    }

    /// The definition that a statement of a scope names.
    fn meaning(&self, scope: &Scope<'_, '_>, statement: &Source<'_>) -> Option<u32>
        ensures { (modules : Forest sources.Source) (number : ℕ) (below : _) (ancestors : _)
            → AreModules self.now modules → IsAround scope.now ancestors
            → result ≡ number_meant modules
            (placed_at (source_view number statement.now) below ancestors) }
    {
        match statement.keyword {
            Keyword::Type => {
                if is_built_in(statement) {
                    None
                } else {
                    self.definition_of(scope, DefinitionKind::Typedef, statement)
                }
            }
            Keyword::Uses => self.definition_of(scope, DefinitionKind::Grouping, statement),
            Keyword::Base => self.definition_of(scope, DefinitionKind::Identity, statement),
            _ => None,
        }
    }
}

/// Adds what the statements of a row, and those below it, name.
fn add_meanings<'t>(
    alloc: Global,
    modules: &NamedModules<'_, 't>,
    scope: &Scope<'_, 't>,
    statements: Siblings<'_, Source<'t>>,
    made: &mut Vec<Option<u32>>,
) -> Result<(), AllocError>
    ensures { (set : Forest sources.Source) (ancestors : List _) → AreModules modules.now set
        → IsAround scope.now ancestors → OnOk result (made.new.items ≡ made.old.items
        ++ map (number_meant set) (spec.placed ancestors (row_by source_view statements.entry))) }
{
    for statement in statements {
        made.push(modules.meaning(scope, statement.label()))?;
        let row = Definitions::within(alloc, statement.children())?;
        let inner = (&*scope).inside(&row);
        add_meanings(alloc, modules, &inner, statement.children(), made)?;
    }
    Ok(())
}

/// Of each statement of a set, by its number, that of the typedef, grouping or identity that it names; none for a built-in
/// type, and where a name means nothing.
pub fn meanings_of<'t>(
    alloc: Global,
    sources: &Sources<'t>,
    prefixes: &Prefixes<'t>,
) -> Result<Vec<Option<u32>>, AllocError>
    ensures { IsOf prefixes.now (view sources.now)
        → IfOk result (λ made. AreMeanings made.items (view sources.now)) }
{
    if !has_any_definition(sources) {
        return nothing_of(alloc, sources);
    }
    let tops = tops_of(alloc, sources)?;
    let modules = NamedModules { prefixes, tops };
    let mut made = Vec::new(alloc);
    add_meanings(alloc, &modules, &Scope::Top, sources.modules(), &mut made)?;
    Ok(made)
}
