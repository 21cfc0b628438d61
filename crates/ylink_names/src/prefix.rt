//! What prefixes and prefixed names mean (RFC 7950, 5.1.3 and 6.4), and where one means nothing.

ghost use Rattle.std.specs.Prelude.{◌≡◌, ◌++◌, ℕ, IfOk, OnOk, [], None, map, option_map, unwrap_or};
ghost use Rattle.std.specs.List.{list_any};
ghost use Rattle.yspec.specs.Forest.{Forest, first_of};
ghost use Rattle.yspec.specs.linking.Prefixes as spec;
ghost use Rattle.yspec.specs.linking.Imports.{repeated_prefixes};
ghost use Rattle.yspec.specs.linking.Keyword.{type_word, uses_word};
ghost use Rattle.yspec.specs.linking.Source as sources;
ghost use Rattle.ybase_preorder.specs.View.{row_by, label_by};
ghost use Rattle.yspec.specs.schema.Breaks.{least_from};
ghost use Rattle.ylink_grammar.specs.BreakView.{seen};
ghost use Rattle.ybase_words.specs.KeywordView.{keyword_view};
ghost use Rattle.ylink_grammar.specs.LinkView.{view};
ghost use Rattle.ytext.specs.View as text;
ghost use Rattle.ylink_arguments.specs.NameView.{name_view, names_view};
ghost use Rattle.ylink_grammar.specs.NamedType.{argument_text};
ghost use Rattle.ylink_names.specs.FirstNamedView.{named};
ghost use Rattle.ylink_names.specs.PrefixView.{AreModulesOf, IsOf, declared_by, imported_by};
ghost use Rattle.ylink_grammar.specs.SourceView.{source_view};

use crate::first_named::FirstNamed;
use crate::repeated::repeated_prefix;
use std::alloc::{AllocError, Global};
use ybase_preorder::{Node, Siblings};
use ybase_words::Keyword;
use ylink_arguments::{
    Name, absolute_path, key_names, leafref_path, name_of, relative_path, unique_paths,
};
use ylink_grammar::{
    BrokenRule, CompileCode, Source, Sources, argument_of, argument_with, broken, least,
};

/// What the prefixes of each module stand for, by its number in the set: the number of a module, where the set has it.
#[derive(Drop)]
pub struct Prefixes<'t> {
    declared: Vec<FirstNamed<'t, Option<usize>>>,
}

/// The name of a schema node: the number of its module, where the prefix names one, and its identifier.
#[derive(Clone, Copy, Debug)]
pub struct NodeName<'t> {
    pub module: Option<usize>,
    pub name: &'t str,
}

/// The numbers of a set's modules, by their names.
pub fn modules_by_name<'t>(
    alloc: Global,
    sources: &Sources<'t>,
) -> Result<FirstNamed<'t, usize>, AllocError>
    ensures { IfOk result (λ places. AreModulesOf places (view sources.now)) }
{
    let mut places = FirstNamed::new(alloc);
    for top in sources.modules() {
        places.add(argument_of(top), top.label().home)?;
    }
    Ok(places)
}

/// Adds the prefix of an import, where a statement is one, behind those so far.
fn add_import<'t>(
    declared: &mut FirstNamed<'t, Option<usize>>,
    places: &FirstNamed<'t, usize>,
    statement: Node<'_, Source<'t>>,
) -> Result<(), AllocError>
    ensures { OnOk result ((modules : Forest sources.Source) → AreModulesOf places.now modules
        → (prefix : _) → named declared.new prefix ≡ first_of (named declared.old prefix)
        (imported_by modules prefix (label_by source_view statement.entry)
        (row_by source_view statement.entry.children))) }
{
    if !Keyword::Import.is(statement.label().keyword) {
        return Ok(());
    }
    match argument_with(Keyword::Prefix, statement.children()) {
        Some(prefix) => declared.add(prefix, places.get(argument_of(statement))),
        None => Ok(()),
    }
}

/// What prefixes stand for in a module, which has a number in the set.
fn prefixes_of<'t>(
    alloc: Global,
    places: &FirstNamed<'t, usize>,
    home: usize,
    body: Siblings<'_, Source<'t>>,
) -> Result<FirstNamed<'t, Option<usize>>, AllocError>
    ensures { IfOk result (λ declared. (modules : Forest sources.Source)
        → AreModulesOf places.now modules → (prefix : _) → named declared prefix
        ≡ declared_by modules home prefix (row_by source_view body.entry)) }
{
    let mut declared = FirstNamed::new(alloc);
    if let Some(prefix) = argument_with(Keyword::Prefix, body) {
        declared.add(prefix, Some(home))?;
    }
    for statement in body {
        add_import(&mut declared, places, statement)?;
    }
    Ok(declared)
}

impl<'t> Prefixes<'t> {
    ghost use Rattle.std.specs.Prelude.{◌≡◌, IfOk};
    ghost use Rattle.yspec.specs.Forest.{Forest};
    ghost use Rattle.yspec.specs.linking.Source as sources;
    ghost use Rattle.yspec.specs.linking.Imports as imports;
    ghost use Rattle.yspec.specs.linking.Prefixes as spec;
    ghost use Rattle.ylink_grammar.specs.LinkView.{view};
    ghost use Rattle.ylink_arguments.specs.NameView.{name_view};
    ghost use Rattle.ylink_names.specs.PrefixView.{IsOf, declared_in, node_name_view};

    /// The prefixes of a set's modules.
    pub fn of(alloc: Global, sources: &Sources<'t>) -> Result<Prefixes<'t>, AllocError>
        ensures { IfOk result (λ prefixes. IsOf prefixes (view sources.now)) }
    {
        let places = modules_by_name(alloc, sources)?;
        let mut declared = Vec::new(alloc);
        for top in sources.modules() {
            let home = declared.len();
            declared.push(prefixes_of(alloc, &places, home, top.children())?)?;
        }
        Ok(Prefixes { declared })
    }

    /// What a module declares a prefix to stand for.
    fn declared(&self, home: usize, prefix: &str) -> Option<Option<usize>>
        ensures { result ≡ declared_in self.now home prefix.now }
    {
        self.declared.get(home)?.get(prefix)
    }

    /// The number of the module that a prefix names in a module.
    pub fn module_meant(&self, home: usize, prefix: &str) -> Option<usize>
        ensures { (modules : Forest sources.Source) → IsOf self.now modules → result
            ≡ imports.module_meant modules home prefix.now }
    {
        self.declared(home, prefix)?
    }

    /// What a name names that stands in a module; one without a prefix is of a module that is given.
    pub fn node_name<'a>(&self, home: usize, plain: usize, name: Name<'a>) -> NodeName<'a>
        ensures { (modules : Forest sources.Source) → IsOf self.now modules
            → node_name_view result ≡ spec.node_name modules home plain (name_view name.entry) }
    {
        let module = match name.prefix {
            Some(prefix) => self.module_meant(home, prefix),
            None => Some(plain),
        };
        NodeName {
            module,
            name: name.identifier,
        }
    }

    /// Whether a name has a prefix that the module of a number doesn't declare.
    pub fn is_unknown(&self, home: usize, name: &Name<'_>) -> bool
        ensures { (modules : Forest sources.Source) → IsOf self.now modules
            → result ≡ spec.is_unknown_prefix modules home (name_view name.now) }
    {
        match name.prefix {
            Some(prefix) => self.declared(home, prefix).is_none(),
            None => false,
        }
    }
}

fn has_unknown(prefixes: &Prefixes<'_>, home: usize, names: &[Name<'_>]) -> bool
    ensures { (modules : Forest sources.Source) → IsOf prefixes.now modules
        → result ≡ list_any (spec.is_unknown_prefix modules home) (names_view names.now) }
{
    for name in names {
        if prefixes.is_unknown(home, name) {
            return true;
        }
    }
    false
}

fn has_unknown_step(prefixes: &Prefixes<'_>, home: usize, paths: &[Vec<Name<'_>>]) -> bool
    ensures { (modules : Forest sources.Source) → IsOf prefixes.now modules
        → result ≡ list_any (list_any (spec.is_unknown_prefix modules home))
        (map (λ p. names_view p.items) paths.now) }
{
    for path in paths {
        if has_unknown(prefixes, home, path) {
            return true;
        }
    }
    false
}

/// Whether one of these names has an unknown prefix, where there are any.
fn has_unknown_among(prefixes: &Prefixes<'_>, home: usize, names: Option<Vec<Name<'_>>>) -> bool
    ensures { (modules : Forest sources.Source) → IsOf prefixes.now modules
        → result ≡ list_any (spec.is_unknown_prefix modules home)
        (unwrap_or (option_map (λ n. names_view n.items) names.entry) []) }
{
    match names {
        Some(names) => has_unknown(prefixes, home, &names),
        None => false,
    }
}

/// Whether the argument of a statement, as a name, has a prefix that names nothing.
fn is_unknown_name(prefixes: &Prefixes<'_>, source: &Source<'_>) -> bool
    ensures { (modules : Forest sources.Source) → IsOf prefixes.now modules
        → result ≡ list_any (spec.is_unknown_prefix modules source.now.home)
        (spec.names_given uses_word (argument_text (text.view source.now.statement.now).0)) }
{
    match name_of(source.argument()) {
        Some(name) => prefixes.is_unknown(source.home, &name),
        None => false,
    }
}

/// Whether the argument of a statement, as the name of a type, has a prefix that names nothing. A built-in type has none.
fn is_unknown_type(prefixes: &Prefixes<'_>, source: &Source<'_>) -> bool
    ensures { (modules : Forest sources.Source) → IsOf prefixes.now modules
        → result ≡ list_any (spec.is_unknown_prefix modules source.now.home)
        (spec.names_given type_word (argument_text (text.view source.now.statement.now).0)) }
{
    if source.built_in().is_some() {
        return false;
    }
    is_unknown_name(prefixes, source)
}

/// Whether a name in the argument of a statement has a prefix that names nothing.
fn has_unknown_prefix(
    alloc: Global,
    prefixes: &Prefixes<'_>,
    source: &Source<'_>,
) -> Result<bool, AllocError>
    ensures { IfOk result (λ b. (modules : Forest sources.Source) → IsOf prefixes.now modules
        → b ≡ list_any (spec.is_unknown_prefix modules source.now.home)
        (spec.names_given (keyword_view source.now.keyword)
        (argument_text (text.view source.now.statement.now).0))) }
{
    let home = source.home;
    Ok(match source.keyword {
        Keyword::Type => is_unknown_type(prefixes, source),
        Keyword::Uses | Keyword::Base => is_unknown_name(prefixes, source),
        Keyword::Refine => {
            has_unknown_among(prefixes, home, relative_path(alloc, source.argument())?)
        }
        Keyword::Augment => {
            has_unknown_among(prefixes, home, absolute_path(alloc, source.argument())?)
        }
        Keyword::Key => has_unknown_among(prefixes, home, key_names(alloc, source.argument())?),
        Keyword::Path => {
            has_unknown_among(prefixes, home, leafref_path(alloc, source.argument())?)
        }
        Keyword::Unique => match unique_paths(alloc, source.argument())? {
            Some(paths) => has_unknown_step(prefixes, home, &paths),
            None => false,
        },
        _ => false,
    })
}

fn judge_prefixes(
    alloc: Global,
    prefixes: &Prefixes<'_>,
    source: &Source<'_>,
    so_far: Option<BrokenRule>,
) -> Result<Option<BrokenRule>, AllocError>
    ensures { IfOk result (λ told. (modules : Forest sources.Source) (number : ℕ)
        → IsOf prefixes.now modules
        → seen told ≡ least_from (seen so_far)
        (spec.prefix_break modules (source_view number source.now))) }
{
    let unknown = has_unknown_prefix(alloc, prefixes, source)?;
    if !unknown {
        return Ok(so_far);
    }
    Ok(least(
        so_far,
        broken(CompileCode::C6, source.home, source.statement),
    ))
}

/// The least of the prefixes that their modules don't declare, by module and line.
fn undeclared_prefix(
    alloc: Global,
    sources: &Sources<'_>,
    prefixes: &Prefixes<'_>,
) -> Result<Option<BrokenRule>, AllocError>
    requires { IsOf prefixes.now (view sources.now) }
    ensures { IfOk result (λ told. seen told
        ≡ least_from None (spec.prefix_breaks (view sources.now))) }
{
    let mut told = None;
    for row in sources.slots() {
        told = judge_prefixes(alloc, prefixes, &row.label, told)?;
    }
    Ok(told)
}

/// The least of the prefixes that their modules don't declare, or give twice, by module and line, given what prefixes stand
/// for.
pub fn broken_prefix_rule(
    alloc: Global,
    sources: &Sources<'_>,
    prefixes: &Prefixes<'_>,
) -> Result<Option<BrokenRule>, AllocError>
    requires { IsOf prefixes.now (view sources.now) }
    ensures { let s = view sources.now in IfOk result (λ told. seen told
        ≡ least_from None (spec.prefix_breaks s ++ repeated_prefixes s)) }
{
    let told = undeclared_prefix(alloc, sources, prefixes)?;
    repeated_prefix(alloc, sources, told)
}
