//! From modules to their linked statements.

ghost use Rattle.std.specs.Prelude.{◌≡◌, [], None, IfOk};
ghost use Rattle.yspec.specs.Results.{Gives};
ghost use Rattle.yspec.specs.schema.Breaks.{least_from};
ghost use Rattle.yspec.specs.linking.Circles.{definition_circles};
ghost use Rattle.yspec.specs.linking.Compiling.{linked, meanings_phase};
ghost use Rattle.yspec_wide.specs.Compiling.{linked_in, names_phase_in, meanings_phase_in};
ghost use Rattle.yspec_wide.specs.Sources.{sources_in};
ghost use Rattle.yspec_wide.specs.StatementBreaks.{statement_phase_in};
ghost use Rattle.ytext.specs.View.{modules_view};
ghost use Rattle.ylink_grammar.specs.BreakView.{seen};
ghost use Rattle.ylink_grammar.specs.LanguageView.{language_view};
ghost use Rattle.ylink_grammar.specs.LinkView as statements;
ghost use Rattle.ylink_grammar.specs.Wholes.{wholes_in, wholes_of};
ghost use Rattle.ylink_names.specs.MeaningView.{AreMeanings};
ghost use Rattle.ylink_names.specs.Ordered.{AreInOrder};
ghost use Rattle.ylink_names.specs.PrefixView as prefix;
ghost use Rattle.ylink_features.specs.VersionView.{AreVersionsOf};
ghost use Rattle.yspec_wide.specs.Types.{all_names};
ghost use Rattle.ylink_types.specs.TypedefView as typedef;
ghost use Rattle.ylink.specs.LinkedView.{view, wholes};
ghost use Rattle.ylink.specs.Told.{told_by};

use crate::fault::CompileFault;
use crate::features::{broken_condition, broken_feature_name};
use crate::judging::broken_type_rule;
use crate::linked::Linked;
use crate::ordering::order_of;
use crate::patterns::broken_pattern_rule;
use crate::repeated::repeated_module;
use crate::verdicts::verdicts_of;
use crate::versions::broken_version_type_rule;
use std::alloc::{AllocError, Global};
use std::rc::Rc;
use ylink_features::{Versions, broken_version_import_rule};
use ylink_grammar::{BrokenRule, Language, Sources, broken_statement_rule_in};
use ylink_names::{
    Prefixes, broken_meaning_rule, broken_prefix_rule, broken_taken_rule, holders_of, meanings_of,
};
use ylink_types::{Expressions, Identities, Kept, Typedefs};
use ytext::Module;

/// The statements of a set of modules in the core, with what their names and types mean, or the least broken rule, by module,
/// line and number, of the first phase that has one (C1 to C10).
pub fn link<'t>(alloc: Global, modules: &'t [Module]) -> Result<Linked<'t>, CompileFault>
    ensures told { Gives view told_by result (linked (modules_view modules.entry.now)) }
    ensures whole { IfOk result (λ linked. wholes linked ≡ wholes_of (modules_view modules.entry.now)) }
{
    link_in(alloc, modules, &Language::Core)
}

/// The statements of a set of modules in a language, with what their names and types mean, or the least broken rule, by
/// module, line and number, of the first phase that has one (C1 to C10, C20, C22). Phases: the table of statements; prefixes, and
/// names of modules, definitions and features; imports, what names mean, and conditions; types and patterns.
pub fn link_in<'t>(
    alloc: Global,
    modules: &'t [Module],
    language: &Language,
) -> Result<Linked<'t>, CompileFault>
    ensures told { Gives view told_by result
        (linked_in (language_view language.now) (modules_view modules.entry.now)) }
    ensures whole { IfOk result (λ linked. wholes linked
        ≡ wholes_in (language_view language.now) (modules_view modules.entry.now)) }
{
    if let Some(found) = broken_statement_rule_in(alloc, language, modules)? {
        return Err(CompileFault::from(found));
    }
    let sources = Sources::of_in(alloc, language, modules)?;
    link_sources(alloc, language, modules, sources)
}

/// Links modules whose statements are those of the table.
fn link_sources<'t>(
    alloc: Global,
    language: &Language,
    modules: &'t [Module],
    sources: Sources<'t>,
) -> Result<Linked<'t>, CompileFault>
    requires made { statements.view sources
        ≡ sources_in (language_view language.now) (modules_view modules.now) }
    requires whole { statements.wholes sources
        ≡ wholes_in (language_view language.now) (modules_view modules.now) }
    requires first { None ≡ least_from None
        (statement_phase_in (language_view language.now) (modules_view modules.now)) }
    ensures told { Gives view told_by result
        (linked_in (language_view language.now) (modules_view modules.entry.now)) }
    ensures whole { IfOk result (λ linked. wholes linked
        ≡ wholes_in (language_view language.now) (modules_view modules.entry.now)) }
{
    let prefixes = Prefixes::of(alloc, &sources)?;
    let versions = Versions::of(alloc, language, &sources)?;
    if let Some(found) = broken_names_rule(
        alloc, language, modules, &sources, &prefixes, &versions,
    )? {
        return Err(CompileFault::from(found));
    }
    let meanings = meanings_of(alloc, &sources, &prefixes)?;
    let holders = holders_of(alloc, &sources)?;
    let meant = broken_meaning_rule(alloc, &sources, &holders, &meanings)?;
    if let Some(found) = broken_later_rule(
        alloc, language, &sources, &prefixes, &versions, meant,
    )? {
        return Err(CompileFault::from(found));
    }
    let order = order_of(alloc, &sources, &holders, &meanings)?;
    let identities = Identities::of(alloc, &sources, Kept::All, &holders, &meanings)?;
    let expressions = expressions_of(alloc, &sources)?;
    let typedefs = Typedefs::of(
        alloc,
        &sources,
        Kept::All,
        meanings,
        identities,
        expressions,
        &order,
    )?;
    link_types(
        alloc, language, modules, sources, prefixes, &versions, order, typedefs,
    )
}

/// The regular expressions of a set, to be shared.
fn expressions_of(alloc: Global, sources: &Sources<'_>) -> Result<Rc<Expressions>, AllocError> {
    Ok(Rc::new(alloc, Expressions::of(alloc, sources)?)?)
}

/// Links modules whose names are right.
fn link_types<'t>(
    alloc: Global,
    language: &Language,
    modules: &'t [Module],
    sources: Sources<'t>,
    prefixes: Prefixes<'t>,
    versions: &Versions,
    order: Vec<usize>,
    typedefs: Typedefs<'t>,
) -> Result<Linked<'t>, CompileFault>
    requires made { statements.view sources
        ≡ sources_in (language_view language.now) (modules_view modules.now) }
    requires whole { statements.wholes sources
        ≡ wholes_in (language_view language.now) (modules_view modules.now) }
    requires prefixed { prefix.IsOf prefixes (statements.view sources) }
    requires versions { AreVersionsOf versions.now (language_view language.now) (statements.view sources) }
    requires ordered { AreInOrder order.items (statements.view sources) }
    requires named { typedef.IsOf typedefs (statements.view sources) }
    requires meant { AreMeanings (typedef.meanings_in typedefs) (statements.view sources) }
    requires rests { typedef.RestsOn all_names typedefs (statements.view sources) }
    requires straight { definition_circles (statements.view sources) ≡ [] }
    requires first { None ≡ least_from None
        (statement_phase_in (language_view language.now) (modules_view modules.now)) }
    requires names { None ≡ least_from None (names_phase_in (language_view language.now)
        (modules_view modules.now) (statements.view sources)) }
    requires meanings { None ≡ least_from None
        (meanings_phase_in (language_view language.now) (statements.view sources)) }
    ensures told { Gives view told_by result
        (linked_in (language_view language.now) (modules_view modules.entry.now)) }
    ensures whole { IfOk result (λ linked. wholes linked
        ≡ wholes_in (language_view language.now) (modules_view modules.entry.now)) }
{
    let verdicts = verdicts_of(alloc, &sources, &typedefs, Kept::All)?;
    let own = broken_type_rule(&sources, &verdicts);
    let versioned = broken_version_type_rule(alloc, &sources, versions, &verdicts, own)?;
    let expressions = typedefs.expressions();
    if let Some(found) = broken_pattern_rule(alloc, language, expressions, &sources, versioned)? {
        return Err(CompileFault::from(found));
    }
    Ok(Linked::new(sources, prefixes, order, typedefs, verdicts))
}

/// The rule that is told of prefixes, or of names of modules, definitions and features.
fn broken_names_rule(
    alloc: Global,
    language: &Language,
    modules: &[Module],
    sources: &Sources<'_>,
    prefixes: &Prefixes<'_>,
    versions: &Versions,
) -> Result<Option<BrokenRule>, AllocError>
    requires prefixed { prefix.IsOf prefixes.now (statements.view sources.now) }
    requires versions { AreVersionsOf versions.now (language_view language.now)
        (statements.view sources.now) }
    ensures { let s = statements.view sources.now in IfOk result (λ told. seen told
        ≡ least_from None (names_phase_in (language_view language.now) (modules_view modules.now) s)) }
{
    let undeclared = broken_prefix_rule(alloc, sources, prefixes)?;
    let repeated = repeated_module(alloc, modules, undeclared)?;
    let taken = broken_taken_rule(alloc, sources, repeated)?;
    broken_feature_name(alloc, language, sources, prefixes, versions, taken)
}

/// The rule that is told of imports, of what names mean, or of conditions, given the one that the core tells of them.
fn broken_later_rule<'t>(
    alloc: Global,
    language: &Language,
    sources: &Sources<'t>,
    prefixes: &Prefixes<'t>,
    versions: &Versions,
    meant: Option<BrokenRule>,
) -> Result<Option<BrokenRule>, AllocError>
    requires prefixed { prefix.IsOf prefixes.now (statements.view sources.now) }
    requires versions { AreVersionsOf versions.now (language_view language.now)
        (statements.view sources.now) }
    requires meant { seen meant ≡ least_from None (meanings_phase (statements.view sources.now)) }
    ensures { let s = statements.view sources.now in IfOk result (λ told. seen told
        ≡ least_from None (meanings_phase_in (language_view language.now) s)) }
{
    let later = broken_version_import_rule(alloc, sources, versions, meant)?;
    broken_condition(alloc, language, sources, prefixes, versions, later)
}
