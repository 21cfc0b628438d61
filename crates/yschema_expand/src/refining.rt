//! Refines (RFC 7950, 7.13.2).

ghost use Rattle.std.specs.Prelude.{◌≡◌, ◌++◌, ◌&&◌, ℕ, List, Option, Some, None, IfOk, IfSome, OnOk, false, is_some, length, not, option_and_then, true, if◌then◌else◌};
ghost use Rattle.std.specs.Option.{option_map_or};
ghost use Rattle.yspec.specs.Forest.{Forest};
ghost use Rattle.yspec.specs.linking.Expansion.{is_refine};
ghost use Rattle.yspec_wide.specs.Expansion as spec;
ghost use Rattle.yspec_wide.specs.Sources.{is_anything};
ghost use Rattle.yspec.specs.linking.Keyword.{default_word};
ghost use Rattle.yspec.specs.linking.Parts.{Part};
ghost use Rattle.yspec.specs.linking.Source as sources;
ghost use Rattle.yspec.specs.schema.Breaks.{broken, when};
ghost use Rattle.ybase_preorder.specs.Layout.{Place, places};
ghost use Rattle.ybase_preorder.specs.View.{row_by, label_by};
ghost use Rattle.ylink_grammar.specs.LanguageView.{language_view};
ghost use Rattle.ylink_grammar.specs.SourceView.{source_view};
ghost use Rattle.ylink_names.specs.PrefixView.{IsOf};
ghost use Rattle.yschema_expand.specs.Indexing.{part_in, Indexes};
ghost use Rattle.yschema_expand.specs.NodeView.{part_view};
ghost use Rattle.yschema_expand.specs.TableView.{parts_in, slots_of};
ghost use Rattle.yschema_expand.specs.Targets.{target_in};
ghost use Rattle.yschema_expand.specs.Walk.{Changes};
ghost use Rattle.yschema_given.specs.Keeping.{are_kept_right};

use crate::expanding::Made;
use crate::indexing::TargetIndex;
use crate::nodes::ExpandedNode;
use crate::table::NodeTable;
use crate::target::{LastNodes, number_at};
use std::alloc::{AllocError, Global};
use ybase_preorder::{Node, Siblings};
use ybase_words::Keyword;
use ylink_arguments::relative_path;
use ylink_grammar::{CompileCode, Language, Source, argument_of, broken, first_with, least};
use ylink_names::Prefixes;
use yschema_given::{are_remarks, may_bear_in};

/// How many statements a `uses` has at least whose refines find their targets by an index.
const MANY: usize = 64;

/// Whether a refine gives a default to a node without a type.
fn is_default_of_anything(
    language: &Language,
    node: &ExpandedNode<'_, '_>,
    given: Siblings<'_, Source<'_>>,
) -> bool
    ensures { result ≡ (is_anything (language_view language.now) (part_view node.now).source
        && is_some (sources.first_with default_word (row_by source_view given.entry))) }
{
    (node.is_anydata(language) || node.is_anyxml(language))
        && first_with(Keyword::Default, given).is_some()
}

/// Whether a node may bear what a refine gives: one of an operation remarks alone.
fn node_bears(
    alloc: Global,
    language: &Language,
    node: &ExpandedNode<'_, '_>,
    given: Siblings<'_, Source<'_>>,
) -> Result<bool, AllocError>
    requires { are_kept_right (language_view language.now) (row_by source_view given) ≡ true }
    ensures { IfOk result (λ may. may ≡ spec.may_bear_in (language_view language.now) (part_view node.now)
        (row_by source_view given.entry)) }
{
    if node.is_operation_part(language) {
        Ok(are_remarks(given))
    } else if is_default_of_anything(language, node, given) {
        Ok(false)
    } else {
        may_bear_in(alloc, language, node.keyword(), given)
    }
}

/// Whether the node of a number may bear what a refine gives.
fn bears(
    alloc: Global,
    language: &Language,
    table: &NodeTable<'_, '_>,
    number: u32,
    given: Siblings<'_, Source<'_>>,
) -> Result<bool, AllocError>
    requires { are_kept_right (language_view language.now) (row_by source_view given) ≡ true }
    ensures { let l = language_view language.now in IfOk result (λ may. may
        ≡ option_map_or (λ p. spec.may_bear_in l p (row_by source_view given.entry))
        (part_in (slots_of table.now) number) false) }
{
    match table.node(number) {
        Some(node) => node_bears(alloc, language, node, given),
        None => Ok(false),
    }
}

/// The number of a node, where there is one and it may bear what a refine gives.
fn fit(
    alloc: Global,
    language: &Language,
    table: &NodeTable<'_, '_>,
    number: Option<u32>,
    given: Siblings<'_, Source<'_>>,
) -> Result<Option<u32>, AllocError>
    requires { are_kept_right (language_view language.now) (row_by source_view given) ≡ true }
    ensures { let l = language_view language.now in IfOk result (λ fit. fit
        ≡ option_and_then (λ n. if option_map_or (λ p. spec.may_bear_in l p
        (row_by source_view given.entry)) (part_in (slots_of table.now) n) false
        then Some n else None) number) }
{
    let Some(place) = number else {
        return Ok(None);
    };
    if bears(alloc, language, table, place, given)? {
        Ok(Some(place))
    } else {
        Ok(None)
    }
}

/// The number of a refine's target among the last nodes of a table, where it may bear what the refine gives.
fn target_in(
    alloc: Global,
    language: &Language,
    prefixes: &Prefixes<'_>,
    owner: usize,
    refine: Node<'_, Source<'_>>,
    nodes: LastNodes<'_, '_, '_>,
) -> Result<Option<u32>, AllocError>
    requires index { IfSome nodes.index (λ x. Indexes nodes.first x.now (parts_in nodes.table.now)) }
    requires kept { are_kept_right (language_view language.now) (row_by source_view refine.children) ≡ true }
    ensures { let first = nodes.entry.first in
        (modules : Forest sources.Source) (earlier : List (Place Part)) (parent : Option ℕ) (f : Forest Part)
        → IsOf prefixes.now modules → length earlier ≡ first
        → parts_in nodes.entry.table.now ≡ earlier ++ places parent first f
        → IfOk result (λ number. number ≡ target_in (language_view language.now) modules owner
        (label_by source_view refine.entry) (row_by source_view refine.entry.children) first f) }
{
    let Some(path) = relative_path(alloc, argument_of(refine))? else {
        return Ok(None);
    };
    let home = refine.label().home;
    let number = number_at(prefixes, home, owner, &path, nodes);
    fit(alloc, language, nodes.table, number, refine.children())
}

/// Changes the target of a refine among the nodes from that of a number on, or tells the refine; other statements change
/// nothing.
fn apply<'a, 't>(
    alloc: Global,
    language: &'a Language,
    prefixes: &Prefixes<'t>,
    owner: usize,
    first: u32,
    index: Option<&TargetIndex<'t>>,
    refine: Node<'a, Source<'t>>,
    made: &mut Made<'a, 't>,
) -> Result<(), AllocError>
    requires index { IfSome index (λ x. Indexes first x.now (parts_in made.old.table)) }
    requires kept { are_kept_right (language_view language.now) (row_by source_view refine.children) ≡ true }
    ensures changes { let s = label_by source_view refine.entry in
        let given = row_by source_view refine.entry.children in
        let l = language_view language.now in
        (modules : Forest sources.Source) (nodes : Forest Part) → IsOf prefixes.now modules
        → OnOk result (Changes first nodes (spec.after_refine_in l modules owner s given nodes)
        (when (is_refine s && not (spec.is_fit_in l modules owner s given nodes))
        (broken 14 s.home s.statement.line)) made.old made.new) }
    ensures indexed { (x : TargetIndex) → Indexes first x (parts_in made.old.table)
        → OnOk result (Indexes first x (parts_in made.new.table)) }
{
    let source = refine.label();
    if !Keyword::Refine.is(source.keyword) {
        return Ok(());
    }
    let nodes = LastNodes {
        table: &made.table,
        first,
        index,
    };
    match target_in(alloc, language, prefixes, owner, refine, nodes)? {
        Some(number) => made.table.refine(language, number, refine.children()),
        None => {
            let found = broken(CompileCode::C14, source.home, source.statement);
            made.told = least(made.told, found);
            Ok(())
        }
    }
}

/// The index of the nodes of a table from that of a number on, where refines among some statements may be many.
fn index_for<'t>(
    alloc: Global,
    table: &NodeTable<'_, 't>,
    first: u32,
    statements: Siblings<'_, Source<'t>>,
) -> Result<Option<TargetIndex<'t>>, AllocError>
    ensures { IfOk result (λ made. IfSome made (λ x. Indexes first x (parts_in table.now))) }
{
    if statements.count() < MANY {
        return Ok(None);
    }
    TargetIndex::of(alloc, table, first)
}

/// Applies the refines of a row, one after another, to the nodes from that of a number on.
pub(crate) fn refine<'a, 't>(
    alloc: Global,
    language: &'a Language,
    prefixes: &Prefixes<'t>,
    owner: usize,
    first: u32,
    statements: Siblings<'a, Source<'t>>,
    made: &mut Made<'a, 't>,
) -> Result<(), AllocError>
    requires { are_kept_right (language_view language.now) (row_by source_view statements) ≡ true }
    ensures { let l = language_view language.now in let own = row_by source_view statements.entry in
        (modules : Forest sources.Source) (nodes : Forest Part) → IsOf prefixes.now modules
        → OnOk result (Changes first nodes (spec.refined_in l modules owner own nodes)
        (spec.refine_breaks_in l modules owner own nodes) made.old made.new) }
{
    let index = index_for(alloc, &made.table, first, statements)?;
    for statement in statements {
        apply(
            alloc,
            language,
            prefixes,
            owner,
            first,
            index.as_ref(),
            statement,
            made,
        )?;
    }
    Ok(())
}
