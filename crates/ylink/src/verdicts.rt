//! The verdict on each `type` statement of a set, by the statement's number (RFC 7950, 7.4 and 9).

ghost use Rattle.std.specs.Prelude.{◌≡◌, ◌++◌, ◌&&◌, List, Some, IfOk, OnOk, not, map, option_map, slice_set};
ghost use Rattle.yspec.specs.linking.DerivedTypes.{is_member};
ghost use Rattle.yspec.specs.linking.Scopes.{placed};
ghost use Rattle.ybase_preorder.specs.View.{row_by};
ghost use Rattle.ylink_grammar.specs.LinkView.{view};
ghost use Rattle.ylink_grammar.specs.SourceView.{source_view};
ghost use Rattle.ylink_values.specs.KeptView.{kept_view};
ghost use Rattle.ylink_types.specs.TypeView.{verdict_view};
ghost use Rattle.ylink_types.specs.TypedefView.{verdicts_in, AreOf, RestsOn};
ghost use Rattle.ylink.specs.VerdictView.{judged_of, members_below, members_in, table_view, verdict_held, AreVerdictsOf};

use std::alloc::{AllocError, Global};
use ybase_preorder::Siblings;
use ybase_words::Keyword;
use ylink_grammar::{Source, Sources};
use ylink_types::{Kept, Typedefs, Verdict, judge_type};

/// Sets what a table holds of the statement of a number.
fn set_verdict<'t>(
    alloc: Global,
    table: &mut Vec<Option<Box<Verdict<'t>>>>,
    number: usize,
    verdict: Verdict<'t>,
) -> Result<(), AllocError>
    ensures { OnOk result (table_view table.new.items
        ≡ slice_set (table_view table.old.items) number (Some (verdict_view verdict.entry))) }
{
    let held = Box::new(alloc, verdict)?;
    if let Some(place) = table.get_mut(number) {
        *place = Some(held);
    }
    Ok(())
}

/// Adds a verdict to those on the members of a union, where it is on one.
fn add_member<'t>(
    alloc: Global,
    is_member: bool,
    verdict: &Verdict<'t>,
    members: &mut Vec<Verdict<'t>>,
) -> Result<(), AllocError>
    ensures { OnOk result (map verdict_view members.new.items
        ≡ map verdict_view members.old.items ++ members_in is_member (verdict_view verdict.now)) }
{
    if is_member {
        members.push(verdict.copy(alloc)?)?;
    }
    Ok(())
}

/// Whether a `type` statement, which is a member of a union or not, is one that may not be a leafref.
fn is_own_member(in_union: bool, statement: &Source<'_>) -> bool
    ensures { result ≡ (in_union && not statement.now.may_refer) }
{
    in_union && !statement.may_refer
}

/// Adds the verdicts on the `type` statements among the statements of a row, and below it, to a table, given which names of
/// values are kept; it answers those of the row itself, where they are members of a union.
fn add_verdicts<'t>(
    alloc: Global,
    sources: &Sources<'t>,
    typedefs: &Typedefs<'t>,
    kept: Kept<'_>,
    in_union: bool,
    statements: Siblings<'_, Source<'t>>,
    table: &mut Vec<Option<Box<Verdict<'t>>>>,
) -> Result<Vec<Verdict<'t>>, AllocError>
    requires { RestsOn (kept_view kept) typedefs.now (view sources.now) }
    ensures members { IfOk result (λ members. map verdict_view members.items
        ≡ members_below (kept_view kept.entry) (view sources.now) (verdicts_in typedefs.now) in_union
        (row_by source_view statements.entry)) }
    ensures table { (ancestors : List _) → in_union ≡ is_member ancestors
        → OnOk result (table_view table.new.items ≡ table_view table.old.items
        ++ map (judged_of (kept_view kept.entry) (view sources.now) (verdicts_in typedefs.now))
        (placed ancestors (row_by source_view statements.entry))) }
{
    let mut members = Vec::new(alloc);
    for statement in statements {
        let is_type = Keyword::Type.is(statement.label().keyword);
        let number = table.len();
        table.push(None)?;
        let below = statement.children();
        let inner = add_verdicts(alloc, sources, typedefs, kept, is_type, below, table)?;
        if !is_type {
            continue;
        }
        let is_own = is_own_member(in_union, statement.label());
        let verdict = judge_type(alloc, sources, typedefs, kept, is_own, statement, inner)?;
        add_member(alloc, in_union, &verdict, &mut members)?;
        set_verdict(alloc, table, number, verdict)?;
    }
    Ok(members)
}

/// The verdicts on the `type` statements of a set, given its typedefs over the names of values that are kept.
pub(crate) fn verdicts_of<'t>(
    alloc: Global,
    sources: &Sources<'t>,
    typedefs: &Typedefs<'t>,
    kept: Kept<'_>,
) -> Result<Vec<Option<Box<Verdict<'t>>>>, AllocError>
    requires { RestsOn (kept_view kept) typedefs.now (view sources.now) }
    ensures { AreOf (kept_view kept.entry) typedefs.now (view sources.now)
        → IfOk result (λ table. AreVerdictsOf (kept_view kept.entry) table.items (view sources.now)) }
{
    let mut table = Vec::new(alloc);
    add_verdicts(
        alloc,
        sources,
        typedefs,
        kept,
        false,
        sources.modules(),
        &mut table,
    )?;
    table.shrink_to_fit();
    Ok(table)
}

/// The verdict that a table holds of the statement of a number.
pub(crate) fn verdict_held<'v, 't>(
    table: &'v [Option<Box<Verdict<'t>>>],
    number: usize,
) -> Option<&'v Verdict<'t>>
    ensures { option_map (λ v. verdict_view v.now) result
        ≡ verdict_held (table_view table.entry.now) number }
{
    match table.get(number) {
        Some(Some(verdict)) => Some(&**verdict),
        _ => None,
    }
}
