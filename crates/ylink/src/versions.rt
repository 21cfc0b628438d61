//! What YANG 1 doesn't say of types (RFC 6020, 9.9 and 9.12; RFC 7950, 12).

ghost use Rattle.std.specs.Prelude.{◌≡◌, List, Some, IfOk, option_map};
ghost use Rattle.std.specs.List.{flat_map};
ghost use Rattle.yspec.specs.Forest.{Forest};
ghost use Rattle.yspec.specs.linking.DerivedTypes.{is_member};
ghost use Rattle.yspec.specs.linking.Scopes.{placed};
ghost use Rattle.yspec.specs.linking.Source as sources;
ghost use Rattle.yspec.specs.schema.Breaks.{least_from};
ghost use Rattle.yspec.specs.types.Types.{empty, taken};
ghost use Rattle.yspec_wide.specs.Language as languages;
ghost use Rattle.yspec_wide.specs.VersionBreaks as spec;
ghost use Rattle.ybase_preorder.specs.View.{row_by, label_by};
ghost use Rattle.ylink_grammar.specs.BreakView.{seen};
ghost use Rattle.ylink_grammar.specs.LinkView.{view};
ghost use Rattle.ylink_grammar.specs.SourceView.{source_view};
ghost use Rattle.ylink_features.specs.VersionView.{AreVersionsOf};
ghost use Rattle.ylink_types.specs.TypeView.{meant_view};
ghost use Rattle.ylink.specs.VerdictView.{AreVerdicts, table_view};
ghost use Rattle.ylink.specs.EmptyView.{AreBare, IsBare, IsBareMeant, are_alike, is_wrong_as, is_wrong_by, meant_held, wrong_break};

use crate::verdicts::verdict_held;
use std::alloc::{AllocError, Global};
use ybase_preorder::{Node, Siblings};
use ybase_words::Keyword;
use ylink_features::Versions;
use ylink_grammar::{BrokenRule, CompileCode, Source, Sources, broken, first_with, least_when};
use ylink_types::{Meant, Verdict};
use ytype::{BadValue, Raw, Val, YType};

/// What a type takes of what has no value, if it takes that.
fn taken_of_nothing(alloc: Global, of: &YType) -> Result<Option<Val>, AllocError>
    ensures { IfOk result (λ value. value ≡ taken of.now empty) }
{
    match of.check(alloc, &Raw::Empty) {
        Ok(value) => Ok(Some(value)),
        Err(BadValue::Refused { .. }) => Ok(None),
        Err(BadValue::Memory) => Err(AllocError),
    }
}

/// Whether two types take that, and make the same value of it.
fn are_alike(alloc: Global, of: &YType, other: &YType) -> Result<bool, AllocError>
    ensures { IfOk result (λ b. b ≡ are_alike (taken of.now empty) (taken other.now empty)) }
{
    let Some(value) = taken_of_nothing(alloc, of)? else {
        return Ok(false);
    };
    let Some(own) = taken_of_nothing(alloc, other)? else {
        return Ok(false);
    };
    Ok(value == own)
}

/// Whether a type is `empty`: it takes what has no value as that does, and not by a member.
fn is_empty(alloc: Global, of: &YType) -> Result<bool, AllocError>
    ensures { IsBare of.now → IfOk result (λ b. b ≡ spec.is_empty_type of.now) }
{
    if of.requires_instance().is_some() {
        return Ok(false);
    }
    match YType::empty(alloc) {
        Ok(own) => are_alike(alloc, of, &own),
        Err(_) => Err(AllocError),
    }
}

/// Whether what a `type` statement means is `empty`.
pub fn means_empty(alloc: Global, meant: &Meant<'_>) -> Result<bool, AllocError>
    ensures { IsBareMeant (meant_view meant.now)
        → IfOk result (λ b. b ≡ spec.is_empty_meant (meant_view meant.now)) }
{
    match meant {
        Meant::Own(own) => is_empty(alloc, own),
        Meant::OfTarget { .. } | Meant::OfUnion(_) => Ok(false),
    }
}

/// Whether YANG 1 doesn't know what a `type` statement states, given what it means: whether an instance is required, or
/// `empty` as a member of a union.
fn is_wrong_as(
    alloc: Global,
    in_union: bool,
    meant: Option<&Meant<'_>>,
    below: Siblings<'_, Source<'_>>,
) -> Result<bool, AllocError>
    ensures { ((m : _) → option_map (λ m. meant_view m.now) meant.entry ≡ Some m → IsBareMeant m)
        → IfOk result (λ b. b ≡ is_wrong_as in_union (option_map (λ m. meant_view m.now) meant.entry)
        (row_by source_view below.entry)) }
{
    if first_with(Keyword::RequireInstance, below).is_some() {
        return Ok(true);
    }
    if !in_union {
        return Ok(false);
    }
    match meant {
        Some(meant) => means_empty(alloc, meant),
        None => Ok(false),
    }
}

/// What the statement of a number means, by the verdicts that are held.
fn meant_held<'v, 't>(
    verdicts: &'v [Option<Box<Verdict<'t>>>],
    number: u32,
) -> Option<&'v Meant<'t>>
    ensures { option_map (λ m. meant_view m.now) result
        ≡ meant_held (table_view verdicts.entry.now) number }
{
    match verdict_held(verdicts, number as usize) {
        Some(verdict) => verdict.meaning(),
        None => None,
    }
}

/// Whether a statement is a `type` statement of a module of YANG 1 that states what YANG 1 doesn't know.
fn is_wrong(
    alloc: Global,
    versions: &Versions,
    verdicts: &[Option<Box<Verdict<'_>>>],
    in_union: bool,
    statement: Node<'_, Source<'_>>,
) -> Result<bool, AllocError>
    ensures { (language : languages.Language) (modules : Forest sources.Source)
        → AreVersionsOf versions.now language modules → AreBare (table_view verdicts.now)
        → IfOk result (λ b. b ≡ is_wrong_by language modules (table_view verdicts.now) in_union
        (label_by source_view statement.entry) (row_by source_view statement.entry.children)) }
{
    if !Keyword::Type.is(statement.label().keyword) {
        return Ok(false);
    }
    if !versions.is_yang_1(statement.label().home) {
        return Ok(false);
    }
    let meant = meant_held(verdicts, statement.number());
    is_wrong_as(alloc, in_union, meant, statement.children())
}

/// The lesser of one so far and of such statements of a row, and below it.
fn judge_types(
    alloc: Global,
    versions: &Versions,
    verdicts: &[Option<Box<Verdict<'_>>>],
    in_union: bool,
    statements: Siblings<'_, Source<'_>>,
    so_far: Option<BrokenRule>,
) -> Result<Option<BrokenRule>, AllocError>
    ensures { (language : languages.Language) (modules : Forest sources.Source)
        (ancestors : List _) → AreVersionsOf versions.now language modules
        → AreBare (table_view verdicts.now) → in_union ≡ is_member ancestors
        → IfOk result (λ told. seen told ≡ least_from (seen so_far)
        (flat_map (wrong_break language modules (table_view verdicts.now))
        (placed ancestors (row_by source_view statements.entry)))) }
{
    let mut told = so_far;
    for statement in statements {
        let source = statement.label();
        let is_type = Keyword::Type.is(source.keyword);
        let wrong = is_wrong(alloc, versions, verdicts, in_union, statement)?;
        let rule = broken(CompileCode::C10, source.home, source.statement);
        let own = least_when(wrong, told, rule);
        told = judge_types(
            alloc,
            versions,
            verdicts,
            is_type,
            statement.children(),
            own,
        )?;
    }
    Ok(told)
}

/// The lesser of one so far and of the `type` statements of modules of YANG 1 that state what YANG 1 doesn't know, by module
/// and line, given the verdict on each.
pub(crate) fn broken_version_type_rule(
    alloc: Global,
    sources: &Sources<'_>,
    versions: &Versions,
    verdicts: &[Option<Box<Verdict<'_>>>],
    so_far: Option<BrokenRule>,
) -> Result<Option<BrokenRule>, AllocError>
    ensures { (language : languages.Language) → AreVersionsOf versions.now language (view sources.now)
        → AreVerdicts verdicts.now (view sources.now)
        → IfOk result (λ told. seen told ≡ least_from (seen so_far)
        (spec.version_type_breaks language (view sources.now))) }
{
    match versions {
        Versions::Core => Ok(so_far),
        Versions::Stated(_) => judge_types(
            alloc,
            versions,
            verdicts,
            false,
            sources.modules(),
            so_far,
        ),
    }
}
