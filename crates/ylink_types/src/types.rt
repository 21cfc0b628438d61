//! What `type` statements name and mean (RFC 7950, 7.4 and 9).

ghost use Rattle.std.specs.Prelude.{◌≡◌, ◌++◌, ℕ, IfOk, OnOk, false, true, None, is_some, map, nat_lt, sum_by, option_map, option_and_then};
ghost use Rattle.std.specs.Option.{option_map_or};
ghost use Rattle.yspec.specs.Forest.{Forest, row};
ghost use Rattle.yspec.specs.linking.Arguments.{fraction_digits_of, leafref_path_of};
ghost use Rattle.yspec.specs.linking.Identities.{bases_in};
ghost use Rattle.yspec.specs.linking.Keyword as word;
ghost use Rattle.yspec.specs.linking.Source as sources;
ghost use Rattle.yspec.specs.linking.TypeStatements as spec;
ghost use Rattle.yspec_wide.specs.Types as wide;
ghost use Rattle.ybase_preorder.specs.View.{row_by, label_by};
ghost use Rattle.ybase_words.specs.KeywordView.{keyword_view};
ghost use Rattle.ylink_grammar.specs.LinkView.{view};
ghost use Rattle.ylink_arguments.specs.NameView.{names_view};
ghost use Rattle.ylink_grammar.specs.SourceView.{source_view};
ghost use Rattle.ybase_words.specs.BuiltInView.{built_in_view};
ghost use Rattle.yspec.specs.linking.DerivedTypes.{unknown};
ghost use Rattle.yspec.specs.types.Restriction.{member_count};
ghost use Rattle.ylink_values.specs.KeptView.{kept_view};
ghost use Rattle.ylink_types.specs.TypeView.{judged_union, member_view, meant_view, verdict_view};
ghost use Rattle.ylink_types.specs.TypedefView.{known_view, verdicts_in, RestsOn};

use crate::derived::bases_in;
use crate::typedefs::{Known, Typedefs};
use std::alloc::{AllocError, Global};
use ybase_preorder::{Node, Siblings};
use ybase_words::{BuiltIn, Keyword};
use ylink_arguments::{Name, fraction_digits, leafref_path};
use ylink_grammar::{Source, Sources, argument_of, argument_with};
use ylink_values::{
    Expressions, Kept, NamingKind, accepted_type, is_pattern_statement, matched_type,
    measured_type, named_type, narrowed_type, ranged_type, renamed_type,
};
use ytype::{FractionDigits, YType};

/// A member of a union.
#[derive(Drop)]
pub enum Member<'t> {
    /// A type that refers to no other node.
    Own(YType),
    /// A leafref: the type of the node to which a path leads that stands in a module of the set.
    Leafref {
        home: usize,
        steps: Vec<Name<'t>>,
        required: bool,
    },
}

/// What a `type` statement means.
#[derive(Drop)]
pub enum Meant<'t> {
    /// A type that refers to no other node.
    Own(YType),
    /// The type of the node to which a path leads that stands in a module of the set.
    OfTarget {
        home: usize,
        steps: Vec<Name<'t>>,
        required: bool,
    },
    /// A union with leafrefs among its members, those of the unions among them being its own (RFC 7950, 9.12).
    OfUnion(Vec<Member<'t>>),
}

/// What is known of a `type` statement.
#[derive(Drop)]
pub enum Verdict<'t> {
    Means(Meant<'t>),
    /// It breaks a rule of its own.
    Wrong,
    /// It is a union of more members than are read.
    TooLarge,
    /// It rests on a type that breaks one.
    Unjudged,
}

/// Whether a built-in type may bear a substatement.
fn may_bear(type_name: BuiltIn, keyword: Keyword) -> bool
    ensures { result ≡ spec.may_bear (built_in_view type_name) (keyword_view keyword) }
{
    match type_name {
        BuiltIn::Int8
        | BuiltIn::Int16
        | BuiltIn::Int32
        | BuiltIn::Int64
        | BuiltIn::Uint8
        | BuiltIn::Uint16
        | BuiltIn::Uint32
        | BuiltIn::Uint64 => matches!(keyword, Keyword::Range),
        BuiltIn::Decimal64 => matches!(keyword, Keyword::FractionDigits | Keyword::Range),
        BuiltIn::String => matches!(keyword, Keyword::Length),
        BuiltIn::Enumeration => matches!(keyword, Keyword::Enum),
        BuiltIn::Bits => matches!(keyword, Keyword::Bit),
        BuiltIn::Union => matches!(keyword, Keyword::Type),
        BuiltIn::Leafref => matches!(keyword, Keyword::Path | Keyword::RequireInstance),
        BuiltIn::Identityref => matches!(keyword, Keyword::Base),
        BuiltIn::Binary => matches!(keyword, Keyword::Length),
        BuiltIn::Boolean | BuiltIn::Empty => false,
    }
}

/// The built-in type that a `type` statement of a set names, which has that number.
fn built_in_meant(sources: &Sources<'_>, number: u32, statement: &Source<'_>) -> Option<BuiltIn>
    ensures { option_map built_in_view result
        ≡ spec.built_in_meant (view sources.now) (source_view number statement.now) }
{
    statement.built_in()
}

fn may_bear_patterns(type_name: BuiltIn) -> bool
    ensures { result ≡ spec.may_bear_patterns (built_in_view type_name) }
{
    matches!(type_name, BuiltIn::String)
}

/// Whether a substatement may stand below a built-in type.
fn is_in_place(type_name: BuiltIn, statement: &Source<'_>) -> bool
    ensures { (number : ℕ) → result
        ≡ spec.is_in_place (built_in_view type_name) (source_view number statement.now) }
{
    if is_pattern_statement(statement) {
        may_bear_patterns(type_name)
    } else {
        may_bear(type_name, statement.keyword)
    }
}

fn are_in_place(type_name: BuiltIn, below: Siblings<'_, Source<'_>>) -> bool
    ensures { result ≡ spec.are_in_place (built_in_view type_name)
        (row_by source_view below.entry) }
{
    for statement in below {
        if !is_in_place(type_name, statement.label()) {
            return false;
        }
    }
    true
}

fn digits_stated(below: Siblings<'_, Source<'_>>) -> Option<FractionDigits>
    ensures { result ≡ option_and_then fraction_digits_of
        (sources.argument_with word.fraction_digits_word (row_by source_view below.entry)) }
{
    FractionDigits::new(fraction_digits(argument_with(Keyword::FractionDigits, below)?)?)
}

fn decimal(alloc: Global, below: Siblings<'_, Source<'_>>) -> Result<Option<YType>, AllocError>
    ensures { IfOk result (λ type. type
        ≡ spec.single_type spec.decimal64 (row_by source_view below.entry)) }
{
    match digits_stated(below) {
        Some(digits) => ranged_type(alloc, below, YType::decimal64(alloc, digits)),
        None => Ok(None),
    }
}

fn string_type(
    alloc: Global,
    expressions: &Expressions,
    below: Siblings<'_, Source<'_>>,
) -> Result<Option<YType>, AllocError>
    ensures { IfOk result (λ type. type
        ≡ spec.single_type spec.string (row_by source_view below.entry)) }
{
    match measured_type(alloc, below, YType::string(alloc))? {
        Some(measured) => matched_type(alloc, expressions, measured, below),
        None => Ok(None),
    }
}

/// A type that is no union, no leafref and no identityref.
fn single_type(
    alloc: Global,
    expressions: &Expressions,
    kept: Kept<'_>,
    type_name: BuiltIn,
    below: Siblings<'_, Source<'_>>,
) -> Result<Option<YType>, AllocError>
    ensures { IfOk result (λ type. type ≡ wide.single_type_of (kept_view kept.entry)
        (built_in_view type_name) (row_by source_view below.entry)) }
{
    match type_name {
        BuiltIn::Int8 => ranged_type(alloc, below, YType::int8(alloc)),
        BuiltIn::Int16 => ranged_type(alloc, below, YType::int16(alloc)),
        BuiltIn::Int32 => ranged_type(alloc, below, YType::int32(alloc)),
        BuiltIn::Int64 => ranged_type(alloc, below, YType::int64(alloc)),
        BuiltIn::Uint8 => ranged_type(alloc, below, YType::uint8(alloc)),
        BuiltIn::Uint16 => ranged_type(alloc, below, YType::uint16(alloc)),
        BuiltIn::Uint32 => ranged_type(alloc, below, YType::uint32(alloc)),
        BuiltIn::Uint64 => ranged_type(alloc, below, YType::uint64(alloc)),
        BuiltIn::Decimal64 => decimal(alloc, below),
        BuiltIn::String => string_type(alloc, expressions, below),
        BuiltIn::Boolean => accepted_type(YType::boolean(alloc)),
        BuiltIn::Empty => accepted_type(YType::empty(alloc)),
        BuiltIn::Enumeration => named_type(alloc, kept, NamingKind::Enum, below),
        BuiltIn::Bits => named_type(alloc, kept, NamingKind::Bit, below),
        BuiltIn::Binary => measured_type(alloc, below, YType::binary(alloc)),
        BuiltIn::Union | BuiltIn::Leafref | BuiltIn::Identityref => Ok(None),
    }
}

fn is_required(below: Siblings<'_, Source<'_>>) -> bool
    ensures { result ≡ spec.is_required (row_by source_view below.entry) }
{
    match argument_with(Keyword::RequireInstance, below) {
        Some(text) => text == "true",
        None => true,
    }
}

/// The path of a leafref, where it has one.
fn path_stated<'t>(
    alloc: Global,
    below: Siblings<'_, Source<'t>>,
) -> Result<Option<Vec<Name<'t>>>, AllocError>
    ensures { IfOk result (λ path. option_map (λ p. names_view p.items) path
        ≡ option_and_then leafref_path_of
        (sources.argument_with word.path_word (row_by source_view below.entry))) }
{
    match argument_with(Keyword::Path, below) {
        Some(text) => leafref_path(alloc, text),
        None => Ok(None),
    }
}

fn leafref_verdict<'t>(
    alloc: Global,
    is_member: bool,
    statement: Node<'_, Source<'t>>,
) -> Result<Verdict<'t>, AllocError>
    ensures { IfOk result (λ verdict. verdict_view verdict
        ≡ spec.leafref_verdict is_member (label_by source_view statement.entry)
        (row_by source_view statement.entry.children)) }
{
    if is_member {
        return Ok(Verdict::Wrong);
    }
    let below = statement.children();
    match path_stated(alloc, below)? {
        Some(steps) => Ok(Verdict::Means(Meant::OfTarget {
            home: statement.label().home,
            steps,
            required: is_required(below),
        })),
        None => Ok(Verdict::Wrong),
    }
}

/// The types of members, where each has one.
fn member_types(alloc: Global, members: Vec<Verdict<'_>>) -> Result<Option<Vec<YType>>, AllocError>
    ensures { IfOk result (λ types. option_map (λ t. t.items) types
        ≡ spec.member_types (map verdict_view members.entry.items)) }
{
    let mut types = Vec::new(alloc);
    for member in members {
        match member {
            Verdict::Means(Meant::Own(member_type)) => types.push(member_type)?,
            _ => return Ok(None),
        }
    }
    Ok(Some(types))
}

/// The most members that a union may have, those of unions in it as well.
const MOST_MEMBERS: usize = 65535;

fn is_too_large(made: &YType) -> bool
    ensures { result ≡ nat_lt spec.member_limit (member_count made.now) }
{
    made.member_count() > MOST_MEMBERS
}

/// The verdict on a type that is made as a union.
fn judge_union<'t>(made: YType) -> Verdict<'t>
    ensures { verdict_view result ≡ judged_union made }
{
    if is_too_large(&made) {
        Verdict::TooLarge
    } else {
        Verdict::Means(Meant::Own(made))
    }
}

/// The verdict on a union of types that have a meaning.
fn of_members<'t>(alloc: Global, types: &[YType]) -> Result<Verdict<'t>, AllocError>
    ensures { IfOk result (λ verdict. verdict_view verdict ≡ spec.of_members types.now) }
{
    match accepted_type(YType::union(alloc, types))? {
        Some(made) => Ok(judge_union(made)),
        None => Ok(Verdict::Wrong),
    }
}

/// Whether each member has a type that refers to no other node.
fn are_own(members: &[Verdict<'_>]) -> bool
    ensures { result ≡ is_some (spec.member_types (map verdict_view members.now)) }
{
    for member in members {
        if !member.is_own() {
            return false;
        }
    }
    true
}

/// The verdict on a union whose members have types that refer to no other node.
fn own_union<'t>(alloc: Global, members: Vec<Verdict<'t>>) -> Result<Verdict<'t>, AllocError>
    ensures { IfOk result (λ verdict. verdict_view verdict ≡ option_map_or spec.of_members
        (spec.member_types (map verdict_view members.entry.items)) spec.unjudged) }
{
    match member_types(alloc, members)? {
        Some(types) => Ok(of_members(alloc, &types)?),
        None => Ok(Verdict::Unjudged),
    }
}

/// Adds the members of a union that what one of its `type` statements means stands for.
fn add_members<'t>(members: &mut Vec<Member<'t>>, meant: Meant<'t>) -> Result<(), AllocError>
    ensures { OnOk result (map member_view members.new.items
        ≡ map member_view members.old.items ++ spec.members_meant (meant_view meant.entry)) }
{
    match meant {
        Meant::Own(value_type) => members.push(Member::Own(value_type))?,
        Meant::OfTarget {
            home,
            steps,
            required,
        } => members.push(Member::Leafref {
            home,
            steps,
            required,
        })?,
        Meant::OfUnion(mut others) => members.append(&mut others)?,
    }
    Ok(())
}

/// The members of a union, where each of its `type` statements has a meaning.
#[tactic(auto, using(crate::proofs::TypeLemmas::more_members))]
fn members_in<'t>(
    alloc: Global,
    verdicts: Vec<Verdict<'t>>,
) -> Result<Option<Vec<Member<'t>>>, AllocError>
    ensures { IfOk result (λ members. option_map (λ m. map member_view m.items) members
        ≡ spec.members_in (map verdict_view verdicts.entry.items)) }
{
    let mut members = Vec::new(alloc);
    for verdict in verdicts {
        match verdict {
            Verdict::Means(meant) => add_members(&mut members, meant)?,
            _ => return Ok(None),
        }
    }
    Ok(Some(members))
}

/// Whether a union has more members than are read, a leafref being one.
fn are_too_many(members: &[Member<'_>]) -> bool
    ensures { result
        ≡ nat_lt spec.member_limit (sum_by spec.width_of (map member_view members.now)) }
{
    let mut left = MOST_MEMBERS;
    for member in members {
        let more = member.width();
        if more > left {
            return true;
        }
        left -= more;
    }
    false
}

/// The verdict on a union with leafrefs among its members.
fn referring_union<'t>(members: Vec<Member<'t>>) -> Verdict<'t>
    ensures { verdict_view result
        ≡ spec.referring_union (map member_view members.entry.items) }
{
    if are_too_many(&members) {
        Verdict::TooLarge
    } else {
        Verdict::Means(Meant::OfUnion(members))
    }
}

/// The verdict on a union with members.
fn judged_members<'t>(alloc: Global, members: Vec<Verdict<'t>>) -> Result<Verdict<'t>, AllocError>
    ensures { IfOk result (λ verdict. verdict_view verdict ≡ option_map_or spec.referring_union
        (spec.members_in (map verdict_view members.entry.items)) spec.unjudged) }
{
    match members_in(alloc, members)? {
        Some(found) => Ok(referring_union(found)),
        None => Ok(Verdict::Unjudged),
    }
}

fn union_verdict<'t>(alloc: Global, members: Vec<Verdict<'t>>) -> Result<Verdict<'t>, AllocError>
    ensures { IfOk result (λ verdict. verdict_view verdict
        ≡ spec.union_verdict (map verdict_view members.entry.items)) }
{
    if members.is_empty() {
        return Ok(Verdict::Wrong);
    }
    if are_own(&members) {
        own_union(alloc, members)
    } else {
        judged_members(alloc, members)
    }
}

/// A type that refers to no other node, or another verdict where there is none.
fn own_or<'t>(made: Option<YType>, other: Verdict<'t>) -> Verdict<'t>
    ensures { verdict_view result
        ≡ option_map_or (λ type. spec.means (spec.own type)) made (verdict_view other.entry) }
{
    match made {
        Some(made) => Verdict::Means(Meant::Own(made)),
        None => other,
    }
}

/// The verdict on a `type` statement that names identityref, given the identities of the set.
fn identity_verdict<'t>(
    alloc: Global,
    typedefs: &Typedefs<'t>,
    statement: Node<'_, Source<'t>>,
) -> Result<Verdict<'t>, AllocError>
    ensures { (kept : wide.Keeping) (modules : Forest sources.Source)
        → RestsOn kept typedefs.now modules
        → IfOk result (λ verdict. verdict_view verdict ≡ wide.identity_verdict_of kept modules
        statement.entry.label.now.home
        (bases_in modules (row_by source_view statement.entry.children))) }
{
    let bases = bases_in(alloc, typedefs.meanings(), statement.children())?;
    let home = statement.label().home;
    Ok(own_or(
        typedefs.identities().type_of(alloc, home, &bases)?,
        Verdict::Wrong,
    ))
}

fn verdict_in_place<'t>(
    alloc: Global,
    typedefs: &Typedefs<'t>,
    kept: Kept<'_>,
    is_member: bool,
    type_name: BuiltIn,
    statement: Node<'_, Source<'t>>,
    members: Vec<Verdict<'t>>,
) -> Result<Verdict<'t>, AllocError>
    ensures { (modules : Forest sources.Source) → RestsOn (kept_view kept.entry) typedefs.now modules
        → IfOk result (λ verdict. verdict_view verdict
        ≡ wide.verdict_in_place_of (kept_view kept.entry) modules is_member
        (label_by source_view statement.entry)
        (built_in_view type_name) (row_by source_view statement.entry.children)
        (map verdict_view members.entry.items)) }
{
    match type_name {
        BuiltIn::Union => union_verdict(alloc, members),
        BuiltIn::Leafref => leafref_verdict(alloc, is_member, statement),
        BuiltIn::Identityref => identity_verdict(alloc, typedefs, statement),
        _ => Ok(own_or(
            single_type(
                alloc,
                typedefs.expressions(),
                kept,
                type_name,
                statement.children(),
            )?,
            Verdict::Wrong,
        )),
    }
}

/// What a substatement makes of what a typedef means.
fn restricted_by<'t>(
    alloc: Global,
    meant: Meant<'t>,
    statement: Node<'_, Source<'t>>,
) -> Result<Option<Meant<'t>>, AllocError>
    ensures { IfOk result (λ made. option_map meant_view made
        ≡ spec.restricted_by (label_by source_view statement.entry)
        (row_by source_view statement.entry.children) (meant_view meant.entry)) }
{
    match meant {
        Meant::Own(outer) => match narrowed_type(alloc, outer, statement)? {
            Some(narrowed) => Ok(Some(Meant::Own(narrowed))),
            None => Ok(None),
        },
        Meant::OfTarget { home, steps, .. } => {
            if !Keyword::RequireInstance.is(statement.label().keyword) {
                return Ok(None);
            }
            Ok(Some(Meant::OfTarget {
                home,
                steps,
                required: argument_of(statement) == "true",
            }))
        }
        Meant::OfUnion(_) => Ok(None),
    }
}

/// What the substatements of a `type` statement make of what the typedef means that it names; nothing where one of them may
/// not stand there.
fn restricted_in<'t>(
    alloc: Global,
    meant: Meant<'t>,
    below: Siblings<'_, Source<'t>>,
) -> Result<Option<Meant<'t>>, AllocError>
    ensures { IfOk result (λ made. option_map meant_view made
        ≡ spec.restricted_in (row_by source_view below.entry) (meant_view meant.entry)) }
{
    let mut made = meant;
    for statement in below {
        match restricted_by(alloc, made, statement)? {
            Some(restricted) => made = restricted,
            None => return Ok(None),
        }
    }
    Ok(Some(made))
}

/// What the patterns of a `type` statement make of what the typedef means that it names.
fn matched_meant<'t>(
    alloc: Global,
    expressions: &Expressions,
    meant: Meant<'t>,
    below: Siblings<'_, Source<'t>>,
) -> Result<Option<Meant<'t>>, AllocError>
    ensures { IfOk result (λ made. option_map meant_view made
        ≡ spec.matched_meant (row_by source_view below.entry) (meant_view meant.entry)) }
{
    match meant {
        Meant::Own(outer) => match matched_type(alloc, expressions, outer, below)? {
            Some(matched) => Ok(Some(Meant::Own(matched))),
            None => Ok(None),
        },
        target @ Meant::OfTarget { .. } => Ok(Some(target)),
        others @ Meant::OfUnion(_) => Ok(Some(others)),
    }
}

/// What both make of it, patterns behind the others.
fn limited_meant<'t>(
    alloc: Global,
    expressions: &Expressions,
    meant: Meant<'t>,
    below: Siblings<'_, Source<'t>>,
) -> Result<Option<Meant<'t>>, AllocError>
    ensures { IfOk result (λ made. option_map meant_view made
        ≡ option_and_then (spec.matched_meant (row_by source_view below.entry))
        (spec.restricted_in (row_by source_view below.entry) (meant_view meant.entry))) }
{
    match restricted_in(alloc, meant, below)? {
        Some(restricted) => matched_meant(alloc, expressions, restricted, below),
        None => Ok(None),
    }
}

/// What the names of a `type` statement make of what the typedef means that it names, given which are kept.
fn named_meant<'t>(
    alloc: Global,
    kept: Kept<'_>,
    meant: Meant<'t>,
    below: Siblings<'_, Source<'t>>,
) -> Result<Option<Meant<'t>>, AllocError>
    ensures { IfOk result (λ made. option_map meant_view made
        ≡ spec.named_meant (wide.named_kept (kept_view kept.entry) (row_by source_view below.entry))
        (meant_view meant.entry)) }
{
    match meant {
        Meant::Own(outer) => match renamed_type(alloc, kept, outer, below)? {
            Some(left) => Ok(Some(Meant::Own(left))),
            None => Ok(None),
        },
        target @ Meant::OfTarget { .. } => Ok(Some(target)),
        others @ Meant::OfUnion(_) => Ok(Some(others)),
    }
}

/// What all make of it, names behind the others.
fn derived_meant<'t>(
    alloc: Global,
    expressions: &Expressions,
    kept: Kept<'_>,
    meant: Meant<'t>,
    below: Siblings<'_, Source<'t>>,
) -> Result<Option<Meant<'t>>, AllocError>
    ensures { let row = row_by source_view below.entry in
        IfOk result (λ made. option_map meant_view made
        ≡ option_and_then (spec.named_meant (wide.named_kept (kept_view kept.entry) row))
        (option_and_then (spec.matched_meant row) (spec.restricted_in row (meant_view meant.entry)))) }
{
    match limited_meant(alloc, expressions, meant, below)? {
        Some(limited) => named_meant(alloc, kept, limited, below),
        None => Ok(None),
    }
}

/// The verdict on a `type` statement that names a typedef, given what is known of that one.
fn derived<'t>(
    alloc: Global,
    expressions: &Expressions,
    kept: Kept<'_>,
    is_member: bool,
    named: Option<&Known<'t>>,
    below: Siblings<'_, Source<'t>>,
) -> Result<Verdict<'t>, AllocError>
    ensures { IfOk result (λ verdict. verdict_view verdict
        ≡ spec.derived_by (wide.named_kept (kept_view kept.entry) (row_by source_view below.entry)) is_member
        (row_by source_view below.entry)
        (option_map_or (λ k. known_view k.now) named.entry unknown).verdict) }
{
    let Some(known) = named else {
        return Ok(Verdict::Unjudged);
    };
    let Verdict::Means(meant) = &known.verdict else {
        return Ok(Verdict::Unjudged);
    };
    if is_member && meant.is_reference() {
        return Ok(Verdict::Wrong);
    }
    match derived_meant(alloc, expressions, kept, meant.copy(alloc)?, below)? {
        Some(made) => Ok(Verdict::Means(made)),
        None => Ok(Verdict::Wrong),
    }
}

/// The verdict on a `type` statement of a set, given which names of values are kept, whether it is a member of a union that may
/// not be a leafref, and those on the `type` statements below it.
pub fn judge_type<'t>(
    alloc: Global,
    sources: &Sources<'t>,
    typedefs: &Typedefs<'t>,
    kept: Kept<'_>,
    is_member: bool,
    statement: Node<'_, Source<'t>>,
    members: Vec<Verdict<'t>>,
) -> Result<Verdict<'t>, AllocError>
    requires { RestsOn (kept_view kept) typedefs.now (view sources.now) }
    ensures { IfOk result (λ verdict. verdict_view verdict
        ≡ wide.verdict_of (kept_view kept.entry) (view sources.now) (verdicts_in typedefs.now) is_member
        (label_by source_view statement.entry) (row_by source_view statement.entry.children)
        (map verdict_view members.entry.items)) }
{
    let Some(type_name) = built_in_meant(sources, statement.number(), statement.label()) else {
        let named = typedefs.named(statement.number());
        return derived(
            alloc,
            typedefs.expressions(),
            kept,
            is_member,
            named,
            statement.children(),
        );
    };
    if !are_in_place(type_name, statement.children()) {
        return Ok(Verdict::Wrong);
    }
    verdict_in_place(
        alloc, typedefs, kept, is_member, type_name, statement, members,
    )
}

/// The verdicts on the members of a union that stand in a row of a set.
fn member_verdicts<'t>(
    alloc: Global,
    sources: &Sources<'t>,
    typedefs: &Typedefs<'t>,
    kept: Kept<'_>,
    statements: Siblings<'_, Source<'t>>,
) -> Result<Vec<Verdict<'t>>, AllocError>
    requires { RestsOn (kept_view kept) typedefs.now (view sources.now) }
    ensures { IfOk result (λ found. map verdict_view found.items ≡ wide.verdicts_of
        (kept_view kept.entry) (view sources.now) (verdicts_in typedefs.now) (row_by source_view statements.entry)) }
{
    let mut found = Vec::new(alloc);
    for statement in statements {
        if !Keyword::Type.is(statement.label().keyword) {
            continue;
        }
        let members = member_verdicts(alloc, sources, typedefs, kept, statement.children())?;
        let is_own = !statement.label().may_refer;
        let judged = judge_type(alloc, sources, typedefs, kept, is_own, statement, members)?;
        found.push(judged)?;
    }
    Ok(found)
}

/// The verdict on a `type` statement of a set, a member of a union that may not be a leafref or not.
pub(crate) fn verdict_on<'t>(
    alloc: Global,
    sources: &Sources<'t>,
    typedefs: &Typedefs<'t>,
    kept: Kept<'_>,
    is_member: bool,
    statement: Node<'_, Source<'t>>,
) -> Result<Verdict<'t>, AllocError>
    requires { RestsOn (kept_view kept) typedefs.now (view sources.now) }
    ensures { IfOk result (λ verdict. verdict_view verdict
        ≡ wide.verdict_on_of (kept_view kept.entry) (view sources.now) (verdicts_in typedefs.now) is_member
        (label_by source_view statement.entry) (row_by source_view statement.entry.children)) }
{
    let members = member_verdicts(alloc, sources, typedefs, kept, statement.children())?;
    judge_type(
        alloc, sources, typedefs, kept, is_member, statement, members,
    )
}

impl<'t> Meant<'t> {
    ghost use Rattle.std.specs.Prelude.{◌≡◌, IfOk, option_map};
    ghost use Rattle.yspec.specs.linking.TypeStatements as spec;
    ghost use Rattle.ylink_types.specs.TypeView.{meant_view};

    /// The type that refers to no other node, where it is one.
    pub fn own(&self) -> Option<&YType>
        ensures { option_map (λ t. t.now) result ≡ spec.own_type (meant_view self.now) }
    {
        match self {
            Meant::Own(value_type) => Some(value_type),
            Meant::OfTarget { .. } | Meant::OfUnion(_) => None,
        }
    }

    fn is_reference(&self) -> bool
        ensures { result ≡ spec.is_reference (meant_view self.now) }
    {
        matches!(self, Meant::OfTarget { .. })
    }

    fn copy(&self, alloc: Global) -> Result<Meant<'t>, AllocError>
        ensures { IfOk result (λ copy. meant_view copy ≡ meant_view self.now) }
    {
        match self {
            Meant::Own(own) => Ok(Meant::Own(own.clone()?)),
            Meant::OfTarget {
                home,
                steps,
                required,
            } => Ok(Meant::OfTarget {
                home: *home,
                steps: steps.clone()?,
                required: *required,
            }),
            Meant::OfUnion(members) => Ok(Meant::OfUnion(copies_of(alloc, members)?)),
        }
    }
}

impl<'t> Member<'t> {
    ghost use Rattle.std.specs.Prelude.{◌≡◌, IfOk};
    ghost use Rattle.yspec.specs.linking.TypeStatements as spec;
    ghost use Rattle.ylink_types.specs.TypeView.{member_view};

    /// How many members it has, a leafref being one.
    fn width(&self) -> usize
        ensures { result ≡ spec.width_of (member_view self.now) }
    {
        match self {
            Member::Own(value_type) => value_type.member_count(),
            Member::Leafref { .. } => 1,
        }
    }

    fn copy(&self) -> Result<Member<'t>, AllocError>
        ensures { IfOk result (λ copy. member_view copy ≡ member_view self.now) }
    {
        match self {
            Member::Own(own) => Ok(Member::Own(own.clone()?)),
            Member::Leafref {
                home,
                steps,
                required,
            } => Ok(Member::Leafref {
                home: *home,
                steps: steps.clone()?,
                required: *required,
            }),
        }
    }
}

/// Copies of the members of a union.
fn copies_of<'t>(alloc: Global, members: &[Member<'t>]) -> Result<Vec<Member<'t>>, AllocError>
    ensures { IfOk result (λ copies. map member_view copies.items
        ≡ map member_view members.now) }
{
    let mut copies = Vec::with_capacity(alloc, members.len())?;
    for member in members {
        copies.push(member.copy()?)?;
    }
    Ok(copies)
}

impl<'t> Verdict<'t> {
    ghost use Rattle.std.specs.Prelude.{◌≡◌, IfOk, option_map};
    ghost use Rattle.yspec.specs.linking.TypeStatements as spec;
    ghost use Rattle.ylink_types.specs.TypeView.{is_own, meant_view, verdict_view};

    /// Whether the statement means a type that refers to no other node.
    fn is_own(&self) -> bool
        ensures { result ≡ is_own (verdict_view self.now) }
    {
        matches!(self, Verdict::Means(Meant::Own(_)))
    }

    /// A copy of it.
    pub fn copy(&self, alloc: Global) -> Result<Verdict<'t>, AllocError>
        ensures { IfOk result (λ copy. verdict_view copy ≡ verdict_view self.now) }
    {
        match self {
            Verdict::Means(meant) => Ok(Verdict::Means(meant.copy(alloc)?)),
            Verdict::Wrong => Ok(Verdict::Wrong),
            Verdict::TooLarge => Ok(Verdict::TooLarge),
            Verdict::Unjudged => Ok(Verdict::Unjudged),
        }
    }

    /// What the statement means, where it means anything.
    pub fn meaning(&self) -> Option<&Meant<'t>>
        ensures { option_map (λ m. meant_view m.now) result
            ≡ spec.meaning_of (verdict_view self.now) }
    {
        match self {
            Verdict::Means(meant) => Some(meant),
            _ => None,
        }
    }
}
