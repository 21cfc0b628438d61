//! The identities that a type takes, and what is said of a text that it doesn't take (RFC 7950, 9.10; RFC 7951, 6.8).

ghost use Rattle.std.specs.Prelude.{◌≡◌, IfOk, codes, map, take, option_map, string_bytes};
ghost use Rattle.std.specs.Option.{option_map_or};
ghost use Rattle.serde_json.specs.Data.{string};
ghost use Rattle.serde_json.specs.Written.{compact_text};
ghost use Rattle.yspec.specs.types.Identities.{name_within};
ghost use Rattle.ysay_text.specs.Near.{nearest};
ghost use Rattle.ytype.specs.Identities.{identities_view};
ghost use Rattle.ytype.specs.View as held;
ghost use Rattle.ysay_value.specs.IdentityWords as spec;
ghost use Rattle.ysay_value.specs.Joining as joining;
ghost use Rattle.ysay_value.specs.NearWords.{near_words};

use crate::expressions::{broken_among, broken_words};
use crate::joining::joined;
use crate::near::said_of;
use crate::values::json_text;
use itoa::Buffer;
use std::alloc::{AllocError, Global};
use ysay_text::nearest;
use ytype::{Base, Identities, Raw, SimpleType, YType, cut_at_colon, identity_name};

// ---- names

/// An identity without its module's name.
fn bare_name(name: &str) -> &str
    ensures { result.now ≡ spec.bare_name name.entry.now }
{
    match cut_at_colon(name) {
        Some((_, bare)) => bare,
        None => name,
    }
}

fn module_of(name: &str) -> &str
    ensures { result.now ≡ spec.module_of name.entry.now }
{
    match cut_at_colon(name) {
        Some((module_name, _)) => module_name,
        None => "",
    }
}

/// An identity as documents have it at a leaf of a module: without that module's name.
fn plain_name<'a>(home: &str, name: &'a str) -> &'a str
    ensures { result.now ≡ spec.plain_name home.now name.entry.now }
{
    match cut_at_colon(name) {
        Some((module_name, bare)) => { if module_name == home { bare } else { name } }
        None => name,
    }
}

/// The identities that a type takes, so named.
fn names_taken<'a>(alloc: Global, identities: &'a Identities) -> Result<Vec<&'a str>, AllocError>
    ensures { IfOk result (λ names. map (λ n. n.now) names.items
        ≡ spec.names_taken (identities_view identities.entry.now)) }
{
    let mut names = Vec::new(alloc);
    for (number, name) in identities.names().by_number() {
        if identities.takes(*number) {
            names.push(plain_name(identities.home(), name.as_str()))?;
        }
    }
    Ok(names)
}

// ---- what a type takes

/// So many names are said at most.
const SAID: usize = 20;

fn more_words(alloc: Global, count: usize) -> Result<String, AllocError>
    ensures { IfOk result (λ text. string_bytes text ≡ spec.more_words count) }
{
    if count == 0 {
        return Ok(String::new(alloc));
    }
    let mut number = Buffer::new();
    [" and ", number.format(count), " more"].concat(alloc)
}

/// The first of some names, each in quotes.
fn first_names(alloc: Global, names: &[&str]) -> Result<String, AllocError>
    ensures { IfOk result (λ text. string_bytes text ≡ joining.joined (codes ", ")
        (map (λ n. compact_text (string n.now)) (take 20 names.now))) }
{
    let count = SAID.min(names.len());
    let mut texts = Vec::with_capacity(alloc, count)?;
    for name in &names[..count] {
        texts.push(json_text(alloc, *name)?)?;
    }
    joined(alloc, ", ", &texts)
}

/// Of more than twenty names the first twenty, and how many more there are.
fn listed_names(alloc: Global, names: &[&str]) -> Result<String, AllocError>
    ensures { IfOk result (λ text. string_bytes text
        ≡ spec.listed_names (map (λ n. n.now) names.now)) }
{
    let said = first_names(alloc, names)?;
    let more = more_words(alloc, names.len().saturating_sub(SAID))?;
    [said.as_str(), more.as_str()].concat(alloc)
}

fn words_of_names(alloc: Global, names: &[&str]) -> Result<String, AllocError>
    ensures { IfOk result (λ text. string_bytes text
        ≡ spec.words_of_names (map (λ n. n.now) names.now)) }
{
    let listed = listed_names(alloc, names)?;
    [
        "the name of an identity in quotes, one of ",
        listed.as_str(),
    ]
    .concat(alloc)
}

fn identity_words(alloc: Global, names: &[&str]) -> Result<String, AllocError>
    ensures { IfOk result (λ text. string_bytes text
        ≡ spec.identity_words (map (λ n. n.now) names.now)) }
{
    match names.split_first() {
        None => String::from_str(
            alloc,
            "the name of an identity in quotes, and no identity fits",
        ),
        Some(_) => words_of_names(alloc, names),
    }
}

/// The names that a type of identities takes.
pub(crate) fn taken_identities(alloc: Global, identities: &Identities) -> Result<String, AllocError>
    ensures { IfOk result (λ text. string_bytes text
        ≡ spec.identity_words (spec.names_taken (identities_view identities.now))) }
{
    let names = names_taken(alloc, identities)?;
    identity_words(alloc, &names)
}

// ---- what is said of a text that a type doesn't take

/// The name of the identity that a text in a document names.
fn name_within(alloc: Global, home: &str, text: &str) -> Result<String, AllocError>
    ensures { IfOk result (λ name. string_bytes name ≡ name_within home.now text.now) }
{
    match cut_at_colon(text) {
        Some(_) => String::from_str(alloc, text),
        None => identity_name(alloc, home, text),
    }
}

/// Whether it names an identity, of those that are taken or not.
fn names_identity(alloc: Global, identities: &Identities, text: &str) -> Result<bool, AllocError>
    ensures { IfOk result (λ is_named. is_named
        ≡ spec.names_identity (identities_view identities.now) text.now) }
{
    let name = name_within(alloc, identities.home(), text)?;
    Ok(identities.names().number_of(name.as_str()).is_some())
}

/// The first identity taken that is called so in whatever module.
fn called<'a>(identities: &'a Identities, text: &str) -> Option<&'a str>
    ensures { option_map (λ n. n.now) result
        ≡ spec.called (identities_view identities.entry.now) text.now }
{
    let wanted = bare_name(text);
    for (number, name) in identities.names().by_number() {
        if identities.takes(*number) && bare_name(name.as_str()) == wanted {
            return Some(name.as_str());
        }
    }
    None
}

/// Its module is another than the one that stands there, or the leaf's.
fn module_due(alloc: Global, name: &str) -> Result<String, AllocError>
    ensures { IfOk result (λ text. string_bytes text ≡ spec.module_due name.now) }
{
    let bare = json_text(alloc, bare_name(name))?;
    let whole = json_text(alloc, name)?;
    [
        "; ",
        bare.as_str(),
        " is an identity of ",
        module_of(name),
        ": write ",
        whole.as_str(),
        ".",
    ]
    .concat(alloc)
}

/// What is said of a name that none has, or another identity.
fn other_name(alloc: Global, identities: &Identities, text: &str) -> Result<String, AllocError>
    ensures { let base = identities_view identities.now in
        IfOk result (λ said. string_bytes said ≡ option_map_or spec.module_due (spec.called base text.now)
        (near_words (nearest text.now (spec.names_taken base)))) }
{
    match called(identities, text) {
        Some(name) => module_due(alloc, name),
        None => {
            let names = names_taken(alloc, identities)?;
            said_of(alloc, nearest(text, &names))
        }
    }
}

fn identity_hint(alloc: Global, identities: &Identities, text: &str) -> Result<String, AllocError>
    ensures { IfOk result (λ said. string_bytes said
        ≡ spec.identity_hint (identities_view identities.now) text.now) }
{
    if names_identity(alloc, identities, text)? {
        return String::from_str(
            alloc,
            "; it is an identity, but doesn't derive from each base of the type.",
        );
    }
    other_name(alloc, identities, text)
}

fn identities_in(simple: &SimpleType) -> Option<&Identities>
    ensures { option_map (λ i. identities_view i.now) result
        ≡ spec.identities_in simple.entry.now.base }
{
    match simple.base() {
        Base::Identity(identities) => Some(identities),
        Base::Integer(_)
        | Base::Decimal(_)
        | Base::Text
        | Base::Boolean
        | Base::Empty
        | Base::Enumeration(_)
        | Base::Bits(_)
        | Base::Binary => None,
    }
}

/// By the first of some types that is one of identities.
fn hint_among(alloc: Global, members: &[SimpleType], text: &str) -> Result<String, AllocError>
    ensures { IfOk result (λ said. string_bytes said ≡ spec.hint_among members.now text.now) }
{
    for member in members {
        match identities_in(member) {
            Some(identities) => return identity_hint(alloc, identities, text),
            None => {}
        }
    }
    String::from_str(alloc, ".")
}

fn name_hint(alloc: Global, members: &[SimpleType], raw: &Raw) -> Result<String, AllocError>
    ensures { IfOk result (λ said. string_bytes said
        ≡ spec.name_hint members.now (held.raw_of raw.now)) }
{
    match raw {
        Raw::Text(text) => hint_among(alloc, members, text.as_str()),
        Raw::Int(_) | Raw::Bool(_) | Raw::Empty => String::from_str(alloc, "."),
    }
}

/// Of what the only one of some types has several expressions for, which of them it breaks.
fn hint_by(alloc: Global, members: &[SimpleType], raw: &Raw) -> Result<String, AllocError>
    ensures { IfOk result (λ said. string_bytes said
        ≡ spec.hint_by members.now (held.raw_of raw.now)) }
{
    match broken_among(alloc, members, raw)? {
        Some(expression) => broken_words(alloc, expression),
        None => name_hint(alloc, members, raw),
    }
}

/// What is said, behind what a type takes, of a value that it doesn't take.
pub fn hint_words(
    alloc: Global,
    value_type: &YType,
    raw: Option<&Raw>,
) -> Result<String, AllocError>
    ensures { IfOk result (λ said. string_bytes said
        ≡ spec.hint_words value_type.now (option_map (λ r. held.raw_of r.now) raw.entry)) }
{
    match raw {
        Some(raw) => hint_by(alloc, &value_type.members(alloc)?, raw),
        None => String::from_str(alloc, "."),
    }
}
