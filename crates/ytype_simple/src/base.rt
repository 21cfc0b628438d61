//! Built-in types, and what each takes (RFC 7950, 9; RFC 7951, 6).

ghost use Rattle.std.specs.Prelude.{◌≡◌, length, map, ok_or, option_map, IfOk, string_bytes};
ghost use Rattle.std.specs.Str.{chars};
ghost use Rattle.yspec.specs.types.Types.{numbers_of, is_written_as_text, is_string_char, is_string_value, number_value, bool_value, integer_taken, decimal_taken, enum_taken, bits_taken, octets_taken, string_taken, text_taken, base_taken, base_in, measure};
ghost use Rattle.yspec.specs.types.Names.{words_of, is_among};
ghost use Rattle.yspec.specs.types.Restriction.{names_in_base, enums_left, bits_left};
ghost use Rattle.yspec.specs.types.Values.{base_read, bool_of};
ghost use Rattle.ytype_simple.specs.View.{raw_of, integer_of, base_of, found_of, content_of};
ghost use Rattle.ytype_simple.specs.Identities.{is_identity, module_names_view};
ghost use Rattle.yspec.specs.Results.{Gives};
ghost use Rattle.ytype_numbers.specs.Words.{narrow_refusal, IsNarrow};
ghost use Rattle.ytype_simple.specs.Founds.{founds};

use crate::content::Content;
use crate::identity::{Identities, ModuleNames};
use crate::octets::octets_of;
use crate::raw::Raw;
use std::alloc::{AllocError, Global};
use std::rc::Rc;
use ytype_numbers::{
    FractionDigits, Names, Naming, NarrowFault, Part, decimal_in, default_integer_in, integer_in,
    names_left, positions_in,
};

/// The integer types.
#[derive(Clone, Copy, Debug)]
pub enum Integer {
    Int8,
    Int16,
    Int32,
    Int64,
    Uint8,
    Uint16,
    Uint32,
    Uint64,
}

impl Integer {
    fn bounds(self) -> Part
        ensures { result ≡ numbers_of (integer_of self) }
    {
        match self {
            Integer::Int8 => Part::new(-0x80, 0x7F),
            Integer::Int16 => Part::new(-0x8000, 0x7FFF),
            Integer::Int32 => Part::new(-0x8000_0000, 0x7FFF_FFFF),
            Integer::Int64 => Part::new(-0x8000_0000_0000_0000, 0x7FFF_FFFF_FFFF_FFFF),
            Integer::Uint8 => Part::new(0, 0xFF),
            Integer::Uint16 => Part::new(0, 0xFFFF),
            Integer::Uint32 => Part::new(0, 0xFFFF_FFFF),
            Integer::Uint64 => Part::new(0, 0xFFFF_FFFF_FFFF_FFFF),
        }
    }

    /// The numbers that it has.
    pub fn numbers(self) -> Part
        ensures numbers { result ≡ numbers_of (integer_of self) }
        ensures narrow { IsNarrow result }
    {
        self.bounds()
    }

    /// Whether documents have its numbers as strings (RFC 7951, 6.1).
    pub fn is_written_as_text(self) -> bool
        ensures { result ≡ is_written_as_text (integer_of self) }
    {
        matches!(self, Integer::Int64 | Integer::Uint64)
    }

    fn taken(self, raw: &Raw) -> Option<i128>
        ensures { option_map number_value result
            ≡ integer_taken (integer_of self) (raw_of raw.now) }
    {
        match raw {
            Raw::Int(number) => {
                if !self.is_written_as_text() && self.numbers().contains(*number) {
                    Some(*number)
                } else {
                    None
                }
            }
            Raw::Text(text) => {
                if self.is_written_as_text() {
                    integer_in(&self.numbers(), text.as_str().as_bytes())
                } else {
                    None
                }
            }
            Raw::Bool(_) => None,
            Raw::Empty => None,
        }
    }
}

fn char_count(text: &str) -> usize
    ensures { result ≡ length (chars text.now) }
{
    text.chars().count()
}

/// What a type finds in a value before it is copied.
#[derive(Drop)]
pub(crate) enum Found<'a> {
    Text(&'a str),
    Number(i128),
    Bool(bool),
    Empty,
    Bits(Vec<i64>),
    Octets(Vec<u8>),
}

impl<'a> Found<'a> {
    /// What a range or length judges.
    pub(crate) fn measure(&self) -> i128
        ensures { result ≡ measure (found_of self.now) }
    {
        match self {
            Found::Text(text) => char_count(text) as i128,
            Found::Number(number) => *number,
            Found::Octets(octets) => octets.len() as i128,
            _ => 0,
        }
    }

    pub(crate) fn into_content(self, alloc: Global) -> Result<Content, AllocError>
        ensures { IfOk result (λ content. content_of content ≡ found_of self.entry) }
    {
        match self {
            Found::Text(text) => Ok(Content::Text(String::from_str(alloc, text)?)),
            Found::Number(number) => Ok(Content::Number(number)),
            Found::Bool(flag) => Ok(Content::Bool(flag)),
            Found::Empty => Ok(Content::Empty),
            Found::Bits(positions) => Ok(Content::Bits(positions)),
            Found::Octets(octets) => Ok(Content::Octets(octets)),
        }
    }
}

/// A built-in type, or what a derived type begins with. Copies share their names.
#[derive(Debug, Drop)]
pub enum Base {
    Integer(Integer),
    Decimal(FractionDigits),
    Text,
    Boolean,
    Empty,
    Enumeration(Rc<Names>),
    Bits(Rc<Names>),
    Identity(Identities),
    Binary,
}

impl Clone for Base {
    ghost is_clone = { λ base copy. base_of copy ≡ base_of base };

    fn clone(&self) -> Result<Base, AllocError>
        ensures { IfOk result (λ copy. base_of copy ≡ base_of self.now) }
    {
        match self {
            Base::Integer(integer) => Ok(Base::Integer(*integer)),
            Base::Decimal(digits) => Ok(Base::Decimal(*digits)),
            Base::Text => Ok(Base::Text),
            Base::Boolean => Ok(Base::Boolean),
            Base::Empty => Ok(Base::Empty),
            Base::Enumeration(names) => Ok(Base::Enumeration(names.clone()?)),
            Base::Bits(names) => Ok(Base::Bits(names.clone()?)),
            Base::Identity(identities) => Ok(Base::Identity(identities.clone()?)),
            Base::Binary => Ok(Base::Binary),
        }
    }
}

impl Base {
    /// Whether it is that of an identityref.
    pub(crate) fn is_identity(&self) -> bool
        ensures { result ≡ is_identity (base_of self.now) }
    {
        match self {
            Base::Identity(_) => true,
            Base::Integer(_)
            | Base::Decimal(_)
            | Base::Text
            | Base::Boolean
            | Base::Empty
            | Base::Enumeration(_)
            | Base::Bits(_)
            | Base::Binary => false,
        }
    }

    /// Whether it is an enumeration or bits with such a name.
    pub(crate) fn has_name(&self, name: &str) -> bool
        ensures { result ≡ is_among (map (λ a. a.name) (names_in_base (base_of self.now))) name.now }
    {
        match self {
            Base::Enumeration(names) => names.has_name(name),
            Base::Bits(names) => names.has_name(name),
            _ => false,
        }
    }

    /// The enumeration that some of its names make of it.
    pub(crate) fn enums_left(&self, alloc: Global, namings: &[Naming]) -> Result<Base, NarrowFault>
        ensures { Gives base_of narrow_refusal result
            (ok_or (enums_left namings.now (base_of self.now)) tt) }
    {
        match self {
            Base::Enumeration(names) => match names_left(alloc, names, namings) {
                Err(fault) => Err(fault),
                Ok(left) => Ok(Base::Enumeration(Rc::new(alloc, left)?)),
            },
            _ => Err(NarrowFault::Refused),
        }
    }

    /// The bits that some of its names make of it.
    pub(crate) fn bits_left(&self, alloc: Global, namings: &[Naming]) -> Result<Base, NarrowFault>
        ensures { Gives base_of narrow_refusal result
            (ok_or (bits_left namings.now (base_of self.now)) tt) }
    {
        match self {
            Base::Bits(names) => match names_left(alloc, names, namings) {
                Err(fault) => Err(fault),
                Ok(left) => Ok(Base::Bits(Rc::new(alloc, left)?)),
            },
            _ => Err(NarrowFault::Refused),
        }
    }

    /// The same for leafs of a module of this name.
    pub(crate) fn of_module(&self, home: &Rc<String>) -> Result<Base, AllocError>
        ensures { IfOk result (λ base. base_of base
            ≡ base_in (string_bytes home.now.value) (base_of self.now)) }
    {
        match self {
            Base::Integer(integer) => Ok(Base::Integer(*integer)),
            Base::Decimal(digits) => Ok(Base::Decimal(*digits)),
            Base::Text => Ok(Base::Text),
            Base::Boolean => Ok(Base::Boolean),
            Base::Empty => Ok(Base::Empty),
            Base::Enumeration(names) => Ok(Base::Enumeration(names.clone()?)),
            Base::Bits(names) => Ok(Base::Bits(names.clone()?)),
            Base::Identity(identities) => Ok(Base::Identity(identities.within(home)?)),
            Base::Binary => Ok(Base::Binary),
        }
    }
}

fn is_string_char(c: char) -> bool
    ensures { result ≡ is_string_char c }
{
    let code = c as u32;
    let is_noncharacter = (0xFDD0..=0xFDEF).contains(&code) || code % 0x10000 >= 0xFFFE;
    c == '\t' || c == '\n' || c == '\r' || (code >= 0x20 && !is_noncharacter)
}

fn is_string(text: &str) -> bool
    ensures { result ≡ is_string_value text.now }
{
    text.chars().all(is_string_char)
}

fn bool_of(text: &str) -> Option<bool>
    ensures { option_map bool_value result ≡ bool_of text.now }
{
    if text == "true" {
        Some(true)
    } else if text == "false" {
        Some(false)
    } else {
        None
    }
}

fn decimal_of(digits: FractionDigits, text: &str) -> Option<i128>
    ensures { option_map number_value result ≡ decimal_taken digits text.now }
{
    decimal_in(&Integer::Int64.numbers(), digits, text.as_bytes())
}

fn number_found<'a>(number: Option<i128>) -> Option<Found<'a>>
    ensures { founds result ≡ option_map number_value number }
{
    match number {
        None => None,
        Some(number) => Some(Found::Number(number)),
    }
}

fn enum_found<'a>(names: &Names, text: &str) -> Option<Found<'a>>
    ensures { founds result ≡ enum_taken names.now text.now }
{
    match names.number_of(text) {
        None => None,
        Some(number) => Some(Found::Number(i128::from(number))),
    }
}

fn bool_found<'a>(text: &str) -> Option<Found<'a>>
    ensures { founds result ≡ bool_of text.now }
{
    match bool_of(text) {
        None => None,
        Some(flag) => Some(Found::Bool(flag)),
    }
}

fn string_found(text: &str) -> Option<Found<'_>>
    ensures { founds result ≡ string_taken text.now }
{
    if is_string(text) {
        Some(Found::Text(text))
    } else {
        None
    }
}

fn identity_found<'a>(number: Option<i64>) -> Option<Found<'a>>
    ensures { founds result ≡ option_map number_value number }
{
    match number {
        None => None,
        Some(number) => Some(Found::Number(i128::from(number))),
    }
}

fn bits_found<'a>(alloc: Global, names: &Names, text: &str) -> Result<Option<Found<'a>>, AllocError>
    ensures { IfOk result (λ found. founds found ≡ bits_taken names.now (words_of text.now)) }
{
    match positions_in(alloc, names, text)? {
        None => Ok(None),
        Some(positions) => Ok(Some(Found::Bits(positions))),
    }
}

fn octets_found<'a>(alloc: Global, text: &str) -> Result<Option<Found<'a>>, AllocError>
    ensures { IfOk result (λ found. founds found ≡ octets_taken text.now) }
{
    match octets_of(alloc, text)? {
        None => Ok(None),
        Some(octets) => Ok(Some(Found::Octets(octets))),
    }
}

impl Base {
    fn text_taken<'a>(&self, alloc: Global, text: &'a str) -> Result<Option<Found<'a>>, AllocError>
        ensures { IfOk result (λ found. founds found ≡ text_taken (base_of self.now) text.now) }
    {
        match self {
            Base::Decimal(digits) => Ok(number_found(decimal_of(*digits, text))),
            Base::Text => Ok(string_found(text)),
            Base::Enumeration(names) => Ok(enum_found(names, text)),
            Base::Bits(names) => bits_found(alloc, names, text),
            Base::Identity(identities) => Ok(identity_found(identities.taken(alloc, text)?)),
            Base::Binary => octets_found(alloc, text),
            Base::Integer(_) => Ok(None),
            Base::Boolean => Ok(None),
            Base::Empty => Ok(None),
        }
    }

    /// What the type finds in what a document has.
    pub(crate) fn taken<'a>(
        &self,
        alloc: Global,
        raw: &'a Raw,
    ) -> Result<Option<Found<'a>>, AllocError>
        ensures { IfOk result (λ found. founds found
            ≡ base_taken (base_of self.now) (raw_of raw.now)) }
    {
        match (self, raw) {
            (Base::Integer(integer), _) => Ok(number_found(integer.taken(raw))),
            (Base::Boolean, Raw::Bool(flag)) => Ok(Some(Found::Bool(*flag))),
            (Base::Empty, Raw::Empty) => Ok(Some(Found::Empty)),
            (_, Raw::Text(text)) => self.text_taken(alloc, text.as_str()),
            _ => Ok(None),
        }
    }

    /// What the type finds in a text of a module.
    pub(crate) fn read<'a>(
        &self,
        alloc: Global,
        names: &ModuleNames<'_>,
        text: &'a str,
    ) -> Result<Option<Found<'a>>, AllocError>
        ensures { IfOk result (λ found. founds found
            ≡ base_read (module_names_view names.now) (base_of self.now) text.now) }
    {
        match self {
            Base::Integer(integer) => Ok(number_found(default_integer_in(
                &integer.numbers(),
                text.as_bytes(),
            ))),
            Base::Boolean => Ok(bool_found(text)),
            Base::Identity(identities) => {
                Ok(identity_found(identities.read(alloc, names, text)?))
            }
            _ => self.text_taken(alloc, text),
        }
    }
}
