//! The names of enumerations and bits as modules write them (RFC 7950, 9.6.4 and 9.7.4).

ghost use Rattle.std.specs.Prelude.{◌≡◌, ◌||◌, [], ok_or};
ghost use Rattle.std.specs.String.{string_bytes};
ghost use Rattle.yspec.specs.text.Text.{is_white};
ghost use Rattle.yspec.specs.types.Names.{number_of, with_name, assigned_from, ends_white, is_enum_name, are_enum_names, enum_names, bit_names};
ghost use Rattle.yspec.specs.Results.{Gives};
ghost use Rattle.ytype_numbers.specs.Words.{narrow_refusal, same, FitsWord};

use crate::fault::NarrowFault;
use crate::names::Names;
use crate::range::Part;
use std::alloc::Global;
use std::marker::Model;

/// A name of an enumeration or of bits as a module writes it, perhaps with its value or position.
#[derive(Debug, Drop)]
pub struct Naming {
    name: String,
    number: Option<i64>,
}

impl Model for Naming {
    ghost use Rattle.std.specs.String.{string_bytes};
    ghost use Rattle.yspec.specs.types.Names as names;

    ghost Value = { names.Naming };

    ghost view = { λ n. record { name = string_bytes n.name; number = n.number } };
}

impl Naming {
    /// The name.
    pub(crate) fn name(&self) -> &str
        ensures { result.now ≡ self.now.name }
    {
        self.name.as_str()
    }

    /// Its number, where one is given.
    pub(crate) fn number(&self) -> Option<i64>
        ensures { result ≡ self.now.number }
    {
        self.number
    }

    /// A name, and its number where one is given.
    pub fn new(name: String, number: Option<i64>) -> Naming
        ensures { result ≡ record { name = string_bytes name; number = number } }
    {
        Naming { name, number }
    }
}

fn number_of(names: &Names, given: Option<i64>) -> i128
    ensures { result ≡ number_of names.now given }
{
    match given {
        None => names.next_number(),
        Some(number) => i128::from(number),
    }
}

fn with_name(
    alloc: Global,
    numbers: &Part,
    names: Names,
    naming: &Naming,
) -> Result<Names, NarrowFault>
    requires { FitsWord numbers.now }
    ensures { Gives same narrow_refusal result (ok_or (with_name numbers.now naming.now names) tt) }
{
    let number = number_of(&names, naming.number);
    if numbers.contains(number) {
        names.with(alloc, naming.name.as_str(), number as i64)
    } else {
        Err(NarrowFault::Refused)
    }
}

fn assign(alloc: Global, numbers: &Part, namings: &[Naming]) -> Result<Names, NarrowFault>
    requires { FitsWord numbers.now }
    ensures { Gives same narrow_refusal result
        (ok_or (assigned_from numbers.now [] namings.now) tt) }
{
    let mut names = Names::new(alloc, namings.len());
    'namings: for naming in namings {
        match with_name(alloc, numbers, names, naming) {
            Err(fault) => return Err(fault),
            Ok(more) => names = more,
        }
    }
    Ok(names)
}

fn is_white(byte: u8) -> bool
    ensures { result ≡ is_white byte }
{
    byte == b' ' || byte == b'\t' || byte == b'\n' || byte == b'\r'
}

fn ends_white(first: u8, rest: &[u8]) -> bool
    ensures { result ≡ ends_white (is_white first) rest.now }
{
    let mut white = is_white(first);
    'rest: for byte in rest {
        white = is_white(*byte);
    }
    white
}

fn is_enum_name(name: &[u8]) -> bool
    ensures { result ≡ is_enum_name name.now }
{
    match name.split_first() {
        None => false,
        Some((first, rest)) => !(is_white(*first) || ends_white(*first, rest)),
    }
}

fn are_enum_names(namings: &[Naming]) -> bool
    ensures { result ≡ are_enum_names namings.now }
{
    'namings: for naming in namings {
        if !is_enum_name(naming.name.as_bytes()) {
            return false;
        }
    }
    true
}

/// The names of an enumeration.
pub fn enum_names(alloc: Global, namings: &[Naming]) -> Result<Names, NarrowFault>
    ensures { Gives same narrow_refusal result (ok_or (enum_names namings.now) tt) }
{
    if !are_enum_names(namings) {
        return Err(NarrowFault::Refused);
    }
    assign(alloc, &Part::new(-0x8000_0000, 0x7FFF_FFFF), namings)
}

/// The names of bits.
pub fn bit_names(alloc: Global, namings: &[Naming]) -> Result<Names, NarrowFault>
    ensures { Gives same narrow_refusal result (ok_or (bit_names namings.now) tt) }
{
    assign(alloc, &Part::new(0, 0xFFFF_FFFF), namings)
}
