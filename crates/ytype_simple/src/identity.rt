//! Identities as values, and the texts that name them (RFC 7950, 9.10; RFC 7951, 6.8).

ghost use Rattle.std.specs.Prelude.{◌≡◌, ◌+◌, ◌<◌, ◌==◌, position, option_map, length, take, drop, slice_index, IfOk, IfSome, string_bytes};
ghost use Rattle.std.specs.BTreeSet.{contains};
ghost use Rattle.std.specs.Ordering.{int_cmp};
ghost use Rattle.yspec.specs.text.Text.{colon};
ghost use Rattle.yspec.specs.types.Identities as spec;
ghost use Rattle.yspec.specs.types.Types.{identity_named, is_numbered, number_value};
ghost use Rattle.ytype_simple.specs.Identities.{beside, identities_view, module_names_view, pair_view};

use std::alloc::{AllocError, Global};
use std::collections::BTreeSet;
use std::rc::Rc;
use ytype_numbers::Names;

/// What a module calls itself, and which modules its prefixes stand for, by name; its own prefix is among them.
#[derive(Clone, Copy, Debug)]
pub struct ModuleNames<'a> {
    pub own: &'a str,
    pub prefixed: &'a [(&'a str, &'a str)],
}

/// The identities of a set of modules by name, each with its number; the numbers of those that a type takes; and the name of
/// the module whose identities are named without one. Copies share them.
#[derive(Debug, Drop)]
pub struct Identities {
    home: Rc<String>,
    names: Rc<Names>,
    taken: Rc<BTreeSet<i64>>,
}

impl Clone for Identities {
    ghost use Rattle.std.specs.Prelude.{◌≡◌};
    ghost use Rattle.ytype_simple.specs.Identities.{identities_view};

    ghost is_clone = { λ identities copy. identities_view copy ≡ identities_view identities };

    fn clone(&self) -> Result<Identities, AllocError>
        ensures { IfOk result (λ copy. identities_view copy ≡ identities_view self.now) }
    {
        Ok(Identities {
            home: self.home.clone()?,
            names: self.names.clone()?,
            taken: self.taken.clone()?,
        })
    }
}

fn colon_offset(bytes: &[u8]) -> Option<usize>
    ensures value { result ≡ position (λ x. x == colon) bytes.now }
    ensures within { IfSome result (λ n. (n < length bytes.now) × (slice_index bytes.now n ≡ 58)) }
{
    bytes.iter().position(|byte| *byte == b':')
}

/// A text before an ASCII character, and behind it.
fn parts_around(text: &str, at: usize) -> (&str, &str)
    requires within { at < length text.now }
    requires ascii { slice_index text.now at < 128 }
    ensures before { result.0.now ≡ take at text.now }
    ensures behind { result.1.now ≡ drop (at + 1) text.now }
{
    (&text[..at], &text[at + 1..])
}

/// What stands before the first colon of a text, and behind it.
pub fn cut_at_colon<'a>(text: &'a str) -> Option<(&'a str, &'a str)>
    ensures { option_map pair_view result ≡ spec.cut_at_colon text.entry.now }
{
    match colon_offset(text.as_bytes()) {
        None => None,
        Some(at) => Some(parts_around(text, at)),
    }
}

/// The name of an identity, with that of its module before it.
pub fn identity_name(alloc: Global, module_name: &str, name: &str) -> Result<String, AllocError>
    ensures { IfOk result (λ text. string_bytes text ≡ spec.identity_name module_name.now name.now) }
{
    let mut text = String::from_str(alloc, module_name)?;
    text.push_str(":")?;
    text.push_str(name)?;
    Ok(text)
}

/// What stands beside a prefix.
fn beside<'a>(entries: &[(&'a str, &'a str)], prefix: &str) -> Option<&'a str>
    ensures { option_map (λ m. m.now) result ≡ beside entries.now prefix.now }
{
    'entries: for entry in entries {
        if prefix == entry.0 {
            return Some(entry.1);
        }
    }
    None
}

/// The module for which a prefix stands.
fn module_prefixed<'a>(names: &ModuleNames<'a>, prefix: &str) -> Option<&'a str>
    ensures { option_map (λ m. m.now) result
        ≡ spec.module_prefixed (module_names_view names.now) prefix.now }
{
    beside(names.prefixed, prefix)
}

/// The name of the identity that a text of a module names.
fn name_stated(
    alloc: Global,
    names: &ModuleNames<'_>,
    text: &str,
) -> Result<Option<String>, AllocError>
    ensures { IfOk result (λ name. option_map string_bytes name
        ≡ spec.name_stated (module_names_view names.now) text.now) }
{
    match cut_at_colon(text) {
        None => Ok(Some(identity_name(alloc, names.own, text)?)),
        Some((prefix, name)) => match module_prefixed(names, prefix) {
            None => Ok(None),
            Some(module_name) => Ok(Some(identity_name(alloc, module_name, name)?)),
        },
    }
}

fn holds(numbers: &BTreeSet<i64>, number: &i64) -> bool
    ensures { result ≡ contains int_cmp numbers.now number.now }
{
    numbers.contains(number)
}

/// Whether a number is among some.
fn is_numbered(numbers: &BTreeSet<i64>, number: i64) -> bool
    ensures { result ≡ is_numbered numbers.now.keys number }
{
    holds(numbers, &number)
}

impl Identities {
    ghost use Rattle.std.specs.Prelude.{◌≡◌, option_map, IfOk, string_bytes};
    ghost use Rattle.yspec.specs.types.Identities as spec;
    ghost use Rattle.yspec.specs.types.Types as types;
    ghost use Rattle.yspec.specs.types.Values as values;
    ghost use Rattle.yspec.specs.types.Types.{identity_named, number_value};
    ghost use Rattle.ytype_simple.specs.Identities.{identities_view, module_names_view};

    /// Those of these names that have one of these numbers; a name without a module is of the one of this name.
    pub fn new(home: Rc<String>, names: Rc<Names>, taken: Rc<BTreeSet<i64>>) -> Identities
        ensures { identities_view result
            ≡ types.identity_base (string_bytes home.value) names.value taken.value.keys }
    {
        Identities { home, names, taken }
    }

    /// The same in a module of another name.
    pub fn within(&self, home: &Rc<String>) -> Result<Identities, AllocError>
        ensures { IfOk result (λ i. identities_view i
            ≡ types.base_in (string_bytes home.now.value) (identities_view self.now)) }
    {
        Ok(Identities {
            home: home.clone()?,
            names: self.names.clone()?,
            taken: self.taken.clone()?,
        })
    }

    /// The name of the module whose identities are named without one.
    pub fn home(&self) -> &str
        ensures { result.now ≡ string_bytes self.now.home.value }
    {
        self.home.as_str()
    }

    /// The names of all identities, by number.
    pub fn names(&self) -> &Names
        ensures { result.now ≡ self.now.names.value }
    {
        &self.names
    }

    /// Whether the identity of a number is taken.
    pub fn takes(&self, number: i64) -> bool
        ensures { result ≡ types.is_numbered self.now.taken.value.keys number }
    {
        is_numbered(&self.taken, number)
    }

    /// The number of the identity of a name, where it is taken.
    fn number_named(&self, name: &str) -> Option<i64>
        ensures { option_map number_value result
            ≡ identity_named self.now.names.value self.now.taken.value.keys name.now }
    {
        match self.names.number_of(name) {
            None => None,
            Some(number) => {
                if self.takes(number) {
                    Some(number)
                } else {
                    None
                }
            }
        }
    }

    /// The number of the identity that a text in a document names.
    pub(crate) fn taken(&self, alloc: Global, text: &str) -> Result<Option<i64>, AllocError>
        ensures { IfOk result (λ number. option_map number_value number
            ≡ types.text_taken (identities_view self.now) text.now) }
    {
        match cut_at_colon(text) {
            Some(_) => Ok(self.number_named(text)),
            None => {
                let name = identity_name(alloc, self.home.as_str(), text)?;
                Ok(self.number_named(name.as_str()))
            }
        }
    }

    /// The number of the identity that a text of a module names.
    pub(crate) fn read(
        &self,
        alloc: Global,
        names: &ModuleNames<'_>,
        text: &str,
    ) -> Result<Option<i64>, AllocError>
        ensures { IfOk result (λ number. option_map number_value number
            ≡ values.base_read (module_names_view names.now) (identities_view self.now) text.now) }
    {
        match name_stated(alloc, names, text)? {
            None => Ok(None),
            Some(name) => Ok(self.number_named(name.as_str())),
        }
    }
}
