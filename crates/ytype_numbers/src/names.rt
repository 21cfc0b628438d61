//! Names with their numbers, and how each is found.

ghost use Rattle.std.specs.Prelude.{◌≡◌, ◌++◌, ◌∷◌, ◌+ℤ◌, int_lt, pos, true, [], map, option_map, option_copied, find, ok_or, IfOk};
ghost use Rattle.std.specs.Ordering.{int_eq};
ghost use Rattle.std.specs.List.{list_all, list_any};
ghost use Rattle.yspec.specs.text.Text.{is_text};
ghost use Rattle.yspec.specs.types.Names.{next_number, is_among, is_like};
ghost use Rattle.yspec.specs.Results.{Gives};
ghost use Rattle.ytype_numbers.specs.Words.{narrow_refusal, named, same};
ghost use Rattle.ytype_numbers.specs.Tables.{assigned, AreWords, new_placed, number_named, AreAlike, HasMore};

use crate::fault::NarrowFault;
use std::alloc::{AllocError, Global};
use std::collections::BTreeMap;
use std::marker::Model;

/// The numbers of names.
type Table = BTreeMap<String, i64>;

/// The names of an enumeration or of bits in the order of their numbers. Each is found by its number, and by its name:
/// a few names are looked at one by one, and many are found by a table.
#[derive(Debug, Drop)]
pub struct Names {
    by_number: BTreeMap<i64, String>,
    by_name: Option<Table>,
}

/// So many names are found without a table.
const FEW: usize = 8;

impl Model for Names {
    ghost use Rattle.std.specs.Prelude.{List};
    ghost use Rattle.yspec.specs.types.Names as names;

    ghost Value = { List names.Assigned };

    ghost use Rattle.ytype_numbers.specs.Tables.{assigned, AreWords, Finds};

    ghost view = { λ n. assigned n.by_number.entries };

    ghost invariant = { λ n. Finds n.by_name (assigned n.by_number.entries) };
}

fn copy_of(table: &Option<Table>) -> Result<Option<Table>, AllocError>
    ensures { IfOk result (λ copy. AreAlike table.now copy) }
{
    match table {
        None => Ok(None),
        Some(table) => Ok(Some(table.clone()?)),
    }
}

impl Clone for Names {
    ghost use Rattle.std.specs.Prelude.{◌≡◌};

    ghost is_clone = { λ names copy. copy ≡ names };

    fn clone(&self) -> Result<Names, AllocError>
        ensures { IfOk result (λ copy. copy ≡ self.now) }
    {
        Ok(Names {
            by_number: self.by_number.clone()?,
            by_name: copy_of(&self.by_name)?,
        })
    }
}

fn number_behind(number: i64) -> i128
    ensures { result ≡ number +ℤ pos 1 }
{
    i128::from(number) + 1
}

/// A table with one name more, where there is a table.
fn with_name(
    alloc: Global,
    table: Option<Table>,
    name: &str,
    number: i64,
) -> Result<Option<Table>, AllocError>
    ensures { IfOk result (λ more. HasMore table more name.now number) }
{
    match table {
        None => Ok(None),
        Some(mut table) => {
            table.insert(String::from_str(alloc, name)?, number)?;
            Ok(Some(table))
        }
    }
}

/// The number of a name among those by number.
fn number_among(by_number: &BTreeMap<i64, String>, text: &str) -> Option<i64>
    ensures { result ≡ number_named text.now (assigned by_number.now.entries) }
{
    for (number, name) in by_number {
        if name.as_str() == text {
            return Some(*number);
        }
    }
    None
}

impl Names {
    /// No names, where so many are to come.
    pub fn new(alloc: Global, count: usize) -> Names
        ensures { result ≡ [] }
    {
        let by_name = if count <= FEW {
            None
        } else {
            Some(BTreeMap::new(alloc))
        };
        Names {
            by_number: BTreeMap::new(alloc),
            by_name,
        }
    }

    /// The number of a name.
    pub fn number_of(&self, text: &str) -> Option<i64>
        ensures { result ≡ option_map (λ a. a.number)
            (find (λ a. is_text text.now a.name) self.now) }
    {
        match &self.by_name {
            None => number_among(&self.by_number, text),
            Some(table) => table.get(text).copied(),
        }
    }

    /// Whether there is such a name.
    pub fn has_name(&self, text: &str) -> bool
        ensures { result ≡ is_among (map (λ a. a.name) self.now) text.now }
    {
        self.number_of(text).is_some()
    }

    /// The names by their numbers.
    pub fn by_number(&self) -> &BTreeMap<i64, String>
        ensures entries { assigned result.now.entries ≡ self.now }
        ensures words { AreWords (assigned result.now.entries) }
    {
        &self.by_number
    }

    /// The name of a number.
    pub fn name_of(&self, number: i128) -> Option<&str>
        ensures { option_copied result
            ≡ option_map (λ a. a.name) (find (λ a. int_eq a.number number) self.now) }
    {
        match i64::try_from(number) {
            Err(_) => None,
            Ok(number) => match self.by_number.get(&number) {
                None => None,
                Some(name) => Some(name.as_str()),
            },
        }
    }

    /// The number of a name that is given none.
    pub(crate) fn next_number(&self) -> i128
        ensures { result ≡ next_number self.now }
    {
        match self.by_number.last_key_value() {
            None => 0,
            Some((number, _)) => number_behind(*number),
        }
    }

    fn is_taken(&self, name: &str, number: i64) -> bool
        ensures { result ≡ list_any (is_like (named name.now number)) self.now }
    {
        self.has_name(name) || self.by_number.contains_key(&number)
    }

    /// With one name more, of a number above all others. Of two that are the same the first is found.
    pub fn with_later(self, alloc: Global, name: &str, number: i64) -> Result<Names, AllocError>
        requires later { list_all (λ a. int_lt a.number number) self ≡ true }
        ensures { IfOk result (λ names. names ≡ self ++ named name.now number ∷ []) }
    {
        let is_known = self.has_name(name);
        let Names {
            mut by_number,
            by_name,
        } = self;
        by_number.insert(number, String::from_str(alloc, name)?)?;
        let by_name = if is_known {
            by_name
        } else {
            with_name(alloc, by_name, name, number)?
        };
        Ok(Names { by_number, by_name })
    }

    /// With one name more. Refused where the name or the number is there.
    pub(crate) fn with(self, alloc: Global, name: &str, number: i64) -> Result<Names, NarrowFault>
        ensures { Gives same narrow_refusal result
            (ok_or (new_placed (named name.now number) self) tt) }
    {
        if self.is_taken(name, number) {
            return Err(NarrowFault::Refused);
        }
        let Names {
            mut by_number,
            by_name,
        } = self;
        by_number.insert(number, String::from_str(alloc, name)?)?;
        let by_name = with_name(alloc, by_name, name, number)?;
        Ok(Names { by_number, by_name })
    }
}
