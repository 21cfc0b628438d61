//! What is found by its name, the first of each name.

use std::alloc::{AllocError, Global};
use std::collections::BTreeMap;

/// What the first of each name stands for.
#[derive(Drop)]
pub struct FirstNamed<'t, V> {
    by_name: BTreeMap<&'t str, V>,
}

impl<'t, V: Copy> FirstNamed<'t, V> {
    ghost use Rattle.std.specs.Prelude.{◌≡◌, None, Some, if◌then◌else◌, OnOk};
    ghost use Rattle.yspec.specs.Forest.{first_of};
    ghost use Rattle.yspec.specs.text.Text.{Text, is_text};
    ghost use Rattle.ylink_names.specs.FirstNamedView.{named};

    /// Nothing of any name.
    pub fn new(alloc: Global) -> FirstNamed<'t, V>
        ensures { (name : Text) → named result name ≡ None }
    {
        FirstNamed {
            by_name: BTreeMap::new(alloc),
        }
    }

    /// What the first of a name stands for.
    pub fn get(&self, name: &str) -> Option<V>
        ensures { result ≡ named self.now name.now }
    {
        self.by_name.get(name).copied()
    }

    /// Adds one behind those so far.
    pub fn add(&mut self, name: &'t str, value: V) -> Result<(), AllocError>
        ensures { OnOk result ((t : Text) → named self.new t
            ≡ first_of (named self.old t) (if is_text name.now t then Some value else None)) }
    {
        if self.by_name.contains_key(name) {
            return Ok(());
        }
        self.by_name.insert(name, value)?;
        Ok(())
    }
}
