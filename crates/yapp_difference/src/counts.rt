//! How many faults there are of a key.

ghost use Rattle.std.specs.Prelude.{◌≡◌};

use crate::key::Key;
use indexmap::IndexMap;
use std::alloc::{AllocError, Global};

/// How many faults there are of a key, and how many of them are taken.
#[derive(Clone, Copy, Debug, Drop)]
pub struct Count {
    pub all: usize,
    pub taken: usize,
}

impl Count {
    const NONE: Count = Count { all: 0, taken: 0 };
}

/// How many faults there are of each key, and how many of them are taken.
#[derive(Debug, Drop)]
pub struct Counts {
    by_key: IndexMap<Key, Count>,
}

impl Counts {
    ghost use Rattle.std.specs.Prelude.{◌≡◌, ◌+◌, ◌-◌, ◌<◌, ◌^◌, ◌&&◌, IfOk, OnOk, nat_lt, if◌then◌else◌};
    ghost use Rattle.yapp_difference.specs.Keys.{same_key};
    ghost use Rattle.yapp_difference.specs.KeyView.{key_view};
    ghost use Rattle.yapp_difference.specs.Counting.{all_of, taken_of, count_of};

    /// None of any key, with room for some keys.
    pub(crate) fn with_capacity(alloc: Global, keys: usize) -> Result<Counts, AllocError>
        ensures all { IfOk result (λ counts. (k : _) → all_of counts k ≡ 0) }
        ensures taken { IfOk result (λ counts. (k : _) → taken_of counts k ≡ 0) }
    {
        Ok(Counts {
            by_key: IndexMap::with_capacity(alloc, keys)?,
        })
    }

    fn count_of(&self, key: &Key) -> Count
        ensures { result ≡ count_of self.now (key_view key.now) }
    {
        match self.by_key.get(key) {
            Some(count) => *count,
            None => Count::NONE,
        }
    }

    fn put(&mut self, key: Key, count: Count) -> Result<(), AllocError>
        ensures { OnOk result ((k : _) → count_of self.new k
            ≡ (if same_key (key_view key) k then count else count_of self.old k)) }
    {
        self.by_key.insert(key, count)?;
        Ok(())
    }

    /// Counts one more of a key.
    pub(crate) fn add(&mut self, key: Key) -> Result<(), AllocError>
        requires { all_of self.old (key_view key) + 1 < 2 ^ 64 }
        ensures all { OnOk result ((k : _) → all_of self.new k
            ≡ (if same_key (key_view key) k then all_of self.old k + 1 else all_of self.old k)) }
        ensures taken { OnOk result ((k : _) → taken_of self.new k ≡ taken_of self.old k) }
    {
        let Count { all, taken } = self.count_of(&key);
        self.put(
            key,
            Count {
                all: all + 1,
                taken,
            },
        )
    }

    /// Takes one of a key, if one is left. Answers whether there was.
    pub(crate) fn take(&mut self, key: Key) -> Result<bool, AllocError>
        ensures result { IfOk result (λ was. was ≡ nat_lt (taken_of self.old (key_view key)) (all_of self.old (key_view key))) }
        ensures all { OnOk result ((k : _) → all_of self.new k ≡ all_of self.old k) }
        ensures taken { IfOk result (λ was. (k : _) → taken_of self.new k
            ≡ (if was && same_key (key_view key) k then taken_of self.old k + 1 else taken_of self.old k)) }
    {
        let Count { all, taken } = self.count_of(&key);
        if all <= taken {
            return Ok(false);
        }
        self.put(
            key,
            Count {
                all,
                taken: taken + 1,
            },
        )?;
        Ok(true)
    }

    /// Gives back one of a key, if one is taken. Answers whether one was.
    pub(crate) fn give(&mut self, key: Key) -> Result<bool, AllocError>
        ensures result { IfOk result (λ was. was ≡ nat_lt 0 (taken_of self.old (key_view key))) }
        ensures taken { IfOk result (λ was. (k : _) → taken_of self.new k
            ≡ (if was && same_key (key_view key) k then taken_of self.old k - 1 else taken_of self.old k)) }
    {
        let Count { all, taken } = self.count_of(&key);
        if taken == 0 {
            return Ok(false);
        }
        self.put(
            key,
            Count {
                all,
                taken: taken - 1,
            },
        )?;
        Ok(true)
    }
}
