//! An index of nodes by keys.

ghost use Rattle.std.specs.Prelude.{◌≡◌, true, false, OnOk, OnErr};
ghost use Rattle.std.specs.Ordering.{is_eq};
ghost use Rattle.ystore.specs.Entries as entries;
ghost use Rattle.ystore.specs.Index.{entry_by, made_ready};

use crate::entry::Entry;
use std::alloc::{AllocError, Global};
use std::collections::BTreeMap;

/// Makes room at a key for one node more than are awaited. Where memory runs out, all keys have what they had.
pub(crate) fn await_at<K: Ord + Drop>(
    index: &mut BTreeMap<K, Entry>,
    key: K,
    alloc: Global,
) -> Result<(), AllocError>
    ensures changed { OnOk result (entry_by K.cmp index.new key
        ≡ made_ready entries.with_awaited (entry_by K.cmp index.old key)) }
    ensures others { OnOk result ((other : _) → is_eq (K.cmp key other) ≡ false
        → entry_by K.cmp index.new other ≡ entry_by K.cmp index.old other) }
    ensures err { OnErr result ((other : _) → entry_by K.cmp index.new other ≡ entry_by K.cmp index.old other) }
{
    if let Some(entry) = index.get_mut(&key) {
        return entry.await_node();
    }
    let entry = Entry::awaiting(alloc)?;
    match index.insert(key, entry) {
        Ok(_) => Ok(()),
        Err(_) => Err(AllocError),
    }
}

/// A key is the same as itself, and keys that are the same find the same.
pub(crate) fn same_found<K: Ord>()
    ensures itself { (key : K) → is_eq (K.cmp key key) ≡ true }
    ensures found { (index : _) → (key : K) → (other : K) → is_eq (K.cmp key other) ≡ true
        → entry_by K.cmp index key ≡ entry_by K.cmp index other }
{}
