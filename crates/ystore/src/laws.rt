//! Keys that are the same, and what a loan leaves.

ghost use Rattle.std.specs.Prelude.{◌≡◌, ◌+◌, ◌≤◌, true};
ghost use Rattle.ystore.specs.Store.{alloc, entry_at, loans, reads, same_key};
ghost use Rattle.ystore.specs.Views.{lent, new_loan, store_of};

use crate::index::same_found;
use crate::key::Key;

/// A key is the same as itself, and keys that are the same find the same in each store.
pub fn same_keys()
    ensures itself { (key : _) → same_key key key ≡ true }
    ensures found { (nodes : _) → (key : _) → (other : _) → same_key key other ≡ true
        → entry_at nodes key ≡ entry_at nodes other }
{
    same_found::<Key>();
}

/// However long a store is lent, it lies where it lay, counts one loan more than before, and no fewer reading calls.
pub fn kept_loans()
    ensures alloc { (name : _) → (before : _) → (c : _) → lent c ≡ new_loan name before
        → alloc (store_of c) ≡ alloc before }
    ensures loans { (name : _) → (before : _) → (c : _) → lent c ≡ new_loan name before
        → loans (store_of c) ≡ loans before + 1 }
    ensures reads { (name : _) → (before : _) → (c : _) → lent c ≡ new_loan name before
        → reads before ≤ reads (store_of c) }
{}
