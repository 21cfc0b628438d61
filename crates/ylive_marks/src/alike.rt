//! Keys that are the same.

ghost use Rattle.std.specs.Prelude.{◌≡◌, true};
ghost use Rattle.std.specs.Ordering.{is_eq};
ghost use Rattle.ylive_marks.specs.Keys.{AreKeys};

use ystore::{Key, same_keys};

/// What is known of keys that are the same: they find the same, and are held in the same slot.
pub fn keys_alike()
    ensures { AreKeys }
{
    same_keys();
    turned::<Key>();
}

/// Of keys that are the same each is the same as the other, and as what the other is.
fn turned<K: Ord>()
    ensures turned { (key : K) → (other : K) → is_eq (K.cmp key other) ≡ true → is_eq (K.cmp other key) ≡ true }
    ensures alike { (key : K) → (other : K) → (third : K) → is_eq (K.cmp key other) ≡ true
        → is_eq (K.cmp key third) ≡ is_eq (K.cmp other third) }
{}
