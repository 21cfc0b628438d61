//! Parts of lists.

ghost use Rattle.std.specs.Prelude.{◌≡◌, drop, take};

/// The items behind so many.
pub(crate) fn items_behind<T>(items: &[T], number: usize) -> &[T]
    ensures { result.now ≡ drop number items.now }
{
    if number < items.len() {
        &items[number..]
    } else {
        &[]
    }
}

/// The first items, so many where there are as many.
pub(crate) fn first_items<T>(items: &[T], number: usize) -> &[T]
    ensures { result.now ≡ take number items.now }
{
    if number < items.len() {
        &items[..number]
    } else {
        items
    }
}
