//! Marks by number.

ghost use Rattle.std.specs.Prelude.{◌≡◌, true, slice_set};

/// Sets a mark, if there is such a place.
pub fn mark(marks: &mut Vec<bool>, place: usize)
    ensures { marks.new.items ≡ slice_set marks.old.items place true }
{
    if let Some(mark) = marks.get_mut(place) {
        *mark = true;
    }
}
