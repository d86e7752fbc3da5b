//! Lists of places, each of which has something or is empty.

ghost use Rattle.std.specs.Prelude.{◌≡◌, slice_set};
ghost use Rattle.std.specs.Option.{option_copied};
ghost use Rattle.sched_model.specs.Places.{at_place, clear_at};

use crate::row::Row;

/// What stands at this place; nothing where there is no such place.
pub fn item_at<T>(places: &[Option<T>], place: usize) -> Option<&T>
    ensures { option_copied result ≡ at_place places.now place }
{
    if place < places.len() {
        places[place].as_ref()
    } else {
        None
    }
}

/// What stands at the place from now on, where there is such a place.
pub fn set_place<T: Drop>(places: &mut Row<Option<T>>, place: u8, item: Option<T>)
    ensures { places.new ≡ slice_set places.old place item }
{
    let n = place as usize;
    if n < places.len() {
        places.replace(n, item);
    }
}

/// What stands at this place is taken out of it.
pub fn take_item<T>(places: &mut Row<Option<T>>, place: usize) -> Option<T>
    ensures item { result ≡ at_place places.old place }
    ensures places { places.new ≡ clear_at place places.old }
{
    if place < places.len() {
        places.replace(place, None)
    } else {
        None
    }
}
