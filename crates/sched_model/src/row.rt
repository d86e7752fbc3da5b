//! Lists of any length.

ghost use Rattle.std.specs.Prelude.{◌≡◌, None, replicate, IfOk};

use sched_base::NoMemory;
use std::alloc::Global;
use std::marker::Model;

/// A list. Contracts see the list of its items.
#[derive(Drop)]
pub struct Row<T> {
    items: Vec<T>,
}

impl<T> Model for Row<T> {
    ghost use Rattle.std.specs.Prelude.{List};

    ghost Value = { List T };

    ghost view = { λ r. r.items.items };
}

impl<T> Row<T> {
    ghost use Rattle.std.specs.Prelude.{◌≡◌, ◌<◌, ◌==◌, ◌++◌, ◌∷◌, ◌↔◌, [], IsSome, IfSome, length, slice_index_or, slice_set, OnOk, OnErr};
    ghost use Rattle.std.specs.Borrow.{sem};
    ghost use Rattle.sched_model.specs.Loans.{row_lends_item, row_lends_get};

    /// The list of a vector. It takes no memory.
    pub fn from_vec(items: Vec<T>) -> Row<T>
        ensures { result ≡ items.items }
    {
        Row { items }
    }

    /// The items.
    pub fn as_slice(&self) -> &[T]
        ensures { result.now ≡ self.now }
    {
        self.items.as_slice()
    }

    /// How many items there are.
    pub fn len(&self) -> usize
        ensures { result ≡ length self.now }
    {
        self.items.len()
    }

    /// Whether there is no item.
    pub fn is_empty(&self) -> bool
        ensures { result ≡ (length self.now == 0) }
    {
        self.items.is_empty()
    }

    /// The item at this place, for writing.
    pub fn item_mut(&mut self, place: usize) -> &mut T
        requires { place < length self.old }
        ensures* writes_back { sem 𝓛 (row_lends_item T.row self.entry place result) }
        ensures value { result.now ≡ slice_index_or self.old place result.now }
    {
        &mut self.items[place]
    }

    /// The item at this place, for writing, where there is one.
    pub fn get_mut(&mut self, place: usize) -> Option<&mut T>
        ensures* writes_back { sem 𝓛 (row_lends_get T.row self.entry place result) }
        ensures some { IsSome result ↔ (place < length self.old) }
        ensures value { IfSome result (λ x. x.now ≡ slice_index_or self.old place x.now) }
    {
        self.items.get_mut(place)
    }

    /// Puts an item at this place, and answers what stood there.
    pub fn replace(&mut self, place: usize, item: T) -> T
        requires { place < length self.old }
        ensures old { result ≡ slice_index_or self.old place result }
        ensures new { self.new ≡ slice_set self.old place item }
    {
        std::mem::replace(&mut self.items[place], item)
    }
}

impl<T: Drop> Row<T> {
    ghost use Rattle.std.specs.Prelude.{◌≡◌, ◌++◌, ◌∷◌, [], OnOk, OnErr};

    /// Adds an item at the end. Where memory is wanted for it, nothing changes.
    pub fn push(&mut self, item: T) -> Result<(), NoMemory>
        ensures ok { OnOk result (self.new ≡ self.old ++ item ∷ []) }
        ensures err { OnErr result (self.new ≡ self.old) }
    {
        self.items.push(item)?;
        Ok(())
    }
}

/// So many places, all empty.
pub fn empty_places<T: Drop>(alloc: Global, count: usize) -> Result<Row<Option<T>>, NoMemory>
    ensures { IfOk result (λ row. row ≡ replicate count None) }
{
    let mut places = Vec::new(alloc);
    for i in 0..count {
        places.push(None)?;
    }
    Ok(Row::from_vec(places))
}
