//! Short lists, which take no memory of their own.

ghost use Rattle.std.specs.Prelude.{◌≡◌, ◌≤◌, replicate};

use arrayvec::ArrayVec;
use std::marker::Model;

/// A list of at most N items, which lie in the value itself. Contracts see the list of its items.
#[derive(Drop)]
pub struct Short<T, const N: usize> {
    items: ArrayVec<T, N>,
}

impl<T, const N: usize> Model for Short<T, N> {
    ghost use Rattle.std.specs.Prelude.{List};

    ghost Value = { List T };

    ghost view = { λ s. s.items.items };
}

impl<T, const N: usize> Short<T, N> {
    ghost use Rattle.std.specs.Prelude.{◌≡◌, ◌==◌, ◌↔◌, ◌<◌, ◌≤◌, IsSome, IfSome, length, slice_index_or};
    ghost use Rattle.std.specs.Borrow.{sem};
    ghost use Rattle.sched_model.specs.Loans.{short_lends_get};

    /// The items, at most N.
    pub fn as_slice(&self) -> &[T]
        ensures items { result.now ≡ self.now }
        ensures fits { length result.now ≤ N }
    {
        self.items.as_slice()
    }

    /// How many items there are, at most N.
    pub fn len(&self) -> usize
        ensures items { result ≡ length self.now }
        ensures fits { result ≤ N }
    {
        self.items.len()
    }

    /// Whether there is no item.
    pub fn is_empty(&self) -> bool
        ensures { result ≡ (length self.now == 0) }
    {
        self.items.is_empty()
    }

    /// The item at this place, for writing, where there is one.
    pub fn get_mut(&mut self, place: usize) -> Option<&mut T>
        ensures* writes_back { sem 𝓛 (short_lends_get T.row N.row self.entry place result) }
        ensures some { IsSome result ↔ (place < length self.old) }
        ensures value { IfSome result (λ x. x.now ≡ slice_index_or self.old place x.now) }
    {
        self.items.get_mut(place)
    }
}

impl<T: Default + Drop, const N: usize> Short<T, N> {
    ghost use Rattle.std.specs.Prelude.{◌≡◌, ◌++◌, ◌∷◌, [], ◌<◌, length, slice_index_or, remove};

    /// A list without items.
    pub fn new() -> Self
        ensures { result ≡ [] }
    {
        Short {
            items: ArrayVec::new(),
        }
    }

    /// Adds an item at the end.
    pub fn push(&mut self, item: T)
        requires { length self.old < N }
        ensures { self.new ≡ self.old ++ item ∷ [] }
    {
        self.items.push(item);
    }

    /// Takes out the item at this place; those behind it move up.
    pub fn remove(&mut self, place: usize) -> T
        requires { place < length self.old }
        ensures value { result ≡ slice_index_or self.old place result }
        ensures items { self.new ≡ remove self.old place }
    {
        self.items.remove(place)
    }

    /// Takes out all items.
    pub fn clear(&mut self)
        ensures { self.new ≡ [] }
    {
        self.items.clear();
    }
}

/// The item so many times.
pub fn copies<T: Copy + Default + Drop>(item: T, count: u8) -> Short<T, 32>
    requires { count ≤ 32 }
    ensures { result ≡ replicate count item }
{
    let mut items = Short::new();
    for _n in 0..count {
        items.push(item);
    }
    items
}

/// The items once more, where each is copied. It takes no memory.
pub fn same_items<T: Copy + Default + Drop, const N: usize>(items: &Short<T, N>) -> Short<T, N>
    ensures { result ≡ items.now }
{
    let mut all = Short::new();
    for item in items.as_slice() {
        all.push(*item);
    }
    all
}
