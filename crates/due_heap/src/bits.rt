//! A set of ids below 64 as a word, with a bit an id.

ghost use Rattle.std.specs.Prelude.{ℕ, ◌≡◌, ◌<◌, ◌||◌, ◌&&◌, not, true, false, IfNone, IfSome};
ghost use Rattle.due_heap.specs.Words.{ChangesId, IsLowest, has_core_bit};

/// The set with the id or without it, as wanted.
#[inline]
pub fn put_id(set: u64, id: u16, wanted: bool) -> u64
    requires { id < 64 }
    ensures { ChangesId id wanted set result }
{
    if wanted {
        set | (1 << id)
    } else {
        set & !(1 << id)
    }
}

/// The set without an id that it has.
#[inline]
pub fn without(set: u64, id: u16) -> u64
    requires few { id < 64 }
    requires has { has_core_bit set id ≡ true }
    ensures change { ChangesId id false set result }
    ensures less { result < set }
{
    set & !(1 << id)
}

/// The lowest id of the set. `None` where it has none.
#[inline]
pub fn lowest(set: u64) -> Option<u16>
    ensures none { IfNone result ((id : ℕ) → has_core_bit set id ≡ false) }
    ensures lowest { IfSome result (IsLowest set) }
{
    if set == 0 {
        None
    } else {
        Some(set.trailing_zeros() as u16)
    }
}

/// The ids of two sets.
#[inline]
pub fn union(a: u64, b: u64) -> u64
    ensures { (id : ℕ) → has_core_bit result id ≡ (has_core_bit a id || has_core_bit b id) }
{
    a | b
}

/// The ids of a set that another has not.
#[inline]
pub fn difference(a: u64, b: u64) -> u64
    ensures { (id : ℕ) → id < 64 → has_core_bit result id
        ≡ (has_core_bit a id && not (has_core_bit b id)) }
{
    a & !b
}
