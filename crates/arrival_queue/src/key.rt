//! Keys of two parts.

ghost use Rattle.std.specs.Prelude.{◌≡◌};
ghost use Rattle.arrival_queue.specs.Queues.{is_lesser_key};

/// What a queue is sorted by: the first part, then the second.
#[derive(Clone, Copy)]
pub struct Key {
    pub first: i128,
    pub second: u64,
}

/// Whether a key is less than another.
pub fn is_less(a: Key, b: Key) -> bool
    ensures { result ≡ is_lesser_key a b }
{
    a.first < b.first || (!(b.first < a.first) && a.second < b.second)
}
