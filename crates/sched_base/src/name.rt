//! The names of pools and domains.

ghost use Rattle.std.specs.Prelude.{◌≡◌, ◌≤◌, length};
ghost use Rattle.std.specs.List.{list_all};
ghost use Rattle.sched_base.specs.Names.{is_ascii_letter, is_byte_of_name, is_valid_name};

use arrayvec::ArrayVec;
use std::marker::Model;

/// The most bytes that a name has.
pub const NAME_MOST: usize = 32;

/// A name, of 1 to 32 bytes. Contracts see it as the list of its bytes.
#[derive(Drop)]
pub struct Name {
    bytes: ArrayVec<u8, NAME_MOST>,
}

fn is_letter(b: u8) -> bool
    ensures { result ≡ is_ascii_letter b }
{
    65 <= b && b <= 90 || 97 <= b && b <= 122
}

fn is_name_byte(b: u8) -> bool
    ensures { result ≡ is_byte_of_name b }
{
    is_letter(b) || 48 <= b && b <= 57 || b == 45 || b == 95
}

fn are_name_bytes(bytes: &[u8]) -> bool
    ensures { result ≡ list_all is_byte_of_name bytes.now }
{
    bytes.iter().all(|b| is_name_byte(*b))
}

/// Whether the bytes are a name as files and commands spell it: an ASCII letter, and up to 31 letters, digits, hyphens and underscores.
fn is_name(bytes: &[u8]) -> bool
    ensures { result ≡ is_valid_name bytes.now }
{
    match bytes {
        [] => false,
        [first, others @ ..] => {
            is_letter(*first) && others.len() <= 31 && are_name_bytes(others)
        }
    }
}

/// The bytes in a list of their own.
fn held(bytes: &[u8]) -> ArrayVec<u8, NAME_MOST>
    requires { length bytes.now ≤ 32 }
    ensures { result.items ≡ bytes.now }
{
    let mut all = ArrayVec::new();
    let _ = all.try_extend_from_slice(bytes);
    all
}

impl Model for Name {
    ghost use Rattle.std.specs.Prelude.{List, ℕ};

    ghost Value = { List ℕ };

    ghost use Rattle.sched_base.specs.Names.{IsNameLength};

    ghost view = { λ a. a.bytes.items };

    ghost invariant = { λ a. IsNameLength a.bytes.items };
}

impl Name {
    ghost use Rattle.std.specs.Prelude.{◌≡◌, ◌==◌, bytes_eq, if◌then◌else◌};
    ghost use Rattle.std.specs.Option.{SomeIff};
    ghost use Rattle.sched_base.specs.Names.{IsNameLength, is_valid_name};

    /// The name with these bytes, or `None` exactly where they are none or more than 32.
    pub fn new(bytes: &[u8]) -> Option<Name>
        ensures { SomeIff result (IsNameLength bytes.now) bytes.now }
    {
        if bytes.is_empty() || bytes.len() > NAME_MOST {
            return None;
        }
        Some(Name { bytes: held(bytes) })
    }

    /// The name that the bytes spell, or `None` exactly where they spell none.
    pub fn read(bytes: &[u8]) -> Option<Name>
        ensures { result ≡ (if is_valid_name bytes.now then Some bytes.now else None) }
    {
        if is_name(bytes) {
            Name::new(bytes)
        } else {
            None
        }
    }

    /// The bytes, of which there are 1 to 32.
    pub fn as_bytes(&self) -> &[u8]
        ensures bytes { result.now ≡ self.now }
        ensures length { IsNameLength self.now }
    {
        self.bytes.as_slice()
    }

    /// The same name again. It takes no memory.
    pub fn duplicate(&self) -> Name
        ensures { result ≡ self.now }
    {
        Name {
            bytes: held(self.bytes.as_slice()),
        }
    }

    /// Whether the name has exactly these bytes.
    pub fn is(&self, bytes: &[u8]) -> bool
        ensures { result ≡ bytes_eq self.now bytes.now }
    {
        self.bytes.as_slice() == bytes
    }
}
