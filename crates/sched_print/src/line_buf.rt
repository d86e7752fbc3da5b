//! The buffer that a line is written into.

ghost use Rattle.std.specs.Prelude.{◌≡◌, ◌+◌, ◌<◌};

use itoa::Buffer;
use std::marker::Model;

/// The most bytes that a line buffer holds. The longest line has fewer.
pub const LINE_MOST: usize = 192;

/// A line that is being written, of at most 192 bytes. Contracts see the list of its bytes.
#[derive(Drop)]
pub struct LineBuf {
    bytes: [u8; LINE_MOST],
    len: usize,
}

/// The character of a number below 10.
fn digit(number: u64) -> u8
    requires { number < 10 }
    ensures { result ≡ 48 + number }
{
    b'0' + number as u8
}

impl Model for LineBuf {
    ghost use Rattle.std.specs.Prelude.{◌≤◌, List, ℕ, take};

    ghost Value = { List ℕ };

    ghost view = { λ b. take b.len b.bytes };

    ghost invariant = { λ b. b.len ≤ 192 };
}

impl LineBuf {
    ghost use Rattle.std.specs.Prelude.{◌≡◌, ◌+◌, ◌≤◌, ◌++◌, ◌∷◌, [], length, take, decimal};
    ghost use Rattle.std.specs.Fmt.{signed_decimal};

    /// A buffer without bytes.
    pub fn new() -> LineBuf
        ensures { result ≡ [] }
    {
        LineBuf {
            bytes: [0; LINE_MOST],
            len: 0,
        }
    }

    /// Takes out all bytes.
    pub fn clear(&mut self)
        ensures { self.new ≡ [] }
    {
        self.len = 0;
    }

    /// How many bytes there are.
    pub fn len(&self) -> usize
        ensures { result ≡ length self.now }
    {
        self.len
    }

    /// Keeps the first bytes, so many of them, and takes out the rest.
    pub fn cut(&mut self, count: usize)
        ensures { self.new ≡ take count self.old }
    {
        if count < self.len {
            self.len = count;
        }
    }

    /// The bytes, of which there are at most 192.
    pub fn as_bytes(&self) -> &[u8]
        ensures bytes { result.now ≡ self.now }
        ensures length { length result.now ≤ 192 }
    {
        &self.bytes[..self.len]
    }

    /// Adds these bytes at the end.
    pub fn put(&mut self, bytes: &[u8])
        requires { length self.old + length bytes.now ≤ 192 }
        ensures bytes { self.new ≡ self.old ++ bytes.now }
        ensures length { length self.new ≡ length self.old + length bytes.now }
    {
        let end = self.len + bytes.len();
        self.bytes[self.len..end].copy_from_slice(bytes);
        self.len = end;
    }

    /// Adds this byte at the end.
    #[inline]
    fn push(&mut self, byte: u8)
        requires { length self.old + 1 ≤ 192 }
        ensures bytes { self.new ≡ self.old ++ byte ∷ [] }
        ensures length { length self.new ≡ length self.old + 1 }
    {
        self.bytes[self.len] = byte;
        self.len += 1;
    }

    /// Adds the digits of a number at the end: at most 20.
    pub fn put_number(&mut self, number: u64)
        requires { length self.old + 20 ≤ 192 }
        ensures bytes { self.new ≡ self.old ++ decimal number }
        ensures length { length self.new ≤ length self.old + 20 }
    {
        // Most numbers of a line have one digit or two.
        if number < 10 {
            self.push(digit(number));
        } else if number < 100 {
            self.push(digit(number / 10));
            self.push(digit(number % 10));
        } else {
            let mut buffer = Buffer::new();
            self.put(buffer.format(number).as_bytes());
        }
    }

    /// Adds these bytes and then the digits of a number.
    pub fn put_field(&mut self, before: &[u8], number: u64)
        requires { length self.old + length before.now + 20 ≤ 192 }
        ensures bytes { self.new ≡ self.old ++ before.now ++ decimal number }
        ensures length { length self.new ≤ length self.old + length before.now + 20 }
    {
        self.put(before);
        self.put_number(number);
    }

    /// Adds these bytes and a number, and then other bytes and another number.
    pub fn put_two_fields(&mut self, before: &[u8], first: u64, between: &[u8], resets: u64)
        requires { length self.old + length before.now + length between.now + 40 ≤ 192 }
        ensures bytes { self.new ≡ self.old ++ before.now ++ decimal first ++ between.now
            ++ decimal resets }
        ensures length { length self.new ≤ length self.old + length before.now + length between.now
            + 40 }
    {
        self.put_field(before, first);
        self.put_field(between, resets);
    }

    /// Adds these bytes and then the digits of a number, behind a hyphen where it is negative.
    pub fn put_signed_field(&mut self, before: &[u8], number: i64)
        requires { length self.old + length before.now + 20 ≤ 192 }
        ensures bytes { self.new ≡ self.old ++ before.now ++ signed_decimal number }
        ensures length { length self.new ≤ length self.old + length before.now + 20 }
    {
        self.put(before);
        let mut buffer = Buffer::new();
        let digits = buffer.format(number);
        self.put(digits.as_bytes());
    }
}
