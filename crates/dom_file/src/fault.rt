//! What is wrong with a domain file, and where.

ghost use Rattle.std.specs.Prelude.{◌≡◌};

use std::alloc::{AllocError, Global};
use std::fmt;
use std::marker::Model;
use thiserror::Error;

/// Which table of the file has the fault.
#[derive(Clone, Copy, Debug, Error)]
pub enum TableName {
    #[error("top")]
    Top,
    #[error("pool")]
    Pool,
    #[error("domain")]
    Domain,
}

/// Why a key is refused.
#[derive(Clone, Copy, Debug, Error)]
pub enum DomCause {
    /// The key has to be there, and is not.
    #[error("Missing")]
    Missing,
    /// The value has another TOML type, or is no name.
    #[error("Kind")]
    Kind,
    /// This number, or this count of elements, is outside its range.
    #[error("Range {0}")]
    Range(i64),
    /// The name or the core was used before.
    #[error("Twice")]
    Twice,
    /// There is no such scheduler, or no such pool.
    #[error("NoSuch")]
    NoSuch,
    /// The domain's pool has no processor.
    #[error("Empty")]
    Empty,
    /// The table has no such key.
    #[error("Unknown")]
    Unknown,
}

/// A text. Contracts see the list of its bytes.
#[derive(Debug, Drop)]
pub struct Text {
    text: String,
}

impl Model for Text {
    ghost use Rattle.std.specs.Prelude.{List, ℕ, string_bytes};

    ghost Value = { List ℕ };

    ghost view = { λ t. string_bytes t.text };
}

impl Text {
    ghost use Rattle.std.specs.Prelude.{◌≡◌, IfOk};

    /// A copy of the text.
    pub fn new(alloc: Global, text: &str) -> Result<Text, AllocError>
        ensures { IfOk result (λ t. t ≡ text.now) }
    {
        Ok(Text {
            text: String::from_str(alloc, text)?,
        })
    }

    /// The text. It takes no memory.
    pub fn as_str(&self) -> &str
        ensures { result.now ≡ self.now }
    {
        self.text.as_str()
    }
}

/// As many bytes of a text are shown at most.
const MOST_SHOWN: usize = 64;

/// The text is shown on one line, whatever it holds: a byte that is no printable ASCII character, and each backslash, as `\x` and
/// two digits, and of a text with more than 64 bytes the first 64, with `..` behind them.
impl fmt::Display for Text {
    fn fmt<W: fmt::Write>(&self, f: &mut fmt::Formatter<W>) -> fmt::Result {
        let bytes = self.text.as_bytes();
        for byte in bytes.iter().take(MOST_SHOWN) {
            if byte.is_ascii_graphic() && *byte != b'\\' {
                write!(f, "{}", char::from(*byte))?;
            } else {
                write!(f, "\\x{:02x}", byte)?;
            }
        }
        if bytes.len() > MOST_SHOWN {
            write!(f, "..")?;
        }
        Ok(())
    }
}

/// Why a domain file gives no machine. A fault is printed as its table, the number of the table, the key and the cause.
#[derive(Debug, Drop, Error)]
pub enum DomFault {
    /// Memory was wanted and not found.
    #[error("no memory")]
    NoMemory,
    /// The bytes are no TOML document.
    #[error("not TOML")]
    BadToml,
    /// The key of the table with this number is refused for this cause. The number of the top table is 0.
    #[error("{table} {index} {key} {cause}")]
    Bad {
        table: TableName,
        index: u32,
        key: Text,
        cause: DomCause,
    },
}
