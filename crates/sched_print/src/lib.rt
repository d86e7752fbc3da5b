//! The text of an entry of a history: one line, written and read back.
#![tactic(auto)]

pub mod entry_line;
pub mod laws;
pub mod line_buf;
pub mod put;
mod put_answers;
mod read;
mod read_answers;
pub mod read_line;
mod scan;
mod words;

pub use entry_line::EntryLine;
pub use line_buf::LineBuf;
pub use put::put_entry;
pub use read_line::{NotEntry, read_entry};
