//! The law of entries.

ghost use Rattle.text_laws.specs.Entries.{EntriesArePrintable};

/// Every entry of a run has its numbers in the ranges of the text of an entry, so its text is read back as it. A run may be
/// the beginning of one.
pub fn law_printable()
    ensures { EntriesArePrintable }
{}
