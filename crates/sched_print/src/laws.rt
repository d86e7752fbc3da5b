//! What holds of the texts of entries.

ghost use Rattle.sched_print.specs.Laws.{LinesTellEntries, LinesAreLines, TextsTellEntries};

/// Two different entries have different lines.
pub fn lines_tell_entries()
    ensures { LinesTellEntries }
{}

/// A line has one newline, its last byte.
pub fn lines_are_lines()
    ensures { LinesAreLines }
{}

/// A text is the text of one list of entries alone.
pub fn texts_tell_entries()
    ensures { TextsTellEntries }
{}
