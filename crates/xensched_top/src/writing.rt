//! The schedule of a run, written while the run goes on, as its entries are heard.

use pcpu_threads::Listener;
use sched_io::Sink;
use sched_model::event::Entry;
use sched_print::EntryLine;

/// Who writes the line of each entry that is heard, until a put fails: whether one has failed.
#[derive(Drop)]
pub(crate) struct Writing {
    line: EntryLine,
    pub failed: bool,
}

impl Writing {
    ghost use Rattle.std.specs.Prelude.{◌≡◌, false};

    /// Nothing is written yet.
    pub(crate) fn new() -> Writing
        ensures { result.failed ≡ false }
    {
        Writing {
            line: EntryLine::new(),
            failed: false,
        }
    }
}

impl<K: Sink> Listener<K> for Writing {
    ghost use Rattle.xensched_top.specs.Written.{HasPut};

    ghost has_heard = { HasPut K.told K.faults };

    fn begin(&self, _outlet: &K) {}

    fn hear(&mut self, entry: &Entry, outlet: &mut K) {
        if self.failed {
            return;
        }
        self.line.set(entry);
        self.failed = outlet.put(self.line.as_bytes()).is_err();
    }
}
