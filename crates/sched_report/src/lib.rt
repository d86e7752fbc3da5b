//! The report of a run: what each unit and each core did, as sums over the entries.
//!
//! A report is told the entries one by one and keeps a tally of each unit and of each core; an entry costs the same however
//! long the run is. `specs/` says what is reported by the stays of units on cores, and not by this tally.
#![tactic(auto)]

ghost use Rattle.std.specs.Prelude.{◌≡◌, ◌+◌, ◌^◌, ◌<◌, ◌++◌, ◌∷◌, [], IfOk, Some, length, slice_get};
ghost use Rattle.sched_report.specs.Reports.{IsSized, report_of, units as unit_ids};
ghost use Rattle.sched_report.specs.Lines.{report_lines};

mod choice;
mod figures;
mod line;
mod names;
mod past;
mod put;
mod tally;

use figures::{core_line, unit_line};
use names::push_names;
pub use past::Past;
pub use put::put_last_line;
use put::{put_core_line, put_unit_line};
use sched_base::{Moment, NoMemory, ResId, UnitId};
use sched_model::config::Config;
use sched_model::event::Entry;
use sched_print::LineBuf;
use std::alloc::Global;
use std::marker::Model;
use std::snapshot::Snapshot;
use tally::{CoreTally, UnitTally, count_entry};
use unit_places::PLACES;

/// The report of a run. It keeps of its machine the names of the units and the number of cores, and takes all its memory when
/// it is made. Contracts see the machine's config and the entries that were added.
#[derive(Drop)]
pub struct Report {
    config: Snapshot<Config>,
    past: Snapshot<Past>,
    names: Vec<UnitId>,
    units: Vec<UnitTally>,
    cores: Vec<CoreTally>,
    entries: u32,
    last: Moment,
}

impl Model for Report {
    ghost use Rattle.sched_report.specs.Pasts.{Told, told_entries};
    ghost use Rattle.sched_report.specs.Tallies.{IsTally};

    ghost Value = { Told };

    ghost view = { λ r. told_entries r.config.value r.past.value };

    ghost invariant = { λ r. IsTally r.config.value r.past.value r.names.items r.units.items
        r.cores.items r.entries r.last.0 };
}

/// The units of the machine, in order.
fn names_of(alloc: Global, config: &Config) -> Result<Vec<UnitId>, NoMemory>
    requires { IsSized config.now }
    ensures { IfOk result (λ names. names.items ≡ unit_ids config.now) }
{
    let mut names = Vec::new(alloc);
    push_names(&mut names, config.granularity, 0, config.domains.as_slice())?;
    Ok(names)
}

impl Report {
    /// The report of a run without an entry, on a machine with this config.
    pub fn room(alloc: Global, config: &Config) -> Result<Report, NoMemory>
        requires { IsSized config.now }
        ensures config { IfOk result (λ r. r.config ≡ config.now) }
        ensures empty { IfOk result (λ r. r.entries ≡ []) }
    {
        let names = names_of(alloc, config)?;
        let cores = (config.processors / config.granularity) as usize;
        Ok(Report {
            config: Snapshot::of(config),
            past: Past::nothing(),
            names,
            units: vec![in alloc; UnitTally::NOTHING; PLACES]?,
            cores: vec![in alloc; CoreTally::UNDECIDED; cores]?,
            entries: 0,
            last: Moment(0),
        })
    }

    /// Adds an entry. Fewer than 2^32 - 1 were added before; whatever they are, no sum wraps. It takes no memory.
    pub fn add(&mut self, e: &Entry)
        requires { length self.old.entries + 1 < 2 ^ 32 }
        ensures config { self.new.config ≡ self.old.config }
        ensures added { self.new.entries ≡ self.old.entries ++ e.now ∷ [] }
    {
        count_entry(self.cores.as_mut_slice(), self.units.as_mut_slice(), e);
        self.entries += 1;
        self.last = e.at;
        Past::push(&mut self.past, e);
    }

    /// How many lines the report has: one for each unit, one for each core, and the last.
    pub fn lines(&self) -> u32
        ensures { result ≡ length (report_lines (report_of self.now.config self.now.entries)) }
    {
        self.names.len() as u32 + self.cores.len() as u32 + 1
    }

    /// Writes the line i of the report, with its newline, into an empty buffer. It takes no memory.
    pub fn put_line(&self, i: u32, out: &mut LineBuf)
        requires below { i < length (report_lines (report_of self.now.config self.now.entries)) }
        requires empty { out.old ≡ [] }
        ensures { slice_get (report_lines (report_of self.now.config self.now.entries)) i
            ≡ Some out.new }
    {
        let i = i as usize;
        let units = self.names.len();
        let cores = self.cores.len();
        if i < units {
            let units = self.units.as_slice();
            let line = unit_line(units, self.cores.as_slice(), self.last, self.names[i]);
            put_unit_line(&line, out);
        } else if i - units < cores {
            let r = i - units;
            let line = core_line(&self.cores[r], self.last, ResId(r as u8));
            put_core_line(&line, out);
        } else {
            put_last_line(self.entries, self.last, out);
        }
    }
}
