//! The cores of one pool.

ghost use Rattle.std.specs.Prelude.{◌≡◌, ◌≤◌, true, IfOk, None, length};
ghost use Rattle.std.specs.Option.{option_copied};
ghost use Rattle.sched_model.specs.Places.{first_place, is_unit};
ghost use Rattle.core_state.specs.Seen.{extended_stall_end};

use crate::changes::{choose_at, clear_works, set_pending_by};
use crate::counts::{UnitCounts, count_choice_at, count_core_in, count_out_at};
use crate::dues::{
    Dues, IDS, advance, earlier, empty_dues, first_due_core, first_due_processor, least_of, rearm,
    rearm_arrivals, rearm_decided, rearm_left, rearm_saved, rearm_step,
};
use crate::ends::{lowest_end, move_end, processor_at};
use pool_records::changes::{bring_due_at, take_saved};
use pool_records::cores::{core_of, first_core, has_domain, home_cores, is_on_core};
use pool_records::doing::{change_doing, leave_at, set_pending};
use pool_records::leaving::{end_stall, mark_leaving};
use sched_base::{Cores, DomId, Moment, NoMemory, ProcId, ResId, UnitId, VcpuId};
use sched_model::places::{item_at, set_place, take_item};
use sched_model::row::{Row, empty_places};
use sched_model::state::{Doing, Processor, Resource};
use std::alloc::Global;
use std::marker::Model;

/// The cores of one pool. Contracts see the cores by number, for each of 64 processors the moment at which the work of the vCPU that it
/// runs is done, as its caller told it, and how many processors a core has.
///
/// The processors of the core r are those from r times that number on. All moments are in nanoseconds. No call but `room` takes memory.
#[derive(Drop)]
pub struct CoreState {
    granularity: u8,
    home: u64,
    first: Option<u8>,
    cores: Row<Option<Resource>>,
    works: Row<Option<Moment>>,
    dues: Dues,
    /// How often each unit is a core's own or saved.
    counts: UnitCounts,
    /// The moment up to which the sets of moments have been told.
    told: Moment,
}

impl Model for CoreState {
    ghost use Rattle.core_state.specs.Seen.{Seen};

    ghost Value = { Seen };

    ghost use Rattle.core_state.specs.CoreState.{IsKept};
    ghost use Rattle.core_state.specs.Counts.{AreCounts};

    ghost view = { λ a. record {
      resources = a.cores;
      works = a.works;
      granularity = a.granularity;
    } };

    ghost invariant = { λ a. IsKept
        (record { resources = a.cores; works = a.works; granularity = a.granularity }) a.home
        a.first a.dues × AreCounts a.cores a.counts };
}

/// The number of the first core, where there are few places.
fn first_number(cores: &[Option<Resource>]) -> Option<u8>
    requires { length cores.now ≤ 64 }
    ensures { result ≡ first_place 0 (λ c. true) cores.now }
{
    match first_core(cores) {
        None => None,
        Some(r) => Some(r as u8),
    }
}

/// The number of the core that has the unit as its own, where there are few places.
fn number_with(cores: &[Option<Resource>], u: UnitId) -> Option<u8>
    requires { length cores.now ≤ 64 }
    ensures { result ≡ first_place 0 (λ c. is_unit c.cur u) cores.now }
{
    match core_of(cores, u) {
        None => None,
        Some(r) => Some(r as u8),
    }
}

/// The end of a stall of the processor up to this moment: no earlier than that of the stall that it has.
fn later_end(p: Option<&Processor>, until: Moment) -> Moment
    ensures { result ≡ extended_stall_end (option_copied p.entry) until }
{
    match p {
        None => until,
        Some(q) => Moment(q.stall_end.0.max(until.0)),
    }
}

impl CoreState {
    ghost use Rattle.std.specs.Prelude.{◌≡◌, ◌≤◌, ◌<◌, ◌*◌, ◌/◌, ◌||◌, ℕ, true, IfOk, length, None, Some};
    ghost use Rattle.std.specs.List.{list_any};
    ghost use Rattle.std.specs.Option.{option_copied};
    ghost use Rattle.sched_base.specs.Numbers.{core_set};
    ghost use Rattle.sched_model.specs.declared.action.Action.TheVariants.{Moved, Block, Slice, Arrive, Decide, Leave, Save};
    ghost use Rattle.sched_model.specs.declared.state.Doing.TheVariants as doing;
    ghost use Rattle.sched_model.specs.CheckedMachine.{IsGranularity};
    ghost use Rattle.sched_model.specs.declared.state.Resource.{Resource as ResourceRecord};
    ghost use Rattle.sched_model.specs.Places.{at_place, clear_at, first_place, is_unit, numbered_items, put_at};
    ghost use Rattle.sched_model.specs.Pool.{cores_from, is_domain_unit, with_doing, due_within, reopened_core, saved_core, saving_among, pending_core};
    ghost use Rattle.core_state.specs.Seen.{changed_core, changed_processor, chosen_core, leaving_core, pending_by, processor_among, extended_stall_end, stalled_to, vacant_cores, with_work, cleared_works};
    ghost use Rattle.core_state.specs.Ends.{lowest_among, ready_among, ready_within};
    ghost use Rattle.core_state.specs.Firsts.{IsFirstCore, IsFirstProcessor, IsLeast};
    ghost use Rattle.core_state.specs.CoreState.{KeepsCores};

    /// No core yet, with so many places for cores of 1, 2 or 4 processors each, at most 64 processors in all.
    pub fn room(alloc: Global, granularity: u8, places: u8) -> Result<CoreState, NoMemory>
        requires granularity { IsGranularity granularity }
        requires places { places * granularity ≤ 64 }
        ensures { IfOk result (λ cores. cores ≡ vacant_cores granularity places) }
    {
        let cores = empty_places(alloc, places as usize)?;
        let works = empty_places(alloc, IDS)?;
        let dues = empty_dues(alloc)?;
        let counts = UnitCounts::room(alloc)?;
        Ok(CoreState {
            granularity,
            home: 0,
            first: None,
            cores,
            works,
            dues,
            counts,
            told: Moment(0),
        })
    }

    /// The core with this number.
    pub fn core(&self, r: ResId) -> Option<&Resource>
        ensures { option_copied result ≡ at_place self.now.resources r.0 }
    {
        item_at(self.cores.as_slice(), r.0 as usize)
    }

    /// The cores by number, each at its place.
    pub fn cores(&self) -> &[Option<Resource>]
        ensures { result.now ≡ self.now.resources }
    {
        self.cores.as_slice()
    }

    /// How many processors a core has: 1, 2 or 4.
    pub fn granularity(&self) -> u8
        ensures { result ≡ self.now.granularity }
    {
        self.granularity
    }

    /// How many places for cores there are, at most 64.
    pub fn places(&self) -> u8
        ensures { result ≡ length self.now.resources }
    {
        self.cores.len() as u8
    }

    /// The processor with this number.
    pub fn processor(&self, p: ProcId) -> Option<&Processor>
        ensures { option_copied result ≡ processor_among self.now.granularity self.now.resources
            p.0 }
    {
        processor_at(self.granularity, self.cores.as_slice(), p.0 as usize)
    }

    /// The core that has the unit as its own, the first if there are several.
    pub fn core_with(&self, u: UnitId) -> Option<u8>
        ensures { result ≡ first_place 0 (λ c. is_unit c.cur u) self.now.resources }
    {
        match self.counts.of(u) {
            Some(0) => None,
            _ => number_with(self.cores.as_slice(), u),
        }
    }

    /// Whether a core has the unit as its own or saves it.
    pub fn has_unit(&self, u: UnitId) -> bool
        ensures { result ≡ list_any (λ (e : ℕ × ResourceRecord). is_unit e.1.cur u
            || is_unit e.1.saving u) (numbered_items 0 self.now.resources) }
    {
        match self.counts.of(u) {
            None => is_on_core(0, self.cores.as_slice(), u),
            Some(count) => 0 < count,
        }
    }

    /// Whether a core has a unit of the domain as its own or saves one.
    pub fn has_domain(&self, d: DomId) -> bool
        ensures { result ≡ list_any (λ (e : ℕ × ResourceRecord). is_domain_unit d.0 e.1.cur
            || is_domain_unit d.0 e.1.saving) (numbered_items 0 self.now.resources) }
    {
        has_domain(0, self.cores.as_slice(), d)
    }

    /// The set of the cores.
    pub fn home(&self) -> Cores
        ensures { result ≡ core_set (cores_from 0 self.now.resources) }
    {
        Cores(self.home)
    }

    /// The first core.
    pub fn first(&self) -> Option<u8>
        ensures { result ≡ first_place 0 (λ c. true) self.now.resources }
    {
        self.first
    }

    /// The end of the stall of the lowest processor.
    pub fn lowest_end(&self) -> Option<Moment>
        ensures { result ≡ lowest_among self.now.resources }
    {
        lowest_end(self.cores.as_slice(), self.first)
    }

    /// A core comes in at its place, in place of what stands there. None of its processors has work whose end is known.
    pub fn put(&mut self, r: ResId, core: Resource)
        requires place { r.0 < length self.old.resources }
        requires siblings { length core.processors ≡ self.old.granularity }
        ensures { self.new ≡ record self.old {
          resources = put_at r.0 core self.old.resources;
          works = cleared_works
              (r.0 * self.old.granularity) self.old.granularity self.old.works;
        } }
    {
        let g = self.granularity;
        count_out_at(&mut self.counts, r, &self.cores);
        count_core_in(&mut self.counts, &core);
        set_place(&mut self.cores, r.0, Some(core));
        clear_works(r.0 as u16 * g as u16, g, &mut self.works);
        self.home = home_cores(self.cores.as_slice());
        self.first = first_number(self.cores.as_slice());
        rearm(&mut self.dues, g, r, &self.cores, &self.works);
    }

    /// The core goes out, and its place is empty. None of its processors has work whose end is known.
    pub fn take(&mut self, r: ResId) -> Option<Resource>
        ensures core { result ≡ at_place self.old.resources r.0 }
        ensures after { self.new ≡ record self.old {
          resources = clear_at r.0 self.old.resources;
          works = cleared_works
              (r.0 * self.old.granularity) self.old.granularity self.old.works;
        } }
    {
        let g = self.granularity;
        count_out_at(&mut self.counts, r, &self.cores);
        let core = take_item(&mut self.cores, r.0 as usize);
        clear_works(r.0 as u16 * g as u16, g, &mut self.works);
        self.home = home_cores(self.cores.as_slice());
        self.first = first_number(self.cores.as_slice());
        rearm(&mut self.dues, g, r, &self.cores, &self.works);
        core
    }

    /// The core is to decide anew: it has no slice then, and its processors may arrive. No other moment changes.
    pub fn set_pending(&mut self, r: ResId)
        ensures { self.new ≡ changed_core r.0 pending_core self.old }
    {
        let g = self.granularity;
        set_pending(r, &mut self.cores);
        self.dues.slices.disarm(r.0 as u16);
        rearm_arrivals(&mut self.dues.arrives, g, r, &self.cores);
    }

    /// The core is to decide anew, and has this due.
    pub fn set_pending_due(&mut self, r: ResId, due: Moment)
        ensures { self.new ≡ changed_core r.0 (pending_by due) self.old }
    {
        let g = self.granularity;
        set_pending_by(r, due, &mut self.cores);
        rearm(&mut self.dues, g, r, &self.cores, &self.works);
    }

    /// The core is leaving; it is to decide where it has a unit.
    pub fn set_leaving(&mut self, r: ResId)
        ensures { self.new ≡ changed_core r.0 leaving_core self.old }
    {
        let g = self.granularity;
        mark_leaving(r, &mut self.cores);
        rearm(&mut self.dues, g, r, &self.cores, &self.works);
    }

    /// The core decides at t: it runs the unit up to the due, and saves the one that it ran, where that is another.
    pub fn decide(&mut self, r: ResId, t: Moment, unit: Option<UnitId>, due: Option<Moment>)
        ensures { self.new ≡ changed_core r.0 (chosen_core t.0 unit due) self.old }
    {
        let g = self.granularity;
        count_choice_at(&mut self.counts, r, unit, &self.cores);
        choose_at(r, t, unit, due, &mut self.cores);
        rearm_decided(&mut self.dues, g, r, &self.cores);
    }

    /// The core puts away the unit that it saves.
    pub fn save(&mut self, r: ResId) -> Option<UnitId>
        ensures unit { result ≡ saving_among self.old.resources r.0 }
        ensures after { self.new ≡ changed_core r.0 saved_core self.old }
    {
        let g = self.granularity;
        let unit = take_saved(r, &mut self.cores);
        self.counts.count_out(unit);
        rearm_saved(&mut self.dues, g, r, &self.cores);
        unit
    }

    /// The core's due is moved to the span after t, where it is later.
    pub fn shorten_due(&mut self, r: ResId, t: Moment, budget: u64)
        ensures { self.new ≡ changed_core r.0 (due_within t.0 budget) self.old }
    {
        let g = self.granularity;
        bring_due_at(r.0 as usize, t, budget, &mut self.cores);
        rearm(&mut self.dues, g, r, &self.cores, &self.works);
    }

    /// The processor does this, and the work of the vCPU that it runs is done then.
    fn set_doing(&mut self, p: ProcId, doing: Doing, work: Option<Moment>)
        ensures { self.new
            ≡ with_work p.0 work (changed_processor p.0 (with_doing doing) self.old) }
    {
        let g = self.granularity;
        change_doing(g, p, doing, &mut self.cores);
        set_place(&mut self.works, p.0, work);
        rearm_step(&mut self.dues, g, p, &self.cores, &self.works);
    }

    /// The processor is held: it waits for its siblings.
    pub fn hold(&mut self, p: ProcId)
        ensures { self.new
            ≡ with_work p.0 None (changed_processor p.0 (with_doing doing.Held) self.old) }
    {
        self.set_doing(p, Doing::Held, None);
    }

    /// The processor runs the vCPU, whose work is done then: `None` where it has no end.
    pub fn run(&mut self, p: ProcId, v: VcpuId, work: Option<Moment>)
        ensures { self.new ≡ with_work p.0 work
            (changed_processor p.0 (with_doing (doing.Guest v)) self.old) }
    {
        self.set_doing(p, Doing::Guest(v), work);
    }

    /// The processor idles.
    pub fn idle(&mut self, p: ProcId)
        ensures { self.new
            ≡ with_work p.0 None (changed_processor p.0 (with_doing doing.Idle) self.old) }
    {
        self.set_doing(p, Doing::Idle, None);
    }

    /// The processor leaves its siblings and does this; the last one that is held opens the core's stage.
    pub fn leave(&mut self, p: ProcId, doing: Doing, work: Option<Moment>)
        ensures { self.new ≡ with_work p.0 work
            (changed_core (p.0 / self.old.granularity) reopened_core
            (changed_processor p.0 (with_doing doing) self.old)) }
    {
        let g = self.granularity;
        leave_at(g, p, doing, &mut self.cores);
        set_place(&mut self.works, p.0, work);
        rearm_left(&mut self.dues, g, p, &self.cores, &self.works);
    }

    /// The processor is stalled up to this moment, if it is not yet for longer: the end of its stall.
    pub fn stall(&mut self, p: ProcId, until: Moment) -> Moment
        ensures end { result ≡ extended_stall_end
            (processor_among self.old.granularity self.old.resources p.0) until }
        ensures after { self.new ≡ changed_processor p.0 (stalled_to result) self.old }
    {
        let g = self.granularity;
        let r = p.0 / g;
        let end = later_end(processor_at(g, self.cores.as_slice(), p.0 as usize), until);
        end_stall(g, p, end, &mut self.cores);
        rearm(&mut self.dues, g, ResId(r), &self.cores, &self.works);
        end
    }

    /// From now on the first core or processor of each kind whose event has come at t is at hand.
    pub fn advance(&mut self, t: Moment)
        ensures { self.new ≡ self.old }
    {
        if self.told.0 < t.0 {
            self.told = t;
            advance(&mut self.dues, t);
        }
    }

    /// From when on the core may leave the pool.
    pub fn move_end(&self, r: ResId) -> Option<Moment>
        ensures { result ≡ ready_among self.now (Moved r) }
    {
        move_end(item_at(self.cores.as_slice(), r.0 as usize))
    }

    /// The first core whose due has come at t.
    pub fn first_slice(&self, t: Moment) -> Option<ResId>
        ensures { IsFirstCore (λ r. ready_among self.now (Slice r)) t.0 result }
    {
        first_due_core(&self.dues.slices, t)
    }

    /// The first core that may decide at t.
    pub fn first_decide(&self, t: Moment) -> Option<ResId>
        ensures { IsFirstCore (λ r. ready_among self.now (Decide r)) t.0 result }
    {
        first_due_core(&self.dues.decides, t)
    }

    /// The first core that may put away at t the unit that it saves.
    pub fn first_save(&self, t: Moment) -> Option<ResId>
        ensures { IsFirstCore (λ r. ready_among self.now (Save r)) t.0 result }
    {
        first_due_core(&self.dues.saves, t)
    }

    /// The first processor whose vCPU may block at t.
    pub fn first_block(&self, t: Moment) -> Option<ProcId>
        ensures { IsFirstProcessor (λ p. ready_among self.now (Block p)) t.0 result }
    {
        first_due_processor(&self.dues.blocks, t)
    }

    /// The first processor that may arrive at t.
    pub fn first_arrive(&self, t: Moment) -> Option<ProcId>
        ensures { IsFirstProcessor (λ p. ready_among self.now (Arrive p)) t.0 result }
    {
        first_due_processor(&self.dues.arrives, t)
    }

    /// The first processor that may leave at t.
    pub fn first_leave(&self, t: Moment) -> Option<ProcId>
        ensures { IsFirstProcessor (λ p. ready_among self.now (Leave p)) t.0 result }
    {
        first_due_processor(&self.dues.leaves, t)
    }

    /// The least moment from which on an event of a core or a processor may come, but for a core that leaves the pool.
    pub fn least(&self) -> Option<Moment>
        ensures { IsLeast (ready_within self.now) result }
    {
        let dues = &self.dues;
        let slices = least_of(&dues.slices);
        let decides = least_of(&dues.decides);
        let saves = least_of(&dues.saves);
        let blocks = least_of(&dues.blocks);
        let arrives = least_of(&dues.arrives);
        let leaves = least_of(&dues.leaves);
        let of_cores = earlier(earlier(slices, decides), saves);
        let of_processors = earlier(earlier(blocks, arrives), leaves);
        earlier(of_cores, of_processors)
    }

    /// Does nothing, and tells what the cores keep.
    pub fn keeps(&self)
        ensures { KeepsCores self.now }
    {
        let _ = &self.granularity;
    }
}
