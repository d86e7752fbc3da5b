//! What the tool keeps: the tool's part of the machine's state, and what it judges commands by.

use crate::copies::same_work;
use crate::opening::{opened_entries, opened_free, opened_names, opened_outlines};
use crate::outline::{DomainEntry, FreeCores, MoveUnderWay, Outlines, PoolNames};
use crate::pools::{core_home, domain_home, domain_named, place_named, set_of};
use crate::reading::{read_cores, read_free, read_names, read_pools, under_way_of};
use sched_base::{DomId, NoMemory, PoolId, ResId};
use sched_model::command::{Command, Which};
use sched_model::config::Config;
use sched_model::facts::Subject;
use sched_model::row::Row;
use sched_model::state::State;
use sched_model::work::{Commands, Stalls, Work};
use std::alloc::Global;
use std::marker::Model;

/// What the tool keeps. Contracts see the tool's part of the machine's state, what the tool knows of the machine, and its workload.
#[derive(Drop)]
pub struct ToolState {
    pub(crate) granularity: u8,
    pub(crate) processors: u8,
    pub(crate) domains: Row<DomainEntry>,
    pub(crate) stalls: Stalls,
    pub(crate) commands: Commands,
    pub(crate) names: PoolNames,
    pub(crate) pools: Outlines,
    pub(crate) free: FreeCores,
    pub(crate) under_way: Option<MoveUnderWay>,
    pub(crate) next_stall: u32,
    pub(crate) next_command: u32,
}

impl Model for ToolState {
    ghost use Rattle.std.specs.Prelude.{option_map, length};
    ghost use Rattle.cpupool.specs.Tool.{Tool, way_of, IsKnown};

    ghost Value = { Tool };

    ghost view = { λ t. record {
      granularity = t.granularity;
      processors = t.processors;
      domains = t.domains;
      stalls = t.stalls;
      commands = t.commands;
      part = record {
        names = t.names;
        pools = t.pools;
        free = t.free;
        under_way = option_map way_of t.under_way;
        next_stall = t.next_stall;
        next_command = t.next_command;
      };
    } };

    ghost invariant = { λ t. IsKnown t.granularity t.processors (length t.domains) (length t.stalls)
        (length t.commands) };
}

impl ToolState {
    ghost use Rattle.std.specs.Prelude.{◌≡◌, ℕ, IfOk, is_some, option_map};
    ghost use Rattle.sched_base.specs.Numbers.{pool as pool_number};
    ghost use Rattle.sched_model.specs.Actions.{home_pool_of_core, home_pool_of_domain};
    ghost use Rattle.sched_model.specs.declared.machine.Machine.{Machine};
    ghost use Rattle.sched_model.specs.declared.state.State.{State as StateRecord};
    ghost use Rattle.journal_core.specs.Parts.{tool_of as part_of_tool};
    ghost use Rattle.cpupool.specs.Tool.{number_of_domain, number_of_pool, tool_of};
    ghost use Rattle.cpupool.specs.Facts.{subject_of};
    ghost use Rattle.cpupool.specs.Fits.{StateFits};
    ghost use Rattle.cpupool.specs.OpeningTool.{opened_tool};
    ghost use Rattle.sched_model.specs.CheckedMachine.{IsChecked, IsCheckedConfig, IsCheckedWork};
    ghost use Rattle.sched_model.specs.Opening.{opening};
    ghost use Rattle.sched_model.specs.Places.{at_place};
    ghost use Rattle.sched_model.specs.State.{has_core_bit};
    ghost use Rattle.cpupool.specs.Verdicts.{seen_pool, seen_domain, command_subject, seen_pool_subject, seen_domain_subject, outlined_core_home, outlined_domain_home};

    /// What the tool keeps of the machine at its opening. It keeps a copy of the workload. All memory is taken here.
    pub fn open(alloc: Global, config: &Config, work: &Work) -> Result<ToolState, NoMemory>
        requires { IsChecked (record { config = config.now; work = work.now }) }
        ensures { let m : Machine = record { config = config.now; work = work.now } in IfOk result
            (λ t. t ≡ tool_of m (opening m)) }
    {
        ToolState::open_with(alloc, config, same_work(alloc, work)?)
    }

    /// The same, of a workload that the tool takes over.
    pub fn open_with(alloc: Global, config: &Config, work: Work) -> Result<ToolState, NoMemory>
        requires { IsChecked (record { config = config.now; work = work }) }
        ensures { let m : Machine = record { config = config.now; work = work } in IfOk result
            (λ t. t ≡ tool_of m (opening m)) }
    {
        ToolState::opened(alloc, config, work)
    }

    /// The same, put together.
    fn opened(alloc: Global, config: &Config, work: Work) -> Result<ToolState, NoMemory>
        requires config { IsCheckedConfig config.now }
        requires work { IsCheckedWork config.now work }
        ensures { IfOk result (λ t. t ≡ opened_tool config.now work) }
    {
        let pools = config.pools.as_slice();
        let domains = config.domains.as_slice();
        let cores = config.processors / config.granularity;
        Ok(ToolState {
            granularity: config.granularity,
            processors: config.processors,
            domains: opened_entries(alloc, domains)?,
            stalls: work.stalls,
            commands: work.commands,
            names: opened_names(pools),
            pools: opened_outlines(cores, domains, pools),
            free: opened_free(config.granularity, cores, pools),
            under_way: None,
            next_stall: 0,
            next_command: 0,
        })
    }

    /// Makes the tool's part that of the state. It takes no memory.
    pub fn read(&mut self, state: &State)
        requires { StateFits state.now }
        ensures { self.new ≡ record self.old { part = part_of_tool state.entry.now } }
    {
        self.names = read_names(state.names.as_slice());
        self.pools = read_pools(state.pools.as_slice());
        self.free = read_free(state.free.as_slice());
        self.under_way = under_way_of(state);
        self.next_stall = state.next_stall;
        self.next_command = state.next_command;
    }

    /// The pool that a command names.
    pub(crate) fn pool_of(&self, which: &Which) -> Option<PoolId>
        ensures pool { option_map number_of_pool result ≡ seen_pool self.now which.now }
    {
        match which {
            Which::Name(name) => place_named(PoolId(0), self.names.as_slice(), name),
            Which::Number(i) => {
                let i = *i as usize;
                let pools = self.pools.as_slice();
                if i < pools.len() && pools[i].is_some() {
                    Some(PoolId(i as u8))
                } else {
                    None
                }
            }
        }
    }

    /// The domain that a command names.
    pub(crate) fn domain_of(&self, which: &Which) -> Option<DomId>
        ensures domain { option_map number_of_domain result ≡ seen_domain self.now which.now }
    {
        match which {
            Which::Name(name) => domain_named(DomId(0), self.domains.as_slice(), name),
            Which::Number(d) => {
                let d = *d;
                if d < self.domains.len() as u64 {
                    Some(DomId(d as u8))
                } else {
                    None
                }
            }
        }
    }

    /// The pool that has the core, where one has it.
    pub fn home_of_core(&self, r: ResId) -> Option<PoolId>
        ensures { (m : Machine) → (s : StateRecord) → tool_of m s ≡ self.now → result
            ≡ option_map pool_number (home_pool_of_core s r.0) }
    {
        self.core_pool(r)
    }

    /// The same, by what the tool keeps.
    fn core_pool(&self, r: ResId) -> Option<PoolId>
        ensures { option_map number_of_pool result ≡ outlined_core_home self.now.part.pools r.0 }
    {
        core_home(PoolId(0), self.pools.as_slice(), r)
    }

    /// The pool that has the domain, where one has it.
    pub fn home_of_domain(&self, d: DomId) -> Option<PoolId>
        ensures { (m : Machine) → (s : StateRecord) → tool_of m s ≡ self.now → result
            ≡ option_map pool_number (home_pool_of_domain s d.0) }
    {
        self.domain_pool(d)
    }

    /// The same, by what the tool keeps.
    pub(crate) fn domain_pool(&self, d: DomId) -> Option<PoolId>
        ensures { option_map number_of_pool result ≡ outlined_domain_home self.now.part.pools d.0 }
    {
        domain_home(PoolId(0), self.pools.as_slice(), d)
    }

    /// The cores of no pool, with bit r for the core r.
    #[tactic(auto, using(crate::proofs::FreeLemmas::has_free))]
    pub fn free_cores(&self) -> u64
        ensures { (r : ℕ) → has_core_bit result r ≡ is_some (at_place self.now.part.free r) }
    {
        set_of(read_cores(self.free.as_slice()).as_slice()).0
    }

    /// The pool alone as the subject of a command.
    #[tactic(auto, using(crate::proofs::SubjectLemmas::pool_told))]
    fn pool_subject(&self, which: &Which) -> Subject
        ensures { result ≡ seen_pool_subject self.now which.now }
    {
        Subject {
            pool: self.pool_of(which),
            dom: None,
        }
    }

    /// The domain and its home as the subject of a command, or else this subject.
    #[tactic(auto, using(crate::proofs::SubjectLemmas::pool_told))]
    fn domain_subject(&self, which: &Which, otherwise: Subject) -> Subject
        ensures { result ≡ seen_domain_subject self.now which.now otherwise }
    {
        match self.domain_of(which) {
            None => otherwise,
            Some(d) => Subject {
                pool: self.domain_pool(d),
                dom: Some(d),
            },
        }
    }

    /// The domain that the command names, and its home; where it names no domain that is there, the pool that it names.
    /// A domain in the entries of a frame does not count as named.
    #[tactic(auto, using(crate::proofs::SubjectLemmas::subject_seen))]
    pub fn subject(&self, c: &Command) -> Subject
        ensures { (m : Machine) → (s : StateRecord) → tool_of m s ≡ self.now → result
            ≡ subject_of m s c.now }
    {
        self.seen_subject(c)
    }

    /// The subject of the command.
    fn seen_subject(&self, command: &Command) -> Subject
        ensures { result ≡ command_subject self.now command.now }
    {
        let none = Subject {
            pool: None,
            dom: None,
        };
        match command {
            Command::PoolList { pool: None } => none,
            Command::PoolList { pool: Some(pool) } => self.pool_subject(pool),
            Command::PoolCreate { .. } => none,
            Command::PoolDestroy { pool } => self.pool_subject(pool),
            Command::PoolRename { pool, .. } => self.pool_subject(pool),
            Command::CpuAdd { pool, .. } => self.pool_subject(pool),
            Command::CpuRemove { pool, .. } => self.pool_subject(pool),
            Command::Migrate { dom, pool } => self.domain_subject(dom, self.pool_subject(pool)),
            Command::Credit2Dom { dom, .. } => self.domain_subject(dom, none),
            Command::Credit2Pool { pool, .. } => self.pool_subject(pool),
            Command::RtdsDom { dom, .. } => self.domain_subject(dom, none),
            Command::Pause { dom } => self.domain_subject(dom, none),
            Command::Unpause { dom } => self.domain_subject(dom, none),
            Command::ArincSet { pool, .. } => self.pool_subject(pool),
            Command::Pin { dom, .. } => self.domain_subject(dom, none),
        }
    }
}
