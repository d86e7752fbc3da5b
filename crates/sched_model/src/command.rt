//! The commands that steer the pools and their schedulers.

use crate::config::SchedKind;
use crate::row::Row;
use sched_base::Name;

/// A pool or a domain, as a command names it.
#[derive(Drop)]
pub enum Which {
    Name(Name),
    Number(u64),
}

impl Default for Which {
    ghost use Rattle.std.specs.Prelude.{◌≡◌};
    ghost use Rattle.sched_model.specs.declared.command.Which.TheVariants.{Number};

    ghost is_default = { λ w. w ≡ Number 0 };

    fn default() -> Which {
        Which::Number(0)
    }
}

/// One entry of the frame that a command sets.
#[derive(Default, Drop)]
pub struct ArincEntry {
    pub dom: Which,
    pub unit: u64,
    pub run: u64,
}

/// The entries of the frame that a command sets, in order: 1 to 64. They lie on the heap, so that a command takes little room.
pub type ArincList = Row<ArincEntry>;

/// The processors that a command names, as ranges from a first to a last: at most 64, on the heap. An empty list stands for all.
pub type CpuList = Row<(u64, u64)>;

/// A command that has a reading. Periods and budgets are in microseconds.
#[derive(Drop)]
pub enum Command {
    PoolList {
        pool: Option<Which>,
    },
    PoolCreate {
        name: Name,
        sched: Option<SchedKind>,
    },
    PoolDestroy {
        pool: Which,
    },
    PoolRename {
        pool: Which,
        name: Name,
    },
    CpuAdd {
        pool: Which,
        cpu: u64,
    },
    CpuRemove {
        pool: Which,
        cpu: u64,
    },
    Migrate {
        dom: Which,
        pool: Which,
    },
    Credit2Dom {
        dom: Which,
        weight: Option<u64>,
        cap: Option<u64>,
    },
    Credit2Pool {
        pool: Which,
        limit: Option<u64>,
    },
    RtdsDom {
        dom: Which,
        vcpu: Option<u64>,
        period: Option<u64>,
        budget: Option<u64>,
        extra: Option<bool>,
    },
    Pause {
        dom: Which,
    },
    Unpause {
        dom: Which,
    },
    ArincSet {
        pool: Which,
        major: u64,
        entries: ArincList,
    },
    Pin {
        dom: Which,
        vcpu: Option<u64>,
        cpus: CpuList,
    },
}

/// The words have no reading: no command goes on with the word at this place.
#[derive(Clone, Copy)]
pub struct Syntax {
    pub place: u32,
}
