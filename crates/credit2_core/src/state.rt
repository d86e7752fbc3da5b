//! What a pool's Credit2 keeps.

use due_heap::DueHeap;
use runq::Runq;
use sched_model::config::Pins;
use sched_model::row::Row;
use sched_model::state::Credit2Records;
use unit_places::Masks;

/// The records and the sets of cores of a pool, the queue of the units that wait, by falling credit, the table of the sets of
/// cores by unit, the moments of the refills by domain, how many units may still join, the greatest moment given, and whether none was
/// pinned to fewer than all cores.
#[derive(Drop)]
pub struct Credit2State {
    pub records: Credit2Records,
    pub affinity: Row<Option<Pins>>,
    pub queue: Runq,
    pub masks: Masks,
    pub refills: DueHeap,
    pub spare: usize,
    pub latest: u64,
    pub unpinned: bool,
}
