//! What may happen, and who does it.

use sched_base::{DomId, ProcId, ResId, UnitId, VcpuId};

/// What may happen, by its kind and its subject: the processor, core, unit, vCPU or domain that the event's line names first.
/// The next stall and the next command are named by nothing else.
#[derive(Clone, Copy, PartialEq, Eq)]
pub enum Action {
    Stall,
    Xl,
    Moved(ResId),
    DomMoved(DomId),
    Wake(VcpuId),
    Block(ProcId),
    Slice(ResId),
    Repl(UnitId),
    Refill(DomId),
    Arrive(ProcId),
    Decide(ResId),
    Leave(ProcId),
    Save(ResId),
}

/// Who does an event: a processor those of itself, of its core and of its pool, a domain the waking of its vCPUs,
/// the tool the stalls, the commands and the moves.
#[derive(Clone, Copy)]
pub enum Actor {
    Proc(ProcId),
    Dom(DomId),
    Tool,
}
