//! A pool as its table says it, before the frame's entries are held against the domains.

use sched_base::{Name, Span};
use sched_model::config::SchedKind;
use sched_model::short::Short;

/// One entry of a frame as the file has it. Its domain and unit may not be there.
#[derive(Clone, Copy, Default)]
pub(crate) struct EntryDraft {
    pub dom: i64,
    pub unit: i64,
    pub run: Span,
}

/// A frame as the file has it.
#[derive(Drop)]
pub(crate) struct FrameDraft {
    pub major: Span,
    pub entries: Short<EntryDraft, 64>,
}

/// The parameters of a pool as the file has them. The rate limit is in microseconds.
#[derive(Drop)]
pub(crate) enum ParamsDraft {
    Credit2 { limit: u32 },
    Rtds,
    Arinc653 { frame: Option<FrameDraft> },
    Null,
}

/// A pool as its table says it. Its cores are a set, with bit r for core r.
#[derive(Drop)]
pub(crate) struct PoolDraft {
    pub name: Name,
    pub kind: SchedKind,
    pub cores: u64,
    pub params: ParamsDraft,
}
