//! The meeting of a core's siblings: who waits, how many are still to come, and when the stage changes.
//! Each call is on the record that the machine has of a core; i is the place of a processor in it.
#![tactic(auto)]

ghost use Rattle.std.specs.Prelude.{◌≡◌, ◌≤◌, ◌↔◌, None, Some, false, true, count_by, length, slice_get};
ghost use Rattle.std.specs.List.{list_any, list_all};
ghost use Rattle.sched_model.specs.declared.state.Doing.TheVariants as doing;
ghost use Rattle.sched_model.specs.declared.state.Stage.TheVariants as stage;
ghost use Rattle.sched_model.specs.Pool.{is_held_back, reopened_core};
ghost use Rattle.sibling_meet.specs.declared.Arrived.TheVariants as arrived;
ghost use Rattle.sibling_meet.specs.declared.Left.TheVariants as left;
ghost use Rattle.sibling_meet.specs.Meeting.{is_away, with_part, arrival_of, parting_of};

use sched_model::state::{Doing, Processor, Resource, Stage};

/// Who else is to arrive: so many siblings, at least 1, or nobody.
#[derive(Clone, Copy)]
pub enum Arrived {
    Waiting(u8),
    Last,
}

/// Who else is to leave: so many siblings, at least 1, or nobody.
#[derive(Clone, Copy)]
pub enum Left {
    More(u8),
    Last,
}

/// Whether the processor waits for its siblings.
#[inline(always)]
fn is_held(p: &Processor) -> bool
    ensures { result ≡ is_held_back p.now }
{
    match p.doing {
        Doing::Held => true,
        _ => false,
    }
}

/// How many of the processors wait for their siblings.
#[inline(always)]
fn held_among(processors: &[Processor]) -> u8
    requires { length processors.now ≤ 4 }
    ensures { result ≡ count_by is_held_back processors.now }
{
    processors.iter().filter(|p| is_held(p)).count() as u8
}

/// How many of the processors do not wait for their siblings.
#[inline(always)]
fn away_among(processors: &[Processor]) -> u8
    requires { length processors.now ≤ 4 }
    ensures { result ≡ count_by is_away processors.now }
{
    processors.iter().filter(|p| !is_held(p)).count() as u8
}

/// The processor does this from now on, and the stage stays. A place that the core does not have changes nothing.
#[inline(always)]
#[tactic(auto, using(sched_model::proofs::PlaceLemmas::past_the_end))]
pub fn set_doing(core: &mut Resource, i: usize, doing: Doing)
    ensures { core.new ≡ with_part i doing core.old }
{
    if let Some(p) = core.processors.get_mut(i) {
        p.doing = doing;
    }
}

/// The processor waits for its siblings from now on. A place that the core does not have changes nothing.
#[inline(always)]
pub fn arrive(core: &mut Resource, i: usize) -> Arrived
    ensures core { core.new ≡ with_part i doing.Held core.old }
    ensures answer { result ≡ arrival_of core.new }
    ensures last { (result ≡ arrived.Last) ↔ (list_all is_held_back core.new.processors ≡ true) }
{
    set_doing(core, i, Doing::Held);
    match away_among(core.processors.as_slice()) {
        0 => Arrived::Last,
        n => Arrived::Waiting(n),
    }
}

/// The core has its decision: its siblings leave from now on.
#[inline(always)]
pub fn decided(core: &mut Resource)
    ensures { core.new ≡ record core.old { stage = stage.Decided } }
{
    core.stage = Stage::Decided;
}

/// The processor does this from now on; if none is held any more, the stage is open again.
#[inline(always)]
pub fn leave(core: &mut Resource, i: usize, doing: Doing) -> Left
    ensures core { core.new ≡ reopened_core (with_part i doing core.old) }
    ensures answer { result ≡ parting_of core.new }
    ensures last { (result ≡ left.Last) ↔ (list_any is_held_back core.new.processors ≡ false) }
{
    set_doing(core, i, doing);
    match held_among(core.processors.as_slice()) {
        0 => {
            core.stage = Stage::Open;
            Left::Last
        }
        n => Left::More(n),
    }
}

/// Whether the processor waits for its siblings.
pub fn held(core: &Resource, i: usize) -> bool
    ensures { result ≡ elim (slice_get core.now.processors i) [ None ↦ false | Some q ↦ is_held_back q ] }
{
    match core.processors.as_slice().get(i) {
        None => false,
        Some(p) => is_held(p),
    }
}

/// Whether the siblings still gather, or have their decision and part.
pub fn stage(core: &Resource) -> Stage
    ensures { result ≡ core.now.stage }
{
    core.stage
}
