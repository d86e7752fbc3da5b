//! The first event of the whole machine that may come at t, by a scan of the candidates in order.

ghost use Rattle.std.specs.Prelude.{◌≡◌, ℕ, ◌+◌, ◌-◌, ◌/◌, ◌<◌, ◌≤◌, ◌^◌, ◌++◌, ◌∷◌, [], length, map, find, Some, None};
ghost use Rattle.sched_base.specs.declared.VcpuId.{VcpuId as VcpuRecord};
ghost use Rattle.sched_base.specs.declared.UnitId.{UnitId as UnitRecord};
ghost use Rattle.sched_base.specs.Numbers.{domain};
ghost use Rattle.sched_model.specs.Places.{numbers_from};
ghost use Rattle.sched_model.specs.Opening.{machine_core_count};
ghost use Rattle.sched_model.specs.Actions.{vcpus_from, units_from};
ghost use Rattle.sched_model.specs.Machine.{is_action_enabled, first_enabled_action};
ghost use Rattle.sched_model.specs.declared.action.Action.TheVariants as action_of;
ghost use Rattle.sched_plain.specs.Fits.{FewGuests, MachineFits, StateFits};
ghost use Rattle.sched_plain.specs.Search.{action_at, actions_in, actions_of, subject_count};

use crate::enabled::is_enabled;
use sched_base::{DomId, Moment, ProcId, ResId, UnitId, VcpuId};
use sched_model::action::Action;
use sched_model::config::{Config, DomConfig};
use sched_model::machine::Machine;
use sched_model::state::State;

/// The kinds of action whose subject is a plain number.
#[derive(Clone, Copy)]
pub enum Numbered {
    Moved,
    DomMoved,
    Block,
    Slice,
    Refill,
    Arrive,
    Decide,
    Leave,
    Save,
}

impl Numbered {
    /// The action of this kind has this number.
    fn at(self, index: u8) -> Action
        ensures { result ≡ action_at self index }
    {
        match self {
            Numbered::Moved => Action::Moved(ResId(index)),
            Numbered::DomMoved => Action::DomMoved(DomId(index)),
            Numbered::Block => Action::Block(ProcId(index)),
            Numbered::Slice => Action::Slice(ResId(index)),
            Numbered::Refill => Action::Refill(DomId(index)),
            Numbered::Arrive => Action::Arrive(ProcId(index)),
            Numbered::Decide => Action::Decide(ResId(index)),
            Numbered::Leave => Action::Leave(ProcId(index)),
            Numbered::Save => Action::Save(ResId(index)),
        }
    }
}

/// The first action of the kind that may come at t, among count subjects from this number on.
fn first_numbered(
    machine: &Machine,
    state: &State,
    t: Moment,
    kind: Numbered,
    first: u8,
    count: u8,
) -> Option<Action>
    requires machine { MachineFits machine.now }
    requires state { StateFits state.now }
    requires few { first + count < 2 ^ 8 }
    ensures { result ≡ find (is_action_enabled machine.now state.entry.now t.0)
        (map (action_at kind) (numbers_from first count)) }
{
    if count == 0 {
        return None;
    }
    let action = kind.at(first);
    if is_enabled(machine, state, t, action) {
        return Some(action);
    }
    first_numbered(machine, state, t, kind, first + 1, count - 1)
}

/// The first vCPU of the domain that may wake at t, among count from this index on.
fn first_wake_in(
    machine: &Machine,
    state: &State,
    t: Moment,
    d: DomId,
    first: u8,
    count: u8,
) -> Option<Action>
    requires machine { MachineFits machine.now }
    requires state { StateFits state.now }
    requires few { first + count < 2 ^ 8 }
    ensures { result ≡ find (is_action_enabled machine.now state.entry.now t.0)
        (map action_of.Wake (map (λ k. let v : VcpuRecord = record { dom = d; n = k } in v)
        (numbers_from first count))) }
{
    if count == 0 {
        return None;
    }
    let action = Action::Wake(VcpuId { dom: d, n: first });
    if is_enabled(machine, state, t, action) {
        return Some(action);
    }
    first_wake_in(machine, state, t, d, first + 1, count - 1)
}

/// The first unit of the domain that may be replenished at t, among count from this index on.
fn first_repl_in(
    machine: &Machine,
    state: &State,
    t: Moment,
    d: DomId,
    first: u8,
    count: u8,
) -> Option<Action>
    requires machine { MachineFits machine.now }
    requires state { StateFits state.now }
    requires few { first + count < 2 ^ 8 }
    ensures { result ≡ find (is_action_enabled machine.now state.entry.now t.0)
        (map action_of.Repl (map (λ k. let u : UnitRecord = record { dom = d; n = k } in u)
        (numbers_from first count))) }
{
    if count == 0 {
        return None;
    }
    let action = Action::Repl(UnitId { dom: d, n: first });
    if is_enabled(machine, state, t, action) {
        return Some(action);
    }
    first_repl_in(machine, state, t, d, first + 1, count - 1)
}

/// The first vCPU that may wake at t, of these domains, of which the first has the number d.
#[tactic(auto, using(crate::proofs::Searching::found_in_map))]
fn first_wake(
    machine: &Machine,
    state: &State,
    t: Moment,
    d: DomId,
    domains: &[DomConfig],
) -> Option<Action>
    requires machine { MachineFits machine.now }
    requires state { StateFits state.now }
    requires guests { FewGuests domains.now }
    requires few { d.0 + length domains.now ≤ 64 }
    ensures { result ≡ find (is_action_enabled machine.now state.entry.now t.0)
        (map action_of.Wake (vcpus_from d.0 domains.now)) }
{
    match domains {
        [] => None,
        [domain, rest @ ..] => {
            match first_wake_in(machine, state, t, d, 0, domain.guests.len() as u8) {
                Some(action) => Some(action),
                None => first_wake(machine, state, t, DomId(d.0 + 1), rest),
            }
        }
    }
}

/// The first unit that may be replenished at t, of these domains, of which the first has the number d.
#[tactic(auto, using(crate::proofs::Searching::found_in_map))]
fn first_repl(
    machine: &Machine,
    state: &State,
    t: Moment,
    d: DomId,
    domains: &[DomConfig],
) -> Option<Action>
    requires machine { MachineFits machine.now }
    requires state { StateFits state.now }
    requires guests { FewGuests domains.now }
    requires few { d.0 + length domains.now ≤ 64 }
    ensures { result ≡ find (is_action_enabled machine.now state.entry.now t.0)
        (map action_of.Repl (units_from machine.now.config.granularity d.0 domains.now)) }
{
    match domains {
        [] => None,
        [domain, rest @ ..] => {
            let g = machine.config.granularity as usize;
            let count = (domain.guests.len() + g - 1) / g;
            match first_repl_in(machine, state, t, d, 0, count as u8) {
                Some(action) => Some(action),
                None => first_repl(machine, state, t, DomId(d.0 + 1), rest),
            }
        }
    }
}

/// How many cores the machine has.
fn core_count(config: &Config) -> u8
    requires { 0 < config.now.granularity }
    ensures { result ≡ machine_core_count config.now }
{
    config.processors / config.granularity
}

/// The kinds of action.
#[derive(Clone, Copy)]
pub enum Kind {
    Stall,
    Xl,
    Wake,
    Repl,
    Of(Numbered),
}

/// The action, where it may come at t.
fn if_enabled(machine: &Machine, state: &State, t: Moment, action: Action) -> Option<Action>
    requires machine { MachineFits machine.now }
    requires state { StateFits state.now }
    ensures { result ≡ find (is_action_enabled machine.now state.entry.now t.0) (action ∷ []) }
{
    if is_enabled(machine, state, t, action) {
        Some(action)
    } else {
        None
    }
}

/// How many subjects there are of this kind: cores, processors or domains.
fn count_of(machine: &Machine, kind: Numbered) -> u8
    requires { MachineFits machine.now }
    ensures exact { result ≡ subject_count machine.now.config kind }
    ensures few { result ≤ 64 }
{
    let config = &machine.config;
    match kind {
        Numbered::Moved => core_count(config),
        Numbered::DomMoved => config.domains.len() as u8,
        Numbered::Block => config.processors,
        Numbered::Slice => core_count(config),
        Numbered::Refill => config.domains.len() as u8,
        Numbered::Arrive => config.processors,
        Numbered::Decide => core_count(config),
        Numbered::Leave => config.processors,
        Numbered::Save => core_count(config),
    }
}

/// The first action of this kind that may come at t.
fn first_of(machine: &Machine, state: &State, t: Moment, kind: Kind) -> Option<Action>
    requires machine { MachineFits machine.now }
    requires state { StateFits state.now }
    ensures { result ≡ find (is_action_enabled machine.now state.entry.now t.0)
        (actions_of machine.now.config kind) }
{
    match kind {
        Kind::Stall => if_enabled(machine, state, t, Action::Stall),
        Kind::Xl => if_enabled(machine, state, t, Action::Xl),
        Kind::Wake => first_wake(
            machine,
            state,
            t,
            DomId(0),
            machine.config.domains.as_slice(),
        ),
        Kind::Repl => first_repl(
            machine,
            state,
            t,
            DomId(0),
            machine.config.domains.as_slice(),
        ),
        Kind::Of(kind) => first_numbered(machine, state, t, kind, 0, count_of(machine, kind)),
    }
}

/// The first action of these kinds, one after another, that may come at t.
#[tactic(auto, using(crate::proofs::Searching::found_in_both))]
fn first_in(machine: &Machine, state: &State, t: Moment, kinds: &[Kind]) -> Option<Action>
    requires machine { MachineFits machine.now }
    requires state { StateFits state.now }
    ensures { result ≡ find (is_action_enabled machine.now state.entry.now t.0)
        (actions_in machine.now.config kinds.now) }
{
    match kinds {
        [] => None,
        [kind, rest @ ..] => match first_of(machine, state, t, *kind) {
            Some(action) => Some(action),
            None => first_in(machine, state, t, rest),
        },
    }
}

/// The first action that may come at t, or none exactly where none may.
pub fn first_enabled(machine: &Machine, state: &State, t: Moment) -> Option<Action>
    requires machine { MachineFits machine.now }
    requires state { StateFits state.now }
    ensures { result ≡ first_enabled_action machine.now state.entry.now t.0 }
{
    let kinds = [
        Kind::Stall,
        Kind::Xl,
        Kind::Of(Numbered::Moved),
        Kind::Of(Numbered::DomMoved),
        Kind::Wake,
        Kind::Of(Numbered::Block),
        Kind::Of(Numbered::Slice),
        Kind::Repl,
        Kind::Of(Numbered::Refill),
        Kind::Of(Numbered::Arrive),
        Kind::Of(Numbered::Decide),
        Kind::Of(Numbered::Leave),
        Kind::Of(Numbered::Save),
    ];
    first_in(machine, state, t, &kinds)
}
