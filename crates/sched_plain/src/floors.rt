//! What is known of the events to come: for each core and each domain, before which kind of event none of it may come at the present moment, and
//! before which moment none may come at all.

ghost use Rattle.std.specs.Prelude.{◌≡◌, ◌<◌, ◌≤◌, ◌+◌, ◌^◌, Some, length, replicate, option_map, slice_set};
ghost use Rattle.pool_records.specs.Fits.{PoolFits};
ghost use Rattle.sched_plain.specs.KeptFloors.{forgotten, lowered, pended, touched_core as core_touched, touched_domain as domain_touched};
ghost use Rattle.sched_plain.specs.Outlooks.{IsUnseen, looked, passed, seen_after};
ghost use Rattle.sched_model.specs.Pool.{saving_among};

use plain_pool::pool::guest_of;
use pool_records::cores::core_of;
use pool_records::units::unit_of;
use sched_base::{ResId, UnitId};
use sched_model::action::Action;
use sched_model::places::item_at;
use sched_model::state::{Pool, Resource};

/// For each core and for each domain a kind of event, by its place in the order of kinds: no event of it that may come now is of an earlier
/// kind. 0 says nothing, 13 that none may come.
#[derive(Drop)]
pub struct Floors {
    pub cores: [u8; 64],
    pub domains: [u8; 64],
}

/// For each core and for each domain a moment before which no event of it may come. 0 says nothing.
#[derive(Drop)]
pub struct Waits {
    pub cores: [u64; 64],
    pub domains: [u64; 64],
}

/// What is known: the floors and the waits, whether the tool is known to be still at the present moment, and the core and the domain that the last
/// event touched.
#[derive(Drop)]
pub struct Outlook {
    pub floors: Floors,
    pub waits: Waits,
    pub is_still: bool,
    pub core: Option<usize>,
    pub domain: Option<usize>,
}

/// Floors that say nothing.
fn no_floors() -> Floors
    ensures { result ≡ record { cores = replicate 64 0; domains = replicate 64 0 } }
{
    Floors {
        cores: [0; 64],
        domains: [0; 64],
    }
}

/// Waits that say nothing.
fn no_waits() -> Waits
    ensures { result ≡ record { cores = replicate 64 0; domains = replicate 64 0 } }
{
    Waits {
        cores: [0; 64],
        domains: [0; 64],
    }
}

/// Where nothing is known.
pub fn nothing_known() -> Outlook
    ensures { IsUnseen (Some result) }
{
    Outlook {
        floors: no_floors(),
        waits: no_waits(),
        is_still: false,
        core: None,
        domain: None,
    }
}

/// Nothing is known any more.
#[inline(never)]
fn forget_kept(outlook: &mut Outlook)
    ensures { IsUnseen (Some outlook.new) }
{
    outlook.floors = no_floors();
    outlook.waits = no_waits();
    outlook.is_still = false;
}

/// The same, where anything was kept.
pub fn forget_all(outlook: &mut Option<Outlook>)
    ensures { IsUnseen outlook.new }
{
    if let Some(kept) = outlook {
        forget_kept(kept);
    }
}

/// Nothing is known of the next moment but what was known of later ones.
#[inline(never)]
fn pass_kept(outlook: &mut Outlook)
    ensures { outlook.new ≡ passed outlook.old }
{
    outlook.floors = no_floors();
    outlook.is_still = false;
}

/// The same, where anything was kept.
pub fn pass(outlook: &mut Option<Outlook>)
    ensures { outlook.new ≡ option_map passed outlook.old }
{
    if let Some(kept) = outlook {
        pass_kept(kept);
    }
}

/// The unit that the core saves.
fn saved_at(r: ResId, cores: &[Option<Resource>]) -> Option<UnitId>
    ensures { result ≡ saving_among cores.now r.0 }
{
    match item_at(cores, r.0 as usize) {
        None => None,
        Some(c) => c.saving,
    }
}

/// The core whose events the event may let come.
fn touched_core(granularity: u8, pool: &Pool, action: Action) -> Option<usize>
    requires some { 0 < granularity }
    requires fits { PoolFits pool.now }
    ensures { result ≡ core_touched granularity pool.now action }
{
    match action {
        Action::Wake(v) => core_of(pool.resources.as_slice(), unit_of(granularity, v)),
        Action::Block(p) => Some((p.0 / granularity) as usize),
        Action::Slice(r) => Some(r.0 as usize),
        Action::Repl(u) => core_of(pool.resources.as_slice(), u),
        Action::Arrive(p) => Some((p.0 / granularity) as usize),
        Action::Decide(r) => Some(r.0 as usize),
        Action::Leave(p) => Some((p.0 / granularity) as usize),
        Action::Save(r) => Some(r.0 as usize),
        _ => None,
    }
}

/// The domain whose events the event may let come.
fn touched_domain(granularity: u8, pool: &Pool, action: Action) -> Option<usize>
    requires { 0 < granularity }
    ensures { result ≡ domain_touched granularity pool.now action }
{
    match action {
        Action::Wake(v) => Some(v.dom.0 as usize),
        Action::Block(p) => match guest_of(granularity, pool, p) {
            None => None,
            Some(v) => Some(v.dom.0 as usize),
        },
        Action::Repl(u) => Some(u.dom.0 as usize),
        Action::Refill(d) => Some(d.0 as usize),
        Action::Save(r) => match saved_at(r, pool.resources.as_slice()) {
            None => None,
            Some(u) => Some(u.dom.0 as usize),
        },
        _ => None,
    }
}

/// No kind is known of the core or domain with this number.
fn clear_floor(n: usize, floors: &mut [u8; 64])
    ensures { floors.new ≡ slice_set floors.old n 0 }
{
    if n < 64 {
        floors[n] = 0;
    }
}

/// The same, where there is a number.
fn forget_floor(number: Option<usize>, floors: &mut [u8; 64])
    ensures { floors.new ≡ forgotten number floors.old }
{
    match number {
        None => {}
        Some(n) => clear_floor(n, floors),
    }
}

/// No moment is known of the core or domain with this number.
fn clear_wait(n: usize, waits: &mut [u64; 64])
    ensures { waits.new ≡ slice_set waits.old n 0 }
{
    if n < 64 {
        waits[n] = 0;
    }
}

/// The same, where there is a number.
fn forget_wait(number: Option<usize>, waits: &mut [u64; 64])
    ensures { waits.new ≡ forgotten number waits.old }
{
    match number {
        None => {}
        Some(n) => clear_wait(n, waits),
    }
}

/// What is known after the event of the pool, before its cores are looked at.
#[inline(never)]
fn touch_kept(granularity: u8, action: Action, pool: &Pool, outlook: &mut Outlook)
    requires some { 0 < granularity }
    requires fits { PoolFits pool.now }
    ensures { outlook.new ≡ seen_after granularity pool.now action outlook.old }
{
    let core = touched_core(granularity, pool, action);
    let domain = touched_domain(granularity, pool, action);
    forget_floor(core, &mut outlook.floors.cores);
    forget_floor(domain, &mut outlook.floors.domains);
    forget_wait(core, &mut outlook.waits.cores);
    forget_wait(domain, &mut outlook.waits.domains);
    outlook.core = core;
    outlook.domain = domain;
}

/// The same where anything is kept.
pub fn touch(granularity: u8, action: Action, pool: &Pool, outlook: &mut Option<Outlook>)
    requires some { 0 < granularity }
    requires fits { PoolFits pool.now }
    ensures { outlook.new ≡ option_map (seen_after granularity pool.now action) outlook.old }
{
    if let Some(kept) = outlook {
        touch_kept(granularity, action, pool, kept);
    }
}

/// The processors of the core with this number may arrive.
fn lower(r: usize, floors: &mut [u8; 64], waits: &mut [u64; 64])
    ensures floors { floors.new ≡ lowered 9 r floors.old }
    ensures waits { waits.new ≡ lowered 0 r waits.old }
{
    if r < 64 {
        floors[r] = floors[r].min(9);
        waits[r] = 0;
    }
}

/// The same of each of these cores that is pending, of which the first has the number r.
#[inline(never)]
fn pend_each(r: usize, cores: &[Option<Resource>], floors: &mut [u8; 64], waits: &mut [u64; 64])
    requires { r + length cores.now < 2 ^ 64 }
    ensures floors { floors.new ≡ pended 9 r cores.now floors.old }
    ensures waits { waits.new ≡ pended 0 r cores.now waits.old }
{
    match cores {
        [] => {}
        [None, rest @ ..] => pend_each(r + 1, rest, floors, waits),
        [Some(c), rest @ ..] => {
            if c.pending {
                lower(r, floors, waits);
            }
            pend_each(r + 1, rest, floors, waits);
        }
    }
}

/// What is known after a look at these cores, where anything is kept.
pub fn pend(cores: &[Option<Resource>], outlook: &mut Option<Outlook>)
    requires { length cores.now ≤ 64 }
    ensures { outlook.new ≡ option_map (looked cores.now) outlook.old }
{
    if let Some(kept) = outlook {
        pend_each(0, cores, &mut kept.floors.cores, &mut kept.waits.cores);
    }
}
