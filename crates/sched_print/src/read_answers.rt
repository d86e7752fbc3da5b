//! The answer to a command is read.

ghost use Rattle.std.specs.Prelude.{◌≡◌, Ok, Err};
ghost use Rattle.sched_print.specs.Readers.{Word, read};
ghost use Rattle.sched_print.specs.Line.{kind_text, param_text};
ghost use Rattle.sched_print.specs.Forms as form;

use crate::scan::{Left, any_number, better, closing, end, reads, small_number, word};
use crate::words::{kind_word, param_word};
use sched_base::{DomId, Moment, PoolId};
use sched_model::config::SchedKind;
use sched_model::event::{Entry, Event, Param, Refusal, Reply};

/// The entry of an accepted command.
fn answered(at: Moment, command: u32, reply: Reply) -> Entry
    ensures { result ≡ record { at = at; event = Event.Xl command (Ok reply) } }
{
    let event = Event::Xl {
        k: command,
        reply: Ok(reply),
    };
    Entry { at, event }
}

/// The entry of a refused command.
fn refused(at: Moment, command: u32, refusal: Refusal) -> Entry
    ensures { result ≡ record { at = at; event = Event.Xl command (Err refusal) } }
{
    let event = Event::Xl {
        k: command,
        reply: Err(refusal),
    };
    Entry { at, event }
}

fn done(at: Moment, command: u32, bytes: &[u8]) -> Result<Entry, Left>
    ensures { result ≡ read (form.done (form.answered_form at.0 command)) bytes.now }
{
    closing(bytes, b" ok", answered(at, command, Reply::Done))
}

fn pools(at: Moment, command: u32, bytes: &[u8]) -> Result<Entry, Left>
    ensures { result ≡ read (form.pools (form.answered_form at.0 command)) bytes.now }
{
    reads!(
        bytes,
        b" ok pools " pools = any_number(),
        b" free " free = any_number() =>
        answered(at, command, Reply::Pools { pools, free })
    )
}

fn pool_counts(
    at: Moment,
    command: u32,
    pool: PoolId,
    kind: SchedKind,
    bytes: &[u8],
) -> Result<Entry, Left>
    ensures { result ≡ read (Word (kind_text kind)
        (form.pool_counts pool kind (form.answered_form at.0 command))) bytes.now }
{
    let rest = word(bytes, kind_word(kind))?;
    reads!(
        rest,
        b" cpus " cpus = any_number(),
        b" domains " domains = any_number() =>
        answered(at, command, Reply::Pool { pool, kind, cpus, domains })
    )
}

fn pool_reply(at: Moment, command: u32, bytes: &[u8]) -> Result<Entry, Left>
    ensures { result ≡ read (form.pool_reply (form.answered_form at.0 command)) bytes.now }
{
    let rest = word(bytes, b" ok pool ")?;
    let (pool, rest) = small_number(rest, 16)?;
    let rest = word(rest, b" ")?;
    let pool = PoolId(pool);
    let last = pool_counts(at, command, pool, SchedKind::Null, rest);
    let last = better(
        pool_counts(at, command, pool, SchedKind::Arinc653, rest),
        last,
    );
    let last = better(pool_counts(at, command, pool, SchedKind::Rtds, rest), last);
    better(
        pool_counts(at, command, pool, SchedKind::Credit2, rest),
        last,
    )
}

fn weight(at: Moment, command: u32, bytes: &[u8]) -> Result<Entry, Left>
    ensures { result ≡ read (form.weight (form.answered_form at.0 command)) bytes.now }
{
    reads!(
        bytes,
        b" ok weight " weight = any_number(),
        b" cap " cap = any_number() =>
        answered(at, command, Reply::Weight { weight, cap })
    )
}

fn rate(at: Moment, command: u32, bytes: &[u8]) -> Result<Entry, Left>
    ensures { result ≡ read (form.rate (form.answered_form at.0 command)) bytes.now }
{
    reads!(
        bytes,
        b" ok ratelimit " limit = any_number() =>
        answered(at, command, Reply::Rate { limit })
    )
}

fn rtds(at: Moment, command: u32, bytes: &[u8]) -> Result<Entry, Left>
    ensures { result ≡ read (form.rtds (form.answered_form at.0 command)) bytes.now }
{
    let rest = word(bytes, b" ok period ")?;
    let (period, rest) = any_number(rest)?;
    let rest = word(rest, b" budget ")?;
    let (budget, rest) = any_number(rest)?;
    let rest = word(rest, b" extratime ")?;
    let without = Reply::Rtds {
        period,
        budget,
        extra: false,
    };
    let with = Reply::Rtds {
        period,
        budget,
        extra: true,
    };
    better(
        closing(rest, b"0", answered(at, command, without)),
        closing(rest, b"1", answered(at, command, with)),
    )
}

fn replies(at: Moment, command: u32, bytes: &[u8]) -> Result<Entry, Left>
    ensures { result ≡ read (form.replies (form.answered_form at.0 command)) bytes.now }
{
    let last = rtds(at, command, bytes);
    let last = better(rate(at, command, bytes), last);
    let last = better(weight(at, command, bytes), last);
    let last = better(pool_reply(at, command, bytes), last);
    let last = better(pools(at, command, bytes), last);
    better(done(at, command, bytes), last)
}

fn syntax(at: Moment, command: u32, bytes: &[u8]) -> Result<Entry, Left>
    ensures { result ≡ read (form.syntax (form.refused_form at.0 command)) bytes.now }
{
    reads!(
        bytes,
        b" refused 1 Syntax place " place = any_number() =>
        refused(at, command, Refusal::Syntax { place })
    )
}

fn no_pool(at: Moment, command: u32, bytes: &[u8]) -> Result<Entry, Left>
    ensures { result ≡ read (form.no_pool (form.refused_form at.0 command)) bytes.now }
{
    closing(
        bytes,
        b" refused 2 NoPool",
        refused(at, command, Refusal::NoPool),
    )
}

fn name_taken(at: Moment, command: u32, bytes: &[u8]) -> Result<Entry, Left>
    ensures { result ≡ read (form.name_taken (form.refused_form at.0 command)) bytes.now }
{
    reads!(
        bytes,
        b" refused 3 NameTaken pool " pool = small_number(16) as PoolId =>
        refused(at, command, Refusal::NameTaken { pool })
    )
}

fn no_domain(at: Moment, command: u32, bytes: &[u8]) -> Result<Entry, Left>
    ensures { result ≡ read (form.no_domain (form.refused_form at.0 command)) bytes.now }
{
    closing(
        bytes,
        b" refused 4 NoDomain",
        refused(at, command, Refusal::NoDomain),
    )
}

fn no_cpu(at: Moment, command: u32, bytes: &[u8]) -> Result<Entry, Left>
    ensures { result ≡ read (form.no_cpu (form.refused_form at.0 command)) bytes.now }
{
    reads!(
        bytes,
        b" refused 5 NoCpu cpu " cpu = any_number() =>
        refused(at, command, Refusal::NoCpu { cpu })
    )
}

fn cpu_taken(at: Moment, command: u32, bytes: &[u8]) -> Result<Entry, Left>
    ensures { result ≡ read (form.cpu_taken (form.refused_form at.0 command)) bytes.now }
{
    reads!(
        bytes,
        b" refused 6 CpuTaken cpu " cpu = any_number(),
        b" pool " pool = small_number(16) as PoolId =>
        refused(at, command, Refusal::CpuTaken { cpu, pool })
    )
}

fn cpu_elsewhere(at: Moment, command: u32, bytes: &[u8]) -> Result<Entry, Left>
    ensures { result ≡ read (form.cpu_elsewhere (form.refused_form at.0 command)) bytes.now }
{
    reads!(
        bytes,
        b" refused 7 CpuElsewhere cpu " cpu = any_number() =>
        refused(at, command, Refusal::CpuElsewhere { cpu })
    )
}

fn last_cpu(at: Moment, command: u32, bytes: &[u8]) -> Result<Entry, Left>
    ensures { result ≡ read (form.last_cpu (form.refused_form at.0 command)) bytes.now }
{
    reads!(
        bytes,
        b" refused 8 LastCpu pool " pool = small_number(16) as PoolId,
        b" domain " dom = small_number(64) as DomId =>
        refused(at, command, Refusal::LastCpu { pool, dom })
    )
}

fn pool_holds(at: Moment, command: u32, bytes: &[u8]) -> Result<Entry, Left>
    ensures { result ≡ read (form.pool_holds (form.refused_form at.0 command)) bytes.now }
{
    reads!(
        bytes,
        b" refused 9 PoolHolds pool " pool = small_number(16) as PoolId,
        b" cpus " cpus = any_number(),
        b" domains " domains = any_number() =>
        refused(at, command, Refusal::PoolHolds { pool, cpus, domains })
    )
}

fn pool_zero(at: Moment, command: u32, bytes: &[u8]) -> Result<Entry, Left>
    ensures { result ≡ read (form.pool_zero (form.refused_form at.0 command)) bytes.now }
{
    closing(
        bytes,
        b" refused 10 PoolZero",
        refused(at, command, Refusal::PoolZero),
    )
}

fn wrong_kind(
    at: Moment,
    command: u32,
    pool: PoolId,
    kind: SchedKind,
    bytes: &[u8],
) -> Result<Entry, Left>
    ensures { result ≡ read (Word (kind_text kind)
        (form.refused_form at.0 command (Refusal.WrongSched pool kind))) bytes.now }
{
    let refusal = Refusal::WrongSched { pool, kind };
    closing(bytes, kind_word(kind), refused(at, command, refusal))
}

fn wrong_sched(at: Moment, command: u32, bytes: &[u8]) -> Result<Entry, Left>
    ensures { result ≡ read (form.wrong_sched (form.refused_form at.0 command)) bytes.now }
{
    let rest = word(bytes, b" refused 11 WrongSched pool ")?;
    let (pool, rest) = small_number(rest, 16)?;
    let pool = PoolId(pool);
    let rest = word(rest, b" ")?;
    let last = wrong_kind(at, command, pool, SchedKind::Null, rest);
    let last = better(
        wrong_kind(at, command, pool, SchedKind::Arinc653, rest),
        last,
    );
    let last = better(wrong_kind(at, command, pool, SchedKind::Rtds, rest), last);
    better(
        wrong_kind(at, command, pool, SchedKind::Credit2, rest),
        last,
    )
}

fn range_of(at: Moment, command: u32, param: Param, bytes: &[u8]) -> Result<Entry, Left>
    ensures { result ≡ read (Word (param_text param)
        (form.range_of param (form.refused_form at.0 command))) bytes.now }
{
    let rest = word(bytes, param_word(param))?;
    reads!(
        rest,
        b" " n = any_number() =>
        refused(at, command, Refusal::Range { param, n })
    )
}

fn range(at: Moment, command: u32, bytes: &[u8]) -> Result<Entry, Left>
    ensures { result ≡ read (form.range (form.refused_form at.0 command)) bytes.now }
{
    let rest = word(bytes, b" refused 12 Range ")?;
    let last = range_of(at, command, Param::Run, rest);
    let last = better(range_of(at, command, Param::Major, rest), last);
    let last = better(range_of(at, command, Param::Budget, rest), last);
    let last = better(range_of(at, command, Param::Period, rest), last);
    let last = better(range_of(at, command, Param::Ratelimit, rest), last);
    let last = better(range_of(at, command, Param::Cap, rest), last);
    better(range_of(at, command, Param::Weight, rest), last)
}

fn pool_empty(at: Moment, command: u32, bytes: &[u8]) -> Result<Entry, Left>
    ensures { result ≡ read (form.pool_empty (form.refused_form at.0 command)) bytes.now }
{
    reads!(
        bytes,
        b" refused 13 PoolEmpty pool " pool = small_number(16) as PoolId =>
        refused(at, command, Refusal::PoolEmpty { pool })
    )
}

fn arinc_one(at: Moment, command: u32, bytes: &[u8]) -> Result<Entry, Left>
    ensures { result ≡ read (form.arinc_one (form.refused_form at.0 command)) bytes.now }
{
    reads!(
        bytes,
        b" refused 14 ArincOne pool " pool = small_number(16) as PoolId =>
        refused(at, command, Refusal::ArincOne { pool })
    )
}

fn pools_full(at: Moment, command: u32, bytes: &[u8]) -> Result<Entry, Left>
    ensures { result ≡ read (form.pools_full (form.refused_form at.0 command)) bytes.now }
{
    closing(
        bytes,
        b" refused 15 PoolsFull",
        refused(at, command, Refusal::PoolsFull),
    )
}

fn frame_long(at: Moment, command: u32, bytes: &[u8]) -> Result<Entry, Left>
    ensures { result ≡ read (form.frame_long (form.refused_form at.0 command)) bytes.now }
{
    reads!(
        bytes,
        b" refused 16 FrameLong sum " sum = any_number(),
        b" major " major = any_number() =>
        refused(at, command, Refusal::FrameLong { sum, major })
    )
}

fn no_vcpu(at: Moment, command: u32, bytes: &[u8]) -> Result<Entry, Left>
    ensures { result ≡ read (form.no_vcpu (form.refused_form at.0 command)) bytes.now }
{
    closing(
        bytes,
        b" refused 17 NoVcpu",
        refused(at, command, Refusal::NoVcpu),
    )
}

fn low_refusals(at: Moment, command: u32, bytes: &[u8]) -> Result<Entry, Left>
    ensures { result ≡ read (form.low_refusals (form.refused_form at.0 command)) bytes.now }
{
    let last = pool_holds(at, command, bytes);
    let last = better(last_cpu(at, command, bytes), last);
    let last = better(cpu_elsewhere(at, command, bytes), last);
    let last = better(cpu_taken(at, command, bytes), last);
    let last = better(no_cpu(at, command, bytes), last);
    let last = better(no_domain(at, command, bytes), last);
    let last = better(name_taken(at, command, bytes), last);
    let last = better(no_pool(at, command, bytes), last);
    better(syntax(at, command, bytes), last)
}

fn high_refusals(at: Moment, command: u32, bytes: &[u8]) -> Result<Entry, Left>
    ensures { result ≡ read (form.high_refusals (form.refused_form at.0 command)) bytes.now }
{
    let last = no_vcpu(at, command, bytes);
    let last = better(frame_long(at, command, bytes), last);
    let last = better(pools_full(at, command, bytes), last);
    let last = better(arinc_one(at, command, bytes), last);
    let last = better(pool_empty(at, command, bytes), last);
    let last = better(range(at, command, bytes), last);
    let last = better(wrong_sched(at, command, bytes), last);
    better(pool_zero(at, command, bytes), last)
}

/// The entry of the command with this number, whose answer the bytes are.
pub fn answers(at: Moment, command: u32, bytes: &[u8]) -> Result<Entry, Left>
    ensures { result ≡ read (form.answers command (form.entry at.0)) bytes.now }
{
    let refused = better(
        low_refusals(at, command, bytes),
        high_refusals(at, command, bytes),
    );
    better(replies(at, command, bytes), refused)
}
