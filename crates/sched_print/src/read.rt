//! A line is read as its entry.

ghost use Rattle.std.specs.Prelude.{◌≡◌};
ghost use Rattle.sched_print.specs.Readers.{read};
ghost use Rattle.sched_print.specs.Forms as form;

use crate::read_answers::answers;
use crate::scan::{
    Left, any_number, better, closing, end, number, reads, small_number, unit, vcpu, word,
};
use sched_base::{DomId, Moment, PoolId, ProcId, ResId, Span, UnitId, VcpuId};
use sched_model::event::{Entry, Event};

fn stall(at: Moment, bytes: &[u8]) -> Result<Entry, Left>
    ensures { result ≡ read (form.stall (form.entry at.0)) bytes.now }
{
    reads!(
        bytes,
        b" stall p" p = small_number(64) as ProcId,
        b" until " until = any_number() as Moment =>
        Entry { at, event: Event::Stall { p, until } }
    )
}

fn xl(at: Moment, bytes: &[u8]) -> Result<Entry, Left>
    ensures { result ≡ read (form.xl (form.entry at.0)) bytes.now }
{
    let rest = word(bytes, b" xl ")?;
    let (k, rest) = number(rest, 1, 4097)?;
    answers(at, k as u32, rest)
}

fn moved_to_pool(at: Moment, r: ResId, bytes: &[u8]) -> Result<Entry, Left>
    ensures { result ≡ read (form.moved_to_pool r (form.entry at.0)) bytes.now }
{
    reads!(
        bytes,
        b" pool " pool = small_number(16) as PoolId =>
        Entry { at, event: Event::Moved { r, to: Some(pool) } }
    )
}

fn moved(at: Moment, bytes: &[u8]) -> Result<Entry, Left>
    ensures { result ≡ read (form.moved_form (form.entry at.0)) bytes.now }
{
    let rest = word(bytes, b" moved c")?;
    let (r, rest) = small_number(rest, 64)?;
    let r = ResId(r);
    let event = Event::Moved { r, to: None };
    better(
        closing(rest, b" free", Entry { at, event }),
        moved_to_pool(at, r, rest),
    )
}

fn dom_moved(at: Moment, bytes: &[u8]) -> Result<Entry, Left>
    ensures { result ≡ read (form.dom_moved (form.entry at.0)) bytes.now }
{
    reads!(
        bytes,
        b" dom-moved d" d = small_number(64) as DomId,
        b" pool " to = small_number(16) as PoolId =>
        Entry { at, event: Event::DomMoved { d, to } }
    )
}

fn wake(at: Moment, bytes: &[u8]) -> Result<Entry, Left>
    ensures { result ≡ read (form.wake (form.entry at.0)) bytes.now }
{
    let rest = word(bytes, b" wake")?;
    let (v, rest) = vcpu(rest)?;
    let event = Event::Wake { v };
    end(rest, Entry { at, event })
}

fn block(at: Moment, bytes: &[u8]) -> Result<Entry, Left>
    ensures { result ≡ read (form.block (form.entry at.0)) bytes.now }
{
    let rest = word(bytes, b" block p")?;
    let (p, rest) = small_number(rest, 64)?;
    let (v, rest) = vcpu(rest)?;
    let event = Event::Block { p: ProcId(p), v };
    end(rest, Entry { at, event })
}

fn slice(at: Moment, bytes: &[u8]) -> Result<Entry, Left>
    ensures { result ≡ read (form.slice (form.entry at.0)) bytes.now }
{
    reads!(
        bytes,
        b" slice c" r = small_number(64) as ResId =>
        Entry { at, event: Event::Slice { r } }
    )
}

fn repl_end(at: Moment, u: UnitId, bytes: &[u8]) -> Result<Entry, Left>
    ensures { result ≡ read (form.repl_end u (form.entry at.0)) bytes.now }
{
    let rest = word(bytes, b" start ")?;
    let (start, rest) = any_number(rest)?;
    let rest = word(rest, b" deadline ")?;
    let (deadline, rest) = any_number(rest)?;
    let rest = word(rest, b" budget ")?;
    let (budget, rest) = any_number(rest)?;
    let rest = word(rest, b" extra ")?;
    let (start, deadline, budget) = (Moment(start), Moment(deadline), Span(budget));
    let without = Event::Repl {
        u,
        start,
        deadline,
        budget,
        extra: false,
    };
    let with = Event::Repl {
        u,
        start,
        deadline,
        budget,
        extra: true,
    };
    better(
        closing(rest, b"0", Entry { at, event: without }),
        closing(rest, b"1", Entry { at, event: with }),
    )
}

fn repl(at: Moment, bytes: &[u8]) -> Result<Entry, Left>
    ensures { result ≡ read (form.repl (form.entry at.0)) bytes.now }
{
    let rest = word(bytes, b" repl")?;
    let (u, rest) = unit(rest)?;
    repl_end(at, u, rest)
}

fn refill_positive(at: Moment, d: DomId, periods: u64, bytes: &[u8]) -> Result<Entry, Left>
    ensures { result ≡ read (form.refill_positive d periods (form.entry at.0)) bytes.now }
{
    let (n, rest) = any_number(bytes)?;
    let event = Event::Refill {
        d,
        periods,
        budget: n as i64,
    };
    end(rest, Entry { at, event })
}

fn refill_negative(at: Moment, d: DomId, periods: u64, bytes: &[u8]) -> Result<Entry, Left>
    ensures { result ≡ read (form.refill_negative d periods (form.entry at.0)) bytes.now }
{
    let rest = word(bytes, b"-")?;
    let (n, rest) = number(rest, 1, (1 << 63) + 1)?;
    let budget = -((n - 1) as i64) - 1;
    let event = Event::Refill { d, periods, budget };
    end(rest, Entry { at, event })
}

fn refill(at: Moment, bytes: &[u8]) -> Result<Entry, Left>
    ensures { result ≡ read (form.refill (form.entry at.0)) bytes.now }
{
    let rest = word(bytes, b" refill d")?;
    let (d, rest) = small_number(rest, 64)?;
    let rest = word(rest, b" periods ")?;
    let (periods, rest) = any_number(rest)?;
    let rest = word(rest, b" budget ")?;
    let d = DomId(d);
    better(
        refill_positive(at, d, periods, rest),
        refill_negative(at, d, periods, rest),
    )
}

fn arrive(at: Moment, bytes: &[u8]) -> Result<Entry, Left>
    ensures { result ≡ read (form.arrive (form.entry at.0)) bytes.now }
{
    reads!(
        bytes,
        b" arrive p" p = small_number(64) as ProcId =>
        Entry { at, event: Event::Arrive { p } }
    )
}

fn decide_end(
    at: Moment,
    r: ResId,
    unit: Option<UnitId>,
    due: Option<Moment>,
    bytes: &[u8],
) -> Result<Entry, Left>
    ensures { result ≡ read (form.decide_end r unit due (form.entry at.0)) bytes.now }
{
    reads!(
        bytes,
        b" late " late = any_number() as Span,
        b" reset " reset = any_number() =>
        Entry { at, event: Event::Decide { r, unit, due, late, reset } }
    )
}

fn decide_at(at: Moment, r: ResId, unit: Option<UnitId>, bytes: &[u8]) -> Result<Entry, Left>
    ensures { result ≡ read (form.decide_at r unit (form.entry at.0)) bytes.now }
{
    let rest = word(bytes, b" due ")?;
    let (due, rest) = any_number(rest)?;
    decide_end(at, r, unit, Some(Moment(due)), rest)
}

fn decide_never(at: Moment, r: ResId, unit: Option<UnitId>, bytes: &[u8]) -> Result<Entry, Left>
    ensures { result ≡ read (form.decide_never r unit (form.entry at.0)) bytes.now }
{
    let rest = word(bytes, b" due none")?;
    decide_end(at, r, unit, None, rest)
}

fn decide_due(at: Moment, r: ResId, unit: Option<UnitId>, bytes: &[u8]) -> Result<Entry, Left>
    ensures { result ≡ read (form.decide_due r unit (form.entry at.0)) bytes.now }
{
    better(
        decide_at(at, r, unit, bytes),
        decide_never(at, r, unit, bytes),
    )
}

fn decide_unit(at: Moment, r: ResId, bytes: &[u8]) -> Result<Entry, Left>
    ensures { result ≡ read (form.decide_unit r (form.entry at.0)) bytes.now }
{
    let (u, rest) = unit(bytes)?;
    decide_due(at, r, Some(u), rest)
}

fn decide_idle(at: Moment, r: ResId, bytes: &[u8]) -> Result<Entry, Left>
    ensures { result ≡ read (form.decide_idle r (form.entry at.0)) bytes.now }
{
    let rest = word(bytes, b" idle")?;
    decide_due(at, r, None, rest)
}

fn decide(at: Moment, bytes: &[u8]) -> Result<Entry, Left>
    ensures { result ≡ read (form.decide (form.entry at.0)) bytes.now }
{
    let rest = word(bytes, b" decide c")?;
    let (r, rest) = small_number(rest, 64)?;
    better(
        decide_unit(at, ResId(r), rest),
        decide_idle(at, ResId(r), rest),
    )
}

fn leave_vcpu(at: Moment, p: ProcId, bytes: &[u8]) -> Result<Entry, Left>
    ensures { result ≡ read (form.leave_vcpu p (form.entry at.0)) bytes.now }
{
    let (v, rest) = vcpu(bytes)?;
    let event = Event::Leave { p, v: Some(v) };
    end(rest, Entry { at, event })
}

fn leave(at: Moment, bytes: &[u8]) -> Result<Entry, Left>
    ensures { result ≡ read (form.leave (form.entry at.0)) bytes.now }
{
    let rest = word(bytes, b" leave p")?;
    let (p, rest) = small_number(rest, 64)?;
    let p = ProcId(p);
    let event = Event::Leave { p, v: None };
    better(
        leave_vcpu(at, p, rest),
        closing(rest, b" idle", Entry { at, event }),
    )
}

fn save_end(at: Moment, r: ResId, u: UnitId, bytes: &[u8]) -> Result<Entry, Left>
    ensures { result ≡ read (form.save_end r u (form.entry at.0)) bytes.now }
{
    let queued = Event::Save { r, u, queued: true };
    let off = Event::Save {
        r,
        u,
        queued: false,
    };
    better(
        closing(bytes, b" queued", Entry { at, event: queued }),
        closing(bytes, b" off", Entry { at, event: off }),
    )
}

fn save(at: Moment, bytes: &[u8]) -> Result<Entry, Left>
    ensures { result ≡ read (form.save (form.entry at.0)) bytes.now }
{
    let rest = word(bytes, b" save c")?;
    let (r, rest) = small_number(rest, 64)?;
    let (u, rest) = unit(rest)?;
    save_end(at, ResId(r), u, rest)
}

fn end_of_moment(at: Moment, bytes: &[u8]) -> Result<Entry, Left>
    ensures { result ≡ read (form.end (form.entry at.0)) bytes.now }
{
    reads!(
        bytes,
        b" end " next = any_number() as Moment =>
        Entry { at, event: Event::End { next } }
    )
}

fn finish(at: Moment, bytes: &[u8]) -> Result<Entry, Left>
    ensures { result ≡ read (form.finish (form.entry at.0)) bytes.now }
{
    closing(
        bytes,
        b" finish",
        Entry {
            at,
            event: Event::Finish,
        },
    )
}

fn event_at(at: Moment, bytes: &[u8]) -> Result<Entry, Left>
    ensures { result ≡ read (form.events (form.entry at.0)) bytes.now }
{
    let last = finish(at, bytes);
    let last = better(end_of_moment(at, bytes), last);
    let last = better(save(at, bytes), last);
    let last = better(leave(at, bytes), last);
    let last = better(decide(at, bytes), last);
    let last = better(arrive(at, bytes), last);
    let last = better(refill(at, bytes), last);
    let last = better(repl(at, bytes), last);
    let last = better(slice(at, bytes), last);
    let last = better(block(at, bytes), last);
    let last = better(wake(at, bytes), last);
    let last = better(dom_moved(at, bytes), last);
    let last = better(moved(at, bytes), last);
    let last = better(xl(at, bytes), last);
    better(stall(at, bytes), last)
}

/// The entry whose text the bytes are, or how many bytes are left behind the longest beginning of a text.
pub fn entry(bytes: &[u8]) -> Result<Entry, Left>
    ensures { result ≡ read form.entries bytes.now }
{
    let (at, rest) = any_number(bytes)?;
    event_at(Moment(at), rest)
}
