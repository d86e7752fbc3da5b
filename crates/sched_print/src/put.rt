//! An entry is written as its line.

ghost use Rattle.std.specs.Prelude.{◌≡◌, [], length, ◌+◌, ◌≤◌};
ghost use Rattle.sched_print.specs.Line.{with_vcpu, with_unit, with_choice, with_due, with_event, line};

use crate::line_buf::LineBuf;
use crate::put_answers::{put_refusal, put_reply};
use crate::words::put_flag;
use sched_base::{DomId, Moment, PoolId, ProcId, ResId, Span, UnitId, VcpuId};
use sched_model::event::{Entry, Event, Refusal, Reply};

fn put_vcpu(v: VcpuId, out: &mut LineBuf)
    requires { length out.old + 43 ≤ 192 }
    ensures bytes { out.new ≡ with_vcpu out.old v }
    ensures length { length out.new ≤ length out.old + 43 }
{
    out.put_two_fields(b" d", u64::from(v.dom.0), b"v", u64::from(v.n));
}

fn put_unit(u: UnitId, out: &mut LineBuf)
    requires { length out.old + 43 ≤ 192 }
    ensures bytes { out.new ≡ with_unit out.old u }
    ensures length { length out.new ≤ length out.old + 43 }
{
    out.put_two_fields(b" d", u64::from(u.dom.0), b"u", u64::from(u.n));
}

fn put_choice(unit: Option<UnitId>, out: &mut LineBuf)
    requires { length out.old + 43 ≤ 192 }
    ensures bytes { out.new ≡ with_choice out.old unit }
    ensures length { length out.new ≤ length out.old + 43 }
{
    match unit {
        Some(u) => put_unit(u, out),
        None => out.put(b" idle"),
    }
}

fn put_due(due: Option<Moment>, out: &mut LineBuf)
    requires { length out.old + 25 ≤ 192 }
    ensures bytes { out.new ≡ with_due out.old due }
    ensures length { length out.new ≤ length out.old + 25 }
{
    match due {
        Some(due) => out.put_field(b" due ", due.0),
        None => out.put(b" due none"),
    }
}

fn put_xl(command: u32, reply: Result<Reply, Refusal>, out: &mut LineBuf)
    requires { length out.old ≤ 20 }
    ensures bytes { out.new ≡ with_event out.old (Event.Xl command reply) }
    ensures length { length out.new ≤ 191 }
{
    out.put_field(b" xl ", u64::from(command));
    match reply {
        Ok(reply) => put_reply(reply, out),
        Err(refusal) => put_refusal(refusal, out),
    }
}

fn put_moved(r: ResId, to: Option<PoolId>, out: &mut LineBuf)
    requires { length out.old ≤ 20 }
    ensures bytes { out.new ≡ with_event out.old (Event.Moved r to) }
    ensures length { length out.new ≤ 191 }
{
    out.put_field(b" moved c", u64::from(r.0));
    match to {
        Some(pool) => out.put_field(b" pool ", u64::from(pool.0)),
        None => out.put(b" free"),
    }
}

fn put_repl(
    u: UnitId,
    start: Moment,
    deadline: Moment,
    budget: Span,
    extra: bool,
    out: &mut LineBuf,
)
    requires { length out.old ≤ 20 }
    ensures bytes { out.new ≡ with_event out.old (Event.Repl u start deadline budget extra) }
    ensures length { length out.new ≤ 191 }
{
    out.put(b" repl");
    put_unit(u, out);
    out.put_two_fields(b" start ", start.0, b" deadline ", deadline.0);
    out.put_field(b" budget ", budget.0);
    out.put(b" extra ");
    put_flag(extra, out);
}

fn put_refill(d: DomId, periods: u64, budget: i64, out: &mut LineBuf)
    requires { length out.old ≤ 20 }
    ensures bytes { out.new ≡ with_event out.old (Event.Refill d periods budget) }
    ensures length { length out.new ≤ 191 }
{
    out.put_two_fields(b" refill d", u64::from(d.0), b" periods ", periods);
    out.put_signed_field(b" budget ", budget);
}

fn put_decide(
    r: ResId,
    unit: Option<UnitId>,
    due: Option<Moment>,
    late: Span,
    reset: u64,
    out: &mut LineBuf,
)
    requires { length out.old ≤ 20 }
    ensures bytes { out.new ≡ with_event out.old (Event.Decide r unit due late reset) }
    ensures length { length out.new ≤ 191 }
{
    out.put_field(b" decide c", u64::from(r.0));
    put_choice(unit, out);
    put_due(due, out);
    out.put_two_fields(b" late ", late.0, b" reset ", reset);
}

fn put_leave(p: ProcId, v: Option<VcpuId>, out: &mut LineBuf)
    requires { length out.old ≤ 20 }
    ensures bytes { out.new ≡ with_event out.old (Event.Leave p v) }
    ensures length { length out.new ≤ 191 }
{
    out.put_field(b" leave p", u64::from(p.0));
    match v {
        Some(v) => put_vcpu(v, out),
        None => out.put(b" idle"),
    }
}

fn put_save(r: ResId, u: UnitId, queued: bool, out: &mut LineBuf)
    requires { length out.old ≤ 20 }
    ensures bytes { out.new ≡ with_event out.old (Event.Save r u queued) }
    ensures length { length out.new ≤ 191 }
{
    out.put_field(b" save c", u64::from(r.0));
    put_unit(u, out);
    if queued {
        out.put(b" queued");
    } else {
        out.put(b" off");
    }
}

pub(crate) fn put_event(event: &Event, out: &mut LineBuf)
    requires { length out.old ≤ 20 }
    ensures bytes { out.new ≡ with_event out.old event.now }
    ensures length { length out.new ≤ 191 }
{
    match *event {
        Event::Stall { p, until } => out.put_two_fields(
            b" stall p",
            u64::from(p.0),
            b" until ",
            until.0,
        ),
        Event::Xl { k, reply } => put_xl(k, reply, out),
        Event::Moved { r, to } => put_moved(r, to, out),
        Event::DomMoved { d, to } => out.put_two_fields(
            b" dom-moved d",
            u64::from(d.0),
            b" pool ",
            u64::from(to.0),
        ),
        Event::Wake { v } => {
            out.put(b" wake");
            put_vcpu(v, out);
        }
        Event::Block { p, v } => {
            out.put_field(b" block p", u64::from(p.0));
            put_vcpu(v, out);
        }
        Event::Slice { r } => out.put_field(b" slice c", u64::from(r.0)),
        Event::Repl {
            u,
            start,
            deadline,
            budget,
            extra,
        } => put_repl(u, start, deadline, budget, extra, out),
        Event::Refill { d, periods, budget } => put_refill(d, periods, budget, out),
        Event::Arrive { p } => out.put_field(b" arrive p", u64::from(p.0)),
        Event::Decide {
            r,
            unit,
            due,
            late,
            reset,
        } => put_decide(r, unit, due, late, reset, out),
        Event::Leave { p, v } => put_leave(p, v, out),
        Event::Save { r, u, queued } => put_save(r, u, queued, out),
        Event::End { next } => out.put_field(b" end ", next.0),
        Event::Finish => out.put(b" finish"),
    }
}

/// Writes the entry's line, with its newline, into an empty buffer. The buffer has room for the line of every entry.
/// It takes no memory.
pub fn put_entry(e: &Entry, out: &mut LineBuf)
    requires { out.old ≡ [] }
    ensures { out.new ≡ line e.now }
{
    out.put_number(e.at.0);
    put_event(&e.event, out);
    out.put(b"\n");
}
