//! The answer to a command is written behind the command's number.

ghost use Rattle.std.specs.Prelude.{◌≡◌, length, ◌+◌, ◌++◌, ◌≤◌, decimal};
ghost use Rattle.sched_print.specs.Line.{with_reply, with_refusal};

use crate::line_buf::LineBuf;
use crate::words::{kind_word, param_word, put_flag};
use sched_base::PoolId;
use sched_model::config::SchedKind;
use sched_model::event::{Param, Refusal, Reply};

/// Adds the answer to an accepted command: at most 110 bytes.
pub fn put_reply(reply: Reply, out: &mut LineBuf)
    requires { length out.old + 110 ≤ 192 }
    ensures bytes { out.new ≡ with_reply out.old reply }
    ensures length { length out.new ≤ length out.old + 110 }
{
    match reply {
        Reply::Done => out.put(b" ok"),
        Reply::Pools { pools, free } => out.put_two_fields(b" ok pools ", pools, b" free ", free),
        Reply::Pool {
            pool,
            kind,
            cpus,
            domains,
        } => {
            out.put_field(b" ok pool ", u64::from(pool.0));
            out.put(b" ");
            out.put(kind_word(kind));
            out.put_two_fields(b" cpus ", cpus, b" domains ", domains);
        }
        Reply::Weight { weight, cap } => out.put_two_fields(b" ok weight ", weight, b" cap ", cap),
        Reply::Rate { limit } => out.put_field(b" ok ratelimit ", limit),
        Reply::Rtds {
            period,
            budget,
            extra,
        } => {
            out.put_two_fields(b" ok period ", period, b" budget ", budget);
            out.put(b" extratime ");
            put_flag(extra, out);
        }
    }
}

/// Adds these bytes and then the number of a pool.
fn put_pool(before: &[u8], pool: PoolId, out: &mut LineBuf)
    requires { length out.old + length before.now + 20 ≤ 192 }
    ensures bytes { out.new ≡ out.old ++ before.now ++ decimal pool.0 }
    ensures length { length out.new ≤ length out.old + length before.now + 20 }
{
    out.put_field(before, u64::from(pool.0));
}

fn put_pool_holds(pool: PoolId, cpus: u64, domains: u64, out: &mut LineBuf)
    requires { length out.old + 110 ≤ 192 }
    ensures bytes { out.new ≡ with_refusal out.old (Refusal.PoolHolds pool cpus domains) }
    ensures length { length out.new ≤ length out.old + 110 }
{
    put_pool(b" refused 9 PoolHolds pool ", pool, out);
    out.put_two_fields(b" cpus ", cpus, b" domains ", domains);
}

fn put_wrong_sched(pool: PoolId, kind: SchedKind, out: &mut LineBuf)
    requires { length out.old + 110 ≤ 192 }
    ensures bytes { out.new ≡ with_refusal out.old (Refusal.WrongSched pool kind) }
    ensures length { length out.new ≤ length out.old + 110 }
{
    put_pool(b" refused 11 WrongSched pool ", pool, out);
    out.put(b" ");
    out.put(kind_word(kind));
}

fn put_range(param: Param, number: u64, out: &mut LineBuf)
    requires { length out.old + 110 ≤ 192 }
    ensures bytes { out.new ≡ with_refusal out.old (Refusal.Range param number) }
    ensures length { length out.new ≤ length out.old + 110 }
{
    out.put(b" refused 12 Range ");
    out.put(param_word(param));
    out.put_field(b" ", number);
}

/// Adds the number, the name and the values of a refusal: at most 110 bytes.
pub fn put_refusal(refusal: Refusal, out: &mut LineBuf)
    requires { length out.old + 110 ≤ 192 }
    ensures bytes { out.new ≡ with_refusal out.old refusal }
    ensures length { length out.new ≤ length out.old + 110 }
{
    match refusal {
        Refusal::Syntax { place } => out.put_field(b" refused 1 Syntax place ", place),
        Refusal::NoPool => out.put(b" refused 2 NoPool"),
        Refusal::NameTaken { pool } => put_pool(b" refused 3 NameTaken pool ", pool, out),
        Refusal::NoDomain => out.put(b" refused 4 NoDomain"),
        Refusal::NoCpu { cpu } => out.put_field(b" refused 5 NoCpu cpu ", cpu),
        Refusal::CpuTaken { cpu, pool } => out.put_two_fields(
            b" refused 6 CpuTaken cpu ",
            cpu,
            b" pool ",
            u64::from(pool.0),
        ),
        Refusal::CpuElsewhere { cpu } => out.put_field(b" refused 7 CpuElsewhere cpu ", cpu),
        Refusal::LastCpu { pool, dom } => out.put_two_fields(
            b" refused 8 LastCpu pool ",
            u64::from(pool.0),
            b" domain ",
            u64::from(dom.0),
        ),
        Refusal::PoolHolds {
            pool,
            cpus,
            domains,
        } => put_pool_holds(pool, cpus, domains, out),
        Refusal::PoolZero => out.put(b" refused 10 PoolZero"),
        Refusal::WrongSched { pool, kind } => put_wrong_sched(pool, kind, out),
        Refusal::Range { param, n } => put_range(param, n, out),
        Refusal::PoolEmpty { pool } => put_pool(b" refused 13 PoolEmpty pool ", pool, out),
        Refusal::ArincOne { pool } => put_pool(b" refused 14 ArincOne pool ", pool, out),
        Refusal::PoolsFull => out.put(b" refused 15 PoolsFull"),
        Refusal::FrameLong { sum, major } => out.put_two_fields(
            b" refused 16 FrameLong sum ",
            sum,
            b" major ",
            major,
        ),
        Refusal::NoVcpu => out.put(b" refused 17 NoVcpu"),
    }
}
