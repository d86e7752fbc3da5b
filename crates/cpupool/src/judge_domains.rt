//! The commands on domains and on schedulers' parameters, judged. The first check that fails gives the refusal.

ghost use Rattle.std.specs.Prelude.{◌≡◌, ◌+◌, ◌-◌, ◌/◌, ◌*◌, ◌^◌, ◌<◌, ◌≤◌, option_map, take, drop};
ghost use Rattle.sched_base.specs.Numbers.{span};
ghost use Rattle.sched_model.specs.CheckedMachine.{IsGivenNumber};
ghost use Rattle.cpupool.specs.Verdicts.{stored_weight_reply, ranged_or_refused, stored_refusal, stored_rtds_reply, guest_or_refused, seen_rtds};

use crate::pools::{core_total, kind_of};
use crate::tool::ToolState;
use sched_base::{DomId, Span};
use sched_model::command::Which;
use sched_model::config::SchedKind;
use sched_model::event::{Param, Refusal, Reply};
use sched_model::facts::Stored;
use sched_model::plan::Plan;

/// A number that is given, if it is in the range from low to high.
fn given_range(
    param: Param,
    low: u64,
    high: u64,
    given: Option<u64>,
) -> Result<Option<u32>, Refusal>
    requires { high < 2 ^ 32 }
    ensures { result ≡ ranged_or_refused param low high given }
{
    match given {
        None => Ok(None),
        Some(given) => {
            if given < low || given > high {
                Err(Refusal::Range { param, n: given })
            } else {
                Ok(Some(given as u32))
            }
        }
    }
}

/// The reply of a command that asks for weight and cap.
fn weight_reply(units: &[Stored]) -> Reply
    ensures { result ≡ stored_weight_reply units.now }
{
    match units {
        [Stored::Credit2 { weight, cap }, ..] => Reply::Weight {
            weight: *weight as u64,
            cap: *cap as u64,
        },
        _ => Reply::Done,
    }
}

/// The reply of a command that asks for the RTDS parameters, in microseconds.
fn rtds_reply(units: &[Stored]) -> Reply
    ensures { result ≡ stored_rtds_reply units.now }
{
    match units {
        [
            Stored::Rtds {
                period,
                budget,
                extra,
            },
            ..
        ] => Reply::Rtds {
            period: period.0 / 1000,
            budget: budget.0 / 1000,
            extra: *extra,
        },
        _ => Reply::Done,
    }
}

/// Why the units may not have the RTDS parameters, given in microseconds: the first one that the command would leave with
/// a period or a budget out of its range.
fn stored_fault(period: Option<u64>, budget: Option<u64>, units: &[Stored]) -> Option<Refusal>
    ensures { result ≡ stored_refusal period budget units.now }
{
    match units {
        [
            Stored::Rtds {
                period: p,
                budget: b,
                ..
            },
            rest @ ..,
        ] => {
            let left_period = period.unwrap_or(p.0 / 1000);
            let left_budget = budget.unwrap_or(b.0 / 1000);
            if left_period < 10 || left_period > 1_000_000_000 {
                return Some(Refusal::Range {
                    param: Param::Period,
                    n: left_period,
                });
            }
            if left_budget < 10 || left_budget > left_period {
                return Some(Refusal::Range {
                    param: Param::Budget,
                    n: left_budget,
                });
            }
            stored_fault(period, budget, rest)
        }
        _ => None,
    }
}

/// The vCPU that is named, if the domain with so many has it.
pub(crate) fn guest_of(vcpus: u8, vcpu: Option<u64>) -> Result<Option<u8>, Refusal>
    ensures { result ≡ guest_or_refused vcpus vcpu }
{
    match vcpu {
        None => Ok(None),
        Some(v) => {
            if v < vcpus as u64 {
                Ok(Some(v as u8))
            } else {
                Err(Refusal::NoVcpu)
            }
        }
    }
}

/// A span that is given in microseconds.
fn span_of(us: Option<u64>) -> Option<Span>
    requires { IsGivenNumber us }
    ensures { result ≡ option_map (λ us. span (us * 1000)) us }
{
    match us {
        None => None,
        Some(us) => Some(Span(us * 1000)),
    }
}

/// How many units, each of `granularity` vCPUs, a domain has.
#[tactic(auto, using(crate::proofs::NumberLemmas::few_units))]
fn unit_count(granularity: u8, vcpus: u8) -> u8
    requires { 1 ≤ granularity }
    ensures { result ≡ (vcpus + granularity - 1) / granularity }
{
    ((vcpus as u16 + granularity as u16 - 1) / granularity as u16) as u8
}

/// The plan for so many units of the domain d from first on, whose set values are these. Periods and budgets are in microseconds.
fn plan_rtds(
    d: DomId,
    first: u8,
    count: u8,
    units: &[Stored],
    period: Option<u64>,
    budget: Option<u64>,
    extra: Option<bool>,
) -> Result<Plan, Refusal>
    requires period { IsGivenNumber period }
    requires budget { IsGivenNumber budget }
    ensures { result ≡ seen_rtds d.0 first count units.now period budget extra }
{
    if let Some(fault) = stored_fault(period, budget, units) {
        return Err(fault);
    }
    let asks = period.is_none() && budget.is_none() && extra.is_none();
    let reply = if asks { rtds_reply(units) } else { Reply::Done };
    Ok(Plan::RtdsDom {
        dom: d,
        first,
        count,
        period: span_of(period),
        budget: span_of(budget),
        extra,
        reply,
    })
}

/// The set value of this unit, alone.
fn one_unit(units: &[Stored], index: usize) -> &[Stored]
    ensures { result.now ≡ take 1 (drop index units.now) }
{
    if index < units.len() {
        &units[index..index + 1]
    } else {
        &units[units.len()..]
    }
}

impl ToolState {
    ghost use Rattle.std.specs.Prelude.{◌≡◌};
    ghost use Rattle.sched_model.specs.CheckedMachine.{IsGivenNumber};
    ghost use Rattle.cpupool.specs.Verdicts.{seen_migrate, seen_pause, seen_unpause, seen_credit2_dom, seen_credit2_pool, seen_rtds_units, seen_rtds_dom};

    /// `cpupool-migrate DOM POOL`
    pub(crate) fn judge_migrate(&self, which: &Which, target: &Which) -> Result<Plan, Refusal>
        ensures { result ≡ seen_migrate self.now which.now target.now }
    {
        let Some(named) = self.named_domain(which) else {
            return Err(Refusal::NoDomain);
        };
        let Some(new) = self.named_pool(target) else {
            return Err(Refusal::NoPool);
        };
        if core_total(new.pool) == 0 {
            return Err(Refusal::PoolEmpty { pool: new.i });
        }
        Ok(Plan::Migrate {
            dom: named.d,
            from: named.i,
            to: new.i,
            reply: Reply::Done,
        })
    }

    /// `pause DOM`
    pub(crate) fn judge_pause(&self, which: &Which) -> Result<Plan, Refusal>
        ensures { result ≡ seen_pause self.now which.now }
    {
        match self.named_domain(which) {
            None => Err(Refusal::NoDomain),
            Some(named) => Ok(Plan::Pause {
                dom: named.d,
                reply: Reply::Done,
            }),
        }
    }

    /// `unpause DOM`
    pub(crate) fn judge_unpause(&self, which: &Which) -> Result<Plan, Refusal>
        ensures { result ≡ seen_unpause self.now which.now }
    {
        match self.named_domain(which) {
            None => Err(Refusal::NoDomain),
            Some(named) => Ok(Plan::Unpause {
                dom: named.d,
                reply: Reply::Done,
            }),
        }
    }

    /// `sched-credit2 -d DOM [-w W] [-c C]`
    pub(crate) fn judge_credit2_dom(
        &self,
        units: &[Stored],
        which: &Which,
        weight: Option<u64>,
        cap: Option<u64>,
    ) -> Result<Plan, Refusal>
        ensures { result ≡ seen_credit2_dom self.now units.now which.now weight cap }
    {
        let Some(named) = self.named_domain(which) else {
            return Err(Refusal::NoDomain);
        };
        if kind_of(named.pool) != SchedKind::Credit2 {
            return Err(Refusal::WrongSched {
                pool: named.i,
                kind: kind_of(named.pool),
            });
        }
        let asks = weight.is_none() && cap.is_none();
        let weight = given_range(Param::Weight, 1, 65535, weight)?;
        let cap = given_range(Param::Cap, 0, 6400, cap)?;
        let reply = if asks {
            weight_reply(units)
        } else {
            Reply::Done
        };
        Ok(Plan::Credit2Dom {
            dom: named.d,
            weight,
            cap,
            reply,
        })
    }

    /// `sched-credit2 -s -p POOL [-r US]`
    pub(crate) fn judge_credit2_pool(
        &self,
        rate: u32,
        which: &Which,
        limit: Option<u64>,
    ) -> Result<Plan, Refusal>
        ensures { result ≡ seen_credit2_pool self.now rate which.now limit }
    {
        let Some(named) = self.named_pool(which) else {
            return Err(Refusal::NoPool);
        };
        let pool = named.i;
        if kind_of(named.pool) != SchedKind::Credit2 {
            return Err(Refusal::WrongSched {
                pool,
                kind: kind_of(named.pool),
            });
        }
        match limit {
            None => Ok(Plan::Credit2Pool {
                pool,
                limit: None,
                reply: Reply::Rate { limit: rate as u64 },
            }),
            Some(us) => {
                if us != 0 && (us < 100 || us > 500_000) {
                    return Err(Refusal::Range {
                        param: Param::Ratelimit,
                        n: us,
                    });
                }
                Ok(Plan::Credit2Pool {
                    pool,
                    limit: Some(us as u32),
                    reply: Reply::Done,
                })
            }
        }
    }

    /// The plan for the unit of the vCPU, or for all units of the domain d, which has so many vCPUs.
    fn plan_units(
        &self,
        d: DomId,
        vcpus: u8,
        guest: Option<u8>,
        units: &[Stored],
        period: Option<u64>,
        budget: Option<u64>,
        extra: Option<bool>,
    ) -> Result<Plan, Refusal>
        requires period { IsGivenNumber period }
        requires budget { IsGivenNumber budget }
        ensures { result ≡ seen_rtds_units self.now d.0 vcpus guest units.now period budget extra }
    {
        match guest {
            None => {
                let count = unit_count(self.granularity, vcpus);
                plan_rtds(d, 0, count, units, period, budget, extra)
            }
            Some(v) => {
                let n = v / self.granularity;
                plan_rtds(d, n, 1, one_unit(units, n as usize), period, budget, extra)
            }
        }
    }

    /// `sched-rtds -d DOM [-v VCPU or all] [-p US] [-b US] [-e 0 or 1]`
    pub(crate) fn judge_rtds_dom(
        &self,
        units: &[Stored],
        which: &Which,
        vcpu: Option<u64>,
        period: Option<u64>,
        budget: Option<u64>,
        extra: Option<bool>,
    ) -> Result<Plan, Refusal>
        requires period { IsGivenNumber period }
        requires budget { IsGivenNumber budget }
        ensures { result ≡ seen_rtds_dom self.now units.now which.now vcpu period budget extra }
    {
        let Some(named) = self.named_domain(which) else {
            return Err(Refusal::NoDomain);
        };
        if kind_of(named.pool) != SchedKind::Rtds {
            return Err(Refusal::WrongSched {
                pool: named.i,
                kind: kind_of(named.pool),
            });
        }
        let guest = guest_of(named.vcpus, vcpu)?;
        self.plan_units(named.d, named.vcpus, guest, units, period, budget, extra)
    }
}
