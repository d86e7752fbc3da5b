//! The commands, each from the words behind its name.

ghost use Rattle.std.specs.Prelude.{◌≡◌, IfOk};
ghost use Rattle.sched_model.specs.CheckedMachine.{IsCheckedCommand};
ghost use Rattle.xl_words.specs.Parts.{words};
ghost use Rattle.xl_words.specs.Grammar as grammar;

use crate::fields::{end_at, name_at, number_at, which_at};
use crate::lists::{read_cpus, read_entries};
use crate::options::{Credit2OfDomain, Credit2OfPool, NewPool, RtdsOfDomain, read_options};
use crate::parts::next_word;
use crate::values::read_vcpu;
use sched_base::NoMemory;
use sched_model::command::{Command, Syntax};
use std::alloc::Global;

/// What stands at a place, or the answer that nothing that may stand there does.
macro_rules! found {
    ($read:expr) => {
        match $read {
            Ok(found) => found,
            Err(fault) => return Ok(Err(fault)),
        }
    };
}

/// `cpupool-list [POOL]`
#[tactic(auto, unfolding(crate::specs::Grammar::pool_list))]
pub(crate) fn pool_list(rest: &[u8]) -> Result<Command, Syntax>
    ensures value { result ≡ grammar.pool_list (words rest.now) }
    ensures checked { IfOk result IsCheckedCommand }
{
    if next_word(rest).is_none() {
        return Ok(Command::PoolList { pool: None });
    }
    let (pool, rest) = which_at(1, rest)?;
    end_at(2, rest)?;
    Ok(Command::PoolList { pool: Some(pool) })
}

/// `cpupool-create name=NAME [sched=SCHED]`
#[tactic(auto, unfolding(crate::specs::Grammar::pool_create))]
pub(crate) fn pool_create(rest: &[u8]) -> Result<Command, Syntax>
    ensures value { result ≡ grammar.pool_create (words rest.now) }
    ensures checked { IfOk result IsCheckedCommand }
{
    let none = NewPool {
        name: None,
        sched: None,
    };
    let (NewPool { name, sched }, place) = read_options(none, 1, rest)?;
    match name {
        Some(name) => Ok(Command::PoolCreate { name, sched }),
        None => Err(Syntax { place }),
    }
}

/// `cpupool-destroy POOL`
#[tactic(auto, unfolding(crate::specs::Grammar::pool_destroy))]
pub(crate) fn pool_destroy(rest: &[u8]) -> Result<Command, Syntax>
    ensures value { result ≡ grammar.pool_destroy (words rest.now) }
    ensures checked { IfOk result IsCheckedCommand }
{
    let (pool, rest) = which_at(1, rest)?;
    end_at(2, rest)?;
    Ok(Command::PoolDestroy { pool })
}

/// `cpupool-rename POOL NAME`
#[tactic(auto, unfolding(crate::specs::Grammar::pool_rename))]
pub(crate) fn pool_rename(rest: &[u8]) -> Result<Command, Syntax>
    ensures value { result ≡ grammar.pool_rename (words rest.now) }
    ensures checked { IfOk result IsCheckedCommand }
{
    let (pool, rest) = which_at(1, rest)?;
    let (name, rest) = name_at(2, rest)?;
    end_at(3, rest)?;
    Ok(Command::PoolRename { pool, name })
}

/// `cpupool-cpu-add POOL CPU`
#[tactic(auto, unfolding(crate::specs::Grammar::cpu_add))]
pub(crate) fn cpu_add(rest: &[u8]) -> Result<Command, Syntax>
    ensures value { result ≡ grammar.cpu_add (words rest.now) }
    ensures checked { IfOk result IsCheckedCommand }
{
    let (pool, rest) = which_at(1, rest)?;
    let (cpu, rest) = number_at(2, rest)?;
    end_at(3, rest)?;
    Ok(Command::CpuAdd { pool, cpu })
}

/// `cpupool-cpu-remove POOL CPU`
#[tactic(auto, unfolding(crate::specs::Grammar::cpu_remove))]
pub(crate) fn cpu_remove(rest: &[u8]) -> Result<Command, Syntax>
    ensures value { result ≡ grammar.cpu_remove (words rest.now) }
    ensures checked { IfOk result IsCheckedCommand }
{
    let (pool, rest) = which_at(1, rest)?;
    let (cpu, rest) = number_at(2, rest)?;
    end_at(3, rest)?;
    Ok(Command::CpuRemove { pool, cpu })
}

/// `cpupool-migrate DOM POOL`
#[tactic(auto, unfolding(crate::specs::Grammar::migrate))]
pub(crate) fn migrate(rest: &[u8]) -> Result<Command, Syntax>
    ensures value { result ≡ grammar.migrate (words rest.now) }
    ensures checked { IfOk result IsCheckedCommand }
{
    let (dom, rest) = which_at(1, rest)?;
    let (pool, rest) = which_at(2, rest)?;
    end_at(3, rest)?;
    Ok(Command::Migrate { dom, pool })
}

/// `pause DOM`
#[tactic(auto, unfolding(crate::specs::Grammar::pause))]
pub(crate) fn pause(rest: &[u8]) -> Result<Command, Syntax>
    ensures value { result ≡ grammar.pause (words rest.now) }
    ensures checked { IfOk result IsCheckedCommand }
{
    let (dom, rest) = which_at(1, rest)?;
    end_at(2, rest)?;
    Ok(Command::Pause { dom })
}

/// `unpause DOM`
#[tactic(auto, unfolding(crate::specs::Grammar::unpause))]
pub(crate) fn unpause(rest: &[u8]) -> Result<Command, Syntax>
    ensures value { result ≡ grammar.unpause (words rest.now) }
    ensures checked { IfOk result IsCheckedCommand }
{
    let (dom, rest) = which_at(1, rest)?;
    end_at(2, rest)?;
    Ok(Command::Unpause { dom })
}

/// `sched-credit2 -d DOM [-w W] [-c C]`
#[tactic(auto, unfolding(crate::specs::Grammar::credit2_domain))]
fn credit2_domain(rest: &[u8]) -> Result<Command, Syntax>
    ensures value { result ≡ grammar.credit2_domain (words rest.now) }
    ensures checked { IfOk result IsCheckedCommand }
{
    let none = Credit2OfDomain {
        dom: None,
        weight: None,
        cap: None,
    };
    let (given, place) = read_options(none, 1, rest)?;
    let Credit2OfDomain { dom, weight, cap } = given;
    match dom {
        Some(dom) => Ok(Command::Credit2Dom { dom, weight, cap }),
        None => Err(Syntax { place }),
    }
}

/// `sched-credit2 -s -p POOL [-r US]`
#[tactic(auto, unfolding(crate::specs::Grammar::credit2_pool))]
fn credit2_pool(rest: &[u8]) -> Result<Command, Syntax>
    ensures value { result ≡ grammar.credit2_pool (words rest.now) }
    ensures checked { IfOk result IsCheckedCommand }
{
    let none = Credit2OfPool {
        of_pool: None,
        pool: None,
        limit: None,
    };
    let (given, place) = read_options(none, 1, rest)?;
    let Credit2OfPool {
        of_pool,
        pool,
        limit,
    } = given;
    if of_pool.is_none() {
        return Err(Syntax { place });
    }
    match pool {
        Some(pool) => Ok(Command::Credit2Pool { pool, limit }),
        None => Err(Syntax { place }),
    }
}

/// `sched-credit2`, by the form that the words have, or the furthest place over both forms.
pub(crate) fn sched_credit2(rest: &[u8]) -> Result<Command, Syntax>
    ensures value { result ≡ grammar.either_form (grammar.credit2_domain (words rest.now))
        (grammar.credit2_pool (words rest.now)) }
    ensures checked { IfOk result IsCheckedCommand }
{
    match credit2_domain(rest) {
        Ok(command) => Ok(command),
        Err(one) => match credit2_pool(rest) {
            Ok(command) => Ok(command),
            Err(two) => Err(Syntax {
                place: one.place.max(two.place),
            }),
        },
    }
}

/// `sched-rtds -d DOM [-v VCPU or all] [-p US] [-b US] [-e 0 or 1]`
#[tactic(auto, unfolding(crate::specs::Grammar::sched_rtds))]
pub(crate) fn sched_rtds(rest: &[u8]) -> Result<Command, Syntax>
    ensures value { result ≡ grammar.sched_rtds (words rest.now) }
    ensures checked { IfOk result IsCheckedCommand }
{
    let none = RtdsOfDomain {
        dom: None,
        vcpu: None,
        period: None,
        budget: None,
        extra: None,
    };
    let (given, place) = read_options(none, 1, rest)?;
    let RtdsOfDomain {
        dom,
        vcpu,
        period,
        budget,
        extra,
    } = given;
    match dom {
        Some(dom) => Ok(Command::RtdsDom {
            dom,
            vcpu: vcpu.unwrap_or(None),
            period,
            budget,
            extra,
        }),
        None => Err(Syntax { place }),
    }
}

/// `arinc-set POOL MAJOR DOM:UNIT:RUN,..`
#[tactic(auto, unfolding(crate::specs::Grammar::arinc_set))]
pub(crate) fn arinc_set(alloc: Global, rest: &[u8]) -> Result<Result<Command, Syntax>, NoMemory>
    ensures value { IfOk result (λ answer. answer ≡ grammar.arinc_set (words rest.now)) }
    ensures checked { IfOk result (λ answer. IfOk answer IsCheckedCommand) }
{
    let (pool, rest) = found!(which_at(1, rest));
    let (major, rest) = found!(number_at(2, rest));
    let Some((word, rest)) = next_word(rest) else {
        return Ok(Err(Syntax { place: 3 }));
    };
    let Some(entries) = read_entries(alloc, word)? else {
        return Ok(Err(Syntax { place: 3 }));
    };
    found!(end_at(4, rest));
    Ok(Ok(Command::ArincSet {
        pool,
        major,
        entries,
    }))
}

/// `vcpu-pin DOM VCPU CPUS`
#[tactic(auto, unfolding(crate::specs::Grammar::vcpu_pin))]
pub(crate) fn vcpu_pin(alloc: Global, rest: &[u8]) -> Result<Result<Command, Syntax>, NoMemory>
    ensures value { IfOk result (λ answer. answer ≡ grammar.vcpu_pin (words rest.now)) }
    ensures checked { IfOk result (λ answer. IfOk answer IsCheckedCommand) }
{
    let (dom, rest) = found!(which_at(1, rest));
    let Some((word, rest)) = next_word(rest) else {
        return Ok(Err(Syntax { place: 2 }));
    };
    let Some(vcpu) = read_vcpu(word) else {
        return Ok(Err(Syntax { place: 2 }));
    };
    let Some((word, rest)) = next_word(rest) else {
        return Ok(Err(Syntax { place: 3 }));
    };
    let Some(cpus) = read_cpus(alloc, word)? else {
        return Ok(Err(Syntax { place: 3 }));
    };
    found!(end_at(4, rest));
    Ok(Ok(Command::Pin { dom, vcpu, cpus }))
}
