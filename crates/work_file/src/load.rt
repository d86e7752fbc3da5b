//! Texts that are made from a number: a domain file and a work file of any size.

ghost use Rattle.std.specs.Prelude.{◌≡◌, ◌+◌, ◌-◌, ◌<◌, ◌≤◌, ◌^◌, ◌++◌, Bool, length, IfOk, OnOk};
ghost use Rattle.work_file.specs.Load.{after_draw, drawn_value, script_text, after_script, guests_text, after_guests, is_rtds_home, params_text, name_text, home_text, domains_text, after_domains, next_number_text, numbers_text, top_text, second_pool_text, pools_text, stall_text, after_stalls, stalls_text, load_domains, load_work};
ghost use Rattle.sched_model.specs.CheckedMachine.{IsWithin};

use sched_base::NoMemory;
use std::alloc::Global;

/// Draws, one after another, from a linear congruential generator.
#[derive(Drop)]
pub(crate) struct Draws {
    pub state: u32,
}

impl Draws {
    /// The next draw, below this bound.
    pub(crate) fn draw(&mut self, bound: u32) -> u64
        requires positive { 0 < bound }
        requires state { self.old.state < 2 ^ 31 }
        ensures state { self.new.state ≡ after_draw self.old.state }
        ensures small { self.new.state < 2 ^ 31 }
        ensures value { result ≡ drawn_value bound self.new.state }
        ensures below { result < bound }
    {
        let next = (u64::from(self.state) * 1_103_515_245 + 12_345) % 0x8000_0000;
        self.state = next as u32;
        u64::from(self.state / 65_536 % bound)
    }
}

/// Appends bytes.
fn put(out: &mut Vec<u8>, bytes: &[u8]) -> Result<(), NoMemory>
    ensures { OnOk result (out.new.items ≡ out.old.items ++ bytes.now) }
{
    out.extend_from_slice(bytes)?;
    Ok(())
}

/// Appends the script of a vCPU.
#[tactic(auto, unfolding(crate::specs::Load::script_text))]
fn put_script(alloc: Global, out: &mut Vec<u8>, draws: &mut Draws) -> Result<(), NoMemory>
    requires { draws.old.state < 2 ^ 31 }
    ensures text { OnOk result (out.new.items ≡ out.old.items ++ script_text draws.old.state) }
    ensures state { draws.new.state ≡ after_script draws.old.state }
    ensures small { draws.new.state < 2 ^ 31 }
{
    let run = 100_000 * (1 + draws.draw(50));
    let sleep = 100_000 * (1 + draws.draw(50));
    let text = format!(in alloc; "[{run}, {sleep}]")?;
    put(out, text.as_bytes())
}

/// Appends the line of the vCPUs, one or two.
#[tactic(auto, unfolding(crate::specs::Load::guests_text, crate::specs::Load::after_guests))]
fn put_guests(alloc: Global, out: &mut Vec<u8>, draws: &mut Draws) -> Result<(), NoMemory>
    requires { draws.old.state < 2 ^ 31 }
    ensures text { OnOk result (out.new.items ≡ out.old.items ++ guests_text draws.old.state) }
    ensures state { OnOk result (draws.new.state ≡ after_guests draws.old.state) }
    ensures small { draws.new.state < 2 ^ 31 }
{
    let more = draws.draw(2);
    put(out, b"guests = [")?;
    put_script(alloc, out, draws)?;
    if more == 0 {
        return put(out, b"]\n");
    }
    put(out, b", ")?;
    put_script(alloc, out, draws)?;
    put(out, b"]\n")
}

/// Appends the lines of a domain's scheduler.
#[tactic(auto, unfolding(crate::specs::Load::params_text))]
fn put_params(
    alloc: Global,
    out: &mut Vec<u8>,
    draws: &mut Draws,
    is_rt: bool,
) -> Result<(), NoMemory>
    requires { draws.old.state < 2 ^ 31 }
    ensures text { OnOk result (out.new.items ≡ out.old.items
        ++ params_text is_rt draws.old.state) }
    ensures state { draws.new.state ≡ after_draw draws.old.state }
    ensures small { draws.new.state < 2 ^ 31 }
{
    if is_rt {
        let budget = 1000 * (1 + draws.draw(5));
        let text = format!(in alloc; "period_us = 10000\nbudget_us = {budget}\n")?;
        put(out, text.as_bytes())
    } else {
        let weight = 64 * (1 + draws.draw(8));
        let text = format!(in alloc; "weight = {weight}\n")?;
        put(out, text.as_bytes())
    }
}

/// Whether a domain has its home in the second pool.
fn is_rt(processors: u8, domain: u8) -> bool
    ensures { result ≡ is_rtds_home processors domain }
{
    processors > 1 && domain % 4 == 3
}

/// Appends the name of a domain.
#[tactic(auto, unfolding(crate::specs::Load::name_text))]
fn put_name(alloc: Global, out: &mut Vec<u8>, number: u8) -> Result<(), NoMemory>
    ensures { OnOk result (out.new.items ≡ out.old.items ++ name_text number) }
{
    let text = format!(in alloc; "[[domain]]\nname = \"g{number}\"\n")?;
    put(out, text.as_bytes())
}

/// Appends the home of a domain.
fn put_home(out: &mut Vec<u8>, is_rt: bool) -> Result<(), NoMemory>
    ensures { OnOk result (out.new.items ≡ out.old.items ++ home_text is_rt) }
{
    if is_rt {
        put(out, b"pool = \"rt\"\n")
    } else {
        put(out, b"pool = \"Pool-0\"\n")
    }
}

/// Appends the tables of the domains.
#[tactic(auto, unfolding(crate::specs::Load::domains_text, crate::specs::Load::domain_text, crate::specs::Load::after_domains))]
fn put_domains(
    alloc: Global,
    out: &mut Vec<u8>,
    draws: &mut Draws,
    processors: u8,
    domains: u8,
) -> Result<(), NoMemory>
    requires { draws.old.state < 2 ^ 31 }
    ensures text { OnOk result (out.new.items ≡ out.old.items
        ++ domains_text processors domains draws.old.state) }
    ensures state { OnOk result (draws.new.state ≡ after_domains domains draws.old.state) }
    ensures small { draws.new.state < 2 ^ 31 }
{
    for i in 0..domains {
        let in_rt = is_rt(processors, i);
        put_name(alloc, out, i)?;
        put_home(out, in_rt)?;
        put_params(alloc, out, draws, in_rt)?;
        put_guests(alloc, out, draws)?;
    }
    Ok(())
}

/// Appends one number more.
#[tactic(auto, unfolding(crate::specs::Load::next_number_text))]
fn put_next_number(alloc: Global, out: &mut Vec<u8>, number: u8) -> Result<(), NoMemory>
    ensures { OnOk result (out.new.items ≡ out.old.items ++ next_number_text number) }
{
    let text = format!(in alloc; ", {number}")?;
    put(out, text.as_bytes())
}

/// Appends the numbers 0 to the last, joined by commas.
#[tactic(auto, unfolding(crate::specs::Load::numbers_text))]
fn put_numbers(alloc: Global, out: &mut Vec<u8>, last: u8) -> Result<(), NoMemory>
    ensures { OnOk result (out.new.items ≡ out.old.items ++ numbers_text last) }
{
    put(out, b"0")?;
    for n in 0..last {
        put_next_number(alloc, out, n + 1)?;
    }
    Ok(())
}

/// Appends the second pool, which is there where the machine has two processors or more.
#[tactic(auto, unfolding(crate::specs::Load::second_pool_text))]
fn put_second_pool(alloc: Global, out: &mut Vec<u8>, processors: u8) -> Result<(), NoMemory>
    ensures { OnOk result (out.new.items ≡ out.old.items ++ second_pool_text processors) }
{
    if processors <= 1 {
        return Ok(());
    }
    let last = processors - 1;
    let text = format!(in alloc; "[[pool]]\nname = \"rt\"\nsched = \"rtds\"\ncpus = [{last}]\n")?;
    put(out, text.as_bytes())
}

/// Appends the top of the domain file, up to the processors of the first pool.
#[tactic(auto, unfolding(crate::specs::Load::top_text))]
fn put_top(alloc: Global, out: &mut Vec<u8>, processors: u8) -> Result<(), NoMemory>
    ensures { OnOk result (out.new.items ≡ out.old.items ++ top_text processors) }
{
    let text = format!(in alloc;
        "format = 1\nprocessors = {processors}\nhorizon_ns = 100000000\n[[pool]]\nname = \"Pool-0\"\nsched = \"credit2\"\ncpus = ["
    )?;
    put(out, text.as_bytes())
}

/// Appends the top of the domain file, and its pools.
#[tactic(auto, unfolding(crate::specs::Load::pools_text))]
fn put_pools(alloc: Global, out: &mut Vec<u8>, processors: u8) -> Result<(), NoMemory>
    ensures { OnOk result (out.new.items ≡ out.old.items ++ pools_text processors) }
{
    put_top(alloc, out, processors)?;
    put_numbers(alloc, out, processors.saturating_sub(2))?;
    put(out, b"]\n")?;
    put_second_pool(alloc, out, processors)
}

/// Appends a stall at 9 milliseconds times this.
#[tactic(auto, unfolding(crate::specs::Load::stall_text))]
fn put_stall(
    alloc: Global,
    out: &mut Vec<u8>,
    draws: &mut Draws,
    processors: u8,
    times: u8,
) -> Result<(), NoMemory>
    requires processors { 1 ≤ processors }
    requires state { draws.old.state < 2 ^ 31 }
    ensures text { OnOk result (out.new.items ≡ out.old.items
        ++ stall_text processors times draws.old.state) }
    ensures state { draws.new.state ≡ after_script draws.old.state }
    ensures small { draws.new.state < 2 ^ 31 }
{
    let at = 9_000_000 * u64::from(times);
    let cpu = draws.draw(u32::from(processors));
    let span = 100_000 * (1 + draws.draw(30));
    let text = format!(in alloc; "{at} stall {cpu} {span}\n")?;
    put(out, text.as_bytes())
}

/// Appends the first ten stalls.
#[tactic(auto, unfolding(crate::specs::Load::stalls_text, crate::specs::Load::after_stalls))]
fn put_stalls(
    alloc: Global,
    out: &mut Vec<u8>,
    draws: &mut Draws,
    processors: u8,
    count: u8,
) -> Result<(), NoMemory>
    requires processors { 1 ≤ processors }
    requires count { count < 255 }
    requires state { draws.old.state < 2 ^ 31 }
    ensures text { OnOk result (out.new.items ≡ out.old.items
        ++ stalls_text processors count draws.old.state) }
{
    for k in 0..count {
        put_stall(alloc, out, draws, processors, k + 1)?;
    }
    Ok(())
}

/// The domain file and the work file that are made from the number: a machine with these many processors and domains,
/// and ten stalls. docs/FORMATS-work.md has the rule. The one answer beside them is for want of memory.
#[tactic(auto, using(crate::proofs::LengthLemmas::short_domains))]
pub fn make_load(
    alloc: Global,
    seed: u32,
    processors: u8,
    domains: u8,
) -> Result<(Vec<u8>, Vec<u8>), NoMemory>
    requires seed { seed < 2 ^ 31 }
    requires processors { IsWithin 1 64 processors }
    requires domains { IsWithin 1 64 domains }
    ensures domains { IfOk result (λ texts. texts.0.items ≡ load_domains seed processors domains) }
    ensures work { IfOk result (λ texts. texts.1.items ≡ load_work seed processors domains) }
    ensures short { IfOk result (λ texts. length texts.0.items ≤ 65536) }
{
    let mut draws = Draws { state: seed };
    let mut machine = Vec::new(alloc);
    put_pools(alloc, &mut machine, processors)?;
    put_domains(alloc, &mut machine, &mut draws, processors, domains)?;
    let mut work = Vec::new(alloc);
    put_stalls(alloc, &mut work, &mut draws, processors, 10)?;
    Ok((machine, work))
}
