//! The machine of two files.

ghost use Rattle.std.specs.Prelude.{◌≡◌, ◌≤◌, ℕ, List, IfOk, IfSome, length};
ghost use Rattle.sched_io.specs.HeldBytes.{most_bytes};
ghost use Rattle.sched_model.specs.CheckedMachine.{IsChecked, IsCheckedConfig, IsCheckedWork};
ghost use Rattle.machine_trials.specs.Files.{IsConfigOf, IsWorkOf, IsMachineOf};

use crate::stop::Stop;
use dom_file::read_domains;
use sched_io::{ReadErr, Store};
use sched_model::config::Config;
use sched_model::machine::Machine;
use sched_model::work::Work;
use std::alloc::Global;
use work_file::read_work;

/// The bytes of the file.
fn bytes_of<S: Store>(alloc: Global, name: &str, store: &mut S) -> Result<Vec<u8>, Stop>
    ensures bytes { IfOk result (λ bytes.
        IfSome (S.held store.old name.now) (λ all. bytes.items ≡ all)) }
    ensures bound { IfOk result (λ bytes. length bytes.items ≤ most_bytes) }
    ensures same { (other : List ℕ) → S.held store.new other ≡ S.held store.old other }
{
    match store.read_all(alloc, name) {
        Ok(bytes) => Ok(bytes),
        Err(ReadErr::Failed) => Err(Stop::ReadFault),
        Err(ReadErr::NoMemory) => Err(Stop::NoMemory),
    }
}

/// What the domain file says.
fn config_of<S: Store>(alloc: Global, name: &str, store: &mut S) -> Result<Config, Stop>
    ensures config { IfOk result (λ config.
        IfSome (S.held store.old name.now) (IsConfigOf config)) }
    ensures checked { IfOk result IsCheckedConfig }
    ensures same { (other : List ℕ) → S.held store.new other ≡ S.held store.old other }
{
    let bytes = bytes_of(alloc, name, store)?;
    match read_domains(alloc, bytes.as_slice()) {
        Ok(config) => Ok(config),
        Err(_) => Err(Stop::BadFile),
    }
}

/// What the work file says.
fn work_of<S: Store>(
    alloc: Global,
    name: &str,
    config: &Config,
    store: &mut S,
) -> Result<Work, Stop>
    ensures work { IfOk result (λ work.
        IfSome (S.held store.old name.now) (IsWorkOf config.now work)) }
    ensures checked { IfOk result (IsCheckedWork config.now) }
{
    let bytes = bytes_of(alloc, name, store)?;
    match read_work(alloc, bytes.as_slice(), config) {
        Ok(work) => Ok(work),
        Err(_) => Err(Stop::BadFile),
    }
}

/// Reads the machine that a domain file and a work file make, the domain file first. Where the store tells what they hold, it is the machine of these bytes.
pub fn machine_of<S: Store>(
    alloc: Global,
    domains: &str,
    work: &str,
    store: &mut S,
) -> Result<Machine, Stop>
    ensures machine { IfOk result (λ machine. IfSome (S.held store.old domains.now)
        (λ text. IfSome (S.held store.old work.now) (IsMachineOf machine text))) }
    ensures checked { IfOk result IsChecked }
{
    let config = config_of(alloc, domains, store)?;
    let work = work_of(alloc, work, &config, store)?;
    Ok(Machine { config, work })
}
