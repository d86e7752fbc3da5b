//! `xensched`: runs a scheduler of simulated processors on a domain file and a workload, and prints the schedule, one line a step.
#![tactic(auto)]

ghost use Rattle.std.specs.Prelude.{◌≡◌, ◌⊎◌, None, IfErr};
ghost use Rattle.xensched_top.specs.declared.status.Status.TheVariants as status;
ghost use Rattle.xensched_top.specs.Answers.{UnlessNoMemory};
ghost use Rattle.xensched_top.specs.Files.{words_refused};
ghost use Rattle.xensched_top.specs.Words.{task_of};

use sched_io::{FileStore, OutSink};
use std::alloc::Global;
use std::io::{ErrorKind, Print};
use std::process::ExitCode;
use std::rt::Files;
use std::sync::Wait;
use std::thread::Threads;
use xensched_top::status::Status;
use xensched_top::top::xensched;

/// Reads the words behind the program's own name, does what they say, prints the status's line where it is not 0, and ends
/// with the status's number.
fn main(rt: HostRuntime) -> ExitCode {
    let mut words: Vec<String> = Vec::new(rt.alloc());
    let status = match words_of(&rt, &mut words) {
        Ok(()) => answer(&rt, rt.alloc(), words.as_slice()),
        Err(e) => e,
    };
    if status.number() != 0 {
        let _ = eprintln!(rt; "{status}");
    }
    ExitCode::from(status.number())
}

/// Does what the words say, over the files of the system and its standard output.
fn answer<R: Files + Print + Threads + Wait + Sync>(
    rt: &R,
    alloc: Global,
    words: &[String],
) -> Status
    ensures usage { result ≡ status.Usage → task_of words.now ≡ None }
    ensures no_command { task_of words.now ≡ None → UnlessNoMemory status.Usage result }
{
    match OutSink::new(alloc, rt) {
        Ok(mut sink) => {
            let mut store = FileStore::new(rt);
            xensched(rt, alloc, words, &mut store, &mut sink)
        }
        Err(_) => Status::NoMemory,
    }
}

/// The words behind the program's own name. Where they cannot be read, or not be kept, the status says so.
fn words_of(rt: &HostRuntime, words: &mut Vec<String>) -> Result<(), Status>
    ensures { IfErr result (λ e. (e ≡ status.Usage) ⊎ (e ≡ status.NoMemory)) }
{
    let args = match std::env::args(rt) {
        Ok(args) => args,
        Err(e) => return Err(refused_words(e.kind())),
    };
    for word in args.skip(1) {
        if words.push(word).is_err() {
            return Err(Status::NoMemory);
        }
    }
    Ok(())
}

/// The status of words that cannot be read: a word that is no UTF-8 is as wrong as any other.
fn refused_words(kind: ErrorKind) -> Status
    ensures { result ≡ words_refused kind }
{
    match kind {
        ErrorKind::OutOfMemory => Status::NoMemory,
        _ => Status::Usage,
    }
}
