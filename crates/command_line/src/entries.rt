//! The command of the entries that `clap` found.

ghost use Rattle.std.specs.Prelude.{◌≡◌, ◌≢◌, ◌≤◌, IfSome, option_map};
ghost use Rattle.clap.specs.Words.{first_of, found_of, rows_of, subcommand_rows_of};
ghost use Rattle.command_line.specs.Entries.{has_flag, entered_number, ranged_number};
ghost use Rattle.command_line.specs.Commands.{asked_of, entered_files, entered_run, asked_run, MayBe, entered_numbers, named_text, entered_make, entered_load, entered_check, command_by_name, entered_command, IsInRange};

use crate::command::{Form, Made, ProgramCommand};
use clap::ArgMatches;

/// The text of an entry.
fn text_in<'a>(found: &ArgMatches<'a>, id: &str) -> Option<&'a str>
    ensures { option_map (λ s. s.now) result ≡ first_of id.now (rows_of (found_of found.now)) }
{
    found.get_str(id)
}

/// Whether the flag was given.
fn flag_in(found: &ArgMatches<'_>, id: &str) -> bool
    ensures { result ≡ has_flag id.now (rows_of (found_of found.now)) }
{
    found.get_one::<bool>(id).unwrap_or(false)
}

/// The number, where it is one from `low` to `high`.
fn within(low: u32, high: u32, number: u32) -> Option<u32>
    ensures value { result ≡ ranged_number low high number }
    ensures range { IfSome result (λ m. (low ≤ m) × (m ≤ high)) }
{
    if low <= number && number <= high {
        Some(number)
    } else {
        None
    }
}

/// The number of an entry, where it is one from `low` to `high`. `clap` has refused all others, but says so of the program's own arguments alone,
/// and not of a command's.
fn number_in(found: &ArgMatches<'_>, id: &str, low: u32, high: u32) -> Option<u32>
    ensures value { result ≡ entered_number low high id.now (rows_of (found_of found.now)) }
    ensures range { IfSome result (λ n. (low ≤ n) × (n ≤ high)) }
{
    match found.get_one::<u32>(id) {
        Some(n) => within(low, high, n),
        None => None,
    }
}

/// A number of processors or domains.
fn count_in(found: &ArgMatches<'_>, id: &str) -> Option<u8>
    ensures value { result ≡ entered_number 1 64 id.now (rows_of (found_of found.now)) }
    ensures range { IfSome result (λ n. (1 ≤ n) × (n ≤ 64)) }
{
    Some(number_in(found, id, 1, 64)? as u8)
}

/// The names of the domain file and of the work file.
fn files_in<'a>(found: &ArgMatches<'a>) -> Option<(&'a str, &'a str)>
    ensures { option_map (λ f. (f.0.now, f.1.now)) result
        ≡ entered_files (rows_of (found_of found.now)) }
{
    Some((text_in(found, "domains")?, text_in(found, "work")?))
}

/// A run on two named files, the ordered one where that is asked.
fn run_of<'a>(ordered: bool, form: Form, found: &ArgMatches<'a>) -> Option<ProgramCommand<'a>>
    requires form { MayBe ordered form }
    ensures value { option_map asked_of result
        ≡ asked_run ordered form (rows_of (found_of found.now)) }
    ensures ranges { IfSome result IsInRange }
{
    let limit = number_in(found, "events", 1, 4_000_000)?;
    let (domains, work) = files_in(found)?;
    Some(ProgramCommand::Run {
        ordered,
        form,
        limit,
        domains,
        work,
    })
}

/// A run on two named files, the ordered one where the flag was given. It is not watched.
fn run_in<'a>(form: Form, found: &ArgMatches<'a>) -> Option<ProgramCommand<'a>>
    requires form { form ≢ Form.Watch }
    ensures value { option_map asked_of result ≡ entered_run form (rows_of (found_of found.now)) }
    ensures ranges { IfSome result IsInRange }
{
    run_of(flag_in(found, "ordered"), form, found)
}

/// Seed, processors and domains.
fn numbers_in(found: &ArgMatches<'_>) -> Option<(u32, (u8, u8))>
    ensures value { result ≡ entered_numbers (rows_of (found_of found.now)) }
    ensures ranges { IfSome result (λ n. (n.0 ≤ 2147483647) × (1 ≤ n.1.0) × (n.1.0 ≤ 64)
        × (1 ≤ n.1.1) × (n.1.1 ≤ 64)) }
{
    let seed = number_in(found, "seed", 0, 0x7FFF_FFFF)?;
    let processors = count_in(found, "processors")?;
    let domains = count_in(found, "domains")?;
    Some((seed, (processors, domains)))
}

/// The text that the word names.
fn made_of(word: &str) -> Option<Made>
    ensures { result ≡ named_text word.now }
{
    if word == "domains" {
        Some(Made::Domains)
    } else if word == "work" {
        Some(Made::Work)
    } else {
        None
    }
}

/// One of the two texts that are made from a number.
fn make_in<'a>(found: &ArgMatches<'a>) -> Option<ProgramCommand<'a>>
    ensures value { option_map asked_of result ≡ entered_make (rows_of (found_of found.now)) }
    ensures ranges { IfSome result IsInRange }
{
    let (seed, (processors, domains)) = numbers_in(found)?;
    Some(ProgramCommand::Make {
        seed,
        processors,
        domains,
        text: made_of(text_in(found, "text")?)?,
    })
}

/// The report of the run on both.
fn load_in<'a>(found: &ArgMatches<'a>) -> Option<ProgramCommand<'a>>
    ensures value { option_map asked_of result ≡ entered_load (rows_of (found_of found.now)) }
    ensures ranges { IfSome result IsInRange }
{
    let (seed, (processors, domains)) = numbers_in(found)?;
    Some(ProgramCommand::Load {
        seed,
        processors,
        domains,
    })
}

/// Whether a schedule is a run on two files.
fn check_in<'a>(found: &ArgMatches<'a>) -> Option<ProgramCommand<'a>>
    ensures value { option_map asked_of result ≡ entered_check (rows_of (found_of found.now)) }
    ensures ranges { IfSome result IsInRange }
{
    let (domains, work) = files_in(found)?;
    let schedule = text_in(found, "schedule")?;
    let ordered = flag_in(found, "ordered");
    Some(ProgramCommand::Check {
        ordered,
        domains,
        work,
        schedule,
    })
}

/// The command of this name.
fn named_in<'a>(name: &str, found: &ArgMatches<'a>) -> Option<ProgramCommand<'a>>
    ensures value { option_map asked_of result
        ≡ command_by_name name.now (rows_of (found_of found.now)) }
    ensures ranges { IfSome result IsInRange }
{
    if name == "run" {
        run_in(Form::Schedule, found)
    } else if name == "report" {
        run_in(Form::Report, found)
    } else if name == "watch" {
        run_of(false, Form::Watch, found)
    } else if name == "make" {
        make_in(found)
    } else if name == "load" {
        load_in(found)
    } else if name == "check" {
        check_in(found)
    } else {
        None
    }
}

/// The command that the words named, with what they said of it.
pub fn command_in<'a>(matches: &ArgMatches<'a>) -> Option<ProgramCommand<'a>>
    ensures value { option_map asked_of result ≡ entered_command (subcommand_rows_of matches.now) }
    ensures ranges { IfSome result IsInRange }
{
    let (name, found) = matches.subcommand()?;
    named_in(name, found)
}
