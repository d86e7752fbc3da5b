//! The words that commands have, as `clap` is told of them.

ghost use Rattle.std.specs.Prelude.{◌≡◌, IfOk, false};
ghost use Rattle.clap.specs.Words.{App, Rule, rule_of, with_rule, with_subcommand};
ghost use Rattle.command_line.specs.Tree.{IsTree, ordered_rule, events_rule, name_rule, number_rule, run_app, watch_app, numbers_app, make_app, check_app, program_app, command_tree};

use clap::builder::ValueParser;
use clap::{Arg, ArgAction, Command};
use sched_base::NoMemory;
use std::alloc::Global;

/// A word that must stand.
fn name<'a>(alloc: Global, id: &'a str) -> Arg<'a>
    ensures rule { rule_of result ≡ name_rule id.now }
    ensures local { result.global ≡ false }
{
    Arg::new(alloc, id).required(true)
}

/// A number that must stand.
fn number<'a>(alloc: Global, id: &'a str, parser: ValueParser<'a>) -> Arg<'a>
    ensures rule { rule_of result ≡ number_rule id.now parser.entry }
    ensures local { result.global ≡ false }
{
    name(alloc, id).value_parser(parser)
}

/// The flag `--ordered`.
fn ordered<'a>(alloc: Global) -> Arg<'a>
    ensures rule { rule_of result ≡ ordered_rule }
    ensures local { result.global ≡ false }
{
    Arg::new(alloc, "ordered")
        .long("ordered")
        .action(ArgAction::SetTrue)
}

/// The most entries of a run, `--events`.
fn events<'a>(alloc: Global) -> Arg<'a>
    ensures rule { rule_of result ≡ events_rule }
    ensures local { result.global ≡ false }
{
    Arg::new(alloc, "events")
        .long("events")
        .value_parser(clap::value_parser!(u32).range(1..=4_000_000))
        .default_value("1000000")
}

/// The command with one more argument, where there is a command.
fn with_arg<'a>(
    command: Result<Command<'a>, NoMemory>,
    arg: Arg<'a>,
) -> Result<Command<'a>, NoMemory>
    ensures { (app : App) (rule : Rule) → IfOk command.entry (IsTree app) → rule_of arg.entry
        ≡ rule → arg.entry.global ≡ false → IfOk result (IsTree (with_rule app rule)) }
{
    Ok(command?.arg(arg)?)
}

/// The program with one more command, where there are both.
fn with_command<'a>(
    program: Result<Command<'a>, NoMemory>,
    command: Result<Command<'a>, NoMemory>,
) -> Result<Command<'a>, NoMemory>
    ensures { (app sub : App) → IfOk program.entry (IsTree app) → IfOk command.entry (IsTree sub) →
        IfOk result (IsTree (with_subcommand app sub.top)) }
{
    Ok(program?.subcommand(command?)?)
}

/// A run on two files: `run` or `report`.
fn run<'a>(alloc: Global, command: &'a str) -> Result<Command<'a>, NoMemory>
    ensures { IfOk result (IsTree (run_app command.now)) }
{
    let command = with_arg(Ok(Command::new(alloc, command)), ordered(alloc));
    let command = with_arg(command, events(alloc));
    let command = with_arg(command, name(alloc, "domains"));
    with_arg(command, name(alloc, "work"))
}

/// A watched run on two files.
fn watch<'a>(alloc: Global) -> Result<Command<'a>, NoMemory>
    ensures { IfOk result (IsTree watch_app) }
{
    let command = with_arg(Ok(Command::new(alloc, "watch")), events(alloc));
    let command = with_arg(command, name(alloc, "domains"));
    with_arg(command, name(alloc, "work"))
}

/// A command with the numbers that texts are made from: seed, processors and domains.
fn numbers<'a>(alloc: Global, command: &'a str) -> Result<Command<'a>, NoMemory>
    ensures { IfOk result (IsTree (numbers_app command.now)) }
{
    let seeds = clap::value_parser!(u32).range(0..=2_147_483_647);
    let counts = clap::value_parser!(u8).range(1..=64);
    let command = with_arg(
        Ok(Command::new(alloc, command)),
        number(alloc, "seed", seeds),
    );
    let command = with_arg(command, number(alloc, "processors", counts));
    with_arg(command, number(alloc, "domains", counts))
}

/// One of the two texts that are made from a number.
fn make<'a>(alloc: Global) -> Result<Command<'a>, NoMemory>
    ensures { IfOk result (IsTree make_app) }
{
    with_arg(numbers(alloc, "make"), name(alloc, "text"))
}

/// Whether a schedule is a run on two files.
fn check<'a>(alloc: Global) -> Result<Command<'a>, NoMemory>
    ensures { IfOk result (IsTree check_app) }
{
    let command = with_arg(Ok(Command::new(alloc, "check")), ordered(alloc));
    let command = with_arg(command, name(alloc, "domains"));
    let command = with_arg(command, name(alloc, "work"));
    with_arg(command, name(alloc, "schedule"))
}

/// The program, of which one command must stand. It has no help and no version.
fn program<'a>(alloc: Global) -> Command<'a>
    ensures { IsTree program_app result }
{
    Command::new(alloc, "xensched")
        .no_binary_name(true)
        .subcommand_required(true)
        .disable_help_flag(true)
        .disable_help_subcommand(true)
}

/// All commands.
pub fn tree<'a>(alloc: Global) -> Result<Command<'a>, NoMemory>
    ensures { IfOk result (IsTree command_tree) }
{
    let program = with_command(Ok(program(alloc)), run(alloc, "run"));
    let program = with_command(program, run(alloc, "report"));
    let program = with_command(program, watch(alloc));
    let program = with_command(program, make(alloc));
    let program = with_command(program, numbers(alloc, "load"));
    with_command(program, check(alloc))
}
