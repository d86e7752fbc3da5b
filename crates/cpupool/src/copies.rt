//! Commands and workloads once more.

ghost use Rattle.std.specs.Prelude.{◌≡◌, IfOk};

use sched_base::{Name, NoMemory};
use sched_model::command::{ArincEntry, ArincList, Command, Which};
use sched_model::row::Row;
use sched_model::work::{CommandLine, Commands, Work};
use std::alloc::Global;

/// The pool or domain that is named, once more.
fn same_which(which: &Which) -> Which
    ensures { result ≡ which.now }
{
    match which {
        Which::Name(name) => Which::Name(same_name(name)),
        Which::Number(n) => Which::Number(*n),
    }
}

/// The same where a pool may be named.
fn same_given(which: &Option<Which>) -> Option<Which>
    ensures { result ≡ which.now }
{
    match which {
        None => None,
        Some(which) => Some(same_which(which)),
    }
}

/// The entries of a frame once more.
fn same_entries(alloc: Global, entries: &ArincList) -> Result<ArincList, NoMemory>
    ensures { IfOk result (λ all. all ≡ entries.now) }
{
    let mut all = Vec::new(alloc);
    for e in entries.as_slice() {
        all.push(ArincEntry {
            dom: same_which(&e.dom),
            unit: e.unit,
            run: e.run,
        })?;
    }
    Ok(Row::from_vec(all))
}

/// The list once more, where each item is copied.
fn same_row<T: Copy + Drop>(alloc: Global, row: &Row<T>) -> Result<Row<T>, NoMemory>
    ensures { IfOk result (λ all. all ≡ row.now) }
{
    let mut all = Vec::new(alloc);
    for item in row.as_slice() {
        all.push(*item)?;
    }
    Ok(Row::from_vec(all))
}

/// The name once more.
fn same_name(name: &Name) -> Name
    ensures { result ≡ name.now }
{
    name.duplicate()
}

/// A value that is copied as it is.
fn same_value<T: Copy>(value: &T) -> T
    ensures { result ≡ value.now }
{
    *value
}

/// A command once more: of each form the fields, and what gives each field once more; behind a semicolon the list, whose
/// items take memory.
macro_rules! same_form {
    ($alloc:expr, $command:expr, $($form:ident($($field:ident: $same:ident),+ $(; $list:ident: $listed:ident)?)),+ $(,)?) => {
        match $command {
            $(Command::$form { $($field),+ $(, $list)? } => Command::$form {
                $($field: $same($field)),+ $(, $list: $listed($alloc, $list)?)?
            },)+
        }
    };
}

/// The command once more.
fn same_command(alloc: Global, command: &Command) -> Result<Command, NoMemory>
    ensures { IfOk result (λ all. all ≡ command.now) }
{
    Ok(same_form!(
        alloc,
        command,
        PoolList(pool: same_given),
        PoolCreate(name: same_name, sched: same_value),
        PoolDestroy(pool: same_which),
        PoolRename(pool: same_which, name: same_name),
        CpuAdd(pool: same_which, cpu: same_value),
        CpuRemove(pool: same_which, cpu: same_value),
        Migrate(dom: same_which, pool: same_which),
        Credit2Dom(dom: same_which, weight: same_value, cap: same_value),
        Credit2Pool(pool: same_which, limit: same_value),
        RtdsDom(dom: same_which, vcpu: same_value, period: same_value, budget: same_value, extra: same_value),
        Pause(dom: same_which),
        Unpause(dom: same_which),
        ArincSet(pool: same_which, major: same_value; entries: same_entries),
        Pin(dom: same_which, vcpu: same_value; cpus: same_row),
    ))
}

/// The line with a command once more.
fn same_line(alloc: Global, line: &CommandLine) -> Result<CommandLine, NoMemory>
    ensures { IfOk result (λ all. all ≡ line.now) }
{
    let command = match &line.command {
        Ok(c) => Ok(same_command(alloc, c)?),
        Err(fault) => Err(*fault),
    };
    Ok(CommandLine {
        at: line.at,
        command,
    })
}

/// The lines with commands once more.
fn same_commands(alloc: Global, lines: &Commands) -> Result<Commands, NoMemory>
    ensures { IfOk result (λ all. all ≡ lines.now) }
{
    let mut all = Vec::new(alloc);
    for line in lines.as_slice() {
        all.push(same_line(alloc, line)?)?;
    }
    Ok(Row::from_vec(all))
}

/// The whole workload once more.
pub(crate) fn same_work(alloc: Global, work: &Work) -> Result<Work, NoMemory>
    ensures { IfOk result (λ all. all ≡ work.now) }
{
    Ok(Work {
        stalls: same_row(alloc, &work.stalls)?,
        commands: same_commands(alloc, &work.commands)?,
    })
}
