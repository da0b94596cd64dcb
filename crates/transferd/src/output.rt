// What is printed: replies, tables of tasks, and the numbers of events of reopened desks.
ghost use Rattle.gt_machine.specs.TaskLine.{task_lines};
ghost use Rattle.std.specs.Prelude.{IfOk, [], string_bytes, ◌∷◌, ◌≡◌};
ghost use Rattle.transferd.specs.Output as spec;
ghost use Rattle.transferd.specs.Output.{response_text, restart_text, table_text, task_text};

use gt_machine::{State, TaskLine};
use gt_replies::{status_name, type_name};
use std::alloc::{AllocError, Global};

/// A reply: the line `reply STATUS LENGTH`, and the document on a line.
pub fn reply_line(alloc: Global, status: u16, document: &[u8]) -> Result<Vec<u8>, AllocError>
    ensures { IfOk result (λ text. text.items ≡ response_text (status, document.now)) }
{
    let length = document.len();
    let mut text = format!(in alloc; "reply {status} {length}\n")?.into_bytes();
    text.extend_from_slice(document)?;
    text.push(b'\n')?;
    Ok(text)
}

/// The line `restart EVENTS`.
pub fn restart_line(alloc: Global, events: u64) -> Result<Vec<u8>, AllocError>
    ensures { IfOk result (λ text. text.items ≡ restart_text events) }
{
    Ok(format!(in alloc; "restart {events}\n")?.into_bytes())
}

/// The table of tasks: the line `end EVENTS TASKS`, and a line for each task.
pub fn table(alloc: Global, state: &State) -> Result<Vec<u8>, AllocError>
    ensures { IfOk result (λ text. text.items ≡ table_text state.now.machine.events
        (task_lines state.now.machine)) }
{
    let lines = state.task_lines(alloc)?;
    table_of(alloc, state.events(), &lines)
}

// The table of tasks after so many events.
fn table_of(alloc: Global, events: u64, lines: &[TaskLine]) -> Result<Vec<u8>, AllocError>
    ensures { IfOk result (λ text. text.items ≡ table_text events lines.now) }
{
    let tasks = lines.len();
    let mut text = format!(in alloc; "end {events} {tasks}\n")?.into_bytes();
    for line in lines {
        text.extend_from_slice(task_line(alloc, line)?.as_bytes())?;
    }
    Ok(text)
}

// The line of a task: its number, its type, its status, and ten numbers.
fn task_line(alloc: Global, line: &TaskLine) -> Result<String, AllocError>
    ensures { IfOk result (λ text. string_bytes text ≡ task_text line.now) }
{
    let number = line.number;
    let kind = type_name(line.is_delete);
    let status = status_name(line.status);
    let numbers = numbers_of(alloc, line)?;
    let numbers = numbers.as_str();
    format!(in alloc; "task {number} {kind} {status}{numbers}")
}

// The ten numbers with a space before each, and a newline.
fn numbers_of(alloc: Global, line: &TaskLine) -> Result<String, AllocError>
    ensures { IfOk result (λ text. string_bytes text ≡ spec.numbers_text
        (spec.numbers_of line.now) (10 ∷ [])) }
{
    let copied = two_numbers(
        alloc,
        line.counters.files_transferred,
        line.counters.bytes_transferred,
        "\n",
    )?;
    let failed = two_numbers(
        alloc,
        line.counters.failed,
        line.counters.skipped_errors,
        copied.as_str(),
    )?;
    let ended = two_numbers(
        alloc,
        line.counters.expired,
        line.counters.canceled,
        failed.as_str(),
    )?;
    let done = two_numbers(
        alloc,
        line.counters.retrying,
        line.counters.succeeded,
        ended.as_str(),
    )?;
    let all = two_numbers(
        alloc,
        line.counters.total,
        line.counters.pending,
        done.as_str(),
    )?;
    Ok(all)
}

// Two numbers with a space before each, and a text behind them.
fn two_numbers(alloc: Global, first: u64, second: u64, rest: &str) -> Result<String, AllocError>
    ensures { IfOk result (λ text. string_bytes text ≡ spec.numbers_text (first ∷
        (second ∷ [])) rest.now) }
{
    format!(in alloc; " {first} {second}{rest}")
}
