//! The members of a task's document that say how far it is.
#![tactic(auto, unfolding(crate::specs::Members::with_members))]

ghost use Rattle.gt_replies.specs.Members.{with_members};
ghost use Rattle.gt_replies.specs.TaskDocument as table;
ghost use Rattle.serde_json.specs.View.{members_view, view};
ghost use Rattle.std.specs.Prelude.{◌≡◌, IfOk, OnOk};

use crate::code::reason_name;
use crate::member::{
    Members, moment_or_null, moment_value, put_flag, put_number, put_text, put_value, text_or_null,
};
use crate::words::status_name;
use gt_types::{Counters, Reason, TaskDocument};
use serde_json::Value;
use std::alloc::{AllocError, Global};

fn reason_value(alloc: Global, reason: Option<Reason>) -> Result<Value, AllocError>
    ensures { IfOk result (λ value. view value ≡ table.reason_value reason) }
{
    match reason {
        Some(reason) => Value::try_from_str(alloc, reason_name(reason)),
        None => Ok(Value::Null),
    }
}

/// How the task stands.
pub(crate) fn put_state(
    members: &mut Members,
    alloc: Global,
    task: &TaskDocument,
) -> Result<(), AllocError>
    ensures { OnOk result (members_view members.new.entries
        ≡ with_members (members_view members.old.entries) (table.state_members task.now)) }
{
    let fatal = reason_value(alloc, task.fatal_error)?;
    let label = text_or_null(alloc, &task.label)?;
    put_text(members, alloc, "status", status_name(task.status))?;
    put_value(members, alloc, "fatal_error", fatal)?;
    put_flag(members, alloc, "is_paused", task.is_paused)?;
    put_value(members, alloc, "label", label)
}

/// The task's moments.
pub(crate) fn put_times(
    members: &mut Members,
    alloc: Global,
    task: &TaskDocument,
) -> Result<(), AllocError>
    ensures { OnOk result (members_view members.new.entries
        ≡ with_members (members_view members.old.entries) (table.time_members task.now)) }
{
    let deadline = moment_or_null(alloc, task.deadline)?;
    let requested = moment_value(alloc, task.requested)?;
    let completed = moment_or_null(alloc, task.completed)?;
    put_value(members, alloc, "deadline", deadline)?;
    put_value(members, alloc, "request_time", requested)?;
    put_value(members, alloc, "completion_time", completed)
}

/// How many items it has, and how many in each class.
pub(crate) fn put_subtasks(
    members: &mut Members,
    alloc: Global,
    counters: &Counters,
) -> Result<(), AllocError>
    ensures { OnOk result (members_view members.new.entries
        ≡ with_members (members_view members.old.entries) (table.subtask_members counters.now)) }
{
    put_number(members, alloc, "subtasks_total", counters.total)?;
    put_number(members, alloc, "subtasks_pending", counters.pending)?;
    put_number(members, alloc, "subtasks_retrying", counters.retrying)?;
    put_number(members, alloc, "subtasks_succeeded", counters.succeeded)?;
    put_number(members, alloc, "subtasks_expired", counters.expired)?;
    put_number(members, alloc, "subtasks_canceled", counters.canceled)?;
    put_number(members, alloc, "subtasks_failed", counters.failed)?;
    put_number(
        members,
        alloc,
        "subtasks_skipped_errors",
        counters.skipped_errors,
    )
}

/// What the items did.
pub(crate) fn put_work(
    members: &mut Members,
    alloc: Global,
    counters: &Counters,
) -> Result<(), AllocError>
    ensures { OnOk result (members_view members.new.entries
        ≡ with_members (members_view members.old.entries) (table.work_members counters.now)) }
{
    put_number(members, alloc, "files", counters.files)?;
    put_number(members, alloc, "directories", counters.directories)?;
    put_number(members, alloc, "files_skipped", counters.files_skipped)?;
    put_number(
        members,
        alloc,
        "files_transferred",
        counters.files_transferred,
    )?;
    put_number(
        members,
        alloc,
        "bytes_transferred",
        counters.bytes_transferred,
    )?;
    put_number(
        members,
        alloc,
        "bytes_checksummed",
        counters.bytes_checksummed,
    )?;
    put_number(members, alloc, "faults", counters.faults)
}
