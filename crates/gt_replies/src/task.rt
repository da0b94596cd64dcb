//! The document of a task, a few members at a time.
#![tactic(auto, unfolding(crate::specs::Members::with_members))]

ghost use Rattle.gt_replies.specs.Documents.{page_document};
ghost use Rattle.gt_replies.specs.Members.{array_of, or_null, whole, with_members};
ghost use Rattle.gt_replies.specs.TaskDocument as table;
ghost use Rattle.gt_types.specs.Reply.{are_known, is_printable_task};
ghost use Rattle.serde_json.specs.Data.{boolean};
ghost use Rattle.serde_json.specs.View.{members_view, view};
ghost use Rattle.std.specs.List.{list_all};
ghost use Rattle.std.specs.Prelude.{◌≡◌, ◌<◌, IfOk, IsTrue, OnOk, codes, length};

use crate::list::{Row, list};
use crate::member::{Members, TASK, id_value, made_value, put_flag, put_text, put_value};
use crate::state::{put_state, put_subtasks, put_times, put_work};
use crate::words::type_name;
use gt_setup::Setup;
use gt_types::{DeleteOptions, Kept, KeptMember, Page, TaskDocument, TaskOptions, TransferOptions};
use gt_values::Sequence;
use serde_json::{Map, Value};
use std::alloc::{AllocError, Global};

fn is_deletion(options: &TaskOptions) -> bool
    ensures { result ≡ table.is_deletion options.now }
{
    match options {
        TaskOptions::Transfer(_) => false,
        TaskOptions::Delete(_) => true,
    }
}

/// The collection that a task reads. A deletion's collection stands here.
fn source_value(alloc: Global, setup: &Setup, options: &TaskOptions) -> Result<Value, AllocError>
    requires { IsTrue (are_known (length setup.now.collections) options.now) }
    ensures { IfOk result (λ value. view value ≡ table.source_value setup.now options.now) }
{
    match options {
        TaskOptions::Transfer(options) => id_value(alloc, &setup.id_of(options.source)),
        TaskOptions::Delete(options) => id_value(alloc, &setup.id_of(options.collection)),
    }
}

/// The collection that a task writes: `null` for a deletion.
fn destination_value(
    alloc: Global,
    setup: &Setup,
    options: &TaskOptions,
) -> Result<Value, AllocError>
    requires { IsTrue (are_known (length setup.now.collections) options.now) }
    ensures { IfOk result (λ value. view value ≡ table.destination_value setup.now options.now) }
{
    match options {
        TaskOptions::Transfer(options) => id_value(alloc, &setup.id_of(options.destination)),
        TaskOptions::Delete(_) => Ok(Value::Null),
    }
}

fn put_identity(
    members: &mut Members,
    alloc: Global,
    setup: &Setup,
    task: &TaskDocument,
) -> Result<(), AllocError>
    requires { IsTrue (is_printable_task (length setup.now.collections) task.now) }
    ensures { OnOk result (members_view members.new.entries
        ≡ with_members (members_view members.old.entries)
        (table.identity_members setup.now task.now)) }
{
    let id = made_value(alloc, setup, TASK, task.number)?;
    let owner = id_value(alloc, &task.owner)?;
    let source = source_value(alloc, setup, &task.options)?;
    let destination = destination_value(alloc, setup, &task.options)?;
    put_text(members, alloc, "DATA_TYPE", "task")?;
    put_value(members, alloc, "task_id", id)?;
    put_text(
        members,
        alloc,
        "type",
        type_name(is_deletion(&task.options)),
    )?;
    put_value(members, alloc, "owner_id", owner)?;
    put_value(members, alloc, "source_endpoint_id", source)?;
    put_value(members, alloc, "destination_endpoint_id", destination)
}

fn level_value(level: Option<u8>) -> Value
    ensures { view result ≡ or_null whole level }
{
    match level {
        Some(level) => Value::from(level),
        None => Value::Null,
    }
}

fn put_transfer(
    members: &mut Members,
    alloc: Global,
    options: &TransferOptions,
) -> Result<(), AllocError>
    ensures { OnOk result (members_view members.new.entries
        ≡ with_members (members_view members.old.entries) (table.transfer_members options.now)) }
{
    put_flag(members, alloc, "delete_destination_extra", options.extra)?;
    put_flag(members, alloc, "preserve_timestamp", options.preserve)?;
    put_text(members, alloc, "recursive_symlinks", "ignore")?;
    put_flag(members, alloc, "skip_source_errors", options.skip_source)?;
    put_value(members, alloc, "sync_level", level_value(options.level))?;
    put_flag(members, alloc, "verify_checksum", options.verify)
}

fn put_deletion(
    members: &mut Members,
    alloc: Global,
    options: &DeleteOptions,
) -> Result<(), AllocError>
    ensures { OnOk result (members_view members.new.entries
        ≡ with_members (members_view members.old.entries) (table.deletion_members options.now)) }
{
    put_flag(members, alloc, "ignore_missing", options.ignore_missing)?;
    put_flag(members, alloc, "recursive", options.recursive)
}

/// A member without effect, where it was given.
fn put_kept_member(
    members: &mut Members,
    alloc: Global,
    kept: Kept,
    member: KeptMember,
) -> Result<(), AllocError>
    ensures { OnOk result (members_view members.new.entries
        ≡ with_members (members_view members.old.entries) (table.kept_member kept member)) }
{
    match kept.flag(member) {
        Some(flag) => put_flag(members, alloc, member.name(), flag),
        None => Ok(()),
    }
}

fn put_kept(members: &mut Members, alloc: Global, kept: Kept) -> Result<(), AllocError>
    ensures { OnOk result (members_view members.new.entries
        ≡ with_members (members_view members.old.entries) (table.given_members kept)) }
{
    put_kept_member(members, alloc, kept, KeptMember::NotifyOnSucceeded)?;
    put_kept_member(members, alloc, kept, KeptMember::NotifyOnFailed)?;
    put_kept_member(members, alloc, kept, KeptMember::NotifyOnInactive)?;
    put_kept_member(members, alloc, kept, KeptMember::EncryptData)?;
    put_kept_member(members, alloc, kept, KeptMember::FailOnQuotaErrors)?;
    put_kept_member(members, alloc, kept, KeptMember::StoreBasePathInfo)
}

fn put_options(
    members: &mut Members,
    alloc: Global,
    options: &TaskOptions,
) -> Result<(), AllocError>
    ensures { OnOk result (members_view members.new.entries
        ≡ with_members (members_view members.old.entries) (table.options_members options.now)) }
{
    match options {
        TaskOptions::Transfer(options) => {
            put_transfer(members, alloc, options)?;
            put_kept(members, alloc, options.kept)
        }
        TaskOptions::Delete(options) => {
            put_deletion(members, alloc, options)?;
            put_kept(members, alloc, options.kept)
        }
    }
}

/// A task.
#[tactic(auto, unfolding(crate::specs::TaskDocument::task_document))]
pub(crate) fn task(alloc: Global, setup: &Setup, task: &TaskDocument) -> Result<Value, AllocError>
    requires { IsTrue (is_printable_task (length setup.now.collections) task.now) }
    ensures { IfOk result (λ value. view value ≡ table.task_document setup.now task.now) }
{
    let mut members = Map::new(alloc);
    put_identity(&mut members, alloc, setup, task)?;
    put_state(&mut members, alloc, task)?;
    put_times(&mut members, alloc, task)?;
    put_subtasks(&mut members, alloc, &task.counters)?;
    put_work(&mut members, alloc, &task.counters)?;
    put_options(&mut members, alloc, &task.options)?;
    Ok(Value::Object(members))
}

impl Row for TaskDocument {
    ghost document = { table.task_document };

    ghost printable = { is_printable_task };

    fn value(&self, alloc: Global, setup: &Setup) -> Result<Value, AllocError> {
        task(alloc, setup, self)
    }
}

/// A page of tasks.
pub(crate) fn task_list(
    alloc: Global,
    setup: &Setup,
    rows: &Sequence<TaskDocument>,
    page: Page,
) -> Result<Value, AllocError>
    requires { IsTrue (list_all (is_printable_task (length setup.now.collections)) rows.now) }
    ensures { IfOk result (λ value. view value
        ≡ page_document (codes "task_list")
        (array_of (table.task_document setup.now) rows.now) page) }
{
    list(alloc, setup, "task_list", rows.as_slice(), page)
}
