// What the documents of tasks, items and access rules show.
ghost use Rattle.std.specs.Prelude.{◌≡◌, IfOk, IfSome};
ghost use Rattle.gt_machine.specs.Document as spec;

use crate::state::State;
use gt_access::AccessRow;
use gt_subtasks::{Item, ItemState};
use gt_tasks::TaskRow;
use gt_types::{AccessDocument, Act, Code, PathPair, SkippedDocument, TaskDocument, options_of};
use std::alloc::AllocError;

impl State {
    /// What the document of a task shows. No entry of its specification is copied.
    pub(crate) fn task_document(&self, task: &TaskRow) -> Result<TaskDocument, AllocError>
        ensures { IfOk result (λ shown. shown ≡ spec.task_document self.now.machine task.now) }
    {
        Ok(TaskDocument {
            number: task.number,
            owner: task.owner,
            options: options_of(&task.spec),
            label: task.label.clone()?,
            deadline: task.deadline,
            requested: task.requested,
            completed: task.completed,
            status: task.status(),
            fatal_error: task.closing,
            is_paused: false,
            counters: self.items.counters(task.number),
        })
    }
}

/// What the document of an access rule shows.
pub(crate) fn access_document(row: &AccessRow) -> Result<AccessDocument, AllocError>
    ensures { IfOk result (λ shown. shown ≡ spec.access_document row.now) }
{
    Ok(AccessDocument {
        number: row.number,
        spec: row.spec.clone()?,
    })
}

/// The event at which the item ended, or 0.
pub(crate) fn end_of(item: &Item) -> u64
    ensures { result ≡ spec.end_of item.now }
{
    item.ended.unwrap_or(0)
}

/// Why an item in this state was skipped.
pub(crate) fn skip_code(state: ItemState) -> Option<Code>
    ensures { result ≡ spec.skip_code state }
{
    match state {
        ItemState::Skipped(code) => Some(code),
        _ => None,
    }
}

/// The two paths of an item.
pub(crate) fn pair_of(item: &Item) -> Result<PathPair, AllocError>
    ensures { IfOk result (λ pair. pair ≡ spec.pair_of item.now) }
{
    match &item.act {
        Act::Transfer {
            source,
            destination,
            ..
        } => Ok(PathPair {
            source: source.clone()?,
            destination: destination.clone()?,
        }),
        Act::Erase { path, .. } | Act::RemoveFolder { path } => Ok(PathPair {
            source: path.clone()?,
            destination: path.clone()?,
        }),
    }
}

/// The row of a skipped item.
pub(crate) fn skipped_document(item: &Item) -> Result<SkippedDocument, AllocError>
    ensures { IfOk result (λ row. row ≡ spec.skipped_document item.now) }
{
    let PathPair {
        source,
        destination,
    } = pair_of(item)?;
    Ok(SkippedDocument {
        source,
        destination,
        code: skip_code(item.state).unwrap_or(Code::FileNotFound),
    })
}
