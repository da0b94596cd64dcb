// Answers on tasks that are there.
ghost use Rattle.std.specs.Prelude.{◌≡◌, IfOk, filter, map};
ghost use Rattle.std.specs.Str.{bytes_eq};
ghost use Rattle.gt_machine.specs.Document.{copied_items, skipped_items, task_document};
ghost use Rattle.gt_machine.specs.Document as documents;
ghost use Rattle.gt_machine.specs.Lists.{sorted_by};
ghost use Rattle.gt_machine.specs.TaskAnswer as spec;
ghost use Rattle.gt_subtasks.specs.Item.{is_copied};

use crate::decision::{Decision, refusing};
use crate::documents::{end_of, pair_of, skip_code, skipped_document};
use crate::lists::{page_line, page_of};
use crate::state::State;
use gt_setup::Setup;
use gt_subtasks::Item;
use gt_tasks::TaskRow;
use gt_types::{PathPair, Reply, ReplyCode, SkippedDocument, TaskDocument};
use gt_values::{Id, Sequence};
use std::alloc::{AllocError, Global};

impl State {
    /// A page of the caller's tasks. Passes over the rows of tasks once, and copies those of the page.
    pub(crate) fn tasks_reply(
        &self,
        alloc: Global,
        caller: &Id,
        limit: u32,
        offset: u64,
    ) -> Result<Reply, AllocError>
        ensures { IfOk result (λ reply. reply
            ≡ spec.tasks_reply self.now.machine caller.now limit offset) }
    {
        let rows = tasks_of(alloc, self.tasks.rows(), caller)?;
        let shown = self.task_documents(alloc, page_of(&rows, limit, offset))?;
        Ok(Reply::Tasks {
            rows: Sequence::from_vec(shown),
            page: page_line(&rows, limit, offset),
        })
    }

    // What the documents of these tasks show.
    fn task_documents(
        &self,
        alloc: Global,
        tasks: &[&TaskRow],
    ) -> Result<Vec<TaskDocument>, AllocError>
        ensures { IfOk result (λ shown. shown.items
            ≡ map (task_document self.now.machine) (map (λ task. task.now) tasks.now)) }
    {
        let mut shown = Vec::new(alloc);
        for task in tasks {
            shown.push(self.task_document(task)?)?;
        }
        Ok(shown)
    }

    /// A page of the files that the task copied. Passes over its own items alone.
    pub(crate) fn successes_reply(
        &self,
        alloc: Global,
        task: &TaskRow,
        limit: u32,
        offset: u64,
    ) -> Result<Reply, AllocError>
        ensures { IfOk result (λ reply. reply
            ≡ spec.successes_reply self.now.machine limit offset task.now) }
    {
        let items = self.copied_items(alloc, task)?;
        let shown = pairs(alloc, page_of(&items, limit, offset))?;
        Ok(Reply::Successes {
            rows: Sequence::from_vec(shown),
            page: page_line(&items, limit, offset),
        })
    }

    /// A page of what the task skipped. Passes over its own items alone.
    pub(crate) fn skipped_reply(
        &self,
        alloc: Global,
        task: &TaskRow,
        limit: u32,
        offset: u64,
    ) -> Result<Reply, AllocError>
        ensures { IfOk result (λ reply. reply
            ≡ spec.skipped_reply self.now.machine limit offset task.now) }
    {
        let items = self.skipped_items(alloc, task)?;
        let shown = skipped_documents(alloc, page_of(&items, limit, offset))?;
        Ok(Reply::Skipped {
            rows: Sequence::from_vec(shown),
            page: page_line(&items, limit, offset),
        })
    }

    /// What is said of the caller's task with this identifier.
    pub(crate) fn show_task(
        &self,
        setup: &Setup,
        caller: &Id,
        id: &Id,
    ) -> Result<Decision<Reply>, AllocError>
        ensures { IfOk result (λ d. d ≡ spec.on_task setup.now self.now.machine caller.now id.now
            (spec.task_reply self.now.machine)) }
    {
        match self.task_named(setup, caller, id) {
            Some(task) => Ok(Decision::Say(Reply::Task(self.task_document(task)?))),
            None => Ok(refusing(ReplyCode::TaskNotFound)),
        }
    }

    /// The files that the caller's task with this identifier copied.
    pub(crate) fn list_successes(
        &self,
        alloc: Global,
        setup: &Setup,
        caller: &Id,
        id: &Id,
        page: (u32, u64),
    ) -> Result<Decision<Reply>, AllocError>
        ensures { IfOk result (λ d. d ≡ spec.on_task setup.now self.now.machine caller.now id.now
            (spec.successes_reply self.now.machine page.0 page.1)) }
    {
        match self.task_named(setup, caller, id) {
            Some(task) => Ok(Decision::Say(self.successes_reply(alloc, task, page.0, page.1)?)),
            None => Ok(refusing(ReplyCode::TaskNotFound)),
        }
    }

    /// What the caller's task with this identifier skipped.
    pub(crate) fn list_skipped(
        &self,
        alloc: Global,
        setup: &Setup,
        caller: &Id,
        id: &Id,
        page: (u32, u64),
    ) -> Result<Decision<Reply>, AllocError>
        ensures { IfOk result (λ d. d ≡ spec.on_task setup.now self.now.machine caller.now id.now
            (spec.skipped_reply self.now.machine page.0 page.1)) }
    {
        match self.task_named(setup, caller, id) {
            Some(task) => Ok(Decision::Say(self.skipped_reply(alloc, task, page.0, page.1)?)),
            None => Ok(refusing(ReplyCode::TaskNotFound)),
        }
    }

    // The task's copied items, in the order of the events at which they ended.
    fn copied_items(&self, alloc: Global, task: &TaskRow) -> Result<Vec<&Item>, AllocError>
        ensures { IfOk result (λ items. map (λ item. item.now) items.items
            ≡ copied_items self.now.machine task.now) }
    {
        by_end(copied(self.items.of_task(alloc, task.number)?))
    }

    // The task's skipped items, in the same order.
    fn skipped_items(&self, alloc: Global, task: &TaskRow) -> Result<Vec<&Item>, AllocError>
        ensures { IfOk result (λ items. map (λ item. item.now) items.items
            ≡ skipped_items self.now.machine task.now) }
    {
        by_end(skipped(self.items.of_task(alloc, task.number)?))
    }
}

// Those of these items that were copied.
fn copied(items: Vec<&Item>) -> Vec<&Item>
    ensures { map (λ item. item.now) result.items
        ≡ filter is_copied (map (λ item. item.now) items.entry.items) }
{
    let mut found = items;
    found.retain(|item| item.is_copied());
    found
}

// Those of these items that were skipped.
fn skipped(items: Vec<&Item>) -> Vec<&Item>
    ensures { map (λ item. item.now) result.items
        ≡ filter documents.is_skipped (map (λ item. item.now) items.entry.items) }
{
    let mut found = items;
    found.retain(|item| skip_code(item.state).is_some());
    found
}

// These items, in the order of the events at which they ended.
fn by_end(items: Vec<&Item>) -> Result<Vec<&Item>, AllocError>
    ensures { IfOk result (λ sorted. map (λ item. item.now) sorted.items
        ≡ sorted_by documents.end_of (map (λ item. item.now) items.entry.items)) }
{
    let mut sorted = items;
    sorted.sort_by_key(|item| end_of(item))?;
    Ok(sorted)
}

// The caller's tasks, by number.
fn tasks_of<'a>(
    alloc: Global,
    rows: &'a [TaskRow],
    caller: &Id,
) -> Result<Vec<&'a TaskRow>, AllocError>
    ensures { IfOk result (λ tasks. map (λ task. task.now) tasks.items
        ≡ filter (λ task. bytes_eq task.owner caller.now) rows.now) }
{
    rows.iter()
        .filter(|task| task.owner == *caller)
        .collect(alloc)
}

// The paths of these items.
fn pairs(alloc: Global, items: &[&Item]) -> Result<Vec<PathPair>, AllocError>
    ensures { IfOk result (λ shown. shown.items
        ≡ map documents.pair_of (map (λ item. item.now) items.now)) }
{
    let mut shown = Vec::new(alloc);
    for item in items {
        shown.push(pair_of(item)?)?;
    }
    Ok(shown)
}

// The rows of these skipped items.
fn skipped_documents(alloc: Global, items: &[&Item]) -> Result<Vec<SkippedDocument>, AllocError>
    ensures { IfOk result (λ shown. shown.items
        ≡ map documents.skipped_document (map (λ item. item.now) items.now)) }
{
    let mut shown = Vec::new(alloc);
    for item in items {
        shown.push(skipped_document(item)?)?;
    }
    Ok(shown)
}
