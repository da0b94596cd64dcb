ghost use Rattle.std.specs.Option.{option_copied};
ghost use Rattle.std.specs.Prelude.{◌≡◌, ◌≤◌, ◌<◌, ◌+◌, [], IsSome, None, OnOk, Some, option_map};
ghost use Rattle.gt_values.specs.Rows.{changed_at, row_at};
ghost use Rattle.gt_tasks.specs.Changes.{closed_for, completed_at, updated_by};
ghost use Rattle.gt_tasks.specs.Status.{status_of};
ghost use Rattle.gt_tasks.specs.Tasks.{added_task, next_task, number_of};

use crate::row::TaskRow;
use gt_types::{DeadlineChange, LabelChange, Reason, Status};
use gt_values::{Id, Moment, Table};
use std::alloc::{AllocError, Global};
use std::collections::HashMap;
use std::marker::Model;

// The identity that made a task, and its submission identifier.
type TaskKey = (Id, Id);

/// The rows of all tasks in order of making. Contracts see the rows, and the number of rows that can be added without
/// memory.
///
/// Tasks are numbered from 1 in order of making, and a row is never removed.
#[derive(Debug, Drop)]
pub struct Tasks {
    rows: Table<TaskRow>,
    // The number of each task by its owner and submission identifier.
    found: HashMap<TaskKey, u64>,
    room: u64,
}

impl Model for Tasks {
    ghost use Rattle.gt_values.specs.Rows.{Rows};
    ghost use Rattle.gt_tasks.specs.Found.{IsFiled};
    ghost use Rattle.gt_tasks.specs.declared.row.TaskRow.{TaskRow};

    ghost Value = { Rows TaskRow };

    ghost view = { λ t. record { rows = t.rows.rows; spare = t.room } };

    ghost invariant = { λ t. IsFiled ⟦<TaskKey as PartialEq>⟧.eq
        t.rows.rows t.rows.spare t.found t.room };
}

impl Tasks {
    /// No task. Takes no memory.
    pub fn new(alloc: Global) -> Tasks
        ensures { result.rows ≡ [] }
    {
        Tasks {
            rows: Table::new(alloc),
            found: HashMap::new(alloc),
            room: 0,
        }
    }

    /// Takes room for so many more tasks.
    pub fn reserve(&mut self, more: u64) -> Result<(), AllocError>
        ensures rows { self.new.rows ≡ self.old.rows }
        ensures room { OnOk result (more ≤ self.new.spare) }
        ensures kept { self.old.spare ≤ self.new.spare }
    {
        if more > u64::MAX - self.rows.len() as u64 {
            return Err(AllocError);
        }
        self.rows.reserve(more)?;
        self.found.reserve(more as usize)?;
        if more > self.room {
            self.room = more;
        }
        Ok(())
    }

    /// The rows, in order of making.
    pub fn rows(&self) -> &[TaskRow]
        ensures { result.now ≡ self.now.rows }
    {
        self.rows.as_slice()
    }

    /// The number of the task that the owner made with this submission identifier, if there is one.
    pub fn find(&self, owner: &Id, submission: &Id) -> Option<u64>
        ensures { result ≡ number_of owner.now submission.now self.now.rows }
    {
        self.found.get(&(*owner, *submission)).copied()
    }

    /// The row of the task, if there is one.
    pub fn row(&self, task: u64) -> Option<&TaskRow>
        ensures { option_copied result ≡ row_at self.now.rows task }
    {
        self.rows.row(task)
    }

    /// What became of the task so far.
    pub fn status(&self, task: u64) -> Status
        requires { IsSome (row_at self.now.rows task) }
        ensures { Some result ≡ option_map status_of (row_at self.now.rows task) }
    {
        match self.rows.row(task) {
            Some(row) => row.status(),
            None => Status::Active,
        }
    }

    /// Adds a task, and gives its number: the next one, whatever the field of `row` holds. Takes no memory.
    pub fn add(&mut self, row: TaskRow) -> u64
        requires new { number_of row.owner row.submission self.old.rows ≡ None }
        requires room { 0 < self.old.spare }
        ensures number { result ≡ next_task self.old.rows }
        ensures rows { self.new.rows ≡ added_task row self.old.rows }
        ensures spare { self.new.spare + 1 ≡ self.old.spare }
    {
        let mut row = row;
        let number = self.rows.len() as u64 + 1;
        row.number = number;
        let found = self
            .found
            .insert((row.owner, row.submission), number)
            .is_ok();
        prove!(found);
        self.rows.add(row);
        self.room -= 1;
        number
    }

    /// Closes the task for a reason. It is complete once its items have ended.
    pub fn close(&mut self, task: u64, reason: Reason)
        requires { IsSome (row_at self.old.rows task) }
        ensures rows { self.new.rows ≡ changed_at task (closed_for reason) self.old.rows }
        ensures spare { self.new.spare ≡ self.old.spare }
    {
        self.rows.row_mut(task).closing = Some(reason);
    }

    /// Completes the task at this moment, at which all its items have ended.
    pub fn complete(&mut self, task: u64, at: Moment)
        requires { IsSome (row_at self.old.rows task) }
        ensures rows { self.new.rows ≡ changed_at task (completed_at at) self.old.rows }
        ensures spare { self.new.spare ≡ self.old.spare }
    {
        self.rows.row_mut(task).completed = Some(at);
    }

    /// Changes the label and the deadline that are in force: each is kept, set, or set to none.
    pub fn update(&mut self, task: u64, label: LabelChange, deadline: DeadlineChange)
        requires { IsSome (row_at self.old.rows task) }
        ensures rows { self.new.rows ≡ changed_at task (updated_by label deadline) self.old.rows }
        ensures spare { self.new.spare ≡ self.old.spare }
    {
        self.rows.row_mut(task).update(label, deadline);
    }
}
