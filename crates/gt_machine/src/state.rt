ghost use Rattle.std.specs.Prelude.{◌≡◌, IfOk};
ghost use Rattle.gt_machine.specs.MachineState.{empty_state};
ghost use Rattle.gt_machine.specs.TaskLine.{task_lines};
ghost use Rattle.gt_machine.specs.TaskSteps.{can_issue, is_full};

use crate::line::{TaskLine, line_of};
use gt_access::Rules;
use gt_subtasks::Items;
use gt_tasks::Tasks;
use gt_values::Moment;
use std::alloc::{AllocError, Global};
use std::marker::Model;

// How many submission identifiers are issued at most: each is made of a number of 6 bytes, from 1 on.
const MAX_ISSUED: u64 = (1 << 48) - 1;

// How many tasks there are at most.
const MAX_TASKS: usize = 100_000;

// How many items there are at most.
const MAX_ITEMS: usize = 400_000;

/// The state of the machine: what a list of events leads to. Contracts see the machine, and the room that its tables have.
///
/// Rows are numbered from 1 in order of making. No row is ever removed.
#[derive(Debug, Drop)]
pub struct State {
    pub(crate) namespace: u32,
    pub(crate) access: Rules,
    pub(crate) tasks: Tasks,
    pub(crate) items: Items,
    pub(crate) issued: u64,
    pub(crate) greatest: Moment,
    pub(crate) events: u64,
}

impl Model for State {
    ghost use Rattle.gt_machine.specs.Change.{Held};

    ghost Value = { Held };

    ghost view = { λ s. record {
      machine = record {
        namespace = s.namespace;
        access = s.access.rows;
        tasks = s.tasks.rows;
        items = s.items.rows;
        issued = s.issued;
        greatest = s.greatest;
        events = s.events;
      };
      room = record { access = s.access.spare; tasks = s.tasks.spare; items = s.items.spare };
    } };
}

impl State {
    /// The state before any event, of a desk whose identifiers have this namespace.
    pub fn new(alloc: Global, namespace: u32) -> State
        ensures { result.machine ≡ empty_state namespace }
    {
        State {
            namespace,
            access: Rules::new(alloc),
            tasks: Tasks::new(alloc),
            items: Items::new(alloc),
            issued: 0,
            greatest: Moment::zero(),
            events: 0,
        }
    }

    /// How many events led to the state.
    pub fn events(&self) -> u64
        ensures { result ≡ self.now.machine.events }
    {
        self.events
    }

    /// The greatest moment of an event, or 0 before any.
    pub fn greatest(&self) -> Moment
        ensures { result ≡ self.now.machine.greatest }
    {
        self.greatest
    }

    /// The access rules, ended ones too.
    pub fn rules(&self) -> &Rules
        ensures { result.now.rows ≡ self.now.machine.access }
    {
        &self.access
    }

    /// The tasks.
    pub fn tasks(&self) -> &Tasks
        ensures { result.now.rows ≡ self.now.machine.tasks }
    {
        &self.tasks
    }

    /// The items of all tasks.
    pub fn items(&self) -> &Items
        ensures { result.now.rows ≡ self.now.machine.items }
    {
        &self.items
    }

    /// What the table of tasks shows, a line a task, in order of making.
    pub fn task_lines(&self, alloc: Global) -> Result<Vec<TaskLine>, AllocError>
        ensures { IfOk result (λ lines. lines.items ≡ task_lines self.now.machine) }
    {
        let items = &self.items;
        self.tasks
            .rows()
            .iter()
            .map(|task| line_of(task, items))
            .collect(alloc)
    }

    /// Whether a submission identifier is left.
    pub(crate) fn can_issue(&self) -> bool
        ensures { result ≡ can_issue self.now.machine }
    {
        self.issued < MAX_ISSUED
    }

    /// Whether there is no room for a task of so many entries.
    pub(crate) fn is_full(&self, more: usize) -> bool
        ensures { result ≡ is_full self.now.machine more }
    {
        let items = self.items.rows().len();
        MAX_TASKS <= self.tasks.rows().len() || MAX_ITEMS < items || MAX_ITEMS - items < more
    }
}
