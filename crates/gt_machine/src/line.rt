ghost use Rattle.std.specs.Prelude.{◌≡◌};
ghost use Rattle.gt_machine.specs.TaskLine.{line_among};

use gt_subtasks::Items;
use gt_tasks::TaskRow;
use gt_types::{Counters, Spec, Status};

/// What the table of tasks shows of a task: its number, its type, its status, and the counters of its items.
///
/// The seven classes from `pending` to `skipped_errors` sum to `total`; an item that runs is counted as pending.
#[derive(Clone, Copy, Debug, PartialEq, Eq)]
pub struct TaskLine {
    pub number: u64,
    pub is_delete: bool,
    pub status: Status,
    pub counters: Counters,
}

/// The line of a task among these items. Its counters are read, not counted.
pub(crate) fn line_of(task: &TaskRow, items: &Items) -> TaskLine
    ensures { result ≡ line_among items.now.rows task.now }
{
    TaskLine {
        number: task.number,
        is_delete: matches!(task.spec, Spec::Delete(_)),
        status: task.status(),
        counters: items.counters(task.number),
    }
}
