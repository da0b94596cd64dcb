// Tasks and rules by the identifiers that stand in requests.
ghost use Rattle.std.specs.Option.{option_copied};
ghost use Rattle.std.specs.Prelude.{◌≡◌, ◌<◌, ◌^◌};
ghost use Rattle.gt_machine.specs.Named as spec;

use crate::state::State;
use gt_access::AccessRow;
use gt_setup::Setup;
use gt_tasks::TaskRow;
use gt_values::Id;

// Of what identifiers are made beside a number: their kinds.
const TASK: u8 = 2;

const ACCESS_RULE: u8 = 3;

impl State {
    /// The caller's task with this identifier.
    pub(crate) fn task_named(&self, setup: &Setup, caller: &Id, id: &Id) -> Option<&TaskRow>
        ensures { option_copied result
            ≡ spec.task_named setup.now self.now.machine caller.now id.now }
    {
        let number = number_named(setup.namespace(), TASK, id)?;
        let task = self.tasks.row(number)?;
        if task.owner == *caller {
            Some(task)
        } else {
            None
        }
    }

    /// The live access rule of the collection with this identifier.
    pub(crate) fn rule_named(&self, setup: &Setup, collection: u32, id: &Id) -> Option<&AccessRow>
        ensures { option_copied result
            ≡ spec.rule_named setup.now self.now.machine collection id.now }
    {
        let number = number_named(setup.namespace(), ACCESS_RULE, id)?;
        let row = self.access.live(number)?;
        if row.collection == collection {
            Some(row)
        } else {
            None
        }
    }
}

// The number of which the identifier is made, where it is one of this namespace and kind.
fn number_named(namespace: u32, kind: u8, id: &Id) -> Option<u64>
    ensures { result ≡ spec.number_named namespace kind id.now }
{
    let n = namespace.to_be_bytes();
    let bytes = id.as_bytes();
    if !bytes.starts_with(&[n[0], n[1], n[2], n[3], 0, kind, 0x80, 0, 0x80, 0]) {
        return None;
    }
    Some(u64::from_be_bytes([
        0, 0, bytes[10], bytes[11], bytes[12], bytes[13], bytes[14], bytes[15],
    ]))
}
