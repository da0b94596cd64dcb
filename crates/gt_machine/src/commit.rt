ghost use Rattle.std.specs.Prelude.{◌≡◌, ◌+◌, ◌<◌, ◌≤◌, ◌^◌, IsSome, Some, length};
ghost use Rattle.gt_machine.specs.Change.{HasRoom, IsPlanned, new_items, prepared_for, prepared_rule, prepared_task};
ghost use Rattle.gt_machine.specs.RuleSteps.{add_access_step, end_access_step, replace_access_step};
ghost use Rattle.gt_machine.specs.Step.{effect_of, step_of};
ghost use Rattle.gt_setup.specs.Setup.{Setup};
ghost use Rattle.gt_machine.specs.TaskSteps.{issue_step, new_task, submit_step};
ghost use Rattle.gt_types.specs.declared.spec.Spec.TheVariants.{Transfer as OfTransfer};

use crate::change::{Change, Prepared};
use crate::state::State;
use gt_subtasks::first_items_keep_their_numbers;
use gt_tasks::TaskRow;
use gt_types::{AccessSpec, Event, Happening, Spec, TransferSpec};
use gt_values::{Id, Moment, Text};

impl State {
    /// Makes the step of the change that was planned last, where nothing was committed since. It takes no memory.
    pub fn commit(&mut self, change: Change)
        requires { (setup : Setup) × IsPlanned setup self.old change }
        ensures { (setup : Setup) → IsPlanned setup self.old change
            → step_of setup self.old.machine change.event ≡ Some self.new.machine }
    {
        let Change { event, prepared } = change;
        let Event { moment, what } = event;
        self.apply(moment, what, prepared);
        self.greatest = moment;
        self.events += 1;
    }

    /// The effect of what happens, before it is counted.
    fn apply(&mut self, moment: Moment, what: Happening, prepared: Prepared)
        requires allowed { IsSome
            (effect_of (self.old.machine.events + 1) moment what self.old.machine) }
        requires countable { self.old.machine.events < 2 ^ 63 }
        requires prepared { prepared ≡ prepared_for self.old.machine what }
        requires room { HasRoom self.old.room what prepared }
        ensures { effect_of (self.old.machine.events + 1) moment what self.old.machine
            ≡ Some self.new.machine }
    {
        let at = self.events + 1;
        match what {
            Happening::Issue { .. } => self.issue_one(),
            Happening::SubmitTransfer {
                owner,
                submission,
                spec,
            } => self.add_task(moment, owner, submission, spec, prepared),
            Happening::AccessAdd { collection, spec } => self.add_rule(at, collection, spec),
            Happening::AccessReplace { rule, write } => {
                self.replace_rule(at, rule, write, prepared);
            }
            Happening::AccessEnd { rule } => self.end_rule(at, rule),
            Happening::SubmitDelete { .. }
            | Happening::PauseAdd { .. }
            | Happening::PauseEnd { .. }
            | Happening::Cancel { .. }
            | Happening::Update { .. }
            | Happening::GrantItem { .. }
            | Happening::RefuseItem { .. }
            | Happening::ReportItem { .. }
            | Happening::Sweep { .. }
            | Happening::Restart => unreachable!(),
        }
    }

    fn issue_one(&mut self)
        requires { IsSome (issue_step self.old.machine) }
        ensures { issue_step self.old.machine ≡ Some self.new.machine }
    {
        self.issued += 1;
    }

    fn add_task(
        &mut self,
        moment: Moment,
        owner: Id,
        submission: Id,
        spec: TransferSpec,
        prepared: Prepared,
    )
        requires allowed { IsSome
            (submit_step moment owner submission (OfTransfer spec) self.old.machine) }
        requires prepared { prepared ≡ prepared_task self.old.machine (OfTransfer spec) }
        requires room_for_task { 1 ≤ self.old.room.tasks }
        requires room_for_items { length (new_items prepared) ≤ self.old.room.items }
        ensures { submit_step moment owner submission (OfTransfer spec) self.old.machine
            ≡ Some self.new.machine }
    {
        if let Prepared::Task { label, items } = prepared {
            let row = row_of(moment, owner, submission, label, spec);
            let _number = self.tasks.add(row);
            // For the proof: the items bear the numbers that they get.
            first_items_keep_their_numbers();
            self.items.add(items);
        }
    }

    fn add_rule(&mut self, at: u64, collection: u32, spec: AccessSpec)
        requires allowed { IsSome (add_access_step at collection spec self.old.machine) }
        requires room { 1 ≤ self.old.room.access }
        ensures { add_access_step at collection spec self.old.machine ≡ Some self.new.machine }
    {
        let _number = self.access.add(collection, spec, at);
    }

    fn replace_rule(&mut self, at: u64, rule: u64, write: bool, prepared: Prepared)
        requires allowed { IsSome (replace_access_step at rule write self.old.machine) }
        requires prepared { prepared ≡ prepared_rule self.old.machine rule write }
        requires room { 1 ≤ self.old.room.access }
        ensures { replace_access_step at rule write self.old.machine ≡ Some self.new.machine }
    {
        let _ = write;
        if let Prepared::Access { spec } = prepared {
            self.access.replace(rule, spec, at);
        }
    }

    fn end_rule(&mut self, at: u64, rule: u64)
        requires { IsSome (end_access_step at rule self.old.machine) }
        ensures { end_access_step at rule self.old.machine ≡ Some self.new.machine }
    {
        self.access.end(rule, at);
    }
}

// The row of a new task; the table gives it its number.
fn row_of(
    moment: Moment,
    owner: Id,
    submission: Id,
    label: Option<Text>,
    spec: TransferSpec,
) -> TaskRow
    requires { label ≡ spec.label }
    ensures { result ≡ new_task 0 moment owner submission (OfTransfer spec) }
{
    TaskRow {
        number: 0,
        owner,
        submission,
        label,
        deadline: spec.deadline,
        requested: moment,
        closing: None,
        completed: None,
        spec: Spec::Transfer(spec),
    }
}
