ghost use Rattle.std.specs.Prelude.{◌≡◌, ◌<◌, ◌^◌, ◌↔◌, None, ℕ, IfOk, IsErrOf, IsSome, is_some};
ghost use Rattle.gt_machine.specs.Change.{HasRoom, IsPlanned, prepared_for};
ghost use Rattle.gt_machine.specs.RuleSteps.{has_room};
ghost use Rattle.gt_machine.specs.Run.{IsReached};
ghost use Rattle.gt_machine.specs.Step as spec;
ghost use Rattle.gt_machine.specs.Step.{effect_of, may_come, step_of};
ghost use Rattle.gt_setup.specs.Setup.{Setup as SetupValue};

use crate::change::{Change, PlanFault, Prepared};
use crate::forms::is_recordable;
use crate::state::State;
use gt_setup::Setup;
use gt_types::{AccessSpec, Event, Happening};
use gt_values::Moment;
use std::alloc::{AllocError, Global};

// How many rows of access rules there are at most.
const MAX_RULES: usize = 10_000;

impl State {
    /// All that the event's step takes memory for, with room for its rows. The machine stays as it is.
    ///
    /// It tests the event, as when a journal is replayed: `NoStep` comes exactly where the machine has no step on it.
    pub fn plan(&mut self, alloc: Global, setup: &Setup, event: Event) -> Result<Change, PlanFault>
        requires reached { IsReached setup.now self.old.machine }
        requires countable { self.old.machine.events < 2 ^ 63 }

        ensures planned { IfOk result (λ change. (change.event ≡ event)
            × IsPlanned setup.now self.new change) }
        ensures no_step { IsErrOf result PlanFault.NoStep
            ↔ (step_of setup.now self.old.machine event ≡ None) }
        ensures unchanged { self.new.machine ≡ self.old.machine }
    {
        if !self.may_come(setup, &event) || !self.allows(&event.what) {
            return Err(PlanFault::NoStep);
        }
        match self.plan_step(alloc, event) {
            Ok(change) => Ok(change),
            Err(_) => Err(PlanFault::OutOfMemory),
        }
    }

    /// The same for an event that has a step, as each event of `decide` has: it tests nothing.
    pub fn plan_step(&mut self, alloc: Global, event: Event) -> Result<Change, AllocError>
        requires step { (setup : SetupValue) × IsSome (step_of setup self.old.machine event) }
        requires countable { self.old.machine.events < 2 ^ 63 }

        ensures event { IfOk result (λ change. change.event ≡ event) }
        ensures planned { (setup : SetupValue) → IsSome (step_of setup self.old.machine event)
            → IfOk result (IsPlanned setup self.new) }
        ensures unchanged { self.new.machine ≡ self.old.machine }
    {
        let prepared = self.prepare(alloc, &event.what)?;
        Ok(Change { event, prepared })
    }

    /// Whether the event may come now, whatever the tables hold.
    fn may_come(&self, setup: &Setup, event: &Event) -> bool
        ensures { result ≡ may_come setup.now self.now.machine event.now }
    {
        self.greatest <= event.moment
            && is_recordable(setup.collections(), event)
            && self.is_allowed(setup, event.moment, &event.what)
    }

    /// Whether the setup allows what happens at this moment: it has the identity that acts.
    fn is_allowed(&self, setup: &Setup, _moment: Moment, what: &Happening) -> bool
        ensures { result ≡ spec.is_allowed setup.now self.now.machine _moment what.now }
    {
        match what {
            Happening::Issue { identity } => setup.who(identity).is_some(),
            Happening::SubmitTransfer { owner, .. } => setup.who(owner).is_some(),
            Happening::AccessAdd { .. }
            | Happening::AccessReplace { .. }
            | Happening::AccessEnd { .. } => true,
            Happening::SubmitDelete { .. }
            | Happening::PauseAdd { .. }
            | Happening::PauseEnd { .. }
            | Happening::Cancel { .. }
            | Happening::Update { .. }
            | Happening::GrantItem { .. }
            | Happening::RefuseItem { .. }
            | Happening::ReportItem { .. }
            | Happening::Sweep { .. }
            | Happening::Restart => false,
        }
    }

    /// Whether the tables allow what happens.
    fn allows(&self, what: &Happening) -> bool
        ensures { (k moment : ℕ) → result ≡ is_some (effect_of k moment what.now self.now.machine) }
    {
        match what {
            Happening::Issue { .. } => self.can_issue(),
            Happening::SubmitTransfer {
                owner,
                submission,
                spec,
            } => {
                self.tasks.find(owner, submission).is_none() && !self.is_full(spec.entries.len())
            }
            Happening::AccessAdd { collection, spec } => {
                self.has_room() && !self.access.same(*collection, spec)
            }
            Happening::AccessReplace { rule, .. } => {
                self.has_room() && self.access.live(*rule).is_some()
            }
            Happening::AccessEnd { rule } => self.access.live(*rule).is_some(),
            Happening::SubmitDelete { .. }
            | Happening::PauseAdd { .. }
            | Happening::PauseEnd { .. }
            | Happening::Cancel { .. }
            | Happening::Update { .. }
            | Happening::GrantItem { .. }
            | Happening::RefuseItem { .. }
            | Happening::ReportItem { .. }
            | Happening::Sweep { .. }
            | Happening::Restart => false,
        }
    }

    /// Whether there is room for a row of access rules more; ended rows count.
    pub(crate) fn has_room(&self) -> bool
        ensures { result ≡ has_room self.now.machine.access }
    {
        self.access.rows().len() < MAX_RULES
    }

    /// Takes the memory for what happens, which the tables allow.
    fn prepare(&mut self, alloc: Global, what: &Happening) -> Result<Prepared, AllocError>
        requires { (k : ℕ) × (moment : ℕ) × IsSome (effect_of k moment what.now self.old.machine) }
        ensures prepared { IfOk result (λ prepared. prepared
            ≡ prepared_for self.old.machine what.now) }
        ensures room { IfOk result (HasRoom self.new.room what.now) }
        ensures unchanged { self.new.machine ≡ self.old.machine }
    {
        match what {
            Happening::Issue { .. } | Happening::AccessEnd { .. } => Ok(Prepared::Nothing),
            Happening::SubmitDelete { .. }
            | Happening::PauseAdd { .. }
            | Happening::PauseEnd { .. }
            | Happening::Cancel { .. }
            | Happening::Update { .. }
            | Happening::GrantItem { .. }
            | Happening::RefuseItem { .. }
            | Happening::ReportItem { .. }
            | Happening::Sweep { .. }
            | Happening::Restart => unreachable!(),
            Happening::SubmitTransfer { spec, .. } => {
                let task = self.tasks.rows().len() as u64 + 1;
                let items = self.items.first_of_transfer(alloc, task, spec)?;
                self.tasks.reserve(1)?;
                self.items.reserve(items.len() as u64)?;
                Ok(Prepared::Task {
                    label: spec.label.clone()?,
                    items,
                })
            }
            Happening::AccessAdd { .. } => {
                self.access.reserve(1)?;
                Ok(Prepared::Nothing)
            }
            Happening::AccessReplace { rule, write } => {
                self.access.reserve(1)?;
                match self.access.live(*rule) {
                    None => Ok(Prepared::Nothing),
                    Some(row) => Ok(Prepared::Access {
                        spec: AccessSpec {
                            principal: row.spec.principal,
                            path: row.spec.path.clone()?,
                            write: *write,
                        },
                    }),
                }
            }
        }
    }
}
