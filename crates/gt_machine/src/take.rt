ghost use Rattle.std.specs.Prelude.{◌≡◌, ◌<◌, ◌≤◌, ◌+◌, ◌^◌, ◌↔◌, None, Some, IsErrOf, OnErr, OnOk};
ghost use Rattle.gt_machine.specs.Run.{IsReached};
ghost use Rattle.gt_machine.specs.Step.{step_of};

use crate::change::PlanFault;
use crate::state::State;
use gt_setup::Setup;
use gt_types::Event;
use std::alloc::Global;

impl State {
    /// Plans and makes the step of the event, as when a journal is replayed.
    ///
    /// `NoStep` comes exactly where the machine has no step on the event. After a fault the machine is as before.
    pub fn take_event(
        &mut self,
        alloc: Global,
        setup: &Setup,
        event: Event,
    ) -> Result<(), PlanFault>
        requires reached { IsReached setup.now self.old.machine }
        requires countable { self.old.machine.events < 2 ^ 63 }

        ensures ok { OnOk result (step_of setup.now self.old.machine event
            ≡ Some self.new.machine) }
        ensures reached { IsReached setup.now self.new.machine }
        ensures counted { self.new.machine.events ≤ self.old.machine.events + 1 }

        ensures no_step { IsErrOf result PlanFault.NoStep
            ↔ (step_of setup.now self.old.machine event ≡ None) }
        ensures unchanged { OnErr result (self.new.machine ≡ self.old.machine) }
    {
        let change = self.plan(alloc, setup, event)?;
        self.commit(change);
        Ok(())
    }
}
