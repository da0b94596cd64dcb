// What an opening makes of the bodies that the journal hands out.
ghost use Rattle.gt_desk.specs.Damage.{IsBadBody, IsTextOf};
ghost use Rattle.gt_desk.specs.Replay.{IsBadAs, Replays};
ghost use Rattle.gt_journal.specs.Reading.{lists};
ghost use Rattle.gt_machine.specs.Run.{IsReached};
ghost use Rattle.gt_machine.specs.Step.{step_of};
ghost use Rattle.gt_types.specs.declared.event.Event.{Event};
ghost use Rattle.std.specs.Prelude.{IfErr, IfOk, IsErrOf, OnOk, Some, length, ◌+◌, ◌<◌, ◌^◌, ◌≡◌, ◌≤◌};

use crate::OpenFault;
use gt_machine::{PlanFault, State};
use gt_records::{DecodeFault, decode, record_text_reads_back};
use gt_setup::Setup;
use std::alloc::Global;

// Why a body isn't replayed.
enum Bad {
    Body,
    OutOfMemory,
}

// One body more.
fn replay_body(alloc: Global, setup: &Setup, state: &mut State, body: &[u8]) -> Result<(), Bad>
    requires reached { IsReached setup.now state.old.machine }
    requires countable { state.old.machine.events < 2 ^ 63 }
    ensures ok { OnOk result ((event : Event) × IsTextOf event body.now
        × (step_of setup.now state.old.machine event ≡ Some state.new.machine)) }
    ensures reached { IsReached setup.now state.new.machine }
    ensures counted { state.new.machine.events ≤ state.old.machine.events + 1 }
    ensures bad { IsErrOf result Bad.Body → IsBadBody setup.now state.old.machine body.now }
{
    let event = match decode(alloc, body) {
        Ok(event) => event,
        Err(DecodeFault::NotRecord) => return Err(Bad::Body),
        Err(DecodeFault::OutOfMemory) => return Err(Bad::OutOfMemory),
    };
    match state.take_event(alloc, setup, event) {
        Ok(()) => Ok(()),
        Err(PlanFault::NoStep) => Err(Bad::Body),
        Err(PlanFault::OutOfMemory) => Err(Bad::OutOfMemory),
    }
}

/// The state to which the events of these bodies lead. A refusal names the first body that isn't replayed.
pub fn replay_bodies(alloc: Global, setup: &Setup, bodies: &[Vec<u8>]) -> Result<State, OpenFault>
    ensures ok { IfOk result (λ state. Replays setup.now (lists bodies.now) state.machine) }
    ensures reached { IfOk result (λ state. IsReached setup.now state.machine) }
    ensures few { IfOk result (λ state. state.machine.events ≤ length bodies.now) }
    ensures bad { IfErr result (IsBadAs setup.now (lists bodies.now)) }
{
    // For the proof: the text of an event reads back as that event.
    record_text_reads_back();
    let mut state = State::new(alloc, setup.namespace());
    for at in 0..bodies.len() {
        match replay_body(alloc, setup, &mut state, &bodies[at]) {
            Ok(()) => {}
            Err(Bad::Body) => {
                return Err(OpenFault::Damaged {
                    at_record: at as u64,
                });
            }
            Err(Bad::OutOfMemory) => return Err(OpenFault::OutOfMemory),
        }
    }
    Ok(state)
}
