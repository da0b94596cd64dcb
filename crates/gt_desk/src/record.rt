// What a record takes memory for, before anything is written.
ghost use Rattle.gt_desk.specs.Desk.{IsPending};
ghost use Rattle.gt_machine.specs.Step.{step_of};
ghost use Rattle.gt_records.specs.RecordText.{record_text};
ghost use Rattle.gt_setup.specs.Setup.{Setup};
ghost use Rattle.gt_types.specs.Event.{is_recordable, recordable_collections};
ghost use Rattle.std.specs.Prelude.{IfOk, IsSome, IsTrue, length, ◌<◌, ◌^◌, ◌≡◌, ◌≤◌};

use gt_disk::Disk;
use gt_journal::Journal;
use gt_machine::{Change, State};
use gt_records::encode;
use gt_types::Event;
use std::alloc::{AllocError, Global};

/// Plans the step of the event, encodes its text, and makes room for its record: all that may want memory.
pub fn plan_record<D: Disk>(
    alloc: Global,
    journal: &mut Journal<D>,
    state: &mut State,
    event: Event,
) -> Result<(Change, Vec<u8>), AllocError>
    requires step { (setup : Setup) × IsSome (step_of setup state.old.machine event) }
    requires few { state.old.machine.events < 2 ^ 63 }
    requires recordable { IsTrue (is_recordable recordable_collections event) }
    ensures pending { (setup : Setup) → IsSome (step_of setup state.old.machine event)
        → IfOk result (λ made. IsPending setup state.new made.0) }
    ensures event { IfOk result (λ made. made.0.event ≡ event) }
    ensures text { IfOk result (λ made. made.1.items ≡ record_text event) }
    ensures room { IfOk result (λ made. length made.1.items ≤ journal.new.room) }
    ensures machine { state.new.machine ≡ state.old.machine }
    ensures journal { journal.new ≡ record journal.old { room = journal.new.room } }
{
    let change = state.plan_step(alloc, event)?;
    let body = encode(alloc, &change.event)?;
    journal.reserve(body.len() as u64)?;
    Ok((change, body))
}
