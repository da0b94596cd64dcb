#![tactic(auto, using(crate::proofs::KeepLemmas::keeping))]

ghost use Rattle.gt_records.specs.Appending.{Keeps};
ghost use Rattle.gt_records.specs.Reading.{Gives};
ghost use Rattle.gt_records.specs.ReadingEvents.{event_at, happening_at, worker_at};
ghost use Rattle.gt_records.specs.RecordText as text;
ghost use Rattle.gt_records.specs.RecordText.{fields_text, record_text};
ghost use Rattle.gt_types.specs.Event.{is_recordable, is_recordable_happening, recordable_collections};
ghost use Rattle.std.specs.Prelude.{◌≡◌, ◌++◌, IsTrue, OnErr, OnOk};

use crate::fault::DecodeFault;
use crate::field::Field;
use crate::reader::Reader;
use gt_types::{AccessSpec, Event, Happening, Outcome, Side, TransferSpec, is_worker};
use gt_values::{Id, Moment};
use std::alloc::{AllocError, Global};

/// The tag of an event.
fn tag_of(what: &Happening) -> u8
    ensures { result ≡ text.tag_of what.now }
{
    match what {
        Happening::Issue { .. } => 1,
        Happening::SubmitTransfer { .. } => 2,
        Happening::SubmitDelete { .. } => 3,
        Happening::AccessAdd { .. } => 4,
        Happening::AccessReplace { .. } => 5,
        Happening::AccessEnd { .. } => 6,
        Happening::PauseAdd { .. } => 7,
        Happening::PauseEnd { .. } => 8,
        Happening::Cancel { .. } => 9,
        Happening::Update { .. } => 10,
        Happening::GrantItem { .. } => 11,
        Happening::RefuseItem { .. } => 12,
        Happening::ReportItem { .. } => 13,
        Happening::Sweep { .. } => 14,
        Happening::Restart => 15,
    }
}

/// Appends the fields of what happens.
fn write_fields(what: &Happening, into: &mut Vec<u8>) -> Result<(), AllocError>
    requires { IsTrue (is_recordable_happening what.now) }
    ensures ok { OnOk result (into.new.items ≡ into.old.items ++ fields_text what.now) }
    ensures err { OnErr result (Keeps into.old.items into.new.items) }
{
    match what {
        Happening::Issue { identity } => identity.write_to(into),
        Happening::SubmitTransfer {
            owner,
            submission,
            spec,
        } => {
            owner.write_to(into)?;
            submission.write_to(into)?;
            spec.write_to(into)
        }
        Happening::AccessAdd { collection, spec } => {
            collection.write_to(into)?;
            spec.write_to(into)
        }
        Happening::AccessReplace { rule, write } => {
            rule.write_to(into)?;
            write.write_to(into)
        }
        Happening::AccessEnd { rule } => rule.write_to(into),
        Happening::GrantItem { worker, item } => {
            worker.write_to(into)?;
            item.write_to(into)
        }
        Happening::RefuseItem { item, side } => {
            item.write_to(into)?;
            side.write_to(into)
        }
        Happening::ReportItem {
            item,
            grant,
            outcome,
        } => {
            item.write_to(into)?;
            grant.write_to(into)?;
            outcome.write_to(into)
        }
        Happening::Restart => Ok(()),
        // No record holds these yet.
        Happening::SubmitDelete { .. }
        | Happening::PauseAdd { .. }
        | Happening::PauseEnd { .. }
        | Happening::Cancel { .. }
        | Happening::Update { .. }
        | Happening::Sweep { .. } => Ok(()),
    }
}

/// What happens in an event of this tag.
#[tactic(auto, unfolding(crate::specs::ReadingEvents::happening_at))]
fn read_fields(alloc: Global, tag: u8, from: &mut Reader<'_>) -> Result<Happening, DecodeFault>
    ensures { Gives result (happening_at tag from.old) from.new }
{
    match tag {
        1 => Ok(Happening::Issue {
            identity: Id::read_from(alloc, from)?,
        }),
        2 => {
            let owner = Id::read_from(alloc, from)?;
            let submission = Id::read_from(alloc, from)?;
            let spec = TransferSpec::read_from(alloc, from)?;
            Ok(Happening::SubmitTransfer {
                owner,
                submission,
                spec,
            })
        }
        4 => {
            let collection = from.u32()?;
            let spec = AccessSpec::read_from(alloc, from)?;
            Ok(Happening::AccessAdd { collection, spec })
        }
        5 => {
            let rule = from.u64()?;
            let write = bool::read_from(alloc, from)?;
            Ok(Happening::AccessReplace { rule, write })
        }
        6 => Ok(Happening::AccessEnd { rule: from.u64()? }),
        11 => {
            let worker = read_worker(from)?;
            let item = from.u64()?;
            Ok(Happening::GrantItem { worker, item })
        }
        12 => {
            let item = from.u64()?;
            let side = Side::read_from(alloc, from)?;
            Ok(Happening::RefuseItem { item, side })
        }
        13 => {
            let item = from.u64()?;
            let grant = from.u64()?;
            let outcome = Outcome::read_from(alloc, from)?;
            Ok(Happening::ReportItem {
                item,
                grant,
                outcome,
            })
        }
        15 => Ok(Happening::Restart),
        _ => Err(DecodeFault::NotRecord),
    }
}

/// The number of a worker.
#[tactic(auto, unfolding(crate::specs::ReadingEvents::worker_at))]
fn read_worker(from: &mut Reader<'_>) -> Result<u8, DecodeFault>
    ensures { Gives result (worker_at from.old) from.new }
{
    let worker = from.byte()?;
    if is_worker(worker) {
        Ok(worker)
    } else {
        Err(DecodeFault::NotRecord)
    }
}

impl Field for Event {
    ghost text = { record_text };

    ghost fits = { is_recordable recordable_collections };

    ghost read_at = { event_at };

    #[tactic(auto, using(crate::proofs::KeepLemmas::keeping), unfolding(crate::specs::RecordText::record_text))]
    fn write_to(&self, into: &mut Vec<u8>) -> Result<(), AllocError> {
        tag_of(&self.what).write_to(into)?;
        self.moment.write_to(into)?;
        write_fields(&self.what, into)
    }

    #[tactic(auto, unfolding(crate::specs::ReadingEvents::event_at))]
    fn read_from(alloc: Global, from: &mut Reader<'_>) -> Result<Event, DecodeFault> {
        let tag = from.byte()?;
        let moment = Moment::read_from(alloc, from)?;
        let what = read_fields(alloc, tag, from)?;
        Ok(Event { moment, what })
    }
}
