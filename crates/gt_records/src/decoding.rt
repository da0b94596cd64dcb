ghost use Rattle.gt_records.specs.ReadingEvents.{event_of};
ghost use Rattle.gt_records.specs.RecordText.{record_text};
ghost use Rattle.gt_types.specs.declared.event.Event.{Event};
ghost use Rattle.gt_types.specs.Event.{is_recordable, recordable_collections};
ghost use Rattle.std.specs.Prelude.{◌≡◌, IfErr, IfOk, IsErrOf, IsTrue, MatchResult, None, Some};

use crate::fault::DecodeFault;
use crate::field::Field;
use crate::reader::Reader;
use gt_types::Event;
use std::alloc::Global;

/// The event whose text the bytes are.
///
/// `NotRecord` exactly where the bytes are no event's text: an unknown tag, a field outside its form or its limits, too
/// few bytes, or bytes behind the event.
pub fn decode(alloc: Global, bytes: &[u8]) -> Result<Event, DecodeFault>
    ensures text { IfOk result (λ event. record_text event ≡ bytes.now) }
    ensures recordable { IfOk result
        (λ event. IsTrue (is_recordable recordable_collections event)) }

    // Bytes are refused exactly where they are no event's text.
    ensures refused { IsErrOf result DecodeFault.NotRecord → (event : Event)
        → IsTrue (is_recordable recordable_collections event) → record_text event ≡ bytes.now → ⊥ }

    // What has this text is decoded, unless memory runs out.
    ensures given { (event : Event) → IsTrue (is_recordable recordable_collections event)
        → record_text event ≡ bytes.now
        → MatchResult result (λ found. found ≡ event) (λ fault. fault ≡ DecodeFault.OutOfMemory) }
{
    decoded(alloc, bytes)
}

/// The event of all the bytes.
#[tactic(auto, unfolding(crate::specs::ReadingEvents::event_of))]
fn decoded(alloc: Global, bytes: &[u8]) -> Result<Event, DecodeFault>
    ensures found { IfOk result (λ event. event_of bytes.now ≡ Some event) }
    ensures fault { IsErrOf result DecodeFault.NotRecord → event_of bytes.now ≡ None }
{
    let mut from = Reader::new(bytes);
    let event = Event::read_from(alloc, &mut from)?;
    if from.is_empty() {
        Ok(event)
    } else {
        Err(DecodeFault::NotRecord)
    }
}
