ghost use Rattle.gt_records.specs.RecordText.{record_text};
ghost use Rattle.gt_types.specs.Event.{is_recordable, recordable_collections};
ghost use Rattle.std.specs.Prelude.{◌≡◌, ◌++◌, IfOk, IsTrue, OnErr, OnOk};

use crate::field::Field;
use gt_types::Event;
use std::alloc::{AllocError, Global};

/// The text of the event.
///
/// The caller knows that the event is within the forms and limits of records.
pub fn encode(alloc: Global, event: &Event) -> Result<Vec<u8>, AllocError>
    requires { IsTrue (is_recordable recordable_collections event.now) }
    ensures { IfOk result (λ bytes. bytes.items ≡ record_text event.now) }
{
    let mut text = Vec::new(alloc);
    encode_into(event, &mut text)?;
    Ok(text)
}

/// Appends the text of the event to a buffer. The buffer is as before where there was no memory.
pub fn encode_into(event: &Event, into: &mut Vec<u8>) -> Result<(), AllocError>
    requires { IsTrue (is_recordable recordable_collections event.now) }
    ensures ok { OnOk result (into.new.items ≡ into.old.items ++ record_text event.now) }
    ensures err { OnErr result (into.new.items ≡ into.old.items) }
{
    let len = into.len();
    let written = event.write_to(into);
    if written.is_err() {
        into.truncate(len);
    }
    written
}
