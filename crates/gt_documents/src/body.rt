ghost use Rattle.gt_documents.specs.Members.{object_at, object_of, value_of};
ghost use Rattle.gt_documents.specs.Reading.{ReadsWith};
ghost use Rattle.serde_json.specs.View.{view};
ghost use Rattle.std.specs.Prelude.{◌≡◌, IfOk, option_map};

use crate::fault::DocumentFault;
use crate::place::Place;
use serde_json::Value;
use std::alloc::{AllocError, Global};

/// The object that a body is: JSON in UTF-8, nested at most 127 deep. Of a member that stands twice the last counts.
pub fn object_in(alloc: Global, body: &[u8]) -> Result<Value, DocumentFault>
    ensures { ReadsWith view (object_of body.now) result }
{
    let Some(value) = parse(alloc, body)? else {
        return Err(DocumentFault::Bad(Place::whole()));
    };
    is_object(&value)?;
    Ok(value)
}

/// Tests that a value is an object; otherwise the whole of it is bad.
#[tactic(auto, unfolding(crate::specs::Members::object_at))]
pub fn is_object(value: &Value) -> Result<(), Place>
    ensures { result ≡ object_at (view value.now) }
{
    if value.is_object() {
        Ok(())
    } else {
        Err(Place::whole())
    }
}

// The value that a body is, if it is a JSON text.
fn parse(alloc: Global, body: &[u8]) -> Result<Option<Value>, AllocError>
    ensures { IfOk result (λ value. option_map view value ≡ value_of body.now) }
{
    match Value::from_slice(alloc, body) {
        Ok(value) => Ok(Some(value)),
        Err(error) => {
            if error.is_memory() {
                Err(AllocError)
            } else {
                Ok(None)
            }
        }
    }
}
