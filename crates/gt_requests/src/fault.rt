use gt_types::ReplyCode;
use gt_values::Text;
use thiserror::Error;

/// Why a request is not read.
#[derive(Debug, Drop, Error)]
pub enum RequestFault {
    /// The request is refused with this code. `place` says what is bad of a query (`query`) or a document (a member, as
    /// `DATA[3].source_path`, or `body`); of any other refusal it is empty.
    #[error("the request is refused")]
    Refused { code: ReplyCode, place: Text },
    /// There was no memory for the request.
    #[error("out of memory")]
    OutOfMemory,
}
