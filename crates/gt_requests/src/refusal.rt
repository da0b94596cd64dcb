ghost use Rattle.gt_requests.specs.Outcome.{IsTold};
ghost use Rattle.gt_requests.specs.Request.{told};
ghost use Rattle.std.specs.Prelude.{◌≡◌, IfOk, IsOk};

use crate::fault::RequestFault;
use gt_documents::{DocumentFault, Place};
use gt_types::ReplyCode;
use gt_values::Text;
use std::alloc::{AllocError, Global};

/// A refusal: a code alone, or the bad request whose query or document is bad at this place.
#[derive(Debug, Drop)]
pub(crate) enum Refusal {
    Plain(ReplyCode),
    Bad(Place),
}

/// Why a request has no command: a refusal, or want of memory.
#[derive(Debug, Drop)]
pub(crate) enum ReadFault {
    Refusal(Refusal),
    OutOfMemory,
}

impl ReadFault {
    /// The fault as callers see it, with the text of its place.
    pub(crate) fn told(self, alloc: Global) -> RequestFault
        ensures { IsTold self result }
    {
        match self {
            ReadFault::Refusal(Refusal::Plain(code)) => RequestFault::Refused {
                code,
                place: Text::from_string(String::new(alloc)),
            },
            ReadFault::Refusal(Refusal::Bad(place)) => bad_request(alloc, &place),
            ReadFault::OutOfMemory => RequestFault::OutOfMemory,
        }
    }
}

// The refusal of what is bad at this place.
fn bad_request(alloc: Global, place: &Place) -> RequestFault
    ensures { IsTold (ReadFault.Refusal (Refusal.Bad place.now)) result }
{
    match place.text(alloc) {
        Ok(place) => RequestFault::Refused {
            code: ReplyCode::BadRequest,
            place,
        },
        Err(_) => RequestFault::OutOfMemory,
    }
}

impl From<Refusal> for ReadFault {
    ghost use Rattle.gt_requests.specs.declared.refusal.ReadFault.TheVariants as fault;
    ghost use Rattle.std.specs.Prelude.{◌≡◌};

    ghost from_gives = { λ refusal f. f ≡ fault.Refusal refusal };

    fn from(refusal: Refusal) -> ReadFault {
        ReadFault::Refusal(refusal)
    }
}

impl From<Place> for ReadFault {
    ghost use Rattle.gt_requests.specs.declared.refusal.ReadFault.TheVariants as fault;
    ghost use Rattle.gt_requests.specs.declared.refusal.Refusal.TheVariants.{Bad};
    ghost use Rattle.std.specs.Prelude.{◌≡◌};

    ghost from_gives = { λ place f. f ≡ fault.Refusal (Bad place) };

    fn from(place: Place) -> ReadFault {
        ReadFault::Refusal(Refusal::Bad(place))
    }
}

impl From<DocumentFault> for ReadFault {
    ghost use Rattle.gt_requests.specs.Outcome.{read_fault};
    ghost use Rattle.std.specs.Prelude.{◌≡◌};

    ghost from_gives = { λ fault f. f ≡ read_fault fault };

    fn from(fault: DocumentFault) -> ReadFault {
        match fault {
            DocumentFault::Bad(place) => ReadFault::Refusal(Refusal::Bad(place)),
            DocumentFault::OutOfMemory => ReadFault::OutOfMemory,
        }
    }
}

impl From<AllocError> for ReadFault {
    ghost use Rattle.gt_requests.specs.declared.refusal.ReadFault.TheVariants.{OutOfMemory};
    ghost use Rattle.std.specs.Prelude.{◌≡◌};

    ghost from_gives = { λ _ fault. fault ≡ OutOfMemory };

    fn from(_: AllocError) -> ReadFault {
        ReadFault::OutOfMemory
    }
}
