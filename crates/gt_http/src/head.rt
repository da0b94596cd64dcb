ghost use Rattle.gt_causes.specs.Causes.{HasFailed};
ghost use Rattle.gt_http.specs.Head.{most_fields};
ghost use Rattle.gt_http.specs.Reading.{IsHeadAt, IsNext, ReadsHead};
ghost use Rattle.gt_streams.specs.Streams.{IsSameSource};
ghost use Rattle.httparse.specs.Grammar.{HasNoRequest, MayBecomeRequest};
ghost use Rattle.httparse.specs.Spans.{RequestExceeds, RequestOverflows};
ghost use Rattle.std.specs.Prelude.{IfOk, IfSome, IsErrOf, IsFalse, IsTrue, length, ◌≡◌};

use crate::HttpFault;
use crate::place::{Place, field_lines};
use gt_causes::Failed;
use gt_streams::Source;
use httparse::Status;
use httparse::spans::{HeaderSpan, RequestSpans, parse_request};
use std::alloc::Global;

/// The bytes of a head, at most.
const MOST_HEAD_BYTES: usize = 16_384;

/// The fields of a head, at most.
pub(crate) const MOST_FIELDS: usize = 64;

/// A head, with the places of its parts.
#[derive(Drop)]
pub(crate) struct Head {
    pub(crate) bytes: Vec<u8>,
    pub(crate) spans: RequestSpans,
}

// What one byte of a source is.
enum Next {
    Byte(u8),
    End,
    Fault,
}

/// The head at the front of the source, or none where there is no byte. It takes the head's bytes alone. `headers` gets the
/// places of its fields.
pub(crate) fn read_head<S: Source>(
    alloc: Global,
    source: &mut S,
    headers: &mut [HeaderSpan],
) -> Result<Option<Head>, HttpFault>
    requires room { length headers.old ≡ most_fields }
    ensures same { IsSameSource S.words source.old source.new }
    ensures cause { IsErrOf result HttpFault.ReadFault
        → HasFailed S.words.faults source.old source.new }
    ensures ok { IfOk result (λ found. IfSome found (λ head.
        IsHeadAt head.bytes.items headers.new head.spans)) }
    ensures told { IsTrue (S.words.told source.old)
        → ReadsHead (S.words.left source.old) result (S.words.left source.new) }
{
    let Ok(mut bytes) = Vec::with_capacity(alloc, MOST_HEAD_BYTES) else {
        return Err(HttpFault::OutOfMemory);
    };
    let mut place = Place::Blank;
    'head: while bytes.len() < MOST_HEAD_BYTES {
        let byte = match read_byte(source) {
            Next::Byte(byte) => byte,
            Next::End => {
                let taken = bytes.as_slice();
                if taken.is_empty() {
                    return Ok(None);
                }
                if !is_open(taken, headers) {
                    return Err(HttpFault::BadHead);
                }
                let have = taken.len() as u64;
                return Err(HttpFault::Cut { have, want: 0 });
            }
            Next::Fault => return Err(HttpFault::ReadFault),
        };
        bytes.push_reserved(byte);
        if place.is_due(byte, bytes.as_slice()) {
            match parse_request(bytes.as_slice(), headers) {
                Ok(Status::Complete(spans)) => return Ok(Some(Head { bytes, spans })),
                Ok(Status::Partial) => {}
                Err(_) => return Err(HttpFault::BadHead),
            }
        }
        let next = place.after(byte);
        place = next;
    }
    Err(HttpFault::BadHead)
}

fn read_byte<S: Source>(source: &mut S) -> Next
    ensures same { IsSameSource S.words source.old source.new }
    ensures cause { result ≡ Next.Fault → HasFailed S.words.faults source.old source.new }
    ensures told { IsTrue (S.words.told source.old)
        → IsNext (S.words.left source.old) result (S.words.left source.new) }
{
    let mut byte = [0];
    match source.read(&mut byte) {
        Ok(0) => Next::End,
        Ok(_) => Next::Byte(byte[0]),
        Err(Failed) => Next::Fault,
    }
}

// Whether bytes can follow these, which have no head, that make them one. `httparse` doesn't say that it counts the lines
// of fields that are whole before it asks for more bytes.
fn is_open(bytes: &[u8], headers: &mut [HeaderSpan]) -> bool
    requires room { length headers.old ≡ most_fields }
    requires none { HasNoRequest bytes.now }
    ensures ok { IsTrue result → MayBecomeRequest bytes.now }
    ensures few { IsTrue result → ¬ (RequestExceeds most_fields bytes.now) }
    ensures err { IsFalse result → RequestOverflows most_fields bytes.now }
{
    match parse_request(bytes, headers) {
        Ok(_) => field_lines(bytes) <= MOST_FIELDS,
        Err(_) => false,
    }
}
