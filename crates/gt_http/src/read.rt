ghost use Rattle.gt_causes.specs.Causes.{HasFailed};
ghost use Rattle.gt_http.specs.Reading.{IsHeadAt, ReadsBody};
ghost use Rattle.gt_http.specs.Refusal.{ReadsMessage};
ghost use Rattle.gt_streams.specs.Streams.{IsSameSource};
ghost use Rattle.std.specs.Prelude.{IsErrOf, IsTrue, ◌≡◌};

use crate::HttpFault;
use crate::framing::framing;
use crate::head::{Head, MOST_FIELDS, read_head};
use crate::parts::incoming;
use gt_requests::Incoming;
use gt_streams::{Source, StreamFault, read_exactly};
use httparse::spans::{EMPTY_HEADER_SPAN, HeaderSpan};
use std::alloc::Global;

/// The bytes of a body, at most.
const MOST_BODY_BYTES: u64 = 4_194_304;

/// The first message of the source, or none at the end of input before any byte.
///
/// It takes the bytes of that message and none behind them, in whatever pieces they come. Empty lines in front belong to the
/// head. `BadHead` comes before `TooLarge`, and that before `Cut`; of a body that is too large no byte is read. Room for the
/// head is found before its first byte, and room for the body as it comes.
pub fn read_http<S: Source>(alloc: Global, source: &mut S) -> Result<Option<Incoming>, HttpFault>
    ensures same { IsSameSource S.words source.old source.new }
    ensures cause { IsErrOf result HttpFault.ReadFault
        → HasFailed S.words.faults source.old source.new }
    ensures told { IsTrue (S.words.told source.old)
        → ReadsMessage (S.words.left source.old) result (S.words.left source.new) }
{
    let mut headers = [EMPTY_HEADER_SPAN; MOST_FIELDS];
    let found = read_head(alloc, source, &mut headers)?;
    match found {
        Some(head) => match read_body(alloc, source, &head, &headers) {
            Ok(incoming) => Ok(Some(incoming)),
            Err(fault) => Err(fault),
        },
        None => Ok(None),
    }
}

// The message that this head begins.
fn read_body<S: Source>(
    alloc: Global,
    source: &mut S,
    head: &Head,
    headers: &[HeaderSpan],
) -> Result<Incoming, HttpFault>
    requires { IsHeadAt head.now.bytes.items headers.now head.now.spans }
    ensures same { IsSameSource S.words source.old source.new }
    ensures cause { IsErrOf result HttpFault.ReadFault
        → HasFailed S.words.faults source.old source.new }
    ensures told { IsTrue (S.words.told source.old)
        → ReadsBody head.now.bytes.items (S.words.left source.old) result
        (S.words.left source.new) }
{
    let fields = &headers[..head.spans.headers];
    let Some(want) = framing(head.bytes.as_slice(), fields) else {
        return Err(HttpFault::BadHead);
    };
    if want > MOST_BODY_BYTES {
        return Err(HttpFault::TooLarge { length: want });
    }
    let mut body = Vec::new(alloc);
    match read_exactly(source, want, &mut body) {
        Ok(()) => match incoming(alloc, head, headers, body) {
            Ok(incoming) => Ok(incoming),
            Err(_) => Err(HttpFault::OutOfMemory),
        },
        Err(StreamFault::Cut { have, want }) => Err(HttpFault::Cut { have, want }),
        Err(StreamFault::ReadFault) => Err(HttpFault::ReadFault),
        Err(StreamFault::OutOfMemory) => Err(HttpFault::OutOfMemory),
        Err(StreamFault::TooLong { .. }) => unreachable!(),
    }
}
