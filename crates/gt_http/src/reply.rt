ghost use Rattle.gt_causes.specs.Causes.{HasFailed};
ghost use Rattle.gt_http.specs.ReplyText as spec;
ghost use Rattle.gt_http.specs.ReplyText.{HasReason, WritesReply, http_text};
ghost use Rattle.gt_streams.specs.Streams.{IsSameSink};
ghost use Rattle.std.specs.Prelude.{IfErr, IfOk, IsErr, IsErrOf, IsTrue, string_bytes, ◌++◌, ◌≡◌};

use crate::HttpWriteFault;
use gt_streams::{Sink, write_all};
use http::StatusCode;
use std::alloc::{AllocError, Global};

/// The longest body that is handed on in one piece with the head.
const ONE_PIECE: usize = 65_536;

// The reason that `http` gives the status.
#[tactic(auto, unfolding(crate::specs::ReplyText::reason_of, crate::specs::ReplyText::has_reason))]
fn reason_of(status: u16) -> &'static str
    requires { HasReason status }
    ensures { result.now ≡ spec.reason_of status }
{
    match StatusCode::from_u16(status) {
        Ok(code) => match code.canonical_reason() {
            Some(reason) => reason,
            None => unreachable!(),
        },
        Err(_) => unreachable!(),
    }
}

/// The head of a reply with so many bytes of body.
fn reply_head(alloc: Global, status: u16, count: usize) -> Result<String, AllocError>
    requires { HasReason status }
    ensures { IfOk result (λ t. string_bytes t ≡ spec.head_text status count) }
{
    let reason = reason_of(status);
    format!(in alloc;
        "HTTP/1.1 {status} {reason}\r\nContent-Length: {count}\r\nContent-Type: application/json\r\n\r\n"
    )
}

/// Writes a reply: its head, which says how long the body is and that it is JSON, and the body.
///
/// The status is one that has a reason. `OutOfMemory` comes before any byte is written. After `SinkFault` the sink has taken
/// a front of the reply, and not all of it. Up to 65,536 bytes of body are handed on in one piece with the head, so that no
/// network holds them back until the head is acknowledged; a longer body is not copied.
pub fn write_http<K: Sink>(
    alloc: Global,
    sink: &mut K,
    status: u16,
    body: &[u8],
) -> Result<(), HttpWriteFault>
    requires { HasReason status }
    ensures same { IsSameSink K.words sink.old sink.new }
    ensures cause { IsErrOf result HttpWriteFault.SinkFault
        → HasFailed K.words.faults sink.old sink.new }
    ensures err { IsErrOf result HttpWriteFault.OutOfMemory → sink.new ≡ sink.old }
    ensures told { IsTrue (K.words.told sink.old)
        → WritesReply (K.words.taken sink.old) (http_text status body.now) result
        (K.words.taken sink.new) }
{
    let Ok(head) = reply_head(alloc, status, body.len()) else {
        return Err(HttpWriteFault::OutOfMemory);
    };
    let mut text = head.into_bytes();
    if body.len() > ONE_PIECE {
        return write_both(sink, text.as_slice(), body);
    }
    if text.extend_from_slice(body).is_err() {
        return Err(HttpWriteFault::OutOfMemory);
    }
    write_both(sink, text.as_slice(), &[])
}

// Writes one text after the other.
fn write_both<K: Sink>(sink: &mut K, first: &[u8], second: &[u8]) -> Result<(), HttpWriteFault>
    ensures same { IsSameSink K.words sink.old sink.new }
    ensures cause { IsErr result → HasFailed K.words.faults sink.old sink.new }
    ensures fault { IfErr result (λ e. e ≡ HttpWriteFault.SinkFault) }
    ensures told { IsTrue (K.words.told sink.old)
        → WritesReply (K.words.taken sink.old) (first.now ++ second.now) result
        (K.words.taken sink.new) }
{
    if write_all(sink, first).is_err() {
        return Err(HttpWriteFault::SinkFault);
    }
    if write_all(sink, second).is_err() {
        return Err(HttpWriteFault::SinkFault);
    }
    Ok(())
}
