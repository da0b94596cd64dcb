ghost use Rattle.gt_http.specs.Message.{incoming_of};
ghost use Rattle.gt_http.specs.Reading.{IsHeadAt};
ghost use Rattle.httparse.specs.Grammar.{RequestHead};
ghost use Rattle.httparse.specs.Spans.{IsRequestAt};
ghost use Rattle.std.specs.Prelude.{IfOk, IsUtf8, ◌≡◌};

use crate::framing::{close, token};
use crate::head::Head;
use gt_requests::Incoming;
use gt_values::{Bytes, Text};
use httparse::spans::HeaderSpan;
use std::alloc::{AllocError, Global};
use std::str;

/// What a head and a body say.
pub(crate) fn incoming(
    alloc: Global,
    head: &Head,
    headers: &[HeaderSpan],
    body: Vec<u8>,
) -> Result<Incoming, AllocError>
    requires { IsHeadAt head.now.bytes.items headers.now head.now.spans }
    ensures { (h : RequestHead) → IsRequestAt head.now.bytes.items headers.now head.now.spans h
        → IfOk result (λ incoming. incoming ≡ incoming_of h body.items) }
{
    let bytes = head.bytes.as_slice();
    let fields = &headers[..head.spans.headers];
    let method = text(alloc, head.spans.method.of(bytes))?;
    let target = text(alloc, head.spans.path.of(bytes))?;
    let token = match token(bytes, fields) {
        Some(token) => Some(Text::copy_of(alloc, token)?),
        None => None,
    };
    Ok(Incoming {
        method,
        target,
        token,
        body: Bytes::from_vec(body),
        close: close(bytes, fields, head.spans.version),
    })
}

fn text(alloc: Global, bytes: &[u8]) -> Result<Text, AllocError>
    requires { IsUtf8 bytes.now }
    ensures { IfOk result (λ text. text ≡ bytes.now) }
{
    match str::from_utf8(bytes) {
        Ok(text) => Text::copy_of(alloc, text),
        Err(_) => unreachable!(),
    }
}
