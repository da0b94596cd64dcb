ghost use Rattle.gt_http.specs.ReplyText.{HasReason};
ghost use Rattle.std.specs.Prelude.{◌≤◌};

use crate::{HttpFault, read_http, write_http};
use gt_requests::Incoming;
use gt_streams::{MemSink, MemSource, Sink, Source, read_exactly};
use std::alloc::{AllocError, Global};
use std::test::Fail;

const REQUEST: &[u8] =
    b"GET /v0.10/submission_id HTTP/1.1\r\nHost: h\r\nAuthorization: Bearer abc\r\n\r\n";

const BODY: &[u8] =
    b"{\"DATA_TYPE\":\"submission_id\",\"value\":\"00000007-0001-8000-8000-000000000001\"}";

const REPLY: &[u8] =
    b"HTTP/1.1 200 OK\r\nContent-Length: 76\r\nContent-Type: application/json\r\n\r\n{\"DATA_TYPE\":\"submission_id\",\"value\":\"00000007-0001-8000-8000-000000000001\"}";

const LARGE: &[u8] = b"POST / HTTP/1.1\r\nContent-Length: 4194305\r\n\r\nabc";

const REFUSAL: &[u8] =
    b"{\"DATA_TYPE\":\"error\",\"code\":\"TooLarge\",\"message\":\"The body is too large.\"}";

const REFUSED: &[u8] =
    b"HTTP/1.1 413 Payload Too Large\r\nContent-Length: 74\r\nContent-Type: application/json\r\n\r\n{\"DATA_TYPE\":\"error\",\"code\":\"TooLarge\",\"message\":\"The body is too large.\"}";

// The head of a reply with a body of 65,537 bytes.
const LONG_HEAD: &[u8] =
    b"HTTP/1.1 200 OK\r\nContent-Length: 65537\r\nContent-Type: application/json\r\n\r\n";

// A message with a head of 38 bytes and a body of 5.
const MESSAGE: &[u8] = b"PUT /a HTTP/1.1\r\nContent-Length: 5\r\n\r\nabcde";

const HEAD_BYTES: usize = 38;

const TWO: &[u8] = b"PUT /a HTTP/1.1\r\nContent-Length: 2\r\n\r\nabGET / HTTP/1.0\r\n\r\nrest";

// What a message says; `-` for no token.
#[derive(Clone, Copy)]
struct Said {
    method: &'static str,
    target: &'static str,
    token: &'static str,
    body: &'static str,
    close: bool,
}

// What a read is to answer.
#[derive(Clone, Copy)]
enum Want {
    End,
    Message(Said),
    Cut(u64, u64),
    // A head that is bad, or cut after so many bytes.
    BadOrCut(u64),
    Fault(HttpFault),
}

// A GET of `/` that says no more.
const GET: Said = Said {
    method: "GET",
    target: "/",
    token: "-",
    body: "",
    close: false,
};

// A PUT of `/a` with the body `abc`.
const PUT: Said = Said {
    method: "PUT",
    target: "/a",
    token: "-",
    body: "abc",
    close: false,
};

const PLAIN: Want = Want::Message(GET);

const ASKED: Want = Want::Message(Said {
    target: "/v0.10/submission_id",
    token: "abc",
    ..GET
});

const SHORT: Want = Want::Message(Said { body: "ab", ..PUT });

const CLOSING: Want = Want::Message(Said { close: true, ..GET });

const ABC: Want = Want::Message(Said {
    token: "abc",
    ..GET
});

const BAD: Want = Want::Fault(HttpFault::BadHead);

// Heads by the fields that say whether the connection is to be closed, and by their version.
const CLOSES: [(&str, Want); 10] = [
    ("GET / HTTP/1.1\r\n\r\n", PLAIN),
    ("GET / HTTP/1.1\n\n", PLAIN),
    ("GET / HTTP/1.0\r\n\r\n", CLOSING),
    ("GET / HTTP/1.1\r\nConnection: close\r\n\r\n", CLOSING),
    ("GET / HTTP/1.1\r\ncONNECTION:\t CLOSE \r\n\r\n", CLOSING),
    (
        "GET / HTTP/1.1\r\nConnection: keep-alive\r\nConnection: Close\r\n\r\n",
        CLOSING,
    ),
    (
        "GET / HTTP/1.1\r\nConnection: a\r\nConnection: b\r\nConnection: close\r\n\r\n",
        CLOSING,
    ),
    ("GET / HTTP/1.1\r\nConnection: close, x\r\n\r\n", PLAIN),
    ("GET / HTTP/1.1\r\nConnection:\r\n\r\n", PLAIN),
    ("GET / HTTP/1.1\r\nExpect: 100-continue\r\n\r\n", PLAIN),
];

const TOKENS: [(&str, Want); 8] = [
    ("GET / HTTP/1.1\r\nauthorization:  Bearer abc \r\n\r\n", ABC),
    ("GET / HTTP/1.1\r\nAuthorization: bearer abc\r\n\r\n", PLAIN),
    ("GET / HTTP/1.1\r\nAuthorization: Basic abc\r\n\r\n", PLAIN),
    ("GET / HTTP/1.1\r\nAuthorization: Bearer \r\n\r\n", PLAIN),
    ("GET / HTTP/1.1\r\nAuthorization:\r\n\r\n", PLAIN),
    (
        "GET / HTTP/1.1\r\nAuthorization: Bearer abc\r\nAuthorization: Bearer abc\r\n\r\n",
        BAD,
    ),
    (
        "GET / HTTP/1.1\r\nAuthorization: a\r\nHost: h\r\nAUTHORIZATION: b\r\n\r\n",
        BAD,
    ),
    (
        "GET / HTTP/1.1\r\nAuthorization: a\r\nAuthorization: b\r\n",
        Want::Cut(52, 0),
    ),
];

const LENGTHS: [(&str, Want); 18] = [
    (
        "PUT /a HTTP/1.1\r\nContent-Length: 3\r\n\r\nabcd",
        Want::Message(PUT),
    ),
    (
        "PUT /a HTTP/1.1\r\nCONTENT-length:3 \r\n\r\nabcd",
        Want::Message(PUT),
    ),
    (
        "PUT /a HTTP/1.1\r\nContent-Length: 0003\r\n\r\nabcd",
        Want::Message(PUT),
    ),
    (
        "PUT /a HTTP/1.1\r\nContent-Length: 0000000000000000003\r\n\r\nabc",
        Want::Message(PUT),
    ),
    (
        "PUT /a HTTP/1.1\r\nContent-Length: 00000000000000000003\r\n\r\nabc",
        BAD,
    ),
    ("PUT /a HTTP/1.1\r\nContent-Length: +3\r\n\r\nabc", BAD),
    ("PUT /a HTTP/1.1\r\nContent-Length: -3\r\n\r\nabc", BAD),
    ("PUT /a HTTP/1.1\r\nContent-Length: 3 3\r\n\r\nabc", BAD),
    ("PUT /a HTTP/1.1\r\nContent-Length:\r\n\r\nabc", BAD),
    (
        "PUT /a HTTP/1.1\r\nContent-Length: +3\r\n",
        Want::Cut(37, 0),
    ),
    (
        "PUT /a HTTP/1.1\r\nContent-Length: 0007\r\n\r\nabc",
        Want::Cut(3, 7),
    ),
    (
        "PUT /a HTTP/1.1\r\nContent-Length: 3\r\nContent-Length: 3\r\n\r\nabc",
        BAD,
    ),
    (
        "PUT /a HTTP/1.1\r\nContent-Length: 3\r\nContent-Length: 3\r\n",
        Want::Cut(55, 0),
    ),
    (
        "PUT /a HTTP/1.1\r\nContent-Length: 4194304\r\n\r\nab",
        Want::Cut(2, 4_194_304),
    ),
    (
        "PUT /a HTTP/1.1\r\nContent-Length: 4194305\r\n\r\nab",
        Want::Fault(HttpFault::TooLarge { length: 4_194_305 }),
    ),
    (
        "PUT /a HTTP/1.1\r\nContent-Length: 9999999999999999999\r\n\r\nab",
        Want::Fault(HttpFault::TooLarge {
            length: 9_999_999_999_999_999_999,
        }),
    ),
    (
        "PUT /a HTTP/1.1\r\nContent-Length: 4194305\r\nTransfer-Encoding: chunked\r\n\r\n",
        BAD,
    ),
    (
        "PUT /a HTTP/1.1\r\nTransfer-Encoding: chunked\r\n",
        Want::Cut(45, 0),
    ),
];

// What stands before a head, and bytes that no head begins with.
const FRONTS: [(&str, Want); 16] = [
    ("", Want::End),
    ("\r\n\nGET / HTTP/1.1\r\n\r\n", PLAIN),
    ("\r\n\n\r\n", Want::Cut(5, 0)),
    ("\r", Want::Cut(1, 0)),
    ("\rGET / HTTP/1.1\r\n\r\n", BAD),
    (" GET / HTTP/1.1\r\n\r\n", BAD),
    ("\u{16}\u{3}\u{1}", BAD),
    ("GET", Want::Cut(3, 0)),
    ("GET\r\n", BAD),
    ("GET / HTTP/2.0\r\n", BAD),
    ("GET / HTTP/1.1", Want::Cut(14, 0)),
    ("GET / HTTP/1.1\r\nHost: h", Want::Cut(23, 0)),
    ("GET / HTTP/1.1\r\nHost h\r\n\r\n", BAD),
    ("GET / HTTP/1.1\r\n a: b\r\n\r\n", BAD),
    ("GET / HTTP/1.1\r\na b: c\r\n\r\n", BAD),
    ("GET / HTTP/1.1\r\na: b\r\n c: d\r\n\r\n", BAD),
];

impl Said {
    // Whether the message says so.
    fn is_of(self, incoming: &Incoming) -> bool {
        let token = match &incoming.token {
            Some(token) => token.as_str(),
            None => "-",
        };
        incoming.method.as_str() == self.method
            && incoming.target.as_str() == self.target
            && token == self.token
            && incoming.body.as_slice() == self.body.as_bytes()
            && incoming.close == self.close
    }
}

// Whether the answer is the one wanted.
fn is_wanted(answer: Result<Option<Incoming>, HttpFault>, want: Want) -> bool {
    match (answer, want) {
        (Ok(None), Want::End) => true,
        (Ok(Some(incoming)), Want::Message(said)) => said.is_of(&incoming),
        (Err(fault), Want::Cut(have, want)) => fault == HttpFault::Cut { have, want },
        (Err(fault), Want::BadOrCut(have)) => {
            fault == HttpFault::BadHead || fault == HttpFault::Cut { have, want: 0 }
        }
        (Err(fault), Want::Fault(wanted)) => fault == wanted,
        _ => false,
    }
}

fn source(alloc: Global, bytes: &[u8], piece: u32, fails: &[u64]) -> Result<MemSource, AllocError>
    requires { 1 ≤ piece }
{
    Ok(MemSource::new(bytes.to_vec(alloc)?, piece, fails.to_vec(alloc)?))
}

// Whether the first message of these bytes is the one wanted, in pieces of each size.
fn is_first(alloc: Global, bytes: &[u8], want: Want) -> Result<bool, AllocError> {
    let mut ones = source(alloc, bytes, 1, &[])?;
    let mut sevens = source(alloc, bytes, 7, &[])?;
    let mut whole = source(alloc, bytes, 4096, &[])?;
    Ok(
        is_wanted(read_http(alloc, &mut ones), want)
            && is_wanted(read_http(alloc, &mut sevens), want)
            && is_wanted(read_http(alloc, &mut whole), want),
    )
}

// The place of the first row whose bytes aren't read as wanted.
fn first_wrong(alloc: Global, rows: &[(&str, Want)]) -> Result<Option<usize>, AllocError> {
    for (place, (text, want)) in rows.iter().enumerate() {
        if !is_first(alloc, text.as_bytes(), *want)? {
            return Ok(Some(place));
        }
    }
    Ok(None)
}

// The front of a head, with so many fields.
fn fields(alloc: Global, count: usize) -> Result<Vec<u8>, AllocError> {
    let mut bytes = b"GET / HTTP/1.1\r\n".to_vec(alloc)?;
    for _ in 0..count {
        bytes.extend_from_slice(b"a:\r\n")?;
    }
    Ok(bytes)
}

// A head of so many fields.
fn head_of_fields(alloc: Global, count: usize) -> Result<Vec<u8>, AllocError> {
    let mut bytes = fields(alloc, count)?;
    bytes.extend_from_slice(b"\r\n")?;
    Ok(bytes)
}

// Whether the answer is the one wanted where the input ends in a field behind so many.
fn ends_behind(alloc: Global, count: usize, part: &[u8], want: Want) -> Result<bool, AllocError> {
    let mut bytes = fields(alloc, count)?;
    bytes.extend_from_slice(part)?;
    is_first(alloc, bytes.as_slice(), want)
}

// A head of 22 bytes and so many more, in the value of its one field.
fn head_of_value(alloc: Global, more: usize) -> Result<Vec<u8>, AllocError> {
    let mut bytes = b"GET / HTTP/1.1\r\na:".to_vec(alloc)?;
    bytes.extend_from_slice(vec![in alloc; b'x'; more]?.as_slice())?;
    bytes.extend_from_slice(b"\r\n\r\n")?;
    Ok(bytes)
}

// What came of a reply: how many bytes the sink took, and whether they are a front of the text.
#[derive(Clone, Copy)]
struct Written {
    taken: usize,
    is_front: bool,
    is_whole: bool,
    faults: u64,
}

impl Written {
    // Whether the text was written whole.
    fn is_all_of(self, text: &[u8]) -> bool {
        self.is_whole && self.is_front && self.taken == text.len() && self.faults == 0
    }

    // Whether the write failed after so many bytes of the text.
    fn is_cut_at(self, taken: usize) -> bool {
        !self.is_whole && self.is_front && self.taken == taken && self.faults == 1
    }
}

// Writes a reply in pieces of so many bytes, where the write of the number `fails` fails.
fn write(
    alloc: Global,
    status: u16,
    body: &[u8],
    text: &[u8],
    piece: u32,
    fails: u64,
) -> Result<Written, AllocError>
    requires reason { HasReason status }
    requires piece { 1 ≤ piece }
{
    let mut sink = MemSink::new(alloc, piece, vec![in alloc; fails]?);
    let is_whole = write_http(alloc, &mut sink, status, body).is_ok();
    Ok(Written {
        taken: sink.bytes().len(),
        is_front: text.starts_with(sink.bytes()),
        is_whole,
        faults: sink.faults(),
    })
}

#[tactic(auto, unfolding(crate::specs::ReplyText::has_reason))]
fn reply(alloc: Global, piece: u32, fails: u64) -> Result<Written, AllocError>
    requires { 1 ≤ piece }
{
    write(alloc, 200, BODY, REPLY, piece, fails)
}

#[tactic(auto, unfolding(crate::specs::ReplyText::has_reason))]
fn refusal(alloc: Global, piece: u32) -> Result<Written, AllocError>
    requires { 1 ≤ piece }
{
    write(alloc, 413, REFUSAL, REFUSED, piece, 0)
}

// Writes a reply with so many bytes of body, where the second write fails. Of its text only the head is compared.
#[tactic(auto, unfolding(crate::specs::ReplyText::has_reason))]
fn long_reply(alloc: Global, count: usize) -> Result<Written, AllocError> {
    let body = vec![in alloc; b'x'; count]?;
    write(alloc, 200, body.as_slice(), LONG_HEAD, 100_000, 2)
}

// The first end inside the message at which it isn't told as cut.
fn first_wrong_cut(alloc: Global) -> Result<Option<usize>, AllocError> {
    for end in 1..MESSAGE.len() {
        let want = if end < HEAD_BYTES {
            Want::Cut(end as u64, 0)
        } else {
            Want::Cut((end - HEAD_BYTES) as u64, 5)
        };
        if !is_first(alloc, &MESSAGE[..end], want)? {
            return Ok(Some(end));
        }
    }
    Ok(None)
}

// Whether a read of the message byte by byte fails where the read of this number does.
fn fails_at(alloc: Global, call: u64) -> Result<bool, AllocError> {
    let mut source = source(alloc, MESSAGE, 1, &[call])?;
    let answer = read_http(alloc, &mut source);
    Ok(is_wanted(answer, Want::Fault(HttpFault::ReadFault)) && source.faults() == 1)
}

// The first of the reads of the message that may fail unseen.
fn first_read_unseen(alloc: Global) -> Result<Option<u64>, AllocError> {
    for call in 1..MESSAGE.len() as u64 + 1 {
        if !fails_at(alloc, call)? {
            return Ok(Some(call));
        }
    }
    Ok(None)
}

// The first of the writes of the reply, of seven bytes each, behind which a fault isn't told.
fn first_write_unseen(alloc: Global) -> Result<Option<usize>, AllocError> {
    for done in 0..REPLY.len() / 7 {
        if !reply(alloc, 7, done as u64 + 1)?.is_cut_at(7 * done) {
            return Ok(Some(done));
        }
    }
    Ok(None)
}

// Whether two messages and the bytes behind them come one after the other.
fn comes_in_turn(alloc: Global, piece: u32) -> Result<bool, AllocError>
    requires { 1 ≤ piece }
{
    let mut source = source(alloc, TWO, piece, &[])?;
    let first = is_wanted(read_http(alloc, &mut source), SHORT);
    let second = is_wanted(read_http(alloc, &mut source), CLOSING);
    let mut rest = Vec::new(alloc);
    let third = read_exactly(&mut source, 4, &mut rest).is_ok();
    let end = is_wanted(read_http(alloc, &mut source), Want::End);
    Ok(first && second && third && end && rest.as_slice() == b"rest".as_slice())
}

#[test]
fn http_message_in_any_pieces(rt: HostRuntime) -> Result<(), Fail> {
    let alloc = rt.alloc();
    assert!(rt; is_first(alloc, REQUEST, ASKED)?);
    assert!(rt;
        is_first(
            alloc,
            LARGE,
            Want::Fault(HttpFault::TooLarge { length: 4_194_305 })
        )?
    );
    for piece in [1, 7, 4096] {
        assert!(rt; piece >= 1);
        assert!(rt; reply(alloc, piece, 0)?.is_all_of(REPLY));
        assert!(rt; refusal(alloc, piece)?.is_all_of(REFUSED));
    }
    Ok(())
}

#[test]
fn heads_by_their_lines(rt: HostRuntime) -> Result<(), Fail> {
    let alloc = rt.alloc();
    assert_eq!(rt; first_wrong(alloc, &CLOSES)?, None);
    assert_eq!(rt; first_wrong(alloc, &TOKENS)?, None);
    assert_eq!(rt; first_wrong(alloc, &LENGTHS)?, None);
    assert_eq!(rt; first_wrong(alloc, &FRONTS)?, None);
    Ok(())
}

#[test]
fn limits_of_a_head(rt: HostRuntime) -> Result<(), Fail> {
    let alloc = rt.alloc();
    assert!(rt; is_first(alloc, head_of_fields(alloc, 64)?.as_slice(), PLAIN)?);
    assert!(rt; is_first(alloc, head_of_fields(alloc, 65)?.as_slice(), BAD)?);
    assert!(rt; is_first(alloc, head_of_value(alloc, 16_362)?.as_slice(), PLAIN)?);
    assert!(rt; is_first(alloc, head_of_value(alloc, 16_363)?.as_slice(), BAD)?);
    let feeds = vec![in alloc; b'\n'; 16_384]?;
    assert!(rt; is_first(alloc, feeds.as_slice(), BAD)?);
    assert!(rt; is_first(alloc, &feeds.as_slice()[1..], Want::Cut(16_383, 0))?);
    Ok(())
}

// A field counts where its line is whole. In the 65th, and in a target that no bytes can mend, either answer may come.
#[test]
fn ends_of_input_in_a_head(rt: HostRuntime) -> Result<(), Fail> {
    let alloc = rt.alloc();
    assert!(rt; ends_behind(alloc, 64, b"", Want::Cut(272, 0))?);
    assert!(rt; ends_behind(alloc, 64, b"\r", Want::Cut(273, 0))?);
    assert!(rt; ends_behind(alloc, 64, b"a:", Want::BadOrCut(274))?);
    assert!(rt; ends_behind(alloc, 65, b"", BAD)?);
    assert!(rt; ends_behind(alloc, 65, b"a:", BAD)?);
    assert!(rt; is_first(alloc, b"GET /\xff", Want::BadOrCut(6))?);
    assert!(rt; is_first(alloc, b"GET /\xff HTTP/1.1\r\n", BAD)?);
    Ok(())
}

#[test]
fn token_that_is_no_text(rt: HostRuntime) -> Result<(), Fail> {
    let head = b"GET / HTTP/1.1\r\nAuthorization: Bearer \xff\r\n\r\n";
    assert!(rt; is_first(rt.alloc(), head, PLAIN)?);
    Ok(())
}

#[test]
fn bytes_behind_a_message_are_left(rt: HostRuntime) -> Result<(), Fail> {
    let alloc = rt.alloc();
    assert!(rt; comes_in_turn(alloc, 1)?);
    assert!(rt; comes_in_turn(alloc, 7)?);
    assert!(rt; comes_in_turn(alloc, 4096)?);
    Ok(())
}

#[test]
fn each_byte_as_the_end_of_input(rt: HostRuntime) -> Result<(), Fail> {
    assert_eq!(rt; first_wrong_cut(rt.alloc())?, None);
    Ok(())
}

#[test]
fn each_read_and_write_fails_once(rt: HostRuntime) -> Result<(), Fail> {
    let alloc = rt.alloc();
    assert_eq!(rt; first_read_unseen(alloc)?, None);
    assert_eq!(rt; first_write_unseen(alloc)?, None);
    Ok(())
}

// The second write fails, and with a body of up to 65,536 bytes there is none.
#[test]
fn long_body_is_written_behind_its_head(rt: HostRuntime) -> Result<(), Fail> {
    let alloc = rt.alloc();
    assert!(rt; long_reply(alloc, 65_537)?.is_cut_at(LONG_HEAD.len()));
    assert!(rt; long_reply(alloc, 65_536)?.is_whole);
    Ok(())
}
