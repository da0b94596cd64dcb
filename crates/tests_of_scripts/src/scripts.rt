// Lines as they are read from a script in memory: what each says, and which texts are none.
ghost use Rattle.std.specs.Prelude.{◌≤◌};

use gt_script::{Line, SCRIPT_LIMIT, ScriptFault, read_script_line};
use gt_setup::Setup;
use gt_streams::{MemSource, Source, read_exactly};
use gt_values::Text;
use std::alloc::{AllocError, Global};
use std::test::Fail;

const SETUP: &[u8] = b"namespace = 7
[[identity]]
id = \"00000000-0000-4000-8000-0000000000a1\"
name = \"ann\"
tokens = [\"ba7816bf8f01cfea414140de5dae2223b00361a396177a9cb410ff61f20015ad\"]
groups = []
[[collection]]
id = \"00000000-0000-4000-8000-0000000000c0\"
name = \"Lab\"
owner = \"00000000-0000-4000-8000-0000000000a1\"
home = \"/home/ann\"
";

fn source(alloc: Global, text: &[u8], piece: u32, fails: &[u64]) -> Result<MemSource, AllocError>
    requires { 1 ≤ piece }
{
    Ok(MemSource::new(text.to_vec(alloc)?, piece, fails.to_vec(alloc)?))
}

// The next line of a script that isn't at its limit.
fn next_line(
    alloc: Global,
    setup: &Setup,
    script: &mut MemSource,
    taken: &mut u64,
) -> Result<Result<Line, ScriptFault>, Fail> {
    if *taken >= SCRIPT_LIMIT {
        return Err(Fail::from("the script is at its limit"));
    }
    Ok(read_script_line(alloc, script, setup, 3, taken, false))
}

// The first line of a text, where so many bytes were taken before.
fn line_at(
    alloc: Global,
    setup: &Setup,
    text: &[u8],
    before: u64,
) -> Result<Result<Line, ScriptFault>, Fail> {
    let mut script = source(alloc, text, 7, &[])?;
    let mut taken = before;
    next_line(alloc, setup, &mut script, &mut taken)
}

fn is_refused(read: &Result<Line, ScriptFault>) -> bool {
    matches!(read, Err(ScriptFault::Refused { line: 3 }))
}

// A line with no request.
#[derive(Clone, Copy)]
enum Plain {
    End,
    Now(u64),
    Restart,
}

fn is_plain(read: &Result<Line, ScriptFault>, wanted: Plain) -> bool {
    match (read, wanted) {
        (Ok(line), Plain::End) => line.is_end(),
        (Ok(Line::Now(moment)), Plain::Now(seconds)) => moment.seconds() == seconds,
        (Ok(Line::Restart), Plain::Restart) => true,
        _ => false,
    }
}

// Each line, and how many bytes are taken through it.
const ONE_BY_ONE: [(Plain, u64); 3] = [
    (Plain::Now(253_402_300_799), 17),
    (Plain::Restart, 25),
    (Plain::End, 29),
];

#[test]
fn lines_are_read_one_by_one(rt: HostRuntime) -> Result<(), Fail> {
    let alloc = rt.alloc();
    let setup = Setup::read(alloc, SETUP)?;
    let mut script = source(alloc, b"now 253402300799\nrestart\nend\nend\n", 7, &[])?;
    let mut taken = 0;
    for (wanted, through) in ONE_BY_ONE {
        let read = next_line(alloc, &setup, &mut script, &mut taken)?;
        assert!(rt; is_plain(&read, wanted) && taken == through, "{through}");
    }
    // Nothing behind the last line was taken.
    let mut rest = Vec::new(alloc);
    read_exactly(&mut script, 4, &mut rest)?;
    assert!(rt; rest.as_slice() == b"end\n".as_slice());
    Ok(())
}

// The text of a request, and what it says.
#[derive(Clone, Copy)]
struct Sent {
    text: &'static [u8],
    token: Option<&'static str>,
    method: &'static str,
    target: &'static str,
    body: &'static [u8],
}

const REQUESTS: [Sent; 6] = [
    Sent {
        text: b"send abc PUT /nothing?x=1 3\n{}x\n",
        token: Some("abc"),
        method: "PUT",
        target: "/nothing?x=1",
        body: b"{}x",
    },
    Sent {
        text: b"send - GET /v0.10/submission_id 0\n\n",
        token: None,
        method: "GET",
        target: "/v0.10/submission_id",
        body: b"",
    },
    Sent {
        text: b"send -- - - 1\n-\n",
        token: Some("--"),
        method: "-",
        target: "-",
        body: b"-",
    },
    Sent {
        text: b"send a b c 4\n\n\0\xff \n",
        token: Some("a"),
        method: "b",
        target: "c",
        body: b"\n\0\xff ",
    },
    Sent {
        text: b"send send now end 10\nend\nnow 5\n\n",
        token: Some("send"),
        method: "now",
        target: "end",
        body: b"end\nnow 5\n",
    },
    Sent {
        text: b"send \"~\" get %%# 1\n\n\n",
        token: Some("\"~\""),
        method: "get",
        target: "%%#",
        body: b"\n",
    },
];

// Whether the line is the request of this row.
fn is_sent(read: &Result<Line, ScriptFault>, sent: &Sent) -> bool {
    match read {
        Ok(
            Line::Send {
                token,
                method,
                target,
                body,
            },
        ) => {
            is_token(token.as_ref(), sent.token)
                && method.as_str() == sent.method
                && target.as_str() == sent.target
                && body.as_slice() == sent.body
        }
        _ => false,
    }
}

fn is_token(token: Option<&Text>, wanted: Option<&str>) -> bool {
    match (token, wanted) {
        (Some(token), Some(wanted)) => token.as_str() == wanted,
        (None, None) => true,
        _ => false,
    }
}

#[test]
fn requests_are_taken_as_they_stand(rt: HostRuntime) -> Result<(), Fail> {
    let alloc = rt.alloc();
    let setup = Setup::read(alloc, SETUP)?;
    for sent in REQUESTS {
        let read = line_at(alloc, &setup, sent.text, 0)?;
        assert!(rt; is_sent(&read, &sent), "{}", sent.target);
    }
    Ok(())
}

const NO_LINES: [&[u8]; 83] = [
    // Lines with one word.
    b"",
    b"e",
    b"end",
    b"\n",
    b"end \n",
    b" end\n",
    b"End\n",
    b"end\r\n",
    b"restart",
    b"restart \n",
    b"restart 1\n",
    b" restart\n",
    b"Restart\n",
    b"restart\r\n",
    b"end\xff\n",
    // A moment.
    b"now\n",
    b"now \n",
    b"now  5\n",
    b"now 5 \n",
    b"now 05\n",
    b"now -1\n",
    b"now +1\n",
    b"now 253402300800\n",
    b"now 18446744073709551616\n",
    b"now 5",
    // A word of a request is missing.
    b"send\n\n",
    b"send \n\n",
    b"send abc\n\n",
    b"send abc GET\n\n",
    b"send abc GET /\n\n",
    b"send abc GET / \n\n",
    b"send abc GET 0\n\n",
    b"send GET / 0\n\n",
    // One too many, or one that is empty.
    b"send abc GET / x 0\n\n",
    b"send abc GET / 0 x\n\n",
    b"send abc GET / 0 \n\n",
    b" send abc GET / 0\n\n",
    b"send  abc GET / 0\n\n",
    b"send abc  GET / 0\n\n",
    b"send abc GET  / 0\n\n",
    b"send abc GET /  0\n\n",
    b"send  GET / 0\n\n",
    b"send abc  / 0\n\n",
    b"send abc GET  0\n\n",
    // The first word is another.
    b"Send abc GET / 0\n\n",
    b"sendabc GET / 0\n\n",
    b"send\tabc GET / 0\n\n",
    // A byte of a word isn't printable ASCII.
    b"send \0 GET / 0\n\n",
    b"send ab\t GET / 0\n\n",
    b"send ab\x7f GET / 0\n\n",
    b"send ab\x80 GET / 0\n\n",
    b"send ab\xc3\xa9 GET / 0\n\n",
    b"send abc \0 / 0\n\n",
    b"send abc GE\x1f / 0\n\n",
    b"send abc GE\x7f / 0\n\n",
    b"send abc GE\xff / 0\n\n",
    b"send abc GE\xc3\xa9 / 0\n\n",
    b"send abc GET \0 0\n\n",
    b"send abc GET /\r 0\n\n",
    b"send abc GET /\x7f 0\n\n",
    b"send abc GET /\xff 0\n\n",
    b"send abc GET /\xc3\xa9 0\n\n",
    // A number.
    b"send abc GET / 0\r\n\n",
    b"send abc GET / 00\n\n",
    b"send abc GET / 01\nx\n",
    b"send abc GET / +0\n\n",
    b"send abc GET / +1\nx\n",
    b"send abc GET / -0\n\n",
    b"send abc GET / -1\n\n",
    b"send abc GET / x\n\n",
    b"send abc GET / 0x1\nx\n",
    b"send abc GET / 1.0\nx\n",
    b"send abc GET / 8388609\n\n",
    b"send abc GET / 18446744073709551616\n\n",
    // A body that is shorter or longer than its number says, or without a newline behind it.
    b"send abc GET / 0",
    b"send abc GET / 0\n",
    b"send abc GET / 0\nx",
    b"send abc GET / 0\nend\n",
    b"send abc GET / 1\n\n",
    b"send abc GET / 1\n\nend\n",
    b"send abc GET / 2\nx\n",
    b"send abc GET / 2\nxyz\n",
    b"send abc GET / 2\nxy",
];

#[test]
fn other_texts_are_refused(rt: HostRuntime) -> Result<(), Fail> {
    let alloc = rt.alloc();
    let setup = Setup::read(alloc, SETUP)?;
    for (row, text) in NO_LINES.iter().enumerate() {
        let read = line_at(alloc, &setup, text, 0)?;
        assert!(rt; is_refused(&read), "{row}");
    }
    Ok(())
}

const LAST_LINES: [(&[u8], u64); 4] = [
    (b"end\n", 67_108_860),
    (b"now 5\n", 67_108_858),
    (b"restart\n", 67_108_856),
    (b"send abc GET /v0.10/submission_id 1\nx\n", 67_108_826),
];

#[test]
fn line_ends_within_the_limit_of_a_script(rt: HostRuntime) -> Result<(), Fail> {
    let alloc = rt.alloc();
    let setup = Setup::read(alloc, SETUP)?;
    for (text, before) in LAST_LINES {
        let read = line_at(alloc, &setup, text, before)?;
        assert!(rt; read.is_ok(), "{before}");
        let late = line_at(alloc, &setup, text, before.saturating_add(1))?;
        assert!(rt; is_refused(&late), "{before}");
    }
    Ok(())
}

#[test]
fn failing_source_is_told(rt: HostRuntime) -> Result<(), Fail> {
    let alloc = rt.alloc();
    let setup = Setup::read(alloc, SETUP)?;
    let text = b"send abc GET /v0.10/submission_id 1\nx\n";
    // A command line of 36 bytes with its newline comes byte by byte, and a body at once.
    for call in 1..38u64 {
        let mut script = source(alloc, text, 4096, &[call])?;
        let mut taken = 0;
        let read = next_line(alloc, &setup, &mut script, &mut taken)?;
        assert!(rt; matches!(&read, Err(ScriptFault::SourceFault)));
        assert_eq!(rt; script.faults(), 1);
    }
    Ok(())
}
