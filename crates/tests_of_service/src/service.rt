// Requests as they come in, over a desk on a disk in memory: the status and the bytes of each reply.
use gt_desk::Desk;
use gt_disk::MemDisk;
use gt_requests::Incoming;
use gt_service::serve_one;
use gt_setup::Setup;
use gt_values::{Bytes, Moment, Text};
use std::alloc::Global;
use std::test::Fail;

// Two identities, `ann` with the token `abc` and `bob` with `hello`, and three collections.
pub(crate) const SETUP: &[u8] = b"namespace = 7
[[identity]]
id = \"00000000-0000-4000-8000-0000000000a1\"
name = \"ann\"
tokens = [\"ba7816bf8f01cfea414140de5dae2223b00361a396177a9cb410ff61f20015ad\"]
groups = []
[[identity]]
id = \"00000000-0000-4000-8000-0000000000b2\"
name = \"bob\"
tokens = [\"2cf24dba5fb0a30e26e83b2ac5b9e29e1b161e5c1fa7425e73043362938b9824\"]
groups = []
[[collection]]
id = \"00000000-0000-4000-8000-0000000000c0\"
name = \"Lab\"
owner = \"00000000-0000-4000-8000-0000000000a1\"
home = \"/home/ann\"
[[collection]]
id = \"00000000-0000-4000-8000-0000000000c1\"
name = \"Store\"
owner = \"00000000-0000-4000-8000-0000000000a1\"
home = \"/\"
[[collection]]
id = \"00000000-0000-4000-8000-0000000000c2\"
name = \"Vault\"
owner = \"00000000-0000-4000-8000-0000000000b2\"
home = \"/\"
";

// A request with its token, `-` for none.
#[derive(Clone, Copy)]
pub(crate) struct Ask {
    pub(crate) token: &'static str,
    pub(crate) method: &'static str,
    pub(crate) target: &'static str,
    pub(crate) body: &'static str,
}

// A request, and the status and the bytes that it is answered.
type Row = (Ask, u16, &'static str);

pub(crate) const DOCUMENT: &str =
    r#"{"DATA":[{"DATA_TYPE":"transfer_item","destination_path":"/e","source_path":"/e"}],"DATA_TYPE":"transfer","destination_endpoint":"00000000-0000-4000-8000-0000000000c1","source_endpoint":"00000000-0000-4000-8000-0000000000c0","submission_id":"00000007-0001-8000-8000-000000000001"}"#;

pub(crate) const SUBMIT: Ask = Ask {
    token: "abc",
    method: "POST",
    target: "/v0.10/transfer",
    body: DOCUMENT,
};

const NO_ENTRIES: Ask = Ask {
    token: "abc",
    method: "POST",
    target: "/v0.10/transfer",
    body: r#"{"DATA":[],"DATA_TYPE":"transfer","destination_endpoint":"00000000-0000-4000-8000-0000000000c1","source_endpoint":"00000000-0000-4000-8000-0000000000c0","submission_id":"00000007-0001-8000-8000-000000000001"}"#,
};

const ADD: Ask = Ask {
    token: "abc",
    method: "POST",
    target: "/v0.10/endpoint/00000000-0000-4000-8000-0000000000c0/access",
    body: r#"{"DATA_TYPE":"access","path":"/a","permissions":"r","principal_type":"anonymous"}"#,
};

const ADD_AGAIN: Ask = Ask {
    token: "abc",
    method: "POST",
    target: "/v0.10/endpoint/00000000-0000-4000-8000-0000000000c0/access",
    body: r#"{"DATA_TYPE":"access","path":"/a/","permissions":"rw","principal_type":"anonymous"}"#,
};

const PUT_TRANSFER: Ask = Ask {
    token: "-",
    method: "PUT",
    target: "/v0.10/transfer",
    body: "",
};

const PUT_TASK: Ask = Ask {
    token: "abc",
    method: "PUT",
    target: "/v0.10/task/00000007-0002-8000-8000-000000000001",
    body: "",
};

const DELETE_TASK: Ask = Ask {
    token: "abc",
    method: "DELETE",
    target: "/v0.10/task/00000007-0002-8000-8000-000000000001",
    body: "",
};

const ACCEPTED: &str =
    r#"{"DATA_TYPE":"transfer_result","code":"Accepted","message":"The task was accepted.","submission_id":"00000007-0001-8000-8000-000000000001","task_id":"00000007-0002-8000-8000-000000000001"}"#;

const DUPLICATE: &str =
    r#"{"DATA_TYPE":"transfer_result","code":"Duplicate","message":"This submission was accepted before.","submission_id":"00000007-0001-8000-8000-000000000001","task_id":"00000007-0002-8000-8000-000000000001"}"#;

const NO_ROUTE: &str = r#"{"DATA_TYPE":"error","code":"NotFound","message":"No such resource."}"#;

const NO_METHOD: &str =
    r#"{"DATA_TYPE":"error","code":"MethodNotAllowed","message":"No such method here."}"#;

const NO_TOKEN: &str =
    r#"{"DATA_TYPE":"error","code":"AuthenticationFailed","message":"No valid token."}"#;

const NO_TASK: &str = r#"{"DATA_TYPE":"error","code":"TaskNotFound","message":"No such task."}"#;

const FAILED: &str =
    r#"{"DATA_TYPE":"error","code":"JournalFault","message":"The journal failed."}"#;

const TOO_LARGE: &str =
    r#"{"DATA_TYPE":"error","code":"TooLarge","message":"The body is too large."}"#;

const NO_DATA: &str =
    r#"{"DATA_TYPE":"error","code":"ClientError.BadRequest","message":"Bad document at DATA."}"#;

const FIRST_TASK: &str = "/v0.10/task/00000007-0002-8000-8000-000000000001";

const ON_REFUSALS: [Row; 13] = [
    (
        Ask {
            token: "-",
            method: "GET",
            target: "/v0.10/nothing",
            body: "",
        },
        404,
        NO_ROUTE,
    ),
    (PUT_TRANSFER, 405, NO_METHOD),
    (
        Ask {
            token: "-",
            method: "GET",
            target: "/v0.10/task_list",
            body: "",
        },
        401,
        NO_TOKEN,
    ),
    (
        Ask {
            token: "abd",
            method: "GET",
            target: "/v0.10/task_list?limit=0",
            body: "",
        },
        401,
        NO_TOKEN,
    ),
    (
        Ask {
            token: "abc",
            method: "GET",
            target: "/v0.10/task/x",
            body: "",
        },
        404,
        NO_TASK,
    ),
    (NO_ENTRIES, 400, NO_DATA),
    (SUBMIT, 202, ACCEPTED),
    (SUBMIT, 200, DUPLICATE),
    (
        Ask {
            token: "hello",
            method: "GET",
            target: FIRST_TASK,
            body: "",
        },
        404,
        NO_TASK,
    ),
    (PUT_TASK, 404, NO_ROUTE),
    (DELETE_TASK, 405, NO_METHOD),
    (
        Ask {
            token: "abc",
            method: "GET",
            target: "/v0.10/task_list?limit=0",
            body: "",
        },
        400,
        r#"{"DATA_TYPE":"error","code":"ClientError.BadRequest","message":"Bad document at query."}"#,
    ),
    (
        Ask {
            token: "hello",
            method: "GET",
            target: "/v0.10/endpoint/00000000-0000-4000-8000-0000000000c0?limit=0",
            body: "",
        },
        200,
        r#"{"DATA_TYPE":"endpoint","default_directory":"/home/ann/","display_name":"Lab","id":"00000000-0000-4000-8000-0000000000c0","owner_id":"00000000-0000-4000-8000-0000000000a1"}"#,
    ),
];

const ON_RULES: [Row; 5] = [
    (
        ADD,
        201,
        r#"{"DATA_TYPE":"access_create_result","access_id":"00000007-0003-8000-8000-000000000001","code":"Created","message":"The rule was created."}"#,
    ),
    (
        ADD_AGAIN,
        409,
        r#"{"DATA_TYPE":"error","code":"Exists","message":"Such a rule exists."}"#,
    ),
    (
        Ask {
            token: "hello",
            method: "GET",
            target: "/v0.10/endpoint/00000000-0000-4000-8000-0000000000c0/access_list",
            body: "",
        },
        403,
        r#"{"DATA_TYPE":"error","code":"PermissionDenied","message":"Only the owner may do this."}"#,
    ),
    (
        Ask {
            token: "abc",
            method: "GET",
            target: "/v0.10/endpoint/00000000-0000-4000-8000-0000000000c1/access/00000007-0003-8000-8000-000000000001",
            body: "",
        },
        404,
        r#"{"DATA_TYPE":"error","code":"RuleNotFound","message":"No such rule."}"#,
    ),
    (
        Ask {
            token: "abc",
            method: "GET",
            target: "/v0.10/endpoint/00000000-0000-4000-8000-0000000000c0/access/00000007-0003-8000-8000-000000000001",
            body: "",
        },
        200,
        r#"{"DATA_TYPE":"access","id":"00000007-0003-8000-8000-000000000001","path":"/a/","permissions":"r","principal":"","principal_type":"anonymous"}"#,
    ),
];

// Of the calls of the disk in a submission: the number of that which fails, and what the submission is answered when it is sent
// again. The opening makes calls 1 to 4.
const ON_FAULTS: [(u64, u16, &str); 4] = [
    (5, 202, ACCEPTED),
    (6, 202, ACCEPTED),
    (7, 202, ACCEPTED),
    (8, 200, DUPLICATE),
];

pub(crate) fn opened(alloc: Global, fails: &[u64]) -> Result<Desk<MemDisk>, Fail> {
    let setup = Setup::read(alloc, SETUP)?;
    let disk = MemDisk::new(alloc, Vec::new(alloc), fails.to_vec(alloc)?)?;
    match Desk::open(alloc, setup, disk) {
        Ok(desk) => Ok(desk),
        Err(_) => Err(Fail::from("an opened desk")),
    }
}

fn incoming(alloc: Global, ask: Ask, body: Vec<u8>) -> Result<Incoming, Fail> {
    let token = if ask.token == "-" {
        None
    } else {
        Some(Text::copy_of(alloc, ask.token)?)
    };
    Ok(Incoming {
        method: Text::copy_of(alloc, ask.method)?,
        target: Text::copy_of(alloc, ask.target)?,
        token,
        body: Bytes::from_vec(body),
        close: false,
    })
}

// The status and the bytes that a request with this body is answered at the moment 100.
pub(crate) fn served(
    alloc: Global,
    desk: &mut Desk<MemDisk>,
    ask: Ask,
    body: Vec<u8>,
) -> Result<(u16, Vec<u8>), Fail> {
    let now = Moment::of(100).ok_or("a moment")?;
    let incoming = incoming(alloc, ask, body)?;
    Ok(serve_one(alloc, desk, &incoming, now)?)
}

fn is_answered(alloc: Global, desk: &mut Desk<MemDisk>, row: Row) -> Result<bool, Fail> {
    let (status, bytes) = served(alloc, desk, row.0, row.0.body.as_bytes().to_vec(alloc)?)?;
    Ok(status == row.1 && bytes.as_slice() == row.2.as_bytes())
}

// How many of the requests are answered so, up to the first that isn't.
fn right(alloc: Global, desk: &mut Desk<MemDisk>, rows: &[Row]) -> Result<usize, Fail> {
    for at in 0..rows.len() {
        if !is_answered(alloc, desk, rows[at])? {
            return Ok(at);
        }
    }
    Ok(rows.len())
}

fn right_from_start(alloc: Global, rows: &[Row]) -> Result<usize, Fail> {
    let mut desk = opened(alloc, &[])?;
    right(alloc, &mut desk, rows)
}

#[test]
fn refusals_in_order(rt: HostRuntime) -> Result<(), Fail> {
    assert_eq!(rt; NO_TASK.len(), 69);
    assert_eq!(rt; NO_DATA.len(), 87);
    assert_eq!(rt;
        right_from_start(rt.alloc(), &ON_REFUSALS)?,
        ON_REFUSALS.len()
    );
    Ok(())
}

#[test]
fn access_rules_and_their_refusals(rt: HostRuntime) -> Result<(), Fail> {
    assert_eq!(rt; right_from_start(rt.alloc(), &ON_RULES)?, ON_RULES.len());
    Ok(())
}

// How many of these are answered so, where this call of the disk fails: the submission, a refusal without the desk, which leaves
// the doubt, the submission again, and once more.
fn right_through_fault(
    alloc: Global,
    call: u64,
    status: u16,
    text: &'static str,
) -> Result<usize, Fail> {
    let mut desk = opened(alloc, &[call])?;
    let rows = [
        (SUBMIT, 503, FAILED),
        (
            Ask {
                token: "-",
                method: "GET",
                target: "/v0.10/task_list",
                body: "",
            },
            401,
            NO_TOKEN,
        ),
        (SUBMIT, status, text),
        (SUBMIT, 200, DUPLICATE),
    ];
    right(alloc, &mut desk, &rows)
}

#[test]
fn submission_sent_again_behind_a_fault(rt: HostRuntime) -> Result<(), Fail> {
    for (call, status, text) in ON_FAULTS {
        assert_eq!(rt; right_through_fault(rt.alloc(), call, status, text)?, 4);
    }
    Ok(())
}

// A document of so many entries.
fn document(alloc: Global, entries: u32) -> Result<Vec<u8>, Fail> {
    let mut body = Vec::new(alloc);
    body.extend_from_slice(b"{\"DATA\":[")?;
    for at in 0..entries {
        if at > 0 {
            body.push(b',')?;
        }
        body.extend_from_slice(
            br#"{"DATA_TYPE":"transfer_item","destination_path":"/e","source_path":"/e"}"#,
        )?;
    }
    body.extend_from_slice(
        br#"],"DATA_TYPE":"transfer","destination_endpoint":"00000000-0000-4000-8000-0000000000c1","source_endpoint":"00000000-0000-4000-8000-0000000000c0","submission_id":"00000007-0001-8000-8000-000000000001"}"#,
    )?;
    Ok(body)
}

// The status that a document of so many entries is answered, and the number of bytes of the answer.
fn status_of_entries(alloc: Global, entries: u32) -> Result<(u16, usize), Fail> {
    let mut desk = opened(alloc, &[])?;
    let body = document(alloc, entries)?;
    let (status, bytes) = served(alloc, &mut desk, SUBMIT, body)?;
    Ok((status, bytes.len()))
}

const SHOW: Ask = Ask {
    token: "abc",
    method: "GET",
    target: FIRST_TASK,
    body: "",
};

// Whether the document of the task of ten thousand entries counts them.
fn counts_its_entries(alloc: Global) -> Result<bool, Fail> {
    let mut desk = opened(alloc, &[])?;
    let body = document(alloc, 10_000)?;
    let _ = served(alloc, &mut desk, SUBMIT, body)?;
    let (_status, bytes) = served(alloc, &mut desk, SHOW, Vec::new(alloc))?;
    Ok(
        bytes
            .windows(22)
            .any(|window| window == b"\"subtasks_total\":10000".as_slice()),
    )
}

#[test]
fn task_counts_its_entries(rt: HostRuntime) -> Result<(), Fail> {
    assert!(rt; counts_its_entries(rt.alloc())?);
    Ok(())
}

#[test]
fn entry_list_of_a_document_has_1_to_10000(rt: HostRuntime) -> Result<(), Fail> {
    assert_eq!(rt; status_of_entries(rt.alloc(), 0)?, (400, 87));
    assert_eq!(rt; status_of_entries(rt.alloc(), 10_000)?, (202, 188));
    assert_eq!(rt; status_of_entries(rt.alloc(), 10_001)?, (400, 87));
    Ok(())
}

const DIGITS: [u8; 16] = *b"0123456789abcdef";

// The document with the identifier that is made of this number in the place of its own.
fn with_number(alloc: Global, body: &[u8], number: u8) -> Result<Vec<u8>, Fail> {
    let front = &body[..body.len().saturating_sub(4)];
    let mut numbered = front.to_vec(alloc)?;
    numbered.push(DIGITS[(number / 16 % 16) as usize])?;
    numbered.push(DIGITS[(number % 16) as usize])?;
    numbered.extend_from_slice(b"\"}")?;
    Ok(numbered)
}

// The status that the document with this number is answered, and the number of bytes of the answer.
fn status_of_number(
    alloc: Global,
    desk: &mut Desk<MemDisk>,
    body: &[u8],
    number: u8,
) -> Result<(u16, usize), Fail> {
    let body = with_number(alloc, body, number)?;
    let (status, bytes) = served(alloc, desk, SUBMIT, body)?;
    Ok((status, bytes.len()))
}

// How many of forty documents are accepted.
fn accepted(alloc: Global, desk: &mut Desk<MemDisk>, body: &[u8]) -> Result<u8, Fail> {
    let mut count: u8 = 0;
    for number in 1..41u8 {
        let (status, _length) = status_of_number(alloc, desk, body, number)?;
        if status == 202 {
            count = count.saturating_add(1);
        }
    }
    Ok(count)
}

// How many of forty documents of 10,000 entries are accepted.
fn filled(alloc: Global, desk: &mut Desk<MemDisk>) -> Result<u8, Fail> {
    let large = document(alloc, 10_000)?;
    accepted(alloc, desk, &large)
}

// What a document of one entry with this number is answered: the status, and the number of bytes.
fn small(alloc: Global, desk: &mut Desk<MemDisk>, number: u8) -> Result<(u16, usize), Fail> {
    let body = document(alloc, 1)?;
    status_of_number(alloc, desk, &body, number)
}

// How many documents are accepted, and what one more and a repeat are answered.
fn at_the_limit(alloc: Global) -> Result<(u8, (u16, usize), (u16, usize)), Fail> {
    let mut desk = opened(alloc, &[])?;
    let count = filled(alloc, &mut desk)?;
    let refused = small(alloc, &mut desk, 41)?;
    let again = small(alloc, &mut desk, 40)?;
    Ok((count, refused, again))
}

// Forty tasks of 10,000 entries are all that there is room for, and a repeat needs none. The refusal's document is
// {"DATA_TYPE":"error","code":"LimitReached","message":"The table is full."}, with 74 bytes.
#[test]
fn task_table_is_full(rt: HostRuntime) -> Result<(), Fail> {
    assert_eq!(rt; at_the_limit(rt.alloc())?, (40, (409, 74), (200, 203)));
    Ok(())
}

// Whether a body of so many bytes is too large, on a target that no route takes.
fn is_too_large(alloc: Global, size: usize) -> Result<bool, Fail> {
    let mut desk = opened(alloc, &[])?;
    let mut body = Vec::new(alloc);
    body.resize(size, b' ')?;
    let (status, bytes) = served(
        alloc,
        &mut desk,
        Ask {
            token: "-",
            method: "GET",
            target: "/v0.10/nothing",
            body: "",
        },
        body,
    )?;
    Ok(status == 413 && bytes.as_slice() == TOO_LARGE.as_bytes())
}

#[test]
fn long_body_comes_before_the_route(rt: HostRuntime) -> Result<(), Fail> {
    assert!(rt; is_too_large(rt.alloc(), 4_194_305)?);
    assert!(rt; !is_too_large(rt.alloc(), 4_194_304)?);
    Ok(())
}

// How many calls of the disk these requests made.
fn calls_of(alloc: Global, rows: &[Row]) -> Result<u64, Fail> {
    let mut desk = opened(alloc, &[])?;
    let _ = right(alloc, &mut desk, rows)?;
    let (_setup, disk) = desk.close();
    Ok(disk.calls().saturating_sub(4))
}

// Where nothing is in doubt, only the request that makes an event calls the disk, four times.
#[test]
fn only_events_call_the_disk(rt: HostRuntime) -> Result<(), Fail> {
    assert_eq!(rt; calls_of(rt.alloc(), &ON_REFUSALS)?, 4);
    assert_eq!(rt; calls_of(rt.alloc(), &ON_REFUSALS[..6])?, 0);
    Ok(())
}
