// Requests of a script: each route in turn, what later routes and members are told, and large bodies.
use crate::exit::Exit;
use crate::tests::{SETUP, run_in_pieces};
use std::alloc::{AllocError, Global};
use std::test::Fail;

// The words of a `send` line but its number, its body, and the status and the document of the reply.
type Row = (&'static str, &'static str, u16, &'static str);

// Each route of the API so far, from an empty desk on, at the moment 120.
const ROUTES: [Row; 13] = [
    (
        "abc GET /v0.10/submission_id",
        r#""#,
        200,
        r#"{"DATA_TYPE":"submission_id","value":"00000007-0001-8000-8000-000000000001"}"#,
    ),
    (
        "abc POST /v0.10/transfer",
        r#"{"DATA":[{"DATA_TYPE":"transfer_item","destination_path":"/e","source_path":"/e"}],"DATA_TYPE":"transfer","destination_endpoint":"00000000-0000-4000-8000-0000000000c1","source_endpoint":"00000000-0000-4000-8000-0000000000c0","submission_id":"00000007-0001-8000-8000-000000000001"}"#,
        202,
        r#"{"DATA_TYPE":"transfer_result","code":"Accepted","message":"The task was accepted.","submission_id":"00000007-0001-8000-8000-000000000001","task_id":"00000007-0002-8000-8000-000000000001"}"#,
    ),
    (
        "abc GET /v0.10/task_list",
        r#""#,
        200,
        r#"{"DATA":[{"DATA_TYPE":"task","bytes_checksummed":0,"bytes_transferred":0,"completion_time":null,"deadline":null,"delete_destination_extra":false,"destination_endpoint_id":"00000000-0000-4000-8000-0000000000c1","directories":0,"fatal_error":null,"faults":0,"files":0,"files_skipped":0,"files_transferred":0,"is_paused":false,"label":null,"owner_id":"00000000-0000-4000-8000-0000000000a1","preserve_timestamp":false,"recursive_symlinks":"ignore","request_time":"1970-01-01T00:02:00+00:00","skip_source_errors":false,"source_endpoint_id":"00000000-0000-4000-8000-0000000000c0","status":"ACTIVE","subtasks_canceled":0,"subtasks_expired":0,"subtasks_failed":0,"subtasks_pending":1,"subtasks_retrying":0,"subtasks_skipped_errors":0,"subtasks_succeeded":0,"subtasks_total":1,"sync_level":null,"task_id":"00000007-0002-8000-8000-000000000001","type":"TRANSFER","verify_checksum":false}],"DATA_TYPE":"task_list","limit":100,"offset":0,"total":1}"#,
    ),
    (
        "abc GET /v0.10/task/00000007-0002-8000-8000-000000000001",
        r#""#,
        200,
        r#"{"DATA_TYPE":"task","bytes_checksummed":0,"bytes_transferred":0,"completion_time":null,"deadline":null,"delete_destination_extra":false,"destination_endpoint_id":"00000000-0000-4000-8000-0000000000c1","directories":0,"fatal_error":null,"faults":0,"files":0,"files_skipped":0,"files_transferred":0,"is_paused":false,"label":null,"owner_id":"00000000-0000-4000-8000-0000000000a1","preserve_timestamp":false,"recursive_symlinks":"ignore","request_time":"1970-01-01T00:02:00+00:00","skip_source_errors":false,"source_endpoint_id":"00000000-0000-4000-8000-0000000000c0","status":"ACTIVE","subtasks_canceled":0,"subtasks_expired":0,"subtasks_failed":0,"subtasks_pending":1,"subtasks_retrying":0,"subtasks_skipped_errors":0,"subtasks_succeeded":0,"subtasks_total":1,"sync_level":null,"task_id":"00000007-0002-8000-8000-000000000001","type":"TRANSFER","verify_checksum":false}"#,
    ),
    (
        "abc GET /v0.10/task/00000007-0002-8000-8000-000000000001/successful_transfers?limit=5",
        r#""#,
        200,
        r#"{"DATA":[],"DATA_TYPE":"successful_transfers","limit":5,"offset":0,"total":0}"#,
    ),
    (
        "abc GET /v0.10/task/00000007-0002-8000-8000-000000000001/skipped_errors",
        r#""#,
        200,
        r#"{"DATA":[],"DATA_TYPE":"skipped_errors","limit":100,"offset":0,"total":0}"#,
    ),
    (
        "hello GET /v0.10/endpoint/00000000-0000-4000-8000-0000000000c0",
        r#""#,
        200,
        r#"{"DATA_TYPE":"endpoint","default_directory":"/home/ann/","display_name":"Lab","id":"00000000-0000-4000-8000-0000000000c0","owner_id":"00000000-0000-4000-8000-0000000000a1"}"#,
    ),
    (
        "abc POST /v0.10/endpoint/00000000-0000-4000-8000-0000000000c0/access",
        r#"{"DATA_TYPE":"access","path":"/a","permissions":"r","principal_type":"anonymous"}"#,
        201,
        r#"{"DATA_TYPE":"access_create_result","access_id":"00000007-0003-8000-8000-000000000001","code":"Created","message":"The rule was created."}"#,
    ),
    (
        "abc GET /v0.10/endpoint/00000000-0000-4000-8000-0000000000c0/access_list",
        r#""#,
        200,
        r#"{"DATA":[{"DATA_TYPE":"access","id":"00000007-0003-8000-8000-000000000001","path":"/a/","permissions":"r","principal":"","principal_type":"anonymous"}],"DATA_TYPE":"access_list","endpoint":"00000000-0000-4000-8000-0000000000c0"}"#,
    ),
    (
        "abc GET /v0.10/endpoint/00000000-0000-4000-8000-0000000000c0/access/00000007-0003-8000-8000-000000000001",
        r#""#,
        200,
        r#"{"DATA_TYPE":"access","id":"00000007-0003-8000-8000-000000000001","path":"/a/","permissions":"r","principal":"","principal_type":"anonymous"}"#,
    ),
    (
        "abc PUT /v0.10/endpoint/00000000-0000-4000-8000-0000000000c0/access/00000007-0003-8000-8000-000000000001",
        r#"{"DATA_TYPE":"access","permissions":"rw"}"#,
        200,
        r#"{"DATA_TYPE":"result","code":"Updated","message":"The change was made."}"#,
    ),
    (
        "abc DELETE /v0.10/endpoint/00000000-0000-4000-8000-0000000000c0/access/00000007-0003-8000-8000-000000000001",
        r#""#,
        200,
        r#"{"DATA_TYPE":"result","code":"Deleted","message":"The rule was deleted."}"#,
    ),
    (
        "abc GET /v0.10/endpoint/00000000-0000-4000-8000-0000000000c0/access/00000007-0003-8000-8000-000000000001",
        r#""#,
        404,
        r#"{"DATA_TYPE":"error","code":"RuleNotFound","message":"No such rule."}"#,
    ),
];

// What comes later: a member that isn't served is bad, and a route that isn't is no route.
const LATER: [Row; 9] = [
    (
        "abc POST /v0.10/transfer",
        r#"{"DATA":[{"DATA_TYPE":"transfer_item","destination_path":"/e","source_path":"/e"}],"DATA_TYPE":"transfer","sync_level":1,"destination_endpoint":"00000000-0000-4000-8000-0000000000c1","source_endpoint":"00000000-0000-4000-8000-0000000000c0","submission_id":"00000007-0001-8000-8000-000000000001"}"#,
        400,
        r#"{"DATA_TYPE":"error","code":"ClientError.BadRequest","message":"Bad document at sync_level."}"#,
    ),
    (
        "abc POST /v0.10/transfer",
        r#"{"DATA":[{"DATA_TYPE":"transfer_item","destination_path":"/e","source_path":"/e"}],"DATA_TYPE":"transfer","filter_rules":[{"name":"*.tmp"}],"destination_endpoint":"00000000-0000-4000-8000-0000000000c1","source_endpoint":"00000000-0000-4000-8000-0000000000c0","submission_id":"00000007-0001-8000-8000-000000000001"}"#,
        400,
        r#"{"DATA_TYPE":"error","code":"ClientError.BadRequest","message":"Bad document at filter_rules."}"#,
    ),
    (
        "abc POST /v0.10/transfer",
        r#"{"DATA":[{"DATA_TYPE":"transfer_item","destination_path":"/e","recursive":true,"source_path":"/e"}],"DATA_TYPE":"transfer","destination_endpoint":"00000000-0000-4000-8000-0000000000c1","source_endpoint":"00000000-0000-4000-8000-0000000000c0","submission_id":"00000007-0001-8000-8000-000000000001"}"#,
        400,
        r#"{"DATA_TYPE":"error","code":"ClientError.BadRequest","message":"Bad document at DATA[0].recursive."}"#,
    ),
    (
        "abc POST /v0.10/transfer",
        r#"{"DATA":[{"DATA_TYPE":"transfer_item","destination_path":"/e","source_path":"/e"}],"DATA_TYPE":"transfer","delete_destination_extra":true,"destination_endpoint":"00000000-0000-4000-8000-0000000000c1","source_endpoint":"00000000-0000-4000-8000-0000000000c0","submission_id":"00000007-0001-8000-8000-000000000001"}"#,
        400,
        r#"{"DATA_TYPE":"error","code":"ClientError.BadRequest","message":"Bad document at delete_destination_extra."}"#,
    ),
    (
        "abc POST /v0.10/transfer",
        r#"{"DATA":[{"DATA_TYPE":"transfer_item","destination_path":"/e","source_path":"/e"}],"DATA_TYPE":"transfer","deadline":"2026-01-01T00:00:00+00:00","destination_endpoint":"00000000-0000-4000-8000-0000000000c1","source_endpoint":"00000000-0000-4000-8000-0000000000c0","submission_id":"00000007-0001-8000-8000-000000000001"}"#,
        400,
        r#"{"DATA_TYPE":"error","code":"ClientError.BadRequest","message":"Bad document at deadline."}"#,
    ),
    (
        "abc POST /v0.10/delete",
        r#"{}"#,
        404,
        r#"{"DATA_TYPE":"error","code":"NotFound","message":"No such resource."}"#,
    ),
    (
        "abc POST /v0.10/task/00000007-0002-8000-8000-000000000001/cancel",
        r#""#,
        404,
        r#"{"DATA_TYPE":"error","code":"NotFound","message":"No such resource."}"#,
    ),
    (
        "abc GET /v0.10/endpoint_manager/pause_rule_list",
        r#""#,
        404,
        r#"{"DATA_TYPE":"error","code":"NotFound","message":"No such resource."}"#,
    ),
    (
        "abc POST /v0.10/endpoint_manager/pause_rule",
        r#"{}"#,
        404,
        r#"{"DATA_TYPE":"error","code":"NotFound","message":"No such resource."}"#,
    ),
];

// The script of these requests, and what it prints but for its last line.
fn script_of(alloc: Global, rows: &[Row]) -> Result<(Vec<u8>, Vec<u8>), AllocError> {
    let mut script = b"now 120\n".to_vec(alloc)?;
    let mut printed = Vec::new(alloc);
    for (words, body, status, document) in rows {
        let size = body.len();
        let length = document.len();
        let request = format!(in alloc; "send {words} {size}\n{body}\n")?;
        let reply = format!(in alloc; "reply {status} {length}\n{document}\n")?;
        script.extend_from_slice(request.as_bytes())?;
        printed.extend_from_slice(reply.as_bytes())?;
    }
    Ok((script, printed))
}

#[test]
fn each_route_is_served(rt: HostRuntime) -> Result<(), Fail> {
    let alloc = rt.alloc();
    let (mut script, mut printed) = script_of(alloc, &ROUTES)?;
    script.extend_from_slice(b"end\n")?;
    printed.extend_from_slice(b"end 5 1\ntask 1 TRANSFER ACTIVE 1 1 0 0 0 0 0 0 0 0\n")?;
    let (exit, out) = run_in_pieces(alloc, SETUP.as_bytes(), &script, 4096)?;
    assert!(rt; exit == Exit::Done);
    assert!(rt; out.bytes() == printed.as_slice());
    Ok(())
}

#[test]
fn what_comes_later_is_refused(rt: HostRuntime) -> Result<(), Fail> {
    let alloc = rt.alloc();
    let (mut script, mut printed) = script_of(alloc, &LATER)?;
    script.extend_from_slice(b"end\n")?;
    printed.extend_from_slice(b"end 0 0\n")?;
    let (exit, out) = run_in_pieces(alloc, SETUP.as_bytes(), &script, 4096)?;
    assert!(rt; exit == Exit::Done);
    assert!(rt; out.bytes() == printed.as_slice());
    Ok(())
}

// A request on an unknown route, with a body of so many bytes.
fn add_request(script: &mut Vec<u8>, head: &str, size: u64) -> Result<(), AllocError> {
    script.extend_from_slice(head.as_bytes())?;
    let length = script.len() as u64;
    script.resize(length.saturating_add(size) as usize, b'x')?;
    script.push(b'\n')?;
    Ok(())
}

const TOO_LARGE: &str = "reply 413 74
{\"DATA_TYPE\":\"error\",\"code\":\"TooLarge\",\"message\":\"The body is too large.\"}
";

const NO_RESOURCE: &str = "reply 404 69
{\"DATA_TYPE\":\"error\",\"code\":\"NotFound\",\"message\":\"No such resource.\"}
";

#[test]
fn long_body_is_refused_before_its_route(rt: HostRuntime) -> Result<(), Fail> {
    let alloc = rt.alloc();
    let mut script = Vec::new(alloc);
    add_request(
        &mut script,
        "send - GET /v0.10/nothing 4194304\n",
        4_194_304,
    )?;
    add_request(
        &mut script,
        "send - GET /v0.10/nothing 4194305\n",
        4_194_305,
    )?;
    script.extend_from_slice(b"end\n")?;
    let (exit, out) = run_in_pieces(alloc, SETUP.as_bytes(), &script, 65_536)?;
    assert!(rt; exit == Exit::Done);
    let printed = [NO_RESOURCE, TOO_LARGE, "end 0 0\n"].concat(alloc)?;
    assert!(rt; out.bytes() == printed.as_bytes());
    Ok(())
}

#[test]
fn script_ends_within_its_limit(rt: HostRuntime) -> Result<(), Fail> {
    let alloc = rt.alloc();
    // Eight lines of 34 bytes, their bodies with a newline, and an end of four bytes make 67,108,864 bytes; or one more.
    for (last, exit) in [
        (8_388_548, Exit::Done),
        (8_388_549, Exit::ScriptRefused { line: 9 }),
    ] {
        let mut script = Vec::new(alloc);
        for _ in 0..7 {
            add_request(
                &mut script,
                "send - GET /v0.10/nothing 8388576\n",
                8_388_576,
            )?;
        }
        let head = format!(in alloc; "send - GET /v0.10/nothing {last}\n")?;
        add_request(&mut script, head.as_str(), last)?;
        script.extend_from_slice(b"end\n")?;
        let (ended, _) = run_in_pieces(alloc, SETUP.as_bytes(), &script, 65_536)?;
        assert!(rt; ended == exit);
    }
    Ok(())
}
