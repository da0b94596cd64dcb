ghost use Rattle.gt_types.specs.Reply.{is_number, is_printable, is_printable_access, is_printable_task};
ghost use Rattle.std.specs.List.{list_all};
ghost use Rattle.std.specs.Prelude.{◌≡◌, IfOk, IsTrue, length, true};

use gt_paths::Path;
use gt_replies::{
    documents_are_spelled, members_ascend, statuses_have_three_digits, write_refusal, write_reply,
};
use gt_setup::Setup;
use gt_types::{
    AccessDocument, AccessSpec, Code, Counters, DeleteOptions, Kept, Page, PathPair, Principal,
    Reason, Reply, ReplyCode, ResultCode, SkippedDocument, Status, TaskDocument, TaskOptions,
    TransferOptions,
};
use gt_values::{Id, Moment, Sequence, Text};
use serde_json::Value;
use std::alloc::{AllocError, Global};
use std::process::Abort;
use std::test::Fail;

const SETUP: &[u8] = b"namespace = 7
identity = [
{ id = \"00000000-0000-4000-8000-0000000000a1\", name = \"ann\", tokens = [], groups = [] },
{ id = \"00000000-0000-4000-8000-0000000000b2\", name = \"bob\", tokens = [], groups = [] },
]
collection = [
{ id = \"00000000-0000-4000-8000-0000000000c0\", name = \"Lab\", owner = \"00000000-0000-4000-8000-0000000000a1\", home = \"/home/ann\" },
{ id = \"00000000-0000-4000-8000-0000000000c1\", name = \"Store\", owner = \"00000000-0000-4000-8000-0000000000a1\", home = \"/\" },
{ id = \"00000000-0000-4000-8000-0000000000c2\", name = \"Vault\", owner = \"00000000-0000-4000-8000-0000000000b2\", home = \"/\" },
]
";

const REFUSALS: [(ReplyCode, u16, &str, &str); 14] = [
    (
        ReplyCode::BadRequest,
        400,
        "ClientError.BadRequest",
        "Bad document at DATA.",
    ),
    (
        ReplyCode::AuthenticationFailed,
        401,
        "AuthenticationFailed",
        "No valid token.",
    ),
    (
        ReplyCode::PermissionDenied,
        403,
        "PermissionDenied",
        "Only the owner may do this.",
    ),
    (ReplyCode::NotFound, 404, "NotFound", "No such resource."),
    (
        ReplyCode::EndpointNotFound,
        404,
        "EndpointNotFound",
        "No such collection.",
    ),
    (
        ReplyCode::TaskNotFound,
        404,
        "TaskNotFound",
        "No such task.",
    ),
    (
        ReplyCode::RuleNotFound,
        404,
        "RuleNotFound",
        "No such rule.",
    ),
    (
        ReplyCode::MethodNotAllowed,
        405,
        "MethodNotAllowed",
        "No such method here.",
    ),
    (ReplyCode::Exists, 409, "Exists", "Such a rule exists."),
    (
        ReplyCode::TaskClosed,
        409,
        "TaskClosed",
        "The task is closed.",
    ),
    (
        ReplyCode::LimitReached,
        409,
        "LimitReached",
        "The table is full.",
    ),
    (
        ReplyCode::TooLarge,
        413,
        "TooLarge",
        "The body is too large.",
    ),
    (
        ReplyCode::JournalFault,
        503,
        "JournalFault",
        "The journal failed.",
    ),
    (ReplyCode::OutOfMemory, 507, "OutOfMemory", "No memory."),
];

const RESULTS: [(ResultCode, &str, &str); 5] = [
    (ResultCode::Canceled, "Canceled", "The task was canceled."),
    (
        ResultCode::CancelAccepted,
        "CancelAccepted",
        "The cancellation was accepted.",
    ),
    (
        ResultCode::TaskComplete,
        "TaskComplete",
        "The task is complete already.",
    ),
    (ResultCode::Updated, "Updated", "The change was made."),
    (ResultCode::Deleted, "Deleted", "The rule was deleted."),
];

const CODES: [(Code, &str); 9] = [
    (Code::FileNotFound, "FILE_NOT_FOUND"),
    (Code::PermissionDenied, "PERMISSION_DENIED"),
    (Code::WrongKind, "WRONG_KIND"),
    (Code::NotEmpty, "NOT_EMPTY"),
    (Code::VerifyMismatch, "VERIFY_MISMATCH"),
    (Code::TreeFault, "TREE_FAULT"),
    (Code::FolderTooLarge, "FOLDER_TOO_LARGE"),
    (Code::ItemLimit, "ITEM_LIMIT"),
    (Code::PathTooLong, "PATH_TOO_LONG"),
];

/// A transfer with each option, all kept members given.
fn transfer_text() -> &'static str {
    concat!(
        r#"{"DATA_TYPE":"task","bytes_checksummed":13,"bytes_transferred":18446744073709551615,"#,
        r#""completion_time":"2000-02-29T23:59:59+00:00","deadline":"9999-12-31T23:59:59+00:00","#,
        r#""delete_destination_extra":true,"destination_endpoint_id":"00000000-0000-4000-8000-0000000000c1","#,
        r#""directories":9,"encrypt_data":false,"fail_on_quota_errors":false,"fatal_error":"VERIFY_MISMATCH","#,
        r#""faults":14,"files":8,"files_skipped":11,"files_transferred":12,"is_paused":false,"label":"née","#,
        r#""notify_on_failed":false,"notify_on_inactive":false,"notify_on_succeeded":true,"#,
        r#""owner_id":"00000000-0000-4000-8000-0000000000a1","preserve_timestamp":true,"#,
        r#""recursive_symlinks":"ignore","request_time":"1970-01-01T00:01:40+00:00","skip_source_errors":true,"#,
        r#""source_endpoint_id":"00000000-0000-4000-8000-0000000000c0","status":"FAILED","#,
        r#""store_base_path_info":true,"subtasks_canceled":5,"subtasks_expired":4,"subtasks_failed":6,"#,
        r#""subtasks_pending":1,"subtasks_retrying":2,"subtasks_skipped_errors":7,"subtasks_succeeded":3,"#,
        r#""subtasks_total":10,"sync_level":3,"task_id":"00000007-0002-8000-8000-000000000001","#,
        r#""type":"TRANSFER","verify_checksum":true}"#
    )
}

/// A deletion without an option.
fn deletion_text() -> &'static str {
    concat!(
        r#"{"DATA_TYPE":"task","bytes_checksummed":0,"bytes_transferred":0,"completion_time":null,"#,
        r#""deadline":null,"destination_endpoint_id":null,"directories":0,"fatal_error":null,"faults":0,"#,
        r#""files":0,"files_skipped":0,"files_transferred":0,"ignore_missing":false,"is_paused":true,"#,
        r#""label":null,"owner_id":"00000000-0000-4000-8000-0000000000b2","recursive":true,"#,
        r#""request_time":"1970-01-01T00:00:00+00:00","#,
        r#""source_endpoint_id":"00000000-0000-4000-8000-0000000000c2","status":"ACTIVE","#,
        r#""subtasks_canceled":0,"subtasks_expired":0,"subtasks_failed":0,"subtasks_pending":0,"#,
        r#""subtasks_retrying":0,"subtasks_skipped_errors":0,"subtasks_succeeded":0,"subtasks_total":0,"#,
        r#""task_id":"00000007-0002-8000-8000-ffffffffffff","type":"DELETE"}"#
    )
}

fn id(last: u8) -> Id {
    Id::from_bytes([0, 0, 0, 0, 0, 0, 0x40, 0, 0x80, 0, 0, 0, 0, 0, 0, last])
}

fn path(alloc: Global, text: &str) -> Result<Path, Fail> {
    Ok(Path::read(alloc, text, &Path::root(alloc))?)
}

/// A setup of the namespace 7 with the collections Lab and Store of one owner and Vault of another.
fn worked_setup(rt: &(impl Abort + AllocGlobal)) -> Result<Setup, Fail>
    ensures { IfOk result (λ setup. length setup.collections ≡ 3) }
{
    let setup = Setup::read(rt.alloc(), SETUP)?;
    if setup.collections() == 3 {
        Ok(setup)
    } else {
        Err(Fail::from("three collections"))
    }
}

/// Writes the reply and compares its status and its bytes.
fn reply_is(
    rt: &(impl Abort + AllocGlobal),
    reply: &Reply,
    status: u16,
    text: &str,
) -> Result<(), Fail>
    requires { IsTrue (is_printable 3 reply.now) }
{
    let setup = worked_setup(rt)?;
    let (got, bytes) = write_reply(rt.alloc(), &setup, reply)?;
    assert_eq!(rt; got, status, "{text}");
    assert!(rt; bytes.as_slice() == text.as_bytes(), "{text}");
    Ok(())
}

#[test]
fn identifier(rt: HostRuntime) -> Result<(), Fail> {
    members_ascend();
    documents_are_spelled();
    statuses_have_three_digits();
    let text = r#"{"DATA_TYPE":"submission_id","value":"00000007-0001-8000-8000-000000000001"}"#;
    assert_eq!(rt; text.len(), 76);
    reply_is(&rt, &Reply::Identifier { number: 1 }, 200, text)
}

fn submitted(is_delete: bool, is_new: bool, task: u64) -> Reply
    requires { IsTrue (is_number task) }
    ensures { IsTrue (is_printable 3 result) }
{
    Reply::Submitted {
        is_delete,
        is_new,
        submission: Id::made(7, 1, 1),
        task,
    }
}

#[test]
fn submission_and_its_repeat(rt: HostRuntime) -> Result<(), Fail> {
    let accepted = concat!(
        r#"{"DATA_TYPE":"transfer_result","code":"Accepted","message":"The task was accepted.","#,
        r#""submission_id":"00000007-0001-8000-8000-000000000001","#,
        r#""task_id":"00000007-0002-8000-8000-000000000001"}"#
    );
    assert_eq!(rt; accepted.len(), 188);
    reply_is(&rt, &submitted(false, true, 1), 202, accepted)?;
    let repeated = concat!(
        r#"{"DATA_TYPE":"transfer_result","code":"Duplicate","#,
        r#""message":"This submission was accepted before.","#,
        r#""submission_id":"00000007-0001-8000-8000-000000000001","#,
        r#""task_id":"00000007-0002-8000-8000-000000000001"}"#
    );
    assert_eq!(rt; repeated.len(), 203);
    reply_is(&rt, &submitted(false, false, 1), 200, repeated)
}

#[test]
fn submission_of_a_deletion(rt: HostRuntime) -> Result<(), Fail> {
    let text = concat!(
        r#"{"DATA_TYPE":"delete_result","code":"Accepted","message":"The task was accepted.","#,
        r#""submission_id":"00000007-0001-8000-8000-000000000001","#,
        r#""task_id":"00000007-0002-8000-8000-000000000002"}"#
    );
    reply_is(&rt, &submitted(true, true, 2), 202, text)
}

/// Writes the refusal and compares its status and its bytes.
fn refusal_is(
    rt: &(impl Abort + AllocGlobal),
    code: ReplyCode,
    place: &str,
    status: u16,
    text: &str,
) -> Result<(), Fail> {
    let (got, bytes) = write_refusal(rt.alloc(), code, place)?;
    assert_eq!(rt; got, status, "{text}");
    assert!(rt; bytes.as_slice() == text.as_bytes(), "{text}");
    Ok(())
}

fn code_text(alloc: Global, kind: &str, name: &str, message: &str) -> Result<String, AllocError> {
    format!(in alloc; "{{\"DATA_TYPE\":\"{kind}\",\"code\":\"{name}\",\"message\":\"{message}\"}}")
}

#[test]
fn refusals(rt: HostRuntime) -> Result<(), Fail> {
    for (code, status, name, message) in REFUSALS {
        let text = code_text(rt.alloc(), "error", name, message)?;
        refusal_is(&rt, code, "DATA", status, text.as_str())?;
    }
    Ok(())
}

#[test]
fn refusal_at_a_query(rt: HostRuntime) -> Result<(), Fail> {
    let text =
        r#"{"DATA_TYPE":"error","code":"ClientError.BadRequest","message":"Bad document at query."}"#;
    refusal_is(&rt, ReplyCode::BadRequest, "query", 400, text)
}

#[test]
fn refusal_as_a_reply(rt: HostRuntime) -> Result<(), Fail> {
    let missing = Reply::Refused {
        code: ReplyCode::TaskNotFound,
    };
    let text = r#"{"DATA_TYPE":"error","code":"TaskNotFound","message":"No such task."}"#;
    assert_eq!(rt; text.len(), 69);
    reply_is(&rt, &missing, 404, text)
}

#[test]
fn results(rt: HostRuntime) -> Result<(), Fail> {
    for (code, name, message) in RESULTS {
        let text = code_text(rt.alloc(), "result", name, message)?;
        reply_is(&rt, &Reply::Done(code), 200, text.as_str())?;
    }
    Ok(())
}

fn access(
    alloc: Global,
    number: u64,
    principal: Principal,
    text: &str,
    write: bool,
) -> Result<AccessDocument, Fail>
    requires { IsTrue (is_number number) }
    ensures { IfOk result (λ rule. IsTrue (is_printable_access rule)) }
{
    let path = path(alloc, text)?;
    Ok(AccessDocument {
        number,
        spec: AccessSpec {
            principal,
            path,
            write,
        },
    })
}

#[test]
fn access_rule_that_was_made(rt: HostRuntime) -> Result<(), Fail> {
    let text = concat!(
        r#"{"DATA_TYPE":"access_create_result","access_id":"00000007-0003-8000-8000-000000000001","#,
        r#""code":"Created","message":"The rule was created."}"#
    );
    reply_is(&rt, &Reply::AccessCreated { rule: 1 }, 201, text)
}

#[test]
fn access_rule_of_a_group(rt: HostRuntime) -> Result<(), Fail> {
    let rule = access(rt.alloc(), 3, Principal::Group(id(0xd3)), "/p/q", false)?;
    let text = concat!(
        r#"{"DATA_TYPE":"access","id":"00000007-0003-8000-8000-000000000003","path":"/p/q/","permissions":"r","#,
        r#""principal":"00000000-0000-4000-8000-0000000000d3","principal_type":"group"}"#
    );
    reply_is(&rt, &Reply::Access(rule), 200, text)
}

#[test]
fn access_rule_of_all(rt: HostRuntime) -> Result<(), Fail> {
    let rule = access(rt.alloc(), 4, Principal::AllAuthenticated, "/p", true)?;
    let text = concat!(
        r#"{"DATA_TYPE":"access","id":"00000007-0003-8000-8000-000000000004","path":"/p/","permissions":"rw","#,
        r#""principal":"","principal_type":"all_authenticated_users"}"#
    );
    reply_is(&rt, &Reply::Access(rule), 200, text)
}

fn access_rows(alloc: Global) -> Result<Sequence<AccessDocument>, Fail>
    ensures { IfOk result (λ rows. IsTrue (list_all is_printable_access rows)) }
{
    let first = access(alloc, 1, Principal::Anonymous, "/a", false)?;
    let second = access(alloc, 2, Principal::Identity(id(0xa1)), "/", true)?;
    let mut rows = Vec::new(alloc);
    rows.push(first)?;
    rows.push(second)?;
    Ok(Sequence::from_vec(rows))
}

#[test]
fn access_list(rt: HostRuntime) -> Result<(), Fail> {
    let list = Reply::AccessList {
        rows: access_rows(rt.alloc())?,
        collection: 0,
    };
    let text = concat!(
        r#"{"DATA":[{"DATA_TYPE":"access","id":"00000007-0003-8000-8000-000000000001","path":"/a/","#,
        r#""permissions":"r","principal":"","principal_type":"anonymous"},"#,
        r#"{"DATA_TYPE":"access","id":"00000007-0003-8000-8000-000000000002","path":"/","permissions":"rw","#,
        r#""principal":"00000000-0000-4000-8000-0000000000a1","principal_type":"identity"}],"#,
        r#""DATA_TYPE":"access_list","endpoint":"00000000-0000-4000-8000-0000000000c0"}"#
    );
    reply_is(&rt, &list, 200, text)
}

#[test]
fn collections(rt: HostRuntime) -> Result<(), Fail> {
    let lab = concat!(
        r#"{"DATA_TYPE":"endpoint","default_directory":"/home/ann/","display_name":"Lab","#,
        r#""id":"00000000-0000-4000-8000-0000000000c0","owner_id":"00000000-0000-4000-8000-0000000000a1"}"#
    );
    reply_is(&rt, &Reply::Endpoint { collection: 0 }, 200, lab)?;
    let vault = concat!(
        r#"{"DATA_TYPE":"endpoint","default_directory":"/","display_name":"Vault","#,
        r#""id":"00000000-0000-4000-8000-0000000000c2","owner_id":"00000000-0000-4000-8000-0000000000b2"}"#
    );
    reply_is(&rt, &Reply::Endpoint { collection: 2 }, 200, vault)
}

#[test]
fn copied_files(rt: HostRuntime) -> Result<(), Fail> {
    let alloc = rt.alloc();
    let source = path(alloc, "/d/\"x")?;
    let destination = path(alloc, "/e")?;
    let mut rows = Vec::new(alloc);
    rows.push(PathPair {
        source,
        destination,
    })?;
    let list = Reply::Successes {
        rows: Sequence::from_vec(rows),
        page: Page {
            limit: 1000,
            offset: u64::MAX,
            total: 3,
        },
    };
    let text = concat!(
        r#"{"DATA":[{"DATA_TYPE":"successful_transfer","destination_path":"/e","source_path":"/d/\"x"}],"#,
        r#""DATA_TYPE":"successful_transfers","limit":1000,"offset":18446744073709551615,"total":3}"#
    );
    reply_is(&rt, &list, 200, text)
}

fn skipped(alloc: Global, code: Code) -> Result<Reply, Fail>
    ensures { IfOk result (λ reply. IsTrue (is_printable 3 reply)) }
{
    let source = path(alloc, "/")?;
    let destination = path(alloc, "/e")?;
    let mut rows = Vec::new(alloc);
    rows.push(SkippedDocument {
        source,
        destination,
        code,
    })?;
    Ok(Reply::Skipped {
        rows: Sequence::from_vec(rows),
        page: Page {
            limit: 100,
            offset: 0,
            total: 1,
        },
    })
}

fn skipped_text(alloc: Global, name: &str) -> Result<String, AllocError> {
    let row = "\"DATA_TYPE\":\"skipped_error\",\"destination_path\":\"/e\"";
    let page = "\"DATA_TYPE\":\"skipped_errors\",\"limit\":100,\"offset\":0,\"total\":1";
    format!(in alloc;
        "{{\"DATA\":[{{{row},\"error_code\":\"{name}\",\"source_path\":\"/\"}}],{page}}}"
    )
}

#[test]
fn skipped_items(rt: HostRuntime) -> Result<(), Fail> {
    for (code, name) in CODES {
        let text = skipped_text(rt.alloc(), name)?;
        reply_is(&rt, &skipped(rt.alloc(), code)?, 200, text.as_str())?;
    }
    Ok(())
}

fn transfer(alloc: Global) -> Result<TaskDocument, Fail>
    ensures { IfOk result (λ task. IsTrue (is_printable_task 3 task)) }
{
    Ok(TaskDocument {
        number: 1,
        owner: id(0xa1),
        options: TaskOptions::Transfer(TransferOptions {
            source: 0,
            destination: 1,
            level: Some(3),
            verify: true,
            preserve: true,
            extra: true,
            skip_source: true,
            kept: Kept { given: 63, set: 33 },
        }),
        label: Some(Text::copy_of(alloc, "née")?),
        deadline: Moment::of(253_402_300_799),
        requested: Moment::of(100).unwrap_or(Moment::zero()),
        completed: Moment::of(951_868_799),
        status: Status::Failed,
        fatal_error: Some(Reason::Code(Code::VerifyMismatch)),
        is_paused: false,
        counters: Counters {
            total: 10,
            pending: 1,
            retrying: 2,
            succeeded: 3,
            expired: 4,
            canceled: 5,
            failed: 6,
            skipped_errors: 7,
            files: 8,
            directories: 9,
            files_skipped: 11,
            files_transferred: 12,
            bytes_transferred: u64::MAX,
            bytes_checksummed: 13,
            faults: 14,
        },
    })
}

/// A deletion with no option. The bits that are set weren't given.
fn deletion() -> TaskDocument
    ensures { IsTrue (is_printable_task 3 result) }
{
    TaskDocument {
        number: 281_474_976_710_655,
        owner: id(0xb2),
        options: TaskOptions::Delete(DeleteOptions {
            collection: 2,
            recursive: true,
            ignore_missing: false,
            kept: Kept { given: 0, set: 63 },
        }),
        label: None,
        deadline: None,
        requested: Moment::zero(),
        completed: None,
        status: Status::Active,
        fatal_error: None,
        is_paused: true,
        counters: Counters {
            total: 0,
            pending: 0,
            retrying: 0,
            succeeded: 0,
            expired: 0,
            canceled: 0,
            failed: 0,
            skipped_errors: 0,
            files: 0,
            directories: 0,
            files_skipped: 0,
            files_transferred: 0,
            bytes_transferred: 0,
            bytes_checksummed: 0,
            faults: 0,
        },
    }
}

/// How many members the object has that the bytes are.
fn members(alloc: Global, text: &str) -> Result<usize, Fail> {
    match Value::from_slice(alloc, text.as_bytes())? {
        Value::Object(members) => Ok(members.len()),
        _ => Err(Fail::from("no object")),
    }
}

#[test]
fn members_of_a_task(rt: HostRuntime) -> Result<(), Fail> {
    assert_eq!(rt; members(rt.alloc(), transfer_text())?, 40);
    assert_eq!(rt; members(rt.alloc(), deletion_text())?, 30);
    Ok(())
}

#[test]
fn task_with_each_option(rt: HostRuntime) -> Result<(), Fail> {
    let task = transfer(rt.alloc())?;
    reply_is(&rt, &Reply::Task(task), 200, transfer_text())
}

#[test]
fn task_without_an_option(rt: HostRuntime) -> Result<(), Fail> {
    let task = deletion();
    reply_is(&rt, &Reply::Task(task), 200, deletion_text())
}

fn task_rows(alloc: Global) -> Result<Sequence<TaskDocument>, Fail>
    ensures { IfOk result (λ rows. IsTrue (list_all (is_printable_task 3) rows)) }
{
    let first = transfer(alloc)?;
    let second = deletion();
    let mut rows = Vec::new(alloc);
    rows.push(first)?;
    rows.push(second)?;
    Ok(Sequence::from_vec(rows))
}

fn list_text(alloc: Global, first: &str, second: &str) -> Result<String, AllocError> {
    let page = "\"DATA_TYPE\":\"task_list\",\"limit\":100,\"offset\":5,\"total\":7";
    format!(in alloc; "{{\"DATA\":[{first},{second}],{page}}}")
}

#[test]
fn tasks(rt: HostRuntime) -> Result<(), Fail> {
    let list = Reply::Tasks {
        rows: task_rows(rt.alloc())?,
        page: Page {
            limit: 100,
            offset: 5,
            total: 7,
        },
    };
    let text = list_text(rt.alloc(), transfer_text(), deletion_text())?;
    reply_is(&rt, &list, 200, text.as_str())
}
