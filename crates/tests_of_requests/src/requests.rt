// What no clause says: requests, documents and limits from outside, as tables of what each is answered.
use gt_requests::{RequestFault, Routes, read_request};
use gt_setup::Setup;
use gt_types::{AccessSpec, Command, Principal, ReplyCode, TransferEntry, TransferSpec};
use gt_values::Id;
use std::alloc::Global;
use std::test::Fail;

// One identity with the token `abc`, and two collections: one with the home `/home/ann`, one with the root.
const SETUP: &[u8] = b"namespace = 7
[[identity]]
id = \"00000000-0000-4000-8000-0000000000a1\"
name = \"ann\"
tokens = [\"ba7816bf8f01cfea414140de5dae2223b00361a396177a9cb410ff61f20015ad\"]
groups = []
[[collection]]
id = \"00000000-0000-4000-8000-0000000000c0\"
name = \"Lab\"
owner = \"00000000-0000-4000-8000-0000000000a1\"
home = \"/home/ann\"
[[collection]]
id = \"00000000-0000-4000-8000-0000000000c1\"
name = \"Store\"
owner = \"00000000-0000-4000-8000-0000000000a1\"
home = \"/\"
";

const TRANSFERS: &str = "/v0.10/transfer";

const RULES: &str = "/v0.10/endpoint/00000000-0000-4000-8000-0000000000c0/access";

const RULE: &str =
    "/v0.10/endpoint/00000000-0000-4000-8000-0000000000c0/access/00000007-0003-8000-8000-000000000001";

// The same of a collection and a rule that aren't there, and of no route.
const NO_RULE: &str = "/v0.10/endpoint/00000000-0000-4000-8000-0000000000c0/access/x";

const NO_COLLECTION: &str = "/v0.10/endpoint/00000000-0000-4000-8000-0000000000c9/access/x";

const NO_ROUTE: &str = "/v0.10/point/00000000-0000-4000-8000-0000000000c9/access/x";

/// A document without its last brace, and where it is sent. A member that is written behind it counts in place of its own.
#[derive(Clone, Copy)]
struct Document {
    method: &'static str,
    target: &'static str,
    text: &'static str,
}

const TRANSFER: Document = Document {
    method: "POST",
    target: TRANSFERS,
    text: "{\"DATA_TYPE\":\"transfer\",\"submission_id\":\"00000007-0001-8000-8000-000000000001\",\"source_endpoint\":\"00000000-0000-4000-8000-0000000000c0\",\"destination_endpoint\":\"00000000-0000-4000-8000-0000000000c1\",\"DATA\":[{\"DATA_TYPE\":\"transfer_item\",\"source_path\":\"/e\",\"destination_path\":\"/e\"}]",
};

const ACCESS: Document = Document {
    method: "POST",
    target: RULES,
    text: "{\"DATA_TYPE\":\"access\",\"principal_type\":\"group\",\"principal\":\"00000000-0000-4000-8000-0000000000a1\",\"path\":\"/p/\",\"permissions\":\"rw\"",
};

const PERMISSION: Document = Document {
    method: "PUT",
    target: RULE,
    text: "{\"DATA_TYPE\":\"access\",\"permissions\":\"r\"",
};

const ENTRY: &str =
    "{\"DATA_TYPE\":\"transfer_item\",\"source_path\":\"/e\",\"destination_path\":\"/e\"";

// A permission, whole.
const READ: &str = "{\"DATA_TYPE\":\"access\",\"permissions\":\"r\"}";

/// What a request is to be answered: a command, a refusal without a place, or a bad request at a place.
#[derive(Clone, Copy)]
enum Want {
    Read,
    Refused(ReplyCode),
    Bad(&'static str),
}

const NOT_FOUND: Want = Want::Refused(ReplyCode::NotFound);

const NOT_ALLOWED: Want = Want::Refused(ReplyCode::MethodNotAllowed);

const UNKNOWN: Want = Want::Refused(ReplyCode::AuthenticationFailed);

const NO_ENDPOINT: Want = Want::Refused(ReplyCode::EndpointNotFound);

const NO_TASK: Want = Want::Refused(ReplyCode::TaskNotFound);

/// The method, the target, the token, with `-` for none, and the body; and what is answered.
type Row = (&'static str, &'static str, &'static str, &'static str, Want);

// Each request has the causes of all that come behind it.
const IN_ORDER: [Row; 9] = [
    ("POST", NO_ROUTE, "hello", "7", NOT_FOUND),
    ("POST", NO_COLLECTION, "hello", "7", NOT_ALLOWED),
    ("PUT", NO_COLLECTION, "hello", "7", UNKNOWN),
    ("PUT", NO_COLLECTION, "-", "7", UNKNOWN),
    ("PUT", NO_COLLECTION, "abc", "7", Want::Bad("body")),
    ("PUT", NO_COLLECTION, "abc", "{}", Want::Bad("DATA_TYPE")),
    ("PUT", NO_COLLECTION, "abc", READ, NO_ENDPOINT),
    (
        "PUT",
        NO_RULE,
        "abc",
        READ,
        Want::Refused(ReplyCode::RuleNotFound),
    ),
    ("PUT", RULE, "abc", READ, Want::Read),
];

// The routes, and what their methods ask.
const ROUTES: [Row; 34] = [
    ("GET", "/v0.10/submission_id", "abc", "7", Want::Read),
    ("GET", "/v0.10/submission_id?limit=0", "abc", "", Want::Read),
    ("GET", "/v0.10/task_list", "abc", "", Want::Read),
    (
        "GET",
        "/v0.10/task_list?limit=1000&limit=0",
        "abc",
        "",
        Want::Read,
    ),
    (
        "GET",
        "/v0.10/task_list?limit=1001",
        "abc",
        "",
        Want::Bad("query"),
    ),
    (
        "GET",
        "/v0.10/task_list?offset=5?",
        "abc",
        "",
        Want::Bad("query"),
    ),
    (
        "GET",
        "/v0.10/task/00000007-0002-8000-8000-000000000001",
        "abc",
        "",
        Want::Read,
    ),
    (
        "GET",
        "/v0.10/task/{00000007-0002-8000-8000-000000000001}",
        "abc",
        "",
        Want::Read,
    ),
    ("GET", "/v0.10/task/x", "abc", "", NO_TASK),
    (
        "GET",
        "/v0.10/task/00000007-0002-8000-8000-000000000001/successful_transfers",
        "abc",
        "",
        Want::Read,
    ),
    (
        "GET",
        "/v0.10/task/x/successful_transfers",
        "abc",
        "",
        NO_TASK,
    ),
    (
        "GET",
        "/v0.10/task/00000007-0002-8000-8000-000000000001/skipped_errors?offset=7",
        "abc",
        "",
        Want::Read,
    ),
    (
        "GET",
        "/v0.10/task/x/skipped_errors?limit=0",
        "abc",
        "",
        Want::Bad("query"),
    ),
    (
        "GET",
        "/v0.10/endpoint/00000000-0000-4000-8000-0000000000c1",
        "abc",
        "",
        Want::Read,
    ),
    ("GET", "/v0.10/endpoint/x", "abc", "", NO_ENDPOINT),
    (
        "GET",
        "/v0.10/endpoint/00000000-0000-4000-8000-0000000000c1/access_list",
        "abc",
        "",
        Want::Read,
    ),
    (
        "POST",
        "/v0.10/endpoint/x/access",
        "abc",
        "{}",
        Want::Bad("DATA_TYPE"),
    ),
    ("GET", RULE, "abc", "", Want::Read),
    ("DELETE", RULE, "abc", "", Want::Read),
    // Not of the path.
    ("GET", "/v0.10/submission_id/", "abc", "", NOT_FOUND),
    ("GET", "/v0.10/Submission_id", "abc", "", NOT_FOUND),
    ("GET", "/v0.10/task/", "abc", "", NOT_FOUND),
    ("GET", "/v0.10/task/a/b", "abc", "", NOT_FOUND),
    ("GET", "", "abc", "", NOT_FOUND),
    // Not of the method.
    ("get", "/v0.10/submission_id", "abc", "", NOT_ALLOWED),
    ("POST", "/v0.10/task/x", "abc", "", NOT_ALLOWED),
    ("DELETE", TRANSFERS, "abc", "", NOT_ALLOWED),
    ("HEAD", RULE, "abc", "", NOT_ALLOWED),
    // No resources of this desk.
    ("POST", "/v0.10/delete", "abc", "", NOT_FOUND),
    ("PUT", "/v0.10/task/x", "abc", "", NOT_FOUND),
    ("POST", "/v0.10/task/x/cancel", "abc", "", NOT_FOUND),
    (
        "GET",
        "/v0.10/endpoint_manager/pause_rule_list",
        "abc",
        "",
        NOT_FOUND,
    ),
    (
        "POST",
        "/v0.10/endpoint_manager/pause_rule",
        "abc",
        "",
        NOT_FOUND,
    ),
    (
        "DELETE",
        "/v0.10/endpoint_manager/pause_rule/x",
        "abc",
        "",
        NOT_FOUND,
    ),
];

/// A member's name and a value that is bad for it.
type Spoiled = (&'static str, &'static str);

// In the order in which they are tested.
const OF_TRANSFER: [Spoiled; 20] = [
    ("DATA_TYPE", "\"delete\""),
    ("submission_id", "null"),
    ("source_endpoint", "\"x\""),
    ("destination_endpoint", "7"),
    ("label", "7"),
    ("deadline", "\"1970-01-01T00:01:40Z\""),
    ("sync_level", "0"),
    ("verify_checksum", "1"),
    ("preserve_timestamp", "\"true\""),
    ("delete_destination_extra", "true"),
    ("skip_source_errors", "[]"),
    ("recursive_symlinks", "\"copy\""),
    ("notify_on_succeeded", "0"),
    ("notify_on_failed", "0"),
    ("notify_on_inactive", "0"),
    ("encrypt_data", "0"),
    ("fail_on_quota_errors", "0"),
    ("store_base_path_info", "0"),
    ("filter_rules", "[{\"name\":\"*\"}]"),
    ("DATA", "[]"),
];

const OF_ACCESS: [Spoiled; 5] = [
    ("DATA_TYPE", "null"),
    ("principal_type", "\"user\""),
    ("principal", "null"),
    ("path", "\"p\""),
    ("permissions", "\"w\""),
];

const OF_PERMISSION: [Spoiled; 2] = [("DATA_TYPE", "\"transfer\""), ("permissions", "null")];

/// Members that are written behind a transfer, and what is answered.
type Members = (&'static str, Want);

const VALUES: [Members; 25] = [
    ("", Want::Read),
    (",\"label\":\"\"", Want::Read),
    (",\"label\":null", Want::Read),
    (",\"deadline\":null", Want::Read),
    (",\"sync_level\":null", Want::Read),
    (",\"verify_checksum\":null", Want::Read),
    (",\"delete_destination_extra\":false", Want::Read),
    (",\"delete_destination_extra\":null", Want::Read),
    (",\"recursive_symlinks\":\"ignore\"", Want::Read),
    (",\"recursive_symlinks\":null", Want::Read),
    (",\"encrypt_data\":null", Want::Read),
    (",\"filter_rules\":[]", Want::Read),
    (",\"filter_rules\":null", Want::Read),
    (",\"filter_rules\":{}", Want::Bad("filter_rules")),
    (",\"filter_rules\":[7]", Want::Bad("filter_rules")),
    (",\"anything\":[1.5]", Want::Read),
    (",\"label\":7,\"label\":\"first\"", Want::Read),
    (",\"label\":\"first\",\"label\":7", Want::Bad("label")),
    (
        ",\"submission_id\":\"urn:uuid:00000007-0001-8000-8000-00000000000A\"",
        Want::Read,
    ),
    (
        ",\"source_endpoint\":\"00000000-0000-4000-8000-0000000000c9\"",
        NO_ENDPOINT,
    ),
    (
        ",\"source_endpoint\":\"00000000-0000-4000-8000-0000000000c9\",\"DATA\":[]",
        Want::Bad("DATA"),
    ),
    (
        ",\"destination_endpoint\":\"00000000-0000-4000-8000-0000000000c9\"",
        NO_ENDPOINT,
    ),
    (",\"DATA\":{}", Want::Bad("DATA")),
    (",\"DATA\":null", Want::Bad("DATA")),
    (",\"DATA\":[7]", Want::Bad("DATA[0]")),
];

// Members that are written behind the second of two entries.
const ENTRIES: [Members; 10] = [
    ("", Want::Read),
    (
        ",\"DATA_TYPE\":\"delete_item\",\"source_path\":7",
        Want::Bad("DATA[1].DATA_TYPE"),
    ),
    (
        ",\"source_path\":\"e\",\"destination_path\":7",
        Want::Bad("DATA[1].source_path"),
    ),
    (
        ",\"destination_path\":7,\"recursive\":7",
        Want::Bad("DATA[1].destination_path"),
    ),
    (",\"recursive\":0", Want::Bad("DATA[1].recursive")),
    (",\"recursive\":true", Want::Bad("DATA[1].recursive")),
    (",\"recursive\":false", Want::Read),
    (",\"recursive\":null", Want::Read),
    (",\"source_path\":\"/~\"", Want::Read),
    (",\"anything\":{}", Want::Read),
];

/// The last digits of the destination's collection, the two paths of the one entry, and what is answered. The source is
/// the collection `c0`, whose home is `/home/ann`.
type Sides = (&'static str, &'static str, &'static str, Want);

const SIDES: [Sides; 7] = [
    ("c0", "/a", "/b", Want::Read),
    ("c0", "/a", "/ab", Want::Read),
    ("c0", "/a/b", "/a", Want::Bad("DATA[0].destination_path")),
    ("c0", "/a", "/a/b", Want::Bad("DATA[0].destination_path")),
    (
        "c0",
        "/~/b",
        "/home/ann",
        Want::Bad("DATA[0].destination_path"),
    ),
    ("c1", "/a", "/a", Want::Read),
    ("c9", "/a", "/a", NO_ENDPOINT),
];

fn id(last: u8) -> Id {
    Id::from_bytes([0, 0, 0, 0, 0, 0, 0x40, 0, 0x80, 0, 0, 0, 0, 0, 0, last])
}

// The setup and the routes, made once.
#[derive(Drop)]
struct Served {
    setup: Setup,
    routes: Routes,
}

fn desk(alloc: Global) -> Result<Served, Fail> {
    let setup = Setup::read(alloc, SETUP)?;
    let routes = Routes::new(alloc)?;
    Ok(Served { setup, routes })
}

// Whether the answer is the one wanted.
fn is_wanted(answer: &Result<(Id, Command), RequestFault>, want: Want) -> bool {
    match answer {
        Ok((caller, _)) => matches!(want, Want::Read) && *caller == id(0xa1),
        Err(RequestFault::Refused { code, place }) => is_refusal(*code, place.as_str(), want),
        Err(_) => false,
    }
}

// Whether a refusal with this code at this place is wanted.
fn is_refusal(code: ReplyCode, place: &str, want: Want) -> bool {
    match want {
        Want::Read => false,
        Want::Refused(wanted) => code == wanted && place.is_empty(),
        Want::Bad(wanted) => code == ReplyCode::BadRequest && place == wanted,
    }
}

// Whether the request is answered so.
fn is_answered(alloc: Global, desk: &Served, row: Row) -> bool {
    let (method, target, token, body, want) = row;
    let token = if token == "-" { None } else { Some(token) };
    let answer = desk
        .routes
        .read(alloc, &desk.setup, method, target, token, body.as_bytes());
    is_wanted(&answer, want)
}

// The place of the first row that is answered otherwise.
fn first_wrong(alloc: Global, rows: &[Row]) -> Result<Option<usize>, Fail> {
    let desk = desk(alloc)?;
    for (place, row) in rows.iter().enumerate() {
        if !is_answered(alloc, &desk, *row) {
            return Ok(Some(place));
        }
    }
    Ok(None)
}

// Whether a document is answered so.
fn is_told(alloc: Global, desk: &Served, document: Document, body: &[u8], want: Want) -> bool {
    let Document { method, target, .. } = document;
    let answer = desk
        .routes
        .read(alloc, &desk.setup, method, target, Some("abc"), body);
    is_wanted(&answer, want)
}

// The document with these members behind its own, the last of them first.
fn spoiled(alloc: Global, document: Document, members: &[Spoiled]) -> Result<String, Fail> {
    let mut text = String::from_str(alloc, document.text)?;
    for (name, value) in members.iter().rev() {
        text.push_str(",\"")?;
        text.push_str(name)?;
        text.push_str("\":")?;
        text.push_str(value)?;
    }
    text.push('}')?;
    Ok(text)
}

// Whether the document with these bad members is refused at that of this name.
fn is_bad_at(
    alloc: Global,
    desk: &Served,
    document: Document,
    members: &[Spoiled],
    name: &'static str,
) -> Result<bool, Fail> {
    let body = spoiled(alloc, document, members)?;
    Ok(is_told(alloc, desk, document, body.as_bytes(), Want::Bad(name)))
}

// The place of the first member that isn't told where it alone is bad, or where it and all behind it are.
fn first_untold(
    alloc: Global,
    document: Document,
    members: &[Spoiled],
) -> Result<Option<usize>, Fail> {
    let desk = desk(alloc)?;
    for place in 0..members.len() {
        let name = members[place].0;
        let alone = is_bad_at(alloc, &desk, document, &members[place..place + 1], name)?;
        let first = is_bad_at(alloc, &desk, document, &members[place..], name)?;
        if !alone || !first {
            return Ok(Some(place));
        }
    }
    Ok(None)
}

// A transfer with these members behind its own, and behind the second of two entries.
fn transfer(alloc: Global, members: &str, of_entry: &str) -> Result<String, Fail> {
    let mut text = String::from_str(alloc, TRANSFER.text)?;
    if !of_entry.is_empty() {
        text.push_str(",\"DATA\":[")?;
        text.push_str(ENTRY)?;
        text.push_str("},")?;
        text.push_str(ENTRY)?;
        text.push_str(of_entry)?;
        text.push_str("}]")?;
    }
    text.push_str(members)?;
    text.push('}')?;
    Ok(text)
}

// Whether a transfer with these members is answered so.
fn is_transfer(
    alloc: Global,
    desk: &Served,
    members: &str,
    of_entry: &str,
    want: Want,
) -> Result<bool, Fail> {
    let body = transfer(alloc, members, of_entry)?;
    Ok(is_told(alloc, desk, TRANSFER, body.as_bytes(), want))
}

// The place of the first members behind a transfer that are answered otherwise.
fn first_wrong_value(alloc: Global, rows: &[Members]) -> Result<Option<usize>, Fail> {
    let desk = desk(alloc)?;
    for (place, (members, want)) in rows.iter().enumerate() {
        if !is_transfer(alloc, &desk, members, "", *want)? {
            return Ok(Some(place));
        }
    }
    Ok(None)
}

// The place of the first members behind an entry that are answered otherwise.
fn first_wrong_entry(alloc: Global, rows: &[Members]) -> Result<Option<usize>, Fail> {
    let desk = desk(alloc)?;
    for (place, (members, want)) in rows.iter().enumerate() {
        if !is_transfer(alloc, &desk, "", members, *want)? {
            return Ok(Some(place));
        }
    }
    Ok(None)
}

// A transfer of one entry to this collection.
fn between(alloc: Global, sides: Sides) -> Result<String, Fail> {
    let (collection, source, destination, _) = sides;
    let mut text = String::from_str(alloc, TRANSFER.text)?;
    text.push_str(",\"destination_endpoint\":\"00000000-0000-4000-8000-0000000000")?;
    text.push_str(collection)?;
    text.push_str("\",\"DATA\":[{\"DATA_TYPE\":\"transfer_item\",\"source_path\":\"")?;
    text.push_str(source)?;
    text.push_str("\",\"destination_path\":\"")?;
    text.push_str(destination)?;
    text.push_str("\"}]}")?;
    Ok(text)
}

// The place of the first sides between which a transfer is answered otherwise.
fn first_wrong_side(alloc: Global, rows: &[Sides]) -> Result<Option<usize>, Fail> {
    let desk = desk(alloc)?;
    for (place, row) in rows.iter().enumerate() {
        let body = between(alloc, *row)?;
        if !is_told(alloc, &desk, TRANSFER, body.as_bytes(), row.3) {
            return Ok(Some(place));
        }
    }
    Ok(None)
}

// Whether a transfer with a label of so many characters, of two bytes each, is answered so.
fn is_labelled(alloc: Global, characters: usize, want: Want) -> Result<bool, Fail> {
    let mut members = String::from_str(alloc, ",\"label\":\"")?;
    members.push_str("\u{e9}".repeat(alloc, characters)?.as_str())?;
    members.push('"')?;
    is_transfer(alloc, &desk(alloc)?, members.as_str(), "", want)
}

// A list of so many entries, one at least.
fn entries(alloc: Global, count: usize) -> Result<String, Fail> {
    let mut one = String::from_str(alloc, ENTRY)?;
    one.push_str("},")?;
    let mut list = String::from_str(alloc, ",\"DATA\":[")?;
    list.push_str(one.repeat(alloc, count.saturating_sub(1))?.as_str())?;
    list.push_str(ENTRY)?;
    list.push_str("}]")?;
    Ok(list)
}

// Whether a transfer of so many entries is answered so.
fn is_counted(alloc: Global, count: usize, want: Want) -> Result<bool, Fail> {
    let list = entries(alloc, count)?;
    is_transfer(alloc, &desk(alloc)?, list.as_str(), "", want)
}

// Whether a transfer with spaces behind it, up to so many bytes, is answered so.
fn is_sized(alloc: Global, bytes: usize, want: Want) -> Result<bool, Fail> {
    let mut body = transfer(alloc, "", "")?;
    body.push_str(
        " ".repeat(alloc, bytes.saturating_sub(body.len()))?
            .as_str(),
    )?;
    Ok(is_told(alloc, &desk(alloc)?, TRANSFER, body.as_bytes(), want))
}

// The command of a request, made of routes for it alone.
fn command(alloc: Global, method: &str, target: &str, body: &str) -> Result<Option<Command>, Fail> {
    let setup = Setup::read(alloc, SETUP)?;
    match read_request(alloc, &setup, method, target, Some("abc"), body.as_bytes()) {
        Ok((_, command)) => Ok(Some(command)),
        Err(_) => Ok(None),
    }
}

/// What a transfer asks.
#[derive(Clone, Copy)]
struct Sent {
    source: u32,
    destination: u32,
    is_made: bool,
    is_first: bool,
    verify: bool,
    preserve: bool,
    skip_source: bool,
    given: u8,
    set: u8,
    entries: usize,
    at_home: usize,
}

// Whether the entry has these paths, and no word on folders.
fn is_at_home(alloc: Global, entry: &TransferEntry) -> Result<bool, Fail> {
    let source = entry.source.print(alloc)?;
    let destination = entry.destination.print(alloc)?;
    Ok(
        source.as_str() == "/home/ann/e"
            && destination.as_str() == "/e"
            && entry.recursive.is_none(),
    )
}

// How many of the entries lead from the home of ann.
fn count_at_home(alloc: Global, entries: &[TransferEntry]) -> Result<usize, Fail> {
    let mut count = 0;
    for at in 0..entries.len() {
        if is_at_home(alloc, &entries[at])? && count <= at {
            count += 1;
        }
    }
    Ok(count)
}

fn sent_of(alloc: Global, submission: &Id, spec: &TransferSpec) -> Result<Sent, Fail> {
    let is_first = match &spec.label {
        Some(label) => label.as_str() == "first",
        None => false,
    };
    let entries = spec.entries.as_slice();
    Ok(Sent {
        source: spec.source,
        destination: spec.destination,
        is_made: *submission == Id::made(7, 1, 1),
        is_first,
        verify: spec.verify,
        preserve: spec.preserve,
        skip_source: spec.skip_source,
        given: spec.kept.given,
        set: spec.kept.set,
        entries: entries.len(),
        at_home: count_at_home(alloc, entries)?,
    })
}

// What a transfer with these members asks.
fn sent_by(alloc: Global, members: &str) -> Result<Option<Sent>, Fail> {
    let body = transfer(alloc, members, "")?;
    let command = command(alloc, "POST", TRANSFERS, body.as_str())?;
    match &command {
        Some(Command::SubmitTransfer { submission, spec }) => {
            Ok(Some(sent_of(alloc, submission, spec)?))
        }
        _ => Ok(None),
    }
}

// Whether the rule lets this principal write below `/home/ann/p`.
fn lets_write(alloc: Global, spec: &AccessSpec, principal: Principal) -> Result<bool, Fail> {
    let path = spec.path.print(alloc)?;
    Ok(spec.write && spec.principal == principal && path.as_str() == "/home/ann/p")
}

// Whether a document with this type of principal, and its other members behind it, adds such a rule to the first collection.
fn is_rule(alloc: Global, members: &str, principal: Principal) -> Result<bool, Fail> {
    let mut body = String::from_str(alloc, ACCESS.text)?;
    body.push_str(",\"path\":\"/~/p/\",\"principal_type\":")?;
    body.push_str(members)?;
    body.push('}')?;
    match command(alloc, "POST", RULES, body.as_str())? {
        Some(Command::AddAccess { collection, spec }) => {
            Ok(collection == 0 && lets_write(alloc, &spec, principal)?)
        }
        _ => Ok(false),
    }
}

// The page of tasks that a target asks for.
fn page_of(alloc: Global, target: &str) -> Result<Option<(u32, u64)>, Fail> {
    match command(alloc, "GET", target, "")? {
        Some(Command::ListTasks { limit, offset }) => Ok(Some((limit, offset))),
        _ => Ok(None),
    }
}

const PAGES: [(&str, u32, u64); 6] = [
    ("/v0.10/task_list", 100, 0),
    ("/v0.10/task_list?", 100, 0),
    (
        "/v0.10/task_list?limit=1&offset=18446744073709551615",
        1,
        18_446_744_073_709_551_615,
    ),
    ("/v0.10/task_list?limit=1000&limit=0&x=%ff", 1000, 0),
    ("/v0.10/task_list?%6Cimit=%37", 7, 0),
    ("/v0.10/task_list?x=?&l%69mit=2&li+mit=3", 2, 0),
];

#[test]
fn refusals_come_in_their_order(rt: HostRuntime) -> Result<(), Fail> {
    assert_eq!(rt; first_wrong(rt.alloc(), &IN_ORDER)?, None);
    Ok(())
}

#[test]
fn routes_have_their_methods(rt: HostRuntime) -> Result<(), Fail> {
    assert_eq!(rt; first_wrong(rt.alloc(), &ROUTES)?, None);
    Ok(())
}

#[test]
fn each_member_of_a_document_is_tested(rt: HostRuntime) -> Result<(), Fail> {
    let alloc = rt.alloc();
    assert_eq!(rt; first_untold(alloc, TRANSFER, &OF_TRANSFER)?, None);
    assert_eq!(rt; first_untold(alloc, ACCESS, &OF_ACCESS)?, None);
    assert_eq!(rt; first_untold(alloc, PERMISSION, &OF_PERMISSION)?, None);
    Ok(())
}

#[test]
fn members_have_their_values(rt: HostRuntime) -> Result<(), Fail> {
    let alloc = rt.alloc();
    assert_eq!(rt; first_wrong_value(alloc, &VALUES)?, None);
    assert_eq!(rt; first_wrong_entry(alloc, &ENTRIES)?, None);
    assert_eq!(rt; first_wrong_side(alloc, &SIDES)?, None);
    Ok(())
}

#[test]
fn a_label_has_128_characters(rt: HostRuntime) -> Result<(), Fail> {
    assert!(rt; is_labelled(rt.alloc(), 128, Want::Read)?);
    assert!(rt; is_labelled(rt.alloc(), 129, Want::Bad("label"))?);
    Ok(())
}

#[test]
fn a_list_has_10000_entries(rt: HostRuntime) -> Result<(), Fail> {
    assert!(rt; is_counted(rt.alloc(), 1, Want::Read)?);
    assert!(rt; is_counted(rt.alloc(), 10_000, Want::Read)?);
    Ok(())
}

#[test]
fn a_longer_list_is_bad(rt: HostRuntime) -> Result<(), Fail> {
    assert!(rt; is_counted(rt.alloc(), 10_001, Want::Bad("DATA"))?);
    Ok(())
}

#[test]
fn a_body_has_4_mebibytes(rt: HostRuntime) -> Result<(), Fail> {
    let alloc = rt.alloc();
    assert!(rt; is_sized(alloc, 4_194_304, Want::Read)?);
    assert!(rt; is_sized(alloc, 4_194_305, Want::Refused(ReplyCode::TooLarge))?);
    Ok(())
}

// Two entries, and the members without effect that the flags of bits 2 and 32 stand for.
const MEMBERS: &str =
    ",\"verify_checksum\":true,\"skip_source_errors\":true,\"label\":\"first\",\"notify_on_failed\":true,\"store_base_path_info\":false,\"DATA\":[{\"DATA_TYPE\":\"transfer_item\",\"source_path\":\"/~/e\",\"destination_path\":\"/~/e\"},{\"DATA_TYPE\":\"transfer_item\",\"source_path\":\"/~/e\",\"destination_path\":\"/e/\"}]";

#[test]
fn a_transfer_has_its_values(rt: HostRuntime) -> Result<(), Fail> {
    let Some(sent) = sent_by(rt.alloc(), MEMBERS)? else {
        return Err("no transfer")?;
    };
    assert_eq!(rt; sent.source, 0);
    assert_eq!(rt; sent.destination, 1);
    assert!(rt; sent.is_made && sent.is_first);
    assert!(rt; sent.verify && sent.skip_source && !sent.preserve);
    assert_eq!(rt; sent.given, 34);
    assert_eq!(rt; sent.set, 2);
    assert_eq!(rt; sent.entries, 2);
    assert_eq!(rt; sent.at_home, 2);
    Ok(())
}

#[test]
fn rules_have_their_principals(rt: HostRuntime) -> Result<(), Fail> {
    let alloc = rt.alloc();
    assert!(rt; is_rule(alloc, "\"identity\"", Principal::Identity(id(0xa1)))?);
    assert!(rt; is_rule(alloc, "\"group\"", Principal::Group(id(0xa1)))?);
    let everybody = "\"all_authenticated_users\",\"principal\":null";
    assert!(rt; is_rule(alloc, everybody, Principal::AllAuthenticated)?);
    // An identifier isn't read where the type has none.
    assert!(rt; is_rule(alloc, "\"anonymous\",\"principal\":7", Principal::Anonymous)?);
    Ok(())
}

#[test]
fn queries_ask_for_pages(rt: HostRuntime) -> Result<(), Fail> {
    for (target, limit, offset) in PAGES {
        assert_eq!(rt; page_of(rt.alloc(), target)?, Some((limit, offset)));
    }
    Ok(())
}
