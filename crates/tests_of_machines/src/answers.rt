// Scripts of requests: what each is answered, as the status and the bytes of its document.
ghost use Rattle.std.specs.Prelude.{◌≡◌, IfOk, IsTrue, length};
ghost use Rattle.gt_machine.specs.Run.{IsReached};
ghost use Rattle.gt_types.specs.Command as page;
ghost use Rattle.gt_types.specs.Command.{is_command};

use crate::machine::{ANN, BOB, SETUP, id, transfer};
use gt_machine::{Decision, State, empty_states_are_reached};
use gt_paths::Path;
use gt_replies::write_reply;
use gt_setup::Setup;
use gt_types::{AccessSpec, Command, Principal, Who, is_access_spec, is_transfer_spec};
use gt_values::{Id, Moment, Sequence};
use std::alloc::Global;
use std::test::Fail;

// A request. A submission has this identifier and so many entries, a list this limit and offset. A rule is Bob's, on a path.
// Tasks and rules are named by the namespace and the number of which their identifiers are made.
#[derive(Clone, Copy)]
enum Ask {
    Issue,
    Submit(u8, usize),
    Tasks(u32, u64),
    Task(u32, u32),
    Successes(u32),
    Skipped(u32),
    Endpoint(u32),
    Rules(u32),
    Add(u32, &'static str, bool),
    Rule(u32, u32),
    Replace(u32, u32, bool),
    End(u32, u32),
}

// What is answered: a status with a text, the document of a task by its number, or a page of the caller's tasks.
#[derive(Clone, Copy)]
enum Want {
    Text(u16, &'static str),
    Task(usize),
    Tasks(&'static [usize], u64),
}

// Who asks what, and what is answered.
type Row = (u8, Ask, Want);

const DENIED: Want = Want::Text(
    403,
    r#"{"DATA_TYPE":"error","code":"PermissionDenied","message":"Only the owner may do this."}"#,
);

const NO_TASK: Want = Want::Text(
    404,
    r#"{"DATA_TYPE":"error","code":"TaskNotFound","message":"No such task."}"#,
);

const NO_RULE: Want = Want::Text(
    404,
    r#"{"DATA_TYPE":"error","code":"RuleNotFound","message":"No such rule."}"#,
);

const EXISTS: Want = Want::Text(
    409,
    r#"{"DATA_TYPE":"error","code":"Exists","message":"Such a rule exists."}"#,
);

const UPDATED: Want = Want::Text(
    200,
    r#"{"DATA_TYPE":"result","code":"Updated","message":"The change was made."}"#,
);

const DELETED: Want = Want::Text(
    200,
    r#"{"DATA_TYPE":"result","code":"Deleted","message":"The rule was deleted."}"#,
);

const MADE_1: Want = Want::Text(
    201,
    r#"{"DATA_TYPE":"access_create_result","access_id":"00000007-0003-8000-8000-000000000001","code":"Created","message":"The rule was created."}"#,
);

const MADE_2: Want = Want::Text(
    201,
    r#"{"DATA_TYPE":"access_create_result","access_id":"00000007-0003-8000-8000-000000000002","code":"Created","message":"The rule was created."}"#,
);

const RULE_1: Want = Want::Text(
    200,
    r#"{"DATA_TYPE":"access","id":"00000007-0003-8000-8000-000000000001","path":"/e/","permissions":"r","principal":"00000000-0000-4000-8000-0000000000b2","principal_type":"identity"}"#,
);

const NO_RULES: Want = Want::Text(
    200,
    r#"{"DATA":[],"DATA_TYPE":"access_list","endpoint":"00000000-0000-4000-8000-0000000000c1"}"#,
);

// The first rule was replaced, so its row is the last.
const BOTH_RULES: Want = Want::Text(
    200,
    r#"{"DATA":[{"DATA_TYPE":"access","id":"00000007-0003-8000-8000-000000000001","path":"/e/","permissions":"rw","principal":"00000000-0000-4000-8000-0000000000b2","principal_type":"identity"},{"DATA_TYPE":"access","id":"00000007-0003-8000-8000-000000000002","path":"/f/","permissions":"r","principal":"00000000-0000-4000-8000-0000000000b2","principal_type":"identity"}],"DATA_TYPE":"access_list","endpoint":"00000000-0000-4000-8000-0000000000c1"}"#,
);

// The owners and the entries of the tasks.
const TASKS: [(u8, u64); 3] = [(ANN, 1), (BOB, 2), (ANN, 3)];

const ON_TASKS: [Row; 23] = [
    (
        ANN,
        Ask::Issue,
        Want::Text(
            200,
            r#"{"DATA_TYPE":"submission_id","value":"00000007-0001-8000-8000-000000000001"}"#,
        ),
    ),
    (
        ANN,
        Ask::Submit(1, 1),
        Want::Text(
            202,
            r#"{"DATA_TYPE":"transfer_result","code":"Accepted","message":"The task was accepted.","submission_id":"00000000-0000-4000-8000-000000000001","task_id":"00000007-0002-8000-8000-000000000001"}"#,
        ),
    ),
    (
        BOB,
        Ask::Submit(1, 2),
        Want::Text(
            202,
            r#"{"DATA_TYPE":"transfer_result","code":"Accepted","message":"The task was accepted.","submission_id":"00000000-0000-4000-8000-000000000001","task_id":"00000007-0002-8000-8000-000000000002"}"#,
        ),
    ),
    (
        ANN,
        Ask::Submit(2, 3),
        Want::Text(
            202,
            r#"{"DATA_TYPE":"transfer_result","code":"Accepted","message":"The task was accepted.","submission_id":"00000000-0000-4000-8000-000000000002","task_id":"00000007-0002-8000-8000-000000000003"}"#,
        ),
    ),
    (
        BOB,
        Ask::Submit(1, 5),
        Want::Text(
            200,
            r#"{"DATA_TYPE":"transfer_result","code":"Duplicate","message":"This submission was accepted before.","submission_id":"00000000-0000-4000-8000-000000000001","task_id":"00000007-0002-8000-8000-000000000002"}"#,
        ),
    ),
    (ANN, Ask::Task(7, 1), Want::Task(1)),
    (BOB, Ask::Task(7, 2), Want::Task(2)),
    (BOB, Ask::Task(7, 1), NO_TASK),
    (ANN, Ask::Task(7, 2), NO_TASK),
    (ANN, Ask::Task(7, 0), NO_TASK),
    (ANN, Ask::Task(7, 4), NO_TASK),
    (ANN, Ask::Task(8, 1), NO_TASK),
    (ANN, Ask::Tasks(100, 0), Want::Tasks(&[1, 3], 2)),
    (BOB, Ask::Tasks(100, 0), Want::Tasks(&[2], 1)),
    (ANN, Ask::Tasks(1, 0), Want::Tasks(&[1], 2)),
    (ANN, Ask::Tasks(1, 1), Want::Tasks(&[3], 2)),
    (ANN, Ask::Tasks(1000, 2), Want::Tasks(&[], 2)),
    (
        ANN,
        Ask::Tasks(1000, 18446744073709551615),
        Want::Tasks(&[], 2),
    ),
    (
        ANN,
        Ask::Successes(1),
        Want::Text(
            200,
            r#"{"DATA":[],"DATA_TYPE":"successful_transfers","limit":10,"offset":0,"total":0}"#,
        ),
    ),
    (
        ANN,
        Ask::Skipped(3),
        Want::Text(
            200,
            r#"{"DATA":[],"DATA_TYPE":"skipped_errors","limit":10,"offset":0,"total":0}"#,
        ),
    ),
    (BOB, Ask::Successes(1), NO_TASK),
    (BOB, Ask::Skipped(3), NO_TASK),
    (
        BOB,
        Ask::Endpoint(0),
        Want::Text(
            200,
            r#"{"DATA_TYPE":"endpoint","default_directory":"/","display_name":"Lab","id":"00000000-0000-4000-8000-0000000000c0","owner_id":"00000000-0000-4000-8000-0000000000a1"}"#,
        ),
    ),
];

const ON_RULES: [Row; 24] = [
    (ANN, Ask::Rules(1), NO_RULES),
    (BOB, Ask::Rules(1), DENIED),
    (BOB, Ask::Add(1, "/e", false), DENIED),
    (ANN, Ask::Add(1, "/e", false), MADE_1),
    (ANN, Ask::Add(1, "/e", true), EXISTS),
    (ANN, Ask::Rule(1, 1), RULE_1),
    (BOB, Ask::Rule(1, 1), DENIED),
    (BOB, Ask::Replace(1, 1, true), DENIED),
    (BOB, Ask::End(1, 1), DENIED),
    // A rule of another collection, of the same owner and of another.
    (ANN, Ask::Rule(0, 1), NO_RULE),
    (BOB, Ask::Rule(2, 1), NO_RULE),
    (ANN, Ask::Rule(1, 2), NO_RULE),
    (ANN, Ask::Replace(1, 2, true), NO_RULE),
    (ANN, Ask::End(0, 1), NO_RULE),
    (BOB, Ask::Add(2, "/e", true), MADE_2),
    (ANN, Ask::Replace(1, 1, false), UPDATED),
    (ANN, Ask::Rule(1, 1), RULE_1),
    (ANN, Ask::End(1, 1), DELETED),
    (ANN, Ask::End(1, 1), NO_RULE),
    (ANN, Ask::Rule(1, 1), NO_RULE),
    (ANN, Ask::Rules(1), NO_RULES),
    (ANN, Ask::Replace(1, 1, true), NO_RULE),
    (BOB, Ask::End(2, 2), DELETED),
    (BOB, Ask::End(2, 1), NO_RULE),
];

// Two rules of one collection, of which the first is replaced.
const ON_LISTS: [Row; 4] = [
    (ANN, Ask::Add(1, "/e", false), MADE_1),
    (ANN, Ask::Add(1, "/f", false), MADE_2),
    (ANN, Ask::Replace(1, 1, true), UPDATED),
    (ANN, Ask::Rules(1), BOTH_RULES),
];

const FULL: Want = Want::Text(
    409,
    r#"{"DATA_TYPE":"error","code":"LimitReached","message":"The table is full."}"#,
);

// What is asked where the table of rules is full: its first row was replaced by all the others.
const ON_FULL_RULES: [Row; 4] = [
    (ANN, Ask::Add(1, "/e", false), EXISTS),
    (ANN, Ask::Add(1, "/f", false), FULL),
    (ANN, Ask::Replace(1, 1, true), FULL),
    (ANN, Ask::End(1, 1), DELETED),
];

fn on_path(alloc: Global, text: &str, write: bool) -> Result<AccessSpec, Fail> {
    Ok(AccessSpec {
        principal: Principal::Identity(id(BOB)),
        path: Path::read(alloc, text, &Path::root(alloc))?,
        write,
    })
}

fn task_id(namespace: u32, number: u32) -> Id {
    Id::made(namespace, 2, number as u64)
}

fn rule_id(number: u32) -> Id {
    Id::made(7, 3, number as u64)
}

fn submission(alloc: Global, last: u8, times: usize) -> Result<Command, Fail>
    ensures { IfOk result (λ c. IsTrue (is_command 3 c)) }
{
    let submission = id(last);
    let spec = transfer(alloc, times)?;
    if spec.source > 2 || spec.destination > 2 || !is_transfer_spec(&spec) {
        return Err(Fail::from("a transfer within the limits"));
    }
    let _bytes = submission.as_bytes();
    Ok(Command::SubmitTransfer { submission, spec })
}

fn addition(alloc: Global, collection: u32, text: &str, write: bool) -> Result<Command, Fail>
    ensures { IfOk result (λ c. IsTrue (is_command 3 c)) }
{
    let spec = on_path(alloc, text, write)?;
    if collection > 2 || !is_access_spec(&spec) {
        return Err(Fail::from("a rule within the limits"));
    }
    Ok(Command::AddAccess { collection, spec })
}

// What is asked of a rule, or of a collection.
fn of_rule(ask: Ask) -> Result<Command, Fail>
    ensures { IfOk result (λ c. IsTrue (is_command 3 c)) }
{
    let command = match ask {
        Ask::Endpoint(collection) => Command::ShowEndpoint { collection },
        Ask::Rules(collection) => Command::ListAccess { collection },
        Ask::Rule(collection, number) => Command::ShowAccess {
            collection,
            rule: rule_id(number),
        },
        Ask::Replace(collection, number, write) => Command::ReplaceAccess {
            collection,
            rule: rule_id(number),
            write,
        },
        Ask::End(collection, number) => Command::EndAccess {
            collection,
            rule: rule_id(number),
        },
        _ => return Err(Fail::from("a rule")),
    };
    if is_within(&command) {
        Ok(command)
    } else {
        Err(Fail::from("a command within its limits"))
    }
}

// What is asked of a task, or of all.
fn of_task(ask: Ask) -> Result<Command, Fail>
    ensures { IfOk result (λ c. IsTrue (is_command 3 c)) }
{
    let command = match ask {
        Ask::Tasks(limit, offset) => Command::ListTasks { limit, offset },
        Ask::Task(namespace, number) => Command::ShowTask {
            task: task_id(namespace, number),
        },
        Ask::Successes(number) => Command::ListSuccesses {
            task: task_id(7, number),
            limit: 10,
            offset: 0,
        },
        Ask::Skipped(number) => Command::ListSkipped {
            task: task_id(7, number),
            limit: 10,
            offset: 0,
        },
        _ => return Err(Fail::from("a task")),
    };
    if is_within(&command) {
        Ok(command)
    } else {
        Err(Fail::from("a command within its limits"))
    }
}

// Whether a command on tasks or rules that are there is within its limits.
fn is_within(command: &Command) -> bool
    ensures { IsTrue result → IsTrue (is_command 3 command.now) }
{
    match command {
        Command::ListTasks { limit, offset } => is_page(*limit, *offset),
        Command::ShowTask { task } => task.is_id(),
        Command::ListSuccesses {
            task,
            limit,
            offset,
        } => task.is_id() && is_page(*limit, *offset),
        Command::ListSkipped {
            task,
            limit,
            offset,
        } => task.is_id() && is_page(*limit, *offset),
        Command::ShowEndpoint { collection } => *collection < 3,
        Command::ListAccess { collection } => *collection < 3,
        Command::ShowAccess { collection, rule } => *collection < 3 && rule.is_id(),
        Command::EndAccess { collection, rule } => *collection < 3 && rule.is_id(),
        Command::ReplaceAccess {
            collection,
            rule,
            write: _,
        } => *collection < 3 && rule.is_id(),
        _ => false,
    }
}

// A page of 1 to 1,000 rows.
fn is_page(limit: u32, _offset: u64) -> bool
    ensures { IsTrue result → IsTrue (page.is_page limit _offset) }
{
    1 <= limit && limit <= 1000
}

fn command(alloc: Global, ask: Ask) -> Result<Command, Fail>
    ensures { IfOk result (λ c. IsTrue (is_command 3 c)) }
{
    match ask {
        Ask::Issue => Ok(Command::IssueId),
        Ask::Submit(last, times) => submission(alloc, last, times),
        Ask::Add(collection, text, write) => addition(alloc, collection, text, write),
        Ask::Tasks(_, _) | Ask::Task(_, _) | Ask::Successes(_) | Ask::Skipped(_) => of_task(ask),
        _ => of_rule(ask),
    }
}

// What the caller is answered at the moment 120. The event, if one is made, moves the state.
fn answered(
    alloc: Global,
    state: &mut State,
    setup: &Setup,
    caller: u8,
    ask: Ask,
) -> Result<(u16, Vec<u8>), Fail>
    requires reached { IsReached setup.now state.old.machine }
    requires three { length setup.now.collections ≡ 3 }
    ensures { IsReached setup.now state.new.machine }
{
    let now = Moment::of(120).ok_or("a moment")?;
    let command = command(alloc, ask)?;
    let who = Who {
        identity: id(caller),
        groups: Sequence::new(alloc),
    };
    if state.events() >= 1 << 62 || setup.who(&who.identity).is_none() {
        return Err(Fail::from("a caller and few events"));
    }
    match state.decide(alloc, setup, &who, &command, now)? {
        Decision::Say(reply) => Ok(write_reply(alloc, setup, &reply)?),
        Decision::Do(event, reply) => {
            let written = write_reply(alloc, setup, &reply)?;
            match state.take_event(alloc, setup, event) {
                Ok(()) => Ok(written),
                Err(_) => Err(Fail::from("a step")),
            }
        }
    }
}

// The document of a task of which no item has ended.
fn task_text(alloc: Global, number: usize) -> Result<String, Fail> {
    let (owner, entries) = match TASKS.get(number.wrapping_sub(1)) {
        Some(task) => *task,
        None => return Err(Fail::from("a task of the table")),
    };
    let owner = if owner == ANN { "a1" } else { "b2" };
    Ok(format!(in alloc;
        "{{\"DATA_TYPE\":\"task\",\"bytes_checksummed\":0,\"bytes_transferred\":0,\"completion_time\":null,\"deadline\":null,\"delete_destination_extra\":false,\"destination_endpoint_id\":\"00000000-0000-4000-8000-0000000000c1\",\"directories\":0,\"fatal_error\":null,\"faults\":0,\"files\":0,\"files_skipped\":0,\"files_transferred\":0,\"is_paused\":false,\"label\":null,\"owner_id\":\"00000000-0000-4000-8000-0000000000{owner}\",\"preserve_timestamp\":false,\"recursive_symlinks\":\"ignore\",\"request_time\":\"1970-01-01T00:02:00+00:00\",\"skip_source_errors\":false,\"source_endpoint_id\":\"00000000-0000-4000-8000-0000000000c0\",\"status\":\"ACTIVE\",\"subtasks_canceled\":0,\"subtasks_expired\":0,\"subtasks_failed\":0,\"subtasks_pending\":{entries},\"subtasks_retrying\":0,\"subtasks_skipped_errors\":0,\"subtasks_succeeded\":0,\"subtasks_total\":{entries},\"sync_level\":null,\"task_id\":\"00000007-0002-8000-8000-00000000000{number}\",\"type\":\"TRANSFER\",\"verify_checksum\":true}}"
    )?)
}

// A list of these tasks.
fn tasks_text(alloc: Global, numbers: &[usize]) -> Result<String, Fail> {
    let mut text = String::new(alloc);
    for number in numbers {
        if !text.is_empty() {
            text.push_str(",")?;
        }
        let one = task_text(alloc, *number)?;
        text.push_str(&one)?;
    }
    Ok(text)
}

// The status and the text that are wanted.
fn wanted(alloc: Global, ask: Ask, want: Want) -> Result<(u16, String), Fail> {
    match want {
        Want::Text(status, text) => Ok((status, String::from_str(alloc, text)?)),
        Want::Task(number) => Ok((200, task_text(alloc, number)?)),
        Want::Tasks(numbers, total) => {
            let (limit, offset) = match ask {
                Ask::Tasks(limit, offset) => (limit, offset),
                _ => return Err(Fail::from("a list of tasks")),
            };
            let rows = tasks_text(alloc, numbers)?;
            Ok((
                200,
                format!(in alloc;
                    "{{\"DATA\":[{rows}],\"DATA_TYPE\":\"task_list\",\"limit\":{limit},\"offset\":{offset},\"total\":{total}}}"
                )?,
            ))
        }
    }
}

// Whether the request is answered so.
fn is_answered(alloc: Global, state: &mut State, setup: &Setup, row: Row) -> Result<bool, Fail>
    requires reached { IsReached setup.now state.old.machine }
    requires three { length setup.now.collections ≡ 3 }
    ensures { IsReached setup.now state.new.machine }
{
    let (status, bytes) = answered(alloc, state, setup, row.0, row.1)?;
    let (code, text) = wanted(alloc, row.1, row.2)?;
    Ok(status == code && bytes.as_slice() == text.as_bytes())
}

// How many of the requests are answered so from this state on, up to the first that isn't.
fn right(alloc: Global, state: State, setup: &Setup, rows: &[Row]) -> Result<usize, Fail>
    requires reached { IsReached setup.now state.machine }
    requires three { length setup.now.collections ≡ 3 }
{
    let mut state = state;
    let mut at = 0;
    for row in rows {
        if !is_answered(alloc, &mut state, setup, *row)? {
            return Ok(at);
        }
        at = at.saturating_add(1);
    }
    Ok(at)
}

// The state after Ann asked the same so often.
fn repeated(alloc: Global, state: State, setup: &Setup, ask: Ask, times: u32) -> Result<State, Fail>
    requires reached { IsReached setup.now state.machine }
    requires three { length setup.now.collections ≡ 3 }
    ensures { IfOk result (λ after. IsReached setup.now after.machine) }
{
    let mut state = state;
    for _ in 0..times {
        let _ = answered(alloc, &mut state, setup, ANN, ask)?;
    }
    Ok(state)
}

fn setup_of_three(alloc: Global) -> Result<Setup, Fail>
    ensures { IfOk result (λ setup. length setup.collections ≡ 3) }
{
    let setup = Setup::read(alloc, SETUP)?;
    if setup.collections() == 3 {
        Ok(setup)
    } else {
        Err(Fail::from("three collections"))
    }
}

// How many of the requests are answered so on the state before any event.
fn right_from_start(alloc: Global, rows: &[Row]) -> Result<usize, Fail> {
    let setup = setup_of_three(alloc)?;
    empty_states_are_reached();
    right(alloc, State::new(alloc, setup.namespace()), &setup, rows)
}

#[test]
fn tasks_are_shown_to_their_owner(rt: HostRuntime) -> Result<(), Fail> {
    assert_eq!(rt; right_from_start(rt.alloc(), &ON_TASKS)?, ON_TASKS.len());
    Ok(())
}

#[test]
fn rules_are_kept_by_the_owner_of_their_collection(rt: HostRuntime) -> Result<(), Fail> {
    assert_eq!(rt; right_from_start(rt.alloc(), &ON_RULES)?, ON_RULES.len());
    Ok(())
}

#[test]
fn rules_are_listed_by_number(rt: HostRuntime) -> Result<(), Fail> {
    assert_eq!(rt; right_from_start(rt.alloc(), &ON_LISTS)?, ON_LISTS.len());
    Ok(())
}

fn right_where_rules_are_full(alloc: Global) -> Result<usize, Fail> {
    let setup = setup_of_three(alloc)?;
    empty_states_are_reached();
    let state = State::new(alloc, setup.namespace());
    let state = repeated(alloc, state, &setup, Ask::Add(1, "/e", false), 1)?;
    let state = repeated(alloc, state, &setup, Ask::Replace(1, 1, true), 9_999)?;
    right(alloc, state, &setup, &ON_FULL_RULES)
}

#[test]
fn same_rule_comes_before_a_full_table(rt: HostRuntime) -> Result<(), Fail> {
    assert_eq!(rt;
        right_where_rules_are_full(rt.alloc())?,
        ON_FULL_RULES.len()
    );
    Ok(())
}
