//! The command of each action.
ghost use Rattle.gt_requests.specs.Outcome.{Gives};
ghost use Rattle.gt_requests.specs.Request as spec;
ghost use Rattle.gt_requests.specs.Request.{add_access_of, collection_in, command_of, replace_access_of, rows_of, rule_in, rule_of, submit_of, task_in, tasks_of};
ghost use Rattle.gt_types.specs.Command.{is_command};
ghost use Rattle.gt_types.specs.declared.command.Command.TheVariants as command;
ghost use Rattle.gt_values.specs.Forms.{is_id};
ghost use Rattle.std.specs.Prelude.{◌≡◌, ◌<◌, IfOk, IfSome, length, true, ℕ};

use crate::access::{read_access, read_permission};
use crate::action::Action;
use crate::refusal::{ReadFault, Refusal};
use crate::target::id_in;
use crate::transfer::{home_or, read_submission, submit_between};
use gt_documents::{Page, object_in, read_page};
use gt_paths::Path;
use gt_setup::Setup;
use gt_types::{Command, ReplyCode};
use gt_values::Id;
use std::alloc::Global;

/// The command of an action, read from the target's front, its query and the body.
#[tactic(auto, unfolding(crate::specs::Request::command_of))]
pub(crate) fn command(
    alloc: Global,
    setup: &Setup,
    action: Action,
    front: &str,
    query: &str,
    body: &[u8],
) -> Result<Command, ReadFault>
    ensures value { Gives (command_of setup.now action front.now query.now body.now) result }
    ensures limits { IfOk result (λ c. is_command (length setup.now.collections) c ≡ true) }
{
    match action {
        Action::IssueId => Ok(Command::IssueId),
        Action::SubmitTransfer => submit_transfer(alloc, setup, body),
        Action::ListTasks => list_tasks(alloc, query),
        Action::ShowTask => Ok(Command::ShowTask {
            task: task_id(front)?,
        }),
        Action::ListSuccesses => list_successes(alloc, front, query),
        Action::ListSkipped => list_skipped(alloc, front, query),
        Action::ShowEndpoint => Ok(Command::ShowEndpoint {
            collection: collection(setup, front)?,
        }),
        Action::ListAccess => Ok(Command::ListAccess {
            collection: collection(setup, front)?,
        }),
        Action::AddAccess => add_access(alloc, setup, front, body),
        Action::ShowAccess => show_access(setup, front),
        Action::EndAccess => end_access(setup, front),
        Action::ReplaceAccess => replace_access(alloc, setup, front, body),
    }
}

// The transfer that a document asks. Its source is looked up before its destination.
#[tactic(auto, unfolding(crate::specs::Request::submit_of), using(crate::proofs::LimitLemmas::submit_limits))]
fn submit_transfer(alloc: Global, setup: &Setup, body: &[u8]) -> Result<Command, ReadFault>
    ensures value { Gives (submit_of setup.now body.now) result }
    ensures limits { IfOk result (λ c. is_command (length setup.now.collections) c ≡ true) }
{
    let object = object_in(alloc, body)?;
    let submission = read_submission(alloc, setup, &object)?;
    let source = collection_with(setup, &submission.ends.source)?;
    let destination = collection_with(setup, &submission.ends.destination)?;
    Ok(submit_between(alloc, submission, source, destination))
}

// A page of the caller's tasks.
#[tactic(auto, unfolding(crate::specs::Request::tasks_of))]
fn list_tasks(alloc: Global, query: &str) -> Result<Command, ReadFault>
    ensures value { Gives (tasks_of query.now) result }
    ensures limits { IfOk result (λ c. (count : ℕ) → is_command count c ≡ true) }
{
    let Page { limit, offset } = read_page(alloc, query.as_bytes())?;
    Ok(Command::ListTasks { limit, offset })
}

// A page of what a task copied.
#[tactic(auto, unfolding(crate::specs::Request::rows_of))]
fn list_successes(alloc: Global, front: &str, query: &str) -> Result<Command, ReadFault>
    ensures value { Gives (rows_of command.ListSuccesses front.now query.now) result }
    ensures limits { IfOk result (λ c. (count : ℕ) → is_command count c ≡ true) }
{
    let Page { limit, offset } = read_page(alloc, query.as_bytes())?;
    let task = task_id(front)?;
    Ok(Command::ListSuccesses {
        task,
        limit,
        offset,
    })
}

// A page of what a task skipped.
#[tactic(auto, unfolding(crate::specs::Request::rows_of))]
fn list_skipped(alloc: Global, front: &str, query: &str) -> Result<Command, ReadFault>
    ensures value { Gives (rows_of command.ListSkipped front.now query.now) result }
    ensures limits { IfOk result (λ c. (count : ℕ) → is_command count c ≡ true) }
{
    let Page { limit, offset } = read_page(alloc, query.as_bytes())?;
    let task = task_id(front)?;
    Ok(Command::ListSkipped {
        task,
        limit,
        offset,
    })
}

// The rule that a document adds. The document is read before the collection is looked up.
#[tactic(auto, unfolding(crate::specs::Request::add_access_of))]
fn add_access(alloc: Global, setup: &Setup, front: &str, body: &[u8]) -> Result<Command, ReadFault>
    ensures value { Gives (add_access_of setup.now front.now body.now) result }
    ensures limits { IfOk result (λ c. is_command (length setup.now.collections) c ≡ true) }
{
    let root = Path::root(alloc);
    let home = home_or(setup, known_in(setup, front), &root);
    let object = object_in(alloc, body)?;
    let spec = read_access(alloc, &object, home)?;
    let collection = collection(setup, front)?;
    Ok(Command::AddAccess { collection, spec })
}

// A rule to be shown.
#[tactic(auto, unfolding(crate::specs::Request::rule_of))]
fn show_access(setup: &Setup, front: &str) -> Result<Command, ReadFault>
    ensures value { Gives (rule_of command.ShowAccess setup.now front.now) result }
    ensures limits { IfOk result (λ c. is_command (length setup.now.collections) c ≡ true) }
{
    let (collection, rule) = rule_id(setup, front)?;
    Ok(Command::ShowAccess { collection, rule })
}

// A rule to be ended.
#[tactic(auto, unfolding(crate::specs::Request::rule_of))]
fn end_access(setup: &Setup, front: &str) -> Result<Command, ReadFault>
    ensures value { Gives (rule_of command.EndAccess setup.now front.now) result }
    ensures limits { IfOk result (λ c. is_command (length setup.now.collections) c ≡ true) }
{
    let (collection, rule) = rule_id(setup, front)?;
    Ok(Command::EndAccess { collection, rule })
}

// The permission that a document gives a rule. The document is read before the rule is looked up.
#[tactic(auto, unfolding(crate::specs::Request::replace_access_of))]
fn replace_access(
    alloc: Global,
    setup: &Setup,
    front: &str,
    body: &[u8],
) -> Result<Command, ReadFault>
    ensures value { Gives (replace_access_of setup.now front.now body.now) result }
    ensures limits { IfOk result (λ c. is_command (length setup.now.collections) c ≡ true) }
{
    let object = object_in(alloc, body)?;
    let write = read_permission(&object)?;
    let (collection, rule) = rule_id(setup, front)?;
    Ok(Command::ReplaceAccess {
        collection,
        rule,
        write,
    })
}

// The task that the front names.
fn task_id(front: &str) -> Result<Id, Refusal>
    ensures value { result ≡ task_in front.now }
    ensures limits { IfOk result (λ id. is_id id ≡ true) }
{
    id_in(front, 3).ok_or(Refusal::Plain(ReplyCode::TaskNotFound))
}

// The collection that the front names, and the rule.
fn rule_id(setup: &Setup, front: &str) -> Result<(u32, Id), Refusal>
    ensures value { result ≡ rule_in setup.now front.now }
    ensures collection { IfOk result (λ named. named.0 < length setup.now.collections) }
    ensures rule { IfOk result (λ named. is_id named.1 ≡ true) }
{
    let collection = collection(setup, front)?;
    match id_in(front, 5) {
        Some(rule) => Ok((collection, rule)),
        None => Err(Refusal::Plain(ReplyCode::RuleNotFound)),
    }
}

// The collection that the front names.
fn collection(setup: &Setup, front: &str) -> Result<u32, Refusal>
    ensures value { result ≡ collection_in setup.now front.now }
    ensures within { IfOk result (λ c. c < length setup.now.collections) }
{
    known_in(setup, front).ok_or(Refusal::Plain(ReplyCode::EndpointNotFound))
}

// The collection that the front names, if the setup has it.
#[tactic(auto, unfolding(crate::specs::Request::known_in))]
fn known_in(setup: &Setup, front: &str) -> Option<u32>
    ensures value { result ≡ spec.known_in setup.now front.now }
    ensures within { IfSome result (λ c. c < length setup.now.collections) }
{
    setup.collection_of(&id_in(front, 3)?)
}

// The collection with this identifier.
fn collection_with(setup: &Setup, id: &Id) -> Result<u32, Refusal>
    ensures value { result ≡ spec.collection_with setup.now id.now }
    ensures within { IfOk result (λ c. c < length setup.now.collections) }
{
    setup
        .collection_of(id)
        .ok_or(Refusal::Plain(ReplyCode::EndpointNotFound))
}
