ghost use Rattle.gt_replies.specs.ReplyText.{document_of, refusal_status, refusal_text, reply_status, reply_text};
ghost use Rattle.gt_types.specs.Reply.{is_printable};
ghost use Rattle.serde_json.specs.View.{view};
ghost use Rattle.std.specs.Prelude.{◌≡◌, IfOk, IsTrue, length};

use crate::answer::{access_created, done, identifier, refusal, submitted};
use crate::list::{skipped, successes};
use crate::member::text_of;
use crate::rule::{access, access_list, endpoint};
use crate::task::{task, task_list};
use gt_setup::Setup;
use gt_types::{Reply, ReplyCode};
use serde_json::Value;
use std::alloc::{AllocError, Global};

/// The status and the document of a reply: compact JSON, whose members stand in the order of their names' bytes.
///
/// A refusal of a bad document has no place here; `write_refusal` takes one.
#[tactic(auto, unfolding(crate::specs::ReplyText::reply_text))]
pub fn write_reply(
    alloc: Global,
    setup: &Setup,
    reply: &Reply,
) -> Result<(u16, Vec<u8>), AllocError>
    requires { IsTrue (is_printable (length setup.now.collections) reply.now) }
    ensures { IfOk result (λ written.
        (written.0 ≡ reply_status reply.now) × (written.1.items ≡ reply_text setup.now reply.now)) }
{
    let value = document(alloc, setup, reply)?;
    let text = text_of(alloc, &value)?;
    Ok((status_of(reply), text))
}

/// The status and the document of a refusal. The place is that of what is bad in a request; only `BadRequest` names it.
#[tactic(auto, unfolding(crate::specs::ReplyText::refusal_text))]
pub fn write_refusal(
    alloc: Global,
    code: ReplyCode,
    place: &str,
) -> Result<(u16, Vec<u8>), AllocError>
    ensures { IfOk result (λ written.
        (written.0 ≡ refusal_status code) × (written.1.items ≡ refusal_text code place.now)) }
{
    let value = refusal(alloc, code, place)?;
    let text = text_of(alloc, &value)?;
    Ok((status_of_refusal(code), text))
}

fn status_of_refusal(code: ReplyCode) -> u16
    ensures { result ≡ refusal_status code }
{
    match code {
        ReplyCode::BadRequest => 400,
        ReplyCode::AuthenticationFailed => 401,
        ReplyCode::PermissionDenied => 403,
        ReplyCode::NotFound
        | ReplyCode::EndpointNotFound
        | ReplyCode::TaskNotFound
        | ReplyCode::RuleNotFound => 404,
        ReplyCode::MethodNotAllowed => 405,
        ReplyCode::Exists | ReplyCode::TaskClosed | ReplyCode::LimitReached => 409,
        ReplyCode::TooLarge => 413,
        ReplyCode::JournalFault => 503,
        ReplyCode::OutOfMemory => 507,
    }
}

fn status_of(reply: &Reply) -> u16
    ensures { result ≡ reply_status reply.now }
{
    match reply {
        Reply::Submitted { is_new: true, .. } => 202,
        Reply::AccessCreated { .. } | Reply::PauseCreated { .. } => 201,
        Reply::Refused { code } => status_of_refusal(*code),
        Reply::Identifier { .. }
        | Reply::Submitted { .. }
        | Reply::Done(_)
        | Reply::Task(_)
        | Reply::Tasks { .. }
        | Reply::Successes { .. }
        | Reply::Skipped { .. }
        | Reply::Access(_)
        | Reply::AccessList { .. }
        | Reply::Pause(_)
        | Reply::PauseList { .. }
        | Reply::Endpoint { .. } => 200,
    }
}

#[tactic(auto, unfolding(crate::specs::ReplyText::document_of))]
fn document(alloc: Global, setup: &Setup, reply: &Reply) -> Result<Value, AllocError>
    requires { IsTrue (is_printable (length setup.now.collections) reply.now) }
    ensures { IfOk result (λ value. view value ≡ document_of setup.now reply.now) }
{
    match reply {
        Reply::Identifier { number } => identifier(alloc, setup, *number),
        Reply::Submitted {
            is_delete,
            is_new,
            submission,
            task,
        } => submitted(alloc, setup, *is_delete, *is_new, submission, *task),
        Reply::Done(code) => done(alloc, *code),
        Reply::AccessCreated { rule } => access_created(alloc, setup, *rule),
        Reply::Task(row) => task(alloc, setup, row),
        Reply::Tasks { rows, page } => task_list(alloc, setup, rows, *page),
        Reply::Successes { rows, page } => successes(alloc, setup, rows, *page),
        Reply::Skipped { rows, page } => skipped(alloc, setup, rows, *page),
        Reply::Access(rule) => access(alloc, setup, rule),
        Reply::AccessList { rows, collection } => {
            access_list(alloc, setup, rows.as_slice(), *collection)
        }
        // Pause rules aren't printed yet.
        Reply::PauseCreated { .. } | Reply::Pause(_) | Reply::PauseList { .. } => Ok(Value::Null),
        Reply::Endpoint { collection } => endpoint(alloc, setup, *collection),
        Reply::Refused { code } => refusal(alloc, *code, ""),
    }
}
