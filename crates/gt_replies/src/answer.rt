//! The short documents: an identifier, a task that was submitted, what a change came to, a refusal.
#![tactic(auto, unfolding(crate::specs::Members::with_members))]

ghost use Rattle.gt_replies.specs.Documents.{access_created_document, identifier_document, refusal_document, result_document, submitted_code, submitted_document, submitted_message, submitted_type};
ghost use Rattle.gt_types.specs.Reply.{is_number};
ghost use Rattle.serde_json.specs.View.{view};
ghost use Rattle.std.specs.Prelude.{◌≡◌, IfOk, IsTrue};

use crate::code::{refusal_code, refusal_message, result_code, result_message};
use crate::member::{ACCESS_RULE, SUBMISSION, TASK, id_value, made_value};
use gt_setup::Setup;
use gt_types::{ReplyCode, ResultCode};
use gt_values::Id;
use serde_json::{Value, json};
use std::alloc::{AllocError, Global};

/// An identifier that was issued.
pub(crate) fn identifier(alloc: Global, setup: &Setup, number: u64) -> Result<Value, AllocError>
    requires { IsTrue (is_number number) }
    ensures { IfOk result (λ value. view value ≡ identifier_document setup.now.namespace number) }
{
    let value = made_value(alloc, setup, SUBMISSION, number)?;
    json!(in alloc; {"DATA_TYPE": "submission_id", "value": value})
}

fn submitted_type(is_delete: bool) -> &'static str
    ensures { result.now ≡ submitted_type is_delete }
{
    if is_delete {
        "delete_result"
    } else {
        "transfer_result"
    }
}

fn submitted_code(is_new: bool) -> &'static str
    ensures { result.now ≡ submitted_code is_new }
{
    if is_new { "Accepted" } else { "Duplicate" }
}

fn submitted_message(is_new: bool) -> &'static str
    ensures { result.now ≡ submitted_message is_new }
{
    if is_new {
        "The task was accepted."
    } else {
        "This submission was accepted before."
    }
}

/// The task of a submission.
pub(crate) fn submitted(
    alloc: Global,
    setup: &Setup,
    is_delete: bool,
    is_new: bool,
    submission: &Id,
    task: u64,
) -> Result<Value, AllocError>
    requires { IsTrue (is_number task) }
    ensures { IfOk result (λ value. view value
        ≡ submitted_document setup.now.namespace is_delete is_new submission.now task) }
{
    let submission = id_value(alloc, submission)?;
    let task = made_value(alloc, setup, TASK, task)?;
    json!(in alloc; {
        "DATA_TYPE": submitted_type(is_delete),
        "code": submitted_code(is_new),
        "message": submitted_message(is_new),
        "submission_id": submission,
        "task_id": task
    })
}

/// What a change came to.
pub(crate) fn done(alloc: Global, code: ResultCode) -> Result<Value, AllocError>
    ensures { IfOk result (λ value. view value ≡ result_document code) }
{
    json!(in alloc; {
        "DATA_TYPE": "result",
        "code": result_code(code),
        "message": result_message(code)
    })
}

/// An access rule that was made.
pub(crate) fn access_created(alloc: Global, setup: &Setup, rule: u64) -> Result<Value, AllocError>
    requires { IsTrue (is_number rule) }
    ensures { IfOk result (λ value. view value ≡ access_created_document setup.now.namespace rule) }
{
    let rule = made_value(alloc, setup, ACCESS_RULE, rule)?;
    json!(in alloc; {
        "DATA_TYPE": "access_create_result",
        "access_id": rule,
        "code": "Created",
        "message": "The rule was created."
    })
}

/// A refusal.
pub(crate) fn refusal(alloc: Global, code: ReplyCode, place: &str) -> Result<Value, AllocError>
    ensures { IfOk result (λ value. view value ≡ refusal_document code place.now) }
{
    let message = refusal_message(alloc, code, place)?;
    json!(in alloc; {"DATA_TYPE": "error", "code": refusal_code(code), "message": message})
}
