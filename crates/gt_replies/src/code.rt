ghost use Rattle.gt_replies.specs.Codes as spec;
ghost use Rattle.std.specs.Prelude.{◌≡◌, IfOk, string_bytes};

use gt_types::{Code, Reason, ReplyCode, ResultCode};
use std::alloc::{AllocError, Global};

/// The code of a refusal.
pub(crate) fn refusal_code(code: ReplyCode) -> &'static str
    ensures { result.now ≡ spec.refusal_code code }
{
    match code {
        ReplyCode::BadRequest => "ClientError.BadRequest",
        ReplyCode::AuthenticationFailed => "AuthenticationFailed",
        ReplyCode::PermissionDenied => "PermissionDenied",
        ReplyCode::NotFound => "NotFound",
        ReplyCode::EndpointNotFound => "EndpointNotFound",
        ReplyCode::TaskNotFound => "TaskNotFound",
        ReplyCode::RuleNotFound => "RuleNotFound",
        ReplyCode::MethodNotAllowed => "MethodNotAllowed",
        ReplyCode::Exists => "Exists",
        ReplyCode::TaskClosed => "TaskClosed",
        ReplyCode::LimitReached => "LimitReached",
        ReplyCode::TooLarge => "TooLarge",
        ReplyCode::JournalFault => "JournalFault",
        ReplyCode::OutOfMemory => "OutOfMemory",
    }
}

/// The message of a refusal. Only that of a bad request names the place.
pub(crate) fn refusal_message(
    alloc: Global,
    code: ReplyCode,
    place: &str,
) -> Result<String, AllocError>
    ensures { IfOk result (λ text. string_bytes text ≡ spec.refusal_message code place.now) }
{
    match code {
        ReplyCode::BadRequest => format!(in alloc; "Bad document at {place}."),
        ReplyCode::AuthenticationFailed => String::from_str(alloc, "No valid token."),
        ReplyCode::PermissionDenied => String::from_str(alloc, "Only the owner may do this."),
        ReplyCode::NotFound => String::from_str(alloc, "No such resource."),
        ReplyCode::EndpointNotFound => String::from_str(alloc, "No such collection."),
        ReplyCode::TaskNotFound => String::from_str(alloc, "No such task."),
        ReplyCode::RuleNotFound => String::from_str(alloc, "No such rule."),
        ReplyCode::MethodNotAllowed => String::from_str(alloc, "No such method here."),
        ReplyCode::Exists => String::from_str(alloc, "Such a rule exists."),
        ReplyCode::TaskClosed => String::from_str(alloc, "The task is closed."),
        ReplyCode::LimitReached => String::from_str(alloc, "The table is full."),
        ReplyCode::TooLarge => String::from_str(alloc, "The body is too large."),
        ReplyCode::JournalFault => String::from_str(alloc, "The journal failed."),
        ReplyCode::OutOfMemory => String::from_str(alloc, "No memory."),
    }
}

/// The code of a change.
pub(crate) fn result_code(code: ResultCode) -> &'static str
    ensures { result.now ≡ spec.result_code code }
{
    match code {
        ResultCode::Canceled => "Canceled",
        ResultCode::CancelAccepted => "CancelAccepted",
        ResultCode::TaskComplete => "TaskComplete",
        ResultCode::Updated => "Updated",
        ResultCode::Deleted => "Deleted",
    }
}

/// The message of a change.
pub(crate) fn result_message(code: ResultCode) -> &'static str
    ensures { result.now ≡ spec.result_message code }
{
    match code {
        ResultCode::Canceled => "The task was canceled.",
        ResultCode::CancelAccepted => "The cancellation was accepted.",
        ResultCode::TaskComplete => "The task is complete already.",
        ResultCode::Updated => "The change was made.",
        ResultCode::Deleted => "The rule was deleted.",
    }
}

/// The name of an item's code.
pub(crate) fn item_code(code: Code) -> &'static str
    ensures { result.now ≡ spec.item_code code }
{
    match code {
        Code::FileNotFound => "FILE_NOT_FOUND",
        Code::PermissionDenied => "PERMISSION_DENIED",
        Code::WrongKind => "WRONG_KIND",
        Code::NotEmpty => "NOT_EMPTY",
        Code::VerifyMismatch => "VERIFY_MISMATCH",
        Code::TreeFault => "TREE_FAULT",
        Code::FolderTooLarge => "FOLDER_TOO_LARGE",
        Code::ItemLimit => "ITEM_LIMIT",
        Code::PathTooLong => "PATH_TOO_LONG",
    }
}

/// Why a task closed.
pub(crate) fn reason_name(reason: Reason) -> &'static str
    ensures { result.now ≡ spec.reason_name reason }
{
    match reason {
        Reason::Canceled => "CANCELED",
        Reason::Deadline => "DEADLINE",
        Reason::Code(code) => item_code(code),
    }
}
