// The words of documents that other outputs print too.
ghost use Rattle.gt_replies.specs.Words as spec;
ghost use Rattle.std.specs.Prelude.{◌≡◌};

use gt_types::{Principal, Status};

/// The type of a task: of a deletion, or else of a transfer.
pub fn type_name(is_delete: bool) -> &'static str
    ensures { result.now ≡ spec.type_name is_delete }
{
    if is_delete { "DELETE" } else { "TRANSFER" }
}

/// The state of a task.
pub fn status_name(status: Status) -> &'static str
    ensures { result.now ≡ spec.status_name status }
{
    match status {
        Status::Active => "ACTIVE",
        Status::Succeeded => "SUCCEEDED",
        Status::Failed => "FAILED",
    }
}

/// The type of a principal.
pub fn principal_type(principal: &Principal) -> &'static str
    ensures { result.now ≡ spec.principal_type principal.now }
{
    match principal {
        Principal::Identity(_) => "identity",
        Principal::Group(_) => "group",
        Principal::AllAuthenticated => "all_authenticated_users",
        Principal::Anonymous => "anonymous",
    }
}

/// What a rule permits: to read, or to read and write.
pub fn permissions_text(write: bool) -> &'static str
    ensures { result.now ≡ spec.permissions_text write }
{
    if write { "rw" } else { "r" }
}
