ghost use Rattle.gt_requests.specs.Actions.{action_at, action_of, method_of};
ghost use Rattle.std.specs.Prelude.{◌≡◌};

use crate::resource::Resource;
use gt_types::ReplyCode;

/// The methods that some route has.
#[derive(Clone, Copy, Debug, PartialEq, Eq)]
pub(crate) enum Method {
    Get,
    Post,
    Put,
    Delete,
}

/// What a method of a route asks: one for each command.
#[derive(Clone, Copy, Debug, PartialEq, Eq)]
pub(crate) enum Action {
    IssueId,
    SubmitTransfer,
    ListTasks,
    ShowTask,
    ListSuccesses,
    ListSkipped,
    ShowEndpoint,
    ListAccess,
    AddAccess,
    ShowAccess,
    EndAccess,
    ReplaceAccess,
}

/// What the method asks of the resource, or the code of the refusal.
#[tactic(auto, unfolding(crate::specs::Actions::action_of))]
pub(crate) fn action_on(resource: Resource, method: &str) -> Result<Action, ReplyCode>
    ensures { result ≡ action_of resource method.now }
{
    match method_in(method) {
        Some(method) => row(resource, method),
        None => Err(ReplyCode::MethodNotAllowed),
    }
}

/// The method of this name.
fn method_in(name: &str) -> Option<Method>
    ensures { result ≡ method_of name.now }
{
    match name {
        "GET" => Some(Method::Get),
        "POST" => Some(Method::Post),
        "PUT" => Some(Method::Put),
        "DELETE" => Some(Method::Delete),
        _ => None,
    }
}

/// The table of methods. PUT of a task is answered as an unknown route.
fn row(resource: Resource, method: Method) -> Result<Action, ReplyCode>
    ensures { result ≡ action_at resource method }
{
    match (resource, method) {
        (Resource::SubmissionId, Method::Get) => Ok(Action::IssueId),
        (Resource::Transfer, Method::Post) => Ok(Action::SubmitTransfer),
        (Resource::TaskList, Method::Get) => Ok(Action::ListTasks),
        (Resource::Task, Method::Get) => Ok(Action::ShowTask),
        (Resource::Task, Method::Put) => Err(ReplyCode::NotFound),
        (Resource::Successes, Method::Get) => Ok(Action::ListSuccesses),
        (Resource::Skipped, Method::Get) => Ok(Action::ListSkipped),
        (Resource::Endpoint, Method::Get) => Ok(Action::ShowEndpoint),
        (Resource::AccessList, Method::Get) => Ok(Action::ListAccess),
        (Resource::AccessRules, Method::Post) => Ok(Action::AddAccess),
        (Resource::AccessRule, Method::Get) => Ok(Action::ShowAccess),
        (Resource::AccessRule, Method::Delete) => Ok(Action::EndAccess),
        (Resource::AccessRule, Method::Put) => Ok(Action::ReplaceAccess),
        _ => Err(ReplyCode::MethodNotAllowed),
    }
}
