ghost use Rattle.gt_requests.specs.Outcome.{Gives};
ghost use Rattle.gt_requests.specs.Request as spec;
ghost use Rattle.gt_requests.specs.Request.{read_of, request_of, route_of};
ghost use Rattle.gt_requests.specs.declared.refusal.ReadFault.TheVariants as fault;
ghost use Rattle.gt_requests.specs.declared.refusal.Refusal.TheVariants.{Plain};
ghost use Rattle.gt_setup.specs.Setup.{has_identity};
ghost use Rattle.gt_types.specs.Command.{is_command};
ghost use Rattle.gt_types.specs.declared.reply.ReplyCode.TheVariants.{TooLarge};
ghost use Rattle.gt_values.specs.Results.{FaultsAs};
ghost use Rattle.std.specs.Prelude.{◌≡◌, ◌⊎◌, ◌≤◌, Err, IfErr, IfOk, IfSome, IsErrOf, Ok, length, option_copied, true};

use crate::action::{Action, action_on};
use crate::commands::command;
use crate::fault::RequestFault;
use crate::refusal::{ReadFault, Refusal};
use crate::routes::Routes;
use crate::target::cut_query;
use gt_setup::Setup;
use gt_types::{Command, ReplyCode};
use gt_values::Id;
use std::alloc::Global;

/// The most bytes of a body.
const MAX_BODY: usize = 4_194_304;

/// The caller and the command of a request, or the first refusal that needs no state. It makes the routes for this one
/// request; `Routes::read` says the rest.
pub fn read_request(
    alloc: Global,
    setup: &Setup,
    method: &str,
    target: &str,
    token: Option<&str>,
    body: &[u8],
) -> Result<(Id, Command), RequestFault>
    // Each request has one reading, and it is given unless memory runs out.
    ensures ok { IfOk result (λ request.
        request_of setup.now method.now target.now (option_copied token.entry) body.now
        ≡ Ok request) }
    ensures fault { FaultsAs RequestFault.OutOfMemory
        (request_of setup.now method.now target.now (option_copied token.entry) body.now) result }
    ensures memory { IsErrOf result RequestFault.OutOfMemory → length body.now ≤ 4_194_304 }

    ensures caller { IfOk result (λ request. has_identity setup.now request.0 ≡ true) }
    ensures command { IfOk result
        (λ request. is_command (length setup.now.collections) request.1 ≡ true) }
{
    match Routes::new(alloc) {
        Ok(routes) => routes.read(alloc, setup, method, target, token, body),
        Err(_) if body.len() <= MAX_BODY => Err(RequestFault::OutOfMemory),
        Err(_) => Err(ReadFault::Refusal(Refusal::Plain(ReplyCode::TooLarge)).told(alloc)),
    }
}

/// The same of routes that are made, with a refusal's place not yet in words.
#[tactic(auto, unfolding(crate::specs::Request::read_of))]
pub(crate) fn read(
    alloc: Global,
    routes: &Routes,
    setup: &Setup,
    method: &str,
    target: &str,
    token: Option<&str>,
    body: &[u8],
) -> Result<(Id, Command), ReadFault>
    ensures value { Gives
        (read_of setup.now method.now target.now (option_copied token.entry) body.now) result }
    ensures memory { IfErr result
        (λ f. (f ≡ fault.Refusal (Plain TooLarge)) ⊎ (length body.now ≤ 4_194_304)) }
    ensures caller { IfOk result (λ request. has_identity setup.now request.0 ≡ true) }
    ensures command { IfOk result
        (λ request. is_command (length setup.now.collections) request.1 ≡ true) }
{
    if body.len() > MAX_BODY {
        return Err(ReadFault::Refusal(Refusal::Plain(ReplyCode::TooLarge)));
    }
    let (front, query) = cut_query(target);
    let action = route(routes, method, front)?;
    let caller = caller(setup, token).ok_or(Refusal::Plain(ReplyCode::AuthenticationFailed))?;
    let command = command(alloc, setup, action, front, query, body)?;
    Ok((caller, command))
}

// What a request asks, by its front and its method.
#[tactic(auto, unfolding(crate::specs::Request::route_of))]
fn route(routes: &Routes, method: &str, front: &str) -> Result<Action, Refusal>
    ensures { result ≡ route_of method.now front.now }
{
    let Some(resource) = routes.find(front) else {
        return Err(Refusal::Plain(ReplyCode::NotFound));
    };
    match action_on(resource, method) {
        Ok(action) => Ok(action),
        Err(code) => Err(Refusal::Plain(code)),
    }
}

// The identity of a token.
#[tactic(auto, unfolding(crate::specs::Request::caller_of))]
fn caller(setup: &Setup, token: Option<&str>) -> Option<Id>
    ensures value { result ≡ spec.caller_of setup.now (option_copied token.entry) }
    ensures known { IfSome result (λ id. has_identity setup.now id ≡ true) }
{
    Some(setup.identity_of(token?)?.identity)
}
