ghost use Rattle.gt_requests.specs.Request.{request_of};
ghost use Rattle.gt_requests.specs.Resources.{resource_at};
ghost use Rattle.gt_setup.specs.Setup.{has_identity};
ghost use Rattle.gt_types.specs.Command.{is_command};
ghost use Rattle.gt_values.specs.Results.{FaultsAs};
ghost use Rattle.std.specs.Prelude.{◌≡◌, ◌≤◌, IfOk, IsErrOf, Ok, length, option_copied, true};

use crate::fault::RequestFault;
use crate::request::read;
use crate::resource::Resource;
use crate::router::{all_routes, found};
use gt_setup::Setup;
use gt_types::Command;
use gt_values::Id;
use matchit::Router;
use std::alloc::{AllocError, Global};
use std::marker::Model;

/// The routes of the desk. They are made once, and read each request. All have one value.
#[derive(Drop)]
pub struct Routes {
    router: Router<Resource>,
}

impl Model for Routes {
    ghost use Rattle.gt_requests.specs.Router.{table};
    ghost use Rattle.std.specs.Prelude.{◌≡◌};

    ghost Value = { Unit {0} };

    ghost view = { λ _. tt };

    ghost invariant = { λ routes. routes.router ≡ table };
}

impl Routes {
    /// The routes. Only memory can be wanting: no two of them conflict.
    pub fn new(alloc: Global) -> Result<Routes, AllocError>
        ensures { IfOk result (λ routes. routes ≡ tt) }
    {
        let router = all_routes(alloc)?;
        Ok(Routes { router })
    }

    /// The caller and the command of a request, or the first refusal that needs no state.
    ///
    /// The refusals come in this order: a body of more than 4,194,304 bytes (`TooLarge`), an unknown route
    /// (`NotFound`), a method that the route hasn't (`MethodNotAllowed`), no known token (`AuthenticationFailed`), a
    /// bad query or document (`BadRequest`, with the first bad place), a collection that isn't in the setup
    /// (`EndpointNotFound`, the source before the destination), an identifier of a task or a rule that is no UUID
    /// (`TaskNotFound`, `RuleNotFound`). Only a `BadRequest` has a place.
    #[tactic(auto, unfolding(crate::specs::Request::request_of))]
    pub fn read(
        &self,
        alloc: Global,
        setup: &Setup,
        method: &str,
        target: &str,
        token: Option<&str>,
        body: &[u8],
    ) -> Result<(Id, Command), RequestFault>
        // Each request has one reading, and it is given unless memory runs out.
        ensures ok { IfOk result (λ request.
            request_of setup.now method.now target.now (option_copied token.entry) body.now
            ≡ Ok request) }
        ensures fault { FaultsAs RequestFault.OutOfMemory
            (request_of setup.now method.now target.now (option_copied token.entry) body.now)
            result }
        ensures memory { IsErrOf result RequestFault.OutOfMemory → length body.now ≤ 4_194_304 }

        ensures caller { IfOk result (λ request. has_identity setup.now request.0 ≡ true) }
        ensures command { IfOk result
            (λ request. is_command (length setup.now.collections) request.1 ≡ true) }
    {
        match read(alloc, self, setup, method, target, token, body) {
            Ok(request) => Ok(request),
            Err(fault) => Err(fault.told(alloc)),
        }
    }

    /// The resource that a path is at.
    pub(crate) fn find(&self, path: &str) -> Option<Resource>
        ensures { result ≡ resource_at path.now }
    {
        found(&self.router, path)
    }
}
