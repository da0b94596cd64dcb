ghost use Rattle.gt_requests.specs.Resources.{resource_at};
ghost use Rattle.gt_requests.specs.Router.{are_apart, is_apart, table, table_from, with_route};
ghost use Rattle.std.specs.Prelude.{◌≡◌, IfOk, OnOk, true};

use crate::resource::{RESOURCES, Resource};
use matchit::{InsertError, Router};
use std::alloc::{AllocError, Global};

/// The router of all routes. Only memory can be wanting: no two routes conflict.
#[tactic(auto, using(crate::proofs::RowLemmas::all_apart, crate::proofs::RowLemmas::all_routes))]
pub(crate) fn all_routes(alloc: Global) -> Result<Router<Resource>, AllocError>
    ensures { IfOk result (λ router. router ≡ table) }
{
    let mut router = Router::new(alloc);
    add_all(&mut router, &RESOURCES)?;
    Ok(router)
}

// Adds routes in order, each apart from those before it.
#[tactic(auto, unfolding(crate::specs::Router::are_apart, crate::specs::Router::table_from))]
fn add_all(router: &mut Router<Resource>, resources: &[Resource]) -> Result<(), AllocError>
    requires { are_apart resources.now router.old ≡ true }
    ensures { OnOk result (router.new ≡ table_from resources.now router.old) }
{
    for resource in resources {
        add(router, *resource)?;
    }
    Ok(())
}

// Adds a route that conflicts with none of the router.
#[tactic(auto, using(crate::proofs::RowLemmas::only_memory))]
fn add(router: &mut Router<Resource>, resource: Resource) -> Result<(), AllocError>
    requires { is_apart resource router.old ≡ true }
    ensures { OnOk result (router.new ≡ with_route resource router.old) }
{
    match router.insert(resource.route(), resource) {
        Ok(()) => Ok(()),
        Err(InsertError::OutOfMemory) => Err(AllocError),
        Err(_) => unreachable!(),
    }
}

/// The resource that the router finds.
pub(crate) fn found(routes: &Router<Resource>, path: &str) -> Option<Resource>
    requires { routes.now ≡ table }
    ensures { result ≡ resource_at path.now }
{
    match routes.at(path) {
        Ok(found) => Some(*found.value),
        Err(_) => None,
    }
}
