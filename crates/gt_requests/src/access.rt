//! The documents of access rules.
ghost use Rattle.gt_documents.specs.Reading.{ReadsAs};
ghost use Rattle.gt_requests.specs.Access.{access_of, permission_of, principal_at, type_at, write_at};
ghost use Rattle.gt_types.specs.Forms.{is_principal};
ghost use Rattle.gt_types.specs.SpecForms.{is_access_spec};
ghost use Rattle.serde_json.specs.View.{view};
ghost use Rattle.std.specs.Prelude.{◌≡◌, IfOk, true};

use gt_documents::{DocumentFault, Place, constant, id, path, word};
use gt_paths::Path;
use gt_types::{AccessSpec, Principal};
use serde_json::Value;
use std::alloc::Global;

/// The types of principals, as documents name them.
#[derive(Clone, Copy, Debug, PartialEq, Eq)]
pub(crate) enum PrincipalType {
    Identity,
    Group,
    AllAuthenticated,
    Anonymous,
}

/// Reads the document of a new access rule, on a collection with this home.
#[tactic(auto, unfolding(crate::specs::Access::access_of))]
pub(crate) fn read_access(
    alloc: Global,
    object: &Value,
    home: &Path,
) -> Result<AccessSpec, DocumentFault>
    ensures value { ReadsAs (access_of home.now (view object.now)) result }
    ensures limits { IfOk result (λ spec. is_access_spec spec ≡ true) }
{
    constant(object, "DATA_TYPE", "access")?;
    let principal = read_principal(object)?;
    let path = path(alloc, object, "path", home)?;
    let write = read_write(object)?;
    Ok(AccessSpec {
        principal,
        path,
        write,
    })
}

/// Reads the document of a rule's new permission: whether it is to write too.
#[tactic(auto, unfolding(crate::specs::Access::permission_of))]
pub(crate) fn read_permission(object: &Value) -> Result<bool, Place>
    ensures { result ≡ permission_of (view object.now) }
{
    constant(object, "DATA_TYPE", "access")?;
    read_write(object)
}

// The principal, with its identifier where it has one.
#[tactic(auto, unfolding(crate::specs::Access::principal_at))]
fn read_principal(object: &Value) -> Result<Principal, Place>
    ensures value { result ≡ principal_at (view object.now) }
    ensures limits { IfOk result (λ principal. is_principal principal ≡ true) }
{
    match principal_type(object)? {
        PrincipalType::Identity => Ok(Principal::Identity(id(object, "principal")?)),
        PrincipalType::Group => Ok(Principal::Group(id(object, "principal")?)),
        PrincipalType::AllAuthenticated => Ok(Principal::AllAuthenticated),
        PrincipalType::Anonymous => Ok(Principal::Anonymous),
    }
}

// The type of the principal.
#[tactic(auto, unfolding(crate::specs::Access::type_at))]
fn principal_type(object: &Value) -> Result<PrincipalType, Place>
    ensures { result ≡ type_at (view object.now) }
{
    match word(object, "principal_type") {
        Some("identity") => Ok(PrincipalType::Identity),
        Some("group") => Ok(PrincipalType::Group),
        Some("all_authenticated_users") => Ok(PrincipalType::AllAuthenticated),
        Some("anonymous") => Ok(PrincipalType::Anonymous),
        _ => Err(Place::member("principal_type")),
    }
}

// Whether the permission is to write too.
#[tactic(auto, unfolding(crate::specs::Access::write_at))]
fn read_write(object: &Value) -> Result<bool, Place>
    ensures { result ≡ write_at (view object.now) }
{
    match word(object, "permissions") {
        Some("r") => Ok(false),
        Some("rw") => Ok(true),
        _ => Err(Place::member("permissions")),
    }
}
