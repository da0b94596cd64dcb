//! The documents of access rules and of collections.
#![tactic(auto, unfolding(crate::specs::Members::with_members))]

ghost use Rattle.gt_replies.specs.Documents.{access_document, access_list_document, endpoint_document, principal_text};
ghost use Rattle.gt_replies.specs.Members.{array_of};
ghost use Rattle.gt_types.specs.Reply.{is_number, is_printable_access};
ghost use Rattle.serde_json.specs.View.{view};
ghost use Rattle.std.specs.List.{list_all};
ghost use Rattle.std.specs.Prelude.{◌≡◌, ◌<◌, IfOk, IsTrue, length, string_bytes};

use crate::list::{Row, rows_value};
use crate::member::{ACCESS_RULE, folder_text, id_value, made_value};
use crate::words::{permissions_text, principal_type};
use gt_setup::Setup;
use gt_types::{AccessDocument, Principal};
use serde_json::{Value, json};
use std::alloc::{AllocError, Global};

/// The identifier of a principal that has one, and otherwise no text.
fn principal_text(alloc: Global, principal: &Principal) -> Result<String, AllocError>
    ensures { IfOk result (λ text. string_bytes text ≡ principal_text principal.now) }
{
    match principal {
        Principal::Identity(id) | Principal::Group(id) => id.print(alloc),
        Principal::AllAuthenticated | Principal::Anonymous => Ok(String::new(alloc)),
    }
}

/// An access rule.
pub(crate) fn access(
    alloc: Global,
    setup: &Setup,
    rule: &AccessDocument,
) -> Result<Value, AllocError>
    requires { IsTrue (is_printable_access rule.now) }
    ensures { IfOk result (λ value. view value ≡ access_document setup.now.namespace rule.now) }
{
    let id = made_value(alloc, setup, ACCESS_RULE, rule.number)?;
    let path = folder_text(alloc, &rule.spec.path)?;
    let principal = principal_text(alloc, &rule.spec.principal)?;
    json!(in alloc; {
        "DATA_TYPE": "access",
        "id": id,
        "path": path,
        "permissions": permissions_text(rule.spec.write),
        "principal": principal,
        "principal_type": principal_type(&rule.spec.principal)
    })
}

impl Row for AccessDocument {
    ghost document = { λ setup rule. access_document setup.namespace rule };

    ghost printable = { λ _ rule. is_printable_access rule };

    fn value(&self, alloc: Global, setup: &Setup) -> Result<Value, AllocError> {
        access(alloc, setup, self)
    }
}

/// The access rules of a collection.
pub(crate) fn access_list(
    alloc: Global,
    setup: &Setup,
    rows: &[AccessDocument],
    collection: u32,
) -> Result<Value, AllocError>
    requires rows { IsTrue (list_all is_printable_access rows.now) }
    requires collection { collection < length setup.now.collections }
    ensures { IfOk result
        (λ value. view value ≡ access_list_document setup.now rows.now collection) }
{
    let rows = rows_value(alloc, setup, rows)?;
    let endpoint = id_value(alloc, &setup.id_of(collection))?;
    json!(in alloc; {"DATA": rows, "DATA_TYPE": "access_list", "endpoint": endpoint})
}

/// A collection.
pub(crate) fn endpoint(alloc: Global, setup: &Setup, collection: u32) -> Result<Value, AllocError>
    requires { collection < length setup.now.collections }
    ensures { IfOk result (λ value. view value ≡ endpoint_document setup.now collection) }
{
    let home = folder_text(alloc, setup.home_of(collection))?;
    let id = id_value(alloc, &setup.id_of(collection))?;
    let owner = id_value(alloc, &setup.owner_of(collection))?;
    json!(in alloc; {
        "DATA_TYPE": "endpoint",
        "default_directory": home,
        "display_name": setup.name_of(collection),
        "id": id,
        "owner_id": owner
    })
}
