//! The identities and the collections, row by row.

ghost use Rattle.gt_setup.specs.Grammar as spec;
ghost use Rattle.gt_setup.specs.Indexed.{IsIndexOf, Takes};
ghost use Rattle.gt_setup.specs.Setup.{lists};
ghost use Rattle.gt_values.specs.Results.{FaultsAs};
ghost use Rattle.std.specs.BTreeMap.{keys};
ghost use Rattle.std.specs.Prelude.{◌≡◌, ◌⊎◌, ◌++◌, ◌<◌, ◌≤◌, ◌^◌, [], IfErr, IfOk, length};
ghost use Rattle.toml.specs.View.{items_view, table_view, view};

use crate::fault::SetupFault;
use crate::keys::{required, rows_of};
use crate::parts::{Collection, Identity};
use crate::value::{groups_in, home_in, id_in, name_in, tokens_in};
use gt_types::Who;
use gt_values::Digest;
use std::alloc::Global;
use std::collections::BTreeMap;
use toml::{Table, Value};

/// The identities of the file's table, and the place of each by the digests of its tokens.
#[tactic(auto, unfolding(crate::specs::Grammar::identities_of))]
pub(crate) fn identities_of(
    alloc: Global,
    table: &Table,
) -> Result<(Vec<Identity>, BTreeMap<Digest, usize>), SetupFault>
    ensures ok { IfOk result (λ r. spec.identities_of (table_view table.now) ≡ Ok r.0.items) }
    ensures index { IfOk result (λ r. IsIndexOf lists r.0.items r.1) }
    ensures fault { FaultsAs SetupFault.OutOfMemory
        (spec.identities_of (table_view table.now)) result }
{
    match rows_of(alloc, table, "identity") {
        Ok(rows) => identities_from(alloc, rows),
        Err(fault) => Err(fault),
    }
}

// The identities of these rows, and the place of each by the digests of its tokens.
fn identities_from(
    alloc: Global,
    rows: &[Value],
) -> Result<(Vec<Identity>, BTreeMap<Digest, usize>), SetupFault>
    requires { length rows.now ≤ 1048576 }
    ensures ok { IfOk result (λ r. spec.identities_from 0 [] (items_view rows.now) ≡ Ok r.0.items) }
    ensures index { IfOk result (λ r. IsIndexOf lists r.0.items r.1) }
    ensures fault { FaultsAs SetupFault.OutOfMemory
        (spec.identities_from 0 [] (items_view rows.now)) result }
{
    let mut identities = Vec::new(alloc);
    let mut taken = BTreeMap::new(alloc);
    for number in 0..rows.len() {
        let identity = identity_at(alloc, &rows[number], number as u32, &mut taken)?;
        identities.push(identity)?;
    }
    Ok((identities, taken))
}

// The identity of a row. Its tokens are taken.
#[tactic(auto, unfolding(crate::specs::Grammar::identity_at))]
fn identity_at(
    alloc: Global,
    row: &Value,
    number: u32,
    taken: &mut BTreeMap<Digest, usize>,
) -> Result<Identity, SetupFault>
    ensures ok { IfOk result
        (λ identity. spec.identity_at number (keys taken.old) (view row.now) ≡ Ok identity) }
    ensures taken { IfOk result (λ identity. Takes number identity.tokens taken.old taken.new) }
    ensures fault { FaultsAs SetupFault.OutOfMemory
        (spec.identity_at number (keys taken.old) (view row.now)) result }
{
    let value = row.get("id");
    let identity = required(alloc, "identity.id", number, value, id_in(value))?;
    let value = row.get("name");
    let name = required(
        alloc,
        "identity.name",
        number,
        value,
        name_in(alloc, value)?,
    )?;
    let value = row.get("tokens");
    let meant = tokens_in(alloc, value, number as usize, taken)?;
    let tokens = required(alloc, "identity.tokens", number, value, meant)?;
    let value = row.get("groups");
    let groups = required(
        alloc,
        "identity.groups",
        number,
        value,
        groups_in(alloc, value)?,
    )?;
    Ok(Identity {
        who: Who { identity, groups },
        name,
        tokens,
    })
}

/// The collections of the file's table.
#[tactic(auto, unfolding(crate::specs::Grammar::collections_of))]
pub(crate) fn collections_of(alloc: Global, table: &Table) -> Result<Vec<Collection>, SetupFault>
    ensures ok { IfOk result (λ v. spec.collections_of (table_view table.now) ≡ Ok v.items) }
    ensures few { IfOk result (λ v. length v.items < 2 ^ 32) }
    ensures fault { FaultsAs SetupFault.OutOfMemory
        (spec.collections_of (table_view table.now)) result }
{
    match rows_of(alloc, table, "collection") {
        Ok(rows) => collections_from(alloc, rows),
        Err(fault) => Err(fault),
    }
}

// The collections of these rows.
fn collections_from(alloc: Global, rows: &[Value]) -> Result<Vec<Collection>, SetupFault>
    requires { length rows.now ≤ 1048576 }
    ensures ok { IfOk result (λ v. spec.collections_from 0 (items_view rows.now) ≡ Ok v.items) }
    ensures few { IfOk result (λ v. length v.items < 2 ^ 32) }
    ensures fault { FaultsAs SetupFault.OutOfMemory
        (spec.collections_from 0 (items_view rows.now)) result }
{
    let mut collections = Vec::new(alloc);
    for number in 0..rows.len() {
        let collection = collection_at(alloc, &rows[number], number as u32)?;
        collections.push(collection)?;
    }
    Ok(collections)
}

// The collection of a row.
#[tactic(auto, unfolding(crate::specs::Grammar::collection_at))]
fn collection_at(alloc: Global, row: &Value, number: u32) -> Result<Collection, SetupFault>
    ensures ok { IfOk result
        (λ collection. spec.collection_at number (view row.now) ≡ Ok collection) }
    ensures fault { FaultsAs SetupFault.OutOfMemory
        (spec.collection_at number (view row.now)) result }
{
    let value = row.get("id");
    let id = required(alloc, "collection.id", number, value, id_in(value))?;
    let value = row.get("name");
    let name = required(
        alloc,
        "collection.name",
        number,
        value,
        name_in(alloc, value)?,
    )?;
    let value = row.get("owner");
    let owner = required(alloc, "collection.owner", number, value, id_in(value))?;
    let value = row.get("home");
    let home = required(
        alloc,
        "collection.home",
        number,
        value,
        home_in(alloc, value)?,
    )?;
    Ok(Collection {
        id,
        name,
        owner,
        home,
    })
}
