//! The places of identities and collections by their identifiers.

ghost use Rattle.gt_setup.specs.Grammar.{none_or, repeated_among};
ghost use Rattle.gt_setup.specs.Indexed.{IsIndexOf, is_collection};
ghost use Rattle.gt_setup.specs.Setup.{is_identity};
ghost use Rattle.gt_setup.specs.declared.fault.SetupFault.TheVariants.{OutOfMemory, Twice};
ghost use Rattle.gt_values.specs.Results.{FaultsAs};
ghost use Rattle.std.specs.Prelude.{◌≡◌, ◌⊎◌, [], IfErr, IfOk, None, OnOk, map};
ghost use Rattle.std.specs.Str.{bytes_eq};

use crate::fault::SetupFault;
use crate::parts::{Collection, Identity};
use gt_values::Id;
use std::alloc::{AllocError, Global};
use std::collections::BTreeMap;

/// The place of each identity by its identifier. `Twice` where one stands earlier.
#[tactic(auto, using(crate::proofs::IndexLemmas::identities_by_id))]
pub(crate) fn identity_places(
    alloc: Global,
    identities: &[Identity],
) -> Result<BTreeMap<Id, usize>, SetupFault>
    ensures apart { OnOk result
        (repeated_among [] (map (λ i. i.who.identity) identities.now) ≡ None) }
    ensures index { IfOk result (λ places. IsIndexOf is_identity identities.now places) }
    ensures fault { FaultsAs OutOfMemory
        (none_or (repeated_among [] (map (λ i. i.who.identity) identities.now)) Twice) result }
{
    let ids = ids_of_identities(alloc, identities)?;
    places_of(alloc, &ids)
}

/// The place of each collection by its identifier. `Twice` where one stands earlier.
#[tactic(auto, using(crate::proofs::IndexLemmas::collections_by_id))]
pub(crate) fn collection_places(
    alloc: Global,
    collections: &[Collection],
) -> Result<BTreeMap<Id, usize>, SetupFault>
    ensures apart { OnOk result (repeated_among [] (map (λ c. c.id) collections.now) ≡ None) }
    ensures index { IfOk result (λ places. IsIndexOf is_collection collections.now places) }
    ensures fault { FaultsAs OutOfMemory
        (none_or (repeated_among [] (map (λ c. c.id) collections.now)) Twice) result }
{
    let ids = ids_of_collections(alloc, collections)?;
    places_of(alloc, &ids)
}

fn ids_of_identities(alloc: Global, identities: &[Identity]) -> Result<Vec<Id>, AllocError>
    ensures { IfOk result (λ ids. ids.items ≡ map (λ i. i.who.identity) identities.now) }
{
    identities.iter().map(|i| i.who.identity).collect(alloc)
}

fn ids_of_collections(alloc: Global, collections: &[Collection]) -> Result<Vec<Id>, AllocError>
    ensures { IfOk result (λ ids. ids.items ≡ map (λ c. c.id) collections.now) }
{
    collections.iter().map(|c| c.id).collect(alloc)
}

// The place of each identifier, or the first that stands earlier.
fn places_of(alloc: Global, ids: &[Id]) -> Result<BTreeMap<Id, usize>, SetupFault>
    ensures apart { OnOk result (repeated_among [] ids.now ≡ None) }
    ensures index { IfOk result (λ places. IsIndexOf (λ key id. bytes_eq id key) ids.now places) }
    ensures fault { FaultsAs OutOfMemory (none_or (repeated_among [] ids.now) Twice) result }
{
    let mut places = BTreeMap::new(alloc);
    for at in 0..ids.len() {
        let id = ids[at];
        if places.contains_key(&id) {
            return Err(SetupFault::Twice { id });
        }
        places.insert(id, at)?;
    }
    Ok(places)
}
