ghost use Rattle.gt_setup.specs.Setup.{collection_of, home_of, id_of, identity_of, lists, name_of, owner_of, who_of};
ghost use Rattle.gt_setup.specs.Grammar.{parts_of, setup_of, table_of, told_apart};
ghost use Rattle.gt_setup.specs.Indexed.{IsIndexOf, setup_from};
ghost use Rattle.gt_values.specs.Results.{FaultsAs};
ghost use Rattle.std.specs.Option.{option_copied};
ghost use Rattle.std.specs.Prelude.{◌≡◌, ◌<◌, ◌≤◌, ◌^◌, ◌⊎◌, IfErr, IfOk, IfSome, length, option_map};
ghost use Rattle.toml.specs.View.{table_view};

use crate::fault::SetupFault;
use crate::keys::{member, required};
use crate::owners::check_owners;
use crate::parts::{Collection, Identity, Parts};
use crate::places::{collection_places, identity_places};
use crate::rows::{collections_of, identities_of};
use crate::value::namespace_in;
use gt_paths::Path;
use gt_types::Who;
use gt_values::{Digest, Id};
use sha2::{Digest as _, Sha256};
use std::alloc::{AllocError, Global};
use std::collections::BTreeMap;
use std::marker::Model;
use toml::Table;

/// The setup of a desk. Collections are numbered from 0 in its order.
#[derive(Debug, Drop)]
pub struct Setup {
    namespace: u32,
    identities: Vec<Identity>,
    collections: Vec<Collection>,
    // The places of identities by their identifiers and by the digests of their tokens, and those of collections.
    by_id: BTreeMap<Id, usize>,
    by_digest: BTreeMap<Digest, usize>,
    by_collection: BTreeMap<Id, usize>,
}

impl Model for Setup {
    ghost use Rattle.gt_setup.specs.Indexed.{IsIndexed};
    ghost use Rattle.gt_setup.specs.Setup as spec;
    ghost use Rattle.std.specs.Prelude.{◌<◌, ◌^◌, length};

    ghost Value = { spec.Setup };

    ghost view = { λ s. record {
      namespace = s.namespace;
      identities = s.identities.items;
      collections = s.collections.items;
    } };

    ghost invariant = { λ s. (length s.collections.items < 2 ^ 32)
        × IsIndexed s.identities.items s.collections.items s.by_id s.by_digest s.by_collection };
}

impl Setup {
    /// The setup that the bytes of a setup file stand for: TOML with the keys of `docs/FORMATS.md`.
    ///
    /// Of several faults the first is told: `TooLong`, `NotToml`, then the first `Missing` or `BadValue`, key by key and
    /// row by row, then `Twice`, then `UnknownIdentity`.
    #[tactic(auto, unfolding(crate::specs::Grammar::setup_of))]
    pub fn read(alloc: Global, bytes: &[u8]) -> Result<Setup, SetupFault>
        ensures value { IfOk result (λ setup. setup_of bytes.now ≡ Ok setup) }
        ensures fault { FaultsAs SetupFault.OutOfMemory (setup_of bytes.now) result }

        // What is too long is told as such, whatever memory there is.
        ensures memory { IfErr result
            (λ f. f ≡ SetupFault.OutOfMemory → length bytes.now ≤ 1048576) }
    {
        if bytes.len() > 1_048_576 {
            return Err(SetupFault::TooLong {
                bytes: bytes.len() as u64,
            });
        }
        let Some(table) = table_of(alloc, bytes)? else {
            return Err(SetupFault::NotToml);
        };
        let parts = parts_of(alloc, &table)?;
        let setup = Setup::of(alloc, parts)?;
        check_owners(&setup, &setup.collections)?;
        Ok(setup)
    }

    // The setup of the parts, with its indexes.
    #[tactic(auto, unfolding(crate::specs::Grammar::told_apart))]
    fn of(alloc: Global, parts: Parts) -> Result<Setup, SetupFault>
        requires few { length parts.collections.items < 2 ^ 32 }
        requires digests { IsIndexOf lists parts.identities.items parts.by_digest }
        ensures value { IfOk result (λ setup. setup ≡ setup_from parts) }
        ensures apart { IfOk result (λ setup. told_apart (setup_from parts) ≡ Ok setup) }
        ensures fault { FaultsAs SetupFault.OutOfMemory (told_apart (setup_from parts)) result }
    {
        let by_id = identity_places(alloc, &parts.identities)?;
        let by_collection = collection_places(alloc, &parts.collections)?;
        let Parts {
            namespace,
            identities,
            collections,
            by_digest,
        } = parts;
        Ok(Setup {
            namespace,
            identities,
            collections,
            by_id,
            by_digest,
            by_collection,
        })
    }

    /// The namespace of the identifiers that the desk makes.
    pub fn namespace(&self) -> u32
        ensures { result ≡ self.now.namespace }
    {
        self.namespace
    }

    /// How many collections there are.
    pub fn collections(&self) -> u32
        ensures { result ≡ length self.now.collections }
    {
        self.collections.len() as u32
    }

    /// The first identity that lists the token's SHA-256. `None` exactly where none does.
    #[tactic(auto, using(crate::proofs::PlaceLemmas::found_at_place, crate::proofs::PlaceLemmas::first_place_within, crate::proofs::PlaceLemmas::none_without_place))]
    pub fn identity_of(&self, token: &str) -> Option<&Who>
        ensures { option_copied result ≡ identity_of self.now token.now }
    {
        let digest = Digest::from_bytes(Sha256::digest(token.as_bytes()));
        match self.by_digest.get(&digest) {
            Some(place) => Some(&self.identities[*place].who),
            None => None,
        }
    }

    /// The identity with this identifier, with its groups. `None` exactly where there is none.
    #[tactic(auto, using(crate::proofs::PlaceLemmas::found_at_place, crate::proofs::PlaceLemmas::first_place_within, crate::proofs::PlaceLemmas::none_without_place))]
    pub fn who(&self, identity: &Id) -> Option<&Who>
        ensures { option_copied result ≡ who_of self.now identity.now }
    {
        match self.by_id.get(identity) {
            Some(place) => Some(&self.identities[*place].who),
            None => None,
        }
    }

    /// The number of the collection with this identifier. `None` exactly where there is none.
    #[tactic(auto, using(crate::proofs::PlaceLemmas::position_by_place, crate::proofs::PlaceLemmas::first_place_within))]
    pub fn collection_of(&self, id: &Id) -> Option<u32>
        ensures value { result ≡ collection_of self.now id.now }
        ensures within { IfSome result (λ collection. collection < length self.now.collections) }
    {
        match self.by_collection.get(id) {
            Some(place) => Some(*place as u32),
            None => None,
        }
    }

    /// The identifier of the collection.
    pub fn id_of(&self, collection: u32) -> Id
        requires { collection < length self.now.collections }
        ensures { result ≡ id_of self.now collection }
    {
        self.collections[collection as usize].id
    }

    /// The name of the collection.
    pub fn name_of(&self, collection: u32) -> &str
        requires { collection < length self.now.collections }
        ensures { result.now ≡ name_of self.now collection }
    {
        self.collections[collection as usize].name.as_str()
    }

    /// The identity that owns the collection.
    pub fn owner_of(&self, collection: u32) -> Id
        requires { collection < length self.now.collections }
        ensures { result ≡ owner_of self.now collection }
    {
        self.collections[collection as usize].owner
    }

    /// The folder that `~` stands for in the collection.
    pub fn home_of(&self, collection: u32) -> &Path
        requires { collection < length self.now.collections }
        ensures { result.now ≡ home_of self.now collection }
    {
        &self.collections[collection as usize].home
    }
}

// What the file's table says, key by key and row by row.
#[tactic(auto, unfolding(crate::specs::Grammar::parts_of))]
fn parts_of(alloc: Global, table: &Table) -> Result<Parts, SetupFault>
    ensures value { IfOk result (λ parts. parts_of (table_view table.now) ≡ Ok (setup_from parts)) }
    ensures few { IfOk result (λ parts. length parts.collections.items < 2 ^ 32) }
    ensures digests { IfOk result
        (λ parts. IsIndexOf lists parts.identities.items parts.by_digest) }
    ensures fault { FaultsAs SetupFault.OutOfMemory (parts_of (table_view table.now)) result }
{
    let value = member(table, "namespace");
    let namespace = required(alloc, "namespace", 0, value, namespace_in(value))?;
    let (identities, by_digest) = identities_of(alloc, table)?;
    let collections = collections_of(alloc, table)?;
    Ok(Parts {
        namespace,
        identities,
        collections,
        by_digest,
    })
}

// The table of the file, or none where it is no TOML.
fn table_of(alloc: Global, bytes: &[u8]) -> Result<Option<Table>, AllocError>
    ensures { IfOk result (λ table. option_map table_view table ≡ table_of bytes.now) }
{
    match toml::table_from_slice(alloc, bytes) {
        Ok(table) => Ok(Some(table)),
        Err(error) => {
            if error.is_memory() {
                Err(AllocError)
            } else {
                Ok(None)
            }
        }
    }
}
