use gt_paths::Path;
use gt_types::Who;
use gt_values::{Digest, Id, Sequence, Text};
use std::collections::BTreeMap;

/// An identity of the setup, with its groups, its name, and the SHA-256 of each of its tokens.
#[derive(Debug, Drop)]
pub struct Identity {
    pub who: Who,
    pub name: Text,
    pub tokens: Sequence<Digest>,
}

/// A collection of the setup: its identifier, its name, the identity that owns it, and the folder that `~` stands for.
#[derive(Debug, Drop)]
pub struct Collection {
    pub id: Id,
    pub name: Text,
    pub owner: Id,
    pub home: Path,
}

/// What the file says, before identifiers are compared, and the place of each identity by the digests of its tokens.
#[derive(Drop)]
pub(crate) struct Parts {
    pub(crate) namespace: u32,
    pub(crate) identities: Vec<Identity>,
    pub(crate) collections: Vec<Collection>,
    pub(crate) by_digest: BTreeMap<Digest, usize>,
}
