use crate::kept::Kept;
use crate::listing::Kind;
use gt_paths::Path;
use gt_values::{Exact, Moment, Sequence, Text};

/// One pair of paths to transfer. `recursive` is true for a folder, false for a file, absent for either.
#[derive(Clone, Debug, PartialEq, Eq, Drop)]
pub struct TransferEntry {
    pub source: Path,
    pub destination: Path,
    pub recursive: Option<bool>,
}

/// A filter rule: names that match the pattern, of this kind or of both, are taken or left out.
#[derive(Clone, Debug, PartialEq, Eq, Drop)]
pub struct FilterRule {
    pub include: bool,
    pub kind: Option<Kind>,
    pub pattern: Text,
}

/// What a transfer document asks. Collections are numbered from 0 in the order of the setup.
#[derive(Clone, Debug, PartialEq, Eq, Drop)]
pub struct TransferSpec {
    pub source: u32,
    pub destination: u32,
    pub label: Option<Text>,
    pub deadline: Option<Moment>,
    pub level: Option<u8>,
    pub verify: bool,
    pub preserve: bool,
    pub extra: bool,
    pub skip_source: bool,
    pub kept: Kept,
    pub rules: Sequence<FilterRule>,
    pub entries: Sequence<TransferEntry>,
}

/// What a delete document asks.
#[derive(Clone, Debug, PartialEq, Eq, Drop)]
pub struct DeleteSpec {
    pub collection: u32,
    pub label: Option<Text>,
    pub deadline: Option<Moment>,
    pub recursive: bool,
    pub ignore_missing: bool,
    pub kept: Kept,
    pub entries: Sequence<Path>,
}

/// What a task does.
#[derive(Clone, Debug, PartialEq, Eq, Drop)]
pub enum Spec {
    Transfer(TransferSpec),
    Delete(DeleteSpec),
}

impl Exact for FilterRule {
    ghost use Rattle.std.proofs.Common.{rules};

    ghost exact = { Prim.search rules };
}

impl Exact for TransferEntry {
    ghost use Rattle.std.proofs.Common.{rules};

    ghost exact = { Prim.search rules };
}
