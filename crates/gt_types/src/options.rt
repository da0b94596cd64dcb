ghost use Rattle.gt_types.specs.SpecParts as parts;
ghost use Rattle.std.specs.Prelude.{◌≡◌};

use crate::kept::Kept;
use crate::spec::{DeleteSpec, Spec, TransferSpec};

/// What the document of a task shows of a transfer, without its entries and filter rules.
#[derive(Clone, Copy, Debug, PartialEq, Eq)]
pub struct TransferOptions {
    pub source: u32,
    pub destination: u32,
    pub level: Option<u8>,
    pub verify: bool,
    pub preserve: bool,
    pub extra: bool,
    pub skip_source: bool,
    pub kept: Kept,
}

/// What the document of a task shows of a deletion, without its entries.
#[derive(Clone, Copy, Debug, PartialEq, Eq)]
pub struct DeleteOptions {
    pub collection: u32,
    pub recursive: bool,
    pub ignore_missing: bool,
    pub kept: Kept,
}

/// What the document of a task shows of its specification.
#[derive(Clone, Copy, Debug, PartialEq, Eq)]
pub enum TaskOptions {
    Transfer(TransferOptions),
    Delete(DeleteOptions),
}

/// The options of a specification.
pub fn options_of(spec: &Spec) -> TaskOptions
    ensures { result ≡ parts.options_of spec.now }
{
    match spec {
        Spec::Transfer(spec) => TaskOptions::Transfer(transfer_options(spec)),
        Spec::Delete(spec) => TaskOptions::Delete(delete_options(spec)),
    }
}

fn transfer_options(spec: &TransferSpec) -> TransferOptions
    ensures { result ≡ parts.transfer_options spec.now }
{
    TransferOptions {
        source: spec.source,
        destination: spec.destination,
        level: spec.level,
        verify: spec.verify,
        preserve: spec.preserve,
        extra: spec.extra,
        skip_source: spec.skip_source,
        kept: spec.kept,
    }
}

fn delete_options(spec: &DeleteSpec) -> DeleteOptions
    ensures { result ≡ parts.delete_options spec.now }
{
    DeleteOptions {
        collection: spec.collection,
        recursive: spec.recursive,
        ignore_missing: spec.ignore_missing,
        kept: spec.kept,
    }
}
