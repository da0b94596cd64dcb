ghost use Rattle.gt_types.specs.Outcome as spec;
ghost use Rattle.std.specs.Prelude.{IsTrue, ◌≡◌};

use crate::act::{Act, Side, Want};
use crate::code::Code;
use crate::listing::{Entry, Stat};
use gt_values::{Digest, Sequence};

/// What a copy rests on: the size and the digest of the bytes that were read, and the digest of what was read back, where
/// the task verifies.
#[derive(Clone, Copy, Debug, PartialEq, Eq)]
pub struct Evidence {
    pub size: u64,
    pub source: Digest,
    pub back: Option<Digest>,
}

/// How a worker's attempt at an item ended. `checked` counts the bytes that were read to take digests of what was there.
#[derive(Clone, Debug, PartialEq, Eq, Drop)]
pub enum Outcome {
    /// The file was copied.
    Copied {
        evidence: Evidence,
        checked: u64,
    },
    /// The file needed no copy at this sync level. `digests` are those of the source and the destination.
    Present {
        level: u8,
        source: Stat,
        destination: Stat,
        digests: Option<(Digest, Digest)>,
        checked: u64,
    },
    /// The folder was listed, after it was made where `made`, and the destination's too where extra entries are removed.
    Expanded {
        made: bool,
        source: Sequence<Entry>,
        destination: Option<Sequence<Entry>>,
    },
    /// The folder to be erased has these entries.
    Listed {
        entries: Sequence<Entry>,
    },
    /// The file or the empty folder was removed.
    Removed,
    /// There was nothing to remove.
    Missing,
    /// The forest refused, on this side.
    Failed {
        code: Code,
        side: Side,
    },
    /// A call of the forest failed: its count of faults before and after.
    TreeFault {
        before: u64,
        after: u64,
    },
    /// What was read back is not what was copied.
    Mismatch {
        size: u64,
        source: Digest,
        back_size: u64,
        back: Digest,
        checked: u64,
    },
}

/// An item as a worker gets it, with what it needs of the task. `event` is the number of the event that granted it.
///
/// For a deletion both collections are the task's. `level` is the task's, and none for an item that was tried before.
/// `list_destination` says that extra entries are to be removed.
#[derive(Clone, Debug, PartialEq, Eq, Drop)]
pub struct Grant {
    pub item: u64,
    pub event: u64,
    pub worker: u8,
    pub act: Act,
    pub source: u32,
    pub destination: u32,
    pub level: Option<u8>,
    pub verify: bool,
    pub preserve: bool,
    pub list_destination: bool,
}

/// Whether a worker may report the outcome of the grant.
pub fn outcome_fits(grant: &Grant, outcome: &Outcome) -> bool
    ensures value { result ≡ spec.outcome_fits grant.now outcome.now }
    ensures ok { IsTrue result → IsTrue (spec.is_of_one_file outcome.now) }
{
    match outcome {
        Outcome::Copied { evidence, .. } => may_copy(&grant.act)
            && is_read_back(grant.verify, evidence),
        Outcome::Failed { code, side } => is_worker_code(&grant.act, *code)
            && is_side_of(&grant.act, *side),
        Outcome::TreeFault { before, after } => {
            before < after || *before == u64::MAX && *after == u64::MAX
        }
        Outcome::Mismatch {
            size,
            source,
            back_size,
            back,
            ..
        } => is_transfer(&grant.act) && grant.verify && (source != back || size != back_size),
        Outcome::Present { .. }
        | Outcome::Expanded { .. }
        | Outcome::Listed { .. }
        | Outcome::Removed
        | Outcome::Missing => false,
    }
}

// Whether the act may copy a file: a transfer that doesn't want a folder.
fn may_copy(act: &Act) -> bool
    ensures { result ≡ spec.may_copy act.now }
{
    match act {
        Act::Transfer { want, .. } => match want {
            Want::File | Want::Either => true,
            Want::Folder => false,
        },
        Act::Erase { .. } | Act::RemoveFolder { .. } => false,
    }
}

fn is_transfer(act: &Act) -> bool
    ensures { result ≡ spec.is_transfer act.now }
{
    match act {
        Act::Transfer { .. } => true,
        Act::Erase { .. } | Act::RemoveFolder { .. } => false,
    }
}

// A read-back with the source's digest where the task verifies, and none elsewhere.
fn is_read_back(verify: bool, evidence: &Evidence) -> bool
    ensures { result ≡ spec.is_read_back verify evidence.now.source evidence.now.back }
{
    match &evidence.back {
        None => !verify,
        Some(back) => verify && *back == evidence.source,
    }
}

// Whether a worker may find the code for the act.
fn is_worker_code(act: &Act, code: Code) -> bool
    ensures { result ≡ spec.is_worker_code act.now code }
{
    match code {
        Code::FileNotFound | Code::PermissionDenied | Code::WrongKind | Code::NotEmpty => true,
        Code::FolderTooLarge => match act {
            Act::Transfer { .. } | Act::Erase { .. } => true,
            Act::RemoveFolder { .. } => false,
        },
        Code::VerifyMismatch | Code::TreeFault | Code::ItemLimit | Code::PathTooLong => false,
    }
}

// What isn't a transfer has the destination's side alone.
fn is_side_of(act: &Act, side: Side) -> bool
    ensures { result ≡ spec.is_side_of act.now side }
{
    match side {
        Side::Source => is_transfer(act),
        Side::Destination => true,
    }
}
