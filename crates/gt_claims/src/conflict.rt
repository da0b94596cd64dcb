ghost use Rattle.std.specs.List.{list_any};
ghost use Rattle.std.specs.Prelude.{◌≡◌, ℕ};
ghost use Rattle.gt_claims.specs.Claims.{conflicts_with, uses};
ghost use Rattle.gt_types.specs.Conflict.{meet, touched_spots, written_spot};

use crate::claim::Claim;
use gt_paths::Path;
use gt_types::Act;

/// What is asked of each claim.
pub(crate) trait Test {
    ghost use Rattle.std.specs.Prelude.{Bool};
    ghost use Rattle.gt_claims.specs.declared.claim.Claim.{Claim};

    ghost test: { Self → Claim → Bool };

    /// Whether the claim passes.
    fn passes(&self, claim: &Claim) -> bool
        ensures { result ≡ test self.now claim.now };
}

/// The act on these collections of its task is in conflict with the claim.
#[derive(Drop)]
pub(crate) struct InConflict<'a> {
    pub(crate) act: &'a Act,
    pub(crate) source: u32,
    pub(crate) destination: u32,
}

impl<'a> Test for InConflict<'a> {
    ghost test = { λ asked. conflicts_with asked.source asked.destination asked.act.now };

    fn passes(&self, claim: &Claim) -> bool {
        in_conflict(self.act, self.source, self.destination, claim)
    }
}

/// The claim reads or writes a path that overlaps with this path of the collection.
#[derive(Drop)]
pub(crate) struct Uses<'a> {
    pub(crate) collection: u32,
    pub(crate) path: &'a Path,
}

impl<'a> Test for Uses<'a> {
    ghost test = { λ asked. uses asked.collection asked.path.now };

    fn passes(&self, claim: &Claim) -> bool {
        let (source, destination) = (claim.source, claim.destination);
        touches(&claim.act, source, destination, self.collection, self.path)
    }
}

// Whether the act on these collections of its task is in conflict with the claim: one writes what the other reads or writes.
fn in_conflict(act: &Act, source: u32, destination: u32, claim: &Claim) -> bool
    ensures { result ≡ conflicts_with source destination act.now claim.now }
{
    touches(
        &claim.act,
        claim.source,
        claim.destination,
        destination,
        written_path(act),
    ) || touches(
        act,
        source,
        destination,
        claim.destination,
        written_path(&claim.act),
    )
}

// The path that the act writes. It lies on the destination collection.
fn written_path(act: &Act) -> &Path
    ensures { (source destination : ℕ)
        → written_spot source destination act.now
        ≡ record { collection = destination; path = result.now } }
{
    match act {
        Act::Transfer { destination, .. } => destination,
        Act::Erase { path, .. } | Act::RemoveFolder { path } => path,
    }
}

// Whether the act on its collections reads or writes a path that overlaps with this path of this collection.
fn touches(act: &Act, source: u32, destination: u32, collection: u32, path: &Path) -> bool
    ensures { result
        ≡ list_any (meet (record { collection = collection; path = path.now }))
        (touched_spots source destination act.now) }
{
    match act {
        Act::Transfer {
            source: read,
            destination: written,
            ..
        } => {
            (collection == destination && path.overlaps(written))
                || (collection == source && path.overlaps(read))
        }
        Act::Erase { path: written, .. } | Act::RemoveFolder { path: written } => {
            collection == destination && path.overlaps(written)
        }
    }
}
