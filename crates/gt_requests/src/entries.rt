//! The entries of a transfer document.
ghost use Rattle.gt_documents.specs.Reading.{ReadsAs};
ghost use Rattle.gt_paths.specs.Path.{overlaps};
ghost use Rattle.gt_requests.specs.Entries.{entries_of, entry_of, recursive_at, sides_between};
ghost use Rattle.gt_types.specs.Forms.{is_entries};
ghost use Rattle.gt_types.specs.SpecForms.{is_transfer_entry};
ghost use Rattle.serde_json.specs.View.{view};
ghost use Rattle.std.specs.Prelude.{◌≡◌, ◌&&◌, IfOk, not, true};

use gt_documents::{DocumentFault, Place, ReadItem, constant, is_object, items, path, unset};
use gt_paths::Path;
use gt_types::TransferEntry;
use gt_values::Sequence;
use serde_json::Value;
use std::alloc::Global;

/// The homes of the two collections of a transfer, and whether they are one.
#[derive(Drop)]
pub(crate) struct Sides<'a> {
    pub(crate) source: &'a Path,
    pub(crate) destination: &'a Path,
    pub(crate) are_one: bool,
}

impl<'a> ReadItem for Sides<'a> {
    type Item = TransferEntry;

    ghost reading = { λ sides. entry_of
        (sides_between sides.source.now sides.destination.now sides.are_one) };

    ghost is_good = { λ sides. is_transfer_entry sides.are_one };

    fn read(&self, alloc: Global, value: &Value) -> Result<TransferEntry, DocumentFault> {
        read_entry(alloc, value, self.source, self.destination, self.are_one)
    }
}

/// The entries of a transfer document between these sides: 1 to 10,000.
#[tactic(auto, unfolding(crate::specs::Entries::entries_of))]
pub(crate) fn read_entries(
    alloc: Global,
    object: &Value,
    sides: &Sides<'_>,
) -> Result<Sequence<TransferEntry>, DocumentFault>
    ensures value { ReadsAs
        (entries_of (sides_between sides.now.source.now sides.now.destination.now sides.now.are_one)
        (view object.now)) result }
    ensures limits { IfOk result
        (λ entries. is_entries (is_transfer_entry sides.now.are_one) entries ≡ true) }
{
    let entries = items(alloc, object, "DATA", 1, 10_000, sides)?;
    Ok(Sequence::from_vec(entries))
}

// The entry that the value is. On one collection its paths don't overlap.
#[tactic(auto, unfolding(crate::specs::Entries::entry_of))]
fn read_entry(
    alloc: Global,
    value: &Value,
    source: &Path,
    destination: &Path,
    are_one: bool,
) -> Result<TransferEntry, DocumentFault>
    ensures value { ReadsAs
        (entry_of (sides_between source.now destination.now are_one) (view value.now)) result }
    ensures limits { IfOk result (λ entry. is_transfer_entry are_one entry ≡ true) }
{
    is_object(value)?;
    constant(value, "DATA_TYPE", "transfer_item")?;
    let source = path(alloc, value, "source_path", source)?;
    let destination = path(alloc, value, "destination_path", destination)?;
    match read_recursive(value, are_one, &source, &destination) {
        Ok(recursive) => Ok(TransferEntry {
            source,
            destination,
            recursive,
        }),
        Err(place) => Err(DocumentFault::Bad(place)),
    }
}

// Whether an entry of these paths is said to be no folder. On one collection they are tested first.
fn read_recursive(
    value: &Value,
    are_one: bool,
    source: &Path,
    destination: &Path,
) -> Result<Option<bool>, Place>
    ensures value { result ≡ recursive_at are_one source.now destination.now (view value.now) }
    ensures good { IfOk result
        (λ _. not (are_one && overlaps source.now destination.now) ≡ true) }
{
    if are_one && source.overlaps(destination) {
        return Err(Place::member("destination_path"));
    }
    unset(value, "recursive")
}
