// Listing a folder and reading a file in memory.
ghost use Rattle.std.specs.Option.{option_copied};
ghost use Rattle.std.specs.Range.Bound.{bound_map};
ghost use Rattle.std.specs.Prelude.{◌≡◌, ◌≤◌, ◌<◌, ◌^◌, IfOk, OnOk, drop, length, map, take};
ghost use Rattle.gt_forest.specs.Rows.{IsIndexed, later_entries, listed, start_of};

use crate::folders::Contents;
use gt_paths::Name;
use gt_types::Entry;
use std::alloc::{AllocError, Global};
use std::ops::Bound;

/// Where the names after this one begin, in an ordered map of names.
pub fn start_of<'a>(after: Option<&'a Name>) -> Bound<&'a Name>
    ensures { bound_map (λ name. name.now) result ≡ start_of (option_copied after.entry) }
{
    match after {
        Some(name) => Bound::Excluded(name),
        None => Bound::Unbounded,
    }
}

/// The first entries after a name.
pub(crate) fn list_from(
    alloc: Global,
    contents: &Contents,
    after: Option<&Name>,
    limit: u32,
) -> Result<Vec<Entry>, AllocError>
    ensures listed { IfOk result (λ entries. entries.items ≡ take limit
        (map listed (later_entries (option_copied after.entry) contents.now.entries))) }
    ensures indexed { OnOk result (IsIndexed contents.now.entries) }
{
    let mut entries = Vec::new(alloc);
    for (name, node) in contents.range((start_of(after), Bound::Unbounded)) {
        if entries.len() >= limit as usize {
            break;
        }
        let name = name.copy(alloc)?;
        let kind = node.kind();
        entries.push(Entry { name, kind })?;
    }
    Ok(entries)
}

/// Puts the bytes from a place on into the front of `into`, and says how many.
pub(crate) fn copy_from(bytes: &[u8], at: u64, into: &mut [u8]) -> usize
    ensures room { (result ≤ length into.old) × (result < 2 ^ 64) }
    ensures ok { take result into.new ≡ take (length into.old) (drop at bytes.now) }
{
    let at = at.min(bytes.len() as u64) as usize;
    let n = into.len().min(bytes.len() - at);
    into[..n].copy_from_slice(&bytes[at..at + n]);
    n
}
