ghost use Rattle.std.specs.Prelude.{◌≡◌, ◌<◌, ◌≤◌, ◌+◌, IfSome, IsSome, filter, length, option_and_then, slice_get};
ghost use Rattle.gt_access.specs.Indexed.{IsNumbered, last_of, numbers_of};
ghost use Rattle.gt_access.specs.Right.{applies as row_applies, deepest, greatest_right};
ghost use Rattle.gt_access.specs.Rule as rule;

use crate::right::{Best, applies};
use crate::row::{AccessRow, Right};
use gt_paths::Path;
use gt_types::Who;

/// What the rows let the caller do with the path at the event `seq`, by a walk over all of them.
pub(crate) fn right_on(
    rows: &[AccessRow],
    seq: u64,
    who: &Who,
    collection: u32,
    path: &Path,
) -> Right
    ensures { result ≡ greatest_right
        (deepest (filter (row_applies seq who.now collection path.now) rows.now)) }
{
    let mut best = Best::nothing();
    for row in rows {
        if applies(row, seq, who, collection, path) {
            best = best.with(row);
        }
    }
    best.right()
}

/// The place of the live row with this number.
pub(crate) fn live_place(rows: &[AccessRow], newest: &[usize], number: u64) -> Option<usize>
    requires { IsNumbered rows.now newest.now }
    ensures within { IfSome result (λ place. place < length rows.now) }
    ensures row { option_and_then (λ place. slice_get rows.now place) result
        ≡ rule.live_access number rows.now }
{
    if number == 0 || number > newest.len() as u64 {
        return None;
    }
    let place = newest[number as usize - 1];
    if rows[place].ended.is_none() {
        Some(place)
    } else {
        None
    }
}

/// The place of the live row with this number, where there is one.
pub(crate) fn live_at(rows: &[AccessRow], newest: &[usize], number: u64) -> usize
    requires index { IsNumbered rows.now newest.now }
    requires live { IsSome (rule.live_access number rows.now) }
    ensures within { result < length rows.now }
    ensures row { slice_get rows.now result ≡ rule.live_access number rows.now }
    ensures last { last_of number (numbers_of rows.now) ≡ result + 1 }
    ensures number { (1 ≤ number) × (number ≤ length newest.now) }
{
    newest[number as usize - 1]
}
