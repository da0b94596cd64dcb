ghost use Rattle.std.specs.Option.{option_cmp};
ghost use Rattle.std.specs.Prelude.{◌≡◌, Some};
ghost use Rattle.gt_index.specs.Index.{is_before, key_at};

use crate::keyed::{Asked, Keyed};
use std::cmp::Ordering;

/// Whether the first place comes before the second.
pub(crate) fn comes_before<R: Keyed>(rows: &[R], a: u32, b: u32) -> bool
    ensures { result ≡ is_before R.Key.cmp (key_at R.key rows.now) a b }
{
    match (rows.get(a as usize), rows.get(b as usize)) {
        (Some(first), Some(second)) => match first.compare(second) {
            Ordering::Less => true,
            Ordering::Equal => a < b,
            Ordering::Greater => false,
        },
        (None, Some(_)) => true,
        (Some(_), None) => false,
        (None, None) => a < b,
    }
}

/// How the key of the row at the place stands to the one that is asked for. A place without a row is below each.
pub(crate) fn standing<R: Keyed, Q: Asked<R>>(rows: &[R], place: u32, key: &Q) -> Ordering
    ensures { result ≡ option_cmp R.Key.cmp (key_at R.key rows.now place) (Some (Q.asked key.now)) }
{
    match rows.get(place as usize) {
        Some(row) => key.standing(row),
        None => Ordering::Less,
    }
}
