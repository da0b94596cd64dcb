ghost use Rattle.std.specs.Prelude.{◌≡◌};

use std::cmp::Ordering;

/// A row with a key, by which an index puts it in order.
pub trait Keyed {
    type Key: Ord;

    ghost key: { Self → Self.Key };

    /// How the key of this row stands to that of the other.
    fn compare(&self, other: &Self) -> Ordering
        ensures { result ≡ Self.Key.cmp (key self.now) (key other.now) };
}

/// A key that an index is asked for, in a form that may borrow its parts.
pub trait Asked<R: Keyed> {
    ghost asked: { Self → R.Key };

    /// How the key of the row stands to this one.
    fn standing(&self, row: &R) -> Ordering
        ensures { result ≡ R.Key.cmp (R.key row.now) (asked self.now) };
}
