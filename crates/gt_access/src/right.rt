ghost use Rattle.std.specs.Prelude.{◌≡◌, ◌+◌, ◌*◌, max};
ghost use Rattle.gt_access.specs.Right as spec;
ghost use Rattle.gt_access.specs.Best.{score, score_of};

use crate::row::{AccessRow, Right};
use gt_paths::Path;
use gt_types::{Principal, Who};
use gt_values::is_alive;

// Whether the principal is the caller, one of the caller's groups, or everybody.
fn is_named(principal: &Principal, who: &Who) -> bool
    ensures { result ≡ spec.is_named principal.now who.now }
{
    match principal {
        Principal::Identity(id) => *id == who.identity,
        Principal::Group(id) => who.groups.as_slice().contains(id),
        Principal::AllAuthenticated | Principal::Anonymous => true,
    }
}

/// Whether the row is alive at the event `seq`, and is for this collection, caller and path.
pub(crate) fn applies(row: &AccessRow, seq: u64, who: &Who, collection: u32, path: &Path) -> bool
    ensures { result ≡ spec.applies seq who.now collection path.now row.now }
{
    is_alive(seq, row.born, row.ended)
        && row.collection == collection
        && is_named(&row.spec.principal, who)
        && path.is_under(&row.spec.path)
}

/// The longest path of the rows met so far, and the greatest permission of those with a path of this length.
#[derive(Clone, Copy)]
pub(crate) struct Best {
    depth: u32,
    right: Right,
}

impl Best {
    /// No row was met.
    pub(crate) fn nothing() -> Best
        ensures { score result ≡ 0 }
    {
        Best {
            depth: 0,
            right: Right::Nothing,
        }
    }

    /// The row was met too.
    pub(crate) fn with(self, row: &AccessRow) -> Best
        ensures { score result ≡ max (score self) (score_of row.now) }
    {
        let depth = row.spec.path.names();
        let right = if row.spec.write {
            Right::Write
        } else {
            Right::Read
        };
        if depth > self.depth {
            Best { depth, right }
        } else if depth == self.depth && right > self.right {
            Best { depth, right }
        } else {
            self
        }
    }

    /// The right that the rows give.
    pub(crate) fn right(self) -> Right
        ensures { result ≡ self.right }
    {
        self.right
    }
}
