//! What holds of all documents, lists and queries, as clauses that a caller can cite. Each body is empty.
ghost use Rattle.gt_documents.specs.Laws.{FirstBadItem, FirstPairCounts, LastMemberCounts, OthersChangeNothing};

use crate::lists::ReadItem;

/// Of the members of one name the last counts, and members of other names change nothing.
pub fn last_member_counts()
    ensures last { LastMemberCounts }
    ensures others { OthersChangeNothing }
{}

/// Of the pairs of one name of a query the first counts.
pub fn first_pair_counts()
    ensures { FirstPairCounts }
{}

/// Where a place is told of a list's items, each earlier item is good, and this one is bad there.
pub fn first_bad_item<R: ReadItem>(_reader: &R)
    ensures { FirstBadItem (R.reading _reader.now) }
{}
