//! What holds of all requests and documents, as clauses that a caller can cite.
ghost use Rattle.gt_requests.specs.Causes.{FirstCauseRefuses};
ghost use Rattle.gt_requests.specs.Laws.{FirstBadMember, UnknownMembersChangeNothing};

use gt_documents::last_member_counts;

/// A request is refused with the code of the first cause that holds, in the order of `causes`, and read where none does.
pub fn first_cause_refuses()
    ensures { FirstCauseRefuses }
{}

/// Members that a document's table doesn't name change nothing of what it is read as.
pub fn unknown_members_change_nothing()
    ensures { UnknownMembersChangeNothing }
{
    last_member_counts();
}

/// Where a place is told of a document, it lies in the first bad member of its table. A document whose members are all good
/// is read.
pub fn first_bad_member()
    ensures { FirstBadMember }
{}
