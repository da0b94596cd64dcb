//! What holds of all documents, as clauses that a caller can cite. Each body is empty.
ghost use Rattle.gt_replies.specs.Order.{RefusalMembersAscend, ReplyMembersAscend};
ghost use Rattle.gt_replies.specs.Spelled.{RefusalIsSpelled, StatusesHaveThreeDigits, SubmittedIsSpelled};

/// In the document of each reply and each refusal, the members of each object stand in the order of their names' bytes,
/// and no name stands twice.
pub fn members_ascend()
    ensures reply { ReplyMembersAscend }
    ensures refusal { RefusalMembersAscend }
{}

/// The document of a refusal and that of the answer to a submission, letter by letter.
pub fn documents_are_spelled()
    ensures refusal { RefusalIsSpelled }
    ensures submitted { SubmittedIsSpelled }
{}

/// The status of each reply has three digits.
pub fn statuses_have_three_digits()
    ensures { StatusesHaveThreeDigits }
{}
