//! What definitions say in the subject's words, as public functions.
ghost use Rattle.gt_types.specs.Kept.{KeptMembersComeBack};
ghost use Rattle.gt_types.specs.Outcome.{VerifiedCopiesWereReadBack};

/// For the proof: a member without effect is printed as it was given.
pub fn kept_members_come_back()
    ensures { KeptMembersComeBack }
{}

/// For the proof: the copy of a verified grant has a read-back with the source's digest.
pub fn verified_copies_were_read_back()
    ensures { VerifiedCopiesWereReadBack }
{}
