// What is true of messages, whoever reads them.
ghost use Rattle.gt_http.specs.Message.{OneFirstMessage};
ghost use Rattle.gt_http.specs.Refusal.{NotRefused};

/// For the proof: a stream has at most one first message, and one that has a message has no bad head and no body that is
/// too large.
pub fn one_first_message()
    ensures one { OneFirstMessage }
    ensures apart { NotRefused }
{}
