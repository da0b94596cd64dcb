ghost use Rattle.gt_machine.specs.Decision as spec;
ghost use Rattle.std.specs.Prelude.{◌≡◌};

use gt_types::{Event, Reply, ReplyCode};

/// What a call comes to: an answer alone, or an event that is to be made, with the answer that tells of it.
#[derive(Debug, Drop)]
pub enum Decision<A> {
    Say(A),
    Do(Event, A),
}

/// A refusal.
pub(crate) fn refusing(code: ReplyCode) -> Decision<Reply>
    ensures { result ≡ spec.refusing code }
{
    Decision::Say(Reply::Refused { code })
}
