ghost use Rattle.gt_causes.specs.Causes.{HasFailed};
ghost use Rattle.gt_streams.specs.Doors.{AsksNext, DoorWords, HandsOut, IsSameDoor, KeepsBack, TakesBack};
ghost use Rattle.std.specs.Prelude.{IsErrOf, IsTrue, false, true, ◌≡◌};

use crate::{Sink, Source};
use std::alloc::Global;
use thiserror::Error;

/// Why no link was handed out.
#[derive(Clone, Copy, Debug, PartialEq, Eq, Error)]
pub enum DoorFault {
    /// The door failed, and counted it.
    #[error("the door failed")]
    Failed,
    /// There was no memory for a link.
    #[error("no memory for a link")]
    OutOfMemory,
}

/// Hands out links, one at a time, each with a side to read and a side to write.
///
/// Which links it handed out is told by doors in memory. A real door tells nothing of it. It stays in the thread that calls it.
pub trait Door {
    /// The side of a link to read.
    type In: Source;

    /// The side of a link to write.
    type Out: Sink;

    /// All that is said of it.
    ghost words: { DoorWords Self (Self.In × Self.Out) };

    /// The count of faults.
    fn faults(&self) -> u64
        ensures { result ≡ words.faults self.now };

    /// The next link, or none where no further one will come. The link handed out before must be back.
    fn next_link(&mut self, alloc: Global) -> Result<Option<(Self::In, Self::Out)>, DoorFault>
        requires { words.is_out self.old ≡ false }
        ensures same { IsSameDoor words self.old self.new }
        ensures cause { IsErrOf result DoorFault.Failed → HasFailed words.faults self.old self.new }
        ensures value { AsksNext words self.old result self.new }
        ensures told { IsTrue (words.told self.old) → HandsOut words self.old result self.new };

    /// Takes back the link that was handed out last. What is not sent yet is sent before the link ends.
    fn give_back(&mut self, link: (Self::In, Self::Out))
        requires { words.is_out self.old ≡ true }
        ensures same { IsSameDoor words self.old self.new }
        ensures value { TakesBack words self.old self.new }
        ensures told { IsTrue (words.told self.old) → KeepsBack words self.old link self.new };
}
