ghost use Rattle.gt_causes.specs.Causes.{HasFailed};
ghost use Rattle.gt_streams.specs.Streams.{IsSameSource, SourceAnswer, SourceWords};
ghost use Rattle.std.specs.Prelude.{IfOk, IsErr, IsTrue, OnOk, length, ◌≡◌, ◌≤◌};

use gt_causes::Failed;

/// Bytes to read, in order, up to an end.
///
/// What is left is told by objects in memory. A real source tells nothing of it, and is known by its count of faults.
pub trait Source {
    /// All that is said of it.
    ghost words: { SourceWords Self };

    /// The count of faults.
    fn faults(&self) -> u64
        ensures { result ≡ words.faults self.now };

    /// Puts the next bytes at the front of `into`, and says how many. 0 for a non-empty `into` is the end of input, and later
    /// reads give 0 too. A read that answers `Failed` takes nothing, and may leave any bytes in `into`.
    fn read(&mut self, into: &mut [u8]) -> Result<usize, Failed>
        ensures same { IsSameSource words self.old self.new }
        ensures cause { IsErr result → HasFailed words.faults self.old self.new }
        ensures counted { OnOk result (words.faults self.new ≡ words.faults self.old) }
        ensures room { IfOk result (λ n. n ≤ length into.old) }
        ensures told { IsTrue (words.told self.old)
            → SourceAnswer words self.old into.old result into.new self.new };
}
