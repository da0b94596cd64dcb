ghost use Rattle.gt_causes.specs.Causes.{HasFailed};
ghost use Rattle.gt_streams.specs.Streams.{IsSameSink, SinkAnswer, SinkWords, WritesAll};
ghost use Rattle.std.specs.Prelude.{IfErr, IfOk, IsErr, IsTrue, [], length, ◌<◌, ◌≡◌, ◌≤◌};

use gt_causes::Failed;
use thiserror::Error;

/// A place for bytes.
///
/// What it took is told by objects in memory. A real sink tells nothing of it, and is known by its count of faults.
pub trait Sink {
    /// All that is said of it.
    ghost words: { SinkWords Self };

    /// The count of faults.
    fn faults(&self) -> u64
        ensures { result ≡ words.faults self.now };

    /// Takes bytes from the front of `from`, and says how many: at least one where there is one. A sink that can take none
    /// raises its count and answers `Failed`. A write that answers `Failed` takes nothing.
    fn write(&mut self, from: &[u8]) -> Result<usize, Failed>
        ensures same { IsSameSink words self.old self.new }
        ensures cause { IsErr result → HasFailed words.faults self.old self.new }
        ensures room { IfOk result (λ n. n ≤ length from.now) }
        ensures ok { IfOk result (λ n. 0 < length from.now → 0 < n) }
        ensures told { IsTrue (words.told self.old)
            → SinkAnswer words self.old from.now result self.new };
}

/// The sink failed after it had taken `wrote` bytes, fewer than all.
#[derive(Clone, Copy, Debug, PartialEq, Eq, Error)]
#[error("the device failed after {wrote} bytes")]
pub struct Partial {
    pub wrote: u64,
}

/// Writes all of `bytes`. No bytes make no call.
///
/// `Partial` comes only where a write failed. The sink has then taken exactly the first `wrote` bytes.
pub fn write_all<K: Sink>(sink: &mut K, bytes: &[u8]) -> Result<(), Partial>
    ensures same { IsSameSink K.words sink.old sink.new }
    ensures cause { IsErr result → HasFailed K.words.faults sink.old sink.new }
    ensures room { IfErr result (λ e. e.wrote < length bytes.now) }
    ensures told { IsTrue (K.words.told sink.old)
        → WritesAll K.words sink.old bytes.now result sink.new }
    ensures nothing { bytes.now ≡ [] → sink.new ≡ sink.old }
{
    let mut wrote = 0;
    while wrote < bytes.len() {
        match sink.write(&bytes[wrote..]) {
            Ok(more) => wrote += more,
            Err(Failed) => {
                return Err(Partial {
                    wrote: wrote as u64,
                });
            }
        }
    }
    Ok(())
}
