// A source and a sink over good ones, each wrong in one call.
ghost use Rattle.gt_streams.specs.Streams.{untold_sink, untold_source};
ghost use Rattle.std.specs.Prelude.{◌≤◌, length};

use crate::{MemSink, MemSource, Sink, Source};
use gt_causes::Failed;

/// What is wrong.
#[derive(Clone, Copy, Debug, PartialEq, Eq)]
pub enum Wrong {
    /// The first byte is another.
    Byte,
    /// A byte is left out.
    LeftOut,
    /// A read gives no byte, and a write says that it took all.
    Nothing,
    /// A read gives a byte more where there is room.
    More,
}

/// A source that is wrong in the call of this number, counted from 1.
#[derive(Drop)]
pub struct WrongSource {
    pub inner: MemSource,
    pub wrong: Wrong,
    pub at: u64,
    pub calls: u64,
}

impl Source for WrongSource {
    ghost words = { untold_source (λ s. s.inner.counts.faults) };

    fn faults(&self) -> u64 {
        self.inner.faults()
    }

    fn read(&mut self, into: &mut [u8]) -> Result<usize, Failed> {
        self.calls = self.calls.saturating_add(1);
        if self.calls != self.at {
            return self.inner.read(into);
        }
        if self.wrong == Wrong::LeftOut {
            self.inner.read(&mut [0])?;
        }
        let n = self.inner.read(into)?;
        Ok(spoilt(into, n, self.wrong))
    }
}

// What is wrong with so many bytes at the front of a buffer, and how many they are then.
fn spoilt(into: &mut [u8], n: usize, wrong: Wrong) -> usize
    requires { n ≤ length into.old }
    ensures same { length into.new ≤ length into.old }
    ensures room { result ≤ length into.old }
{
    match wrong {
        Wrong::Byte => {
            if let Some(first) = into.first_mut() {
                *first ^= 1;
            }
            n
        }
        Wrong::LeftOut => n,
        Wrong::Nothing => 0,
        Wrong::More => into.len().min(n.saturating_add(1)),
    }
}

/// A sink that is wrong in the call of this number, counted from 1.
#[derive(Drop)]
pub struct WrongSink {
    pub inner: MemSink,
    pub wrong: Wrong,
    pub at: u64,
    pub calls: u64,
}

impl Sink for WrongSink {
    ghost words = { untold_sink (λ s. s.inner.counts.faults) };

    fn faults(&self) -> u64 {
        self.inner.faults()
    }

    fn write(&mut self, from: &[u8]) -> Result<usize, Failed> {
        self.calls = self.calls.saturating_add(1);
        if self.calls != self.at || from.is_empty() {
            return self.inner.write(from);
        }
        match self.wrong {
            Wrong::Byte => {
                self.inner.write(&[from[0] ^ 1])?;
                Ok(1)
            }
            Wrong::LeftOut => Ok(1),
            Wrong::Nothing => Ok(from.len()),
            Wrong::More => {
                let _ = self.inner.write(&from[..1]);
                self.inner.write(from)
            }
        }
    }
}
