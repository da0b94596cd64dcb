ghost use Rattle.gt_causes.specs.Causes.{HasFailed};
ghost use Rattle.gt_streams.specs.Memory.{Gives, IsFresh, source_words};
ghost use Rattle.gt_streams.specs.Streams.{IsSameSource, SourceAnswer};
ghost use Rattle.std.specs.Prelude.{IfOk, IsErr, OnOk, length, ◌≡◌, ◌≤◌};

use crate::Source;
use gt_causes::{CallCounts, Failed};
use std::alloc::{AllocError, Global};
use std::marker::Model;

/// A source in memory. It tells its bytes.
#[derive(Drop)]
pub struct MemSource {
    bytes: Vec<u8>,
    at: usize,
    piece: u32,
    counts: CallCounts,
}

impl Model for MemSource {
    ghost use Rattle.gt_streams.specs.Memory.{SourceState};
    ghost use Rattle.std.specs.Prelude.{drop, length, ◌≤◌};

    ghost Value = { SourceState };

    ghost view = { λ s. record {
      left = drop s.at s.bytes.items;
      piece = s.piece;
      counts = s.counts;
    } };

    ghost invariant = { λ s. (s.at ≤ length s.bytes.items) × (1 ≤ s.piece) };
}

impl MemSource {
    /// A source of these bytes, which gives at most `piece` of them a read. Its reads are counted from 1, and those that
    /// `fails` lists fail, no others.
    pub fn new(bytes: Vec<u8>, piece: u32, fails: Vec<u64>) -> MemSource
        requires { 1 ≤ piece }
        ensures value { (result.left ≡ bytes.items) × (result.piece ≡ piece) }
        ensures listed { IsFresh fails.items result.counts }
    {
        MemSource {
            bytes,
            at: 0,
            piece,
            counts: CallCounts::new(fails),
        }
    }

    // The same source once more.
    pub(crate) fn copy(&self, alloc: Global) -> Result<MemSource, AllocError>
        ensures { IfOk result (λ source. source ≡ self.now) }
    {
        Ok(MemSource {
            bytes: self.bytes.to_vec(alloc)?,
            at: self.at,
            piece: self.piece,
            counts: self.counts.copy(alloc)?,
        })
    }
}

impl Source for MemSource {
    ghost words = { source_words };

    fn faults(&self) -> u64 {
        self.counts.faults()
    }

    fn read(&mut self, into: &mut [u8]) -> Result<usize, Failed>
        ensures same { IsSameSource source_words self.old self.new }
        ensures cause { IsErr result → HasFailed source_words.faults self.old self.new }
        ensures counted { OnOk result
            (source_words.faults self.new ≡ source_words.faults self.old) }
        ensures room { IfOk result (λ n. n ≤ length into.old) }
        ensures told { SourceAnswer source_words self.old into.old result into.new self.new }
        ensures listed { Gives self.old into.old result into.new self.new }
    {
        self.counts.count_call()?;
        let left = self.bytes.len() - self.at;
        let n = into.len().min(self.piece as usize).min(left);
        into[..n].copy_from_slice(&self.bytes[self.at..self.at + n]);
        self.at += n;
        Ok(n)
    }
}
