ghost use Rattle.gt_causes.specs.Causes.{HasFailed};
ghost use Rattle.gt_streams.specs.Memory.{IsFresh, Takes, sink_words};
ghost use Rattle.gt_streams.specs.Streams.{IsSameSink, SinkAnswer};
ghost use Rattle.std.specs.Prelude.{IfOk, IsErr, [], length, ◌<◌, ◌≡◌, ◌≤◌};

use crate::Sink;
use gt_causes::{CallCounts, Failed};
use std::alloc::{AllocError, Global};
use std::marker::Model;

/// A sink in memory. It tells what it took.
#[derive(Drop)]
pub struct MemSink {
    bytes: Vec<u8>,
    piece: u32,
    counts: CallCounts,
}

impl Model for MemSink {
    ghost use Rattle.gt_streams.specs.Memory.{SinkState};
    ghost use Rattle.std.specs.Prelude.{◌≤◌};

    ghost Value = { SinkState };

    ghost view = { λ s. record { taken = s.bytes.items; piece = s.piece; counts = s.counts } };

    ghost invariant = { λ s. 1 ≤ s.piece };
}

impl MemSink {
    /// An empty sink, which takes at most `piece` bytes a write. Its writes are counted from 1, and those that `fails` lists
    /// fail. A write that finds no memory fails too, and `starved` tells it.
    pub fn new(alloc: Global, piece: u32, fails: Vec<u64>) -> MemSink
        requires { 1 ≤ piece }
        ensures value { (result.taken ≡ []) × (result.piece ≡ piece) }
        ensures listed { IsFresh fails.items result.counts }
    {
        MemSink {
            bytes: Vec::new(alloc),
            piece,
            counts: CallCounts::new(fails),
        }
    }

    /// The bytes taken so far.
    pub fn bytes(&self) -> &[u8]
        ensures { result.now ≡ self.now.taken }
    {
        &self.bytes
    }

    // The same sink once more.
    pub(crate) fn copy(&self, alloc: Global) -> Result<MemSink, AllocError>
        ensures { IfOk result (λ sink. sink ≡ self.now) }
    {
        Ok(MemSink {
            bytes: self.bytes.to_vec(alloc)?,
            piece: self.piece,
            counts: self.counts.copy(alloc)?,
        })
    }

    /// How often a write found no memory. The number stops at 2^64 - 1.
    pub fn starved(&self) -> u64
        ensures { result ≡ self.now.counts.starved }
    {
        self.counts.starved()
    }
}

impl Sink for MemSink {
    ghost words = { sink_words };

    fn faults(&self) -> u64 {
        self.counts.faults()
    }

    fn write(&mut self, from: &[u8]) -> Result<usize, Failed>
        ensures same { IsSameSink sink_words self.old self.new }
        ensures cause { IsErr result → HasFailed sink_words.faults self.old self.new }
        ensures room { IfOk result (λ n. n ≤ length from.now) }
        ensures ok { IfOk result (λ n. 0 < length from.now → 0 < n) }
        ensures told { SinkAnswer sink_words self.old from.now result self.new }
        ensures listed { Takes self.old from.now result self.new }
    {
        self.counts.count_call()?;
        let n = from.len().min(self.piece as usize);
        if self.bytes.extend_from_slice(&from[..n]).is_err() {
            return Err(self.counts.starve());
        }
        Ok(n)
    }
}
