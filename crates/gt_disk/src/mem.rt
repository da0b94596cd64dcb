// A file in memory that keeps a record of its calls, so that a crash may leave all that the trait allows.
ghost use Rattle.std.specs.Prelude.{◌≡◌, ◌≤◌, ◌<◌, ◌+◌, ◌^◌, [], length, take, drop, IfOk, OnOk};
ghost use Rattle.gt_disk.specs.Disk.{IsSameDisk};
ghost use Rattle.gt_disk.specs.Images.{Look, Write, Sync, state_of, IsImage};
ghost use Rattle.gt_disk.specs.MemFile.{IsCall, IsKept, IsMade, seen_of, file_words, file_laws};

use crate::call::Call;
use crate::crash::kept_file;
use crate::noting::{note, note_write};
use crate::{Disk, Keep};
use gt_causes::{CallCounts, Failed};
use std::alloc::{AllocError, Global};
use std::marker::Model;

/// A file in memory that is told and honest. A call of it fails exactly where its number, counted from 1, is listed,
/// where it finds no memory, and where a write would pass 2^63. A call that fails leaves the file as it is.
#[derive(Drop)]
pub struct MemDisk {
    alloc: Global,
    start: Vec<u8>,
    bytes: Vec<u8>,
    noted: Vec<Call>,
    counts: CallCounts,
}

impl Model for MemDisk {
    ghost use Rattle.gt_disk.specs.MemFile.{MemFile, steps_of, IsReplayed};

    ghost Value = { MemFile };

    ghost view = { λ m. record {
      start = m.start.items;
      steps = steps_of m.noted.items;
      counts = m.counts;
    } };

    ghost invariant = { λ m. IsReplayed m.start.items (steps_of m.noted.items) m.bytes.items };
}

impl MemDisk {
    /// A file with these bytes, all of them synced. The calls that `fails` lists, counted from 1, fail.
    pub fn new(alloc: Global, bytes: Vec<u8>, fails: Vec<u64>) -> Result<MemDisk, AllocError>
        ensures { IfOk result (IsMade bytes.items fails.items) }
    {
        Ok(MemDisk {
            alloc,
            start: bytes.to_vec(alloc)?,
            bytes,
            noted: Vec::new(alloc),
            counts: CallCounts::new(fails),
        })
    }

    /// The disk after a crash now that keeps so much: newly made, with the bytes that are left.
    pub fn crash(self, alloc: Global, keep: Keep) -> Result<MemDisk, AllocError>
        ensures ok { IfOk result (λ disk. IsMade disk.start [] disk) }
        ensures kept { IfOk result (λ disk.
            IsKept keep (state_of self.start self.steps) disk.start) }
        ensures images { IfOk result (λ disk. IsImage (state_of self.start self.steps) disk.start) }
    {
        let left = kept_file(alloc, &self.start, &self.noted, keep)?;
        let disk = MemDisk::new(alloc, left, Vec::new(alloc))?;
        Ok(disk)
    }

    /// How many calls were made, those that failed too, and `faults` not counted in. It stops at 2^64 - 1.
    pub fn calls(&self) -> u64
        ensures { result ≡ self.now.counts.calls }
    {
        self.counts.calls()
    }

    /// How many calls found no memory. It stops at 2^64 - 1.
    pub fn starved(&self) -> u64
        ensures { result ≡ self.now.counts.starved }
    {
        self.counts.starved()
    }
}

impl Disk for MemDisk {
    ghost words = { file_words };

    ghost laws = { file_laws };

    fn faults(&self) -> u64 {
        self.counts.faults()
    }

    fn len(&mut self) -> Result<u64, Failed>
        ensures same { IsSameDisk file_words self.old self.new }
        ensures told { IsCall self.old self.new Look ⊥ result }
        ensures ok { IfOk result (λ n. n ≡ length (seen_of self.old)) }
        ensures room { IfOk result (λ n. n < 2 ^ 63) }
    {
        self.counts.count_call()?;
        match note(&mut self.noted, Call::Looked) {
            Ok(()) => Ok(self.bytes.len() as u64),
            Err(_) => Err(self.counts.starve()),
        }
    }

    fn read(&mut self, at: u64, into: &mut [u8]) -> Result<(), Failed>
        requires { at + length into.old ≤ length (seen_of self.old) }
        ensures same { IsSameDisk file_words self.old self.new }
        ensures told { IsCall self.old self.new Look ⊥ result }
        ensures ok { OnOk result (into.new ≡ take (length into.old) (drop at (seen_of self.old))) }
    {
        self.counts.count_call()?;
        match note(&mut self.noted, Call::Looked) {
            Ok(()) => {
                let at = at as usize;
                into.copy_from_slice(&self.bytes[at..at + into.len()]);
                Ok(())
            }
            Err(_) => Err(self.counts.starve()),
        }
    }

    fn write_at(&mut self, at: u64, from: &[u8]) -> Result<(), Failed>
        requires { at ≤ length (seen_of self.old) }
        ensures same { IsSameDisk file_words self.old self.new }
        ensures told { IsCall self.old self.new (Write at from.now)
            (2 ^ 63 ≤ at + length from.now) result }
        ensures room { OnOk result (at + length from.now < 2 ^ 63) }
    {
        self.counts.count_call()?;
        if from.len() as u64 >= (1 << 63) - at {
            return Err(self.counts.refuse());
        }
        match note_write(self.alloc, &mut self.noted, &mut self.bytes, at, from) {
            Ok(()) => Ok(()),
            Err(_) => Err(self.counts.starve()),
        }
    }

    fn sync(&mut self) -> Result<(), Failed>
        ensures same { IsSameDisk file_words self.old self.new }
        ensures told { IsCall self.old self.new Sync ⊥ result }
    {
        self.counts.count_call()?;
        match note(&mut self.noted, Call::Synced) {
            Ok(()) => Ok(()),
            Err(_) => Err(self.counts.starve()),
        }
    }
}
