ghost use Rattle.std.specs.Prelude.{◌≡◌, ◌+◌, ◌^◌, ◌<◌, ◌≤◌, ◌++◌, [], ◌∷◌, List, ℕ, None, Some, length, is_some, IsTrue, IfOk, IfErr, OnOk, IsErr};
ghost use Rattle.gt_causes.specs.Causes.{HasFailed};
ghost use Rattle.gt_disk.specs.Disk.{IsSameDisk, LeavesOnly};
ghost use Rattle.gt_journal.specs.JournalText.{IsDamagedAfter, IsTextWithDoubt};
ghost use Rattle.gt_journal.specs.Journal.{IsSameJournal, Rests};
ghost use Rattle.gt_journal.specs.Calls.{IsAdded, IsNotAdded, IsUnsettled, Settles};
ghost use Rattle.gt_journal.specs.Reading.{lists};
ghost use Rattle.gt_journal.specs.Opening.{IsFresh, IsNotOpened, IsOpened, disk_in};
ghost use Rattle.gt_journal.specs.declared.open_fault.OpenFault.TheVariants.{JournalFault as DiskFault};

use crate::frame::fill;
use crate::gates::{set_gate, settle_at, stage};
use crate::opening::open_disk;
use crate::{JournalFault, OpenFault, Settled};
use gt_disk::Disk;
use std::alloc::{AllocError, Global};
use std::marker::Model;

// The bytes of a frame beside its body, and the closed gate behind it.
const AROUND: usize = 9;

fn first_buffer(alloc: Global) -> Result<Vec<u8>, AllocError>
    ensures { IfOk result (λ buffer. length buffer.items ≡ 9) }
{
    let mut buffer = Vec::new(alloc);
    buffer.resize(AROUND, 0)?;
    Ok(buffer)
}

/// A list of bodies on a disk, and at most one more in doubt.
#[derive(Drop)]
pub struct Journal<D: Disk> {
    disk: D,
    place: u64,
    pending: Option<u64>,
    buffer: Vec<u8>,
}

impl<D: Disk> Model for Journal<D> {
    ghost use Rattle.gt_journal.specs.Journal as spec;
    ghost use Rattle.gt_journal.specs.Journal.{IsConsistent, journal_of};

    ghost Value = { spec.Journal D };

    ghost view = { λ j. journal_of D.words j.disk j.place j.pending j.buffer.items };

    ghost invariant = { λ j. IsConsistent D.words j.disk j.place j.pending j.buffer.items };
}

impl<D: Disk> Journal<D> {
    /// Opens a journal that a crash may have left, and gives its bodies. An empty file is a journal with none. Opening
    /// makes a sync, asks the length, reads in pieces of 65,536 bytes, and where fewer than 9 bytes follow the records
    /// it writes one byte 0 there and makes a sync. An `Err` hands the disk back.
    pub fn open(alloc: Global, disk: D) -> Result<(Journal<D>, Vec<Vec<u8>>), (OpenFault, D)>
        ensures clear { IfOk result (λ opened. IsFresh (lists opened.1.items) opened.0) }
        ensures images { IfOk result (λ opened. Rests D.words opened.0) }
        ensures ok { IfOk result (λ opened. IsTrue (D.words.honest disk)
            → IsOpened D.words disk (lists opened.1.items) opened.0) }
        ensures err { IfErr result (λ refused. IsTrue (D.words.honest disk)
            → IsNotOpened D.words disk refused.0 refused.1) }
        ensures same { IsSameDisk D.words disk (disk_in result) }
        ensures cause { IfErr result (λ refused. refused.0 ≡ DiskFault
            → HasFailed D.words.faults disk refused.1) }
    {
        let mut disk = disk;
        let buffer = match first_buffer(alloc) {
            Ok(buffer) => buffer,
            Err(_) => return Err((OpenFault::OutOfMemory, disk)),
        };
        match open_disk(alloc, &mut disk) {
            Ok((bodies, place)) => {
                let journal = Journal {
                    disk,
                    place,
                    pending: None,
                    buffer,
                };
                Ok((journal, bodies))
            }
            Err(fault) => Err((fault, disk)),
        }
    }

    /// Makes room for a body of so many bytes, so that an append of it takes no memory. It takes no room away.
    pub fn reserve(&mut self, bytes: u64) -> Result<(), AllocError>
        ensures ok { OnOk result (bytes ≤ self.new.room) }
        ensures err { IsErr result → self.new ≡ self.old }
        ensures room { self.old.room ≤ self.new.room }
        ensures same { self.new ≡ record self.old { room = self.new.room } }
    {
        let want = (bytes as usize).checked_add(AROUND).ok_or(AllocError)?;
        if self.buffer.len() < want {
            self.buffer.resize(want, 0)?;
        }
        Ok(())
    }

    /// Whether the last append left its body in doubt.
    pub fn in_doubt(&self) -> bool
        ensures value { result ≡ is_some self.now.doubt }
        ensures images { Rests D.words self.now }
    {
        self.pending.is_some()
    }

    /// The disk's count of faults.
    pub fn faults(&self) -> u64
        ensures value { result ≡ D.words.faults self.now.disk }
    {
        self.disk.faults()
    }

    /// The disk, as it is.
    pub fn close(self) -> D
        ensures value { result ≡ self.disk }
    {
        self.disk
    }

    /// Adds a body by four calls of the disk: the length, the body and a byte 0 behind the gate; a sync; the gate; a
    /// sync. After `Ok` every later crash keeps it. A fault of the first two leaves nothing in doubt, one of the last
    /// two leaves the body in doubt. It takes no memory.
    pub fn append(&mut self, body: &[u8]) -> Result<(), JournalFault>
        requires clear { self.old.doubt ≡ None }
        requires room { length body.now ≤ self.old.room }

        ensures ok { OnOk result (IsAdded D.words self.old body.now self.new) }
        ensures err { IsErr result → IsNotAdded D.words self.old body.now self.new }

        // A crash at any moment of the call leaves the bodies from before it, with the new one or without.
        ensures any_moment { IsTrue (D.words.honest self.old.disk)
            → LeavesOnly D.words self.old.disk self.new.disk
            (IsTextWithDoubt self.old.bodies (Some body.now)) }
        ensures images { Rests D.words self.new }

        ensures same { IsSameJournal D.words self.old self.new }
        ensures cause { IsErr result → HasFailed D.words.faults self.old.disk self.new.disk }
    {
        let size = body.len();
        fill(&mut self.buffer, body);
        stage(&mut self.disk, self.place, &self.buffer[..size + AROUND])?;
        self.pending = Some(size as u64);
        set_gate(&mut self.disk, self.place, 1)?;
        self.pending = None;
        self.place += (size + AROUND) as u64;
        Ok(())
    }

    /// Settles the body in doubt by the byte at its gate: 1 keeps it by a sync, any other drops it by a byte 0 and a
    /// sync. After `Ok` nothing is in doubt, and every later crash agrees. After an `Err` it still is. Where nothing is
    /// in doubt no call is made. It takes no memory.
    pub fn settle(&mut self) -> Result<Settled, JournalFault>
        ensures ok { IfOk result (λ settled. Settles D.words self.old settled self.new) }
        ensures err { IsErr result → IsUnsettled D.words self.old self.new }

        // A crash at any moment of the call leaves the bodies from before it, with the one in doubt or without.
        ensures any_moment { IsTrue (D.words.honest self.old.disk)
            → LeavesOnly D.words self.old.disk self.new.disk
            (IsTextWithDoubt self.old.bodies self.old.doubt) }
        ensures images { Rests D.words self.new }

        ensures same { IsSameJournal D.words self.old self.new }
        ensures cause { IsErr result → HasFailed D.words.faults self.old.disk self.new.disk }
    {
        let Some(size) = self.pending else {
            return Ok(Settled::Nothing);
        };
        if settle_at(&mut self.disk, self.place)? {
            self.pending = None;
            self.place += size + AROUND as u64;
            Ok(Settled::Kept)
        } else {
            self.pending = None;
            Ok(Settled::Dropped)
        }
    }
}
