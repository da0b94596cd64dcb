// A file is read in pieces, into one buffer.
ghost use Rattle.std.specs.Prelude.{◌≡◌, ◌≤◌, List, ℕ, length, take, IsTrue, IfOk, IfErr, IsErrOf};
ghost use Rattle.gt_causes.specs.Causes.{HasFailed};
ghost use Rattle.gt_disk.specs.Disk.{IsSameDisk};
ghost use Rattle.gt_journal.specs.Reading.{IsPartial, HasRead, HasLooked};
ghost use Rattle.gt_journal.specs.Opening.{IsNoDamage};

use crate::OpenFault;
use crate::reading::Reading;
use gt_disk::Disk;
use std::alloc::Global;

// The most bytes of one read.
const PIECE: u64 = 65_536;

/// Reads so many bytes of the file from its start on, and makes no read of no bytes.
pub fn read_pieces<D: Disk>(alloc: Global, disk: &mut D, size: u64) -> Result<Reading, OpenFault>
    requires { IsTrue (D.words.honest disk.old) → size ≤ length (D.words.seen disk.old) }
    ensures ok { IfOk result (λ reading.
        IsPartial reading × HasRead D.words disk.old size reading) }
    ensures told { IsTrue (D.words.honest disk.old) → HasLooked D.words disk.old disk.new }
    ensures fault { IfErr result IsNoDamage }
    ensures same { IsSameDisk D.words disk.old disk.new }
    ensures cause { IsErrOf result OpenFault.JournalFault
        → HasFailed D.words.faults disk.old disk.new }
{
    let mut piece = Vec::new(alloc);
    piece.resize(size.min(PIECE) as usize, 0)?;
    let mut reading = Reading::new(alloc);
    let mut at = 0;
    while at < size {
        let more = (size - at).min(PIECE);
        let bytes = &mut piece[..more as usize];
        disk.read(at, bytes)?;
        reading.read_on(alloc, bytes)?;
        at += more;
    }
    Ok(reading)
}
