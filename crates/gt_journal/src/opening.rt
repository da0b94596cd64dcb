// The disk's part of an opening.
ghost use Rattle.std.specs.Prelude.{◌≡◌, ◌⊎◌, ◌+◌, ◌*◌, ◌^◌, ◌<◌, ◌≤◌, [], ◌∷◌, List, ℕ, length, drop, Vec, IsTrue, IfOk, IfErr, IsErr, IsErrOf, OnOk};
ghost use Rattle.gt_causes.specs.Causes.{HasFailed};
ghost use Rattle.gt_causes.specs.Outcomes.{NoMore, Only};
ghost use Rattle.gt_disk.specs.Disk.{Holds, IsSameDisk, LeavesOnly};
ghost use Rattle.gt_journal.specs.JournalText.{texts, IsJournalText};
ghost use Rattle.gt_journal.specs.Gates.{Closed};
ghost use Rattle.gt_journal.specs.Reading.{lists};
ghost use Rattle.gt_journal.specs.Opening.{IfSynced, IsNoDamage, IsNotOpened};
ghost use Rattle.gt_journal.specs.Finding.{IsEndClosed, IsFileRead, IsFound, IsShortEnd};

use crate::OpenFault;
use crate::pieces::read_pieces;
use crate::reading::Reading;
use gt_causes::Failed;
use gt_disk::Disk;
use std::alloc::Global;

/// Makes a sync and reads the whole file, and tells its length.
fn read_file<D: Disk>(alloc: Global, disk: &mut D) -> Result<(Reading, u64), OpenFault>
    ensures ok { IfOk result (λ read. IsFileRead D.words disk.old read.0 read.1 disk.new) }
    ensures err { IsErr result → IsTrue (D.words.honest disk.old)
        → IfSynced D.words disk.old disk.new (λ c. c ≡ D.words.seen disk.old) }
    ensures fault { IfErr result IsNoDamage }
    ensures same { IsSameDisk D.words disk.old disk.new }
    ensures cause { IsErrOf result OpenFault.JournalFault
        → HasFailed D.words.faults disk.old disk.new }
{
    disk.sync()?;
    let size = disk.len()?;
    let reading = read_pieces(alloc, disk, size)?;
    Ok((reading, size))
}

/// Puts a closed gate behind the records, where what stands there is too short for one, and makes a sync.
fn close_end<D: Disk>(disk: &mut D, place: u64) -> Result<(), Failed>
    requires { IsTrue (D.words.honest disk.old) → place ≤ length (D.words.seen disk.old) }
    ensures ok { OnOk result ((bodies : List (List ℕ))
        → IsShortEnd D.words disk.old place bodies
        → IsEndClosed D.words disk.old place bodies disk.new) }
    ensures room { OnOk result (place + 1 < 2 ^ 63) }
    ensures any_moment { (bodies : List (List ℕ)) → IsShortEnd D.words disk.old place bodies
        → LeavesOnly D.words disk.old disk.new (IsJournalText bodies) }
    ensures same { IsSameDisk D.words disk.old disk.new }
    ensures cause { IsErr result → HasFailed D.words.faults disk.old disk.new }
{
    disk.write_at(place, &[0])?;
    disk.sync()?;
    Ok(())
}

/// Reads the bodies, closes the end of the file, and says where the next record's gate stands.
pub fn open_disk<D: Disk>(alloc: Global, disk: &mut D) -> Result<(Vec<Vec<u8>>, u64), OpenFault>
    ensures ok { IfOk result (λ found. IsTrue (D.words.honest disk.old)
        → IsFound D.words disk.old (lists found.0.items) found.1 disk.new) }
    ensures room { IfOk result (λ found. (9 * length (lists found.0.items) ≤ found.1)
        × (found.1 + 1 < 2 ^ 63)) }
    ensures err { IfErr result (λ fault. IsTrue (D.words.honest disk.old)
        → IsNotOpened D.words disk.old fault disk.new) }
    ensures same { IsSameDisk D.words disk.old disk.new }
    ensures cause { IsErrOf result OpenFault.JournalFault
        → HasFailed D.words.faults disk.old disk.new }
{
    let (reading, size) = read_file(alloc, disk)?;
    let damaged = reading.is_cut_off();
    let rest = reading.rest_len();
    let bodies = reading.bodies;
    if damaged {
        let at_record = bodies.len() as u64;
        return Err(OpenFault::Damaged { at_record, bodies });
    }
    let place = size - rest as u64;
    if rest < 9 {
        close_end(disk, place)?;
    }
    Ok((bodies, place))
}
