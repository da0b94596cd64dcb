// The steps of an append and of a settling, over a disk and the place of a gate.
ghost use Rattle.std.specs.Prelude.{◌≡◌, ◌+◌, ◌^◌, ◌<◌, ◌==◌, ◌++◌, [], ◌∷◌, List, ℕ, length, slice_index, if◌then◌else◌, IsTrue, IfOk, IsErr, OnOk};
ghost use Rattle.gt_causes.specs.Causes.{HasFailed};
ghost use Rattle.gt_causes.specs.Outcomes.{NoMore};
ghost use Rattle.gt_disk.specs.Disk.{IsSameDisk};
ghost use Rattle.gt_journal.specs.JournalText.{frame, text};
ghost use Rattle.gt_journal.specs.Gates.{Closed, Doubtful, InDoubt, IsGateAt, Keeps};

use gt_causes::Failed;
use gt_disk::Disk;

/// Writes a frame and a closed gate behind the closed gate at this place, and makes a sync.
pub fn stage<D: Disk>(disk: &mut D, place: u64, bytes: &[u8]) -> Result<(), Failed>
    requires small { place + 1 < 2 ^ 63 }
    requires place { IsTrue (D.words.honest disk.old)
        → (front : List ℕ) × IsGateAt D.words disk.old place front (Closed front) }
    ensures ok { OnOk result ((front body : List ℕ)
        → IsGateAt D.words disk.old place front (Closed front) → bytes.now ≡ frame body ++ 0 ∷ []
        → NoMore (InDoubt front body) (D.words.may_leave disk.new)) }
    ensures room { OnOk result (place + 1 + length bytes.now < 2 ^ 63) }
    ensures any_moment { (front : List ℕ) → IsGateAt D.words disk.old place front (Closed front)
        → Keeps D.words disk.old disk.new (Closed front) }
    ensures same { IsSameDisk D.words disk.old disk.new }
    ensures cause { IsErr result → HasFailed D.words.faults disk.old disk.new }
{
    disk.write_at(place + 1, bytes)?;
    disk.sync()?;
    Ok(())
}

/// Writes the gate at this place, and makes a sync.
pub fn set_gate<D: Disk>(disk: &mut D, place: u64, gate: u8) -> Result<(), Failed>
    requires small { place + 1 < 2 ^ 63 }
    requires place { IsTrue (D.words.honest disk.old)
        → (front body : List ℕ) × IsGateAt D.words disk.old place front (InDoubt front body) }
    ensures ok { OnOk result ((front body : List ℕ)
        → IsGateAt D.words disk.old place front (InDoubt front body)
        → NoMore (Doubtful front body gate) (D.words.may_leave disk.new)) }
    ensures any_moment { (front body : List ℕ)
        → IsGateAt D.words disk.old place front (InDoubt front body)
        → Keeps D.words disk.old disk.new (InDoubt front body) }
    ensures same { IsSameDisk D.words disk.old disk.new }
    ensures cause { IsErr result → HasFailed D.words.faults disk.old disk.new }
{
    disk.write_at(place, &[gate])?;
    disk.sync()?;
    Ok(())
}

/// Reads the gate at this place, and settles whether it is open: a sync keeps it so, or a closed gate is written.
pub fn settle_at<D: Disk>(disk: &mut D, place: u64) -> Result<bool, Failed>
    requires small { place + 1 < 2 ^ 63 }
    requires place { IsTrue (D.words.honest disk.old)
        → (front body : List ℕ) × IsGateAt D.words disk.old place front (InDoubt front body) }
    ensures value { IfOk result (λ kept. IsTrue (D.words.honest disk.old)
        → kept ≡ (slice_index (D.words.seen disk.old) place == 1)) }
    ensures ok { IfOk result (λ kept. (front body : List ℕ)
        → IsGateAt D.words disk.old place front (InDoubt front body)
        → NoMore (Closed (if kept then front ++ text body else front))
        (D.words.may_leave disk.new)) }
    ensures any_moment { (front body : List ℕ)
        → IsGateAt D.words disk.old place front (InDoubt front body)
        → Keeps D.words disk.old disk.new (InDoubt front body) }
    ensures same { IsSameDisk D.words disk.old disk.new }
    ensures cause { IsErr result → HasFailed D.words.faults disk.old disk.new }
{
    let mut gate = [0];
    disk.read(place, &mut gate)?;
    let kept = gate[0] == 1;
    if kept {
        disk.sync()?;
    } else {
        set_gate(disk, place, 0)?;
    }
    Ok(kept)
}
