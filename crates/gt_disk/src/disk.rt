ghost use Rattle.std.specs.Prelude.{◌≡◌, ◌+◌, ◌^◌, ◌<◌, ◌≤◌, length, IsTrue, IfOk, IsErr, OnOk};
ghost use Rattle.gt_causes.specs.Causes.{HasFailed};
ghost use Rattle.gt_disk.specs.Disk.{DiskWords, DiskLaws, IsSameDisk, LenAnswer, ReadAnswer, WriteAnswer, SyncAnswer};

use gt_causes::Failed;

/// One file on a disk. Places and lengths are in bytes, and a length stays below 2^63.
///
/// Of every disk it holds that `Failed` comes only where the count of faults rose in that call. What the file holds
/// and what a crash may leave is told by disks in memory, and isn't by real ones: such clauses have the premise that
/// the disk is told and honest.
pub trait Disk {
    /// All that is said of it.
    ghost words: { DiskWords Self };

    /// The count of faults.
    fn faults(&self) -> u64
        ensures { result ≡ words.faults self.now };

    /// The length of the file. It changes nothing, also where it fails.
    fn len(&mut self) -> Result<u64, Failed>
        ensures same { IsSameDisk words self.old self.new }
        ensures cause { IsErr result → HasFailed words.faults self.old self.new }
        ensures room { IfOk result (λ n. n < 2 ^ 63) }
        ensures told { IsTrue (words.honest self.old) → LenAnswer words self.old result self.new };

    /// Fills `into` with the bytes from `at` on. It changes nothing of the file, also where it fails; `into` may then
    /// hold anything.
    fn read(&mut self, at: u64, into: &mut [u8]) -> Result<(), Failed>
        requires { IsTrue (words.honest self.old)
            → at + length into.old ≤ length (words.seen self.old) }
        ensures same { IsSameDisk words self.old self.new }
        ensures cause { IsErr result → HasFailed words.faults self.old self.new }
        ensures told { IsTrue (words.honest self.old)
            → ReadAnswer words self.old at into.old result into.new self.new };

    /// Writes over what is there, and past the end. A write that would end at 2^63 or later is a counted fault.
    ///
    /// Until a sync, a crash may leave any bytes in the range and a part of what goes past the end. After a failed
    /// write a read may find such bytes too, the same ones until the next write there.
    fn write_at(&mut self, at: u64, from: &[u8]) -> Result<(), Failed>
        requires { IsTrue (words.honest self.old) → at ≤ length (words.seen self.old) }
        ensures same { IsSameDisk words self.old self.new }
        ensures cause { IsErr result → HasFailed words.faults self.old self.new }
        ensures room { OnOk result (at + length from.now < 2 ^ 63) }
        ensures told { IsTrue (words.honest self.old)
            → WriteAnswer words self.old at from.now result self.new };

    /// After `Ok` a crash leaves what a read gives. A sync that failed promises nothing.
    fn sync(&mut self) -> Result<(), Failed>
        ensures same { IsSameDisk words self.old self.new }
        ensures cause { IsErr result → HasFailed words.faults self.old self.new }
        ensures told { IsTrue (words.honest self.old) → SyncAnswer words self.old result self.new };

    /// What joins these words where the disk is honest.
    ghost laws: { DiskLaws words };
}
