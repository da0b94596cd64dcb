// One suite for every disk: what is written is read again, within the file, over its end and past it.
ghost use Rattle.std.specs.Prelude.{◌≡◌, ◌+◌, ◌≤◌, ◌↔◌, length, IsTrue, OnOk, IfOk, IfErr, IsErrOf};
ghost use Rattle.gt_causes.specs.Causes.{HasFailed};
ghost use Rattle.gt_disk.specs.Disk.{IsSameDisk};
ghost use Rattle.gt_disk.specs.Suite.{IsNoVerdict};

use crate::overlay::overlay;
use crate::{Disk, SuiteFault};
use std::alloc::Global;

// The bytes of the file.
fn read_all<D: Disk>(alloc: Global, disk: &mut D) -> Result<Vec<u8>, SuiteFault>
    ensures same { IsSameDisk D.words disk.old disk.new }
    ensures cause { IsErrOf result SuiteFault.DiskFault
        → HasFailed D.words.faults disk.old disk.new }
    ensures fault { IfErr result IsNoVerdict }
    ensures ok { IfOk result (λ bytes. IsTrue (D.words.honest disk.old)
        → bytes.items ≡ D.words.seen disk.new) }
{
    let length = disk.len()?;
    let mut bytes = Vec::new(alloc);
    bytes.resize(length as usize, 0)?;
    disk.read(0, &mut bytes)?;
    Ok(bytes)
}

fn is_same(found: &[u8], expected: &[u8]) -> bool
    ensures { IsTrue result ↔ (found.now ≡ expected.now) }
{
    found == expected
}

// The file has these bytes, as a read from this place on tells.
fn find<D: Disk>(alloc: Global, disk: &mut D, expected: &[u8], at: usize) -> Result<(), SuiteFault>
    requires { at ≤ length expected.now }
    ensures same { IsSameDisk D.words disk.old disk.new }
    ensures cause { IsErrOf result SuiteFault.DiskFault
        → HasFailed D.words.faults disk.old disk.new }
    ensures fault { IsTrue (D.words.honest disk.old) → expected.now ≡ D.words.seen disk.old
        → IfErr result IsNoVerdict }
    ensures told { IsTrue (D.words.honest disk.old)
        → D.words.seen disk.new ≡ D.words.seen disk.old }
{
    if disk.len()? != expected.len() as u64 {
        return Err(SuiteFault::WrongLength);
    }
    let mut bytes = Vec::new(alloc);
    bytes.resize(expected.len() - at, 0)?;
    disk.read(at as u64, &mut bytes)?;
    if !is_same(&bytes, &expected[at..]) {
        return Err(SuiteFault::WrongBytes);
    }
    Ok(())
}

// Writes, and finds what was written before and after a sync, by a read of the whole file and by one from its place on.
fn write_and_find<D: Disk>(
    alloc: Global,
    disk: &mut D,
    expected: &mut Vec<u8>,
    at: usize,
    bytes: &[u8],
) -> Result<(), SuiteFault>
    requires within { at ≤ length expected.old.items }
    requires told { IsTrue (D.words.honest disk.old) → expected.old.items ≡ D.words.seen disk.old }
    ensures same { IsSameDisk D.words disk.old disk.new }
    ensures cause { IsErrOf result SuiteFault.DiskFault
        → HasFailed D.words.faults disk.old disk.new }
    ensures fault { IsTrue (D.words.honest disk.old) → IfErr result IsNoVerdict }
    ensures ok { OnOk result (IsTrue (D.words.honest disk.old)
        → expected.new.items ≡ D.words.seen disk.new) }
    ensures room { OnOk result (at + length bytes.now ≤ length expected.new.items) }
{
    disk.write_at(at as u64, bytes)?;
    overlay(expected, at, bytes)?;
    find(alloc, disk, expected, 0)?;
    disk.sync()?;
    find(alloc, disk, expected, at)
}

/// Tries a disk: a write within the file, at its end, over its end and of one byte are each found again, before a sync
/// and after it, by reads from the start and from the place of the write. It changes the file. A disk that is told and
/// honest is never found wrong; where a call of it fails or memory is wanting, nothing more is tried.
pub fn disk_suite<D: Disk>(alloc: Global, disk: &mut D) -> Result<(), SuiteFault>
    ensures same { IsSameDisk D.words disk.old disk.new }
    ensures cause { IsErrOf result SuiteFault.DiskFault
        → HasFailed D.words.faults disk.old disk.new }
    ensures fault { IsTrue (D.words.honest disk.old) → IfErr result IsNoVerdict }
{
    let mut expected = read_all(alloc, disk)?;
    write_and_find(alloc, disk, &mut expected, 0, b"the first bytes")?;
    let end = expected.len();
    write_and_find(alloc, disk, &mut expected, end, b"more at the end")?;
    write_and_find(
        alloc,
        disk,
        &mut expected,
        end,
        b"the same, and over the end",
    )?;
    write_and_find(alloc, disk, &mut expected, 4, b"F")
}
