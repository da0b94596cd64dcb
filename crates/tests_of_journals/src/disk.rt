// What each kind of crash leaves, which calls fail, and the suite over good disks and bad ones.
ghost use Rattle.std.specs.Prelude.{◌≤◌};
ghost use Rattle.gt_causes.specs.Causes.{Rose};
ghost use Rattle.gt_disk.specs.Disk.{untold, untold_laws};

use gt_causes::Failed;
use gt_disk::{Disk, Keep, MemDisk, SuiteFault, disk_suite};
use std::alloc::Global;
use std::test::Fail;

// A write that first sees that it begins within the file.
fn put<D: Disk>(disk: &mut D, at: u64, bytes: &[u8]) -> Result<(), Failed> {
    if at > disk.len()? {
        return Err(Failed);
    }
    disk.write_at(at, bytes)
}

// A read that first sees that it ends within the file.
fn get<D: Disk>(disk: &mut D, at: u64, into: &mut [u8]) -> Result<(), Failed> {
    let length = disk.len()?;
    if at > length || into.len() as u64 > length - at {
        return Err(Failed);
    }
    disk.read(at, into)
}

fn contents<D: Disk>(alloc: Global, disk: &mut D) -> Result<Vec<u8>, Fail> {
    let length = disk.len()?;
    let mut bytes = Vec::new(alloc);
    bytes.resize(length as usize, 0)?;
    disk.read(0, &mut bytes)?;
    Ok(bytes)
}

// "abc" is synced, and "XYZ" from place 2 on isn't.
fn half_synced(alloc: Global) -> Result<MemDisk, Fail> {
    let mut disk = MemDisk::new(alloc, b"--".to_vec(alloc)?, Vec::new(alloc))?;
    put(&mut disk, 0, b"abc")?;
    disk.sync()?;
    put(&mut disk, 2, b"XYZ")?;
    Ok(disk)
}

fn left(alloc: Global, keep: Keep) -> Result<Vec<u8>, Fail> {
    contents(alloc, &mut half_synced(alloc)?.crash(alloc, keep)?)
}

#[test]
fn each_kind_of_crash_keeps_its_bytes(rt: HostRuntime) -> Result<(), Fail> {
    let alloc = rt.alloc();
    assert_eq!(rt; left(alloc, Keep::Synced)?.as_slice(), b"abc".as_slice());
    assert_eq!(rt; left(alloc, Keep::Written)?.as_slice(), b"abXYZ".as_slice());
    assert_eq!(rt;
        left(alloc, Keep::Torn { at: 0 })?.as_slice(),
        b"ab\x01\x01\x01".as_slice()
    );
    assert_eq!(rt;
        left(alloc, Keep::Torn { at: 3 })?.as_slice(),
        b"abX\x01\x01".as_slice()
    );
    assert_eq!(rt;
        left(alloc, Keep::Torn { at: 9 })?.as_slice(),
        b"abXYZ".as_slice()
    );
    Ok(())
}

#[test]
fn listed_calls_fail_and_no_others(rt: HostRuntime) -> Result<(), Fail> {
    let alloc = rt.alloc();
    let mut disk = MemDisk::new(alloc, b"ab".to_vec(alloc)?, vec![in alloc; 2, 4]?)?;
    assert!(rt; disk.len().is_ok());
    assert!(rt; disk.write_at(0, b"xy").is_err());
    assert!(rt; disk.write_at(0, b"x").is_ok());
    assert!(rt; disk.sync().is_err());
    assert_eq!(rt; contents(alloc, &mut disk)?.as_slice(), b"xb".as_slice());
    assert_eq!(rt; disk.calls(), 6);
    assert_eq!(rt; disk.faults(), 2);
    assert_eq!(rt; disk.starved(), 0);
    let mut synced = disk.crash(alloc, Keep::Synced)?;
    assert_eq!(rt; contents(alloc, &mut synced)?.as_slice(), b"ab".as_slice());
    Ok(())
}

#[test]
fn suite_passes_a_disk_in_memory(rt: HostRuntime) -> Result<(), Fail> {
    let alloc = rt.alloc();
    let mut disk = MemDisk::new(alloc, b"what was there".to_vec(alloc)?, Vec::new(alloc))?;
    assert_eq!(rt; disk_suite(alloc, &mut disk), Ok(()));
    assert_eq!(rt; disk_suite(alloc, &mut &mut disk), Ok(()));
    let fails = vec![in alloc; 3]?;
    let mut failing = MemDisk::new(alloc, Vec::new(alloc), fails)?;
    assert_eq!(rt; disk_suite(alloc, &mut failing), Err(SuiteFault::DiskFault));
    Ok(())
}

#[derive(Clone, Copy, PartialEq, Eq, Drop)]
enum Wrong {
    Length,
    Place,
    LastByte,
}

// A disk that has a good one, tells nothing of it, and gets one thing wrong.
#[derive(Drop)]
struct Flawed {
    disk: MemDisk,
    wrong: Wrong,
    faults: u64,
}

impl Flawed {
    fn fail(&mut self) -> Failed
        ensures cause { Rose self.old.faults self.new.faults }
        ensures same { self.old.faults ≤ self.new.faults }
    {
        self.faults = self.faults.saturating_add(1);
        Failed
    }
}

impl Disk for Flawed {
    ghost words = { untold (λ d. d.faults) (λ _. 0) };

    ghost laws = { untold_laws (λ d. d.faults) (λ _. 0) };

    fn faults(&self) -> u64 {
        self.faults
    }

    fn len(&mut self) -> Result<u64, Failed> {
        match self.disk.len() {
            Ok(length) if self.wrong == Wrong::Length => Ok(length / 2),
            Ok(length) => Ok(length),
            Err(_) => Err(self.fail()),
        }
    }

    fn read(&mut self, at: u64, into: &mut [u8]) -> Result<(), Failed> {
        let at = if self.wrong == Wrong::Place { 0 } else { at };
        match get(&mut self.disk, at, into) {
            Ok(()) => Ok(()),
            Err(_) => Err(self.fail()),
        }
    }

    fn write_at(&mut self, at: u64, from: &[u8]) -> Result<(), Failed> {
        let short = usize::from(self.wrong == Wrong::LastByte);
        let kept = from.len().saturating_sub(short);
        if at >= 1 << 62 || from.len() as u64 >= 1 << 62 {
            return Err(self.fail());
        }
        match put(&mut self.disk, at, &from[..kept]) {
            Ok(()) => Ok(()),
            Err(_) => Err(self.fail()),
        }
    }

    fn sync(&mut self) -> Result<(), Failed> {
        match self.disk.sync() {
            Ok(()) => Ok(()),
            Err(_) => Err(self.fail()),
        }
    }
}

fn found(alloc: Global, wrong: Wrong) -> Result<Result<(), SuiteFault>, Fail> {
    let disk = MemDisk::new(alloc, Vec::new(alloc), Vec::new(alloc))?;
    let mut flawed = Flawed {
        disk,
        wrong,
        faults: 0,
    };
    Ok(disk_suite(alloc, &mut flawed))
}

#[test]
fn suite_finds_what_is_wrong(rt: HostRuntime) -> Result<(), Fail> {
    let alloc = rt.alloc();
    assert_eq!(rt; found(alloc, Wrong::Length)?, Err(SuiteFault::WrongLength));
    assert_eq!(rt; found(alloc, Wrong::Place)?, Err(SuiteFault::WrongBytes));
    assert_eq!(rt;
        found(alloc, Wrong::LastByte)?,
        Err(SuiteFault::WrongLength)
    );
    Ok(())
}
