ghost use Rattle.std.specs.Prelude.{IfOk, IsTrue, OnOk, length, ◌+◌, ◌<◌, ◌≡◌, ◌≤◌, ◌^◌, ◌↔◌};
ghost use Rattle.gt_disk.specs.Disk.{untold, untold_laws};
ghost use Rattle.gt_faults.specs.Faults.{CountsFaults};

use gt_causes::Failed;
use gt_disk::Disk;
use gt_faults::Faults;
use std::alloc::{AllocError, Global};
use std::fs::{self, File, Files, OpenOptions, TryLockError};
use std::io::{self, ErrorKind};
use std::marker::Model;
use std::os::fd::AsRawFd;
use std::os::unix::fs::FileExt;
use thiserror::Error;

// Where a file ends at the latest, in bytes.
const END: u64 = 1 << 63;

/// Why a file can't be opened as a disk.
#[derive(Clone, Copy, Debug, Drop, Error)]
pub enum FileFault {
    /// A folder, a device, a pipe or a socket stands there.
    #[error("it is no regular file")]
    NotAFile,
    /// Another open of the file holds its lock.
    #[error("another desk has it open")]
    InUse,
    /// The system refused, or a sync failed.
    #[error("{0}")]
    Failed(io::Error),
    #[error("out of memory")]
    OutOfMemory,
}

impl From<io::Error> for FileFault {
    fn from(error: io::Error) -> FileFault {
        if error.kind() == ErrorKind::OutOfMemory {
            FileFault::OutOfMemory
        } else {
            FileFault::Failed(error)
        }
    }
}

impl From<AllocError> for FileFault {
    fn from(_: AllocError) -> FileFault {
        FileFault::OutOfMemory
    }
}

/// What a disk asks of an open file.
pub trait OpenFile {
    /// Its length in bytes.
    fn length(&mut self) -> io::Result<u64>;

    /// Reads the bytes from this place on, as many as there is room for.
    fn read_at(&mut self, into: &mut [u8], at: u64) -> io::Result<()>;

    /// Writes all these bytes from this place on.
    fn write_at(&mut self, from: &[u8], at: u64) -> io::Result<()>;

    /// Brings what was written to the disk, before it answers.
    fn sync(&mut self) -> io::Result<()>;

    /// Drops what memory holds of the file.
    fn forget(&mut self);
}

impl OpenFile for File {
    fn length(&mut self) -> io::Result<u64> {
        Ok(self.metadata()?.len())
    }

    fn read_at(&mut self, into: &mut [u8], at: u64) -> io::Result<()> {
        self.read_exact_at(into, at)
    }

    fn write_at(&mut self, from: &[u8], at: u64) -> io::Result<()> {
        self.write_all_at(from, at)
    }

    fn sync(&mut self) -> io::Result<()> {
        self.sync_all()
    }

    fn forget(&mut self) {
        let _ = libc::posix_fadvise(self.as_raw_fd(), 0, 0, libc::POSIX_FADV_DONTNEED);
    }
}

/// An open file as a disk. One of the system is regular, and its advisory lock is held for as long as the disk lives.
#[derive(Drop)]
pub struct FileDisk<F: OpenFile + Drop> {
    file: F,
    faults: Faults,
}

impl<F: OpenFile + Drop> Model for FileDisk<F> {
    ghost use Rattle.std.specs.Prelude.{ℕ};

    ghost Value = { ℕ };

    ghost view = { λ d. d.faults };
}

impl<F: OpenFile + Drop> FileDisk<F> {
    /// A disk over this file, known to a person by this name.
    pub fn over(file: F, name: String) -> FileDisk<F>
        ensures { result ≡ 0 }
    {
        FileDisk {
            file,
            faults: Faults::new(name),
        }
    }

    /// The file.
    pub fn file(&self) -> &F {
        &self.file
    }
}

impl FileDisk<File> {
    /// Opens a regular file for reading and writing, and makes it where it is missing. The file and the folder that it
    /// stands in are on the disk before the call answers, whoever made it: an earlier run may have been killed in between.
    ///
    /// `InUse` where another open of the file holds its lock, as that of a second desk does.
    pub fn open<R: Files<File = File> + Alloc<A = Global>>(
        rt: &R,
        path: &str,
    ) -> Result<FileDisk<File>, FileFault>
        ensures { IfOk result (λ disk. disk ≡ 0) }
    {
        let file = open_regular(rt, path)?;
        match file.try_lock() {
            Ok(()) => {}
            Err(TryLockError::WouldBlock) => return Err(FileFault::InUse),
            Err(TryLockError::Error(error)) => return Err(FileFault::Failed(error)),
        }
        file.sync_all()?;
        sync_folder_of(rt, path)?;
        Ok(FileDisk::over(file, String::from_str(rt.alloc(), path)?))
    }
}

// A look comes first, so that opening doesn't wake a device or wait for the other end of a pipe.
fn open_regular<R: Files<File = File>>(rt: &R, path: &str) -> Result<File, FileFault> {
    match fs::metadata(rt, path) {
        Ok(found) if !found.is_file() => return Err(FileFault::NotAFile),
        Ok(_) => {}
        Err(error) if error.kind() == ErrorKind::NotFound => {}
        Err(error) => return Err(FileFault::from(error)),
    }
    let file = OpenOptions::new()
        .read(true)
        .write(true)
        .create(true)
        .open(rt, path)?;
    if !file.metadata()?.is_file() {
        return Err(FileFault::NotAFile);
    }
    Ok(file)
}

// The folder is that of the file itself, also where the path ends in a link to it.
fn sync_folder_of<R: Files<File = File> + Alloc<A = Global>>(
    rt: &R,
    path: &str,
) -> Result<(), FileFault> {
    let whole = fs::canonicalize(rt, path)?;
    let folder = match whole.parent() {
        Some(folder) => File::open(rt, folder)?,
        None => return Err(FileFault::NotAFile),
    };
    folder.sync_all()?;
    Ok(())
}

impl<F: OpenFile + Drop> Disk for FileDisk<F> {
    ghost words = { untold (λ d. d) (λ _. 0) };

    ghost laws = { untold_laws (λ d. d) (λ _. 0) };

    fn faults(&self) -> u64 {
        self.faults.count()
    }

    fn len(&mut self) -> Result<u64, Failed>
        ensures same { CountsFaults self.old self.new result }
        ensures room { IfOk result (λ n. n < 2 ^ 63) }
    {
        match self.file.length() {
            Ok(length) if length < END => Ok(length),
            Ok(_) => Err(self.faults.add("the look at the length", too_large())),
            Err(error) => Err(self.faults.add("the look at the length", error)),
        }
    }

    fn read(&mut self, at: u64, into: &mut [u8]) -> Result<(), Failed>
        ensures same { CountsFaults self.old self.new result }
    {
        if ends_too_late(at, into.len()) {
            return Err(self.faults.add("a read", too_large()));
        }
        match self.file.read_at(into, at) {
            Ok(()) => Ok(()),
            Err(error) => Err(self.faults.add("a read", error)),
        }
    }

    fn write_at(&mut self, at: u64, from: &[u8]) -> Result<(), Failed>
        ensures same { CountsFaults self.old self.new result }
        ensures room { OnOk result (at + length from.now < 2 ^ 63) }
    {
        if ends_too_late(at, from.len()) {
            return Err(self.faults.add("a write", too_large()));
        }
        match self.file.write_at(from, at) {
            Ok(()) => Ok(()),
            Err(error) => Err(self.faults.add("a write", error)),
        }
    }

    fn sync(&mut self) -> Result<(), Failed>
        ensures same { CountsFaults self.old self.new result }
    {
        match self.file.sync() {
            Ok(()) => Ok(()),
            // Linux counts the pages of a failed sync as written: a later sync would answer well over bytes that never reached
            // the disk, and a read would find them.
            Err(error) => {
                self.file.forget();
                Err(self.faults.add("a sync", error))
            }
        }
    }
}

// Whether bytes at this place end at 2^63 or later.
fn ends_too_late(at: u64, length: usize) -> bool
    ensures { IsTrue result ↔ 2 ^ 63 ≤ at + length }
{
    at >= END || length as u64 >= END - at
}

fn too_large() -> io::Error {
    io::Error::from(ErrorKind::FileTooLarge)
}
