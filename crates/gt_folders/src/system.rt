ghost use Rattle.std.specs.Prelude.{IfOk, IsErr, false, length, true, ◌≡◌, ◌≢◌, ◌≤◌, ℕ};
ghost use Rattle.gt_folders.specs.Slots.{is_filled};

use crate::bytes;
use crate::folders::Folders;
use crate::name::{EntryName, name_text, open_text, path_text};
use crate::sight::{Sight, SightKind, sight_of};
use crate::table::Table;
use os::FromRawFd;
use std::alloc::AllocError;
use std::fs;
use std::io::{self, Cursor, ErrorKind, Write};
use std::os::fd::{AsRawFd, OwnedFd};

// A path has at most so many bytes, and a 0 behind them.
const PATH_ROOM: usize = libc::PATH_MAX;

/// The folders of the system. All that is open is closed when it is dropped. Its calls take no memory.
#[derive(Drop)]
pub struct SystemFolders {
    rt: HostRuntime,
    table: Table,
}

impl SystemFolders {
    /// Nothing is open.
    pub fn new(rt: HostRuntime) -> Result<SystemFolders, AllocError> {
        let table = Table::new(rt.alloc())?;
        Ok(SystemFolders { rt, table })
    }

    // The descriptor under a number.
    fn at(&self, number: usize) -> io::Result<i32>
        ensures { is_filled self.now.table.slots.items number ≡ false → IsErr result }
    {
        match self.table.get(number) {
            Some(fd) => Ok(fd),
            None => Err(io::Error::from_raw_os_error(libc::EBADF)),
        }
    }
}

impl SystemFolders {
    // Puts what was opened under a number that is free.
    fn keep(&mut self, opened: io::Result<OwnedFd>) -> io::Result<usize>
        ensures was { IfOk result (λ n. is_filled self.old.table.slots.items n ≡ false) }
        ensures is { IfOk result (λ n. is_filled self.new.table.slots.items n ≡ true) }
        ensures others { IfOk result (λ n. (m : ℕ) → m ≢ n
            → is_filled self.new.table.slots.items m ≡ is_filled self.old.table.slots.items m) }
        ensures err { IsErr result → self.new ≡ self.old }
        ensures fault { IsErr opened → IsErr result }
    {
        let fd = opened?;
        match self.table.put(fd) {
            Some(number) => Ok(number),
            None => Err(io::Error::from_raw_os_error(libc::EMFILE)),
        }
    }

    // A file of this name in an open folder.
    fn open_by(&self, folder: usize, name: EntryName<'_>, flags: i32) -> io::Result<OwnedFd>
        ensures { is_filled self.now.table.slots.items folder ≡ false → IsErr result }
    {
        open_regular(&self.rt, self.at(folder)?, name, flags)
    }
}

// Takes a descriptor that the system has just opened. It is none where the system refused.
fn own(fd: i32) -> io::Result<OwnedFd> {
    if fd < 0 {
        return Err(last_error());
    }
    Ok(unsafe { OwnedFd::from_raw_fd(fd) })
}

fn last_error() -> io::Error {
    io::Error::from_raw_os_error(os::errno())
}

fn done(status: i32) -> io::Result<()> {
    if status < 0 {
        Err(last_error())
    } else {
        Ok(())
    }
}

// What stands at a name in an open folder. A link is not followed.
fn look_at(rt: &HostRuntime, folder: i32, name: EntryName<'_>) -> io::Result<Sight> {
    let path = path_text(folder, name)?;
    let found = fs::symlink_metadata(rt, path.as_str()?)?;
    Ok(sight_of(&found))
}

// What is open itself.
fn look_into(rt: &HostRuntime, fd: i32) -> io::Result<Sight> {
    let path = open_text(fd)?;
    let found = fs::metadata(rt, path.as_str()?)?;
    Ok(sight_of(&found))
}

// Opens a regular file, and sees that it is the one that was looked at: opening follows a link that takes its place meanwhile.
fn open_regular(
    rt: &HostRuntime,
    folder: i32,
    name: EntryName<'_>,
    flags: i32,
) -> io::Result<OwnedFd> {
    let found = look_at(rt, folder, name)?;
    match found.kind {
        SightKind::File => {}
        SightKind::Folder => return Err(io::Error::from_raw_os_error(libc::EISDIR)),
        SightKind::Other => return Err(io::Error::from_raw_os_error(libc::ELOOP)),
    }
    let path = path_text(folder, name)?;
    let file = own(os::open_with(path.as_bytes(), flags, 0))?;
    if !look_into(rt, file.as_raw_fd())?.is_same(&found) {
        return Err(io::Error::new(ErrorKind::Other, "another file took its place"));
    }
    Ok(file)
}

// Opens a folder by a path. A slash behind it has a link at its end followed. That `/proc` is missing is told here, since later
// calls would find nothing there.
fn open_path(rt: &HostRuntime, path: &str) -> io::Result<OwnedFd> {
    let mut line = Cursor::new([0u8; PATH_ROOM]);
    if write!(line, "{path}/").is_err() {
        return Err(ErrorKind::InvalidFilename.into());
    }
    let length = (line.position() as usize).min(PATH_ROOM);
    let folder = own(os::open_dir_at(libc::AT_FDCWD, &line.get_ref()[..length]))?;
    if look_into(rt, folder.as_raw_fd()).is_err() {
        return Err(io::Error::new(ErrorKind::Other, "/proc is missing"));
    }
    Ok(folder)
}

fn open_below(folder: i32, name: EntryName<'_>) -> io::Result<OwnedFd> {
    own(os::open_dir_at(folder, name_text(name)?.as_bytes()))
}

fn make_in(folder: i32, name: EntryName<'_>) -> io::Result<OwnedFd> {
    own(os::create(path_text(folder, name)?.as_bytes()))
}

// The next names of a folder. The system tells no names and no error at the end.
fn next_names(folder: i32, into: &mut [u8]) -> io::Result<usize>
    ensures { IfOk result (λ n. n ≤ length into.old) }
{
    let n = os::read_dir(folder, into);
    let error = os::errno();
    if n == 0 && error != 0 {
        return Err(io::Error::from_raw_os_error(error));
    }
    Ok(n)
}

impl Folders for SystemFolders {
    ghost words = { record { is_open = λ f n. is_filled f.table.slots.items n } };

    fn open_root(&mut self, path: &str) -> io::Result<usize> {
        let opened = open_path(&self.rt, path);
        self.keep(opened)
    }

    fn open_folder(&mut self, folder: usize, name: EntryName<'_>) -> io::Result<usize> {
        let fd = self.at(folder)?;
        self.keep(open_below(fd, name))
    }

    fn open_file(&mut self, folder: usize, name: EntryName<'_>) -> io::Result<usize> {
        let opened = self.open_by(folder, name, libc::O_RDONLY);
        self.keep(opened)
    }

    fn open_end(&mut self, folder: usize, name: EntryName<'_>) -> io::Result<usize> {
        let opened = self.open_by(folder, name, libc::O_WRONLY | libc::O_APPEND);
        self.keep(opened)
    }

    fn make_file(&mut self, folder: usize, name: EntryName<'_>) -> io::Result<usize> {
        let fd = self.at(folder)?;
        self.keep(make_in(fd, name))
    }

    fn close(&mut self, number: usize) {
        self.table.close(number);
    }

    fn look(&mut self, folder: usize, name: EntryName<'_>) -> io::Result<Sight> {
        look_at(&self.rt, self.at(folder)?, name)
    }

    fn look_open(&mut self, number: usize) -> io::Result<Sight> {
        look_into(&self.rt, self.at(number)?)
    }

    fn names(&mut self, folder: usize, into: &mut [u8]) -> io::Result<usize> {
        next_names(self.at(folder)?, into)
    }

    fn make_folder(&mut self, folder: usize, name: EntryName<'_>) -> io::Result<()> {
        done(os::mkdir(path_text(self.at(folder)?, name)?.as_bytes()))
    }

    fn remove_file(&mut self, folder: usize, name: EntryName<'_>) -> io::Result<()> {
        done(os::unlink_at(self.at(folder)?, name_text(name)?.as_bytes()))
    }

    fn remove_folder(&mut self, folder: usize, name: EntryName<'_>) -> io::Result<()> {
        done(os::rmdir_at(self.at(folder)?, name_text(name)?.as_bytes()))
    }

    fn place(
        &mut self,
        folder: usize,
        name: EntryName<'_>,
        to_folder: usize,
        to: EntryName<'_>,
    ) -> io::Result<()> {
        let from = path_text(self.at(folder)?, name)?;
        let to = path_text(self.at(to_folder)?, to)?;
        done(os::rename(from.as_bytes(), to.as_bytes()))
    }

    fn read(&mut self, file: usize, at: u64, into: &mut [u8]) -> io::Result<usize> {
        bytes::read_at(self.at(file)?, at, into)
    }

    fn append(&mut self, file: usize, bytes: &[u8]) -> io::Result<()> {
        bytes::write_all(self.at(file)?, bytes)
    }

    fn set_time(&mut self, file: usize, seconds: i64) -> io::Result<()> {
        bytes::set_time(self.at(file)?, seconds)
    }

    fn sync(&mut self, number: usize) -> io::Result<()> {
        bytes::sync(self.at(number)?)
    }

    fn lock(&mut self, file: usize) -> io::Result<()> {
        bytes::lock(self.at(file)?)
    }
}
