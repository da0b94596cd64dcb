// Folders that tell what stands at a name only where its folder was synced since this life began, and since it was changed
// last. Over them a forest fails where it tells what may not last. One of their syncs may be chosen to fail.
ghost use Rattle.std.specs.Prelude.{IsErr};
ghost use Rattle.gt_folders.specs.Folders.{IsSameOpen};

use gt_folders::{EntryName, Folders, Sight};
use std::alloc::Global;
use std::io;

#[derive(Drop)]
pub(crate) struct StrictFolders<F: Folders + Drop> {
    inner: F,
    lasting: Vec<(u64, u64)>,
    syncs: u64,
    failing: u64,
}

impl<F: Folders + Drop> StrictFolders<F> {
    /// Of the syncs, counted from 1, this one fails.
    pub(crate) fn new(alloc: Global, inner: F, failing: u64) -> StrictFolders<F> {
        StrictFolders {
            inner,
            lasting: Vec::new(alloc),
            syncs: 0,
            failing,
        }
    }

    // Refuses a folder that isn't known to last, unless a staging file is asked for.
    fn check(&mut self, folder: usize, name: EntryName<'_>) -> io::Result<()>
        ensures same { IsSameOpen F.words self.old.inner self.new.inner }
    {
        if matches!(name, EntryName::Staging(_)) {
            return Ok(());
        }
        self.check_folder(folder)
    }

    fn check_folder(&mut self, folder: usize) -> io::Result<()>
        ensures same { IsSameOpen F.words self.old.inner self.new.inner }
    {
        let found = self.inner.look_open(folder)?;
        if self.lasting.contains(&(found.device, found.inode)) {
            Ok(())
        } else {
            Err(io::Error::other("its folder may not last"))
        }
    }

    // A folder was synced.
    fn add(&mut self, folder: usize) -> io::Result<()>
        ensures same { IsSameOpen F.words self.old.inner self.new.inner }
    {
        let found = self.inner.look_open(folder)?;
        self.lasting.push((found.device, found.inode))?;
        Ok(())
    }

    // A folder may have been changed.
    fn end_change(
        &mut self,
        folder: usize,
        name: EntryName<'_>,
        done: io::Result<()>,
    ) -> io::Result<()>
        ensures same { IsSameOpen F.words self.old.inner self.new.inner }
        ensures err { IsErr done → IsErr result }
    {
        done?;
        if matches!(name, EntryName::Plain(_)) {
            let found = self.inner.look_open(folder)?;
            let changed = (found.device, found.inode);
            self.lasting.retain(|one| *one != changed);
        }
        Ok(())
    }
}

impl<F: Folders + Drop> Folders for StrictFolders<F> {
    ghost words = { record { is_open = λ s n. F.words.is_open s.inner n } };

    fn open_root(&mut self, path: &str) -> io::Result<usize> {
        self.inner.open_root(path)
    }

    fn open_folder(&mut self, folder: usize, name: EntryName<'_>) -> io::Result<usize> {
        self.inner.open_folder(folder, name)
    }

    fn open_file(&mut self, folder: usize, name: EntryName<'_>) -> io::Result<usize> {
        self.inner.open_file(folder, name)
    }

    fn open_end(&mut self, folder: usize, name: EntryName<'_>) -> io::Result<usize> {
        self.inner.open_end(folder, name)
    }

    fn make_file(&mut self, folder: usize, name: EntryName<'_>) -> io::Result<usize> {
        self.inner.make_file(folder, name)
    }

    fn close(&mut self, number: usize) {
        self.inner.close(number);
    }

    fn look(&mut self, folder: usize, name: EntryName<'_>) -> io::Result<Sight> {
        self.check(folder, name)?;
        self.inner.look(folder, name)
    }

    fn look_open(&mut self, number: usize) -> io::Result<Sight> {
        self.inner.look_open(number)
    }

    fn names(&mut self, folder: usize, into: &mut [u8]) -> io::Result<usize> {
        self.check_folder(folder)?;
        self.inner.names(folder, into)
    }

    fn make_folder(&mut self, folder: usize, name: EntryName<'_>) -> io::Result<()> {
        let done = self.inner.make_folder(folder, name);
        self.end_change(folder, name, done)
    }

    fn remove_file(&mut self, folder: usize, name: EntryName<'_>) -> io::Result<()> {
        let done = self.inner.remove_file(folder, name);
        self.end_change(folder, name, done)
    }

    fn remove_folder(&mut self, folder: usize, name: EntryName<'_>) -> io::Result<()> {
        let done = self.inner.remove_folder(folder, name);
        self.end_change(folder, name, done)
    }

    fn place(
        &mut self,
        folder: usize,
        name: EntryName<'_>,
        to_folder: usize,
        to: EntryName<'_>,
    ) -> io::Result<()> {
        let done = self.inner.place(folder, name, to_folder, to);
        self.end_change(to_folder, to, done)
    }

    fn read(&mut self, file: usize, at: u64, into: &mut [u8]) -> io::Result<usize> {
        self.inner.read(file, at, into)
    }

    fn append(&mut self, file: usize, bytes: &[u8]) -> io::Result<()> {
        self.inner.append(file, bytes)
    }

    fn set_time(&mut self, file: usize, seconds: i64) -> io::Result<()> {
        self.inner.set_time(file, seconds)
    }

    fn sync(&mut self, number: usize) -> io::Result<()> {
        self.inner.sync(number)?;
        self.syncs = self.syncs.saturating_add(1);
        if self.syncs == self.failing {
            return Err(io::Error::from_raw_os_error(libc::EIO));
        }
        self.add(number)
    }

    fn lock(&mut self, file: usize) -> io::Result<()> {
        self.inner.lock(file)
    }
}
