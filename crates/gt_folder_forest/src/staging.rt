// Staging files: which stand, which are open, and how each is made, added to, placed and dropped.
//
// Each lies in the folder of its collection, so that placing it is one renaming. Its lock is held while it is open: a name
// that leads to a file which another forest has open is left alone.
use crate::trees::{Home, Trees, place_of};
use crate::trouble::{Trouble, is_code};
use gt_folders::{EntryName, Folders, Sight, SightKind};
use gt_paths::{Name, Path};
use gt_values::Moment;
use std::alloc::{AllocError, Global};
use std::collections::BTreeMap;
use std::io;

// So many stay open at most: one for each worker, and one more.
const OPEN: usize = 17;

/// The staging files of this life: which file each is, by its collection and its key, and those that are open, the one used
/// last at the end.
#[derive(Drop)]
pub(crate) struct Stages {
    standing: BTreeMap<(u32, u64), Standing>,
    open: Vec<OpenStage>,
}

// Which file it is, and whether a sync of it failed. Its bytes may then be lost, though a later sync answers well.
#[derive(Clone, Copy)]
struct Standing {
    sight: Sight,
    is_lost: bool,
}

// A staging file that is open at its end, under this number.
#[derive(Clone, Copy)]
struct OpenStage {
    collection: u32,
    key: u64,
    number: usize,
}

impl Stages {
    pub(crate) fn new(alloc: Global) -> Result<Stages, AllocError> {
        Ok(Stages {
            standing: BTreeMap::new(alloc),
            open: Vec::with_capacity(alloc, OPEN)?,
        })
    }

    // What is known of it, if it stands.
    fn find(&self, home: &Home, key: u64) -> Option<Standing> {
        self.standing.get(&(home.number, key)).copied()
    }

    // A sync of it failed.
    fn lose(&mut self, home: &Home, key: u64) {
        if let Some(stage) = self.standing.get_mut(&(home.number, key)) {
            stage.is_lost = true;
        }
    }

    // Takes an open one out of those that are.
    fn take(&mut self, home: &Home, key: u64) -> Option<usize> {
        for i in 0..self.open.len() {
            let stage = self.open[i];
            if stage.collection == home.number && stage.key == key {
                self.open.remove(i);
                return Some(stage.number);
            }
        }
        None
    }

    // Puts one at the end of those that are open, and gives the one to be closed for it: that used longest ago, or itself
    // where there is no room.
    fn put(&mut self, home: &Home, key: u64, number: usize) -> Option<usize> {
        let mut closed = None;
        if self.open.len() >= OPEN {
            closed = Some(self.open.remove(0).number);
        }
        let stage = OpenStage {
            collection: home.number,
            key,
            number,
        };
        match self.open.push(stage) {
            Ok(()) => closed,
            Err(_) => Some(number),
        }
    }

    fn remove(&mut self, home: &Home, key: u64) {
        self.standing.remove(&(home.number, key));
    }
}

// What is said where the name of a staging file leads to a file that is none of ours.
fn another_file() -> Trouble {
    Trouble::Failed(io::Error::other("another file has its name"))
}

impl<F: Folders + Drop> Trees<F> {
    pub(crate) fn stage_open(&mut self, home: &Home, key: u64) -> Result<(), Trouble> {
        self.let_go();
        self.stages.remove(home, key);
        if let Some(number) = self.stages.take(home, key) {
            self.folders.close(number);
        }
        let folder = self.open_home(home)?;
        let made = self.make_stage(folder, key);
        self.folders.close(folder);
        let (number, sight) = made?;
        let new_stage = Standing {
            sight,
            is_lost: false,
        };
        if self
            .stages
            .standing
            .insert((home.number, key), new_stage)
            .is_err()
        {
            self.folders.close(number);
            return Err(Trouble::OutOfMemory);
        }
        self.keep_open(home, key, number);
        Ok(())
    }

    fn keep_open(&mut self, home: &Home, key: u64, number: usize) {
        if let Some(closed) = self.stages.put(home, key, number) {
            self.folders.close(closed);
        }
    }

    // Makes the file anew in an open folder: after a crash an old name may lead to a file that was placed, so an old file
    // is never emptied.
    fn make_stage(&mut self, folder: usize, key: u64) -> Result<(usize, Sight), Trouble> {
        self.remove_older(folder, key)?;
        let number = self.folders.make_file(folder, EntryName::Staging(key))?;
        match self.claim(folder, key, number) {
            Ok(sight) => Ok((number, sight)),
            Err(trouble) => {
                self.folders.close(number);
                Err(trouble)
            }
        }
    }

    // Locks a file that was just made, and sees that its name leads to it.
    fn claim(&mut self, folder: usize, key: u64, number: usize) -> Result<Sight, Trouble> {
        self.lock(number)?;
        let own = self.folders.look_open(number)?;
        let found = self.folders.look(folder, EntryName::Staging(key))?;
        if found.is_same(&own) {
            Ok(own)
        } else {
            Err(another_file())
        }
    }

    // Takes the lock of an open file. On a file system without locks there is none to take.
    fn lock(&mut self, number: usize) -> Result<(), Trouble> {
        match self.folders.lock(number) {
            Err(error) if is_code(&error, libc::EAGAIN) => Err(Trouble::Failed(error)),
            _ => Ok(()),
        }
    }

    // Removes an older file of this key. One that is in use stays, and is a failure.
    fn remove_older(&mut self, folder: usize, key: u64) -> Result<(), Trouble> {
        let name = EntryName::Staging(key);
        match self.folders.look(folder, name) {
            Ok(found) if found.kind == SightKind::File => {
                if self.remove_free(folder, name)? {
                    Ok(())
                } else {
                    Err(Trouble::Failed(io::Error::from_raw_os_error(libc::EAGAIN)))
                }
            }
            Ok(_) => {
                self.folders.remove_file(folder, name)?;
                Ok(())
            }
            Err(error) if is_code(&error, libc::ENOENT) => Ok(()),
            Err(error) => Err(Trouble::from(error)),
        }
    }

    /// Removes a file whose lock no other open of it has, and says whether it did. Who has the lock of the file that a name
    /// leads to is the only one to remove it.
    pub(crate) fn remove_free(
        &mut self,
        folder: usize,
        name: EntryName<'_>,
    ) -> Result<bool, io::Error> {
        let number = self.folders.open_file(folder, name)?;
        let removed = self.remove_locked(folder, name, number);
        self.folders.close(number);
        removed
    }

    fn remove_locked(
        &mut self,
        folder: usize,
        name: EntryName<'_>,
        number: usize,
    ) -> Result<bool, io::Error> {
        if self.lock(number).is_err() {
            return Ok(false);
        }
        let own = self.folders.look_open(number)?;
        if !self.folders.look(folder, name)?.is_same(&own) {
            return Ok(false);
        }
        self.folders.remove_file(folder, name)?;
        Ok(true)
    }

    pub(crate) fn stage_append(
        &mut self,
        home: &Home,
        key: u64,
        bytes: &[u8],
    ) -> Result<(), Trouble> {
        let number = self.take_whole(home, key)?;
        let added = self.folders.append(number, bytes);
        self.keep_open(home, key, number);
        added.map_err(Trouble::Failed)
    }

    // One that stands and isn't lost.
    fn take_whole(&mut self, home: &Home, key: u64) -> Result<usize, Trouble> {
        match self.stages.find(home, key) {
            Some(stage) if stage.is_lost => {
                Err(Trouble::Failed(io::Error::other("its bytes may be lost")))
            }
            _ => self.take_stage(home, key),
        }
    }

    // A staging file that stands, open at its end, and out of the list of those that are open.
    fn take_stage(&mut self, home: &Home, key: u64) -> Result<usize, Trouble> {
        let Some(stage) = self.stages.find(home, key) else {
            return Err(Trouble::NotFound);
        };
        match self.stages.take(home, key) {
            Some(number) => Ok(number),
            None => self.reopen(home, key, stage.sight),
        }
    }

    // Opens a staging file again that was closed meanwhile.
    fn reopen(&mut self, home: &Home, key: u64, own: Sight) -> Result<usize, Trouble> {
        let folder = self.open_home(home)?;
        let opened = self.folders.open_end(folder, EntryName::Staging(key));
        self.folders.close(folder);
        let number = opened?;
        match self.claim_again(number, own) {
            Ok(()) => Ok(number),
            Err(trouble) => {
                self.folders.close(number);
                Err(trouble)
            }
        }
    }

    fn claim_again(&mut self, number: usize, own: Sight) -> Result<(), Trouble> {
        self.lock(number)?;
        if self.folders.look_open(number)?.is_same(&own) {
            Ok(())
        } else {
            Err(another_file())
        }
    }

    pub(crate) fn stage_drop(&mut self, home: &Home, key: u64) -> Result<(), Trouble> {
        self.let_go();
        let dropped = self.drop_stage(home, key);
        match dropped {
            Ok(()) | Err(Trouble::NotFound) => self.stages.remove(home, key),
            Err(_) => {}
        }
        dropped
    }

    fn drop_stage(&mut self, home: &Home, key: u64) -> Result<(), Trouble> {
        let number = self.take_stage(home, key)?;
        let dropped = self.remove_stage(home, key);
        self.folders.close(number);
        dropped
    }

    fn remove_stage(&mut self, home: &Home, key: u64) -> Result<(), Trouble> {
        let folder = self.open_home(home)?;
        let removed = self.folders.remove_file(folder, EntryName::Staging(key));
        self.folders.close(folder);
        Ok(removed?)
    }
}

impl<F: Folders + Drop> Trees<F> {
    pub(crate) fn stage_place(
        &mut self,
        home: &mut Home,
        key: u64,
        path: &Path,
        mtime: Moment,
    ) -> Result<(), Trouble> {
        self.let_go();
        match place_of(path)? {
            Some(place) => {
                let folder = self.open_folder(home, place.above)?;
                let placed = self.place_in(home, folder, key, place.name, mtime);
                self.end_change(home, folder, placed)
            }
            None if self.stages.find(home, key).is_none() => Err(Trouble::NotFound),
            None => Err(self.refusal_at_home(home)),
        }
    }

    // Places it in an open folder. One that was placed is none any more.
    fn place_in(
        &mut self,
        home: &Home,
        folder: usize,
        key: u64,
        name: &Name,
        mtime: Moment,
    ) -> Result<(), Trouble> {
        let number = self.take_whole(home, key)?;
        let ready = self.make_ready(folder, name, number, mtime);
        let placed = match ready {
            Ok(()) => self.sync_and_rename(home, folder, key, name, number),
            Err(trouble) => Err(trouble),
        };
        match placed {
            Ok(()) => {
                self.folders.close(number);
                self.stages.remove(home, key);
            }
            Err(_) => self.keep_open(home, key, number),
        }
        placed
    }

    // Sees that no folder has the name, and gives the file its time.
    fn make_ready(
        &mut self,
        folder: usize,
        name: &Name,
        number: usize,
        mtime: Moment,
    ) -> Result<(), Trouble> {
        if self.has_folder(folder, name)? {
            return Err(Trouble::WrongKind);
        }
        self.folders.set_time(number, mtime.seconds() as i64)?;
        Ok(())
    }

    // Gives it its name after it is on the disk.
    fn sync_and_rename(
        &mut self,
        home: &Home,
        folder: usize,
        key: u64,
        name: &Name,
        number: usize,
    ) -> Result<(), Trouble> {
        match self.folders.sync(number) {
            Ok(()) => self.rename(home, folder, key, name),
            Err(error) => {
                self.stages.lose(home, key);
                Err(Trouble::Failed(error))
            }
        }
    }

    fn has_folder(&mut self, folder: usize, name: &Name) -> Result<bool, Trouble> {
        match self.folders.look(folder, EntryName::Plain(name)) {
            Ok(found) => Ok(found.kind == SightKind::Folder),
            Err(error) if is_code(&error, libc::ENOENT) => Ok(false),
            Err(error) => Err(Trouble::from(error)),
        }
    }

    fn rename(&mut self, home: &Home, folder: usize, key: u64, name: &Name) -> Result<(), Trouble> {
        let from = self.open_home(home)?;
        let placed = self.folders.place(
            from,
            EntryName::Staging(key),
            folder,
            EntryName::Plain(name),
        );
        self.folders.close(from);
        match placed {
            Ok(()) => Ok(()),
            Err(error) if is_code(&error, libc::EISDIR) => Err(Trouble::WrongKind),
            Err(error) => Err(Trouble::from(error)),
        }
    }
}
