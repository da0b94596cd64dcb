// The folders of all collections: what is open of them, and the way down a path.
use crate::listing::Listing;
use crate::reading::Reader;
use crate::spot::Spot;
use crate::staging::Stages;
use crate::trail::Trail;
use crate::trouble::{Trouble, is_code};
use gt_folders::{EntryName, Folders, Sight, SightKind};
use gt_paths::{Name, Path};
use std::alloc::{AllocError, Global};
use std::io;

// The names of staging files begin so. None of a path may.
const STAGING: &str = ".gtstage-";

/// A collection: its number, the path of its folder, and the folders of it that are known to last.
#[derive(Drop)]
pub(crate) struct Home {
    pub(crate) number: u32,
    pub(crate) path: String,
    pub(crate) lasting: Trail,
}

impl Home {
    /// What a call at a path is about.
    pub(crate) fn spot<'a>(&'a self, path: &'a Path) -> Spot<'a> {
        Spot::Path {
            home: self.path.as_str(),
            names: path.as_slice(),
        }
    }

    /// The collection's own folder.
    pub(crate) fn own_spot(&self) -> Spot<'_> {
        Spot::Path {
            home: self.path.as_str(),
            names: &[],
        }
    }

    /// What a call on a staging file is about.
    pub(crate) fn stage_spot(&self, key: u64) -> Spot<'_> {
        Spot::Stage {
            home: self.path.as_str(),
            key,
        }
    }
}

/// The folders, and what stays open of them between calls.
#[derive(Drop)]
pub(crate) struct Trees<F: Folders + Drop> {
    pub(crate) folders: F,
    pub(crate) reader: Reader,
    pub(crate) listing: Listing,
    pub(crate) stages: Stages,
}

/// Where a path other than that of a collection's own folder stands: the names of its folder, and its own.
#[derive(Clone, Copy)]
pub(crate) struct Place<'a> {
    pub(crate) above: &'a [Name],
    pub(crate) name: &'a Name,
}

/// Where a path stands. The collection's own folder has no place. `Denied` where a name is as that of a staging file.
pub(crate) fn place_of(path: &Path) -> Result<Option<Place<'_>>, Trouble> {
    let names = path.as_slice();
    if names.iter().any(|name| is_staging(name.as_str())) {
        return Err(Trouble::Denied);
    }
    match names.split_last() {
        Some((name, above)) => Ok(Some(Place { above, name })),
        None => Ok(None),
    }
}

/// Whether a name is as that of a staging file.
pub(crate) fn is_staging(name: &str) -> bool {
    name.starts_with(STAGING)
}

impl<F: Folders + Drop> Trees<F> {
    pub(crate) fn new(alloc: Global, folders: F) -> Result<Trees<F>, AllocError> {
        Ok(Trees {
            folders,
            reader: Reader::new(alloc)?,
            listing: Listing::new(alloc)?,
            stages: Stages::new(alloc)?,
        })
    }

    /// Drops what is kept of files and folders that a call may change.
    pub(crate) fn let_go(&mut self) {
        self.reader.close(&mut self.folders);
        self.listing.forget();
    }

    /// Opens the collection's own folder.
    pub(crate) fn open_home(&mut self, home: &Home) -> Result<usize, Trouble> {
        let number = self.folders.open_root(home.path.as_str())?;
        Ok(number)
    }

    /// Opens the folder of these names. It and those above it are on the disk before this answers, as far as they aren't
    /// known to last: an earlier run may have been killed between a change of a folder and its sync.
    pub(crate) fn open_folder(
        &mut self,
        home: &mut Home,
        names: &[Name],
    ) -> Result<usize, Trouble> {
        let shared = home.lasting.shared(names);
        if shared.folders <= names.len() {
            home.lasting.cut(shared);
        }
        let mut here = self.folders.open_root(home.path.as_str())?;
        if shared.folders == 0 {
            self.settle(home, here)?;
            home.lasting.start();
        }
        for i in 0..names.len() {
            here = self.step(here, &names[i])?;
            if shared.folders <= i + 1 {
                self.settle(home, here)?;
                home.lasting.push(&names[i]);
            }
        }
        Ok(here)
    }

    // Goes down from an open folder, which is closed.
    fn step(&mut self, folder: usize, name: &Name) -> Result<usize, Trouble> {
        let next = self.folders.open_folder(folder, EntryName::Plain(name));
        self.folders.close(folder);
        let next = next?;
        Ok(next)
    }

    // Has an open folder last. Where that fails it is closed.
    fn settle(&mut self, home: &mut Home, folder: usize) -> Result<(), Trouble> {
        match self.sync_folder(folder) {
            Ok(()) => Ok(()),
            Err(error) => {
                home.lasting.forget();
                self.folders.close(folder);
                Err(Trouble::Failed(error))
            }
        }
    }

    // Waits until an open folder is on the disk. Where the file system is mounted read-only nothing is pending: it says so, or
    // that its folders can't be synced.
    fn sync_folder(&mut self, folder: usize) -> io::Result<()> {
        match self.folders.sync(folder) {
            Err(error) if is_code(&error, libc::EROFS) => Ok(()),
            Err(error) if is_code(&error, libc::EINVAL) && self.is_read_only(folder) => Ok(()),
            answer => answer,
        }
    }

    // Whether an open folder is on a file system that is mounted read-only. The system tells so before it looks for the folder
    // that it is to remove, which isn't there.
    fn is_read_only(&mut self, folder: usize) -> bool {
        match self.folders.remove_folder(folder, EntryName::Staging(0)) {
            Err(error) => is_code(&error, libc::EROFS),
            Ok(()) => false,
        }
    }

    /// What stands at a place, where it is a file or a folder.
    pub(crate) fn look(&mut self, home: &mut Home, place: Place<'_>) -> Result<Sight, Trouble> {
        let folder = self.open_folder(home, place.above)?;
        let found = self.look_in(folder, place.name);
        self.folders.close(folder);
        found
    }

    /// What has this name in an open folder, where it is a file or a folder.
    pub(crate) fn look_in(&mut self, folder: usize, name: &Name) -> Result<Sight, Trouble> {
        let found = self.folders.look(folder, EntryName::Plain(name))?;
        if found.kind == SightKind::Other {
            return Err(Trouble::NotFound);
        }
        Ok(found)
    }

    /// Ends a change in an open folder, which is closed: what was done is on the disk before this answers.
    pub(crate) fn end_change(
        &mut self,
        home: &mut Home,
        folder: usize,
        done: Result<(), Trouble>,
    ) -> Result<(), Trouble> {
        let done = match done {
            Ok(()) => self.folders.sync(folder).map_err(Trouble::Failed),
            Err(trouble) => Err(trouble),
        };
        if matches!(done, Err(Trouble::Failed(_))) {
            home.lasting.forget();
        }
        self.folders.close(folder);
        done
    }
}
