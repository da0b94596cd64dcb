// Making and removing folders, and removing files.
use crate::trees::{Home, Place, Trees, place_of};
use crate::trouble::{Trouble, is_code};
use gt_folders::{EntryName, Folders, SightKind};
use gt_paths::{Name, Path};

impl<F: Folders + Drop> Trees<F> {
    pub(crate) fn make_dir(&mut self, home: &mut Home, path: &Path) -> Result<(), Trouble> {
        self.let_go();
        let Some(place) = place_of(path)? else {
            return Err(self.refusal_at_home(home));
        };
        let folder = self.open_folder(home, place.above)?;
        let made = self.make_in(folder, place.name);
        self.end_change(home, folder, made)
    }

    /// Why a call that is for files, or that makes something, can't be done at the collection's own folder.
    pub(crate) fn refusal_at_home(&mut self, home: &mut Home) -> Trouble {
        match self.open_folder(home, &[]) {
            Ok(folder) => {
                self.folders.close(folder);
                Trouble::WrongKind
            }
            Err(trouble) => trouble,
        }
    }

    // Makes a folder in an open one. It is on the disk before its name counts.
    fn make_in(&mut self, folder: usize, name: &Name) -> Result<(), Trouble> {
        match self.folders.make_folder(folder, EntryName::Plain(name)) {
            Ok(()) => {}
            Err(error) if is_code(&error, libc::EEXIST) => return Err(Trouble::WrongKind),
            Err(error) => return Err(Trouble::from(error)),
        }
        let made = self
            .folders
            .open_folder(folder, EntryName::Plain(name))
            .map_err(Trouble::Failed)?;
        let synced = self.folders.sync(made);
        self.folders.close(made);
        synced.map_err(Trouble::Failed)
    }

    pub(crate) fn remove_file(&mut self, home: &mut Home, path: &Path) -> Result<(), Trouble> {
        self.let_go();
        let Some(place) = place_of(path)? else {
            return Err(self.refusal_at_home(home));
        };
        self.remove(home, place, SightKind::File)
    }

    pub(crate) fn remove_dir(&mut self, home: &mut Home, path: &Path) -> Result<(), Trouble> {
        self.let_go();
        let Some(place) = place_of(path)? else {
            return Err(Trouble::Denied);
        };
        self.remove(home, place, SightKind::Folder)
    }

    fn remove(
        &mut self,
        home: &mut Home,
        place: Place<'_>,
        kind: SightKind,
    ) -> Result<(), Trouble> {
        let folder = self.open_folder(home, place.above)?;
        let removed = self.remove_in(folder, place.name, kind);
        self.end_change(home, folder, removed)
    }

    // Removes what has this name in an open folder, where it is of this kind.
    fn remove_in(&mut self, folder: usize, name: &Name, kind: SightKind) -> Result<(), Trouble> {
        if self.look_in(folder, name)?.kind != kind {
            return Err(Trouble::WrongKind);
        }
        let removed = match kind {
            SightKind::Folder => self.folders.remove_folder(folder, EntryName::Plain(name)),
            _ => self.folders.remove_file(folder, EntryName::Plain(name)),
        };
        match removed {
            Ok(()) => Ok(()),
            Err(error) if is_code(&error, libc::EISDIR) => Err(Trouble::WrongKind),
            Err(error) if is_code(&error, libc::ENOTEMPTY) => Err(Trouble::NotEmpty),
            Err(error) if is_code(&error, libc::EEXIST) => Err(Trouble::NotEmpty),
            Err(error) => Err(Trouble::from(error)),
        }
    }
}
