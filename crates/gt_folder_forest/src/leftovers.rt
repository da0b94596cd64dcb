// Staging files that a killed run left.
use crate::listing::{Wanted, names_in};
use crate::trees::{Home, Trees};
use crate::trouble::{Trouble, is_code};
use gt_folders::{EntryName, Folders};
use gt_paths::Name;
use std::alloc::Global;
use std::io;

/// How many staging files of runs that ended were removed, and how many are in use by others.
#[derive(Clone, Copy, Debug, PartialEq, Eq)]
pub struct Cleared {
    pub removed: u64,
    pub in_use: u64,
}

impl Cleared {
    pub(crate) fn nothing() -> Cleared {
        Cleared {
            removed: 0,
            in_use: 0,
        }
    }

    fn add(&mut self, is_removed: bool) {
        if is_removed {
            self.removed = self.removed.saturating_add(1);
        } else {
            self.in_use = self.in_use.saturating_add(1);
        }
    }
}

// Whether only digits stand behind the beginning of the name of a staging file.
fn is_leftover(name: &Name) -> bool {
    match name
        .as_str()
        .as_bytes()
        .strip_prefix(b".gtstage-".as_slice())
    {
        Some(digits) => !digits.is_empty() && digits.iter().all(|byte| byte.is_ascii_digit()),
        None => false,
    }
}

// What is no file, or went away meanwhile, is passed over.
fn is_passed(error: &io::Error) -> bool {
    is_code(error, libc::ENOENT) || is_code(error, libc::ELOOP) || is_code(error, libc::EISDIR)
}

impl<F: Folders + Drop> Trees<F> {
    /// Removes those of a collection. One whose folder is missing has none.
    pub(crate) fn clear(
        &mut self,
        alloc: Global,
        home: &Home,
        cleared: &mut Cleared,
    ) -> Result<(), Trouble> {
        let folder = match self.open_home(home) {
            Ok(folder) => folder,
            Err(Trouble::NotFound) => return Ok(()),
            Err(trouble) => return Err(trouble),
        };
        let done = self.clear_in(alloc, folder, cleared);
        self.folders.close(folder);
        done
    }

    fn clear_in(
        &mut self,
        alloc: Global,
        folder: usize,
        cleared: &mut Cleared,
    ) -> Result<(), Trouble> {
        let names = names_in(alloc, &mut self.folders, folder, Wanted::Staging)?;
        for (name, _) in names.iter() {
            if !is_leftover(name) {
                continue;
            }
            match self.remove_free(folder, EntryName::Plain(name)) {
                Ok(is_removed) => cleared.add(is_removed),
                Err(error) if is_passed(&error) => {}
                Err(error) => return Err(Trouble::from(error)),
            }
        }
        Ok(())
    }
}
