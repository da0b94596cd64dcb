// The names in a folder, and pages of its entries.
ghost use Rattle.std.specs.Option.{option_copied};
ghost use Rattle.std.specs.Prelude.{[], IfOk, OnOk, ◌++◌, ◌∷◌, ◌≡◌, ◌⊎◌};
ghost use Rattle.gt_forest.specs.Listing.{IsInOrder, names_of};

use crate::trail::Trail;
use crate::trees::{Home, Trees, is_staging, place_of};
use crate::trouble::{Trouble, is_code};
use gt_folders::{EntryName, Folders, SightKind};
use gt_forest::start_of;
use gt_paths::{Name, NameFault, Path};
use gt_types::{Entry, Kind};
use std::alloc::{AllocError, Global};
use std::collections::BTreeMap;
use std::ops::Bound;
use std::{io, str};

// So many names stay at most.
const KEPT: usize = 262_144;

// The room for names that are read: enough for the longest, and for a hundred of the others.
const ROOM: usize = 4_096;

/// Names, in the order of their bytes.
pub(crate) type Names = BTreeMap<Name, ()>;

/// The folder that was listed last: its names, the first of them alone where there are too many, and the last one given.
#[derive(Drop)]
pub(crate) struct Listing {
    collection: u32,
    path: Trail,
    last: Option<Name>,
    names: Option<Names>,
    is_cut: bool,
}

impl Listing {
    pub(crate) fn new(alloc: Global) -> Result<Listing, AllocError> {
        Ok(Listing {
            collection: 0,
            path: Trail::new(alloc)?,
            last: None,
            names: None,
            is_cut: false,
        })
    }

    /// Drops the names.
    pub(crate) fn forget(&mut self) {
        self.names = None;
        self.last = None;
    }

    // Takes the names, where they are of this folder and the last one given is this.
    fn take(&mut self, home: &Home, path: &Path, after: Option<&Name>) -> Option<Names> {
        let names = self.names.take();
        let is_next = match (after, &self.last) {
            (Some(after), Some(last)) => after == last,
            _ => false,
        };
        if is_next && home.number == self.collection && self.path.is(path.as_slice()) {
            names
        } else {
            None
        }
    }

    // Keeps the names for the page after the last entry.
    fn keep(&mut self, alloc: Global, home: &Home, path: &Path, names: Names, entries: &[Entry]) {
        self.forget();
        let Some(entry) = entries.last() else {
            return;
        };
        let Ok(last) = entry.name.copy(alloc) else {
            return;
        };
        self.collection = home.number;
        self.path.set(path.as_slice());
        self.last = Some(last);
        self.names = Some(names);
    }
}

/// Which names of a folder are wanted.
#[derive(Clone, Copy)]
pub(crate) enum Wanted<'a> {
    /// Those of entries, behind this one.
    Entries(Option<&'a Name>),
    /// Those of staging files.
    Staging,
}

impl Wanted<'_> {
    fn takes(&self, text: &str) -> bool {
        match self {
            Wanted::Entries(Some(after)) => after.as_str() < text && !is_staging(text),
            Wanted::Entries(None) => !is_staging(text),
            Wanted::Staging => is_staging(text),
        }
    }
}

/// The names in an open folder. What is no name is passed over.
pub(crate) fn names_in<F: Folders>(
    alloc: Global,
    folders: &mut F,
    folder: usize,
    wanted: Wanted<'_>,
) -> Result<Names, Trouble> {
    let mut names = BTreeMap::new(alloc);
    let mut room = [0u8; ROOM];
    for _ in 0..u64::MAX {
        let length = folders.names(folder, &mut room)?;
        if length == 0 {
            break;
        }
        add_names(alloc, &mut names, &room[..length], wanted)?;
    }
    Ok(names)
}

// Adds names that each have a byte 0 behind them.
fn add_names(
    alloc: Global,
    names: &mut Names,
    texts: &[u8],
    wanted: Wanted<'_>,
) -> Result<(), Trouble> {
    let mut rest = texts;
    for _ in 0..texts.len() {
        let Some((text, tail)) = first_text(rest) else {
            break;
        };
        add_name(alloc, names, text, wanted)?;
        rest = tail;
    }
    Ok(())
}

// What stands before the first byte 0, and what stands behind it.
fn first_text(bytes: &[u8]) -> Option<(&[u8], &[u8])> {
    for i in 0..bytes.len() {
        if bytes[i] == 0 {
            return Some((&bytes[..i], &bytes[i + 1..]));
        }
    }
    None
}

fn add_name(
    alloc: Global,
    names: &mut Names,
    text: &[u8],
    wanted: Wanted<'_>,
) -> Result<(), Trouble> {
    let Ok(text) = str::from_utf8(text) else {
        return Ok(());
    };
    if !wanted.takes(text) {
        return Ok(());
    }
    match Name::read(alloc, text) {
        Ok(name) => {
            names.insert(name, ())?;
            Ok(())
        }
        Err(NameFault::Refused) => Ok(()),
        Err(NameFault::OutOfMemory) => Err(Trouble::OutOfMemory),
    }
}

// The first entries behind a name. A name that leads to neither a file nor a folder is passed over.
fn page<F: Folders>(
    alloc: Global,
    folders: &mut F,
    folder: usize,
    names: &Names,
    after: Option<&Name>,
    limit: u32,
) -> Result<Vec<Entry>, Trouble>
    ensures { IfOk result (λ entries. IsInOrder (option_copied after.entry) limit entries.items) }
{
    let mut entries = Vec::new(alloc);
    for (name, _) in names.range((start_of(after), Bound::Unbounded)) {
        if entries.len() >= limit as usize {
            break;
        }
        add_entry(alloc, folders, folder, name, &mut entries)?;
    }
    Ok(entries)
}

// Adds what has this name, where it is a file or a folder.
fn add_entry<F: Folders>(
    alloc: Global,
    folders: &mut F,
    folder: usize,
    name: &Name,
    entries: &mut Vec<Entry>,
) -> Result<(), Trouble>
    ensures { OnOk result ((entries.new.items ≡ entries.old.items)
        ⊎ (names_of entries.new.items ≡ names_of entries.old.items ++ name.now ∷ [])) }
{
    let Some(kind) = kind_of(
        folders
            .look(folder, EntryName::Plain(name))
            .map(|found| found.kind),
    )?
    else {
        return Ok(());
    };
    let name = name.copy(alloc)?;
    entries.push(Entry { name, kind })?;
    Ok(())
}

// The kind of what a look found. What went away meanwhile has none.
fn kind_of(found: io::Result<SightKind>) -> Result<Option<Kind>, Trouble> {
    match found {
        Ok(SightKind::File) => Ok(Some(Kind::File)),
        Ok(SightKind::Folder) => Ok(Some(Kind::Folder)),
        Ok(SightKind::Other) => Ok(None),
        Err(error) if is_code(&error, libc::ENOENT) => Ok(None),
        Err(error) => Err(Trouble::from(error)),
    }
}

impl<F: Folders + Drop> Trees<F> {
    pub(crate) fn list(
        &mut self,
        alloc: Global,
        home: &mut Home,
        path: &Path,
        after: Option<&Name>,
        limit: u32,
    ) -> Result<Vec<Entry>, Trouble>
        ensures { IfOk result
            (λ entries. IsInOrder (option_copied after.entry) limit entries.items) }
    {
        let folder = self.open_listed(home, path)?;
        let entries = self.list_open(alloc, home, folder, path, after, limit);
        self.folders.close(folder);
        entries
    }

    // Opens the folder of a path, which may be a file.
    fn open_listed(&mut self, home: &mut Home, path: &Path) -> Result<usize, Trouble> {
        let place = place_of(path)?;
        match (self.open_folder(home, path.as_slice()), place) {
            (Err(Trouble::NotFound), Some(place)) => {
                if self.look(home, place)?.kind == SightKind::File {
                    Err(Trouble::WrongKind)
                } else {
                    Err(Trouble::NotFound)
                }
            }
            (opened, _) => opened,
        }
    }

    fn list_open(
        &mut self,
        alloc: Global,
        home: &Home,
        folder: usize,
        path: &Path,
        after: Option<&Name>,
        limit: u32,
    ) -> Result<Vec<Entry>, Trouble>
        ensures { IfOk result
            (λ entries. IsInOrder (option_copied after.entry) limit entries.items) }
    {
        if let Some(names) = self.listing.take(home, path, after) {
            let entries = page(alloc, &mut self.folders, folder, &names, after, limit)?;
            if entries.len() >= limit as usize || !self.listing.is_cut {
                self.listing.keep(alloc, home, path, names, &entries);
                return Ok(entries);
            }
        }
        let mut names = names_in(alloc, &mut self.folders, folder, Wanted::Entries(after))?;
        let entries = page(alloc, &mut self.folders, folder, &names, after, limit)?;
        self.listing.is_cut = names.len() > KEPT;
        for _ in KEPT..names.len() {
            names.pop_last();
        }
        self.listing.keep(alloc, home, path, names, &entries);
        Ok(entries)
    }
}
