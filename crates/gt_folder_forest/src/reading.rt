// Looks at paths, and reads of files.
ghost use Rattle.std.specs.Prelude.{IfOk, length, ◌<◌, ◌^◌, ◌≤◌};
ghost use Rattle.gt_forest.specs.Answers.{IsBounded};

use crate::trail::Trail;
use crate::trees::{Home, Place, Trees, place_of};
use crate::trouble::{Trouble, is_code};
use gt_folders::{EntryName, Folders, Sight, SightKind};
use gt_paths::Path;
use gt_types::{Kind, Stat};
use gt_values::Moment;
use std::alloc::{AllocError, Global};
use std::io;

// The last moment, in seconds.
const LAST: u64 = 253_402_300_799;

/// The file that is being read: open where the last read ended.
#[derive(Drop)]
pub(crate) struct Reader {
    open: Option<usize>,
    collection: u32,
    path: Trail,
    at: u64,
}

impl Reader {
    pub(crate) fn new(alloc: Global) -> Result<Reader, AllocError> {
        Ok(Reader {
            open: None,
            collection: 0,
            path: Trail::new(alloc)?,
            at: 0,
        })
    }

    /// Closes the file.
    pub(crate) fn close<F: Folders>(&mut self, folders: &mut F) {
        if let Some(number) = self.open.take() {
            folders.close(number);
        }
    }

    // The file, where it is of this path and the last read ended at this place.
    fn number(&self, home: &Home, path: &Path, at: u64) -> Option<usize> {
        let is_next = at != 0 && at == self.at && home.number == self.collection;
        if is_next && self.path.is(path.as_slice()) {
            self.open
        } else {
            None
        }
    }
}

/// The stat of what a look found.
pub(crate) fn stat_of(found: &Sight) -> Stat
    ensures { IsBounded result }
{
    match found.kind {
        SightKind::File => stat_at(Kind::File, found.size, moment_of(found.seconds)),
        _ => stat_at(Kind::Folder, 0, Moment::zero()),
    }
}

fn stat_at(kind: Kind, size: u64, mtime: Moment) -> Stat
    ensures { IsBounded result }
{
    // For the proof: a moment is a number of 64 bits.
    let _seconds = mtime.seconds();
    Stat { kind, size, mtime }
}

// The moment of a time of the system. A time out of range is told as the end of the range that is closer.
fn moment_of(seconds: i64) -> Moment {
    let seconds = u64::try_from(seconds).unwrap_or(0);
    match Moment::of(seconds.min(LAST)) {
        Some(moment) => moment,
        None => Moment::zero(),
    }
}

impl<F: Folders + Drop> Trees<F> {
    pub(crate) fn stat(&mut self, home: &mut Home, path: &Path) -> Result<Stat, Trouble>
        ensures { IfOk result (λ stat. IsBounded stat) }
    {
        match place_of(path)? {
            Some(place) => {
                let found = self.look(home, place)?;
                Ok(stat_of(&found))
            }
            None => {
                let folder = self.open_folder(home, &[])?;
                self.folders.close(folder);
                Ok(stat_at(Kind::Folder, 0, Moment::zero()))
            }
        }
    }

    pub(crate) fn read(
        &mut self,
        home: &mut Home,
        path: &Path,
        at: u64,
        into: &mut [u8],
    ) -> Result<usize, Trouble>
        ensures { IfOk result (λ n. (n ≤ length into.old) × (n < 2 ^ 64)) }
    {
        let number = match self.reader.number(home, path, at) {
            Some(number) => number,
            None => self.open_reader(home, path)?,
        };
        match read_full(&mut self.folders, number, at, into) {
            Ok(n) => {
                self.reader.at = at.saturating_add(n as u64);
                Ok(n)
            }
            Err(error) => {
                self.reader.close(&mut self.folders);
                Err(Trouble::from(error))
            }
        }
    }

    // Opens the file of this path, and keeps it open.
    fn open_reader(&mut self, home: &mut Home, path: &Path) -> Result<usize, Trouble> {
        self.reader.close(&mut self.folders);
        let Some(place) = place_of(path)? else {
            return Err(self.refusal_at_home(home));
        };
        let number = self.open_file(home, place)?;
        self.reader.open = Some(number);
        self.reader.collection = home.number;
        self.reader.path.set(path.as_slice());
        Ok(number)
    }

    fn open_file(&mut self, home: &mut Home, place: Place<'_>) -> Result<usize, Trouble> {
        let folder = self.open_folder(home, place.above)?;
        let opened = self.folders.open_file(folder, EntryName::Plain(place.name));
        self.folders.close(folder);
        match opened {
            Ok(number) => Ok(number),
            Err(error) if is_code(&error, libc::EISDIR) => Err(Trouble::WrongKind),
            Err(error) => Err(Trouble::from(error)),
        }
    }
}

// As many bytes as there are, and at most the length of `into`. One call of the system mostly gives them all.
fn read_full<F: Folders>(
    folders: &mut F,
    number: usize,
    at: u64,
    into: &mut [u8],
) -> io::Result<usize>
    ensures { IfOk result (λ n. (n ≤ length into.old) × (n < 2 ^ 64)) }
{
    let mut have = 0;
    while have < into.len() {
        let place = at.saturating_add(have as u64);
        match folders.read(number, place, &mut into[have..])? {
            0 => break,
            more => have += more,
        }
    }
    Ok(have)
}
