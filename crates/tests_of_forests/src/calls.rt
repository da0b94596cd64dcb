// Tables of calls of a forest: which call is answered otherwise than its line says.
ghost use Rattle.std.specs.Prelude.{◌<◌, ◌≡◌};

use gt_folder_forest::DirForest;
use gt_folders::Folders;
use gt_forest::{Forest, TreeFault};
use gt_paths::{Name, Path};
use gt_types::{Entry, Kind, Stat};
use gt_values::Moment;
use std::alloc::Global;

/// A call, but for its path.
#[derive(Clone, Copy)]
pub(crate) enum Call {
    Stat,
    /// So many at most.
    List(u32),
    /// So many of the collection's own folder, behind the name of the path.
    Behind(u32),
    /// Four bytes from a place on.
    Read(u64),
    Make,
    RemoveFile,
    RemoveDir,
    /// Of a staging file, by its key.
    Open(u64),
    Append(u64, &'static [u8]),
    /// With the seconds of its time.
    Place(u64, u64),
    Discard(u64),
    /// A staging file of these bytes, placed.
    Put(&'static [u8]),
    /// The leftovers of all collections.
    Clear,
}

/// What a call has to answer.
#[derive(Clone, Copy)]
pub(crate) enum Told {
    Done,
    Folder,
    /// A file of so many bytes.
    File(u64),
    /// What was last written at this second.
    Time(u64),
    Bytes(&'static [u8]),
    Names(&'static [&'static str]),
    /// Names without this one.
    Without(&'static str),
    /// So many leftovers are removed, and so many are in use.
    Cleared(u64, u64),
    Fault(TreeFault),
}

/// A line of a table: a path, a call, and what it has to answer.
pub(crate) type Line = (&'static str, Call, Told);

pub(crate) const ABSENT: Told = Told::Fault(TreeFault::NotFound);

pub(crate) const DENIED: Told = Told::Fault(TreeFault::Denied);

pub(crate) const FAULT: Told = Told::Fault(TreeFault::Fault);

fn is_fault(fault: TreeFault, told: Told) -> bool {
    match told {
        Told::Fault(expected) => fault == expected,
        _ => false,
    }
}

fn is_done(answer: Result<(), TreeFault>, told: Told) -> bool {
    match answer {
        Ok(()) => matches!(told, Told::Done),
        Err(fault) => is_fault(fault, told),
    }
}

fn is_stat(answer: Result<Stat, TreeFault>, told: Told) -> bool {
    match answer {
        Ok(stat) => match told {
            Told::Folder => stat.kind == Kind::Folder,
            Told::File(size) => stat.kind == Kind::File && stat.size == size,
            Told::Time(seconds) => stat.mtime.seconds() == seconds,
            _ => false,
        },
        Err(fault) => is_fault(fault, told),
    }
}

fn are_names(entries: &[Entry], names: &[&str]) -> bool {
    if entries.len() != names.len() {
        return false;
    }
    for i in 0..entries.len() {
        if entries[i].name.as_str() != names[i] {
            return false;
        }
    }
    true
}

fn has_name(entries: &[Entry], name: &str) -> bool {
    for entry in entries {
        if entry.name.as_str() == name {
            return true;
        }
    }
    false
}

fn is_listing(entries: &[Entry], told: Told) -> bool {
    match told {
        Told::Names(names) => are_names(entries, names),
        Told::Without(name) => !has_name(entries, name),
        _ => false,
    }
}

fn is_listed<F: Folders + Drop>(
    alloc: Global,
    forest: &mut DirForest<F>,
    path: &Path,
    after: Option<&Name>,
    limit: u32,
    told: Told,
) -> bool
    requires { 1 < forest.old.collections }
    ensures { forest.new.collections ≡ forest.old.collections }
{
    match forest.list(alloc, 0, path, after, limit) {
        Ok(entries) => is_listing(&entries, told),
        Err(fault) => is_fault(fault, told),
    }
}

fn is_read<F: Folders + Drop>(forest: &mut DirForest<F>, path: &Path, at: u64, told: Told) -> bool
    requires { 1 < forest.old.collections }
    ensures { forest.new.collections ≡ forest.old.collections }
{
    let mut into = [0u8; 4];
    match forest.read(0, path, at, &mut into) {
        Ok(n) => match told {
            Told::Bytes(bytes) => &into[..n] == bytes,
            _ => false,
        },
        Err(fault) => is_fault(fault, told),
    }
}

fn is_cleared<F: Folders + Drop>(alloc: Global, forest: &mut DirForest<F>, told: Told) -> bool
    ensures { forest.new.collections ≡ forest.old.collections }
{
    match forest.clear_staging(alloc) {
        Ok(cleared) => match told {
            Told::Cleared(removed, in_use) => {
                cleared.removed == removed && cleared.in_use == in_use
            }
            _ => false,
        },
        Err(fault) => is_fault(fault, told),
    }
}

fn put<F: Folders + Drop>(
    alloc: Global,
    forest: &mut DirForest<F>,
    path: &Path,
    bytes: &[u8],
) -> Result<(), TreeFault>
    requires { 1 < forest.old.collections }
    ensures { forest.new.collections ≡ forest.old.collections }
{
    forest.stage_open(alloc, 0, 1)?;
    forest.stage_append(alloc, 0, 1, bytes)?;
    forest.stage_place(alloc, 0, 1, path, Moment::zero())
}

// A call that changes something; others are passed over.
fn change<F: Folders + Drop>(
    alloc: Global,
    forest: &mut DirForest<F>,
    path: &Path,
    call: Call,
) -> Result<(), TreeFault>
    requires { 1 < forest.old.collections }
    ensures { forest.new.collections ≡ forest.old.collections }
{
    match call {
        Call::Make => forest.make_dir(alloc, 0, path),
        Call::RemoveFile => forest.remove_file(0, path),
        Call::RemoveDir => forest.remove_dir(0, path),
        Call::Open(key) => forest.stage_open(alloc, 0, key),
        Call::Append(key, bytes) => forest.stage_append(alloc, 0, key, bytes),
        Call::Place(key, seconds) => {
            let mtime = Moment::of(seconds).unwrap_or(Moment::zero());
            forest.stage_place(alloc, 0, key, path, mtime)
        }
        Call::Discard(key) => forest.stage_drop(0, key),
        Call::Put(bytes) => put(alloc, forest, path, bytes),
        _ => Ok(()),
    }
}

fn is_met_at<F: Folders + Drop>(
    alloc: Global,
    forest: &mut DirForest<F>,
    path: &Path,
    call: Call,
    told: Told,
) -> bool
    requires { 1 < forest.old.collections }
    ensures { forest.new.collections ≡ forest.old.collections }
{
    match call {
        Call::Stat => is_stat(forest.stat(0, path), told),
        Call::List(limit) => is_listed(alloc, forest, path, None, limit, told),
        Call::Behind(limit) => {
            let name = path.as_slice().last();
            is_listed(alloc, forest, &Path::root(alloc), name, limit, told)
        }
        Call::Read(at) => is_read(forest, path, at, told),
        Call::Clear => is_cleared(alloc, forest, told),
        _ => is_done(change(alloc, forest, path, call), told),
    }
}

/// The path of these texts, one behind the other.
pub(crate) fn path_of(alloc: Global, above: &str, path: &str) -> Option<Path> {
    let Ok(text) = format!(in alloc; "{above}{path}") else {
        return None;
    };
    Path::read(alloc, &text, &Path::root(alloc)).ok()
}

/// Whether a call of the first collection is answered as its line says.
pub(crate) fn is_met<F: Folders + Drop>(
    alloc: Global,
    forest: &mut DirForest<F>,
    above: &str,
    line: &Line,
) -> bool
    requires { 1 < forest.old.collections }
    ensures { forest.new.collections ≡ forest.old.collections }
{
    let (path, call, told) = *line;
    match path_of(alloc, above, path) {
        Some(path) => is_met_at(alloc, forest, &path, call, told),
        None => false,
    }
}

/// The first line that is answered otherwise, where each path has this text before it.
pub(crate) fn first_wrong<F: Folders + Drop>(
    alloc: Global,
    forest: &mut DirForest<F>,
    above: &str,
    lines: &[Line],
) -> Option<usize>
    requires { 1 < forest.old.collections }
    ensures { forest.new.collections ≡ forest.old.collections }
{
    for i in 0..lines.len() {
        if !is_met(alloc, forest, above, &lines[i]) {
            return Some(i);
        }
    }
    None
}
