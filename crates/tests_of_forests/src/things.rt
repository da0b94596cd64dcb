// What the system makes in the folder of a test, and what it finds there.
use gt_folders::{EntryName, Folders, SystemFolders};
use gt_paths::Name;
use std::alloc::{AllocError, Global};
use std::os::unix::fs::{MetadataExt, symlink};
use std::test::Fail;
use std::{env, fs, io, process};

const FIRST: &str = "00000001-0002-8000-8000-000000000001";

/// A thing that the system makes at a path, or finds there.
#[derive(Clone, Copy)]
pub(crate) enum Thing {
    Folder,
    File(&'static [u8]),
    /// A link to this text.
    Link(&'static str),
    /// A link to the whole of this path.
    LinkTo(&'static str),
    /// A folder of this name in it, which needn't be UTF-8.
    Named(&'static [u8]),
    /// A file of this name in it that was last written at this time, in seconds since 1970.
    Dated(&'static str, i64),
    /// Who may use it.
    Mode(u32),
    /// It is an empty folder, and is removed.
    Removed,
    /// It is a file of these bytes.
    Found(&'static [u8]),
    Missing,
}

/// The folders of two collections. What the second one has is in another folder, to which a link leads.
pub(crate) const COLLECTIONS: [(&str, Thing); 3] = [
    ("", Thing::Folder),
    ("/../aside", Thing::Folder),
    (
        "/../00000001-0002-8000-8000-000000000002",
        Thing::Link("aside"),
    ),
];

/// A new folder for a test of this process.
pub(crate) fn folder_for(rt: &HostRuntime, test: &str) -> Result<String, Fail> {
    let folder = env::temp_dir(rt)?;
    let folder = folder.as_str();
    let number = process::id(rt.process());
    let path = format!(in rt.alloc(); "{folder}/tests_of_forests-{number}-{test}")?;
    fs::create_dir(rt, &path)?;
    Ok(path)
}

/// A path below the folder of the first collection, as the system takes it.
pub(crate) fn at(rt: &HostRuntime, root: &str, path: &str) -> Result<String, AllocError> {
    format!(in rt.alloc(); "{root}/{FIRST}{path}")
}

fn is_linked_to(rt: &HostRuntime, root: &str, path: &str, to: &str) -> bool {
    match at(rt, root, to) {
        Ok(to) => symlink(rt, &to, path).is_ok(),
        Err(_) => false,
    }
}

fn is_named(alloc: Global, folder: &str, name: &[u8]) -> bool {
    match named(alloc, folder, name) {
        Ok(path) => os::mkdir(&path) == 0,
        Err(_) => false,
    }
}

fn named(alloc: Global, folder: &str, name: &[u8]) -> Result<Vec<u8>, AllocError> {
    let mut path = Vec::new(alloc);
    path.extend_from_slice(folder.as_bytes())?;
    path.push(b'/')?;
    path.extend_from_slice(name)?;
    Ok(path)
}

fn make_dated(rt: &HostRuntime, folder: &str, name: &Name, seconds: i64) -> io::Result<()> {
    let mut folders = SystemFolders::new(HostRuntime::clone(rt)?)?;
    let folder = folders.open_root(folder)?;
    let file = folders.make_file(folder, EntryName::Plain(name))?;
    folders.set_time(file, seconds)
}

fn is_dated(rt: &HostRuntime, folder: &str, name: &str, seconds: i64) -> bool {
    match Name::read(rt.alloc(), name) {
        Ok(name) => make_dated(rt, folder, &name, seconds).is_ok(),
        Err(_) => false,
    }
}

fn is_found(rt: &HostRuntime, path: &str, bytes: &[u8]) -> bool {
    match fs::read(rt, path) {
        Ok(found) => found.as_slice() == bytes,
        Err(_) => false,
    }
}

fn is_so(rt: &HostRuntime, root: &str, path: &str, thing: Thing) -> bool {
    match thing {
        Thing::Folder => fs::create_dir(rt, path).is_ok(),
        Thing::File(bytes) => fs::write(rt, path, bytes).is_ok(),
        Thing::Link(text) => symlink(rt, text, path).is_ok(),
        Thing::LinkTo(to) => is_linked_to(rt, root, path, to),
        Thing::Named(name) => is_named(rt.alloc(), path, name),
        Thing::Dated(name, seconds) => is_dated(rt, path, name, seconds),
        Thing::Mode(mode) => os::chmod(path.as_bytes(), mode) == 0,
        Thing::Removed => fs::remove_dir(rt, path).is_ok(),
        Thing::Found(bytes) => is_found(rt, path, bytes),
        Thing::Missing => fs::metadata(rt, path).is_err(),
    }
}

fn is_so_at(rt: &HostRuntime, root: &str, thing: &(&'static str, Thing)) -> bool {
    let (path, thing) = *thing;
    match at(rt, root, path) {
        Ok(path) => is_so(rt, root, &path, thing),
        Err(_) => false,
    }
}

/// The first thing that can't be made, or isn't found.
pub(crate) fn first_missing(
    rt: &HostRuntime,
    root: &str,
    things: &[(&'static str, Thing)],
) -> Option<usize> {
    for i in 0..things.len() {
        if !is_so_at(rt, root, &things[i]) {
            return Some(i);
        }
    }
    None
}

/// When the file of this path was last written, within the range of moments.
pub(crate) fn time_of(rt: &HostRuntime, root: &str, path: &str) -> Option<u64> {
    let Ok(path) = at(rt, root, path) else {
        return None;
    };
    match fs::metadata(rt, &path) {
        Ok(found) => Some(found.mtime().clamp(0, 253_402_300_799) as u64),
        Err(_) => None,
    }
}
