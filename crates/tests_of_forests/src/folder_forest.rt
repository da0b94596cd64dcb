// The forest over real folders: the suite, links, leftovers, pages, deep paths, and a link that comes and goes.
ghost use Rattle.std.specs.Prelude.{◌<◌, ◌≡◌};

use crate::calls::{ABSENT, Call, FAULT, Line, Told, path_of};
use crate::parts::{Over, Part, Side, forest_at, tried};
use crate::things::{COLLECTIONS, Thing, at, first_missing, folder_for};
use gt_folder_forest::DirForest;
use gt_folders::SystemFolders;
use gt_forest::{Forest, TreeFault};
use gt_paths::Path;
use std::alloc::{AllocError, Global};
use std::fs;
use std::os::unix::fs::symlink;
use std::test::Fail;
use std::thread::{Threads, join};

const SUITES: [Part; 5] = [
    Part::Things(&COLLECTIONS),
    Part::Suite,
    Part::Suite,
    Part::Suite,
    Part::Counted(3 * 98),
];

// Over strict folders: what is told of a name is told only where its folder lasts.
#[test]
fn suite_over_folders(rt: HostRuntime) -> Result<(), Fail> {
    assert_eq!(rt; tried(&rt, "suite", Over::System, &SUITES)?, (None, 0));
    assert_eq!(rt; tried(&rt, "suite", Over::Strict(0), &SUITES)?, (None, 0));
    Ok(())
}

const OUTSIDE: [(&str, Thing); 3] = [
    ("/a", Thing::Folder),
    ("/../outside", Thing::Folder),
    ("/../outside/name", Thing::File(b"secret")),
];

const TO_A_FILE: [(&str, Thing); 2] = [
    ("/link", Thing::LinkTo("/../outside/name")),
    ("/a/link", Thing::LinkTo("/../outside/name")),
];

const TO_A_FOLDER: [(&str, Thing); 2] = [
    ("/link", Thing::LinkTo("/../outside")),
    ("/a/link", Thing::LinkTo("/../outside")),
];

const TO_NOTHING: [(&str, Thing); 2] = [
    ("/link", Thing::Link("missing")),
    ("/a/link", Thing::Link("missing")),
];

const TO_ITSELF: [(&str, Thing); 2] = [
    ("/link", Thing::Link("link")),
    ("/a/link", Thing::Link("link")),
];

const TO_THE_ROOT: [(&str, Thing); 2] = [
    ("/link", Thing::Link("/")),
    ("/a/link", Thing::Link("/")),
];

// No call finds anything at a link, nor below it.
const AT_A_LINK: [Line; 13] = [
    ("", Call::Stat, ABSENT),
    ("", Call::List(9), ABSENT),
    ("", Call::Read(0), ABSENT),
    ("", Call::RemoveFile, ABSENT),
    ("", Call::RemoveDir, ABSENT),
    ("", Call::Make, Told::Fault(TreeFault::WrongKind)),
    ("/name", Call::Stat, ABSENT),
    ("/name", Call::List(9), ABSENT),
    ("/name", Call::Read(0), ABSENT),
    ("/name", Call::RemoveFile, ABSENT),
    ("/name", Call::RemoveDir, ABSENT),
    ("/name", Call::Make, ABSENT),
    ("/name", Call::Put(b"x"), ABSENT),
];

// A folder with a link isn't empty. A file takes the place of a link.
const OVER_LINKS: [Line; 6] = [
    ("/a", Call::List(9), Told::Names(&[])),
    ("/a", Call::RemoveDir, Told::Fault(TreeFault::NotEmpty)),
    ("/a/link", Call::Put(b"mine"), Told::Done),
    ("/a/link", Call::RemoveFile, Told::Done),
    ("/link", Call::Put(b"mine"), Told::Done),
    ("/link", Call::RemoveFile, Told::Done),
];

// What a link named is as it was, or still isn't there.
const UNTOUCHED: [(&str, Thing); 3] = [
    ("/../outside/name", Thing::Found(b"secret")),
    ("/missing", Thing::Missing),
    ("/a/missing", Thing::Missing),
];

const LINKS: [Part; 23] = [
    Part::Things(&COLLECTIONS),
    Part::Things(&OUTSIDE),
    Part::Things(&TO_A_FILE),
    Part::Calls("/link", &AT_A_LINK),
    Part::Calls("/a/link", &AT_A_LINK),
    Part::Calls("", &OVER_LINKS),
    Part::Things(&TO_A_FOLDER),
    Part::Calls("/link", &AT_A_LINK),
    Part::Calls("/a/link", &AT_A_LINK),
    Part::Calls("", &OVER_LINKS),
    Part::Things(&TO_NOTHING),
    Part::Calls("/link", &AT_A_LINK),
    Part::Calls("/a/link", &AT_A_LINK),
    Part::Calls("", &OVER_LINKS),
    Part::Things(&TO_ITSELF),
    Part::Calls("/link", &AT_A_LINK),
    Part::Calls("/a/link", &AT_A_LINK),
    Part::Calls("", &OVER_LINKS),
    Part::Things(&TO_THE_ROOT),
    Part::Calls("/link", &AT_A_LINK),
    Part::Calls("/a/link", &AT_A_LINK),
    Part::Calls("", &OVER_LINKS),
    Part::Things(&UNTOUCHED),
];

#[test]
fn no_link_leads_out(rt: HostRuntime) -> Result<(), Fail> {
    assert_eq!(rt; tried(&rt, "links", Over::System, &LINKS)?, (None, 0));
    Ok(())
}

const LEFT: [(&str, Thing); 5] = [
    ("/.gtstage-8", Thing::File(b"left")),
    ("/.gtstage-08", Thing::File(b"left")),
    ("/.gtstage-x", Thing::File(b"kept")),
    ("/.gtstage-9", Thing::Folder),
    ("/.gtstage-10", Thing::Link(".gtstage-8")),
];

// What another forest has open is in use until it is gone.
const BESIDE: [(Side, Line); 7] = [
    (Side::Other, ("/", Call::Open(7), Told::Done)),
    (Side::Own, ("/", Call::Open(7), FAULT)),
    (Side::Own, ("/", Call::Clear, Told::Cleared(2, 1))),
    (Side::Other, ("/", Call::Append(7, b"whole"), Told::Done)),
    (Side::Other, ("/f", Call::Place(7, 0), Told::Done)),
    (Side::Own, ("/f", Call::Stat, Told::File(5))),
    (Side::Other, ("/", Call::Open(7), Told::Done)),
];

const ALONE: [Line; 4] = [
    ("/", Call::Clear, Told::Cleared(1, 0)),
    ("/", Call::Open(7), Told::Done),
    ("/", Call::Discard(7), Told::Done),
    ("/", Call::Discard(7), ABSENT),
];

const LEFTOVERS: [Part; 4] = [
    Part::Things(&COLLECTIONS),
    Part::Things(&LEFT),
    Part::Beside(&BESIDE),
    Part::Calls("", &ALONE),
];

#[test]
fn leftovers_are_cleared(rt: HostRuntime) -> Result<(), Fail> {
    assert_eq!(rt;
        tried(&rt, "leftovers", Over::System, &LEFTOVERS)?,
        (None, 1)
    );
    Ok(())
}

const NAMES: [(&str, Thing); 6] = [
    ("/e", Thing::Folder),
    ("/b", Thing::Folder),
    ("/d", Thing::Folder),
    ("/a", Thing::Folder),
    ("/c", Thing::Folder),
    ("/bb", Thing::Link("a")),
];

// Pages of two names, the second time with a folder that is made after the first page.
const PAGES: [Line; 9] = [
    ("/", Call::List(2), Told::Names(&["a", "b"])),
    ("/b", Call::Behind(2), Told::Names(&["c", "d"])),
    ("/d", Call::Behind(2), Told::Names(&["e"])),
    ("/e", Call::Behind(2), Told::Names(&[])),
    ("/", Call::List(2), Told::Names(&["a", "b"])),
    ("/bc", Call::Make, Told::Done),
    ("/b", Call::Behind(2), Told::Names(&["bc", "c"])),
    ("/c", Call::Behind(2), Told::Names(&["d", "e"])),
    ("/e", Call::Behind(2), Told::Names(&[])),
];

// Reads that go on, and a file that takes the place of another between two of them.
const READS: [Line; 6] = [
    ("/a/f", Call::Put(b"0123456789"), Told::Done),
    ("/a/f", Call::Read(0), Told::Bytes(b"0123")),
    ("/a/f", Call::Read(4), Told::Bytes(b"4567")),
    ("/a/f", Call::Put(b"abcdefghijkl"), Told::Done),
    ("/a/f", Call::Read(8), Told::Bytes(b"ijkl")),
    ("/a/f", Call::Read(12), Told::Bytes(b"")),
];

const GOING_ON: [Part; 4] = [
    Part::Things(&COLLECTIONS),
    Part::Things(&NAMES),
    Part::Calls("", &PAGES),
    Part::Calls("", &READS),
];

#[test]
fn pages_and_reads_go_on(rt: HostRuntime) -> Result<(), Fail> {
    assert_eq!(rt; tried(&rt, "pages", Over::System, &GOING_ON)?, (None, 0));
    Ok(())
}

// The folder of the first collection is a link.
const BEHIND_A_LINK: [(&str, Thing); 2] = [("", Thing::Removed), ("", Thing::Link("aside"))];

const DEEP_AND_MANY: [Part; 8] = [
    Part::Things(&COLLECTIONS),
    Part::Things(&BEHIND_A_LINK),
    Part::Deeper(Call::Make, Told::Done),
    Part::Deeper(Call::Stat, Told::Folder),
    Part::Higher(Call::RemoveDir, Told::Done),
    Part::Stages(Call::Open(0)),
    Part::Stages(Call::Append(0, b"x")),
    Part::Stages(Call::Discard(0)),
];

#[test]
fn deepest_path_and_many_stages(rt: HostRuntime) -> Result<(), Fail> {
    assert_eq!(rt;
        tried(&rt, "deep", Over::System, &DEEP_AND_MANY)?,
        (None, 0)
    );
    Ok(())
}

// Exchanges a file and a link to what lies outside, 20,000 times in all.
fn exchange(rt: &HostRuntime, at: &str, target: &str) -> bool {
    for _ in 0..10_000 {
        if fs::remove_file(rt, at).is_err()
            || symlink(rt, target, at).is_err()
            || fs::remove_file(rt, at).is_err()
            || fs::write(rt, at, b"mine").is_err()
        {
            return false;
        }
    }
    true
}

fn is_exchanged(rt: &HostRuntime, root: &str) -> Result<bool, AllocError> {
    let file = at(rt, root, "/file")?;
    let secret = at(rt, root, "/../secret")?;
    Ok(exchange(rt, &file, &secret))
}

/// What a read found.
#[derive(Clone, Copy)]
enum Seen {
    Nothing,
    Mine,
    Another,
}

fn read_once(forest: &mut DirForest<SystemFolders>, path: &Path) -> Seen
    requires { 1 < forest.old.collections }
    ensures { forest.new.collections ≡ forest.old.collections }
{
    let mut into = [0u8; 8];
    match forest.read(0, path, 0, &mut into) {
        Ok(0) | Err(_) => Seen::Nothing,
        Ok(n) if &into[..n] == b"mine".as_slice() => Seen::Mine,
        Ok(_) => Seen::Another,
    }
}

// How often the file is read, and how often another one is.
fn read_over(forest: &mut DirForest<SystemFolders>, path: &Path) -> (u64, u64)
    requires { 1 < forest.old.collections }
{
    let mut mine: u64 = 0;
    let mut others: u64 = 0;
    for _ in 0..20_000 {
        match read_once(forest, path) {
            Seen::Nothing => {}
            Seen::Mine => mine = mine.saturating_add(1),
            Seen::Another => others = others.saturating_add(1),
        }
    }
    (mine, others)
}

fn read_file_over(alloc: Global, forest: &mut DirForest<SystemFolders>) -> (u64, u64)
    requires { 1 < forest.old.collections }
{
    match path_of(alloc, "", "/file") {
        Some(path) => read_over(forest, &path),
        None => (0, 0),
    }
}

const EXCHANGED: [(&str, Thing); 3] = [
    ("", Thing::Folder),
    ("/../secret", Thing::File(b"secret")),
    ("/file", Thing::File(b"mine")),
];

// Whether all exchanges were made, and what was read meanwhile.
fn race(
    threads: &impl Threads,
    rt: &HostRuntime,
    root: &str,
) -> Result<(bool, (u64, u64)), AllocError> {
    let mut forest = forest_at(rt, root)?;
    let (exchanged, read) = join(
        threads,
        || is_exchanged(rt, root),
        || read_file_over(rt.alloc(), &mut forest),
    );
    Ok((exchanged == Ok(true), read))
}

#[test]
fn exchanged_link_is_never_read(rt: HostRuntime) -> Result<(), Fail> {
    let root = folder_for(&rt, "exchange")?;
    assert_eq!(rt; first_missing(&rt, &root, &EXCHANGED), None);
    let (is_exchanged, (mine, others)) = race(&rt, &rt, &root)?;
    assert!(rt; is_exchanged && mine > 0);
    assert_eq!(rt; others, 0);
    fs::remove_dir_all(&rt, &root)?;
    Ok(())
}
