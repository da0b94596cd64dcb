// The forest over real folders: names and times that are none, folders that are missing or closed, and syncs that fail.
use crate::calls::{ABSENT, Call, DENIED, FAULT, Line, Told};
use crate::parts::{Over, Part, tried};
use crate::things::{COLLECTIONS, Thing};
use std::test::Fail;

const AT_A_DENIED_PATH: [Line; 7] = [
    ("", Call::Stat, DENIED),
    ("", Call::List(9), DENIED),
    ("", Call::Read(0), DENIED),
    ("", Call::Make, DENIED),
    ("", Call::RemoveFile, DENIED),
    ("", Call::RemoveDir, DENIED),
    ("", Call::Put(b"x"), DENIED),
];

// Names of staging files are denied.
const STAGING_NAMES: [Part; 4] = [
    Part::Things(&COLLECTIONS),
    Part::Calls("/.gtstage-1", &AT_A_DENIED_PATH),
    Part::Calls("/.gtstage-x/b", &AT_A_DENIED_PATH),
    Part::Calls("/a/.gtstage-", &AT_A_DENIED_PATH),
];

const NAMED: [(&str, Thing); 6] = [
    ("", Thing::Named(b"b")),
    ("", Thing::Named(b"\xff")),
    ("", Thing::Named(b"a\xc3")),
    ("", Thing::Named(b"~")),
    ("", Thing::Named(b".gtstage-a")),
    ("", Thing::Named(b"~a")),
];

const LISTED: [Line; 1] = [("/", Call::List(9), Told::Names(&["b", "~a"]))];

// A listing passes over what is no name.
const NO_NAMES: [Part; 3] = [
    Part::Things(&COLLECTIONS),
    Part::Things(&NAMED),
    Part::Calls("", &LISTED),
];

#[test]
fn names_that_are_none(rt: HostRuntime) -> Result<(), Fail> {
    assert_eq!(rt;
        tried(&rt, "denied", Over::System, &STAGING_NAMES)?,
        (None, 0)
    );
    assert_eq!(rt; tried(&rt, "names", Over::System, &NO_NAMES)?, (None, 0));
    Ok(())
}

const DATED: [(&str, Thing); 2] = [
    ("", Thing::Dated("early", -5)),
    ("", Thing::Dated("late", 300_000_000_000)),
];

const PLACED: [Line; 4] = [
    ("/early", Call::Stat, Told::Time(0)),
    ("/", Call::Open(3), Told::Done),
    ("/file", Call::Place(3, 1_000_000_000), Told::Done),
    ("/file", Call::Stat, Told::Time(1_000_000_000)),
];

// Times out of range are its ends, but some file systems keep an earlier one. A placed file has its time.
const TIMES: [Part; 5] = [
    Part::Things(&COLLECTIONS),
    Part::Things(&DATED),
    Part::Time("/late"),
    Part::Calls("", &PLACED),
    Part::Time("/file"),
];

#[test]
fn times_are_told_as_they_are_kept(rt: HostRuntime) -> Result<(), Fail> {
    assert_eq!(rt; tried(&rt, "times", Over::System, &TIMES)?, (None, 0));
    Ok(())
}

const GONE: [(&str, Thing); 1] = [("", Thing::Removed)];

const AT_A_MISSING_FOLDER: [Line; 8] = [
    ("/", Call::Stat, ABSENT),
    ("/", Call::List(9), ABSENT),
    ("/", Call::Read(0), ABSENT),
    ("/", Call::RemoveFile, ABSENT),
    ("/", Call::Make, ABSENT),
    ("/a", Call::Make, ABSENT),
    ("/", Call::Clear, Told::Cleared(0, 0)),
    ("/", Call::Open(1), FAULT),
];

const STILL_GONE: [(&str, Thing); 1] = [("", Thing::Missing)];

// The missing folder of a collection is not made.
const MISSING: [Part; 4] = [
    Part::Things(&COLLECTIONS),
    Part::Things(&GONE),
    Part::Calls("", &AT_A_MISSING_FOLDER),
    Part::Things(&STILL_GONE),
];

// The folder of the collection is that of devices.
const DEVICES: [(&str, Thing); 2] = [("", Thing::Removed), ("", Thing::Link("/dev"))];

const AT_A_DEVICE: [Line; 4] = [
    ("/null", Call::Stat, ABSENT),
    ("/null", Call::Read(0), ABSENT),
    ("/null", Call::List(9), ABSENT),
    ("/nulk", Call::Behind(1), Told::Without("null")),
];

// A device is as if absent.
const DEVICE: [Part; 3] = [
    Part::Things(&COLLECTIONS),
    Part::Things(&DEVICES),
    Part::Calls("", &AT_A_DEVICE),
];

#[test]
fn what_is_missing_and_what_is_no_file(rt: HostRuntime) -> Result<(), Fail> {
    assert_eq!(rt; tried(&rt, "missing", Over::System, &MISSING)?, (None, 1));
    assert_eq!(rt; tried(&rt, "device", Over::System, &DEVICE)?, (None, 0));
    Ok(())
}

const CLOSED: [(&str, Thing); 3] = [
    ("/a", Thing::Folder),
    ("/a/b", Thing::Folder),
    ("/a", Thing::Mode(0)),
];

const UNREADABLE: [(&str, Thing); 1] = [("/a", Thing::Mode(0o300))];

const OPENED: [(&str, Thing); 1] = [("/a", Thing::Mode(0o700))];

const PERMISSION: [Part; 6] = [
    Part::Things(&COLLECTIONS),
    Part::Things(&CLOSED),
    Part::Calls("/a/b", &AT_A_DENIED_PATH),
    Part::Things(&UNREADABLE),
    Part::Calls("/a/b", &AT_A_DENIED_PATH),
    Part::Things(&OPENED),
];

// As root each folder may be opened, so this shows nothing then.
#[test]
fn folder_without_permission_is_denied(rt: HostRuntime) -> Result<(), Fail> {
    if libc::geteuid() != 0 {
        assert_eq!(rt;
            tried(&rt, "permission", Over::System, &PERMISSION)?,
            (None, 0)
        );
    }
    Ok(())
}

const AGAIN: [Line; 2] = [("/file", Call::Stat, FAULT), ("/file", Call::Stat, ABSENT)];

// The first sync is of the folder of the collection.
const UNSYNCED: [Part; 2] = [Part::Things(&COLLECTIONS), Part::Calls("", &AGAIN)];

const UNSURE: [Line; 2] = [
    ("/file", Call::Put(b"mine"), FAULT),
    ("/file", Call::Stat, Told::File(4)),
];

// The third is of that folder again, after the file was placed.
const PLACED_UNSYNCED: [Part; 2] = [Part::Things(&COLLECTIONS), Part::Calls("", &UNSURE)];

const LOST: [Line; 6] = [
    ("/file", Call::Put(b"mine"), FAULT),
    ("/", Call::Append(1, b"more"), FAULT),
    ("/file", Call::Place(1, 0), FAULT),
    ("/file", Call::Stat, ABSENT),
    ("/file", Call::Put(b"mine"), Told::Done),
    ("/file", Call::Stat, Told::File(4)),
];

// The second is of the staging file, which is not placed then.
const STAGE_UNSYNCED: [Part; 2] = [Part::Things(&COLLECTIONS), Part::Calls("", &LOST)];

#[test]
fn syncs_that_fail(rt: HostRuntime) -> Result<(), Fail> {
    assert_eq!(rt;
        tried(&rt, "resync", Over::Strict(1), &UNSYNCED)?,
        (None, 1)
    );
    assert_eq!(rt;
        tried(&rt, "resync", Over::Strict(3), &PLACED_UNSYNCED)?,
        (None, 1)
    );
    assert_eq!(rt;
        tried(&rt, "lost", Over::Strict(2), &STAGE_UNSYNCED)?,
        (None, 3)
    );
    Ok(())
}
