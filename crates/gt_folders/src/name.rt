use gt_paths::Name;
use std::io::{self, Cursor, ErrorKind, Write};
use std::{fmt, str};

/// The name of an entry of a folder: a name, or that of the staging file of a key. None has a slash in it or is `..`.
#[derive(Clone, Copy)]
pub enum EntryName<'a> {
    Plain(&'a Name),
    Staging(u64),
}

impl fmt::Display for EntryName<'_> {
    fn fmt<W: fmt::Write>(&self, f: &mut fmt::Formatter<W>) -> fmt::Result {
        match self {
            EntryName::Plain(name) => f.write_str(name.as_str()),
            EntryName::Staging(key) => write!(f, ".gtstage-{key}"),
        }
    }
}

// The longest path that is written here: a name of 255 bytes behind that of an open folder.
const ROOM: usize = 320;

/// A name, or a path with one, as the system takes it.
#[derive(Drop)]
pub(crate) struct Text {
    bytes: [u8; ROOM],
    length: usize,
}

impl Text {
    pub(crate) fn as_bytes(&self) -> &[u8] {
        &self.bytes[..self.length.min(ROOM)]
    }

    pub(crate) fn as_str(&self) -> io::Result<&str> {
        match str::from_utf8(self.as_bytes()) {
            Ok(text) => Ok(text),
            Err(_) => Err(ErrorKind::InvalidFilename.into()),
        }
    }

    fn of(line: Cursor<[u8; ROOM]>) -> Text {
        let length = line.position() as usize;
        Text {
            bytes: line.into_inner(),
            length,
        }
    }
}

/// The name alone.
pub(crate) fn name_text(name: EntryName<'_>) -> io::Result<Text> {
    let mut line = Cursor::new([0u8; ROOM]);
    match write!(line, "{name}") {
        Ok(()) => Ok(Text::of(line)),
        Err(_) => Err(ErrorKind::InvalidFilename.into()),
    }
}

/// A path of the name in an open folder, for calls of the system that take no open folder. It needs `/proc`.
pub(crate) fn path_text(folder: i32, name: EntryName<'_>) -> io::Result<Text> {
    let mut line = Cursor::new([0u8; ROOM]);
    match write!(line, "/proc/self/fd/{folder}/{name}") {
        Ok(()) => Ok(Text::of(line)),
        Err(_) => Err(ErrorKind::InvalidFilename.into()),
    }
}

/// The path of what is open itself.
pub(crate) fn open_text(number: i32) -> io::Result<Text> {
    let mut line = Cursor::new([0u8; ROOM]);
    match write!(line, "/proc/self/fd/{number}") {
        Ok(()) => Ok(Text::of(line)),
        Err(_) => Err(ErrorKind::InvalidFilename.into()),
    }
}
