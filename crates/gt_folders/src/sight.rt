use std::fs::Metadata;
use std::os::unix::fs::MetadataExt;

/// What a look finds at a name.
#[derive(Clone, Copy, Debug, PartialEq, Eq)]
pub enum SightKind {
    File,
    Folder,
    /// A link, a device, a socket or a pipe.
    Other,
}

/// What a look finds: the kind, the size in bytes, the seconds since 1970 of its time, which may be before, and which one
/// it is.
#[derive(Clone, Copy, Debug, PartialEq, Eq)]
pub struct Sight {
    pub kind: SightKind,
    pub size: u64,
    pub seconds: i64,
    pub device: u64,
    pub inode: u64,
}

impl Sight {
    /// Whether both are of one entry of the system.
    pub fn is_same(&self, other: &Sight) -> bool {
        self.device == other.device && self.inode == other.inode
    }
}

/// What a look of the system found.
pub(crate) fn sight_of(found: &Metadata) -> Sight {
    Sight {
        kind: kind_of(found),
        size: found.len(),
        seconds: found.mtime(),
        device: found.dev(),
        inode: found.ino(),
    }
}

fn kind_of(found: &Metadata) -> SightKind {
    if found.is_file() {
        SightKind::File
    } else if found.is_dir() {
        SightKind::Folder
    } else {
        SightKind::Other
    }
}
