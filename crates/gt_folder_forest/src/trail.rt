use gt_paths::Name;
use std::alloc::{AllocError, Global};

// The most bytes that the names of a path take, each with a slash behind it.
const ROOM: usize = 4_096;

/// A path that is remembered in room that was taken before: how many folders lead to its end, that of the collection
/// among them, and their names, each with a slash behind it. Where no folder is counted it is none.
#[derive(Drop)]
pub(crate) struct Trail {
    folders: usize,
    names: Vec<u8>,
}

/// How far a path goes along a trail: so many folders, and so many bytes of the trail behind them.
#[derive(Clone, Copy)]
pub(crate) struct Shared {
    pub(crate) folders: usize,
    left: usize,
}

impl Trail {
    pub(crate) fn new(alloc: Global) -> Result<Trail, AllocError> {
        Ok(Trail {
            folders: 0,
            names: Vec::with_capacity(alloc, ROOM)?,
        })
    }

    /// How far the path goes along it.
    pub(crate) fn shared(&self, names: &[Name]) -> Shared {
        let mut rest = self.names.as_slice();
        if self.folders == 0 {
            return Shared {
                folders: 0,
                left: rest.len(),
            };
        }
        for i in 0..names.len() {
            match behind(rest, &names[i]) {
                Some(tail) => rest = tail,
                None => {
                    return Shared {
                        folders: i + 1,
                        left: rest.len(),
                    };
                }
            }
        }
        Shared {
            folders: names.len().saturating_add(1),
            left: rest.len(),
        }
    }

    /// Whether it is the trail of this path.
    pub(crate) fn is(&self, names: &[Name]) -> bool {
        let shared = self.shared(names);
        shared.folders == names.len().saturating_add(1) && shared.left == 0
    }

    /// Keeps so much of it.
    pub(crate) fn cut(&mut self, shared: Shared) {
        let length = self.names.len().saturating_sub(shared.left);
        self.names.truncate(length);
        self.folders = shared.folders;
    }

    /// Makes it the trail of the collection's own folder.
    pub(crate) fn start(&mut self) {
        self.names.clear();
        self.folders = 1;
    }

    /// Goes on to a folder in the last one. One that leads nowhere stays so.
    pub(crate) fn push(&mut self, name: &Name) {
        if self.folders == 0 {
            return;
        }
        match self.push_name(name) {
            Ok(()) => self.folders = self.folders.saturating_add(1),
            Err(_) => self.forget(),
        }
    }

    fn push_name(&mut self, name: &Name) -> Result<(), AllocError> {
        self.names.extend_from_slice(name.as_str().as_bytes())?;
        self.names.extend_from_slice(b"/")
    }

    /// Makes it the trail of this path.
    pub(crate) fn set(&mut self, names: &[Name]) {
        self.start();
        for name in names {
            self.push(name);
        }
    }

    /// Makes it none.
    pub(crate) fn forget(&mut self) {
        self.folders = 0;
        self.names.clear();
    }
}

// What stands behind a name and its slash, where the bytes begin with these.
fn behind<'a>(bytes: &'a [u8], name: &Name) -> Option<&'a [u8]> {
    let text = name.as_str().as_bytes();
    let rest = bytes.strip_prefix(text)?;
    rest.strip_prefix(b"/".as_slice())
}
