use gt_paths::Path;

/// Which kind of thing an act takes; another kind at its path fails the item.
#[derive(Clone, Copy, Debug, PartialEq, Eq)]
pub enum Want {
    File,
    Folder,
    Either,
}

/// A side of a transfer. An act that only removes stands on the destination's side.
#[derive(Clone, Copy, Debug, PartialEq, Eq)]
pub enum Side {
    Source,
    Destination,
}

/// What one item does to the trees: it copies, erases, or removes a folder that has been emptied.
///
/// The collections are those of the item's task: `source` lies on its source collection, every other path on its
/// destination collection.
#[derive(Clone, Debug, PartialEq, Eq, Drop)]
pub enum Act {
    Transfer {
        source: Path,
        destination: Path,
        want: Want,
    },
    Erase {
        path: Path,
        want: Want,
    },
    RemoveFolder {
        path: Path,
    },
}
