// The folders of a tree in memory, each with its entries in the order of their names.
ghost use Rattle.std.specs.Option.{option_copied, option_map};
ghost use Rattle.std.specs.Prelude.{◌≡◌, ◌==◌, [], IsSome, None, OnErr, OnOk, Some, length};
ghost use Rattle.gt_forest.specs.Rows.{PutsEntry, PutsFolder, SameFolders, contents_of, entry_at, folder_rows};

use crate::node::Node;
use gt_paths::Name;
use std::alloc::{AllocError, Global};
use std::collections::BTreeMap;

/// The entries of a folder.
pub(crate) type Contents = BTreeMap<Name, Node>;

/// The entries of each folder, by the names of its path from the root.
pub(crate) type Folders = BTreeMap<Vec<Name>, Contents>;

/// The entries of the folder of this path, if it is there.
pub(crate) fn contents<'a>(folders: &'a Folders, path: &[Name]) -> Option<&'a Contents>
    ensures { option_map (λ contents. contents.now.entries) result
        ≡ contents_of (folder_rows folders.now) path.now }
{
    folders.get(path)
}

/// What has this name in the folder of this path.
pub(crate) fn entry<'a>(folders: &'a Folders, path: &[Name], name: &Name) -> Option<&'a Node>
    ensures { option_copied result ≡ entry_at (folder_rows folders.now) path.now name.now }
{
    match contents(folders, path) {
        Some(contents) => contents.get(name),
        None => None,
    }
}

/// Whether the folder of this path has no entry, if it is there.
pub(crate) fn is_empty(folders: &Folders, path: &[Name]) -> Option<bool>
    ensures { result ≡ option_map (λ entries. length entries == 0)
        (contents_of (folder_rows folders.now) path.now) }
{
    match contents(folders, path) {
        Some(contents) => Some(contents.is_empty()),
        None => None,
    }
}

/// Puts this under the name into a folder that is there, in place of what has the name.
pub(crate) fn put_entry(
    folders: &mut Folders,
    path: &[Name],
    name: Name,
    node: Node,
) -> Result<(), AllocError>
    requires { IsSome (contents_of (folder_rows folders.old) path.now) }
    ensures ok { OnOk result (PutsEntry path.now name (Some node) (folder_rows folders.old)
        (folder_rows folders.new)) }
    ensures err { OnErr result (SameFolders (folder_rows folders.old) (folder_rows folders.new)) }
{
    if let Some(contents) = folders.get_mut(path) {
        contents.insert(name, node)?;
    }
    Ok(())
}

/// Puts this under a name that is there, in place of what has it. Takes no memory.
pub(crate) fn set_entry(folders: &mut Folders, path: &[Name], name: &Name, node: Node)
    requires { IsSome (entry_at (folder_rows folders.old) path.now name.now) }
    ensures { PutsEntry path.now name.now (Some node) (folder_rows folders.old)
        (folder_rows folders.new) }
{
    if let Some(contents) = folders.get_mut(path) {
        if let Some(place) = contents.get_mut(name) {
            *place = node;
        }
    }
}

/// Takes what has this name out of a folder.
pub(crate) fn take_entry(folders: &mut Folders, path: &[Name], name: &Name)
    requires { IsSome (contents_of (folder_rows folders.old) path.now) }
    ensures { PutsEntry path.now name.now None (folder_rows folders.old) (folder_rows folders.new) }
{
    if let Some(contents) = folders.get_mut(path) {
        contents.remove(name);
    }
}

/// A folder without entries.
pub(crate) fn put_folder(
    alloc: Global,
    folders: &mut Folders,
    path: Vec<Name>,
) -> Result<(), AllocError>
    ensures ok { OnOk result (PutsFolder path.items (Some []) (folder_rows folders.old)
        (folder_rows folders.new)) }
    ensures err { OnErr result (folder_rows folders.new ≡ folder_rows folders.old) }
{
    folders.insert(path, BTreeMap::new(alloc))?;
    Ok(())
}

/// Takes a folder and its entries away.
pub(crate) fn take_folder(folders: &mut Folders, path: &[Name])
    ensures { PutsFolder path.now None (folder_rows folders.old) (folder_rows folders.new) }
{
    folders.remove(path);
}
