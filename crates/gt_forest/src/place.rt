// Placing a staging file, and making and removing folders, of a tree in memory.
ghost use Rattle.std.specs.Option.{option_map};
ghost use Rattle.std.specs.Prelude.{◌≡◌, [], IfOk, IsSome, None, OnErr, OnOk, Some};
ghost use Rattle.gt_forest.specs.Rows.{ChangesFolder, PutsEntry, PutsStage, SameFolders, contents_of, folder_rows, stage_rows, staged_at};
ghost use Rattle.gt_paths.specs.Path.{child_path};
ghost use Rattle.gt_forest.specs.declared.node.Node.TheVariants.{File, Folder};

use crate::folders::{Folders, put_entry, put_folder, set_entry, take_entry, take_folder};
use crate::node::Node;
use crate::stages::{Stages, take_stage};
use gt_paths::Name;
use gt_values::{Bytes, Moment};
use std::alloc::{AllocError, Global};

/// Puts a file with the bytes of a staging file that is there into a folder that is there.
pub(crate) fn place_stage(
    alloc: Global,
    folders: &mut Folders,
    stages: &mut Stages,
    key: u64,
    path: &[Name],
    name: &Name,
    mtime: Moment,
) -> Result<(), AllocError>
    requires there { IsSome (contents_of (folder_rows folders.old) path.now) }
    requires staged { IsSome (staged_at (stage_rows stages.old) key) }
    ensures file { OnOk result (PutsEntry path.now name.now
        (option_map (λ bytes. File bytes mtime) (staged_at (stage_rows stages.old) key))
        (folder_rows folders.old) (folder_rows folders.new)) }
    ensures gone { OnOk result
        (PutsStage key None (stage_rows stages.old) (stage_rows stages.new)) }
    ensures err { OnErr result (SameFolders (folder_rows folders.old) (folder_rows folders.new)) }
    ensures kept { OnErr result (stage_rows stages.new ≡ stage_rows stages.old) }
{
    // All that can fail comes first: room for the name.
    let bytes = Bytes::from_vec(Vec::new(alloc));
    put_entry(
        folders,
        path,
        name.copy(alloc)?,
        Node::File { bytes, mtime },
    )?;
    if let Some(bytes) = take_stage(stages, key) {
        let bytes = Bytes::from_vec(bytes);
        set_entry(folders, path, name, Node::File { bytes, mtime });
    }
    Ok(())
}

/// The names, copied.
fn copied(alloc: Global, names: &[Name]) -> Result<Vec<Name>, AllocError>
    ensures { IfOk result (λ copy. copy.items ≡ names.now) }
{
    let mut copy = Vec::with_capacity(alloc, names.len())?;
    for name in names {
        copy.push(name.copy(alloc)?)?;
    }
    Ok(copy)
}

/// Makes a folder without entries in a folder that is there, where there is no folder yet. `names` are those of `path` and
/// `name`.
pub(crate) fn make_folder(
    alloc: Global,
    folders: &mut Folders,
    names: &[Name],
    path: &[Name],
    name: &Name,
) -> Result<(), AllocError>
    requires is { names.now ≡ child_path path.now name.now }
    requires there { IsSome (contents_of (folder_rows folders.old) path.now) }
    requires absent { contents_of (folder_rows folders.old) names.now ≡ None }
    ensures ok { OnOk result (ChangesFolder names.now (Some []) path.now name.now (Some (Folder 0))
        (folder_rows folders.old) (folder_rows folders.new)) }
    ensures err { OnErr result (SameFolders (folder_rows folders.old) (folder_rows folders.new)) }
{
    let name = name.copy(alloc)?;
    put_folder(alloc, folders, copied(alloc, names)?)?;
    let mtime = Moment::zero();
    match put_entry(folders, path, name, Node::Folder { mtime }) {
        Ok(()) => Ok(()),
        Err(fault) => {
            take_folder(folders, names);
            Err(fault)
        }
    }
}

/// Removes a folder that is there, with its entry in the folder `path`, which is there too. `names` are those of `path` and
/// `name`.
pub(crate) fn remove_folder(folders: &mut Folders, names: &[Name], path: &[Name], name: &Name)
    requires is { names.now ≡ child_path path.now name.now }
    requires there { IsSome (contents_of (folder_rows folders.old) path.now) }
    ensures { ChangesFolder names.now None path.now name.now None (folder_rows folders.old)
        (folder_rows folders.new) }
{
    take_folder(folders, names);
    take_entry(folders, path, name);
}
