use gt_paths::{Name, NameFault, Path, PathFault};
use std::alloc::{AllocError, Global};
use std::collections::BTreeMap;
use std::test::Fail;

// The text, so many times.
fn repeated(alloc: Global, text: &str, times: u32) -> Result<String, AllocError> {
    let mut whole = String::new(alloc);
    for _ in 0..times {
        whole.push_str(text)?;
    }
    Ok(whole)
}

fn read(alloc: Global, text: &str) -> Result<Path, PathFault> {
    Path::read(alloc, text, &Path::root(alloc))
}

// The path of the text, where the home folder is `/home/ann`.
fn read_at_home(alloc: Global, text: &str) -> Result<Path, PathFault> {
    let home = read(alloc, "/home/ann")?;
    Path::read(alloc, text, &home)
}

fn is_printed(alloc: Global, path: &Path, want: &str) -> Result<bool, AllocError> {
    Ok(path.print(alloc)?.as_str() == want)
}

#[test]
fn texts_are_read_and_printed(rt: HostRuntime) -> Result<(), Fail> {
    let alloc = rt.alloc();
    for (text, want) in [
        ("/~/a", "/home/ann/a"),
        ("/~", "/home/ann"),
        ("/a/", "/a"),
        ("/", "/"),
    ] {
        let path = read_at_home(alloc, text)?;
        assert!(rt; is_printed(alloc, &path, want)?);
    }
    Ok(())
}

#[test]
fn other_texts_are_faults(rt: HostRuntime) -> Result<(), Fail> {
    for (text, fault) in [
        ("a", PathFault::NotAbsolute),
        ("", PathFault::NotAbsolute),
        ("//", PathFault::BadName { at: 0 }),
        ("/a//b", PathFault::BadName { at: 1 }),
        ("/a/../b", PathFault::BadName { at: 1 }),
        ("/a/~", PathFault::BadName { at: 1 }),
        ("/~//a", PathFault::BadName { at: 1 }),
    ] {
        assert!(rt; read_at_home(rt.alloc(), text).err() == Some(fault));
    }
    Ok(())
}

// What becomes of a path of so many names of so many bytes each: its number of names, or its fault.
fn of_names(alloc: Global, names: u32, bytes: u32) -> Result<Result<u32, PathFault>, AllocError> {
    let mut name = repeated(alloc, "/", 1)?;
    name.push_str(repeated(alloc, "x", bytes)?.as_str())?;
    let text = repeated(alloc, name.as_str(), names)?;
    match read(alloc, text.as_str()) {
        Ok(path) => Ok(Ok(path.names())),
        Err(fault) => Ok(Err(fault)),
    }
}

#[test]
fn paths_have_64_names_of_255_bytes_and_4096_bytes(rt: HostRuntime) -> Result<(), Fail> {
    let alloc = rt.alloc();
    assert!(rt; of_names(alloc, 1, 255)? == Ok(1));
    assert!(rt; of_names(alloc, 1, 256)? == Err(PathFault::BadName { at: 0 }));
    assert!(rt; of_names(alloc, 64, 1)? == Ok(64));
    assert!(rt; of_names(alloc, 65, 1)? == Err(PathFault::TooDeep { names: 65 }));
    assert!(rt; of_names(alloc, 16, 255)? == Ok(16));
    assert!(rt; of_names(alloc, 17, 255)? == Err(PathFault::TooLong { bytes: 4352 }));
    Ok(())
}

#[test]
fn names_are_copied_and_cloned(rt: HostRuntime) -> Result<(), Fail> {
    let alloc = rt.alloc();
    let name = Name::read(alloc, "a")?;
    assert!(rt; name.as_str() == "a");
    assert!(rt; name.copy(alloc)? == name);
    assert!(rt; name.clone()? == name);
    assert!(rt; Name::read(alloc, "~").err() == Some(NameFault::Refused));
    Ok(())
}

#[test]
fn paths_are_copied_and_cloned(rt: HostRuntime) -> Result<(), Fail> {
    let path = read(rt.alloc(), "/a/b")?;
    assert!(rt; path.copy(rt.alloc())? == path);
    assert!(rt; path.clone()? == path);
    Ok(())
}

#[test]
fn a_child_is_under_its_folder(rt: HostRuntime) -> Result<(), Fail> {
    let alloc = rt.alloc();
    let folder = read(alloc, "/a")?;
    let path = folder.child(alloc, &Name::read(alloc, "b")?)?;
    assert!(rt; is_printed(alloc, &path, "/a/b")?);
    assert!(rt; path.is_under(&folder) && folder.overlaps(&path));
    Ok(())
}

#[test]
fn a_path_is_carried_over_to_another_folder(rt: HostRuntime) -> Result<(), Fail> {
    let alloc = rt.alloc();
    let path = read(alloc, "/a/b")?;
    let folder = read(alloc, "/a")?;
    let to = read(alloc, "/c")?;
    assert!(rt; !path.overlaps(&to) && path.is_under(&folder));
    if path.is_under(&folder) {
        assert!(rt; is_printed(alloc, &path.rebase(alloc, &folder, &to)?, "/c/b")?);
    }
    Ok(())
}

#[test]
fn names_are_keys_of_maps(rt: HostRuntime) -> Result<(), Fail> {
    let alloc = rt.alloc();
    let mut names = BTreeMap::new(alloc);
    names.insert(Name::read(alloc, "b")?, 2)?;
    names.insert(Name::read(alloc, "a")?, 1)?;
    assert!(rt; names.get(&Name::read(alloc, "a")?) == Some(&1));
    assert!(rt; names.get(&Name::read(alloc, "c")?).is_none());
    Ok(())
}

#[test]
fn paths_are_keys_of_maps(rt: HostRuntime) -> Result<(), Fail> {
    let alloc = rt.alloc();
    let mut paths = BTreeMap::new(alloc);
    paths.insert(read(alloc, "/a/b")?, 2)?;
    paths.insert(read(alloc, "/a")?, 1)?;
    assert!(rt; paths.get(&read(alloc, "/a")?) == Some(&1));
    assert!(rt; paths.get(&Path::root(alloc)).is_none());
    Ok(())
}
