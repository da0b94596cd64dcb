// The real folders, in a folder for temporary ones: what is made is found, and no link is followed.
use gt_folders::{EntryName, Folders, SightKind, SystemFolders};
use gt_paths::Name;
use std::os::unix::fs::symlink;
use std::test::Fail;
use std::{env, fs, io, process};

const FILE: EntryName<'static> = EntryName::Staging(7);

// A new folder for a test of this process.
fn folder_for(rt: &HostRuntime, test: &str) -> Result<String, Fail> {
    let folder = env::temp_dir(rt)?;
    let folder = folder.as_str();
    let number = process::id(rt.process());
    let path = format!(in rt.alloc(); "{folder}/tests_of_folders-{number}-open-{test}")?;
    fs::create_dir(rt, &path)?;
    Ok(path)
}

// The number of the system's error, or 0.
fn code<T: Drop>(answer: io::Result<T>) -> i32 {
    match answer {
        Ok(_) => 0,
        Err(error) => error.raw_os_error().unwrap_or(-1),
    }
}

#[test]
fn a_file_is_made_and_found(rt: HostRuntime) -> Result<(), Fail> {
    let path = folder_for(&rt, "file")?;
    let mut folders = SystemFolders::new(rt)?;
    let root = folders.open_root(&path)?;
    let file = folders.make_file(root, FILE)?;
    folders.append(file, b"some ")?;
    folders.append(file, b"bytes")?;
    folders.set_time(file, -5)?;
    folders.sync(file)?;
    folders.sync(root)?;
    let found = folders.look(root, FILE)?;
    assert!(rt; found.kind == SightKind::File && found.size == 10 && found.seconds == -5);
    assert!(rt; found.is_same(&folders.look_open(file)?));
    assert_eq!(rt; code(folders.make_file(root, FILE)), libc::EEXIST);
    let reader = folders.open_file(root, FILE)?;
    let mut into = [0u8; 8];
    assert_eq!(rt; folders.read(reader, 5, &mut into)?, 5);
    assert_eq!(rt; into, *b"bytes\0\0\0");
    assert_eq!(rt; folders.read(reader, u64::MAX, &mut into)?, 0);
    folders.lock(file)?;
    let second = folders.open_end(root, FILE)?;
    assert_eq!(rt; code(folders.lock(second)), libc::EAGAIN);
    folders.close(file);
    folders.lock(second)?;
    folders.remove_file(root, FILE)?;
    assert_eq!(rt; code(folders.look(root, FILE)), libc::ENOENT);
    fs::remove_dir(&rt, &path)?;
    Ok(())
}

#[test]
fn folders_and_names(rt: HostRuntime) -> Result<(), Fail> {
    let path = folder_for(&rt, "names")?;
    let name = Name::read(rt.alloc(), "a folder")?;
    let mut folders = SystemFolders::new(rt)?;
    let root = folders.open_root(&path)?;
    folders.make_folder(root, EntryName::Plain(&name))?;
    let inner = folders.open_folder(root, EntryName::Plain(&name))?;
    folders.make_file(inner, FILE)?;
    assert_eq!(rt;
        code(folders.remove_folder(root, EntryName::Plain(&name))),
        libc::ENOTEMPTY
    );
    folders.place(inner, FILE, root, EntryName::Staging(8))?;
    folders.remove_folder(root, EntryName::Plain(&name))?;
    let mut into = [0u8; 4096];
    let length = folders.names(root, &mut into)?;
    assert_eq!(rt; length, b"..\0.\0.gtstage-8\0".len());
    assert_eq!(rt; folders.names(root, &mut into)?, 0);
    fs::remove_dir_all(&rt, &path)?;
    Ok(())
}

#[test]
fn no_link_is_followed(rt: HostRuntime) -> Result<(), Fail> {
    let path = folder_for(&rt, "links")?;
    let (to_file, to_folder) = (
        format!(in rt.alloc(); "{path}/.gtstage-1")?,
        format!(in rt.alloc(); "{path}/.gtstage-2")?,
    );
    symlink(&rt, "/etc/passwd", &to_file)?;
    symlink(&rt, "/etc", &to_folder)?;
    let mut folders = SystemFolders::new(rt)?;
    let root = folders.open_root(&path)?;
    let (file, folder) = (EntryName::Staging(1), EntryName::Staging(2));
    assert_eq!(rt; folders.look(root, file)?.kind, SightKind::Other);
    assert_eq!(rt; code(folders.open_file(root, file)), libc::ELOOP);
    assert_eq!(rt; code(folders.open_end(root, file)), libc::ELOOP);
    assert!(rt; folders.open_folder(root, folder).is_err());
    assert_eq!(rt; code(folders.make_file(root, file)), libc::EEXIST);
    assert_eq!(rt; code(folders.make_folder(root, folder)), libc::EEXIST);
    assert_eq!(rt; code(folders.remove_folder(root, folder)), libc::ENOTDIR);
    assert!(rt; folders.open_root(&to_folder).is_ok());
    fs::remove_dir_all(&rt, &path)?;
    Ok(())
}

#[test]
fn numbers_are_given_back(rt: HostRuntime) -> Result<(), Fail> {
    let mut folders = SystemFolders::new(rt)?;
    assert_eq!(rt; code(folders.sync(0)), libc::EBADF);
    for _ in 0..32 {
        folders.open_root("/")?;
    }
    assert_eq!(rt; code(folders.open_root("/")), libc::EMFILE);
    folders.close(9);
    assert_eq!(rt; folders.open_root("/")?, 9);
    assert_eq!(rt; code(folders.look_open(99)), libc::EBADF);
    Ok(())
}
