// The suites over real files and pipes, locks, what is given back, and faults. Files lie in the folder for temporary ones.
use gt_disk::{Disk, disk_suite};
use gt_real::{FileDisk, FileFault, OpenFile, StdSink, StdSource};
use gt_streams::{Sink, Source, sink_suite, source_suite};
use std::alloc::Global;
use std::fs::{self, File};
use std::io::{self, ErrorKind, Seek, Write};
use std::test::Fail;
use std::{env, process};

const TEXT: &[u8] = b"one line\nand another\n";

// A path for a test of this process.
fn path_for(rt: &HostRuntime, test: &str) -> Result<String, Fail> {
    let folder = env::temp_dir(rt)?;
    let folder = folder.as_str();
    let number = process::id(rt.process());
    Ok(format!(in rt.alloc(); "{folder}/tests_of_devices-{number}-{test}")?)
}

#[test]
fn disk_over_a_file(rt: HostRuntime) -> Result<(), Fail> {
    let path = path_for(&rt, "disk")?;
    let mut disk = FileDisk::open(&rt, &path)?;
    disk_suite(rt.alloc(), &mut disk)?;
    let length = disk.len()?;
    let is_second = matches!(FileDisk::open(&rt, &path), Err(FileFault::InUse));
    assert!(rt; is_second);
    drop(disk);
    let mut again = FileDisk::open(&rt, &path)?;
    assert_eq!(rt; again.len()?, length);
    disk_suite(rt.alloc(), &mut again)?;
    assert_eq!(rt; again.faults(), 0);
    fs::remove_file(&rt, &path)?;
    Ok(())
}

#[test]
fn what_is_no_disk(rt: HostRuntime) -> Result<(), Fail> {
    let folder = path_for(&rt, "folder")?;
    fs::create_dir(&rt, &folder)?;
    let is_folder = matches!(FileDisk::open(&rt, &folder), Err(FileFault::NotAFile));
    assert!(rt; is_folder);
    let is_device = matches!(FileDisk::open(&rt, "/dev/null"), Err(FileFault::NotAFile));
    assert!(rt; is_device);
    let missing = format!(in rt.alloc(); "{folder}/missing/file")?;
    let is_missing = match FileDisk::open(&rt, &missing) {
        Err(FileFault::Failed(error)) => error.kind() == ErrorKind::NotFound,
        _ => false,
    };
    assert!(rt; is_missing);
    fs::remove_dir(&rt, &folder)?;
    Ok(())
}

#[test]
fn faults_of_a_disk_are_counted(rt: HostRuntime) -> Result<(), Fail> {
    let path = path_for(&rt, "faults")?;
    let mut disk = FileDisk::open(&rt, &path)?;
    disk.write_at(0, TEXT)?;
    assert!(rt; disk.read(20, &mut [0; 2]).is_err());
    assert!(rt; disk.write_at((1 << 63) - 1, b"x").is_err());
    assert!(rt; disk.read(u64::MAX, &mut [0]).is_err());
    assert_eq!(rt; disk.faults(), 3);
    assert!(rt; disk.read(19, &mut [0; 2]).is_ok());
    assert_eq!(rt; disk.faults(), 3);
    fs::remove_file(&rt, &path)?;
    Ok(())
}

// A file of no bytes, whose sync fails where it is told so. It notes what it is asked.
#[derive(Drop)]
struct Noted {
    syncs: u64,
    forgotten: u64,
    fails: bool,
}

impl OpenFile for Noted {
    fn length(&mut self) -> io::Result<u64> {
        Ok(0)
    }

    fn read_at(&mut self, _into: &mut [u8], _at: u64) -> io::Result<()> {
        Err(ErrorKind::UnexpectedEof.into())
    }

    fn write_at(&mut self, _from: &[u8], _at: u64) -> io::Result<()> {
        Err(ErrorKind::StorageFull.into())
    }

    fn sync(&mut self) -> io::Result<()> {
        self.syncs = self.syncs.saturating_add(1);
        if self.fails {
            return Err(ErrorKind::StorageFull.into());
        }
        Ok(())
    }

    fn forget(&mut self) {
        self.forgotten = self.forgotten.saturating_add(1);
    }
}

// Whether a sync fails, how often the file was synced and forgotten, and the count of faults.
fn synced(alloc: Global, fails: bool) -> Result<(bool, u64, u64, u64), Fail> {
    let file = Noted {
        syncs: 0,
        forgotten: 0,
        fails,
    };
    let mut disk = FileDisk::over(file, String::from_str(alloc, "noted")?);
    let failed = disk.sync().is_err();
    let noted = disk.file();
    Ok((failed, noted.syncs, noted.forgotten, disk.faults()))
}

#[test]
fn sync_reaches_the_file(rt: HostRuntime) -> Result<(), Fail> {
    assert_eq!(rt; synced(rt.alloc(), false)?, (false, 1, 0, 0));
    assert_eq!(rt; synced(rt.alloc(), true)?, (true, 1, 1, 1));
    Ok(())
}

#[test]
fn streams_over_a_file(rt: HostRuntime) -> Result<(), Fail> {
    let path = path_for(&rt, "streams")?;
    let mut sink = StdSink::new(rt.alloc(), File::create(&rt, &path)?, "file")?;
    sink_suite(&mut sink, TEXT)?;
    assert_eq!(rt; fs::read(&rt, &path)?.as_slice(), TEXT);
    let mut source = StdSource::new(rt.alloc(), File::open(&rt, &path)?, "file")?;
    source_suite(rt.alloc(), &mut source, TEXT)?;
    assert_eq!(rt; source.lines(), 2);
    assert_eq!(rt; source.faults(), 0);
    fs::remove_file(&rt, &path)?;
    Ok(())
}

#[test]
fn what_was_read_ahead_is_given_back(rt: HostRuntime) -> Result<(), Fail> {
    let path = path_for(&rt, "ahead")?;
    fs::write(&rt, &path, TEXT)?;
    let mut file = File::open(&rt, &path)?;
    let mut source = StdSource::new(rt.alloc(), file.try_clone()?, "file")?;
    assert_eq!(rt; source.read(&mut [0; 9])?, 9);
    assert_eq!(rt; file.stream_position()?, 21);
    drop(source);
    assert_eq!(rt; file.stream_position()?, 9);
    fs::remove_file(&rt, &path)?;
    Ok(())
}

#[test]
fn streams_over_a_pipe(rt: HostRuntime) -> Result<(), Fail> {
    let (reader, writer) = io::pipe(&rt)?;
    let mut source = StdSource::new(rt.alloc(), reader, "pipe")?;
    let mut sink = StdSink::new(rt.alloc(), writer, "pipe")?;
    sink_suite(&mut sink, TEXT)?;
    drop(sink);
    source_suite(rt.alloc(), &mut source, TEXT)?;
    let (reader, writer) = io::pipe(&rt)?;
    drop(reader);
    let mut sink = StdSink::new(rt.alloc(), writer, "pipe")?;
    assert!(rt; sink.write(TEXT).is_err());
    assert_eq!(rt; sink.write(b""), Ok(0));
    assert_eq!(rt; sink.faults(), 1);
    Ok(())
}

#[test]
fn failed_read_is_counted(rt: HostRuntime) -> Result<(), Fail> {
    let folder = env::temp_dir(&rt)?;
    let folder = File::open(&rt, folder.as_str())?;
    let mut source = StdSource::new(rt.alloc(), folder, "folder")?;
    assert!(rt; source.read(&mut [0; 4]).is_err());
    assert!(rt; source.read(&mut [0; 4]).is_err());
    assert_eq!(rt; source.faults(), 2);
    Ok(())
}
