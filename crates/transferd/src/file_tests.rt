// A desk on a file of the system: what one run recorded, the next one finds.
use crate::exit::Exit;
use crate::tests::{ACCEPTED, ANN, DOCUMENT, DUPLICATE, ONE_TASK, SETUP, joined, run_on};
use gt_real::FileDisk;
use std::test::Fail;
use std::{env, fs, process};

// A path for a test of this process.
fn path_for(rt: &HostRuntime, test: &str) -> Result<String, Fail> {
    let folder = env::temp_dir(rt)?;
    let folder = folder.as_str();
    let number = process::id(rt.process());
    Ok(format!(in rt.alloc(); "{folder}/transferd-{number}-{test}")?)
}

// Whether a run of the same submission on the file is answered so, and leaves one task.
fn answers(rt: &HostRuntime, path: &str, reply: &str) -> Result<bool, Fail> {
    let alloc = rt.alloc();
    let script = joined(alloc, &[ANN, DOCUMENT, "\nend\n"])?;
    let printed = joined(alloc, &[reply, ONE_TASK])?;
    let mut disk = FileDisk::open(rt, path)?;
    let (exit, out) = run_on(alloc, SETUP.as_bytes(), &script, &mut disk)?;
    Ok(exit == Exit::Done && out.bytes() == printed.as_slice())
}

#[test]
fn desk_on_a_file_is_opened_again(rt: HostRuntime) -> Result<(), Fail> {
    let path = path_for(&rt, "journal")?;
    assert!(rt; answers(&rt, &path, ACCEPTED)?);
    assert!(rt; answers(&rt, &path, DUPLICATE)?);
    assert!(rt; answers(&rt, &path, DUPLICATE)?);
    fs::remove_file(&rt, &path)?;
    Ok(())
}
