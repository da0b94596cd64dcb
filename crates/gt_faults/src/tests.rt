// The text of a fault, and that each is counted.
use crate::{Faults, write_fault};
use std::io;
use std::test::Fail;

#[test]
fn text_of_a_fault(rt: HostRuntime) -> Result<(), Fail> {
    let mut line = Vec::new(rt.alloc());
    let reason = io::Error::from_raw_os_error(libc::ENOSPC);
    write_fault(&mut line, "the journal", "a sync", reason)?;
    assert_eq!(rt;
        line.as_slice(),
        b"transferd: the journal: a sync failed: No space left on device (os error 28)\n".as_slice()
    );
    Ok(())
}

#[test]
fn each_fault_is_counted(rt: HostRuntime) -> Result<(), Fail> {
    let mut faults = Faults::new(String::from_str(rt.alloc(), "a device of this test")?);
    faults.add("a read", io::Error::from_raw_os_error(libc::EIO));
    faults.add_at(
        "its folder",
        "a listing",
        io::Error::from_raw_os_error(libc::EIO),
    );
    assert_eq!(rt; faults.count(), 2);
    Ok(())
}
