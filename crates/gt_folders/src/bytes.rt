// Calls on what is open, each tried again where a signal cut it short.
ghost use Rattle.std.specs.Prelude.{IfOk, length, ◌≤◌};

use std::io::{self, ErrorKind};

// The error of the system's last call, unless a signal cut it short.
fn last_failure() -> Option<io::Error> {
    let error = io::Error::from_raw_os_error(os::errno());
    if error.kind() == ErrorKind::Interrupted {
        None
    } else {
        Some(error)
    }
}

/// Reads from a place on. A place at 2^63 or later is past the end of each file.
pub(crate) fn read_at(fd: i32, at: u64, into: &mut [u8]) -> io::Result<usize>
    ensures { IfOk result (λ n. n ≤ length into.old) }
{
    let Ok(at) = i64::try_from(at) else {
        return Ok(0);
    };
    for _ in 0..u64::MAX {
        let got = libc::pread(fd, into, at);
        if got >= 0 {
            return Ok((got as usize).min(into.len()));
        }
        if let Some(error) = last_failure() {
            return Err(error);
        }
    }
    Err(ErrorKind::Interrupted.into())
}

// One write that no signal cuts short.
fn write_some(fd: i32, from: &[u8]) -> io::Result<usize>
    ensures { IfOk result (λ n. n ≤ length from.now) }
{
    for _ in 0..u64::MAX {
        let put = libc::write(fd, from);
        if put >= 0 {
            return Ok((put as usize).min(from.len()));
        }
        if let Some(error) = last_failure() {
            return Err(error);
        }
    }
    Err(ErrorKind::Interrupted.into())
}

/// Writes all of the bytes at the end. A write that takes a part of them goes on with the rest.
pub(crate) fn write_all(fd: i32, bytes: &[u8]) -> io::Result<()> {
    let mut wrote = 0;
    while wrote < bytes.len() {
        match write_some(fd, &bytes[wrote..])? {
            0 => return Err(ErrorKind::WriteZero.into()),
            more => wrote += more,
        }
    }
    Ok(())
}

/// Waits until what is open is on the disk.
pub(crate) fn sync(fd: i32) -> io::Result<()> {
    for _ in 0..u64::MAX {
        if libc::fsync(fd) == 0 {
            return Ok(());
        }
        if let Some(error) = last_failure() {
            return Err(error);
        }
    }
    Err(ErrorKind::Interrupted.into())
}

/// Takes the lock of a file, and doesn't wait for it.
pub(crate) fn lock(fd: i32) -> io::Result<()> {
    for _ in 0..u64::MAX {
        if libc::flock(fd, libc::LOCK_EX | libc::LOCK_NB) == 0 {
            return Ok(());
        }
        if let Some(error) = last_failure() {
            return Err(error);
        }
    }
    Err(ErrorKind::Interrupted.into())
}

/// Sets when a file was last written, in seconds since 1970, and leaves when it was last read.
pub(crate) fn set_time(fd: i32, seconds: i64) -> io::Result<()> {
    let read = libc::types::timespec {
        tv_sec: 0,
        tv_nsec: libc::UTIME_OMIT,
    };
    let written = libc::types::timespec {
        tv_sec: seconds,
        tv_nsec: 0,
    };
    for _ in 0..u64::MAX {
        if libc::futimens(fd, &[read, written]) == 0 {
            return Ok(());
        }
        if let Some(error) = last_failure() {
            return Err(error);
        }
    }
    Err(ErrorKind::Interrupted.into())
}
