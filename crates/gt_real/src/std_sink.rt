ghost use Rattle.std.specs.Prelude.{IfOk, length, ◌<◌, ◌≡◌, ◌≤◌};
ghost use Rattle.gt_faults.specs.Faults.{CountsFaults};
ghost use Rattle.gt_streams.specs.Streams.{untold_sink};

use gt_causes::Failed;
use gt_faults::Faults;
use gt_streams::Sink;
use std::alloc::{AllocError, Global};
use std::io::{self, ErrorKind};
use std::marker::Model;
use std::os::fd::AsRawFd;

/// An open file of the system as a sink: standard output, a file or a pipe. A reader that went away is a counted fault,
/// and doesn't end the program by a signal.
#[derive(Drop)]
pub struct StdSink<W: AsRawFd + Drop> {
    writer: W,
    faults: Faults,
}

impl<W: AsRawFd + Drop> Model for StdSink<W> {
    ghost use Rattle.std.specs.Prelude.{ℕ};

    ghost Value = { ℕ };

    ghost view = { λ s. s.faults };
}

impl<W: AsRawFd + Drop> StdSink<W> {
    /// A sink over this writer, known to a person by this name.
    pub fn new(alloc: Global, writer: W, name: &str) -> Result<StdSink<W>, AllocError>
        ensures { IfOk result (λ sink. sink ≡ 0) }
    {
        Ok(StdSink {
            writer,
            faults: Faults::new(String::from_str(alloc, name)?),
        })
    }
}

impl<W: AsRawFd + Drop> Sink for StdSink<W> {
    ghost words = { untold_sink (λ s. s) };

    fn faults(&self) -> u64 {
        self.faults.count()
    }

    fn write(&mut self, from: &[u8]) -> Result<usize, Failed>
        ensures same { CountsFaults self.old self.new result }
        ensures room { IfOk result (λ n. n ≤ length from.now) }
        ensures ok { IfOk result (λ n. 0 < length from.now → 0 < n) }
    {
        match write_some(self.writer.as_raw_fd(), from) {
            Ok(n) => Ok(n),
            Err(error) => Err(self.faults.add("a write", error)),
        }
    }
}

// A write that no signal cuts short.
fn write_some(fd: i32, from: &[u8]) -> io::Result<usize>
    ensures room { IfOk result (λ n. n ≤ length from.now) }
    ensures ok { IfOk result (λ n. 0 < length from.now → 0 < n) }
{
    for _ in 0..u64::MAX {
        match write_once(fd, from) {
            Ok(n) => return Ok(n),
            Err(error) => {
                if error.kind() != ErrorKind::Interrupted {
                    return Err(error);
                }
            }
        }
    }
    Err(ErrorKind::Interrupted.into())
}

// One call of the system. That it took nothing is an error.
fn write_once(fd: i32, from: &[u8]) -> io::Result<usize>
    ensures room { IfOk result (λ n. n ≤ length from.now) }
    ensures ok { IfOk result (λ n. 0 < length from.now → 0 < n) }
{
    if from.is_empty() {
        return Ok(0);
    }
    let wrote = libc::write(fd, from);
    if wrote < 0 {
        return Err(io::Error::from_raw_os_error(os::errno()));
    }
    if wrote == 0 {
        return Err(ErrorKind::WriteZero.into());
    }
    Ok((wrote as usize).min(from.len()))
}
