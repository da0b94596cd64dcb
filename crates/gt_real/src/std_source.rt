ghost use Rattle.std.specs.Prelude.{IfOk, length, ◌≡◌, ◌≤◌};
ghost use Rattle.gt_faults.specs.Faults.{CountsFaults};
ghost use Rattle.gt_streams.specs.Streams.{untold_source};

use gt_causes::Failed;
use gt_faults::Faults;
use gt_streams::Source;
use std::alloc::{AllocError, Global};
use std::io::{self, BufReader, ErrorKind, Read};
use std::marker::Model;
use std::os::fd::AsRawFd;

// The bytes that are read ahead at most, so that reading byte by byte makes no call of the system for each.
const AHEAD: usize = 65_536;

/// A reader of the system as a source: standard input, a file or a pipe.
///
/// It reads ahead. Where the input can seek, what was read ahead and not handed out is given back when the source is
/// dropped. Of a pipe or a terminal it is lost.
pub struct StdSource<R: Read + AsRawFd + Drop> {
    reader: BufReader<R>,
    has_ended: bool,
    lines: u64,
    faults: Faults,
}

impl<R: Read + AsRawFd + Drop> Model for StdSource<R> {
    ghost use Rattle.std.specs.Prelude.{ℕ};

    ghost Value = { ℕ };

    ghost view = { λ s. s.faults };
}

impl<R: Read + AsRawFd + Drop> StdSource<R> {
    /// A source over this reader, known to a person by this name.
    pub fn new(alloc: Global, reader: R, name: &str) -> Result<StdSource<R>, AllocError>
        ensures { IfOk result (λ source. source ≡ 0) }
    {
        let faults = Faults::new(String::from_str(alloc, name)?);
        match BufReader::with_capacity(alloc, AHEAD, reader) {
            Ok(reader) => Ok(StdSource {
                reader,
                has_ended: false,
                lines: 0,
                faults,
            }),
            Err(_) => Err(AllocError),
        }
    }

    /// How many newlines were handed out, so that a person can be told a line. It stops at 2^64 - 1.
    pub fn lines(&self) -> u64 {
        self.lines
    }
}

impl<R: Read + AsRawFd + Drop> Source for StdSource<R> {
    ghost words = { untold_source (λ s. s) };

    fn faults(&self) -> u64 {
        self.faults.count()
    }

    fn read(&mut self, into: &mut [u8]) -> Result<usize, Failed>
        ensures same { CountsFaults self.old self.new result }
        ensures room { IfOk result (λ n. n ≤ length into.old) }
    {
        if self.has_ended || into.is_empty() {
            return Ok(0);
        }
        match read_once(&mut self.reader, into) {
            Ok(n) => {
                self.has_ended = n == 0;
                self.lines = self.lines.saturating_add(newlines(&into[..n]));
                Ok(n)
            }
            Err(error) => Err(self.faults.add("a read", error)),
        }
    }
}

// A read that no signal cuts short.
fn read_once<R: Read>(reader: &mut R, into: &mut [u8]) -> io::Result<usize>
    ensures { IfOk result (λ n. n ≤ length into.new) }
{
    for _ in 0..u64::MAX {
        match reader.read(into) {
            Ok(n) => return Ok(n),
            Err(error) => {
                if error.kind() != ErrorKind::Interrupted {
                    return Err(error);
                }
            }
        }
    }
    Err(ErrorKind::Interrupted.into())
}

fn newlines(bytes: &[u8]) -> u64 {
    bytes.iter().filter(|byte| **byte == b'\n').count() as u64
}

impl<R: Read + AsRawFd + Drop> Drop for StdSource<R> {
    fn drop(self) {
        let Self {
            reader,
            has_ended: _,
            lines: _,
            faults,
        } = self;
        let ahead = reader.buffer().len() as i64;
        if ahead > 0 {
            let _ = libc::lseek(reader.get_ref().as_raw_fd(), -ahead, libc::SEEK_CUR);
        }
        drop(faults);
    }
}
