ghost use Rattle.gt_faults.specs.Faults.{CountsFaults};
ghost use Rattle.gt_streams.specs.Streams.{untold_sink, untold_source};
ghost use Rattle.std.specs.Prelude.{IfOk, length, ◌<◌, ◌≡◌, ◌≤◌};

use gt_causes::Failed;
use gt_faults::Faults;
use gt_streams::{Sink, Source};
use std::alloc::{AllocError, Global};
use std::io::{self, ErrorKind, Read, Write};
use std::marker::Model;
use std::net::{Shutdown, TcpStream};
use std::sync::Arc;
use std::time::Duration;

// The bytes that are read ahead of a connection at most.
const AHEAD: usize = 65_536;

// So much of what a peer still sends is read and dropped, and in so many reads, when a link is given back.
const DROPPED: usize = 8 << 20;

const READS: u32 = 512;

// How long each of these reads waits, in seconds.
const PATIENCE: u64 = 1;

/// The side of a connection to read.
#[derive(Drop)]
pub struct TcpIn {
    stream: Arc<TcpStream>,
    ahead: Vec<u8>,
    from: usize,
    to: usize,
    faults: Faults,
}

/// The side of a connection to write.
#[derive(Drop)]
pub struct TcpOut {
    stream: Arc<TcpStream>,
    faults: Faults,
}

/// The two sides of a connection.
pub(crate) fn ends_of(alloc: Global, stream: TcpStream) -> Result<(TcpIn, TcpOut), AllocError> {
    let stream = Arc::new(alloc, stream)?;
    let other = Arc::try_clone(&stream)?;
    let mut ahead = Vec::new(alloc);
    ahead.resize(AHEAD, 0)?;
    let source = TcpIn {
        stream,
        ahead,
        from: 0,
        to: 0,
        faults: Faults::new(String::from_str(alloc, "a connection")?),
    };
    let sink = TcpOut {
        stream: other,
        faults: Faults::new(String::from_str(alloc, "a connection")?),
    };
    Ok((source, sink))
}

impl Model for TcpIn {
    ghost use Rattle.std.specs.Prelude.{length, ℕ, ◌≤◌};

    ghost Value = { ℕ };

    ghost view = { λ s. s.faults };

    ghost invariant = { λ s. (s.from ≤ s.to) × (s.to ≤ length s.ahead.items) };
}

impl Model for TcpOut {
    ghost use Rattle.std.specs.Prelude.{ℕ};

    ghost Value = { ℕ };

    ghost view = { λ s. s.faults };
}

impl TcpIn {
    // What the peer still sends is read and dropped for a while, so that the system doesn't break the connection off before
    // the peer has read its reply.
    pub(crate) fn drain(self) {
        let TcpIn {
            stream,
            mut ahead,
            from: _,
            to: _,
            faults,
        } = self;
        if stream
            .set_read_timeout(Some(Duration::from_secs(PATIENCE)))
            .is_ok()
        {
            drop_rest(&stream, &mut ahead);
        }
        drop(faults);
    }
}

fn drop_rest(stream: &TcpStream, into: &mut [u8]) {
    let mut dropped = 0usize;
    for _ in 0..READS {
        let mut stream = stream;
        match stream.read(into) {
            Ok(n) => {
                dropped = dropped.saturating_add(n);
                if n == 0 || dropped >= DROPPED {
                    return;
                }
            }
            Err(error) => {
                if error.kind() != ErrorKind::Interrupted {
                    return;
                }
            }
        }
    }
}

impl Source for TcpIn {
    ghost words = { untold_source (λ s. s) };

    fn faults(&self) -> u64 {
        self.faults.count()
    }

    fn read(&mut self, into: &mut [u8]) -> Result<usize, Failed>
        ensures same { CountsFaults self.old self.new result }
        ensures room { IfOk result (λ n. n ≤ length into.old) }
    {
        if self.from == self.to && !into.is_empty() {
            self.from = 0;
            self.to = 0;
            match read_some(&self.stream, &mut self.ahead) {
                Ok(n) => self.to = n,
                Err(error) => return Err(self.faults.add("a read", error)),
            }
        }
        let n = into.len().min(self.to - self.from);
        into[..n].copy_from_slice(&self.ahead[self.from..self.from + n]);
        self.from += n;
        Ok(n)
    }
}

impl Sink for TcpOut {
    ghost words = { untold_sink (λ s. s) };

    fn faults(&self) -> u64 {
        self.faults.count()
    }

    fn write(&mut self, from: &[u8]) -> Result<usize, Failed>
        ensures same { CountsFaults self.old self.new result }
        ensures room { IfOk result (λ n. n ≤ length from.now) }
        ensures ok { IfOk result (λ n. 0 < length from.now → 0 < n) }
    {
        match write_some(&self.stream, from) {
            Ok(n) => Ok(n),
            Err(error) => Err(self.faults.add("a write", error)),
        }
    }
}

impl TcpOut {
    // Nothing more is sent: the peer sees the end behind what was.
    pub(crate) fn end(self) {
        let _ = self.stream.shutdown(Shutdown::Write);
    }
}

// A read that no signal cuts short.
fn read_some(stream: &TcpStream, into: &mut [u8]) -> io::Result<usize>
    ensures room { IfOk result (λ n. n ≤ length into.new) }
    ensures length { length into.new ≡ length into.old }
{
    for _ in 0..u64::MAX {
        let mut stream = stream;
        match stream.read(into) {
            Ok(n) => return Ok(n),
            Err(error) => {
                if error.kind() != ErrorKind::Interrupted {
                    return Err(error);
                }
            }
        }
    }
    Err(ErrorKind::Interrupted.into())
}

// A write that no signal cuts short. That it took nothing is an error.
fn write_some(stream: &TcpStream, from: &[u8]) -> io::Result<usize>
    ensures room { IfOk result (λ n. n ≤ length from.now) }
    ensures ok { IfOk result (λ n. 0 < length from.now → 0 < n) }
{
    if from.is_empty() {
        return Ok(0);
    }
    for _ in 0..u64::MAX {
        let mut stream = stream;
        match stream.write(from) {
            Ok(0) => return Err(ErrorKind::WriteZero.into()),
            Ok(n) => return Ok(n),
            Err(error) => {
                if error.kind() != ErrorKind::Interrupted {
                    return Err(error);
                }
            }
        }
    }
    Err(ErrorKind::Interrupted.into())
}
