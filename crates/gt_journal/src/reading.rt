// The records of a file, read from its bytes as they come.
ghost use Rattle.std.specs.Prelude.{◌≡◌, ◌<◌, ◌≤◌, [], length, take, drop, IfOk, OnOk};
ghost use Rattle.std.specs.Int.{w64, to_be_bytes};
ghost use Rattle.gt_journal.specs.Reading.{lists, size_in, rest_of, IsRest, IsGathered, IsPartial, IsWanted, GoesOn};

use std::alloc::{AllocError, Global};
use std::mem;

// The bytes of a gate and a length.
const HEADER: usize = 9;

// The length that a record's header tells.
fn told_size(header: &[u8]) -> u64
    requires { 9 ≤ length header.now }
    ensures value { result ≡ size_in header.now }
    ensures spelled { to_be_bytes w64 result ≡ take 8 (drop 1 header.now) }
{
    let mut size = [0; 8];
    size.copy_from_slice(&header[1..9]);
    u64::from_be_bytes(size)
}

/// What was read of a file: the bodies of its whole records, and the header and the body of the next one so far. Behind
/// a closed gate all is a body.
#[derive(Drop)]
pub struct Reading {
    pub bodies: Vec<Vec<u8>>,
    header: Vec<u8>,
    body: Vec<u8>,
}

impl Reading {
    /// Nothing yet.
    pub fn new(alloc: Global) -> Reading
        ensures bodies { result.bodies.items ≡ [] }
        ensures rest { rest_of result ≡ [] }
        ensures whole { IsPartial result }
    {
        Reading {
            bodies: Vec::new(alloc),
            header: Vec::new(alloc),
            body: Vec::new(alloc),
        }
    }

    // How many bytes there may be before the header or the body is whole.
    fn wanted(&self) -> usize
        requires { IsPartial self.now }
        ensures { IsWanted self.now result }
    {
        if self.header.len() < HEADER {
            HEADER - self.header.len()
        } else if self.header[0] == 1 {
            told_size(&self.header) as usize - self.body.len()
        } else {
            usize::MAX
        }
    }

    // Puts a body that is whole to the others.
    fn end_record(&mut self, alloc: Global) -> Result<(), AllocError>
        requires { IsGathered self.old }
        ensures whole { OnOk result (IsPartial self.new) }
        ensures ok { OnOk result (GoesOn self.old [] self.new) }
    {
        if self.header.len() == HEADER
            && self.header[0] == 1
            && told_size(&self.header) == self.body.len() as u64
        {
            let body = mem::replace(&mut self.body, Vec::new(alloc));
            self.header.clear();
            self.bodies.push(body)?;
        }
        Ok(())
    }

    // Reads on, at most to the end of a header or a body, and says how far.
    fn read_some(&mut self, alloc: Global, bytes: &[u8]) -> Result<usize, AllocError>
        requires some { 0 < length bytes.now }
        requires whole { IsPartial self.old }
        ensures whole { OnOk result (IsPartial self.new) }
        ensures room { IfOk result (λ n. (0 < n) × (n ≤ length bytes.now)) }
        ensures ok { IfOk result (λ n. GoesOn self.old (take n bytes.now) self.new) }
    {
        let n = self.wanted().min(bytes.len());
        let part = &bytes[..n];
        if self.header.len() < HEADER {
            self.header.extend_from_slice(part)?;
        } else {
            self.body.extend_from_slice(part)?;
        }
        self.end_record(alloc)?;
        Ok(n)
    }

    /// Reads on with these bytes of the file.
    pub fn read_on(&mut self, alloc: Global, bytes: &[u8]) -> Result<(), AllocError>
        requires { IsPartial self.old }
        ensures whole { OnOk result (IsPartial self.new) }
        ensures ok { OnOk result (GoesOn self.old bytes.now self.new) }
    {
        let mut rest = bytes;
        while !rest.is_empty() {
            let n = self.read_some(alloc, rest)?;
            rest = &rest[n..];
        }
        Ok(())
    }

    /// How many bytes stand behind the whole records.
    pub fn rest_len(&self) -> usize
        ensures { result ≡ length (rest_of self.now) }
    {
        self.header.len() + self.body.len()
    }

    /// Whether they are a record that runs past the end.
    pub fn is_cut_off(&self) -> bool
        requires { IsPartial self.now }
        ensures { IsRest result (rest_of self.now) }
    {
        self.header.len() == HEADER && self.header[0] == 1
    }
}
