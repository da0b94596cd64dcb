ghost use Rattle.gt_causes.specs.Causes.{HasFailed};
ghost use Rattle.gt_streams.specs.Reading.{HandsOutLine, ReadsLine, TellsFaults};
ghost use Rattle.gt_streams.specs.Streams.{IsSameSource};
ghost use Rattle.std.specs.Prelude.{IsErrOf, IsTrue};

use crate::Source;
use thiserror::Error;

/// How a line ended.
#[derive(Clone, Copy, Debug, PartialEq, Eq)]
pub enum LineEnd {
    /// By a newline.
    Line,
    /// By the end of input, after `have` bytes.
    EndOfInput { have: u64 },
}

/// Why a line, or a number of bytes, was not read.
#[derive(Clone, Copy, Debug, PartialEq, Eq, Error)]
pub enum StreamFault {
    /// The source failed, and counted it.
    #[error("the source failed")]
    ReadFault,
    /// `max` bytes had no newline.
    #[error("the line has no newline within {max} bytes")]
    TooLong { max: u32 },
    /// The input ended after `have` bytes, of the `want` that were asked for.
    #[error("the input ended after {have} of {want} bytes")]
    Cut { have: u64, want: u64 },
    #[error("out of memory")]
    OutOfMemory,
}

/// Reads bytes up to a newline, which is taken too and not kept.
///
/// `into` is emptied first, and keeps its allocator. Afterwards, also after an `Err`, it holds the bytes that this call took,
/// without the newline. The source is read byte by byte, so nothing behind the line is taken. A line of `max` bytes or more
/// is `TooLong`: its first `max` bytes were taken. Room for a byte is found before the byte is read.
pub fn read_line<S: Source>(
    source: &mut S,
    max: u32,
    into: &mut Vec<u8>,
) -> Result<LineEnd, StreamFault>
    ensures same { IsSameSource S.words source.old source.new }
    ensures cause { IsErrOf result StreamFault.ReadFault
        → HasFailed S.words.faults source.old source.new }
    ensures counted { TellsFaults (S.words.faults source.old) result (S.words.faults source.new) }
    // The answer and the bytes handed out, of every source.
    ensures value { HandsOutLine max result into.new.items }
    ensures told { IsTrue (S.words.told source.old)
        → ReadsLine max (S.words.left source.old) result into.new.items (S.words.left source.new) }
{
    into.clear();
    while into.len() < max as usize {
        if into.reserve(1).is_err() {
            return Err(StreamFault::OutOfMemory);
        }
        let mut byte = [0];
        match source.read(&mut byte) {
            Err(_) => return Err(StreamFault::ReadFault),
            Ok(0) => {
                return Ok(LineEnd::EndOfInput {
                    have: into.len() as u64,
                });
            }
            Ok(_) => {
                if byte[0] == b'\n' {
                    return Ok(LineEnd::Line);
                }
                into.push_reserved(byte[0]);
            }
        }
    }
    Err(StreamFault::TooLong { max })
}
