ghost use Rattle.gt_causes.specs.Causes.{HasFailed};
ghost use Rattle.gt_streams.specs.Reading.{NumbersBytes, ReadsBytes, TellsFaults};
ghost use Rattle.gt_streams.specs.Streams.{IsSameSource};
ghost use Rattle.std.specs.Prelude.{IsErrOf, IsTrue, length};

use crate::{Source, StreamFault};

/// How many bytes are asked of a source at once.
const PIECE: usize = 4096;

/// Reads `want` bytes.
///
/// `into` is emptied first, and keeps its allocator. Afterwards, also after an `Err`, it holds the bytes that this call took.
/// It grows as bytes come, so an input that ends early is `Cut`, however much was wanted. Room for bytes is found before
/// they are read. Nothing behind the `want` bytes is taken.
pub fn read_exactly<S: Source>(
    source: &mut S,
    want: u64,
    into: &mut Vec<u8>,
) -> Result<(), StreamFault>
    ensures same { IsSameSource S.words source.old source.new }
    ensures cause { IsErrOf result StreamFault.ReadFault
        → HasFailed S.words.faults source.old source.new }
    ensures counted { TellsFaults (S.words.faults source.old) result (S.words.faults source.new) }
    // The answer and the number of bytes handed out, of every source.
    ensures value { NumbersBytes want result (length into.new.items) }
    ensures told { IsTrue (S.words.told source.old)
        → ReadsBytes want (S.words.left source.old) result into.new.items
        (S.words.left source.new) }
{
    into.clear();
    let mut piece = [0; PIECE];
    while (into.len() as u64) < want {
        let have = into.len() as u64;
        let room = (want - have).min(PIECE as u64) as usize;
        if into.reserve(room).is_err() {
            return Err(StreamFault::OutOfMemory);
        }
        match source.read(&mut piece[..room]) {
            Err(_) => return Err(StreamFault::ReadFault),
            Ok(0) => return Err(StreamFault::Cut { have, want }),
            Ok(n) => {
                // There is room for these.
                let _ = into.extend_from_slice(&piece[..n]);
            }
        }
    }
    Ok(())
}
