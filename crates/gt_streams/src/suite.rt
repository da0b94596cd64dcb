// One suite for all sources and one for all sinks, those in memory and real ones.
ghost use Rattle.gt_causes.specs.Causes.{HasFailed};
ghost use Rattle.gt_streams.specs.Streams.{IsSameSink, IsSameSource};
ghost use Rattle.gt_streams.specs.Suite.{IsNoVerdict};
ghost use Rattle.std.specs.Prelude.{IfErr, IsErrOf, IsTrue, OnOk, [], ◌++◌, ◌≡◌};

use crate::{Sink, Source, StreamFault, SuiteFault, read_exactly, write_all};
use std::alloc::Global;

/// Reads a source that should give exactly these bytes, and then the end of input at each of two reads. A told source
/// that has these bytes left is never found wrong.
pub fn source_suite<S: Source>(
    alloc: Global,
    source: &mut S,
    bytes: &[u8],
) -> Result<(), SuiteFault>
    ensures same { IsSameSource S.words source.old source.new }
    ensures cause { IsErrOf result SuiteFault.DeviceFault
        → HasFailed S.words.faults source.old source.new }
    ensures fault { IsTrue (S.words.told source.old)
        → S.words.left source.old ≡ bytes.now → IfErr result IsNoVerdict }
    ensures ok { OnOk result (IsTrue (S.words.told source.old)
        → S.words.left source.old ≡ bytes.now) }
{
    let mut given = Vec::new(alloc);
    match read_exactly(source, bytes.len() as u64, &mut given) {
        Ok(()) => {}
        Err(StreamFault::ReadFault) => return Err(SuiteFault::DeviceFault),
        Err(StreamFault::OutOfMemory) => return Err(SuiteFault::OutOfMemory),
        Err(_) => return Err(SuiteFault::WrongEnd),
    }
    if given.as_slice() != bytes {
        return Err(SuiteFault::WrongBytes);
    }
    check_end(source)?;
    check_end(source)
}

// The end of input.
fn check_end<S: Source>(source: &mut S) -> Result<(), SuiteFault>
    ensures same { IsSameSource S.words source.old source.new }
    ensures cause { IsErrOf result SuiteFault.DeviceFault
        → HasFailed S.words.faults source.old source.new }
    ensures fault { IsTrue (S.words.told source.old)
        → S.words.left source.old ≡ [] → IfErr result IsNoVerdict }
    ensures ok { OnOk result (IsTrue (S.words.told source.old) → S.words.left source.old ≡ []) }
    ensures told { IsTrue (S.words.told source.old)
        → S.words.left source.old ≡ [] → S.words.left source.new ≡ [] }
{
    match source.read(&mut [0]) {
        Ok(0) => Ok(()),
        Ok(_) => Err(SuiteFault::WrongEnd),
        Err(_) => Err(SuiteFault::DeviceFault),
    }
}

/// Writes no bytes, and then these bytes. What the device holds afterwards is for the caller to compare.
pub fn sink_suite<K: Sink>(sink: &mut K, bytes: &[u8]) -> Result<(), SuiteFault>
    ensures same { IsSameSink K.words sink.old sink.new }
    ensures cause { IsErrOf result SuiteFault.DeviceFault
        → HasFailed K.words.faults sink.old sink.new }
    ensures fault { IfErr result IsNoVerdict }
    ensures ok { OnOk result (IsTrue (K.words.told sink.old)
        → K.words.taken sink.new ≡ K.words.taken sink.old ++ bytes.now) }
{
    if write_all(sink, &[]).is_err() || write_all(sink, bytes).is_err() {
        return Err(SuiteFault::DeviceFault);
    }
    Ok(())
}
