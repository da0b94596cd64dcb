ghost use Rattle.gt_causes.specs.Causes.{HasFailed};
ghost use Rattle.gt_streams.specs.Streams.{IsSameSource};
ghost use Rattle.std.specs.Prelude.{IfErr, IfOk, IsErrOf, ◌≡◌, ◌⊎◌};
ghost use Rattle.transferd.specs.Endings.{read_from};
ghost use Rattle.transferd.specs.Opening.{IsNotRead, IsRead, ReadsSetup};
ghost use Rattle.transferd.specs.declared.exit.Exit.TheVariants.{OutOfMemory, SourceFault};

use crate::exit::Exit;
use gt_setup::{Setup, SetupFault};
use gt_streams::{Source, StreamFault, read_exactly};
use std::alloc::Global;

// The most bytes of a setup that are read: one more than it may have, so that a longer one is known.
const SETUP_BYTES: u64 = 1_048_577;

/// Reads a setup to its end, or until it is known to be too long.
///
/// `SetupRefused` comes exactly where the bytes that were read stand for none.
pub fn read_setup<S: Source>(alloc: Global, source: &mut S) -> Result<Setup, Exit>
    ensures ok { IfOk result (IsRead (read_from S.words source.old source.new)) }
    ensures err { IfErr result (IsNotRead (read_from S.words source.old source.new)) }
    ensures cause { IsErrOf result Exit.SourceFault
        → HasFailed S.words.faults source.old source.new }
    ensures same { IsSameSource S.words source.old source.new }
{
    let bytes = read_bytes(alloc, source)?;
    match Setup::read(alloc, &bytes) {
        Ok(setup) => Ok(setup),
        Err(SetupFault::OutOfMemory) => Err(Exit::OutOfMemory),
        Err(fault) => Err(Exit::SetupRefused { fault }),
    }
}

fn read_bytes<S: Source>(alloc: Global, source: &mut S) -> Result<Vec<u8>, Exit>
    ensures read { IfOk result (λ bytes. ReadsSetup
        (read_from S.words source.old source.new) bytes.items) }
    ensures exit { IfErr result (λ exit. (exit ≡ SourceFault) ⊎ (exit ≡ OutOfMemory)) }
    ensures cause { IsErrOf result Exit.SourceFault
        → HasFailed S.words.faults source.old source.new }
    ensures same { IsSameSource S.words source.old source.new }
{
    let mut bytes = Vec::new(alloc);
    match read_exactly(source, SETUP_BYTES, &mut bytes) {
        Ok(()) => Ok(bytes),
        Err(StreamFault::Cut { have: _, want: _ }) => Ok(bytes),
        Err(StreamFault::ReadFault) => Err(Exit::SourceFault),
        Err(StreamFault::OutOfMemory) => Err(Exit::OutOfMemory),
        Err(StreamFault::TooLong { max: _ }) => unreachable!(),
    }
}
