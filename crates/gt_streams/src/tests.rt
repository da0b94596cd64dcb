// Tables of calls over sources and sinks in memory, and the suites over devices that are wrong in one call.
use crate::wrong::{Wrong, WrongSink, WrongSource};
use crate::{
    LineEnd, MemSink, MemSource, Partial, Sink, Source, StreamFault, SuiteFault, read_exactly,
    read_line, sink_suite, source_suite, write_all,
};
use std::alloc::{AllocError, Global};
use std::test::Fail;

const PIECES: [u32; 3] = [1, 3, 4096];

/// A call of a source.
#[derive(Clone, Copy)]
enum Call {
    Line(u32),
    Bytes(u64),
}

/// A call of a source, its answer, and the bytes that it hands out. A number of bytes ends in no line.
type Row = (Call, Result<Option<LineEnd>, StreamFault>, &'static [u8]);

const LINES: &[Row] = &[
    (Call::Line(100), Ok(Some(LineEnd::Line)), b"send 5"),
    (Call::Bytes(5), Ok(None), b"ab\ncd"),
    (Call::Line(100), Ok(Some(LineEnd::Line)), b""),
    (Call::Line(100), Ok(Some(LineEnd::Line)), b""),
    (
        Call::Line(100),
        Ok(Some(LineEnd::EndOfInput { have: 3 })),
        b"end",
    ),
    (Call::Bytes(0), Ok(None), b""),
];

fn source(alloc: Global, bytes: &[u8], piece: u32, fails: &[u64]) -> Result<MemSource, AllocError> {
    let bytes = bytes.to_vec(alloc)?;
    Ok(MemSource::new(bytes, piece.max(1), fails.to_vec(alloc)?))
}

fn make_call(
    source: &mut MemSource,
    call: Call,
    into: &mut Vec<u8>,
) -> Result<Option<LineEnd>, StreamFault> {
    match call {
        Call::Line(max) => Ok(Some(read_line(source, max, into)?)),
        Call::Bytes(want) => {
            read_exactly(source, want, into)?;
            Ok(None)
        }
    }
}

// How many calls from the first on go as their rows say, and the count of faults behind them.
fn as_listed(
    alloc: Global,
    bytes: &[u8],
    piece: u32,
    fails: &[u64],
    rows: &[Row],
) -> Result<(usize, u64), AllocError> {
    let mut source = source(alloc, bytes, piece, fails)?;
    let mut into = Vec::new(alloc);
    for (place, (call, answer, out)) in rows.iter().enumerate() {
        if make_call(&mut source, *call, &mut into) != *answer || into.as_slice() != *out {
            return Ok((place, source.faults()));
        }
    }
    Ok((rows.len(), source.faults()))
}

#[test]
fn lines_and_exact_reads_in_any_pieces(rt: HostRuntime) -> Result<(), Fail> {
    let bytes = b"send 5\nab\ncd\n\nend";
    for piece in PIECES {
        let right = as_listed(rt.alloc(), bytes, piece, &[], LINES)?;
        assert_eq!(rt; right, (6, 0), "in pieces of {piece}");
    }
    Ok(())
}

// Where a line or a number of bytes ends, on the bytes "ab".
const EDGES: [&[Row]; 5] = [
    &[(
        Call::Line(3),
        Ok(Some(LineEnd::EndOfInput { have: 2 })),
        b"ab",
    )],
    &[(Call::Line(2), Err(StreamFault::TooLong { max: 2 }), b"ab")],
    // Nothing was taken by a line of no bytes.
    &[
        (Call::Line(0), Err(StreamFault::TooLong { max: 0 }), b""),
        (Call::Bytes(2), Ok(None), b"ab"),
    ],
    &[(
        Call::Bytes(3),
        Err(StreamFault::Cut { have: 2, want: 3 }),
        b"ab",
    )],
    &[(
        Call::Bytes(u64::MAX),
        Err(StreamFault::Cut {
            have: 2,
            want: u64::MAX,
        }),
        b"ab",
    )],
];

#[test]
fn line_and_exact_reads(rt: HostRuntime) -> Result<(), Fail> {
    for rows in EDGES {
        let right = as_listed(rt.alloc(), b"ab", 1, &[], rows)?;
        assert_eq!(rt; right, (rows.len(), 0));
    }
    Ok(())
}

const FAILED_READS: &[Row] = &[
    (Call::Line(9), Err(StreamFault::ReadFault), b"ab"),
    (Call::Line(9), Ok(Some(LineEnd::Line)), b"c"),
    (Call::Bytes(2), Err(StreamFault::ReadFault), b""),
    (Call::Bytes(2), Ok(None), b"de"),
];

#[test]
fn a_failing_read_takes_nothing(rt: HostRuntime) -> Result<(), Fail> {
    let right = as_listed(rt.alloc(), b"abc\nde", 2, &[3, 6], FAILED_READS)?;
    assert_eq!(rt; right, (4, 2));
    Ok(())
}

/// Bytes to write, the answer, and all that the sink holds then.
type Write = (&'static [u8], Result<(), Partial>, &'static [u8]);

const FAILED_WRITES: &[Write] = &[
    (b"abcdefgh", Err(Partial { wrote: 3 }), b"abc"),
    (b"defgh", Ok(()), b"abcdefgh"),
];

// How many writes from the first on go as listed, to a sink whose second write fails, and its counts of faults and of
// writes that found no memory.
fn writes(alloc: Global, list: &[Write]) -> Result<(usize, u64, u64), AllocError> {
    let mut sink = MemSink::new(alloc, 3, [2].to_vec(alloc)?);
    for (place, (bytes, answer, held)) in list.iter().enumerate() {
        if write_all(&mut sink, bytes) != *answer || sink.bytes() != *held {
            return Ok((place, sink.faults(), sink.starved()));
        }
    }
    Ok((list.len(), sink.faults(), sink.starved()))
}

#[test]
fn a_failing_write_takes_nothing(rt: HostRuntime) -> Result<(), Fail> {
    assert_eq!(rt; writes(rt.alloc(), FAILED_WRITES)?, (2, 1, 0));
    Ok(())
}

// The suite over a source in memory.
fn source_passes(alloc: Global, bytes: &[u8], piece: u32) -> Result<bool, AllocError> {
    let mut source = source(alloc, bytes, piece, &[])?;
    Ok(source_suite(alloc, &mut source, bytes).is_ok())
}

// The suite over a sink in memory, which then holds the bytes and counted no fault.
fn sink_passes(alloc: Global, bytes: &[u8], piece: u32) -> bool {
    let mut sink = MemSink::new(alloc, piece.max(1), Vec::new(alloc));
    sink_suite(&mut sink, bytes).is_ok() && sink.bytes() == bytes && sink.faults() == 0
}

#[test]
fn all_bytes_pass_in_any_pieces(rt: HostRuntime) -> Result<(), Fail> {
    let bytes = vec![in rt.alloc(); 7; 10_000]?;
    for piece in PIECES {
        assert!(rt;
            source_passes(rt.alloc(), &bytes, piece)?,
            "in pieces of {piece}"
        );
        assert!(rt;
            sink_passes(rt.alloc(), &bytes, piece),
            "in pieces of {piece}"
        );
    }
    Ok(())
}

// What is wrong, in each call from the first number to before the second, and what the suite says of it.
const WRONG_SOURCES: [(Wrong, u64, u64, Result<(), SuiteFault>); 5] = [
    (Wrong::Byte, 1, 6, Err(SuiteFault::WrongBytes)),
    (Wrong::LeftOut, 1, 6, Err(SuiteFault::WrongEnd)),
    (Wrong::Nothing, 1, 6, Err(SuiteFault::WrongEnd)),
    (Wrong::More, 6, 8, Err(SuiteFault::WrongEnd)),
    (Wrong::Byte, 8, 9, Ok(())),
];

// The suite over a source of five bytes, given one by one, that is wrong in one call.
fn found(alloc: Global, wrong: Wrong, at: u64) -> Result<Result<(), SuiteFault>, AllocError> {
    let inner = source(alloc, b"bytes", 1, &[])?;
    let mut source = WrongSource {
        inner,
        wrong,
        at,
        calls: 0,
    };
    Ok(source_suite(alloc, &mut source, b"bytes"))
}

#[test]
fn wrong_sources_are_found(rt: HostRuntime) -> Result<(), Fail> {
    for (wrong, first, end, verdict) in WRONG_SOURCES {
        for at in first..end {
            assert_eq!(rt; found(rt.alloc(), wrong, at)?, verdict, "{wrong:?} at {at}");
        }
    }
    Ok(())
}

// Whether a sink that is wrong in one call passes its suite and holds the bytes behind it.
fn holds(alloc: Global, wrong: Wrong, at: u64) -> Option<bool> {
    let mut sink = WrongSink {
        inner: MemSink::new(alloc, 2, Vec::new(alloc)),
        wrong,
        at,
        calls: 0,
    };
    sink_suite(&mut sink, b"bytes").ok()?;
    Some(sink.inner.bytes() == b"bytes".as_slice())
}

const WRONGS: [Wrong; 4] = [Wrong::Byte, Wrong::LeftOut, Wrong::Nothing, Wrong::More];

#[test]
fn wrong_sinks_hold_other_bytes(rt: HostRuntime) -> Result<(), Fail> {
    for at in 1..4 {
        for wrong in WRONGS {
            assert_eq!(rt;
                holds(rt.alloc(), wrong, at),
                Some(false),
                "{wrong:?} at {at}"
            );
        }
    }
    assert_eq!(rt; holds(rt.alloc(), Wrong::Byte, 9), Some(true));
    Ok(())
}
