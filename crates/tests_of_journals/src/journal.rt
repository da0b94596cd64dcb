// Faults and crashes at each call of an append, journals cut at each byte, and the calls of an opening.
use gt_disk::{Disk, Keep, MemDisk};
use gt_journal::{Journal, JournalFault, OpenFault, Settled};
use std::alloc::Global;
use std::test::Fail;

// An append to an empty file, whose call of this number fails. The opening makes calls 1 to 4, the append 5 to 8.
fn appended(alloc: Global, fail: u64, body: &[u8]) -> Result<Journal<MemDisk>, Fail> {
    let disk = MemDisk::new(alloc, Vec::new(alloc), vec![in alloc; fail]?)?;
    match Journal::open(alloc, disk) {
        Ok((mut journal, _)) => {
            journal.reserve(body.len() as u64)?;
            let _ = journal.append(body);
            Ok(journal)
        }
        Err(_) => Err("the opening failed")?,
    }
}

/// What an opening finds: bodies, or those before a damaged record.
#[derive(Clone, Copy, Debug, PartialEq, Eq)]
enum Opened {
    Bodies(u64),
    Damage { at_record: u64 },
    Fault,
}

// The number of the damaged record, and the bodies before it.
fn damage(fault: OpenFault) -> Option<(u64, Vec<Vec<u8>>)> {
    match fault {
        OpenFault::Damaged { at_record, bodies } => Some((at_record, bodies)),
        OpenFault::JournalFault | OpenFault::OutOfMemory => None,
    }
}

fn found(alloc: Global, disk: MemDisk) -> Opened {
    match Journal::open(alloc, disk) {
        Ok((_, bodies)) => Opened::Bodies(bodies.len() as u64),
        Err((fault, _disk)) => match damage(fault) {
            Some((at_record, _)) => Opened::Damage { at_record },
            None => Opened::Fault,
        },
    }
}

fn is_in_doubt(alloc: Global, fail: u64) -> Result<bool, Fail> {
    Ok(appended(alloc, fail, &[7, 8])?.in_doubt())
}

fn crashed(alloc: Global, fail: u64, keep: Keep) -> Result<MemDisk, Fail> {
    let disk = appended(alloc, fail, &[7, 8])?.close();
    Ok(disk.crash(alloc, keep)?)
}

fn left(alloc: Global, fail: u64, keep: Keep) -> Result<Opened, Fail> {
    Ok(found(alloc, crashed(alloc, fail, keep)?))
}

/// The call that fails, whether the body is in doubt then, and how many bodies each kind of crash leaves.
const FAULTS: [(u64, bool, u64, u64, u64); 5] = [
    (5, false, 0, 0, 0),
    (6, false, 0, 0, 0),
    (7, true, 0, 0, 0),
    (8, true, 0, 1, 1),
    (9, false, 1, 1, 1),
];

#[test]
fn a_fault_of_each_call_and_then_a_crash(rt: HostRuntime) -> Result<(), Fail> {
    let alloc = rt.alloc();
    for (fail, doubt, synced, written, torn) in FAULTS {
        assert_eq!(rt; is_in_doubt(alloc, fail)?, doubt, "at {fail}");
        let bodies = left(alloc, fail, Keep::Synced)?;
        assert_eq!(rt; bodies, Opened::Bodies(synced), "at {fail}");
        let bodies = left(alloc, fail, Keep::Written)?;
        assert_eq!(rt; bodies, Opened::Bodies(written), "at {fail}");
        for at in [0, 1, 65] {
            let bodies = left(alloc, fail, Keep::Torn { at })?;
            assert_eq!(rt; bodies, Opened::Bodies(torn), "at {fail}, torn at {at}");
        }
    }
    Ok(())
}

fn contents<D: Disk>(alloc: Global, disk: &mut D) -> Result<Vec<u8>, Fail> {
    let mut bytes = Vec::new(alloc);
    bytes.resize(disk.len()? as usize, 0)?;
    disk.read(0, &mut bytes)?;
    Ok(bytes)
}

fn bytes_left(alloc: Global, fail: u64, keep: Keep) -> Result<Vec<u8>, Fail> {
    contents(alloc, &mut crashed(alloc, fail, keep)?)
}

const EMPTY: &[u8] = b"\x00";

const STAGED: &[u8] = b"\x00\x00\x00\x00\x00\x00\x00\x00\x02\x07\x08\x00";

const KEPT: &[u8] = b"\x01\x00\x00\x00\x00\x00\x00\x00\x02\x07\x08\x00";

/// The call that fails, and the file that a crash leaves of what was synced, and of all that was written.
const FILES: [(u64, &[u8], &[u8]); 5] = [
    (5, EMPTY, EMPTY),
    (6, EMPTY, STAGED),
    (7, STAGED, STAGED),
    (8, STAGED, KEPT),
    (9, KEPT, KEPT),
];

#[test]
fn the_file_after_each_step_of_an_append(rt: HostRuntime) -> Result<(), Fail> {
    let alloc = rt.alloc();
    for (fail, synced, written) in FILES {
        let left = bytes_left(alloc, fail, Keep::Synced)?;
        assert_eq!(rt; left.as_slice(), synced, "at {fail}");
        let left = bytes_left(alloc, fail, Keep::Written)?;
        assert_eq!(rt; left.as_slice(), written, "at {fail}");
    }
    Ok(())
}

/// What settling answers, whether a body is in doubt then, and what an opening after a crash finds.
#[derive(Clone, Copy)]
struct End {
    answer: Result<Settled, JournalFault>,
    doubt: bool,
    found: Opened,
}

fn settled(alloc: Global, fail: u64) -> Result<End, Fail> {
    let mut journal = appended(alloc, fail, &[7, 8])?;
    let answer = journal.settle();
    let doubt = journal.in_doubt();
    let left = journal.close().crash(alloc, Keep::Synced)?;
    let found = found(alloc, left);
    Ok(End {
        answer,
        doubt,
        found,
    })
}

const SETTLINGS: [(u64, Settled, u64); 4] = [
    (6, Settled::Nothing, 0),
    (7, Settled::Dropped, 0),
    (8, Settled::Kept, 1),
    (9, Settled::Nothing, 1),
];

#[test]
fn a_body_in_doubt_is_settled_by_its_gate(rt: HostRuntime) -> Result<(), Fail> {
    for (fail, answer, bodies) in SETTLINGS {
        let end = settled(rt.alloc(), fail)?;
        assert_eq!(rt; end.answer, Ok(answer), "at {fail}");
        assert!(rt; !end.doubt);
        assert_eq!(rt; end.found, Opened::Bodies(bodies), "at {fail}");
    }
    Ok(())
}

// What an opening of a file of these bytes finds.
fn found_in(alloc: Global, bytes: &[u8]) -> Result<Opened, Fail> {
    let disk = MemDisk::new(alloc, bytes.to_vec(alloc)?, Vec::new(alloc))?;
    Ok(found(alloc, disk))
}

const WHOLE: &[u8; 35] =
    b"\x01\x00\x00\x00\x00\x00\x00\x00\x19\x01\x00\x00\x00\x00\x00\x00\x00\x64\x00\x00\x00\x00\x00\x00\x40\x00\x80\x00\x00\x00\x00\x00\x00\xa1\x00";

#[test]
fn a_journal_cut_at_each_byte(rt: HostRuntime) -> Result<(), Fail> {
    for cut in 0..36 {
        let want = match cut {
            0..=8 => Opened::Bodies(0),
            9..=33 => Opened::Damage { at_record: 0 },
            _ => Opened::Bodies(1),
        };
        let left = found_in(rt.alloc(), &WHOLE[..cut])?;
        assert_eq!(rt; left, want, "cut to {cut}");
    }
    let short = b"\x01\x00\x00\x00\x00\x00\x00\x00\x01\x63\x00";
    assert_eq!(rt; found_in(rt.alloc(), short)?, Opened::Bodies(1));
    Ok(())
}

fn damage_in(alloc: Global, bytes: &[u8]) -> Result<(u64, Vec<Vec<u8>>), Fail> {
    let disk = MemDisk::new(alloc, bytes.to_vec(alloc)?, Vec::new(alloc))?;
    match Journal::open(alloc, disk) {
        Ok(_) => Err("the journal was opened")?,
        Err((fault, _disk)) => Ok(damage(fault).ok_or("the damage was not told")?),
    }
}

#[test]
fn a_damaged_record_comes_with_the_bodies_before_it(rt: HostRuntime) -> Result<(), Fail> {
    let bytes = b"\x01\x00\x00\x00\x00\x00\x00\x00\x01\x63\x01\x00\x00\x00\x00\x00\x00\x00\x05\x64";
    let (at_record, bodies) = damage_in(rt.alloc(), bytes)?;
    assert_eq!(rt; at_record, 1);
    assert_eq!(rt; bodies.len(), 1);
    assert_eq!(rt; bodies[0].as_slice(), b"c".as_slice());
    Ok(())
}

/// The calls of a disk by an opening and an append, and with another opening, and whether this one gives the body back.
#[derive(Clone, Copy)]
struct Counted {
    appending: u64,
    reopening: u64,
    gives_back: bool,
}

fn calls(alloc: Global, body: &[u8]) -> Result<Counted, Fail> {
    let disk = appended(alloc, 0, body)?.close();
    let appending = disk.calls();
    match Journal::open(alloc, disk) {
        Ok((journal, bodies)) => Ok(Counted {
            appending,
            reopening: journal.close().calls(),
            gives_back: bodies.len() == 1 && bodies[0].as_slice() == body,
        }),
        Err(_) => Err("the opening failed")?,
    }
}

#[test]
fn a_long_journal_is_read_in_pieces(rt: HostRuntime) -> Result<(), Fail> {
    let body = vec![in rt.alloc(); 5; 131_063]?;
    let calls = calls(rt.alloc(), &body)?;
    // sync, len, write and sync at the opening, and four calls of the append
    assert_eq!(rt; calls.appending, 8);
    // sync, len, two whole pieces and one of a byte, write and sync
    assert_eq!(rt; calls.reopening, 15);
    assert!(rt; calls.gives_back);
    Ok(())
}
