// A desk that is asked by the service, through restarts, crashes and other setups.
use crate::service::{Ask, DOCUMENT, SETUP, SUBMIT, opened, served};
use gt_desk::{Desk, OpenFault};
use gt_disk::{Keep, MemDisk};
use gt_setup::Setup;
use std::alloc::Global;
use std::test::Fail;

// What came of opening a desk: the number of its events, the first bad record, or another fault.
#[derive(Clone, Copy, Debug, PartialEq, Eq)]
enum Opened {
    Events(u64),
    Damaged { at_record: u64 },
    Fault,
}

fn told(fault: OpenFault) -> Opened {
    match fault {
        OpenFault::Damaged { at_record } => Opened::Damaged { at_record },
        OpenFault::JournalFault | OpenFault::OutOfMemory => Opened::Fault,
    }
}

fn opened_under(alloc: Global, setup: &[u8], disk: MemDisk) -> Result<Opened, Fail> {
    let setup = Setup::read(alloc, setup)?;
    match Desk::open(alloc, setup, disk) {
        Ok(desk) => Ok(Opened::Events(desk.state().events())),
        Err(refused) => Ok(told(refused.fault)),
    }
}

// The same submission by the other identity.
const OTHER: Ask = Ask {
    token: "hello",
    method: "POST",
    target: "/v0.10/transfer",
    body: DOCUMENT,
};

// What a request is answered: its status alone.
fn status(alloc: Global, desk: &mut Desk<MemDisk>, ask: Ask) -> Result<u16, Fail> {
    let (status, _bytes) = served(alloc, desk, ask, ask.body.as_bytes().to_vec(alloc)?)?;
    Ok(status)
}

// The number of events that a restart finds behind a submission in which this call of the disk failed.
fn events_behind_restart(alloc: Global, call: u64) -> Result<(u16, Opened), Fail> {
    let mut desk = opened(alloc, &[call])?;
    let told_status = status(alloc, &mut desk, SUBMIT)?;
    match desk.reopen(alloc) {
        Ok(desk) => Ok((told_status, Opened::Events(desk.state().events()))),
        Err(refused) => Ok((told_status, told(refused.fault))),
    }
}

// The opening makes calls 1 to 4, the submission's record calls 5 to 8. The second sync of the record fails, so it is there all
// the same; or the first one, so it isn't.
#[test]
fn restart_settles_an_event_in_doubt(rt: HostRuntime) -> Result<(), Fail> {
    let kept = events_behind_restart(rt.alloc(), 8)?;
    assert_eq!(rt; kept, (503, Opened::Events(1)));
    let dropped = events_behind_restart(rt.alloc(), 6)?;
    assert_eq!(rt; dropped, (503, Opened::Events(0)));
    Ok(())
}

// The number of events that are found behind a submission that was accepted, one in which the second sync of its record failed,
// and a crash.
fn events_behind_crash(alloc: Global, keep: Keep) -> Result<(u16, u16, Opened), Fail> {
    let mut desk = opened(alloc, &[12])?;
    let first = status(alloc, &mut desk, SUBMIT)?;
    let second = status(alloc, &mut desk, OTHER)?;
    let (_setup, disk) = desk.close();
    let found = opened_under(alloc, SETUP, disk.crash(alloc, keep)?)?;
    Ok((first, second, found))
}

#[test]
fn crash_behind_a_fault_keeps_what_was_accepted(rt: HostRuntime) -> Result<(), Fail> {
    let lost = events_behind_crash(rt.alloc(), Keep::Synced)?;
    assert_eq!(rt; lost, (202, 503, Opened::Events(1)));
    let kept = events_behind_crash(rt.alloc(), Keep::Written)?;
    assert_eq!(rt; kept, (202, 503, Opened::Events(2)));
    Ok(())
}

// A setup without the identity that submitted, one without the destination's collection, and one with another namespace.
const WITHOUT_OWNER: &[u8] = b"namespace = 7
[[identity]]
id = \"00000000-0000-4000-8000-0000000000b2\"
name = \"bob\"
tokens = []
groups = []
[[collection]]
id = \"00000000-0000-4000-8000-0000000000c0\"
name = \"Lab\"
owner = \"00000000-0000-4000-8000-0000000000b2\"
home = \"/\"
[[collection]]
id = \"00000000-0000-4000-8000-0000000000c1\"
name = \"Store\"
owner = \"00000000-0000-4000-8000-0000000000b2\"
home = \"/\"
";

const WITHOUT_COLLECTION: &[u8] = b"namespace = 7
[[identity]]
id = \"00000000-0000-4000-8000-0000000000a1\"
name = \"ann\"
tokens = []
groups = []
[[collection]]
id = \"00000000-0000-4000-8000-0000000000c0\"
name = \"Lab\"
owner = \"00000000-0000-4000-8000-0000000000a1\"
home = \"/\"
";

const OF_ANOTHER_NAMESPACE: &[u8] = b"namespace = 8
[[identity]]
id = \"00000000-0000-4000-8000-0000000000a1\"
name = \"ann\"
tokens = []
groups = []
[[collection]]
id = \"00000000-0000-4000-8000-0000000000c0\"
name = \"Lab\"
owner = \"00000000-0000-4000-8000-0000000000a1\"
home = \"/\"
[[collection]]
id = \"00000000-0000-4000-8000-0000000000c1\"
name = \"Store\"
owner = \"00000000-0000-4000-8000-0000000000a1\"
home = \"/\"
";

// What is found under this setup of the journal of one submission.
fn found_under(alloc: Global, setup: &[u8]) -> Result<Opened, Fail> {
    let mut desk = opened(alloc, &[])?;
    let _ = status(alloc, &mut desk, SUBMIT)?;
    let (_setup, disk) = desk.close();
    opened_under(alloc, setup, disk)
}

#[test]
fn journal_under_another_setup(rt: HostRuntime) -> Result<(), Fail> {
    let without_owner = found_under(rt.alloc(), WITHOUT_OWNER)?;
    assert_eq!(rt; without_owner, Opened::Damaged { at_record: 0 });
    let without_collection = found_under(rt.alloc(), WITHOUT_COLLECTION)?;
    assert_eq!(rt; without_collection, Opened::Damaged { at_record: 0 });
    let renamed = found_under(rt.alloc(), OF_ANOTHER_NAMESPACE)?;
    assert_eq!(rt; renamed, Opened::Events(1));
    Ok(())
}
