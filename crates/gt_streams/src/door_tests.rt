// A door in memory: its links in order, a call that fails, the end, and what was given back.
ghost use Rattle.std.specs.Prelude.{false, ◌≡◌};

use crate::{Door, DoorFault, MemDoor, MemSink, MemSource, Sink, Source};
use std::alloc::{AllocError, Global};
use std::test::Fail;

fn link(alloc: Global, bytes: &[u8]) -> Result<(MemSource, MemSink), AllocError> {
    let source = MemSource::new(bytes.to_vec(alloc)?, 4096, Vec::new(alloc));
    Ok((source, MemSink::new(alloc, 4096, Vec::new(alloc))))
}

// Serves one link: what it brings is sent back. How many bytes those were, or none at the door's end.
fn echo(alloc: Global, door: &mut MemDoor) -> Result<Option<usize>, DoorFault>
    requires { door.old.is_out ≡ false }
    ensures { door.new.is_out ≡ false }
{
    let Some((mut source, mut sink)) = door.next_link(alloc)? else {
        return Ok(None);
    };
    let mut into = [0u8; 16];
    let read = source.read(&mut into).unwrap_or(0);
    let wrote = sink.write(&into[..read]).unwrap_or(0);
    door.give_back((source, sink));
    Ok(Some(wrote))
}

// What the link given back at this place took, or none where there is none.
fn took(door: &MemDoor, place: u64) -> Option<&[u8]> {
    let (_, sink) = door.link(place)?;
    Some(sink.bytes())
}

#[test]
fn links_in_order_and_back(rt: HostRuntime) -> Result<(), Fail> {
    let alloc = rt.alloc();
    let links = vec![in alloc; link(alloc, b"one")?, link(alloc, b"three")?]?;
    let mut door = MemDoor::new(alloc, links, vec![in alloc; 2]?)?;
    assert_eq!(rt; echo(alloc, &mut door), Ok(Some(3)));
    assert_eq!(rt; echo(alloc, &mut door), Err(DoorFault::Failed));
    assert_eq!(rt; echo(alloc, &mut door), Ok(Some(5)));
    assert_eq!(rt; echo(alloc, &mut door), Ok(None));
    assert_eq!(rt; door.faults(), 1);
    assert_eq!(rt; took(&door, 0), Some(b"one".as_slice()));
    assert_eq!(rt; took(&door, 1), Some(b"three".as_slice()));
    assert_eq!(rt; took(&door, 2), None);
    Ok(())
}
