// Connections over a real port: a peer that reads its reply to the end, one that sent more than was read, and one that
// never reads. And the clock.
ghost use Rattle.std.specs.Prelude.{false, ◌≡◌};

use gt_real::{RealClock, TcpDoor};
use gt_streams::{Door, DoorFault, Source, write_all};
use gt_values::Clock;
use std::alloc::Global;
use std::io::{self, Read, Write};
use std::net::{Ipv4Addr, Net, Shutdown, SocketAddr, SocketAddrV4, TcpListener, TcpStream};
use std::test::Fail;
use std::thread::{Threads, join};

const REPLY: &[u8] = b"what was asked for\n";

// A message of more bytes than a connection holds unread, of which a link reads the first alone.
const LONG: usize = 3_000_000;

// Serves one link: reads once, answers, and gives it back. How many bytes were read.
fn serve(alloc: Global, door: &mut TcpDoor) -> Result<usize, DoorFault>
    requires { door.old.is_out ≡ false }
    ensures { door.new.is_out ≡ false }
{
    let Some((mut source, mut sink)) = door.next_link(alloc)? else {
        return Ok(0);
    };
    let mut into = [0u8; 5];
    let read = source.read(&mut into).unwrap_or(0);
    let _ = write_all(&mut sink, REPLY);
    door.give_back((source, sink));
    Ok(read)
}

fn connect<R: Net<Listener = TcpListener, Stream = TcpStream>>(
    rt: &R,
    port: u16,
) -> io::Result<TcpStream> {
    let address = SocketAddr::V4(SocketAddrV4::new(Ipv4Addr::LOCALHOST, port));
    TcpStream::connect(rt, address)
}

// Sends so many bytes, and reads the reply to its end. How many bytes of the reply came.
fn ask<R: Net<Listener = TcpListener, Stream = TcpStream>>(
    rt: &R,
    alloc: Global,
    port: u16,
    bytes: usize,
) -> io::Result<usize> {
    let mut stream = connect(rt, port)?;
    let message = vec![in alloc; b'm'; bytes]?;
    stream.write_all(&message)?;
    stream.shutdown(Shutdown::Write)?;
    let mut reply = Vec::new(alloc);
    stream.read_to_end(&mut reply)?;
    if reply.as_slice() == REPLY {
        Ok(reply.len())
    } else {
        Ok(0)
    }
}

// Sends, and goes away with nothing read.
fn never_read<R: Net<Listener = TcpListener, Stream = TcpStream>>(
    rt: &R,
    port: u16,
) -> io::Result<usize> {
    let mut stream = connect(rt, port)?;
    stream.write_all(b"hello")?;
    Ok(5)
}

// A new door serves one link, to a peer that sends so many bytes and reads its reply to the end, or goes away with nothing
// read where it sends none. What each side counted, and the door's faults.
fn meet<R: Threads + Net<Listener = TcpListener, Stream = TcpStream> + Alloc<A = Global> + Sync>(
    rt: &R,
    bytes: usize,
) -> Result<(Option<usize>, Option<usize>, u64), Fail> {
    let alloc = rt.alloc();
    let mut door = TcpDoor::bind(rt, 0)?;
    let port = door.port()?;
    let (served, asked) = join(
        rt,
        || serve(alloc, &mut door),
        || {
            if bytes == 0 {
                never_read(rt, port)
            } else {
                ask(rt, alloc, port, bytes)
            }
        },
    );
    Ok((served.ok(), asked.ok(), door.faults()))
}

#[test]
fn replies_reach_their_peer(rt: HostRuntime) -> Result<(), Fail> {
    let whole = Some(REPLY.len());
    assert_eq!(rt; meet(&rt, 5)?, (Some(5), whole, 0));
    assert_eq!(rt; meet(&rt, LONG)?, (Some(5), whole, 0));
    assert_eq!(rt; meet(&rt, 0)?, (Some(5), Some(5), 0));
    Ok(())
}

#[test]
fn port_in_use_is_refused(rt: HostRuntime) -> Result<(), Fail> {
    let door = TcpDoor::bind(&rt, 0)?;
    let port = door.port()?;
    assert!(rt; TcpDoor::bind(&rt, port).is_err());
    Ok(())
}

#[test]
fn clock_tells_a_moment_in_range(rt: HostRuntime) -> Result<(), Fail> {
    let clock = RealClock::new(rt);
    let first = clock.now();
    assert!(rt; first.seconds() > 1_700_000_000);
    assert!(rt; clock.now() >= first);
    Ok(())
}
