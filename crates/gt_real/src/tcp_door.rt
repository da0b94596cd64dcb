ghost use Rattle.gt_causes.specs.Causes.{HasFailed};
ghost use Rattle.gt_real.specs.Doors.{CountsLinks, real_words};
ghost use Rattle.gt_streams.specs.Doors.{AsksNext, IsSameDoor, TakesBack};
ghost use Rattle.std.specs.Prelude.{IfOk, IsErrOf, false, true, ◌≡◌};

use crate::tcp_link::{TcpIn, TcpOut, ends_of};
use gt_faults::Faults;
use gt_streams::{Door, DoorFault};
use std::alloc::{AllocError, Global};
use std::io::{self, ErrorKind};
use std::marker::Model;
use std::net::{Ipv4Addr, Net, SocketAddr, SocketAddrV4, TcpListener, TcpStream};

// A connection that was aborted before it was accepted is passed over so many times in a row.
const ABORTED: u32 = 1_000;

/// Connections to a port of this machine, as links. It tells nothing of them.
#[derive(Drop)]
pub struct TcpDoor {
    listener: TcpListener,
    is_out: bool,
    faults: Faults,
}

impl Model for TcpDoor {
    ghost use Rattle.gt_real.specs.Doors.{RealDoor};

    ghost Value = { RealDoor };

    ghost view = { λ d. record { is_out = d.is_out; faults = d.faults } };
}

impl TcpDoor {
    /// Listens on this port of 127.0.0.1 alone. Where the port is 0 the system chooses a free one, which `port` tells.
    pub fn bind<R: Net<Listener = TcpListener, Stream = TcpStream> + Alloc<A = Global>>(
        rt: &R,
        port: u16,
    ) -> io::Result<TcpDoor>
        ensures { IfOk result (λ door. door ≡ record { is_out = false; faults = 0 }) }
    {
        let address = SocketAddr::V4(SocketAddrV4::new(Ipv4Addr::LOCALHOST, port));
        let listener = TcpListener::bind(rt, address)?;
        let Ok(name) = String::from_str(rt.alloc(), "the port") else {
            return Err(ErrorKind::OutOfMemory.into());
        };
        Ok(TcpDoor {
            listener,
            is_out: false,
            faults: Faults::new(name),
        })
    }

    /// The port that it listens on.
    pub fn port(&self) -> io::Result<u16> {
        Ok(self.listener.local_addr()?.port())
    }
}

impl Door for TcpDoor {
    type In = TcpIn;

    type Out = TcpOut;

    ghost words = { real_words };

    fn faults(&self) -> u64 {
        self.faults.count()
    }

    fn next_link(&mut self, alloc: Global) -> Result<Option<(TcpIn, TcpOut)>, DoorFault>
        requires { self.old.is_out ≡ false }
        ensures same { IsSameDoor real_words self.old self.new }
        ensures cause { IsErrOf result DoorFault.Failed
            → HasFailed real_words.faults self.old self.new }
        ensures value { AsksNext real_words self.old result self.new }
        ensures counted { CountsLinks self.old result self.new }
    {
        let stream = match accept(&self.listener) {
            Ok(stream) => stream,
            Err(error) => {
                self.faults.add("a connection", error);
                return Err(DoorFault::Failed);
            }
        };
        match ends_of(alloc, stream) {
            Ok(ends) => {
                self.is_out = true;
                Ok(Some(ends))
            }
            Err(AllocError) => Err(DoorFault::OutOfMemory),
        }
    }

    fn give_back(&mut self, link: (TcpIn, TcpOut))
        requires { self.old.is_out ≡ true }
        ensures same { IsSameDoor real_words self.old self.new }
        ensures value { TakesBack real_words self.old self.new }
    {
        let (source, sink) = link;
        sink.end();
        source.drain();
        self.is_out = false;
    }
}

// The next connection, whose small pieces are sent at once.
fn accept(listener: &TcpListener) -> io::Result<TcpStream> {
    for _ in 0..ABORTED {
        match listener.accept() {
            Ok((stream, _)) => {
                stream.set_nodelay(true)?;
                return Ok(stream);
            }
            Err(error) => {
                let kind = error.kind();
                if kind != ErrorKind::ConnectionAborted && kind != ErrorKind::Interrupted {
                    return Err(error);
                }
            }
        }
    }
    Err(ErrorKind::ConnectionAborted.into())
}
