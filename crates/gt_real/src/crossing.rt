// For the proof: each device that a thread comes to own crosses to one and back.
use crate::{FileDisk, RealClock, StdSink, StdSource, TcpDoor, TcpIn, TcpOut};
use std::fs::File;
use std::rt::{Stdin, Stdout};
use std::thread::{Threads, join};

fn send<D: Send + Drop, R: Threads>(rt: &R, device: D) -> D {
    let (device, ()) = join(rt, move || device, || ());
    device
}

/// A disk is owned by another thread, and comes back.
pub fn send_disk<R: Threads>(rt: &R, disk: FileDisk<File>) -> FileDisk<File> {
    send(rt, disk)
}

/// Standard input as a source, in the same way.
pub fn send_source<R: Threads>(rt: &R, source: StdSource<Stdin>) -> StdSource<Stdin> {
    send(rt, source)
}

/// Standard output as a sink, in the same way.
pub fn send_sink<R: Threads>(rt: &R, sink: StdSink<Stdout>) -> StdSink<Stdout> {
    send(rt, sink)
}

/// A door, in the same way.
pub fn send_door<R: Threads>(rt: &R, door: TcpDoor) -> TcpDoor {
    send(rt, door)
}

/// The two sides of a connection, in the same way.
pub fn send_link<R: Threads>(rt: &R, link: (TcpIn, TcpOut)) -> (TcpIn, TcpOut) {
    send(rt, link)
}

/// The clock of the program's own runtime, in the same way.
pub fn send_clock<R: Threads>(rt: &R, clock: RealClock<HostRuntime>) -> RealClock<HostRuntime> {
    send(rt, clock)
}
