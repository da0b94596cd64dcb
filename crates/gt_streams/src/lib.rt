//! Bytes that come and bytes that go, through devices that may fail and count it.
//!
//! A `Source` gives bytes and a `Sink` takes them, both in pieces of their own choosing. `read_line`, `read_exactly` and
//! `write_all` put the pieces together, and say of each answer which bytes were taken or written (`specs/Reading.antt`).
//! A `Door` hands out links, each a source and a sink. `MemSource`, `MemSink` and `MemDoor` hold what they give and take
//! in memory, and fail at the calls that they are told to fail at.
#![tactic(auto)]

mod door;
#[cfg(test)]
mod door_tests;
mod exact;
mod line;
mod mem_door;
mod mem_sink;
mod mem_source;
mod sink;
mod source;
mod suite;
mod suite_fault;
#[cfg(test)]
mod tests;
#[cfg(test)]
mod wrong;

pub use door::{Door, DoorFault};
pub use exact::read_exactly;
pub use line::{LineEnd, StreamFault, read_line};
pub use mem_door::MemDoor;
pub use mem_sink::MemSink;
pub use mem_source::MemSource;
pub use sink::{Partial, Sink, write_all};
pub use source::Source;
pub use suite::{sink_suite, source_suite};
pub use suite_fault::SuiteFault;
