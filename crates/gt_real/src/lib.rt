//! The real devices: a journal's file, standard streams and files as streams, a port, and the clock.
//!
//! Each is made with the name by which a person knows it, counts its faults and says them (`gt_faults`). None tells what
//! it holds: of each it is proved that a call fails exactly where its count rises by one.
#![tactic(auto)]

mod crossing;
mod file_disk;
mod real_clock;
mod std_sink;
mod std_source;
mod tcp_door;
mod tcp_link;

pub use crossing::{send_clock, send_disk, send_door, send_link, send_sink, send_source};
pub use file_disk::{FileDisk, FileFault, OpenFile};
pub use real_clock::RealClock;
pub use std_sink::StdSink;
pub use std_source::StdSource;
pub use tcp_door::TcpDoor;
pub use tcp_link::{TcpIn, TcpOut};
