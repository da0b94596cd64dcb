//! One file as the layers above see it: what a read gives now, and what a crash may leave, now or at any moment since an earlier one.
//!
//! `Disk` is the trait, which a real file meets by its count of faults alone. `MemDisk` is a file in memory that tells
//! its content, fails where it is told to, and shows each kind of crash (`specs/Disk.antt`, `specs/Images.antt`).
#![tactic(auto)]

mod call;
mod crash;
mod disk;
mod keep;
mod laws;
mod lent;
mod mem;
mod noting;
mod overlay;
mod suite;
mod suite_fault;

pub use disk::Disk;
pub use keep::Keep;
pub use laws::torn_writes;
pub use mem::MemDisk;
pub use suite::disk_suite;
pub use suite_fault::SuiteFault;
