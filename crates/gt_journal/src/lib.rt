//! A journal: a list of bodies in one file, each there whole or not at all after a crash at any moment.
//!
//! A record counts if and only if its gate byte is 1 and it is whole (`specs/JournalText.antt`). Appending writes behind
//! a closed gate, syncs, opens the gate and syncs, so that no crash leaves a part of a record (`docs/JOURNAL.md`).
#![tactic(auto)]

mod fault;
mod frame;
mod gates;
mod journal;
mod laws;
mod open_fault;
mod opening;
mod pieces;
mod reading;
mod settled;

pub use fault::JournalFault;
pub use journal::Journal;
pub use laws::one_reading;
pub use open_fault::OpenFault;
pub use settled::Settled;
