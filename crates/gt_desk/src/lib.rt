//! A desk: the machine on a journal. It answers requests, and what it acknowledged stays through a crash at any moment.
//!
//! Each call settles the event in doubt, decides, takes all memory that it needs, writes one record, and only then makes
//! the machine's step (`specs/DeskCall.antt`). The history is the events of the journal's records (`specs/History.antt`).
#![tactic(auto)]

mod desk;
mod fault;
mod laws;
mod record;
mod replay;
mod steps;

pub use desk::Desk;
pub use fault::{DeskFault, OpenFault, OpenRefused};
pub use laws::{acknowledged_events_stay, one_history, submission_sent_again_makes_one_task};
