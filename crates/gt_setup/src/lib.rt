//! The setup of a desk: the identities that may call it, with their tokens and groups, and the collections that it serves.
//!
//! Contracts see a setup as a record of its parts (`specs/Setup.antt`), and say which bytes stand for which setup
//! (`specs/Grammar.antt`). A token is known by its SHA-256 alone.
#![tactic(auto)]

mod fault;
mod keys;
mod laws;
mod owners;
mod parts;
mod places;
mod rows;
mod setup;
mod value;

pub use fault::SetupFault;
pub use laws::stands_once;
pub use parts::{Collection, Identity};
pub use setup::Setup;
