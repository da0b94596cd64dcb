//! What running items read and write, and which of them an act is in conflict with.
//!
//! A desk runs at most sixteen items at once, so their claims are a plain list.
#![tactic(auto)]

mod claim;
mod claims;
mod conflict;

pub use claim::Claim;
pub use claims::Claims;
