//! The documents that answer requests: the status and the bytes of each reply and each refusal.
//!
//! A document is a table of members (`specs/Documents.antt`, `specs/TaskDocument.antt`) and is written as compact JSON,
//! with the members of each object in the order of their names' bytes.
#![tactic(auto)]

mod answer;
mod code;
mod laws;
mod list;
mod member;
mod reply;
mod rule;
mod state;
mod task;
mod words;

pub use laws::{documents_are_spelled, members_ascend, statuses_have_three_digits};
pub use reply::{write_refusal, write_reply};
pub use words::{permissions_text, principal_type, status_name, type_name};
