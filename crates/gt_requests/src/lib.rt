//! Requests as they are read: from a method, a target, a token and a body to a caller and a command, or to the refusal
//! that needs no state.
//!
//! Contracts cite one definition, `request_of` (`specs/Request.antt`). The readers of members are those of
//! `gt_documents`: a document is a function here that calls them in order, one row a member. A route has one row in each
//! table of `resource.rt` and `action.rt`.
#![tactic(auto)]

mod access;
mod action;
mod commands;
mod entries;
mod fault;
mod incoming;
mod laws;
mod refusal;
mod request;
mod resource;
mod router;
mod routes;
mod shared;
mod target;
mod transfer;

pub use fault::RequestFault;
pub use incoming::Incoming;
pub use laws::{first_bad_member, first_cause_refuses, unknown_members_change_nothing};
pub use request::read_request;
pub use routes::Routes;
