//! The service: a request as it comes in, to the status and the bytes of its reply, over a desk.
//!
//! A request is read (`gt_requests`). Where that refuses it, the desk isn't asked. Else the desk is asked once, and its answer
//! is written (`gt_replies`): see `specs/Service.antt`. The order of refusals is the list `grounds` in `specs/Grounds.antt`.
#![tactic(auto)]

mod laws;
mod serve;

pub use laws::{
    first_ground_refuses, requests_make_at_most_one_event, submission_served_again_makes_one_task,
};
pub use serve::{serve_one, serve_with};
