//! The world that a run of the desk goes through: what a step may do of it, runs of steps, and what a crash leaves.
//!
//! A step is asked, told something, and leads to a world (`specs/World.antt`): whoever drives the desk, a script's lines or a
//! service, makes such steps. What a crash leaves at each moment is in `specs/Crashes.antt`. Facts for the proofs above stand
//! in `specs/CrashFacts.antt` and `specs/RunFacts.antt`.
#![tactic(auto)]

mod laws;

pub use laws::{acknowledged_events_stay_in_a_run, histories_of_a_run_are_sound};
