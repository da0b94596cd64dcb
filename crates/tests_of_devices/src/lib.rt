//! Tests of the real devices: files, streams, connections to a port of this machine, and the clock.
//!
//! There is nothing here but tests, each file for the crate or the part of it that it is named after: a crate's tests are
//! proved with the crate once more, and those of a crate of tests once.
#![tactic(auto)]

#[cfg(test)]
mod real;
#[cfg(test)]
mod real_doors;
