//! Tests of the service.
//!
//! There is nothing here but tests, each file for the crate that it is named after: a crate's tests are proved with the
//! crate once more, and those of a crate of tests once.
#![tactic(auto)]

#[cfg(test)]
mod desk;
#[cfg(test)]
mod service;
