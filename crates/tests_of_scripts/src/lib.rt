//! Tests of the lines of a script, as they are read.
//!
//! There is nothing here but tests, each file for the crate that it is named after: a crate's tests are proved with the
//! crate once more, and those of a crate of tests once.
#![tactic(auto)]

#[cfg(test)]
mod scripts;
