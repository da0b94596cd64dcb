//! Tests of the values, the index of rows, the paths and the plain data of the desk.
//!
//! There is nothing here but tests, each file for the crate that it is named after: a crate's tests are proved with the
//! crate once more, and those of a crate of tests once.
#![tactic(auto)]

#[cfg(test)]
mod index;
#[cfg(test)]
mod paths;
#[cfg(test)]
mod types;
#[cfg(test)]
mod values;
