//! Tests of the forest over folders, in a folder for temporary ones.
//!
//! There is nothing here but tests: a crate's tests are proved with the crate once more, and those of a crate of tests once.
//! What a forest is asked, and what it has to answer, stands in tables.
#![tactic(auto)]

#[cfg(test)]
mod calls;
#[cfg(test)]
mod edges;
#[cfg(test)]
mod folder_forest;
#[cfg(test)]
mod parts;
#[cfg(test)]
mod strict;
#[cfg(test)]
mod things;
