//! Names and paths of the files and folders of a collection.
//!
//! A contract sees a name as its bytes and a path as the list of its names, from the root of its collection.
#![tactic(auto)]

mod draft;
mod fault;
mod name;
mod path;
mod pieces;

pub use fault::{NameFault, PathFault};
pub use name::Name;
pub use path::Path;
