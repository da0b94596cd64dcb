//! Open folders and files of the system, asked one by one: what a forest over folders stands on.
//!
//! `Folders` is the trait: one object, in one word of its own (`specs/Folders.antt`). What is open is a number in a table
//! inside it. `SystemFolders` is the real one, thin over the calls of the system: no call of it follows a link at the name
//! that it is given. Only this crate takes raw descriptors.
#![tactic(auto)]

mod bytes;
mod folders;
mod name;
mod sight;
mod system;
mod table;

pub use folders::Folders;
pub use name::EntryName;
pub use sight::{Sight, SightKind};
pub use system::SystemFolders;
