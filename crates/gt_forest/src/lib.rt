//! Trees of files and folders, one for each collection, as the layers above see them.
//!
//! `Forest` is the trait: its calls may fail, and count it. A forest that is told says what its trees hold, and each
//! call is a relation between the trees before, the answer and the trees after (`specs/Tree.antt`, `specs/Calls.antt`).
//! A real folder tells nothing, and meets the trait by its counts alone. `MemForest` holds its trees in memory.
#![tactic(auto)]

mod fault;
mod folders;
mod forest;
mod laws;
mod lent;
mod look;
mod mem;
mod node;
mod place;
mod stages;
mod tree;

pub use fault::TreeFault;
pub use forest::Forest;
pub use laws::{calls_keep_trees, trees_decide_answers};
pub use look::start_of;
pub use mem::MemForest;
