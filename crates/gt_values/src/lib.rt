//! The values that every part of the desk is made of: texts, lists, tables of rows, identifiers, digests and moments.
//!
//! Each type has a model, so that contracts compare values by `≡`: a text and an identifier are lists of bytes, a list is
//! the list of its elements, a moment is its number of seconds. Nothing here knows a task, a rule or a document.
#![tactic(auto)]

mod bytes;
mod clock;
mod decimal;
mod digest;
mod id;
mod laws;
mod life;
mod moment;
mod moment_text;
mod sequence;
mod table;
mod text;

pub use bytes::Bytes;
pub use clock::{Clock, FixedClock};
pub use decimal::read_decimal;
pub use digest::Digest;
pub use id::Id;
pub use laws::{four_forms, made_apart, moment_profile};
pub use life::is_alive;
pub use moment::{Moment, MomentFault};
pub use sequence::{Exact, Sequence};
pub use table::Table;
pub use text::Text;
