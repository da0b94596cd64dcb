//! Readers of what a request carries: the members of its document, the items of its lists, and the pairs of its query.
//!
//! Each reader gives a value, or the place of what is bad. Contracts say it by one word, `ReadsAs`
//! (`specs/Reading.antt`), over the value that `serde_json` reads. A document is a list of calls, one a member, in the
//! order in which its members are tested. A place begins at the object that a reader was given; `items` puts the list
//! and the item's number before it.
#![tactic(auto)]

mod body;
mod fault;
mod laws;
mod lists;
mod members;
mod place;
mod query;
mod values;

pub use body::{is_object, object_in};
pub use fault::DocumentFault;
pub use laws::{first_bad_item, first_pair_counts, last_member_counts};
pub use lists::{ReadItem, items, list_in};
pub use members::{
    absent, constant, constant_if_there, flag, given, id, id_if_there, member, moment_if_there,
    number_if_there, path, switch, text_if_there, unset, word,
};
pub use place::{Name, Place, Step};
pub use query::{Page, first_value, read_page};
pub use values::{TextLimit, moment_in, text_in};
