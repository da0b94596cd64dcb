//! Messages of HTTP/1.0 and 1.1, read from a source and written to a sink.
//!
//! `read_http` takes the first message of a stream and its bytes alone, in whatever pieces they come
//! (`specs/Message.antt`), or says why there is none (`specs/Refusal.antt`). `write_http` writes a reply
//! (`specs/ReplyText.antt`).
#![tactic(auto)]

mod fault;
mod fields;
mod framing;
mod head;
mod laws;
mod parts;
mod place;
mod read;
mod reply;
#[cfg(test)]
mod tests;

pub use fault::{HttpFault, HttpWriteFault};
pub use laws::one_first_message;
pub use read::read_http;
pub use reply::write_http;
