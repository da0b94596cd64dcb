//! The lines of a script, read one by one from a source: what each asks for, or that no line stands there.
//!
//! A line is its command line and, for a request, the body behind it (`specs/Script.antt`). `read_script_line` takes the
//! bytes of one line and nothing behind them, within the limit of a script, and says of each answer which bytes were taken
//! (`specs/Reading.antt`). A caller that reads line after line finds what it needs of the whole text in `laws.rt` and in
//! `specs/TextFacts.antt`.
#![tactic(auto)]

mod command_line;
mod laws;
mod line;
mod reader;

pub use laws::{a_script_has_one_reading, lines_end_with_their_text};
pub use line::{Line, ScriptFault};
pub use reader::{SCRIPT_LIMIT, read_script_line};
