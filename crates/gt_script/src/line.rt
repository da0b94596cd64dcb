ghost use Rattle.gt_script.specs.declared.line.Line.TheVariants.{End};
ghost use Rattle.std.specs.Prelude.{IsTrue, ◌↔◌, ◌≡◌};

use gt_values::{Bytes, Moment, Text};
use thiserror::Error;

/// A line of a script, with all that belongs to it.
#[derive(Debug, Drop)]
pub enum Line {
    /// `end`: prints the numbers of events and of tasks and the table of tasks, and ends the run.
    End,
    /// `now SECONDS`: from here on this is the present moment.
    Now(Moment),
    /// `restart`: closes the desk and opens it again, and prints the number of events.
    Restart,
    /// `send TOKEN METHOD TARGET N`, with a body of N bytes and a newline: this request, with no token where TOKEN is `-`.
    Send {
        token: Option<Text>,
        method: Text,
        target: Text,
        body: Bytes,
    },
}

impl Line {
    /// Whether it is the end.
    pub fn is_end(&self) -> bool
        ensures { IsTrue result ↔ (self.now ≡ End) }
    {
        match self {
            Line::End => true,
            Line::Now(_) | Line::Restart | Line::Send { .. } => false,
        }
    }
}

/// Why no line was read.
#[derive(Clone, Copy, Debug, PartialEq, Eq, Error)]
pub enum ScriptFault {
    /// No line of a script stands at this number, or it doesn't end within the script's limit.
    #[error("no line of a script stands at line {line}")]
    Refused { line: u64 },
    /// The source failed, and counted it.
    #[error("the source failed")]
    SourceFault,
    #[error("out of memory")]
    OutOfMemory,
}
