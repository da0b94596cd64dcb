ghost use Rattle.std.specs.Prelude.{◌≡◌};
ghost use Rattle.transferd.specs.Exits.{status_of};
ghost use Rattle.transferd.specs.Exits.{exit_of_open};

use gt_desk::OpenFault;
use gt_setup::SetupFault;

/// How a run of the program ended.
#[derive(Debug, PartialEq, Eq, Drop)]
pub enum Exit {
    /// The script was read through its `end` line, and its output was written.
    Done,
    /// The words are in no form of a command.
    Usage,
    /// The setup has this fault. Nothing of the script was read, and the journal's disk wasn't used.
    SetupRefused { fault: SetupFault },
    /// No line of a script stands where this one should, counted from 1: lines before it were read and carried out.
    ScriptRefused { line: u64 },
    /// The source of the setup or of the script failed, and counted it.
    SourceFault,
    /// The output's sink failed, and counted it.
    SinkFault,
    /// The journal's disk failed while the desk was opened, at first or by a `restart` line, and counted it.
    JournalFault,
    /// This record of the journal, counted from 0, is the first that runs past the file, is the text of no event, or has
    /// an event on which the machine has no step.
    Damaged { at_record: u64 },
    OutOfMemory,
}

impl Exit {
    /// The status that the process ends with.
    pub fn status(&self) -> u8
        ensures { result ≡ status_of self.now }
    {
        match self {
            Exit::Done => 0,
            Exit::Usage => 2,
            Exit::SetupRefused { fault: _ } => 3,
            Exit::ScriptRefused { line: _ } => 4,
            Exit::SourceFault => 5,
            Exit::SinkFault => 6,
            Exit::JournalFault => 7,
            Exit::Damaged { at_record: _ } => 8,
            Exit::OutOfMemory => 9,
        }
    }

    /// The exit where the desk was not opened.
    pub fn of_opening(fault: OpenFault) -> Exit
        ensures { result ≡ exit_of_open fault }
    {
        match fault {
            OpenFault::JournalFault => Exit::JournalFault,
            OpenFault::Damaged { at_record } => Exit::Damaged { at_record },
            OpenFault::OutOfMemory => Exit::OutOfMemory,
        }
    }
}
