use crate::code::{Code, Reason, Status};
use crate::options::TaskOptions;
use crate::rule::{AccessSpec, PauseSpec};
use gt_paths::Path;
use gt_values::{Id, Moment, Sequence, Text};

/// The fifteen counters of a task. Counts of bytes stay at 2^64 - 1.
#[derive(Clone, Copy, Debug, PartialEq, Eq)]
pub struct Counters {
    pub total: u64,
    pub pending: u64,
    pub retrying: u64,
    pub succeeded: u64,
    pub expired: u64,
    pub canceled: u64,
    pub failed: u64,
    pub skipped_errors: u64,
    pub files: u64,
    pub directories: u64,
    pub files_skipped: u64,
    pub files_transferred: u64,
    pub bytes_transferred: u64,
    pub bytes_checksummed: u64,
    pub faults: u64,
}

/// What a task shows. Its label and deadline are those in force, which an update may have changed; the options are those
/// that were submitted.
#[derive(Debug, Drop)]
pub struct TaskDocument {
    pub number: u64,
    pub owner: Id,
    pub options: TaskOptions,
    pub label: Option<Text>,
    pub deadline: Option<Moment>,
    pub requested: Moment,
    pub completed: Option<Moment>,
    pub status: Status,
    pub fatal_error: Option<Reason>,
    pub is_paused: bool,
    pub counters: Counters,
}

/// The paths of a file that was copied.
#[derive(Debug, Drop)]
pub struct PathPair {
    pub source: Path,
    pub destination: Path,
}

/// An item that was skipped, and why.
#[derive(Debug, Drop)]
pub struct SkippedDocument {
    pub source: Path,
    pub destination: Path,
    pub code: Code,
}

/// A live access rule.
#[derive(Debug, Drop)]
pub struct AccessDocument {
    pub number: u64,
    pub spec: AccessSpec,
}

/// A live pause rule.
#[derive(Debug, Drop)]
pub struct PauseDocument {
    pub number: u64,
    pub spec: PauseSpec,
}

/// What was asked of a list, and the number of all its rows.
#[derive(Clone, Copy, Debug, PartialEq, Eq)]
pub struct Page {
    pub limit: u32,
    pub offset: u64,
    pub total: u64,
}

/// What a change came to.
#[derive(Clone, Copy, Debug, PartialEq, Eq)]
pub enum ResultCode {
    Canceled,
    CancelAccepted,
    TaskComplete,
    Updated,
    Deleted,
}

/// Why a request was refused, in the order of the codes' numbers, which begin with 1.
#[derive(Clone, Copy, Debug, PartialEq, Eq)]
pub enum ReplyCode {
    BadRequest,
    AuthenticationFailed,
    PermissionDenied,
    NotFound,
    EndpointNotFound,
    TaskNotFound,
    RuleNotFound,
    MethodNotAllowed,
    Exists,
    TaskClosed,
    LimitReached,
    TooLarge,
    JournalFault,
    OutOfMemory,
}

/// An answer, with the numbers of what the desk made in place of printed identifiers.
#[derive(Debug, Drop)]
pub enum Reply {
    Identifier {
        number: u64,
    },
    /// The task of a submission, made just now or before.
    Submitted {
        is_delete: bool,
        is_new: bool,
        submission: Id,
        task: u64,
    },
    Done(ResultCode),
    AccessCreated {
        rule: u64,
    },
    PauseCreated {
        rule: u64,
    },
    Task(TaskDocument),
    Tasks {
        rows: Sequence<TaskDocument>,
        page: Page,
    },
    Successes {
        rows: Sequence<PathPair>,
        page: Page,
    },
    Skipped {
        rows: Sequence<SkippedDocument>,
        page: Page,
    },
    Access(AccessDocument),
    AccessList {
        rows: Sequence<AccessDocument>,
        collection: u32,
    },
    Pause(PauseDocument),
    PauseList {
        rows: Sequence<PauseDocument>,
    },
    Endpoint {
        collection: u32,
    },
    Refused {
        code: ReplyCode,
    },
}
