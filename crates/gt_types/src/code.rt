/// Why an item failed or was skipped, in the order of the codes' numbers, which begin with 1.
#[derive(Clone, Copy, Debug, PartialEq, Eq)]
pub enum Code {
    FileNotFound,
    PermissionDenied,
    WrongKind,
    NotEmpty,
    VerifyMismatch,
    TreeFault,
    FolderTooLarge,
    ItemLimit,
    PathTooLong,
}

/// Why a task closes before its items have ended: its owner, its deadline, or the code of an item that failed.
#[derive(Clone, Copy, Debug, PartialEq, Eq)]
pub enum Reason {
    Canceled,
    Deadline,
    Code(Code),
}

/// The state of a task as the Globus Transfer API names it. `INACTIVE` never occurs.
#[derive(Clone, Copy, Debug, PartialEq, Eq)]
pub enum Status {
    Active,
    Succeeded,
    Failed,
}
