ghost use Rattle.std.specs.Prelude.{◌≡◌};

use std::alloc::AllocError;
use thiserror::Error;

/// Why a text is not read as a name.
#[derive(Clone, Copy, Debug, PartialEq, Eq, Error)]
pub enum NameFault {
    /// The text is no name.
    #[error("the text is no name")]
    Refused,
    /// There was no memory for the name.
    #[error("out of memory")]
    OutOfMemory,
}

/// Why a text is not read as a path, or why names make no path.
#[derive(Clone, Copy, Debug, PartialEq, Eq, Error)]
pub enum PathFault {
    /// The text doesn't begin with a slash.
    #[error("the path does not begin with a slash")]
    NotAbsolute,
    /// The piece at this place, from 0, is no name. A place above 2^32 - 1 is told as that number.
    #[error("piece {at} of the path is no name")]
    BadName { at: u32 },
    /// There are this many names, and a path has at most 64.
    #[error("the path has {names} names")]
    TooDeep { names: u64 },
    /// The names print in this many bytes, and a path prints in at most 4,096.
    #[error("the path has {bytes} bytes")]
    TooLong { bytes: u64 },
    /// There was no memory for the path.
    #[error("out of memory")]
    OutOfMemory,
}

impl From<AllocError> for PathFault {
    ghost use Rattle.gt_paths.specs.declared.fault.PathFault.TheVariants.{OutOfMemory};

    ghost from_gives = { λ _ fault. fault ≡ OutOfMemory };

    fn from(_: AllocError) -> PathFault {
        PathFault::OutOfMemory
    }
}
