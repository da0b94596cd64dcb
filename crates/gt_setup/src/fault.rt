ghost use Rattle.gt_setup.specs.declared.fault.SetupFault.TheVariants.{BadValue, Missing, OutOfMemory};
ghost use Rattle.std.specs.Prelude.{◌≡◌, ◌⊎◌};

use gt_values::{Id, Text};
use std::alloc::{AllocError, AllocFailed, Global};
use thiserror::Error;
use uuid::Uuid;

/// Why the bytes of a setup file are refused. Rows of `identity` and of `collection` count from 0, and `row` is 0 for the
/// keys `namespace`, `identity` and `collection` themselves.
#[derive(Debug, PartialEq, Eq, Drop, Error)]
pub enum SetupFault {
    /// The file is no TOML, or no UTF-8.
    #[error("setup file: not TOML in UTF-8")]
    NotToml,
    /// The key is not there.
    #[error("setup file, key `{}`, row {row}: missing", .key.as_str())]
    Missing { key: Text, row: u32 },
    /// The value of the key is of another type than the key's, or out of its range.
    #[error("setup file, key `{}`, row {row}: the value is not allowed", .key.as_str())]
    BadValue { key: Text, row: u32 },
    /// Two identities, or two collections, have this identifier.
    #[error("setup file: the identifier {} stands twice", Uuid::from_bytes(*.id.as_bytes()))]
    Twice { id: Id },
    /// A collection has this owner, and no identity has this identifier.
    #[error("setup file: the owner {} is no identity", Uuid::from_bytes(*.id.as_bytes()))]
    UnknownIdentity { id: Id },
    /// There are this many bytes, and a setup has at most 1,048,576.
    #[error("setup file: {bytes} bytes, and at most 1048576 are allowed")]
    TooLong { bytes: u64 },
    /// There was no memory to read the setup.
    #[error("out of memory")]
    OutOfMemory,
}

impl SetupFault {
    /// The fault that a row lacks the key.
    pub(crate) fn missing(alloc: Global, key: &str, row: u32) -> SetupFault
        ensures { (result ≡ OutOfMemory) ⊎ (result ≡ Missing key.now row) }
    {
        match Text::copy_of(alloc, key) {
            Ok(key) => SetupFault::Missing { key, row },
            Err(_) => SetupFault::OutOfMemory,
        }
    }

    /// The fault that the value of the key is not allowed.
    pub(crate) fn bad_value(alloc: Global, key: &str, row: u32) -> SetupFault
        ensures { (result ≡ OutOfMemory) ⊎ (result ≡ BadValue key.now row) }
    {
        match Text::copy_of(alloc, key) {
            Ok(key) => SetupFault::BadValue { key, row },
            Err(_) => SetupFault::OutOfMemory,
        }
    }
}

impl From<AllocError> for SetupFault {
    ghost from_gives = { λ _ fault. fault ≡ OutOfMemory };

    fn from(_: AllocError) -> SetupFault {
        SetupFault::OutOfMemory
    }
}

impl<T: Drop> From<AllocFailed<T>> for SetupFault {
    ghost from_gives = { λ _ fault. fault ≡ OutOfMemory };

    fn from(_: AllocFailed<T>) -> SetupFault {
        SetupFault::OutOfMemory
    }
}
