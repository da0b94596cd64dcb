use thiserror::Error;

/// Why the suite stopped.
#[derive(Clone, Copy, Debug, PartialEq, Eq, Error)]
pub enum SuiteFault {
    #[error("the source gave other bytes")]
    WrongBytes,
    #[error("the source ended before its end, or went on behind it")]
    WrongEnd,
    /// A call of the device failed, which is no verdict on it.
    #[error("the device failed")]
    DeviceFault,
    /// Memory was wanting, which is no verdict on the device.
    #[error("out of memory")]
    OutOfMemory,
}
