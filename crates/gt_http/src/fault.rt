use thiserror::Error;

/// Why no message was read.
#[derive(Clone, Copy, Debug, PartialEq, Eq, Error)]
pub enum HttpFault {
    /// No head of HTTP/1.0 or 1.1 within the limits, or one that doesn't say where its body ends.
    #[error("the head of the request is not one of HTTP/1.0 or 1.1 within the limits")]
    BadHead,
    /// The head names a body of more than 4,194,304 bytes. It isn't read.
    #[error("a body of {length} bytes is longer than 4194304 bytes")]
    TooLarge { length: u64 },
    /// The input ended after `have` bytes of a head, and `want` is 0; or after `have` of the `want` bytes of a body.
    #[error("the input ended after {have} bytes, of {want}")]
    Cut { have: u64, want: u64 },
    /// The source failed, and counted it.
    #[error("the source failed")]
    ReadFault,
    #[error("out of memory")]
    OutOfMemory,
}

/// Why a reply was not written.
#[derive(Clone, Copy, Debug, PartialEq, Eq, Error)]
pub enum HttpWriteFault {
    /// The sink failed, and counted it. It may have taken a front of the reply.
    #[error("the sink failed")]
    SinkFault,
    #[error("out of memory")]
    OutOfMemory,
}
