use gt_values::{Bytes, Text};

/// A request as it comes in: what its head says, and its body. `close` says that the connection is to be closed after
/// the reply.
#[derive(Debug, Drop)]
pub struct Incoming {
    pub method: Text,
    pub target: Text,
    pub token: Option<Text>,
    pub body: Bytes,
    pub close: bool,
}
