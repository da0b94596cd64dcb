/// A call that a file in memory answered. The record of them tells its moments and what a crash may leave.
#[derive(Drop)]
pub enum Call {
    /// `len` or `read`, which change nothing.
    Looked,
    Wrote(u64, Vec<u8>),
    Synced,
}
