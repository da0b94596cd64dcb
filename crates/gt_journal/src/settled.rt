/// What became of the body in doubt.
#[derive(Clone, Copy, Debug, PartialEq, Eq)]
pub enum Settled {
    /// Nothing was in doubt.
    Nothing,
    /// Its gate was open, and it counts.
    Kept,
    /// Its gate was closed, and it doesn't count.
    Dropped,
}
