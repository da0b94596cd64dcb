/// What a crash keeps of what was written since the last sync.
#[derive(Clone, Copy, Debug, PartialEq, Eq, Drop)]
pub enum Keep {
    /// Nothing: the file is as the last sync left it.
    Synced,
    /// All: the file is as it reads.
    Written,
    /// The file is as it reads, but each byte from `at` on that was written since the last sync is 1.
    Torn { at: u64 },
}
