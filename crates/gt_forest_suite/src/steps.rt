// The calls of the suite, in order. They leave nothing.

/// The collection of a call.
#[derive(Clone, Copy)]
pub(crate) enum Side {
    First,
    Second,
}

/// A call, with paths and names as texts.
#[derive(Clone, Copy)]
pub(crate) enum Call {
    Stat(&'static str),
    /// Behind a name, so many.
    List(&'static str, Option<&'static str>, u32),
    /// From a place on, so many bytes.
    Read(&'static str, u64, usize),
    Open(u64),
    /// The text, so many times.
    Append(u64, &'static str, usize),
    /// With the seconds of its time.
    Place(u64, &'static str, u64),
    Discard(u64),
    Make(&'static str),
    RemoveFile(&'static str),
    RemoveDir(&'static str),
}

pub(crate) const STEPS: [(Side, Call); 98] = [
    // The root.
    (Side::First, Call::Stat("/")),
    (Side::First, Call::List("/", None, 10)),
    (Side::First, Call::Read("/", 0, 8)),
    (Side::First, Call::Make("/")),
    (Side::First, Call::RemoveFile("/")),
    (Side::First, Call::RemoveDir("/")),
    // What is missing.
    (Side::First, Call::Stat("/a")),
    (Side::First, Call::List("/a", None, 10)),
    (Side::First, Call::Read("/a", 0, 8)),
    (Side::First, Call::RemoveFile("/a")),
    (Side::First, Call::RemoveDir("/a")),
    (Side::First, Call::Append(7, "a", 1)),
    (Side::First, Call::Discard(7)),
    (Side::First, Call::Place(7, "/f", 0)),
    (Side::First, Call::Make("/x/y")),
    // A folder, in one collection alone.
    (Side::First, Call::Make("/a")),
    (Side::First, Call::Make("/a")),
    (Side::First, Call::Stat("/a")),
    (Side::First, Call::List("/", None, 10)),
    (Side::Second, Call::Stat("/a")),
    (Side::Second, Call::List("/", None, 10)),
    // A staging file in place of an older one, and another key.
    (Side::First, Call::Open(7)),
    (Side::First, Call::Append(7, "older", 1)),
    (Side::First, Call::Open(7)),
    (Side::First, Call::Append(7, "ab", 1)),
    (Side::First, Call::Open(8)),
    (Side::First, Call::Append(8, "other", 1)),
    (Side::Second, Call::Discard(7)),
    (Side::First, Call::Discard(9)),
    (Side::First, Call::Append(7, "c", 1)),
    // Where it can't be placed, and where it can.
    (Side::First, Call::Place(7, "/a", 1)),
    (Side::First, Call::Place(7, "/x/f", 1)),
    (Side::First, Call::Place(7, "/", 1)),
    (Side::First, Call::Place(7, "/a/f", 1000000000)),
    (Side::First, Call::Discard(7)),
    (Side::First, Call::Stat("/a/f")),
    (Side::First, Call::Place(8, "/a/g", 5)),
    (Side::First, Call::Read("/a/g", 0, 8)),
    // Places and lengths of reads.
    (Side::First, Call::Read("/a/f", 0, 8)),
    (Side::First, Call::Read("/a/f", 1, 1)),
    (Side::First, Call::Read("/a/f", 2, 8)),
    (Side::First, Call::Read("/a/f", 3, 8)),
    (Side::First, Call::Read("/a/f", 100, 8)),
    (Side::First, Call::Read("/a", 0, 8)),
    // Over an older file: longer, and shorter.
    (Side::First, Call::Open(7)),
    (Side::First, Call::Append(7, "longer than before", 1)),
    (Side::First, Call::Place(7, "/a/f", 2)),
    (Side::First, Call::Stat("/a/f")),
    (Side::First, Call::Read("/a/f", 0, 64)),
    (Side::First, Call::Open(7)),
    (Side::First, Call::Append(7, "xyz", 1)),
    (Side::First, Call::Place(7, "/a/f", 3)),
    (Side::First, Call::Stat("/a/f")),
    (Side::First, Call::Read("/a/f", 0, 64)),
    // The same path and key of another collection.
    (Side::Second, Call::Make("/a")),
    (Side::Second, Call::Open(7)),
    (Side::Second, Call::Append(7, "second", 1)),
    (Side::Second, Call::Place(7, "/a/f", 4)),
    (Side::Second, Call::Read("/a/f", 0, 8)),
    (Side::First, Call::Read("/a/f", 0, 8)),
    // Much at once.
    (Side::First, Call::Open(7)),
    (Side::First, Call::Append(7, "0123456789abcdef", 4096)),
    (Side::First, Call::Append(7, "end", 1)),
    (Side::First, Call::Place(7, "/a/large", 6)),
    (Side::First, Call::Stat("/a/large")),
    (Side::First, Call::Read("/a/large", 0, 65536)),
    (Side::First, Call::Read("/a/large", 65535, 8)),
    // What is of another kind, or not empty.
    (Side::First, Call::Make("/a/f/g")),
    (Side::First, Call::Make("/a/f")),
    (Side::First, Call::List("/a/f", None, 10)),
    (Side::First, Call::RemoveDir("/a/f")),
    (Side::First, Call::RemoveFile("/a")),
    (Side::First, Call::RemoveDir("/a")),
    // Listings, in the order of the names' bytes.
    (Side::First, Call::Make("/a/d")),
    (Side::First, Call::Make("/a/Z")),
    (Side::First, Call::List("/a", None, 10)),
    (Side::First, Call::List("/a", Some("d"), 1)),
    (Side::First, Call::List("/a", Some("da"), 10)),
    (Side::First, Call::List("/a", Some("large"), 10)),
    (Side::First, Call::List("/a", None, 0)),
    (Side::First, Call::List("/a", None, 2)),
    // A staging file that is dropped.
    (Side::First, Call::Open(9)),
    (Side::First, Call::Append(9, "gone", 1)),
    (Side::First, Call::Discard(9)),
    (Side::First, Call::Append(9, "gone", 1)),
    // All is removed.
    (Side::First, Call::RemoveFile("/a/f")),
    (Side::First, Call::RemoveFile("/a/f")),
    (Side::First, Call::Stat("/a/f")),
    (Side::First, Call::RemoveFile("/a/g")),
    (Side::First, Call::RemoveFile("/a/large")),
    (Side::First, Call::RemoveDir("/a/Z")),
    (Side::First, Call::RemoveDir("/a/d")),
    (Side::First, Call::RemoveDir("/a")),
    (Side::First, Call::RemoveDir("/a")),
    (Side::First, Call::List("/", None, 10)),
    (Side::Second, Call::RemoveFile("/a/f")),
    (Side::Second, Call::RemoveDir("/a")),
    (Side::Second, Call::List("/", None, 10)),
];
