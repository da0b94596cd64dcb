ghost use Rattle.std.specs.Prelude.{◌≤◌};

use gt_paths::Name;
use gt_select::{first_rule, needs_copy, pattern_matches};
use gt_types::{FilterRule, Kind, Stat};
use gt_values::{Digest, Moment, Text};
use std::alloc::{AllocError, Global};
use std::test::Fail;

#[test]
fn patterns_match_whole_names(rt: HostRuntime) {
    for (pattern, name) in [
        ("*.csv", "a.csv"),
        ("*.csv", ".csv"),
        ("[!a-c]?", "d1"),
        ("[x", "[x"),
        ("[]a]", "]"),
        ("[]a]", "a"),
        ("[!]]", "a"),
        ("[!]", "[!]"),
        ("[]", "[]"),
        ("[a-]", "-"),
        ("[-a]", "-"),
        ("[a-c-e]", "-"),
        ("[a-c-e]", "e"),
        ("[--0]", "."),
        ("[a!]", "!"),
        ("[!!]", "a"),
        ("*", "a"),
        ("**", "a"),
        ("a*b*c", "abbbc"),
        ("a*b*c", "abcbc"),
        ("*a*b", "xaab"),
        ("*ab", "aab"),
        ("?*?", "ab"),
        ("?", "é"),
        ("[à-ö]", "é"),
        ("*é", "caf\u{e9}"),
        ("[*]", "*"),
        ("[?]", "?"),
        ("a]", "a]"),
    ] {
        assert!(rt; pattern_matches(pattern, name), "{pattern} {name}");
    }
}

#[test]
fn patterns_match_no_other_names(rt: HostRuntime) {
    for (pattern, name) in [
        ("[!a-c]?", "b1"),
        ("*.csv", "a.CSV"),
        ("a", "ab"),
        ("ab", "a"),
        ("?", ""),
        ("??", "é"),
        ("[c-a]", "b"),
        ("[!]]", "]"),
        ("[a-c-e]", "d"),
        ("[]a]", "[]a]"),
        ("a*b*c", "acb"),
        ("*ab", "aba"),
        ("[x", "x"),
        ("[!!]", "!"),
    ] {
        assert!(rt; !pattern_matches(pattern, name), "{pattern} {name}");
    }
}

/// A rule for names that match the pattern.
fn rule(
    alloc: Global,
    include: bool,
    kind: Option<Kind>,
    pattern: &str,
) -> Result<FilterRule, AllocError> {
    Ok(FilterRule {
        include,
        kind,
        pattern: Text::copy_of(alloc, pattern)?,
    })
}

#[test]
fn the_first_rule_about_an_entry_decides(rt: HostRuntime) -> Result<(), Fail> {
    let alloc = rt.alloc();
    let rules = vec![in alloc;
        rule(alloc, false, Some(Kind::Folder), "*.csv")?,
        rule(alloc, true, None, "*.csv")?,
        rule(alloc, false, Some(Kind::File), "*")?,
    ]?;
    let table = Name::read(alloc, "a.csv")?;
    let notes = Name::read(alloc, "b.txt")?;
    assert_eq!(rt; first_rule(&rules, &table, Kind::Folder), Some(0));
    assert_eq!(rt; first_rule(&rules, &table, Kind::File), Some(1));
    assert_eq!(rt; first_rule(&rules, &notes, Kind::File), Some(2));
    assert_eq!(rt; first_rule(&rules, &notes, Kind::Folder), None);
    Ok(())
}

/// A file of this size that was written at this moment.
fn file(size: u64, seconds: u64) -> Option<Stat> {
    let mtime = Moment::of(seconds)?;
    Some(Stat {
        kind: Kind::File,
        size,
        mtime,
    })
}

/// Whether a file of 3 bytes, written at moment 10, is copied at this level over the one that is told.
fn is_copied(level: u8, size: u64, seconds: u64, content: u8) -> Option<bool>
    requires { level ≤ 3 }
{
    let source = file(3, 10)?;
    let there = file(size, seconds)?;
    let digests = (
        Digest::from_bytes([1; 32]),
        Digest::from_bytes([content; 32]),
    );
    Some(needs_copy(Some(level), &source, Some(&there), Some(digests)))
}

#[test]
fn levels_say_which_files_are_copied(rt: HostRuntime) -> Result<(), Fail> {
    for (size, seconds, content, by_level) in [
        (3, 10, 1, [false, false, false, false]),
        (4, 10, 2, [false, true, false, true]),
        (3, 9, 1, [false, false, true, false]),
        (3, 11, 2, [false, false, false, true]),
    ] {
        assert_eq!(rt; is_copied(0, size, seconds, content), Some(by_level[0]));
        assert_eq!(rt; is_copied(1, size, seconds, content), Some(by_level[1]));
        assert_eq!(rt; is_copied(2, size, seconds, content), Some(by_level[2]));
        assert_eq!(rt; is_copied(3, size, seconds, content), Some(by_level[3]));
    }
    let source = file(3, 10).ok_or("no moment")?;
    for level in 0u8..4 {
        assert!(rt; needs_copy(Some(level), &source, None, None));
    }
    assert!(rt; needs_copy(None, &source, Some(&source), None));
    Ok(())
}
