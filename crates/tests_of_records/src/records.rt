use gt_records::{DecodeFault, decode, encode, encode_into};
use gt_types::{Code, Event, Evidence, Happening, Kind, Outcome, Principal, Side, TransferSpec};
use gt_values::{Digest, Id, Moment};
use std::process::Abort;
use std::test::Fail;

const ISSUE: &[u8; 25] = b"\x01\
    \0\0\0\0\0\0\0d\
    \0\0\0\0\0\0@\0\x80\0\0\0\0\0\0\xa1";

const FULL: &[u8; 137] = b"\x02\
    \0\0\0\0\0\0\0d\
    \0\0\0\0\0\0@\0\x80\0\0\0\0\0\0\xa1\
    \0\0\0\0\0\0@\0\x80\0\0\0\0\0\0\xb2\
    \0\0\0\x01\0\0\0\x02\
    \x01\0\0\0\x04n\xc3\xa9e\
    \x01\0\0\0:\xff\xf4A\x7f\
    \x01\x03\
    \x0a\
    ?!\
    \0\0\0\x03\
    \x01\x01\0\0\0\x05*.csv\
    \0\0\0\0\0\x01x\
    \0\x02\0\0\0\x06[a-c]?\
    \0\0\0\x03\
    \0\x02\x01a\x01b\0\x01\x01c\x02\
    \0\x01\x01d\0\x01\x01e\x01\
    \0\0\0\x01\x01f\0";

const BARE: &[u8; 72] = b"\x02\
    \0\0\0\0\0\0\0d\
    \0\0\0\0\0\0@\0\x80\0\0\0\0\0\0\xa1\
    \0\0\0\0\0\0@\0\x80\0\0\0\0\0\0\xb2\
    \0\0\0\x01\0\0\0\x01\
    \0\
    \0\
    \0\
    \0\
    \0\0\
    \0\0\0\0\
    \0\0\0\x01\
    \0\x01\x01a\0\x01\x01b\0";

const ADDITION: &[u8; 35] = b"\x04\
    \0\0\0\0\0\0\0\x07\
    \0\0\0\x03\
    \x02\0\0\0\0\0\0@\0\x80\0\0\0\0\0\0\xc3\
    \0\x01\x01a\
    \x01";

const REPLACEMENT: &[u8; 18] = b"\x05\
    \0\0\0\0\0\0\0\x08\
    \0\0\0\0\0\0\0\x02\
    \0";

const END: &[u8; 17] = b"\x06\
    \0\0\0\0\0\0\0\x09\
    \0\0\x01\0\0\0\0\0";

const GRANT: &[u8; 18] = b"\x0b\
    \0\0\0\0\0\0\0\x0a\
    \x10\
    \0\0\0\0\0\0\x01\x02";

const REFUSAL: &[u8; 18] = b"\x0c\
    \0\0\0\0\0\0\0\x0b\
    \0\0\0\0\0\0\0\x07\
    \x02";

const COPIED: &[u8; 107] = b"\x0d\
    \0\0\0\0\0\0\0\x0c\
    \0\0\0\0\0\0\0\x07\
    \0\0\0\0\0\0\0\x09\
    \x01\
    \0\0\0\0\0\x01\0\0\
    0123456789abcdef0123456789abcdef\
    \x01fedcba9876543210fedcba9876543210\
    \0\0\0\0\0\x02\0\0";

const COPIED_UNREAD: &[u8; 75] = b"\x0d\
    \0\0\0\0\0\0\0\x0c\
    \0\0\0\0\0\0\0\x07\
    \0\0\0\0\0\0\0\x09\
    \x01\
    \0\0\0\0\0\x01\0\0\
    0123456789abcdef0123456789abcdef\
    \0\
    \0\0\0\0\0\0\0\0";

const FAILED: &[u8; 28] = b"\x0d\
    \0\0\0\0\0\0\0\x0c\
    \0\0\0\0\0\0\0\x07\
    \0\0\0\0\0\0\0\x09\
    \x07\
    \x02\x01";

const FAULTED: &[u8; 42] = b"\x0d\
    \0\0\0\0\0\0\0\x0c\
    \0\0\0\0\0\0\0\x07\
    \0\0\0\0\0\0\0\x09\
    \x08\
    \0\0\0\0\0\0\0\x03\
    \xff\xff\xff\xff\xff\xff\xff\xff";

const MISMATCH: &[u8; 114] = b"\x0d\
    \0\0\0\0\0\0\0\x0c\
    \0\0\0\0\0\0\0\x07\
    \0\0\0\0\0\0\0\x09\
    \x09\
    \0\0\0\0\0\x01\0\0\
    0123456789abcdef0123456789abcdef\
    \0\0\0\0\0\0\0\x05\
    fedcba9876543210fedcba9876543210\
    \0\0\0\0\0\x01\0\x05";

const RESTART: &[u8; 9] = b"\x0f\
    \0\0\0:\xff\xf4A\x7f";

/// The event of the bytes, which encodes to these bytes again.
fn round_trip(rt: &(impl Abort + AllocGlobal), bytes: &[u8]) -> Result<Event, Fail> {
    let event = decode(rt.alloc(), bytes)?;
    let text = encode(rt.alloc(), &event)?;
    assert!(rt; text.as_slice() == bytes);
    Ok(event)
}

fn submission(rt: &(impl Abort + AllocGlobal), bytes: &[u8]) -> Result<TransferSpec, Fail> {
    match round_trip(rt, bytes)?.what {
        Happening::SubmitTransfer { spec, .. } => Ok(spec),
        _ => Err(Fail::from("no submission")),
    }
}

#[test]
fn an_issued_identifier_is_the_body_of_the_journal_example(rt: HostRuntime) -> Result<(), Fail> {
    let event = round_trip(&rt, ISSUE)?;
    let identity = Id::read("00000000-0000-4000-8000-0000000000a1").ok_or("an identifier")?;
    let issued = Event {
        moment: Moment::of(100).ok_or("a moment")?,
        what: Happening::Issue { identity },
    };
    assert!(rt; event == issued);
    Ok(())
}

#[test]
fn a_submission_has_every_option(rt: HostRuntime) -> Result<(), Fail> {
    let spec = submission(&rt, FULL)?;
    assert!(rt; spec.source == 1 && spec.destination == 2);
    assert!(rt; spec.label.ok_or("a label")?.as_str() == "née");
    assert!(rt; spec.deadline.ok_or("a deadline")?.seconds() == 253_402_300_799);
    assert!(rt; spec.level == Some(3));
    assert!(rt; !spec.verify && spec.preserve && !spec.extra && spec.skip_source);
    assert!(rt; spec.kept.given == 63 && spec.kept.set == 33);
    let kinds = [Some(Kind::File), None, Some(Kind::Folder)];
    for (rule, kind) in spec.rules.as_slice().iter().zip(&kinds) {
        assert!(rt; rule.kind == *kind);
        assert!(rt; rule.include == (rule.pattern.as_str() == "*.csv"));
    }
    let recursive = [Some(true), Some(false), None];
    for (entry, recursive) in spec.entries.as_slice().iter().zip(&recursive) {
        assert!(rt; entry.recursive == *recursive);
    }
    assert!(rt; spec.entries.len() == 3);
    let entry = &spec.entries.as_slice()[0];
    assert!(rt; entry.source.print(rt.alloc())?.as_str() == "/a/b");
    assert!(rt; entry.destination.print(rt.alloc())?.as_str() == "/c");
    Ok(())
}

#[test]
fn a_submission_has_no_option(rt: HostRuntime) -> Result<(), Fail> {
    let spec = submission(&rt, BARE)?;
    assert!(rt; spec.label.is_none() && spec.deadline.is_none() && spec.level.is_none());
    assert!(rt; spec.rules.is_empty() && spec.entries.len() == 1);
    Ok(())
}

#[test]
fn access_rules_are_read_and_written(rt: HostRuntime) -> Result<(), Fail> {
    match round_trip(&rt, ADDITION)?.what {
        Happening::AccessAdd { collection, spec } => {
            assert!(rt; collection == 3 && spec.write);
            assert!(rt; matches!(spec.principal, Principal::Group(_)));
        }
        _ => return Err(Fail::from("no addition")),
    }
    assert!(rt;
        matches!(
            round_trip(&rt, REPLACEMENT)?.what,
            Happening::AccessReplace {
                rule: 2,
                write: false
            }
        )
    );
    assert!(rt;
        matches!(
            round_trip(&rt, END)?.what,
            Happening::AccessEnd {
                rule: 1_099_511_627_776
            }
        )
    );
    Ok(())
}

#[test]
fn texts_are_appended_to_one_buffer(rt: HostRuntime) -> Result<(), Fail> {
    let mut buffer = Vec::new(rt.alloc());
    encode_into(&decode(rt.alloc(), END)?, &mut buffer)?;
    encode_into(&decode(rt.alloc(), ISSUE)?, &mut buffer)?;
    assert!(rt; buffer.len() == 42);
    assert!(rt; buffer.as_slice().starts_with(END.as_slice()));
    assert!(rt; buffer.as_slice().ends_with(ISSUE.as_slice()));
    Ok(())
}

/// The bytes are the text of this at this moment.
fn is_text(
    rt: &(impl Abort + AllocGlobal),
    bytes: &[u8],
    seconds: u64,
    what: &Happening,
) -> Result<(), Fail> {
    let event = round_trip(rt, bytes)?;
    assert!(rt; event.moment.seconds() == seconds);
    assert!(rt; event.what == *what);
    Ok(())
}

/// The bytes are the text of this outcome of item 7, which the event 9 granted, at moment 12.
fn is_report(rt: &(impl Abort + AllocGlobal), bytes: &[u8], outcome: Outcome) -> Result<(), Fail> {
    let what = Happening::ReportItem {
        item: 7,
        grant: 9,
        outcome,
    };
    is_text(rt, bytes, 12, &what)
}

fn source() -> Digest {
    Digest::from_bytes(*b"0123456789abcdef0123456789abcdef")
}

fn back() -> Digest {
    Digest::from_bytes(*b"fedcba9876543210fedcba9876543210")
}

#[test]
fn grants_refusals_and_restarts_are_read_and_written(rt: HostRuntime) -> Result<(), Fail> {
    let grant = Happening::GrantItem {
        worker: 16,
        item: 258,
    };
    is_text(&rt, GRANT, 10, &grant)?;
    let refusal = Happening::RefuseItem {
        item: 7,
        side: Side::Destination,
    };
    is_text(&rt, REFUSAL, 11, &refusal)?;
    is_text(&rt, RESTART, 253_402_300_799, &Happening::Restart)
}

fn copied(back: Option<Digest>, checked: u64) -> Outcome {
    let evidence = Evidence {
        size: 65_536,
        source: source(),
        back,
    };
    Outcome::Copied { evidence, checked }
}

#[test]
fn copies_are_read_and_written(rt: HostRuntime) -> Result<(), Fail> {
    is_report(&rt, COPIED, copied(Some(back()), 131_072))?;
    is_report(&rt, COPIED_UNREAD, copied(None, 0))
}

#[test]
fn failed_attempts_are_read_and_written(rt: HostRuntime) -> Result<(), Fail> {
    let failed = Outcome::Failed {
        code: Code::PermissionDenied,
        side: Side::Source,
    };
    is_report(&rt, FAILED, failed)?;
    let faulted = Outcome::TreeFault {
        before: 3,
        after: u64::MAX,
    };
    is_report(&rt, FAULTED, faulted)?;
    let mismatch = Outcome::Mismatch {
        size: 65_536,
        source: source(),
        back_size: 5,
        back: back(),
        checked: 65_541,
    };
    is_report(&rt, MISMATCH, mismatch)
}

/// Whether the bytes with this one at this place are a record, which is written as it was read.
fn is_record_with(
    rt: &(impl Abort + AllocGlobal),
    bytes: &[u8],
    at: usize,
    value: u8,
) -> Result<bool, Fail> {
    let mut changed = Vec::new(rt.alloc());
    changed.extend_from_slice(bytes)?;
    if let Some(byte) = changed.as_mut_slice().get_mut(at) {
        *byte = value;
    }
    match decode(rt.alloc(), changed.as_slice()) {
        Ok(event) => {
            assert!(rt; encode(rt.alloc(), &event)?.as_slice() == changed.as_slice());
            Ok(true)
        }
        Err(fault) => {
            assert!(rt; fault == DecodeFault::NotRecord);
            Ok(false)
        }
    }
}

#[test]
fn a_changed_byte_is_refused_or_read_as_it_stands(rt: HostRuntime) -> Result<(), Fail> {
    for bytes in [
        ADDITION.as_slice(),
        GRANT,
        REFUSAL,
        COPIED,
        COPIED_UNREAD,
        FAILED,
        FAULTED,
        MISMATCH,
        RESTART,
    ] {
        for at in 0..bytes.len() {
            for value in 0..=255 {
                is_record_with(&rt, bytes, at, value)?;
            }
        }
    }
    Ok(())
}

#[test]
fn workers_codes_and_sides_begin_with_1(rt: HostRuntime) -> Result<(), Fail> {
    for (bytes, at, last) in [
        (GRANT.as_slice(), 9, 16),
        (REFUSAL, 17, 2),
        (FAILED, 26, 9),
        (FAILED, 27, 2),
    ] {
        for value in 0..=255 {
            let is_one = 1 <= value && value <= last;
            assert!(rt; is_record_with(&rt, bytes, at, value)? == is_one);
        }
    }
    Ok(())
}

#[test]
fn other_tags_and_outcomes_are_refused(rt: HostRuntime) -> Result<(), Fail> {
    for tag in [0, 3, 7, 8, 9, 10, 14, 16] {
        for bytes in [RESTART.as_slice(), END, GRANT, MISMATCH] {
            assert!(rt; !is_record_with(&rt, bytes, 0, tag)?);
        }
    }
    for outcome in [0, 2, 3, 4, 5, 6, 10] {
        for bytes in [COPIED.as_slice(), FAILED, FAULTED, MISMATCH, &FAILED[..26]] {
            assert!(rt; !is_record_with(&rt, bytes, 25, outcome)?);
        }
    }
    Ok(())
}

#[test]
fn a_cut_text_is_refused(rt: HostRuntime) -> Result<(), Fail> {
    for bytes in [FULL.as_slice(), GRANT, COPIED, MISMATCH, RESTART] {
        for len in 0..bytes.len() {
            assert!(rt; decode(rt.alloc(), &bytes[..len]) == Err(DecodeFault::NotRecord));
        }
    }
    Ok(())
}
