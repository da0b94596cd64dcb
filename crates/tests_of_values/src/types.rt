use gt_paths::{Name, Path};
use gt_types::{
    Act, Code, DeadlineChange, DeleteSpec, Entry, Evidence, FilterRule, Grant, Kept, KeptMember,
    Kind, LabelChange, Outcome, PauseSpec, Principal, Side, TransferEntry, TransferSpec, Want,
    is_deadline_change, is_delete_spec, is_kept, is_label, is_label_change, is_listing, is_message,
    is_pattern, is_pause_spec, is_recordable_outcome, is_transfer_spec, is_worker, outcome_fits,
};
use gt_values::{Digest, Id, Moment, Sequence, Text};
use std::alloc::{AllocError, Global};
use std::test::Fail;

fn repeated(alloc: Global, text: &str, times: usize) -> Result<String, AllocError> {
    let mut all = String::new(alloc);
    for _ in 0..times {
        all.push_str(text)?;
    }
    Ok(all)
}

fn path(alloc: Global, text: &str) -> Result<Path, Fail> {
    Ok(Path::read(alloc, text, &Path::root(alloc))?)
}

#[test]
fn texts_at_their_limits(rt: HostRuntime) -> Result<(), Fail> {
    for (characters, good) in [(0, true), (128, true), (129, false)] {
        // A label counts characters, a message and a pattern count bytes.
        assert_eq!(rt;
            is_label(repeated(rt.alloc(), "é", characters)?.as_str()),
            good
        );
    }
    for (bytes, message, pattern) in [
        (0, true, false),
        (1, true, true),
        (255, true, true),
        (256, true, false),
        (1024, true, false),
        (1025, false, false),
    ] {
        let text = repeated(rt.alloc(), "x", bytes)?;
        assert_eq!(rt; is_message(text.as_str()), message);
        assert_eq!(rt; is_pattern(text.as_str()), pattern);
    }
    Ok(())
}

#[test]
fn kept_bits_at_their_limits(rt: HostRuntime) -> Result<(), Fail> {
    for (given, set, good) in [
        (0, 0, true),
        (63, 63, true),
        (63, 33, true),
        (64, 0, false),
        (1, 2, false),
        (0, 1, false),
    ] {
        assert_eq!(rt; is_kept(Kept { given, set }), good);
    }
    let kept = Kept {
        given: 0b10_1000,
        set: 0b00_1000,
    };
    assert!(rt; kept.flag(KeptMember::EncryptData) == Some(true));
    assert!(rt; kept.flag(KeptMember::StoreBasePathInfo) == Some(false));
    assert!(rt; kept.flag(KeptMember::NotifyOnFailed).is_none());
    let built = Kept::none()
        .with(KeptMember::NotifyOnFailed, None)
        .with(KeptMember::EncryptData, Some(true))
        .with(KeptMember::StoreBasePathInfo, Some(false));
    assert!(rt; built == kept);
    assert_eq!(rt;
        KeptMember::FailOnQuotaErrors.name(),
        "fail_on_quota_errors"
    );
    Ok(())
}

// A transfer of /a to /b, so often, with so many rules.
fn transfer(alloc: Global, entries: usize, rules: usize) -> Result<TransferSpec, Fail> {
    let mut pairs = Vec::new(alloc);
    for _ in 0..entries {
        pairs.push(TransferEntry {
            source: path(alloc, "/a")?,
            destination: path(alloc, "/b")?,
            recursive: None,
        })?;
    }
    let mut filters = Vec::new(alloc);
    for _ in 0..rules {
        filters.push(FilterRule {
            include: true,
            kind: Some(Kind::File),
            pattern: Text::copy_of(alloc, "*")?,
        })?;
    }
    Ok(TransferSpec {
        source: 0,
        destination: 0,
        label: None,
        deadline: Moment::of(0),
        level: Some(3),
        verify: true,
        preserve: false,
        extra: false,
        skip_source: false,
        kept: Kept::none(),
        rules: Sequence::from_vec(filters),
        entries: Sequence::from_vec(pairs),
    })
}

#[test]
fn transfers_at_their_limits(rt: HostRuntime) -> Result<(), Fail> {
    for (entries, rules, good) in [
        (0, 0, false),
        (1, 64, true),
        (1, 65, false),
        (10_000, 0, true),
        (10_001, 0, false),
    ] {
        assert_eq!(rt;
            is_transfer_spec(&transfer(rt.alloc(), entries, rules)?),
            good
        );
    }
    let mut spec = transfer(rt.alloc(), 1, 0)?;
    spec.level = Some(4);
    assert!(rt; !is_transfer_spec(&spec));
    spec.level = None;
    spec.label = Some(Text::from_string(repeated(rt.alloc(), "x", 129)?));
    assert!(rt; !is_transfer_spec(&spec));
    Ok(())
}

fn deletion(alloc: Global, text: &str, entries: usize) -> Result<DeleteSpec, Fail> {
    let mut paths = Vec::new(alloc);
    for _ in 0..entries {
        paths.push(path(alloc, text)?)?;
    }
    Ok(DeleteSpec {
        collection: 0,
        label: None,
        deadline: None,
        recursive: false,
        ignore_missing: false,
        kept: Kept::none(),
        entries: Sequence::from_vec(paths),
    })
}

#[test]
fn deletions_and_changes_at_their_limits(rt: HostRuntime) -> Result<(), Fail> {
    for (text, entries, good) in [
        ("/a", 1, true),
        ("/", 1, false),
        ("/a", 0, false),
        ("/a", 10_001, false),
    ] {
        assert_eq!(rt; is_delete_spec(&deletion(rt.alloc(), text, entries)?), good);
    }
    let long = Text::from_string(repeated(rt.alloc(), "x", 129)?);
    assert!(rt; is_label_change(&LabelChange::Keep));
    assert!(rt; is_label_change(&LabelChange::Set(None)));
    assert!(rt; !is_label_change(&LabelChange::Set(Some(long))));
    assert!(rt; is_deadline_change(DeadlineChange::Set(Moment::of(253_402_300_799))));
    for (bytes, good) in [(1024, true), (1025, false)] {
        let rule = PauseSpec {
            collection: 0,
            identity: Some(Id::made(7, 1, 1)),
            message: Text::from_string(repeated(rt.alloc(), "x", bytes)?),
            transfer_read: true,
            transfer_write: false,
            delete: false,
            ls: false,
            mkdir: false,
            rename: false,
        };
        assert_eq!(rt; is_pause_spec(&rule), good);
    }
    Ok(())
}

fn listing(alloc: Global, names: &[&str]) -> Result<Vec<Entry>, Fail> {
    let mut entries = Vec::new(alloc);
    for name in names {
        entries.push(Entry {
            name: Name::read(alloc, name)?,
            kind: Kind::File,
        })?;
    }
    Ok(entries)
}

#[test]
fn listings_rise_by_bytes(rt: HostRuntime) -> Result<(), Fail> {
    assert!(rt; is_listing(&listing(rt.alloc(), &[])?));
    assert!(rt; is_listing(&listing(rt.alloc(), &["B", "a", "aa", "é"])?));
    assert!(rt; !is_listing(&listing(rt.alloc(), &["a", "B"])?));
    assert!(rt; !is_listing(&listing(rt.alloc(), &["a", "a"])?));
    for (names, good) in [(4096, true), (4097, false)] {
        let mut entries = Vec::new(rt.alloc());
        for number in 1000..1000 + names {
            entries.push(Entry {
                name: Name::read(rt.alloc(), format!(in rt.alloc(); "{number}")?.as_str())?,
                kind: Kind::Folder,
            })?;
        }
        assert_eq!(rt; is_listing(&entries), good);
    }
    Ok(())
}

#[test]
fn principals_have_an_order(rt: HostRuntime) -> Result<(), Fail> {
    let (one, two) = (Id::made(7, 1, 1), Id::made(7, 1, 2));
    let rising = [
        Principal::Identity(one),
        Principal::Identity(two),
        Principal::Group(one),
        Principal::AllAuthenticated,
        Principal::Anonymous,
    ];
    for place in 1..rising.len() {
        assert!(rt; rising[place - 1] < rising[place]);
    }
    Ok(())
}

fn transfer_of(alloc: Global, want: Want) -> Act {
    Act::Transfer {
        source: Path::root(alloc),
        destination: Path::root(alloc),
        want,
    }
}

fn erasure_of(alloc: Global, want: Want) -> Act {
    let path = Path::root(alloc);
    Act::Erase { path, want }
}

fn removal(alloc: Global) -> Act {
    let path = Path::root(alloc);
    Act::RemoveFolder { path }
}

// Whether the outcome fits a grant of the act.
fn fits(verify: bool, act: Act, outcome: &Outcome) -> bool {
    let grant = Grant {
        item: 7,
        event: 9,
        worker: 16,
        act,
        source: 0,
        destination: 1,
        level: None,
        verify,
        preserve: true,
        list_destination: false,
    };
    outcome_fits(&grant, outcome)
}

#[test]
fn copies_fit_transfers_of_files(rt: HostRuntime) -> Result<(), Fail> {
    let source = Digest::from_bytes([1; 32]);
    for (verify, back, good) in [
        (true, Some(source), true),
        (true, Some(Digest::from_bytes([2; 32])), false),
        (true, None, false),
        (false, None, true),
        (false, Some(source), false),
    ] {
        let evidence = Evidence {
            size: 3,
            source,
            back,
        };
        let copied = Outcome::Copied {
            evidence,
            checked: 6,
        };
        assert!(rt; is_recordable_outcome(&copied));
        for (want, is_file) in [
            (Want::File, true),
            (Want::Folder, false),
            (Want::Either, true),
        ] {
            assert!(rt; fits(verify, transfer_of(rt.alloc(), want), &copied) == (good && is_file));
            assert!(rt; !fits(verify, erasure_of(rt.alloc(), want), &copied));
        }
        assert!(rt; !fits(verify, removal(rt.alloc()), &copied));
    }
    Ok(())
}

#[test]
fn failures_fit_by_code_and_side(rt: HostRuntime) -> Result<(), Fail> {
    // Each code: whether a worker finds it, and whether also for a folder's removal.
    for (code, found, removing) in [
        (Code::FileNotFound, true, true),
        (Code::PermissionDenied, true, true),
        (Code::WrongKind, true, true),
        (Code::NotEmpty, true, true),
        (Code::VerifyMismatch, false, false),
        (Code::TreeFault, false, false),
        (Code::FolderTooLarge, true, false),
        (Code::ItemLimit, false, false),
        (Code::PathTooLong, false, false),
    ] {
        for (side, is_destination) in [(Side::Source, false), (Side::Destination, true)] {
            let failed = Outcome::Failed { code, side };
            for want in [Want::File, Want::Folder, Want::Either] {
                assert!(rt; fits(true, transfer_of(rt.alloc(), want), &failed) == found);
                let erased = fits(false, erasure_of(rt.alloc(), want), &failed);
                assert!(rt; erased == (found && is_destination));
            }
            let removed = fits(false, removal(rt.alloc()), &failed);
            assert!(rt; removed == (removing && is_destination));
        }
    }
    Ok(())
}

#[test]
fn faults_and_mismatches_fit(rt: HostRuntime) -> Result<(), Fail> {
    for (before, after, good) in [
        (3, 4, true),
        (3, 3, false),
        (4, 3, false),
        (u64::MAX - 1, u64::MAX, true),
        (u64::MAX, u64::MAX, true),
        (u64::MAX - 1, u64::MAX - 1, false),
    ] {
        let faulted = Outcome::TreeFault { before, after };
        assert!(rt; fits(true, transfer_of(rt.alloc(), Want::Folder), &faulted) == good);
        assert!(rt; fits(false, removal(rt.alloc()), &faulted) == good);
    }
    for (back_size, byte, good) in [(3, 1, false), (3, 2, true), (4, 1, true), (4, 2, true)] {
        let mismatch = Outcome::Mismatch {
            size: 3,
            source: Digest::from_bytes([1; 32]),
            back_size,
            back: Digest::from_bytes([byte; 32]),
            checked: 6,
        };
        assert!(rt; fits(true, transfer_of(rt.alloc(), Want::File), &mismatch) == good);
        assert!(rt; !fits(false, transfer_of(rt.alloc(), Want::File), &mismatch));
        assert!(rt; !fits(true, erasure_of(rt.alloc(), Want::File), &mismatch));
    }
    Ok(())
}

#[test]
fn folders_and_deletions_report_nothing_yet(rt: HostRuntime) -> Result<(), Fail> {
    for outcome in [Outcome::Removed, Outcome::Missing] {
        assert!(rt; !is_recordable_outcome(&outcome));
        assert!(rt; !fits(false, removal(rt.alloc()), &outcome));
    }
    for (worker, good) in [(0, false), (1, true), (16, true), (17, false), (255, false)] {
        assert!(rt; is_worker(worker) == good);
    }
    Ok(())
}
