ghost use Rattle.std.specs.Prelude.{◌≤◌};

use crate::exit::Exit;
use crate::top::script_top;
use gt_disk::{Disk, Keep, MemDisk};
use gt_setup::SetupFault;
use gt_streams::{MemSink, MemSource, Sink, Source, read_exactly};
use gt_values::{Id, Text};
use std::alloc::{AllocError, Global};
use std::rc::RcStr;
use std::test::Fail;

/// Two identities, `ann` with the token `abc` and `bob` with `hello`, and three collections.
pub const SETUP: &str = "namespace = 7
[[identity]]
id = \"00000000-0000-4000-8000-0000000000a1\"
name = \"ann\"
tokens = [\"ba7816bf8f01cfea414140de5dae2223b00361a396177a9cb410ff61f20015ad\"]
groups = []
[[identity]]
id = \"00000000-0000-4000-8000-0000000000b2\"
name = \"bob\"
tokens = [\"2cf24dba5fb0a30e26e83b2ac5b9e29e1b161e5c1fa7425e73043362938b9824\"]
groups = []
[[collection]]
id = \"00000000-0000-4000-8000-0000000000c0\"
name = \"Lab\"
owner = \"00000000-0000-4000-8000-0000000000a1\"
home = \"/home/ann\"
[[collection]]
id = \"00000000-0000-4000-8000-0000000000c1\"
name = \"Store\"
owner = \"00000000-0000-4000-8000-0000000000a1\"
home = \"/\"
[[collection]]
id = \"00000000-0000-4000-8000-0000000000c2\"
name = \"Vault\"
owner = \"00000000-0000-4000-8000-0000000000b2\"
home = \"/\"
";

// The document of 280 bytes, and its submission by each identity.
pub(crate) const DOCUMENT: &str =
    "{\"DATA\":[{\"DATA_TYPE\":\"transfer_item\",\"destination_path\":\"/e\",\"source_path\":\"/e\"}],\"DATA_TYPE\":\"transfer\",\"destination_endpoint\":\"00000000-0000-4000-8000-0000000000c1\",\"source_endpoint\":\"00000000-0000-4000-8000-0000000000c0\",\"submission_id\":\"00000007-0001-8000-8000-000000000001\"}";

pub(crate) const ANN: &str = "send abc POST /v0.10/transfer 280\n";

const BOB: &str = "send hello POST /v0.10/transfer 280\n";

pub(crate) const ACCEPTED: &str = "reply 202 188
{\"DATA_TYPE\":\"transfer_result\",\"code\":\"Accepted\",\"message\":\"The task was accepted.\",\"submission_id\":\"00000007-0001-8000-8000-000000000001\",\"task_id\":\"00000007-0002-8000-8000-000000000001\"}
";

const ACCEPTED_SECOND: &str = "reply 202 188
{\"DATA_TYPE\":\"transfer_result\",\"code\":\"Accepted\",\"message\":\"The task was accepted.\",\"submission_id\":\"00000007-0001-8000-8000-000000000001\",\"task_id\":\"00000007-0002-8000-8000-000000000002\"}
";

pub(crate) const DUPLICATE: &str = "reply 200 203
{\"DATA_TYPE\":\"transfer_result\",\"code\":\"Duplicate\",\"message\":\"This submission was accepted before.\",\"submission_id\":\"00000007-0001-8000-8000-000000000001\",\"task_id\":\"00000007-0002-8000-8000-000000000001\"}
";

const ISSUED: &str = "reply 200 76
{\"DATA_TYPE\":\"submission_id\",\"value\":\"00000007-0001-8000-8000-000000000001\"}
";

const ISSUED_SECOND: &str = "reply 200 76
{\"DATA_TYPE\":\"submission_id\",\"value\":\"00000007-0001-8000-8000-000000000002\"}
";

const FAILED: &str = "reply 503 75
{\"DATA_TYPE\":\"error\",\"code\":\"JournalFault\",\"message\":\"The journal failed.\"}
";

pub(crate) const ONE_TASK: &str = "end 1 1\ntask 1 TRANSFER ACTIVE 1 1 0 0 0 0 0 0 0 0\n";

const ISSUE: &str = "send abc GET /v0.10/submission_id 0\n\n";

// The journal of one identifier that was issued to `ann` at the moment 100.
const JOURNAL: &[u8; 35] = b"\x01\0\0\0\0\0\0\0\x19\
    \x01\
    \0\0\0\0\0\0\0d\
    \0\0\0\0\0\0@\0\x80\0\0\0\0\0\0\xa1\
    \0";

// One text after another.
pub(crate) fn joined(alloc: Global, texts: &[&str]) -> Result<Vec<u8>, AllocError> {
    let mut bytes = Vec::new(alloc);
    for text in texts {
        bytes.extend_from_slice(text.as_bytes())?;
    }
    Ok(bytes)
}

fn words(alloc: Global, texts: &[&str]) -> Result<Vec<RcStr>, Fail> {
    let mut words = Vec::new(alloc);
    for text in texts {
        words.push(RcStr::from_str(alloc, text)?)?;
    }
    Ok(words)
}

fn source(alloc: Global, bytes: &[u8], piece: u32, fails: &[u64]) -> Result<MemSource, AllocError>
    requires { 1 ≤ piece }
{
    Ok(MemSource::new(bytes.to_vec(alloc)?, piece, fails.to_vec(alloc)?))
}

// A disk with these bytes, of which these calls fail. The opening of an empty file makes calls 1 to 4: a sync, the length,
// a write and a sync. Each record makes four more: a write, a sync, the write of its first byte and a sync.
fn disk(alloc: Global, bytes: &[u8], fails: &[u64]) -> Result<MemDisk, AllocError> {
    MemDisk::new(alloc, bytes.to_vec(alloc)?, fails.to_vec(alloc)?)
}

fn contents<D: Disk>(alloc: Global, disk: &mut D) -> Result<Vec<u8>, Fail> {
    let mut bytes = Vec::new(alloc);
    bytes.resize(disk.len()? as usize, 0)?;
    disk.read(0, &mut bytes)?;
    Ok(bytes)
}

// A run of a script on a disk.
pub(crate) fn run_on<D: Disk>(
    alloc: Global,
    setup: &[u8],
    script: &[u8],
    disk: &mut D,
) -> Result<(Exit, MemSink), Fail> {
    let words = words(alloc, &["script", "setup"])?;
    let mut setup = source(alloc, setup, 1000, &[])?;
    let mut script = source(alloc, script, 7, &[])?;
    let mut out = MemSink::new(alloc, 5, Vec::new(alloc));
    let exit = script_top(alloc, &words, &mut setup, &mut script, &mut out, disk);
    Ok((exit, out))
}

// A run of a script on an empty disk, where all is read and written in pieces of at most this size.
pub(crate) fn run_in_pieces(
    alloc: Global,
    setup: &[u8],
    script: &[u8],
    piece: u32,
) -> Result<(Exit, MemSink), Fail>
    requires { 1 ≤ piece }
{
    let words = words(alloc, &["script", "setup"])?;
    let mut setup = source(alloc, setup, piece, &[])?;
    let mut script = source(alloc, script, piece, &[])?;
    let mut out = MemSink::new(alloc, piece, Vec::new(alloc));
    let mut disk = disk(alloc, &[], &[])?;
    let exit = script_top(alloc, &words, &mut setup, &mut script, &mut out, &mut disk);
    Ok((exit, out))
}

// A run of a script on an empty disk.
fn run(alloc: Global, setup: &[u8], script: &[u8]) -> Result<(Exit, MemSink), Fail> {
    let mut disk = disk(alloc, &[], &[])?;
    run_on(alloc, setup, script, &mut disk)
}

// The document with another destination, and the same identifier.
const OTHER_DOCUMENT: &str =
    "{\"DATA\":[{\"DATA_TYPE\":\"transfer_item\",\"destination_path\":\"/f\",\"source_path\":\"/e\"}],\"DATA_TYPE\":\"transfer\",\"destination_endpoint\":\"00000000-0000-4000-8000-0000000000c1\",\"source_endpoint\":\"00000000-0000-4000-8000-0000000000c0\",\"submission_id\":\"00000007-0001-8000-8000-000000000001\"}";

#[test]
fn repeat_of_a_submission_is_duplicate(rt: HostRuntime) -> Result<(), Fail> {
    let alloc = rt.alloc();
    let words = words(alloc, &["script", "setup"])?;
    let lines = joined(
        alloc,
        &[
            ANN,
            DOCUMENT,
            "\n",
            ANN,
            DOCUMENT,
            "\n",
            ANN,
            OTHER_DOCUMENT,
            "\n",
            BOB,
            DOCUMENT,
            "\nend\nend\n",
        ],
    )?;
    let printed = joined(
        alloc,
        &[
            ACCEPTED,
            DUPLICATE,
            DUPLICATE,
            ACCEPTED_SECOND,
            "end 2 2\ntask 1 TRANSFER ACTIVE 1 1 0 0 0 0 0 0 0 0\ntask 2 TRANSFER ACTIVE 1 1 0 0 0 0 0 0 0 0\n",
        ],
    )?;
    let mut setup = source(alloc, SETUP.as_bytes(), 4096, &[])?;
    let mut script = source(alloc, &lines, 4096, &[])?;
    let mut out = MemSink::new(alloc, 4096, Vec::new(alloc));
    let mut disk = disk(alloc, &[], &[])?;
    let exit = script_top(alloc, &words, &mut setup, &mut script, &mut out, &mut disk);
    assert!(rt; exit == Exit::Done);
    assert!(rt; out.bytes() == printed.as_slice());
    // Nothing behind the `end` line was read.
    let mut rest = Vec::new(alloc);
    read_exactly(&mut script, 4, &mut rest)?;
    assert!(rt; rest.as_slice() == b"end\n".as_slice());
    Ok(())
}

#[test]
fn moments_identifiers_and_a_repeat(rt: HostRuntime) -> Result<(), Fail> {
    let alloc = rt.alloc();
    // The moment goes back before the submission. An identifier's body is not read.
    let script = joined(
        alloc,
        &[
            "now 253402300799\nsend abc GET /v0.10/submission_id 4\nnow \nnow 100\nnow 0\n",
            ANN,
            DOCUMENT,
            "\n",
            ANN,
            DOCUMENT,
            "\nend\n",
        ],
    )?;
    let printed = joined(
        alloc,
        &[
            ISSUED,
            ACCEPTED,
            DUPLICATE,
            "end 2 1\ntask 1 TRANSFER ACTIVE 1 1 0 0 0 0 0 0 0 0\n",
        ],
    )?;
    let (exit, out) = run(alloc, SETUP.as_bytes(), &script)?;
    assert!(rt; exit == Exit::Done);
    assert!(rt; out.bytes() == printed.as_slice());
    Ok(())
}

#[test]
fn setup_faults_refuse_before_the_script(rt: HostRuntime) -> Result<(), Fail> {
    let alloc = rt.alloc();
    let long = vec![in alloc; b'#'; 1_048_600]?;
    let twice = joined(
        alloc,
        &[
            SETUP,
            "[[collection]]\nid = \"00000000-0000-4000-8000-0000000000c1\"\nname = \"Vault\"\nowner = \"00000000-0000-4000-8000-0000000000b2\"\nhome = \"/\"\n",
        ],
    )?;
    let unknown = joined(
        alloc,
        &[
            SETUP,
            "[[collection]]\nid = \"00000000-0000-4000-8000-0000000000c3\"\nname = \"Vault\"\nowner = \"00000000-0000-4000-8000-0000000000d4\"\nhome = \"/\"\n",
        ],
    )?;
    let table: [(&[u8], SetupFault); 6] = [
        (
            b"",
            SetupFault::Missing {
                key: Text::copy_of(alloc, "namespace")?,
                row: 0,
            },
        ),
        (
            b"namespace = -1\n",
            SetupFault::BadValue {
                key: Text::copy_of(alloc, "namespace")?,
                row: 0,
            },
        ),
        (b"namespace", SetupFault::NotToml),
        (&long, SetupFault::TooLong { bytes: 1_048_577 }),
        (&twice, SetupFault::Twice { id: id(0xc1) }),
        (&unknown, SetupFault::UnknownIdentity { id: id(0xd4) }),
    ];
    for (setup, fault) in table {
        let (exit, out) = run(alloc, setup, b"end\n")?;
        assert!(rt; exit.status() == 3);
        assert!(rt; exit == Exit::SetupRefused { fault });
        assert!(rt; out.bytes().is_empty());
    }
    Ok(())
}

fn id(last: u8) -> Id {
    Id::from_bytes([0, 0, 0, 0, 0, 0, 0x40, 0, 0x80, 0, 0, 0, 0, 0, 0, last])
}

#[test]
fn words_in_another_form_are_usage(rt: HostRuntime) -> Result<(), Fail> {
    let alloc = rt.alloc();
    let table: [(&[&str], u8); 12] = [
        (&["script", "setup"], 0),
        (&["script", "set up-"], 0),
        (&[], 2),
        (&["script"], 2),
        (&["script", ""], 2),
        (&["script", "-"], 2),
        (&["script", "--help"], 2),
        (&["--version"], 2),
        (&["Script", "setup"], 2),
        (&["", "setup"], 2),
        (&["script", "setup", "journal"], 2),
        (&["script", "setup", "journal", "root"], 2),
    ];
    for (texts, status) in table {
        let words = words(alloc, texts)?;
        let mut setup = source(alloc, SETUP.as_bytes(), 4096, &[])?;
        let mut script = source(alloc, b"end\n", 1, &[])?;
        let mut out = MemSink::new(alloc, 1, Vec::new(alloc));
        let mut disk = disk(alloc, &[], &[])?;
        let exit = script_top(alloc, &words, &mut setup, &mut script, &mut out, &mut disk);
        assert!(rt; exit.status() == status);
        assert!(rt; (out.bytes().len() == 8) == (status == 0));
        assert!(rt; (disk.calls() == 4) == (status == 0));
    }
    Ok(())
}

// One identifier, and the end.
const SHORT: &[u8] = b"send abc GET /v0.10/submission_id 1\nx\nend\n";

#[test]
fn a_failing_setup_ends_the_run(rt: HostRuntime) -> Result<(), Fail> {
    let alloc = rt.alloc();
    let words = words(alloc, &["script", "setup"])?;
    // The setup comes in one piece, and then its end.
    for call in 1..3u64 {
        let mut setup = source(alloc, SETUP.as_bytes(), 4096, &[call])?;
        let mut script = source(alloc, SHORT, 4096, &[])?;
        let mut out = MemSink::new(alloc, 1, Vec::new(alloc));
        let mut disk = disk(alloc, &[], &[])?;
        let exit = script_top(alloc, &words, &mut setup, &mut script, &mut out, &mut disk);
        assert!(rt; exit == Exit::SourceFault);
        assert!(rt; exit.status() == 5);
        assert!(rt; out.bytes().is_empty());
        assert_eq!(rt; setup.faults(), 1);
        assert_eq!(rt; disk.calls(), 0);
    }
    Ok(())
}

#[test]
fn a_failing_script_ends_the_run(rt: HostRuntime) -> Result<(), Fail> {
    let alloc = rt.alloc();
    let words = words(alloc, &["script", "setup"])?;
    // A command line comes byte by byte, and a body at once.
    for call in 1..42u64 {
        let mut setup = source(alloc, SETUP.as_bytes(), 4096, &[])?;
        let mut script = source(alloc, SHORT, 4096, &[call])?;
        let mut out = MemSink::new(alloc, 100, Vec::new(alloc));
        let mut disk = disk(alloc, &[], &[])?;
        let exit = script_top(alloc, &words, &mut setup, &mut script, &mut out, &mut disk);
        assert!(rt; exit == Exit::SourceFault);
        assert!(rt; out.bytes().is_empty() == (call < 38));
        assert!(rt; ISSUED.as_bytes().starts_with(out.bytes()));
        assert_eq!(rt; script.faults(), 1);
    }
    Ok(())
}

#[test]
fn a_failing_sink_ends_the_run(rt: HostRuntime) -> Result<(), Fail> {
    let alloc = rt.alloc();
    let words = words(alloc, &["script", "setup"])?;
    // The reply and the table have 98 bytes.
    let printed = joined(alloc, &[ISSUED, "end 1 0\n"])?;
    for call in 1..99u64 {
        let mut setup = source(alloc, SETUP.as_bytes(), 4096, &[])?;
        let mut script = source(alloc, SHORT, 4096, &[])?;
        let mut out = MemSink::new(alloc, 1, [call].to_vec(alloc)?);
        let mut disk = disk(alloc, &[], &[])?;
        let exit = script_top(alloc, &words, &mut setup, &mut script, &mut out, &mut disk);
        assert!(rt; exit == Exit::SinkFault);
        assert!(rt; exit.status() == 6);
        assert!(rt; out.bytes().len() as u64 + 1 == call);
        assert!(rt; printed.starts_with(out.bytes()));
        assert_eq!(rt; out.faults(), 1);
    }
    Ok(())
}

// A request that is refused without the desk.
const NO_RESOURCE: &str = "send - GET /v0.10/nothing 0\n\n";

const NO_SUCH_RESOURCE: &str = "reply 404 69
{\"DATA_TYPE\":\"error\",\"code\":\"NotFound\",\"message\":\"No such resource.\"}
";

#[test]
fn doubtful_record_is_settled(rt: HostRuntime) -> Result<(), Fail> {
    let alloc = rt.alloc();
    let script = joined(
        alloc,
        &[ANN, DOCUMENT, "\n", NO_RESOURCE, ANN, DOCUMENT, "\nend\n"],
    )?;
    // The second sync of the record fails, so it is there all the same; or the first one, so it isn't. The refusal between
    // leaves it in doubt.
    for (call, again) in [(8, DUPLICATE), (6, ACCEPTED)] {
        let mut disk = disk(alloc, &[], &[call])?;
        let (exit, out) = run_on(alloc, SETUP.as_bytes(), &script, &mut disk)?;
        let printed = joined(alloc, &[FAILED, NO_SUCH_RESOURCE, again, ONE_TASK])?;
        assert!(rt; exit == Exit::Done);
        assert!(rt; out.bytes() == printed.as_slice());
        assert_eq!(rt; disk.faults(), 1);
    }
    Ok(())
}

#[test]
fn restart_counts_the_events(rt: HostRuntime) -> Result<(), Fail> {
    let alloc = rt.alloc();
    let script = joined(alloc, &[ISSUE, ISSUE, "restart\nend\n"])?;
    let printed = joined(alloc, &[ISSUED, ISSUED_SECOND, "restart 2\nend 2 0\n"])?;
    let (exit, out) = run(alloc, SETUP.as_bytes(), &script)?;
    assert!(rt; exit == Exit::Done);
    assert!(rt; out.bytes() == printed.as_slice());
    Ok(())
}

#[test]
fn journal_is_written_record_by_record(rt: HostRuntime) -> Result<(), Fail> {
    let alloc = rt.alloc();
    let script = joined(alloc, &["now 100\n", ISSUE, "end\n"])?;
    let mut disk = disk(alloc, &[], &[])?;
    let (exit, out) = run_on(alloc, SETUP.as_bytes(), &script, &mut disk)?;
    assert!(rt; exit == Exit::Done);
    assert!(rt; out.bytes().starts_with(ISSUED.as_bytes()));
    assert_eq!(rt; contents(alloc, &mut disk)?.as_slice(), JOURNAL.as_slice());
    Ok(())
}

#[test]
fn journal_cut_at_each_byte(rt: HostRuntime) -> Result<(), Fail> {
    let alloc = rt.alloc();
    for cut in 0..36 {
        let (exit, status, printed) = match cut {
            0..=8 => (Exit::Done, 0, "end 0 0\n"),
            9..=33 => (Exit::Damaged { at_record: 0 }, 8, ""),
            _ => (Exit::Done, 0, "end 1 0\n"),
        };
        let mut disk = disk(alloc, &JOURNAL[..cut], &[])?;
        let (ended, out) = run_on(alloc, SETUP.as_bytes(), b"end\n", &mut disk)?;
        assert!(rt; ended == exit, "cut to {cut}");
        assert_eq!(rt; ended.status(), status, "cut to {cut}");
        assert!(rt; out.bytes() == printed.as_bytes(), "cut to {cut}");
    }
    Ok(())
}

#[test]
fn opening_that_fails_ends_the_run(rt: HostRuntime) -> Result<(), Fail> {
    let alloc = rt.alloc();
    let words = words(alloc, &["script", "setup"])?;
    for call in 1..5u64 {
        let mut setup = source(alloc, SETUP.as_bytes(), 4096, &[])?;
        let mut script = source(alloc, SHORT, 4096, &[])?;
        let mut out = MemSink::new(alloc, 4096, Vec::new(alloc));
        let mut disk = disk(alloc, &[], &[call])?;
        let exit = script_top(alloc, &words, &mut setup, &mut script, &mut out, &mut disk);
        assert!(rt; exit == Exit::JournalFault);
        assert!(rt; exit.status() == 7);
        assert!(rt; out.bytes().is_empty());
        assert_eq!(rt; disk.faults(), 1);
        // Nothing of the script was read.
        let mut rest = Vec::new(alloc);
        read_exactly(&mut script, SHORT.len() as u64, &mut rest)?;
        assert!(rt; rest.as_slice() == SHORT);
    }
    Ok(())
}

#[test]
fn restart_whose_opening_fails_ends_the_run(rt: HostRuntime) -> Result<(), Fail> {
    let alloc = rt.alloc();
    let script = joined(alloc, &[ISSUE, "restart\nend\n"])?;
    let mut disk = disk(alloc, &[], &[9])?;
    let (exit, out) = run_on(alloc, SETUP.as_bytes(), &script, &mut disk)?;
    assert!(rt; exit == Exit::JournalFault);
    assert!(rt; exit.status() == 7);
    assert!(rt; out.bytes() == ISSUED.as_bytes());
    assert_eq!(rt; disk.faults(), 1);
    Ok(())
}

#[test]
fn tasks_outlive_a_crash(rt: HostRuntime) -> Result<(), Fail> {
    let alloc = rt.alloc();
    let script = joined(alloc, &[ANN, DOCUMENT, "\nend\n"])?;
    let mut disk = disk(alloc, &[], &[])?;
    for reply in [ACCEPTED, DUPLICATE, DUPLICATE] {
        let (exit, out) = run_on(alloc, SETUP.as_bytes(), &script, &mut disk)?;
        let printed = joined(alloc, &[reply, ONE_TASK])?;
        assert!(rt; exit == Exit::Done);
        assert!(rt; out.bytes() == printed.as_slice());
        disk = disk.crash(alloc, Keep::Synced)?;
    }
    Ok(())
}
