ghost use Rattle.gt_causes.specs.Causes.{HasFailed};
ghost use Rattle.gt_script.specs.Reading.{BeginsCommand, BeginsNoLine, BeginsWith, BreaksOff, BreaksOffBehind, BreaksOffBody, Counts, GoesOn, GoesOnNowhere, HasNoBody, Refuses, Stops};
ghost use Rattle.gt_script.specs.Script.{most_script_bytes};
ghost use Rattle.gt_streams.specs.Streams.{IsSameSource};
ghost use Rattle.std.specs.Prelude.{IfErr, IfOk, IsErrOf, IsTrue, length, ◌++◌, ◌+◌, ◌<◌, ◌≡◌, ◌≤◌, ◌∷◌};

use crate::command_line::{CommandLine, read_command};
use crate::line::{Line, ScriptFault};
use gt_setup::Setup;
use gt_streams::{LineEnd, Source, StreamFault, read_exactly, read_line};
use gt_values::Bytes;
use std::alloc::{AllocError, Global};

/// The most bytes of a script, through the newline of its `end` line.
pub const SCRIPT_LIMIT: u64 = 67_108_864;

// A command line has at most 8,192 bytes: one more, with no newline among them, is too long.
const COMMAND_LIMIT: u32 = 8_193;

/// Reads the next line of a script under the setup, the line of this number. So many bytes of the script were taken before:
/// the call adds those that it takes, whatever it answers.
///
/// `Refused` names the line. It comes exactly where no line stands there that ends within the limit, or where the input ends
/// before it. Nothing behind the line is taken. A request is not judged: its token may be unknown, its method and its target
/// may be any word, and its body any bytes.
///
/// `body_started` says that a line other than one on trees was read before. No line is one on trees, and none depends on the
/// setup, so the answer depends on neither.
pub fn read_script_line<S: Source>(
    alloc: Global,
    script: &mut S,
    setup: &Setup,
    number: u64,
    taken: &mut u64,
    body_started: bool,
) -> Result<Line, ScriptFault>
    requires { taken.old < most_script_bytes }
    ensures ok { IfOk result (λ _. (taken.old < taken.new) × (taken.new ≤ most_script_bytes)) }
    ensures line { IfOk result (λ line. IsTrue (S.words.told script.old)
        → BeginsWith setup.now line taken.old (S.words.left script.old)
        (S.words.left script.new) taken.new) }
    ensures refused { IfErr result (Refuses number (IsTrue (S.words.told script.old)
        → BeginsNoLine setup.now taken.old (S.words.left script.old))) }
    ensures stopped { IfErr result (λ fault. IsTrue (S.words.told script.old)
        → Stops setup.now taken.old (S.words.left script.old) (S.words.left script.new) fault
        × Counts taken.old (S.words.left script.old) (S.words.left script.new) taken.new) }
    ensures cause { IsErrOf result ScriptFault.SourceFault
        → HasFailed S.words.faults script.old script.new }
    ensures same { IsSameSource S.words script.old script.new }
{
    match read_command_line(alloc, script, setup, number, taken) {
        Ok(command_line) => read_rest(alloc, script, setup, command_line, number, taken),
        Err(fault) => Err(fault),
    }
}

// Reads a command line with its newline.
fn read_command_line<S: Source>(
    alloc: Global,
    script: &mut S,
    setup: &Setup,
    number: u64,
    taken: &mut u64,
) -> Result<CommandLine, ScriptFault>
    requires { taken.old < most_script_bytes }
    ensures ok { IfOk result (λ _. (taken.old < taken.new) × (taken.new ≤ most_script_bytes)) }
    ensures command { IfOk result (λ line. IsTrue (S.words.told script.old)
        → BeginsCommand setup.now line taken.old (S.words.left script.old)
        (S.words.left script.new) taken.new) }
    ensures refused { IfErr result (Refuses number (IsTrue (S.words.told script.old)
        → BeginsNoLine setup.now taken.old (S.words.left script.old))) }
    ensures stopped { IfErr result (λ fault. IsTrue (S.words.told script.old)
        → Stops setup.now taken.old (S.words.left script.old) (S.words.left script.new) fault
        × Counts taken.old (S.words.left script.old) (S.words.left script.new) taken.new) }
    ensures cause { IsErrOf result ScriptFault.SourceFault
        → HasFailed S.words.faults script.old script.new }
    ensures same { IsSameSource S.words script.old script.new }
{
    let mut command = Vec::new(alloc);
    let end = read_line(script, COMMAND_LIMIT, &mut command);
    *taken += command.len() as u64;
    match end {
        Ok(LineEnd::Line) => *taken += 1,
        Err(StreamFault::ReadFault) => return Err(ScriptFault::SourceFault),
        Err(StreamFault::OutOfMemory) => return Err(ScriptFault::OutOfMemory),
        Ok(LineEnd::EndOfInput { have: _ }) => return Err(ScriptFault::Refused { line: number }),
        Err(StreamFault::TooLong { max: _ }) => return Err(ScriptFault::Refused { line: number }),
        Err(StreamFault::Cut { have: _, want: _ }) => unreachable!(),
    }
    if *taken > SCRIPT_LIMIT {
        return Err(ScriptFault::Refused { line: number });
    }
    match read_command(alloc, setup, &command) {
        Ok(Some(command_line)) => Ok(command_line),
        Ok(None) => Err(ScriptFault::Refused { line: number }),
        Err(AllocError) => Err(ScriptFault::OutOfMemory),
    }
}

// Reads what follows a command line.
fn read_rest<S: Source>(
    alloc: Global,
    script: &mut S,
    setup: &Setup,
    command_line: CommandLine,
    number: u64,
    taken: &mut u64,
) -> Result<Line, ScriptFault>
    requires { taken.old ≤ most_script_bytes }
    ensures ok { IfOk result (λ _. (taken.old ≤ taken.new) × (taken.new ≤ most_script_bytes)) }
    ensures line { IfOk result (λ line. IsTrue (S.words.told script.old)
        → GoesOn setup.now command_line line taken.old (S.words.left script.old)
        (S.words.left script.new) taken.new) }
    ensures refused { IfErr result (Refuses number (IsTrue (S.words.told script.old)
        → GoesOnNowhere setup.now command_line taken.old (S.words.left script.old))) }
    ensures stopped { IfErr result (λ _. IsTrue (S.words.told script.old)
        → BreaksOffBehind setup.now command_line taken.old (S.words.left script.old)
        (S.words.left script.new)
        × Counts taken.old (S.words.left script.old) (S.words.left script.new) taken.new) }
    ensures cause { IsErrOf result ScriptFault.SourceFault
        → HasFailed S.words.faults script.old script.new }
    ensures same { IsSameSource S.words script.old script.new }
{
    match command_line {
        CommandLine::End => Ok(Line::End),
        CommandLine::Now(moment) => Ok(Line::Now(moment)),
        CommandLine::Restart => Ok(Line::Restart),
        CommandLine::Send {
            token,
            method,
            target,
            size,
        } => {
            let body = read_body(alloc, script, size, number, taken)?;
            Ok(Line::Send {
                token,
                method,
                target,
                body: Bytes::from_vec(body),
            })
        }
    }
}

// Reads a body of so many bytes and a newline.
fn read_body<S: Source>(
    alloc: Global,
    script: &mut S,
    size: u64,
    number: u64,
    taken: &mut u64,
) -> Result<Vec<u8>, ScriptFault>
    requires { taken.old ≤ most_script_bytes }
    ensures body { IfOk result (λ body. IsTrue (S.words.told script.old)
        → S.words.left script.old ≡ body.items ++ 10 ∷ S.words.left script.new) }
    ensures counted { IfOk result (λ body. (length body.items ≡ size)
        × (taken.old + size + 1 ≡ taken.new) × (taken.new ≤ most_script_bytes)) }
    ensures refused { IfErr result (Refuses number (IsTrue (S.words.told script.old)
        → HasNoBody size taken.old (S.words.left script.old))) }
    ensures stopped { IfErr result (λ _. IsTrue (S.words.told script.old)
        → BreaksOffBody size taken.old (S.words.left script.old) (S.words.left script.new)
        × Counts taken.old (S.words.left script.old) (S.words.left script.new) taken.new) }
    ensures cause { IsErrOf result ScriptFault.SourceFault
        → HasFailed S.words.faults script.old script.new }
    ensures same { IsSameSource S.words script.old script.new }
{
    if size >= SCRIPT_LIMIT - *taken {
        return Err(ScriptFault::Refused { line: number });
    }
    let mut body = Vec::new(alloc);
    let end = read_exactly(script, size + 1, &mut body);
    *taken += body.len() as u64;
    match end {
        Ok(()) => {}
        Err(StreamFault::ReadFault) => return Err(ScriptFault::SourceFault),
        Err(StreamFault::OutOfMemory) => return Err(ScriptFault::OutOfMemory),
        Err(StreamFault::Cut { have: _, want: _ }) => return Err(ScriptFault::Refused {
            line: number,
        }),
        Err(StreamFault::TooLong { max: _ }) => unreachable!(),
    }
    match body.pop() {
        Some(b'\n') => Ok(body),
        _ => Err(ScriptFault::Refused { line: number }),
    }
}
