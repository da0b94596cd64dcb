//! The transfer desk as a program: `transferd script SETUP` runs a script from standard input under the setup in a file, and
//! prints what it answers.
//!
//! `script_top` does all of it, over any sources and any sink. Its contract has the main theorem (`specs/MainTheorem.antt`).
//! What is here makes the real objects, calls it, says what went wrong, and ends with its status.
#![tactic(auto)]

mod exit;
#[cfg(test)]
mod file_tests;
mod laws;
mod line;
mod output;
#[cfg(test)]
mod route_tests;
mod script;
mod session;
mod setup;
#[cfg(test)]
mod tests;
mod top;
mod words;

use exit::Exit;
use gt_disk::MemDisk;
use gt_real::{StdSink, StdSource};
use gt_streams::MemSource;
use std::alloc::{AllocError, Global};
use std::env::{self, Env};
use std::fs::{self, File, Files};
use std::io::{Eprint, ErrorKind, Read};
use std::os::fd::AsRawFd;
use std::process::ExitCode;
use std::rc::RcStr;
use top::script_top;
use words::are_script_words;

// The words of the command, or none where they are no text, which is no form of a command.
fn command_words(rt: &(impl Env + Alloc<A = Global>)) -> Result<Vec<RcStr>, AllocError> {
    let mut words = Vec::new(rt.alloc());
    match env::args(rt) {
        Ok(args) => {
            for word in args.skip(1) {
                words.push(RcStr::from_string(word)?)?;
            }
        }
        Err(error) => {
            if error.kind() == ErrorKind::OutOfMemory {
                return Err(AllocError);
            }
        }
    }
    Ok(words)
}

// The top call over the real objects: the setup is the file that the words name. Where the words are in another form it is
// never read. The journal is in memory, so it ends with the process.
fn run<F: Files<File = File> + AllocGlobal + Eprint, R: Read + AsRawFd + Drop, W: AsRawFd + Drop>(
    rt: &F,
    words: &[RcStr],
    input: R,
    output: W,
) -> Result<Exit, AllocError> {
    let alloc = rt.alloc();
    let mut input = StdSource::new(alloc, input, "standard input")?;
    let mut output = StdSink::new(alloc, output, "standard output")?;
    let mut disk = MemDisk::new(alloc, Vec::new(alloc), Vec::new(alloc))?;
    let exit = match words {
        [_, setup] if are_script_words(words) => match fs::open(rt, setup.as_str()) {
            Ok(file) => {
                let mut setup = StdSource::new(alloc, file, "the setup file")?;
                script_top(alloc, words, &mut setup, &mut input, &mut output, &mut disk)
            }
            Err(error) => {
                let setup = setup.as_str();
                let _ = eprintln!(rt; "transferd: the setup file {setup} can't be opened: {error}");
                not_opened(error.kind())
            }
        },
        _ => {
            let mut setup = MemSource::new(Vec::new(alloc), 1, Vec::new(alloc));
            script_top(alloc, words, &mut setup, &mut input, &mut output, &mut disk)
        }
    };
    Ok(exit)
}

fn not_opened(kind: ErrorKind) -> Exit {
    if kind == ErrorKind::OutOfMemory {
        Exit::OutOfMemory
    } else {
        Exit::SourceFault
    }
}

// Says what went wrong, and where, on one line.
fn tell<R: Eprint>(rt: &R, exit: &Exit) {
    let _ = match exit {
        Exit::Done => Ok(()),
        Exit::Usage => eprintln!(rt; "transferd: usage: transferd script SETUP"),
        Exit::SetupRefused { fault } => eprintln!(rt; "transferd: the setup is refused: {fault}"),
        Exit::ScriptRefused { line } => {
            eprintln!(rt; "transferd: the script is refused at line {line}, counted by commands")
        }
        Exit::SourceFault => eprintln!(rt; "transferd: the setup or the script could not be read"),
        Exit::SinkFault => eprintln!(rt; "transferd: the output could not be written"),
        Exit::JournalFault => eprintln!(rt;
            "transferd: the journal failed while the desk was opened"
        ),
        Exit::Damaged { at_record } => {
            eprintln!(rt;
                "transferd: record {at_record} of the journal, counted from 0, is damaged"
            )
        }
        Exit::OutOfMemory => eprintln!(rt; "transferd: out of memory"),
    };
}

fn main(rt: HostRuntime) -> ExitCode {
    let exit = match command_words(&rt) {
        Ok(words) => run(&rt, &words, rt.stdin(), rt.stdout()).unwrap_or(Exit::OutOfMemory),
        Err(AllocError) => Exit::OutOfMemory,
    };
    tell(&rt, &exit);
    let status = exit.status();
    if status != 0 {
        let _ = eprintln!(rt; "transferd: status {status}");
    }
    ExitCode::from(status)
}
