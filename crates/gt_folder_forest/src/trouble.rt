// What a call over folders meets when it can't be done, and what is answered for it.
ghost use Rattle.std.specs.Prelude.{IsTrue, ◌≡◌, ◌≤◌};
ghost use Rattle.gt_causes.specs.Causes.{Rose};
ghost use Rattle.gt_forest.specs.Answers.{may_answer, may_answer_emptying, may_answer_opening, may_answer_stat, may_answer_taking};

use crate::spot::Spot;
use gt_faults::Faults;
use gt_forest::TreeFault;
use std::alloc::{AllocError, AllocFailed};
use std::io;

/// Why a call can't be done: one of the refusals, a failure that is to be counted, or want of memory.
#[derive(Clone, Copy, Debug, Drop)]
pub(crate) enum Trouble {
    NotFound,
    Denied,
    WrongKind,
    NotEmpty,
    Failed(io::Error),
    OutOfMemory,
}

impl From<io::Error> for Trouble {
    fn from(error: io::Error) -> Trouble {
        match error.raw_os_error() {
            Some(code) if is_denial(code) => Trouble::Denied,
            Some(code) if is_absence(code) => Trouble::NotFound,
            _ => Trouble::Failed(error),
        }
    }
}

impl From<AllocError> for Trouble {
    fn from(_: AllocError) -> Trouble {
        Trouble::OutOfMemory
    }
}

impl<T: Drop> From<AllocFailed<T>> for Trouble {
    fn from(_: AllocFailed<T>) -> Trouble {
        Trouble::OutOfMemory
    }
}

fn is_denial(code: i32) -> bool {
    code == libc::EPERM || code == libc::EACCES || code == libc::EROFS
}

// A link, or a file on the way, is as if absent.
fn is_absence(code: i32) -> bool {
    code == libc::ENOENT || code == libc::ENOTDIR || code == libc::ELOOP
}

/// Whether this is the system's number of the error.
pub(crate) fn is_code(error: &io::Error, code: i32) -> bool {
    error.raw_os_error() == Some(code)
}

// What is said of a trouble where its call may not answer it.
fn reason(trouble: Trouble) -> io::Error {
    match trouble {
        Trouble::NotFound => io::Error::from_raw_os_error(libc::ENOENT),
        Trouble::Denied => io::Error::from_raw_os_error(libc::EACCES),
        Trouble::WrongKind => io::Error::from_raw_os_error(libc::EISDIR),
        Trouble::NotEmpty => io::Error::from_raw_os_error(libc::ENOTEMPTY),
        Trouble::Failed(error) => error,
        Trouble::OutOfMemory => io::Error::from_raw_os_error(libc::ENOMEM),
    }
}

// Counts and says a trouble that its call has no other answer for.
fn fail(faults: &mut Faults, spot: Spot<'_>, operation: &str, trouble: Trouble) -> TreeFault
    ensures value { result ≡ TreeFault.Fault }
    ensures cause { Rose faults.old faults.new }
    ensures same { faults.old ≤ faults.new }
{
    faults.add_at(spot, operation, reason(trouble));
    TreeFault::Fault
}

/// The answer of a call without memory that meets this, but to look at a path or to remove a folder.
pub(crate) fn answer(
    faults: &mut Faults,
    spot: Spot<'_>,
    operation: &str,
    trouble: Trouble,
) -> TreeFault
    ensures fault { IsTrue (may_answer result) }
    ensures cause { result ≡ TreeFault.Fault → Rose faults.old faults.new }
    ensures same { faults.old ≤ faults.new }
{
    match trouble {
        Trouble::NotFound => TreeFault::NotFound,
        Trouble::Denied => TreeFault::Denied,
        Trouble::WrongKind => TreeFault::WrongKind,
        other => fail(faults, spot, operation, other),
    }
}

/// The answer of a call that may take memory.
pub(crate) fn answer_taking(
    faults: &mut Faults,
    spot: Spot<'_>,
    operation: &str,
    trouble: Trouble,
) -> TreeFault
    ensures fault { IsTrue (may_answer_taking result) }
    ensures cause { result ≡ TreeFault.Fault → Rose faults.old faults.new }
    ensures same { faults.old ≤ faults.new }
{
    match trouble {
        Trouble::OutOfMemory => TreeFault::OutOfMemory,
        other => answer(faults, spot, operation, other),
    }
}

/// The answer of a look at a path.
pub(crate) fn answer_stat(
    faults: &mut Faults,
    spot: Spot<'_>,
    operation: &str,
    trouble: Trouble,
) -> TreeFault
    ensures fault { IsTrue (may_answer_stat result) }
    ensures cause { result ≡ TreeFault.Fault → Rose faults.old faults.new }
    ensures same { faults.old ≤ faults.new }
{
    match trouble {
        Trouble::NotFound => TreeFault::NotFound,
        Trouble::Denied => TreeFault::Denied,
        other => fail(faults, spot, operation, other),
    }
}

/// The answer of a call that makes a staging file.
pub(crate) fn answer_opening(
    faults: &mut Faults,
    spot: Spot<'_>,
    operation: &str,
    trouble: Trouble,
) -> TreeFault
    ensures fault { IsTrue (may_answer_opening result) }
    ensures cause { result ≡ TreeFault.Fault → Rose faults.old faults.new }
    ensures same { faults.old ≤ faults.new }
{
    match trouble {
        Trouble::OutOfMemory => TreeFault::OutOfMemory,
        other => fail(faults, spot, operation, other),
    }
}

/// The answer of a call that removes a folder.
pub(crate) fn answer_emptying(
    faults: &mut Faults,
    spot: Spot<'_>,
    operation: &str,
    trouble: Trouble,
) -> TreeFault
    ensures fault { IsTrue (may_answer_emptying result) }
    ensures cause { result ≡ TreeFault.Fault → Rose faults.old faults.new }
    ensures same { faults.old ≤ faults.new }
{
    match trouble {
        Trouble::NotEmpty => TreeFault::NotEmpty,
        other => answer(faults, spot, operation, other),
    }
}
