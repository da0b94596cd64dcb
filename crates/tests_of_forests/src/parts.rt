// A test of the forest as parts: what the system makes, what the forest is asked, and what it has to answer.
ghost use Rattle.std.specs.Prelude.{IfOk, ◌<◌, ◌≡◌};

use crate::calls::{Call, Line, Told, first_wrong, is_met};
use crate::strict::StrictFolders;
use crate::things::{Thing, first_missing, folder_for, time_of};
use gt_folder_forest::DirForest;
use gt_folders::{Folders, SystemFolders};
use gt_forest::Forest;
use gt_forest_suite::forest_suite;
use gt_values::Id;
use std::alloc::{AllocError, Global};
use std::fs;
use std::test::Fail;

/// Which of two forests over the same folders is asked.
#[derive(Clone, Copy)]
pub(crate) enum Side {
    Own,
    Other,
}

/// A part of a test.
#[derive(Clone, Copy)]
pub(crate) enum Part {
    /// The system makes or finds these.
    Things(&'static [(&'static str, Thing)]),
    /// Calls, each path with this text before it.
    Calls(&'static str, &'static [Line]),
    /// Calls of this forest and of another one, which is gone at the end.
    Beside(&'static [(Side, Line)]),
    /// The suite.
    Suite,
    /// So many calls are counted.
    Counted(u64),
    /// The time of this path is told as the system tells it, but for times out of range.
    Time(&'static str),
    /// A call at a path of one long name, of two, and so on up to 64.
    Deeper(Call, Told),
    /// The same from 64 names down to one.
    Higher(Call, Told),
    /// The call is done for each of forty staging files.
    Stages(Call),
}

fn first_wrong_of_two<F: Folders + Drop>(
    alloc: Global,
    own: &mut DirForest<F>,
    other: &mut DirForest<SystemFolders>,
    lines: &[(Side, Line)],
) -> Option<usize>
    requires { (1 < own.old.collections) × (1 < other.old.collections) }
    ensures { own.new.collections ≡ own.old.collections }
{
    for i in 0..lines.len() {
        let (side, line) = &lines[i];
        let is_met = match side {
            Side::Own => is_met(alloc, own, "", line),
            Side::Other => is_met(alloc, other, "", line),
        };
        if !is_met {
            return Some(i);
        }
    }
    None
}

fn first_wrong_beside<F: Folders + Drop>(
    rt: &HostRuntime,
    root: &str,
    own: &mut DirForest<F>,
    lines: &[(Side, Line)],
) -> Option<usize>
    requires { 1 < own.old.collections }
    ensures { own.new.collections ≡ own.old.collections }
{
    match forest_at(rt, root) {
        Ok(mut other) => first_wrong_of_two(rt.alloc(), own, &mut other, lines),
        Err(_) => Some(0),
    }
}

// A slash and a name of 63 bytes.
const LONG: &str = "/123456789012345678901234567890123456789012345678901234567890123";

// The text of a path of so many long names.
fn long_path(alloc: Global, names: u64) -> Result<String, AllocError> {
    let mut text = String::new(alloc);
    for _ in 0..names {
        text.push_str(LONG)?;
    }
    Ok(text)
}

fn is_met_at_depth<F: Folders + Drop>(
    alloc: Global,
    forest: &mut DirForest<F>,
    names: u64,
    line: &Line,
) -> bool
    requires { 1 < forest.old.collections }
    ensures { forest.new.collections ≡ forest.old.collections }
{
    match long_path(alloc, names) {
        Ok(text) => is_met(alloc, forest, &text, line),
        Err(_) => false,
    }
}

fn are_met_at_depths<F: Folders + Drop>(
    alloc: Global,
    forest: &mut DirForest<F>,
    is_deeper: bool,
    line: &Line,
) -> bool
    requires { 1 < forest.old.collections }
    ensures { forest.new.collections ≡ forest.old.collections }
{
    for i in 0..64 {
        let names = if is_deeper { i + 1 } else { 64 - i };
        if !is_met_at_depth(alloc, forest, names, line) {
            return false;
        }
    }
    true
}

// The call with the key of another staging file.
fn with_key(call: Call, key: u64) -> Call {
    match call {
        Call::Append(_, bytes) => Call::Append(key, bytes),
        Call::Discard(_) => Call::Discard(key),
        _ => Call::Open(key),
    }
}

fn are_done_for_stages<F: Folders + Drop>(
    alloc: Global,
    forest: &mut DirForest<F>,
    call: Call,
) -> bool
    requires { 1 < forest.old.collections }
    ensures { forest.new.collections ≡ forest.old.collections }
{
    for key in 0..40 {
        if !is_met(alloc, forest, "", &("/", with_key(call, key), Told::Done)) {
            return false;
        }
    }
    true
}

fn is_time_told<F: Folders + Drop>(
    rt: &HostRuntime,
    root: &str,
    forest: &mut DirForest<F>,
    path: &'static str,
) -> bool
    requires { 1 < forest.old.collections }
    ensures { forest.new.collections ≡ forest.old.collections }
{
    match time_of(rt, root, path) {
        Some(time) => is_met(
            rt.alloc(),
            forest,
            "",
            &(path, Call::Stat, Told::Time(time)),
        ),
        None => false,
    }
}

fn none_if(is_met: bool) -> Option<usize> {
    if is_met { None } else { Some(0) }
}

// The first line of a part that isn't met.
fn first_wrong_in<F: Folders + Drop>(
    rt: &HostRuntime,
    root: &str,
    forest: &mut DirForest<F>,
    part: Part,
) -> Option<usize>
    requires { 1 < forest.old.collections }
    ensures { forest.new.collections ≡ forest.old.collections }
{
    let alloc = rt.alloc();
    match part {
        Part::Things(things) => first_missing(rt, root, things),
        Part::Calls(above, lines) => first_wrong(alloc, forest, above, lines),
        Part::Beside(lines) => first_wrong_beside(rt, root, forest, lines),
        Part::Suite => none_if(forest_suite(alloc, forest).is_ok()),
        Part::Counted(calls) => none_if(forest.calls() == calls),
        Part::Time(path) => none_if(is_time_told(rt, root, forest, path)),
        Part::Deeper(call, told) => {
            none_if(are_met_at_depths(alloc, forest, true, &("", call, told)))
        }
        Part::Higher(call, told) => {
            none_if(are_met_at_depths(alloc, forest, false, &("", call, told)))
        }
        Part::Stages(call) => none_if(are_done_for_stages(alloc, forest, call)),
    }
}

/// The first part that isn't met, with its line, and the forest's faults.
pub(crate) type Ran = (Option<(usize, usize)>, u64);

fn ran<F: Folders + Drop>(
    rt: &HostRuntime,
    root: &str,
    forest: &mut DirForest<F>,
    parts: &[Part],
) -> Ran
    requires { 1 < forest.old.collections }
{
    for i in 0..parts.len() {
        if let Some(line) = first_wrong_in(rt, root, forest, parts[i]) {
            return (Some((i, line)), forest.faults());
        }
    }
    (None, forest.faults())
}

/// The folders that a forest is over.
#[derive(Clone, Copy)]
pub(crate) enum Over {
    System,
    /// Strict ones, of whose syncs this one fails, counted from 1.
    Strict(u64),
}

/// A forest of both collections.
pub(crate) fn forest_at(
    rt: &HostRuntime,
    root: &str,
) -> Result<DirForest<SystemFolders>, AllocError>
    ensures { IfOk result (λ forest. forest.collections ≡ 2) }
{
    let ids = [Id::made(1, 2, 1), Id::made(1, 2, 2)];
    DirForest::new(HostRuntime::clone(rt)?, root, &ids)
}

fn strict_folders(
    rt: &HostRuntime,
    failing: u64,
) -> Result<StrictFolders<SystemFolders>, AllocError> {
    let folders = SystemFolders::new(HostRuntime::clone(rt)?)?;
    Ok(StrictFolders::new(rt.alloc(), folders, failing))
}

fn strict_at(
    rt: &HostRuntime,
    root: &str,
    failing: u64,
) -> Result<DirForest<StrictFolders<SystemFolders>>, AllocError>
    ensures { IfOk result (λ forest. forest.collections ≡ 2) }
{
    let ids = [Id::made(1, 2, 1), Id::made(1, 2, 2)];
    DirForest::over(rt.alloc(), strict_folders(rt, failing)?, root, &ids)
}

fn run(rt: &HostRuntime, root: &str, parts: &[Part]) -> Result<Ran, AllocError> {
    let mut forest = forest_at(rt, root)?;
    Ok(ran(rt, root, &mut forest, parts))
}

fn run_strictly(
    rt: &HostRuntime,
    root: &str,
    failing: u64,
    parts: &[Part],
) -> Result<Ran, AllocError> {
    let mut forest = strict_at(rt, root, failing)?;
    Ok(ran(rt, root, &mut forest, parts))
}

fn run_over(rt: &HostRuntime, root: &str, over: Over, parts: &[Part]) -> Result<Ran, AllocError> {
    match over {
        Over::System => run(rt, root, parts),
        Over::Strict(failing) => run_strictly(rt, root, failing, parts),
    }
}

/// Runs a test in a new folder, which is removed.
pub(crate) fn tried(rt: &HostRuntime, test: &str, over: Over, parts: &[Part]) -> Result<Ran, Fail> {
    let root = folder_for(rt, test)?;
    let ran = run_over(rt, &root, over, parts)?;
    fs::remove_dir_all(rt, &root)?;
    Ok(ran)
}
