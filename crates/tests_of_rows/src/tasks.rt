use gt_paths::Path;
use gt_tasks::{TaskRow, Tasks};
use gt_types::{DeadlineChange, DeleteSpec, Kept, LabelChange, Reason, Spec, Status};
use gt_values::{Id, Moment, Sequence, Text};
use std::alloc::Global;
use std::test::Fail;

fn ann() -> Id {
    Id::from_bytes([0xa1; 16])
}

fn bob() -> Id {
    Id::from_bytes([0xb2; 16])
}

fn submission() -> Id {
    Id::from_bytes([0x05; 16])
}

// A task of the owner, under a number that isn't its own.
fn task(alloc: Global, owner: Id) -> Result<TaskRow, Fail> {
    let entries: Sequence<Path> = Sequence::new(alloc);
    Ok(TaskRow {
        number: 77,
        owner,
        submission: submission(),
        spec: Spec::Delete(DeleteSpec {
            collection: 0,
            label: None,
            deadline: None,
            recursive: false,
            ignore_missing: false,
            kept: Kept::none(),
            entries,
        }),
        label: Some(Text::copy_of(alloc, "old")?),
        deadline: Moment::of(9),
        requested: Moment::zero(),
        closing: None,
        completed: None,
    })
}

// Adds the task, unless its owner made one with this identifier.
fn add(tasks: &mut Tasks, row: TaskRow) -> Result<Option<u64>, Fail> {
    tasks.reserve(1)?;
    match tasks.find(&row.owner, &row.submission) {
        Some(_) => Ok(None),
        None => Ok(Some(tasks.add(row))),
    }
}

fn close(tasks: &mut Tasks, task: u64) {
    if tasks.row(task).is_some() {
        tasks.close(task, Reason::Canceled);
    }
}

fn complete(tasks: &mut Tasks, task: u64, at: Moment) {
    if tasks.row(task).is_some() {
        tasks.complete(task, at);
    }
}

fn update(tasks: &mut Tasks, task: u64, label: LabelChange, deadline: DeadlineChange) {
    if tasks.row(task).is_some() {
        tasks.update(task, label, deadline);
    }
}

fn status(tasks: &Tasks, task: u64) -> Option<Status> {
    if tasks.row(task).is_some() {
        Some(tasks.status(task))
    } else {
        None
    }
}

fn has_label(tasks: &Tasks, task: u64) -> bool {
    tasks.row(task).is_some_and(|row| row.label.is_some())
}

fn deadline(tasks: &Tasks, task: u64) -> Option<Moment> {
    tasks.row(task).and_then(|row| row.deadline)
}

fn number(tasks: &Tasks, task: u64) -> Option<u64> {
    tasks.row(task).map(|row| row.number)
}

#[test]
fn one_identifier_of_two_owners(rt: HostRuntime) -> Result<(), Fail> {
    let alloc = rt.alloc();
    let mut tasks = Tasks::new(alloc);
    assert_eq!(rt; add(&mut tasks, task(alloc, ann())?)?, Some(1));
    assert_eq!(rt; add(&mut tasks, task(alloc, bob())?)?, Some(2));
    assert_eq!(rt; add(&mut tasks, task(alloc, ann())?)?, None);
    assert_eq!(rt; tasks.find(&ann(), &submission()), Some(1));
    assert_eq!(rt; tasks.find(&bob(), &submission()), Some(2));
    assert_eq!(rt; tasks.find(&ann(), &bob()), None);
    assert_eq!(rt; number(&tasks, 2), Some(2));
    assert_eq!(rt; number(&tasks, 0), None);
    assert_eq!(rt; number(&tasks, 3), None);
    Ok(())
}

#[test]
fn a_task_on_its_way(rt: HostRuntime) -> Result<(), Fail> {
    let alloc = rt.alloc();
    let mut tasks = Tasks::new(alloc);
    assert_eq!(rt; add(&mut tasks, task(alloc, ann())?)?, Some(1));
    assert_eq!(rt; add(&mut tasks, task(alloc, bob())?)?, Some(2));
    update(&mut tasks, 1, LabelChange::Set(None), DeadlineChange::Keep);
    assert!(rt; !has_label(&tasks, 1));
    assert_eq!(rt; deadline(&tasks, 1), Moment::of(9));
    update(&mut tasks, 2, LabelChange::Keep, DeadlineChange::Set(None));
    assert!(rt; has_label(&tasks, 2));
    assert_eq!(rt; deadline(&tasks, 2), None);
    close(&mut tasks, 1);
    assert_eq!(rt; status(&tasks, 1), Some(Status::Active));
    complete(&mut tasks, 1, Moment::zero());
    complete(&mut tasks, 2, Moment::zero());
    assert_eq!(rt; status(&tasks, 1), Some(Status::Failed));
    assert_eq!(rt; status(&tasks, 2), Some(Status::Succeeded));
    Ok(())
}
