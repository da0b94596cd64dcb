use gt_paths::Path;
use gt_subtasks::{Growth, How, Item, ItemState, Items};
use gt_types::{
    Act, Code, Counters, DeleteSpec, Evidence, Kept, Spec, TransferEntry, TransferSpec, Want,
};
use gt_values::{Digest, Sequence};
use std::alloc::{AllocError, Global};
use std::test::Fail;

// The counters in the order of their fields, of an erasure with 5 bytes checked and 3 faults, by its state.
const STATES: [(ItemState, [u64; 15]); 14] = [
    (
        ItemState::Pending,
        [1, 1, 0, 0, 0, 0, 0, 0, 0, 0, 0, 0, 0, 5, 3],
    ),
    (
        ItemState::Running {
            worker: 1,
            grant: 8,
        },
        [1, 1, 0, 0, 0, 0, 0, 0, 0, 0, 0, 0, 0, 5, 3],
    ),
    (
        ItemState::Retrying,
        [1, 0, 1, 0, 0, 0, 0, 0, 0, 0, 0, 0, 0, 5, 3],
    ),
    (
        ItemState::Succeeded(How::Present(2)),
        [1, 0, 0, 1, 0, 0, 0, 0, 1, 0, 1, 0, 0, 5, 3],
    ),
    (
        ItemState::Succeeded(How::Expanded),
        [1, 0, 0, 1, 0, 0, 0, 0, 0, 1, 0, 0, 0, 5, 3],
    ),
    (
        ItemState::Succeeded(How::Listed),
        [1, 0, 0, 1, 0, 0, 0, 0, 0, 0, 0, 0, 0, 5, 3],
    ),
    (
        ItemState::Succeeded(How::Removed),
        [1, 0, 0, 1, 0, 0, 0, 0, 1, 0, 0, 0, 0, 5, 3],
    ),
    (
        ItemState::Succeeded(How::Gone),
        [1, 0, 0, 1, 0, 0, 0, 0, 0, 0, 0, 0, 0, 5, 3],
    ),
    (
        ItemState::Failed(Code::TreeFault),
        [1, 0, 0, 0, 0, 0, 1, 0, 0, 0, 0, 0, 0, 5, 3],
    ),
    (
        ItemState::Skipped(Code::FileNotFound),
        [1, 0, 0, 0, 0, 0, 0, 1, 0, 0, 0, 0, 0, 5, 3],
    ),
    (
        ItemState::Canceled,
        [1, 0, 0, 0, 0, 1, 0, 0, 0, 0, 0, 0, 0, 5, 3],
    ),
    (
        ItemState::Expired,
        [1, 0, 0, 0, 1, 0, 0, 0, 0, 0, 0, 0, 0, 5, 3],
    ),
    (
        ItemState::Retrying,
        [1, 0, 1, 0, 0, 0, 0, 0, 0, 0, 0, 0, 0, 5, 3],
    ),
    (
        ItemState::Pending,
        [1, 1, 0, 0, 0, 0, 0, 0, 0, 0, 0, 0, 0, 5, 3],
    ),
];

const RECURSIVE: [Option<bool>; 3] = [Some(true), Some(false), None];

fn numbers(counters: Counters) -> [u64; 15] {
    [
        counters.total,
        counters.pending,
        counters.retrying,
        counters.succeeded,
        counters.expired,
        counters.canceled,
        counters.failed,
        counters.skipped_errors,
        counters.files,
        counters.directories,
        counters.files_skipped,
        counters.files_transferred,
        counters.bytes_transferred,
        counters.bytes_checksummed,
        counters.faults,
    ]
}

// A deletion of so many paths.
fn deletion(alloc: Global, recursive: bool, count: usize) -> Result<Spec, AllocError> {
    let mut entries = Vec::new(alloc);
    for _ in 0..count {
        entries.push(Path::root(alloc))?;
    }
    Ok(Spec::Delete(DeleteSpec {
        collection: 0,
        label: None,
        deadline: None,
        recursive,
        ignore_missing: false,
        kept: Kept::none(),
        entries: Sequence::from_vec(entries),
    }))
}

// A transfer of three paths, which ask for a folder, a file and either.
fn transfer(alloc: Global) -> Result<Spec, AllocError> {
    let mut entries = Vec::new(alloc);
    for recursive in RECURSIVE {
        entries.push(TransferEntry {
            source: Path::root(alloc),
            destination: Path::root(alloc),
            recursive,
        })?;
    }
    Ok(Spec::Transfer(TransferSpec {
        source: 0,
        destination: 1,
        label: None,
        deadline: None,
        level: None,
        verify: false,
        preserve: false,
        extra: false,
        skip_source: false,
        kept: Kept::none(),
        rules: Sequence::new(alloc),
        entries: Sequence::from_vec(entries),
    }))
}

fn add(items: &mut Items, growth: Growth) -> Result<(), AllocError> {
    items.reserve(growth.len() as u64)?;
    items.add(growth);
    Ok(())
}

// Two items of task 1, two of task 2 and two of task 1, all made before any is added.
fn interleaved(alloc: Global) -> Result<Items, AllocError> {
    let mut items = Items::new(alloc);
    let two = deletion(alloc, false, 2)?;
    let a = items.first_items(alloc, 1, &two)?;
    let b = items.first_items(alloc, 2, &two)?;
    let c = items.first_items(alloc, 1, &two)?;
    add(&mut items, a)?;
    add(&mut items, b)?;
    add(&mut items, c)?;
    Ok(items)
}

// So many items of task 1.
fn items_of(alloc: Global, count: usize) -> Result<Items, AllocError> {
    let mut items = Items::new(alloc);
    let growth = items.first_items(alloc, 1, &deletion(alloc, false, count)?)?;
    add(&mut items, growth)?;
    Ok(items)
}

fn set(items: &mut Items, item: u64, state: ItemState, faults: u8, checked: u64, at: u64) {
    if items.item(item).is_some() {
        items.set(item, state, faults, checked, at);
    }
}

fn copied(size: u64) -> ItemState {
    ItemState::Succeeded(How::Copied(Evidence {
        size,
        source: Digest::from_bytes([0; 32]),
        back: None,
    }))
}

// The kind of act of the item: 1 takes a file, 2 a folder, 3 either; an erasure is 10 more.
fn kind(items: &Items, item: u64) -> Option<u64> {
    items.item(item).map(|item| kind_of(&item.act))
}

fn kind_of(act: &Act) -> u64 {
    match act {
        Act::Transfer { want, .. } => want_number(*want),
        Act::Erase { want, .. } => erasure_number(*want),
        Act::RemoveFolder { .. } => 0,
    }
}

fn want_number(want: Want) -> u64 {
    match want {
        Want::File => 1,
        Want::Folder => 2,
        Want::Either => 3,
    }
}

fn erasure_number(want: Want) -> u64 {
    match want {
        Want::File => 11,
        Want::Folder => 12,
        Want::Either => 13,
    }
}

// What the item keeps of its way: its last grant, its end, and whether it was tried again.
fn way(items: &Items, item: u64) -> Option<(Option<u64>, Option<u64>, bool)> {
    items
        .item(item)
        .map(|item| (item.granted, item.ended, item.tried))
}

// The sums of the first task: bytes transferred, bytes checked, faults.
fn sums(items: &Items) -> [u64; 3] {
    let counters = items.counters(1);
    [
        counters.bytes_transferred,
        counters.bytes_checksummed,
        counters.faults,
    ]
}

// The first row of the table whose state isn't counted as it says.
fn first_wrong(items: &mut Items) -> Option<usize> {
    for (row, (state, want)) in STATES.iter().enumerate() {
        set(items, 1, *state, 3, 5, 9);
        if numbers(items.counters(1)) != *want {
            return Some(row);
        }
    }
    None
}

fn removed_folder(alloc: Global) -> Item {
    Item {
        number: 1,
        task: 1,
        parent: None,
        entry: 0,
        act: Act::RemoveFolder {
            path: Path::root(alloc),
        },
        state: ItemState::Succeeded(How::Removed),
        faults: 0,
        checked: 0,
        tried: false,
        granted: None,
        ended: None,
    }
}

#[test]
fn counters_by_state(rt: HostRuntime) -> Result<(), Fail> {
    let alloc = rt.alloc();
    let mut items = items_of(alloc, 1)?;
    assert_eq!(rt; numbers(items.counters(2)), [0; 15]);
    assert_eq!(rt; first_wrong(&mut items), None);
    set(&mut items, 1, copied(7), 3, 5, 9);
    assert_eq!(rt;
        numbers(items.counters(1)),
        [1, 0, 0, 1, 0, 0, 0, 0, 1, 0, 0, 1, 7, 5, 3]
    );
    let folder = removed_folder(alloc);
    assert!(rt; folder.is_directory() && !folder.is_file());
    Ok(())
}

#[test]
fn sum_past_its_limit_comes_back(rt: HostRuntime) -> Result<(), Fail> {
    let mut items = items_of(rt.alloc(), 2)?;
    set(&mut items, 1, copied(u64::MAX), 200, u64::MAX, 1);
    set(&mut items, 2, copied(5), 100, 7, 2);
    assert_eq!(rt; sums(&items), [u64::MAX, u64::MAX, 300]);
    set(&mut items, 1, copied(10), 1, 2, 3);
    assert_eq!(rt; sums(&items), [15, 9, 101]);
    Ok(())
}

#[test]
fn items_of_two_tasks(rt: HostRuntime) -> Result<(), Fail> {
    let mut items = interleaved(rt.alloc())?;
    assert_eq!(rt; items.places_of(1), [0, 1, 4, 5].as_slice());
    assert_eq!(rt; items.places_of(2), [2, 3].as_slice());
    assert_eq!(rt;
        items.item(6).map(|item| (item.number, item.entry)),
        Some((6, 1))
    );
    assert_eq!(rt; items.item(7).map(|item| item.number), None);
    set(&mut items, 3, ItemState::Canceled, 0, 0, 1);
    set(&mut items, 5, ItemState::Expired, 0, 0, 2);
    assert_eq!(rt;
        numbers(items.counters(1)),
        [4, 3, 0, 0, 1, 0, 0, 0, 0, 0, 0, 0, 0, 0, 0]
    );
    assert_eq!(rt;
        numbers(items.counters(2)),
        [2, 1, 0, 0, 0, 1, 0, 0, 0, 0, 0, 0, 0, 0, 0]
    );
    Ok(())
}

#[test]
fn acts_by_their_entries(rt: HostRuntime) -> Result<(), Fail> {
    let alloc = rt.alloc();
    let mut items = Items::new(alloc);
    let growth = items.first_items(alloc, 1, &transfer(alloc)?)?;
    add(&mut items, growth)?;
    let growth = items.first_items(alloc, 2, &deletion(alloc, false, 1)?)?;
    add(&mut items, growth)?;
    let growth = items.first_items(alloc, 3, &deletion(alloc, true, 1)?)?;
    add(&mut items, growth)?;
    assert_eq!(rt; kind(&items, 1), Some(2));
    assert_eq!(rt; kind(&items, 2), Some(1));
    assert_eq!(rt; kind(&items, 3), Some(3));
    assert_eq!(rt; kind(&items, 4), Some(11));
    assert_eq!(rt; kind(&items, 5), Some(13));
    Ok(())
}

#[test]
fn an_item_on_its_way(rt: HostRuntime) -> Result<(), Fail> {
    let mut items = items_of(rt.alloc(), 1)?;
    assert_eq!(rt; way(&items, 1), Some((None, None, false)));
    set(
        &mut items,
        1,
        ItemState::Running {
            worker: 2,
            grant: 11,
        },
        0,
        0,
        11,
    );
    assert_eq!(rt; way(&items, 1), Some((Some(11), None, false)));
    set(&mut items, 1, ItemState::Retrying, 1, 0, 12);
    assert_eq!(rt; way(&items, 1), Some((Some(11), None, true)));
    set(
        &mut items,
        1,
        ItemState::Running {
            worker: 3,
            grant: 13,
        },
        1,
        0,
        13,
    );
    set(&mut items, 1, ItemState::Failed(Code::TreeFault), 2, 0, 14);
    assert_eq!(rt; way(&items, 1), Some((Some(13), Some(14), true)));
    Ok(())
}
