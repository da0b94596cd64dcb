ghost use Rattle.std.specs.Prelude.{◌≡◌, ◌+◌, ◌<◌, ◌^◌, None, length, map, IfOk};
ghost use Rattle.gt_subtasks.specs.Growth as spec;

use crate::item::{Item, ItemState};
use gt_paths::Path;
use gt_types::{Act, TransferEntry, Want};
use std::alloc::{AllocError, Global};
use std::marker::Model;

/// Items that are to be added. Contracts see the list of them.
#[derive(Debug, Drop)]
pub struct Growth {
    items: Vec<Item>,
}

impl Model for Growth {
    ghost use Rattle.std.specs.Prelude.{List};
    ghost use Rattle.gt_subtasks.specs.declared.item.Item.{Item};

    ghost Value = { List Item };

    ghost view = { λ g. g.items.items };
}

impl Growth {
    /// The items, in order.
    pub fn as_slice(&self) -> &[Item]
        ensures { result.now ≡ self.now }
    {
        self.items.as_slice()
    }

    /// How many items there are.
    pub fn len(&self) -> usize
        ensures { result ≡ length self.now }
    {
        self.items.len()
    }

    /// The items as a `Vec`.
    pub(crate) fn into_vec(self) -> Vec<Item>
        ensures { result.items ≡ self }
    {
        let Growth { items } = self;
        items
    }
}

/// The items that a transfer of these entries begins with: one for each entry, numbered from `first` on.
pub(crate) fn transfer_items(
    alloc: Global,
    task: u64,
    first: u64,
    entries: &[TransferEntry],
) -> Result<Growth, AllocError>
    requires { first + length entries.now < 2 ^ 64 }
    ensures { IfOk result (λ growth. growth
        ≡ spec.entry_items task first 0 (map spec.transfer_of entries.now)) }
{
    let mut items = Vec::with_capacity(alloc, entries.len())?;
    let mut place = 0;
    for entry in entries {
        let act = Act::Transfer {
            source: entry.source.clone()?,
            destination: entry.destination.clone()?,
            want: want_of(entry.recursive),
        };
        items.push(new_item(task, first + place, place, act))?;
        place += 1;
    }
    Ok(Growth { items })
}

/// The items that a deletion of these entries begins with: one for each entry, numbered from `first` on.
pub(crate) fn erase_items(
    alloc: Global,
    task: u64,
    first: u64,
    recursive: bool,
    entries: &[Path],
) -> Result<Growth, AllocError>
    requires { first + length entries.now < 2 ^ 64 }
    ensures { IfOk result (λ growth. growth
        ≡ spec.entry_items task first 0 (map (spec.erase_of recursive) entries.now)) }
{
    let mut items = Vec::with_capacity(alloc, entries.len())?;
    let mut place = 0;
    for entry in entries {
        let act = Act::Erase {
            path: entry.clone()?,
            want: if recursive { Want::Either } else { Want::File },
        };
        items.push(new_item(task, first + place, place, act))?;
        place += 1;
    }
    Ok(Growth { items })
}

// A new item of the entry at this place.
fn new_item(task: u64, number: u64, place: u64, act: Act) -> Item
    ensures { result ≡ spec.new_item number task None place act }
{
    Item {
        number,
        task,
        parent: None,
        entry: place,
        act,
        state: ItemState::Pending,
        faults: 0,
        checked: 0,
        tried: false,
        granted: None,
        ended: None,
    }
}

fn want_of(recursive: Option<bool>) -> Want
    ensures { result ≡ spec.want_of_recursive recursive }
{
    match recursive {
        Some(true) => Want::Folder,
        Some(false) => Want::File,
        None => Want::Either,
    }
}
