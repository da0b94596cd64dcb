ghost use Rattle.std.specs.Option.{option_copied};
ghost use Rattle.std.specs.HashMap.{get, spare};
ghost use Rattle.std.specs.Prelude.{◌≡◌, ◌≤◌, ◌<◌, ◌+◌, ◌++◌, ◌∷◌, ◌^◌, [], IfOk, IsSome, OnOk, Some, cond, length, map, nat_eq, slice_get, ℕ};
ghost use Rattle.std.specs.List.{filter_map};
ghost use Rattle.gt_index.specs.Index.{places_where};
ghost use Rattle.gt_values.specs.Rows.{changed_at, row_at};
ghost use Rattle.gt_subtasks.specs.Counters.{counters_of};
ghost use Rattle.gt_subtasks.specs.Growth.{first_items, numbered};
ghost use Rattle.gt_subtasks.specs.Item.{is_of_task, items_of};
ghost use Rattle.gt_subtasks.specs.Kept.{IsWithin};
ghost use Rattle.gt_subtasks.specs.Setting.{set_item};
ghost use Rattle.gt_subtasks.specs.Tally.{tally_of};
ghost use Rattle.gt_types.specs.declared.spec.Spec.TheVariants.{Delete as OfDelete, Transfer as OfTransfer};

use crate::growth::{Growth, erase_items, transfer_items};
use crate::item::{Item, ItemState};
use crate::key::OfTask;
use crate::tally::Tally;
use gt_index::Index;
use gt_types::{Counters, DeleteSpec, Spec, TransferSpec};
use gt_values::Table;
use std::alloc::{AllocError, Global};
use std::collections::HashMap;
use std::marker::Model;

// A place is a number of four bytes.
const MOST_ROWS: u64 = 0xffff_ffff;

/// The items of all tasks in order of making. Contracts see the rows, and the number of rows that can be added without
/// memory.
///
/// Items are numbered from 1 in order of making, and a row is never removed.
#[derive(Debug, Drop)]
pub struct Items {
    rows: Table<Item>,
    by_task: Index,
    // The running numbers of each task that has items.
    tallies: HashMap<u64, Tally>,
    room: u64,
}

impl Model for Items {
    ghost use Rattle.gt_values.specs.Rows.{Rows};
    ghost use Rattle.gt_subtasks.specs.Kept.{IsKept};
    ghost use Rattle.gt_subtasks.specs.declared.item.Item.{Item};

    ghost Value = { Rows Item };

    ghost view = { λ t. record { rows = t.rows.rows; spare = t.room } };

    ghost invariant = { λ t. IsKept t.rows.rows t.rows.spare t.by_task t.tallies t.room };
}

impl Items {
    /// No item. Takes no memory.
    pub fn new(alloc: Global) -> Items
        ensures { result.rows ≡ [] }
    {
        Items {
            rows: Table::new(alloc),
            by_task: Index::new(alloc),
            tallies: HashMap::new(alloc),
            room: 0,
        }
    }

    /// Takes room for so many more items.
    pub fn reserve(&mut self, more: u64) -> Result<(), AllocError>
        ensures rows { self.new.rows ≡ self.old.rows }
        ensures room { OnOk result (more ≤ self.new.spare) }
        ensures kept { self.old.spare ≤ self.new.spare }
    {
        if more > MOST_ROWS - self.rows.len() as u64 {
            return Err(AllocError);
        }
        self.rows.reserve(more)?;
        self.by_task.reserve(more)?;
        self.tallies.reserve(more as usize)?;
        if more > self.room {
            self.room = more;
        }
        Ok(())
    }

    /// The rows, in order of making.
    pub fn rows(&self) -> &[Item]
        ensures { result.now ≡ self.now.rows }
    {
        self.rows.as_slice()
    }

    /// The row of the item, if there is one.
    pub fn item(&self, item: u64) -> Option<&Item>
        ensures { option_copied result ≡ row_at self.now.rows item }
    {
        self.rows.row(item)
    }

    /// The task's items, in order. Passes over no others.
    #[tactic(auto, using(crate::proofs::PlaceLemmas::rows_where))]
    pub fn of_task(&self, alloc: Global, task: u64) -> Result<Vec<&Item>, AllocError>
        ensures { IfOk result (λ items. map (λ item. item.now) items.items
            ≡ items_of task self.now.rows) }
    {
        rows_at(alloc, self.rows.as_slice(), self.places_of(task))
    }

    /// The places in `rows`, counted from 0, of the task's items, in order.
    pub fn places_of(&self, task: u64) -> &[u32]
        ensures { result.now ≡ places_where (is_of_task task) self.now.rows }
    {
        self.by_task.run(self.rows.as_slice(), &OfTask(task))
    }

    /// The counters of the task: how its items are counted, and what they came to. A task without items has zeros.
    pub fn counters(&self, task: u64) -> Counters
        ensures { result ≡ counters_of task self.now.rows }
    {
        self.tally(task).counters()
    }

    // The running numbers of the task.
    fn tally(&self, task: u64) -> Tally
        ensures exact { result ≡ tally_of task self.now.rows }
        ensures within { IsWithin (2 ^ 32) (2 ^ 96) result }
    {
        match self.tallies.get(&task) {
            Some(tally) => *tally,
            None => Tally::none(),
        }
    }

    /// The items that a task of this number begins with: one for each entry of its document, in order, numbered as if they
    /// were added now.
    ///
    /// An entry of a transfer gives a transfer of a folder, of a file or of either, by its `recursive`. An entry of a
    /// deletion gives an erasure, of a file alone unless the deletion is `recursive`.
    pub fn first_items(&self, alloc: Global, task: u64, spec: &Spec) -> Result<Growth, AllocError>
        ensures { IfOk result (λ growth. growth
            ≡ first_items task (length self.now.rows + 1) spec.now) }
    {
        match spec {
            Spec::Transfer(spec) => self.first_of_transfer(alloc, task, spec),
            Spec::Delete(spec) => self.first_of_deletion(alloc, task, spec),
        }
    }

    /// The same for a transfer.
    pub fn first_of_transfer(
        &self,
        alloc: Global,
        task: u64,
        spec: &TransferSpec,
    ) -> Result<Growth, AllocError>
        ensures { IfOk result (λ growth. growth
            ≡ first_items task (length self.now.rows + 1) (OfTransfer spec.now)) }
    {
        let first = self.rows.len() as u64 + 1;
        transfer_items(alloc, task, first, spec.entries.as_slice())
    }

    /// The same for a deletion.
    pub fn first_of_deletion(
        &self,
        alloc: Global,
        task: u64,
        spec: &DeleteSpec,
    ) -> Result<Growth, AllocError>
        ensures { IfOk result (λ growth. growth
            ≡ first_items task (length self.now.rows + 1) (OfDelete spec.now)) }
    {
        let first = self.rows.len() as u64 + 1;
        erase_items(alloc, task, first, spec.recursive, spec.entries.as_slice())
    }

    /// Adds the items at the end, in order, under the next numbers, whatever their fields hold. Takes no memory.
    pub fn add(&mut self, growth: Growth)
        requires { length growth ≤ self.old.spare }
        ensures rows { self.new.rows
            ≡ self.old.rows ++ numbered (length self.old.rows + 1) growth }
        ensures spare { self.new.spare + length growth ≡ self.old.spare }
    {
        for item in growth.into_vec() {
            self.add_item(item);
        }
    }

    // Adds the item at the end, under the next number.
    fn add_item(&mut self, item: Item)
        requires { 0 < self.old.spare }
        ensures rows { self.new.rows
            ≡ self.old.rows ++ numbered (length self.old.rows + 1) (item ∷ []) }
        ensures spare { self.new.spare + 1 ≡ self.old.spare }
    {
        let mut item = item;
        let place = self.rows.len();
        let task = item.task;
        item.number = place as u64 + 1;
        let tally = self.tally(task).with(Tally::of(&item));
        let counted = self.tallies.insert(task, tally).is_ok();
        prove!(counted);
        self.rows.add(item);
        self.by_task.insert(self.rows.as_slice(), place as u32);
        self.room -= 1;
    }

    /// Puts the item in this state by the event `at`. `faults` and `checked` are its new totals.
    ///
    /// The grant of a running item is kept when it ends; that it was tried again is kept too.
    pub fn set(&mut self, item: u64, state: ItemState, faults: u8, checked: u64, at: u64)
        requires { IsSome (row_at self.old.rows item) }
        ensures rows { self.new.rows
            ≡ changed_at item (set_item state faults checked at) self.old.rows }
        ensures spare { self.new.spare ≡ self.old.spare }
    {
        let Some(row) = self.rows.row(item) else {
            return;
        };
        let task = row.task;
        let others = self.tally(task).without(Tally::of(row));
        let row = self.rows.row_mut(item);
        row.set(state, faults, checked, at);
        let tally = others.with(Tally::of(row));
        put_tally(&mut self.tallies, task, tally);
    }
}

// The rows at these places.
fn rows_at<'a>(alloc: Global, rows: &'a [Item], places: &[u32]) -> Result<Vec<&'a Item>, AllocError>
    ensures { IfOk result (λ found. map (λ item. item.now) found.items
        ≡ filter_map (slice_get rows.now) places.now) }
{
    let mut found = Vec::new(alloc);
    for place in places {
        if let Some(row) = row_in(rows, *place) {
            found.push(row)?;
        }
    }
    Ok(found)
}

// The row at the place.
fn row_in<'a>(rows: &'a [Item], place: u32) -> Option<&'a Item>
    ensures { option_copied result ≡ slice_get rows.now place }
{
    rows.get(place as usize)
}

// Writes the running numbers of a task that has items.
fn put_tally(tallies: &mut HashMap<u64, Tally>, task: u64, tally: Tally)
    requires { IsSome (get nat_eq tallies.old task) }
    ensures numbers { (other : ℕ) → get nat_eq tallies.new other
        ≡ cond (nat_eq task other) (Some tally) (get nat_eq tallies.old other) }
    ensures spare { spare tallies.new ≡ spare tallies.old }
{
    if let Some(kept) = tallies.get_mut(&task) {
        *kept = tally;
    }
}
