ghost use Rattle.std.specs.Prelude.{◌≡◌, ◌≤◌, ◌<◌, ◌+◌, [], OnOk, false, find, option_map, slice_get, ℕ};
ghost use Rattle.gt_index.specs.Index.{IsFiled, IsIndex, passes_at, places_where};
ghost use Rattle.gt_pauses.specs.Indexed.{IsNumberedFrom, NoneAfter, index_of, is_live_with, is_row_for, lesser};
ghost use Rattle.gt_pauses.specs.Paused as spec;
ghost use Rattle.gt_pauses.specs.declared.row.PauseAct.{PauseAct as Act};

use crate::key::{Named, RuleKey};
use crate::look_up::has_act;
use crate::row::{PauseAct, PauseRow};
use gt_index::{Asked, Index, Keyed};
use gt_values::Id;
use std::alloc::{AllocError, Global};

/// The live rows that pause an act, for each act by collection and identity.
#[derive(Debug, Drop)]
pub(crate) struct LiveRows {
    transfer_read: Index,
    transfer_write: Index,
    delete: Index,
    ls: Index,
    mkdir: Index,
}

impl LiveRows {
    /// No row. Takes no memory.
    pub(crate) fn new(alloc: Global) -> LiveRows
        ensures { (act : Act) → (index_of act result).places ≡ [] }
    {
        LiveRows {
            transfer_read: Index::new(alloc),
            transfer_write: Index::new(alloc),
            delete: Index::new(alloc),
            ls: Index::new(alloc),
            mkdir: Index::new(alloc),
        }
    }

    /// Takes room for so many more rows.
    pub(crate) fn reserve(&mut self, more: u64) -> Result<(), AllocError>
        ensures places { (act : Act) →
            (index_of act self.new).places ≡ (index_of act self.old).places }
        ensures room { OnOk result ((act : Act) → more ≤ (index_of act self.new).spare) }
        ensures kept { (act : Act) → (index_of act self.old).spare ≤ (index_of act self.new).spare }
    {
        self.transfer_read.reserve(more)?;
        self.transfer_write.reserve(more)?;
        self.delete.reserve(more)?;
        self.ls.reserve(more)?;
        self.mkdir.reserve(more)
    }

    /// Files the row at the place, which has come. Takes no memory.
    pub(crate) fn add(&mut self, rows: &[PauseRow], place: u32)
        requires { (act : Act) → 0 < (index_of act self.old).spare }
        ensures index { (act : Act) → IsFiled ⟦<RuleKey as Ord>⟧.cmp ⟦<PauseRow as Keyed>⟧.key
            (passes_at (is_live_with act) rows.now place) place rows.now
            (index_of act self.old).places (index_of act self.new).places }
        ensures spare { (act : Act) →
            (index_of act self.old).spare ≤ (index_of act self.new).spare + 1 }
    {
        file(&mut self.transfer_read, rows, place, PauseAct::TransferRead);
        file(
            &mut self.transfer_write,
            rows,
            place,
            PauseAct::TransferWrite,
        );
        file(&mut self.delete, rows, place, PauseAct::Delete);
        file(&mut self.ls, rows, place, PauseAct::Ls);
        file(&mut self.mkdir, rows, place, PauseAct::Mkdir);
    }

    /// Drops the row at the place, which has ended.
    pub(crate) fn end(&mut self, rows: &[PauseRow], place: u32)
        ensures index { (act : Act) → IsFiled ⟦<RuleKey as Ord>⟧.cmp ⟦<PauseRow as Keyed>⟧.key
            false place rows.now (index_of act self.old).places (index_of act self.new).places }
        ensures spare { (act : Act) →
            (index_of act self.old).spare ≤ (index_of act self.new).spare }
    {
        self.transfer_read.remove(rows, place);
        self.transfer_write.remove(rows, place);
        self.delete.remove(rows, place);
        self.ls.remove(rows, place);
        self.mkdir.remove(rows, place);
    }

    /// The number of the first row that pauses this act of the identity on the collection, at an event that comes after all
    /// that made or ended a rule.
    pub(crate) fn paused(
        &self,
        rows: &[PauseRow],
        seq: u64,
        identity: &Id,
        collection: u32,
        act: PauseAct,
    ) -> Option<u64>
        requires numbers { IsNumberedFrom 1 rows.now }
        requires index { IsIndex ⟦<RuleKey as Ord>⟧.cmp ⟦<PauseRow as Keyed>⟧.key
            (is_live_with act) rows.now (index_of act self.now).places }
        requires coming { (last : ℕ) × NoneAfter last rows.now × (last < seq) }
        ensures { result ≡ option_map (λ row. row.number)
            (find (spec.pauses seq identity.now collection act) rows.now) }
    {
        let live = self.of(act);
        let own = first_of(live, rows, collection, Some(*identity), act);
        let all = first_of(live, rows, collection, None, act);
        number_at(earlier(own, all))
    }

    // The index of the rows for the act.
    fn of(&self, act: PauseAct) -> &Index
        ensures { result.now ≡ index_of act self.now }
    {
        match act {
            PauseAct::TransferRead => &self.transfer_read,
            PauseAct::TransferWrite => &self.transfer_write,
            PauseAct::Delete => &self.delete,
            PauseAct::Ls => &self.ls,
            PauseAct::Mkdir => &self.mkdir,
        }
    }
}

// Files the row at the place in the index for the act.
fn file(index: &mut Index, rows: &[PauseRow], place: u32, act: PauseAct)
    requires { 0 < index.old.spare }
    ensures index { IsFiled ⟦<RuleKey as Ord>⟧.cmp ⟦<PauseRow as Keyed>⟧.key
        (passes_at (is_live_with act) rows.now place) place rows.now
        index.old.places index.new.places }
    ensures spare { index.old.spare ≤ index.new.spare + 1 }
{
    let kept = rows
        .get(place as usize)
        .is_some_and(|row| row.ended.is_none() && has_act(&row.spec, act));
    if kept {
        index.insert(rows, place);
    } else {
        index.remove(rows, place);
    }
}

// The place of the first live row for the act on the collection that names just this identity,
// or none.
fn first_of(
    live: &Index,
    rows: &[PauseRow],
    collection: u32,
    identity: Option<Id>,
    act: PauseAct,
) -> Option<u32>
    requires { IsIndex ⟦<RuleKey as Ord>⟧.cmp ⟦<PauseRow as Keyed>⟧.key
        (is_live_with act) rows.now live.now.places }
    ensures { result ≡ slice_get (places_where (is_row_for act collection identity) rows.now) 0 }
{
    let asked = Named {
        collection,
        identity,
    };
    let place = live.first_from(rows, &asked)?;
    let row = rows.get(place as usize)?;
    if asked.standing(row).is_eq() {
        Some(place)
    } else {
        None
    }
}

// The lesser of the two, of those that there are.
fn earlier(a: Option<u32>, b: Option<u32>) -> Option<u32>
    ensures { result ≡ lesser a b }
{
    match (a, b) {
        (Some(a), Some(b)) => Some(a.min(b)),
        (Some(a), None) => Some(a),
        (None, b) => b,
    }
}

// The number of the row at the place.
fn number_at(place: Option<u32>) -> Option<u64>
    ensures { result ≡ option_map (λ place. place + 1) place }
{
    place.map(|place| place as u64 + 1)
}
