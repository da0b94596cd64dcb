ghost use Rattle.std.specs.Option.{option_copied};
ghost use Rattle.std.specs.Prelude.{◌≡◌, ◌≤◌, ◌<◌, ◌+◌, [], IsSome, OnOk, is_some};
ghost use Rattle.gt_pauses.specs.Paused.{is_paused, least_pause};
ghost use Rattle.gt_pauses.specs.Rule.{added_pause, ended_pause, live_pause, next_pause};

use crate::key::RuleKey;
use crate::live::LiveRows;
use crate::look_up::paused_on;
use crate::row::{PauseAct, PauseRow};
use gt_index::Keyed;
use gt_types::PauseSpec;
use gt_values::{Id, Table};
use std::alloc::{AllocError, Global};
use std::marker::Model;

// A place is a number of four bytes.
const MOST_ROWS: u64 = 0xffff_ffff;

/// The rows of all pause rules in order of making, ended ones too. Contracts see the rows, and the number of rows that can
/// be added without memory.
///
/// Rules are numbered from 1 in order of making.
#[derive(Debug, Drop)]
pub struct Pauses {
    rows: Table<PauseRow>,
    live: LiveRows,
    // The last event that made or ended a rule.
    changed: u64,
    room: u64,
}

impl Model for Pauses {
    ghost use Rattle.gt_values.specs.Rows.{Rows};
    ghost use Rattle.gt_pauses.specs.declared.row.PauseRow.{PauseRow};
    ghost use Rattle.gt_pauses.specs.Indexed.{IsFiledBy};

    ghost Value = { Rows PauseRow };

    ghost view = { λ p. record { rows = p.rows.rows; spare = p.room } };

    ghost invariant = { λ p. IsFiledBy ⟦<RuleKey as Ord>⟧.cmp ⟦<PauseRow as Keyed>⟧.key
        p.rows.rows p.rows.spare p.live p.changed p.room };
}

impl Pauses {
    /// No rule. Takes no memory.
    pub fn new(alloc: Global) -> Pauses
        ensures { result.rows ≡ [] }
    {
        Pauses {
            rows: Table::new(alloc),
            live: LiveRows::new(alloc),
            changed: 0,
            room: 0,
        }
    }

    /// Takes room for so many more rows.
    pub fn reserve(&mut self, more: u64) -> Result<(), AllocError>
        ensures rows { self.new.rows ≡ self.old.rows }
        ensures room { OnOk result (more ≤ self.new.spare) }
        ensures kept { self.old.spare ≤ self.new.spare }
    {
        if more > MOST_ROWS - self.rows.len() as u64 {
            return Err(AllocError);
        }
        self.rows.reserve(more)?;
        self.live.reserve(more)?;
        if more > self.room {
            self.room = more;
        }
        Ok(())
    }

    /// The rows, in order of making.
    pub fn rows(&self) -> &[PauseRow]
        ensures { result.now ≡ self.now.rows }
    {
        self.rows.as_slice()
    }

    /// Adds a rule that is made at the event `born`, and gives its number. Takes no memory.
    pub fn add(&mut self, spec: PauseSpec, born: u64) -> u64
        requires { 0 < self.old.spare }
        ensures number { result ≡ next_pause self.old.rows }
        ensures rows { self.new.rows ≡ added_pause born spec self.old.rows }
        ensures spare { self.new.spare + 1 ≡ self.old.spare }
    {
        let place = self.rows.len();
        let number = place as u64 + 1;
        if born > self.changed {
            self.changed = born;
        }
        self.rows.add(PauseRow {
            number,
            spec,
            born,
            ended: None,
        });
        self.live.add(self.rows.as_slice(), place as u32);
        self.room -= 1;
        number
    }

    /// Ends the live rule of this number at the event `at`.
    pub fn end(&mut self, number: u64, at: u64)
        requires { IsSome (live_pause number self.old.rows) }
        ensures rows { self.new.rows ≡ ended_pause at number self.old.rows }
        ensures spare { self.new.spare ≡ self.old.spare }
    {
        if at > self.changed {
            self.changed = at;
        }
        self.rows.row_mut(number).ended = Some(at);
        let place = (number - 1) as u32;
        self.live.end(self.rows.as_slice(), place);
    }

    /// The live rule of this number, if there is one.
    pub fn live(&self, number: u64) -> Option<&PauseRow>
        ensures { option_copied result ≡ live_pause number self.now.rows }
    {
        let row = self.rows.row(number)?;
        if row.ended.is_none() { Some(row) } else { None }
    }

    /// The least number of a rule that pauses this act of the identity on the collection at the event `seq`, if there is
    /// one. Takes no memory.
    ///
    /// A rule pauses it that is alive at the event, born before it and not ended by then, is for the collection, has the
    /// act's member set, and names this identity or none.
    pub fn paused_at(&self, seq: u64, identity: &Id, collection: u32, act: PauseAct) -> Option<u64>
        ensures least { result ≡ least_pause seq identity.now collection act self.now.rows }
        ensures paused { is_some result ≡ is_paused seq identity.now collection act self.now.rows }
    {
        let rows = self.rows.as_slice();
        if seq > self.changed {
            self.live.paused(rows, seq, identity, collection, act)
        } else {
            paused_on(rows, seq, identity, collection, act)
        }
    }
}
