ghost use Rattle.std.specs.List.{list_any};
ghost use Rattle.std.specs.Prelude.{◌≡◌, ◌≤◌, ◌<◌, ◌+◌, [], ◌∷◌, ◌++◌, None, OnOk, filter, length};
ghost use Rattle.gt_access.specs.Right.{applies as row_applies, deepest, greatest_right};
ghost use Rattle.gt_access.specs.Rule.{is_same_rule};
ghost use Rattle.gt_access.specs.Filed.{with_end};

use crate::key::RuleKey;
use crate::look_up::right_on;
use crate::row::{AccessRow, Right};
use crate::search::{live_run, right_now};
use gt_index::{Index, Keyed};
use gt_paths::Path;
use gt_types::{AccessSpec, Who};
use std::alloc::{AllocError, Global};
use std::marker::Model;

// A place is a number of four bytes.
const MOST_ROWS: u64 = 0xffff_ffff;

/// Rows in order of making, of which the live ones are found by collection, path and principal. Contracts see the rows, and
/// the number of rows that can be added without memory.
#[derive(Debug, Drop)]
pub(crate) struct FiledRows {
    rows: Vec<AccessRow>,
    live: Index,
    // The last event that made or ended a row.
    changed: u64,
    room: u64,
}

impl Model for FiledRows {
    ghost use Rattle.std.specs.Vec.{vec_capacity, vec_len};
    ghost use Rattle.gt_values.specs.Rows.{Rows};
    ghost use Rattle.gt_access.specs.declared.row.AccessRow.{AccessRow};
    ghost use Rattle.gt_access.specs.Filed.{IsFiledBy};

    ghost Value = { Rows AccessRow };

    ghost view = { λ r. record { rows = r.rows.items; spare = r.room } };

    ghost invariant = { λ r. IsFiledBy ⟦<RuleKey as Ord>⟧.cmp ⟦<AccessRow as Keyed>⟧.key
        r.rows.items (vec_capacity r.rows) r.live r.changed r.room };
}

impl FiledRows {
    /// No row. Takes no memory.
    pub(crate) fn new(alloc: Global) -> FiledRows
        ensures { result.rows ≡ [] }
    {
        FiledRows {
            rows: Vec::new(alloc),
            live: Index::new(alloc),
            changed: 0,
            room: 0,
        }
    }

    /// Takes room for so many more rows.
    pub(crate) fn reserve(&mut self, more: u64) -> Result<(), AllocError>
        ensures rows { self.new.rows ≡ self.old.rows }
        ensures room { OnOk result (more ≤ self.new.spare) }
        ensures kept { self.old.spare ≤ self.new.spare }
    {
        if more > MOST_ROWS - self.rows.len() as u64 {
            return Err(AllocError);
        }
        self.rows.reserve(more as usize)?;
        self.live.reserve(more)?;
        if more > self.room {
            self.room = more;
        }
        Ok(())
    }

    /// The rows, in order of making.
    pub(crate) fn as_slice(&self) -> &[AccessRow]
        ensures { result.now ≡ self.now.rows }
    {
        self.rows.as_slice()
    }

    /// How many rows there are.
    pub(crate) fn len(&self) -> usize
        ensures { result ≡ length self.now.rows }
    {
        self.rows.len()
    }

    /// Adds a live row. Takes no memory.
    pub(crate) fn add(&mut self, row: AccessRow)
        requires live { row.ended ≡ None }
        requires room { 0 < self.old.spare }
        ensures rows { self.new.rows ≡ self.old.rows ++ row ∷ [] }
        ensures spare { self.new.spare + 1 ≡ self.old.spare }
    {
        let place = self.rows.len();
        if row.born > self.changed {
            self.changed = row.born;
        }
        self.rows.push_reserved(row);
        self.live.insert(&self.rows, place as u32);
        self.room -= 1;
    }

    /// Ends the row at the place at the event `at`.
    pub(crate) fn end(&mut self, place: usize, at: u64)
        requires { place < length self.old.rows }
        ensures rows { self.new.rows ≡ with_end at place self.old.rows }
        ensures spare { self.new.spare ≡ self.old.spare }
    {
        if at > self.changed {
            self.changed = at;
        }
        self.rows[place].ended = Some(at);
        self.live.remove(&self.rows, place as u32);
    }

    /// Whether a live row is of this collection and has the principal and the path of `spec`.
    pub(crate) fn has_same(&self, collection: u32, spec: &AccessSpec) -> bool
        ensures { result ≡ list_any (is_same_rule collection spec.now) self.now.rows }
    {
        let names = spec.path.as_slice();
        !live_run(&self.rows, &self.live, collection, names, spec.principal).is_empty()
    }

    /// What the rows let the caller do with the path at the event `seq`. For an event before the last change all are walked.
    pub(crate) fn right_at(&self, seq: u64, who: &Who, collection: u32, path: &Path) -> Right
        ensures { result ≡ greatest_right
            (deepest (filter (row_applies seq who.now collection path.now) self.now.rows)) }
    {
        if seq > self.changed {
            right_now(&self.rows, &self.live, seq, who, collection, path)
        } else {
            right_on(&self.rows, seq, who, collection, path)
        }
    }
}
