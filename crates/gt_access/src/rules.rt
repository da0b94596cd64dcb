ghost use Rattle.std.specs.List.{list_any};
ghost use Rattle.std.specs.Option.{option_copied};
ghost use Rattle.std.specs.Prelude.{◌≡◌, ◌≤◌, ◌<◌, ◌+◌, ◌++◌, ◌∷◌, [], IfSome, None, IsSome, OnOk};
ghost use Rattle.gt_access.specs.Right.{right_of};
ghost use Rattle.gt_access.specs.Rule.{added_access, ended_access, greatest_number, is_same_rule, live_access, next_rule, replaced_access};

use crate::filed::FiledRows;
use crate::look_up::{live_at, live_place};
use crate::row::{AccessRow, Right};
use gt_paths::Path;
use gt_types::{AccessSpec, Who};
use gt_values::Id;
use std::alloc::{AllocError, Global};
use std::marker::Model;

/// The rows of all access rules in order of making, ended ones too. Contracts see the rows, and the number of rows that can
/// be added without memory.
///
/// Rules are numbered from 1 in order of making, and a rule that is replaced keeps its number.
#[derive(Debug, Drop)]
pub struct Rules {
    rows: FiledRows,
    // The place of the newest row of each number.
    newest: Vec<usize>,
}

impl Model for Rules {
    ghost use Rattle.std.specs.Prelude.{min, ◌-◌};
    ghost use Rattle.std.specs.Vec.{vec_capacity, vec_len};
    ghost use Rattle.gt_values.specs.Rows.{Rows};
    ghost use Rattle.gt_access.specs.declared.row.AccessRow.{AccessRow};
    ghost use Rattle.gt_access.specs.Indexed.{IsNumbered};

    ghost Value = { Rows AccessRow };

    ghost view = { λ r. record {
      rows = r.rows.rows;
      spare = min r.rows.spare (vec_capacity r.newest - vec_len r.newest);
    } };

    ghost invariant = { λ r. IsNumbered r.rows.rows r.newest.items };
}

impl Rules {
    /// No rule. Takes no memory.
    pub fn new(alloc: Global) -> Rules
        ensures { result.rows ≡ [] }
    {
        Rules {
            rows: FiledRows::new(alloc),
            newest: Vec::new(alloc),
        }
    }

    /// Takes room for so many more rows.
    pub fn reserve(&mut self, more: u64) -> Result<(), AllocError>
        ensures rows { self.new.rows ≡ self.old.rows }
        ensures room { OnOk result (more ≤ self.new.spare) }
        ensures kept { self.old.spare ≤ self.new.spare }
    {
        self.rows.reserve(more)?;
        self.newest.reserve(more as usize)
    }

    /// The rows, in order of making.
    pub fn rows(&self) -> &[AccessRow]
        ensures { result.now ≡ self.now.rows }
    {
        self.rows.as_slice()
    }

    /// The number that the next rule gets.
    pub fn next_number(&self) -> u64
        ensures { result ≡ next_rule self.now.rows }
    {
        self.newest.len() as u64 + 1
    }

    /// Adds a rule that is made at the event `born`, and gives its number. Takes no memory.
    pub fn add(&mut self, collection: u32, spec: AccessSpec, born: u64) -> u64
        requires { 0 < self.old.spare }
        ensures number { result ≡ next_rule self.old.rows }
        ensures rows { self.new.rows ≡ added_access born collection spec self.old.rows }
        ensures spare { self.new.spare + 1 ≡ self.old.spare }
    {
        self.newest.push_reserved(self.rows.len());
        let number = self.newest.len() as u64;
        self.rows.add(AccessRow {
            number,
            collection,
            spec,
            born,
            ended: None,
        });
        number
    }

    /// Ends the live row of the rule at the event `at`, and adds one of the same number and collection that says `next`.
    /// Takes no memory.
    pub fn replace(&mut self, number: u64, next: AccessSpec, at: u64)
        requires live { IsSome (live_access number self.old.rows) }
        requires room { 0 < self.old.spare }
        ensures rows { IfSome (live_access number self.old.rows)
            (λ row. self.new.rows ≡ replaced_access at next row self.old.rows) }
        ensures spare { self.old.spare ≤ self.new.spare + 1 }
    {
        let rows = self.rows.as_slice();
        let collection = rows[live_at(rows, &self.newest, number)].collection;
        self.end(number, at);
        self.add_again(AccessRow {
            number,
            collection,
            spec: next,
            born: at,
            ended: None,
        });
    }

    // Adds a row of a rule that has rows, none of which is live.
    fn add_again(&mut self, row: AccessRow)
        requires live { row.ended ≡ None }
        requires ended { live_access row.number self.old.rows ≡ None }
        requires from_one { 1 ≤ row.number }
        requires given { row.number ≤ greatest_number self.old.rows }
        requires room { 0 < self.old.spare }
        ensures rows { self.new.rows ≡ self.old.rows ++ row ∷ [] }
        ensures spare { self.old.spare ≤ self.new.spare + 1 }
    {
        self.newest[row.number as usize - 1] = self.rows.len();
        self.rows.add(row);
    }

    /// Ends the live row of the rule at the event `at`.
    pub fn end(&mut self, number: u64, at: u64)
        requires { IsSome (live_access number self.old.rows) }
        ensures rows { self.new.rows ≡ ended_access at number self.old.rows }
        ensures spare { self.new.spare ≡ self.old.spare }
    {
        let place = live_at(self.rows.as_slice(), &self.newest, number);
        self.rows.end(place, at);
    }

    /// The live row of the rule, if it has one.
    pub fn live(&self, number: u64) -> Option<&AccessRow>
        ensures { option_copied result ≡ live_access number self.now.rows }
    {
        match live_place(self.rows.as_slice(), &self.newest, number) {
            Some(place) => Some(&self.rows.as_slice()[place]),
            None => None,
        }
    }

    /// Whether a live row is of this collection and has the principal and the path of `spec`. What it permits is not compared.
    pub fn same(&self, collection: u32, spec: &AccessSpec) -> bool
        ensures { result ≡ list_any (is_same_rule collection spec.now) self.now.rows }
    {
        self.rows.has_same(collection, spec)
    }

    /// What the caller may do with the path at the event `seq`.
    ///
    /// The owner of the collection may write. For another caller the rules count that are alive at the event, born before it
    /// and not ended by then, whose principal matches the caller and whose path the asked path is under. Of these only those
    /// with the longest path decide, and of those the greatest permission is the right.
    pub fn right_at(&self, seq: u64, who: &Who, collection: u32, owner: &Id, path: &Path) -> Right
        ensures { result ≡ right_of seq who.now collection owner.now path.now self.now.rows }
    {
        if *owner == who.identity {
            return Right::Write;
        }
        self.rows.right_at(seq, who, collection, path)
    }
}
