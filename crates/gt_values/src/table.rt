ghost use Rattle.gt_values.specs.Rows.{row_at};
ghost use Rattle.std.specs.Borrow.{sem};
ghost use Rattle.std.specs.Option.{option_copied};
ghost use Rattle.std.specs.Prelude.{◌≡◌, ◌≤◌, ◌<◌, ◌+◌, [], ◌∷◌, ◌++◌, length, IsSome, OnOk, Some};

use std::alloc::{AllocError, Global};
use std::marker::Model;

/// Rows in order of making, with room for more that is taken before it is needed. Contracts see the rows and the number of
/// rows that can be added without memory.
///
/// Rows are numbered from 1: the row of number `n` stands at the place `n - 1`, for good, since no row is ever removed.
#[derive(Debug, Drop)]
pub struct Table<T> {
    items: Vec<T>,
}

impl<T> Model for Table<T> {
    ghost use Rattle.gt_values.specs.Rows.{Rows, rows_code};
    ghost use Rattle.std.specs.Prelude.{◌-◌};
    ghost use Rattle.std.specs.Vec.{vec_capacity, vec_len};

    ghost Value = { Rows T };

    ghost coded = { rows_code T.code };

    ghost view = { λ t. record {
      rows = t.items.items;
      spare = vec_capacity t.items - vec_len t.items;
    } };
}

impl<T> Table<T> {
    ghost use Rattle.gt_values.specs.Lends.{LendsRow};

    /// A table with no row. Takes no memory.
    pub fn new(alloc: Global) -> Table<T>
        ensures { result.rows ≡ [] }
    {
        Table {
            items: Vec::new(alloc),
        }
    }

    /// The rows, in order of making.
    pub fn as_slice(&self) -> &[T]
        ensures { result.now ≡ self.now.rows }
    {
        self.items.as_slice()
    }

    /// How many rows there are, which is the number of the newest.
    pub fn len(&self) -> usize
        ensures { result ≡ length self.now.rows }
    {
        self.items.len()
    }

    /// Takes room for so many more rows.
    pub fn reserve(&mut self, more: u64) -> Result<(), AllocError>
        ensures rows { self.new.rows ≡ self.old.rows }
        ensures room { OnOk result (more ≤ self.new.spare) }
        ensures kept { self.old.spare ≤ self.new.spare }
    {
        self.items.reserve(more as usize)
    }

    /// The row of this number, if there is one.
    pub fn row(&self, number: u64) -> Option<&T>
        ensures { option_copied result ≡ row_at self.now.rows number }
    {
        if number == 0 {
            return None;
        }
        self.items.get(number as usize - 1)
    }

    /// The row of this number, to be changed where it stands. Takes no memory.
    pub fn row_mut(&mut self, number: u64) -> &mut T
        requires { IsSome (row_at self.old.rows number) }
        ensures* writes_back { sem 𝓛 (LendsRow T.row self.entry number result) }
        ensures row { row_at self.old.rows number ≡ Some result.now }
    {
        &mut self.items[number as usize - 1]
    }
}

impl<T: Drop> Table<T> {
    /// Adds a row at the end. Takes no memory.
    pub fn add(&mut self, row: T)
        requires { 0 < self.old.spare }
        ensures rows { self.new.rows ≡ self.old.rows ++ row ∷ [] }
        ensures spare { self.new.spare + 1 ≡ self.old.spare }
    {
        self.items.push_reserved(row);
    }

    /// Adds rows at the end, in their order. Takes no memory.
    pub fn append(&mut self, rows: Vec<T>)
        requires { length rows.items ≤ self.old.spare }
        ensures rows { self.new.rows ≡ self.old.rows ++ rows.items }
        ensures spare { self.old.spare ≤ self.new.spare + length rows.items }
    {
        let mut rows = rows;
        let appended = self.items.append(&mut rows).is_ok();
        prove!(appended);
    }
}
