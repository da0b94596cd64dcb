//! The value of a key, which has to be there and to stand for something.

ghost use Rattle.gt_setup.specs.Grammar.{judged, required};
ghost use Rattle.gt_setup.specs.Value as spec;
ghost use Rattle.gt_values.specs.Results.{FaultsAs};
ghost use Rattle.std.specs.Prelude.{◌≡◌, ◌⊎◌, ◌≤◌, IfErr, IfOk, length, option_map};
ghost use Rattle.toml.specs.Data.{get_member};
ghost use Rattle.toml.specs.View.{items_view, table_view, view};

use crate::fault::SetupFault;
use crate::value::rows_in;
use std::alloc::Global;
use toml::{Table, Value};

/// The value at a key of a table.
pub(crate) fn member<'a>(table: &'a Table, key: &str) -> Option<&'a Value>
    ensures { option_map (λ v. view v.now) result ≡ get_member key.now (table_view table.now) }
{
    table.get(key)
}

/// What the value of a key stands for. `key` is the key as a fault tells it: `Missing` without a value, `BadValue` where the
/// value stands for nothing.
pub(crate) fn required<T: Drop>(
    alloc: Global,
    key: &str,
    row: u32,
    value: Option<&Value>,
    meant: Option<T>,
) -> Result<T, SetupFault>
    ensures ok { IfOk result
        (λ x. judged key.now row (option_map (λ v. view v.now) value.entry) meant ≡ Ok x) }
    ensures fault { FaultsAs SetupFault.OutOfMemory
        (judged key.now row (option_map (λ v. view v.now) value.entry) meant) result }
{
    if value.is_none() {
        return Err(SetupFault::missing(alloc, key, row));
    }
    match meant {
        Some(meaning) => Ok(meaning),
        None => Err(SetupFault::bad_value(alloc, key, row)),
    }
}

/// The rows of an array of the file's table.
#[tactic(auto, using(crate::proofs::TableLemmas::judged_view))]
pub(crate) fn rows_of<'a>(
    alloc: Global,
    table: &'a Table,
    key: &str,
) -> Result<&'a [Value], SetupFault>
    ensures ok { IfOk result
        (λ rows. required key.now 0 spec.rows_in (get_member key.now (table_view table.now))
        ≡ Ok (items_view rows.now)) }
    ensures few { IfOk result (λ rows. length rows.now ≤ 1048576) }
    ensures fault { FaultsAs SetupFault.OutOfMemory
        (required key.now 0 spec.rows_in (get_member key.now (table_view table.now))) result }
{
    let value = member(table, key);
    required(alloc, key, 0, value, rows_in(value))
}
