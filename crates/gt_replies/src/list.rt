//! Lists: their rows, and the page that was asked of them.
#![tactic(auto, unfolding(crate::specs::Members::with_members))]

ghost use Rattle.gt_replies.specs.Documents.{page_document, skipped_document, success_document};
ghost use Rattle.gt_replies.specs.Members.{array_of};
ghost use Rattle.gt_setup.specs.Setup as spec;
ghost use Rattle.serde_json.specs.Data.{Data};
ghost use Rattle.serde_json.specs.View.{view};
ghost use Rattle.std.specs.List.{list_all};
ghost use Rattle.std.specs.Prelude.{◌≡◌, Bool, IfOk, IsTrue, codes, length, true, ℕ};

use crate::code::item_code;
use crate::member::path_value;
use gt_setup::Setup;
use gt_types::{Page, PathPair, SkippedDocument};
use gt_values::Sequence;
use serde_json::{Value, json};
use std::alloc::{AllocError, Global};

/// A row of a list.
pub(crate) trait Row {
    /// What is written of it.
    ghost document: { spec.Setup → Self → Data };

    /// Whether it can be printed, where the collections are so many.
    ghost printable: { ℕ → Self → Bool };

    fn value(&self, alloc: Global, setup: &Setup) -> Result<Value, AllocError>
        requires { IsTrue (printable (length setup.now.collections) self.now) }
        ensures { IfOk result (λ value. view value ≡ document setup.now self.now) };
}

/// The array of the rows.
pub(crate) fn rows_value<T: Row>(
    alloc: Global,
    setup: &Setup,
    rows: &[T],
) -> Result<Value, AllocError>
    requires { IsTrue (list_all (T.printable (length setup.now.collections)) rows.now) }
    ensures { IfOk result (λ value. view value ≡ array_of (T.document setup.now) rows.now) }
{
    let mut values = Vec::new(alloc);
    for row in rows {
        values.push(row.value(alloc, setup)?)?;
    }
    Ok(Value::Array(values))
}

/// A list of this type, with its page.
pub(crate) fn list<T: Row>(
    alloc: Global,
    setup: &Setup,
    kind: &str,
    rows: &[T],
    page: Page,
) -> Result<Value, AllocError>
    requires { IsTrue (list_all (T.printable (length setup.now.collections)) rows.now) }
    ensures { IfOk result (λ value. view value
        ≡ page_document kind.now (array_of (T.document setup.now) rows.now) page) }
{
    let rows = rows_value(alloc, setup, rows)?;
    json!(in alloc; {
        "DATA": rows,
        "DATA_TYPE": kind,
        "limit": page.limit,
        "offset": page.offset,
        "total": page.total
    })
}

impl Row for PathPair {
    ghost document = { λ _. success_document };

    ghost printable = { λ _ _. true };

    fn value(&self, alloc: Global, _setup: &Setup) -> Result<Value, AllocError> {
        let destination = path_value(alloc, &self.destination)?;
        let source = path_value(alloc, &self.source)?;
        json!(in alloc; {
            "DATA_TYPE": "successful_transfer",
            "destination_path": destination,
            "source_path": source
        })
    }
}

impl Row for SkippedDocument {
    ghost document = { λ _. skipped_document };

    ghost printable = { λ _ _. true };

    fn value(&self, alloc: Global, _setup: &Setup) -> Result<Value, AllocError> {
        let destination = path_value(alloc, &self.destination)?;
        let source = path_value(alloc, &self.source)?;
        json!(in alloc; {
            "DATA_TYPE": "skipped_error",
            "destination_path": destination,
            "error_code": item_code(self.code),
            "source_path": source
        })
    }
}

/// The paths of the files that were copied.
pub(crate) fn successes(
    alloc: Global,
    setup: &Setup,
    rows: &Sequence<PathPair>,
    page: Page,
) -> Result<Value, AllocError>
    ensures { IfOk result (λ value. view value
        ≡ page_document (codes "successful_transfers") (array_of success_document rows.now) page) }
{
    list(alloc, setup, "successful_transfers", rows.as_slice(), page)
}

/// The items that were skipped.
pub(crate) fn skipped(
    alloc: Global,
    setup: &Setup,
    rows: &Sequence<SkippedDocument>,
    page: Page,
) -> Result<Value, AllocError>
    ensures { IfOk result (λ value. view value
        ≡ page_document (codes "skipped_errors") (array_of skipped_document rows.now) page) }
{
    list(alloc, setup, "skipped_errors", rows.as_slice(), page)
}
