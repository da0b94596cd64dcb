ghost use Rattle.gt_documents.specs.Lists.{is_count, items_at, items_from, listed};
ghost use Rattle.gt_documents.specs.Members.{member_of};
ghost use Rattle.gt_documents.specs.Place.{Place};
ghost use Rattle.gt_documents.specs.Reading.{ReadsAs, ReadsWith};
ghost use Rattle.serde_json.specs.Data.{Data};
ghost use Rattle.serde_json.specs.View.{items_view, view};
ghost use Rattle.std.specs.List.{list_all};
ghost use Rattle.std.specs.Prelude.{◌≡◌, ◌≤◌, ◌&&◌, Bool, IfOk, Result, length, nat_le, option_map, true};

use crate::fault::DocumentFault;
use crate::members::member;
use crate::place::Place;
use serde_json::Value;
use std::alloc::Global;

/// What the items of a list are read as. The reader holds what all of them need, as the homes of collections.
pub trait ReadItem {
    type Item: Drop;

    /// What a value is read as, or its bad place. A place begins at the item.
    ghost reading: { Self → Data → Result Self.Item Place };

    /// The limits that each item that was read keeps to.
    ghost is_good: { Self → Self.Item → Bool };

    /// Reads an item.
    fn read(&self, alloc: Global, value: &Value) -> Result<Self::Item, DocumentFault>
        ensures value { ReadsAs (reading self.now (view value.now)) result }
        ensures good { IfOk result (λ item. is_good self.now item ≡ true) };
}

/// The items of the list that a member is, from so many to so many. An absent list has none. The member is bad where it is
/// no list or of another length; otherwise the first bad item is told.
#[tactic(auto, unfolding(crate::specs::Lists::items_at), using(crate::proofs::CountLemmas::count_view))]
pub fn items<R: ReadItem>(
    alloc: Global,
    object: &Value,
    list: &'static str,
    least: usize,
    most: usize,
    reader: &R,
) -> Result<Vec<R::Item>, DocumentFault>
    ensures value { ReadsWith (λ v. v.items)
        (items_at (R.reading reader.now) least most (view object.now) list.now) result }
    ensures count { IfOk result
        (λ v. (nat_le least (length v.items) && nat_le (length v.items) most) ≡ true) }
    ensures good { IfOk result (λ v. list_all (R.is_good reader.now) v.items ≡ true) }
{
    match list_in(object, list) {
        Some(values) if least <= values.len() && values.len() <= most => {
            each_item(alloc, values, list, reader)
        }
        _ => Err(DocumentFault::Bad(Place::member(list))),
    }
}

/// The values of the list that a member is. An absent list has none.
pub fn list_in<'a>(object: &'a Value, name: &str) -> Option<&'a [Value]>
    ensures { option_map (λ values. items_view values.now) result
        ≡ listed (member_of (view object.now) name.now) }
{
    match member(object, name) {
        Some(value) => Some(value.as_array()?.as_slice()),
        None => Some(&[]),
    }
}

// The items that the values are.
fn each_item<R: ReadItem>(
    alloc: Global,
    values: &[Value],
    list: &'static str,
    reader: &R,
) -> Result<Vec<R::Item>, DocumentFault>
    ensures value { ReadsWith (λ v. v.items)
        (items_from (R.reading reader.now) list.now 0 (items_view values.now)) result }
    ensures count { IfOk result (λ v. length v.items ≡ length values.now) }
    ensures good { IfOk result (λ v. list_all (R.is_good reader.now) v.items ≡ true) }
{
    let mut items = Vec::new(alloc);
    for at in 0..values.len() {
        match reader.read(alloc, &values[at]) {
            Ok(item) => items.push(item)?,
            Err(DocumentFault::Bad(place)) => {
                return Err(DocumentFault::Bad(place.in_item(list, at as u64)));
            }
            Err(DocumentFault::OutOfMemory) => return Err(DocumentFault::OutOfMemory),
        }
    }
    Ok(items)
}
