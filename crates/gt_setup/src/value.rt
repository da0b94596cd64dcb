//! What the value of each key stands for.

ghost use Rattle.gt_setup.specs.Value as spec;
ghost use Rattle.gt_setup.specs.Indexed.{Takes, place_at};
ghost use Rattle.std.specs.BTreeMap.{keys};
ghost use Rattle.std.specs.Char.{is_ascii_uppercase};
ghost use Rattle.std.specs.List.{list_any};
ghost use Rattle.std.specs.Option.{option_and_then, option_copied};
ghost use Rattle.std.specs.Prelude.{◌≡◌, ◌++◌, ◌≤◌, IfOk, IfSome, length, option_map};
ghost use Rattle.toml.specs.Data.{as_array, as_str};
ghost use Rattle.toml.specs.View.{items_view, view};

use gt_paths::{Path, PathFault};
use gt_values::{Digest, Id, Sequence, Text};
use hex::FromHex;
use std::alloc::{AllocError, Global};
use std::collections::BTreeMap;
use toml::Value;

/// A whole number of 32 bits.
pub(crate) fn namespace_in(value: Option<&Value>) -> Option<u32>
    ensures { result
        ≡ option_and_then spec.namespace_in (option_map (λ v. view v.now) value.entry) }
{
    let number = value?.as_integer()?;
    if 0 <= number && number <= 4_294_967_295 {
        Some(number as u32)
    } else {
        None
    }
}

/// The text of a UUID.
pub(crate) fn id_in(value: Option<&Value>) -> Option<Id>
    ensures { result ≡ option_and_then spec.id_in (option_map (λ v. view v.now) value.entry) }
{
    Id::read(value?.as_str()?)
}

/// A text of 1 to 255 bytes.
pub(crate) fn name_in(alloc: Global, value: Option<&Value>) -> Result<Option<Text>, AllocError>
    ensures { IfOk result
        (λ name. name ≡ option_and_then spec.name_in (option_map (λ v. view v.now) value.entry)) }
{
    let Some(text) = text_in(value) else {
        return Ok(None);
    };
    if text.is_empty() || text.len() > 255 {
        return Ok(None);
    }
    Ok(Some(Text::copy_of(alloc, text)?))
}

/// The text of a path, read with the root as home.
pub(crate) fn home_in(alloc: Global, value: Option<&Value>) -> Result<Option<Path>, AllocError>
    ensures { IfOk result
        (λ home. home ≡ option_and_then spec.home_in (option_map (λ v. view v.now) value.entry)) }
{
    let Some(text) = text_in(value) else {
        return Ok(None);
    };
    match Path::read(alloc, text, &Path::root(alloc)) {
        Ok(path) => Ok(Some(path)),
        Err(PathFault::OutOfMemory) => Err(AllocError),
        Err(_) => Ok(None),
    }
}

// The text that a value is.
fn text_in(value: Option<&Value>) -> Option<&str>
    ensures { option_copied result
        ≡ option_and_then as_str (option_map (λ v. view v.now) value.entry) }
{
    value?.as_str()
}

// The array that a value is.
fn array_in(value: Option<&Value>) -> Option<&[Value]>
    ensures { option_map (λ items. items_view items.now) result
        ≡ option_and_then as_array (option_map (λ v. view v.now) value.entry) }
{
    Some(value?.as_array()?.as_slice())
}

/// An array of texts of UUIDs.
pub(crate) fn groups_in(
    alloc: Global,
    value: Option<&Value>,
) -> Result<Option<Sequence<Id>>, AllocError>
    ensures { IfOk result
        (λ groups. groups
        ≡ option_and_then spec.groups_in (option_map (λ v. view v.now) value.entry)) }
{
    match array_in(value) {
        Some(items) => ids_in(alloc, items),
        None => Ok(None),
    }
}

// The identifiers, if each item is one.
fn ids_in(alloc: Global, items: &[Value]) -> Result<Option<Sequence<Id>>, AllocError>
    ensures { IfOk result (λ ids. ids ≡ spec.ids_in (items_view items.now)) }
{
    let mut ids = Vec::new(alloc);
    for at in 0..items.len() {
        let Some(id) = id_in(Some(&items[at])) else {
            return Ok(None);
        };
        ids.push(id)?;
    }
    Ok(Some(Sequence::from_vec(ids)))
}

/// An array of digests, none of which has been taken; they are taken then, for the identity of this row.
pub(crate) fn tokens_in(
    alloc: Global,
    value: Option<&Value>,
    row: usize,
    taken: &mut BTreeMap<Digest, usize>,
) -> Result<Option<Sequence<Digest>>, AllocError>
    ensures value { IfOk result
        (λ tokens. tokens
        ≡ option_and_then (spec.tokens_in (keys taken.old))
        (option_map (λ v. view v.now) value.entry)) }
    ensures taken { IfOk result
        (λ tokens. IfSome tokens (λ digests. Takes row digests taken.old taken.new)) }
{
    match array_in(value) {
        Some(items) => digests_in(alloc, items, row, taken),
        None => Ok(None),
    }
}

// The digests, if each item is one and has not been taken.
fn digests_in(
    alloc: Global,
    items: &[Value],
    row: usize,
    taken: &mut BTreeMap<Digest, usize>,
) -> Result<Option<Sequence<Digest>>, AllocError>
    ensures value { IfOk result
        (λ tokens. tokens ≡ spec.digests_in (keys taken.old) (items_view items.now)) }
    ensures taken { IfOk result
        (λ tokens. IfSome tokens (λ digests. Takes row digests taken.old taken.new)) }
{
    let mut digests = Vec::new(alloc);
    for at in 0..items.len() {
        let Some(digest) = new_digest_in(&items[at], taken) else {
            return Ok(None);
        };
        taken.insert(digest, row)?;
        digests.push(digest)?;
    }
    Ok(Some(Sequence::from_vec(digests)))
}

// A digest that has not been taken.
fn new_digest_in(value: &Value, taken: &BTreeMap<Digest, usize>) -> Option<Digest>
    ensures value { result ≡ spec.new_digest_in (keys taken.now) (view value.now) }
    ensures absent { IfSome result (λ digest. place_at taken.now digest ≡ None) }
{
    match digest_in(value) {
        Some(digest) => if taken.contains_key(&digest) {
            None
        } else {
            Some(digest)
        },
        None => None,
    }
}

// A text of 64 hexadecimal digits, in lower case.
fn digest_in(value: &Value) -> Option<Digest>
    ensures { result ≡ spec.digest_in (view value.now) }
{
    match value.as_str() {
        Some(text) => digest_of(text),
        None => None,
    }
}

// The digest that 64 hexadecimal digits in lower case write.
fn digest_of(text: &str) -> Option<Digest>
    ensures { result ≡ spec.digest_of text.now }
{
    if has_capitals(text.as_bytes()) {
        return None;
    }
    match <[u8; 32] as FromHex>::from_hex(text) {
        Ok(bytes) => Some(Digest::from_bytes(bytes)),
        Err(_) => None,
    }
}

// Whether a letter from A to Z is there.
fn has_capitals(text: &[u8]) -> bool
    ensures { result ≡ list_any is_ascii_uppercase text.now }
{
    text.iter().any(|byte| byte.is_ascii_uppercase())
}

/// The rows of an array of 1 to 1,048,576 tables. A file has no more bytes than that.
#[tactic(auto, using(crate::proofs::TableLemmas::count_view))]
pub(crate) fn rows_in(value: Option<&Value>) -> Option<&[Value]>
    ensures value { option_map (λ rows. items_view rows.now) result
        ≡ option_and_then spec.rows_in (option_map (λ v. view v.now) value.entry) }
    ensures few { IfSome result (λ rows. length rows.now ≤ 1048576) }
{
    let items = array_in(value)?;
    if items.is_empty() || items.len() > 1_048_576 || !are_tables(items) {
        return None;
    }
    Some(items)
}

// Whether each value is a table.
fn are_tables(items: &[Value]) -> bool
    ensures { result ≡ spec.are_tables (items_view items.now) }
{
    for at in 0..items.len() {
        if items[at].as_table().is_none() {
            return false;
        }
    }
    true
}
