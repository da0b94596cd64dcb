//! The readers of one member each. Where its value is bad, the place is the member.
ghost use Rattle.gt_documents.specs.Members as spec;
ghost use Rattle.gt_documents.specs.Members.{absent_at, constant_at, default_at, flag_at, given_at, id_at, member_of, moment_if, number_if, path_at, switch_at, text_if, unset_at, word_at};
ghost use Rattle.gt_documents.specs.Reading.{ReadsAs};
ghost use Rattle.gt_documents.specs.Values.{fits};
ghost use Rattle.gt_paths.specs.Path.{is_path};
ghost use Rattle.gt_values.specs.Forms.{if_there, is_id};
ghost use Rattle.serde_json.specs.View.{view};
ghost use Rattle.std.specs.Prelude.{◌≡◌, ◌&&◌, IfOk, option_copied, option_map, true};
ghost use Rattle.std.specs.Str.{is_utf8};

use crate::fault::DocumentFault;
use crate::place::Place;
use crate::values::{TextLimit, id_in, moment_in, number_in, path_in, text_in};
use gt_paths::Path;
use gt_values::{Id, Moment, Text};
use serde_json::Value;
use std::alloc::Global;

/// What stands at a name of an object: nothing, `Some(None)` for null, or a value. For documents in which null says
/// something else than an absent member.
#[tactic(auto, unfolding(crate::specs::Members::given_at))]
pub fn given<'a>(object: &'a Value, name: &str) -> Option<Option<&'a Value>>
    ensures { option_map (λ given. option_map (λ value. view value.now) given) result
        ≡ given_at (view object.now) name.now }
{
    let value = object.get(name)?;
    if value.is_null() {
        Some(None)
    } else {
        Some(Some(value))
    }
}

/// The member of an object, if it is there and isn't null.
#[tactic(auto, unfolding(crate::specs::Members::member_of))]
pub fn member<'a>(object: &'a Value, name: &str) -> Option<&'a Value>
    ensures { option_map (λ value. view value.now) result ≡ member_of (view object.now) name.now }
{
    match object.get(name) {
        Some(value) if !value.is_null() => Some(value),
        _ => None,
    }
}

/// The text that a member is. A table of words names the member where this is none of them.
#[tactic(auto, unfolding(crate::specs::Members::word_at))]
pub fn word<'a>(object: &'a Value, name: &str) -> Option<&'a str>
    ensures { option_copied result ≡ word_at (view object.now) name.now }
{
    match member(object, name) {
        Some(value) => value.as_str(),
        None => None,
    }
}

/// Tests that a member is this text.
#[tactic(auto, unfolding(crate::specs::Members::constant_at))]
pub fn constant(object: &Value, name: &'static str, text: &str) -> Result<(), Place>
    ensures { result ≡ constant_at text.now (view object.now) name.now }
{
    match word(object, name) {
        Some(found) if found == text => Ok(()),
        _ => Err(Place::member(name)),
    }
}

/// Tests that a member is this text or absent.
#[tactic(auto, unfolding(crate::specs::Members::default_at))]
pub fn constant_if_there(object: &Value, name: &'static str, text: &str) -> Result<(), Place>
    ensures { result ≡ default_at text.now (view object.now) name.now }
{
    match member(object, name) {
        Some(_) => constant(object, name, text),
        None => Ok(()),
    }
}

/// Tests that a member is absent.
#[tactic(auto, unfolding(crate::specs::Members::absent_at))]
pub fn absent(object: &Value, name: &'static str) -> Result<(), Place>
    ensures { result ≡ absent_at (view object.now) name.now }
{
    match member(object, name) {
        Some(_) => Err(Place::member(name)),
        None => Ok(()),
    }
}

/// The identifier that a member is.
#[tactic(auto, unfolding(crate::specs::Members::id_at))]
pub fn id(object: &Value, name: &'static str) -> Result<Id, Place>
    ensures value { result ≡ id_at (view object.now) name.now }
    ensures fits { IfOk result (λ id. is_id id ≡ true) }
{
    let Some(value) = member(object, name) else {
        return Err(Place::member(name));
    };
    match id_in(value) {
        Some(id) => Ok(id),
        None => Err(Place::member(name)),
    }
}

/// The identifier that a member is, if it is there.
#[tactic(auto, unfolding(crate::specs::Members::id_if))]
pub fn id_if_there(object: &Value, name: &'static str) -> Result<Option<Id>, Place>
    ensures value { result ≡ spec.id_if (view object.now) name.now }
    ensures fits { IfOk result (λ id. if_there is_id id ≡ true) }
{
    let Some(value) = member(object, name) else {
        return Ok(None);
    };
    match id_in(value) {
        Some(id) => Ok(Some(id)),
        None => Err(Place::member(name)),
    }
}

/// The boolean that a member is, if it is there.
#[tactic(auto, unfolding(crate::specs::Members::flag_at))]
pub fn flag(object: &Value, name: &'static str) -> Result<Option<bool>, Place>
    ensures { result ≡ flag_at (view object.now) name.now }
{
    let Some(value) = member(object, name) else {
        return Ok(None);
    };
    match value.as_bool() {
        Some(flag) => Ok(Some(flag)),
        None => Err(Place::member(name)),
    }
}

/// The boolean that a member is, or the usual one where it is absent.
pub fn switch(object: &Value, name: &'static str, usual: bool) -> Result<bool, Place>
    ensures { result ≡ switch_at usual (view object.now) name.now }
{
    match flag(object, name) {
        Ok(flag) => Ok(flag.unwrap_or(usual)),
        Err(place) => Err(place),
    }
}

/// The boolean that a member is, if it is there, where true is bad: a switch without effect.
pub fn unset(object: &Value, name: &'static str) -> Result<Option<bool>, Place>
    ensures { result ≡ unset_at (view object.now) name.now }
{
    match flag(object, name) {
        Ok(Some(true)) => Err(Place::member(name)),
        read => read,
    }
}

/// The text that a member is, if it is there, within its limit.
#[tactic(auto, unfolding(crate::specs::Members::text_if))]
pub fn text_if_there(
    alloc: Global,
    object: &Value,
    name: &'static str,
    limit: TextLimit,
) -> Result<Option<Text>, DocumentFault>
    ensures value { ReadsAs (text_if limit (view object.now) name.now) result }
    ensures fits { IfOk result (λ text. if_there (λ t. is_utf8 t && fits limit t) text ≡ true) }
{
    let Some(value) = member(object, name) else {
        return Ok(None);
    };
    match text_in(alloc, value, limit)? {
        Some(text) => Ok(Some(text)),
        None => Err(DocumentFault::Bad(Place::member(name))),
    }
}

/// The whole number that a member is, if it is there, in its range. `1.0`, `1e0` and `-0` are bad.
#[tactic(auto, unfolding(crate::specs::Members::number_if))]
pub fn number_if_there(
    object: &Value,
    name: &'static str,
    least: u64,
    most: u64,
) -> Result<Option<u64>, Place>
    ensures { result ≡ number_if least most (view object.now) name.now }
{
    let Some(value) = member(object, name) else {
        return Ok(None);
    };
    match number_in(value, least, most) {
        Some(number) => Ok(Some(number)),
        None => Err(Place::member(name)),
    }
}

/// The moment that a member's text stands for, if it is there.
#[tactic(auto, unfolding(crate::specs::Members::moment_if))]
pub fn moment_if_there(object: &Value, name: &'static str) -> Result<Option<Moment>, Place>
    ensures { result ≡ moment_if (view object.now) name.now }
{
    let Some(value) = member(object, name) else {
        return Ok(None);
    };
    match moment_in(value) {
        Some(moment) => Ok(Some(moment)),
        None => Err(Place::member(name)),
    }
}

/// The path that a member's text stands for, where `~` is the home folder.
#[tactic(auto, unfolding(crate::specs::Members::path_at))]
pub fn path(
    alloc: Global,
    object: &Value,
    name: &'static str,
    home: &Path,
) -> Result<Path, DocumentFault>
    ensures value { ReadsAs (path_at home.now (view object.now) name.now) result }
    ensures fits { IfOk result (λ path. is_path path ≡ true) }
{
    let Some(value) = member(object, name) else {
        return Err(DocumentFault::Bad(Place::member(name)));
    };
    match path_in(alloc, value, home)? {
        Some(path) => Ok(path),
        None => Err(DocumentFault::Bad(Place::member(name))),
    }
}
