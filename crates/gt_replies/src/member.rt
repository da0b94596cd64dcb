ghost use Rattle.gt_replies.specs.Members.{folder_text, id_value, made_value, moment_value, or_null, path_value, whole};
ghost use Rattle.gt_types.specs.Reply.{is_number};
ghost use Rattle.serde_json.specs.Data.{boolean, put, string};
ghost use Rattle.serde_json.specs.View.{members_view, view};
ghost use Rattle.serde_json.specs.Written.{compact_text, has_float};
ghost use Rattle.std.specs.Prelude.{◌≡◌, IfOk, IsTrue, OnOk, false, string_bytes};

use gt_paths::Path;
use gt_setup::Setup;
use gt_values::{Id, Moment, Text};
use serde_json::{Map, Value};
use std::alloc::{AllocError, Global};

/// What the numbers are counted of: the kinds of identifiers that a desk makes.
pub(crate) const SUBMISSION: u8 = 1;

pub(crate) const TASK: u8 = 2;

pub(crate) const ACCESS_RULE: u8 = 3;

/// The printed identifier.
pub(crate) fn id_value(alloc: Global, id: &Id) -> Result<Value, AllocError>
    ensures { IfOk result (λ value. view value ≡ id_value id.now) }
{
    Ok(Value::String(id.print(alloc)?))
}

/// The printed identifier of the thing of this kind and number.
pub(crate) fn made_value(
    alloc: Global,
    setup: &Setup,
    kind: u8,
    number: u64,
) -> Result<Value, AllocError>
    requires { IsTrue (is_number number) }
    ensures { IfOk result (λ value. view value ≡ made_value setup.now.namespace kind number) }
{
    id_value(alloc, &Id::made(setup.namespace(), kind, number))
}

/// The printed moment.
pub(crate) fn moment_value(alloc: Global, moment: Moment) -> Result<Value, AllocError>
    ensures { IfOk result (λ value. view value ≡ moment_value moment) }
{
    Ok(Value::String(moment.print(alloc)?))
}

/// The printed moment, or `null`.
pub(crate) fn moment_or_null(alloc: Global, moment: Option<Moment>) -> Result<Value, AllocError>
    ensures { IfOk result (λ value. view value ≡ or_null moment_value moment) }
{
    match moment {
        Some(moment) => moment_value(alloc, moment),
        None => Ok(Value::Null),
    }
}

/// The text, or `null`.
pub(crate) fn text_or_null(alloc: Global, text: &Option<Text>) -> Result<Value, AllocError>
    ensures { IfOk result (λ value. view value ≡ or_null string text.now) }
{
    match text {
        Some(text) => Value::try_from_str(alloc, text.as_str()),
        None => Ok(Value::Null),
    }
}

/// The printed path.
pub(crate) fn path_value(alloc: Global, path: &Path) -> Result<Value, AllocError>
    ensures { IfOk result (λ value. view value ≡ path_value path.now) }
{
    Ok(Value::String(path.print(alloc)?))
}

/// The printed path with a slash behind it, and for the root a lone one.
pub(crate) fn folder_text(alloc: Global, path: &Path) -> Result<String, AllocError>
    ensures { IfOk result (λ text. string_bytes text ≡ folder_text path.now) }
{
    let mut text = path.print(alloc)?;
    if path.names() > 0 {
        text.push('/')?;
    }
    Ok(text)
}

/// The compact text of a value.
pub(crate) fn text_of(alloc: Global, value: &Value) -> Result<Vec<u8>, AllocError>
    requires { has_float (view value.now) ≡ false }
    ensures { IfOk result (λ text. text.items ≡ compact_text (view value.now)) }
{
    value.to_vec(alloc)
}

pub(crate) type Members = Map<String, Value>;

/// A member put at its place in the order of names.
pub(crate) fn put_value(
    members: &mut Members,
    alloc: Global,
    name: &str,
    value: Value,
) -> Result<(), AllocError>
    ensures { OnOk result (members_view members.new.entries
        ≡ put name.now (view value) (members_view members.old.entries)) }
{
    serde_json::put(members, alloc, name, value)
}

/// A member that is a whole number.
pub(crate) fn put_number(
    members: &mut Members,
    alloc: Global,
    name: &str,
    number: u64,
) -> Result<(), AllocError>
    ensures { OnOk result (members_view members.new.entries
        ≡ put name.now (whole number) (members_view members.old.entries)) }
{
    serde_json::put(members, alloc, name, Value::from(number))
}

/// A member that is true or false.
pub(crate) fn put_flag(
    members: &mut Members,
    alloc: Global,
    name: &str,
    flag: bool,
) -> Result<(), AllocError>
    ensures { OnOk result (members_view members.new.entries
        ≡ put name.now (boolean flag) (members_view members.old.entries)) }
{
    serde_json::put(members, alloc, name, Value::Bool(flag))
}

/// A member that is a text.
pub(crate) fn put_text(
    members: &mut Members,
    alloc: Global,
    name: &str,
    text: &str,
) -> Result<(), AllocError>
    ensures { OnOk result (members_view members.new.entries
        ≡ put name.now (string text.now) (members_view members.old.entries)) }
{
    let value = Value::try_from_str(alloc, text)?;
    serde_json::put(members, alloc, name, value)
}
