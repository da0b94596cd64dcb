//! What one value of a document stands for.
ghost use Rattle.gt_documents.specs.Values as spec;
ghost use Rattle.gt_documents.specs.Values.{fits, moment_of, text_of};
ghost use Rattle.gt_paths.specs.Path.{is_path};
ghost use Rattle.gt_values.specs.Forms.{if_there, is_id};
ghost use Rattle.serde_json.specs.View.{view};
ghost use Rattle.std.specs.Prelude.{◌≡◌, ◌&&◌, IfOk, IfSome, length, true};
ghost use Rattle.std.specs.Str.{chars, is_utf8};

use gt_paths::{Path, PathFault};
use gt_values::{Id, Moment, Text};
use serde_json::Value;
use std::alloc::{AllocError, Global};

/// How long a text may be.
#[derive(Clone, Copy, Debug, PartialEq, Eq)]
pub enum TextLimit {
    /// At most this many characters.
    Characters(u64),
    /// From so many to so many bytes.
    Bytes(u64, u64),
}

impl TextLimit {
    /// Whether the text is as long as the limit says.
    fn is_met(self, text: &str) -> bool
        ensures { result ≡ fits self text.now }
    {
        match self {
            TextLimit::Characters(most) => count_of(text) as u64 <= most,
            TextLimit::Bytes(least, most) => {
                let bytes = text.len() as u64;
                least <= bytes && bytes <= most
            }
        }
    }
}

// How many characters there are.
fn count_of(text: &str) -> usize
    ensures { result ≡ length (chars text.now) }
{
    text.chars().count()
}

/// The text that a value is, if it is within the limit.
#[tactic(auto, unfolding(crate::specs::Values::text_of))]
pub fn text_in(alloc: Global, value: &Value, limit: TextLimit) -> Result<Option<Text>, AllocError>
    ensures value { IfOk result (λ text. text ≡ text_of limit (view value.now)) }
    ensures fits { IfOk result (λ text. if_there (λ t. is_utf8 t && fits limit t) text ≡ true) }
{
    let Some(text) = value.as_str() else {
        return Ok(None);
    };
    if limit.is_met(text) {
        Ok(Some(Text::copy_of(alloc, text)?))
    } else {
        Ok(None)
    }
}

/// The moment that a value's text stands for.
#[tactic(auto, unfolding(crate::specs::Values::moment_of))]
pub fn moment_in(value: &Value) -> Option<Moment>
    ensures { result ≡ moment_of (view value.now) }
{
    Moment::read(value.as_str()?).ok()
}

/// The identifier that a value's text stands for.
#[tactic(auto, unfolding(crate::specs::Values::id_of))]
pub(crate) fn id_in(value: &Value) -> Option<Id>
    ensures value { result ≡ spec.id_of (view value.now) }
    ensures fits { IfSome result (λ id. is_id id ≡ true) }
{
    Id::read(value.as_str()?)
}

/// The path that a value's text stands for, where `~` is the home folder.
#[tactic(auto, unfolding(crate::specs::Values::path_of))]
pub(crate) fn path_in(alloc: Global, value: &Value, home: &Path) -> Result<Option<Path>, AllocError>
    ensures value { IfOk result (λ path. path ≡ spec.path_of home.now (view value.now)) }
    ensures fits { IfOk result (λ path. if_there is_path path ≡ true) }
{
    let Some(text) = value.as_str() else {
        return Ok(None);
    };
    match Path::read(alloc, text, home) {
        Ok(path) => Ok(Some(path)),
        Err(PathFault::OutOfMemory) => Err(AllocError),
        Err(_) => Ok(None),
    }
}

/// The whole number that a value is, if it is in the range.
#[tactic(auto, unfolding(crate::specs::Values::number_of))]
pub(crate) fn number_in(value: &Value, least: u64, most: u64) -> Option<u64>
    ensures { result ≡ spec.number_of least most (view value.now) }
{
    let number = value.as_u64()?;
    if least <= number && number <= most {
        Some(number)
    } else {
        None
    }
}
