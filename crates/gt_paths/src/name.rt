ghost use Rattle.std.specs.List.{list_any};
ghost use Rattle.std.specs.Prelude.{◌≡◌, ◌↔◌, ◌&&◌, length, nat_le, IfOk, IsErrOf, IsTrue, refl, OnOk, false, nat_eq};
ghost use Rattle.std.specs.Cmp.{partial_equiv_from_equiv};
ghost use Rattle.std.specs.Cmp.Lexicographic.{nat_list_cmp_total, nat_list_eq_equiv, pointwise, slice_cmp, texts_po, texts_ties};
ghost use Rattle.std.specs.Ordering.{as_partial_cmp, nat_cmp};
ghost use Rattle.gt_paths.specs.Name.{IsName, is_name, is_separator, is_reserved as is_reserved_name};

use crate::fault::NameFault;
use std::alloc::{AllocError, Global};
use std::cmp::Ordering;
use std::marker::Model;

/// The name of a file or a folder: UTF-8 text of 1 to 255 bytes without `/` and the byte 0, and not `.`, `..` or `~`.
///
/// Names are compared by their bytes.
#[derive(Debug, Drop)]
pub struct Name {
    text: String,
}

impl Model for Name {
    ghost use Rattle.std.specs.Prelude.{ℕ, List};
    ghost use Rattle.std.specs.String.{string_bytes};
    ghost use Rattle.gt_paths.specs.Name.{IsName};

    ghost Value = { List ℕ };

    ghost view = { λ n. string_bytes n.text };

    ghost invariant = { λ n. IsName (string_bytes n.text) };
}

impl Name {
    /// The name that the text is. Refused where it is none, with no memory taken.
    pub fn read(alloc: Global, text: &str) -> Result<Name, NameFault>
        ensures ok { IfOk result (λ name. name ≡ text.now) }
        ensures name { OnOk result (IsName text.now) }

        ensures refused { IsErrOf result NameFault.Refused ↔ ¬ (IsName text.now) }
        ensures test { IsErrOf result NameFault.Refused ↔ (is_name text.now ≡ false) }
    {
        if !is_name(text) {
            return Err(NameFault::Refused);
        }
        Name::of_name(alloc, text).map_err(|_| NameFault::OutOfMemory)
    }

    /// The name that the text is, where the caller knows that it is one.
    pub(crate) fn of_name(alloc: Global, text: &str) -> Result<Name, AllocError>
        requires { IsTrue (is_name text.now) }
        ensures { IfOk result (λ name. name ≡ text.now) }
    {
        Ok(Name {
            text: String::from_str(alloc, text)?,
        })
    }

    /// A copy of the name.
    pub fn copy(&self, alloc: Global) -> Result<Name, AllocError>
        ensures { IfOk result (λ name. name ≡ self.now) }
    {
        Name::of_name(alloc, self.as_str())
    }

    /// The text of the name.
    pub fn as_str(&self) -> &str
        ensures value { result.now ≡ self.now }
        ensures name { IsName self.now }
        ensures test { IsTrue (is_name self.now) }
    {
        self.text.as_str()
    }
}

/// Whether the text is a name.
pub(crate) fn is_name(text: &str) -> bool
    ensures { result ≡ is_name text.now }
{
    is_sized(text) && !has_separator(text) && !is_reserved(text)
}

/// Whether the text has 1 to 255 bytes.
fn is_sized(text: &str) -> bool
    ensures { result ≡ (nat_le 1 (length text.now) && nat_le (length text.now) 255) }
{
    !text.is_empty() && text.len() <= 255
}

/// Whether a byte of the text ends names.
fn has_separator(text: &str) -> bool
    ensures { result ≡ list_any is_separator text.now }
{
    text.as_bytes()
        .iter()
        .any(|byte| *byte == b'/' || *byte == 0)
}

/// Whether the text stands for another folder: this one, the one above, or the home folder.
fn is_reserved(text: &str) -> bool
    ensures { result ≡ is_reserved_name text.now }
{
    text == "." || text == ".." || text == "~"
}

impl Clone for Name {
    ghost is_clone = { λ n m. m ≡ n };

    fn clone(&self) -> Result<Name, AllocError> {
        Ok(Name {
            text: self.text.clone()?,
        })
    }
}

impl PartialEq for Name {
    ghost eq = { λ a b. pointwise nat_eq a b };

    ghost laws = { partial_equiv_from_equiv nat_list_eq_equiv };

    fn eq(&self, other: &Name) -> bool {
        self.as_str() == other.as_str()
    }
}

impl Eq for Name {
    ghost laws = { nat_list_eq_equiv };
}

impl PartialOrd for Name {
    ghost partial_cmp = { as_partial_cmp (slice_cmp nat_cmp) };

    ghost laws = { texts_po };

    fn partial_cmp(&self, other: &Name) -> Option<Ordering> {
        Some(self.cmp(other))
    }
}

impl Ord for Name {
    ghost cmp = { slice_cmp nat_cmp };

    ghost total = { nat_list_cmp_total };

    ghost matches_partial_cmp = { λ _ _. refl };

    ghost matches_eq = { texts_ties };

    fn cmp(&self, other: &Name) -> Ordering {
        self.as_str().cmp(other.as_str())
    }
}
