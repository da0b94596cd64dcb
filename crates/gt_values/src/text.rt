ghost use Rattle.std.specs.Cmp;
ghost use Rattle.std.specs.Cmp.Lexicographic.{nat_list_eq_equiv};
ghost use Rattle.std.specs.Prelude.{◌≡◌, ◌==◌, IfOk, length, string_bytes, true};
ghost use Rattle.std.specs.Str.{bytes_eq, is_utf8};

use crate::sequence::Exact;
use std::alloc::{AllocError, Global};
use std::marker::Model;

/// A text in UTF-8. Contracts see the list of its bytes.
#[derive(Debug, Drop)]
pub struct Text {
    text: String,
}

impl Model for Text {
    ghost use Rattle.std.specs.Prelude.{◌≡◌, List, string_bytes, true, ℕ};
    ghost use Rattle.std.specs.Str.{is_utf8};

    ghost Value = { List ℕ };

    ghost view = { λ t. string_bytes t.text };

    ghost invariant = { λ t. is_utf8 (string_bytes t.text) ≡ true };
}

impl Text {
    /// The text of a `String`. Takes no memory.
    pub fn from_string(text: String) -> Text
        ensures { result ≡ string_bytes text }
    {
        Text { text }
    }

    /// The text as a `String`. Takes no memory.
    pub fn into_string(self) -> String
        ensures { string_bytes result ≡ self }
    {
        let Text { text } = self;
        text
    }

    /// A copy of the text.
    pub fn copy_of(alloc: Global, text: &str) -> Result<Text, AllocError>
        ensures { IfOk result (λ copy. copy ≡ text.now) }
    {
        Ok(Text::from_string(String::from_str(alloc, text)?))
    }

    /// The text as a `str`.
    pub fn as_str(&self) -> &str
        ensures value { result.now ≡ self.now }
        ensures utf8 { is_utf8 self.now ≡ true }
    {
        self.text.as_str()
    }

    /// How many bytes the text has.
    pub fn len(&self) -> usize
        ensures { result ≡ length self.now }
    {
        self.text.len()
    }

    /// Whether the text has no byte.
    pub fn is_empty(&self) -> bool
        ensures { result ≡ (length self.now == 0) }
    {
        self.text.is_empty()
    }
}

/// The clone is equal to its source, and is made by the source's allocator.
impl Clone for Text {
    ghost is_clone = { λ t u. u ≡ t };

    fn clone(&self) -> Result<Text, AllocError> {
        Ok(Text {
            text: self.text.clone()?,
        })
    }
}

impl Exact for Text {
    ghost exact = { λ x y same. same };
}

impl PartialEq for Text {
    ghost eq = { bytes_eq };

    ghost laws = { Cmp.partial_equiv_from_equiv nat_list_eq_equiv };

    fn eq(&self, other: &Text) -> bool {
        self.as_str() == other.as_str()
    }
}

impl Eq for Text {
    ghost laws = { nat_list_eq_equiv };
}
