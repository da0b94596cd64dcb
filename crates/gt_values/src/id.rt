ghost use Rattle.gt_values.specs.Forms.{is_id};
ghost use Rattle.gt_values.specs.IdText as spec;
ghost use Rattle.gt_values.specs.IdText.{id_of, printed_id};
ghost use Rattle.gt_values.specs.Ident.{made_id};
ghost use Rattle.std.specs.Prelude.{◌≡◌, ◌<◌, ◌^◌, IfOk, IfSome, Some, string_bytes, true};

use crate::bytes;
use crate::sequence::Exact;
use std::alloc::{AllocError, Global};
use std::marker::Model;
use uuid::Uuid;

/// An identifier: a UUID of RFC 9562. Contracts see the list of its sixteen bytes.
#[derive(Clone, Copy, Debug, PartialEq, Eq, PartialOrd, Ord, Hash)]
pub struct Id {
    inner: Uuid,
}

impl Model for Id {
    ghost use Rattle.std.specs.Prelude.{List, ℕ};

    ghost Value = { List ℕ };

    ghost view = { λ id. id.inner };

    ghost inverse = { λ bytes. record { inner = bytes } };
}

impl Id {
    /// The identifier that a text stands for: hyphenated, without hyphens, hyphenated in braces, or hyphenated after
    /// `urn:uuid:`. Hexadecimal digits may be of either case, `urn:uuid:` is in lower case. `None` for any other text.
    pub fn read(text: &str) -> Option<Id>
        ensures value { result ≡ id_of text.now }
        ensures fits { IfSome result (λ id. is_id id ≡ true) }
    {
        if opens_otherwise(text) {
            return None;
        }
        match Uuid::parse_str(text) {
            Ok(inner) => {
                bytes::fit(inner.as_bytes());
                Some(Id { inner })
            }
            Err(_) => None,
        }
    }

    /// The text of the identifier: hyphenated, in lower case.
    pub fn print(&self, alloc: Global) -> Result<String, AllocError>
        ensures text { IfOk result (λ text. string_bytes text ≡ printed_id self.now) }
        ensures back { IfOk result (λ text. id_of (string_bytes text) ≡ Some self.now) }
    {
        let mut buffer = Uuid::encode_buffer();
        String::from_str(alloc, self.inner.hyphenated().encode_lower(&mut buffer))
    }

    /// The identifier of the thing of this kind and number under a desk's namespace.
    ///
    /// Its bytes 0 to 3 are the namespace, byte 4 is 0, byte 5 is the kind, bytes 6 to 9 are 80 00 80 00 in hexadecimal
    /// (version 8, variant of RFC 9562), and bytes 10 to 15 are the number.
    pub fn made(namespace: u32, kind: u8, number: u64) -> Id
        requires { number < 2 ^ 48 }
        ensures value { result ≡ made_id namespace kind number }
        ensures fits { is_id result ≡ true }
    {
        let n = namespace.to_be_bytes();
        let m = number.to_be_bytes();
        Id::from_bytes([
            n[0], n[1], n[2], n[3], 0, kind, 0x80, 0, 0x80, 0, m[2], m[3], m[4], m[5], m[6], m[7],
        ])
    }

    /// The identifier of these sixteen bytes.
    pub fn from_bytes(bytes: [u8; 16]) -> Id
        ensures value { result ≡ bytes }
        ensures fits { is_id result ≡ true }
    {
        bytes::fit(&bytes);
        Id {
            inner: Uuid::from_bytes(bytes),
        }
    }

    /// Whether this is an identifier, which it always is: sixteen bytes.
    // For the proof: a test of a value's form asks its parts.
    pub fn is_id(&self) -> bool
        ensures value { result ≡ is_id self.now }
        ensures always { result ≡ true }
    {
        bytes::fit(self.inner.as_bytes());
        true
    }

    /// The sixteen bytes of the identifier.
    pub fn as_bytes(&self) -> &[u8; 16]
        ensures value { result.now ≡ self.now }
        ensures fits { is_id self.now ≡ true }
    {
        let bytes = self.inner.as_bytes();
        bytes::fit(bytes);
        bytes
    }
}

impl Exact for Id {
    ghost use Rattle.std.proofs.Common.{rules};

    ghost exact = { Prim.search rules };
}

// Whether the text is as long as the urn form and doesn't begin as that form does.
fn opens_otherwise(text: &str) -> bool
    ensures { result ≡ spec.opens_otherwise text.now }
{
    text.len() == 45 && !text.as_bytes().starts_with(b"urn:uuid:")
}
