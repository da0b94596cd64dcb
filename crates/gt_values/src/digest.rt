ghost use Rattle.gt_values.specs.Forms.{is_digest};
ghost use Rattle.std.specs.Prelude.{◌≡◌, true};

use crate::bytes;
use crate::sequence::Exact;
use std::marker::Model;

/// A SHA-256 of FIPS 180-4, which has 32 bytes. Contracts see the list of them.
#[derive(Clone, Copy, Debug, PartialEq, Eq, PartialOrd, Ord, Hash)]
pub struct Digest {
    bytes: [u8; 32],
}

impl Model for Digest {
    ghost use Rattle.std.specs.Prelude.{List, ℕ};

    ghost Value = { List ℕ };

    ghost view = { λ d. d.bytes };

    ghost inverse = { λ bytes. record { bytes = bytes } };
}

impl Digest {
    /// The digest of these bytes.
    pub fn from_bytes(bytes: [u8; 32]) -> Digest
        ensures { result ≡ bytes }
    {
        Digest { bytes }
    }

    /// The bytes of the digest.
    pub fn as_bytes(&self) -> &[u8; 32]
        ensures value { result.now ≡ self.now }
        ensures fits { is_digest self.now ≡ true }
    {
        bytes::fit(&self.bytes);
        &self.bytes
    }
}

impl Exact for Digest {
    ghost use Rattle.std.proofs.Common.{rules};

    ghost exact = { Prim.search rules };
}
