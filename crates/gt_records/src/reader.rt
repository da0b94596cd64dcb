ghost use Rattle.gt_records.specs.Reading.{Gives, byte_at, bytes_at, number_at};
ghost use Rattle.gt_records.specs.ReadingFields.{utf8_at};
ghost use Rattle.std.specs.Int.{w16, w32, w64};
ghost use Rattle.std.specs.Prelude.{◌≡◌, ◌==◌, MatchResult, Some, length};

use crate::fault::DecodeFault;
use std::marker::Model;

/// Bytes that are read from the front. Contracts see those that are left.
#[derive(Drop)]
pub(crate) struct Reader<'a> {
    left: &'a [u8],
}

impl<'a> Model for Reader<'a> {
    ghost use Rattle.std.specs.Prelude.{List, ℕ};

    ghost Value = { List ℕ };

    ghost view = { λ r. r.left.now };
}

impl<'a> Reader<'a> {
    ghost use Rattle.gt_records.specs.Reading.{Fails};

    /// All of the bytes are left.
    pub(crate) fn new(bytes: &'a [u8]) -> Reader<'a>
        ensures { result ≡ bytes.now }
    {
        Reader { left: bytes }
    }

    /// Whether no byte is left.
    pub(crate) fn is_empty(&self) -> bool
        ensures { result ≡ (length self.now == 0) }
    {
        self.left.is_empty()
    }

    /// The next byte.
    #[tactic(auto, unfolding(crate::specs::Reading::byte_at))]
    pub(crate) fn byte(&mut self) -> Result<u8, DecodeFault>
        ensures { Gives result (byte_at self.old) self.new }
    {
        match self.left {
            [] => Err(DecodeFault::NotRecord),
            [byte, left @ ..] => {
                self.left = left;
                Ok(*byte)
            }
        }
    }

    /// So many bytes.
    #[tactic(auto, unfolding(crate::specs::Reading::bytes_at))]
    pub(crate) fn bytes(&mut self, count: usize) -> Result<&'a [u8], DecodeFault>
        ensures { MatchResult result
            (λ bytes. bytes_at count self.old ≡ Some (bytes.now, self.new))
            (λ fault. Fails fault (bytes_at count self.old)) }
    {
        if self.left.len() < count {
            return Err(DecodeFault::NotRecord);
        }
        let (bytes, left) = self.left.split_at(count);
        self.left = left;
        Ok(bytes)
    }

    /// So many bytes of text.
    #[tactic(auto, using(crate::proofs::Utf8::utf8_read, crate::proofs::Utf8::utf8_refused, crate::proofs::Utf8::utf8_short))]
    pub(crate) fn text(&mut self, count: usize) -> Result<&'a str, DecodeFault>
        ensures { MatchResult result
            (λ text. utf8_at count self.old ≡ Some (text.now, self.new))
            (λ fault. Fails fault (utf8_at count self.old)) }
    {
        match str::from_utf8(self.bytes(count)?) {
            Ok(text) => Ok(text),
            Err(_) => Err(DecodeFault::NotRecord),
        }
    }

    /// An array of bytes.
    #[tactic(auto, unfolding(crate::specs::Reading::bytes_at))]
    pub(crate) fn array<const N: usize>(&mut self) -> Result<[u8; N], DecodeFault>
        ensures { Gives result (bytes_at N self.old) self.new }
    {
        match self.left.split_first_chunk::<N>() {
            None => Err(DecodeFault::NotRecord),
            Some((bytes, left)) => {
                self.left = left;
                Ok(*bytes)
            }
        }
    }

    /// A number of two bytes.
    #[tactic(auto, unfolding(crate::specs::Reading::number_at))]
    pub(crate) fn u16(&mut self) -> Result<u16, DecodeFault>
        ensures { Gives result (number_at w16 self.old) self.new }
    {
        Ok(u16::from_be_bytes(self.array()?))
    }

    /// A number of four bytes.
    #[tactic(auto, unfolding(crate::specs::Reading::number_at))]
    pub(crate) fn u32(&mut self) -> Result<u32, DecodeFault>
        ensures { Gives result (number_at w32 self.old) self.new }
    {
        Ok(u32::from_be_bytes(self.array()?))
    }

    /// A number of eight bytes.
    #[tactic(auto, unfolding(crate::specs::Reading::number_at))]
    pub(crate) fn u64(&mut self) -> Result<u64, DecodeFault>
        ensures { Gives result (number_at w64 self.old) self.new }
    {
        Ok(u64::from_be_bytes(self.array()?))
    }
}
