#![tactic(auto, using(crate::proofs::KeepLemmas::keeping))]

ghost use Rattle.gt_records.specs.Appending.{Keeps};
ghost use Rattle.gt_records.specs.Fields.{boolean_text, byte_text, list_text, number_text, option_text};
ghost use Rattle.gt_records.specs.Reading.{Gives, byte_at, number_at, times_at};
ghost use Rattle.gt_records.specs.ReadingFields.{boolean_at, list_at, option_at};
ghost use Rattle.gt_values.specs.Forms.{if_there};
ghost use Rattle.gt_values.specs.Grammar.{Read};
ghost use Rattle.std.specs.Int.{w32, w64};
ghost use Rattle.std.specs.List.{flat_map, list_all};
ghost use Rattle.std.specs.Prelude.{◌≡◌, ◌++◌, ◌&&◌, ◌^◌, Bool, IsTrue, List, OnErr, OnOk, length, nat_lt, true, ℕ};

use crate::fault::DecodeFault;
use crate::reader::Reader;
use gt_values::Sequence;
use std::alloc::{AllocError, Global};

/// A kind of field: how its values are written and read.
pub(crate) trait Field: Drop {
    ghost text: { Self → List ℕ };

    /// Whether the lengths in the value fit their bytes.
    ghost fits: { Self → Bool } = { λ _. true };

    ghost read_at: { List ℕ → Read Self };

    /// Appends the text of the value. Part of it may stand at the end of the buffer after an error.
    fn write_to(&self, into: &mut Vec<u8>) -> Result<(), AllocError>
        requires { IsTrue (fits self.now) }
        ensures ok { OnOk result (into.new.items ≡ into.old.items ++ text self.now) }
        ensures err { OnErr result (Keeps into.old.items into.new.items) };

    /// The value at the front of the bytes that are left.
    fn read_from(alloc: Global, from: &mut Reader<'_>) -> Result<Self, DecodeFault>
        ensures { Gives result (read_at from.old) from.new };
}

impl Field for u8 {
    ghost text = { byte_text };

    ghost read_at = { byte_at };

    fn write_to(&self, into: &mut Vec<u8>) -> Result<(), AllocError> {
        into.push(*self)?;
        Ok(())
    }

    fn read_from(_alloc: Global, from: &mut Reader<'_>) -> Result<u8, DecodeFault> {
        from.byte()
    }
}

impl Field for u32 {
    ghost text = { number_text w32 };

    ghost read_at = { number_at w32 };

    fn write_to(&self, into: &mut Vec<u8>) -> Result<(), AllocError> {
        into.extend_from_slice(&self.to_be_bytes())
    }

    fn read_from(_alloc: Global, from: &mut Reader<'_>) -> Result<u32, DecodeFault> {
        from.u32()
    }
}

impl Field for u64 {
    ghost text = { number_text w64 };

    ghost read_at = { number_at w64 };

    fn write_to(&self, into: &mut Vec<u8>) -> Result<(), AllocError> {
        into.extend_from_slice(&self.to_be_bytes())
    }

    fn read_from(_alloc: Global, from: &mut Reader<'_>) -> Result<u64, DecodeFault> {
        from.u64()
    }
}

impl Field for bool {
    ghost text = { boolean_text };

    ghost read_at = { boolean_at };

    fn write_to(&self, into: &mut Vec<u8>) -> Result<(), AllocError> {
        u8::from(*self).write_to(into)
    }

    #[tactic(auto, unfolding(crate::specs::ReadingFields::boolean_at, crate::specs::Reading::coded_at))]
    fn read_from(_alloc: Global, from: &mut Reader<'_>) -> Result<bool, DecodeFault> {
        match from.byte()? {
            0 => Ok(false),
            1 => Ok(true),
            _ => Err(DecodeFault::NotRecord),
        }
    }
}

impl<T: Field> Field for Option<T> {
    ghost text = { option_text T.text };

    ghost fits = { if_there T.fits };

    ghost read_at = { option_at T.read_at };

    fn write_to(&self, into: &mut Vec<u8>) -> Result<(), AllocError> {
        self.is_some().write_to(into)?;
        match self {
            None => Ok(()),
            Some(value) => value.write_to(into),
        }
    }

    #[tactic(auto, unfolding(crate::specs::ReadingFields::option_at))]
    fn read_from(alloc: Global, from: &mut Reader<'_>) -> Result<Option<T>, DecodeFault> {
        if bool::read_from(alloc, from)? {
            Ok(Some(T::read_from(alloc, from)?))
        } else {
            Ok(None)
        }
    }
}

impl<T: Field> Field for Sequence<T> {
    ghost text = { list_text T.text };

    ghost fits = { λ xs. nat_lt (length xs) (2 ^ 32) && list_all T.fits xs };

    ghost read_at = { list_at T.read_at };

    fn write_to(&self, into: &mut Vec<u8>) -> Result<(), AllocError> {
        (self.len() as u32).write_to(into)?;
        write_all(self.as_slice(), into)
    }

    #[tactic(auto, unfolding(crate::specs::ReadingFields::list_at))]
    fn read_from(alloc: Global, from: &mut Reader<'_>) -> Result<Sequence<T>, DecodeFault> {
        let count = from.u32()?;
        read_times(alloc, count, from)
    }
}

/// Appends the text of each value. Part of it may stand at the end of the buffer after an error.
#[tactic(auto, using(crate::proofs::KeepLemmas::keeping_on))]
pub(crate) fn write_all<T: Field>(values: &[T], into: &mut Vec<u8>) -> Result<(), AllocError>
    requires { IsTrue (list_all T.fits values.now) }
    ensures ok { OnOk result (into.new.items ≡ into.old.items ++ flat_map T.text values.now) }
    ensures err { OnErr result (Keeps into.old.items into.new.items) }
{
    for value in values {
        value.write_to(into)?;
    }
    Ok(())
}

/// So many values, one after the other.
pub(crate) fn read_times<T: Field>(
    alloc: Global,
    count: u32,
    from: &mut Reader<'_>,
) -> Result<Sequence<T>, DecodeFault>
    ensures { Gives result (times_at T.read_at count from.old) from.new }
{
    let mut values = Vec::new(alloc);
    for _ in 0..count {
        values.push(T::read_from(alloc, from)?)?;
    }
    Ok(Sequence::from_vec(values))
}
