#![tactic(auto, using(crate::proofs::KeepLemmas::keeping))]

ghost use Rattle.gt_records.specs.Fields.{digest_text, id_text, moment_text, principal_text, string_text};
ghost use Rattle.gt_records.specs.ReadingFields.{digest_at, id_at, moment_at, principal_at, string_at};
ghost use Rattle.std.specs.Prelude.{◌^◌, length, nat_lt};

use crate::fault::DecodeFault;
use crate::field::Field;
use crate::reader::Reader;
use gt_types::Principal;
use gt_values::{Digest, Id, Moment, Text};
use std::alloc::{AllocError, Global};

impl Field for Text {
    ghost text = { string_text };

    ghost fits = { λ text. nat_lt (length text) (2 ^ 32) };

    ghost read_at = { string_at };

    fn write_to(&self, into: &mut Vec<u8>) -> Result<(), AllocError> {
        (self.len() as u32).write_to(into)?;
        into.extend_from_slice(self.as_str().as_bytes())
    }

    #[tactic(auto, unfolding(crate::specs::ReadingFields::string_at))]
    fn read_from(alloc: Global, from: &mut Reader<'_>) -> Result<Text, DecodeFault> {
        let len = from.u32()?;
        let text = from.text(len as usize)?;
        Ok(Text::copy_of(alloc, text)?)
    }
}

impl Field for Id {
    ghost text = { id_text };

    ghost read_at = { id_at };

    fn write_to(&self, into: &mut Vec<u8>) -> Result<(), AllocError> {
        into.extend_from_slice(self.as_bytes())
    }

    #[tactic(auto, unfolding(crate::specs::ReadingFields::id_at))]
    fn read_from(_alloc: Global, from: &mut Reader<'_>) -> Result<Id, DecodeFault> {
        Ok(Id::from_bytes(from.array()?))
    }
}

impl Field for Digest {
    ghost text = { digest_text };

    ghost read_at = { digest_at };

    fn write_to(&self, into: &mut Vec<u8>) -> Result<(), AllocError> {
        into.extend_from_slice(self.as_bytes())
    }

    #[tactic(auto, unfolding(crate::specs::ReadingFields::digest_at))]
    fn read_from(_alloc: Global, from: &mut Reader<'_>) -> Result<Digest, DecodeFault> {
        Ok(Digest::from_bytes(from.array()?))
    }
}

impl Field for Moment {
    ghost text = { moment_text };

    ghost read_at = { moment_at };

    fn write_to(&self, into: &mut Vec<u8>) -> Result<(), AllocError> {
        self.seconds().write_to(into)
    }

    #[tactic(auto, unfolding(crate::specs::ReadingFields::moment_at))]
    fn read_from(_alloc: Global, from: &mut Reader<'_>) -> Result<Moment, DecodeFault> {
        Moment::of(from.u64()?).ok_or(DecodeFault::NotRecord)
    }
}

impl Field for Principal {
    ghost text = { principal_text };

    ghost read_at = { principal_at };

    fn write_to(&self, into: &mut Vec<u8>) -> Result<(), AllocError> {
        match self {
            Principal::Identity(id) => {
                1u8.write_to(into)?;
                id.write_to(into)
            }
            Principal::Group(id) => {
                2u8.write_to(into)?;
                id.write_to(into)
            }
            Principal::AllAuthenticated => 3u8.write_to(into),
            Principal::Anonymous => 4u8.write_to(into),
        }
    }

    #[tactic(auto, unfolding(crate::specs::ReadingFields::principal_at))]
    fn read_from(alloc: Global, from: &mut Reader<'_>) -> Result<Principal, DecodeFault> {
        match from.byte()? {
            1 => Ok(Principal::Identity(Id::read_from(alloc, from)?)),
            2 => Ok(Principal::Group(Id::read_from(alloc, from)?)),
            3 => Ok(Principal::AllAuthenticated),
            4 => Ok(Principal::Anonymous),
            _ => Err(DecodeFault::NotRecord),
        }
    }
}
