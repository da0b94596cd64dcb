#![tactic(auto, using(crate::proofs::KeepLemmas::keeping))]

ghost use Rattle.gt_records.specs.Fields.{name_text, path_text};
ghost use Rattle.gt_records.specs.ReadingFields.{name_at, path_at};

use crate::fault::DecodeFault;
use crate::field::{Field, read_times, write_all};
use crate::reader::Reader;
use gt_paths::{Name, NameFault, Path};
use std::alloc::{AllocError, Global};

impl Field for Name {
    ghost text = { name_text };

    ghost read_at = { name_at };

    fn write_to(&self, into: &mut Vec<u8>) -> Result<(), AllocError> {
        let name = self.as_str();
        (name.len() as u8).write_to(into)?;
        into.extend_from_slice(name.as_bytes())
    }

    #[tactic(auto, unfolding(crate::specs::ReadingFields::name_at))]
    fn read_from(alloc: Global, from: &mut Reader<'_>) -> Result<Name, DecodeFault> {
        let len = from.byte()?;
        let text = from.text(usize::from(len))?;
        match Name::read(alloc, text) {
            Ok(name) => Ok(name),
            Err(NameFault::Refused) => Err(DecodeFault::NotRecord),
            Err(NameFault::OutOfMemory) => Err(DecodeFault::OutOfMemory),
        }
    }
}

impl Field for Path {
    ghost text = { path_text };

    ghost read_at = { path_at };

    fn write_to(&self, into: &mut Vec<u8>) -> Result<(), AllocError> {
        into.extend_from_slice(&(self.names() as u16).to_be_bytes())?;
        write_all(self.as_slice(), into)
    }

    #[tactic(auto, unfolding(crate::specs::ReadingFields::path_at))]
    fn read_from(alloc: Global, from: &mut Reader<'_>) -> Result<Path, DecodeFault> {
        let count = from.u16()?;
        let names = read_times::<Name>(alloc, u32::from(count), from)?;
        match Path::from_names(names.into_vec()) {
            Ok(path) => Ok(path),
            Err(_) => Err(DecodeFault::NotRecord),
        }
    }
}
