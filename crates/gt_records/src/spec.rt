#![tactic(auto, using(crate::proofs::KeepLemmas::keeping))]

ghost use Rattle.gt_records.specs.Fields.{byte_text};
ghost use Rattle.gt_records.specs.Reading.{Gives, coded_at};
ghost use Rattle.gt_records.specs.ReadingSpecs.{access_spec_at, entry_at, filter_rule_at, flags_of, kept_at, kind_of, recursive_of, transfer_spec_at};
ghost use Rattle.gt_records.specs.RecordText;
ghost use Rattle.gt_records.specs.RecordText.{access_spec_text, entry_text, filter_rule_text, flags_code, kept_text, transfer_spec_text};
ghost use Rattle.gt_types.specs.Forms.{is_pattern};
ghost use Rattle.gt_types.specs.SpecForms.{is_transfer_spec};
ghost use Rattle.std.specs.Prelude.{◌≡◌};

use crate::fault::DecodeFault;
use crate::field::Field;
use crate::reader::Reader;
use gt_paths::Path;
use gt_types::{
    AccessSpec, FilterRule, Kept, Kind, Principal, TransferEntry, TransferSpec, is_transfer_spec,
};
use gt_values::{Moment, Sequence, Text};
use std::alloc::{AllocError, Global};

/// The flags of a transfer, which are the bits 0 to 3 of one byte.
#[derive(Drop)]
pub(crate) struct Flags {
    pub(crate) verify: bool,
    pub(crate) preserve: bool,
    pub(crate) extra: bool,
    pub(crate) skip_source: bool,
}

impl Field for Flags {
    ghost text = { λ f. byte_text (flags_code f.verify f.preserve f.extra f.skip_source) };

    ghost read_at = { coded_at flags_of };

    fn write_to(&self, into: &mut Vec<u8>) -> Result<(), AllocError> {
        let low = u8::from(self.verify) + 2 * u8::from(self.preserve);
        let high = u8::from(self.extra) + 2 * u8::from(self.skip_source);
        (low + 4 * high).write_to(into)
    }

    #[tactic(auto, unfolding(crate::specs::Reading::coded_at))]
    fn read_from(_alloc: Global, from: &mut Reader<'_>) -> Result<Flags, DecodeFault> {
        let flags = from.byte()?;
        if flags >= 16 {
            return Err(DecodeFault::NotRecord);
        }
        Ok(Flags {
            verify: flags % 2 == 1,
            preserve: flags / 2 % 2 == 1,
            extra: flags / 4 % 2 == 1,
            skip_source: flags / 8 == 1,
        })
    }
}

impl Field for Kept {
    ghost text = { kept_text };

    ghost read_at = { kept_at };

    fn write_to(&self, into: &mut Vec<u8>) -> Result<(), AllocError> {
        self.given.write_to(into)?;
        self.set.write_to(into)
    }

    #[tactic(auto, unfolding(crate::specs::ReadingSpecs::kept_at))]
    fn read_from(_alloc: Global, from: &mut Reader<'_>) -> Result<Kept, DecodeFault> {
        let given = from.byte()?;
        let set = from.byte()?;
        Ok(Kept { given, set })
    }
}

/// The byte of a filter rule's kind: 0 for any, 1 for a file, 2 for a folder.
fn kind_code(kind: Option<Kind>) -> u8
    ensures { result ≡ RecordText.kind_code kind }
{
    match kind {
        None => 0,
        Some(Kind::File) => 1,
        Some(Kind::Folder) => 2,
    }
}

/// The kind of a filter rule that the next byte stands for.
#[tactic(auto, unfolding(crate::specs::Reading::coded_at))]
fn read_kind(from: &mut Reader<'_>) -> Result<Option<Kind>, DecodeFault>
    ensures { Gives result (coded_at kind_of from.old) from.new }
{
    match from.byte()? {
        0 => Ok(None),
        1 => Ok(Some(Kind::File)),
        2 => Ok(Some(Kind::Folder)),
        _ => Err(DecodeFault::NotRecord),
    }
}

/// The byte that says whether an entry is recursive: 0 where that is absent, 1 for false, 2 for true.
fn recursive_code(recursive: Option<bool>) -> u8
    ensures { result ≡ RecordText.recursive_code recursive }
{
    match recursive {
        None => 0,
        Some(false) => 1,
        Some(true) => 2,
    }
}

/// Whether an entry is recursive, as the next byte says.
#[tactic(auto, unfolding(crate::specs::Reading::coded_at))]
fn read_recursive(from: &mut Reader<'_>) -> Result<Option<bool>, DecodeFault>
    ensures { Gives result (coded_at recursive_of from.old) from.new }
{
    match from.byte()? {
        0 => Ok(None),
        1 => Ok(Some(false)),
        2 => Ok(Some(true)),
        _ => Err(DecodeFault::NotRecord),
    }
}

impl Field for FilterRule {
    ghost text = { filter_rule_text };

    ghost fits = { λ rule. is_pattern rule.pattern };

    ghost read_at = { filter_rule_at };

    fn write_to(&self, into: &mut Vec<u8>) -> Result<(), AllocError> {
        self.include.write_to(into)?;
        kind_code(self.kind).write_to(into)?;
        self.pattern.write_to(into)
    }

    #[tactic(auto, unfolding(crate::specs::ReadingSpecs::filter_rule_at))]
    fn read_from(alloc: Global, from: &mut Reader<'_>) -> Result<FilterRule, DecodeFault> {
        let include = bool::read_from(alloc, from)?;
        let kind = read_kind(from)?;
        let pattern = Text::read_from(alloc, from)?;
        Ok(FilterRule {
            include,
            kind,
            pattern,
        })
    }
}

impl Field for TransferEntry {
    ghost text = { entry_text };

    ghost read_at = { entry_at };

    fn write_to(&self, into: &mut Vec<u8>) -> Result<(), AllocError> {
        self.source.write_to(into)?;
        self.destination.write_to(into)?;
        recursive_code(self.recursive).write_to(into)
    }

    #[tactic(auto, unfolding(crate::specs::ReadingSpecs::entry_at))]
    fn read_from(alloc: Global, from: &mut Reader<'_>) -> Result<TransferEntry, DecodeFault> {
        let source = Path::read_from(alloc, from)?;
        let destination = Path::read_from(alloc, from)?;
        let recursive = read_recursive(from)?;
        Ok(TransferEntry {
            source,
            destination,
            recursive,
        })
    }
}

impl Field for TransferSpec {
    ghost text = { transfer_spec_text };

    ghost fits = { is_transfer_spec };

    ghost read_at = { transfer_spec_at };

    fn write_to(&self, into: &mut Vec<u8>) -> Result<(), AllocError> {
        let flags = Flags {
            verify: self.verify,
            preserve: self.preserve,
            extra: self.extra,
            skip_source: self.skip_source,
        };
        self.source.write_to(into)?;
        self.destination.write_to(into)?;
        self.label.write_to(into)?;
        self.deadline.write_to(into)?;
        self.level.write_to(into)?;
        flags.write_to(into)?;
        self.kept.write_to(into)?;
        self.rules.write_to(into)?;
        self.entries.write_to(into)
    }

    #[tactic(auto, unfolding(crate::specs::ReadingSpecs::transfer_spec_at))]
    fn read_from(alloc: Global, from: &mut Reader<'_>) -> Result<TransferSpec, DecodeFault> {
        let source = from.u32()?;
        let destination = from.u32()?;
        let label = Option::<Text>::read_from(alloc, from)?;
        let deadline = Option::<Moment>::read_from(alloc, from)?;
        let level = Option::<u8>::read_from(alloc, from)?;
        let flags = Flags::read_from(alloc, from)?;
        let kept = Kept::read_from(alloc, from)?;
        let rules = Sequence::<FilterRule>::read_from(alloc, from)?;
        let entries = Sequence::<TransferEntry>::read_from(alloc, from)?;
        let spec = TransferSpec {
            source,
            destination,
            label,
            deadline,
            level,
            verify: flags.verify,
            preserve: flags.preserve,
            extra: flags.extra,
            skip_source: flags.skip_source,
            kept,
            rules,
            entries,
        };
        if is_transfer_spec(&spec) {
            Ok(spec)
        } else {
            Err(DecodeFault::NotRecord)
        }
    }
}

impl Field for AccessSpec {
    ghost text = { access_spec_text };

    ghost read_at = { access_spec_at };

    fn write_to(&self, into: &mut Vec<u8>) -> Result<(), AllocError> {
        self.principal.write_to(into)?;
        self.path.write_to(into)?;
        self.write.write_to(into)
    }

    #[tactic(auto, unfolding(crate::specs::ReadingSpecs::access_spec_at))]
    fn read_from(alloc: Global, from: &mut Reader<'_>) -> Result<AccessSpec, DecodeFault> {
        let principal = Principal::read_from(alloc, from)?;
        let path = Path::read_from(alloc, from)?;
        let write = bool::read_from(alloc, from)?;
        Ok(AccessSpec {
            principal,
            path,
            write,
        })
    }
}
