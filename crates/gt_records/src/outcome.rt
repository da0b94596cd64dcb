#![tactic(auto, using(crate::proofs::KeepLemmas::keeping))]

ghost use Rattle.gt_records.specs.Appending.{Keeps};
ghost use Rattle.gt_records.specs.Fields.{byte_text};
ghost use Rattle.gt_records.specs.OutcomeText as text;
ghost use Rattle.gt_records.specs.OutcomeText.{evidence_text, outcome_fields, outcome_text};
ghost use Rattle.gt_records.specs.Reading.{Gives, of_form};
ghost use Rattle.gt_records.specs.ReadingOutcomes.{code_at, evidence_at, mismatch_at, outcome_at, outcome_forms, side_at};
ghost use Rattle.gt_types.specs.Outcome.{is_recordable_outcome};
ghost use Rattle.std.specs.Prelude.{◌≡◌, ◌++◌, IsTrue, OnErr, OnOk};

use crate::fault::DecodeFault;
use crate::field::Field;
use crate::reader::Reader;
use gt_types::{Code, Evidence, Outcome, Side};
use gt_values::Digest;
use std::alloc::{AllocError, Global};

impl Field for Code {
    ghost text = { λ code. byte_text (text.code_number code) };

    ghost read_at = { code_at };

    fn write_to(&self, into: &mut Vec<u8>) -> Result<(), AllocError> {
        code_number(*self).write_to(into)
    }

    #[tactic(auto, unfolding(crate::specs::ReadingOutcomes::code_at, crate::specs::Reading::coded_at))]
    fn read_from(_alloc: Global, from: &mut Reader<'_>) -> Result<Code, DecodeFault> {
        match from.byte()? {
            1 => Ok(Code::FileNotFound),
            2 => Ok(Code::PermissionDenied),
            3 => Ok(Code::WrongKind),
            4 => Ok(Code::NotEmpty),
            5 => Ok(Code::VerifyMismatch),
            6 => Ok(Code::TreeFault),
            7 => Ok(Code::FolderTooLarge),
            8 => Ok(Code::ItemLimit),
            9 => Ok(Code::PathTooLong),
            _ => Err(DecodeFault::NotRecord),
        }
    }
}

fn code_number(code: Code) -> u8
    ensures { result ≡ text.code_number code }
{
    match code {
        Code::FileNotFound => 1,
        Code::PermissionDenied => 2,
        Code::WrongKind => 3,
        Code::NotEmpty => 4,
        Code::VerifyMismatch => 5,
        Code::TreeFault => 6,
        Code::FolderTooLarge => 7,
        Code::ItemLimit => 8,
        Code::PathTooLong => 9,
    }
}

impl Field for Side {
    ghost text = { λ side. byte_text (text.side_number side) };

    ghost read_at = { side_at };

    fn write_to(&self, into: &mut Vec<u8>) -> Result<(), AllocError> {
        side_number(*self).write_to(into)
    }

    #[tactic(auto, unfolding(crate::specs::ReadingOutcomes::side_at, crate::specs::Reading::coded_at))]
    fn read_from(_alloc: Global, from: &mut Reader<'_>) -> Result<Side, DecodeFault> {
        match from.byte()? {
            1 => Ok(Side::Source),
            2 => Ok(Side::Destination),
            _ => Err(DecodeFault::NotRecord),
        }
    }
}

fn side_number(side: Side) -> u8
    ensures { result ≡ text.side_number side }
{
    match side {
        Side::Source => 1,
        Side::Destination => 2,
    }
}

impl Field for Evidence {
    ghost text = { evidence_text };

    ghost read_at = { evidence_at };

    fn write_to(&self, into: &mut Vec<u8>) -> Result<(), AllocError> {
        self.size.write_to(into)?;
        self.source.write_to(into)?;
        self.back.write_to(into)
    }

    #[tactic(auto, unfolding(crate::specs::ReadingOutcomes::evidence_at))]
    fn read_from(alloc: Global, from: &mut Reader<'_>) -> Result<Evidence, DecodeFault> {
        let size = from.u64()?;
        let source = Digest::read_from(alloc, from)?;
        let back = Option::<Digest>::read_from(alloc, from)?;
        Ok(Evidence { size, source, back })
    }
}

impl Field for Outcome {
    ghost text = { outcome_text };

    ghost fits = { is_recordable_outcome };

    ghost read_at = { outcome_at };

    fn write_to(&self, into: &mut Vec<u8>) -> Result<(), AllocError> {
        outcome_number(self).write_to(into)?;
        write_outcome(self, into)
    }

    #[tactic(auto, unfolding(crate::specs::ReadingOutcomes::outcome_at))]
    fn read_from(alloc: Global, from: &mut Reader<'_>) -> Result<Outcome, DecodeFault> {
        let number = from.byte()?;
        read_outcome(alloc, number, from)
    }
}

fn outcome_number(outcome: &Outcome) -> u8
    ensures { result ≡ text.outcome_number outcome.now }
{
    match outcome {
        Outcome::Copied { .. } => 1,
        Outcome::Present { .. } => 2,
        Outcome::Expanded { .. } => 3,
        Outcome::Listed { .. } => 4,
        Outcome::Removed => 5,
        Outcome::Missing => 6,
        Outcome::Failed { .. } => 7,
        Outcome::TreeFault { .. } => 8,
        Outcome::Mismatch { .. } => 9,
    }
}

// Appends the fields of the outcome.
fn write_outcome(outcome: &Outcome, into: &mut Vec<u8>) -> Result<(), AllocError>
    requires { IsTrue (is_recordable_outcome outcome.now) }
    ensures ok { OnOk result (into.new.items ≡ into.old.items ++ outcome_fields outcome.now) }
    ensures err { OnErr result (Keeps into.old.items into.new.items) }
{
    match outcome {
        Outcome::Copied { evidence, checked } => {
            evidence.write_to(into)?;
            checked.write_to(into)
        }
        Outcome::Failed { code, side } => {
            code.write_to(into)?;
            side.write_to(into)
        }
        Outcome::TreeFault { before, after } => {
            before.write_to(into)?;
            after.write_to(into)
        }
        Outcome::Mismatch {
            size,
            source,
            back_size,
            back,
            checked,
        } => {
            size.write_to(into)?;
            source.write_to(into)?;
            back_size.write_to(into)?;
            back.write_to(into)?;
            checked.write_to(into)
        }
        // No record holds these yet.
        Outcome::Present { .. }
        | Outcome::Expanded { .. }
        | Outcome::Listed { .. }
        | Outcome::Removed
        | Outcome::Missing => Ok(()),
    }
}

// The outcome of this number.
fn read_outcome(alloc: Global, number: u8, from: &mut Reader<'_>) -> Result<Outcome, DecodeFault>
    ensures { Gives result (of_form outcome_forms number from.old) from.new }
{
    match number {
        1 => {
            let evidence = Evidence::read_from(alloc, from)?;
            let checked = from.u64()?;
            Ok(Outcome::Copied { evidence, checked })
        }
        7 => {
            let code = Code::read_from(alloc, from)?;
            let side = Side::read_from(alloc, from)?;
            Ok(Outcome::Failed { code, side })
        }
        8 => {
            let before = from.u64()?;
            let after = from.u64()?;
            Ok(Outcome::TreeFault { before, after })
        }
        9 => read_mismatch(alloc, from),
        _ => Err(DecodeFault::NotRecord),
    }
}

#[tactic(auto, unfolding(crate::specs::ReadingOutcomes::mismatch_at))]
fn read_mismatch(alloc: Global, from: &mut Reader<'_>) -> Result<Outcome, DecodeFault>
    ensures { Gives result (mismatch_at from.old) from.new }
{
    let size = from.u64()?;
    let source = Digest::read_from(alloc, from)?;
    let back_size = from.u64()?;
    let back = Digest::read_from(alloc, from)?;
    let checked = from.u64()?;
    Ok(Outcome::Mismatch {
        size,
        source,
        back_size,
        back,
        checked,
    })
}
