// The record of a file in memory, call by call.
ghost use Rattle.std.specs.Prelude.{◌≡◌, ◌++◌, [], ◌∷◌, OnOk, OnErr};
ghost use Rattle.gt_disk.specs.Images.{Write, overlaid};
ghost use Rattle.gt_disk.specs.MemFile.{step_of, steps_of};

use crate::call::Call;
use crate::overlay::overlay;
use std::alloc::{AllocError, Global};

/// Notes a call that changes no byte.
pub fn note(noted: &mut Vec<Call>, call: Call) -> Result<(), AllocError>
    ensures ok { OnOk result (steps_of noted.new.items
        ≡ steps_of noted.old.items ++ step_of call ∷ []) }
    ensures err { OnErr result (noted.new.items ≡ noted.old.items) }
{
    noted.push(call)?;
    Ok(())
}

/// Notes a write and makes it, or does neither.
pub fn note_write(
    alloc: Global,
    noted: &mut Vec<Call>,
    file: &mut Vec<u8>,
    at: u64,
    bytes: &[u8],
) -> Result<(), AllocError>
    ensures ok { OnOk result (steps_of noted.new.items
        ≡ steps_of noted.old.items ++ Write at bytes.now ∷ []) }
    ensures ok_file { OnOk result (file.new.items ≡ overlaid file.old.items at bytes.now) }
    ensures err { OnErr result (steps_of noted.new.items ≡ steps_of noted.old.items) }
    ensures err_file { OnErr result (file.new.items ≡ file.old.items) }
{
    note(noted, Call::Wrote(at, bytes.to_vec(alloc)?))?;
    match overlay(file, at as usize, bytes) {
        Ok(()) => Ok(()),
        Err(fault) => {
            let _ = noted.pop();
            Err(fault)
        }
    }
}
