// What a crash leaves of a file in memory: its calls are made again, with the part of each write that is kept.
ghost use Rattle.std.specs.Prelude.{◌≡◌, ℕ, ◌-◌, ◌<◌, ◌≤◌, length, slice_index, IsTrue, IfOk, OnOk};
ghost use Rattle.gt_disk.specs.Images.{State, Write, after, begins_within, fresh, are_within, state_of};
ghost use Rattle.gt_disk.specs.MemFile.{IsKept, step_of, steps_of};

use crate::Keep;
use crate::call::Call;
use crate::overlay::overlay;
use std::alloc::{AllocError, Global};

// The bytes, but 1 from a place on.
fn torn_bytes(alloc: Global, bytes: &[u8], from: usize) -> Result<Vec<u8>, AllocError>
    ensures long { IfOk result (λ torn. length torn.items ≡ length bytes.now) }
    ensures before { IfOk result (λ torn. (i : ℕ) → i < from
        → slice_index torn.items i ≡ slice_index bytes.now i) }
    ensures ones { IfOk result (λ torn. (i : ℕ) → from ≤ i → i < length bytes.now
        → slice_index torn.items i ≡ 1) }
{
    let front = from.min(bytes.len());
    let mut torn = bytes[..front].to_vec(alloc)?;
    torn.resize(bytes.len(), 1)?;
    Ok(torn)
}

// One write more.
fn write_kept(
    alloc: Global,
    keep: Keep,
    at: usize,
    bytes: &[u8],
    left: &mut Vec<u8>,
) -> Result<(), AllocError>
    ensures { OnOk result ((state : State) → IsTrue (begins_within state (Write at bytes.now))
        → IsKept keep state left.old.items
        → IsKept keep (after (Write at bytes.now) state) left.new.items) }
{
    match keep {
        Keep::Synced => Ok(()),
        Keep::Written => {
            overlay(left, at, bytes)?;
            Ok(())
        }
        Keep::Torn { at: from } => {
            let torn = torn_bytes(alloc, bytes, (from as usize).saturating_sub(at))?;
            overlay(left, at, &torn)?;
            Ok(())
        }
    }
}

// One call more, on the file as it reads and on what is left of it.
fn call_again(
    alloc: Global,
    keep: Keep,
    call: &Call,
    seen: &mut Vec<u8>,
    left: &mut Vec<u8>,
) -> Result<(), AllocError>
    ensures { OnOk result ((state : State) → IsTrue (begins_within state (step_of call.now))
        → seen.old.items ≡ state.seen → IsKept keep state left.old.items
        → (seen.new.items ≡ (after (step_of call.now) state).seen)
        × IsKept keep (after (step_of call.now) state) left.new.items) }
{
    match call {
        Call::Looked => Ok(()),
        Call::Wrote(at, bytes) => {
            write_kept(alloc, keep, *at as usize, bytes, left)?;
            overlay(seen, *at as usize, bytes)?;
            Ok(())
        }
        Call::Synced => {
            *left = seen.to_vec(alloc)?;
            Ok(())
        }
    }
}

// What a crash leaves that keeps so much.
pub fn kept_file(
    alloc: Global,
    start: &[u8],
    noted: &[Call],
    keep: Keep,
) -> Result<Vec<u8>, AllocError>
    requires { IsTrue (are_within (fresh start.now) (steps_of noted.now)) }
    ensures { IfOk result (λ file.
        IsKept keep (state_of start.now (steps_of noted.now)) file.items) }
{
    let mut seen = start.to_vec(alloc)?;
    let mut left = start.to_vec(alloc)?;
    for call in noted {
        call_again(alloc, keep, call, &mut seen, &mut left)?;
    }
    Ok(left)
}
