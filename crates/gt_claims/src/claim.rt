ghost use Rattle.std.specs.Prelude.{◌≡◌, IfOk};
ghost use Rattle.gt_claims.specs.Claims.{claim_of};

use gt_types::Act;
use std::alloc::{AllocError, Global};

/// What a running item reads and writes: its act, on the collections of its task.
#[derive(Debug, Drop)]
pub struct Claim {
    pub act: Act,
    /// The source collection of the item's task.
    pub source: u32,
    /// The destination collection of the item's task.
    pub destination: u32,
}

impl Claim {
    /// The claim of an act on these collections of its task. It copies the act's paths.
    pub fn of(alloc: Global, act: &Act, source: u32, destination: u32) -> Result<Claim, AllocError>
        ensures { IfOk result (λ claim. claim ≡ claim_of source destination act.now) }
    {
        let act = copy_of(alloc, act)?;
        Ok(Claim {
            act,
            source,
            destination,
        })
    }
}

// A copy of the act.
fn copy_of(alloc: Global, act: &Act) -> Result<Act, AllocError>
    ensures { IfOk result (λ copy. copy ≡ act.now) }
{
    match act {
        Act::Transfer {
            source,
            destination,
            want,
        } => Ok(Act::Transfer {
            source: source.copy(alloc)?,
            destination: destination.copy(alloc)?,
            want: *want,
        }),
        Act::Erase { path, want } => Ok(Act::Erase {
            path: path.copy(alloc)?,
            want: *want,
        }),
        Act::RemoveFolder { path } => Ok(Act::RemoveFolder {
            path: path.copy(alloc)?,
        }),
    }
}
