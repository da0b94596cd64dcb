ghost use Rattle.std.specs.Prelude.{◌≡◌, ◌⊎◌, [], ◌∷◌, ◌++◌, ◌+◌, ◌<◌, ◌^◌, ℕ, None, Some, length, map, IfErr, IfOk, IsTrue, OnOk};
ghost use Rattle.gt_paths.specs.Name.{is_name};
ghost use Rattle.gt_paths.specs.Path.{PathValue, slashed};
ghost use Rattle.gt_paths.specs.PathText.{bad_name, first_bad, pieces_of};

use crate::fault::PathFault;
use crate::name::{Name, is_name};
use crate::pieces::first_piece;
use std::alloc::{AllocError, Global};

/// The most names of a path.
pub(crate) const MAX_NAMES: u64 = 64;

/// The most bytes that a path prints.
pub(crate) const MAX_BYTES: u64 = 4096;

/// A path in the making. Each name is counted, with the bytes that it prints; a name past the limits is not kept.
#[derive(Drop)]
pub(crate) struct Draft {
    pub(crate) names: Vec<Name>,
    pub(crate) depth: u64,
    pub(crate) bytes: u64,
}

impl Draft {
    ghost use Rattle.gt_paths.specs.Draft.{IsDraftOf};

    /// A draft without names.
    pub(crate) fn new(alloc: Global) -> Draft
        ensures draft { IsDraftOf result [] }
    {
        Draft {
            names: Vec::new(alloc),
            depth: 0,
            bytes: 0,
        }
    }

    /// Adds a name.
    pub(crate) fn push(&mut self, alloc: Global, name: &str) -> Result<(), AllocError>
        requires name { IsTrue (is_name name.now) }
        requires depth { self.old.depth + 1 < 2 ^ 64 }
        requires bytes { self.old.bytes + length name.now + 1 < 2 ^ 64 }
        ensures draft { OnOk result ((names : PathValue) → IsDraftOf self.old names
            → IsDraftOf self.new (names ++ name.now ∷ [])) }
        ensures depth { OnOk result (self.new.depth ≡ self.old.depth + 1) }
        ensures bytes { OnOk result (self.new.bytes ≡ self.old.bytes + length name.now + 1) }
    {
        let depth = self.depth + 1;
        let bytes = self.bytes + name.len() as u64 + 1;
        if depth <= MAX_NAMES && bytes <= MAX_BYTES {
            let name = Name::of_name(alloc, name)?;
            self.names.push(name)?;
        }
        self.depth = depth;
        self.bytes = bytes;
        Ok(())
    }

    /// Adds names.
    pub(crate) fn extend(&mut self, alloc: Global, more: &[Name]) -> Result<(), AllocError>
        requires depth { self.old.depth + length more.now < 2 ^ 64 }
        requires bytes { self.old.bytes + length (slashed more.now) < 2 ^ 64 }
        ensures draft { OnOk result ((names : PathValue) → IsDraftOf self.old names
            → IsDraftOf self.new (names ++ more.now)) }
        ensures depth { OnOk result (self.new.depth ≡ self.old.depth + length more.now) }
        ensures bytes { OnOk result (self.new.bytes ≡ self.old.bytes + length (slashed more.now)) }
    {
        for name in more {
            self.push(alloc, name.as_str())?;
        }
        Ok(())
    }

    /// Adds the names between the slashes of the text, of which the first has this place in its path.
    pub(crate) fn read(&mut self, alloc: Global, text: &str, place: u64) -> Result<(), PathFault>
        requires depth { self.old.depth + length text.now < 2 ^ 64 }
        requires bytes { self.old.bytes + length text.now + 1 < 2 ^ 64 }
        requires place { place + length text.now < 2 ^ 64 }
        ensures names { OnOk result (first_bad (pieces_of text.now) ≡ None) }
        ensures draft { OnOk result ((names : PathValue) → IsDraftOf self.old names
            → IsDraftOf self.new (names ++ pieces_of text.now)) }
        ensures fault { IfErr result
            (λ fault. (fault ≡ PathFault.OutOfMemory)
            ⊎ ((at : ℕ) × (first_bad (pieces_of text.now) ≡ Some at)
            × (fault ≡ bad_name (at + place)))) }
    {
        let mut rest = text;
        let mut at = place;
        while !rest.is_empty() {
            let (piece, after) = first_piece(rest);
            if !is_name(piece) {
                return Err(bad_name(at));
            }
            self.push(alloc, piece)?;
            rest = after;
            at += 1;
        }
        Ok(())
    }
}

/// The fault of a piece that is no name.
fn bad_name(at: u64) -> PathFault
    ensures { result ≡ bad_name at }
{
    PathFault::BadName {
        at: u32::try_from(at).unwrap_or(u32::MAX),
    }
}
