ghost use Rattle.std.specs.Prelude.{◌≡◌, ◌≤◌, ◌↔◌, ◌⊎◌, ◌++◌, [], length, IfErr, IfOk, IsTrue, None, OnOk, string_bytes};
ghost use Rattle.gt_paths.specs.Path.{IsUnder, PathValue, below, child_path, is_path, is_under, most_bytes, most_names, overlaps, printed_path, slashed};
ghost use Rattle.gt_paths.specs.PathText.{limited, read_path};
ghost use Rattle.gt_values.specs.Results.{FaultsAs};

mod order;

use crate::draft::{Draft, MAX_BYTES, MAX_NAMES};
use crate::fault::PathFault;
use crate::name::Name;
use crate::pieces::behind_home;
use gt_values::Exact;
use std::alloc::{AllocError, Global};
use std::marker::Model;

mod parts;

/// A path from the root of a collection: at most 64 names, which print in at most 4,096 bytes.
///
/// The root has no name. Paths are compared name by name, and names by their bytes.
#[derive(Debug, Drop)]
pub struct Path {
    names: Vec<Name>,
}

impl Model for Path {
    ghost use Rattle.std.specs.Prelude.{ℕ, List, IsTrue};
    ghost use Rattle.gt_paths.specs.Path.{is_path};

    ghost Value = { List (List ℕ) };

    ghost view = { λ p. p.names.items };

    ghost invariant = { λ p. IsTrue (is_path p.names.items) };
}

impl Path {
    ghost use Rattle.gt_paths.specs.Draft.{IsDraftOf};
    ghost use Rattle.gt_paths.specs.PathText.{IsBadPiece, bad_place, names_of, pieces_of};

    /// The root of a collection.
    pub fn root(alloc: Global) -> Path
        ensures { result ≡ [] }
    {
        Path {
            names: Vec::new(alloc),
        }
    }

    /// The number of its names.
    pub fn names(&self) -> u32
        ensures count { result ≡ length self.now }
        ensures path { IsTrue (is_path self.now) }
    {
        self.names.len() as u32
    }

    /// The path that the text is.
    ///
    /// The text begins with a slash and has names between slashes; one more slash may stand at its end.
    /// A first piece `~` stands for the names of `home`. Where the text is no path, the fault is the first of
    /// `NotAbsolute`, `BadName`, `TooDeep` and `TooLong` that it has; the last two count the names of `home` too.
    pub fn read(alloc: Global, text: &str, home: &Path) -> Result<Path, PathFault>
        ensures path { IfOk result (λ path. IsTrue (is_path path)) }

        // Each text has one answer, and it is given unless memory runs out.
        ensures ok { IfOk result (λ path. read_path home.now text.now ≡ Ok path) }
        ensures fault { FaultsAs PathFault.OutOfMemory (read_path home.now text.now) result }
    {
        let Some(rest) = text.strip_prefix('/') else {
            return Err(PathFault::NotAbsolute);
        };
        Path::of(Path::draft_of(alloc, rest, home)?)
    }

    /// The names that the pieces of the text stand for.
    fn draft_of(alloc: Global, text: &str, home: &Path) -> Result<Draft, PathFault>
        ensures good { OnOk result (bad_place (pieces_of text.now) ≡ None) }
        ensures draft { IfOk result
            (λ draft. IsDraftOf draft (names_of home.now (pieces_of text.now))) }
        ensures fault { IfErr result
            (λ fault. (fault ≡ PathFault.OutOfMemory) ⊎ IsBadPiece (pieces_of text.now) fault) }
    {
        let mut draft = Draft::new(alloc);
        match behind_home(text) {
            Some(rest) => {
                draft.extend(alloc, &home.names)?;
                draft.read(alloc, rest, 1)?;
            }
            None => draft.read(alloc, text, 0)?,
        }
        Ok(draft)
    }

    /// The path that the draft is, or the limit that it passes.
    fn of(draft: Draft) -> Result<Path, PathFault>
        requires { (names : PathValue) × IsDraftOf draft names }
        ensures path { IfOk result (λ path. IsTrue (is_path path)) }
        ensures ok { IfOk result
            (λ path. (names : PathValue) → IsDraftOf draft names → path ≡ names) }
        ensures fault { IfErr result
            (λ fault. (names : PathValue) → IsDraftOf draft names → limited names ≡ Err fault) }
    {
        if draft.depth > MAX_NAMES {
            return Err(PathFault::TooDeep { names: draft.depth });
        }
        if draft.bytes > MAX_BYTES {
            return Err(PathFault::TooLong { bytes: draft.bytes });
        }
        Ok(Path { names: draft.names })
    }

    /// The text of the path: a slash before each name, and a lone one for the root.
    pub fn print(&self, alloc: Global) -> Result<String, AllocError>
        ensures text { IfOk result (λ text. string_bytes text ≡ printed_path self.now) }

        // What is printed is read as this path, whatever the home folder.
        ensures back { IfOk result
            (λ text. (home : PathValue) → read_path home (string_bytes text) ≡ Ok self.now) }
    {
        if self.names.is_empty() {
            return String::from_str(alloc, "/");
        }
        let mut text = String::with_capacity(alloc, self.slashed_len())?;
        for name in &self.names {
            text.push('/')?;
            text.push_str(name.as_str())?;
        }
        Ok(text)
    }

    /// The number of bytes that its names print, each with its slash.
    fn slashed_len(&self) -> usize
        ensures { result ≡ length (slashed self.now) }
    {
        let mut len = 0;
        for name in &self.names {
            len += name.as_str().len() + 1;
        }
        len
    }

    /// Whether the folder's names are the first names of this path.
    pub fn is_under(&self, folder: &Path) -> bool
        ensures test { result ≡ is_under self.now folder.now }
        ensures prefix { IsTrue result ↔ IsUnder self.now folder.now }
    {
        self.names.as_slice().starts_with(folder.names.as_slice())
    }

    /// Whether one of the two paths is under the other.
    pub fn overlaps(&self, other: &Path) -> bool
        ensures test { result ≡ overlaps self.now other.now }
        ensures prefix { IsTrue result ↔ (IsUnder self.now other.now ⊎ IsUnder other.now self.now) }
    {
        self.is_under(other) || other.is_under(self)
    }

    /// The path of the name in this folder.
    pub fn child(&self, alloc: Global, name: &Name) -> Result<Path, PathFault>
        ensures path { IfOk result (λ path. IsTrue (is_path path)) }
        ensures ok { IfOk result (λ path. path ≡ child_path self.now name.now) }
        ensures fault { FaultsAs PathFault.OutOfMemory
            (limited (child_path self.now name.now)) result }
    {
        let mut draft = Draft::new(alloc);
        draft.extend(alloc, &self.names)?;
        draft.push(alloc, name.as_str())?;
        Path::of(draft)
    }

    /// The path that is to `to` what this one is to `from`.
    pub fn rebase(&self, alloc: Global, from: &Path, to: &Path) -> Result<Path, PathFault>
        requires { IsTrue (is_under self.now from.now) }
        ensures path { IfOk result (λ path. IsTrue (is_path path)) }
        ensures ok { IfOk result (λ path. path ≡ to.now ++ below self.now from.now) }
        ensures fault { FaultsAs PathFault.OutOfMemory
            (limited (to.now ++ below self.now from.now)) result }
    {
        let mut draft = Draft::new(alloc);
        draft.extend(alloc, &to.names)?;
        draft.extend(alloc, self.names_below(from))?;
        Path::of(draft)
    }

    /// The names of this path behind those of the folder.
    fn names_below(&self, folder: &Path) -> &[Name]
        requires { IsTrue (is_under self.now folder.now) }
        ensures names { result.now ≡ below self.now folder.now }
        ensures few { length result.now ≤ most_names }
        ensures small { length (slashed result.now) ≤ most_bytes }
    {
        let names = self.names.as_slice();
        let above = folder.names.as_slice();
        &names[above.len()..]
    }

    /// A copy of the path.
    pub fn copy(&self, alloc: Global) -> Result<Path, AllocError>
        ensures { IfOk result (λ path. path ≡ self.now) }
    {
        let mut names = Vec::with_capacity(alloc, self.names.len())?;
        for name in &self.names {
            names.push(name.copy(alloc)?)?;
        }
        Ok(Path { names })
    }
}

impl Clone for Path {
    ghost is_clone = { λ p q. q ≡ p };

    fn clone(&self) -> Result<Path, AllocError> {
        Ok(Path {
            names: self.names.clone()?,
        })
    }
}

impl Exact for Path {
    ghost use Rattle.std.proofs.Common.{rules};

    ghost exact = { Prim.search rules };
}
