ghost use Rattle.gt_paths.specs.Name.{is_name};
ghost use Rattle.gt_paths.specs.Path.{is_path, slashed};
ghost use Rattle.gt_paths.specs.PathText.{limited};
ghost use Rattle.std.specs.List.{list_all};
ghost use Rattle.std.specs.Prelude.{◌≡◌, ◌≤◌, IfErr, IfOk, IsTrue, Err, length};

use super::Path;
use crate::draft::{MAX_BYTES, MAX_NAMES};
use crate::fault::PathFault;
use crate::name::Name;

impl Path {
    /// The path of these names, from the root. Takes no memory.
    ///
    /// `TooDeep` where there are more than 64 names, else `TooLong` where they print in more than 4,096 bytes.
    pub fn from_names(names: Vec<Name>) -> Result<Path, PathFault>
        ensures path { IfOk result (λ path. IsTrue (is_path path)) }
        ensures ok { IfOk result (λ path. path ≡ names.items) }
        ensures fault { IfErr result (λ fault. limited names.items ≡ Err fault) }
    {
        let depth = names.len() as u64;
        if depth > MAX_NAMES {
            return Err(PathFault::TooDeep { names: depth });
        }
        let bytes = bytes_of(&names);
        if bytes > MAX_BYTES {
            return Err(PathFault::TooLong { bytes });
        }
        Ok(Path { names })
    }

    /// The names of the path, from the root.
    pub fn as_slice(&self) -> &[Name]
        ensures value { result.now ≡ self.now }
        ensures path { IsTrue (is_path self.now) }
    {
        self.names.as_slice()
    }
}

/// The number of bytes that the names print, each with its slash.
fn bytes_of(names: &[Name]) -> u64
    requires { length names.now ≤ 64 }
    ensures count { result ≡ length (slashed names.now) }
    ensures names { IsTrue (list_all is_name names.now) }
{
    let mut bytes = 0;
    for name in names {
        bytes += name.as_str().len() as u64 + 1;
    }
    bytes
}
