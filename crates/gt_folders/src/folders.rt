ghost use Rattle.std.specs.Prelude.{IfOk, IsErr, false, length, ◌≡◌, ◌≤◌};
ghost use Rattle.gt_folders.specs.Folders.{ClosesOne, FolderWords, IsSameOpen, OpensOne};

use crate::name::EntryName;
use crate::sight::Sight;
use std::io;

/// Folders and files that are open, by number, and what may be asked of them. A call on a number under which nothing is
/// open is refused. What stands in them isn't told. No call but `open_root` follows a link.
///
/// An error is that of the system, by its number (`raw_os_error`), as ENOENT where nothing stands at a name.
pub trait Folders {
    /// All that is said of it.
    ghost words: { FolderWords Self };

    /// Opens a folder by a path of the operator's. Links in it are followed.
    fn open_root(&mut self, path: &str) -> io::Result<usize>
        ensures told { OpensOne words self.old result self.new };

    /// Opens a folder in an open one.
    fn open_folder(&mut self, folder: usize, name: EntryName<'_>) -> io::Result<usize>
        ensures told { OpensOne words self.old result self.new }
        ensures fault { words.is_open self.old folder ≡ false → IsErr result };

    /// Opens a regular file in an open folder to read it.
    fn open_file(&mut self, folder: usize, name: EntryName<'_>) -> io::Result<usize>
        ensures told { OpensOne words self.old result self.new }
        ensures fault { words.is_open self.old folder ≡ false → IsErr result };

    /// Opens a regular file in an open folder to add to its end.
    fn open_end(&mut self, folder: usize, name: EntryName<'_>) -> io::Result<usize>
        ensures told { OpensOne words self.old result self.new }
        ensures fault { words.is_open self.old folder ≡ false → IsErr result };

    /// Makes an empty file where nothing stands, open to add to its end.
    fn make_file(&mut self, folder: usize, name: EntryName<'_>) -> io::Result<usize>
        ensures told { OpensOne words self.old result self.new }
        ensures fault { words.is_open self.old folder ≡ false → IsErr result };

    /// Closes what is open under this number.
    fn close(&mut self, number: usize)
        ensures told { ClosesOne words self.old number self.new };

    /// What stands at a name.
    fn look(&mut self, folder: usize, name: EntryName<'_>) -> io::Result<Sight>
        ensures same { IsSameOpen words self.old self.new }
        ensures fault { words.is_open self.old folder ≡ false → IsErr result };

    /// What is open itself.
    fn look_open(&mut self, number: usize) -> io::Result<Sight>
        ensures same { IsSameOpen words self.old self.new }
        ensures fault { words.is_open self.old number ≡ false → IsErr result };

    /// Puts the next names of an open folder at the front of `into`, each with a byte 0 behind it, and says how many bytes
    /// they take: 0 at the end. `.` and `..` are among them. 4,096 bytes have room for each name.
    fn names(&mut self, folder: usize, into: &mut [u8]) -> io::Result<usize>
        ensures same { IsSameOpen words self.old self.new }
        ensures fault { words.is_open self.old folder ≡ false → IsErr result }
        ensures room { IfOk result (λ n. n ≤ length into.old) };

    /// Makes an empty folder where nothing stands.
    fn make_folder(&mut self, folder: usize, name: EntryName<'_>) -> io::Result<()>
        ensures same { IsSameOpen words self.old self.new }
        ensures fault { words.is_open self.old folder ≡ false → IsErr result };

    /// Removes a name that is none of a folder.
    fn remove_file(&mut self, folder: usize, name: EntryName<'_>) -> io::Result<()>
        ensures same { IsSameOpen words self.old self.new }
        ensures fault { words.is_open self.old folder ≡ false → IsErr result };

    /// Removes an empty folder.
    fn remove_folder(&mut self, folder: usize, name: EntryName<'_>) -> io::Result<()>
        ensures same { IsSameOpen words self.old self.new }
        ensures fault { words.is_open self.old folder ≡ false → IsErr result };

    /// Gives a file a name in another open folder, in place of a file or a link that has it.
    fn place(
        &mut self,
        folder: usize,
        name: EntryName<'_>,
        to_folder: usize,
        to: EntryName<'_>,
    ) -> io::Result<()>
        ensures same { IsSameOpen words self.old self.new }
        ensures fault { words.is_open self.old folder ≡ false → IsErr result }
        ensures fault_to { words.is_open self.old to_folder ≡ false → IsErr result };

    /// Reads an open file from a place on: as many bytes as one call of the system gives, 0 at the end.
    fn read(&mut self, file: usize, at: u64, into: &mut [u8]) -> io::Result<usize>
        ensures same { IsSameOpen words self.old self.new }
        ensures fault { words.is_open self.old file ≡ false → IsErr result }
        ensures room { IfOk result (λ n. n ≤ length into.old) };

    /// Adds all of the bytes to the end of an open file. Where it fails a part of them may stand there.
    fn append(&mut self, file: usize, bytes: &[u8]) -> io::Result<()>
        ensures same { IsSameOpen words self.old self.new }
        ensures fault { words.is_open self.old file ≡ false → IsErr result };

    /// Sets when an open file was last written, in seconds since 1970.
    fn set_time(&mut self, file: usize, seconds: i64) -> io::Result<()>
        ensures same { IsSameOpen words self.old self.new }
        ensures fault { words.is_open self.old file ≡ false → IsErr result };

    /// Waits until an open folder or file is on the disk.
    fn sync(&mut self, number: usize) -> io::Result<()>
        ensures same { IsSameOpen words self.old self.new }
        ensures fault { words.is_open self.old number ≡ false → IsErr result };

    /// Takes the lock of an open file until it is closed: EAGAIN where another open of the file has it.
    fn lock(&mut self, file: usize) -> io::Result<()>
        ensures same { IsSameOpen words self.old self.new }
        ensures fault { words.is_open self.old file ≡ false → IsErr result };
}
