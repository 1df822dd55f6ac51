//! The system, as a store of real folders sees it.
ghost use Rattle.std.specs.{Prelude.{◌≡◌, ℕ, List, Option, length}, Io.{ReadsAtMost, WritesAtMost, StartsWith}};
ghost use Rattle.cacache_system.specs.{declared.call.CallItem.{CallItem}, Seen.{MakesCall, said, said_bytes, said_rest}};
ghost use Rattle.cacache_system.specs.declared.call.SystemCall.TheVariants as asks;
ghost use Rattle.cacache_system.specs.declared.call.CallResult.TheVariants as says;

use crate::call::FileInfo;
use cacache_core::text::Text;
use std::alloc::Global;
use std::io;

/// What a store of real folders asks of the system: one call a method. Closing is no call: a file that is dropped is
/// closed.
pub trait System {
    /// An open file, or a folder that was opened to be synced. It is read and written by calls alone.
    type File: Drop;

    /// A folder that was opened to be listed.
    type Folder: Drop;

    /// The number of an open file.
    ghost number: { Self.File → ℕ };

    /// The number of a folder that was opened to be listed.
    ghost folder_number: { Self.Folder → ℕ };

    /// All calls so far, oldest first, if the system keeps a log.
    ghost calls: { Self → Option (List CallItem) };

    /// Opens a file to read it, or a folder to sync it. A link is followed.
    fn open_to_read(&mut self, path: &str) -> io::Result<Self::File>
        ensures { MakesCall (calls self.old) (calls self.new) (asks.OpenToRead path.now)
            (said (λ file. says.Opened (number file)) result) };

    /// Makes a file with this mode where nothing is, and opens it to write it.
    fn create_new(&mut self, path: &str, mode: u32) -> io::Result<Self::File>
        ensures { MakesCall (calls self.old) (calls self.new) (asks.CreateNew path.now mode)
            (said (λ file. says.Opened (number file)) result) };

    /// Opens a file so that each write goes to its end. A missing one is made.
    fn open_to_append(&mut self, path: &str) -> io::Result<Self::File>
        ensures { MakesCall (calls self.old) (calls self.new) (asks.OpenToAppend path.now)
            (said (λ file. says.Opened (number file)) result) };

    /// Opens a folder to list it. A link isn't followed, unless the path ends in a `/`.
    fn open_folder(&mut self, path: &str) -> io::Result<Self::Folder>
        ensures { MakesCall (calls self.old) (calls self.new) (asks.OpenFolder path.now)
            (said (λ folder. says.Opened (folder_number folder)) result) };

    /// Reads some bytes into the front of `buf`.
    fn read(&mut self, file: &mut Self::File, buf: &mut [u8]) -> io::Result<usize>
        ensures bound { ReadsAtMost result buf.new }
        ensures same { number file.new ≡ number file.old }
        ensures logged { MakesCall (calls self.old) (calls self.new)
            (asks.Read (number file.old) (length buf.old)) (said_bytes buf.new result) };

    /// Appends all that is left of the file to `bytes`, in as many reads as that takes.
    fn read_rest(&mut self, file: &mut Self::File, bytes: &mut Vec<u8>) -> io::Result<usize>
        ensures appends { StartsWith bytes.new.items bytes.old.items }
        ensures same { number file.new ≡ number file.old }
        ensures logged { MakesCall (calls self.old) (calls self.new)
            (asks.ReadRest (number file.old)) (said_rest bytes.old.items bytes.new.items result) };

    /// Writes some bytes from the front of `buf`.
    fn write(&mut self, file: &mut Self::File, buf: &[u8]) -> io::Result<usize>
        ensures bound { WritesAtMost result buf.now }
        ensures same { number file.new ≡ number file.old }
        ensures logged { MakesCall (calls self.old) (calls self.new)
            (asks.Write (number file.old) buf.now) (said says.Count result) };

    /// Reads some names, each ended by a NUL.
    fn read_names(&mut self, folder: &mut Self::Folder, buf: &mut [u8]) -> io::Result<usize>
        ensures bound { ReadsAtMost result buf.new }
        ensures same { folder_number folder.new ≡ folder_number folder.old }
        ensures logged { MakesCall (calls self.old) (calls self.new) (asks.ReadNames
            (folder_number folder.old) (length buf.old)) (said_bytes buf.new result) };

    /// Waits until the file or folder would outlast a loss of power.
    fn sync(&mut self, file: &Self::File) -> io::Result<()>
        ensures { MakesCall (calls self.old) (calls self.new) (asks.Sync (number file.now))
            (said (λ _. says.Done) result) };

    /// Gives an open file to this owner and this group.
    fn set_owner(&mut self, file: &Self::File, owner: u32, group: u32) -> io::Result<()>
        ensures { MakesCall (calls self.old) (calls self.new)
            (asks.SetOwner (number file.now) owner group) (said (λ _. says.Done) result) };

    /// Gives an open file this mode.
    fn set_mode(&mut self, file: &Self::File, mode: u32) -> io::Result<()>
        ensures { MakesCall (calls self.old) (calls self.new) (asks.SetMode (number file.now) mode)
            (said (λ _. says.Done) result) };

    /// Asks what the open file is.
    fn stat_file(&mut self, file: &Self::File) -> io::Result<FileInfo>
        ensures { MakesCall (calls self.old) (calls self.new) (asks.StatFile (number file.now))
            (said says.Info result) };

    /// Asks what a path leads to.
    fn stat(&mut self, path: &str) -> io::Result<FileInfo>
        ensures { MakesCall (calls self.old) (calls self.new) (asks.Stat path.now)
            (said says.Info result) };

    /// Asks what is at a path, even if it is a link.
    fn stat_link(&mut self, path: &str) -> io::Result<FileInfo>
        ensures { MakesCall (calls self.old) (calls self.new) (asks.StatLink path.now)
            (said says.Info result) };

    /// Moves what is at a path to another.
    fn rename(&mut self, from: &str, to: &str) -> io::Result<()>
        ensures { MakesCall (calls self.old) (calls self.new) (asks.Rename from.now to.now)
            (said (λ _. says.Done) result) };

    /// Makes one folder.
    fn make_folder(&mut self, path: &str) -> io::Result<()>
        ensures { MakesCall (calls self.old) (calls self.new) (asks.MakeFolder path.now)
            (said (λ _. says.Done) result) };

    /// Removes a file or a link.
    fn remove_file(&mut self, path: &str) -> io::Result<()>
        ensures { MakesCall (calls self.old) (calls self.new) (asks.RemoveFile path.now)
            (said (λ _. says.Done) result) };

    /// Removes an empty folder.
    fn remove_folder(&mut self, path: &str) -> io::Result<()>
        ensures { MakesCall (calls self.old) (calls self.new) (asks.RemoveFolder path.now)
            (said (λ _. says.Done) result) };

    /// Makes a symbolic link.
    fn symlink(&mut self, target: &str, path: &str) -> io::Result<()>
        ensures { MakesCall (calls self.old) (calls self.new) (asks.Symlink target.now path.now)
            (said (λ _. says.Done) result) };

    /// Gives a file a second name.
    fn hard_link(&mut self, from: &str, to: &str) -> io::Result<()>
        ensures { MakesCall (calls self.old) (calls self.new) (asks.HardLink from.now to.now)
            (said (λ _. says.Done) result) };

    /// Copies a file, and says how many bytes.
    fn copy_file(&mut self, from: &str, to: &str) -> io::Result<u64>
        ensures { MakesCall (calls self.old) (calls self.new) (asks.CopyFile from.now to.now)
            (said says.Count result) };

    /// Asks for the path, without links, of what a path leads to.
    fn real_path(&mut self, alloc: Global, path: &str) -> io::Result<Text>
        ensures { MakesCall (calls self.old) (calls self.new) (asks.RealPath path.now)
            (said says.Bytes result) };

    /// When what is at a path, be it a link, was last written, moved, or given other rights: the latest of these, in
    /// milliseconds since the start of 1970 (UTC).
    fn changed(&mut self, path: &str) -> io::Result<u64>
        ensures unlogged { calls self.new ≡ calls self.old };

    /// A number that nobody else can guess.
    fn random(&mut self) -> io::Result<u64>
        ensures unlogged { calls self.new ≡ calls self.old };

    /// Begins walks: until `end_walks` a system may hold each folder that it opens to be listed, and those below it, and
    /// ask for what is in them there, wherever their paths lead by then.
    fn begin_walks(&mut self)
        ensures unlogged { calls self.new ≡ calls self.old }
    {}

    /// Closes what is held open for walks.
    fn end_walks(&mut self)
        ensures unlogged { calls self.new ≡ calls self.old };
}
