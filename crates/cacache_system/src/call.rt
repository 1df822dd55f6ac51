//! Calls to the system, and what it says.
use cacache_core::bytes::Bytes;
use cacache_core::text::Text;
use cacache_store::store::{Kind, Listing};
use std::io::ErrorKind;

/// What the system is asked. An open file goes by its number.
#[derive(Drop)]
pub enum SystemCall {
    /// Opens a file to read it, or a folder to sync it.
    OpenToRead(Text),
    /// Makes a file with this mode where nothing is, and opens it to write it.
    CreateNew(Text, u32),
    /// Opens a file so that each write goes to its end. A missing one is made.
    OpenToAppend(Text),
    /// Opens a folder to list it. A link isn't followed, unless the path ends in a `/`.
    OpenFolder(Text),
    /// Reads at most so many bytes.
    Read(u64, usize),
    /// Reads all that is left, in as many reads as that takes.
    ReadRest(u64),
    /// Writes some of the bytes.
    Write(u64, Bytes),
    /// Reads at most so many bytes of names, each ended by a NUL.
    ReadNames(u64, usize),
    /// Waits until the file or folder would outlast a loss of power.
    Sync(u64),
    /// Gives an open file to this owner and this group.
    SetOwner(u64, u32, u32),
    /// Gives an open file this mode.
    SetMode(u64, u32),
    /// Asks what the open file is.
    StatFile(u64),
    /// Asks what a path leads to.
    Stat(Text),
    /// Asks what is at a path, even if it is a link.
    StatLink(Text),
    /// Moves what is at the first path to the second.
    Rename(Text, Text),
    /// Makes one folder.
    MakeFolder(Text),
    /// Removes a file or a link.
    RemoveFile(Text),
    /// Removes an empty folder.
    RemoveFolder(Text),
    /// Makes a symbolic link: first its target, then its path.
    Symlink(Text, Text),
    /// Gives the file at the first path a second name.
    HardLink(Text, Text),
    /// Copies the file at the first path to the second.
    CopyFile(Text, Text),
    /// Asks for the path, without links, of what a path leads to.
    RealPath(Text),
}

/// What the system says about a file or folder.
#[derive(Clone, Copy)]
pub struct FileInfo {
    /// What kind of thing it is. All but folders and links count as files.
    pub kind: Kind,
    /// Whether it is a regular file.
    pub regular: bool,
    /// Its size in bytes.
    pub size: u64,
    /// Its number on its device.
    pub inode: u64,
    /// The number of its device.
    pub device: u64,
    /// Its mode: who may read, write and run it. Twelve bits.
    pub mode: u32,
    /// The number of its owner.
    pub owner: u32,
    /// The number of its group.
    pub group: u32,
}

/// What the system says to a call, and what the calls of a step end with.
#[derive(Drop)]
pub enum CallResult {
    /// It is done.
    Done,
    /// The number of the file that was opened.
    Opened(u64),
    /// How many bytes were written or copied.
    Count(u64),
    /// The bytes that were read.
    Bytes(Bytes),
    /// What was asked for.
    Info(FileInfo),
    /// What is in a folder. No call says it: the calls of a listing end with it.
    Names(Listing),
    /// It failed, with an error of this kind.
    Failed(ErrorKind),
}

/// A call, and what the system said.
#[derive(Drop)]
pub struct CallItem {
    /// The call.
    pub call: SystemCall,
    /// What the system said.
    pub result: CallResult,
}
