//! The steps of a store.
use cacache_core::bytes::Bytes;
use cacache_core::text::Text;

/// One step on a store, with everything that it needs. Open files have type `F`, and temporary files have type `T`.
#[derive(Debug, Drop, PartialEq)]
pub enum Step<F, T> {
    /// Makes every missing folder of the path.
    MakeDirs(Text),
    /// Makes an empty file at the path, which must be free.
    CreateTemp(Text),
    /// Appends bytes to the temporary file.
    Write(T, Bytes),
    /// Moves the temporary file to the path, and replaces a file or link there.
    Persist(T, Text),
    /// Appends bytes to the file at the path in one write. A missing file is made first.
    Append(Text, Bytes),
    /// Reads the whole file.
    ReadAll(Text),
    /// Opens a file for reading.
    Open(Text),
    /// Reads at most this many bytes from an open file.
    Read(F, usize),
    /// Checks whether there is a file or folder at the path.
    Exists(Text),
    /// Finds the length of the file in bytes.
    Size(Text),
    /// Makes a symbolic link: first its target, then its path.
    Symlink(Text, Text),
    /// Copies the file at the first path to the second path.
    Copy(Text, Text),
    /// Copies the file at the first path to the second path with shared storage, which real folders can't do. The
    /// second path must be free.
    Reflink(Text, Text),
    /// Gives the file at the first path a second name. The second path must be free.
    HardLink(Text, Text),
    /// Lists the names in a folder.
    ReadDir(Text),
    /// Removes a file or a link.
    RemoveFile(Text),
    /// Removes an empty folder.
    RemoveDir(Text),
    /// Waits until the temporary file's bytes would survive a loss of power.
    SyncTemp(T),
    /// Waits until the bytes of the file at the path would survive a loss of power.
    SyncFile(Text),
    /// Waits until the names in a folder would survive a loss of power.
    SyncDir(Text),
}
