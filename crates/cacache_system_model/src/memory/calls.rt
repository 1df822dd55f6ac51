//! The calls of a system in memory.
ghost use Rattle.std.specs.{Prelude.{◌≡◌, Some, length}, Io.{ReadsAtMost, WritesAtMost, StartsWith}};
ghost use Rattle.cacache_system.specs.declared.call.SystemCall.TheVariants as asks;
ghost use Rattle.cacache_system.specs.declared.call.CallResult.TheVariants as says;
ghost use Rattle.cacache_system.specs.Seen.{said, said_bytes, said_rest};

use crate::memory::log::{Asked, Said};
use crate::memory::state::MemoryFile;
use crate::memory::system::MemorySystem;
use crate::memory::tree::{hard_link, make_folder, shown, shown_link, symlink};
use cacache_core::errors::Fault;
use cacache_core::text::Text;
use cacache_disk::Stop;
use cacache_system::{FileInfo, System};
use std::alloc::Global;
use std::io;
use std::io::ErrorKind;

/// Why a call that this system doesn't have is refused.
const UNSUPPORTED: Stop = Stop::Fault(Fault::Unsupported);

impl System for MemorySystem {
    type File = MemoryFile;

    type Folder = MemoryFile;

    ghost use Rattle.cacache_system_model.specs.memory.Machines.{calls_of, Goes, GoesIfFile, GoesUnlessLink, IsUnsupported, Notes};

    ghost number = { λ file. file.number };

    ghost folder_number = { λ folder. folder.number };

    ghost calls = { λ system. Some (calls_of system) };

    fn open_to_read(&mut self, path: &str) -> io::Result<MemoryFile>
        ensures logged { Notes self.old (asks.OpenToRead path.now)
            (said (λ file. says.Opened file.number) result) self.new }
        ensures goes { Goes self.old (asks.OpenToRead path.now)
            (said (λ file. says.Opened file.number) result) self.new }
    {
        let opened = self.memory.open_found(path);
        self.log.open(Asked::OpenToRead(path), opened)
    }

    fn create_new(&mut self, path: &str, mode: u32) -> io::Result<MemoryFile>
        ensures logged { Notes self.old (asks.CreateNew path.now mode)
            (said (λ file. says.Opened file.number) result) self.new }
        ensures goes { Goes self.old (asks.CreateNew path.now mode)
            (said (λ file. says.Opened file.number) result) self.new }
    {
        let opened = self.memory.create(path);
        self.log.open(Asked::CreateNew(path, mode), opened)
    }

    fn open_to_append(&mut self, path: &str) -> io::Result<MemoryFile>
        ensures logged { Notes self.old (asks.OpenToAppend path.now)
            (said (λ file. says.Opened file.number) result) self.new }
        ensures goes { Goes self.old (asks.OpenToAppend path.now)
            (said (λ file. says.Opened file.number) result) self.new }
    {
        let opened = self.memory.open_written(path);
        self.log.open(Asked::OpenToAppend(path), opened)
    }

    fn open_folder(&mut self, path: &str) -> io::Result<MemoryFile>
        ensures logged { Notes self.old (asks.OpenFolder path.now)
            (said (λ file. says.Opened file.number) result) self.new }
        ensures refused { IsUnsupported self.old (said (λ file. says.Opened file.number) result) self.new }
    {
        Err(self.log.fail(Asked::OpenFolder(path), UNSUPPORTED))
    }

    fn read(&mut self, file: &mut MemoryFile, buf: &mut [u8]) -> io::Result<usize>
        ensures bound { ReadsAtMost result buf.new }
        ensures same { file.new.number ≡ file.old.number }
        ensures logged { Notes self.old (asks.Read file.old.number (length buf.old))
            (said_bytes buf.new result) self.new }
        ensures goes { Goes self.old (asks.Read file.old.number (length buf.old))
            (said_bytes buf.new result) self.new }
    {
        let call = Asked::Read(file.number, buf.len());
        match self.memory.read_next(file.number, buf) {
            Ok(count) => {
                self.log.add(call, Said::Bytes(&buf[..count]));
                Ok(count)
            }
            Err(stop) => Err(self.log.fail(call, stop)),
        }
    }

    fn read_rest(&mut self, file: &mut MemoryFile, bytes: &mut Vec<u8>) -> io::Result<usize>
        ensures appends { StartsWith bytes.new.items bytes.old.items }
        ensures same { file.new.number ≡ file.old.number }
        ensures logged { Notes self.old (asks.ReadRest file.old.number)
            (said_rest bytes.old.items bytes.new.items result) self.new }
        ensures goes { Goes self.old (asks.ReadRest file.old.number)
            (said_rest bytes.old.items bytes.new.items result) self.new }
    {
        let call = Asked::ReadRest(file.number);
        let before = bytes.len();
        match self.memory.read_all(file.number, bytes) {
            Ok(count) => {
                self.log.add(call, Said::Bytes(&bytes[before..]));
                Ok(count)
            }
            Err(stop) => Err(self.log.fail(call, stop)),
        }
    }

    fn write(&mut self, file: &mut MemoryFile, buf: &[u8]) -> io::Result<usize>
        ensures bound { WritesAtMost result buf.now }
        ensures same { file.new.number ≡ file.old.number }
        ensures logged { Notes self.old (asks.Write file.old.number buf.now)
            (said says.Count result) self.new }
        ensures goes { GoesIfFile self.old file.old.number buf.now (said says.Count result) self.new }
    {
        let call = Asked::Write(file.number, buf);
        match self.memory.append(file.number, buf) {
            Ok(count) => {
                self.log.add(call, Said::Count(count as u64));
                Ok(count)
            }
            Err(stop) => Err(self.log.fail(call, stop)),
        }
    }

    fn read_names(&mut self, folder: &mut MemoryFile, buf: &mut [u8]) -> io::Result<usize>
        ensures bound { ReadsAtMost result buf.new }
        ensures same { folder.new.number ≡ folder.old.number }
        ensures logged { Notes self.old (asks.ReadNames folder.old.number (length buf.old))
            (said_bytes buf.new result) self.new }
        ensures refused { IsUnsupported self.old (said_bytes buf.new result) self.new }
    {
        let call = Asked::ReadNames(folder.number, buf.len());
        Err(self.log.fail(call, UNSUPPORTED))
    }

    fn sync(&mut self, file: &MemoryFile) -> io::Result<()>
        ensures logged { Notes self.old (asks.Sync file.now.number)
            (said (λ _. says.Done) result) self.new }
        ensures refused { IsUnsupported self.old (said (λ _. says.Done) result) self.new }
    {
        Err(self.log.fail(Asked::Sync(file.number), UNSUPPORTED))
    }

    fn set_owner(&mut self, file: &MemoryFile, owner: u32, group: u32) -> io::Result<()>
        ensures logged { Notes self.old (asks.SetOwner file.now.number owner group)
            (said (λ _. says.Done) result) self.new }
        ensures goes { Goes self.old (asks.SetOwner file.now.number owner group)
            (said (λ _. says.Done) result) self.new }
    {
        let done = self.memory.give_rights(file.number);
        self.log
            .end(Asked::SetOwner(file.number, owner, group), done)
    }

    fn set_mode(&mut self, file: &MemoryFile, mode: u32) -> io::Result<()>
        ensures logged { Notes self.old (asks.SetMode file.now.number mode)
            (said (λ _. says.Done) result) self.new }
        ensures goes { Goes self.old (asks.SetMode file.now.number mode)
            (said (λ _. says.Done) result) self.new }
    {
        let done = self.memory.give_rights(file.number);
        self.log.end(Asked::SetMode(file.number, mode), done)
    }

    fn stat_file(&mut self, file: &MemoryFile) -> io::Result<FileInfo>
        ensures logged { Notes self.old (asks.StatFile file.now.number)
            (said says.Info result) self.new }
        ensures goes { Goes self.old (asks.StatFile file.now.number)
            (said says.Info result) self.new }
    {
        let info = self.memory.shown_open(file.number);
        self.log.tell(Asked::StatFile(file.number), info)
    }

    fn stat(&mut self, path: &str) -> io::Result<FileInfo>
        ensures logged { Notes self.old (asks.Stat path.now) (said says.Info result) self.new }
        ensures goes { Goes self.old (asks.Stat path.now) (said says.Info result) self.new }
    {
        let info = shown(&self.memory.disk, path);
        self.log.tell(Asked::Stat(path), info)
    }

    fn stat_link(&mut self, path: &str) -> io::Result<FileInfo>
        ensures logged { Notes self.old (asks.StatLink path.now) (said says.Info result) self.new }
        ensures goes { Goes self.old (asks.StatLink path.now) (said says.Info result) self.new }
    {
        let info = shown_link(&self.memory.disk, path);
        self.log.tell(Asked::StatLink(path), info)
    }

    fn rename(&mut self, from: &str, to: &str) -> io::Result<()>
        ensures logged { Notes self.old (asks.Rename from.now to.now)
            (said (λ _. says.Done) result) self.new }
        ensures goes { GoesUnlessLink self.old (asks.Rename from.now to.now)
            (said (λ _. says.Done) result) self.new }
    {
        let done = self.memory.rename(from, to);
        self.log.end(Asked::Rename(from, to), done)
    }

    fn make_folder(&mut self, path: &str) -> io::Result<()>
        ensures logged { Notes self.old (asks.MakeFolder path.now)
            (said (λ _. says.Done) result) self.new }
        ensures goes { Goes self.old (asks.MakeFolder path.now)
            (said (λ _. says.Done) result) self.new }
    {
        let done = make_folder(&mut self.memory.disk, self.memory.alloc, path);
        self.log.end(Asked::MakeFolder(path), done)
    }

    fn remove_file(&mut self, path: &str) -> io::Result<()>
        ensures logged { Notes self.old (asks.RemoveFile path.now)
            (said (λ _. says.Done) result) self.new }
        ensures goes { Goes self.old (asks.RemoveFile path.now)
            (said (λ _. says.Done) result) self.new }
    {
        let done = self.memory.remove_file(path);
        self.log.end(Asked::RemoveFile(path), done)
    }

    fn remove_folder(&mut self, path: &str) -> io::Result<()>
        ensures logged { Notes self.old (asks.RemoveFolder path.now)
            (said (λ _. says.Done) result) self.new }
        ensures goes { Goes self.old (asks.RemoveFolder path.now)
            (said (λ _. says.Done) result) self.new }
    {
        let done = self.memory.remove_folder(path);
        self.log.end(Asked::RemoveFolder(path), done)
    }

    fn symlink(&mut self, target: &str, path: &str) -> io::Result<()>
        ensures logged { Notes self.old (asks.Symlink target.now path.now)
            (said (λ _. says.Done) result) self.new }
        ensures goes { Goes self.old (asks.Symlink target.now path.now)
            (said (λ _. says.Done) result) self.new }
    {
        let done = symlink(&mut self.memory.disk, self.memory.alloc, target, path);
        self.log.end(Asked::Symlink(target, path), done)
    }

    fn hard_link(&mut self, from: &str, to: &str) -> io::Result<()>
        ensures logged { Notes self.old (asks.HardLink from.now to.now)
            (said (λ _. says.Done) result) self.new }
        ensures goes { Goes self.old (asks.HardLink from.now to.now)
            (said (λ _. says.Done) result) self.new }
    {
        let done = hard_link(&mut self.memory.disk, self.memory.alloc, from, to);
        self.log.end(Asked::HardLink(from, to), done)
    }

    fn copy_file(&mut self, from: &str, to: &str) -> io::Result<u64>
        ensures logged { Notes self.old (asks.CopyFile from.now to.now)
            (said says.Count result) self.new }
        ensures goes { Goes self.old (asks.CopyFile from.now to.now)
            (said says.Count result) self.new }
    {
        let call = Asked::CopyFile(from, to);
        match self.memory.copy(from, to) {
            Ok(count) => {
                self.log.add(call, Said::Count(count as u64));
                Ok(count as u64)
            }
            Err(stop) => Err(self.log.fail(call, stop)),
        }
    }

    fn real_path(&mut self, _alloc: Global, path: &str) -> io::Result<Text>
        ensures logged { Notes self.old (asks.RealPath path.now) (said says.Bytes result) self.new }
        ensures refused { IsUnsupported self.old (said says.Bytes result) self.new }
    {
        Err(self.log.fail(Asked::RealPath(path), UNSUPPORTED))
    }

    /// Always `Unsupported`: a system in memory keeps no times.
    fn changed(&mut self, _path: &str) -> io::Result<u64>
        ensures same { self.new ≡ self.old }
    {
        Err(io::Error::from(ErrorKind::Unsupported))
    }

    /// Nobody else is in this system, so any number will do.
    fn random(&mut self) -> io::Result<u64>
        ensures same { self.new ≡ self.old }
    {
        Ok(0)
    }

    /// Does nothing: a system in memory holds nothing open.
    fn end_walks(&mut self)
        ensures same { self.new ≡ self.old }
    {}
}
