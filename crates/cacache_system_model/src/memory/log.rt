//! A log of calls that only clauses see. It takes no memory, so that none can be refused.
ghost use Rattle.std.specs.{Prelude.{◌≡◌, ◌++◌, ◌∷◌, [], List}, Borrow.{ftrue}, Coded.{coded_list}};
ghost use Rattle.cacache_system.specs.declared.call.CallItem.{CallItem};
ghost use Rattle.cacache_system.specs.contracts.call.CallItem as code;
ghost use Rattle.cacache_system_model.specs.memory.Stopping.{kind_of};

use crate::memory::state::MemoryFile;
use cacache_core::errors::Fault;
use cacache_disk::Stop;
use cacache_system::FileInfo;
use std::io;
use std::io::ErrorKind;
use std::marker::Model;

/// A call, with the texts and bytes of its caller.
#[derive(Clone, Copy)]
pub(crate) enum Asked<'a> {
    OpenToRead(&'a str),
    CreateNew(&'a str, u32),
    OpenToAppend(&'a str),
    OpenFolder(&'a str),
    Read(u64, usize),
    ReadRest(u64),
    Write(u64, &'a [u8]),
    ReadNames(u64, usize),
    Sync(u64),
    SetOwner(u64, u32, u32),
    SetMode(u64, u32),
    StatFile(u64),
    Stat(&'a str),
    StatLink(&'a str),
    Rename(&'a str, &'a str),
    MakeFolder(&'a str),
    RemoveFile(&'a str),
    RemoveFolder(&'a str),
    Symlink(&'a str, &'a str),
    HardLink(&'a str, &'a str),
    CopyFile(&'a str, &'a str),
    RealPath(&'a str),
}

/// What is said to a call.
#[derive(Clone, Copy)]
pub(crate) enum Said<'a> {
    Done,
    Opened(u64),
    Count(u64),
    Bytes(&'a [u8]),
    Info(FileInfo),
    Failed(ErrorKind),
}

/// A call, and what was said.
#[derive(Clone, Copy)]
pub(crate) struct Note<'a> {
    pub(crate) call: Asked<'a>,
    pub(crate) said: Said<'a>,
}

/// The kind of error that says why a call isn't done.
fn kind_of(stop: Stop) -> ErrorKind
    ensures { result ≡ kind_of stop }
{
    let Stop::Fault(fault) = stop else {
        return ErrorKind::OutOfMemory;
    };
    match fault {
        Fault::NotFound => ErrorKind::NotFound,
        Fault::AlreadyExists => ErrorKind::AlreadyExists,
        Fault::NotADirectory => ErrorKind::NotADirectory,
        Fault::IsADirectory => ErrorKind::IsADirectory,
        Fault::NotEmpty => ErrorKind::DirectoryNotEmpty,
        Fault::Unsupported => ErrorKind::Unsupported,
        Fault::InvalidInput => ErrorKind::InvalidInput,
        Fault::WriteZero => ErrorKind::WriteZero,
        Fault::TooDeep => ErrorKind::FilesystemLoop,
        _ => ErrorKind::Other,
    }
}

/// The calls of a log that has some.
#[derive(Drop)]
pub(crate) struct LoggedCalls {
    ghost items: { List CallItem } by { coded_list code.the_row.coded },
}

impl Model for LoggedCalls {
    ghost also_owns = { λ _. ftrue };
}

/// All calls so far, oldest first.
#[derive(Drop)]
pub struct Log {
    calls: Option<LoggedCalls>,
}

impl Log {
    ghost use Rattle.std.specs.Prelude.{IsErr};
    ghost use Rattle.std_io.specs.IoError.{error_kind};
    ghost use Rattle.cacache_system.specs.Seen.{item, said};
    ghost use Rattle.cacache_system.specs.declared.call.CallResult.TheVariants as says;
    ghost use Rattle.cacache_system_model.specs.memory.Noted.{items_of, noted, asked, told};
    ghost use Rattle.cacache_system_model.specs.memory.Stopping.{kind_of, outcome};

    /// No calls.
    pub(crate) fn new() -> Log
        ensures { items_of result ≡ [] }
    {
        Log { calls: None }
    }

    /// The calls with one more.
    fn with(&self, _note: &Note<'_>) -> LoggedCalls
        ensures { result.items ≡ items_of self.now ++ noted _note.now ∷ [] }
    {
        LoggedCalls {}
    }

    /// One call more.
    pub(crate) fn add(&mut self, call: Asked<'_>, said: Said<'_>)
        ensures { items_of self.new
            ≡ items_of self.old ++ item (asked call.entry) (told said.entry) ∷ [] }
    {
        let note = Note { call, said };
        let calls = self.with(&note);
        self.calls = Some(calls);
    }

    /// One more call, which failed.
    pub(crate) fn fail(&mut self, call: Asked<'_>, stop: Stop) -> io::Error
        ensures logged { items_of self.new
            ≡ items_of self.old ++ item (asked call.entry) (says.Failed (error_kind result)) ∷ [] }
        ensures kind { error_kind result ≡ kind_of stop }
    {
        let why = kind_of(stop);
        self.add(call, Said::Failed(why));
        io::Error::from(why)
    }

    /// One more call, which was to do something.
    pub(crate) fn end(&mut self, call: Asked<'_>, done: Result<(), Stop>) -> io::Result<()>
        ensures logged { items_of self.new
            ≡ items_of self.old ++ item (asked call.entry) (said (λ _. says.Done) result) ∷ [] }
        ensures told { said (λ _. says.Done) result ≡ outcome (λ _. says.Done) done }
    {
        match done {
            Ok(()) => {
                self.add(call, Said::Done);
                Ok(())
            }
            Err(stop) => Err(self.fail(call, stop)),
        }
    }

    /// One more call, which asked what is somewhere.
    pub(crate) fn tell(
        &mut self,
        call: Asked<'_>,
        info: Result<FileInfo, Stop>,
    ) -> io::Result<FileInfo>
        ensures logged { items_of self.new
            ≡ items_of self.old ++ item (asked call.entry) (said says.Info result) ∷ [] }
        ensures told { said says.Info result ≡ outcome says.Info info }
    {
        match info {
            Ok(info) => {
                self.add(call, Said::Info(info));
                Ok(info)
            }
            Err(stop) => Err(self.fail(call, stop)),
        }
    }

    /// One more call, which was to open a file.
    pub(crate) fn open(
        &mut self,
        call: Asked<'_>,
        opened: Result<u64, Stop>,
    ) -> io::Result<MemoryFile>
        ensures logged { items_of self.new ≡ items_of self.old
            ++ item (asked call.entry) (said (λ file. says.Opened file.number) result) ∷ [] }
        ensures told { said (λ file. says.Opened file.number) result
            ≡ outcome says.Opened opened }
    {
        match opened {
            Ok(number) => {
                self.add(call, Said::Opened(number));
                Ok(MemoryFile { number })
            }
            Err(stop) => Err(self.fail(call, stop)),
        }
    }
}
