//! What calls do with open files of a system in memory.
ghost use Rattle.std.specs.{Prelude.{◌≡◌, ◌+◌, ◌<◌, ◌^◌, IfOk, IfErr, OnOk, OnErr, IsSomeAnd, length, slice_get, take}, Counts.{IsPrefixLen}, Io.{StartsWith, appended_bytes}};
ghost use Rattle.cacache_system_model.specs.{Machine.{node_of}, memory.Files.{place_of, Fails, HasLeft, HasRead, IsFile, IsOpen, IsSame, Lengthens, Reads, ShownOpen, Writes}};

use crate::memory::files::{Place, grown, longer};
use crate::memory::state::Memory;
use crate::memory::tree::{info_of, with_file};
use cacache_core::errors::Fault;
use cacache_disk::{Node, Stop};
use cacache_system::FileInfo;
use std::alloc::AllocError;

/// Why a call is refused on a number under which no file is open.
const BAD_NUMBER: Stop = Stop::Fault(Fault::Device);

impl Memory {
    /// The bytes that an open file has left to read.
    fn rest(&self, number: u64) -> Result<&[u8], Stop>
        ensures ok { IfOk result (λ rest. HasLeft number rest.now self.now) }
        ensures err { IfErr result (λ why. Fails number self.now why self.now) }
    {
        match self.files.get(number as usize) {
            Some(file) => file.rest(&self.disk),
            None => Err(BAD_NUMBER),
        }
    }

    /// Goes on in an open file by so many bytes.
    #[tactic(auto, using(crate::proofs::memory::Openings::gone_on))]
    fn go_on(&mut self, number: u64, count: usize)
        requires { IsSomeAnd (slice_get self.old.files.items number) (λ file.
            file.read + count < 2 ^ 64) }
        ensures { IsSomeAnd (slice_get self.old.files.items number) (HasRead number count self.old
            self.new) }
    {
        if let Some(file) = self.files.get_mut(number as usize) {
            file.read += count;
        }
    }

    /// Reads the next bytes of an open file into the front of `buf`.
    pub(crate) fn read_next(&mut self, number: u64, buf: &mut [u8]) -> Result<usize, Stop>
        ensures reads { Reads (take (length buf.old)) number (λ count. take count buf.new) self.old
            result self.new }
        ensures bound { IfOk result (λ count. IsPrefixLen count buf.new) }
    {
        let rest = self.rest(number)?;
        let count = buf.len().min(rest.len());
        buf[..count].copy_from_slice(&rest[..count]);
        self.go_on(number, count);
        Ok(count)
    }

    /// Appends all that is left of an open file to `bytes`.
    pub(crate) fn read_all(&mut self, number: u64, bytes: &mut Vec<u8>) -> Result<usize, Stop>
        ensures reads { Reads (λ rest. rest) number
            (λ _. appended_bytes bytes.old.items bytes.new.items) self.old result self.new }
        ensures appends { StartsWith bytes.new.items bytes.old.items }
    {
        let rest = self.rest(number)?;
        let count = rest.len();
        bytes.extend_from_slice(rest)?;
        self.go_on(number, count);
        Ok(count)
    }

    /// Where an open file is, if it is a file.
    fn file_place(&self, number: u64) -> Result<Place, Stop>
        ensures ok { IfOk result (λ place. IsSomeAnd (slice_get self.now.files.items number) (λ file.
            (place_of place ≡ place_of file.place)
            × IsFile (node_of self.now.disk (place_of place)))) }
        ensures err { IfErr result (λ why. Fails number self.now why self.now) }
    {
        let Some(file) = self.files.get(number as usize) else {
            return Err(BAD_NUMBER);
        };
        match file.node(&self.disk) {
            Some(Node::File(_)) => Ok(file.place.clone()?),
            _ => Err(Stop::Fault(Fault::IsADirectory)),
        }
    }

    /// Puts bytes at the end of a file, wherever it is.
    fn lengthen(&mut self, place: Place, more: &[u8]) -> Result<(), AllocError>
        requires { IsFile (node_of self.old.disk (place_of place)) }
        ensures ok { OnOk result (Lengthens (place_of place) more.now self.old self.new) }
        ensures err { OnErr result (IsSame self.old self.new) }
    {
        match place {
            Place::Under(names) => {
                let contents = longer(self.alloc, self.disk.nodes().node(&names), more)?;
                self.disk = with_file(&self.disk, names, contents)?;
                Ok(())
            }
            Place::Nameless(mark, _) => {
                self.files = grown(self.alloc, &self.files, mark, more)?;
                Ok(())
            }
        }
    }

    /// Puts bytes at the end of an open file.
    pub(crate) fn append(&mut self, number: u64, more: &[u8]) -> Result<usize, Stop>
        ensures { Writes more.now number self.old result self.new }
    {
        let place = self.file_place(number)?;
        self.lengthen(place, more)?;
        Ok(more.len())
    }

    /// Gives an open file an owner or a mode, of which nothing is kept.
    pub(crate) fn give_rights(&self, number: u64) -> Result<(), Stop>
        ensures { IsOpen number self.now result }
    {
        match self.files.get(number as usize) {
            Some(_) => Ok(()),
            None => Err(BAD_NUMBER),
        }
    }

    /// What an open file is. One that is nowhere is said to be a folder.
    pub(crate) fn shown_open(&self, number: u64) -> Result<FileInfo, Stop>
        ensures { ShownOpen number self.now result }
    {
        let Some(file) = self.files.get(number as usize) else {
            return Err(BAD_NUMBER);
        };
        match file.node(&self.disk) {
            None => Ok(info_of(&Node::Folder)),
            Some(node) => Ok(info_of(node)),
        }
    }
}
