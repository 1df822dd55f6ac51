//! Steps on temporary files and open files.
ghost use Rattle.std.specs.Prelude.{◌≡◌, ◌-◌, ◌++◌, ◌≤◌, Option, Some, IfOk, IfErr, length, take, drop};
ghost use Rattle.cacache_store.specs.declared.store.step.Step.TheVariants.{CreateTemp, Write, Persist, Read};
ghost use Rattle.cacache_disk.specs.{Apply.{readable}, Plans.{IsPlan, Refuses}};

use crate::change::{Change, Plan};
use crate::contents::Contents;
use crate::disk::Disk;
use crate::find::Wanted;
use crate::node::Node;
use crate::steps::answers::taken;
use crate::stop::Stop;
use cacache_core::bytes::Bytes;
use cacache_core::errors::Fault;
use cacache_core::text::Text;
use cacache_store::store::{Answer, PlainFile, PlainTemp};
use std::alloc::{AllocError, Global};

/// How many bytes a read may give.
fn readable(most: Option<usize>, size: usize) -> usize
    ensures same { result ≡ readable most size }
    ensures within { result ≤ size }
{
    match most {
        None => size,
        Some(most) => most.max(1).min(size),
    }
}

/// Bytes with the first `count` of others after them. If the first are empty, the others are
/// shared.
fn joined(alloc: Global, old: &Bytes, bytes: &Bytes, count: usize) -> Result<Bytes, AllocError>
    requires { count ≤ length bytes.now }
    ensures { IfOk result (λ all. all ≡ old.now ++ take count bytes.now) }
{
    if old.is_empty() {
        return Ok(bytes.share()?.front(count));
    }
    let mut all = Vec::new(alloc);
    all.extend_from_slice(old.as_slice())?;
    all.extend_from_slice(&bytes.as_slice()[..count])?;
    Bytes::new(alloc, all)
}

/// A temporary file at the path that holds these bytes.
fn temp_of(path: &Text, bytes: Bytes) -> Result<PlainTemp, AllocError>
    ensures { IfOk result (λ temp. temp ≡ record { path = path.now; bytes = Some bytes }) }
{
    Ok(PlainTemp {
        path: path.clone()?,
        bytes: Some(bytes),
    })
}

/// What an open file has left after the first `count` of these bytes.
fn rest_of(bytes: &Bytes, count: usize) -> Result<PlainFile, AllocError>
    requires { count ≤ length bytes.now }
    ensures { IfOk result (λ rest.
        rest ≡ record { left = length bytes.now - count; bytes = Some (drop count bytes.now) }) }
{
    Ok(PlainFile {
        left: bytes.len() - count,
        bytes: Some(bytes.share()?.rest(count)),
    })
}

impl Disk {
    #[tactic(auto, unfolding(crate::specs::LedTo::free))]
    pub(crate) fn create_temp(&self, path: &Text, most: Option<usize>) -> Result<Plan, Stop>
        ensures ok { IfOk result (IsPlan self.now (CreateTemp path.now) most) }
        ensures err { IfErr result (Refuses self.now (CreateTemp path.now) most) }
    {
        let names = self.at(path.as_str(), Wanted::Nothing)?;
        let contents = Contents::new(self.nodes().alloc())?;
        let temp = temp_of(path, contents.bytes()?)?;
        Ok(Plan::of(Answer::Temp(temp), Change::Put(names, Node::File(contents))))
    }

    pub(crate) fn write(
        &self,
        temp: &PlainTemp,
        bytes: &Bytes,
        most: Option<usize>,
    ) -> Result<Plan, Stop>
        ensures ok { IfOk result (IsPlan self.now (Write temp.now bytes.now) most) }
        ensures err { IfErr result (Refuses self.now (Write temp.now bytes.now) most) }
    {
        let Some(old) = &temp.bytes else {
            return Err(Stop::Fault(Fault::Closed));
        };
        let count = taken(most, bytes);
        let all = joined(self.nodes().alloc(), old, bytes, count)?;
        let grown = temp_of(&temp.path, all)?;
        Ok(Plan::of(Answer::Wrote(grown, count), Change::Nothing))
    }

    #[tactic(auto, unfolding(crate::specs::LedTo::replaceable))]
    pub(crate) fn persist(
        &self,
        temp: &PlainTemp,
        path: &Text,
        most: Option<usize>,
    ) -> Result<Plan, Stop>
        ensures ok { IfOk result (IsPlan self.now (Persist temp.now path.now) most) }
        ensures err { IfErr result (Refuses self.now (Persist temp.now path.now) most) }
    {
        let Some(bytes) = &temp.bytes else {
            return Err(Stop::Fault(Fault::Closed));
        };
        let from = self.kept(temp.path.as_str())?;
        let to = self.at(path.as_str(), Wanted::NoFolder)?;
        let contents = Contents::of(bytes.share()?)?;
        Ok(Plan::of(Answer::Done, Change::Move(from, to, contents)))
    }

    pub(crate) fn read(
        &self,
        file: &PlainFile,
        size: usize,
        most: Option<usize>,
    ) -> Result<Plan, Stop>
        ensures ok { IfOk result (IsPlan self.now (Read file.now size) most) }
        ensures err { IfErr result (Refuses self.now (Read file.now size) most) }
    {
        let Some(bytes) = &file.bytes else {
            return Err(Stop::Fault(Fault::Closed));
        };
        if file.left != bytes.len() {
            return Err(Stop::Fault(Fault::Closed));
        }
        let count = readable(most, size).min(bytes.len());
        let rest = rest_of(bytes, count)?;
        let given = bytes.share()?.front(count);
        Ok(Plan::of(Answer::Got(rest, given), Change::Nothing))
    }
}
