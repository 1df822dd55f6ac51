//! How a call begins.
ghost use Rattle.std.specs.Prelude.{◌≡◌, ◌<◌, ◌+◌, ◌^◌, ℕ, IfOk, IfErr, OnOk, IsTrue, Some, None, codes, slice_get, vec_len, vec_capacity};
ghost use Rattle.cacache_calls.specs.Table.{opening};
ghost use Rattle.cacache_jobs.specs.{Jobs.{can_go_on}, JobStates.{site_of}};
ghost use Rattle.cacache_world.specs.{Turned.{JobStands}, WorldKept.{setup_of}, Faults.{MayAsk, IsUnready}};

use crate::admitting::admit;
use crate::callers::{check_has_none, make_room};
use crate::event::WorldFault;
use crate::turn::Call;
use cacache_calls::Command;
use cacache_core::bytes::Bytes;
use cacache_core::text::Text;
use cacache_history::Record;
use cacache_jobs::Job;
use std::alloc::{AllocError, Global};

/// The job of a command.
fn start(alloc: Global, cache: &Text, number: u64, command: &Command) -> Result<Call, AllocError>
    ensures ready { IfOk result (λ job. IsTrue (can_go_on job)) }
    ensures opens { IfOk result (λ job.
        JobStands job (opening (site_of cache.now (codes "/") number) command.now)) }
{
    Job::try_new(alloc, cache.as_str(), "/", command.copy()?, number)
}

/// The job of a command that a caller may begin, and room for one more record.
pub(crate) fn prepare(
    alloc: Global,
    cache: &Text,
    outside: &[(Text, Bytes)],
    calls: &Vec<Option<Call>>,
    records: &mut Vec<Record>,
    number: u64,
    caller: usize,
    command: &Command,
) -> Result<Call, WorldFault>
    ensures free { OnOk result (slice_get calls.now.items caller ≡ Some None) }
    ensures within { OnOk result (caller < vec_len calls.now) }
    ensures may { OnOk result ((callers n : ℕ)
        → MayAsk (setup_of cache.now outside.now callers) n command.now) }
    ensures counts { OnOk result (number + 1 < 2 ^ 64) }
    ensures ready { IfOk result (λ job. IsTrue (can_go_on job)) }
    ensures opens { IfOk result (λ job.
        JobStands job (opening (site_of cache.now (codes "/") number) command.now)) }
    ensures items { records.new.items ≡ records.old.items }
    ensures room { OnOk result (vec_len records.new < vec_capacity records.new) }
    ensures why { IfErr result (λ fault. (callers : ℕ) → IsUnready (vec_len calls.now)
        calls.now.items caller (setup_of cache.now outside.now callers) command.now fault) }
{
    match check_has_none(calls, caller) {
        Ok(()) => {}
        Err(fault) => return Err(fault),
    }
    match admit(alloc, cache.as_str(), outside, command) {
        Ok(()) => {}
        Err(fault) => return Err(fault),
    }
    if number == u64::MAX {
        return Err(WorldFault::OutOfMemory);
    }
    if make_room(records).is_err() {
        return Err(WorldFault::OutOfMemory);
    }
    match start(alloc, cache, number, command) {
        Ok(job) => Ok(job),
        Err(_) => Err(WorldFault::OutOfMemory),
    }
}
