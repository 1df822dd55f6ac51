//! The callers' calls, and the list of what happened.
ghost use Rattle.std.specs.Prelude.{◌≡◌, ◌<◌, ◌++◌, ◌∷◌, [], IfOk, replicate, vec_len, vec_capacity, slice_get, slice_set, option_copied, Some, None, OnOk, IfErr};
ghost use Rattle.cacache_world.specs.{WorldKept.{HasJob, IsLifted}, Faults.{IsIdleFault, IsBusyFault}};

use crate::event::WorldFault;
use crate::turn::Call;
use cacache_core::keeping::let_go;
use cacache_history::Record;
use std::alloc::{AllocError, Global};

/// So many callers without a call.
pub(crate) fn idle(alloc: Global, callers: usize) -> Result<Vec<Option<Call>>, AllocError>
    ensures items { IfOk result (λ calls. calls.items ≡ replicate callers None) }
    ensures len { IfOk result (λ calls. vec_len calls ≡ callers) }
{
    let mut calls: Vec<Option<Call>> = Vec::new(alloc);
    for _ in 0..callers {
        calls.push(None)?;
    }
    Ok(calls)
}

/// Room for one more record.
pub(crate) fn make_room(records: &mut Vec<Record>) -> Result<(), AllocError>
    ensures items { records.new.items ≡ records.old.items }
    ensures room { OnOk result (vec_len records.new < vec_capacity records.new) }
{
    records.reserve(1)?;
    Ok(())
}

/// One more record, for which there is room.
pub(crate) fn note(records: &mut Vec<Record>, last: Record)
    requires { vec_len records.old < vec_capacity records.old }
    ensures { records.new.items ≡ records.old.items ++ last ∷ [] }
{
    let_go(records.push(last));
}

/// Puts a call in its caller's place, or none.
pub(crate) fn place(calls: &mut Vec<Option<Call>>, caller: usize, call: Option<Call>)
    requires { caller < vec_len calls.old }
    ensures items { calls.new.items ≡ slice_set calls.old.items caller call }
    ensures len { vec_len calls.new ≡ vec_len calls.old }
{
    calls[caller] = call;
}

/// What a caller has, if there is such a caller.
fn call_at(calls: &Vec<Option<Call>>, caller: usize) -> Option<&Option<Call>>
    ensures { option_copied result ≡ slice_get calls.now.items caller }
{
    calls.get(caller)
}

/// Checks that a caller has a call.
pub(crate) fn check_has_call(calls: &Vec<Option<Call>>, caller: usize) -> Result<(), WorldFault>
    ensures held { OnOk result (HasJob calls.now.items caller) }
    ensures within { OnOk result (caller < vec_len calls.now) }
    ensures why { IfErr result (λ fault.
        IsIdleFault (vec_len calls.now) calls.now.items caller fault) }
{
    match call_at(calls, caller) {
        None => Err(WorldFault::NoCaller),
        Some(None) => Err(WorldFault::Idle),
        Some(Some(_)) => Ok(()),
    }
}

/// Checks that a caller has no call.
pub(crate) fn check_has_none(calls: &Vec<Option<Call>>, caller: usize) -> Result<(), WorldFault>
    ensures free { OnOk result (slice_get calls.now.items caller ≡ Some None) }
    ensures within { OnOk result (caller < vec_len calls.now) }
    ensures why { IfErr result (λ fault.
        IsBusyFault (vec_len calls.now) calls.now.items caller fault) }
{
    match call_at(calls, caller) {
        None => Err(WorldFault::NoCaller),
        Some(Some(_)) => Err(WorldFault::Busy),
        Some(None) => Ok(()),
    }
}

/// Takes a caller's call from its place.
pub(crate) fn lift(calls: &mut Vec<Option<Call>>, caller: usize) -> Call
    requires held { HasJob calls.old.items caller }
    requires within { caller < vec_len calls.old }
    ensures lifted { IsLifted calls.old.items caller result calls.new.items }
    ensures len { vec_len calls.new ≡ vec_len calls.old }
{
    match std::mem::replace(&mut calls[caller], None) {
        Some(call) => call,
        None => unreachable!(),
    }
}
