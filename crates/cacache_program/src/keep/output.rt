//! What is printed for what the calls give. Of these texts, memory alone can fail.
ghost use Rattle.std.specs.Prelude.{◌≡◌, ◌⊎◌, IfOk, length, map};
ghost use Rattle.cacache.specs.Entries.{found_view};
ghost use Rattle.cacache_program.specs.{WordPrune.{dropped_text as text_of_dropped, pruned_status}, KeepValues.{status_of_verdict, text_of_collected, text_of_collection, text_of_compacted, text_of_planned, text_of_prune_plan, text_of_pruned, text_of_repaired, text_of_swept, text_of_verdict}};

use crate::counts::counts_text;
use crate::errors::{Errors, tell_failed_call};
use crate::keep::naming::{entry_lines, odd_lines};
use cacache::{Metadata, Result};
use cacache_core::keeping::let_go;
use cacache_keep::{
    Collected, Collection, Compacted, Planned, PrunePlan, Pruned, Repaired, Swept, Verdict,
};
use std::alloc::Global;
use std::io::{ErrorKind, Write};

/// What is printed for a verification.
pub(crate) fn verdict_text(alloc: Global, verdict: &Verdict) -> Result<Vec<u8>>
    ensures { IfOk result (λ text. text.items ≡ text_of_verdict verdict.now) }
{
    let (good, damaged) = (verdict.good, verdict.damaged.len() as u64);
    let (dangling, strange) = (verdict.dangling.len() as u64, verdict.strange.len() as u64);
    let counts = [
        ("good", good),
        ("damaged", damaged),
        ("dangling", dangling),
        ("strange", strange),
    ];
    counts_text(alloc, &counts)
}

/// The status of a verification: 0 if all is good, otherwise 3.
pub(crate) fn status_of(verdict: &Verdict) -> u8
    ensures status { result ≡ status_of_verdict verdict.now }
    ensures known { (result ≡ 0) ⊎ (result ≡ 3) }
{
    let is_whole = verdict.damaged.is_empty() && verdict.dangling.is_empty();
    if is_whole && verdict.strange.is_empty() {
        return 0;
    }
    3
}

/// What is printed for a collection.
pub(crate) fn collected_text(alloc: Global, collected: &Collected) -> Result<Vec<u8>>
    ensures { IfOk result (λ text. text.items ≡ text_of_collected collected.now) }
{
    let (kept, dropped) = (collected.kept, collected.dropped.len() as u64);
    counts_text(alloc, &[("kept", kept), ("dropped", dropped)])
}

/// What is printed for a collection with options.
pub(crate) fn collection_text(alloc: Global, collection: Collection) -> Result<Vec<u8>>
    ensures { IfOk result (λ text. text.items ≡ text_of_collection collection) }
{
    let counts = [
        ("kept", collection.kept),
        ("dropped", collection.dropped),
        ("young", collection.young),
        ("gone", collection.gone),
    ];
    counts_text(alloc, &counts)
}

/// What is printed of a plan: its counts, and a line for each bucket with an odd line.
pub(crate) fn planned_text(alloc: Global, planned: Planned) -> Result<Vec<u8>>
    ensures { IfOk result (λ text. text.items ≡ text_of_planned planned) }
{
    let Planned { kept, unused, odd } = planned;
    let mut text = counts_text(alloc, &[("kept", kept), ("unused", unused.len() as u64)])?;
    text.extend_from_slice(&odd_lines(alloc, odd)?)?;
    Ok(text)
}

/// What is printed for a sweep.
pub(crate) fn swept_text(alloc: Global, swept: &Swept) -> Result<Vec<u8>>
    ensures { IfOk result (λ text. text.items ≡ text_of_swept swept.now) }
{
    let (files, bytes, strange) = (swept.files, swept.bytes, swept.strange.len() as u64);
    let counts = [("files", files), ("bytes", bytes), ("strange", strange)];
    counts_text(alloc, &counts)
}

/// What is printed for a repair.
pub(crate) fn repaired_text(alloc: Global, repaired: &Repaired) -> Result<Vec<u8>>
    ensures { IfOk result (λ text. text.items ≡ text_of_repaired repaired.now) }
{
    let (damaged, dangling) = (repaired.damaged.len(), repaired.dangling.len());
    let counts = [("damaged", damaged as u64), ("dangling", dangling as u64)];
    counts_text(alloc, &counts)
}

/// What is printed for a compaction.
pub(crate) fn compacted_text(alloc: Global, compacted: &Compacted) -> Result<Vec<u8>>
    ensures { IfOk result (λ text. text.items ≡ text_of_compacted compacted.now) }
{
    let (buckets, bytes) = (compacted.buckets, compacted.bytes);
    counts_text(alloc, &[("buckets", buckets), ("bytes", bytes)])
}

/// What is printed of a pruning or its plan first: its counts, and a line for each entry that is dropped.
fn dropped_text(alloc: Global, before: u64, after: u64, dropped: Vec<Metadata>) -> Result<Vec<u8>>
    ensures { IfOk result (λ text. text.items
        ≡ text_of_dropped before after (map found_view dropped.items)) }
{
    let counts = [
        ("before", before),
        ("after", after),
        ("dropped", dropped.len() as u64),
    ];
    let mut text = counts_text(alloc, &counts)?;
    text.extend_from_slice(&entry_lines(alloc, "dropped ", dropped)?)?;
    Ok(text)
}

/// What is printed of a plan of a pruning: after that a line for each bucket with an odd line.
pub(crate) fn prune_plan_text(alloc: Global, plan: PrunePlan) -> Result<Vec<u8>>
    ensures { IfOk result (λ text. text.items ≡ text_of_prune_plan plan) }
{
    let PrunePlan {
        dropped,
        kept,
        bytes_before,
        bytes_after,
        odd,
    } = plan;
    let_go(kept);
    let odd = odd_lines(alloc, odd)?;
    let mut text = dropped_text(alloc, bytes_before, bytes_after, dropped)?;
    text.extend_from_slice(&odd)?;
    Ok(text)
}

/// The status of a pruning: 0 if no entry is left and no error ended the collection, otherwise 1. The error is printed,
/// and this may be its reason.
pub(crate) fn status_of_pruned<E: Write>(
    pruned: &Pruned,
    errors: &mut Errors<E>,
    reason: Option<ErrorKind>,
) -> u8
    ensures status { result ≡ pruned_status (length pruned.now.left.items) pruned.now.collected }
    ensures known { (result ≡ 0) ⊎ (result ≡ 1) }
    ensures quiet { result ≡ 0 → errors.new ≡ errors.old }
{
    match &pruned.collected {
        Ok(_) if pruned.left.is_empty() => 0,
        Ok(_) => 1,
        Err(error) => tell_failed_call(errors, error, reason),
    }
}

/// What is printed for a pruning: after the same lines one for each entry that is left.
pub(crate) fn pruned_text(alloc: Global, pruned: Pruned) -> Result<Vec<u8>>
    ensures { IfOk result (λ text. text.items ≡ text_of_pruned pruned) }
{
    let Pruned {
        dropped,
        left,
        bytes_before,
        bytes_after,
        collected: _,
    } = pruned;
    let left = entry_lines(alloc, "left ", left)?;
    let mut text = dropped_text(alloc, bytes_before, bytes_after, dropped)?;
    text.extend_from_slice(&left)?;
    Ok(text)
}
