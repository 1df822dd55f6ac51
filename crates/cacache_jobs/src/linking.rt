//! Links: reads the target to its end, and makes a link to it the content.
ghost use Rattle.std.specs.Prelude.{◌≡◌};
ghost use Rattle.cacache_store.specs.Plain.{plain_answer};
ghost use Rattle.cacache_calls.specs.{Answers.{length_in}, Common.{go_on, fails}, Linking.{after_size as after_size_of}, Steps.{content_path as content_path_of}, State.{opening_file, to_link, linking as linking_state}, Storing.{link as link_of}};
ghost use Rattle.cacache_jobs.specs.{JobStates.{Leads}, LeadsOn.{LeadsHashed, LeadsSizing}};

use crate::brought::told_size;
use crate::hashing::Hashing;
use crate::phase::Phase;
use crate::places::content_place;
use crate::stage::{Stage, Then};
use cacache_calls::{Commit, Link, Target};
use cacache_core::errors;
use cacache_core::hasher::Hasher;
use cacache_core::integrity::Integrity;
use cacache_core::keeping::beside;
use cacache_core::paths::Place;
use cacache_core::text::Text;
use cacache_store::store::{Answer, FileHandle, Step, TempHandle};
use std::alloc::Global;

/// Makes the content's folder, once the target was read to its end and has this integrity and size.
pub(crate) fn link_target<F: FileHandle, T: TempHandle>(
    alloc: Global,
    target: Target<u128>,
    computed: Integrity,
    count: usize,
) -> errors::Result<Phase<F, T>>
    ensures { LeadsHashed F.seen T.seen target computed count result }
{
    let (commit, path) = target.into_commit(computed, count);
    link(alloc, commit, path)
}

/// Makes the content's folder, once the target was read to its end. A link to it becomes the content of this commit.
pub(crate) fn link<F: FileHandle, T: TempHandle>(
    alloc: Global,
    commit: Commit,
    target: Text,
) -> errors::Result<Phase<F, T>>
    ensures { Leads F.seen T.seen result (link_of commit target) }
{
    let (commit, target) = beside(Box::new(alloc, commit), target)?;
    let place = content_place(alloc, commit.cache.as_str(), &commit.computed)?;
    let Place { folder, path } = place;
    Ok(Phase::Wanting(
        Stage::Doing(Then::Symlink(commit, target, path)),
        Step::MakeDirs(folder),
    ))
}

/// Begins a link: asks for the size of its target.
pub(crate) fn start<F: FileHandle, T: TempHandle>(
    alloc: Global,
    cache: &str,
    base: &str,
    link: Link,
) -> errors::Result<Phase<F, T>>
    ensures { LeadsSizing F.seen T.seen cache.now base.now link result }
{
    let Link {
        key,
        target,
        moment,
        options,
    } = link;
    let target = Target::new(alloc, base, cache, key, target, moment, options)?;
    let target = Box::new(alloc, target)?;
    let asked = target.path.clone()?;
    Ok(Phase::Wanting(Stage::Sizing(target), Step::Size(asked)))
}

/// Opens the target to hash it.
fn open_target<F: FileHandle, T: TempHandle>(
    alloc: Global,
    target: Target<u128>,
) -> errors::Result<Phase<F, T>>
    ensures { Leads F.seen T.seen result (opening_file (to_link target)) }
{
    let path = target.path.clone()?;
    let hasher = Hasher::new(target.options.algorithm);
    let hashing = Box::new(alloc, Hashing::Link(hasher, target))?;
    Ok(Phase::Wanting(Stage::Opening(hashing), Step::Open(path)))
}

/// Goes on after the step that finds the target's size: opens the target to hash it.
#[tactic(auto, using(crate::proofs::Refusing::ends_refused))]
pub(crate) fn after_size<F: FileHandle, T: TempHandle>(
    alloc: Global,
    target: Box<Target<u128>>,
    answer: Answer<F, T>,
) -> errors::Result<Phase<F, T>>
    ensures { Leads F.seen T.seen result
        (go_on (length_in (plain_answer F.seen T.seen answer)) fails (after_size_of target.value)) }
{
    let size = told_size(alloc, &target.path, answer)?;
    open_target(alloc, Box::into_inner(target).with_size(size as usize))
}

/// Makes the link to the target at the content's path, once the content's folder is there.
pub(crate) fn symlink<F: FileHandle, T: TempHandle>(
    commit: Box<Commit>,
    target: Text,
    path: Text,
) -> errors::Result<Phase<F, T>>
    ensures { path ≡ content_path_of commit.value.cache commit.value.computed
        → Leads F.seen T.seen result (linking_state commit.value target) }
{
    let named = target.clone()?;
    Ok(Phase::Wanting(Stage::Linking(commit, named), Step::Symlink(target, path)))
}
