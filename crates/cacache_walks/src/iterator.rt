//! A listing that walks on demand.
ghost use Rattle.std.specs.{Prelude.{◌≡◌, ◌<◌, ◌≤◌, ℕ, List, [], Option, Some, None, IfOk, OnOk, IfErr}, Borrow.{sem}, Iterator.{at_most}};
ghost use Rattle.cacache_core.specs.declared.errors.Error.TheVariants.{OutOfMemory};
ghost use Rattle.cacache_store.specs.declared.store.log.LogItem.{LogItem};
ghost use Rattle.cacache_calls.specs.{Runs.{plain_item}, State.{Item}};
ghost use Rattle.cacache_walks.specs.{Listing.{EnvRests}, Iterating.{Filled, Gave, IsListing, KeepsEnv, NextGives, Shortens, VisitGives, item_view, left}};

use crate::walk::Walk;
use cacache_calls::{Found, Visit};
use cacache_core::errors::{self, Error};
use cacache_core::paths::{INDEX_AREA, join};
use cacache_entry::Metadata;
use cacache_store::env::Env;
use cacache_store::store::Store;
use std::mem::swap;

/// The entries of a cache, one after another: each key once, if its lookup finds an entry. The
/// listing borrows the environment, and makes its steps when its items are requested. It keeps no
/// item that it has returned.
///
/// For a folder or a bucket that can't be read, it returns one item `IoError` and goes on.
/// `OutOfMemory` is the last item.
#[derive(Drop)]
pub struct Ls<'a, S, C, N> {
    env: &'a mut Env<S, C, N>,
    walk: Walk,
    /// The next visit, or `None` once the walk is over.
    visit: Option<Visit>,
    /// The items of the last visit that weren't returned yet, in reverse order.
    ready: Vec<Result<Found, Error>>,
}

/// An item as it is returned to the caller.
fn metadata_of(item: Result<Found, Error>) -> errors::Result<Metadata>
    ensures { item_view result ≡ plain_item item }
{
    match item {
        Ok(found) => Ok(found.into_metadata()),
        Err(error) => Err(error),
    }
}

/// Ends the walk of a store if it is over.
fn end_walk<S: Store>(store: &mut S, is_over: bool)
    ensures { S.log store.new ≡ S.log store.old }
{
    if is_over {
        store.end_walks();
    }
}

impl<'a, S: Store, C, N> Ls<'a, S, C, N> {
    /// A listing of this cache that hasn't made a step yet.
    ///
    /// # Errors
    ///
    /// Only `OutOfMemory`.
    pub(crate) fn new(env: &'a mut Env<S, C, N>, cache: &str) -> errors::Result<Ls<'a, S, C, N>>
        ensures* rests { sem 𝓛 (EnvRests S.row C.row N.row env.entry result) }
        ensures lends { IfOk result (λ ls. ls.env.ghost_name ≡ env.entry.ghost_name) }
        ensures before { IfOk result (λ ls. ls.env.now ≡ env.old) }
        ensures gave { IfOk result (λ ls. Gave S.log cache.now (S.log env.old.store) ls []) }
        ensures memory { IfErr result (λ e. e ≡ OutOfMemory) }
    {
        let alloc = env.alloc;
        let (walk, visit) = Walk::new(alloc, false, join(alloc, cache, INDEX_AREA)?)?;
        Ok(Ls {
            env,
            walk,
            visit: Some(visit),
            ready: Vec::new(alloc),
        })
    }

    /// Ends the listing, and returns its environment as the listing left it.
    pub fn close(self) -> &'a mut Env<S, C, N>
        ensures same { result.ghost_name ≡ self.entry.env.ghost_name }
        ensures left { result.now ≡ self.entry.env.now }
    {
        let Ls {
            env,
            walk: _walk,
            visit: _visit,
            ready: _ready,
        } = self;
        env
    }

    /// Makes a visit, after which items may be ready.
    fn go_on(&mut self, visit: Visit) -> errors::Result<()>
        requires { self.old.ready.items ≡ [] }
        ensures keeps { KeepsEnv self.old self.new }
        ensures went { VisitGives S.log visit self.old result self.new }
        ensures shrinks { OnOk result (Shortens S.log visit self.old self.new) }
        ensures rests { IfErr result (λ e.
            (self.new.visit ≡ self.old.visit) × (self.new.ready.items ≡ [])) }
    {
        let Ok(step) = visit.step() else {
            return Err(Error::OutOfMemory);
        };
        let answer = self.env.store.step(step);
        match self.walk.resume(self.env.alloc, visit, answer) {
            Ok(next) => {
                end_walk(&mut self.env.store, next.is_none());
                self.visit = next;
            }
            Err(error) => return Err(error),
        }
        swap(&mut self.ready, &mut self.walk.items);
        self.ready.reverse();
        Ok(())
    }

    /// Makes visits until an item is ready, or the walk is over.
    fn fill(&mut self) -> errors::Result<()>
        requires { IsListing S.log self.old }
        ensures keeps { KeepsEnv self.old self.new }
        ensures filled { (cache : List ℕ) (old : Option (List LogItem)) (given : List Item)
            → Gave S.log cache old self.old given → Filled S.log result cache old self.new given }
        ensures listing { OnOk result (IsListing S.log self.new) }
        ensures fewer { OnOk result (left self.new ≤ left self.old) }
        ensures rests { IfErr result (λ e. (left self.new ≡ 0) × (0 < left self.old)) }
    {
        'visits: while self.ready.is_empty() {
            match self.visit.take() {
                Some(visit) => match self.go_on(visit) {
                    Ok(()) => {}
                    Err(error) => return Err(error),
                },
                None => return Ok(()),
            }
        }
        Ok(())
    }
}

impl<'a, S: Store, C, N> Iterator for Ls<'a, S, C, N> {
    type Item = errors::Result<Metadata>;

    ghost can_next = { IsListing S.log };

    ghost next_gives = { NextGives S.log };

    ghost remaining = { λ ls. at_most (left ls) };

    /// Returns the next item. Makes steps until there is one.
    fn next(&mut self) -> Option<errors::Result<Metadata>> {
        if let Err(error) = self.fill() {
            return Some(Err(error));
        }
        match self.ready.pop() {
            Some(item) => Some(metadata_of(item)),
            None => None,
        }
    }
}
