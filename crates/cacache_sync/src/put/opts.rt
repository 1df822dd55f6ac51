//! What a writer may say about a content and its entry.
ghost use Rattle.std.specs.Prelude.{◌≡◌, None, Some, IfOk, option_map};
ghost use Rattle.serde_json.specs.View.{view};
ghost use Rattle.cacache_core.specs.Integrity.{IsIntegrity};
ghost use Rattle.cacache_entry.specs.FittingEntries.{EachIsByte, IsJson};
ghost use Rattle.cacache_sync.specs.put.KeyedWriters.{nothing_said, options_of, OpensKeyed};

use crate::put::writer::{SyncWriter, open_writer};
use cacache_calls::{Json, Options, look_through, look_through_bytes};
use cacache_core::bytes::Bytes;
use cacache_core::errors;
use cacache_core::integrity::{Algorithm, Integrity};
use cacache_core::keeping::beside;
use cacache_core::text::Text;
use cacache_store::env::{Clock, Env, Names};
use cacache_store::store::Store;
use serde_json::Value;
use std::alloc::{AllocError, Global};
use std::marker::Model;

/// Options for a content that is written, or for an entry that is inserted. The last setting of each option counts.
/// An entry that is inserted without an integrity is a tombstone, and one without a size records 0.
#[derive(Drop)]
pub struct WriteOpts {
    algorithm: Algorithm,
    size: Option<usize>,
    integrity: Option<Integrity>,
    metadata: Json,
    raw_metadata: Option<Vec<u8>>,
    durable: bool,
    time: Option<u128>,
}

impl Model for WriteOpts {
    ghost use Rattle.std.specs.Prelude.{option_map};
    ghost use Rattle.std.specs.Coded.{codes};
    ghost use Rattle.cacache_calls.specs.JsonCode.{data_code};
    ghost use Rattle.cacache_sync.specs.put.KeyedWriters.{Said};

    ghost Value = { Said };

    ghost coded = { Prim.hlevel (codes, data_code) };

    ghost view = { λ o. record {
      algorithm = o.algorithm;
      size = o.size;
      integrity = o.integrity;
      metadata = o.metadata;
      raw_metadata = option_map (λ v. v.items) o.raw_metadata;
      durable = o.durable;
      time = o.time;
    } };
}

/// Bytes that may be absent, which are moved.
fn share_bytes(alloc: Global, bytes: Option<Vec<u8>>) -> Result<Option<Bytes>, AllocError>
    ensures { IfOk result (λ shared. shared ≡ option_map (λ v. v.items) bytes) }
{
    match bytes {
        Some(bytes) => Ok(Some(Bytes::new(alloc, bytes)?)),
        None => Ok(None),
    }
}

impl WriteOpts {
    /// Blank options: SHA-256, no metadata, and nothing that is expected.
    pub fn new() -> WriteOpts
        ensures { result ≡ nothing_said }
    {
        WriteOpts {
            algorithm: Algorithm::Sha256,
            size: None,
            integrity: None,
            metadata: Json::new(Value::Null),
            raw_metadata: None,
            durable: false,
            time: None,
        }
    }

    /// With the algorithm of the content's digest.
    pub fn algorithm(self, algo: Algorithm) -> WriteOpts
        ensures { result ≡ record self { algorithm = algo } }
    {
        let mut opts = self;
        opts.algorithm = algo;
        opts
    }

    /// With the size that the content is to have. An inserted entry has it as its own, and 0 without it; the entry of a
    /// content that was written has the count of its bytes.
    pub fn size(self, size: usize) -> WriteOpts
        ensures { result ≡ record self { size = Some size } }
    {
        let mut opts = self;
        opts.size = Some(size);
        opts
    }

    /// With any data for the entry.
    pub fn metadata(self, metadata: Value) -> WriteOpts
        ensures said { result ≡ record self { metadata = view metadata } }
        ensures json { IsJson (view metadata) }
    {
        look_through(&metadata);
        let mut opts = self;
        opts.metadata = Json::new(metadata);
        opts
    }

    /// With any bytes for the entry.
    pub fn raw_metadata(self, metadata: Vec<u8>) -> WriteOpts
        ensures said { result ≡ record self { raw_metadata = Some metadata.items } }
        ensures bytes { EachIsByte metadata.items }
    {
        look_through_bytes(metadata.as_slice());
        let mut opts = self;
        opts.raw_metadata = Some(metadata);
        opts
    }

    /// Whether the commit, or the insertion, waits until a loss of power would leave it whole: it syncs the content, the
    /// bucket and the folders that lead to them, and answers only then. Linkers ignore it. Blank options say no.
    ///
    /// If the move to the content's place fails and a content is there, the commit syncs that one without reading it,
    /// and goes on. A damaged one stays damaged then, though the commit answers Ok.
    pub fn durable(self, yes: bool) -> WriteOpts
        ensures { result ≡ record self { durable = yes } }
    {
        let mut opts = self;
        opts.durable = yes;
        opts
    }

    /// With the entry's time, in milliseconds since 1970, in place of the clock's.
    pub fn time(self, time: u128) -> WriteOpts
        ensures { result ≡ record self { time = Some time } }
    {
        let mut opts = self;
        opts.time = Some(time);
        opts
    }

    /// With an integrity that must list the content's digest under the algorithm of the options. An inserted entry has
    /// it as its own; one without is a tombstone.
    pub fn integrity(self, sri: Integrity) -> WriteOpts
        ensures said { result ≡ record self { integrity = Some sri } }
        ensures formed { IsIntegrity sri }
    {
        let mut opts = self;
        opts.integrity = Some(sri);
        opts
    }

    /// The time that was set, in milliseconds since 1970.
    pub fn set_time(&self) -> Option<u128>
        ensures { result ≡ self.now.time }
    {
        self.time
    }

    /// Opens a writer that commits under the key, with these options. Nothing is saved before its `commit`. A number is
    /// asked once, before the first step. The size that was set is compared at the commit.
    ///
    /// ```
    /// let opts = cacache::WriteOpts::new()
    ///     .metadata(cacache::Value::Bool(true))
    ///     .size(7);
    /// let mut writer = opts.open_sync(&mut env, "my-cache", "key")?;
    /// writer.write_all(b"my data")?; // one byte less, and the commit is a SizeMismatch
    /// let sri = writer.commit(&mut env)?;
    /// ```
    ///
    /// `IoError` says which step failed. Contents and index stay as they were; folders may have been made.
    pub fn open_sync<S: Store, C: Clock, N: Names>(
        self,
        env: &mut Env<S, C, N>,
        cache: &str,
        key: &str,
    ) -> errors::Result<SyncWriter<S::Temp>>
        ensures opens { OpensKeyed S.Temp.seen S.log N.given env.old env.new cache.now
            (Some key.now) self result }
    {
        let number = env.names.fresh();
        let (key, opts) = beside(Text::from_str(env.alloc, key), self)?;
        open_writer(env.alloc, &mut env.store, cache, number, Some(key), opts)
    }

    /// Opens a writer that commits without a key, with these options. Nothing is saved before its `commit`. A number is
    /// asked once, before the first step.
    ///
    /// Errors are those of `open_sync`.
    pub fn open_hash_sync<S: Store, C: Clock, N: Names>(
        self,
        env: &mut Env<S, C, N>,
        cache: &str,
    ) -> errors::Result<SyncWriter<S::Temp>>
        ensures opens { OpensKeyed S.Temp.seen S.log N.given env.old env.new cache.now None
            self result }
    {
        let number = env.names.fresh();
        open_writer(env.alloc, &mut env.store, cache, number, None, self)
    }

    /// The options of a command.
    pub fn into_options(self, alloc: Global) -> Result<Options, AllocError>
        ensures { IfOk result (λ options. options ≡ options_of self) }
    {
        let WriteOpts {
            algorithm,
            size,
            integrity,
            metadata,
            raw_metadata,
            durable,
            time: _,
        } = self;
        let kept = (integrity, metadata);
        let (raw_metadata, (integrity, metadata)) = beside(share_bytes(alloc, raw_metadata), kept)?;
        Ok(Options {
            algorithm,
            size,
            integrity,
            metadata,
            raw_metadata,
            durable,
        })
    }
}

impl Default for WriteOpts {
    /// Blank options.
    fn default() -> WriteOpts
        ensures { result ≡ nothing_said }
    {
        WriteOpts::new()
    }
}

impl Clone for WriteOpts {
    ghost is_clone = { λ opts copy. copy ≡ opts };

    fn clone(&self) -> Result<WriteOpts, AllocError> {
        let integrity = self.integrity.clone()?;
        let metadata = self.metadata.clone()?;
        let raw_metadata = self.raw_metadata.clone()?;
        Ok(WriteOpts {
            algorithm: self.algorithm,
            size: self.size,
            integrity,
            metadata,
            raw_metadata,
            durable: self.durable,
            time: self.time,
        })
    }
}
