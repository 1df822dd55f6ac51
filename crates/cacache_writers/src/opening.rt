//! How polled writers are opened.
ghost use Rattle.cacache_sync.specs.content.OpenWrites.{MakesTemp};
ghost use Rattle.cacache_writers.specs.Opening.{OpensAt};

use crate::about::About;
use crate::file::PolledFile;
use crate::writer::Writer;
use cacache_core::errors::Result;
use cacache_core::integrity::Algorithm;
use cacache_core::keeping::beside;
use cacache_core::text::Text;
use cacache_jobs::temp_path;
use cacache_store::store::Store;
use cacache_sync::content::writer;
use cacache_sync::put::opts::WriteOpts;
use std::alloc::Global;

/// Makes the temporary file of this number.
fn make_temp<S: Store>(alloc: Global, store: &mut S, cache: &str, number: u64) -> Result<S::Temp>
    ensures { MakesTemp cache.now number S.Temp.seen result (S.log store.old) (S.log store.new) }
{
    let path = temp_path(alloc, cache, number)?;
    writer::make_temp(alloc, store, cache, path)
}

/// Opens a writer with a temporary file of this number.
pub(crate) fn open_writer<S: Store>(
    alloc: Global,
    store: &mut S,
    cache: &str,
    number: u64,
    key: Option<Text>,
    opts: WriteOpts,
) -> Result<Writer<S::Temp>>
    ensures { OpensAt cache.now key opts result (S.log store.old) (S.log store.new) number }
{
    let about = About::new(alloc, cache, key, opts)?;
    let algorithm = about.options.algorithm;
    let (temp, about) = beside(make_temp(alloc, store, cache, number), about)?;
    let (file, about) = beside(PolledFile::new(alloc, algorithm, temp), about)?;
    Ok(Writer { file, about })
}
