//! A store in memory that keeps its log.
ghost use Rattle.std.specs.{Prelude.{◌≡◌, ◌∷◌, ◌++◌, [], ◌<◌, Some, Err, IfOk, IfErr, IfNone, OnOk, OnErr, OnSome, option_map, vec_len, vec_capacity}, Result.{result_err}};
ghost use Rattle.cacache_core.specs.declared.errors.{Error.TheVariants.{OutOfMemory}, Fault.TheVariants.{Unsupported}};
ghost use Rattle.cacache_store.specs.{declared.store.{log.LogItem.TheVariants.{Made, Foreign, ForeignFolder}, step.Step.TheVariants.{MakeDirs, Symlink}, answer.Answer.TheVariants.{Done}}, Plain.{Fits, Logs}};
ghost use Rattle.cacache_disk.specs.{declared.luck.Luck.TheVariants.{Plain}, Apply.{apply, planted, fault_told}, Replay.{logged, foreign_log, tree_of, HappensOn, IsLog, shown, AnsweredByDisk, IsDueTo, IsEarned}};

use crate::{Disk, Luck, TreeItem, TreeNode};
use cacache_core::bytes::Bytes;
use cacache_core::errors;
use cacache_core::errors::{Error, Fault};
use cacache_core::keeping::let_go;
use cacache_core::text::Text;
use cacache_store::store::{Answer, LogItem, PlainFile, PlainTemp, Stamps, Step, Store, failed};
use std::alloc::{AllocError, Global};
use std::marker::Model;

/// Room for one more item.
fn make_room(log: &mut Vec<LogItem>) -> Result<(), AllocError>
    ensures items { log.new.items ≡ log.old.items }
    ensures room { OnOk result (vec_len log.new < vec_capacity log.new) }
{
    log.reserve(1)?;
    Ok(())
}

/// One more item, for which there is room.
fn note(log: &mut Vec<LogItem>, item: LogItem)
    requires { vec_len log.old < vec_capacity log.old }
    ensures { log.new.items ≡ log.old.items ++ item ∷ [] }
{
    let_go(log.push(item));
}

/// Why nothing was planted at the path.
fn refused(alloc: Global, fault: Fault, what: &str, path: &Text) -> Error
    ensures { IsDueTo (Some fault) result }
{
    failed(fault, message(alloc, what, path))
}

fn message(alloc: Global, what: &str, path: &Text) -> Result<Text, AllocError> {
    Ok(Text::new(format!(in alloc; "Failed to plant a {what} at {path}")?))
}

/// The fault of a failed answer.
fn fault_of(answer: &Answer<PlainFile, PlainTemp>) -> Option<Fault>
    ensures { result ≡ fault_told answer.now }
{
    match answer {
        Answer::Failed(fault) => Some(*fault),
        _ => None,
    }
}

/// Makes the missing folders of the path, or gives the fault.
fn make_folders(disk: &mut Disk, path: Text) -> Result<Option<Fault>, AllocError>
    ensures fault { IfOk result (λ fault.
        fault ≡ fault_told (apply disk.old (MakeDirs path) Plain).0) }
    ensures made { IfOk result (λ fault.
        IfNone fault (apply disk.old (MakeDirs path) Plain ≡ (Done, disk.new))) }
    ensures failed { IfOk result (λ fault. OnSome fault (disk.new ≡ disk.old)) }
    ensures err { OnErr result (disk.new ≡ disk.old) }
{
    let step = Step::MakeDirs(path);
    let applied = disk.apply(&step, Luck::Plain);
    let_go(step);
    let answer = applied?;
    let fault = fault_of(&answer);
    let_go(answer);
    Ok(fault)
}

/// A disk in memory, and the log of all that happened on it, which is kept for good. Each step is
/// applied with plain luck. Contracts see the log, which the disk's tree follows from.
#[derive(Drop)]
pub struct MemStore {
    alloc: Global,
    disk: Disk,
    log: Vec<LogItem>,
}

impl Model for MemStore {
    ghost use Rattle.std.specs.Prelude.{List};
    ghost use Rattle.cacache_store.specs.declared.store.log.LogItem.{LogItem};

    ghost Value = { List LogItem };

    ghost view = { λ s. s.log.items };

    ghost use Rattle.cacache_disk.specs.memory.StoreKept.{StoreIsKept};

    ghost invariant = { StoreIsKept };
}

impl MemStore {
    /// A store in which nothing happened yet, with nothing but the top folder.
    pub fn new(alloc: Global) -> Result<MemStore, AllocError>
        ensures { IfOk result (λ store. store ≡ []) }
    {
        Ok(MemStore {
            alloc,
            disk: Disk::new(alloc)?,
            log: Vec::new(alloc),
        })
    }

    /// A store that begins with all that is on a disk, say one that a loss of power left. Its log
    /// has each folder and file as somebody else's, and each link as a step, in the order of paths.
    /// No byte of a file is copied. The only error is `OutOfMemory`.
    pub fn of(alloc: Global, disk: &Disk) -> errors::Result<MemStore>
        ensures log { IfOk result (λ store. store ≡ foreign_log disk.now) }
        ensures tree { IfOk result (λ store. tree_of store ≡ disk.now) }
        ensures memory { IfErr result (λ error. error ≡ OutOfMemory) }
    {
        let mut store = MemStore::new(alloc)?;
        for item in disk.standing()? {
            store.receive(item)?;
        }
        Ok(store)
    }

    /// All that happened so far, oldest first. Each item is what a disk did that began with
    /// nothing but the top folder.
    pub fn log(&self) -> &[LogItem]
        ensures same { result.now ≡ self.now }
        ensures replayable { IsLog self.now }
    {
        self.log.as_slice()
    }

    /// Puts a file with these bytes at the path as somebody else would, in place of a file or link
    /// there, and makes the folders above it that are missing.
    ///
    /// `IoError` says why that can't be. On any error nothing happened.
    pub fn plant(&mut self, path: &str, bytes: &[u8]) -> errors::Result<()>
        ensures ok { OnOk result (self.new ≡ self.old ++ Foreign path.now bytes.now ∷ []) }
        ensures err { OnErr result (self.new ≡ self.old) }
        ensures earned { IsEarned
            (result_err (planted (tree_of self.old) path.now bytes.now)) result }
    {
        let path = Text::from_str(self.alloc, path)?;
        let bytes = Bytes::new(self.alloc, Vec::from_slice(self.alloc, bytes)?)?;
        self.plant_shared(path, bytes)
    }

    /// Puts a file at the path as `plant` does, and shares its bytes.
    fn plant_shared(&mut self, path: Text, bytes: Bytes) -> errors::Result<()>
        ensures ok { OnOk result (self.new ≡ self.old ++ Foreign path bytes ∷ []) }
        ensures err { OnErr result (self.new ≡ self.old) }
        ensures earned { IsEarned (result_err (planted (tree_of self.old) path bytes)) result }
    {
        make_room(&mut self.log)?;
        match self.disk.plant(path.as_str(), &bytes)? {
            Err(fault) => Err(refused(self.alloc, fault, "file", &path)),
            Ok(()) => {
                note(&mut self.log, LogItem::Foreign(path, bytes));
                Ok(())
            }
        }
    }

    /// Makes the missing folders of the path as somebody else would.
    ///
    /// `IoError` says why that can't be. On any error nothing happened.
    pub fn plant_folder(&mut self, path: &str) -> errors::Result<()>
        ensures ok { OnOk result (self.new ≡ self.old ++ ForeignFolder path.now ∷ []) }
        ensures err { OnErr result (self.new ≡ self.old) }
        ensures earned { IsEarned
            (fault_told (apply (tree_of self.old) (MakeDirs path.now) Plain).0) result }
    {
        let path = Text::from_str(self.alloc, path)?;
        make_room(&mut self.log)?;
        match make_folders(&mut self.disk, path.clone()?)? {
            Some(fault) => Err(refused(self.alloc, fault, "folder", &path)),
            None => {
                note(&mut self.log, LogItem::ForeignFolder(path));
                Ok(())
            }
        }
    }

    /// Makes a link at the path, which is a step like any other.
    fn link(&mut self, target: Text, path: Text) -> errors::Result<()>
        ensures ok { OnOk result (self.new ≡ self.old ++ Made (Symlink target path) Done ∷ []) }
        ensures earned { IsEarned
            (fault_told (apply (tree_of self.old) (Symlink target path) Plain).0) result }
    {
        let at = path.clone()?;
        match self.step(Step::Symlink(target, path)) {
            Answer::Done => Ok(()),
            Answer::Failed(fault) => Err(refused(self.alloc, fault, "link", &at)),
            other => {
                let_go(other);
                Err(Error::OutOfMemory)
            }
        }
    }

    /// Puts what is at a path of a disk at the same path.
    fn receive(&mut self, item: TreeItem) -> errors::Result<()>
        ensures ok { OnOk result (self.new ≡ self.old ++ logged item ∷ []) }
        ensures err { HappensOn (tree_of self.old) (logged item)
            → IfErr result (λ error. error ≡ OutOfMemory) }
    {
        let TreeItem { path, node } = item;
        match node {
            TreeNode::Folder => self.plant_folder(path.as_str()),
            TreeNode::File(bytes) => self.plant_shared(path, bytes),
            TreeNode::Link(target) => self.link(target, path),
        }
    }

    /// The bytes that reading the whole file at the path gives, which are copied once, or None if
    /// that fails. It isn't logged. The only error is `OutOfMemory`.
    pub fn bytes(&self, path: &str) -> errors::Result<Option<Vec<u8>>>
        ensures ok { IfOk result (λ found.
            option_map (λ v. v.items) found ≡ shown (tree_of self.now) path.now) }
        ensures err { IfErr result (λ error. error ≡ OutOfMemory) }
    {
        match self.disk.shared(path)? {
            Some(bytes) => Ok(Some(Vec::from_slice(self.alloc, bytes.as_slice())?)),
            None => Ok(None),
        }
    }
}

impl Store for MemStore {
    type File = PlainFile;

    type Temp = PlainTemp;

    ghost log = { λ log. Some log };

    fn step(&mut self, step: Step<PlainFile, PlainTemp>) -> Answer<PlainFile, PlainTemp>
        ensures fits { Fits step result }
        ensures logged { Logs (Some self.old) (Some self.new) step result }
        ensures answers { AnsweredByDisk (tree_of self.old) step result }
    {
        if make_room(&mut self.log).is_err() {
            return Answer::NoMemory(step);
        }
        let Ok((answer, copy)) = self.disk.apply_logged(&step, Luck::Plain) else {
            return Answer::NoMemory(step);
        };
        note(&mut self.log, LogItem::Made(step, copy));
        answer
    }

    /// Does nothing: a disk in memory holds nothing open.
    fn end_walks(&mut self)
        ensures same { self.new ≡ self.old }
    {}
}

impl Stamps for MemStore {
    /// Always `Unsupported`: a disk in memory keeps no times.
    fn changed(&mut self, _path: &str) -> Result<u64, Fault>
        ensures same { self.new ≡ self.old }
        ensures unknown { result ≡ Err Unsupported }
    {
        Err(Fault::Unsupported)
    }
}
