//! What the calls do to the tree.
ghost use Rattle.std.specs.Prelude.{◌≡◌, [], None, Ok, IfOk, IfErr, IsOk};
ghost use Rattle.cacache_store.specs.declared.store.step.Step.TheVariants as steps;
ghost use Rattle.cacache_disk.specs.{declared.node.Node.TheVariants.{Folder, File, Link}, Tree.{look, put, cut}, LedTo.{way_fault, place, found, standing, free, removable, emptied, linked}, Plans.{Stops, Blocks}};
ghost use Rattle.cacache_system_model.specs.memory.Changes.{CanPut, Does, Changed, Linked, Movable, Shown, Unlinks, info_of};

use cacache_core::bytes::Bytes;
use cacache_core::errors::Fault;
use cacache_core::keeping::let_go;
use cacache_core::text::Text;
use cacache_disk::{Contents, Disk, Luck, Node, Path, Stop};
use cacache_store::store::{Answer, Kind, PlainFile, PlainTemp, Step};
use cacache_system::FileInfo;
use std::alloc::{AllocError, Global};

/// What is said of a node. None has a number, and all have the same mode and owner.
pub(crate) fn info_of(node: &Node) -> FileInfo
    ensures { result ≡ info_of node.now }
{
    let (kind, size) = match node {
        Node::Folder => (Kind::Folder, 0),
        Node::File(contents) => (Kind::File, contents.len() as u64),
        Node::Link(_) => (Kind::Link, 0),
    };
    FileInfo {
        kind,
        regular: matches!(node, Node::File(_)),
        size,
        inode: 0,
        device: 0,
        mode: 0o644,
        owner: 0,
        group: 0,
    }
}

/// Does a step.
pub(crate) fn do_step(disk: &mut Disk, step: Step<PlainFile, PlainTemp>) -> Result<(), Stop>
    ensures { Does disk.old step result disk.new }
{
    let done = disk.apply(&step, Luck::Plain);
    let_go(step);
    match done? {
        Answer::Failed(fault) => Err(Stop::Fault(fault)),
        answer => {
            let_go(answer);
            Ok(())
        }
    }
}

/// Whether the folders on the way of some names are there.
#[tactic(auto, using(crate::proofs::memory::Places::way_next, crate::proofs::memory::Places::way_over))]
fn way(disk: &Disk, names: &Path) -> Result<(), Stop>
    ensures ok { IfOk result (λ _. way_fault disk.now [] names.now ≡ None) }
    ensures err { IfErr result (λ stop. Blocks stop (way_fault disk.now [] names.now)) }
{
    let nodes = disk.nodes();
    for i in 0..names.len().saturating_sub(1) {
        let above = names.front(nodes.alloc(), i + 1)?;
        match nodes.node(&above) {
            None => return Err(Stop::Fault(Fault::NotFound)),
            Some(Node::Folder) => {}
            Some(Node::File(_)) | Some(Node::Link(_)) => {
                return Err(Stop::Fault(Fault::NotADirectory));
            }
        }
    }
    Ok(())
}

/// The names of a path, if its folder is there.
#[tactic(auto, using(crate::proofs::memory::Places::place_bad, crate::proofs::memory::Places::place_led, crate::proofs::memory::Places::place_blocked))]
pub(crate) fn place(disk: &Disk, path: &str) -> Result<Path, Stop>
    ensures ok { IfOk result (λ names. place disk.now path.now ≡ Ok names) }
    ensures err { IfErr result (λ stop. Stops stop (place disk.now path.now)) }
{
    let names = Path::of(disk.nodes().alloc(), path)?;
    way(disk, &names)?;
    Ok(names)
}

/// What a path leads to.
#[tactic(auto, using(crate::proofs::memory::Places::found_there, crate::proofs::memory::Places::found_missing, crate::proofs::memory::Places::found_bad))]
pub(crate) fn shown(disk: &Disk, path: &str) -> Result<FileInfo, Stop>
    ensures { Shown (found disk.now path.now) disk.now result }
{
    let (_, node) = disk.leads(path)?;
    match node {
        None => Err(Stop::Fault(Fault::NotFound)),
        Some(node) => Ok(info_of(node)),
    }
}

/// What is at a path.
#[tactic(auto, using(crate::proofs::memory::Places::standing_there, crate::proofs::memory::Places::standing_missing, crate::proofs::memory::Places::standing_bad))]
pub(crate) fn shown_link(disk: &Disk, path: &str) -> Result<FileInfo, Stop>
    ensures { Shown (standing disk.now path.now) disk.now result }
{
    let names = place(disk, path)?;
    match disk.nodes().node(&names) {
        None => Err(Stop::Fault(Fault::NotFound)),
        Some(node) => Ok(info_of(node)),
    }
}

/// Makes a folder.
#[tactic(auto, using(crate::proofs::memory::Occurring::makes_folder, crate::proofs::memory::Occurring::makes_nothing, crate::proofs::memory::Occurring::makes_no_second))]
pub(crate) fn make_folder(disk: &mut Disk, alloc: Global, path: &str) -> Result<(), Stop>
    ensures { Changed (free disk.old path.now) (λ names. put disk.old names Folder) result disk.old
        disk.new }
{
    let names = place(disk, path)?;
    if let Some(_) = disk.nodes().node(&names) {
        return Err(Stop::Fault(Fault::AlreadyExists));
    }
    do_step(disk, Step::MakeDirs(Text::from_str(alloc, path)?))
}

/// Removes a file or a link.
#[tactic(auto, using(crate::proofs::memory::Occurring::removes_file))]
pub(crate) fn remove_file(disk: &mut Disk, alloc: Global, path: &str) -> Result<(), Stop>
    ensures { Changed (removable disk.old path.now) (cut disk.old) result disk.old disk.new }
{
    do_step(disk, Step::RemoveFile(Text::from_str(alloc, path)?))
}

/// Removes an empty folder.
#[tactic(auto, using(crate::proofs::memory::Occurring::removes_folder))]
pub(crate) fn remove_folder(disk: &mut Disk, alloc: Global, path: &str) -> Result<(), Stop>
    ensures { Changed (emptied disk.old path.now) (cut disk.old) result disk.old disk.new }
{
    do_step(disk, Step::RemoveDir(Text::from_str(alloc, path)?))
}

/// Makes a symbolic link.
#[tactic(auto, using(crate::proofs::memory::Occurring::makes_link))]
pub(crate) fn symlink(disk: &mut Disk, alloc: Global, target: &str, path: &str) -> Result<(), Stop>
    ensures { Changed (free disk.old path.now) (λ names. put disk.old names (Link target.now))
        result disk.old disk.new }
{
    let target = Text::from_str(alloc, target)?;
    do_step(disk, Step::Symlink(target, Text::from_str(alloc, path)?))
}

/// Whether a file or a link is at a path.
#[tactic(auto, using(crate::proofs::memory::Moves::linked_is, crate::proofs::memory::Moves::linked_bad))]
fn linkable(disk: &Disk, path: &str) -> Result<(), Stop>
    ensures ok { IfOk result (λ _. IsOk (linked disk.now path.now)) }
    ensures err { IfErr result (λ stop. Stops stop (linked disk.now path.now)) }
{
    let names = place(disk, path)?;
    match disk.nodes().node(&names) {
        None => Err(Stop::Fault(Fault::NotFound)),
        Some(Node::Folder) => Err(Stop::Fault(Fault::IsADirectory)),
        Some(Node::File(_)) | Some(Node::Link(_)) => Ok(()),
    }
}

/// Whether nothing is at a path yet, and its folder is there.
#[tactic(auto, using(crate::proofs::memory::Moves::free_bad, crate::proofs::memory::Occurring::free_is, crate::proofs::memory::Occurring::makes_no_second))]
fn free(disk: &Disk, path: &str) -> Result<(), Stop>
    ensures ok { IfOk result (λ _. IsOk (free disk.now path.now)) }
    ensures err { IfErr result (λ stop. Stops stop (free disk.now path.now)) }
{
    let names = place(disk, path)?;
    match disk.nodes().node(&names) {
        None => Ok(()),
        Some(_) => Err(Stop::Fault(Fault::AlreadyExists)),
    }
}

/// Why a hard link isn't made, if its source is no file or link. If it is a folder, the new path is looked at first.
#[tactic(auto, using(crate::proofs::memory::Moves::unlinks_folder, crate::proofs::memory::Moves::unlinks_blocked))]
fn link_stop(disk: &Disk, to: &str, stop: Stop) -> Stop
    ensures { Unlinks (free disk.now to.now) stop result }
{
    match stop {
        Stop::Fault(Fault::IsADirectory) => match free(disk, to) {
            Ok(()) => Stop::Fault(Fault::Device),
            Err(blocked) => blocked,
        },
        other => other,
    }
}

/// Gives a file or a link a second name. A folder can't have one.
#[tactic(auto, using(crate::proofs::memory::Moves::links_nothing, crate::proofs::memory::Moves::unlinked, crate::proofs::memory::Moves::links))]
pub(crate) fn hard_link(disk: &mut Disk, alloc: Global, from: &str, to: &str) -> Result<(), Stop>
    ensures { Linked disk.old from.now to.now result disk.new }
{
    if let Err(stop) = linkable(disk, from) {
        return Err(link_stop(disk, to, stop));
    }
    let from = Text::from_str(alloc, from)?;
    do_step(disk, Step::HardLink(from, Text::from_str(alloc, to)?))
}

/// The bytes of a file that is to be moved. A folder or a link isn't moved.
#[tactic(auto, using(crate::proofs::memory::Moves::movable_bad, crate::proofs::memory::Moves::movable_file, crate::proofs::memory::Moves::unmovable))]
pub(crate) fn movable(disk: &Disk, path: &str) -> Result<Bytes, Stop>
    ensures { Movable disk.now path.now result }
{
    let names = place(disk, path)?;
    match disk.nodes().node(&names) {
        None => Err(Stop::Fault(Fault::NotFound)),
        Some(Node::File(contents)) => Ok(contents.bytes()?),
        Some(Node::Folder) | Some(Node::Link(_)) => Err(Stop::Fault(Fault::Unsupported)),
    }
}

/// Puts a file with these bytes at a new path in the place of the one at its old path.
pub(crate) fn put_moved(
    disk: &mut Disk,
    alloc: Global,
    from: &str,
    bytes: Bytes,
    to: &str,
) -> Result<(), Stop>
    ensures { Does disk.old (steps.Persist (record { path = from.now; bytes = Some bytes }) to.now)
        result disk.new }
{
    let temp = PlainTemp {
        path: Text::from_str(alloc, from)?,
        bytes: Some(bytes),
    };
    do_step(disk, Step::Persist(temp, Text::from_str(alloc, to)?))
}

/// The disk with a file of these bytes at some names.
pub(crate) fn with_file(disk: &Disk, names: Path, contents: Contents) -> Result<Disk, AllocError>
    requires { CanPut disk.now names (File contents) }
    ensures { IfOk result (λ new. new ≡ put disk.now names (File contents)) }
{
    let mut nodes = disk.nodes().clone()?;
    nodes.put(names, Node::File(contents))?;
    Ok(Disk::of(nodes))
}
