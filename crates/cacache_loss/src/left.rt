//! What a loss of power leaves.
ghost use Rattle.std.specs.{Prelude.{◌≡◌, ◌&&◌, ◌++◌, [], not, None, IfOk, option_copied, unwrap_or, if◌then◌else◌}, BTreeMap.{keys}};
ghost use Rattle.std.specs.FinMap as map;
ghost use Rattle.cacache_core.specs.Paths.{home_of};
ghost use Rattle.cacache_disk.specs.Tree.{is_folder, look, Names};
ghost use Rattle.cacache_loss.specs.{Running.{chosen, loss_of, left_of, lost_of, moment_of}, Loss.{Lost, bytes_left, lead_folders, node_left, stays}, Reached.{is_among}};

use crate::effect::fixing_at;
use crate::fixing::Fixing;
use crate::loss::{Loss, Taken, read_loss};
use crate::reached::named;
use crate::running::Running;
use cacache_core::bytes::Bytes;
use cacache_disk::{Contents, Node, Nodes, Path};
use std::alloc::{AllocError, Global};

/// A disk that loses power: the cache's folder, and what is taken.
#[derive(Drop)]
pub(crate) struct Losing {
    running: Running,
    home: Option<Path>,
    taken: Taken,
}

/// Whether a path is the cache's folder or one above it, or there is no such folder.
fn stays(alloc: Global, home: &Option<Path>, path: &Path) -> Result<bool, AllocError>
    ensures { IfOk result (λ so. so ≡ stays home.now path.now) }
{
    let Some(home) = home else {
        return Ok(true);
    };
    if home.len() < path.len() {
        return Ok(false);
    }
    let front = home.front(alloc, path.len())?;
    Ok(*path == front)
}

/// The bytes that are left of a file.
fn bytes_left(
    fixing: Fixing,
    bytes: &Contents,
    tail: Option<&Bytes>,
) -> Result<Contents, AllocError>
    ensures { IfOk result (λ left. left
        ≡ bytes_left fixing bytes.now (unwrap_or (option_copied tail.entry) [])) }
{
    if fixing.whole {
        return bytes.share();
    }
    let front = bytes.bytes()?.front(fixing.kept.min(bytes.len()));
    let Some(tail) = tail else {
        return Contents::of(front);
    };
    let mut left = front;
    left.extend(tail.as_slice())?;
    Contents::of(left)
}

/// The node that is left of one.
fn node_left(
    fixing: Fixing,
    tail: Option<&Bytes>,
    node: Option<&Node>,
) -> Result<Option<Node>, AllocError>
    ensures { IfOk result (λ left. left ≡ node_left fixing
        (unwrap_or (option_copied tail.entry) []) (option_copied node.entry)) }
{
    match node {
        None => Ok(None),
        Some(Node::Folder) => Ok(Some(Node::Folder)),
        Some(Node::File(bytes)) => Ok(Some(Node::File(bytes_left(fixing, bytes, tail)?))),
        Some(Node::Link(target)) => Ok(Some(Node::Link(target.clone()?))),
    }
}

impl Losing {
    /// Whether a path's name is again as it was.
    fn is_undone(&self, path: &Path) -> Result<bool, AllocError>
        ensures { IfOk result (λ undone. undone ≡
            ((loss_of self.now.taken).undone path.now && not (stays self.now.home path.now))) }
    {
        if !self.taken.undone.contains(path) {
            return Ok(false);
        }
        Ok(!stays(self.running.alloc, &self.home, path)?)
    }

    /// What is left at a path, if its folder is left, and how far it is fixed.
    fn left_at(&self, path: &Path) -> Result<(Option<&Node>, Fixing), AllocError>
        ensures node { IfOk result (λ r. option_copied r.0 ≡ (left_of self.now path.now).node) }
        ensures fixing { IfOk result (λ r. r.1 ≡ (left_of self.now path.now).fixing) }
    {
        let running = &self.running;
        if self.is_undone(path)? {
            if let Some(place) = running.names.get(path) {
                return Ok((place.node.as_ref(), place.fixing));
            }
        }
        let fixing = fixing_at(&running.first, &running.files, path);
        Ok((running.disk.nodes().node(path), fixing))
    }

    /// Whether a folder is left at a path, if its own folder is left.
    fn is_folder_at(&self, path: &Path) -> Result<bool, AllocError>
        ensures { IfOk result (λ so. so ≡ is_folder (left_of self.now path.now).node) }
    {
        let (node, _) = self.left_at(path)?;
        match node {
            Some(Node::Folder) => Ok(true),
            None | Some(Node::File(_)) | Some(Node::Link(_)) => Ok(false),
        }
    }

    /// Whether the folders above a path are left.
    fn leads(&self, path: &Path) -> Result<bool, AllocError>
        ensures { IfOk result (λ so. so ≡ lead_folders (left_of self.now) [] path.now) }
    {
        for i in 0..path.len() {
            let above = path.front(self.running.alloc, i)?;
            if !self.is_folder_at(&above)? {
                return Ok(false);
            }
        }
        Ok(true)
    }

    /// What is at a path after the loss.
    fn lost_at(&self, path: &Path) -> Result<Option<Node>, AllocError>
        ensures { IfOk result (λ node. node ≡ lost_of self.now path.now) }
    {
        if !self.leads(path)? {
            return Ok(None);
        }
        let (node, fixing) = self.left_at(path)?;
        node_left(fixing, self.taken.tails.get(path), node)
    }

    /// The paths at which something is, or was.
    fn paths(&self) -> Result<Vec<Path>, AllocError>
        ensures { IfOk result (λ paths. paths.items
            ≡ map.keys self.now.running.disk ++ keys self.now.running.names) }
    {
        let mut paths = self.running.disk.nodes().paths()?;
        for path in self.running.names.keys() {
            paths.push(path.clone()?)?;
        }
        Ok(paths)
    }

    /// The nodes that are left at these paths.
    fn left_at_each(&self, paths: &[Path]) -> Result<Nodes, AllocError>
        ensures { IfOk result (λ nodes. (q : Names) → look nodes q
            ≡ if is_among q paths.now then lost_of self.now q else None) }
    {
        let mut nodes = Nodes::new(self.running.alloc);
        for i in 0..paths.len() {
            let path = &paths[i];
            let Some(node) = self.lost_at(path)? else {
                continue;
            };
            nodes.put(path.clone()?, node)?;
        }
        Ok(nodes)
    }

    /// The nodes that are left.
    fn left(&self) -> Result<Nodes, AllocError>
        ensures { IfOk result (λ nodes. Lost self.now.home (moment_of self.now.running).tree
            (moment_of self.now.running).fixed (loss_of self.now.taken) nodes) }
    {
        let paths = self.paths()?;
        self.left_at_each(paths.as_slice())
    }
}

/// The names of the folder of a cache, if its text can name one.
fn home(alloc: Global, cache: &str) -> Result<Option<Path>, AllocError>
    ensures { IfOk result (λ home. home ≡ home_of cache.now) }
{
    if cache.is_empty() {
        return Ok(Some(Path::top(alloc)));
    }
    named(alloc, cache)
}

impl Running {
    /// The nodes that a loss of power leaves here, if this text is the cache's path.
    pub fn lose(self, cache: &str, loss: &Loss) -> Result<Nodes, AllocError>
        ensures { IfOk result (λ nodes. Lost (home_of cache.now) (moment_of self).tree
            (moment_of self).fixed (chosen loss.now.undone.items loss.now.tails.items) nodes) }
    {
        let alloc = self.alloc;
        let home = home(alloc, cache)?;
        let taken = read_loss(alloc, loss)?;
        let losing = Losing {
            running: self,
            home,
            taken,
        };
        losing.left()
    }
}
