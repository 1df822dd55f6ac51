//! Laws, on functions that do nothing.
ghost use Rattle.cacache_system_model.specs.{CallLaws.{CallsByCall}, Chains.{RunsMirror, StepsOnDisk}, Fixing.{LossesMirror}, Listing.{ReadDirBreaks, ReadDirGoesPlainly, ReadDirInOrder}, CallForms.{LogsAgree}, StepLaws.{MakeDirsAgrees, PersistAgrees, CreateAgrees, ExistsAgrees, HardLinkAgrees, ReflinkBreaks, SymlinkAgrees, OpenAgrees, SizeAgrees, PiecesReadPlainly, ReadAllAgrees, ReadBreaks, AppendAgrees, RemoveDirAgrees, RemoveFileAgrees, SyncDirAgrees, SyncFileAgrees, SyncTempAgrees}, Laws.{CallsCanGoWell}, Mirrors.{StepsMirror}, Premises.{EachGoesPlainly, EachMayBreak}, Refusals.{NoCallWithoutOwner, NoCopyInPlace, NoFileForFolder, NoMoveWithoutMode, NoOtherMode, NoOtherSync, NoRemovalBeforePut, NoSecondWrite}, Writing.{CopyAgrees, WriteAgrees}};

use cacache_folder::SystemStore;
use cacache_system::System;

/// A step that makes or moves something answers and leaves what the disk's table says of it.
///
/// If none of its calls fails without cause, that is under plain luck; if some do, under some luck, provided that the
/// table does the step. A `Reflink` is refused by luck alone.
pub fn change_laws()
    ensures create { CreateAgrees }
    ensures persist { PersistAgrees }
    ensures symlink { SymlinkAgrees }
    ensures hard_link { HardLinkAgrees }
    ensures reflink { ReflinkBreaks }
{}

/// A step that asks for something, or opens a file, answers and leaves what the disk's table says of it.
pub fn question_laws()
    ensures exists { ExistsAgrees }
    ensures size { SizeAgrees }
    ensures open { OpenAgrees }
{}

/// A listing of a folder that is there does what the disk's table says of it, except for the order of the names.
///
/// `in_order`: if the folder gives its names in the tree's order, the answer is that of the table.
pub fn list_laws()
    ensures plainly { ReadDirGoesPlainly }
    ensures breaking { ReadDirBreaks }
    ensures in_order { ReadDirInOrder }
{}

/// A read does what the disk's table says of it: of a whole file, and of a piece of an open one.
pub fn read_laws()
    ensures whole { ReadAllAgrees }
    ensures piece { ReadBreaks }
    ensures plainly { PiecesReadPlainly }
{}

/// An append and a copy do what the disk's table says of them; and a write, except that its file grows in the tree.
pub fn writing_step_laws()
    ensures append { AppendAgrees }
    ensures write { WriteAgrees }
    ensures copy { CopyAgrees }
{}

/// A step that makes folders does what the disk's table says of it, whether it asks for them first or not.
pub fn make_dirs_laws()
    ensures make { MakeDirsAgrees }
{}

/// A removal does what the disk's table says of it.
pub fn removal_laws()
    ensures file { RemoveFileAgrees }
    ensures folder { RemoveDirAgrees }
{}

/// A sync does what the disk's table says of it.
pub fn sync_laws()
    ensures temp { SyncTempAgrees }
    ensures file { SyncFileAgrees }
    ensures folder { SyncDirAgrees }
{}

/// Each kind of step except writes, at once: if it has what its law asks, and the disk's table does it, it is as
/// under some luck.
///
/// `plainly`: if none of its calls fails without cause, it is as under plain luck, even if the table refuses it. That
/// leaves out reads of a piece, copies, reflinks and listings.
pub fn covered_laws()
    ensures breaking { EachMayBreak }
    ensures plainly { EachGoesPlainly }
{}

/// A step with a run that a store's log gained is as under some luck, too. Such a run is what the contract of a store of real
/// folders speaks of.
pub fn logged_laws()
    ensures agree { LogsAgree }
{}

/// A disk in memory that has the bytes of open temporary files in their handles does what many steps do on a system.
///
/// `losses`: what the syncs among them fix is also the same, as long as none failed before. So what a loss of power leaves of
/// the system it leaves of the disk, except for the bytes of temporary files.
pub fn mirror_laws()
    ensures step { StepsMirror }
    ensures one { StepsOnDisk }
    ensures run { RunsMirror }
    ensures losses { LossesMirror }
{}

/// The model can be met: each call can happen as it says.
pub fn satisfiable_laws()
    ensures calls { CallsCanGoWell }
{}

/// Calls that are no run of their step.
pub fn refusal_laws()
    ensures second_write { NoSecondWrite }
    ensures removal_first { NoRemovalBeforePut }
    ensures mode { NoOtherMode }
    ensures sync { NoOtherSync }
    ensures folder { NoFileForFolder }
    ensures copy { NoCopyInPlace }
    ensures move_first { NoMoveWithoutMode }
    ensures owner { NoCallWithoutOwner }
{}

/// The system calls of a public call, in order: those of the steps that a store's log gained for it.
///
/// A call that only looks or lists made no call that changes anything. A put that answered Ok made its temporary file,
/// wrote it, and then renamed it once, or failed to and found the content there. With a key, one line was then handed to
/// the bucket. A durable put synced before the rename, and synced the content's folders, the bucket and its folders after it.
/// Of puts, insertions and removals that is so if each system call was answered by a result of its kind.
pub fn system_call_laws<Y: System + Drop>(store: &SystemStore<Y>)
    ensures calls { CallsByCall Y.number store.now.log.items (Y.calls store.now.began.value)
        (Y.calls store.now.runner.system) }
{}
