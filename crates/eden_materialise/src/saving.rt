//! Directories that were left unsaved, stored again before an entry below them changes.

ghost use Rattle.std.specs.Prelude.{◌≡◌, [], Some, IsTrue, IsFalse, IfErr, OnOk};
ghost use Rattle.eden_tree.specs.Directory.{Row, child_of};
ghost use Rattle.eden_coupling.specs.Saving.{SavesAbove, IsSavedAbove};
ghost use Rattle.eden_inode.specs.Tables.{shows, ShowsSameNumbers};
ghost use Rattle.eden_inode.specs.Trails.{KeepsNames};
ghost use Rattle.eden_materialise.specs.Faults.{IsStoreFault};
ghost use Rattle.eden_materialise.specs.Saving.{CanSave, SavesAt};

use crate::fault::told;
use eden_inode::{Inodes, Listed, save};
use eden_model::{Fault, Name, World};
use eden_overlay::{Files, Overlay};
use eden_tree::{Change, Dir, Entry};
use std::alloc::{Allocator, Global};

/// The directory of an entry is stored, where it is unsaved.
#[derive(Drop)]
struct Saving {
    alloc: Global,
}

impl<A: Allocator, W: World, F: Files<W>> Change<A, Overlay<W, F>> for Saving {
    type Output = Result<(), Fault>;

    ghost may = { λ saving overlay x. CanSave W.honest [] (F.stored overlay) x };

    ghost does = { λ saving old x new z answer.
        SavesAt W.honest [] (F.stored old) x (F.failures old) (F.stored new) z (F.failures new) answer };

    fn change(self, overlay: &mut Overlay<W, F>, entry: &mut Entry<A>) -> Result<(), Fault> {
        let number = entry.number;
        match entry.directory_mut() {
            None => return Ok(()),
            Some(dir) => {
                if !dir.unsaved() {
                    return Ok(());
                }
                match save(self.alloc, overlay, number, dir, Listed::Whole) {
                    Ok(()) => {
                        dir.set_unsaved(false);
                        return Ok(());
                    }
                    Err(fault) => return Err(told(fault)),
                }
            }
        }
    }
}

/// The directory at a path is stored, where it is unsaved.
#[derive(Drop)]
struct SavingAt<'a> {
    alloc: Global,
    path: &'a [Name],
}

impl<A: Allocator, W: World, F: Files<W>> Change<A, Overlay<W, F>> for SavingAt<'_> {
    type Output = Result<(), Fault>;

    ghost may = { λ saving overlay x. CanSave W.honest saving.path.now (F.stored overlay) x };

    ghost does = { λ saving old x new z answer.
        SavesAt W.honest saving.path.now (F.stored old) x (F.failures old) (F.stored new) z (F.failures new) answer };

    fn change(self, overlay: &mut Overlay<W, F>, entry: &mut Entry<A>) -> Result<(), Fault> {
        let alloc = self.alloc;
        match entry.change_at(self.path, overlay, Saving { alloc }) {
            None => Ok(()),
            Some(done) => done,
        }
    }
}

/// Stores the loaded directory at a path, where it is unsaved.
fn save_at<A: Allocator + Clone, W: World, F: Files<W>>(
    inodes: &mut Inodes<A, W, F>,
    alloc: Global,
    path: &[Name],
) -> Result<(), Fault>
    ensures saves { SavesAt W.honest path.now (F.stored inodes.old.files) inodes.old.root
        (F.failures inodes.old.files) (F.stored inodes.new.files) inodes.new.root (F.failures inodes.new.files)
        result }
    ensures shown { W.honest → shows W.World F.Files inodes.new ≡ shows W.World F.Files inodes.old }
    ensures numbers { W.honest → ShowsSameNumbers F.Files inodes.old inodes.new }
    ensures names { KeepsNames inodes.old.root inodes.new.root }
    ensures changes { inodes.new.changes ≡ inodes.old.changes }
    ensures rest { (inodes.new.next ≡ inodes.old.next) × (inodes.new.clock ≡ inodes.old.clock) }
{
    inodes.holds();
    inodes.change_in_place(SavingAt { alloc, path })
}

/// Whether a loaded directory is unsaved above the entry at a path from this directory on, this one among them.
fn has_unsaved<A: Allocator>(dir: &Dir<A>, path: &[Name]) -> bool
    ensures clear { IsFalse result → (x : Row) → child_of x ≡ Some dir.now → IsSavedAbove path.now x }
    ensures found { IsTrue result → (x : Row) → child_of x ≡ Some dir.now → ¬ IsSavedAbove path.now x }
{
    match path.split_first() {
        None => return false,
        Some((name, rest)) => {
            if dir.unsaved() {
                return true;
            }
            match dir.get(name) {
                None => return false,
                Some(entry) => match entry.directory() {
                    None => return false,
                    Some(below) => return has_unsaved(below, rest),
                },
            }
        }
    }
}

/// Whether a loaded directory above the entry at a path is unsaved: one look-up for each name.
fn is_unsaved_above<A: Allocator + Clone, W: World, F: Files<W>>(
    inodes: &Inodes<A, W, F>,
    path: &[Name],
) -> bool
    ensures clear { IsFalse result → IsSavedAbove path.now inodes.now.root }
    ensures found { IsTrue result → ¬ IsSavedAbove path.now inodes.now.root }
{
    match inodes.directory(&path[..0]) {
        None => false,
        Some(dir) => has_unsaved(dir, path),
    }
}

/// Stores the loaded directories above the entry at a path that are unsaved, from the root down, and takes their marks
/// off. Where none is, nothing is done.
///
/// The tree that is shown is as before, and no name moves. Errors: `Overlay` where the device failed, and `Memory`; the
/// directories below the one that was refused are as they were then.
pub fn save_above<A: Allocator + Clone, W: World, F: Files<W>>(
    inodes: &mut Inodes<A, W, F>,
    alloc: Global,
    path: &[Name],
) -> Result<(), Fault>
    ensures saves { SavesAbove W.honest path.now (F.stored inodes.old.files) inodes.old.root
        (F.stored inodes.new.files) inodes.new.root }
    ensures saved { OnOk result (IsSavedAbove path.now inodes.new.root) }
    ensures fault { IfErr result (IsStoreFault (F.failures inodes.old.files) (F.failures inodes.new.files)) }
    ensures counted { OnOk result (F.failures inodes.new.files ≡ F.failures inodes.old.files) }
    ensures shown { W.honest → shows W.World F.Files inodes.new ≡ shows W.World F.Files inodes.old }
    ensures numbers { W.honest → ShowsSameNumbers F.Files inodes.old inodes.new }
    ensures names { KeepsNames inodes.old.root inodes.new.root }
    ensures changes { inodes.new.changes ≡ inodes.old.changes }
    ensures rest { (inodes.new.next ≡ inodes.old.next) × (inodes.new.clock ≡ inodes.old.clock) }
    ensures idle { IsSavedAbove path.now inodes.old.root → inodes.new ≡ inodes.old }
{
    if !is_unsaved_above(inodes, path) {
        return Ok(());
    }
    for i in 0..path.len() {
        match save_at(inodes, alloc, &path[..i]) {
            Ok(()) => {}
            Err(fault) => return Err(fault),
        }
    }
    Ok(())
}
