//! A directory made ready to go along with its entry.
ghost use Rattle.std.specs.Prelude.{◌≡◌, ◌∷◌, [], ◌++◌, IsTrue, IfOk, IfSome, OnOk};
ghost use Rattle.eden_model.specs.Trees.{Name};
ghost use Rattle.eden_inode.specs.Saved.{AreSavedAt};
ghost use Rattle.eden_ops.specs.Carrying.{IsBareAt, StaysToThere};
ghost use Rattle.eden_ops.specs.Relocating.{Readies};

use crate::letting_go::let_go;
use crate::settle::settle;
use eden_inode::{Inodes, has_none_inside};
use eden_model::{Fault, Name, World};
use eden_overlay::{Files, FilesFault};
use std::alloc::{AllocError, Allocator, Global};

/// The path of an entry in the directory at a path.
fn inside(alloc: Global, path: &[Name], name: &Name) -> Result<Vec<Name>, AllocError>
    ensures { IfOk result (λ names. names.items ≡ path.now ++ name.now ∷ []) }
{
    let mut names = Vec::with_capacity(alloc, path.len().saturating_add(1))?;
    for above in path {
        names.push(above.copy(alloc)?)?;
    }
    names.push(name.copy(alloc)?)?;
    Ok(names)
}

/// The path of the loaded directory at a position of the one at a path: None if that is none.
fn loaded_inside<A: Allocator + Clone, W: World, F: Files<W>>(
    inodes: &Inodes<A, W, F>,
    alloc: Global,
    path: &[Name],
    position: u32,
) -> Result<Option<Vec<Name>>, AllocError>
    ensures { IfOk result (λ found. IfSome found (λ names. (n : Name) × (names.items ≡ path.now ++ n ∷ []))) }
{
    let Some(dir) = inodes.directory(path) else {
        return Ok(None);
    };
    match dir.at(position) {
        None => Ok(None),
        Some((name, entry)) => {
            if entry.child.is_none() {
                return Ok(None);
            }
            match inside(alloc, path, name) {
                Ok(names) => Ok(Some(names)),
                Err(refused) => Err(refused),
            }
        }
    }
}

/// Unloads what is loaded at and below the entry at a position of the directory at a path.
fn let_go_at<A: Allocator + Clone, W: World, F: Files<W>>(
    inodes: &mut Inodes<A, W, F>,
    alloc: Global,
    path: &[Name],
    position: u32,
) -> Result<(), Fault>
    ensures stays { StaysToThere path.now inodes.old.root inodes.new.root }
    ensures readies { Readies W.World F.Files inodes.old inodes.new result }
{
    match loaded_inside(inodes, alloc, path, position) {
        Err(_) => Err(Fault::Memory),
        Ok(None) => Ok(()),
        Ok(Some(names)) => let_go(inodes, alloc, names.as_slice()),
    }
}

/// Unloads what is loaded below the directory at a path.
fn let_go_below<A: Allocator + Clone, W: World, F: Files<W>>(
    inodes: &mut Inodes<A, W, F>,
    alloc: Global,
    path: &[Name],
) -> Result<(), Fault>
    ensures stays { StaysToThere path.now inodes.old.root inodes.new.root }
    ensures readies { Readies W.World F.Files inodes.old inodes.new result }
{
    let count = match inodes.directory(path) {
        None => 0,
        Some(dir) => dir.count(),
    };
    for i in 0..count {
        match let_go_at(inodes, alloc, path, i) {
            Ok(()) => {}
            Err(fault) => return Err(fault),
        }
    }
    Ok(())
}

/// Stores the directory at a path, which has this name, if it is unsaved.
fn settle_at<A: Allocator + Clone, W: World, F: Files<W>>(
    inodes: &mut Inodes<A, W, F>,
    alloc: Global,
    path: &[Name],
    name: &Name,
) -> Result<(), Fault>
    ensures stays { StaysToThere path.now inodes.old.root inodes.new.root }
    ensures readies { Readies W.World F.Files inodes.old inodes.new result }
{
    let unsaved = match inodes.directory(path) {
        None => false,
        Some(dir) => dir.unsaved(),
    };
    if !unsaved {
        return Ok(());
    }
    // Any path below it serves: what is unsaved above its end is stored.
    match inside(alloc, path, name) {
        Err(_) => Err(Fault::Memory),
        Ok(names) => settle(inodes, alloc, names.as_slice()),
    }
}

/// Makes what is loaded at a path ready to go along with its entry: what is loaded below it is unloaded, and it is
/// stored if it is unsaved.
///
/// Errors: `Overlay` if the device failed, and `Memory`. The directory stays loaded.
pub(crate) fn ready<A: Allocator + Clone, W: World, F: Files<W>>(
    inodes: &mut Inodes<A, W, F>,
    alloc: Global,
    path: &[Name],
    name: &Name,
) -> Result<(), Fault>
    ensures stays { StaysToThere path.now inodes.old.root inodes.new.root }
    ensures readies { Readies W.World F.Files inodes.old inodes.new result }
{
    match let_go_below(inodes, alloc, path) {
        Ok(()) => {}
        Err(fault) => return Err(fault),
    }
    settle_at(inodes, alloc, path, name)
}

/// Has the numbers saved of the directory that is loaded at a path, if it stands on a tree object.
///
/// Errors: `Overlay` if the device failed, and `Memory`.
pub(crate) fn save_numbers<A: Allocator + Clone, W: World, F: Files<W>>(
    inodes: &mut Inodes<A, W, F>,
    alloc: Global,
    path: &[Name],
) -> Result<(), Fault>
    ensures saved { W.honest → OnOk result (AreSavedAt (F.stored inodes.new.files) path.now inodes.new.root) }
    ensures root { inodes.new.root ≡ inodes.old.root }
    ensures readies { Readies W.World F.Files inodes.old inodes.new result }
{
    match inodes.save_numbers(alloc, path) {
        Ok(()) => Ok(()),
        Err(FilesFault::Device) => Err(Fault::Overlay),
        Err(FilesFault::Memory) => Err(Fault::Memory),
    }
}

/// Whether the directory that is loaded at a path, if any, is saved, with none loaded inside.
pub(crate) fn is_bare<A: Allocator + Clone, W: World, F: Files<W>>(
    inodes: &Inodes<A, W, F>,
    path: &[Name],
) -> bool
    ensures { IsTrue result → IsBareAt path.now inodes.now.root }
{
    match inodes.directory(path) {
        None => true,
        Some(dir) => !dir.unsaved() && has_none_inside(dir),
    }
}
