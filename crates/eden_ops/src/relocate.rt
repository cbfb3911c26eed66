//! Entries that go to another path.
ghost use Rattle.std.specs.Prelude.{◌≡◌, OnOk};
ghost use Rattle.eden_coupling.specs.Chains.{IsLoadedAt, StaysLoaded};
ghost use Rattle.eden_coupling.specs.Saving.{IsSavedAbove};
ghost use Rattle.eden_ops.specs.Carrying.{CanCarry};
ghost use Rattle.eden_ops.specs.Relocating.{CanRelocate, IsUnloadedAt, StaysBeside, both_owned, Readies, Relocates};
ghost use Rattle.eden_ops.specs.Settling.{Settles};

use crate::letting_go::let_go;
use crate::move_dir::move_dir;
use crate::ready::{is_bare, ready};
use crate::settle::settle;
use eden_inode::Inodes;
use eden_materialise::{materialise, move_entry};
use eden_model::{Fault, Name, Path, World};
use eden_overlay::Files;
use std::alloc::{Allocator, Global};

/// Makes the loaded directories along both paths the mount's own.
fn own_both<A: Allocator + Clone, W: World, F: Files<W>>(
    inodes: &mut Inodes<A, W, F>,
    alloc: Global,
    one: &[Name],
    other: &[Name],
) -> Result<(), Fault>
    requires one { IsLoadedAt one.now inodes.old.root }
    requires other { IsLoadedAt other.now inodes.old.root }
    ensures owned { OnOk result (inodes.new.root ≡ both_owned one.now other.now inodes.old.root) }
    ensures stays { StaysLoaded inodes.old.root inodes.new.root }
    ensures readies { Readies W.World F.Files inodes.old inodes.new result }
{
    materialise(inodes, alloc, one)?;
    materialise(inodes, alloc, other)
}

/// Makes ready what an entry takes along to another path, and that path: what is loaded below the entry, and at and
/// below that path, is unloaded, a loaded directory is stored if it is unsaved, and the directories above both become
/// the mount's own.
fn clear_way<A: Allocator + Clone, W: World, F: Files<W>>(
    inodes: &mut Inodes<A, W, F>,
    alloc: Global,
    from: &[Name],
    to: &[Name],
) -> Result<(), Fault>
    requires may { CanRelocate inodes.old.root from.now to.now }
    ensures can { OnOk result (CanCarry inodes.new.root from.now to.now) }
    ensures stays { StaysBeside from.now to.now inodes.old.root inodes.new.root }
    ensures loaded { IsLoadedAt from.now inodes.old.root → IsLoadedAt from.now inodes.new.root }
    ensures readies { Readies W.World F.Files inodes.old inodes.new result }
{
    let Some((name, above)) = from.split_last() else {
        unreachable!()
    };
    let Some((_, new_above)) = to.split_last() else {
        unreachable!()
    };
    match ready(inodes, alloc, from, name) {
        Ok(()) => {}
        Err(fault) => return Err(fault),
    }
    match let_go(inodes, alloc, to) {
        Ok(()) => {}
        Err(fault) => return Err(fault),
    }
    match own_both(inodes, alloc, above, new_above) {
        Ok(()) => {}
        Err(fault) => return Err(fault),
    }
    if !is_bare(inodes, from) {
        return Err(Fault::Memory);
    }
    Ok(())
}

/// Moves the entry at one path, which holds no directory, to another, in place of what stands there.
fn move_bare<A: Allocator + Clone, W: World, F: Files<W>>(
    inodes: &mut Inodes<A, W, F>,
    alloc: Global,
    from: &[Name],
    to: &[Name],
) -> Result<(), Fault>
    requires may { CanCarry inodes.old.root from.now to.now }
    requires away { IsUnloadedAt from.now inodes.old.root }
    ensures { Relocates W.World F.Files from.now to.now inodes.old inodes.new result }
{
    let Some((name, above)) = from.split_last() else {
        unreachable!()
    };
    let Some((new_name, new_above)) = to.split_last() else {
        unreachable!()
    };
    inodes.holds();
    match move_entry(inodes, alloc, above, name, new_above, new_name) {
        Ok(()) => Ok(()),
        Err(fault) => Err(fault),
    }
}

/// Moves the entry at one path to another, in place of what stands there. A loaded directory goes along, with its
/// listing.
fn carry<A: Allocator + Clone, W: World, F: Files<W>>(
    inodes: &mut Inodes<A, W, F>,
    alloc: Global,
    from: &[Name],
    to: &[Name],
) -> Result<(), Fault>
    requires may { CanRelocate inodes.old.root from.now to.now }
    ensures { Relocates W.World F.Files from.now to.now inodes.old inodes.new result }
{
    match clear_way(inodes, alloc, from, to) {
        Ok(()) => {}
        Err(fault) => return Err(fault),
    }
    if inodes.directory(from).is_some() {
        return move_dir(inodes, alloc, from, to);
    }
    move_bare(inodes, alloc, from, to)
}

/// Stores the loaded directories above both entries that are unsaved.
fn settle_both<A: Allocator + Clone, W: World, F: Files<W>>(
    inodes: &mut Inodes<A, W, F>,
    alloc: Global,
    from: &Path,
    to: &Path,
) -> Result<(), Fault>
    ensures settles { Settles W.World F.Files inodes.old inodes.new result }
    ensures saved { OnOk result (IsSavedAbove from.now inodes.new.root × IsSavedAbove to.now inodes.new.root) }
{
    if let Err(fault) = settle(inodes, alloc, from.as_slice()) {
        return Err(fault);
    }
    settle(inodes, alloc, to.as_slice())
}

/// Moves the entry at one path to another, in place of what stands there. What is unsaved above both is stored first,
/// what is loaded below it and at and below the other path is unloaded, and the directories above both become the
/// mount's own. A loaded directory stays so, with its entries and their numbers: at the new path, or after a fault
/// where it was.
///
/// Errors: `Overlay` if the device failed, and `Memory`, also if there is no room for one more entry. What is shown is
/// as before then; the directory above the entry may be left unsaved.
pub(crate) fn relocate<A: Allocator + Clone, W: World, F: Files<W>>(
    inodes: &mut Inodes<A, W, F>,
    alloc: Global,
    from: &Path,
    to: &Path,
) -> Result<(), Fault>
    requires may { CanRelocate inodes.old.root from.now to.now }
    ensures relocates { Relocates W.World F.Files from.now to.now inodes.old inodes.new result }
    ensures saved { OnOk result (IsSavedAbove from.now inodes.new.root × IsSavedAbove to.now inodes.new.root) }
{
    if let Err(fault) = settle_both(inodes, alloc, from, to) {
        return Err(fault);
    }
    carry(inodes, alloc, from.as_slice(), to.as_slice())
}
