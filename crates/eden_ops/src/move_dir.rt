//! A loaded directory that goes along with its entry, to another path.
ghost use Rattle.std.specs.Prelude.{◌≡◌, ◌+◌, min, Some, None, IsSome};
ghost use Rattle.std.specs.Option.{option_map};
ghost use Rattle.eden_model.specs.declared.kind.Kind.TheVariants as kind;
ghost use Rattle.eden_tree.specs.Directory.{Row, child_of, with_child};
ghost use Rattle.eden_tree.specs.Paths.{row_at};
ghost use Rattle.eden_coupling.specs.Chains.{IsLoadedAt};
ghost use Rattle.eden_coupling.specs.Changing.{with_listing};
ghost use Rattle.eden_inode.specs.Saved.{AreSavedAt};
ghost use Rattle.eden_inode.specs.Tables.{shows, ShowsSameNumbers};
ghost use Rattle.eden_materialise.specs.Puts.{AtDirectory};
ghost use Rattle.eden_ops.specs.Carrying.{CanCarry, CanHold, IsReady, Takes, without_at};
ghost use Rattle.eden_ops.specs.Relocating.{Relocates};

use crate::ready::save_numbers;
use eden_inode::Inodes;
use eden_materialise::move_entry;
use eden_model::{Fault, Name, World};
use eden_overlay::{Files, Overlay};
use eden_tree::{Change, Dir, Entry};
use std::alloc::{Allocator, Global};

/// The loaded directory of an entry is taken out.
#[derive(Drop)]
struct Detaching;

impl<A: Allocator> Change<A, ()> for Detaching {
    type Output = Option<Box<Dir<A>, A>>;

    ghost may = { λ detaching s x. Unit {0} };

    ghost does = { λ detaching s x t z answer.
        (z ≡ with_child None x)
        × ((option_map (λ b. b.value) answer ≡ child_of x) × (IsSome (child_of x) → x.kind ≡ kind.Dir)) };

    fn change(self, _: &mut (), entry: &mut Entry<A>) -> Option<Box<Dir<A>, A>> {
        entry.child.take()
    }
}

/// The loaded directory at a path is taken out.
#[derive(Drop)]
struct Taking<'a> {
    path: &'a [Name],
}

impl<A: Allocator, W: World, F: Files<W>> Change<A, Overlay<W, F>> for Taking<'_> {
    type Output = Option<Box<Dir<A>, A>>;

    ghost may = { λ taking overlay x. IsSome (row_at taking.path.now x) };

    ghost does = { λ taking old x new z answer.
        (new ≡ old) × Takes taking.path.now x z (option_map (λ b. b.value) answer) };

    fn change(self, _: &mut Overlay<W, F>, entry: &mut Entry<A>) -> Option<Box<Dir<A>, A>> {
        match entry.change_at(self.path, &mut (), Detaching) {
            None => None,
            Some(taken) => taken,
        }
    }
}

/// Takes out the loaded directory at a path, which is ready for that, with its numbers saved. The tree that is shown is
/// as before.
fn take<A: Allocator + Clone, W: World, F: Files<W>>(
    inodes: &mut Inodes<A, W, F>,
    path: &[Name],
) -> Box<Dir<A>, A>
    requires ready { IsReady path.now inodes.old.root }
    requires saved { W.honest → AreSavedAt (F.stored inodes.old.files) path.now inodes.old.root }
    ensures taken { AtDirectory path.now inodes.old.root (λ y d. (result.value ≡ d) × (y.kind ≡ kind.Dir)) }
    ensures root { inodes.new.root ≡ without_at path.now inodes.old.root }
    ensures files { inodes.new.files ≡ inodes.old.files }
    ensures shown { W.honest → shows W.World F.Files inodes.new ≡ shows W.World F.Files inodes.old }
    ensures numbers { W.honest → ShowsSameNumbers F.Files inodes.old inodes.new }
    ensures changes { inodes.new.changes ≡ min (inodes.old.changes + 1) u64.MAX }
    ensures rest { (inodes.new.next ≡ inodes.old.next) × (inodes.new.clock ≡ inodes.old.clock) }
{
    inodes.holds();
    match inodes.change(Taking { path }) {
        Some(child) => child,
        None => unreachable!(),
    }
}

/// A directory that an entry holds from then on.
#[derive(Drop)]
struct Holding<A: Allocator> {
    child: Box<Dir<A>, A>,
}

impl<A: Allocator> Change<A, ()> for Holding<A> {
    type Output = ();

    ghost may = { λ holding s x. x.kind ≡ kind.Dir };

    ghost does = { λ holding s x t z answer. z ≡ with_child (Some holding.child.value) x };

    fn change(self, _: &mut (), entry: &mut Entry<A>) {
        let Holding { child } = self;
        entry.child = Some(child);
    }
}

/// A directory that the entry at a path holds from then on.
#[derive(Drop)]
struct Putting<'a, A: Allocator> {
    path: &'a [Name],
    child: Box<Dir<A>, A>,
}

impl<A: Allocator, W: World, F: Files<W>> Change<A, Overlay<W, F>> for Putting<'_, A> {
    type Output = ();

    ghost may = { λ putting overlay x. (y : Row) → row_at putting.path.now x ≡ Some y → y.kind ≡ kind.Dir };

    ghost does = { λ putting old x new z answer.
        (new ≡ old) × (z ≡ with_listing putting.path.now putting.child.value x) };

    fn change(self, _: &mut Overlay<W, F>, entry: &mut Entry<A>) {
        let Putting { path, child } = self;
        let _ = entry.change_at(path, &mut (), Holding { child });
    }
}

/// Puts a directory that was taken out under the entry at a path. The tree that is shown is as before.
fn put_back<A: Allocator + Clone, W: World, F: Files<W>>(
    inodes: &mut Inodes<A, W, F>,
    path: &[Name],
    child: Box<Dir<A>, A>,
)
    requires { CanHold W.honest W.repository (F.stored inodes.old.files) inodes.old.next path.now inodes.old.root
        child.value }
    ensures root { inodes.new.root ≡ with_listing path.now child.value inodes.old.root }
    ensures files { inodes.new.files ≡ inodes.old.files }
    ensures shown { W.honest → shows W.World F.Files inodes.new ≡ shows W.World F.Files inodes.old }
    ensures numbers { W.honest → ShowsSameNumbers F.Files inodes.old inodes.new }
    ensures changes { inodes.new.changes ≡ min (inodes.old.changes + 1) u64.MAX }
    ensures rest { (inodes.new.next ≡ inodes.old.next) × (inodes.new.clock ≡ inodes.old.clock) }
{
    inodes.holds();
    inodes.change(Putting { path, child });
}

/// `move_dir` of a directory whose numbers are saved.
///
/// Nothing is stored of the directory itself, and it goes in and out without any call that can fail.
fn move_saved<A: Allocator + Clone, W: World, F: Files<W>>(
    inodes: &mut Inodes<A, W, F>,
    alloc: Global,
    from: &[Name],
    to: &[Name],
) -> Result<(), Fault>
    requires may { CanCarry inodes.old.root from.now to.now }
    requires loaded { IsLoadedAt from.now inodes.old.root }
    requires saved { W.honest → AreSavedAt (F.stored inodes.old.files) from.now inodes.old.root }
    ensures { Relocates W.World F.Files from.now to.now inodes.old inodes.new result }
{
    inodes.holds();
    let Some((name, above)) = from.split_last() else {
        unreachable!()
    };
    let Some((new_name, new_above)) = to.split_last() else {
        unreachable!()
    };
    let child = take(inodes, from);
    inodes.holds();
    match move_entry(inodes, alloc, above, name, new_above, new_name) {
        Ok(()) => {
            put_back(inodes, to, child);
            Ok(())
        }
        Err(fault) => {
            put_back(inodes, from, child);
            Err(fault)
        }
    }
}

/// Moves an entry that holds a directory to another path, in place of what stands there. The directory stays loaded,
/// with its listing: at the new path, or, if the move failed, at the old one.
///
/// The numbers of a directory on a tree object are saved first: while it moves, it is in no table.
pub(crate) fn move_dir<A: Allocator + Clone, W: World, F: Files<W>>(
    inodes: &mut Inodes<A, W, F>,
    alloc: Global,
    from: &[Name],
    to: &[Name],
) -> Result<(), Fault>
    requires may { CanCarry inodes.old.root from.now to.now }
    requires loaded { IsLoadedAt from.now inodes.old.root }
    ensures { Relocates W.World F.Files from.now to.now inodes.old inodes.new result }
{
    match save_numbers(inodes, alloc, from) {
        Ok(()) => {}
        Err(fault) => return Err(fault),
    }
    move_saved(inodes, alloc, from, to)
}
