//! An entry moved in the table of a mount.

ghost use Rattle.std.specs.Prelude.{◌≡◌, ◌≢◌, ◌≤◌, ◌∷◌, [], ◌++◌, ◌+◌, ℕ, min, true, Err, Some, None, MatchBool};
ghost use Rattle.std.specs.Prelude.{IsSome, IsSomeAnd, IfSome, IfErr, OnOk, OnErr};
ghost use Rattle.eden_model.specs.Failures.{Counted};
ghost use Rattle.eden_model.specs.Names.{name_refusal};
ghost use Rattle.eden_model.specs.Operations.{move};
ghost use Rattle.eden_overlay.specs.Held.{without};
ghost use Rattle.eden_overlay.specs.Soundness.{AreSound};
ghost use Rattle.eden_overlay.specs.declared.files.FilesFault.TheVariants as files;
ghost use Rattle.eden_tree.specs.Directory.{child_of};
ghost use Rattle.eden_tree.specs.Rows.{find_row};
ghost use Rattle.eden_tree.specs.Paths.{row_at};
ghost use Rattle.eden_coupling.specs.Changing.{HasRoom, MayMove, moved_in, files_moved};
ghost use Rattle.eden_coupling.specs.Chains.{StaysLoaded, NoneMarked};
ghost use Rattle.eden_coupling.specs.Moving.{CanMove};
ghost use Rattle.eden_coupling.specs.Ties.{IsAway};
ghost use Rattle.eden_inode.specs.Tables.{shows, ShowsSameNumbers};
ghost use Rattle.eden_materialise.specs.Renumbering.{MovesNumbers};
ghost use Rattle.eden_materialise.specs.EntryMoves.{own_number, Clears, MovesIn, IsMoved, IsUnmoved, MovesEntry};
ghost use Rattle.eden_materialise.specs.Faults.{IsStoreFault};
ghost use Rattle.eden_materialise.specs.Puts.{AtDirectory};

use crate::fault::told;
use crate::moving::move_between;
use crate::renaming::move_within;
use eden_inode::Inodes;
use eden_model::{Fault, Kind, Name, Origin, World};
use eden_overlay::{Files, FilesFault, Overlay};
use eden_tree::{Change, Entry};
use std::alloc::{Allocator, Global};

/// What a change meets under a name of a directory.
#[derive(Drop)]
pub(crate) struct Spot {
    /// Whether the name is there, or one entry more can be.
    pub(crate) has_room: bool,
    /// The number of an entry that is there and may have a file.
    pub(crate) own: Option<u64>,
}

/// What a change meets under a name of the loaded directory at a path.
pub(crate) fn spot_at<A: Allocator>(root: &Entry<A>, path: &[Name], name: &Name) -> Spot
    requires { IsSomeAnd (row_at path.now root.now) (λ y. IsSome (child_of y)) }
    ensures room { result.has_room ≡ true → AtDirectory path.now root.now (λ y d. HasRoom d name.now) }
    ensures own { AtDirectory path.now root.now (λ y d. result.own ≡ own_number (find_row name.now d.rows)) }
{
    match root.walk(path) {
        None => unreachable!(),
        Some(above) => match above.directory() {
            None => unreachable!(),
            Some(dir) => match dir.get(name) {
                None => {
                    return Spot {
                        has_room: dir.count() < u32::MAX,
                        own: None,
                    };
                }
                Some(entry) => {
                    return Spot {
                        has_room: true,
                        own: number_of_own(entry),
                    };
                }
            },
        },
    }
}

/// The number of an entry that may have a file: its own, or that of its numbers.
fn number_of_own<A: Allocator>(entry: &Entry<A>) -> Option<u64>
    ensures { result ≡ own_number (Some entry.now) }
{
    match entry.origin {
        Origin::Own => Some(entry.number),
        Origin::Empty => None,
        Origin::Object(_) => match entry.kind {
            Kind::Dir => Some(entry.number),
            Kind::File | Kind::Exec | Kind::Link => None,
        },
    }
}

/// Whether two paths are one.
fn is_same(one: &[Name], other: &[Name]) -> bool
    ensures { MatchBool result (one.now ≡ other.now) (one.now ≢ other.now) }
{
    match one.split_first() {
        None => return other.is_empty(),
        Some((name, rest)) => match other.split_first() {
            None => return false,
            Some((other_name, other_rest)) => {
                if *name == *other_name {
                    return is_same(rest, other_rest);
                }
                return false;
            }
        },
    }
}

/// Moves an entry by two stores, or within one directory by one.
fn store_move<A: Allocator, W: World, F: Files<W>>(
    alloc: Global,
    root: &mut Entry<A>,
    overlay: &mut Overlay<W, F>,
    from: &[Name],
    name: &Name,
    to: &[Name],
    new_name: &Name,
) -> Result<(), FilesFault>
    requires can { MovesIn W.honest (F.stored overlay.old) root.old from.now name.now to.now new_name.now }
    requires may { MayMove root.old from.now name.now to.now new_name.now }
    ensures ok { (m : MayMove root.old from.now name.now to.now new_name.now)
        → OnOk result (root.new ≡ moved_in root.old from.now name.now to.now new_name.now m) }
    ensures stored { W.honest → (m : MayMove root.old from.now name.now to.now new_name.now)
        → OnOk result (F.stored overlay.new ≡ files_moved root.old from.now name.now to.now new_name.now m
        (F.stored overlay.old)) }
    ensures err { OnErr result
        (IsUnmoved W.honest from.now name.now to.now new_name.now (F.stored overlay.old) root.old
        (F.stored overlay.new) root.new) }
    ensures counted { Counted (result ≡ Err files.Device) (F.failures overlay.old) (F.failures overlay.new) }
{
    if is_same(from, to) {
        return move_within(alloc, root, overlay, from, name, new_name);
    }
    return move_between(alloc, root, overlay, from, name, to, new_name);
}

/// Removes the file of an entry that was replaced or left out. One that the device doesn't remove is left, and nothing
/// names it.
pub(crate) fn remove_replaced<W: World, F: Files<W>>(overlay: &mut Overlay<W, F>, own: Option<u64>)
    requires { W.honest → IfSome own (λ k. AreSound (without (F.stored overlay.old) k)) }
    ensures { Clears W.honest (F.stored overlay.old) (F.failures overlay.old) (F.stored overlay.new)
        (F.failures overlay.new) own }
{
    match own {
        None => return,
        Some(number) => match overlay.remove(number) {
            Ok(()) => return,
            Err(_) => return,
        },
    }
}

/// An entry that is to move: from a name of the directory at one path to one of that at another.
#[derive(Drop)]
struct EntryMove<'a> {
    alloc: Global,
    from: &'a [Name],
    name: &'a Name,
    to: &'a [Name],
    new_name: &'a Name,
}

impl<A: Allocator, W: World, F: Files<W>> Change<A, Overlay<W, F>> for EntryMove<'_> {
    type Output = Result<(), Fault>;

    ghost may = { λ entry_move overlay x.
        MovesIn W.honest (F.stored overlay) x entry_move.from.now entry_move.name.now entry_move.to.now
        entry_move.new_name.now };

    ghost does = { λ entry_move old x new z answer.
        MovesEntry W.honest entry_move.from.now entry_move.name.now entry_move.to.now entry_move.new_name.now
        (F.stored old) x (F.failures old) (F.stored new) z (F.failures new) answer };

    fn change(self, overlay: &mut Overlay<W, F>, entry: &mut Entry<A>) -> Result<(), Fault> {
        let spot = spot_at(entry, self.to, self.new_name);
        if !spot.has_room {
            return Err(Fault::Memory);
        }
        // Says to the proof that the name is one.
        let _ = self.new_name.as_slice();
        match store_move(
            self.alloc,
            entry,
            overlay,
            self.from,
            self.name,
            self.to,
            self.new_name,
        ) {
            Ok(()) => {
                remove_replaced(overlay, spot.own);
                return Ok(());
            }
            Err(fault) => return Err(told(fault)),
        }
    }
}

/// Moves an entry that isn't loaded from a name of the directory at one path to a name of that at another, or within
/// one, in place of one that isn't loaded either. Both directories are loaded and the mount's own: the first is stored
/// without the entry, then the other with it, and then both are so in memory, saved; one directory is stored once. The
/// file of an entry that was replaced, its own or that of its numbers, is removed last; where the device fails at that
/// it is left, and the answer is Ok all the same.
///
/// The tree that is shown has at and below the new path what stood at and below the old one, and nothing there. Errors:
/// `Overlay` where the device failed, and `Memory`, also where a directory has no room for one more entry. Memory and
/// files are as before then; or the first directory is stored without the entry, and marked unsaved. What is shown is
/// as before.
pub fn move_entry<A: Allocator + Clone, W: World, F: Files<W>>(
    inodes: &mut Inodes<A, W, F>,
    alloc: Global,
    from: &[Name],
    name: &Name,
    to: &[Name],
    new_name: &Name,
) -> Result<(), Fault>
    requires may { CanMove inodes.old.root from.now name.now to.now new_name.now }
    ensures ok { OnOk result
        (IsMoved W.honest from.now name.now to.now new_name.now (F.stored inodes.old.files) inodes.old.root
        (F.failures inodes.old.files) (F.stored inodes.new.files) inodes.new.root (F.failures inodes.new.files)) }
    ensures err { OnErr result
        (IsUnmoved W.honest from.now name.now to.now new_name.now (F.stored inodes.old.files) inodes.old.root
        (F.stored inodes.new.files) inodes.new.root) }
    ensures fault { IfErr result (IsStoreFault (F.failures inodes.old.files) (F.failures inodes.new.files)) }
    ensures counted { OnOk result (F.failures inodes.old.files ≤ F.failures inodes.new.files) }
    ensures loaded { StaysLoaded inodes.old.root inodes.new.root }
    ensures marks { OnOk result (NoneMarked inodes.old.root inodes.new.root) }
    ensures elsewhere { W.honest
        → AtDirectory to.now inodes.old.root
        (λ y d. (k : ℕ) → IsAway inodes.old.root k → own_number (find_row new_name.now d.rows) ≢ Some k
        → F.stored inodes.new.files k ≡ F.stored inodes.old.files k) }
    ensures shown { W.honest
        → OnOk result (shows W.World F.Files inodes.new ≡ move (shows W.World F.Files inodes.old)
        (from.now ++ name.now ∷ []) (to.now ++ new_name.now ∷ [])) }
    ensures unseen { W.honest → OnErr result (shows W.World F.Files inodes.new ≡ shows W.World F.Files inodes.old) }
    ensures renumbers { W.honest → OnOk result (MovesNumbers F.Files (from.now ++ name.now ∷ [])
        (to.now ++ new_name.now ∷ []) inodes.old inodes.new) }
    ensures unnumbered { W.honest → OnErr result (ShowsSameNumbers F.Files inodes.old inodes.new) }
    ensures changes { inodes.new.changes ≡ min (inodes.old.changes + 1) u64.MAX }
    ensures rest { (inodes.new.next ≡ inodes.old.next) × (inodes.new.clock ≡ inodes.old.clock) }
{
    inodes.holds();
    inodes.change(EntryMove {
        alloc,
        from,
        name,
        to,
        new_name,
    })
}
