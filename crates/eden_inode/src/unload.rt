//! Loaded directories that go.
ghost use Rattle.std.specs.Prelude.{◌≡◌, ◌≤◌, ◌-◌, ◌+◌, ◌↔◌, ◌⊎◌, ℕ, Ok, Err, Some, None, OnOk, OnErr, min, IsTrue};
ghost use Rattle.std.specs.Prelude.{IsFalse, true, false};
ghost use Rattle.eden_model.specs.declared.id.Id as id;
ghost use Rattle.eden_model.specs.declared.kind.Origin.TheVariants as origins;
ghost use Rattle.eden_model.specs.Failures.{Counted};
ghost use Rattle.eden_overlay_format.specs.Directory.{AreStorable};
ghost use Rattle.eden_overlay.specs.Files.{Stored};
ghost use Rattle.eden_overlay.specs.Soundness.{AreSound};
ghost use Rattle.eden_overlay.specs.declared.files.FilesFault.TheVariants as files;
ghost use Rattle.eden_tree.specs.Directory.{Row, child_of, with_child};
ghost use Rattle.eden_coupling.specs.Listings.{listing_of};
ghost use Rattle.eden_coupling.specs.NumberUnloads.{IsPutAway, UnloadsAway, MayGoAway};
ghost use Rattle.eden_coupling.specs.Unloading.{IsSettled, HasNoneInside};
ghost use Rattle.eden_inode.specs.Going.{IsUnloaded, MayGoInside, GoesWhole, GoesInside};

use crate::fill::holds;
use crate::gone::{Gone, NOTHING, ONE, both, refusal};
use crate::listing::{Listed, save};
use crate::numbers::save_numbers;
use eden_model::{Origin, World};
use eden_overlay::{Files, FilesFault, Overlay};
use eden_tree::{Change, Dir, Entry};
use std::alloc::{Allocator, Global};

/// Whether no entry of the directory holds a loaded one: one look at each.
pub fn has_none_inside<A: Allocator>(dir: &Dir<A>) -> bool
    ensures { IsTrue result ↔ HasNoneInside dir.now }
{
    for i in 0..dir.count() {
        match dir.at(i) {
            None => unreachable!(),
            Some((_, entry)) => {
                if entry.child.is_some() {
                    return false;
                }
            }
        }
    }
    true
}

/// Stores what has to be before a loaded directory of that number and origin goes: one that is the mount's own, where
/// it is unsaved, and the numbers of one on a tree object, where they aren't saved yet. After an error nothing has
/// changed.
fn put_away<A: Allocator, W: World, F: Files<W>>(
    dir: &Dir<A>,
    number: u64,
    origin: Origin,
    overlay: &mut Overlay<W, F>,
    alloc: Global,
) -> Result<(), FilesFault>
    requires entries { AreStorable (listing_of dir.now) }
    requires sound { (y : Row) × ((y.number ≡ number) × ((y.origin ≡ origin)
        × (W.honest → (G : Stored) → IsPutAway (F.stored overlay.old) y dir.now G → AreSound G))) }
    ensures ok { W.honest → (y : Row) → y.number ≡ number → y.origin ≡ origin
        → OnOk result (IsPutAway (F.stored overlay.old) y dir.now (F.stored overlay.new)) }
    ensures err { W.honest → OnErr result (F.stored overlay.new ≡ F.stored overlay.old) }
    ensures refused { OnErr result ((dir.now.unsaved ≡ true) ⊎ ((i : id.Id) × (origin ≡ origins.Object i))) }
    ensures counted { Counted (result ≡ Err files.Device) (F.failures overlay.old) (F.failures overlay.new) }
{
    match origin {
        Origin::Empty => Ok(()),
        Origin::Own => {
            if !dir.unsaved() {
                return Ok(());
            }
            save(alloc, overlay, number, dir, Listed::Whole)
        }
        Origin::Object(tree) => {
            holds(&tree);
            save_numbers(alloc, overlay, number, tree, dir)
        }
    }
}

/// Whether a directory of that number and origin goes: it is old enough, none is left inside, and what has to be stored
/// of it is or was now; or why that was refused.
fn may_go<A: Allocator, W: World, F: Files<W>>(
    dir: &Dir<A>,
    number: u64,
    origin: Origin,
    overlay: &mut Overlay<W, F>,
    alloc: Global,
    clock: u64,
    age: u64,
) -> Result<bool, FilesFault>
    requires entries { AreStorable (listing_of dir.now) }
    requires sound { (y : Row) × ((y.number ≡ number) × ((y.origin ≡ origin)
        × (W.honest → age ≤ clock - dir.now.stamp → HasNoneInside dir.now
        → (G : Stored) → IsPutAway (F.stored overlay.old) y dir.now G → AreSound G))) }
    ensures old { result ≡ Ok true → age ≤ clock - dir.now.stamp }
    ensures inside { result ≡ Ok true → HasNoneInside dir.now }
    ensures away { W.honest → result ≡ Ok true → (y : Row) → y.number ≡ number → y.origin ≡ origin
        → IsPutAway (F.stored overlay.old) y dir.now (F.stored overlay.new) }
    ensures stays { result ≡ Ok false → age ≤ clock - dir.now.stamp → ¬ HasNoneInside dir.now }
    ensures unchanged { W.honest → result ≡ Ok false → F.stored overlay.new ≡ F.stored overlay.old }
    ensures refused { OnErr result ((dir.now.unsaved ≡ true) ⊎ ((i : id.Id) × (origin ≡ origins.Object i))) }
    ensures left { W.honest → OnErr result (F.stored overlay.new ≡ F.stored overlay.old) }
    ensures counted { Counted (result ≡ Err files.Device) (F.failures overlay.old) (F.failures overlay.new) }
{
    if clock.saturating_sub(dir.stamp()) < age {
        return Ok(false);
    }
    if !has_none_inside(dir) {
        return Ok(false);
    }
    match put_away(dir, number, origin, overlay, alloc) {
        Ok(()) => Ok(true),
        Err(fault) => Err(fault),
    }
}

/// What came of an unload inside a loaded directory.
#[derive(Clone, Copy)]
struct Inside {
    gone: Gone,
    /// Whether the directory goes too.
    goes: bool,
}

/// Unloads what is old enough inside a directory of that number and origin, the leaves first.
#[cycle(unload)]
fn unload_inside<A: Allocator, W: World, F: Files<W>>(
    dir: &mut Dir<A>,
    number: u64,
    origin: Origin,
    overlay: &mut Overlay<W, F>,
    alloc: Global,
    clock: u64,
    age: u64,
) -> Inside
    requires may { MayGoInside W.honest clock age number origin dir.old (F.stored overlay.old) }
    ensures goes { IsTrue result.goes
        → GoesWhole W.honest clock age number origin dir.old (F.stored overlay.old) result.gone (F.stored overlay.new) }
    ensures stays { IsFalse result.goes
        → GoesInside W.honest clock age dir.old (F.stored overlay.old) result.gone dir.new (F.stored overlay.new) }
    ensures settled { IsFalse result.goes → (x : Row) → x.origin ≡ origin
        → IsSettled clock age result.gone.refused (with_child (Some dir.new) x) }
    ensures counted { Counted (result.gone.refused ≡ Some files.Device)
        (F.failures overlay.old) (F.failures overlay.new) }
{
    let mut gone = NOTHING;
    for i in 0..dir.count() {
        match dir.at_mut(i) {
            None => unreachable!(),
            Some(entry) => {
                let more = unload_entry(entry, overlay, alloc, clock, age);
                gone = both(gone, more);
            }
        }
    }
    match may_go(dir, number, origin, overlay, alloc, clock, age) {
        Ok(goes) => Inside { gone, goes },
        Err(fault) => Inside {
            gone: both(gone, refusal(fault)),
            goes: false,
        },
    }
}

/// Unloads what is old enough at and below an entry, the leaves first.
#[cycle(unload)]
fn unload_entry<A: Allocator, W: World, F: Files<W>>(
    entry: &mut Entry<A>,
    overlay: &mut Overlay<W, F>,
    alloc: Global,
    clock: u64,
    age: u64,
) -> Gone
    requires may { MayGoAway W.honest clock age (F.stored overlay.old) entry.old }
    ensures unloaded { IsUnloaded W.honest clock age (F.stored overlay.old) entry.old
        (F.stored overlay.new) entry.new result }
    ensures counted { Counted (result.refused ≡ Some files.Device) (F.failures overlay.old) (F.failures overlay.new) }
{
    let number = entry.number;
    let origin = entry.origin;
    let Inside { gone, goes } = match entry.directory_mut() {
        None => return NOTHING,
        Some(dir) => unload_inside(dir, number, origin, overlay, alloc, clock, age),
    };
    if goes {
        entry.child = None;
        both(gone, ONE)
    } else {
        gone
    }
}

/// What is old enough at and below an entry goes, at a turn of the clock.
#[derive(Drop)]
pub(crate) struct Unloading {
    pub(crate) alloc: Global,
    pub(crate) clock: u64,
    pub(crate) older_than: u64,
}

impl<A: Allocator, W: World, F: Files<W>> Change<A, Overlay<W, F>> for Unloading {
    type Output = Gone;

    ghost may = { λ u o x. MayGoAway W.honest u.clock u.older_than (F.stored o) x };

    ghost does = { λ u o x p z gone.
        IsUnloaded W.honest u.clock u.older_than (F.stored o) x (F.stored p) z gone
        × Counted (gone.refused ≡ Some files.Device) (F.failures o) (F.failures p) };

    fn change(self, overlay: &mut Overlay<W, F>, entry: &mut Entry<A>) -> Gone {
        unload_entry(entry, overlay, self.alloc, self.clock, self.older_than)
    }
}
