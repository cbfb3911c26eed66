//! An entry added to the table of a mount.

ghost use Rattle.std.specs.Prelude.{◌≡◌, ◌<◌, ◌^◌, ◌∷◌, [], ◌++◌, ◌+◌, min, true, Err, Some, length, MatchBool};
ghost use Rattle.std.specs.Prelude.{OnOk, OnErr};
ghost use Rattle.eden_model.specs.declared.fault.Fault.TheVariants as fault;
ghost use Rattle.eden_model.specs.Limits.{number_end};
ghost use Rattle.eden_coupling.specs.Changing.{HasRoom};
ghost use Rattle.eden_coupling.specs.Filing.{leaf};
ghost use Rattle.eden_inode.specs.Tables.{ShowsSameNumbers};
ghost use Rattle.eden_materialise.specs.Renumbering.{PutsNumber};
ghost use Rattle.eden_materialise.specs.Atomic.{IsAtomic};
ghost use Rattle.eden_materialise.specs.Filing.{node_as, with_own, own_row, IsShort, LacksEntry, MayAdd, FilesEntry};
ghost use Rattle.eden_materialise.specs.Filing.{StoresNew, RefusesNew, MayGiveNumber, IsAddFault};
ghost use Rattle.eden_materialise.specs.Listings.{PutsEntry};
ghost use Rattle.eden_materialise.specs.Puts.{AtDirectory};
ghost use Rattle.eden_materialise.specs.Showing.{ShowsAt};

use crate::entry_change::put_in;
use crate::fault::told;
use crate::new_entry::{NewEntry, own_entry, store_own};
use eden_inode::Inodes;
use eden_model::{Fault, Name, World};
use eden_overlay::{Files, Overlay};
use eden_tree::{Change, Entry};
use std::alloc::{Allocator, Global};

/// Whether the loaded directory at a path has room for one entry more.
fn has_room<A: Allocator + Clone, W: World, F: Files<W>>(
    inodes: &Inodes<A, W, F>,
    path: &[Name],
    name: &Name,
) -> bool
    requires { LacksEntry inodes.now.root path.now name.now }
    ensures { AtDirectory path.now inodes.now.root
        (λ y d. MatchBool result (HasRoom d name.now) (¬ HasRoom d name.now)) }
{
    match inodes.directory(path) {
        None => unreachable!(),
        Some(dir) => dir.count() < u32::MAX,
    }
}

/// A new entry that is to come, of a number that was given for it.
#[derive(Drop)]
struct Addition<'a> {
    alloc: Global,
    path: &'a [Name],
    name: &'a Name,
    number: u64,
    new: NewEntry<'a>,
}

impl<A: Allocator, W: World, F: Files<W>> Change<A, Overlay<W, F>> for Addition<'_> {
    type Output = Result<(), Fault>;

    ghost may = { λ addition overlay x.
        MayAdd W.honest W.repository (F.stored overlay) x addition.path.now addition.name.now addition.number
        addition.new };

    ghost does = { λ addition old x new z answer.
        FilesEntry W.honest addition.path.now addition.name.now (own_row addition.number addition.new)
        (F.stored old) (with_own (F.stored old) addition.number addition.new) x (F.failures old) (F.stored new)
        z (F.failures new) answer };

    fn change(self, overlay: &mut Overlay<W, F>, entry: &mut Entry<A>) -> Result<(), Fault> {
        match store_own(self.alloc, overlay, self.number, self.new) {
            Err(fault) => return Err(told(fault)),
            Ok(()) => {
                let new = own_entry(self.number, self.new);
                match put_in(self.alloc, entry, overlay, self.path, self.name, new) {
                    Ok(()) => return Ok(()),
                    Err(fault) => return Err(told(fault)),
                }
            }
        }
    }
}

/// Adds an entry of a name that the loaded directory at a path lacks. It is given the next number, and its own file is
/// stored under that, which nothing names yet; then the directory is stored with the entry, and the chain above it as
/// far as it isn't the mount's own; then memory is so.
///
/// The tree that is shown has the new file, link or empty directory there, and is as before elsewhere. Errors:
/// `Memory`, first of all where the directory has no room for one entry more; `Numbers` where no number is left, and
/// then nothing has changed; and `Overlay` where the device failed. Memory is as it was then, and so is what is shown;
/// the number stays given.
pub fn add_entry<A: Allocator + Clone, W: World, F: Files<W>>(
    inodes: &mut Inodes<A, W, F>,
    alloc: Global,
    path: &[Name],
    name: &Name,
    new: NewEntry<'_>,
) -> Result<(), Fault>
    requires lacks { LacksEntry inodes.old.root path.now name.now }
    requires short { IsShort new }
    ensures ok { OnOk result (PutsEntry path.now name.now (Some (own_row inodes.old.next new.entry))
        inodes.old.root inodes.new.root) }
    ensures stored { W.honest
        → OnOk result (StoresNew F.Files path.now name.now new.entry inodes.old inodes.new) }
    ensures atomic { IsAtomic W.World F.Files (IsAddFault inodes.old.next) inodes.old inodes.new result }
    ensures strays { W.honest
        → OnErr result (RefusesNew F.Files path.now new.entry inodes.old inodes.new) }
    ensures numbers { inodes.old.next ≡ number_end
        → AtDirectory path.now inodes.old.root (λ y d. HasRoom d name.now → result ≡ Err fault.Numbers) }
    ensures unused { result ≡ Err fault.Numbers → inodes.new ≡ inodes.old }
    ensures counted { OnOk result (F.failures inodes.new.files ≡ F.failures inodes.old.files) }
    ensures shown { W.honest
        → OnOk result (ShowsAt W.World F.Files (path.now ++ name.now ∷ []) (leaf (node_as new.entry))
        inodes.old inodes.new) }
    ensures renumbers { W.honest
        → OnOk result (PutsNumber F.Files (path.now ++ name.now ∷ []) (Some inodes.old.next) inodes.old inodes.new) }
    ensures unnumbered { W.honest → OnErr result (ShowsSameNumbers F.Files inodes.old inodes.new) }
    ensures next { OnOk result (inodes.new.next ≡ inodes.old.next + 1) }
    ensures changes { OnOk result (inodes.new.changes ≡ min (inodes.old.changes + 1) u64.MAX) }
    ensures given { OnErr result (MayGiveNumber inodes.old inodes.new) }
{
    inodes.holds();
    if !has_room(inodes, path, name) {
        return Err(Fault::Memory);
    }
    // Says to the proof that the name is one.
    let _ = name.as_slice();
    match inodes.give_number() {
        None => return Err(Fault::Numbers),
        Some(number) => {
            inodes.holds();
            return inodes.change(Addition {
                alloc,
                path,
                name,
                number,
                new,
            });
        }
    }
}
