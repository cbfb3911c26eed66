//! A file of another kind in the table of a mount.

ghost use Rattle.std.specs.Prelude.{◌≡◌, ◌≢◌, Some, OnOk};
ghost use Rattle.eden_model.specs.declared.kind.Kind.TheVariants as kinds;
ghost use Rattle.eden_tree.specs.Directory.{Row};
ghost use Rattle.eden_coupling.specs.Filing.{HasFile};
ghost use Rattle.eden_inode.specs.Tables.{ShowsSameNumbers};
ghost use Rattle.eden_inode.specs.Trails.{KeepsNames};
ghost use Rattle.eden_materialise.specs.Atomic.{IsAtomic};
ghost use Rattle.eden_materialise.specs.Faults.{IsStoreFault};
ghost use Rattle.eden_materialise.specs.Listings.{ChangesEntry};
ghost use Rattle.eden_materialise.specs.Reforms.{of_kind, IsHeldFile, PutsKind, ShowsKind};

use crate::entry_change::put_in;
use crate::fault::told;
use eden_inode::Inodes;
use eden_model::{Fault, Kind, Name, World};
use eden_overlay::{Files, Overlay};
use eden_tree::{Change, Entry};
use std::alloc::{Allocator, Global};

/// A copy of a file's entry, of another kind.
fn with_kind<A: Allocator>(root: &Entry<A>, path: &[Name], name: &Name, kind: Kind) -> Entry<A>
    requires { (w : Row) × HasFile root.now path.now name.now w }
    ensures { (w : Row) → HasFile root.now path.now name.now w → result ≡ of_kind kind w }
{
    match root.walk(path) {
        None => unreachable!(),
        Some(above) => match above.directory() {
            None => unreachable!(),
            Some(dir) => match dir.get(name) {
                None => unreachable!(),
                Some(entry) => {
                    return Entry {
                        number: entry.number,
                        kind,
                        origin: entry.origin,
                        child: None,
                    };
                }
            },
        },
    }
}

/// The kind that a file is to have.
#[derive(Drop)]
struct KindChange<'a> {
    alloc: Global,
    path: &'a [Name],
    name: &'a Name,
    kind: Kind,
}

impl<A: Allocator, W: World, F: Files<W>> Change<A, Overlay<W, F>> for KindChange<'_> {
    type Output = Result<(), Fault>;

    ghost may = { λ change overlay x.
        IsHeldFile W.honest W.repository (F.stored overlay) x change.path.now change.name.now change.kind };

    ghost does = { λ change old x new z answer.
        (w : Row) → HasFile x change.path.now change.name.now w
        → ChangesEntry W.honest change.path.now change.name.now (Some (of_kind change.kind w)) (F.stored old) x
        (F.failures old) (F.stored new) z (F.failures new) answer };

    fn change(self, overlay: &mut Overlay<W, F>, entry: &mut Entry<A>) -> Result<(), Fault> {
        let new = with_kind(entry, self.path, self.name, self.kind);
        match put_in(self.alloc, entry, overlay, self.path, self.name, new) {
            Ok(()) => return Ok(()),
            Err(fault) => return Err(told(fault)),
        }
    }
}

/// Gives a file of the loaded directory at a path another kind, in place: its number, its origin and its content stay.
/// The directory is stored so, and the chain above it as far as it isn't the mount's own; then memory is so.
///
/// The tree that is shown has the file so, with the content that it had, and is as before elsewhere; no name moves in
/// memory. Errors: `Overlay` where the device failed, and `Memory`. Memory is as it was then, and so is what is shown.
pub fn set_kind<A: Allocator + Clone, W: World, F: Files<W>>(
    inodes: &mut Inodes<A, W, F>,
    alloc: Global,
    path: &[Name],
    name: &Name,
    kind: Kind,
) -> Result<(), Fault>
    requires there { (w : Row) × HasFile inodes.old.root path.now name.now w }
    requires file { kind ≢ kinds.Dir }
    ensures ok { OnOk result (PutsKind path.now name.now kind inodes.old.root inodes.new.root) }
    ensures atomic { IsAtomic W.World F.Files IsStoreFault inodes.old inodes.new result }
    ensures counted { OnOk result (F.failures inodes.new.files ≡ F.failures inodes.old.files) }
    ensures shown { W.honest
        → OnOk result (ShowsKind W.World F.Files path.now name.now kind inodes.old inodes.new) }
    ensures numbers { W.honest → ShowsSameNumbers F.Files inodes.old inodes.new }
    ensures names { KeepsNames inodes.old.root inodes.new.root }
    ensures changes { inodes.new.changes ≡ inodes.old.changes }
    ensures next { inodes.new.next ≡ inodes.old.next }
{
    inodes.holds();
    inodes.change_in_place(KindChange {
        alloc,
        path,
        name,
        kind,
    })
}
