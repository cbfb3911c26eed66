//! A content stored for a file in the table of a mount.

ghost use Rattle.std.specs.Prelude.{◌≡◌, ◌≤◌, length, OnOk, OnErr};
ghost use Rattle.eden_overlay_format.specs.Content.{content_most};
ghost use Rattle.eden_overlay_format.specs.Directory.{is_own};
ghost use Rattle.eden_overlay.specs.Held.{with_content};
ghost use Rattle.eden_tree.specs.Directory.{Row};
ghost use Rattle.eden_coupling.specs.Filing.{HasFile};
ghost use Rattle.eden_coupling.specs.Laws.{owned};
ghost use Rattle.eden_inode.specs.Tables.{ShowsSameNumbers};
ghost use Rattle.eden_inode.specs.Trails.{KeepsNames};
ghost use Rattle.eden_materialise.specs.Atomic.{IsAtomic};
ghost use Rattle.eden_materialise.specs.Faults.{IsStoreFault};
ghost use Rattle.eden_materialise.specs.Fills.{MayFill, FillsFile};
ghost use Rattle.eden_materialise.specs.Fills.{OwnsFile, StoresContent, RefusesContent, ShowsContent};

use crate::chain::is_own;
use crate::entry_change::put_in;
use crate::fault::told;
use eden_inode::Inodes;
use eden_model::{Fault, Name, Origin, World};
use eden_overlay::{Files, Overlay};
use eden_overlay_format::Spliced;
use eden_tree::{Change, Entry};
use std::alloc::{Allocator, Global};

/// Where a file's own content is, or would be.
#[derive(Clone, Copy)]
struct Place {
    number: u64,
    /// Whether it is there: the entry is the mount's own already.
    own: bool,
}

fn place_of<A: Allocator>(root: &Entry<A>, path: &[Name], name: &Name) -> Place
    requires { (w : Row) × HasFile root.now path.now name.now w }
    ensures number { (w : Row) → HasFile root.now path.now name.now w → result.number ≡ w.number }
    ensures own { (w : Row) → HasFile root.now path.now name.now w → result.own ≡ is_own w.origin }
{
    match root.walk(path) {
        None => unreachable!(),
        Some(above) => match above.directory() {
            None => unreachable!(),
            Some(dir) => match dir.get(name) {
                None => unreachable!(),
                Some(entry) => {
                    return Place {
                        number: entry.number,
                        own: is_own(entry.origin),
                    };
                }
            },
        },
    }
}

/// A copy of a file's entry, as the mount's own.
fn as_own<A: Allocator>(root: &Entry<A>, path: &[Name], name: &Name) -> Entry<A>
    requires { (w : Row) × HasFile root.now path.now name.now w }
    ensures { (w : Row) → HasFile root.now path.now name.now w → result ≡ owned w }
{
    match root.walk(path) {
        None => unreachable!(),
        Some(above) => match above.directory() {
            None => unreachable!(),
            Some(dir) => match dir.get(name) {
                None => unreachable!(),
                Some(entry) => {
                    return Entry {
                        number: entry.number,
                        kind: entry.kind,
                        origin: Origin::Own,
                        child: None,
                    };
                }
            },
        },
    }
}

/// The content that a file is to have.
#[derive(Drop)]
struct Filling<'a> {
    alloc: Global,
    path: &'a [Name],
    name: &'a Name,
    content: Spliced<'a>,
}

impl<A: Allocator, W: World, F: Files<W>> Change<A, Overlay<W, F>> for Filling<'_> {
    type Output = Result<(), Fault>;

    ghost may = { λ filling overlay x.
        MayFill W.honest W.repository (F.stored overlay) x filling.path.now filling.name.now filling.content };

    ghost does = { λ filling old x new z answer.
        (w : Row) → HasFile x filling.path.now filling.name.now w
        → FillsFile W.honest filling.path.now filling.name.now w (F.stored old)
        (with_content (F.stored old) w.number filling.content) x (F.failures old) (F.stored new) z
        (F.failures new) answer };

    fn change(self, overlay: &mut Overlay<W, F>, entry: &mut Entry<A>) -> Result<(), Fault> {
        let place = place_of(entry, self.path, self.name);
        match overlay.put_file(self.alloc, place.number, self.content) {
            Err(fault) => return Err(told(fault)),
            Ok(()) => {
                if place.own {
                    return Ok(());
                }
                let file = as_own(entry, self.path, self.name);
                match put_in(self.alloc, entry, overlay, self.path, self.name, file) {
                    Ok(()) => return Ok(()),
                    Err(fault) => return Err(told(fault)),
                }
            }
        }
    }
}

/// Stores a content of at most 2^30 bytes for a file or a link of the loaded directory at a path, under the entry's
/// number. Where the entry is the mount's own already, nothing else is stored, and memory is as before. Else the file
/// is one that nothing names yet; then the entry becomes the mount's own: the directory is stored with it so, and the
/// chain above it as far as it isn't the mount's own; then memory is so.
///
/// The tree that is shown has the content there, and is as before elsewhere; no name moves in memory. Errors: `Overlay`
/// where the device failed, and `Memory`. Memory is as it was then, and so is what is shown.
pub fn store_content<A: Allocator + Clone, W: World, F: Files<W>>(
    inodes: &mut Inodes<A, W, F>,
    alloc: Global,
    path: &[Name],
    name: &Name,
    content: Spliced<'_>,
) -> Result<(), Fault>
    requires there { (w : Row) × HasFile inodes.old.root path.now name.now w }
    requires short { length content ≤ content_most }
    ensures ok { OnOk result (OwnsFile path.now name.now inodes.old.root inodes.new.root) }
    ensures stored { W.honest
        → OnOk result (StoresContent F.Files path.now name.now content.entry inodes.old inodes.new) }
    ensures atomic { IsAtomic W.World F.Files IsStoreFault inodes.old inodes.new result }
    ensures strays { W.honest
        → OnErr result (RefusesContent F.Files path.now name.now content.entry inodes.old inodes.new) }
    ensures counted { OnOk result (F.failures inodes.new.files ≡ F.failures inodes.old.files) }
    ensures shown { W.honest
        → OnOk result (ShowsContent W.World F.Files path.now name.now content.entry inodes.old inodes.new) }
    ensures numbers { W.honest → ShowsSameNumbers F.Files inodes.old inodes.new }
    ensures names { KeepsNames inodes.old.root inodes.new.root }
    ensures changes { inodes.new.changes ≡ inodes.old.changes }
    ensures next { inodes.new.next ≡ inodes.old.next }
{
    inodes.holds();
    inodes.change_in_place(Filling {
        alloc,
        path,
        name,
        content,
    })
}
