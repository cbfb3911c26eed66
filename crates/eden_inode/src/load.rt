//! What is loaded at a path, and from where.
ghost use Rattle.std.specs.Prelude.{◌≡◌, ◌≢◌, ◌≤◌, [], Some, IsOkAnd, IfOk, IfErr, OnOk, OnErr, length};
ghost use Rattle.eden_model.specs.declared.id.Id as id;
ghost use Rattle.eden_model.specs.declared.kind.Kind.TheVariants as kind;
ghost use Rattle.eden_model.specs.declared.kind.Origin as declared;
ghost use Rattle.eden_model.specs.declared.kind.Origin.TheVariants as origins;
ghost use Rattle.eden_overlay_format.specs.Directory.{AreStorable};
ghost use Rattle.eden_overlay.specs.Held.{HoldsEntries, HoldsContent, HoldsPart, TellsLength, entries_at, content_at};
ghost use Rattle.eden_overlay.specs.Held.{saved_at};
ghost use Rattle.eden_tree.specs.Directory.{with_child};
ghost use Rattle.eden_coupling.specs.Listings.{listing_of};
ghost use Rattle.eden_coupling.specs.Loading.{IsAt, IsNew, with_loaded};
ghost use Rattle.eden_coupling.specs.Numberings.{in_files, entries_by};
ghost use Rattle.eden_inode.specs.Faults.{told_get_fault, IsGetFault};

use crate::fill::from_stored;
use eden_model::{Fault, Id, Name, Origin, World};
use eden_overlay::{Content, Files, GetFault, Overlay};
use eden_tree::{Change, Dir, Entry};
use std::alloc::{AllocError, Allocator, Global};

/// A directory that an entry holds from then on.
#[derive(Drop)]
struct Holding<A: Allocator> {
    child: Box<Dir<A>, A>,
}

impl<A: Allocator> Change<A, ()> for Holding<A> {
    type Output = ();

    ghost may = { λ h s x. x.kind ≡ kind.Dir };

    ghost does = { λ h s x t z o. z ≡ with_child (Some h.child.value) x };

    fn change(self, _: &mut (), entry: &mut Entry<A>) {
        let Holding { child } = self;
        entry.child = Some(child);
    }
}

/// Puts a loaded directory at a path, where one that isn't loaded is, and stamps the directories of the path. The only
/// error is want of memory.
pub(crate) fn put_loaded<A: Allocator>(
    dirs: A,
    root: &mut Entry<A>,
    path: &[Name],
    dir: Dir<A>,
    clock: u64,
) -> Result<(), AllocError>
    requires { (o : declared.Origin) × IsAt path.now root.old o }
    ensures ok { OnOk result (root.new ≡ with_loaded path.now clock dir root.old) }
    ensures err { OnErr result (root.new ≡ root.old) }
{
    let child = Box::new(dirs, dir)?;
    let _ = root.change_at(path, &mut (), Holding { child });
    root.stamp_along(path, clock);
    Ok(())
}

/// What a mount tells of a fault of its overlay.
fn told(fault: GetFault) -> Fault
    ensures { result ≡ told_get_fault fault }
{
    match fault {
        GetFault::Absent | GetFault::Damaged(_) | GetFault::Device => Fault::Overlay,
        GetFault::Memory => Fault::Memory,
    }
}

/// The directory that the file of that number stores.
fn own_directory<A: Allocator, W: World, F: Files<W>>(
    alloc: Global,
    dirs: A,
    overlay: &mut Overlay<W, F>,
    number: u64,
    clock: u64,
) -> Result<Dir<A>, Fault>
    ensures new { IfOk result (IsNew clock) }
    ensures held { W.honest → IfOk result (λ d. HoldsEntries (F.stored overlay.old) number (listing_of d)) }
    ensures storable { IfOk result (λ d. AreStorable (listing_of d)) }
    ensures fault { IfErr result
        (IsGetFault W.honest (F.failures overlay.old) (F.failures overlay.new)
        (entries_at (F.stored overlay.old) number)) }
    ensures files { W.honest → F.stored overlay.new ≡ F.stored overlay.old }
    ensures counted { F.failures overlay.old ≤ F.failures overlay.new }
{
    match overlay.get_dir(alloc, number) {
        Ok(entries) => Ok(from_stored(dirs, entries, clock)?),
        Err(fault) => Err(told(fault)),
    }
}

/// The directory of that tree object, with the numbers that the file of that number has for it.
fn saved_directory<A: Allocator, W: World, F: Files<W>>(
    alloc: Global,
    dirs: A,
    overlay: &mut Overlay<W, F>,
    number: u64,
    tree: Id,
    clock: u64,
) -> Result<Dir<A>, Fault>
    ensures new { IfOk result (IsNew clock) }
    ensures saved { W.honest → IfOk result (λ d. saved_at (F.stored overlay.old) number tree ≡ Some (listing_of d)) }
    ensures storable { IfOk result (λ d. AreStorable (listing_of d)) }
    ensures fault { IfErr result
        (IsGetFault W.honest (F.failures overlay.old) (F.failures overlay.new)
        (saved_at (F.stored overlay.old) number tree)) }
    ensures files { W.honest → F.stored overlay.new ≡ F.stored overlay.old }
    ensures counted { F.failures overlay.old ≤ F.failures overlay.new }
{
    match overlay.get_numbers(alloc, number, tree) {
        Ok(entries) => Ok(from_stored(dirs, entries, clock)?),
        Err(fault) => Err(told(fault)),
    }
}

/// The directory that an entry of that number and origin is loaded as: what its file stores, its own or with numbers
/// saved; or nothing, for which no file is read and which never fails.
pub(crate) fn stored_directory<A: Allocator, W: World, F: Files<W>>(
    alloc: Global,
    dirs: A,
    overlay: &mut Overlay<W, F>,
    number: u64,
    origin: Origin,
    clock: u64,
) -> Result<Dir<A>, Fault>
    ensures new { IfOk result (IsNew clock) }
    ensures own { W.honest → origin ≡ origins.Own
        → IfOk result (λ d. HoldsEntries (F.stored overlay.old) number (listing_of d)) }
    ensures empty { origin ≡ origins.Empty → IsOkAnd result (λ d. d.rows ≡ []) }
    ensures saved { W.honest → (i : id.Id) → origin ≡ origins.Object i
        → IfOk result (λ d. saved_at (F.stored overlay.old) number i ≡ Some (listing_of d)) }
    ensures storable { IfOk result (λ d. AreStorable (listing_of d)) }
    ensures fault { IfErr result
        (IsGetFault W.honest (F.failures overlay.old) (F.failures overlay.new)
        (entries_by (in_files (F.stored overlay.old)) number origin)) }
    ensures files { W.honest → F.stored overlay.new ≡ F.stored overlay.old }
    ensures counted { F.failures overlay.old ≤ F.failures overlay.new }
{
    match origin {
        Origin::Object(tree) => saved_directory(alloc, dirs, overlay, number, tree, clock),
        Origin::Empty => Ok(Dir::new(dirs, clock)),
        Origin::Own => own_directory(alloc, dirs, overlay, number, clock),
    }
}

/// The content that the file of that number stores.
pub(crate) fn own_content<W: World, F: Files<W>>(
    alloc: Global,
    overlay: &mut Overlay<W, F>,
    number: u64,
) -> Result<Content, Fault>
    ensures held { W.honest → IfOk result (λ content. HoldsContent (F.stored overlay.old) number content) }
    ensures fault { IfErr result
        (IsGetFault W.honest (F.failures overlay.old) (F.failures overlay.new)
        (content_at (F.stored overlay.old) number)) }
    ensures files { W.honest → F.stored overlay.new ≡ F.stored overlay.old }
    ensures counted { F.failures overlay.old ≤ F.failures overlay.new }
{
    match overlay.get_file(alloc, number) {
        Ok(content) => Ok(content),
        Err(fault) => Err(told(fault)),
    }
}

/// Bytes of the content that the file of that number stores, from a place on and at most so many.
pub(crate) fn own_part<W: World, F: Files<W>>(
    alloc: Global,
    overlay: &mut Overlay<W, F>,
    number: u64,
    from: u64,
    most: u64,
) -> Result<Vec<u8>, Fault>
    ensures held { W.honest → IfOk result (λ v. HoldsPart (F.stored overlay.old) number from most v.items) }
    ensures bounded { IfOk result (λ v. length v.items ≤ most) }
    ensures fault { IfErr result
        (IsGetFault W.honest (F.failures overlay.old) (F.failures overlay.new)
        (content_at (F.stored overlay.old) number)) }
    ensures files { W.honest → F.stored overlay.new ≡ F.stored overlay.old }
    ensures counted { F.failures overlay.old ≤ F.failures overlay.new }
{
    match overlay.get_part(alloc, number, from, most) {
        Ok(bytes) => Ok(bytes),
        Err(fault) => Err(told(fault)),
    }
}

/// The length of the content that the file of that number stores, as the file's head tells it.
pub(crate) fn own_len<W: World, F: Files<W>>(
    overlay: &mut Overlay<W, F>,
    number: u64,
) -> Result<u64, Fault>
    ensures told { W.honest → IfOk result (TellsLength (F.stored overlay.old) number) }
    ensures fault { IfErr result
        (IsGetFault W.honest (F.failures overlay.old) (F.failures overlay.new)
        (content_at (F.stored overlay.old) number)) }
    ensures files { W.honest → F.stored overlay.new ≡ F.stored overlay.old }
    ensures counted { F.failures overlay.old ≤ F.failures overlay.new }
{
    match overlay.get_len(number) {
        Ok(len) => Ok(len),
        Err(fault) => Err(told(fault)),
    }
}
