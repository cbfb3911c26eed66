ghost use Rattle.std.specs.Prelude.{◌≡◌, ◌≢◌, ◌≤◌, ◌+◌, ◌⊎◌, ℕ, min, Err, OnOk, OnErr, IfOk, IfErr, IfSome, IfNone};
ghost use Rattle.std.specs.Prelude.{IsTrue, IsFalse, length, Option, Some, None, option_map};
ghost use Rattle.eden_model.specs.declared.kind.Kind.TheVariants as kind;
ghost use Rattle.eden_model.specs.declared.kind.Origin as declared;
ghost use Rattle.eden_model.specs.declared.kind.Origin.TheVariants as origin;
ghost use Rattle.eden_model.specs.declared.id.Id as id;
ghost use Rattle.eden_model.specs.declared.id.ObjKind.TheVariants as object;
ghost use Rattle.eden_model.specs.Limits.{number_least, number_end};
ghost use Rattle.eden_model.specs.Backing.{Gains};
ghost use Rattle.eden_model.specs.Failures.{Counted};
ghost use Rattle.eden_overlay.specs.Held.{HoldsContent, HoldsPart};
ghost use Rattle.eden_overlay.specs.declared.files.FilesFault.TheVariants as files;
ghost use Rattle.std.specs.Coded.{codes};
ghost use Rattle.eden_tree.specs.Coding.{child_code};
ghost use Rattle.std.specs.Option.{option_copied, option_and_then};
ghost use Rattle.eden_tree.specs.Directory.{Row, child_of};
ghost use Rattle.eden_tree.specs.Paths.{row_at, edit_row, stamped_along};
ghost use Rattle.eden_coupling.specs.Kept.{IsTable, IsKept};
ghost use Rattle.eden_inode.specs.Trails.{Leads, KeepsNames, Notes};
ghost use Rattle.eden_coupling.specs.Loading.{IsAt, LoadsObject};
ghost use Rattle.eden_coupling.specs.NumberKept.{KeepsNumbers};
ghost use Rattle.eden_coupling.specs.NumberUnloads.{UnloadsAway};
ghost use Rattle.eden_coupling.specs.Unloading.{IsSettled};
ghost use Rattle.eden_inode.specs.Saved.{AreSavedAt, HasNumbers, LacksNumbers, StoresNumbers};
ghost use Rattle.eden_inode.specs.Tables.{Table, fresh_root, CanStart, IsLast, HasTree, HasNoTree, LoadsStored};
ghost use Rattle.eden_inode.specs.Tables.{HasOwnContent, IsNumberedFault, IsLoadFault, IsContentFault, HoldsLength};
ghost use Rattle.eden_inode.specs.Tables.{shows, shows_numbers, ShowsSameNumbers};

use crate::along::follow;
use crate::fill::from_object;
use crate::gone::{Gone, NOTHING};
use crate::load::{own_content, own_len, own_part, put_loaded, stored_directory};
use crate::look::{look, unloaded};
use crate::numbers::{has_numbers, save_entry};
use crate::seen::Seen;
use crate::trail::Trail;
use crate::unload::Unloading;
use eden_coupling::{kept_laws, number_kept_laws, number_save_laws, shown_laws};
use eden_model::{
    Fault, Key, Kind, MAX_NAMES, NUMBER_END, Name, ObjKind, Obstacle, Origin, TreeEntry, World,
};
use eden_overlay::{Content, Files, FilesFault, Overlay};
use eden_tree::{Change, Dir, Entry};
use std::alloc::{Allocator, Global};
use std::marker::Model;

/// The number of the root.
const ROOT: u64 = 1;

/// The loaded part of a mount's tree over its stored files.
///
/// Under an honest outside, memory and files stay tied through every call: no name dangles, no number stands twice, and
/// every number that is named is below the next one. Each inode number is shown once, in memory and files together, and
/// is so whatever is loaded, stored or unloaded. Whatever the outside, every loaded directory can be stored.
#[derive(Drop)]
pub struct Inodes<A: Allocator, W: World, F: Files<W>> {
    alloc: A,
    root: Entry<A>,
    overlay: Overlay<W, F>,
    next: u64,
    clock: u64,
    changes: u64,
}

impl<A: Allocator, W: World, F: Files<W>> Model for Inodes<A, W, F> {
    ghost Value = { Table F };

    ghost coded = { Prim.hlevel (codes, child_code) };

    ghost view = { λ t.
        record { root = t.root; files = t.overlay; next = t.next; clock = t.clock; changes = t.changes } };

    ghost invariant = { λ t.
        IsTable t.root t.next
        × ((W.honest → IsKept W.repository (F.stored t.overlay) t.root t.next)
        × (W.honest → KeepsNumbers W.repository (F.stored t.overlay) t.root t.next)) };
}

impl<A: Allocator + Clone, W: World, F: Files<W>> Inodes<A, W, F> {
    /// A table over an overlay, with nothing loaded: the root is an object, or where file 1 is stored the mount's own.
    pub fn new(alloc: A, overlay: Overlay<W, F>, root: Origin, next: u64) -> Self
        requires least { number_least ≤ next }
        requires most { next ≤ number_end }
        requires starts { W.honest → CanStart W.repository (F.stored overlay) root next }
        ensures { result ≡ record { root = fresh_root root; files = overlay; next = next; clock = 0; changes = 0 } }
    {
        Inodes {
            alloc,
            root: Entry {
                number: ROOT,
                kind: Kind::Dir,
                origin: root,
                child: None,
            },
            overlay,
            next,
            clock: 0,
            changes: 0,
        }
    }

    /// The overlay, with its files as they stand.
    pub fn into_overlay(self) -> Overlay<W, F>
        ensures { result ≡ self.files }
    {
        let Inodes { overlay, .. } = self;
        overlay
    }

    /// What holds of every table.
    pub fn holds(&self)
        ensures table { IsTable self.now.root self.now.next }
        ensures kept { W.honest → IsKept W.repository (F.stored self.now.files) self.now.root self.now.next }
        ensures numbers { W.honest
            → KeepsNumbers W.repository (F.stored self.now.files) self.now.root self.now.next }
    {
        let _ = &self.root;
    }

    /// What kept the device from storing when it was to store last; None where it stored, or didn't say.
    pub fn obstacle(&self) -> Option<Obstacle> {
        self.overlay.obstacle()
    }

    /// Where a directory that isn't loaded comes from: None for every other path.
    pub fn unloaded(&self, path: &[Name]) -> Option<Origin>
        ensures some { IfSome result (λ o. IsAt path.now self.now.root o) }
        ensures none { IfNone result ((o : declared.Origin) → ¬ IsAt path.now self.now.root o) }
    {
        match self.root.walk(path) {
            None => None,
            Some(entry) => unloaded(entry),
        }
    }

    /// The key of the tree object of a directory that isn't loaded: None for every other path.
    pub fn missing(&self, path: &[Name]) -> Option<Key>
        ensures some { IfSome result (λ k. (k.kind ≡ object.Tree) × IsAt path.now self.now.root (origin.Object k.id)) }
        ensures none { IfNone result ((i : id.Id) → ¬ IsAt path.now self.now.root (origin.Object i)) }
    {
        match self.unloaded(path) {
            None => None,
            Some(origin) => match origin {
                Origin::Object(id) => Some(Key {
                    kind: ObjKind::Tree,
                    id,
                }),
                Origin::Own | Origin::Empty => None,
            },
        }
    }

    /// The directory that is loaded at a path.
    pub fn directory(&self, path: &[Name]) -> Option<&Dir<A>>
        ensures { option_copied result ≡ option_and_then child_of (row_at path.now self.now.root) }
    {
        match self.root.walk(path) {
            None => None,
            Some(entry) => entry.directory(),
        }
    }

    /// The last entry in memory on a path: one look-up for each name. The loaded directories on the way are stamped.
    pub fn look(&mut self, path: &[Name]) -> Seen
        ensures last { IsLast path.now self.old.root result }
        ensures stamped { self.new ≡ record self.old { root = stamped_along path.now self.old.clock self.old.root } }
        ensures shown { W.honest → shows W.World F.Files self.new ≡ shows W.World F.Files self.old }
        ensures numbers { W.honest → ShowsSameNumbers F.Files self.old self.new }
    {
        kept_laws();
        shown_laws();
        number_kept_laws();
        look(&mut self.root, path, self.clock)
    }

    /// `look`, by the positions that are known, without comparing a name, and behind them by names. What it finds is
    /// noted.
    ///
    /// A path of more names than a trail has room for isn't noted; no `Path` has so many.
    pub fn look_along(&mut self, path: &[Name], trail: &mut Trail) -> Seen
        requires { Leads path.now trail.old.positions self.old.root }
        ensures last { IsLast path.now self.old.root result }
        ensures stamped { self.new ≡ record self.old { root = stamped_along path.now self.old.clock self.old.root } }
        ensures shown { W.honest → shows W.World F.Files self.new ≡ shows W.World F.Files self.old }
        ensures numbers { W.honest → ShowsSameNumbers F.Files self.old self.new }
        ensures notes { Notes path.now self.new.root result trail.old trail.new }
    {
        if path.len() > MAX_NAMES {
            trail.clear();
            return self.look(path);
        }
        kept_laws();
        shown_laws();
        number_kept_laws();
        follow(&mut self.root, path, 0, trail, self.clock)
    }

    /// How often a name came or went, or a directory was unloaded; it stays at 2^64 - 1. While it is the same and below
    /// that, each loaded directory keeps its names at their positions. Neither a load nor a change in place changes it.
    pub fn changes(&self) -> u64
        ensures { result ≡ self.now.changes }
    {
        self.changes
    }

    /// The number that is given next.
    pub fn next_number(&self) -> u64
        ensures { result ≡ self.now.next }
    {
        self.next
    }

    /// Gives a number, or none where none is left.
    pub fn give_number(&mut self) -> Option<u64>
        ensures some { IfSome result
            (λ n. (n ≡ self.old.next) × (self.new ≡ record self.old { next = self.old.next + 1 })) }
        ensures none { IfNone result ((self.old.next ≡ number_end) × (self.new ≡ self.old)) }
    {
        if self.next >= NUMBER_END {
            return None;
        }
        kept_laws();
        number_kept_laws();
        let number = self.next;
        self.next = number + 1;
        Some(number)
    }

    /// One more turn; the clock stays at 2^64 - 1.
    pub fn tick(&mut self)
        ensures { self.new ≡ record self.old { clock = min (self.old.clock + 1) u64.MAX } }
    {
        self.clock = self.clock.saturating_add(1);
    }

    /// Whether numbers are saved for the tree object of a directory that isn't loaded: then it is loaded with these,
    /// and without the object. Its file is read. Errors: `Memory`, and `Overlay` where the device failed or the numbers
    /// can't be read.
    pub fn numbered(&mut self, alloc: Global, path: &[Name]) -> Result<bool, Fault>
        requires { (i : id.Id) × IsAt path.now self.old.root (origin.Object i) }
        ensures saved { IfOk result
            (λ b. IsTrue b → HasNumbers W.honest (F.stored self.old.files) path.now self.old.root) }
        ensures none { IfOk result
            (λ b. IsFalse b → LacksNumbers W.honest (F.stored self.old.files) path.now self.old.root) }
        ensures fault { IfErr result
            (IsNumberedFault W.honest (F.failures self.old.files) (F.failures self.new.files)
            (F.stored self.old.files) path.now self.old.root) }
        ensures files { W.honest → F.stored self.new.files ≡ F.stored self.old.files }
        ensures counted { (F.failures self.old.files) ≤ (F.failures self.new.files) }
        ensures rest { self.new ≡ record self.old { files = self.new.files } }
    {
        let Some(entry) = self.root.walk(path) else {
            unreachable!()
        };
        let number = entry.number;
        match entry.origin {
            Origin::Object(tree) => has_numbers(alloc, &mut self.overlay, number, tree),
            Origin::Own | Origin::Empty => unreachable!(),
        }
    }

    /// Loads a directory: from the entries of its tree object, for which no numbers are saved; or without, from its
    /// stored file, its own or with the numbers saved, or as an empty one.
    ///
    /// The entries of a tree object are given the numbers from the next one on, in byte order of their names; those of
    /// a stored file have theirs. The directories of the path are stamped. Errors: `Numbers` where too few are left,
    /// `Memory`, and without a tree object `Overlay` where the device failed, or the file of the mount's own is no
    /// directory. Nothing has changed then.
    pub fn load(
        &mut self,
        alloc: Global,
        path: &[Name],
        entries: Option<&[TreeEntry]>,
    ) -> Result<(), Fault>
        requires object { IfSome entries
            (λ es. HasTree W.repository W.honest (F.stored self.old.files) path.now self.old.root es.now) }
        requires own { IfNone entries (HasNoTree W.honest (F.stored self.old.files) path.now self.old.root) }
        ensures object { IfSome entries.entry
            (λ es. OnOk result (LoadsObject self.old.clock self.old.next self.old.root path.now es.now self.new.root
            self.new.next)) }
        ensures own { IfNone entries.entry
            (OnOk result (LoadsStored W.honest self.old.clock
            (F.stored self.old.files) self.old.root path.now self.new.root × (self.new.next ≡ self.old.next))) }
        ensures err { OnErr result ((self.new.root ≡ self.old.root) × (self.new.next ≡ self.old.next)) }
        ensures fault { IfErr result
            (IsLoadFault W.honest self.old.next (F.failures self.old.files) (F.failures self.new.files)
            (F.stored self.old.files) path.now self.old.root (option_map (λ es. es.now) entries.entry)) }
        ensures files { W.honest → F.stored self.new.files ≡ F.stored self.old.files }
        ensures counted { (F.failures self.old.files) ≤ (F.failures self.new.files) }
        ensures shown { W.honest → shows W.World F.Files self.new ≡ shows W.World F.Files self.old }
        ensures gains { W.honest → OnOk result (Gains (shows_numbers F.Files self.old) self.old.next
            (shows_numbers F.Files self.new) self.new.next) }
        ensures numbers { W.honest → IfNone entries.entry (OnOk result (ShowsSameNumbers F.Files self.old self.new)) }
        ensures rest { (self.new.clock ≡ self.old.clock) × (self.new.changes ≡ self.old.changes) }
    {
        match entries {
            Some(entries) => self.load_object(alloc, path, entries),
            None => self.load_stored(alloc, path),
        }
    }

    /// Loads a directory from the entries of its tree object.
    fn load_object(
        &mut self,
        alloc: Global,
        path: &[Name],
        entries: &[TreeEntry],
    ) -> Result<(), Fault>
        requires { HasTree W.repository W.honest (F.stored self.old.files) path.now self.old.root entries.now }
        ensures ok { OnOk result
            (LoadsObject self.old.clock self.old.next self.old.root path.now entries.now self.new.root self.new.next) }
        ensures err { OnErr result ((self.new.root ≡ self.old.root) × (self.new.next ≡ self.old.next)) }
        ensures fault { IfErr result
            (IsLoadFault W.honest self.old.next (F.failures self.old.files) (F.failures self.new.files)
            (F.stored self.old.files) path.now self.old.root (Some entries.now)) }
        ensures shown { W.honest → shows W.World F.Files self.new ≡ shows W.World F.Files self.old }
        ensures gains { W.honest → OnOk result (Gains (shows_numbers F.Files self.old) self.old.next
            (shows_numbers F.Files self.new) self.new.next) }
        ensures rest { (self.new.files ≡ self.old.files)
            × ((self.new.clock ≡ self.old.clock) × (self.new.changes ≡ self.old.changes)) }
    {
        let count = entries.len() as u64;
        if count > NUMBER_END - self.next {
            return Err(Fault::Numbers);
        }
        kept_laws();
        shown_laws();
        number_kept_laws();
        let dirs = self.alloc.clone()?;
        let dir = from_object(alloc, dirs, entries, self.next, self.clock)?;
        let boxes = self.alloc.clone()?;
        put_loaded(boxes, &mut self.root, path, dir, self.clock)?;
        self.next += count;
        Ok(())
    }

    /// Loads a directory without a tree object.
    fn load_stored(&mut self, alloc: Global, path: &[Name]) -> Result<(), Fault>
        requires { HasNoTree W.honest (F.stored self.old.files) path.now self.old.root }
        ensures ok { OnOk result
            (LoadsStored W.honest self.old.clock (F.stored self.old.files) self.old.root path.now self.new.root) }
        ensures err { OnErr result (self.new.root ≡ self.old.root) }
        ensures fault { IfErr result
            (IsLoadFault W.honest self.old.next (F.failures self.old.files) (F.failures self.new.files)
            (F.stored self.old.files) path.now self.old.root None) }
        ensures files { W.honest → F.stored self.new.files ≡ F.stored self.old.files }
        ensures counted { (F.failures self.old.files) ≤ (F.failures self.new.files) }
        ensures shown { W.honest → shows W.World F.Files self.new ≡ shows W.World F.Files self.old }
        ensures gains { W.honest → OnOk result (Gains (shows_numbers F.Files self.old) self.old.next
            (shows_numbers F.Files self.new) self.new.next) }
        ensures numbers { W.honest → OnOk result (ShowsSameNumbers F.Files self.old self.new) }
        ensures rest { (self.new.next ≡ self.old.next)
            × ((self.new.clock ≡ self.old.clock) × (self.new.changes ≡ self.old.changes)) }
    {
        let Some(entry) = self.root.walk(path) else {
            unreachable!()
        };
        let number = entry.number;
        let origin = entry.origin;
        let dirs = self.alloc.clone()?;
        let dir = stored_directory(alloc, dirs, &mut self.overlay, number, origin, self.clock)?;
        let boxes = self.alloc.clone()?;
        put_loaded(boxes, &mut self.root, path, dir, self.clock)?;
        Ok(())
    }

    /// The content of an own file or link, as it is stored. Where the overlay keeps it in memory it is handed out
    /// without a read; `spare` gives its room back. Errors: `Memory`, and `Overlay` where the device failed or the
    /// stored file is none.
    pub fn content(&mut self, alloc: Global, path: &[Name]) -> Result<Content, Fault>
        requires { HasOwnContent path.now self.old.root }
        ensures ok { W.honest
            → IfOk result (λ content. (y : Row) → row_at path.now self.old.root ≡ Some y
            → HoldsContent (F.stored self.old.files) y.number content) }
        ensures fault { IfErr result
            (IsContentFault W.honest (F.failures self.old.files) (F.failures self.new.files)
            (F.stored self.old.files) path.now self.old.root) }
        ensures files { W.honest → F.stored self.new.files ≡ F.stored self.old.files }
        ensures counted { (F.failures self.old.files) ≤ (F.failures self.new.files) }
        ensures rest { self.new ≡ record self.old { files = self.new.files } }
    {
        let Some(entry) = self.root.walk(path) else {
            unreachable!()
        };
        let number = entry.number;
        own_content(alloc, &mut self.overlay, number)
    }

    /// Bytes of the content of an own file or link, from a place on and at most so many. The overlay keeps a short one
    /// in memory, and reads a long one in parts once it has seen all of it. Errors: `Memory`, and `Overlay` where the
    /// device failed or the stored file is none.
    pub fn content_part(
        &mut self,
        alloc: Global,
        path: &[Name],
        from: u64,
        most: u64,
    ) -> Result<Vec<u8>, Fault>
        requires { HasOwnContent path.now self.old.root }
        ensures ok { W.honest
            → IfOk result (λ v. (y : Row) → row_at path.now self.old.root ≡ Some y
            → HoldsPart (F.stored self.old.files) y.number from most v.items) }
        ensures bounded { IfOk result (λ v. length v.items ≤ most) }
        ensures fault { IfErr result
            (IsContentFault W.honest (F.failures self.old.files) (F.failures self.new.files)
            (F.stored self.old.files) path.now self.old.root) }
        ensures files { W.honest → F.stored self.new.files ≡ F.stored self.old.files }
        ensures counted { (F.failures self.old.files) ≤ (F.failures self.new.files) }
        ensures rest { self.new ≡ record self.old { files = self.new.files } }
    {
        let Some(entry) = self.root.walk(path) else {
            unreachable!()
        };
        let number = entry.number;
        own_part(alloc, &mut self.overlay, number, from, most)
    }

    /// The length of the content of an own file or link. Its body isn't read: that this has another digest than its
    /// header says is told by `content`. Error: `Overlay`, where the device failed or the stored file is none by its
    /// header.
    pub fn content_len(&mut self, path: &[Name]) -> Result<u64, Fault>
        requires { HasOwnContent path.now self.old.root }
        ensures ok { W.honest
            → IfOk result (λ len. (y : Row) → row_at path.now self.old.root ≡ Some y
            → HoldsLength (F.stored self.old.files) y.number len) }
        ensures fault { IfErr result
            (IsContentFault W.honest (F.failures self.old.files) (F.failures self.new.files)
            (F.stored self.old.files) path.now self.old.root) }
        ensures files { W.honest → F.stored self.new.files ≡ F.stored self.old.files }
        ensures counted { (F.failures self.old.files) ≤ (F.failures self.new.files) }
        ensures rest { self.new ≡ record self.old { files = self.new.files } }
    {
        let Some(entry) = self.root.walk(path) else {
            unreachable!()
        };
        let number = entry.number;
        own_len(&mut self.overlay, number)
    }

    /// Takes back a content that is wanted no more: its room is there for the next one that is stored.
    pub fn spare(&mut self, content: Content)
        ensures { self.new ≡ self.old }
    {
        self.overlay.spare(content);
    }

    /// Lets go of the loaded directories at and below a path that have not been used for so many turns, the leaves
    /// first; an unsaved one is stored first, and of one on a tree object the numbers, unless its file has them. How
    /// many went, and whether a store was refused.
    ///
    /// A directory with a loaded one left inside stays, and so does one that had to be stored where that was refused,
    /// by the device or for want of memory.
    pub fn unload(&mut self, alloc: Global, path: &[Name], older_than: u64) -> Gone
        ensures unloads { (c : ℕ)
            × ((result.count ≡ min c u64.MAX)
            × UnloadsAway W.honest self.old.clock older_than (F.stored self.old.files) self.old.root
            (F.stored self.new.files) self.new.root c) }
        ensures settled { (y : Row) → row_at path.now self.new.root ≡ Some y
            → IsSettled self.old.clock older_than result.refused y }
        ensures refused { Counted (result.refused ≡ Some files.Device) (F.failures self.old.files)
            (F.failures self.new.files) }
        ensures elsewhere { (f : Row) × (self.new.root ≡ edit_row path.now (λ _. f) self.old.root) }
        ensures shown { W.honest → shows W.World F.Files self.new ≡ shows W.World F.Files self.old }
        ensures numbers { W.honest → ShowsSameNumbers F.Files self.old self.new }
        ensures counted { (F.failures self.old.files) ≤ (F.failures self.new.files) }
        ensures changes { self.new.changes ≡ min (self.old.changes + result.count) u64.MAX }
        ensures rest { (self.new.next ≡ self.old.next) × (self.new.clock ≡ self.old.clock) }
    {
        let unloading = Unloading {
            alloc,
            clock: self.clock,
            older_than,
        };
        match self.root.change_at(path, &mut self.overlay, unloading) {
            None => NOTHING,
            Some(gone) => {
                self.changes = self.changes.saturating_add(gone.count);
                gone
            }
        }
    }

    /// Has the numbers saved of the directory that is loaded at a path, if it stands on a tree object, unless its file
    /// has them: so it may leave memory, and is loaded with these again. For any other path nothing is stored.
    ///
    /// What is loaded stays so, and what is shown stays the same. Errors: `Device` where the device failed, and
    /// `Memory`: nothing has changed then.
    pub fn save_numbers(&mut self, alloc: Global, path: &[Name]) -> Result<(), FilesFault>
        ensures saved { W.honest
            → OnOk result (AreSavedAt (F.stored self.new.files) path.now self.old.root) }
        ensures alone { W.honest → (F.stored self.new.files ≡ F.stored self.old.files)
            ⊎ ((y : Row) × ((row_at path.now self.old.root ≡ Some y)
            × StoresNumbers (F.stored self.old.files) y (F.stored self.new.files))) }
        ensures err { W.honest → OnErr result (F.stored self.new.files ≡ F.stored self.old.files) }
        ensures counted { Counted (result ≡ Err files.Device) (F.failures self.old.files)
            (F.failures self.new.files) }
        ensures shown { W.honest → shows W.World F.Files self.new ≡ shows W.World F.Files self.old }
        ensures numbers { W.honest → ShowsSameNumbers F.Files self.old self.new }
        ensures rest { self.new ≡ record self.old { files = self.new.files } }
    {
        number_save_laws();
        match self.root.walk(path) {
            None => Ok(()),
            Some(entry) => save_entry(alloc, &mut self.overlay, entry),
        }
    }

    /// Waits until a loss of power would take nothing of what is stored, as far as the files can. After an error that
    /// isn't known. What is loaded stays so, and what is stored is what it was.
    pub fn sync(&mut self, alloc: Global) -> Result<(), FilesFault>
        ensures files { W.honest → F.stored self.new.files ≡ F.stored self.old.files }
        ensures counted { Counted (result ≡ Err files.Device) (F.failures self.old.files)
            (F.failures self.new.files) }
        ensures rest { self.new ≡ record self.old { files = self.new.files } }
    {
        self.overlay.sync(alloc)
    }

    /// Does a change to the root's entry and to the overlay at once: a directory that is stored and then is so in
    /// memory, an entry that moves, a chain that becomes the mount's own. Each is a type of its own, in the crates
    /// above.
    ///
    /// Within it memory and files may differ; whoever asks for it shows that they are tied once it is done. It counts
    /// as one change of names, whatever it does; one that moves none is `change_in_place`.
    pub fn change<C: Change<A, Overlay<W, F>> + Drop>(&mut self, change: C) -> C::Output
        requires may { C.may change self.old.files self.old.root }
        requires table { (files : F) → (root : Row) → (answer : C.Output)
            → C.does change self.old.files self.old.root files root answer → IsTable root self.old.next }
        requires kept { W.honest → (files : F) → (root : Row) → (answer : C.Output)
            → C.does change self.old.files self.old.root files root answer
            → IsKept W.repository (F.stored files) root self.old.next }
        requires numbers { W.honest → (files : F) → (root : Row) → (answer : C.Output)
            → C.does change self.old.files self.old.root files root answer
            → KeepsNumbers W.repository (F.stored files) root self.old.next }
        ensures does { C.does change self.old.files self.old.root self.new.files self.new.root result }
        ensures changes { self.new.changes ≡ min (self.old.changes + 1) u64.MAX }
        ensures rest { (self.new.next ≡ self.old.next) × (self.new.clock ≡ self.old.clock) }
    {
        let answer = change.change(&mut self.overlay, &mut self.root);
        self.changes = self.changes.saturating_add(1);
        answer
    }

    /// `change`, where no name moves: a directory that is stored again or becomes the mount's own, an entry that gets
    /// another kind or origin. The count of changes stays.
    ///
    /// Whoever asks for it shows, too, that each loaded directory keeps its names at their positions.
    pub fn change_in_place<C: Change<A, Overlay<W, F>> + Drop>(&mut self, edit: C) -> C::Output
        requires may { C.may edit self.old.files self.old.root }
        requires table { (files : F) → (root : Row) → (answer : C.Output)
            → C.does edit self.old.files self.old.root files root answer → IsTable root self.old.next }
        requires kept { W.honest → (files : F) → (root : Row) → (answer : C.Output)
            → C.does edit self.old.files self.old.root files root answer
            → IsKept W.repository (F.stored files) root self.old.next }
        requires numbers { W.honest → (files : F) → (root : Row) → (answer : C.Output)
            → C.does edit self.old.files self.old.root files root answer
            → KeepsNumbers W.repository (F.stored files) root self.old.next }
        requires names { (files : F) → (root : Row) → (answer : C.Output)
            → C.does edit self.old.files self.old.root files root answer → KeepsNames self.old.root root }
        ensures does { C.does edit self.old.files self.old.root self.new.files self.new.root result }
        ensures names { KeepsNames self.old.root self.new.root }
        ensures changes { self.new.changes ≡ self.old.changes }
        ensures rest { (self.new.next ≡ self.old.next) × (self.new.clock ≡ self.old.clock) }
    {
        edit.change(&mut self.overlay, &mut self.root)
    }
}
