ghost use Rattle.std.specs.Prelude.{◌≡◌, [], OnOk, IfOk, IfErr};
ghost use Rattle.eden_inode.specs.Tables.{fresh_root, shows, shows_numbers};
ghost use Rattle.eden_coupling.specs.Chains.{AreSaved};
ghost use Rattle.eden_model.specs.Backing.{Backs};
ghost use Rattle.eden_model.specs.Failures.{Rose};
ghost use Rattle.eden_model.specs.Numbers as numbers;
ghost use Rattle.eden_overlay.specs.declared.files.FilesFault.TheVariants as fault;
ghost use Rattle.eden_overlay.specs.Held.{HoldsState, without};
ghost use Rattle.eden_overlay.specs.Soundness.{AreSound};
ghost use Rattle.eden_checkout.specs.declared.opening.Opening.TheVariants as opening;
ghost use Rattle.eden_checkout.specs.Opening.{CanOpen, MayOpen, Finds, files_show, ShowsNumbersOf};
ghost use Rattle.eden_checkout.specs.Opening.{IsFresh, IsRefusal};

use crate::closing::{as_files, store_state};
use crate::fault::OpenFault;
use crate::opening::{Opening, Start, begin};
use eden_cache::{ObjectCache, Stock};
use eden_coupling::{numbering_laws, shown_laws, tie_laws};
use eden_inode::Inodes;
use eden_model::{Id, World};
use eden_ops::{Place, let_go};
use eden_overlay::{Files, FilesFault, Overlay};
use std::alloc::{Allocator, Global};
use std::marker::Model;

/// The loaded part of a commit's tree over an overlay's files, and the objects that came.
#[derive(Drop)]
pub struct Checkout<A: Allocator + Clone, W: World, F: Files<W>> {
    pub(crate) inodes: Inodes<A, W, F>,
    pub(crate) cache: Stock<W, A>,
    root: Id,
    /// For an attempt that is given no place, so that none has to be made for one that doesn't wait.
    pub(crate) spare: Place,
}

impl<A: Allocator + Clone, W: World, F: Files<W>> Model for Checkout<A, W, F> {
    ghost use Rattle.std.specs.Coded.{codes};
    ghost use Rattle.eden_tree.specs.Coding.{child_code};
    ghost use Rattle.eden_checkout.specs.Checkouts.{Checkout};
    ghost use Rattle.eden_checkout.specs.Opening.{IsRootOf};

    ghost Value = { Checkout F };

    ghost coded = { Prim.hlevel (codes, child_code) };

    ghost view = { λ c. record { inodes = c.inodes; cache = c.cache; root = c.root } };

    ghost invariant = { λ c. IsRootOf c.root c.inodes.root.origin };
}

impl<A: Allocator + Clone, W: World, F: Files<W>> Checkout<A, W, F> {
    /// Opens an overlay over a commit's tree, with a cache in which nothing is yet. Over no files nothing has changed
    /// since the commit; else they are those that a checkout of the same commit was closed to, and the state among them
    /// is removed as the last act. The own files that were read or changed last stay in memory: at most eight, of as
    /// many bytes together as the cache may hold, or the last one alone if it is longer. One of over 1 MiB that is read
    /// doesn't: it is read whole once, unless it was stored whole since, and then in the parts that are asked for.
    ///
    /// Errors: `NotClean` if there are files and no state, `OtherRoot`, `Damaged` of the state alone, `Device` and
    /// `Memory`. The files come back as they were.
    pub fn open(
        alloc: Global,
        dirs: A,
        files: F,
        root: Id,
        cache: ObjectCache<A>,
    ) -> Result<Self, (OpenFault, F)>
        requires files { W.honest → CanOpen W.repository W.opening W.numbers root (F.stored files) }
        requires cache { (cache.objects ≡ []) × (cache.sizes ≡ []) }
        ensures shown { W.honest → IfOk result (λ c. shows W.World F.Files c.inodes ≡ W.opening) }
        ensures numbers { W.honest
            → IfOk result (λ c. ShowsNumbersOf F.Files root (F.stored files) c.inodes) }
        ensures backed { W.honest
            → IfOk result (λ c. Backs W.numbers (shows_numbers F.Files c.inodes) c.inodes.next) }
        ensures stored { W.honest → IfOk result (λ c. F.stored c.inodes.files ≡ without (F.stored files) 0) }
        ensures next { W.honest → IfOk result (λ c. Finds opening.Closed root (F.stored files) c.inodes.next) }
        ensures fresh { IfOk result (IsFresh cache root) }
        ensures saved { IfOk result (λ c. AreSaved c.inodes.root) }
        ensures fault { IfErr result
            (λ e. IsRefusal opening.Closed W.honest root (F.stored files) (F.failures files) (F.failures e.1) e.0) }
        ensures unchanged { W.honest → IfErr result (λ e. F.stored e.1 ≡ F.stored files) }
    {
        Self::open_by(alloc, dirs, files, root, cache, Opening::Closed)
    }

    /// Opens an overlay over a commit's tree whatever a run left of it, one that was killed too. What is shown is what
    /// the directories say that are stored from file 1 down. The next number is one more than the greatest that they
    /// name, and those on tree objects whose numbers were saved, or that a file has. A state is passed over, and
    /// removed as the last act. The cache is as for `open`.
    ///
    /// Errors: `Dangling`, `Twice`, and `Damaged` of any file, the first that is met from file 1 down, or if a file's
    /// number leaves none to give; `Device` and `Memory`. The files come back as they were.
    pub fn open_rescan(
        alloc: Global,
        dirs: A,
        files: F,
        root: Id,
        cache: ObjectCache<A>,
    ) -> Result<Self, (OpenFault, F)>
        requires files { W.honest
            → MayOpen opening.Rescan W.repository W.opening W.numbers root (F.stored files) }
        requires cache { (cache.objects ≡ []) × (cache.sizes ≡ []) }
        ensures shown { W.honest → IfOk result (λ c. shows W.World F.Files c.inodes ≡ W.opening) }
        ensures numbers { W.honest
            → IfOk result (λ c. ShowsNumbersOf F.Files root (F.stored files) c.inodes) }
        ensures backed { W.honest
            → IfOk result (λ c. Backs W.numbers (shows_numbers F.Files c.inodes) c.inodes.next) }
        ensures stored { W.honest → IfOk result (λ c. F.stored c.inodes.files ≡ without (F.stored files) 0) }
        ensures next { W.honest → IfOk result (λ c. Finds opening.Rescan root (F.stored files) c.inodes.next) }
        ensures fresh { IfOk result (IsFresh cache root) }
        ensures saved { IfOk result (λ c. AreSaved c.inodes.root) }
        ensures fault { IfErr result
            (λ e. IsRefusal opening.Rescan W.honest root (F.stored files) (F.failures files) (F.failures e.1) e.0) }
        ensures unchanged { W.honest → IfErr result (λ e. F.stored e.1 ≡ F.stored files) }
    {
        Self::open_by(alloc, dirs, files, root, cache, Opening::Rescan)
    }

    /// Opens an overlay over a commit's tree as `open` does, or as `open_rescan` does, with its errors.
    pub fn open_by(
        alloc: Global,
        dirs: A,
        files: F,
        root: Id,
        cache: ObjectCache<A>,
        opening: Opening,
    ) -> Result<Self, (OpenFault, F)>
        requires files { W.honest → MayOpen opening W.repository W.opening W.numbers root (F.stored files) }
        requires cache { (cache.objects ≡ []) × (cache.sizes ≡ []) }
        ensures shown { W.honest → IfOk result (λ c. shows W.World F.Files c.inodes ≡ W.opening) }
        ensures numbers { W.honest
            → IfOk result (λ c. ShowsNumbersOf F.Files root (F.stored files) c.inodes) }
        ensures backed { W.honest
            → IfOk result (λ c. Backs W.numbers (shows_numbers F.Files c.inodes) c.inodes.next) }
        ensures stored { W.honest → IfOk result (λ c. F.stored c.inodes.files ≡ without (F.stored files) 0) }
        ensures next { W.honest → IfOk result (λ c. Finds opening root (F.stored files) c.inodes.next) }
        ensures fresh { IfOk result (IsFresh cache root) }
        ensures saved { IfOk result (λ c. AreSaved c.inodes.root) }
        ensures fault { IfErr result
            (λ e. IsRefusal opening W.honest root (F.stored files) (F.failures files) (F.failures e.1) e.0) }
        ensures unchanged { W.honest → IfErr result (λ e. F.stored e.1 ≡ F.stored files) }
    {
        numbering_laws();
        let mut overlay = Overlay::new(alloc, files).keeping(cache.most_bytes());
        match begin(alloc, &mut overlay, root, opening) {
            Err(fault) => Err((fault, overlay.into_files())),
            Ok(Start { origin, next }) => Ok(Checkout {
                inodes: Inodes::new(dirs, overlay, origin, next),
                cache: Stock::new(cache),
                root,
                spare: Place::new(),
            }),
        }
    }

    /// Closes the checkout: what is unsaved is stored, and then the state, so that the files are those of `open`.
    ///
    /// Errors: the device failed, or there was no memory. The checkout comes back then, and shows what it showed.
    pub fn close(mut self, alloc: Global) -> Result<F, (FilesFault, Self)>
        ensures state { W.honest
            → IfOk result (λ files. HoldsState (F.stored files)
            (record { root = self.root; next = self.inodes.next })) }
        ensures opens { (N : numbers.Numbers) → W.honest
            → Backs N (shows_numbers F.Files self.inodes) self.inodes.next
            → IfOk result (λ files. CanOpen W.repository (shows W.World F.Files self.inodes) N self.root
            (F.stored files)) }
        ensures numbers { W.honest
            → IfOk result (λ files. ShowsNumbersOf F.Files self.root (F.stored files) self.inodes) }
        ensures shown { W.honest
            → IfErr result (λ e. shows W.World F.Files e.1.inodes ≡ shows W.World F.Files self.inodes) }
        ensures device { IfErr result
            (λ e. e.0 ≡ fault.Device → Rose (F.failures self.inodes.files) (F.failures e.1.inodes.files)) }
        ensures rest { IfErr result
            (λ e. (e.1.inodes.next ≡ self.inodes.next) × ((e.1.cache ≡ self.cache) × (e.1.root ≡ self.root))) }
    {
        if let Err(fault) = let_go(&mut self.inodes, alloc, &[]) {
            return Err((as_files(fault), self));
        }
        if let Err(fault) = store_state(&mut self.inodes, alloc, self.root) {
            return Err((fault, self));
        }
        tie_laws();
        self.inodes.holds();
        let Checkout { inodes, .. } = self;
        Ok(inodes.into_overlay().into_files())
    }

    /// What holds of every checkout's files, so also of those that a run leaves without a close: no name in them
    /// dangles, and if no loaded directory is unsaved they show what the checkout shows, from file 1 down, or the
    /// commit's tree if there is no file 1.
    pub fn holds(&self)
        ensures sound { W.honest → AreSound (F.stored self.now.inodes.files) }
        ensures shown { W.honest → AreSaved self.now.inodes.root
            → files_show W.repository self.now.root (F.stored self.now.inodes.files)
            ≡ shows W.World F.Files self.now.inodes }
    {
        tie_laws();
        shown_laws();
        self.inodes.holds();
    }

    /// Gives up the checkout: the files as they stand. What `holds` says of them is so.
    pub fn abandon(self) -> F
        ensures files { result ≡ self.inodes.files }
        ensures sound { W.honest → AreSound (F.stored result) }
        ensures shown { W.honest → AreSaved self.inodes.root
            → files_show W.repository self.root (F.stored result) ≡ shows W.World F.Files self.inodes }
    {
        self.holds();
        let Checkout { inodes, .. } = self;
        inodes.into_overlay().into_files()
    }
}
