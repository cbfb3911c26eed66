use eden_model::{Attempt, Key, Obstacle, Path, Request, World};
use eden_object::Object;
use std::alloc::Global;

/// A table of inodes with a cache of objects, over which requests are attempted. It fetches nothing itself.
pub trait Attempts<W: World> {
    ghost use Rattle.std.specs.Prelude.{◌≡◌, ◌≤◌, OnOk, OnErr, IfSome};
    ghost use Rattle.eden_model.specs.declared.request.Request.{Request};
    ghost use Rattle.eden_model.specs.Requests.{most_objects};
    ghost use Rattle.eden_object.specs.Objects.{IsFetched};
    ghost use Rattle.eden_mount.specs.Places.{LeadStill};
    ghost use Rattle.eden_mount.specs.Tables.{Table, Tries, Ticks, Stores, Unloads, Syncs};

    /// Where an attempt waits, so that the next one of the same request continues there.
    type Place: Drop;

    /// What contracts know of it.
    ghost table: { Table Self };

    /// The place leads along a path of the request, as long as no name changed since it was noted.
    ghost leads: { Self → Request → Self.Place → Type 0 };

    /// No request needs more objects than one for each place on its paths.
    ghost few: { (t : Self) (q : Request) → table.left t q ≤ most_objects q };

    /// One more turn.
    fn tick(&mut self)
        ensures ticks { Ticks table self.old self.new }
        ensures places { LeadStill leads self.old self.new };

    /// One attempt: it finishes, or needs an object. What it finds in the cache or the stored files it may load.
    ///
    /// It may continue at a place that leads along a path of the request, and leaves there where it waits, if it does.
    fn attempt(
        &mut self,
        alloc: Global,
        request: &Request,
        place: &mut Option<Self::Place>,
    ) -> Attempt
        requires { IfSome place.old (leads self.old request.now) }
        ensures tries { Tries table W.honest self.old request.now result self.new }
        ensures leads { IfSome place.new (leads self.new request.now) }
        ensures places { LeadStill leads self.old self.new };

    /// Keeps an object. The only error is want of memory: it comes back, and nothing has changed.
    fn put(&mut self, key: Key, object: Object) -> Result<(), Object>
        requires { IsFetched W.repository W.honest key object }
        ensures ok { OnOk result (Stores table self.old key object self.new) }
        ensures err { OnErr result (self.new ≡ self.old) }
        ensures places { LeadStill leads self.old self.new };

    /// Unloads the loaded directories at and below the path that weren't used for this many turns. How many went.
    fn unload(&mut self, alloc: Global, path: &Path, older_than: u64) -> u64
        ensures unloads { Unloads table W.honest self.old path.now older_than result self.new }
        ensures places { LeadStill leads self.old self.new };

    /// What kept the device from storing when it was to store last; None if it stored, or didn't say. Contracts promise
    /// nothing of it.
    fn obstacle(&self) -> Option<Obstacle>;

    /// Waits until a loss of power would take nothing of what is stored. False if the device failed, or if there was no
    /// memory: then that isn't known.
    fn sync(&mut self, alloc: Global) -> bool
        ensures syncs { Syncs table W.honest self.old result self.new }
        ensures places { LeadStill leads self.old self.new };
}
