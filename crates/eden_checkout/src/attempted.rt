//! What a mount attempts over a checkout.
ghost use Rattle.std.specs.Prelude.{◌≡◌, IfSome};
ghost use Rattle.eden_model.specs.Requests.{paths_of};
ghost use Rattle.eden_ops.specs.Attempts.{Attempts as Attempted};
ghost use Rattle.eden_ops.specs.Keeping.{Keeps};
ghost use Rattle.eden_ops.specs.Leaving.{LeavesAfter};
ghost use Rattle.eden_ops.specs.Looks.{IsLook, IsBeyondLimits};
ghost use Rattle.eden_ops.specs.Renumbering.{Renumbered};
ghost use Rattle.eden_ops.specs.Trails.{MayGoOn};

use crate::checkout::Checkout;
use eden_cache::Stock;
use eden_inode::{Inodes, place_laws};
use eden_model::{Attempt, Key, Obstacle, Path, Request, World};
use eden_mount::Attempts;
use eden_object::Object;
use eden_ops::{Place, attempt_from, keeps_laws, need_laws};
use eden_overlay::Files;
use std::alloc::{Allocator, Global};
use std::mem;

impl<A: Allocator + Clone, W: World, F: Files<W>> Attempts<W> for Checkout<A, W, F> {
    ghost use Rattle.eden_checkout.specs.Attempted.{attempted};
    ghost use Rattle.eden_ops.specs.Left.{few_are_left};
    ghost use Rattle.eden_ops.specs.Trails.{MayGoOn};

    /// Where an attempt waits, in the positions of names above it.
    type Place = Place;

    ghost table = { attempted W.World F.Files };

    ghost leads = { λ t q p. MayGoOn q t.inodes p };

    ghost few = { λ t q. few_are_left t.inodes.root t.cache q };

    fn tick(&mut self) {
        self.inodes.tick();
    }

    fn attempt(&mut self, alloc: Global, request: &Request, place: &mut Option<Place>) -> Attempt {
        keeps_laws::<W, F>();
        need_laws();
        let cache = &mut self.cache;
        attempt_at(
            &mut self.inodes,
            cache,
            &mut self.spare,
            alloc,
            request,
            place,
        )
    }

    fn put(&mut self, key: Key, object: Object) -> Result<(), Object> {
        need_laws();
        self.cache.put(key, object)
    }

    fn unload(&mut self, alloc: Global, path: &Path, older_than: u64) -> u64 {
        place_laws::<W, F>();
        self.inodes.unload(alloc, path.as_slice(), older_than).count
    }

    fn obstacle(&self) -> Option<Obstacle> {
        self.inodes.obstacle()
    }

    fn sync(&mut self, alloc: Global) -> bool {
        self.inodes.sync(alloc).is_ok()
    }
}

/// One attempt, from the place where an earlier one of the request waited, or from the root if there is none. Where it
/// waits is left there, and else nothing. Only then is a place made: until then the spare one is used.
fn attempt_at<A: Allocator + Clone, W: World, F: Files<W>>(
    inodes: &mut Inodes<A, W, F>,
    cache: &mut Stock<W, A>,
    spare: &mut Place,
    alloc: Global,
    request: &Request,
    place: &mut Option<Place>,
) -> Attempt
    requires { IfSome place.old (MayGoOn request.now inodes.old) }
    ensures attempts { Attempted W.World F.Files request.now inodes.old inodes.new cache.old cache.new result }
    ensures leaves { LeavesAfter W.World F.Files request.now inodes.old inodes.new result }
    ensures renumbers { W.honest → Renumbered W.World F.Files request.now inodes.old inodes.new result }
    ensures refused { IsBeyondLimits request.now → inodes.new ≡ inodes.old }
    ensures looks { IsLook request.now → Keeps W.World F.Files (paths_of request.now) inodes.old inodes.new }
    ensures leads { IfSome place.new (MayGoOn request.now inodes.new) }
{
    match place {
        None => {
            spare.forget();
            let attempt = attempt_from(inodes, cache, alloc, request, spare, &mut 0);
            if let Attempt::Need(_) = &attempt {
                *place = Some(mem::replace(spare, Place::new()));
            }
            attempt
        }
        Some(found) => {
            let attempt = attempt_from(inodes, cache, alloc, request, found, &mut 0);
            if let Attempt::Finished(_) = &attempt {
                *place = None;
            }
            attempt
        }
    }
}
