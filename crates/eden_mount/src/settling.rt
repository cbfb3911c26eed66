// How an attempt of a pending request comes out.
ghost use Rattle.std.specs.Prelude.{◌≡◌, ◌≢◌, ◌≤◌, ℕ, IfSome, None, length};
ghost use Rattle.eden_mount.specs.Places.{kept_at, LeadStill, IsKeptFor};
ghost use Rattle.eden_mount.specs.Replying.{Settles};

use crate::attempts::Attempts;
use crate::places::note;
use eden_model::{Attempt, Cause, Fault, Key, Reply, Request, World};
use std::alloc::Global;

/// The reply that was found, or the key that the request waits for.
pub(crate) enum Settled {
    Found(Reply),
    Waits(Key),
}

/// Attempts the request of a pass that has this mark, from a place where it waited, if there is one.
fn settle<W: World, T: Attempts<W>>(
    alloc: Global,
    table: &mut T,
    request: &Request,
    mark: Option<(Key, Cause)>,
    place: &mut Option<T::Place>,
) -> Settled
    requires { IfSome place.old (T.leads table.old request.now) }
    ensures settles { Settles T.table W.honest table.old request.now mark result table.new }
    ensures leads { IfSome place.new (T.leads table.new request.now) }
    ensures places { LeadStill T.leads table.old table.new }
{
    match table.attempt(alloc, request, place) {
        Attempt::Finished(reply) => Settled::Found(reply),
        Attempt::Need(key) => {
            if let Some((marked, cause)) = mark {
                if marked == key {
                    return Settled::Found(Reply::Fault(Fault::Fetch(key.id, cause)));
                }
            }
            Settled::Waits(key)
        }
    }
}

/// Nothing is kept any more. It stands apart, since a body that replaces a place clears a kilobyte first, which takes
/// longer than a look does.
#[inline(never)]
fn forget<P: Drop>(place: &mut Option<P>)
    ensures { place.new ≡ None }
{
    *place = None;
}

/// The same, and what came out leaves no place.
fn settle_at<W: World, T: Attempts<W>>(
    alloc: Global,
    table: &mut T,
    request: &Request,
    mark: Option<(Key, Cause)>,
    place: &mut Option<T::Place>,
) -> Settled
    requires { IfSome place.old (T.leads table.old request.now) }
    ensures settles { Settles T.table W.honest table.old request.now mark result table.new }
    ensures kept { IsKeptFor T.leads table.new request.now result place.new }
    ensures places { LeadStill T.leads table.old table.new }
{
    let settled = settle::<W, T>(alloc, table, request, mark, place);
    if let Settled::Found(_) = &settled {
        if place.is_some() {
            forget(place);
        }
    }
    settled
}

/// Attempts the request that is pending at a seat, from the place that is kept there, if there is one. Where it waits
/// then is kept, if there is memory for it.
pub(crate) fn resume<W: World, T: Attempts<W>>(
    alloc: Global,
    table: &mut T,
    request: &Request,
    mark: Option<(Key, Cause)>,
    places: &mut Vec<Option<T::Place>>,
    seat: usize,
) -> Settled
    requires { IfSome (kept_at seat places.old.items) (T.leads table.old request.now) }
    ensures settles { Settles T.table W.honest table.old request.now mark result table.new }
    ensures places { LeadStill T.leads table.old table.new }
    ensures kept { IsKeptFor T.leads table.new request.now result (kept_at seat places.new.items) }
    ensures elsewhere { (i : ℕ) → i ≢ seat → kept_at i places.new.items ≡ kept_at i places.old.items }
{
    if seat < places.len() {
        return settle_at::<W, T>(alloc, table, request, mark, &mut places[seat]);
    }
    resume_first::<W, T>(alloc, table, request, mark, places, seat)
}

/// The same at a seat at which no place was ever kept. It stands apart as `forget` does.
#[inline(never)]
fn resume_first<W: World, T: Attempts<W>>(
    alloc: Global,
    table: &mut T,
    request: &Request,
    mark: Option<(Key, Cause)>,
    places: &mut Vec<Option<T::Place>>,
    seat: usize,
) -> Settled
    requires { length places.old.items ≤ seat }
    ensures settles { Settles T.table W.honest table.old request.now mark result table.new }
    ensures places { LeadStill T.leads table.old table.new }
    ensures kept { IsKeptFor T.leads table.new request.now result (kept_at seat places.new.items) }
    ensures elsewhere { (i : ℕ) → i ≢ seat → kept_at i places.new.items ≡ kept_at i places.old.items }
{
    let mut place = None;
    let settled = settle_at::<W, T>(alloc, table, request, mark, &mut place);
    if let Some(place) = place {
        note(places, seat, place);
    }
    settled
}
