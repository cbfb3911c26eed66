//! A shared mount served to as many connections as it has passes.
ghost use Rattle.std.specs.Prelude.{◌≡◌, List, length, IfOk, IsOk, MatchResult};
ghost use Rattle.eden_model.specs.Histories.{Legal};
ghost use Rattle.eden_shared.specs.Passes.{Agrees, AreEach, AreNewcomers, Carried};
ghost use Rattle.eden_host.specs.Guests.{HaveLearntNothing};
ghost use Rattle.eden_host.specs.Sessions.{AreHosted};
ghost use Rattle.eden_host.specs.Threads.{MayHaveThreads};

use crate::accepts::Accepts;
use crate::attend::Hosting;
use crate::fault::HostFault;
use crate::fetchers::Fetchers;
use crate::served::Served;
use crate::threads::small_stack;
use core::thread::Anything;
use eden_history::History;
use eden_model::World;
use eden_mount::{Attempts, Mount, Unloading};
use eden_shared::{Naming, Pass, Shared, Torn};
use eden_source::Source;
use std::alloc::{Allocator, Global};
use std::io::{Read, Write};
use std::marker::{PhantomData, Send, Sync};
use std::sync::Wait;
use std::sync::atomic::AtomicUsize;
use std::thread::{self, Scope, Threads};

/// What is left of a mount that was served to many.
#[derive(Drop)]
pub struct Hosted<W: World, T: Attempts<W> + Drop, A: Allocator, J: Naming, H: History> {
    /// The mount, with nothing pending, if the passes were those of the shared mount.
    pub mount: Result<Mount<W, T, A, H>, Torn<W, T, A, J, H>>,
    /// The first fault of listening or of a session.
    pub outcome: Result<(), HostFault>,
}

/// Passes that were told nothing learnt nothing.
fn begin<J: Naming>(passes: &Vec<Pass<J>>)
    requires { AreNewcomers passes.now.items (length J.names) }
    ensures learnt { HaveLearntNothing passes.now.items }
    ensures each { AreEach passes.now.items (length J.names) }
{}

impl<
    's,
    W: World + Send + 's,
    J: Naming + Send + 's,
    C: Served<W, J> + Sync,
    R: Threads + Wait + Sync,
> Hosting<'s, W, J, C, R> {
    /// Fetches from each source in a thread of its own, if one can be made, until nothing will be wanted any more.
    /// Whether anybody fetches.
    fn fetch_from_all<E: 's, S: Source<W> + Send + Drop + 's>(
        self,
        scope: &Scope<'s, E>,
        fetchers: Fetchers<S>,
    ) -> bool {
        let Hosting { rt, shared, .. } = self;
        let mut fetched = false;
        for source in fetchers.into_sources() {
            let mut source = source;
            let fetch = move || shared.fetch_wanted(rt, &mut source);
            fetched |= small_stack()
                .spawn_scoped_with(scope, Anything, fetch)
                .is_ok();
        }
        fetched
    }

    /// Serves the sessions of all guests beside the fetchers, and then stops these.
    fn serve_all<
        S: Source<W> + Send + Drop,
        I: Read + Send + Drop,
        O: Write + Send + Drop,
        L: Accepts<I, O> + Drop,
    >(
        self,
        listener: L,
        passes: Vec<Pass<J>>,
        fetchers: Fetchers<S>,
    ) -> (Vec<Pass<J>>, Result<(), HostFault>)
        requires learnt { HaveLearntNothing passes.items }
        ensures passes { AreHosted I.Read O.Write W.honest W.opening W.numbers passes.items result.0.items result.1 }
    {
        thread::scope(
            thread::scope_env(),
            self.rt,
            move |scope| -> (Vec<Pass<J>>, Result<(), HostFault>)
                requires { MayHaveThreads W.row J.row S.row I.row O.row C.row R.row × HaveLearntNothing passes.items }
                ensures { AreHosted I.Read O.Write W.honest W.opening W.numbers passes.items result.0.items result.1 }
            {
                let fetched = self.fetch_from_all(scope, fetchers);
                let served = self.attend_all(scope, fetched, listener, passes);
                self.shared.end_calls(self.rt);
                served
            },
        )
    }
}

/// Serves a shared mount: a connection and a thread for each pass, and a fetcher for each source.
///
/// A client that sends nothing, never reads or goes away costs its own session alone. One for which no thread can be
/// made has its connection closed, and no session. After the last session the mount is stopped, the fetchers end, and
/// the mount comes back, as its passes were told. If no thread can be made for any fetcher no session begins; if none
/// began, the outcome is want of memory.
pub fn host<
    W: World + Send,
    T: Attempts<W> + Send + Drop,
    A: Allocator + Send,
    J: Naming + Send,
    H: History + Send,
    S: Source<W> + Send + Drop,
    I: Read + Send + Drop,
    O: Write + Send + Drop,
    L: Accepts<I, O> + Drop,
    R: Threads + Wait + Sync,
>(
    rt: &R,
    alloc: Global,
    listener: L,
    shared: Shared<W, T, A, J, H>,
    passes: Vec<Pass<J>>,
    fetchers: Fetchers<S>,
    unloading: Unloading,
) -> Hosted<W, T, A, J, H>
where
    T::Place: Send,
    requires passes { AreNewcomers passes.items (length J.names) }
    ensures told { (left : List Carried)
        × AreHosted I.Read O.Write W.honest W.opening W.numbers passes.items left result.outcome
        × IfOk result.mount (λ m. Agrees T.table m left) }
    ensures whole { IsOk result.mount }
    ensures legal { W.honest → MatchResult result.mount (λ m. Legal W.opening W.numbers m.history)
        (λ t. Legal W.opening W.numbers t.mount.history) }
{
    begin(&passes);
    let closed = AtomicUsize::new(0);
    let hosting = Hosting::<W, J, Shared<W, T, A, J, H>, R> {
        rt,
        alloc,
        shared: &shared,
        unloading,
        closed: &closed,
        of: PhantomData,
    };
    let (passes, outcome) = hosting.serve_all(listener, passes, fetchers);
    Hosted {
        mount: shared.finish(passes),
        outcome,
    }
}
