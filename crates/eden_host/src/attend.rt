//! The sessions of a shared mount's guests, each in a thread of its own.
ghost use Rattle.std.specs.Prelude.{◌≡◌, ◌≤◌, IfOk, IfErr, vec_capacity, vec_len};
ghost use Rattle.eden_host.specs.Guests.{HasLearntNothing, HaveLearntNothing};
ghost use Rattle.eden_host.specs.Sessions.{AreAttended, AreHosted, IsSeated, first_host_fault, gathered, outcome_of};

use crate::accepts::Accepts;
use crate::fault::HostFault;
use crate::guest::Guest;
use crate::served::Served;
use crate::threads::small_stack;
use eden_model::World;
use eden_mount::Unloading;
use eden_shared::{Naming, Pass};
use eden_wire::{SessionFault, session};
use std::alloc::Global;
use std::io::{Read, Write};
use std::marker::{PhantomData, Send, Sync};
use std::snapshot::Snapshot;
use std::sync::Wait;
use std::sync::atomic::{AtomicUsize, Ordering};
use std::thread::{Promise, PromisedHandle, Scope, Threads};

/// The hosting of a shared mount's guests: what each session needs beside its pass and its connection.
#[derive_where(Clone, Copy)]
pub(crate) struct Hosting<'a, W, J, C, R> {
    pub(crate) rt: &'a R,
    pub(crate) alloc: Global,
    pub(crate) shared: &'a C,
    pub(crate) unloading: Unloading,
    /// 0, or the number of the session that was given no thread last.
    pub(crate) closed: &'a AtomicUsize,
    pub(crate) of: PhantomData<(W, J)>,
}

/// A guest's pass after its session, and how the session ended. None if there was none, since no thread could be made
/// for it.
#[derive(Drop)]
pub(crate) struct Attended<J: Naming> {
    pass: Pass<J>,
    said: Option<Result<(), SessionFault>>,
}

/// That a pass has its session, or none.
#[derive(Drop)]
struct Seat<W: World, J: Naming, I: Read, O: Write> {
    pass: Snapshot<Pass<J>>,
    connection: PhantomData<(W, I, O)>,
}

impl<W: World, J: Naming, I: Read, O: Write> Promise<Attended<J>> for Seat<W, J, I, O> {
    ghost kept_by = { λ s a. IsSeated I.Read O.Write W.honest W.opening W.numbers s.pass.value a.pass a.said };
}

/// The fault that is reported for a session and those after it: that listening failed, or else the first session's.
fn first_fault(
    said: Result<(), SessionFault>,
    later: Result<(), HostFault>,
) -> Result<(), HostFault>
    ensures { result ≡ first_host_fault said later }
{
    match (said, later) {
        (_, Err(HostFault::Listen)) => Err(HostFault::Listen),
        (Err(fault), _) => Err(HostFault::Session(fault)),
        (Ok(()), later) => later,
    }
}

/// What a pass's session and the passes after it come to.
fn gathered(
    said: Option<Result<(), SessionFault>>,
    later: Option<Result<(), HostFault>>,
) -> Option<Result<(), HostFault>>
    ensures { result ≡ gathered said later }
{
    match (said, later) {
        (None, later) => later,
        (Some(said), None) => Some(first_fault(said, Ok(()))),
        (Some(said), Some(later)) => Some(first_fault(said, later)),
    }
}

/// What is reported of all passes.
fn outcome_of(sessions: Option<Result<(), HostFault>>) -> Result<(), HostFault>
    ensures { result ≡ outcome_of sessions }
{
    sessions.unwrap_or(Err(HostFault::Session(SessionFault::Memory)))
}

impl<
    's,
    W: World + Send + 's,
    J: Naming + Send + 's,
    C: Served<W, J> + Sync,
    R: Threads + Wait + Sync,
> Hosting<'s, W, J, C, R> {
    /// Answers each line that a client says, with that pass.
    fn attend<I: Read + Drop, O: Write + Drop>(
        self,
        pass: Pass<J>,
        reader: I,
        writer: O,
    ) -> Attended<J>
        requires { HasLearntNothing pass }
        ensures { IsSeated I.Read O.Write W.honest W.opening W.numbers pass result.pass result.said }
    {
        let (mut reader, mut writer) = (reader, writer);
        let mut guest = Guest::<W, J, C, R>::new(
            self.rt,
            self.alloc,
            self.shared,
            pass,
            self.unloading,
        );
        let said = session(self.alloc, &mut reader, &mut writer, &mut guest);
        Attended {
            pass: guest.into_pass(),
            said: Some(said),
        }
    }

    /// Begins a session over a connection in a thread of its own. If none can be made the connection is closed, and
    /// the pass comes back as it was. `place` is a number of this session alone.
    fn begin<E: 's, I: Read + Send + Drop + 's, O: Write + Send + Drop + 's>(
        self,
        scope: &Scope<'s, E>,
        place: usize,
        pass: Pass<J>,
        connection: (I, O),
    ) -> Result<PromisedHandle<Attended<J>, Seat<W, J, I, O>>, Attended<J>>
        requires { HasLearntNothing pass }
        ensures ok { IfOk result (λ h. h.promise.pass.value ≡ pass) }
        ensures err { IfErr result (λ a. IsSeated I.Read O.Write W.honest W.opening W.numbers pass a.pass a.said) }
    {
        let (reader, writer) = connection;
        let seat = Seat {
            pass: Snapshot::of(&pass),
            connection: PhantomData,
        };
        // What was to run in the thread comes back if none can be made, and then only gives the pass back.
        let attend_guest = move || -> Attended<J>
            requires { HasLearntNothing pass }
            ensures { IsSeated I.Read O.Write W.honest W.opening W.numbers pass result.pass result.said }
        {
            if self.closed.load(Ordering::SeqCst) == place {
                Attended { pass, said: None }
            } else {
                self.attend(pass, reader, writer)
            }
        };
        match small_stack().spawn_scoped_with(scope, seat, attend_guest) {
            Ok(thread) => Ok(thread),
            Err(refused) => {
                self.closed.store(place, Ordering::SeqCst);
                Err((refused.value)())
            }
        }
    }

    /// Takes a connection for each pass, and answers each in a thread of its own, or closes it if none can be made.
    /// The passes after their sessions, and the first fault, if there was a session. After a failed `accept` no more
    /// connections are taken.
    fn attend_each<
        E: 's,
        I: Read + Send + Drop + 's,
        O: Write + Send + Drop + 's,
        L: Accepts<I, O> + Drop,
    >(
        self,
        scope: &Scope<'s, E>,
        listener: L,
        passes: Vec<Pass<J>>,
    ) -> (Vec<Pass<J>>, Option<Result<(), HostFault>>)
        requires learnt { HaveLearntNothing passes.items }
        ensures passes { AreAttended I.Read O.Write W.honest W.opening W.numbers passes.items result.0.items result.1 }
        ensures len { vec_len result.0 ≡ vec_len passes }
        ensures room { vec_capacity passes ≤ vec_capacity result.0 }
    {
        let (mut listener, mut passes) = (listener, passes);
        if passes.is_empty() {
            return (passes, None);
        }
        let Some(connection) = listener.accept() else {
            return (passes, Some(Err(HostFault::Listen)));
        };
        let place = passes.len();
        let pass = passes.remove(0);
        let begun = self.begin(scope, place, pass, connection);
        if begun.is_err() {
            listener.close_unserved();
        }
        let (mut passes, later) = self.attend_each::<E, I, O, L>(scope, listener, passes);
        let Attended { pass, said } = match begun {
            Ok(thread) => thread.join(self.rt),
            Err(unserved) => unserved,
        };
        let Ok(()) = passes.insert(0, pass) else {
            unreachable!()
        };
        (passes, gathered(said, later))
    }

    /// Serves the sessions of all passes, if somebody fetches for them, and else none. The passes come back when all
    /// have ended.
    pub(crate) fn attend_all<
        E: 's,
        I: Read + Send + Drop + 's,
        O: Write + Send + Drop + 's,
        L: Accepts<I, O> + Drop,
    >(
        self,
        scope: &Scope<'s, E>,
        fetched: bool,
        listener: L,
        passes: Vec<Pass<J>>,
    ) -> (Vec<Pass<J>>, Result<(), HostFault>)
        requires learnt { HaveLearntNothing passes.items }
        ensures { AreHosted I.Read O.Write W.honest W.opening W.numbers passes.items result.0.items result.1 }
    {
        if !fetched {
            return (passes, outcome_of(None));
        }
        let (passes, sessions) = self.attend_each::<E, I, O, L>(scope, listener, passes);
        (passes, outcome_of(sessions))
    }
}
