// The threads of a folder.
ghost use Rattle.std.specs.Prelude.{◌≡◌, ◌≤◌, IfOk, IfErr, length, vec_capacity, vec_len};
ghost use Rattle.std.specs.Thread.{IsSync};
ghost use denote.Param.Send.{IsSend};
ghost use Rattle.eden_fuse_host.specs.Hands.{HaveAttended, IsAttended, first_told};

use crate::answering::Answering;
use crate::asking::Asking;
use crate::hand::Hand;
use crate::lines::Lines;
use core::thread::Stack;
use eden_fuse_session::{Receiver, Sender, SessionFault, session};
use eden_model::World;
use eden_shared::{Naming, Pass};
use eden_source::Source;
use std::alloc::Global;
use std::marker::{PhantomData, Send, Sync};
use std::snapshot::Snapshot;
use std::sync::Wait;
use std::thread::{self, Promise, PromisedHandle, Scope, Threads};

/// How many bytes the stack of a folder's thread has.
const STACK: usize = 1 << 20;

/// A thread's pass after its session, and how the session ended.
#[derive(Drop)]
pub(crate) struct Attended<J: Naming> {
    pass: Pass<J>,
    said: Result<(), SessionFault>,
}

/// That a thread answers messages with a pass.
#[derive(Drop)]
struct Attends<J: Naming, V: Receiver, O: Sender, D: Answering, G: Lines<V, O>> {
    pass: Snapshot<Pass<J>>,
    lines: Snapshot<G>,
    of: PhantomData<(V, O, D)>,
}

impl<J: Naming, V: Receiver, O: Sender, D: Answering, G: Lines<V, O>> Promise<Attended<J>>
    for Attends<J, V, O, D, G> {
    ghost kept_by = { λ s a. IsAttended V.Receiver O.Sender (G.comes s.lines.value) D.turns s.pass.value
        a.pass a.said };
}

/// Answers one message after another from a line of this thread, and looks with that pass, until no more come.
fn attend<
    W: World,
    J: Naming,
    C: Asking<W, J>,
    S: Source<W> + Drop,
    D: Answering,
    V: Receiver + Send + Drop,
    O: Sender + Send + Drop,
    G: Lines<V, O>,
    R: Wait,
>(rt: &R, alloc: Global, shared: &C, folder: &D, lines: &G, pass: Pass<J>, source: S) -> Attended<J>
    ensures { IsAttended V.Receiver O.Sender (G.comes lines.now) D.turns pass result.pass result.said }
{
    let (mut receiver, mut sender) = lines.line();
    let mut hand = Hand::<W, J, C, S, D, R>::new(rt, alloc, shared, folder, pass, source);
    let said = session(alloc, &mut receiver, &mut sender, &mut hand);
    Attended {
        pass: hand.into_pass(),
        said,
    }
}

/// Answers messages so in a thread of its own. If none can be made, this thread does.
fn begin<
    's,
    E: 's,
    W: World + Send + 's,
    J: Naming + Send + 's,
    C: Asking<W, J> + Sync,
    S: Source<W> + Send + Drop + 's,
    D: Answering + Sync,
    V: Receiver + Send + Drop + 's,
    O: Sender + Send + Drop + 's,
    G: Lines<V, O> + Sync,
    R: Threads + Wait + Sync,
>(
    scope: &Scope<'s, E>,
    rt: &'s R,
    alloc: Global,
    shared: &'s C,
    folder: &'s D,
    lines: &'s G,
    pass: Pass<J>,
    source: S,
) -> Result<PromisedHandle<Attended<J>, Attends<J, V, O, D, G>>, Attended<J>>
    ensures ok { IfOk result (λ h. (h.promise.pass.value ≡ pass) × (h.promise.lines.value ≡ lines.now)) }
    ensures err { IfErr result (λ a. IsAttended V.Receiver O.Sender (G.comes lines.now) D.turns pass a.pass a.said) }
{
    let attends = Attends {
        pass: Snapshot::of(&pass),
        lines: Snapshot::of(lines),
        of: PhantomData,
    };
    let attend_here = move || -> Attended<J>
        ensures { IsAttended V.Receiver O.Sender (G.comes lines.entry.now) D.turns pass result.pass result.said }
    { attend::<W, J, C, S, D, V, O, G, R>(rt, alloc, shared, folder, lines, pass, source) };
    match Stack::new()
        .stack_size(STACK)
        .spawn_scoped_with(scope, attends, attend_here)
    {
        Ok(thread) => Ok(thread),
        Err(refused) => Err((refused.value)()),
    }
}

/// The fault that is reported for a session and those after it.
fn first_told(
    said: Result<(), SessionFault>,
    later: Result<(), SessionFault>,
) -> Result<(), SessionFault>
    ensures { result ≡ first_told said later }
{
    match said {
        Err(fault) => Err(fault),
        Ok(()) => later,
    }
}

/// Answers messages with each of these passes, in a thread of its own. The passes after their sessions, and the first
/// fault of one.
fn attend_each<
    's,
    E: 's,
    W: World + Send + 's,
    J: Naming + Send + 's,
    C: Asking<W, J> + Sync,
    S: Source<W> + Send + Drop + 's,
    D: Answering + Sync,
    V: Receiver + Send + Drop + 's,
    O: Sender + Send + Drop + 's,
    G: Lines<V, O> + Sync,
    R: Threads + Wait + Sync,
>(
    scope: &Scope<'s, E>,
    rt: &'s R,
    alloc: Global,
    shared: &'s C,
    folder: &'s D,
    lines: &'s G,
    passes: Vec<Pass<J>>,
    sources: Vec<S>,
) -> (Vec<Pass<J>>, Result<(), SessionFault>)
    requires sources { length passes.items ≤ length sources.items }
    ensures passes { HaveAttended V.Receiver O.Sender (G.comes lines.now) D.turns passes.items result.0.items result.1 }
    ensures len { vec_len result.0 ≡ vec_len passes }
    ensures room { vec_capacity passes ≤ vec_capacity result.0 }
{
    let (mut passes, mut sources) = (passes, sources);
    if passes.is_empty() {
        return (passes, Ok(()));
    }
    let Some(source) = sources.pop() else {
        unreachable!()
    };
    let pass = passes.remove(0);
    let begun = begin::<E, W, J, C, S, D, V, O, G, R>(
        scope, rt, alloc, shared, folder, lines, pass, source,
    );
    let (mut passes, later) = attend_each::<E, W, J, C, S, D, V, O, G, R>(
        scope, rt, alloc, shared, folder, lines, passes, sources,
    );
    let Attended { pass, said } = match begun {
        Ok(thread) => thread.join(rt),
        Err(attended) => attended,
    };
    let Ok(()) = passes.insert(0, pass) else {
        unreachable!()
    };
    (passes, first_told(said, later))
}

/// Answers messages with each of these passes until no more come, and gives the passes back when all have ended, with
/// the first fault of a session.
pub(crate) fn attend_all<
    W: World + Send,
    J: Naming + Send,
    C: Asking<W, J> + Sync,
    S: Source<W> + Send + Drop,
    D: Answering + Sync,
    V: Receiver + Send + Drop,
    O: Sender + Send + Drop,
    G: Lines<V, O> + Sync,
    R: Threads + Wait + Sync,
>(
    rt: &R,
    alloc: Global,
    shared: &C,
    folder: &D,
    lines: &G,
    passes: Vec<Pass<J>>,
    sources: Vec<S>,
) -> (Vec<Pass<J>>, Result<(), SessionFault>)
    requires sources { length passes.items ≤ length sources.items }
    ensures passes { HaveAttended V.Receiver O.Sender (G.comes lines.now) D.turns passes.items result.0.items result.1 }
    ensures len { vec_len result.0 ≡ vec_len passes }
    ensures room { vec_capacity passes ≤ vec_capacity result.0 }
{
    thread::scope(
        thread::scope_env(),
        rt,
        move |scope| -> (Vec<Pass<J>>, Result<(), SessionFault>)
            requires { IsSend W.row × IsSend J.row × IsSync C.row × IsSend S.row × IsSync D.row × IsSend V.row
                × IsSend O.row × IsSync G.row × IsSync R.row × (length passes.items ≤ length sources.items) }
            ensures { HaveAttended V.Receiver O.Sender (G.comes lines.entry.now) D.turns passes.items
                result.0.items result.1 × (vec_len result.0 ≡ vec_len passes)
                × (vec_capacity passes ≤ vec_capacity result.0) }
        {
            attend_each::<_, W, J, C, S, D, V, O, G, R>(
                scope, rt, alloc, shared, folder, lines, passes, sources,
            )
        },
    )
}
