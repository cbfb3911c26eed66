// A folder over a shared mount, from its beginning to its end.
ghost use Rattle.std.specs.Prelude.{◌≡◌, ◌∷◌, [], ◌≤◌, length, vec_capacity, vec_len};
ghost use Rattle.eden_fuse_host.specs.Hands.{HaveAttended, IsServed};
ghost use Rattle.eden_fuse_host.specs.Turns.{IsShown, IsTurn, beginning};

use crate::answering::Counter;
use crate::asking::Asking;
use crate::attending::attend_all;
use crate::begun::Begun;
use crate::calling::Calling;
use crate::lines::Lines;
use crate::turns::Turns;
use eden_fuse_session::{Receiver, Sender, SessionFault};
use eden_fuse_shown::{Manner, Shown, Times};
use eden_model::World;
use eden_shared::{Naming, Pass};
use eden_source::Source;
use std::alloc::Global;
use std::marker::{Brand, Send, Sync};
use std::rt::Clock;
use std::sync::{Mutex, Wait};
use std::thread::Threads;

/// Shows a folder by one pass for its turns, and a thread for each of the others, until no more messages come; then all
/// that waits is stored, or the number of the first error reported.
fn show<
    B: Begun + Send,
    W: World + Send,
    J: Naming + Send,
    C: Asking<W, J> + Sync,
    S: Source<W> + Send + Drop,
    V: Receiver + Send + Drop,
    O: Sender + Send + Drop,
    G: Lines<V, O> + Sync,
    K: Clock + Send + Drop,
    R: Threads + Wait + Sync,
>(
    rt: &R,
    alloc: Global,
    shared: &C,
    lines: &G,
    pass: Pass<J>,
    source: S,
    passes: Vec<Pass<J>>,
    sources: Vec<S>,
    manner: Manner,
    times: Times,
    clock: K,
) -> (Vec<Pass<J>>, Pass<J>, Result<(), SessionFault>, Option<u32>)
    requires begun { B.begun ≡ beginning pass manner ∷ [] }
    requires sources { length passes.items ≤ length sources.items }
    ensures attended { HaveAttended V.Receiver O.Sender (G.comes lines.now)
        (IsTurn W.honest W.opening W.numbers B.begun) passes.items result.0.items result.2 }
    ensures shown { IsShown W.honest W.opening W.numbers (beginning pass manner) result.3 result.1 }
    ensures len { vec_len result.0 ≡ vec_len passes }
    ensures room { vec_capacity passes ≤ vec_capacity result.0 }
{
    let calling: Calling<W, J, &C, S, &R, B> = Calling::new(rt, shared, pass, source);
    let counter = Counter {
        lock: Mutex::new(Turns::new(Shown::new(alloc, calling, clock, manner, times))),
    };
    let (passes, said) = attend_all::<W, J, C, S, Counter<W, J, &C, S, &R, K, B>, V, O, G, R>(
        rt, alloc, shared, &counter, lines, passes, sources,
    );
    let Counter { lock } = counter;
    let (mount, unstored) = lock.into_inner().into_shown().into_mount();
    (passes, mount.into_pass(), said, unstored)
}

/// Shows a folder by the last of these passes, and a thread for each of the others. Each has a source of its own.
pub(crate) fn show_by<
    W: World + Send,
    J: Naming + Send,
    C: Asking<W, J> + Sync,
    S: Source<W> + Send + Drop,
    V: Receiver + Send + Drop,
    O: Sender + Send + Drop,
    G: Lines<V, O> + Sync,
    K: Clock + Send + Drop,
    R: Threads + Wait + Sync,
>(
    rt: &R,
    alloc: Global,
    shared: &C,
    lines: &G,
    passes: Vec<Pass<J>>,
    sources: Vec<S>,
    manner: Manner,
    times: Times,
    clock: K,
) -> (Vec<Pass<J>>, Result<(), SessionFault>, Option<u32>)
    requires some { 1 ≤ length passes.items }
    requires sources { length passes.items ≤ length sources.items }
    ensures { IsServed V.Receiver O.Sender (G.comes lines.now) W.honest W.opening W.numbers manner passes.items
        result.0.items result.1 result.2 }
{
    let (mut passes, mut sources) = (passes, sources);
    let Some(pass) = passes.pop() else {
        unreachable!()
    };
    let Some(source) = sources.pop() else {
        unreachable!()
    };
    let (mut passes, pass, said, unstored) = show::<Brand, W, J, C, S, V, O, G, K, R>(
        rt, alloc, shared, lines, pass, source, passes, sources, manner, times, clock,
    );
    let Ok(()) = passes.push(pass) else {
        unreachable!()
    };
    (passes, said, unstored)
}
