//! A mount of one pass that is shared with a fetcher.
ghost use Rattle.std.specs.Prelude.{◌≡◌, Bool, IfSome};
ghost use Rattle.eden_shared.specs.Lanes.{names_of};
ghost use Rattle.eden_shared.specs.Opening.{AreTied, IsUnused};

use crate::calls::{root, want};
use crate::lives::{HISTORY, Mounted, Stored, Tree, close, open, room};
use crate::script::{Script, request_in};
use crate::stage::Stage;
use crate::teller::Teller;
use eden_checkout::Opening;
use eden_history::Kept;
use eden_model::{CallFault, Cause, Id, Outside, Request, StartFault};
use eden_mount::{Attempts, Mount, Room};
use eden_object::id_of;
use eden_shared::{Naming, Pass, Recording, Shared, Ties};
use eden_source::Source;
use std::alloc::Global;
use std::marker::{Brand, Send, Sync};
use std::sync::Wait;
use std::thread::{self, Threads};

type Held<T, J> = Shared<Outside, T, Global, J, Kept>;

/// How far a life came.
#[derive(Clone, Copy, PartialEq, Eq)]
enum Came {
    /// No step was taken, since the mount wasn't shared or no thread could be made.
    Nowhere,
    /// To a line that is no step.
    Astray,
    ToItsEnd,
}

fn call<T: Attempts<Outside> + Drop, J: Naming, R: Wait>(
    rt: &R,
    teller: &mut Teller,
    shared: &Held<T, J>,
    pass: &mut Recording<J>,
    request: Request,
) {
    teller.begin("call");
    match pass.call(shared, rt, request) {
        Ok(told) => teller.end_reply(told.number, &told.reply),
        Err(fault) => teller.end(want(fault == CallFault::Start(StartFault::Memory))),
    }
}

/// How many calls the pass was told of, which takes no memory.
fn look<J: Naming>(teller: &mut Teller, pass: &mut Recording<J>) {
    teller.begin("told");
    pass.learn(0);
    let count = pass.told().len() as u64;
    if count < pass.pass().floor() && pass.pass().number() == 1 {
        teller.end_number(count);
    } else {
        teller.end("another");
    }
}

/// The line's request is called. False if it is none.
fn ask<T: Attempts<Outside> + Drop, J: Naming, R: Wait>(
    rt: &R,
    alloc: Global,
    teller: &mut Teller,
    shared: &Held<T, J>,
    pass: &mut Recording<J>,
    line: &[u8],
) -> bool {
    let Some(request) = request_in(alloc, line) else {
        return false;
    };
    call(rt, teller, shared, pass, request);
    look(teller, pass);
    true
}

fn unload<T: Attempts<Outside> + Drop, J: Naming, R: Wait>(
    rt: &R,
    alloc: Global,
    teller: &mut Teller,
    shared: &Held<T, J>,
) -> bool {
    let Some(root) = root(alloc) else {
        return false;
    };
    teller.begin("unload");
    let gone = shared.unload(rt, &root, 0);
    teller.end_number(gone);
    true
}

fn stop<T: Attempts<Outside> + Drop, J: Naming, R: Wait>(
    rt: &R,
    teller: &mut Teller,
    shared: &Held<T, J>,
) {
    teller.begin("stop");
    shared.stop(rt);
    teller.end("ok");
}

/// One step within a life. False if it is none.
fn step<T: Attempts<Outside> + Drop, J: Naming, R: Wait>(
    rt: &R,
    alloc: Global,
    teller: &mut Teller,
    shared: &Held<T, J>,
    pass: &mut Recording<J>,
    line: &[u8],
) -> bool {
    match line {
        b"unload" => unload(rt, alloc, teller, shared),
        [b'1', b' ', request @ ..] => ask(rt, alloc, teller, shared, pass, request),
        _ => false,
    }
}

/// Goes through the steps until the life ends.
fn steps<T: Attempts<Outside> + Drop, J: Naming, R: Wait>(
    rt: &R,
    alloc: Global,
    teller: &mut Teller,
    script: &mut Script,
    shared: &Held<T, J>,
    pass: &mut Recording<J>,
) -> Came {
    for _ in 0..u64::MAX {
        let Some(line) = script.next_line() else {
            return Came::Astray;
        };
        if line == b"close".as_slice() {
            return Came::ToItsEnd;
        }
        if !step(rt, alloc, teller, shared, pass, line) {
            return Came::Astray;
        }
    }
    Came::Astray
}

/// Framed objects that are there to be fetched, each under its own id.
#[derive(Drop)]
struct Objects<'a> {
    framed: &'a [Vec<u8>],
}

impl<'a> Objects<'a> {
    fn find(&self, id: Id) -> Option<&'a [u8]> {
        for framed in self.framed {
            if id_of(framed.as_slice()) == id {
                return Some(framed.as_slice());
            }
        }
        None
    }
}

impl<'a> Source<Outside> for Objects<'a> {
    ghost fetched = { λ _ _ _ _. Unit {0} };

    ghost failures = { λ _. 0 };

    fn failures(&self) -> u64 {
        0
    }

    fn fetch(&mut self, alloc: Global, id: Id) -> Result<Vec<u8>, Cause> {
        let framed = self.find(id).ok_or(Cause::Missing)?;
        Vec::from_slice(alloc, framed).map_err(|_| Cause::Memory)
    }
}

/// Fetches until the mount is stopped.
fn fetch<T: Attempts<Outside> + Drop, J: Naming, R: Wait>(
    rt: &R,
    shared: &Held<T, J>,
    framed: &[Vec<u8>],
) {
    shared.fetch_all(rt, &mut Objects { framed });
}

/// Does something beside a fetcher, which is told whether there is one, and then stops the mount.
fn beside_fetcher<
    T: Attempts<Outside> + Send + Drop,
    J: Naming + Send,
    R: Threads + Wait + Sync,
    X,
    G: FnOnce(bool) -> X,
>(rt: &R, shared: &Held<T, J>, objects: &[Vec<u8>], play: G) -> X
where
    T::Place: Send,
    requires { (b : Bool) → G.pre play b }
{
    thread::scope(thread::scope_env(), rt, move |scope| {
        let is_made = scope.spawn(move || fetch(rt, shared, objects)).is_ok();
        let played = play(is_made);
        shared.stop(rt);
        played
    })
}

/// Goes through the steps of the one pass, which is recorded, and comes back.
fn record<T: Attempts<Outside> + Drop, J: Naming, R: Wait>(
    rt: &R,
    alloc: Global,
    teller: &mut Teller,
    script: &mut Script,
    shared: &Held<T, J>,
    passes: &mut Vec<Pass<J>>,
) -> Came {
    let Some(pass) = passes.pop() else {
        return Came::Nowhere;
    };
    let Ok(mut pass) = Recording::new(alloc, pass) else {
        return Came::Nowhere;
    };
    let came = steps(rt, alloc, teller, script, shared, &mut pass);
    // There is room, since it came from there.
    match passes.push(pass.into_pass()) {
        Ok(()) => came,
        Err(_) => Came::Nowhere,
    }
}

/// Goes through the steps, if there is a fetcher.
fn play<T: Attempts<Outside> + Drop, J: Naming, R: Wait>(
    rt: &R,
    alloc: Global,
    teller: &mut Teller,
    script: &mut Script,
    shared: &Held<T, J>,
    passes: &mut Vec<Pass<J>>,
    is_made: bool,
) -> Came {
    teller.end(if is_made { "ok" } else { "Memory" });
    let came = if is_made {
        record(rt, alloc, teller, script, shared, passes)
    } else {
        Came::Nowhere
    };
    stop(rt, teller, shared);
    came
}

/// Goes through the steps beside a fetcher of these objects.
fn play_beside<J: Naming + Send, R: Threads + Wait + Sync>(
    rt: &R,
    stage: &mut Stage,
    objects: &[Vec<u8>],
    script: &mut Script,
    shared: &Held<Tree, J>,
    passes: &mut Vec<Pass<J>>,
) -> Came {
    let alloc = stage.alloc;
    let teller = &mut stage.teller;
    teller.begin("thread");
    let came = beside_fetcher(rt, shared, objects, |is_made| {
        play(rt, alloc, teller, script, shared, passes, is_made)
    });
    came
}

fn finish<J: Naming>(
    teller: &mut Teller,
    shared: Held<Tree, J>,
    passes: Vec<Pass<J>>,
) -> Option<Tree> {
    teller.begin("finish");
    match shared.finish(passes) {
        Err(_) => {
            teller.end("another");
            None
        }
        Ok(mount) => {
            teller.end("ok");
            Some(mount.into_table())
        }
    }
}

/// A tree that was shared, and how far that came.
#[derive(Drop)]
struct Left {
    came: Came,
    tree: Tree,
}

/// A mount of the one pass, in which nothing is pending.
fn unused(alloc: Global, room: Room<Global>, tree: Tree) -> Option<Mounted>
    requires { room.queue.passes ≡ 1 }
    ensures unused { IfSome result IsUnused }
    ensures passes { IfSome result (λ m. m.queue.passes ≡ 1) }
{
    let mount = Mount::new(room, tree, Kept::new(alloc, HISTORY));
    match mount.busy() {
        None => Some(mount),
        Some(_) => None,
    }
}

/// Shares a mount with these ties. None if its pass doesn't come back.
fn share<J: Naming + Send, R: Threads + Wait + Sync>(
    rt: &R,
    stage: &mut Stage,
    objects: &[Vec<u8>],
    script: &mut Script,
    mount: Mounted,
    ties: Ties,
) -> Option<Left>
    requires unused { IsUnused mount }
    requires passes { mount.queue.passes ≡ 1 }
    requires ties { AreTied ties.lanes.items ties.ends.items 1 }
    requires names { names_of ties.lanes.items ≡ J.names }
{
    stage.teller.begin("share");
    match Held::<Tree, J>::open(stage.alloc, mount, ties) {
        Err((_, mount)) => {
            stage.teller.end("Memory");
            let came = Came::Nowhere;
            let tree = mount.into_table();
            Some(Left { came, tree })
        }
        Ok((shared, mut passes)) => {
            stage.teller.end("ok");
            let came = play_beside(rt, stage, objects, script, &shared, &mut passes);
            let tree = finish(&mut stage.teller, shared, passes)?;
            Some(Left { came, tree })
        }
    }
}

/// A tie for the one pass, or none.
fn ties_once(stage: &mut Stage) -> Option<Ties>
    ensures { IfSome result (λ t. AreTied t.lanes.items t.ends.items 1) }
{
    stage.teller.begin("ties");
    match Ties::new(stage.alloc, 1) {
        Ok(ties) => {
            stage.teller.end("ok");
            Some(ties)
        }
        Err(_) => {
            stage.teller.end("Memory");
            None
        }
    }
}

fn ties(stage: &mut Stage) -> Option<Ties>
    ensures { IfSome result (λ t. AreTied t.lanes.items t.ends.items 1) }
{
    match ties_once(stage) {
        Some(ties) => Some(ties),
        None => ties_once(stage),
    }
}

/// Shares the tree once.
fn share_once<R: Threads + Wait + Sync>(
    rt: &R,
    stage: &mut Stage,
    objects: &[Vec<u8>],
    script: &mut Script,
    tree: Tree,
) -> Option<Left> {
    let mount = unused(stage.alloc, room(stage, 1)?, tree)?;
    let ties = ties(stage)?;
    share::<Brand, R>(rt, stage, objects, script, mount, ties)
}

/// Shares the tree, again if that came nowhere.
fn share_tree<R: Threads + Wait + Sync>(
    rt: &R,
    stage: &mut Stage,
    objects: &[Vec<u8>],
    script: &mut Script,
    tree: Tree,
) -> Option<Left> {
    let left = share_once(rt, stage, objects, script, tree)?;
    match left.came {
        Came::Nowhere => share_once(rt, stage, objects, script, left.tree),
        Came::Astray | Came::ToItsEnd => Some(left),
    }
}

/// A shared life over these files, which it leaves. None if a line is no step, or if something fails twice.
pub fn live_shared<R: Threads + Wait + Sync>(
    rt: &R,
    stage: &mut Stage,
    objects: &[Vec<u8>],
    script: &mut Script,
    files: Stored,
    root: Id,
) -> Option<Stored> {
    let tree = open(stage, files, root, Opening::Closed)?;
    let left = share_tree(rt, stage, objects, script, tree)?;
    if left.came == Came::ToItsEnd {
        close(stage, left.tree)
    } else {
        None
    }
}
