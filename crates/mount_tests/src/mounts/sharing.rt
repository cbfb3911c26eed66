// What the passes of a shared mount are told, one after another and on threads of their own.
ghost use Rattle.std.specs.Prelude.{◌≡◌};
ghost use Rattle.eden_shared.specs.Lanes.{names_of};
ghost use Rattle.eden_shared.specs.Opening.{AreTied};

use crate::mounts::shelf::Shelf;
use crate::mounts::{Mounted, bytes, key, left_of, mount_over, read, root, shelf_on_disk};
use eden_history::Kept;
use eden_model::{CallFault, Cause, Outside, Reply, Request};
use eden_shared::{Answered, Fetched, Naming, Pass, Recording, Shared, Ties};
use eden_source::MemorySource;
use std::alloc::Global;
use std::marker::Brand;
use std::process::Abort;
use std::sync::Wait;
use std::sync::atomic::{AtomicBool, Ordering};
use std::thread::{Threads, join, yield_now};

/// A mount of three passes over a shelf, as it is shared.
type Held<J> = Shared<Outside, Shelf, Global, J, Kept>;

/// The mount, and its three passes.
fn open<J: Naming>(rt: &impl Abort, alloc: Global, ties: Ties) -> (Held<J>, Vec<Pass<J>>)
    requires ties { AreTied ties.lanes.items ties.ends.items 3 }
    requires names { names_of ties.lanes.items ≡ J.names }
{
    open_over::<J>(rt, alloc, Shelf::new(key(), true), ties)
}

/// .. over this shelf.
fn open_over<J: Naming>(
    rt: &impl Abort,
    alloc: Global,
    shelf: Shelf,
    ties: Ties,
) -> (Held<J>, Vec<Pass<J>>)
    requires ties { AreTied ties.lanes.items ties.ends.items 3 }
    requires names { names_of ties.lanes.items ≡ J.names }
{
    match Held::<J>::open(alloc, mount_over(rt, alloc, 9, shelf), ties) {
        Ok(opened) => opened,
        Err(_) => rt.abort(),
    }
}

/// The pass, which keeps what it is told from now on.
fn recording<J: Naming>(rt: &impl Abort, alloc: Global, pass: Option<Pass<J>>) -> Recording<J> {
    match Recording::new(alloc, pass.expect(rt, "a pass")) {
        Ok(pass) => pass,
        Err(_) => rt.abort(),
    }
}

fn ask_root<J: Naming, R: Wait + Abort>(
    rt: &R,
    alloc: Global,
    shared: &Held<J>,
    pass: &mut Recording<J>,
) -> Result<u64, CallFault> {
    let told = pass.call(shared, rt, Request::Kind(root(rt, alloc)))?;
    Ok(told.number)
}

/// As `ask_root`, with a pass that keeps nothing.
fn ask_root_unkept<J: Naming, R: Wait + Abort>(
    rt: &R,
    alloc: Global,
    shared: &Held<J>,
    pass: &mut Pass<J>,
) -> Result<u64, CallFault> {
    match pass.call(shared, rt, Request::Kind(root(rt, alloc))) {
        Ok(answer) => Ok(number_of(answer)),
        Err(fault) => Err(fault),
    }
}

fn number_of(answer: Answered) -> u64 {
    let number = answer.number;
    drop(answer);
    number
}

/// The sixth entry is awaited of a history of that length.
fn awaits_more(length: u64) -> Result<u64, CallFault> {
    Err(CallFault::Foreign { floor: 6, length })
}

/// A pass that learnt a number of which the history knows nothing is told so, as long as it is so short; another is
/// served until the mount is stopped.
fn learn<J: Naming, R: Wait + Abort>(rt: &R, alloc: Global, ties: Ties)
    requires ties { AreTied ties.lanes.items ties.ends.items 3 }
    requires names { names_of ties.lanes.items ≡ J.names }
{
    let (shared, passes) = open::<J>(rt, alloc, ties);
    let mut three = three_of(rt, alloc, passes);
    ask_before_it_is_known(rt, alloc, &shared, &mut three.first, &mut three.second);
    assert!(rt; entries(rt, alloc, shared, three) == 1);
}

/// The second pass learns of the fifth entry, and both ask.
fn ask_before_it_is_known<J: Naming, R: Wait + Abort>(
    rt: &R,
    alloc: Global,
    shared: &Held<J>,
    first: &mut Recording<J>,
    second: &mut Recording<J>,
) {
    second.learn(5);
    assert!(rt; second.pass().floor() == 6);
    ask_for(rt, alloc, shared, second, awaits_more(0));
    ask_for(rt, alloc, shared, first, Ok(1));
    ask_for(rt, alloc, shared, second, awaits_more(1));
    shared.stop(rt);
    ask_for(rt, alloc, shared, first, Err(CallFault::Stopped));
    assert!(rt; first.told().len() == 1 && first.pass().floor() == 2);
}

/// A pass that asks of the root is told that.
fn ask_for<J: Naming, R: Wait + Abort>(
    rt: &R,
    alloc: Global,
    shared: &Held<J>,
    pass: &mut Recording<J>,
    want: Result<u64, CallFault>,
) {
    assert!(rt; ask_root(rt, alloc, shared, pass) == want);
}

/// The passes of a mount.
#[derive(Drop)]
struct Three<J: Naming> {
    first: Recording<J>,
    second: Recording<J>,
    third: Recording<J>,
}

fn three_of<J: Naming>(rt: &impl Abort, alloc: Global, mut passes: Vec<Pass<J>>) -> Three<J> {
    let third = recording(rt, alloc, passes.pop());
    let second = recording(rt, alloc, passes.pop());
    let first = recording(rt, alloc, passes.pop());
    Three {
        first,
        second,
        third,
    }
}

/// The passes, the last one first.
fn backwards<J: Naming>(rt: &impl Abort, alloc: Global, three: Three<J>) -> Vec<Pass<J>> {
    let mut passes = Vec::new(alloc);
    passes.push(three.third.into_pass()).expect(rt, "memory");
    passes.push(three.second.into_pass()).expect(rt, "memory");
    passes.push(three.first.into_pass()).expect(rt, "memory");
    passes
}

/// How many entries the history has. The passes are all there.
fn entries<J: Naming>(rt: &impl Abort, alloc: Global, shared: Held<J>, three: Three<J>) -> usize {
    let ended = shared.finish(backwards(rt, alloc, three));
    ended.ok().expect(rt, "each pass").history().len()
}

/// Nothing is fetched that nobody waits for. If one pass was dropped and another is kept, mount and pass come back as
/// they were. One that learnt a number isn't recorded.
fn tear<J: Naming, R: Wait + Abort>(rt: &R, alloc: Global, ties: Ties)
    requires ties { AreTied ties.lanes.items ties.ends.items 3 }
    requires names { names_of ties.lanes.items ≡ J.names }
{
    let (shared, mut passes) = open::<J>(rt, alloc, ties);
    let kept = passes.pop().expect(rt, "a pass");
    drop(passes.pop());
    ask_and_fetch_nothing(rt, alloc, &shared, passes.first_mut());
    check_torn(rt, shared, passes);
    check_kept(rt, alloc, kept);
}

/// The pass asks of the root, and nothing is to be fetched.
fn ask_and_fetch_nothing<J: Naming, R: Wait + Abort>(
    rt: &R,
    alloc: Global,
    shared: &Held<J>,
    pass: Option<&mut Pass<J>>,
) {
    let pass = pass.expect(rt, "a pass");
    let number = ask_root_unkept(rt, alloc, shared, pass);
    let mut source = MemorySource::<Outside>::new(alloc);
    let fetched = shared.fetch_one(rt, &mut source);
    drop(source);
    assert!(rt; number == Ok(1) && fetched == Fetched::Nothing);
}

/// The pass has learnt nothing yet. Once it learnt a number it isn't recorded.
fn check_kept<J: Naming>(rt: &impl Abort, alloc: Global, mut kept: Pass<J>) {
    let floor = kept.floor();
    kept.learn(1);
    drop(Recording::new(alloc, kept).err().expect(rt, "no recording"));
    assert!(rt; floor == 1);
}

/// Whether that is a mount with one entry and its one pass.
fn is_torn<J: Naming>(mount: &Mounted, passes: &[Pass<J>]) -> bool {
    mount.history().len() == 1 && passes.len() == 1 && has_floor(passes.first(), 2)
}

/// The one pass that is left comes back, and the mount with its one entry.
fn check_torn<J: Naming>(rt: &impl Abort, shared: Held<J>, passes: Vec<Pass<J>>) {
    let torn = shared.finish(passes).err().expect(rt, "no whole mount");
    let is_torn = is_torn(&torn.mount, torn.passes.as_slice());
    drop(torn);
    assert!(rt; is_torn);
}

/// Whether there is the pass, and its next entry is to have that number or a later one.
fn has_floor<J: Naming>(pass: Option<&Pass<J>>, floor: u64) -> bool {
    match pass {
        Some(pass) => pass.floor() == floor,
        None => false,
    }
}

/// Whether the pass is told the object's bytes.
fn reads<J: Naming, R: Wait + Abort>(
    rt: &R,
    alloc: Global,
    shared: &Held<J>,
    pass: &mut Recording<J>,
) -> bool {
    match pass.call(shared, rt, read(rt, alloc)) {
        Ok(told) => matches!(told.reply, Reply::Data(_)),
        Err(_) => false,
    }
}

/// Asks three times for the object, and looks at each reply.
fn ask<J: Naming, R: Wait + Abort>(
    rt: &R,
    alloc: Global,
    shared: &Held<J>,
    pass: &mut Recording<J>,
) {
    for count in 1..4usize {
        assert!(rt; reads(rt, alloc, shared, pass) && pass.told().len() == count);
    }
}

/// Two callers on threads of their own. Then the mount is stopped, which is noted first.
fn ask_twice<J: Naming + Send + Sync, R: Threads + Wait + Abort + Sync>(
    rt: &R,
    alloc: Global,
    shared: &Held<J>,
    is_stopped: &AtomicBool,
    first: &mut Recording<J>,
    second: &mut Recording<J>,
) {
    join(
        rt,
        || ask(rt, alloc, shared, first),
        || ask(rt, alloc, shared, second),
    );
    is_stopped.store(true, Ordering::SeqCst);
    shared.stop(rt);
}

/// A source that has the object, or lacks it.
fn source(rt: &impl Abort, alloc: Global, has: bool) -> MemorySource<Outside> {
    let mut source = MemorySource::new(alloc);
    if has {
        let framed = bytes(rt, alloc, b"blob 0\0").into_vec();
        source.insert(key().id, framed).expect(rt, "memory");
    }
    source
}

/// Fetches until the mount is stopped, and no shorter, from a source that has the object.
fn fetch<J: Naming, R: Wait + Abort>(
    rt: &R,
    alloc: Global,
    shared: &Held<J>,
    is_stopped: &AtomicBool,
) {
    let mut source = source(rt, alloc, true);
    shared.fetch_all(rt, &mut source);
    drop(source);
    assert!(rt; is_stopped.load(Ordering::SeqCst));
}

/// How often a fetcher asks for a key that a caller is about to want: for seconds.
const TRIES: u32 = 1_000_000;

/// What comes of the first key that is queued. `Nothing` if none is, however often it is asked.
fn fetch_in_time<J: Naming, R: Wait>(
    rt: &R,
    shared: &Held<J>,
    source: &mut MemorySource<Outside>,
) -> Fetched {
    for _ in 0..TRIES {
        let fetched = shared.fetch_one(rt, source);
        if fetched != Fetched::Nothing {
            return fetched;
        }
        yield_now();
    }
    Fetched::Nothing
}

/// Fetches once a key is queued, and then finds none: what came of it is that.
fn fetch_next<J: Naming, R: Wait + Abort>(
    rt: &R,
    alloc: Global,
    shared: &Held<J>,
    has: bool,
    comes: Fetched,
) {
    let mut source = source(rt, alloc, has);
    let first = fetch_in_time(rt, shared, &mut source);
    let second = shared.fetch_one(rt, &mut source);
    drop(source);
    assert!(rt; first == comes && second == Fetched::Nothing);
}

/// Two fetchers on threads of their own.
fn fetch_twice<J: Naming + Send + Sync, R: Threads + Wait + Abort + Sync>(
    rt: &R,
    alloc: Global,
    shared: &Held<J>,
    is_stopped: &AtomicBool,
) {
    join(
        rt,
        || fetch(rt, alloc, shared, is_stopped),
        || fetch(rt, alloc, shared, is_stopped),
    );
}

/// Two callers beside two fetchers, until both callers were told three times.
fn race<J: Naming + Send + Sync, R: Threads + Wait + Abort + Sync>(
    rt: &R,
    alloc: Global,
    ties: Ties,
)
    requires ties { AreTied ties.lanes.items ties.ends.items 3 }
    requires names { names_of ties.lanes.items ≡ J.names }
{
    let (shared, passes) = open::<J>(rt, alloc, ties);
    let mut three = three_of(rt, alloc, passes);
    let lock = &shared;
    let (first, second) = (&mut three.first, &mut three.second);
    let is_stopped = AtomicBool::new(false);
    join(
        rt,
        || fetch_twice(rt, alloc, lock, &is_stopped),
        || ask_twice(rt, alloc, lock, &is_stopped, first, second),
    );
    assert!(rt; entries(rt, alloc, shared, three) == 6);
}

/// A caller waits while one key is fetched by a source that has it, or lacks it.
fn meet_once<J: Naming + Send + Sync, R: Threads + Wait + Abort + Sync>(
    rt: &R,
    alloc: Global,
    shared: &Held<J>,
    pass: &mut Recording<J>,
    has: bool,
    comes: Fetched,
) {
    let (read, ()) = join(
        rt,
        || reads(rt, alloc, shared, pass),
        || fetch_next(rt, alloc, shared, has, comes),
    );
    assert!(rt; read == has);
}

/// A caller waits while one key is fetched: first no source has it, and then one has.
fn meet<J: Naming + Send + Sync, R: Threads + Wait + Abort + Sync>(
    rt: &R,
    alloc: Global,
    ties: Ties,
)
    requires ties { AreTied ties.lanes.items ties.ends.items 3 }
    requires names { names_of ties.lanes.items ≡ J.names }
{
    let (shared, mut passes) = open::<J>(rt, alloc, ties);
    let mut pass = recording(rt, alloc, passes.pop());
    let fails = Fetched::Failed(key(), Cause::Missing);
    meet_once(rt, alloc, &shared, &mut pass, false, fails);
    meet_once(rt, alloc, &shared, &mut pass, true, Fetched::Stored(key()));
    drop(pass);
    drop(passes);
    drop(shared);
}

/// Whoever waits for the disk is told what the table says of it, and the passes are told what they are told without.
fn sync<J: Naming, R: Wait + Abort>(rt: &R, alloc: Global, ties: Ties, safe: bool)
    requires ties { AreTied ties.lanes.items ties.ends.items 3 }
    requires names { names_of ties.lanes.items ≡ J.names }
{
    let (shared, passes) = open_over::<J>(rt, alloc, shelf_on_disk(safe), ties);
    let mut three = three_of(rt, alloc, passes);
    sync_and_ask(rt, alloc, &shared, &mut three.first, safe, 1);
    sync_and_ask(rt, alloc, &shared, &mut three.second, safe, 2);
    let ended = shared.finish(backwards(rt, alloc, three));
    let left = left_of(ended.ok().expect(rt, "each pass"));
    assert!(rt; left.entries == 2 && left.syncs == 2);
}

/// A wait for the disk is told that, and then the pass is told of the root as the entry of that number.
fn sync_and_ask<J: Naming, R: Wait + Abort>(
    rt: &R,
    alloc: Global,
    shared: &Held<J>,
    pass: &mut Recording<J>,
    safe: bool,
    number: u64,
) {
    assert!(rt; shared.sync(rt) == safe);
    ask_for(rt, alloc, shared, pass, Ok(number));
}

#[test]
fn shared_mounts_sync(rt: HostRuntime) {
    for safe in &[true, false] {
        let ties = Ties::new(rt.alloc(), 3).expect(&rt, "memory");
        sync::<Brand, HostRuntime>(&rt, rt.alloc(), ties, *safe);
    }
}

#[test]
fn a_learnt_number_is_awaited(rt: HostRuntime) {
    let ties = Ties::new(rt.alloc(), 3).expect(&rt, "memory");
    learn::<Brand, HostRuntime>(&rt, rt.alloc(), ties);
}

#[test]
fn a_missing_pass_tears_the_end(rt: HostRuntime) {
    let ties = Ties::new(rt.alloc(), 3).expect(&rt, "memory");
    tear::<Brand, HostRuntime>(&rt, rt.alloc(), ties);
}

#[test]
fn a_queued_key_is_fetched_once(rt: HostRuntime) {
    let ties = Ties::new(rt.alloc(), 3).expect(&rt, "memory");
    meet::<Brand, HostRuntime>(&rt, rt.alloc(), ties);
}

#[test]
fn callers_and_fetchers_share(rt: HostRuntime) {
    for _round in 0..200u32 {
        let ties = Ties::new(rt.alloc(), 3).expect(&rt, "memory");
        race::<Brand, HostRuntime>(&rt, rt.alloc(), ties);
    }
}
