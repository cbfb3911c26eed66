//! Attempts that continue where an earlier one waited, and how many names each compares.

ghost use Rattle.eden_ops.specs.Trails.{MayGoOn};

use crate::mount::{Mount, key_of};
use crate::steps::{Ask, Names, TEST, Want, is_wanted, request as ask};
use eden_model::{Attempt, Key, Request};
use eden_ops::{Place, attempt, attempt_from};
use std::alloc::Global;
use std::process::Abort;
use test_samples::{ONE_FILE, Sample, TWO_FILES, VERSION_1};

/// A file of the directory `bak`, whose commit has three entries in its root and one in that directory.
const AT: Names = &[b"bak", b"test.txt"];

/// A file beside that directory, and one that may come there.
const NEW: Names = &[b"new.txt"];

const FIRST: Names = &[b"aaa"];

/// A read waits for each directory of its path, and for its file. A later turn compares names past its place alone: of
/// the three in the root two at most, then the only one in the directory, and then none.
#[test]
fn a_turn_compares_names_past_its_place_alone(rt: HostRuntime) {
    let mut mount = Mount::open(&rt, rt.alloc(), TWO_FILES, 8);
    let request = a_read(&rt, rt.alloc());
    let mut place = start(&mount, &request);
    let mut compared = 0;
    wait_below(&rt, &mut mount, &request, &mut place, &mut compared);
    assert!(rt; 1 <= compared && compared <= 2);
    let above = compared;
    wait(
        &rt,
        &mut mount,
        &request,
        &mut place,
        &mut compared,
        VERSION_1,
    );
    assert!(rt; compared > above && compared - above == 1);
    let attempt = turn_of(&mut mount, &request, &mut place, &mut compared);
    assert!(rt; is_told(&attempt, Want::Data(b"version 1")));
    assert!(rt; compared > above && compared - above == 1 && place.is_bare());
}

/// A truncate, a write and a setexec of files beside the directory move no name: then the read's turn compares names
/// past its place alone, too.
#[test]
fn a_place_stays_where_no_name_moves(rt: HostRuntime) {
    let mut mount = Mount::open(&rt, rt.alloc(), TWO_FILES, 8);
    let request = a_read(&rt, rt.alloc());
    let mut place = start(&mount, &request);
    let mut compared = 0;
    wait_below(&rt, &mut mount, &request, &mut place, &mut compared);
    let above = compared;
    let other = ask(&rt, rt.alloc(), NEW, Ask::Truncate(0));
    assert!(rt; is_told(&beside(&mut mount, &other, &request, &place), Want::Ok));
    let other = ask(&rt, rt.alloc(), NEW, Ask::Write(0, b"new"));
    assert!(rt;
        is_told(
            &beside(&mut mount, &other, &request, &place),
            Want::Count(3)
        )
    );
    let other = ask(&rt, rt.alloc(), TEST, Ask::SetExec(true));
    assert!(rt; is_told(&beside(&mut mount, &other, &request, &place), Want::Ok));
    wait(
        &rt,
        &mut mount,
        &request,
        &mut place,
        &mut compared,
        VERSION_1,
    );
    assert!(rt; compared > above && compared - above == 1);
}

/// A file that comes beside the directory moves its name: then the turn looks from the root.
#[test]
fn a_place_is_passed_over_where_a_name_moves(rt: HostRuntime) {
    let mut mount = Mount::open(&rt, rt.alloc(), TWO_FILES, 8);
    let request = a_read(&rt, rt.alloc());
    let mut place = start(&mount, &request);
    let mut compared = 0;
    wait_below(&rt, &mut mount, &request, &mut place, &mut compared);
    let above = compared;
    let other = ask(&rt, rt.alloc(), FIRST, Ask::Create);
    assert!(rt; is_told(&beside(&mut mount, &other, &request, &place), Want::Ok));
    wait(
        &rt,
        &mut mount,
        &request,
        &mut place,
        &mut compared,
        VERSION_1,
    );
    assert!(rt; compared > above && compared - above > 1);
}

fn a_read(rt: &impl Abort, alloc: Global) -> Request {
    ask(rt, alloc, AT, Ask::Read(0, 9))
}

/// A place at which the request may begin.
fn start(_mount: &Mount, _request: &Request) -> Place
    ensures { MayGoOn _request.now _mount.now.table result }
{
    Place::new()
}

/// The read waits for the root, and then for the directory in it.
fn wait_below(
    rt: &impl Abort,
    mount: &mut Mount,
    request: &Request,
    place: &mut Place,
    compared: &mut u32,
)
    requires { MayGoOn request.now mount.old.table place.old }
    ensures { MayGoOn request.now mount.new.table place.new }
{
    let before = *compared;
    wait(rt, mount, request, place, compared, TWO_FILES);
    assert!(rt; *compared == before);
    wait(rt, mount, request, place, compared, ONE_FILE);
}

/// One attempt of another request. Where this one waits it may continue still.
fn beside(mount: &mut Mount, other: &Request, _request: &Request, _place: &Place) -> Attempt
    requires { MayGoOn _request.now mount.old.table _place.now }
    ensures { MayGoOn _request.now mount.new.table _place.now }
{
    attempt(&mut mount.table, &mut mount.cache, mount.alloc, other)
}

/// One attempt at the mount, from the place on, which waits for that object; the object is put into the cache then.
fn wait(
    rt: &impl Abort,
    mount: &mut Mount,
    request: &Request,
    place: &mut Place,
    compared: &mut u32,
    object: Sample,
)
    requires { MayGoOn request.now mount.old.table place.old }
    ensures { MayGoOn request.now mount.new.table place.new }
{
    let attempt = turn_of(mount, request, place, compared);
    assert!(rt; is_need(&attempt, key_of(object)));
    mount.put(rt, object);
}

/// One attempt at the mount, from the place on.
fn turn_of(mount: &mut Mount, request: &Request, place: &mut Place, compared: &mut u32) -> Attempt
    requires { MayGoOn request.now mount.old.table place.old }
    ensures { MayGoOn request.now mount.new.table place.new }
{
    attempt_from(
        &mut mount.table,
        &mut mount.cache,
        mount.alloc,
        request,
        place,
        compared,
    )
}

fn is_need(attempt: &Attempt, wanted: Key) -> bool {
    match attempt {
        Attempt::Need(key) => *key == wanted,
        Attempt::Finished(_) => false,
    }
}

fn is_told(attempt: &Attempt, want: Want) -> bool {
    match attempt {
        Attempt::Need(_) => false,
        Attempt::Finished(reply) => is_wanted(reply, want),
    }
}
