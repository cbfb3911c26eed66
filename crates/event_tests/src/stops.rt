//! All changes on a mount whose device stops at each call in turn: it works again for the next request, or never. What
//! is left is opened by a rescan, and also, if the device works again, after a close.

use crate::grounds::Ground;
use crate::mounts::{Mounted, Settings, Stored, Unopened, close, open};
use crate::shown::{answer, follow, mounted, show_same};
use crate::worked::request;
use eden_checkout::{OpenFault, Opening};
use eden_model::{Errno, Fault, Path, Reply, Request};
use eden_overlay::MemoryFiles;
use std::alloc::Global;
use std::process::Abort;
use test_random::Commit;

/// Each change, on the commit of two files. What moves is a file of the commit, an own one in another's place, an empty
/// directory, and a file to the root. Changes come after a move in its source and elsewhere.
const CHANGES: &[&str] = &[
    "mkdir /sub",
    "write /test.txt 12 21",
    "create /sub/new.txt",
    "truncate /new.txt 3",
    "setexec /new.txt 1",
    "symlink /sub/test.txt 612f62",
    "rename /new.txt /bak/new.txt",
    "rename /sub/new.txt /bak/new.txt",
    "mkdir /sub/sub",
    "rename /sub/sub /bak/sub",
    "create /sub/last.txt",
    "unlink /test.txt",
    "rmdir /bak/sub",
    "write /bak/test.txt 0 56",
    "rename /bak/test.txt /last.txt",
    "create /sub/new.txt",
];

/// Whether a device that stopped works again for the next request.
#[derive(Clone, Copy)]
enum Device {
    Mended,
    Stopped,
}

/// Whether a change is answered as by the oracle, which continues by it; else the device stopped it.
fn is_made(rt: &impl Abort, ground: &mut Ground, mount: &mut Mounted, change: &Request) -> bool {
    let copy = change.copy(ground.alloc).expect(rt, "memory");
    let reply = answer(rt, ground, mount, copy);
    if matches!(reply, Reply::Fault(Fault::Overlay)) {
        assert!(rt; ground.calls.get() == 0);
        return false;
    }
    follow(rt, ground, change, &reply);
    true
}

/// Asks for all changes. The first that the device stopped.
fn change(
    rt: &impl Abort,
    ground: &mut Ground,
    mount: &mut Mounted,
    device: Device,
) -> Option<Request> {
    let mut stopped = None;
    for line in CHANGES {
        let change = request(rt, ground.alloc, line);
        if !is_made(rt, ground, mount, &change) && stopped.is_none() {
            stopped = Some(change);
        }
        if matches!(device, Device::Mended) && ground.calls.get() == 0 {
            ground.calls.set(u64::MAX);
        }
    }
    stopped
}

/// A mount of the commit over no files, of which this many calls pass; or the files that weren't opened.
fn fresh(rt: &impl Abort, ground: &Ground, calls: u64) -> Result<Mounted, Stored> {
    let settings = Settings {
        root: ground.commit.root(),
        opening: Opening::Closed,
        objects: 4,
        history: 100,
    };
    ground.calls.set(calls);
    let files = MemoryFiles::new(ground.alloc);
    match open(rt, ground.alloc, files, &ground.calls, settings) {
        Ok(mount) => Ok(mount),
        Err(Unopened { fault, files }) => {
            assert!(rt; fault == OpenFault::Device && calls == 0);
            Err(files)
        }
    }
}

/// The oracle answers something.
fn step(rt: &impl Abort, ground: &mut Ground, request: &Request) {
    assert!(rt; ground.tree.step(ground.alloc, request).is_ok());
}

/// A file, a link or an empty directory is gone from the oracle's tree.
fn take_away(rt: &impl Abort, ground: &mut Ground, at: &Path) {
    let file = at.copy(ground.alloc).expect(rt, "memory");
    step(rt, ground, &Request::Unlink(file));
    let directory = at.copy(ground.alloc).expect(rt, "memory");
    step(rt, ground, &Request::Rmdir(directory));
}

/// The entry that a stopped rename was to move stands in neither directory if the first was stored without it.
fn forget(rt: &impl Abort, ground: &mut Ground, from: &Path, files: Stored) -> Stored {
    let mut mount = mounted(rt, ground, Opening::Rescan, files);
    let at = from.copy(ground.alloc).expect(rt, "memory");
    let reply = answer(rt, ground, &mut mount, Request::Kind(at));
    if matches!(reply, Reply::Err(Errno::ENOENT)) {
        take_away(rt, ground, from);
    }
    mount.into_table().abandon().into_files()
}

/// The commit of two files, to which nothing was done.
fn two_files(rt: &impl Abort, alloc: Global) -> Ground {
    let commit = Commit::two_files(alloc).expect(rt, "a commit");
    Ground::over(rt, alloc, commit)
}

/// The files that are left without a close if the device stops once this many calls passed.
fn left(rt: &impl Abort, ground: &mut Ground, device: Device, calls: u64) -> Stored {
    let mut mount = match fresh(rt, ground, calls) {
        Ok(mount) => mount,
        Err(files) => return files,
    };
    let stopped = change(rt, ground, &mut mount, device);
    let files = mount.into_table().abandon().into_files();
    match &stopped {
        Some(Request::Rename(from, _)) => forget(rt, ground, from, files),
        _ => files,
    }
}

fn check_left(rt: &impl Abort, alloc: Global, device: Device, calls: u64) {
    let mut ground = two_files(rt, alloc);
    let files = left(rt, &mut ground, device, calls);
    show_same(rt, &mut ground, Opening::Rescan, files);
}

/// The device stops once this many calls passed, and works again for the next request.
fn check_mend(rt: &impl Abort, alloc: Global, calls: u64) {
    let mut ground = two_files(rt, alloc);
    if let Ok(mut mount) = fresh(rt, &ground, calls) {
        change(rt, &mut ground, &mut mount, Device::Mended);
        let files = close(rt, alloc, mount.into_table(), &ground.calls);
        show_same(rt, &mut ground, Opening::Closed, files);
    }
}

/// How many calls all changes take.
fn all_calls(rt: &impl Abort, alloc: Global) -> u64 {
    let mut ground = two_files(rt, alloc);
    let Ok(mut mount) = fresh(rt, &ground, u64::MAX) else {
        rt.abort()
    };
    assert!(rt; change(rt, &mut ground, &mut mount, Device::Stopped).is_none());
    u64::MAX - ground.calls.get()
}

#[test]
fn a_rescan_shows_what_was_done_before_the_device_stopped(rt: HostRuntime) {
    for calls in 0..all_calls(&rt, rt.alloc()) {
        check_left(&rt, rt.alloc(), Device::Stopped, calls);
    }
}

#[test]
fn a_rescan_shows_what_was_done_once_the_device_worked_again(rt: HostRuntime) {
    for calls in 0..all_calls(&rt, rt.alloc()) {
        check_left(&rt, rt.alloc(), Device::Mended, calls);
    }
}

#[test]
fn a_change_that_the_device_stopped_is_not_made(rt: HostRuntime) {
    for calls in 0..all_calls(&rt, rt.alloc()) {
        check_mend(&rt, rt.alloc(), calls);
    }
}

/// An own file that is to be moved, beside an own directory.
const MADE: &[&str] = &["mkdir /d", "create /d/a", "mkdir /d/sub", "mkdir /e"];

/// Changes to what stayed in the file's directory, and below it.
const LATER: &[&str] = &["write /d/a 0 61", "create /d/sub/b", "symlink /d/sub/c 61"];

/// All of these changes are answered as by the oracle.
fn make(rt: &impl Abort, ground: &mut Ground, mount: &mut Mounted, lines: &[&str]) {
    for line in lines {
        let change = request(rt, ground.alloc, line);
        assert!(rt; is_made(rt, ground, mount, &change));
    }
}

/// The device stops in a rename once this many calls passed, and then works again. Whether it stopped.
fn check_later(rt: &impl Abort, alloc: Global, calls: u64) -> bool {
    let mut ground = two_files(rt, alloc);
    let Ok(mut mount) = fresh(rt, &ground, u64::MAX) else {
        rt.abort()
    };
    make(rt, &mut ground, &mut mount, MADE);
    ground.calls.set(calls);
    let rename = request(rt, alloc, "rename /d/a /e/a");
    let stopped = !is_made(rt, &mut ground, &mut mount, &rename);
    ground.calls.set(u64::MAX);
    if stopped {
        make(rt, &mut ground, &mut mount, LATER);
    }
    let files = mount.into_table().abandon().into_files();
    show_same(rt, &mut ground, Opening::Rescan, files);
    stopped
}

#[test]
fn a_rescan_shows_what_was_done_to_an_entry_that_could_not_be_moved(rt: HostRuntime) {
    // A move between two own directories stores both.
    for calls in 0..2 {
        assert!(rt; check_later(&rt, rt.alloc(), calls));
    }
    for calls in 2..8 {
        check_later(&rt, rt.alloc(), calls);
    }
}

/// Changes to two files, a look that loads their directory, and looks at their lengths.
const WRITTEN: &[&str] = &["write /test.txt 0 6162", "write /new.txt 1 63"];

const LOADED: &[&str] = &["kind /test.txt"];

const LENGTHS: &[&str] = &["stat /test.txt", "stat /new.txt"];

#[test]
fn the_length_of_a_changed_file_takes_one_call(rt: HostRuntime) {
    let mut ground = two_files(&rt, rt.alloc());
    let Ok(mut mount) = fresh(&rt, &ground, u64::MAX) else {
        rt.abort()
    };
    make(&rt, &mut ground, &mut mount, WRITTEN);
    let files = close(&rt, rt.alloc(), mount.into_table(), &ground.calls);
    let mut mount = mounted(&rt, &mut ground, Opening::Closed, files);
    make(&rt, &mut ground, &mut mount, LOADED);
    ground.calls.set(2);
    make(&rt, &mut ground, &mut mount, LENGTHS);
    assert!(rt; ground.calls.get() == 0);
}
