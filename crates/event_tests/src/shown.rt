//! All that a mount shows, beside the oracle's tree.

use crate::grounds::Ground;
use crate::mounts::{Mounted, Settings, Stored, close, open_again};
use eden_checkout::Opening;
use eden_model::{Cause, Reply, Request};
use eden_mount::Turned;
use std::process::Abort;
use test_random::{all_looks, is_seen};

/// The most turns of one request.
const TRIES: u32 = 1_000;

/// More requests than there are looks at one tree.
const LONG: u32 = 1_000_000;

/// What is wanted is fetched, as the repository has it.
fn fetch(rt: &impl Abort, ground: &Ground, mount: &mut Mounted) {
    let key = mount.take_want().expect(rt, "a key");
    match ground.commit.framed(key.id) {
        None => {
            mount.fail(key, Cause::Missing);
        }
        Some(framed) => {
            let framed = framed.to_vec(ground.alloc).expect(rt, "memory");
            mount.arrive(key, framed);
        }
    }
}

/// What the mount's first pass is told.
pub(crate) fn answer(
    rt: &impl Abort,
    ground: &Ground,
    mount: &mut Mounted,
    request: Request,
) -> Reply {
    assert!(rt; mount.start(1, request).is_ok());
    for _ in 0..TRIES {
        if let Turned::Done(_, reply) = mount.turn(1) {
            return reply;
        }
        fetch(rt, ground, mount);
    }
    None.expect(rt, "a reply")
}

/// The oracle allows a reply, and continues by it.
pub(crate) fn follow(rt: &impl Abort, ground: &mut Ground, request: &Request, reply: &Reply) {
    let allows = ground.tree.allows(ground.alloc, request, reply);
    assert!(rt; allows.expect(rt, "memory"), "{request:?}: {reply:?}");
}

/// Whether a look is answered as the oracle allows.
fn agree(rt: &impl Abort, ground: &mut Ground, mount: &mut Mounted, look: &Request) -> bool {
    let copy = look.copy(ground.alloc).expect(rt, "memory");
    let reply = answer(rt, ground, mount, copy);
    is_seen(ground.alloc, &mut ground.tree, look, &reply).expect(rt, "memory")
}

/// A mount over files whose device works, opened so.
pub(crate) fn mounted(
    rt: &impl Abort,
    ground: &Ground,
    opening: Opening,
    files: Stored,
) -> Mounted {
    let settings = Settings {
        root: ground.commit.root(),
        opening,
        objects: 2,
        history: LONG,
    };
    ground.calls.set(u64::MAX);
    open_again(rt, ground.alloc, files, &ground.calls, settings)
}

/// Files that are opened so show the oracle's tree. They come back closed.
pub(crate) fn show_same(
    rt: &impl Abort,
    ground: &mut Ground,
    opening: Opening,
    files: Stored,
) -> Stored {
    let mut mount = mounted(rt, ground, opening, files);
    let looks = all_looks(ground.alloc, &mut ground.tree).expect(rt, "memory");
    for look in &looks {
        assert!(rt; agree(rt, ground, &mut mount, look));
    }
    close(rt, ground.alloc, mount.into_table(), &ground.calls)
}
