//! What outlives a mount: the commit, the tree after all that was done, and the device.

use crate::mounts::{FLIGHTS, Mounted, Settings, Stored, open_again};
use crate::waits::{PASSES, Waits, seat};
use eden_checkout::Opening;
use eden_model::{Key, Request, StartFault};
use eden_oracle::WholeTree;
use std::alloc::Global;
use std::cell::Cell;
use std::process::Abort;
use std::rc::Rc;
use test_random::Commit;
use test_samples::random;

/// A commit, the whole tree after all that was done to it, and how many calls on the files still pass.
#[derive(Drop)]
pub(crate) struct Ground {
    pub(crate) alloc: Global,
    pub(crate) commit: Commit,
    pub(crate) tree: WholeTree,
    pub(crate) calls: Rc<Cell<u64>>,
}

impl Ground {
    /// A random commit, to which nothing was done.
    pub(crate) fn new(rt: &impl Abort, alloc: Global, seed: &mut u64) -> Ground {
        let commit = Commit::new(alloc, seed).expect(rt, "a commit");
        Ground::over(rt, alloc, commit)
    }

    /// A commit, to which nothing was done.
    pub(crate) fn over(rt: &impl Abort, alloc: Global, commit: Commit) -> Ground {
        let tree = commit.whole(alloc).expect(rt, "a tree");
        let calls = Rc::new(alloc, Cell::new(u64::MAX)).expect(rt, "memory");
        Ground {
            alloc,
            commit,
            tree,
            calls,
        }
    }
}

/// What a pass was asked and hasn't answered.
#[derive(Drop)]
struct Asked {
    pass: u32,
    request: Request,
}

/// A mount from its opening on, and what it must answer.
#[derive(Drop)]
pub(crate) struct Life {
    pub(crate) mount: Mounted,
    pub(crate) limit: u64,
    /// The pending requests, at most one of a pass.
    asked: Vec<Asked>,
    pub(crate) waits: Waits,
    /// How many requests are finished.
    pub(crate) done: u64,
}

impl Life {
    /// A mount over these files, with a cache of 1 to 3 objects and a history that is soon full.
    pub(crate) fn new(rt: &impl Abort, ground: &Ground, files: Stored, seed: &mut u64) -> Life {
        let limit = 10 + random(seed) % 40;
        let settings = Settings {
            root: ground.commit.root(),
            opening: Opening::Closed,
            objects: 1 + (random(seed) % 3) as usize,
            history: limit,
        };
        Life {
            mount: open_again(rt, ground.alloc, files, &ground.calls, settings),
            limit: u64::from(limit),
            asked: Vec::new(ground.alloc),
            waits: Waits::new(ground.alloc),
            done: 0,
        }
    }

    /// Where the pass's request stands, if one is pending.
    fn place(&self, pass: u32) -> Option<usize> {
        for (place, asked) in self.asked.iter().enumerate() {
            if asked.pass == pass {
                return Some(place);
            }
        }
        None
    }

    pub(crate) fn is_busy(&self, pass: u32) -> bool {
        self.place(pass).is_some()
    }

    /// The pending request of the pass that has this seat.
    pub(crate) fn asked_at(&self, place: usize) -> Option<&Request> {
        for asked in self.asked.as_slice() {
            if seat(asked.pass) == place {
                return Some(&asked.request);
            }
        }
        None
    }

    /// The pass's request is pending.
    pub(crate) fn ask(&mut self, rt: &impl Abort, pass: u32, request: Request) {
        let asked = Asked { pass, request };
        self.asked.push(asked).expect(rt, "memory");
    }

    /// A request is finished, as the entry of that number.
    pub(crate) fn count(&mut self, rt: &impl Abort, number: u64) {
        self.done = self.done.saturating_add(1);
        assert!(rt; number == self.done);
    }

    /// The least pass whose request is pending.
    pub(crate) fn busy(&self) -> Option<u32> {
        for pass in 1..=PASSES {
            if self.is_busy(pass) {
                return Some(pass);
            }
        }
        None
    }

    /// What a start of that pass must answer.
    pub(crate) fn admits(&self, pass: u32) -> Result<(), StartFault> {
        if pass == 0 || pass > PASSES {
            return Err(StartFault::NoPass);
        }
        if self.is_busy(pass) {
            return Err(StartFault::Busy);
        }
        if self.done.saturating_add(self.asked.len() as u64) == self.limit {
            return Err(StartFault::HistoryFull(self.limit));
        }
        Ok(())
    }

    /// The request of that pass, if it has one, which isn't pending any more.
    pub(crate) fn take(&mut self, rt: &impl Abort, pass: u32) -> Option<Request> {
        let place = self.place(pass)?;
        assert!(rt; place < self.asked.len());
        let Asked { request, .. } = self.asked.remove(place);
        Some(request)
    }

    /// What a taken want must answer.
    pub(crate) fn take_want(&mut self, rt: &impl Abort) -> Option<Key> {
        self.waits.take(rt, FLIGHTS as usize)
    }
}
