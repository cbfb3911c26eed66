//! Random requests of many clients on one mount of a random commit.

use crate::clients::{Client, Line, Pace};
use crate::flaky::{Failure, Flaky};
use crate::lines::line_of;
use eden_model::{Bytes, Request};
use eden_oracle::WholeTree;
use std::alloc::Global;
use std::process::Abort;
use std::sync::{Mutex, Wait};
use test_random::{Commit, request, some_look};
use test_samples::random;

/// How many clients there are, each with a pass.
pub(crate) const CLIENTS: u32 = 16;

/// How many requests they have together.
pub(crate) const REQUESTS: u32 = 400;

/// How many sources there are, each with a fetcher.
const SOURCES: u32 = 4;

/// A commit, what the clients say of it and hear, and when.
#[derive(Drop)]
pub(crate) struct Round {
    pub(crate) commit: Commit,
    pub(crate) clients: Vec<Client>,
    pub(crate) pace: Pace,
    pub(crate) failed: Mutex<Vec<Failure>>,
    /// How many objects the mount's cache holds.
    pub(crate) objects: usize,
    /// After how many turns without use a directory goes.
    pub(crate) age: u64,
}

fn clients(rt: &impl Abort, alloc: Global) -> Vec<Client> {
    let mut clients = Vec::new(alloc);
    for _ in 0..CLIENTS {
        clients.push(Client::new(alloc)).expect(rt, "memory");
    }
    clients
}

/// A request of any kind, or a look. In the place of a patch, which has no line, comes the write of its bytes.
fn some_request(rt: &impl Abort, alloc: Global, tree: &mut WholeTree, seed: &mut u64) -> Request {
    let made = if random(seed) % 2 == 0 {
        request(alloc, tree, seed)
    } else {
        some_look(alloc, tree, seed)
    };
    match made.expect(rt, "a request") {
        Request::Patch(at, offset, bytes) => {
            let bytes = bytes.as_slice().to_vec(alloc).expect(rt, "memory");
            Request::Write(at, offset, Bytes::new(bytes))
        }
        spelled => spelled,
    }
}

/// Gives each client its lines: requests of what would stand there if they came in the order in which they are made up.
fn speak(rt: &impl Abort, alloc: Global, round: &mut Round, seed: &mut u64) {
    let mut tree = round.commit.whole(alloc).expect(rt, "a tree");
    for place in 0..REQUESTS {
        let request = some_request(rt, alloc, &mut tree, seed);
        let line = Line {
            place: u64::from(place),
            text: line_of(rt, alloc, &request),
        };
        assert!(rt; tree.step(alloc, &request).is_ok());
        let client = (random(seed) % CLIENTS) as usize;
        let client = round.clients.get_mut(client).expect(rt, "a client");
        client.lines.push(line).expect(rt, "memory");
    }
}

impl Round {
    /// A random round, before anything is said.
    pub(crate) fn new(rt: &impl Abort, alloc: Global, seed: &mut u64) -> Round {
        let mut round = Round {
            commit: Commit::new(alloc, seed).expect(rt, "a commit"),
            clients: clients(rt, alloc),
            pace: Pace::new(),
            failed: Mutex::new(Vec::new(alloc)),
            objects: 1 + (random(seed) % 3) as usize,
            age: u64::from(random(seed) % 8),
        };
        speak(rt, alloc, &mut round, seed);
        round
    }

    /// Sources of the commit, each of which fails now and then.
    pub(crate) fn sources<'a, R: Wait + Abort>(
        &'a self,
        rt: &'a R,
        alloc: Global,
    ) -> Vec<Flaky<'a, R>> {
        let mut sources = Vec::new(alloc);
        for number in 0..SOURCES {
            let source = Flaky {
                rt,
                pace: &self.pace,
                commit: &self.commit,
                failed: &self.failed,
                seed: u64::from(number),
                failures: 0,
            };
            sources.push(source).expect(rt, "memory");
        }
        sources
    }
}
