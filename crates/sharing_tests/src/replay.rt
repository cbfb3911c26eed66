//! A mount's history beside the slow oracle, and beside what each client said and heard.

use crate::clients::{Client, Heard, Line};
use crate::flaky::{Failure, is_flaw};
use crate::lines::line_of;
use crate::rounds::Round;
use eden_model::{Cause, Entry, Fault, Id, Reply};
use eden_oracle::WholeTree;
use eden_wire::{Scratch, write_reply};
use std::alloc::Global;
use std::process::Abort;
use test_random::{Commit, replays};

/// What a client said and heard, and how much of it stood in the history so far.
#[derive(Drop)]
struct Log {
    lines: Vec<Line>,
    heard: Heard,
    entries: usize,
    bytes: usize,
}

/// When an entry's line was handed out, and when its reply was written.
#[derive(Clone, Copy)]
pub(crate) struct Span {
    asked: u64,
    told: u64,
}

/// How many entries were what.
#[derive(Clone, Copy, Debug)]
pub(crate) struct Tally {
    pub(crate) entries: u32,
    /// Replies that are neither errors nor faults.
    pub(crate) replies: u32,
    pub(crate) errors: u32,
    /// Faults of fetches that failed.
    pub(crate) failures: u32,
    /// Faults of objects that the repository lacks or that are none.
    pub(crate) flaws: u32,
    /// Entries before which another one was asked later.
    pub(crate) overtakes: u32,
}

fn log_of(client: Client) -> Log {
    let Client { lines, heard } = client;
    Log {
        lines,
        heard: heard.into_inner(),
        entries: 0,
        bytes: 0,
    }
}

impl Log {
    /// The next line of the client is this entry's, and the next text that it heard. When.
    fn next(
        &mut self,
        rt: &impl Abort,
        alloc: Global,
        scratch: &mut Scratch,
        entry: &Entry,
    ) -> Span {
        let line = self.lines.get(self.entries).expect(rt, "a line");
        assert!(rt;
            line.text == line_of(rt, alloc, &entry.request),
            "{entry:?}"
        );
        let mut text = Vec::new(alloc);
        assert!(rt; write_reply(&mut text, scratch, &entry.reply).is_ok());
        let rest = self.heard.text.get(self.bytes..).expect(rt, "a text");
        assert!(rt; rest.starts_with(text.as_slice()), "{entry:?}");
        self.bytes = self.bytes.saturating_add(text.len());
        self.span(rt)
    }

    /// When the next line was handed out and answered, which is before the one after it is handed out.
    fn span(&mut self, rt: &impl Abort) -> Span {
        let asked = *self.heard.asked.get(self.entries).expect(rt, "a line");
        let told = *self.heard.told.get(self.entries).expect(rt, "a reply");
        assert!(rt; asked < told);
        self.entries = self.entries.saturating_add(1);
        if let Some(next) = self.heard.asked.get(self.entries) {
            assert!(rt; told < *next);
        }
        Span { asked, told }
    }

    /// All that was said and heard stood in the history.
    fn is_whole(&self) -> bool {
        self.entries == self.lines.len()
            && self.entries == self.heard.asked.len()
            && self.entries == self.heard.told.len()
            && self.bytes == self.heard.text.len()
    }
}

/// Whether a fetch of that object had failed by then.
fn had_failed(failed: &[Failure], id: Id, told: u64) -> bool {
    failed
        .iter()
        .any(|failure| failure.id == id && failure.at < told)
}

/// What a replay continues with.
#[derive(Drop)]
struct Replay {
    alloc: Global,
    commit: Commit,
    failed: Vec<Failure>,
    tree: WholeTree,
    tally: Tally,
}

impl Replay {
    /// A fetch had failed by then.
    fn failure(&mut self, rt: &impl Abort, id: Id, told: u64) {
        assert!(rt; had_failed(self.failed.as_slice(), id, told));
        self.tally.failures = self.tally.failures.saturating_add(1);
    }

    /// The repository has no such object, or none of use, and the oracle no reply.
    fn flaw(&mut self, rt: &impl Abort, entry: &Entry, id: Id, cause: Cause) {
        assert!(rt; is_flaw(&self.commit, id, cause), "{entry:?}");
        let step = self.tree.step(self.alloc, &entry.request);
        assert!(rt; step.expect(rt, "memory").is_none(), "{entry:?}");
        self.tally.flaws = self.tally.flaws.saturating_add(1);
    }

    /// A fault has its cause, and changes nothing.
    fn fault(&mut self, rt: &impl Abort, entry: &Entry, fault: Fault, told: u64) {
        match fault {
            Fault::Fetch(id, Cause::Device) => self.failure(rt, id, told),
            Fault::Fetch(id, cause) => self.flaw(rt, entry, id, cause),
            _ => assert!(rt; false, "{entry:?}"),
        }
    }

    /// A reply is the oracle's, which continues by it.
    fn reply(&mut self, rt: &impl Abort, entry: &Entry) {
        let is_replayed = replays(self.alloc, &mut self.tree, entry);
        assert!(rt; is_replayed.expect(rt, "memory"), "{entry:?}");
        if matches!(entry.reply, Reply::Err(_)) {
            self.tally.errors = self.tally.errors.saturating_add(1);
        } else {
            self.tally.replies = self.tally.replies.saturating_add(1);
        }
    }

    fn entry(&mut self, rt: &impl Abort, entry: &Entry, told: u64) {
        self.tally.entries = self.tally.entries.saturating_add(1);
        match entry.reply {
            Reply::Fault(fault) => self.fault(rt, entry, fault, told),
            _ => self.reply(rt, entry),
        }
    }
}

/// Each entry is the next one of its pass's client. When each was asked and told, in the history's order.
fn spans(rt: &impl Abort, alloc: Global, logs: &mut Vec<Log>, history: &[Entry]) -> Vec<Span> {
    let mut scratch = Scratch::new(alloc).expect(rt, "memory");
    let mut spans = Vec::new(alloc);
    for entry in history {
        assert!(rt; entry.pass >= 1);
        let seat = entry.pass.saturating_sub(1) as usize;
        let log = logs.get_mut(seat).expect(rt, "a client");
        let span = log.next(rt, alloc, &mut scratch, entry);
        spans.push(span).expect(rt, "memory");
    }
    assert!(rt; logs.iter().all(|log| log.is_whole()));
    spans
}

/// No entry's reply was written before an earlier entry's line was handed out. How many entries were asked before the
/// one in front of them.
fn check_order(rt: &impl Abort, spans: &[Span]) -> u32 {
    let mut first_told = u64::MAX;
    let mut later_asked = 0;
    let mut overtakes = 0u32;
    for span in spans.iter().rev() {
        assert!(rt; span.asked < first_told);
        first_told = first_told.min(span.told);
        if later_asked < span.asked && later_asked > 0 {
            overtakes = overtakes.saturating_add(1);
        }
        later_asked = span.asked;
    }
    overtakes
}

/// The whole round, after which that history is left.
pub(crate) fn check(
    rt: &impl Abort,
    alloc: Global,
    round: Round,
    history: &[Entry],
    tally: Tally,
) -> Tally {
    let Round {
        commit,
        clients,
        failed,
        ..
    } = round;
    let mut logs = Vec::new(alloc);
    for client in clients {
        logs.push(log_of(client)).expect(rt, "memory");
    }
    let spans = spans(rt, alloc, &mut logs, history);
    let overtakes = check_order(rt, spans.as_slice());
    let tree = commit.whole(alloc).expect(rt, "a tree");
    let mut replay = Replay {
        alloc,
        commit,
        failed: failed.into_inner(),
        tree,
        tally,
    };
    for (entry, span) in history.iter().zip(&spans) {
        replay.entry(rt, entry, span.told);
    }
    let mut tally = replay.tally;
    tally.overtakes = tally.overtakes.saturating_add(overtakes);
    tally
}
