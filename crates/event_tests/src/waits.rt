//! A second telling of what the passes wait for: lists that are searched.

ghost use Rattle.std.specs.Prelude.{◌<◌};

use eden_model::{Cause, Key};
use std::alloc::Global;
use std::process::Abort;

/// How many passes there are. A pass's seat is its number modulo this.
pub(crate) const PASSES: u32 = 8;

pub(crate) const SEATS: usize = 8;

/// Keys that are queued, the oldest first, and in flight; for each pass the key that it wants, and the one that failed
/// while it did.
#[derive(Drop)]
pub(crate) struct Waits {
    queue: Vec<Key>,
    pub(crate) flight: Vec<Key>,
    wants: [Option<Key>; SEATS],
    marks: [Option<(Key, Cause)>; SEATS],
}

pub(crate) fn seat(pass: u32) -> usize
    ensures { result < 8 }
{
    (pass % PASSES) as usize
}

impl Waits {
    pub(crate) fn new(alloc: Global) -> Waits {
        Waits {
            queue: Vec::new(alloc),
            flight: Vec::new(alloc),
            wants: [None; SEATS],
            marks: [None; SEATS],
        }
    }

    pub(crate) fn is_in_flight(&self, key: Key) -> bool {
        self.flight.contains(&key)
    }

    /// The pass wants nothing any more; what nobody wants any more isn't queued.
    fn leave(&mut self, pass: u32) {
        let left = self.wants[seat(pass)].take();
        if let Some(key) = left {
            if !self.wants.contains(&Some(key)) {
                self.queue.retain(|queued| *queued != key);
            }
        }
    }

    /// The pass waits for that key and for no other.
    pub(crate) fn await_key(&mut self, rt: &impl Abort, pass: u32, key: Key) {
        if self.wants[seat(pass)] != Some(key) {
            self.leave(pass);
        }
        self.wants[seat(pass)] = Some(key);
        if !self.queue.contains(&key) && !self.is_in_flight(key) {
            self.queue.push(key).expect(rt, "memory");
        }
    }

    /// The pass is done.
    pub(crate) fn quit(&mut self, pass: u32) {
        self.leave(pass);
        self.marks[seat(pass)] = None;
    }

    /// The oldest queued key goes into flight, if there is room for this many.
    pub(crate) fn take(&mut self, rt: &impl Abort, flights: usize) -> Option<Key> {
        if self.flight.len() >= flights || self.queue.is_empty() {
            return None;
        }
        let key = self.queue.remove(0);
        self.flight.push(key).expect(rt, "memory");
        Some(key)
    }

    /// The key came.
    pub(crate) fn done(&mut self, key: Key) {
        self.flight.retain(|flying| *flying != key);
        for seat in 0..SEATS {
            if self.wants[seat] == Some(key) {
                self.wants[seat] = None;
            }
        }
    }

    /// The key is unavailable.
    pub(crate) fn failed(&mut self, key: Key, cause: Cause) {
        for seat in 0..SEATS {
            if self.wants[seat] == Some(key) {
                self.marks[seat] = Some((key, cause));
            }
        }
        self.done(key);
    }

    /// The pass's failed key, which is forgotten.
    pub(crate) fn mark(&mut self, pass: u32) -> Option<(Key, Cause)> {
        self.marks[seat(pass)].take()
    }
}
