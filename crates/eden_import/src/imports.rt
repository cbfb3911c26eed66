ghost use Rattle.std.specs.Prelude.{◌≡◌, ◌↔◌, IsTrue, IfOk, if◌then◌else◌, replicate, None};
ghost use Rattle.eden_import.specs.Keys.{has_key};
ghost use Rattle.eden_import.specs.Queue.{Queue, IsQueue, IsPassCount, IsFlightCount, IsPass, WantsNoOther, want_of};
ghost use Rattle.eden_import.specs.Queue.{mark_of, stands, next_key};
ghost use Rattle.eden_import.specs.Queue.{empty_queue, after_want, after_leave, after_leave_own, after_await};
ghost use Rattle.eden_import.specs.Queue.{after_quit};
ghost use Rattle.eden_import.specs.Queue.{after_take, after_done, after_failed, after_failure};
ghost use Rattle.eden_import.specs.declared.imports.Wanted.{Wanted};

use crate::keys::{drop_key, end_wants, is_for, is_wanted, put_marks, unqueue};
use eden_model::{Cause, Key};
use std::alloc::{AllocError, Allocator};
use std::collections::VecDeque;
use std::marker::Model;

/// How many passes there may be.
pub const PASSES_LIMIT: u32 = 64;

/// How many keys may be in flight at most.
pub const FLIGHTS_LIMIT: u32 = 64;

/// Whether there may be so many passes, and so many keys in flight: 1 to 64 each.
pub fn are_counts(passes: u32, flights: u32) -> bool
    ensures { IsTrue result ↔ (IsPassCount passes × IsFlightCount flights) }
{
    1 <= passes && passes <= PASSES_LIMIT && 1 <= flights && flights <= FLIGHTS_LIMIT
}

/// How a want was met.
#[derive(Clone, Copy, Debug, PartialEq, Eq)]
pub enum Wanted {
    /// The key went to the queue's end.
    Queued,
    /// The key was queued or in flight.
    Joined,
}

/// The keys that are queued and in flight, the key that each pass wants, and a mark for each pass whose key failed.
///
/// Passes are numbered from 1. No call but `new` takes memory.
#[derive(Drop)]
pub struct Imports<A: Allocator> {
    passes: u32,
    flights: u32,
    queue: VecDeque<Key, A>,
    flight: Vec<Key, A>,
    wants: Vec<Option<Key>, A>,
    marks: Vec<Option<(Key, Cause)>, A>,
}

impl<A: Allocator> Model for Imports<A> {
    ghost use Rattle.std.specs.Prelude.{◌≤◌, vec_capacity};
    ghost use Rattle.std.specs.VecDeque.{deque_capacity};
    ghost use Rattle.eden_import.specs.Queue.{Queue, IsQueue};

    ghost Value = { Queue };

    ghost use Rattle.eden_import.specs.Seen.{queue_from};

    ghost view = { λ a. queue_from a.queue.items a.flight.items a.wants.items a.marks.items a.passes a.flights };

    ghost invariant = { λ a.
        IsQueue (queue_from a.queue.items a.flight.items a.wants.items a.marks.items a.passes a.flights)
        × (a.passes ≤ deque_capacity a.queue) × (a.flights ≤ vec_capacity a.flight) };
}

impl<A: Allocator> Imports<A> {
    /// Nothing queued, in flight, wanted or marked.
    ///
    /// It makes all the room that the other calls need. The only error is want of memory.
    pub fn new(alloc: A, passes: u32, flights: u32) -> Result<Imports<A>, AllocError>
    where
        A: Clone,
        requires passes { IsPassCount passes }
        requires flights { IsFlightCount flights }
        ensures empty { IfOk result (λ i. i ≡ empty_queue passes flights) }
        ensures kept { IfOk result IsQueue }
    {
        let seats = passes as usize;
        let queue = VecDeque::with_capacity(alloc.clone()?, seats)?;
        let flight = Vec::with_capacity(alloc.clone()?, flights as usize)?;
        let wants = nones(alloc.clone()?, seats)?;
        let marks = nones(alloc, seats)?;
        Ok(Imports {
            passes,
            flights,
            queue,
            flight,
            wants,
            marks,
        })
    }

    /// How many passes there are.
    pub fn passes(&self) -> u32
        ensures value { result ≡ self.now.passes }
        ensures kept { IsQueue self.now }
    {
        self.passes
    }

    /// How many keys may be in flight.
    pub fn flights(&self) -> u32
        ensures value { result ≡ self.now.flights }
        ensures kept { IsQueue self.now }
    {
        self.flights
    }

    /// The key that the pass wants.
    pub fn wanted(&self, pass: u32) -> Option<Key>
        requires { IsPass pass self.now }
        ensures value { result ≡ want_of pass self.now }
        ensures kept { IsQueue self.now }
    {
        self.wants[pass as usize - 1]
    }

    /// Whether the key is in flight.
    pub fn is_in_flight(&self, key: Key) -> bool
        ensures value { result ≡ has_key key self.now.flight }
        ensures kept { IsQueue self.now }
    {
        self.flight.contains(&key)
    }

    /// Whether the key is queued or in flight.
    fn stands(&self, key: &Key) -> bool
        ensures { result ≡ stands key.now self.now }
    {
        self.flight.contains(key) || self.queue.contains(key)
    }

    /// The pass wants the key, and no other. A key that is neither queued nor in flight goes to the queue's end.
    pub fn want(&mut self, key: Key, pass: u32) -> Wanted
        requires seat { IsPass pass self.old }
        requires alone { WantsNoOther key pass self.old }
        ensures answer { result ≡ (if stands key self.old then Wanted.Joined else Wanted.Queued) }
        ensures step { self.new ≡ after_want key pass self.old }
        ensures kept { IsQueue self.new }
    {
        let joined = self.stands(&key);
        let seat = pass as usize - 1;
        self.wants[seat] = Some(key);
        if joined {
            return Wanted::Joined;
        }
        self.queue.push_back(key).unwrap();
        Wanted::Queued
    }

    /// The pass no longer wants the key; where it doesn't want it, nothing changes.
    ///
    /// A key that is still queued and that no other pass wants leaves the queue. A key in flight stays there.
    pub fn leave(&mut self, key: Key, pass: u32)
        requires { IsPass pass self.old }
        ensures step { self.new ≡ after_leave key pass self.old }
        ensures kept { IsQueue self.new }
    {
        if !is_for(&self.wanted(pass), &key) {
            return;
        }
        let seat = pass as usize - 1;
        self.wants[seat] = None;
        if !is_wanted(&self.wants, &key) {
            unqueue(&mut self.queue, key);
        }
    }

    /// The pass wants the key, and no other: an old want of another key is left. A key that it wanted keeps its place.
    pub fn await_key(&mut self, key: Key, pass: u32) -> Wanted
        requires { IsPass pass self.old }
        ensures answer { result ≡ (if stands key self.old then Wanted.Joined else Wanted.Queued) }
        ensures step { self.new ≡ after_await key pass self.old }
        ensures kept { IsQueue self.new }
    {
        let waits = is_for(&self.wanted(pass), &key);
        if !waits {
            self.leave_own(pass);
        }
        self.want(key, pass)
    }

    /// The pass gives up its want and its mark.
    ///
    /// A key that is still queued and that no other pass wants leaves the queue. A key in flight stays there.
    pub fn quit(&mut self, pass: u32)
        requires { IsPass pass self.old }
        ensures step { self.new ≡ after_quit pass self.old }
        ensures kept { IsQueue self.new }
    {
        self.leave_own(pass);
        self.failure(pass);
    }

    /// The pass no longer wants the key that it wanted, if it did want one.
    fn leave_own(&mut self, pass: u32)
        requires { IsPass pass self.old }
        ensures step { self.new ≡ after_leave_own pass self.old }
        ensures kept { IsQueue self.new }
    {
        if let Some(key) = self.wanted(pass) {
            self.leave(key, pass);
        }
    }

    /// The oldest queued key goes into flight. None, and nothing changed, where none is queued or the flights are full.
    pub fn take(&mut self) -> Option<Key>
        ensures answer { result ≡ next_key self.old }
        ensures step { self.new ≡ after_take (next_key self.old) self.old }
        ensures kept { IsQueue self.new }
    {
        if self.flight.len() >= self.flights as usize {
            return None;
        }
        match self.queue.pop_front() {
            None => None,
            Some(key) => {
                self.flight.push(key).unwrap();
                Some(key)
            }
        }
    }

    /// The key leaves the flight, and all wants of it end. False, and nothing changed, where it isn't in flight.
    pub fn done(&mut self, key: Key) -> bool
        ensures answer { result ≡ has_key key self.old.flight }
        ensures step { self.new ≡ (if has_key key self.old.flight then after_done key self.old else self.old) }
        ensures kept { IsQueue self.new }
    {
        if !self.is_in_flight(key) {
            return false;
        }
        drop_key(&mut self.flight, key);
        end_wants(&mut self.wants, key);
        true
    }

    /// As `done`, and each pass that wanted the key gets the mark, in the place of an older one.
    pub fn failed(&mut self, key: Key, cause: Cause) -> bool
        ensures answer { result ≡ has_key key self.old.flight }
        ensures step { self.new ≡ (if has_key key self.old.flight then after_failed key cause self.old else self.old) }
        ensures kept { IsQueue self.new }
    {
        if self.is_in_flight(key) {
            put_marks(&mut self.marks, &self.wants, key, cause);
        }
        self.done(key)
    }

    /// Hands out the pass's mark, and drops it.
    pub fn failure(&mut self, pass: u32) -> Option<(Key, Cause)>
        requires { IsPass pass self.old }
        ensures answer { result ≡ mark_of pass self.old }
        ensures step { self.new ≡ after_failure pass self.old }
        ensures kept { IsQueue self.new }
    {
        self.marks[pass as usize - 1].take()
    }
}

/// So many Nones. The only error is want of memory.
fn nones<T: Copy, A: Allocator>(alloc: A, count: usize) -> Result<Vec<Option<T>, A>, AllocError>
    ensures { IfOk result (λ v. v.items ≡ replicate count None) }
{
    let mut all = Vec::with_capacity(alloc, count)?;
    all.resize(count, None)?;
    Ok(all)
}
