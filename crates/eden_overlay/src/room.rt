//! Room that stays between stores.

ghost use Rattle.std.specs.Prelude.{◌≡◌, ◌≤◌, ◌<◌, None, Some, [], IfSome, vec_capacity};

use std::alloc::Global;

/// The room that a stored file was written in, for the next one, if it isn't too much.
#[derive(Drop)]
pub(crate) struct Room {
    pub(crate) spare: Option<Vec<u8>>,
    /// The most room that stays, in bytes: so one large file doesn't hold memory for good.
    pub(crate) most: usize,
}

impl Room {
    /// None yet, and later at most so many bytes.
    pub(crate) fn new(most: usize) -> Room
        ensures none { result.spare ≡ None }
        ensures most { result.most ≡ most }
    {
        Room { spare: None, most }
    }

    /// Takes the room out; where there is none, it is new and takes no memory yet.
    pub(crate) fn take(&mut self, alloc: Global) -> Vec<u8>
        ensures spare { IfSome self.old.spare (λ room. result ≡ room) }
        ensures new { self.old.spare ≡ None → result.items ≡ [] }
        ensures empty { self.new.spare ≡ None }
        ensures most { self.new.most ≡ self.old.most }
    {
        match self.spare.take() {
            Some(room) => room,
            None => Vec::new(alloc),
        }
    }

    /// Keeps that room in place of any other, if it isn't too much.
    pub(crate) fn keep(&mut self, room: Vec<u8>)
        ensures kept { vec_capacity room ≤ self.old.most → self.new.spare ≡ Some room }
        ensures too_much { self.old.most < vec_capacity room → self.new.spare ≡ None }
        ensures most { self.new.most ≡ self.old.most }
    {
        self.spare = if room.capacity() <= self.most {
            Some(room)
        } else {
            None
        };
    }
}
