ghost use Rattle.std.specs.Prelude.{◌≡◌, []};

use crate::history::History;
use eden_model::{Entry, Fault, Reply, Request};
use std::alloc::{AllocError, Global};
use std::marker::Model;

/// A history whose entries are kept, up to a limit.
#[derive(Debug, Drop)]
pub struct Kept {
    entries: Vec<Entry>,
    limit: u32,
}

impl Model for Kept {
    ghost use Rattle.std.specs.Prelude.{vec_capacity};
    ghost use Rattle.eden_history.specs.Entries.{Entries};

    ghost Value = { Entries };

    ghost view = { λ h. record { list = h.entries.items; limit = h.limit; room = vec_capacity h.entries } };
}

impl Kept {
    /// Without entries. It takes no memory.
    pub fn new(alloc: Global, limit: u32) -> Kept
        ensures entries { result.list ≡ [] }
        ensures limit { result.limit ≡ limit }
    {
        Kept {
            entries: Vec::new(alloc),
            limit,
        }
    }

    /// The entries.
    pub fn as_slice(&self) -> &[Entry]
        ensures { result.now ≡ self.now.list }
    {
        self.entries.as_slice()
    }
}

impl History for Kept {
    ghost use Rattle.std.specs.Prelude.{true};

    ghost entries = { λ h. h.list };

    ghost limit = { λ h. h.limit };

    ghost room = { λ h. h.room };

    ghost copies = { true };

    fn len(&self) -> u64 {
        self.entries.len() as u64
    }

    fn limit(&self) -> u64 {
        u64::from(self.limit)
    }

    fn reserve(&mut self, more: usize) -> Result<(), AllocError> {
        self.entries.reserve(more)
    }

    fn tell(&mut self, alloc: Global, pass: u32, request: Request, found: Reply) -> Reply {
        let (told, reply) = match found.copy(alloc) {
            Ok(copy) => (found, copy),
            Err(_) => (Reply::Fault(Fault::Memory), Reply::Fault(Fault::Memory)),
        };
        self.entries.push_reserved(Entry {
            pass,
            request,
            reply,
        });
        told
    }
}
