ghost use Rattle.std.specs.Prelude.{◌≡◌, []};

use crate::history::History;
use crate::unseen::{Changes, change};
use eden_model::{Entry, Reply, Request};
use std::alloc::{AllocError, Global};
use std::collections::LinkedList;
use std::marker::Model;
use std::snapshot::Snapshot;

/// One entry more.
struct Grows;

impl Changes<Entry, LinkedList<Entry>> for Grows {
    ghost use Rattle.std.specs.Prelude.{◌++◌, ◌∷◌, []};

    ghost after = { λ e es. es ++ e ∷ [] };
}

/// A history whose entries are counted and not kept. Contracts see the list of its entries.
#[derive(Drop)]
pub struct Counted {
    count: u64,
    entries: Snapshot<LinkedList<Entry>>,
}

impl Model for Counted {
    ghost use Rattle.std.specs.Prelude.{◌≡◌, List, length};
    ghost use Rattle.eden_model.specs.declared.entry.Entry.{Entry};

    ghost Value = { List Entry };

    ghost view = { λ h. h.entries.value };

    ghost invariant = { λ h. h.count ≡ length h.entries.value };
}

impl Counted {
    /// Without entries. It never takes memory.
    pub fn new(alloc: Global) -> Counted
        ensures { result ≡ [] }
    {
        Counted {
            count: 0,
            entries: Snapshot::of(&LinkedList::new(alloc)),
        }
    }
}

impl History for Counted {
    ghost use Rattle.std.specs.Prelude.{false, ◌^◌, ◌-◌};

    ghost entries = { λ es. es };

    ghost limit = { λ _. 2 ^ 64 - 1 };

    ghost room = { λ _. 2 ^ 64 - 1 };

    ghost copies = { false };

    fn len(&self) -> u64 {
        self.count
    }

    fn limit(&self) -> u64 {
        u64::MAX
    }

    fn reserve(&mut self, _more: usize) -> Result<(), AllocError> {
        Ok(())
    }

    fn tell(&mut self, _alloc: Global, pass: u32, request: Request, found: Reply) -> Reply {
        let entry = Entry {
            pass,
            request,
            reply: found,
        };
        change::<Entry, LinkedList<Entry>, Grows>(&mut self.entries, &entry);
        self.count += 1;
        let Entry { reply, .. } = entry;
        reply
    }
}
