use eden_model::{Id, Reply, Request};
use eden_mount::Pending;
use std::collections::LinkedList;
use std::marker::Brand;

/// What a pass was told of one call.
#[derive(Debug, Drop)]
pub struct Told {
    /// The entry's number in the history, from 1 on.
    pub number: u64,
    pub request: Request,
    pub reply: Reply,
}

/// What a shared mount was opened with: how many passes, how long its history may become, its commit, by the id of its
/// tree, and the next inode number. No value of it is made.
pub struct Terms {
    pub passes: u32,
    pub limit: u64,
    pub commit: Id,
    pub next: u64,
}

/// What a pass and the lock both say of the pass. No value of it is made: it is what the ends of a tie hold.
pub struct Account {
    pub terms: Terms,
    pub pending: Option<Pending>,
    pub told: LinkedList<Told>,
}

/// The names of the ties of one shared mount, one for each pass. Whoever opens it picks them.
pub trait Naming {
    ghost use Rattle.std.specs.Prelude.{ℕ, List};

    ghost names: { List ℕ };
}

/// The names here mean nothing: the call that picks gives its own.
impl Naming for Brand {
    ghost use Rattle.std.specs.Prelude.{[]};

    ghost names = { [] };
}
