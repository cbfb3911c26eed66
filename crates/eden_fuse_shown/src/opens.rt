// Open files.
ghost use Rattle.std.specs.Prelude.{◌≡◌, ℕ, None, OnErr, OnOk};
ghost use Rattle.std.specs.Option.{is_some};
ghost use Rattle.eden_fuse_shown.specs.Opens.{IsSameOpens, Lowers, Raises, is_last, opens_of};

use std::alloc::{AllocError, Global};
use std::collections::BTreeMap;
use std::marker::Model;

/// How often files are open, by their nodes. Contracts see the list of the counts.
#[derive(Drop)]
pub struct Opens {
    counts: BTreeMap<u64, u64>,
}

impl Model for Opens {
    ghost use Rattle.eden_fuse_shown.specs.Opens.{Table};

    ghost Value = { Table };

    ghost view = { λ o. o.counts.entries };
}

impl Opens {
    /// None is open.
    pub fn new(alloc: Global) -> Opens
        ensures { (i : ℕ) → opens_of result i ≡ None }
    {
        Opens {
            counts: BTreeMap::new(alloc),
        }
    }

    /// A node is opened once more. An error changes nothing.
    pub fn raise(&mut self, node: u64) -> Result<(), AllocError>
        ensures ok { OnOk result (Raises self.old self.new node) }
        ensures err { OnErr result (IsSameOpens self.old self.new) }
    {
        if let Some(count) = self.counts.get_mut(&node) {
            if *count == u64::MAX {
                return Err(AllocError);
            }
            *count += 1;
            return Ok(());
        }
        match self.counts.insert(node, 1) {
            Err(_) => Err(AllocError),
            Ok(_) => Ok(()),
        }
    }

    /// A node is closed once; whether that was the last time that it was open.
    pub fn lower(&mut self, node: u64) -> bool
        ensures last { result ≡ is_last (opens_of self.old node) }
        ensures left { Lowers self.old self.new node }
    {
        let count = match self.counts.get(&node) {
            None => return false,
            Some(count) => *count,
        };
        if count <= 1 {
            self.counts.remove(&node);
            return true;
        }
        if let Some(held) = self.counts.get_mut(&node) {
            *held = count - 1;
        }
        false
    }

    /// Whether a node is open.
    pub fn is_open(&self, node: u64) -> bool
        ensures { result ≡ is_some (opens_of self.now node) }
    {
        self.counts.contains_key(&node)
    }
}
