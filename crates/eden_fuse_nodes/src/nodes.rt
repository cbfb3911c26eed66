ghost use Rattle.std.specs.Prelude.{◌≡◌, ℕ, None, Some, option_map, IfOk, IsSome, OnOk, OnErr, MatchBool, MatchOption};
ghost use Rattle.eden_fuse_nodes.specs.Tables.{
  Forgets,
  IsBare,
  IsCleared,
  IsSameNodes,
  IsNodeTable,
  Learns,
  Moves,
  RemovesNode,
  Renames,
  Scatters,
  StandsAlone,
  known,
  place_of,
};
ghost use Rattle.eden_fuse_nodes.specs.Ways.{EndsSo, IsBelowRoot, IsWhere};

use crate::known::Known;
use crate::maps::{add, clear, leave, lower, raise, resettle, settle, unsettle};
use crate::place::Place;
use crate::way::{Way, Whereabouts, located};
use eden_model::MAX_NAMES;
use std::alloc::{AllocError, Global};
use std::collections::BTreeMap;
use std::marker::Model;

/// The root's number, which the kernel knows untold.
pub const ROOT: u64 = 1;

/// There is no memory, or no number is left.
#[derive(Clone, Copy, Debug)]
pub struct Full;

impl From<AllocError> for Full {
    fn from(_error: AllocError) -> Full {
        Full
    }
}

/// The nodes that the kernel knows. Contracts see the list of what is known of each, by its number.
#[derive(Drop)]
pub struct Nodes {
    nodes: BTreeMap<u64, Known>,
    // The node at each place.
    places: BTreeMap<Place, u64>,
    // All numbers from this one on are free.
    next: u64,
}

impl Model for Nodes {
    ghost use Rattle.std.specs.Ordering.{nat_cmp};
    ghost use Rattle.std.specs.BTreeMap.{get};
    ghost use Rattle.eden_fuse_nodes.specs.Tables.{Table};

    ghost Value = { Table };

    ghost use Rattle.eden_fuse_nodes.specs.Indexing.{IsIndexed};

    ghost view = { λ t. t.nodes.entries };

    ghost invariant = { λ t. IsIndexed (get ⟦<Place as Ord>⟧.cmp t.places) (get nat_cmp t.nodes) t.next };
}

impl Nodes {
    /// No node is known but the root.
    pub fn new(alloc: Global) -> Nodes
        ensures { (i : ℕ) → known result i ≡ None }
    {
        Nodes {
            nodes: BTreeMap::new(alloc),
            places: BTreeMap::new(alloc),
            next: ROOT + 1,
        }
    }

    // A new node at a place where none stands.
    fn add(&mut self, alloc: Global, place: Place) -> Result<u64, Full>
        requires { IsBare self.old place }
        ensures ok { IfOk result (λ id. Learns self.old self.new id place) }
        ensures err { OnErr result (IsSameNodes self.old self.new) }
    {
        let id = self.next;
        if id == u64::MAX {
            return Err(Full);
        }
        add(&mut self.nodes, id, place.copy(alloc)?)?;
        if settle(&mut self.places, place, id).is_err() {
            lower(&mut self.nodes, id, 1);
            return Err(Full);
        }
        self.next = id + 1;
        Ok(id)
    }

    /// The number of the node at the place, which the kernel is told of once more; a new number, if none stands there.
    /// An error changes nothing.
    pub fn learn(&mut self, alloc: Global, place: Place) -> Result<u64, Full>
        ensures ok { IfOk result (λ id. Learns self.old self.new id place) }
        ensures err { OnErr result (IsSameNodes self.old self.new) }
    {
        match self.places.get(&place).copied() {
            None => self.add(alloc, place),
            Some(id) => {
                drop(place);
                raise(&mut self.nodes, id)?;
                Ok(id)
            }
        }
    }

    /// The kernel forgot a node so many times.
    pub fn forget(&mut self, id: u64, n: u64)
        ensures { Forgets self.old self.new id n }
    {
        let known = match lower(&mut self.nodes, id, n) {
            None => return,
            Some(known) => known,
        };
        leave(&mut self.places, &known);
    }

    // The node at the place stands nowhere; which it is.
    fn detach(&mut self, place: &Place) -> Option<u64>
        ensures removes { RemovesNode self.old self.new place.now }
        ensures cleared { IsCleared self.old self.new place.now }
        ensures was { MatchOption result (IsBare self.old place.now) (λ id. StandsAlone self.old id place.now) }
    {
        let id = clear(&mut self.places, place)?;
        unsettle(&mut self.nodes, id);
        Some(id)
    }

    // A node that stands nowhere stands at the place, where none stands. An error changes nothing.
    fn attach(&mut self, alloc: Global, id: u64, place: Place) -> Result<(), Full>
        requires is_known { IsSome (known self.old id) }
        requires nowhere { place_of self.old id ≡ None }
        requires bare { IsBare self.old place }
        ensures ok { OnOk result (Moves self.old self.new id place) }
        ensures err { OnErr result (IsSameNodes self.old self.new) }
    {
        let copy = place.copy(alloc)?;
        settle(&mut self.places, place, id)?;
        resettle(&mut self.nodes, id, copy);
        Ok(())
    }

    /// Nothing stands at the place any more. What stood there stays known until it is forgotten.
    pub fn remove(&mut self, place: &Place)
        ensures { RemovesNode self.old self.new place.now }
    {
        self.detach(place);
    }

    /// What stood at the first place stands at the second, with all that lies below it, and what stood there stands
    /// nowhere. After an error what stood at either place stands nowhere.
    pub fn rename(&mut self, alloc: Global, from: &Place, to: Place) -> Result<(), Full>
        ensures ok { OnOk result (Renames self.old self.new from.now to) }
        ensures err { OnErr result (Scatters self.old self.new from.now to) }
    {
        if from.is(&to) {
            return Ok(());
        }
        self.detach(&to);
        match self.detach(from) {
            None => Ok(()),
            Some(id) => self.attach(alloc, id, to),
        }
    }

    /// The node that stands at the place, if one does.
    pub fn at(&self, place: &Place) -> Option<u64>
        ensures { MatchOption result (IsBare self.now place.now) (λ id. StandsAlone self.now id place.now) }
    {
        let _ = &self.nodes;
        self.places.get(place).copied()
    }

    /// Where a node stands, if it does.
    pub fn place_of(&self, id: u64) -> Option<&Place>
        ensures { option_map (λ p. p.now) result ≡ place_of self.now id }
    {
        let known = self.nodes.get(&id)?;
        known.place.as_ref()
    }

    // The names on the way from a node up to the root.
    fn way_up(&self, alloc: Global, id: u64) -> Result<Way, AllocError>
        ensures { IfOk result (λ w. EndsSo self.now id w) }
    {
        let _ = &self.nodes;
        let mut up = Vec::new(alloc);
        let mut node = id;
        for _height in 0..MAX_NAMES + 1 {
            if node == ROOT {
                return Ok(Way::AtRoot(up));
            }
            let place = match self.place_of(node) {
                None => return Ok(Way::Lost),
                Some(place) => place,
            };
            up.push(place.name.copy(alloc)?)?;
            node = place.parent;
        }
        if self.reaches_root(node) {
            return Ok(Way::Far);
        }
        Ok(Way::Lost)
    }

    // Whether names lead from a node up to the root. A way has no more names than nodes are known, or it leads in a
    // circle.
    fn reaches_root(&self, id: u64) -> bool
        ensures { MatchBool result (IsBelowRoot self.now id) (¬ IsBelowRoot self.now id) }
    {
        let mut node = id;
        for _height in 0..self.nodes.len() {
            match self.place_of(node) {
                None => return node == ROOT,
                Some(place) => node = place.parent,
            }
        }
        node == ROOT
    }

    /// What each table keeps, as `node_laws` asks for it. It does nothing.
    pub fn keeps(&self)
        ensures { IsNodeTable self.now }
    {
        let _ = &self.nodes;
    }

    /// Where a node lies. The only error is want of memory.
    #[tactic(auto, using(crate::proofs::Walks::is_where))]
    pub fn find(&self, alloc: Global, id: u64) -> Result<Whereabouts, AllocError>
        ensures { IfOk result (λ w. IsWhere self.now id w) }
    {
        let way = self.way_up(alloc, id)?;
        Ok(located(way))
    }
}
