// The two maps of a table, each changed at one key.
ghost use Rattle.std.specs.Prelude.{◌≡◌, ◌==◌, ℕ, None, Some, OnOk, OnErr, if◌then◌else◌};
ghost use Rattle.std.specs.Ordering.{nat_cmp, eq_by_cmp};
ghost use Rattle.std.specs.BTreeMap.{get, IsUnchanged};
ghost use Rattle.eden_fuse_nodes.specs.Tables.{standing, nowhere, moved, once_more, less, dropped};
ghost use Rattle.eden_fuse_nodes.specs.Indexing.{without_place};

use crate::known::Known;
use crate::nodes::Full;
use crate::place::Place;
use std::collections::BTreeMap;

/// A place gets a node. An error changes nothing.
pub(crate) fn settle(places: &mut BTreeMap<Place, u64>, place: Place, id: u64) -> Result<(), Full>
    ensures ok { OnOk result ((q : Place) → get ⟦<Place as Ord>⟧.cmp places.new q
        ≡ (if eq_by_cmp ⟦<Place as Ord>⟧.cmp place q then Some id else get ⟦<Place as Ord>⟧.cmp places.old q)) }
    ensures err { OnErr result (IsUnchanged places.old places.new) }
{
    match places.insert(place, id) {
        Ok(_) => Ok(()),
        Err(_) => Err(Full),
    }
}

/// A place has no node any more; which it had.
pub(crate) fn clear(places: &mut BTreeMap<Place, u64>, place: &Place) -> Option<u64>
    ensures was { result ≡ get ⟦<Place as Ord>⟧.cmp places.old place.now }
    ensures gone { (q : Place) → get ⟦<Place as Ord>⟧.cmp places.new q
        ≡ (if eq_by_cmp ⟦<Place as Ord>⟧.cmp place.now q then None else get ⟦<Place as Ord>⟧.cmp places.old q) }
{
    places.remove(place)
}

/// What is known of a node says where it stood: there is no node any more.
pub(crate) fn leave(places: &mut BTreeMap<Place, u64>, known: &Known)
    ensures { (q : Place) → get ⟦<Place as Ord>⟧.cmp places.new q
        ≡ without_place (eq_by_cmp ⟦<Place as Ord>⟧.cmp) known.now.place (get ⟦<Place as Ord>⟧.cmp places.old) q }
{
    match &known.place {
        None => {}
        Some(place) => {
            clear(places, place);
        }
    }
}

/// A new node stands at the place, and was told of once. An error changes nothing.
pub(crate) fn add(nodes: &mut BTreeMap<u64, Known>, id: u64, place: Place) -> Result<(), Full>
    ensures ok { OnOk result ((i : ℕ) → get nat_cmp nodes.new i
        ≡ (if i == id then standing 1 place else get nat_cmp nodes.old i)) }
    ensures err { OnErr result (IsUnchanged nodes.old nodes.new) }
{
    let known = Known {
        count: 1,
        place: Some(place),
    };
    match nodes.insert(id, known) {
        Ok(_) => Ok(()),
        Err(_) => Err(Full),
    }
}

/// A node was told of once more. An error, if that can't be counted, changes nothing.
pub(crate) fn raise(nodes: &mut BTreeMap<u64, Known>, id: u64) -> Result<(), Full>
    ensures ok { OnOk result ((i : ℕ) → get nat_cmp nodes.new i
        ≡ (if i == id then once_more (get nat_cmp nodes.old i) else get nat_cmp nodes.old i)) }
    ensures err { OnErr result ((i : ℕ) → get nat_cmp nodes.new i ≡ get nat_cmp nodes.old i) }
{
    if let Some(known) = nodes.get_mut(&id) {
        if known.count == u64::MAX {
            return Err(Full);
        }
        known.count += 1;
    }
    Ok(())
}

/// A node stands nowhere.
pub(crate) fn unsettle(nodes: &mut BTreeMap<u64, Known>, id: u64)
    ensures { (i : ℕ) → get nat_cmp nodes.new i
        ≡ (if i == id then nowhere (get nat_cmp nodes.old i) else get nat_cmp nodes.old i) }
{
    if let Some(known) = nodes.get_mut(&id) {
        known.place = None;
    }
}

/// A node stands at the place.
pub(crate) fn resettle(nodes: &mut BTreeMap<u64, Known>, id: u64, place: Place)
    ensures { (i : ℕ) → get nat_cmp nodes.new i
        ≡ (if i == id then moved place (get nat_cmp nodes.old i) else get nat_cmp nodes.old i) }
{
    if let Some(known) = nodes.get_mut(&id) {
        known.place = Some(place);
    }
}

/// A node is forgotten so many times; what is known of it before, if nothing is left.
pub(crate) fn lower(nodes: &mut BTreeMap<u64, Known>, id: u64, n: u64) -> Option<Known>
    ensures left { (i : ℕ) → get nat_cmp nodes.new i
        ≡ (if i == id then less n (get nat_cmp nodes.old i) else get nat_cmp nodes.old i) }
    ensures was { result ≡ dropped n (get nat_cmp nodes.old id) }
{
    let count = match nodes.get(&id) {
        None => return None,
        Some(known) => known.count,
    };
    if count <= n {
        return nodes.remove(&id);
    }
    if let Some(known) = nodes.get_mut(&id) {
        known.count = count - n;
    }
    None
}
