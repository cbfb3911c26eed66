// What messages make of the nodes that the kernel was told of.
ghost use Rattle.std.specs.Prelude.{◌≡◌, ◌⊎◌, ◌/◌, None, Some, IfErr, IfOk, length};
ghost use Rattle.eden_fuse_format.specs.Asked.{seen};
ghost use Rattle.eden_fuse_nodes.specs.declared.place.Place.{Place};
ghost use Rattle.eden_fuse_nodes.specs.Tables.{IsSameNodes, Learns};
ghost use Rattle.eden_fuse_shown.specs.Naming.{goal_of, named_place};
ghost use Rattle.eden_fuse_shown.specs.Opens.{Raises};
ghost use Rattle.eden_fuse_shown.specs.Opens.{IsSameOpens};
ghost use Rattle.eden_fuse_shown.specs.Showing.{Changes, Drops, ForgetsRows, MovesNode};

use crate::opens::Opens;
use eden_fuse_format::{Operation, forget_at};
use eden_fuse_nodes::{Nodes, Place};
use std::alloc::Global;

const EIO: u32 = 5;

const ENOMEM: u32 = 12;

/// The node at the place is told of once more; or the number of the error: `EIO` where there is no place, and `ENOMEM`.
pub(crate) fn enter(alloc: Global, nodes: &mut Nodes, place: Option<Place>) -> Result<u64, u32>
    ensures ok { IfOk result (λ id. (p : Place) × (place ≡ Some p) × Learns nodes.old nodes.new id p) }
    ensures err { IfErr result (λ e. IsSameNodes nodes.old nodes.new
        × (((place ≡ None) × (e ≡ 5)) ⊎ ((p : Place) × (place ≡ Some p) × (e ≡ 12)))) }
{
    match place {
        None => Err(EIO),
        Some(place) => match nodes.learn(alloc, place) {
            Ok(id) => Ok(id),
            Err(_) => Err(ENOMEM),
        },
    }
}

/// The node at the place is told of once more, and is open once more. Errors are those of `enter`, and change nothing.
pub(crate) fn enter_open(
    alloc: Global,
    nodes: &mut Nodes,
    opens: &mut Opens,
    place: Option<Place>,
) -> Result<u64, u32>
    ensures ok { IfOk result (λ id. (p : Place) × (place ≡ Some p) × Learns nodes.old nodes.new id p
        × Raises opens.old opens.new id) }
    ensures err { IfErr result (λ e. IsSameNodes nodes.old nodes.new × IsSameOpens opens.old opens.new
        × (((place ≡ None) × (e ≡ 5)) ⊎ ((p : Place) × (place ≡ Some p) × (e ≡ 12)))) }
{
    nodes.keeps();
    let id = enter(alloc, nodes, place)?;
    if opens.raise(id).is_err() {
        nodes.forget(id, 1);
        return Err(ENOMEM);
    }
    Ok(id)
}

// The node at the place stands nowhere.
fn leave(nodes: &mut Nodes, place: Option<Place>)
    ensures { Drops place nodes.old nodes.new }
{
    match place {
        None => {}
        Some(place) => nodes.remove(&place),
    }
}

// The node at the first place stands at the second.
fn pass(alloc: Global, nodes: &mut Nodes, from: Option<Place>, to: Option<Place>)
    ensures { MovesNode from to nodes.old nodes.new }
{
    match from {
        None => {}
        Some(from) => match to {
            None => {}
            Some(to) => {
                // Without memory both places are empty, and what is there is looked up anew.
                let _ = nodes.rename(alloc, &from, to);
            }
        },
    }
}

/// What was asked was done.
pub(crate) fn change(
    alloc: Global,
    nodes: &mut Nodes,
    node: u64,
    operation: &Operation<'_>,
    place: Option<Place>,
    goal: Option<Place>,
)
    requires place { place ≡ named_place node (seen operation.now) }
    requires goal { goal ≡ goal_of (seen operation.now) }
    ensures { Changes node (seen operation.now) nodes.old nodes.new }
{
    match operation {
        Operation::Unlink(_) => leave(nodes, place),
        Operation::RmDir(_) => leave(nodes, place),
        Operation::Rename(_, _, _) => pass(alloc, nodes, place, goal),
        Operation::Rename2(_, _, _) => pass(alloc, nodes, place, goal),
        _ => {}
    }
}

/// A batch of nodes is forgotten.
pub(crate) fn forget_all(nodes: &mut Nodes, batch: &[u8])
    ensures { ForgetsRows (length batch.now / 16) batch.now nodes.old nodes.new }
{
    'rows: for index in 0..batch.len() / 16 {
        if let Some(row) = forget_at(batch, index) {
            nodes.forget(row.nodeid, row.nlookup);
        }
    }
}
