// Places and paths of messages.
ghost use Rattle.std.specs.Prelude.{◌≡◌, ℕ, IfOk};
ghost use Rattle.std.specs.Option.{option_map};
ghost use Rattle.eden_fuse_format.specs.Asked.{seen};
ghost use Rattle.eden_fuse_nodes.specs.Tables.{place_of};
ghost use Rattle.eden_fuse_shown.specs.Naming.{
  IsHeld,
  goal_of,
  is_reserved,
  is_veiled,
  named_place,
  other_node,
  place_at,
  place_of_name,
  veiled_name,
};
ghost use Rattle.eden_fuse_shown.specs.Showing.{Begins, IsOtherPath, IsPathOf};

use crate::opens::Opens;
use eden_fuse_format::Operation;
use eden_fuse_meaning::{Owner, Step, first, is_hidden};
use eden_fuse_nodes::{Nodes, Place, ROOT};
use eden_model::{Name, Path, name_refusal};
use std::alloc::{AllocError, Global};

const ESTALE: u32 = 116;

fn place_at(alloc: Global, node: u64, name: &[u8]) -> Result<Option<Place>, AllocError>
    ensures { IfOk result (λ p. p ≡ place_at node name.now) }
{
    match Name::new(Vec::from_slice(alloc, name)?) {
        Err(_) => Ok(None),
        Ok(name) => Ok(Some(Place { parent: node, name })),
    }
}

/// The name at which a message finds, makes, moves or removes something in the directory of its node.
fn name_of<'a>(operation: &Operation<'a>) -> Option<&'a [u8]>
    ensures { (node : ℕ) → named_place node (seen operation.now) ≡ place_of_name node (option_map (λ n. n.now) result) }
{
    match operation {
        Operation::Lookup(name)
        | Operation::Symlink(name, _)
        | Operation::MkNod(_, name)
        | Operation::MkDir(_, name)
        | Operation::Unlink(name)
        | Operation::RmDir(name)
        | Operation::Rename(_, name, _)
        | Operation::Rename2(_, name, _)
        | Operation::Create(_, name) => Some(name),
        _ => None,
    }
}

/// The place that a message names in the directory of its node.
pub(crate) fn named(
    alloc: Global,
    node: u64,
    operation: &Operation<'_>,
) -> Result<Option<Place>, AllocError>
    ensures { IfOk result (λ p. p ≡ named_place node (seen operation.now)) }
{
    match name_of(operation) {
        None => Ok(None),
        Some(name) => place_at(alloc, node, name),
    }
}

/// The place that a rename moves to.
pub(crate) fn goal_of(alloc: Global, operation: &Operation<'_>) -> Result<Option<Place>, AllocError>
    ensures { IfOk result (λ p. p ≡ goal_of (seen operation.now)) }
{
    match operation {
        Operation::Rename(head, _, name) => place_at(alloc, head.newdir, name),
        Operation::Rename2(head, _, name) => place_at(alloc, head.newdir, name),
        _ => Ok(None),
    }
}

// Whether nobody sees what stands at that name of a node.
fn is_veiled(node: u64, name: &[u8]) -> bool
    ensures { result ≡ is_veiled (place_at node name.now) }
{
    node == ROOT && is_hidden(name) && name_refusal(name).is_none()
}

fn names_veiled(node: u64, operation: &Operation<'_>) -> bool
    ensures { result ≡ is_veiled (named_place node (seen operation.now)) }
{
    match name_of(operation) {
        None => false,
        Some(name) => is_veiled(node, name),
    }
}

fn moves_to_veiled(operation: &Operation<'_>) -> bool
    ensures { result ≡ is_veiled (goal_of (seen operation.now)) }
{
    match operation {
        Operation::Rename(head, _, name) => is_veiled(head.newdir, name),
        Operation::Rename2(head, _, name) => is_veiled(head.newdir, name),
        _ => false,
    }
}

/// Whether a message names what nobody sees.
pub(crate) fn is_reserved(node: u64, operation: &Operation<'_>) -> bool
    ensures { result ≡ is_reserved node (seen operation.now) }
{
    names_veiled(node, operation) || moves_to_veiled(operation)
}

/// The name of the root at which nobody sees a node, if it stands there. The only error is want of memory.
pub(crate) fn veiled_name(
    alloc: Global,
    nodes: &Nodes,
    node: u64,
) -> Result<Option<Name>, AllocError>
    ensures { IfOk result (λ name. name ≡ veiled_name (place_of nodes.now node)) }
{
    match nodes.place_of(node) {
        None => Ok(None),
        Some(place) => {
            if place.parent == ROOT && is_hidden(place.name.as_slice()) {
                return Ok(Some(place.name.copy(alloc)?));
            }
            Ok(None)
        }
    }
}

// The node that stands at the place and is open, if one does.
fn held_at(nodes: &Nodes, opens: &Opens, place: &Option<Place>) -> Option<u64>
    ensures { IsHeld nodes.now opens.now place.now result }
{
    match place {
        None => None,
        Some(place) => match nodes.at(place) {
            None => None,
            Some(node) => {
                if opens.is_open(node) {
                    Some(node)
                } else {
                    None
                }
            }
        },
    }
}

/// The node that a message names and that is open, if one is. The only error is want of memory.
pub(crate) fn held(
    alloc: Global,
    nodes: &Nodes,
    opens: &Opens,
    node: u64,
    operation: &Operation<'_>,
) -> Result<Option<u64>, AllocError>
    ensures { IfOk result (λ held. IsHeld nodes.now opens.now (named_place node (seen operation.now)) held) }
{
    let place = named(alloc, node, operation)?;
    Ok(held_at(nodes, opens, &place))
}

/// .. of those at the place that a rename moves to.
pub(crate) fn held_goal(
    alloc: Global,
    nodes: &Nodes,
    opens: &Opens,
    operation: &Operation<'_>,
) -> Result<Option<u64>, AllocError>
    ensures { IfOk result (λ held. IsHeld nodes.now opens.now (goal_of (seen operation.now)) held) }
{
    let place = goal_of(alloc, operation)?;
    Ok(held_at(nodes, opens, &place))
}

fn other_node(operation: &Operation<'_>) -> Option<u64>
    ensures { result ≡ other_node (seen operation.now) }
{
    match operation {
        Operation::Rename(head, _, _) => Some(head.newdir),
        Operation::Rename2(head, _, _) => Some(head.newdir),
        _ => None,
    }
}

/// The path at which a node lies, or why no request can name it. The only error is want of memory.
pub(crate) fn path_of(
    alloc: Global,
    nodes: &Nodes,
    node: u64,
) -> Result<Result<Path, u32>, AllocError>
    ensures { IfOk result (λ at. IsPathOf nodes.now node at) }
{
    let whereabouts = nodes.find(alloc, node)?;
    Ok(whereabouts.into_path())
}

// The path of a rename's other directory.
fn other_path(
    alloc: Global,
    nodes: &Nodes,
    operation: &Operation<'_>,
) -> Result<Result<Path, u32>, AllocError>
    ensures { IfOk result (λ to. IsOtherPath nodes.now (other_node (seen operation.now)) to) }
{
    match other_node(operation) {
        None => Ok(Err(ESTALE)),
        Some(node) => path_of(alloc, nodes, node),
    }
}

/// The step with which a message begins at the paths of its nodes.
pub(crate) fn begin(
    alloc: Global,
    owner: Owner,
    nodes: &Nodes,
    node: u64,
    operation: &Operation<'_>,
    last: &Option<Name>,
) -> Result<Step, AllocError>
    ensures { IfOk result (λ step. Begins owner nodes.now node (seen operation.now) last.now step) }
{
    let at = path_of(alloc, nodes, node)?;
    let to = other_path(alloc, nodes, operation)?;
    first(alloc, owner, &at, &to, last, operation)
}
