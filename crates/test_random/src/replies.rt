use eden_model::{Entry, Fault, Reply, Request};
use eden_oracle::WholeTree;
use std::alloc::{AllocError, Global};

/// Whether the oracle says nothing to a request.
fn is_silent(alloc: Global, tree: &mut WholeTree, request: &Request) -> Result<bool, AllocError> {
    let told = tree.step(alloc, request)?;
    let is_none = told.is_none();
    drop(told);
    Ok(is_none)
}

/// Whether a look's reply is one that the oracle allows, which continues by it. If it says nothing, an object is
/// unavailable.
pub fn is_seen(
    alloc: Global,
    tree: &mut WholeTree,
    request: &Request,
    reply: &Reply,
) -> Result<bool, AllocError> {
    match reply {
        Reply::Fault(Fault::Fetch(_, _)) => is_silent(alloc, tree, request),
        _ => tree.allows(alloc, request, reply),
    }
}

/// Whether an entry's reply is one that the oracle allows, which continues by it; or a fault, which changes nothing.
pub fn replays(alloc: Global, tree: &mut WholeTree, entry: &Entry) -> Result<bool, AllocError> {
    if matches!(entry.reply, Reply::Fault(_)) {
        return Ok(true);
    }
    tree.allows(alloc, &entry.request, &entry.reply)
}
