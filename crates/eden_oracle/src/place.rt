ghost use Rattle.std.specs.Prelude.{◌≡◌, ◌++◌, IfOk, OnOk};

use eden_model::{Bytes, Name, Node};
use std::alloc::{AllocError, Global};
use std::marker::Model;

/// Where a row stands: a path of any length, since a rename can make longer ones than a request can name.
#[derive(Drop)]
pub struct Place {
    names: Vec<Name>,
}

impl Model for Place {
    ghost use Rattle.std.specs.Prelude.{List, ℕ};

    ghost Value = { List (List ℕ) };

    ghost view = { λ p. p.names.items };
}

/// A path and the node that stands there.
pub(crate) type Row = (Place, Node);

/// What stands at paths: of it equal values can be made.
pub(crate) trait Copied: Drop {
    /// An equal value. The only error is want of memory.
    fn copied(&self, alloc: Global) -> Result<Self, AllocError>
        ensures { IfOk result (λ x. x ≡ self.now) };
}

impl Place {
    pub(crate) fn new(names: Vec<Name>) -> Place
        ensures { result ≡ names.items }
    {
        Place { names }
    }

    pub(crate) fn as_slice(&self) -> &[Name]
        ensures { result.now ≡ self.now }
    {
        self.names.as_slice()
    }
}

/// Puts copies of the names behind those that are there.
fn extend(alloc: Global, names: &mut Vec<Name>, more: &[Name]) -> Result<(), AllocError>
    ensures { OnOk result (names.new.items ≡ names.old.items ++ more.now) }
{
    for name in more {
        names.push(name.copy(alloc)?)?;
    }
    Ok(())
}

/// The place of the names of both, in order.
pub(crate) fn joined(alloc: Global, front: &[Name], rest: &[Name]) -> Result<Place, AllocError>
    ensures { IfOk result (λ p. p ≡ front.now ++ rest.now) }
{
    let mut names = Vec::new(alloc);
    extend(alloc, &mut names, front)?;
    extend(alloc, &mut names, rest)?;
    Ok(Place { names })
}

/// An equal content, or none of none.
pub(crate) fn copied_content(
    alloc: Global,
    content: &Option<Bytes>,
) -> Result<Option<Bytes>, AllocError>
    ensures { IfOk result (λ c. c ≡ content.now) }
{
    match content {
        None => Ok(None),
        Some(bytes) => Ok(Some(bytes.copy(alloc)?)),
    }
}

impl Copied for Node {
    fn copied(&self, alloc: Global) -> Result<Node, AllocError> {
        Ok(match self {
            Node::File(exec, content) => Node::File(*exec, copied_content(alloc, content)?),
            Node::Link(target) => Node::Link(copied_content(alloc, target)?),
            Node::Dir(listed) => Node::Dir(*listed),
        })
    }
}

impl Copied for u64 {
    fn copied(&self, _alloc: Global) -> Result<u64, AllocError> {
        Ok(*self)
    }
}

/// Equal rows.
pub(crate) fn copied_rows<V: Copied>(
    alloc: Global,
    rows: &[(Place, V)],
) -> Result<Vec<(Place, V)>, AllocError>
    ensures { IfOk result (λ all. all.items ≡ rows.now) }
{
    let mut all = Vec::with_capacity(alloc, rows.len())?;
    for (path, value) in rows {
        all.push((joined(alloc, path.as_slice(), &[])?, value.copied(alloc)?))?;
    }
    Ok(all)
}
