use crate::checks::body_of;
use crate::decode::read_entries;
use crate::frame::read_frame;
use eden_model::{Cause, Key, ObjKind, TreeEntry};
use std::alloc::{AllocError, Global};
use std::marker::Model;

/// A blob's or a tree's body that is in its grammar and of at most 2^30 bytes. Contracts see its kind and its bytes.
#[derive(Drop)]
pub struct Object {
    kind: ObjKind,
    framed: Vec<u8>,
    header: usize,
}

impl Model for Object {
    ghost use Rattle.std.specs.Prelude.{◌≤◌, drop, length};
    ghost use Rattle.eden_object.specs.Objects.{Body, IsSound};

    ghost Value = { Body };

    ghost view = { λ o. record { kind = o.kind; bytes = drop o.header o.framed.items } };

    ghost invariant = { λ o.
        (o.header ≤ length o.framed.items)
        × IsSound (record { kind = o.kind; bytes = drop o.header o.framed.items }) };
}

impl Object {
    ghost use Rattle.std.specs.Prelude.{◌≡◌, ◌↔◌, ◌≤◌, length, IsOk, IfOk, IfErr};
    ghost use Rattle.eden_model.specs.declared.id.ObjKind.TheVariants.{Tree};
    ghost use Rattle.eden_object.specs.Frames.{frame, word_of};
    ghost use Rattle.eden_object.specs.Objects.{IsFramed, IsObject, IsFirstCause, IsSound};
    ghost use Rattle.eden_object.specs.Trees.{IsTreeBody};

    /// The object that was asked for, in the bytes that came for it, with no copy. Else the cause that `check` names.
    ///
    /// The bytes are read once. The names of a tree that isn't in Git's order are sorted, in n log n comparisons; where
    /// memory for that is refused, they are compared each with each, so want of memory is never a cause.
    pub fn checked(alloc: Global, key: Key, framed: Vec<u8>) -> Result<Object, Cause>
        ensures ok { IsOk result ↔ IsObject key.id key.kind framed.items }
        ensures kind { IfOk result (λ object. object.kind ≡ key.kind) }
        ensures body { IfOk result (λ object. framed.items ≡ frame (word_of key.kind) object.bytes) }
        ensures cause { IfErr result (λ cause. IsFirstCause key.id key.kind framed.items cause) }
    {
        let body = body_of(Some(alloc), key.id, key.kind, framed.as_slice())?;
        let header = framed.len() - body.len();
        Ok(Object {
            kind: key.kind,
            framed,
            header,
        })
    }

    /// The object in bytes that `check` let through for that kind, with no copy.
    pub fn new(kind: ObjKind, framed: Vec<u8>) -> Object
        requires { IsFramed kind framed.items }
        ensures kind { result.kind ≡ kind }
        ensures body { framed.items ≡ frame (word_of kind) result.bytes }
    {
        let header = match read_frame(framed.as_slice()) {
            Some((_, body)) => framed.len() - body.len(),
            None => unreachable!(),
        };
        Object {
            kind,
            framed,
            header,
        }
    }

    /// Which kind of object it is.
    pub fn kind(&self) -> ObjKind
        ensures { result ≡ self.now.kind }
    {
        self.kind
    }

    /// The body: a blob's content, or a tree's entries for `decode_tree`.
    pub fn body(&self) -> &[u8]
        ensures bytes { result.now ≡ self.now.bytes }
        ensures sound { IsSound self.now }
    {
        &self.framed[self.header..]
    }

    /// A tree's entries, in the order in which they stand. The only error is want of memory.
    pub fn entries(&self, alloc: Global) -> Result<Vec<TreeEntry>, AllocError>
        requires { self.now.kind ≡ Tree }
        ensures { IfOk result (λ entries. IsTreeBody entries.items self.now.bytes) }
    {
        read_entries(alloc, self.body())
    }

    /// The body's length in bytes.
    pub fn len(&self) -> usize
        ensures { result ≡ length self.now.bytes }
    {
        self.framed.len() - self.header
    }
}
