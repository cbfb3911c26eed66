// Whether framed bytes are the object that was asked for.
ghost use Rattle.std.specs.Prelude.{◌↔◌, IsTrue, IsOk, IfOk, IfErr};
ghost use Rattle.eden_object.specs.Objects.{IsBody, IsBodyOf, IsObject, IsFirstCause};

use crate::decode::is_tree;
use crate::frame::{BODY_LIMIT, id_of, read_frame, word_of};
use eden_model::{Cause, Id, ObjKind};
use std::alloc::Global;

/// The most bytes that a framed object may have: a body of the most bytes, and the longest header before it.
pub const FRAMED_LIMIT: usize = BODY_LIMIT + 16;

/// Whether the body is in the grammar of its kind.
fn is_body(room: Option<Global>, kind: ObjKind, body: &[u8]) -> bool
    ensures { IsTrue result ↔ IsBody kind body.now }
{
    match kind {
        ObjKind::Blob => true,
        ObjKind::Tree => is_tree(room, body),
    }
}

/// The body of the object, or the first test of `check` that the bytes fail. With room the names of a tree that isn't
/// in Git's order are sorted.
pub(crate) fn body_of(
    room: Option<Global>,
    id: Id,
    kind: ObjKind,
    framed: &[u8],
) -> Result<&[u8], Cause>
    ensures ok { IfOk result (λ body. IsBodyOf id kind framed.now body.now) }
    ensures cause { IfErr result (λ cause. IsFirstCause id kind framed.now cause) }
{
    if framed.len() > FRAMED_LIMIT {
        return Err(Cause::TooLarge);
    }
    if id_of(framed) != id {
        return Err(Cause::BadDigest);
    }
    let Some((word, body)) = read_frame(framed) else {
        return Err(Cause::Malformed);
    };
    if body.len() > BODY_LIMIT {
        return Err(Cause::TooLarge);
    }
    if word != word_of(kind) {
        return Err(Cause::WrongKind);
    }
    if !is_body(room, kind, body) {
        return Err(Cause::Malformed);
    }
    Ok(body)
}

/// Whether the bytes are an object of that kind with that id. The tests, in this order:
///
/// 1. `TooLarge`: over 2^30 + 16 bytes.
/// 2. `BadDigest`: the SHA-1 of the bytes isn't the id.
/// 3. `Malformed`: no header with one of Git's four words, or the length isn't that of the rest.
/// 4. `TooLarge`: the body is over 2^30 bytes.
/// 5. `WrongKind`: the word isn't the one for the kind.
/// 6. `Malformed`: a tree whose body isn't in the grammar.
///
/// It takes no memory. A tree in Git's order is read once; any other has its names compared each with each, which takes
/// half a minute for 30,000 of them. `Object::checked` answers the same with memory, by sorting.
pub fn check(id: Id, kind: ObjKind, framed: &[u8]) -> Result<(), Cause>
    ensures ok { IsOk result ↔ IsObject id kind framed.now }
    ensures cause { IfErr result (λ cause. IsFirstCause id kind framed.now cause) }
{
    let _body = body_of(None, id, kind, framed)?;
    Ok(())
}
