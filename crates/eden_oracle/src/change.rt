ghost use Rattle.std.specs.Prelude.{◌≡◌, ◌≤◌, IfOk, OnOk, OnErr, None, Some, true, false, if◌then◌else◌};
ghost use Rattle.std.specs.Vec.{vec_len, vec_capacity};
ghost use Rattle.eden_oracle.specs.Changes.{MovesRow, changed_tree};
ghost use Rattle.eden_model.specs.Operations.{move, put};
ghost use Rattle.eden_model.specs.Paths.{path_eq};
ghost use Rattle.eden_oracle.specs.Rows.{tree_of};

use crate::front::behind;
use crate::place::{Copied, Place, Row, joined};
use eden_model::{Errno, Name, Node, Reply};
use std::alloc::{AllocError, Global};

/// What a request does to the rows.
#[derive(Drop)]
pub enum Change<'a> {
    /// Nothing.
    Keep,
    /// That node stands at the path; nothing, where there is none.
    Put(&'a [Name], Option<Node>),
    /// What begins with the first path begins with the second.
    Move(&'a [Name], &'a [Name]),
}

/// What a request is answered, and what it does; none where the table gives no reply.
pub(crate) type Answer<'a> = Option<(Reply, Change<'a>)>;

/// A refusal, which changes nothing.
pub(crate) fn refused<'a>(errno: Errno) -> Answer<'a>
    ensures { result ≡ Some (Reply.Err errno, Change.Keep) }
{
    Some((Reply::Err(errno), Change::Keep))
}

fn differs(place: &Place, path: &[Name]) -> bool
    ensures { result ≡ (if path_eq place.now path.now then false else true) }
{
    place.as_slice() != path
}

/// Takes the rows of a path away.
pub(crate) fn remove<V: Drop>(rows: &mut Vec<(Place, V)>, path: &[Name])
    ensures tree { tree_of rows.new.items ≡ put (tree_of rows.old.items) path.now None }
    ensures fewer { vec_len rows.new ≤ vec_len rows.old }
    ensures capacity { vec_capacity rows.new ≡ vec_capacity rows.old }
{
    rows.retain(|row| differs(&row.0, path));
}

/// Puts a row in the place of those of its path.
pub(crate) fn replace<V: Drop>(
    rows: &mut Vec<(Place, V)>,
    path: Place,
    value: V,
) -> Result<(), AllocError>
    ensures ok { OnOk result (tree_of rows.new.items ≡ put (tree_of rows.old.items) path (Some value)) }
    ensures err { OnErr result (rows.new.items ≡ rows.old.items) }
{
    rows.reserve(1)?;
    remove(rows, path.as_slice());
    rows.push((path, value)).unwrap();
    Ok(())
}

/// Puts a copy of the row behind the others, as it stands once what begins with `from` begins with `to`; not where
/// it begins with `to` before.
fn move_row<V: Copied>(
    alloc: Global,
    all: &mut Vec<(Place, V)>,
    from: &[Name],
    to: &[Name],
    path: &[Name],
    value: &V,
) -> Result<(), AllocError>
    ensures { OnOk result (MovesRow all.old.items all.new.items from.now to.now path.now value.now) }
{
    let place = match behind(from, path) {
        Some(rest) => joined(alloc, to, rest)?,
        None => match behind(to, path) {
            Some(_) => return Ok(()),
            None => joined(alloc, path, &[])?,
        },
    };
    all.push((place, value.copied(alloc)?))?;
    Ok(())
}

/// The rows where what begins with `from` begins with `to`, and what began with `to` is gone.
pub(crate) fn moved<V: Copied>(
    alloc: Global,
    rows: &[(Place, V)],
    from: &[Name],
    to: &[Name],
) -> Result<Vec<(Place, V)>, AllocError>
    ensures { IfOk result (λ all. tree_of all.items ≡ move (tree_of rows.now) from.now to.now) }
{
    let mut all = Vec::new(alloc);
    for (path, value) in rows {
        move_row(alloc, &mut all, from, to, path.as_slice(), value)?;
    }
    Ok(all)
}

/// Makes the change.
pub(crate) fn make(alloc: Global, rows: &mut Vec<Row>, change: Change<'_>) -> Result<(), AllocError>
    ensures ok { OnOk result (tree_of rows.new.items ≡ changed_tree (tree_of rows.old.items) change.entry) }
    ensures err { OnErr result (rows.new.items ≡ rows.old.items) }
{
    match change {
        Change::Keep => {}
        Change::Put(path, None) => remove(rows, path),
        Change::Put(path, Some(node)) => replace(rows, joined(alloc, path, &[])?, node)?,
        Change::Move(from, to) => *rows = moved(alloc, rows.as_slice(), from, to)?,
    }
    Ok(())
}
