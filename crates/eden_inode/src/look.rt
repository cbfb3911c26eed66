//! Entries on a path.
ghost use Rattle.std.specs.Prelude.{◌≡◌, IfSome, IfNone};
ghost use Rattle.eden_model.specs.declared.kind.Origin as declared;
ghost use Rattle.eden_tree.specs.Paths.{stamped_along};
ghost use Rattle.eden_inode.specs.Tables.{IsLast, IsUnlisted};

use crate::seen::Seen;
use eden_model::{Kind, Name, Origin};
use eden_tree::Entry;
use std::alloc::Allocator;

/// The last entry in memory on a path from this one on, and the loaded directories on the way stamped.
pub(crate) fn look<A: Allocator>(entry: &mut Entry<A>, path: &[Name], clock: u64) -> Seen
    ensures last { IsLast path.now entry.old result }
    ensures stamped { entry.new ≡ stamped_along path.now clock entry.old }
{
    let here = Seen {
        names: 0,
        number: entry.number,
        kind: entry.kind,
        origin: entry.origin,
        loaded: entry.child.is_some(),
    };
    match entry.directory_mut() {
        None => return here,
        Some(dir) => {
            dir.set_stamp(clock);
            match path.split_first() {
                None => return here,
                Some((name, rest)) => match dir.get_mut(name) {
                    None => return here,
                    Some(below) => {
                        let seen = look(below, rest, clock);
                        return Seen {
                            names: seen.names + 1,
                            ..seen
                        };
                    }
                },
            }
        }
    }
}

/// Where the directory of an entry comes from that isn't loaded.
pub(crate) fn unloaded<A: Allocator>(entry: &Entry<A>) -> Option<Origin>
    ensures some { IfSome result (λ o. IsUnlisted entry.now o) }
    ensures none { IfNone result ((o : declared.Origin) → ¬ IsUnlisted entry.now o) }
{
    match entry.kind {
        Kind::File | Kind::Exec | Kind::Link => None,
        Kind::Dir => match &entry.child {
            Some(_) => None,
            None => Some(entry.origin),
        },
    }
}
