//! Looks along a path, by positions and by names.
ghost use Rattle.std.specs.Prelude.{◌≡◌, ◌≤◌, ◌+◌, drop, length};
ghost use Rattle.std.specs.Option.{is_some};
ghost use Rattle.eden_model.specs.Paths.{most_names};
ghost use Rattle.eden_tree.specs.Directory.{child_of};
ghost use Rattle.eden_tree.specs.Paths.{stamped_along};
ghost use Rattle.eden_inode.specs.Tables.{IsLast};
ghost use Rattle.eden_inode.specs.Trails.{Leads, Finds, Follows};

use crate::seen::Seen;
use crate::trail::Trail;
use eden_model::Name;
use eden_tree::Entry;
use std::alloc::Allocator;

/// The entry, as it is seen from itself.
fn here<A: Allocator>(entry: &Entry<A>) -> Seen
    ensures { result ≡ record {
      names = 0;
      number = entry.now.number;
      kind = entry.now.kind;
      origin = entry.now.origin;
      loaded = is_some (child_of entry.now);
    } }
{
    Seen {
        names: 0,
        number: entry.number,
        kind: entry.kind,
        origin: entry.origin,
        loaded: entry.child.is_some(),
    }
}

/// The last entry in memory on a path from this one on, by names. The loaded directories on the way are stamped, and
/// the positions noted.
pub(crate) fn seek<A: Allocator>(
    entry: &mut Entry<A>,
    path: &[Name],
    trail: &mut Trail,
    clock: u64,
) -> Seen
    requires { length trail.old.positions + length path.now ≤ most_names }
    ensures last { IsLast path.now entry.old result }
    ensures stamped { entry.new ≡ stamped_along path.now clock entry.old }
    ensures finds { Finds path.now entry.old result trail.old trail.new }
{
    let here = here(entry);
    match entry.directory_mut() {
        None => return here,
        Some(dir) => {
            dir.set_stamp(clock);
            match path.split_first() {
                None => return here,
                Some((name, rest)) => match trail.search(dir, name) {
                    None => return here,
                    Some(position) => match dir.at_mut(position) {
                        None => unreachable!(),
                        Some(below) => {
                            let seen = seek(below, rest, trail, clock);
                            return Seen {
                                names: seen.names + 1,
                                ..seen
                            };
                        }
                    },
                },
            }
        }
    }
}

/// The last entry in memory on a path from this one on: by the positions from that depth on, without comparing a name,
/// and behind them by names.
pub(crate) fn follow<A: Allocator>(
    entry: &mut Entry<A>,
    path: &[Name],
    depth: usize,
    trail: &mut Trail,
    clock: u64,
) -> Seen
    requires leads { Leads path.now (drop depth trail.old.positions) entry.old }
    requires known { depth ≤ length trail.old.positions }
    requires room { depth + length path.now ≤ most_names }
    ensures last { IsLast path.now entry.old result }
    ensures stamped { entry.new ≡ stamped_along path.now clock entry.old }
    ensures follows { Follows depth path.now entry.old result trail.old trail.new }
{
    let Some(position) = trail.position(depth) else {
        return seek(entry, path, trail, clock);
    };
    match entry.directory_mut() {
        None => unreachable!(),
        Some(dir) => {
            dir.set_stamp(clock);
            let _ = dir.count();
            match path.split_first() {
                None => unreachable!(),
                Some((_, rest)) => match dir.at_mut(position) {
                    None => unreachable!(),
                    Some(below) => {
                        let seen = follow(below, rest, depth + 1, trail, clock);
                        return Seen {
                            names: seen.names + 1,
                            ..seen
                        };
                    }
                },
            }
        }
    }
}
