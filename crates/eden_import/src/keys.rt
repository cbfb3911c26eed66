ghost use Rattle.std.specs.Prelude.{◌≡◌, vec_capacity, length};
ghost use Rattle.std.specs.VecDeque.{deque_capacity};
ghost use Rattle.eden_import.specs.Keys.{has_key, without_key};
ghost use Rattle.eden_import.specs.Queue as queue;

use eden_model::{Cause, Key};
use std::alloc::Allocator;
use std::collections::VecDeque;

/// Takes the key out.
pub(crate) fn drop_key<A: Allocator>(keys: &mut Vec<Key, A>, key: Key)
    ensures items { keys.new.items ≡ without_key key keys.old.items }
    ensures room { vec_capacity keys.new ≡ vec_capacity keys.old }
{
    keys.retain(|other| *other != key);
}

/// Takes the key out of the queue.
pub(crate) fn unqueue<A: Allocator>(queue: &mut VecDeque<Key, A>, key: Key)
    ensures items { queue.new.items ≡ without_key key queue.old.items }
    ensures room { deque_capacity queue.new ≡ deque_capacity queue.old }
{
    queue.retain(|other| *other != key);
}

/// Whether one of these wants is for the key.
pub(crate) fn is_wanted(wants: &[Option<Key>], key: &Key) -> bool
    ensures { result ≡ queue.is_wanted key.now wants.now }
{
    wants.iter().any(|want| is_for(want, key))
}

/// Whether a want is for the key.
pub(crate) fn is_for(want: &Option<Key>, key: &Key) -> bool
    ensures { result ≡ queue.wants_key key.now want.now }
{
    match want {
        None => false,
        Some(wanted) => wanted == key,
    }
}

/// Ends the wants of the key.
pub(crate) fn end_wants<A: Allocator>(wants: &mut Vec<Option<Key>, A>, key: Key)
    ensures { wants.new.items ≡ queue.end_wants key wants.old.items }
{
    for want in wants.iter_mut() {
        if is_for(want, &key) {
            *want = None;
        }
    }
}

/// Puts a mark in the place of each whose pass wants the key.
pub(crate) fn put_marks(
    marks: &mut [Option<(Key, Cause)>],
    wants: &[Option<Key>],
    key: Key,
    cause: Cause,
)
    requires { length marks.old ≡ length wants.now }
    ensures { marks.new ≡ queue.put_marks key cause wants.now marks.old }
{
    for (seat, want) in wants.iter().enumerate() {
        if is_for(want, &key) {
            marks[seat] = Some((key, cause));
        }
    }
}
