//! Directories in memory: a subtree that moves, a path that is changed, and no memory.
use crate::formats;
use crate::told::require;
use eden_model::{Kind, Name, Origin};
use eden_tree::{Change, Dir, Entry};
use linked_list_allocator::LocalHeap;
use std::alloc::{Allocator, Global};
use std::collections::BTreeMap;
use std::process::Abort;

/// Knuth's linear congruential generator, its upper half.
fn random(state: &mut u64) -> u32 {
    *state = state
        .wrapping_mul(6364136223846793005)
        .wrapping_add(1442695040888963407);
    (*state >> 32) as u32
}

/// A letter for each base-16 digit: names of one length, in the order of their numbers.
fn name(rt: &impl Abort, alloc: Global, number: u32) -> Name {
    let mut letters = [b'a'; 8];
    let mut rest = number;
    for letter in letters.iter_mut().rev() {
        *letter = b'a' + (rest % 16) as u8;
        rest /= 16;
    }
    formats::name(rt, alloc, &letters)
}

fn entry<A: Allocator>(number: u64, child: Option<Box<Dir<A>, A>>) -> Entry<A> {
    Entry {
        number,
        kind: Kind::Dir,
        origin: Origin::Own,
        child,
    }
}

fn put(rt: &impl Abort, dir: &mut Dir<Global>, name: Name, entry: Entry<Global>) {
    let answer = dir.insert(name, entry);
    let is_put = answer.is_ok();
    drop(answer);
    require(rt, is_put, "put");
}

/// A directory of the names of the first numbers.
fn wide(rt: &impl Abort, alloc: Global, count: u32) -> Dir<Global> {
    let mut dir = Dir::new(alloc, 0);
    for number in 0..count {
        let name = name(rt, alloc, number);
        put(rt, &mut dir, name, entry(u64::from(number), None));
    }
    dir
}

/// A directory of one entry, which holds that directory.
fn above(rt: &impl Abort, alloc: Global, below: Dir<Global>) -> Dir<Global> {
    let stamp = below.stamp().wrapping_add(1);
    let child = boxed(rt, alloc, below);
    let mut dir = Dir::new(alloc, stamp);
    let name = name(rt, alloc, 7);
    put(rt, &mut dir, name, entry(stamp, Some(child)));
    dir
}

fn boxed(rt: &impl Abort, alloc: Global, dir: Dir<Global>) -> Box<Dir<Global>> {
    Box::new(alloc, dir).ok().expect(rt, "memory")
}

/// Loaded directories of one entry each, one inside another; the stamp is how many are below.
fn nested(rt: &impl Abort, alloc: Global, levels: u64) -> Dir<Global> {
    let mut dir = Dir::new(alloc, 0);
    for _ in 1..levels {
        dir = above(rt, alloc, dir);
    }
    dir
}

/// The number of what was taken out.
fn take_number<A: Allocator>(dir: &mut Dir<A>, key: &Name) -> Option<u64> {
    match dir.remove(key) {
        None => None,
        Some(entry) => {
            let number = entry.number;
            drop(entry);
            Some(number)
        }
    }
}

/// Whether a name and an entry that came back are those that were given.
fn are_those<A: Allocator>(back: &Name, handed: &Entry<A>, key: &Name, number: u64) -> bool {
    *back == *key && handed.number == number
}

/// Puts a number under a name that the map doesn't have.
fn put_new(rt: &impl Abort, map: &mut BTreeMap<Name, u64>, key: Name, number: u64) {
    assert!(rt; matches!(map.insert(key, number), Ok(None)));
}

/// Takes out of both, and compares what they answer.
fn take_of_both(rt: &impl Abort, dir: &mut Dir<Global>, map: &mut BTreeMap<Name, u64>, key: &Name) {
    assert!(rt; take_number(dir, key) == map.remove(key));
}

/// Puts into both, if the name isn't there yet, and compares what they answer.
fn put_into_both<A: Allocator>(
    rt: &impl Abort,
    alloc: Global,
    dir: &mut Dir<A>,
    map: &mut BTreeMap<Name, u64>,
    key: Name,
    number: u64,
) {
    let copy = key.copy(alloc).expect(rt, "memory");
    match dir.insert(copy, entry(number, None)) {
        Ok(()) => put_new(rt, map, key, number),
        Err((back, handed)) => {
            require(rt, map.get(&key).is_some(), "in the map");
            require(rt, are_those(&back, &handed, &key, number), "handed back");
            drop(back);
            drop(handed);
            drop(key);
        }
    }
}

/// Puts into both, or takes out of both, and compares what they answer.
fn change_both(
    rt: &impl Abort,
    alloc: Global,
    dir: &mut Dir<Global>,
    map: &mut BTreeMap<Name, u64>,
    word: u32,
) {
    let key = name(rt, alloc, word % 3000);
    if word / 3000 % 2 == 0 {
        take_of_both(rt, dir, map, &key);
    } else {
        put_into_both(rt, alloc, dir, map, key, u64::from(word));
    }
}

fn assert_alike<A: Allocator>(rt: &impl Abort, dir: &Dir<A>, map: &BTreeMap<Name, u64>) {
    assert!(rt; dir.count() as usize == map.len());
    let mut position = 0u32;
    for (key, number) in map {
        let (there, entry) = dir.at(position).expect(rt, "an entry at each position");
        assert!(rt; *there == *key && entry.number == *number);
        assert!(rt; dir.get_counted(key).0 == Some(position));
        position = position.wrapping_add(1);
    }
    assert!(rt; dir.at(position).is_none());
}

fn change_often(
    rt: &impl Abort,
    alloc: Global,
    dir: &mut Dir<Global>,
    map: &mut BTreeMap<Name, u64>,
) {
    let mut state = 1;
    for _ in 0..10 {
        for _ in 0..1000 {
            let word = random(&mut state);
            change_both(rt, alloc, dir, map, word);
        }
        assert_alike(rt, dir, map);
    }
}

#[test]
fn random_changes_agree_with_an_ordered_map(rt: HostRuntime) {
    let mut dir = Dir::new(rt.alloc(), 0);
    let mut map = BTreeMap::new(rt.alloc());
    change_often(&rt, rt.alloc(), &mut dir, &mut map);
    drop(dir);
    drop(map);
}

/// Whether what came back is what was given under that number, which the directory lacks.
fn is_handed_back<A: Allocator>(
    rt: &impl Abort,
    alloc: Global,
    dir: &Dir<A>,
    back: &Name,
    handed: &Entry<A>,
    number: u32,
) -> bool {
    let key = name(rt, alloc, number);
    are_those(back, handed, &key, u64::from(number)) && dir.get(&key).is_none()
}

/// Whether an insert found room. A refused one hands name and entry back, and changes nothing.
fn finds_room<A: Allocator>(rt: &impl Abort, alloc: Global, dir: &mut Dir<A>, number: u32) -> bool {
    let before = dir.count();
    match dir.insert(name(rt, alloc, number), entry(u64::from(number), None)) {
        Ok(()) => true,
        Err((back, handed)) => {
            let is_so = is_handed_back(rt, alloc, dir, &back, &handed, number);
            drop(back);
            drop(handed);
            require(rt, is_so && dir.count() == before, "handed back");
            false
        }
    }
}

/// Inserts until one is refused, and answers how many went in.
fn fill<A: Allocator>(rt: &impl Abort, alloc: Global, dir: &mut Dir<A>) -> u32 {
    for number in 0..100_000u32 {
        if !finds_room(rt, alloc, dir, number) {
            return number;
        }
    }
    100_000
}

/// The number of the first entry, which is replaced and taken out.
fn take_first<A: Allocator>(rt: &impl Abort, dir: &mut Dir<A>, key: &Name) -> u64 {
    assert!(rt; dir.get(key).is_some());
    let was = dir.replace(key, entry(1, None));
    let number = was.number;
    drop(was);
    assert!(rt; dir.detach(key).is_none() && dir.at_mut(0).is_some());
    assert!(rt; take_number(dir, key) == Some(1));
    number
}

/// Takes the first entries out of a directory of this many: that needs no room.
fn take_some<A: Allocator>(rt: &impl Abort, alloc: Global, dir: &mut Dir<A>, count: u32) {
    let some = u32::min(count, 100);
    for number in 0..some {
        let key = name(rt, alloc, number);
        assert!(rt; dir.get_counted(&key).0 == Some(0) && dir.behind(&key) == 1);
        assert!(rt; take_first(rt, dir, &key) == u64::from(number));
    }
    assert!(rt; dir.count() == count.saturating_sub(some));
}

/// All that is left of a heap, in its smallest blocks.
fn rest_of<'h>(rt: &impl Abort, alloc: Global, heap: &'h LocalHeap) -> Vec<Vec<u8, &'h LocalHeap>> {
    let mut rest = Vec::new(alloc);
    for _ in 0..heap.size() {
        match Vec::with_capacity(heap, 1) {
            Ok(block) => rest.push(block).expect(rt, "memory"),
            Err(_) => return rest,
        }
    }
    rest
}

/// Fills a directory until an insertion is refused, and takes entries out once nothing has room any more. How many went
/// in.
fn fill_from(rt: &impl Abort, alloc: Global, heap: &LocalHeap) -> u32 {
    let mut dir = Dir::new(heap, 0);
    let count = fill(rt, alloc, &mut dir);
    let rest = rest_of(rt, alloc, heap);
    require(rt, heap.free() == 0, "no room");
    take_some(rt, alloc, &mut dir, count);
    drop(rest);
    drop(dir);
    count
}

/// How many entries find room in this many bytes, which are all given back.
fn room_in(rt: &impl Abort, alloc: Global, bytes: usize) -> u32 {
    let heap = LocalHeap::new(alloc, bytes).expect(rt, "memory");
    let count = fill_from(rt, alloc, &heap);
    require(rt, heap.used() == 0, "all given back");
    drop(heap);
    count
}

#[test]
fn each_refused_growth_hands_name_and_entry_back(rt: HostRuntime) {
    let mut most = 0u32;
    let mut size = 64usize;
    for _ in 0..16 {
        let count = room_in(&rt, rt.alloc(), size);
        assert!(rt;
            count / 2 <= most.saturating_add(2),
            "no growth at {most} was refused"
        );
        most = count;
        size = size.saturating_mul(2);
    }
    assert!(rt; most > 1000);
}

/// Attaches if the entry is a directory's and holds none.
fn attach_where_free<A: Allocator>(
    rt: &impl Abort,
    dir: &mut Dir<A>,
    name: &Name,
    child: Box<Dir<A>, A>,
) {
    let there = dir.get(name).expect(rt, "an entry");
    assert!(rt; there.kind == Kind::Dir);
    assert!(rt; there.child.is_none());
    dir.attach(name, child);
}

/// Removes the entry of a loaded directory that was stamped at 2 and is saved.
fn remove_loaded<A: Allocator>(rt: &impl Abort, dir: &mut Dir<A>, name: &Name) {
    let entry = dir.remove(name).expect(rt, "an entry");
    let child = entry.child.expect(rt, "a loaded directory");
    let is_so = child.stamp() == 2 && !child.unsaved();
    drop(child);
    require(rt, is_so, "the directory that was stamped at 2");
}

/// Takes the only loaded directory out.
fn detach_loaded(rt: &impl Abort, dir: &mut Dir<Global>, name: &Name) -> Box<Dir<Global>> {
    let loaded = dir.detach(name).expect(rt, "a loaded directory");
    require(rt, dir.depth() == 1, "no other loaded");
    let again = dir.detach(name);
    let is_none = again.is_none();
    drop(again);
    require(rt, is_none, "nothing left to take out");
    loaded
}

/// Attaches a directory of three levels, and takes its entry out of nine.
fn attach_and_remove(rt: &impl Abort, to: &mut Dir<Global>, name: &Name, moved: Box<Dir<Global>>) {
    attach_where_free(rt, to, name, moved);
    assert!(rt; to.depth() == 4);
    remove_loaded(rt, to, name);
    assert!(rt; to.depth() == 1 && to.count() == 8);
}

/// Moves what is below one directory's entry to another's, and takes that entry out.
fn move_subtree(rt: &impl Abort, alloc: Global, from: &mut Dir<Global>, to: &mut Dir<Global>) {
    let moved = detach_loaded(rt, from, &name(rt, alloc, 7));
    attach_and_remove(rt, to, &name(rt, alloc, 8), moved);
}

#[test]
fn a_subtree_moves_without_a_copy(rt: HostRuntime) {
    let mut from = nested(&rt, rt.alloc(), 4);
    let mut to = wide(&rt, rt.alloc(), 9);
    move_subtree(&rt, rt.alloc(), &mut from, &mut to);
    drop(from);
    drop(to);
}

/// Makes a directory of depth 256 and one of a million entries, and drops them.
fn drops(rt: &impl Abort, alloc: Global) -> bool {
    let depth = nested(rt, alloc, 256).depth();
    let count = wide(rt, alloc, 1_000_000).count();
    depth == 256 && count == 1_000_000
}

#[test]
fn deep_and_wide_directories_are_dropped(rt: HostRuntime) {
    assert!(rt; drops(&rt, rt.alloc()));
}

/// Marks a loaded directory as unsaved, and counts it: whether one is loaded.
#[derive(Drop)]
struct Mark;

impl<A: Allocator> Change<A, u64> for Mark {
    type Output = bool;

    ghost may = { λ mark count x. Unit {0} };

    ghost does = { λ mark count x counted y marked. Unit {0} };

    fn change(self, count: &mut u64, entry: &mut Entry<A>) -> bool {
        match &mut entry.child {
            None => return false,
            Some(child) => {
                child.set_unsaved(true);
                *count = count.saturating_add(1);
                return true;
            }
        }
    }
}

/// Stamps two levels, and marks the directory below them. Nothing stands at the path's end.
fn stamp_and_mark(rt: &impl Abort, root: &mut Entry<Global>, path: &[Name; 3]) {
    let mut count = 0;
    root.stamp_along(&path[..1], 77);
    assert!(rt; root.change_at(&path[..2], &mut count, Mark) == Some(true));
    assert!(rt; root.change_at(path, &mut count, Mark).is_none());
    assert!(rt; count == 1 && root.walk(path).is_none());
}

/// The stamp of the loaded directory at the end of the path, and whether it is unsaved.
fn state_at(root: &Entry<Global>, path: &[Name]) -> Option<(u64, bool)> {
    match &root.walk(path)?.child {
        None => None,
        Some(child) => Some((child.stamp(), child.unsaved())),
    }
}

fn sevens(rt: &impl Abort, alloc: Global) -> [Name; 3] {
    [name(rt, alloc, 7), name(rt, alloc, 7), name(rt, alloc, 7)]
}

/// Goes down the only entries, each under the name of 7: stamps two levels, and marks the one below them.
fn change_below(rt: &impl Abort, alloc: Global, root: &mut Entry<Global>) {
    let path = sevens(rt, alloc);
    stamp_and_mark(rt, root, &path);
    require(
        rt,
        state_at(root, &path[..0]) == Some((77, false)),
        "the root",
    );
    require(
        rt,
        state_at(root, &path[..1]) == Some((77, false)),
        "the first level",
    );
    require(
        rt,
        state_at(root, &path[..2]) == Some((0, true)),
        "the second level",
    );
    drop(path);
}

#[test]
fn a_path_is_stamped_and_its_end_changed(rt: HostRuntime) {
    let dir = nested(&rt, rt.alloc(), 3);
    let child = boxed(&rt, rt.alloc(), dir);
    let mut root = entry(1, Some(child));
    change_below(&rt, rt.alloc(), &mut root);
    drop(root);
}
