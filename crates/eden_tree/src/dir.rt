ghost use Rattle.std.specs.Prelude.{◌≡◌, ◌<◌, ◌≤◌, ◌^◌, ℕ, List, [], ◌∷◌, false, length, drop, filter, min, slice_get};
ghost use Rattle.std.specs.Prelude.{IfSome, IfNone, IfErr, OnOk, OnErr, IsSome, IsSomeAnd, Some, None};
ghost use Rattle.std.specs.Borrow.{sem};
ghost use Rattle.std.specs.Map.{keys_of};
ghost use Rattle.std.specs.Option.{option_copied, option_copied_mut, option_map, option_and_then};
ghost use Rattle.eden_tree.specs.Directory.{child_of, with_child};
ghost use Rattle.eden_tree.specs.Rows.{find_row, put_row, drop_row, change_row, set_row};
ghost use Rattle.eden_model.specs.Named.{AreRising};
ghost use Rattle.eden_model.specs.Operations.{name_lt};
ghost use Rattle.eden_tree.specs.Paths.{directory_at, depth_of};

use crate::search::{place, search};
use eden_model::{Kind, Name, Origin};
use std::alloc::Allocator;
use std::marker::Model;
use std::mem;

/// What a directory has under a name.
///
/// A loaded directory and the origin `Empty` stand with the kind `Dir` alone.
#[cycle(dir)]
#[derive(Drop)]
pub struct Entry<A: Allocator> {
    /// The inode's number.
    pub number: u64,
    pub kind: Kind,
    pub origin: Origin,
    /// The directory's own entries, where they are loaded.
    pub child: Option<Box<Dir<A>, A>>,
}

impl<A: Allocator> Model for Entry<A> {
    ghost use Rattle.eden_tree.specs.Directory.{Row, row_size};
    ghost use Rattle.eden_tree.specs.Coding.{row_code};

    ghost Value = { Row };

    ghost coded = { row_code };

    ghost use Rattle.eden_tree.specs.Seen.{row_from};
    ghost use Rattle.eden_tree.specs.Rows.{IsEntry};

    ghost view = { λ e. row_from e.number e.kind e.origin e.child };

    ghost invariant = { λ e. IsEntry (row_from e.number e.kind e.origin e.child) };

    ghost size = { row_size };

    ghost use Rattle.eden_tree.specs.SeenFalls.{entry_falls};

    ghost size_decreases = { λ e h. entry_falls A.Allocator e };
}

impl<A: Allocator> Entry<A> {
    ghost use Rattle.eden_tree.specs.Paths.{row_at, stamped_along};
    ghost use Rattle.eden_tree.specs.Lends.{lends_directory};

    /// The directory that is loaded in this entry.
    pub fn directory(&self) -> Option<&Dir<A>>
        ensures { option_copied result ≡ child_of self.now }
    {
        match &self.child {
            None => None,
            Some(child) => Some(child),
        }
    }

    /// The directory that is loaded in this entry, for writing.
    pub fn directory_mut(&mut self) -> Option<&mut Dir<A>>
        ensures* writes_back { sem 𝓛 (lends_directory A.row A.Allocator self.entry result) }
        ensures value { option_copied_mut result ≡ child_of self.old }
    {
        match &mut self.child {
            None => None,
            Some(child) => Some(child),
        }
    }

    /// The entry at a path from this one on, through loaded directories: one look-up for each name.
    pub fn walk(&self, path: &[Name]) -> Option<&Entry<A>>
        ensures { option_copied result ≡ row_at path.now self.now }
    {
        match path.split_first() {
            None => Some(self),
            Some((name, rest)) => match &self.child {
                None => None,
                Some(child) => match child.get(name) {
                    None => None,
                    Some(entry) => entry.walk(rest),
                },
            },
        }
    }

    /// Stamps the loaded directories of a path, this entry's and that at the end among them, as far as they are loaded.
    pub fn stamp_along(&mut self, path: &[Name], stamp: u64)
        ensures { self.new ≡ stamped_along path.now stamp self.old }
    {
        match &mut self.child {
            None => return,
            Some(child) => {
                child.set_stamp(stamp);
                match path.split_first() {
                    None => return,
                    Some((name, rest)) => match child.get_mut(name) {
                        None => return,
                        Some(entry) => entry.stamp_along(rest, stamp),
                    },
                }
            }
        }
    }
}

/// A loaded directory: its entries by name, the clock of its last use, and a mark that a change of it is unsaved.
///
/// It has at most 2^32 - 1 entries. Only `insert` takes memory.
#[cycle(dir)]
#[derive(Drop)]
pub struct Dir<A: Allocator> {
    stamp: u64,
    unsaved: bool,
    items: Vec<(Name, Entry<A>), A>,
}

impl<A: Allocator> Model for Dir<A> {
    ghost use Rattle.eden_tree.specs.Directory.{Directory, directory_size};
    ghost use Rattle.eden_tree.specs.Coding.{directory_code};

    ghost Value = { Directory };

    ghost coded = { directory_code };

    ghost use Rattle.eden_tree.specs.Seen.{directory_from};
    ghost use Rattle.eden_tree.specs.Rows.{AreRows};

    ghost view = { λ a. directory_from a.stamp a.unsaved a.items.items };

    ghost invariant = { λ a. AreRows a.items.items };

    ghost size = { directory_size };

    ghost use Rattle.eden_tree.specs.SeenFalls.{directory_falls};

    ghost size_decreases = { λ a h. directory_falls A.Allocator a };
}

impl<A: Allocator> Dir<A> {
    ghost use Rattle.eden_tree.specs.Lends.{lends_entry, lends_at};

    /// A directory without entries, not marked unsaved.
    pub fn new(alloc: A, stamp: u64) -> Dir<A>
        ensures { result ≡ record { stamp = stamp; unsaved = false; rows = [] } }
    {
        Dir {
            stamp,
            unsaved: false,
            items: Vec::new(alloc),
        }
    }

    /// The clock of the last use.
    pub fn stamp(&self) -> u64
        ensures { result ≡ self.now.stamp }
    {
        self.stamp
    }

    pub fn set_stamp(&mut self, stamp: u64)
        ensures { self.new ≡ record self.old { stamp = stamp } }
    {
        self.stamp = stamp;
    }

    /// Whether the directory has a change that isn't stored.
    pub fn unsaved(&self) -> bool
        ensures { result ≡ self.now.unsaved }
    {
        self.unsaved
    }

    pub fn set_unsaved(&mut self, unsaved: bool)
        ensures { self.new ≡ record self.old { unsaved = unsaved } }
    {
        self.unsaved = unsaved;
    }

    /// How many entries there are.
    pub fn count(&self) -> u32
        ensures value { result ≡ length self.now.rows }
        ensures rising { AreRising (λ r. r.0) self.now.rows }
    {
        self.items.len() as u32
    }

    /// The entry of that name.
    pub fn get(&self, name: &Name) -> Option<&Entry<A>>
        ensures { option_copied result ≡ find_row name.now self.now.rows }
    {
        match place(&self.items, name) {
            Ok(i) => Some(&self.items[i].1),
            Err(_) => None,
        }
    }

    /// The position of that name in byte order of names, and how many names were compared to find it: at most as many
    /// as the number of entries has binary digits.
    pub fn get_counted(&self, name: &Name) -> (Option<u32>, u32)
        ensures found { IfSome result.0 (λ i. slice_get (keys_of self.now.rows) i ≡ Some name.now) }
        ensures absent { IfNone result.0 (find_row name.now self.now.rows ≡ None) }
        ensures compared { (digits : ℕ) → length self.now.rows < 2 ^ digits → result.1 ≤ digits }
    {
        let found = search(&self.items, name);
        match found.place {
            Ok(i) => (Some(i as u32), found.compared),
            Err(_) => (None, found.compared),
        }
    }

    /// The position of the first entry of a greater name, in byte order of names: how many entries have none.
    pub fn behind(&self, name: &Name) -> u32
        ensures within { result ≤ length self.now.rows }
        ensures greater { drop result self.now.rows ≡ filter (λ r. name_lt name.now r.0) self.now.rows }
    {
        match place(&self.items, name) {
            Ok(i) => i as u32 + 1,
            Err(i) => i as u32,
        }
    }

    /// The entry of that name, for writing.
    pub fn get_mut(&mut self, name: &Name) -> Option<&mut Entry<A>>
        ensures* writes_back { sem 𝓛 (lends_entry A.row A.Allocator self.entry name.now result) }
        ensures value { option_copied_mut result ≡ find_row name.now self.old.rows }
    {
        match place(&self.items, name) {
            Ok(i) => Some(&mut self.items[i].1),
            Err(_) => None,
        }
    }

    /// The name and the entry at a position, in byte order of names.
    pub fn at(&self, position: u32) -> Option<(&Name, &Entry<A>)>
        ensures { option_map (λ r. (r.0.now, r.1.now)) result ≡ slice_get self.now.rows position }
    {
        match self.items.get(position as usize) {
            Some((name, entry)) => Some((name, entry)),
            None => None,
        }
    }

    /// The entry at a position, for writing.
    pub fn at_mut(&mut self, position: u32) -> Option<&mut Entry<A>>
        ensures* writes_back { sem 𝓛 (lends_at A.row A.Allocator self.entry position result) }
        ensures value { option_copied_mut result ≡ option_map (λ r. r.1) (slice_get self.old.rows position) }
    {
        match within(&self.items, position) {
            Some(i) => Some(&mut self.items[i].1),
            None => None,
        }
    }

    /// Puts in an entry under a name that isn't there.
    ///
    /// Where the name is there, there are 2^32 - 1 entries or there is no memory, it is refused: name and entry come
    /// back, and nothing has changed.
    pub fn insert(&mut self, name: Name, entry: Entry<A>) -> Result<(), (Name, Entry<A>)>
        ensures absent { OnOk result (find_row name self.old.rows ≡ None) }
        ensures room { OnOk result (length self.old.rows < u32.MAX) }
        ensures ok { OnOk result (self.new ≡ record self.old { rows = put_row name entry self.old.rows }) }
        ensures err { OnErr result (self.new ≡ self.old) }
        ensures handed_back { IfErr result (λ e. e ≡ (name, entry)) }
    {
        match place(&self.items, &name) {
            Ok(_) => Err((name, entry)),
            Err(i) => {
                if self.items.len() >= u32::MAX as usize {
                    return Err((name, entry));
                }
                match self.items.insert(i, (name, entry)) {
                    Ok(()) => Ok(()),
                    Err(failed) => Err(failed.value),
                }
            }
        }
    }

    /// Takes out the entry of that name, with the directory that it may hold.
    pub fn remove(&mut self, name: &Name) -> Option<Entry<A>>
        ensures taken { result ≡ find_row name.now self.old.rows }
        ensures left { self.new ≡ record self.old { rows = drop_row name.now self.old.rows } }
    {
        match place(&self.items, name) {
            Ok(i) => {
                let (_, entry) = self.items.remove(i);
                Some(entry)
            }
            Err(_) => None,
        }
    }

    /// Puts another entry in the place of the one of that name, and hands that one out.
    pub fn replace(&mut self, name: &Name, entry: Entry<A>) -> Entry<A>
        requires { IsSome (find_row name.now self.old.rows) }
        ensures taken { find_row name.now self.old.rows ≡ Some result }
        ensures put { self.new ≡ record self.old { rows = set_row name.now entry self.old.rows } }
    {
        match self.get_mut(name) {
            Some(there) => mem::replace(there, entry),
            None => unreachable!(),
        }
    }

    /// Takes out the loaded directory under the entry of that name; the entry stays.
    pub fn detach(&mut self, name: &Name) -> Option<Box<Dir<A>, A>>
        ensures taken { option_map (λ b. b.value) result ≡ option_and_then child_of (find_row name.now self.old.rows) }
        ensures left { self.new ≡ record self.old { rows = change_row name.now (with_child None) self.old.rows } }
    {
        match self.get_mut(name) {
            Some(there) => there.child.take(),
            None => None,
        }
    }

    /// Puts a loaded directory under the entry of that name, which is a directory's and holds none.
    pub fn attach(&mut self, name: &Name, child: Box<Dir<A>, A>)
        requires { IsSomeAnd (find_row name.now self.old.rows) (λ x. (x.kind ≡ Kind.Dir) × (child_of x ≡ None)) }
        ensures { self.new ≡ record self.old {
          rows = change_row name.now
              (with_child (Some child.value)) self.old.rows;
        } }
    {
        match self.get_mut(name) {
            Some(there) => there.child = Some(child),
            None => unreachable!(),
        }
    }

    /// The loaded directory at a path: one look-up for each name.
    pub fn walk(&self, path: &[Name]) -> Option<&Dir<A>>
        ensures { option_copied result ≡ directory_at path.now self.now }
    {
        match path.split_first() {
            None => Some(self),
            Some((name, rest)) => match self.get(name) {
                None => None,
                Some(entry) => match entry.walk(rest) {
                    None => None,
                    Some(last) => last.directory(),
                },
            },
        }
    }

    /// The levels of loaded directories, this one among them. It stays at 2^64 - 1.
    pub fn depth(&self) -> u64
        ensures { result ≡ min (depth_of self.now) u64.MAX }
    {
        let mut below = 0;
        for (_, entry) in &self.items {
            match &entry.child {
                None => {}
                Some(child) => below = u64::max(below, child.depth()),
            }
        }
        below.saturating_add(1)
    }
}

/// The position as an index, where it is one.
fn within<A: Allocator>(items: &[(Name, Entry<A>)], position: u32) -> Option<usize>
    ensures found { IfSome result (λ i. (i ≡ position) × (i < length items.now)) }
    ensures beyond { IfNone result (length items.now ≤ position) }
{
    let index = position as usize;
    if index < items.len() {
        Some(index)
    } else {
        None
    }
}
