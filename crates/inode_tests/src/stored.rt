//! What is asked of the files under a table, which stay as they are.

ghost use Rattle.std.specs.Prelude.{◌≡◌};

use eden_inode::Inodes;
use eden_model::Outside;
use eden_overlay::{Files, Overlay};
use eden_overlay_format::StoredEntry;
use eden_tree::{Change, Entry};
use std::alloc::{Allocator, Global};

#[derive(Clone, Copy)]
pub(crate) enum Stored {
    /// All files by their numbers, each with its size in bytes.
    Sizes(&'static [(u64, u64)]),
    /// All files by their numbers.
    Numbers(&'static [u64]),
    /// File 1 has one entry, with this name and that number.
    Only(&'static [u8], u64),
}

fn lists<F: Files<Outside>>(alloc: Global, files: &mut Overlay<Outside, F>, want: &[u64]) -> bool {
    let numbers = files.list(alloc);
    let is_so = matches!(&numbers, Ok(numbers) if numbers.as_slice() == want);
    drop(numbers);
    is_so
}

/// Whether the numbers are those, in order.
fn are_listed(numbers: &[u64], want: &[(u64, u64)]) -> bool {
    if numbers.len() != want.len() {
        return false;
    }
    for (index, (number, _)) in want.iter().enumerate() {
        if numbers[index] != *number {
            return false;
        }
    }
    true
}

fn lists_sized<F: Files<Outside>>(
    alloc: Global,
    files: &mut Overlay<Outside, F>,
    want: &[(u64, u64)],
) -> bool {
    let numbers = files.list(alloc);
    let is_so = matches!(&numbers, Ok(numbers) if are_listed(numbers, want));
    drop(numbers);
    is_so
}

fn have_sizes<F: Files<Outside>>(files: &mut Overlay<Outside, F>, want: &[(u64, u64)]) -> bool {
    for (number, size) in want {
        if files.bytes_at(*number) != Ok(*size) {
            return false;
        }
    }
    true
}

fn is_only(entries: &[StoredEntry], name: &[u8], number: u64) -> bool {
    match entries {
        [entry] => entry.name.as_slice() == name && entry.number == number,
        _ => false,
    }
}

fn has_only<F: Files<Outside>>(
    alloc: Global,
    files: &mut Overlay<Outside, F>,
    name: &[u8],
    number: u64,
) -> bool {
    let entries = files.get_dir(alloc, 1);
    let is_so = matches!(&entries, Ok(entries) if is_only(entries, name, number));
    drop(entries);
    is_so
}

/// The question as a change that changes nothing.
#[derive(Drop)]
struct Asked {
    alloc: Global,
    stored: Stored,
}

impl<A: Allocator, F: Files<Outside>> Change<A, Overlay<Outside, F>> for Asked {
    type Output = bool;

    ghost may = { λ asked o x. Unit {0} };

    ghost does = { λ asked o x p z answer. z ≡ x };

    fn change(self, files: &mut Overlay<Outside, F>, _: &mut Entry<A>) -> bool {
        match self.stored {
            Stored::Sizes(want) => lists_sized(self.alloc, files, want) && have_sizes(files, want),
            Stored::Numbers(want) => lists(self.alloc, files, want),
            Stored::Only(name, number) => has_only(self.alloc, files, name, number),
        }
    }
}

/// Whether that is so of the files under a table.
pub(crate) fn is_stored<A: Allocator + Clone, F: Files<Outside>>(
    alloc: Global,
    table: &mut Inodes<A, Outside, F>,
    stored: Stored,
) -> bool {
    table.holds();
    table.change_in_place(Asked { alloc, stored })
}
