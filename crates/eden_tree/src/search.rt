ghost use Rattle.std.specs.Prelude.{ℕ, ◌<◌, ◌≤◌, ◌^◌, length, IfOk, IfErr};
ghost use Rattle.eden_tree.specs.Rows.{AreRows};
ghost use Rattle.eden_tree.specs.Places.{IsPlaceOf, IsGap};

use crate::dir::Entry;
use eden_model::Name;
use std::alloc::Allocator;
use std::cmp::Ordering;

/// How a binary search ended: where the name is, or else would go, and how many names were compared.
#[derive(Drop)]
pub(crate) struct Found {
    pub(crate) place: Result<usize, usize>,
    pub(crate) compared: u32,
}

pub(crate) fn search<A: Allocator>(items: &[(Name, Entry<A>)], name: &Name) -> Found
    requires { AreRows items.now }
    ensures found { IfOk result.place (IsPlaceOf items.now name.now) }
    ensures absent { IfErr result.place (IsGap items.now name.now) }
    ensures compared { (digits : ℕ) → length items.now < 2 ^ digits → result.compared ≤ digits }
{
    let mut low = 0;
    let mut high = items.len();
    let mut compared = 0;
    while low < high {
        let middle = low + (high - low) / 2;
        compared += 1;
        match items[middle].0.cmp(name) {
            Ordering::Less => low = middle + 1,
            Ordering::Equal => {
                return Found {
                    place: Ok(middle),
                    compared,
                };
            }
            Ordering::Greater => high = middle,
        }
    }
    Found {
        place: Err(low),
        compared,
    }
}

/// Where the name is, or else would go.
pub(crate) fn place<A: Allocator>(items: &[(Name, Entry<A>)], name: &Name) -> Result<usize, usize>
    requires { AreRows items.now }
    ensures found { IfOk result (IsPlaceOf items.now name.now) }
    ensures absent { IfErr result (IsGap items.now name.now) }
{
    search(items, name).place
}
