// The front of a pack's index (gitformat-pack(5), "Version 2 pack-*.idx files"), and the ids of any index.
ghost use Rattle.std.specs.Prelude.{◌≡◌, ◌↔◌, ◌≤◌, ℕ, None, IsTrue, IfSome};
ghost use Rattle.eden_pack_format.specs.Indexes as spec;

use crate::table::number_at;
use eden_model::Id;
use std::marker::Model;

/// Whether a file begins as a pack's index of version 2.
pub fn is_index(front: &[u8; 8]) -> bool
    ensures { IsTrue result ↔ (front.now ≡ spec.index_magic) }
{
    *front == [0xff, b't', b'O', b'c', 0, 0, 0, 2]
}

/// How many ids there are up to each first byte.
///
/// Contracts see the bytes of the 256 counts, of which none is below the one before it.
#[derive(Drop)]
pub struct FanOut {
    counts: [u8; 1024],
}

impl Model for FanOut {
    ghost use Rattle.std.specs.Prelude.{List, ℕ};
    ghost use Rattle.eden_pack_format.specs.Indexes.{Rises};

    ghost Value = { List ℕ };

    ghost view = { λ f. f.counts };

    ghost invariant = { λ f. Rises f.counts };
}

impl FanOut {
    /// Reads the counts: `None` where one is below the one before it.
    pub fn read(counts: &[u8; 1024]) -> Option<FanOut>
        ensures read { IfSome result (λ f. f ≡ counts.now) }
        ensures refused { result ≡ None → spec.Rises counts.now → ⊥ }
    {
        for first in 0..255 {
            if number_at(counts, 4 * first + 4) < number_at(counts, 4 * first) {
                return None;
            }
        }
        Some(FanOut { counts: *counts })
    }

    /// How many ids there are.
    pub fn all(&self) -> u32
        ensures { result ≡ spec.count self.now 255 }
    {
        number_at(&self.counts, 1020)
    }

    /// The numbers of the ids with that first byte: the first of them, and the first behind them.
    pub fn range(&self, first: u8) -> (u32, u32)
        ensures low { result.0 ≡ spec.count_below self.now first }
        ensures high { result.1 ≡ spec.count self.now first }
    {
        let at = 4 * first as usize;
        let low = if first == 0 {
            0
        } else {
            number_at(&self.counts, at - 4)
        };
        (low, number_at(&self.counts, at))
    }
}

/// Where the id stands in a row of ids.
pub fn number_of(ids: &[u8], id: Id) -> Option<usize>
    ensures found { IfSome result (λ n. spec.HasId ids.now id.bytes n) }
    ensures absent { result ≡ None → (n : ℕ) → spec.HasId ids.now id.bytes n → ⊥ }
{
    for number in 0..ids.len() / 20 {
        let here = &ids[20 * number..20 * number + 20];
        if here == id.bytes.as_slice() {
            return Some(number);
        }
    }
    None
}
