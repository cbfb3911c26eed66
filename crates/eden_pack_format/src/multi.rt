// A multi-pack index (gitformat-pack(5), "multi-pack-index (MIDX) files have the following format").
ghost use Rattle.std.specs.Prelude.{◌≡◌, ◌≢◌, ◌≤◌, ◌+◌, ◌*◌, ℕ, List, None, MatchOption, IfSome, All, length};
ghost use Rattle.eden_pack_format.specs.Indexes as tables;
ghost use Rattle.eden_pack_format.specs.MultiPack as spec;

use crate::table::{Place, long_at, number_at, place_of};

/// How many chunks and packs a multi-pack index says that it has.
#[derive(Clone, Copy)]
pub struct MultiFront {
    pub chunks: u8,
    pub packs: u32,
}

/// Where a chunk lies in its file: from where on, and to where.
#[derive(Clone, Copy)]
pub struct Chunk {
    pub begin: u64,
    pub end: u64,
}

/// What a multi-pack index says of an object: the number of its pack, and where it begins there.
#[derive(Clone, Copy)]
pub struct MultiPlace {
    pub pack: u32,
    pub place: Place,
}

/// The front of a multi-pack index: `None` where it isn't of version 1, its ids aren't SHA-1, or it goes on from other
/// files.
pub fn read_multi_front(front: &[u8; 12]) -> Option<MultiFront>
    ensures { MatchOption result ((chunks packs : ℕ) → spec.IsFront front.now chunks packs → ⊥)
        (λ f. spec.IsFront front.now f.chunks f.packs) }
{
    let kind = &front[..6];
    if kind != b"MIDX\x01\x01".as_slice() || front[7] != 0 {
        return None;
    }
    Some(MultiFront {
        chunks: front[6],
        packs: number_at(front, 8),
    })
}

/// The chunk of that name, by the table of chunks, whose last row has none: `None` where no row has the name and ends
/// behind its beginning.
pub fn find_chunk(table: &[u8], name: [u8; 4]) -> Option<Chunk>
    ensures found { IfSome result (λ c. spec.IsChunk table.now name c.begin c.end) }
    ensures absent { result ≡ None → (begin end : ℕ) → spec.IsChunk table.now name begin end → ⊥ }
{
    for next in 1..table.len() / 12 {
        if let Some(chunk) = chunk_of(table, next - 1, name) {
            return Some(chunk);
        }
    }
    None
}

// The chunk of the row of that number, if it has that name.
fn chunk_of(table: &[u8], row: usize, name: [u8; 4]) -> Option<Chunk>
    requires { 12 * row + 24 ≤ length table.now }
    ensures found { IfSome result (λ c. spec.IsChunkOf table.now name row c.begin c.end) }
    ensures absent { result ≡ None → (begin end : ℕ) → spec.IsChunkOf table.now name row begin end → ⊥ }
{
    let named = &table[12 * row..12 * row + 4];
    if named != name.as_slice() {
        return None;
    }
    let begin = long_at(table, 12 * row + 4);
    let end = long_at(table, 12 * row + 16);
    if end < begin {
        return None;
    }
    Some(Chunk { begin, end })
}

/// A row of the table of places; whether there is a table of long ones.
pub fn read_multi_place(row: &[u8; 8], has_long: bool) -> MultiPlace
    ensures pack { result.pack ≡ tables.number_at row.now 0 }
    ensures place { result.place ≡ tables.place_of has_long (tables.number_at row.now 4) }
{
    MultiPlace {
        pack: number_at(row, 0),
        place: place_of(number_at(row, 4), has_long),
    }
}

/// The first of the packs' names, and what is behind it: `None` where none ends in what is there.
pub fn split_name(names: &[u8]) -> Option<(&[u8], &[u8])>
    ensures split { IfSome result (λ r. spec.IsSplit names.now r.0.now r.1.now) }
    ensures none { result ≡ None → All (λ byte. byte ≢ 0) names.now }
{
    for end in 0..names.len() {
        if names[end] == 0 {
            return Some((&names[..end], &names[end + 1..]));
        }
    }
    None
}
