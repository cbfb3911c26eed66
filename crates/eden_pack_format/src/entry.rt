// What stands before an entry's stream in a pack (gitformat-pack(5), "pack-*.pack files have the following format").
ghost use Rattle.std.specs.Prelude.{◌≡◌, ◌≤◌, length, None, Some, MatchOption, IfSome};
ghost use Rattle.eden_pack_format.specs.Entries as spec;

use crate::number::{read_back, read_size};
use eden_model::Id;
use eden_object::Word;

/// What an entry's stream gives.
#[derive(Clone, Copy)]
pub enum EntryKind {
    /// The body of an object.
    Whole(Word),
    /// A delta of the object whose entry begins so many bytes before this one.
    Back(u64),
    /// A delta of the object of that id.
    Named(Id),
}

/// What stands before an entry's stream.
#[derive(Clone, Copy)]
pub struct EntryHead<'a> {
    pub kind: EntryKind,
    /// How many bytes the stream gives.
    pub size: u64,
    /// What is behind the head.
    pub stream: &'a [u8],
}

/// The head of the entry that the bytes begin with: `None` where they begin with none, or end in it.
pub fn read_entry_head(bytes: &[u8]) -> Option<EntryHead<'_>>
    ensures read { MatchOption result (spec.head bytes.now ≡ None)
        (λ h. spec.head bytes.now ≡ Some (h.kind, h.size, h.stream.now)) }
{
    let (first, after) = bytes.split_first()?;
    let (size, after) = read_entry_size(*first, after)?;
    let (kind, stream) = read_kind(*first / 16 % 8, after)?;
    Some(EntryHead { kind, size, stream })
}

// The first byte has the lowest four bits of the size, and the bytes behind it the others, if it says that there are
// any.
fn read_entry_size(first: u8, after: &[u8]) -> Option<(u64, &[u8])>
    ensures { MatchOption result (spec.entry_size first after.now ≡ None)
        (λ r. spec.entry_size first after.now ≡ Some (r.0, r.1.now)) }
{
    if first < 128 {
        return Some((first as u64 % 16, after));
    }
    let (high, after) = read_size(after)?;
    Some((first as u64 % 16 + 16 * high, after))
}

fn read_kind(number: u8, after: &[u8]) -> Option<(EntryKind, &[u8])>
    ensures { MatchOption result (spec.kind_of number after.now ≡ None)
        (λ r. spec.kind_of number after.now ≡ Some (r.0, r.1.now)) }
{
    match number {
        1 => Some((EntryKind::Whole(Word::Commit), after)),
        2 => Some((EntryKind::Whole(Word::Tree), after)),
        3 => Some((EntryKind::Whole(Word::Blob), after)),
        4 => Some((EntryKind::Whole(Word::Tag), after)),
        6 => {
            let (back, stream) = read_back(after)?;
            Some((EntryKind::Back(back), stream))
        }
        7 => {
            let (id, stream) = after.split_first_chunk::<20>()?;
            Some((EntryKind::Named(Id { bytes: *id }), stream))
        }
        _ => None,
    }
}
