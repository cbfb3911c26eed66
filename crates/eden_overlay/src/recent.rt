//! The contents that stay in memory, and what is known of others.

ghost use Rattle.std.specs.Prelude.{◌≡◌, ◌≤◌, ◌^◌, ◌-◌, ℕ, length, min, OnOk, OnErr, IsTrue, true, false};
ghost use Rattle.std.specs.Prelude.{[], drop, position};
ghost use Rattle.eden_overlay.specs.Keeping.{Fits, HasRoomBeside, IsLast, IsLeft, is_of, kept_bytes, kept_content};
ghost use Rattle.eden_overlay.specs.Keeping.{AddsOne, is_one_of, kept_length, of_others, other_numbers};

use crate::content::Content;
use crate::room::Room;
use std::alloc::{AllocError, Global};

/// How many contents are kept at most.
const CONTENTS_MOST: usize = 8;

/// How many files are known to be whole at most.
const WHOLE_MOST: usize = 256;

/// The most room that stays of a content that went, in bytes.
const ROOM_MOST: usize = 1 << 20;

/// A content in memory, and the number of the file that holds it.
#[derive(Drop)]
pub(crate) struct Kept {
    pub(crate) number: u64,
    pub(crate) content: Content,
}

impl Kept {
    // How many bytes it is.
    fn len(&self) -> u64
        ensures { result ≡ length self.now.content }
    {
        self.content.as_slice().len() as u64
    }
}

/// The contents that were read or stored last, the one that was last used behind: whoever reads or writes a few files
/// in pieces then has each from the files once.
#[derive(Drop)]
pub(crate) struct Recent {
    pub(crate) kept: Vec<Kept>,
    /// How many bytes are kept at most, of all together where there are several.
    pub(crate) most: u64,
    /// The numbers of files that hold a content, as a read of all of it or a store showed: parts of them need no
    /// digest.
    pub(crate) whole: Vec<u64>,
    /// The room of a content that went.
    pub(crate) room: Room,
}

impl Recent {
    /// Nothing yet, and later at most eight contents, of at most so many bytes together, or one that is longer. It
    /// takes no memory.
    pub(crate) fn new(alloc: Global, most: u64) -> Recent
        ensures kept { result.kept.items ≡ [] }
        ensures whole { result.whole.items ≡ [] }
        ensures most { result.most ≡ most }
    {
        Recent {
            kept: Vec::new(alloc),
            most,
            whole: Vec::new(alloc),
            room: Room::new(ROOM_MOST),
        }
    }

    /// Takes the content of that file out, if it is kept; those of other files stay.
    pub(crate) fn take(&mut self, number: u64) -> Option<Content>
        ensures found { result ≡ kept_content number self.old.kept.items }
        ensures others { self.new.kept.items ≡ of_others number self.old.kept.items }
        ensures whole { self.new.whole ≡ self.old.whole }
        ensures most { self.new.most ≡ self.old.most }
    {
        let at = place_of(&self.kept, number)?;
        let kept = self.kept.remove(at);
        drop_of(&mut self.kept, number);
        Some(kept.content)
    }

    /// The length of the content of that file, if it is kept. It stays.
    pub(crate) fn len_of(&self, number: u64) -> Option<u64>
        ensures { result ≡ kept_length number self.now.kept.items }
    {
        let kept = self.kept.iter().find(|kept| kept.number == number)?;
        Some(kept.len())
    }

    /// Keeps the content of that file as the last one, in place of any other of the file. Those that were used longest
    /// ago go until it has room beside the others. The only error is want of memory: then it isn't kept.
    pub(crate) fn keep(&mut self, number: u64, content: Content) -> Result<(), AllocError>
        ensures kept { OnOk result (IsLast self.old.most (record { number = number; content = content })
            self.new.kept.items self.old.kept.items) }
        ensures err { OnErr result
            (IsLeft self.old.most (length content) self.new.kept.items (of_others number self.old.kept.items)) }
        ensures fits { OnOk result (Fits self.old.most self.new.kept.items) }
        ensures whole { self.new.whole ≡ self.old.whole }
        ensures most { self.new.most ≡ self.old.most }
    {
        self.let_go(number);
        let kept = Kept { number, content };
        self.make_room(kept.len());
        Ok(self.kept.push(kept)?)
    }

    /// Whether the file of that number is known to hold a content.
    pub(crate) fn is_whole(&self, number: u64) -> bool
        ensures { result ≡ is_one_of number self.now.whole.items }
    {
        self.whole.contains(&number)
    }

    /// Knows that the file of that number holds a content, if there is room to know it.
    pub(crate) fn note_whole(&mut self, number: u64)
        ensures kept { self.new.kept ≡ self.old.kept }
        ensures whole { AddsOne number self.old.whole.items self.new.whole.items }
        ensures most { self.new.most ≡ self.old.most }
    {
        if self.whole.len() >= WHOLE_MOST {
            self.whole.clear();
        }
        let _noted = self.whole.push(number);
    }

    /// Drops the content of that file, and knows nothing of it any more; what is of other files stays.
    pub(crate) fn forget(&mut self, number: u64)
        ensures kept { self.new.kept.items ≡ of_others number self.old.kept.items }
        ensures whole { self.new.whole.items ≡ other_numbers number self.old.whole.items }
        ensures most { self.new.most ≡ self.old.most }
    {
        self.let_go(number);
        drop_number(&mut self.whole, number);
    }

    // Drops the content of that file; those of other files stay.
    fn let_go(&mut self, number: u64)
        ensures kept { self.new.kept.items ≡ of_others number self.old.kept.items }
        ensures whole { self.new.whole ≡ self.old.whole }
        ensures most { self.new.most ≡ self.old.most }
    {
        if let Some(content) = self.take(number) {
            self.spare(content);
        }
    }

    // Drops contents, those that were used longest ago first, until there is room for one of that length, and no more.
    fn make_room(&mut self, len: u64)
        ensures left { IsLeft self.old.most len self.new.kept.items self.old.kept.items }
        ensures whole { self.new.whole ≡ self.old.whole }
        ensures most { self.new.most ≡ self.old.most }
    {
        for _ in 0..self.kept.len() {
            if self.has_room(len) {
                return;
            }
            self.drop_oldest();
        }
    }

    // Whether a content of that length has room beside what is kept.
    fn has_room(&self, len: u64) -> bool
        ensures room { result ≡ true → HasRoomBeside self.now.most len self.now.kept.items }
        ensures none { result ≡ false → ¬ HasRoomBeside self.now.most len self.now.kept.items }
    {
        let Some(room) = self.most.checked_sub(len) else {
            return false;
        };
        self.kept.len() < CONTENTS_MOST && are_within(&self.kept, room)
    }

    fn drop_oldest(&mut self)
        ensures kept { self.new.kept.items ≡ drop 1 self.old.kept.items }
        ensures whole { self.new.whole ≡ self.old.whole }
        ensures most { self.new.most ≡ self.old.most }
    {
        if !self.kept.is_empty() {
            let oldest = self.kept.remove(0);
            self.spare(oldest.content);
        }
    }

    /// Keeps the room of a content that is wanted no more.
    pub(crate) fn spare(&mut self, content: Content)
        ensures kept { self.new.kept ≡ self.old.kept }
        ensures whole { self.new.whole ≡ self.old.whole }
        ensures most { self.new.most ≡ self.old.most }
    {
        self.room.keep(content.into_file());
    }

    /// Room for a content that is to be stored as that file. The one that is kept of it is dropped, and so is what its
    /// room holds.
    pub(crate) fn room(&mut self, alloc: Global, number: u64) -> Vec<u8>
        ensures kept { self.new.kept.items ≡ of_others number self.old.kept.items }
        ensures whole { self.new.whole.items ≡ other_numbers number self.old.whole.items }
        ensures most { self.new.most ≡ self.old.most }
    {
        self.forget(number);
        self.room.take(alloc)
    }
}

// Where the content of that file is kept.
fn place_of(kept: &[Kept], number: u64) -> Option<usize>
    ensures { result ≡ position (is_of number) kept.now }
{
    kept.iter().position(|one| one.number == number)
}

// Drops what is kept of that file.
fn drop_of(kept: &mut Vec<Kept>, number: u64)
    ensures { kept.new.items ≡ of_others number kept.old.items }
{
    kept.retain(|one| one.number != number);
}

// Drops that number.
fn drop_number(numbers: &mut Vec<u64>, number: u64)
    ensures { numbers.new.items ≡ other_numbers number numbers.old.items }
{
    numbers.retain(|one| *one != number);
}

// Whether these have at most so many bytes together.
fn are_within(kept: &[Kept], most: u64) -> bool
    ensures within { result ≡ true → kept_bytes kept.now ≤ most }
    ensures beyond { result ≡ false → ¬ (kept_bytes kept.now ≤ most) }
{
    let mut room = most;
    for one in kept {
        match room.checked_sub(one.len()) {
            Some(rest) => room = rest,
            None => return false,
        }
    }
    true
}
