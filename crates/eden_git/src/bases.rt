// Bodies of objects that others are deltas of, kept for the next of these.
ghost use Rattle.std.specs.Prelude.{◌≡◌, ◌≤◌};

use eden_object::Word;
use std::alloc::Global;
use std::collections::VecDeque;

/// How many bytes are kept.
const BYTES_MOST: usize = 16 << 20;

/// How many bodies are kept.
const BODIES_MOST: usize = 256;

/// The object that begins at that place of the pack of that number.
#[derive(Drop)]
pub(crate) struct Base {
    pub(crate) pack: u64,
    pub(crate) at: u64,
    pub(crate) word: Word,
    pub(crate) body: Vec<u8>,
    /// Whether another object is known to be a delta of it.
    pub(crate) is_base: bool,
}

/// The last bodies, the oldest first, within both bounds.
#[derive(Drop)]
pub(crate) struct Bases {
    kept: VecDeque<Base>,
    bytes: usize,
}

impl Bases {
    pub(crate) fn new(alloc: Global) -> Self {
        Bases {
            kept: VecDeque::new(alloc),
            bytes: 0,
        }
    }

    /// Takes the object out, if it is kept.
    pub(crate) fn take(&mut self, pack: u64, at: u64) -> Option<Base> {
        let index = self
            .kept
            .iter()
            .position(|base| base.at == at && base.pack == pack)?;
        let base = self.kept.remove(index)?;
        self.bytes = self.bytes.saturating_sub(base.body.len());
        Some(base)
    }

    /// Keeps the object, and drops the oldest ones that have no room beside it. It isn't kept where it alone has none,
    /// or where there is no memory.
    pub(crate) fn keep(&mut self, mut base: Base) {
        let size = base.body.len();
        if size > BYTES_MOST {
            return;
        }
        for _ in 0..=BODIES_MOST {
            if self.kept.len() < BODIES_MOST && self.bytes <= BYTES_MOST - size {
                break;
            }
            self.drop_oldest();
        }
        base.is_base = true;
        if self.kept.push_back(base).is_ok() {
            self.bytes = self.bytes.saturating_add(size);
        }
    }

    fn drop_oldest(&mut self) {
        match self.kept.pop_front() {
            Some(base) => self.bytes = self.bytes.saturating_sub(base.body.len()),
            None => self.bytes = 0,
        }
    }
}
