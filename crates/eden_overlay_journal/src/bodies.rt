// The bodies of directories that were noted last, so that what changes in one can be noted alone.
ghost use Rattle.std.specs.Prelude.{◌<◌, IfSome, length};

use std::alloc::Global;

/// So many are kept at most.
const MOST: usize = 16;

/// So many bytes of them are kept together, or one body that is longer.
const MOST_BYTES: usize = 8 << 20;

/// The body of a directory, as it was noted last.
#[derive(Drop)]
struct Body {
    number: u64,
    bytes: Vec<u8>,
}

/// The bodies, the one that was noted last behind.
#[derive(Drop)]
pub(crate) struct Bodies {
    kept: Vec<Body>,
}

impl Bodies {
    // None yet.
    pub(crate) fn new(alloc: Global) -> Bodies {
        Bodies {
            kept: Vec::new(alloc),
        }
    }

    // The body of that number, if it is kept.
    pub(crate) fn get(&self, number: u64) -> Option<&[u8]> {
        let at = self.place_of(number)?;
        Some(self.kept[at].bytes.as_slice())
    }

    // Keeps that body in place of any other of the number, if there is memory for it. The oldest ones go for it.
    pub(crate) fn keep(&mut self, alloc: Global, number: u64, body: &[u8]) {
        let mut bytes = self.room_for(alloc, number);
        self.make_room(body.len());
        bytes.clear();
        if bytes.extend_from_slice(body).is_ok() {
            // It is dropped where there is no memory for its place.
            let _ = self.kept.push(Body { number, bytes });
        }
    }

    // Keeps none of that number.
    pub(crate) fn forget(&mut self, number: u64) {
        if let Some(at) = self.place_of(number) {
            self.kept.remove(at);
        }
    }

    // Keeps none.
    pub(crate) fn clear(&mut self) {
        self.kept.clear();
    }

    // The room of the body of that number, which goes; else it is new and takes no memory yet.
    fn room_for(&mut self, alloc: Global, number: u64) -> Vec<u8> {
        match self.place_of(number) {
            Some(at) => {
                let Body { bytes, .. } = self.kept.remove(at);
                bytes
            }
            None => Vec::new(alloc),
        }
    }

    // Drops the oldest ones until there is room for one more of that length.
    fn make_room(&mut self, len: usize) {
        for _ in 0..MOST {
            let is_enough = self.kept.len() < MOST
                && self.bytes_kept().saturating_add(len) <= MOST_BYTES;
            if is_enough || self.kept.is_empty() {
                break;
            }
            self.kept.remove(0);
        }
    }

    // How many bytes are kept.
    fn bytes_kept(&self) -> usize {
        self.kept
            .iter()
            .fold(0, |sum: usize, body| sum.saturating_add(body.bytes.len()))
    }

    fn place_of(&self, number: u64) -> Option<usize>
        ensures { IfSome result (λ at. at < length self.now.kept.items) }
    {
        self.kept.iter().position(|body| body.number == number)
    }
}
