//! What outlives a mount.
use crate::teller::Teller;
use eden_model::{Id, Outside};
use eden_object::{ObjKind, check, decode_blob};
use eden_source::MemorySource;
use eden_wire::Scratch;
use std::alloc::{AllocError, Global};
use std::io::Stdout;

/// The allocator, who tells, and the objects that are there to be fetched.
#[derive(Drop)]
pub struct Stage {
    pub alloc: Global,
    pub teller: Teller,
    pub source: MemorySource<Outside>,
}

impl Stage {
    pub fn new(alloc: Global, out: Stdout) -> Option<Stage> {
        let scratch = match Scratch::new(alloc) {
            Ok(scratch) => scratch,
            Err(_) => Scratch::new(alloc).ok()?,
        };
        Some(Stage {
            alloc,
            teller: Teller::new(out, scratch),
            source: MemorySource::new(alloc),
        })
    }

    /// The bytes of a text of digits.
    pub fn bytes(&self, text: &[u8]) -> Option<Vec<u8>> {
        match hex::decode(self.alloc, text) {
            Ok(bytes) => Some(bytes),
            Err(_) => hex::decode(self.alloc, text).ok(),
        }
    }

    /// The framed object is looked at, and can be fetched from now on. False if memory is refused twice.
    pub fn keep(&mut self, id: Id, framed: Vec<u8>) -> bool {
        self.look(id, framed.as_slice());
        self.insert(id, framed.as_slice()).is_ok() || self.insert(id, framed.as_slice()).is_ok()
    }

    /// What is told of an object that came.
    fn look(&mut self, id: Id, framed: &[u8]) {
        self.teller.begin("object");
        let is_tree = check(id, ObjKind::Tree, framed).is_ok();
        let is_blob = check(id, ObjKind::Blob, framed).is_ok();
        let has_content = decode_blob(framed).is_some();
        self.teller.end(match (is_tree, is_blob, has_content) {
            (true, false, false) => "tree",
            (false, true, true) => "blob",
            _ => "neither",
        });
    }

    fn insert(&mut self, id: Id, framed: &[u8]) -> Result<(), AllocError> {
        let framed = Vec::from_slice(self.alloc, framed)?;
        self.source.insert(id, framed)
    }
}
