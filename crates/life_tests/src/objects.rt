//! The objects of the sample commits, in a source that keeps what it was asked for.
use eden_model::{Cause, Id, Outside};
use eden_source::{MemorySource, Source};
use std::alloc::{AllocError, Global};
use test_samples::{
    EMPTY_TREE, NEW_FILE, ONE_FILE, ONE_MODULE, Sample, TWO_FILES, VERSION_1, VERSION_2,
};

/// Objects in memory that keep which ids they were asked for.
#[derive(Drop)]
pub(crate) struct Asked {
    objects: MemorySource<Outside>,
    ids: Vec<Id>,
}

impl Source<Outside> for Asked {
    ghost fetched = { λ _ _ _ _. Unit {0} };

    ghost failures = { λ _. 0 };

    fn failures(&self) -> u64 {
        0
    }

    fn fetch(&mut self, alloc: Global, id: Id) -> Result<Vec<u8>, Cause> {
        match self.ids.push(id) {
            Ok(()) => self.objects.fetch(alloc, id),
            Err(_) => Err(Cause::Memory),
        }
    }
}

pub(crate) fn no_objects(alloc: Global) -> Asked {
    Asked {
        objects: MemorySource::new(alloc),
        ids: Vec::new(alloc),
    }
}

/// Puts bytes under an id, whatever they are.
pub(crate) fn put(
    objects: &mut Asked,
    alloc: Global,
    id: Id,
    framed: &[u8],
) -> Result<(), AllocError> {
    let framed = Vec::from_slice(alloc, framed)?;
    objects.objects.insert(id, framed)
}

/// `TWO_FILES` has the directory `bak`, which is `ONE_FILE`.
const SAMPLES: &[Sample] = &[
    VERSION_1, VERSION_2, NEW_FILE, EMPTY_TREE, ONE_FILE, TWO_FILES, ONE_MODULE,
];

/// All of them.
pub(crate) fn samples(alloc: Global) -> Result<Asked, AllocError> {
    let mut objects = no_objects(alloc);
    for sample in SAMPLES {
        put(&mut objects, alloc, sample.id, sample.framed)?;
    }
    Ok(objects)
}

/// Whether just these objects were asked for, in order.
pub(crate) fn asked_for(source: &Asked, samples: &[Sample]) -> bool {
    for (id, sample) in source.ids.iter().zip(samples) {
        if *id != sample.id {
            return false;
        }
    }
    source.ids.len() == samples.len()
}
