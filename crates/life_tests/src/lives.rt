//! One life of a mount, over files that are there and the objects of the sample commits.
use crate::objects::{Asked, asked_for, samples};
use eden_checkout::Opening;
use eden_history::{Counted, Kept};
use eden_model::Outside;
use eden_mount::Config;
use eden_overlay::{Files, FilesFault, MemoryFiles};
use eden_stdio_life::{Backing, Base, Ending, LifeFault, live};
use std::alloc::Global;
use std::io::{Read, Write};
use std::process::Abort;
use test_samples::Sample;

pub(crate) type Stored = MemoryFiles<Outside>;

/// What a mount is given, what it says, and which objects it asks for, in order.
#[derive(Clone, Copy)]
pub(crate) struct Life {
    pub(crate) root: Sample,
    pub(crate) opening: Opening,
    /// How many entries the history may have; none if it only counts them.
    pub(crate) history: Option<u32>,
    pub(crate) input: &'static str,
    pub(crate) said: &'static str,
    pub(crate) asked: &'static [Sample],
}

/// How a mount over these files and objects ends, with this reader and writer.
pub(crate) fn ending<F: Files<Outside>, R: Read, O: Write>(
    rt: &impl Abort,
    alloc: Global,
    backing: Backing<F, Asked>,
    life: &Life,
    reader: &mut R,
    writer: &mut O,
) -> Ending<F, Asked> {
    let most = life.history.unwrap_or(1);
    let config = Config::new(1, 16, most, 64, 1 << 20, 64).expect(rt, "settings");
    let base = Base {
        root: life.root.id,
        opening: life.opening,
    };
    match life.history {
        Some(limit) => live::<Outside, Asked, Global, F, Kept, R, O>(
            alloc,
            alloc,
            Kept::new(alloc, limit),
            backing,
            base,
            &config,
            reader,
            writer,
        ),
        None => live::<Outside, Asked, Global, F, Counted, R, O>(
            alloc,
            alloc,
            Counted::new(alloc),
            backing,
            base,
            &config,
            reader,
            writer,
        ),
    }
}

/// Those files, and the samples.
pub(crate) fn over<F>(rt: &impl Abort, alloc: Global, files: F) -> Backing<F, Asked> {
    let source = samples(alloc).expect(rt, "memory");
    Backing { files, source }
}

/// The first fault of a life, and why the files weren't closed.
#[derive(Clone, Copy)]
pub(crate) struct Fate {
    pub(crate) outcome: Result<(), LifeFault>,
    pub(crate) unclosed: Option<FilesFault>,
}

const WELL: Fate = Fate {
    outcome: Ok(()),
    unclosed: None,
};

/// Checks how a life ended and what it asked for, and gives its files.
pub(crate) fn left<F: Drop>(
    rt: &impl Abort,
    ending: Ending<F, Asked>,
    life: &Life,
    fate: Fate,
) -> F {
    let Ending {
        backing,
        unclosed,
        outcome,
    } = ending;
    assert_eq!(rt; outcome, fate.outcome, "{}", life.input);
    assert_eq!(rt; unclosed, fate.unclosed, "{}", life.input);
    let Backing { files, source } = backing;
    assert!(rt; asked_for(&source, life.asked), "{}", life.input);
    files
}

/// Lives with this reader and that fate, and gives the files.
pub(crate) fn lived<F: Files<Outside>, R: Read>(
    rt: &impl Abort,
    alloc: Global,
    files: F,
    life: &Life,
    reader: &mut R,
    fate: Fate,
) -> F {
    let mut said = Vec::new(alloc);
    let backing = over(rt, alloc, files);
    let ending = ending(rt, alloc, backing, life, reader, &mut said);
    assert!(rt; said.as_slice() == life.said.as_bytes(), "{}", life.input);
    left(rt, ending, life, fate)
}

/// Lives to a good end, and gives the closed files.
pub(crate) fn closed(rt: &impl Abort, alloc: Global, files: Stored, life: &Life) -> Stored {
    let mut reader = life.input.as_bytes();
    lived(rt, alloc, files, life, &mut reader, WELL)
}

/// A file's number, and its size in bytes.
pub(crate) type Sizes = &'static [(u64, usize)];

/// Whether these files are there, each of that size, and no other.
pub(crate) fn are_there(alloc: Global, files: &mut Stored, sizes: Sizes) -> bool {
    for (number, size) in sizes {
        match files.read(alloc, *number) {
            Ok(Some(file)) if file.len() == *size => {}
            _ => return false,
        }
    }
    matches!(files.list(alloc), Ok(numbers) if numbers.len() == sizes.len())
}
