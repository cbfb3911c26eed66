//! Sessions over no files.
use crate::lives::{Life, closed, ending};
use crate::objects::Asked;
use eden_checkout::Opening;
use eden_overlay::MemoryFiles;
use eden_stdio_life::Backing;
use std::alloc::Global;
use std::process::Abort;
use test_samples::Sample;

/// A session on the samples: its root, its lines, what it says, and the objects that it asks for, in order.
pub(crate) type Session = (Sample, &'static str, &'static str, &'static [Sample]);

/// A life of the session's lines, over no files, with such a history.
fn life(session: Session, history: Option<u32>) -> Life {
    let (root, input, said, asked) = session;
    Life {
        root,
        opening: Opening::Closed,
        history,
        input,
        said,
        asked,
    }
}

/// Whether the sessions say so, ask for these objects, and end well, with a history that is kept and one that isn't.
pub(crate) fn check(rt: &impl Abort, alloc: Global, sessions: &[Session]) {
    for session in sessions {
        for history in [Some(1_000), None] {
            closed(rt, alloc, MemoryFiles::new(alloc), &life(*session, history));
        }
    }
}

/// What a life says over other objects, or with other lines. It ends well.
pub(crate) fn said(
    rt: &impl Abort,
    alloc: Global,
    source: Asked,
    root: Sample,
    input: &str,
) -> Vec<u8> {
    let mut said = Vec::new(alloc);
    let files = MemoryFiles::new(alloc);
    let life = life((root, "", "", &[]), Some(1_000));
    let mut reader = input.as_bytes();
    let ending = ending(
        rt,
        alloc,
        Backing { files, source },
        &life,
        &mut reader,
        &mut said,
    );
    assert!(rt; ending.outcome.is_ok());
    said
}
