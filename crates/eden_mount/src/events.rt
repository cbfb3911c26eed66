use eden_model::{Bytes, Cause, Key, Path, Reply, Request, StartFault};

/// What a turn answers.
#[derive(Drop)]
pub enum Turned {
    /// The request is finished: its entry's number in the history, from 1 on, and the reply.
    Done(u64, Reply),
    /// The request waits for this object.
    Wait(Key),
    /// Nothing is pending, or there is no such pass.
    Idle,
}

/// What an arrival answers.
#[derive(Clone, Copy, Debug, PartialEq, Eq)]
pub enum Arrived {
    /// The cache has the object.
    Stored,
    /// The bytes are no use, and the key has failed.
    Refused(Cause),
    /// The key isn't in flight, and nothing has changed.
    Stray,
}

/// One atomic step of a mount.
#[derive(Drop)]
pub enum Event {
    /// A pass asks a request.
    Start(u32, Request),
    /// A pass continues with its request.
    Turn(u32),
    /// Somebody takes a key to fetch.
    Take,
    /// Framed bytes come for a key.
    Arrive(Key, Bytes),
    /// A key is unavailable.
    Fail(Key, Cause),
    /// Loaded directories go: at and below the path, not used for this many turns.
    Unload(Path, u64),
    /// Somebody waits until a loss of power would take nothing of what is stored.
    Sync,
}

/// What an event answers.
#[derive(Drop)]
pub enum Outcome {
    Start(Result<(), StartFault>),
    Turn(Turned),
    Take(Option<Key>),
    Arrive(Arrived),
    Fail(bool),
    Unload(u64),
    Sync(bool),
}
