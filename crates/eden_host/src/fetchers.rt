//! Who fetches the objects of a shared mount.
ghost use Rattle.std.specs.Prelude.{◌≡◌, ◌≤◌, length};

use std::marker::Model;

/// The sources that a mount's objects are fetched from, each in a thread of its own. There is at least one: a request
/// that needs an object would wait for ever if nobody fetches.
///
/// Contracts see the sources.
#[derive(Drop)]
pub struct Fetchers<S> {
    sources: Vec<S>,
}

impl<S> Model for Fetchers<S> {
    ghost use Rattle.std.specs.Prelude.{◌≤◌, List, length};

    ghost Value = { List S };

    ghost view = { λ f. f.sources.items };

    ghost invariant = { λ f. 1 ≤ length f.sources.items };
}

impl<S> Fetchers<S> {
    /// A fetcher for each source.
    pub fn new(sources: Vec<S>) -> Self
        requires some { 1 ≤ length sources.items }
        ensures { result ≡ sources.items }
    {
        Fetchers { sources }
    }

    /// Gives the sources back.
    pub fn into_sources(self) -> Vec<S>
        ensures same { result.items ≡ self }
        ensures some { 1 ≤ length result.items }
    {
        let Fetchers { sources } = self;
        sources
    }
}
