ghost use Rattle.std.specs.Prelude.{◌≡◌, ◌↔◌, IsSome, IfSome};
ghost use Rattle.eden_mount.specs.Settings.{InLimits};

use eden_cache::are_bounds;
use eden_import::are_counts;
use std::marker::Model;

/// What a mount is opened with, each within its limits. Contracts see the six numbers.
#[derive(Debug, Drop)]
pub struct Config {
    passes: u32,
    flights: u32,
    history: u32,
    cache_entries: usize,
    cache_bytes: u64,
    cache_sizes: usize,
}

impl Model for Config {
    ghost use Rattle.eden_mount.specs.Settings.{Settings, InLimits, settings_from};

    ghost Value = { Settings };

    ghost view = { λ c. settings_from c.passes c.flights c.history c.cache_entries c.cache_bytes c.cache_sizes };

    ghost invariant = { λ c.
        InLimits (settings_from c.passes c.flights c.history c.cache_entries c.cache_bytes c.cache_sizes) };
}

impl Config {
    ghost use Rattle.eden_mount.specs.Settings.{settings_from};

    /// How many passes and objects in flight there may be, 1 to 64 each; how long the history may become, at least 1;
    /// how many objects are cached, 1 to 65,536, of how many bytes together, 1 to 2^40; and how many sizes, 1 to
    /// 65,536.
    ///
    /// None exactly if one of them is outside its limits.
    pub fn new(
        passes: u32,
        flights: u32,
        history: u32,
        cache_entries: usize,
        cache_bytes: u64,
        cache_sizes: usize,
    ) -> Option<Config>
        ensures limits { IsSome result
            ↔ InLimits (settings_from passes flights history cache_entries cache_bytes cache_sizes) }
        ensures value { IfSome result
            (λ c. c ≡ settings_from passes flights history cache_entries cache_bytes cache_sizes) }
    {
        let within = are_counts(passes, flights)
            && 1 <= history
            && are_bounds(cache_entries, cache_bytes, cache_sizes);
        if !within {
            return None;
        }
        Some(Config {
            passes,
            flights,
            history,
            cache_entries,
            cache_bytes,
            cache_sizes,
        })
    }

    /// What holds of every one.
    pub fn holds(&self)
        ensures { InLimits self.now }
    {
        let _ = &self.passes;
    }

    /// How many passes.
    pub fn passes(&self) -> u32
        ensures { result ≡ self.now.passes }
    {
        self.passes
    }

    /// How many objects in flight.
    pub fn flights(&self) -> u32
        ensures { result ≡ self.now.flights }
    {
        self.flights
    }

    /// How long a history.
    pub fn history(&self) -> u32
        ensures { result ≡ self.now.history }
    {
        self.history
    }

    /// How many cached objects.
    pub fn cache_entries(&self) -> usize
        ensures { result ≡ self.now.cache_entries }
    {
        self.cache_entries
    }

    /// How many bytes of cached objects together.
    pub fn cache_bytes(&self) -> u64
        ensures { result ≡ self.now.cache_bytes }
    {
        self.cache_bytes
    }

    /// How many cached sizes.
    pub fn cache_sizes(&self) -> usize
        ensures { result ≡ self.now.cache_sizes }
    {
        self.cache_sizes
    }
}
