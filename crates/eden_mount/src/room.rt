ghost use Rattle.std.specs.Prelude.{◌≡◌, IfOk};
ghost use Rattle.eden_mount.specs.Settings.{room_for};

use crate::config::Config;
use crate::seats::{Pending, free};
use eden_import::Imports;
use std::alloc::{AllocError, Allocator, Global};
use std::marker::Model;

/// What a mount needs before its table is there: queue and seats, in which nothing has happened.
///
/// It is made first, so that nothing can be refused any more once a table is opened.
#[derive(Drop)]
pub struct Room<A: Allocator> {
    pub(crate) alloc: Global,
    pub(crate) imports: Imports<A>,
    pub(crate) seats: Vec<Option<Pending>>,
}

impl<A: Allocator> Model for Room<A> {
    ghost use Rattle.eden_mount.specs.Settings.{Room, IsRoom, room_from};

    ghost Value = { Room };

    ghost view = { λ r. room_from r.imports r.seats.items };

    ghost invariant = { λ r. IsRoom (room_from r.imports r.seats.items) };
}

impl<A: Allocator> Room<A> {
    /// Room for a mount of these settings. The only error is want of memory.
    pub fn new(alloc: Global, keys: A, config: &Config) -> Result<Self, AllocError>
    where
        A: Clone,
        ensures { IfOk result (λ r. r ≡ room_for config.now) }
    {
        config.holds();
        let imports = Imports::new(keys, config.passes(), config.flights())?;
        let seats = free(alloc, config.passes())?;
        Ok(Room {
            alloc,
            imports,
            seats,
        })
    }
}
