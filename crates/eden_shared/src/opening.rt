ghost use Rattle.std.specs.Prelude.{◌≡◌, ◌≤◌, length, map, IfOk, IfErr};
ghost use Rattle.eden_shared.specs.declared.opening.End as declared;
ghost use Rattle.eden_shared.specs.Lanes.{names_of};
ghost use Rattle.eden_shared.specs.Opening.{AreOpened, AreTied, IsUnused};
ghost use Rattle.eden_shared.specs.Passes.{newcomers};
ghost use Rattle.eden_shared.specs.Terms.{terms_of};

use crate::account::{Account, Naming};
use crate::ends::{Far, tie};
use crate::lanes::{Fresh, Lane, Opens, change};
use crate::locked::Locked;
use crate::pass::Pass;
use crate::shared::Shared;
use eden_history::History;
use eden_model::World;
use eden_mount::{Attempts, Mount};
use std::alloc::{AllocError, Allocator, Global};
use std::marker::PhantomData;
use std::sync::{Condvar, Mutex};

/// The end of a tie that a pass is to have. The byte is there as a lane's is.
#[derive(Drop)]
pub struct End {
    pub far: Far<Account>,
    pub mark: u8,
}

/// New ties, one for each pass of a mount that is to be shared. They are made first, since `Shared::open` stands in a
/// function that is generic over their names.
#[derive(Drop)]
pub struct Ties {
    pub lanes: Vec<Lane>,
    pub ends: Vec<End>,
}

impl Ties {
    /// Ties for this many passes. The only error is want of memory.
    pub fn new(alloc: Global, passes: u32) -> Result<Ties, AllocError>
        ensures { IfOk result (λ t. AreTied t.lanes.items t.ends.items passes) }
    {
        let mut lanes = Vec::new(alloc);
        let mut ends = Vec::new(alloc);
        for _pass in 0..passes {
            let (near, far) = tie::<(), Account, Fresh>(&());
            lanes.push(Lane { near, mark: 0 })?;
            ends.push(End { far, mark: 0 })?;
        }
        Ok(Ties { lanes, ends })
    }
}

/// The passes of these ends, in order, which hold what the mount is opened with. The only error is want of memory.
fn hand_out<W: World, T: Attempts<W> + Drop, A: Allocator, J: Naming, H: History>(
    alloc: Global,
    mount: &Mount<W, T, A, H>,
    lanes: &mut Vec<Lane>,
    ends: Vec<End>,
) -> Result<Vec<Pass<J>>, AllocError>
    requires names { map (λ (e : declared.End). e.far.name) ends.items ≡ J.names }
    requires tied { names_of lanes.old.items ≡ J.names }
    requires few { length J.names ≤ 64 }
    ensures names { names_of lanes.new.items ≡ names_of lanes.old.items }
    ensures opened { IfOk result (λ v. AreOpened (terms_of T.table mount.now) lanes.new.items (length v.items)) }
    ensures passes { IfOk result (λ v. v.items ≡ newcomers (terms_of T.table mount.now) 1 (length J.names)) }
{
    let mut passes = Vec::new(alloc);
    for end in ends {
        let place = passes.len();
        let mut far = end.far;
        change::<Mount<W, T, A, H>, Opens>(lanes, place, &mut far, mount);
        passes.push(Pass {
            number: place as u32 + 1,
            known: 0,
            end: far,
            names: PhantomData,
        })?;
    }
    Ok(passes)
}

impl<W: World, T: Attempts<W> + Drop, A: Allocator, J: Naming, H: History> Shared<W, T, A, J, H> {
    /// Shares a mount in which nothing has happened, with a pass for each that it was opened with, numbered from 1 on.
    /// The only error is want of memory, and the mount comes back.
    pub fn open(
        alloc: Global,
        mount: Mount<W, T, A, H>,
        ties: Ties,
    ) -> Result<(Shared<W, T, A, J, H>, Vec<Pass<J>>), (AllocError, Mount<W, T, A, H>)>
        requires unused { IsUnused mount }
        requires ties { AreTied ties.lanes.items ties.ends.items mount.queue.passes }
        requires names { names_of ties.lanes.items ≡ J.names }
        ensures count { length J.names ≡ mount.queue.passes }
        ensures passes { IfOk result (λ s. s.1.items ≡ newcomers (terms_of T.table mount) 1 mount.queue.passes) }
        ensures err { IfErr result (λ e. e.1 ≡ mount) }
    {
        mount.holds();
        let Ties { mut lanes, ends } = ties;
        let passes = match hand_out::<W, T, A, J, H>(alloc, &mount, &mut lanes, ends) {
            Ok(passes) => passes,
            Err(error) => return Err((error, mount)),
        };
        let locked = Locked {
            mount,
            stopped: false,
            lanes,
            names: PhantomData,
        };
        let shared = Shared {
            alloc,
            lock: Mutex::new(locked),
            callers: Condvar::new(),
            fetchers: Condvar::new(),
        };
        Ok((shared, passes))
    }
}
