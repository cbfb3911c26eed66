// The ties of the passes: one end lies under the lock, and the other in the pass.
ghost use Rattle.std.specs.Prelude.{◌≡◌, Some, slice_get, slice_set};
ghost use Rattle.eden_shared.specs.Lanes.{names_of, values_of};

use crate::account::Account;
use crate::ends::{Begins, Far, Near, Turns, turn};
use eden_history::History;
use eden_model::{Reply, Request, World};
use eden_mount::{Attempts, Mount};
use std::alloc::Allocator;
use std::snapshot::Snapshot;

/// The end of a tie that lies under the lock. The byte is there since a row of values without bytes gets no proof.
#[derive(Drop)]
pub struct Lane {
    pub near: Near<Account>,
    pub mark: u8,
}

/// An account of a pass of no mount yet.
pub(crate) struct Fresh;

impl Begins<(), Account> for Fresh {
    ghost use Rattle.std.specs.Prelude.{None, []};
    ghost use Rattle.eden_shared.specs.Accounts.{account};
    ghost use Rattle.eden_shared.specs.Terms.{no_terms};

    ghost value = { λ _. account no_terms None [] };
}

/// An account of a pass of this mount, which was told nothing.
pub(crate) struct Opens;

impl<W: World, T: Attempts<W> + Drop, A: Allocator, H: History> Turns<Mount<W, T, A, H>, Account>
    for Opens {
    ghost use Rattle.std.specs.Prelude.{None, []};
    ghost use Rattle.eden_shared.specs.Accounts.{account};
    ghost use Rattle.eden_shared.specs.Terms.{terms_of};

    ghost after = { λ m a. account (terms_of T.table m) None [] };
}

/// The account stays.
pub(crate) struct Same;

impl Turns<(), Account> for Same {
    ghost after = { λ _ a. a };
}

/// A request that was started, which only contracts see, and how long the history was then.
#[derive(Drop)]
pub(crate) struct Begun {
    pub(crate) request: Snapshot<Request>,
    pub(crate) since: u64,
}

/// A request is pending.
pub(crate) struct Starts;

impl Turns<Begun, Account> for Starts {
    ghost use Rattle.std.specs.Prelude.{Some};
    ghost use Rattle.eden_shared.specs.Accounts.{account, pended};

    ghost after = { λ b a. account a.terms (Some (pended b.request.value b.since)) a.told };
}

/// A reply, and its entry's number.
#[derive(Drop)]
pub struct Answered {
    pub number: u64,
    pub reply: Reply,
}

/// The pending request was answered.
pub(crate) struct Finishes;

impl Turns<Answered, Account> for Finishes {
    ghost use Rattle.eden_shared.specs.Answers.{after_answer};

    ghost after = { after_answer };
}

/// Both ends of a lane had one account, and have the next one.
pub(crate) fn change<X, M: Turns<X, Account>>(
    lanes: &mut Vec<Lane>,
    at: usize,
    end: &mut Far<Account>,
    about: &X,
)
    requires { slice_get (names_of lanes.old.items) at ≡ Some end.old.name }
    ensures lane { slice_get (values_of lanes.old.items) at ≡ Some end.old.value }
    ensures names { names_of lanes.new.items ≡ names_of lanes.old.items }
    ensures values { values_of lanes.new.items ≡ slice_set (values_of lanes.old.items) at
        (M.after about.now end.old.value) }
    ensures end { (end.new.name ≡ end.old.name) × (end.new.value ≡ M.after about.now end.old.value) }
{
    let lane = &mut lanes[at];
    turn::<X, Account, M>(&mut lane.near, end, about);
}

/// Both ends of a lane have one account, and stay.
pub(crate) fn look(lanes: &mut Vec<Lane>, at: usize, end: &mut Far<Account>)
    requires { slice_get (names_of lanes.old.items) at ≡ Some end.old.name }
    ensures lane { slice_get (values_of lanes.old.items) at ≡ Some end.old.value }
    ensures names { names_of lanes.new.items ≡ names_of lanes.old.items }
    ensures values { values_of lanes.new.items ≡ values_of lanes.old.items }
    ensures end { (end.new.name ≡ end.old.name) × (end.new.value ≡ end.old.value) }
{
    change::<(), Same>(lanes, at, end, &());
}
