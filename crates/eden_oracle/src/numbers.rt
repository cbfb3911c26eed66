ghost use Rattle.std.specs.Prelude.{◌≡◌, ◌≤◌, ◌↔◌, ℕ, IfOk, IfSome, None, Some, true, false, IsTrue};
ghost use Rattle.std.specs.Option.{option_map};
ghost use Rattle.eden_model.specs.Numbers.{Allows, AllowsStat, IsNumber, after_numbers, edited};
ghost use Rattle.eden_model.specs.Numbers.{opening_numbers, renumbered, stat_number, with_stat};
ghost use Rattle.eden_model.specs.Operations.{put};
ghost use Rattle.eden_oracle.specs.Numbers.{Fills, IsLeast, LeavesNumbers, Picks};
ghost use Rattle.eden_oracle.specs.Numbers.{is_among, is_spent, numbers_of, root_alone};
ghost use Rattle.eden_oracle.specs.Rows.{tree_of};

use crate::change::{moved, remove, replace};
use crate::place::{Place, copied_rows, joined};
use crate::walk::find;
use eden_model::{NUMBER_END, Name, Path, Reply, Request};
use std::alloc::{AllocError, Global};
use std::marker::Model;

/// The number of the root.
const ROOT: u64 = 1;

/// The least number of what isn't the root.
const LEAST: u64 = 2;

/// The inode numbers beside a tree's rows: those that replies gave, by path, and those that are spent.
#[derive(Drop)]
pub(crate) struct Numbers {
    given: Vec<(Place, u64)>,
    /// All below it are spent.
    next: u64,
    spent: Vec<u64>,
}

impl Model for Numbers {
    ghost use Rattle.eden_oracle.specs.Numbers.{Kept};

    ghost Value = { Kept };

    ghost view = { λ n. record { given = n.given.items; next = n.next; spent = n.spent.items } };
}

fn is_among(numbers: &[u64], number: u64) -> bool
    ensures { result ≡ is_among numbers.now number }
{
    for other in numbers {
        if number == *other {
            return true;
        }
    }
    false
}

/// The numbers once the request is done.
fn edited(
    alloc: Global,
    given: &[(Place, u64)],
    request: &Request,
) -> Result<Vec<(Place, u64)>, AllocError>
    ensures { IfOk result (λ all. tree_of all.items ≡ edited request.now (tree_of given.now)) }
{
    match request {
        Request::Unlink(path) | Request::Rmdir(path) => without(alloc, given, path.as_slice()),
        Request::Rename(from, to) => {
            if from.as_slice() == to.as_slice() {
                return copied_rows(alloc, given);
            }
            moved(alloc, given, from.as_slice(), to.as_slice())
        }
        Request::Kind(_)
        | Request::Stat(_)
        | Request::Read(_, _, _)
        | Request::ReadLink(_)
        | Request::List(_, _, _)
        | Request::Write(_, _, _)
        | Request::Patch(_, _, _)
        | Request::Truncate(_, _)
        | Request::Create(_)
        | Request::SetExec(_, _)
        | Request::Mkdir(_)
        | Request::Symlink(_, _) => copied_rows(alloc, given),
    }
}

/// Whether a request leaves all numbers, whatever it is answered.
pub(crate) fn leaves_numbers(request: &Request) -> bool
    ensures { IsTrue result → LeavesNumbers request.now }
{
    match request {
        Request::Kind(_)
        | Request::Read(_, _, _)
        | Request::ReadLink(_)
        | Request::List(_, _, _)
        | Request::Write(_, _, _)
        | Request::Patch(_, _, _)
        | Request::Truncate(_, _)
        | Request::Create(_)
        | Request::SetExec(_, _)
        | Request::Mkdir(_)
        | Request::Symlink(_, _) => true,
        Request::Stat(_) | Request::Unlink(_) | Request::Rmdir(_) | Request::Rename(_, _) => false,
    }
}

/// The numbers without that of the path.
fn without(
    alloc: Global,
    given: &[(Place, u64)],
    path: &[Name],
) -> Result<Vec<(Place, u64)>, AllocError>
    ensures { IfOk result (λ all. tree_of all.items ≡ put (tree_of given.now) path.now None) }
{
    let mut all = copied_rows(alloc, given)?;
    remove(&mut all, path);
    Ok(all)
}

/// The numbers after a request and its reply: an error or a fault leaves them.
fn renumbered(
    alloc: Global,
    given: &[(Place, u64)],
    request: &Request,
    reply: &Reply,
) -> Result<Vec<(Place, u64)>, AllocError>
    ensures { IfOk result (λ all. tree_of all.items ≡ renumbered request.now reply.now (tree_of given.now)) }
{
    match reply {
        Reply::Err(_) | Reply::Fault(_) => copied_rows(alloc, given),
        Reply::Ok
        | Reply::Kind(_)
        | Reply::Stat(_, _, _)
        | Reply::Data(_)
        | Reply::Count(_)
        | Reply::Entries(_, _) => edited(alloc, given, request),
    }
}

/// The number that a `stat` told, and of which path.
fn stat_number<'a>(request: &'a Request, reply: &Reply) -> Option<(&'a Path, u64)>
    ensures { option_map (λ t. record { path = t.0.now; number = t.1 }) result
        ≡ stat_number request.now reply.now }
{
    let Request::Stat(path) = request else {
        return None;
    };
    let Reply::Stat(_, _, number) = reply else {
        return None;
    };
    Some((path, *number))
}

impl Numbers {
    /// The root's number alone is given, and none is spent but those below 2.
    pub(crate) fn of_root(alloc: Global) -> Result<Numbers, AllocError>
        ensures { IfOk result (λ n. numbers_of n ≡ opening_numbers root_alone LEAST) }
    {
        let mut given = Vec::with_capacity(alloc, 1)?;
        given.push((Place::new(Vec::new(alloc)), ROOT))?;
        Ok(Numbers::opened(alloc, given, LEAST))
    }

    /// Those numbers are given, and all below the next one are spent.
    pub(crate) fn opened(alloc: Global, given: Vec<(Place, u64)>, next: u64) -> Numbers
        ensures { numbers_of result ≡ opening_numbers (tree_of given.items) next }
    {
        Numbers {
            given,
            next,
            spent: Vec::new(alloc),
        }
    }

    fn is_spent(&self, number: u64) -> bool
        ensures { result ≡ is_spent self.now number }
    {
        is_among(self.spent.as_slice(), number) || number < self.next
    }

    /// The number given to what stands at that path.
    fn given_at(&self, path: &[Name]) -> Option<u64>
        ensures { result ≡ tree_of self.now.given path.now }
    {
        find(self.given.as_slice(), path).copied()
    }

    /// Whether a `stat` of that path may tell that number.
    fn may_tell(&self, path: &[Name], number: u64) -> bool
        ensures { IsTrue result ↔ Allows (numbers_of self.now) path.now number }
    {
        match self.given_at(path) {
            Some(own) => own == number,
            None => number >= LEAST && number < NUMBER_END && !self.is_spent(number),
        }
    }

    /// Whether the reply tells no number, or one that it may tell.
    pub(crate) fn may(&self, request: &Request, reply: &Reply) -> bool
        ensures { IsTrue result ↔ AllowsStat (numbers_of self.now) (stat_number request.now reply.now) }
    {
        match stat_number(request, reply) {
            None => true,
            Some((path, number)) => self.may_tell(path.as_slice(), number),
        }
    }

    /// The least number that isn't spent, where there is one.
    fn least(&self) -> Option<u64>
        ensures least { IfSome result (λ n. IsNumber n × (is_spent self.now n ≡ false)
            × IsLeast (numbers_of self.now) n) }
        ensures none { result ≡ None → (m : ℕ) → IsNumber m → is_spent self.now m ≡ true }
    {
        for number in LEAST.max(self.next)..NUMBER_END {
            if !self.is_spent(number) {
                return Some(number);
            }
        }
        None
    }

    /// The number that a `stat` of that path tells.
    fn pick(&self, path: &[Name]) -> Option<u64>
        ensures { Picks (numbers_of self.now) path.now result }
    {
        match self.given_at(path) {
            Some(own) => Some(own),
            None => self.least(),
        }
    }

    /// The reply with the number in it, where it is a `stat`'s. None where there is none left.
    pub(crate) fn fill(&self, request: &Request, reply: Reply) -> Option<Reply>
        ensures { Fills (numbers_of self.now) request.now reply result }
    {
        match stat_number(request, &reply) {
            None => Some(reply),
            Some((path, _)) => match reply {
                Reply::Stat(kind, size, _) => match self.pick(path.as_slice()) {
                    None => None,
                    Some(number) => Some(Reply::Stat(kind, size, number)),
                },
                other => Some(other),
            },
        }
    }

    /// That number is given to what stands at the path, and spent.
    fn with(mut self, alloc: Global, path: &Path, number: u64) -> Result<Numbers, AllocError>
        ensures { IfOk result (λ n. numbers_of n
            ≡ with_stat (Some (record { path = path.now; number = number })) (numbers_of self)) }
    {
        replace(
            &mut self.given,
            joined(alloc, path.as_slice(), &[])?,
            number,
        )?;
        self.spent.push(number)?;
        Ok(self)
    }

    /// The numbers after a request and its reply.
    pub(crate) fn after(
        &self,
        alloc: Global,
        request: &Request,
        reply: &Reply,
    ) -> Result<Numbers, AllocError>
        ensures { IfOk result (λ n. numbers_of n ≡ after_numbers (numbers_of self.now) request.now reply.now) }
    {
        let numbers = Numbers {
            given: renumbered(alloc, self.given.as_slice(), request, reply)?,
            next: self.next,
            spent: Vec::from_slice(alloc, self.spent.as_slice())?,
        };
        match stat_number(request, reply) {
            None => Ok(numbers),
            Some((path, number)) => numbers.with(alloc, path, number),
        }
    }
}
