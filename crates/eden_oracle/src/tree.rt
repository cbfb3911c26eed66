ghost use Rattle.std.specs.Prelude.{◌≡◌, ◌↔◌, IfOk, IfSome, IfNone, IsTrue, OnOk, OnErr};
ghost use Rattle.eden_model.specs.Limits.{number_least};
ghost use Rattle.eden_model.specs.Numbers.{opening_numbers};
ghost use Rattle.eden_model.specs.Operations.{Replies, after};
ghost use Rattle.eden_oracle.specs.Changes.{Answers, changed_tree};
ghost use Rattle.eden_oracle.specs.Numbers.{numbers_of, root_alone};
ghost use Rattle.eden_oracle.specs.Rows.{AreTree, tree_of};
ghost use Rattle.eden_oracle.specs.Tables.{Goes, Judges, May, Steps};

use crate::add::{create, mkdir, symlink};
use crate::change::{Answer, Change, make};
use crate::edit::{patch, set_exec, truncate, write};
use crate::list::list;
use crate::look::{kind, read, read_link, stat};
use crate::numbers::{Numbers, leaves_numbers};
use crate::place::{Place, Row};
use crate::remove::{rmdir, unlink};
use crate::rename::rename;
use crate::same::is_same;
use crate::shape::are_tree;
use eden_model::{Node, Path, Reply, Request, table_laws};
use std::alloc::{AllocError, Global};
use std::marker::Model;

/// The slow oracle: a whole tree as its rows, each a path and a node, which the table of operations is run over; and
/// the inode numbers that were given to what stands there, and those that are spent.
///
/// Contracts see the rows and the numbers. A call takes time with all of them.
#[derive(Drop)]
pub struct WholeTree {
    rows: Vec<Row>,
    numbers: Numbers,
}

impl Model for WholeTree {
    ghost use Rattle.eden_oracle.specs.Rows.{tree_of};
    ghost use Rattle.eden_oracle.specs.Tables.{Table};
    ghost use Rattle.eden_model.specs.Trees.{IsTree};

    ghost Value = { Table };

    ghost view = { λ t. record { rows = t.rows.items; numbers = t.numbers } };

    ghost invariant = { λ t. IsTree (tree_of t.rows.items) };
}

/// The rows, without the bound on the length of a path.
fn placed<V: Drop>(alloc: Global, rows: Vec<(Path, V)>) -> Result<Vec<(Place, V)>, AllocError>
    ensures { IfOk result (λ all. all.items ≡ rows.items) }
{
    let mut all = Vec::with_capacity(alloc, rows.len())?;
    for (path, value) in rows {
        all.push((Place::new(path.into_vec()), value))?;
    }
    Ok(all)
}

/// What the rows answer a request, and what it does.
fn answer<'a>(alloc: Global, rows: &[Row], request: &'a Request) -> Result<Answer<'a>, AllocError>
    ensures { IfOk result (λ o. Answers (tree_of rows.now) request.now o) }
{
    match request {
        Request::Kind(path) => Ok(kind(rows, path)),
        Request::Stat(path) => Ok(stat(rows, path)),
        Request::Read(path, offset, count) => read(alloc, rows, path, *offset, *count),
        Request::ReadLink(path) => read_link(alloc, rows, path),
        Request::List(path, after, limit) => list(alloc, rows, path, after, *limit),
        Request::Write(path, offset, bytes) => write(alloc, rows, path, *offset, bytes.as_slice()),
        Request::Patch(path, offset, bytes) => patch(alloc, rows, path, *offset, bytes.as_slice()),
        Request::Truncate(path, size) => truncate(alloc, rows, path, *size),
        Request::Create(path) => Ok(create(alloc, rows, path)),
        Request::SetExec(path, exec) => set_exec(alloc, rows, path, *exec),
        Request::Mkdir(path) => Ok(mkdir(rows, path)),
        Request::Symlink(path, target) => symlink(alloc, rows, path, target),
        Request::Unlink(path) => Ok(unlink(rows, path)),
        Request::Rmdir(path) => Ok(rmdir(rows, path)),
        Request::Rename(from, to) => Ok(rename(rows, from, to)),
    }
}

impl WholeTree {
    /// The tree of those rows, with the root's inode number, 1, given and no other spent. None where a path comes
    /// twice, or the rows are no tree: the root is a directory, and what stands above every other row is a directory
    /// whose entries are known. The only error is want of memory. It takes time with the square of the rows.
    pub fn new(alloc: Global, rows: Vec<(Path, Node)>) -> Result<Option<WholeTree>, AllocError>
        ensures tree { IfOk result (λ o. IfSome o (λ t. (t.rows ≡ rows.items) × AreTree rows.items)) }
        ensures numbers { IfOk result (λ o. IfSome o
            (λ t. numbers_of t.numbers ≡ opening_numbers root_alone number_least)) }
        ensures none { IfOk result (λ o. IfNone o (¬ AreTree rows.items)) }
    {
        let rows = placed(alloc, rows)?;
        let numbers = Numbers::of_root(alloc)?;
        if are_tree(rows.as_slice()) {
            Ok(Some(WholeTree { rows, numbers }))
        } else {
            Ok(None)
        }
    }

    /// Other inode numbers in the place of those that it has, as a mount opens with them: those are given that its
    /// files show, by path, and all below its next one are spent. They are taken as they are; of two for one path the
    /// first counts. After the only error, want of memory, it has the numbers that it had.
    pub fn set_numbers(
        &mut self,
        alloc: Global,
        given: Vec<(Path, u64)>,
        next: u64,
    ) -> Result<(), AllocError>
        ensures rows { self.new.rows ≡ self.old.rows }
        ensures ok { OnOk result (numbers_of self.new.numbers ≡ opening_numbers (tree_of given.items) next) }
        ensures err { OnErr result (self.new ≡ self.old) }
    {
        self.numbers = Numbers::opened(alloc, placed(alloc, given)?, next);
        Ok(())
    }

    /// Whether the reply may be told, where the table gives the other one.
    fn may(&self, request: &Request, told: &Reply, reply: &Reply) -> bool
        ensures { Replies (tree_of self.now.rows) request.now told.now
            → (IsTrue result ↔ May self.now request.now reply.now) }
    {
        table_laws();
        is_same(told, reply) && self.numbers.may(request, reply)
    }

    /// The rows and the numbers go on by a request and its reply, with that change of the rows.
    fn go_on(
        &mut self,
        alloc: Global,
        request: &Request,
        reply: &Reply,
        change: Change<'_>,
    ) -> Result<(), AllocError>
        requires may { May self.now request.now reply.now }
        requires change { changed_tree (tree_of self.now.rows) change
            ≡ after (tree_of self.now.rows) request.now reply.now }
        ensures ok { OnOk result (Goes self.old self.new request.now reply.now) }
        ensures err { OnErr result (self.new ≡ self.old) }
    {
        if leaves_numbers(request) {
            make(alloc, &mut self.rows, change)?;
            return Ok(());
        }
        let numbers = self.numbers.after(alloc, request, reply)?;
        make(alloc, &mut self.rows, change)?;
        self.numbers = numbers;
        Ok(())
    }

    /// One request: the reply that the table gives, and the tree after it. A `stat` tells the number that was given to
    /// what stands there, or else the least one that isn't spent, and that one is given from then on. What moves keeps
    /// its number, and what goes loses it.
    ///
    /// None means that the table gives no reply, since the request looks into contents that are lost or unlisted, or
    /// that no number is left; then nothing changes. After the only error, want of memory, nothing has changed either.
    pub fn step(&mut self, alloc: Global, request: &Request) -> Result<Option<Reply>, AllocError>
        ensures ok { IfOk result (λ o. Steps self.old self.new request.now o) }
        ensures err { OnErr result (self.new ≡ self.old) }
    {
        table_laws();
        match answer(alloc, self.rows.as_slice(), request)? {
            None => Ok(None),
            Some((reply, change)) => match self.numbers.fill(request, reply) {
                None => Ok(None),
                Some(reply) => {
                    self.go_on(alloc, request, &reply, change)?;
                    Ok(Some(reply))
                }
            },
        }
    }

    /// Whether a request may be answered so: the reply is the table's, and a `stat` tells the number that was given to
    /// what stands there, or else one that isn't spent, from 2 on and below 2^63. Where it may, the tree and the
    /// numbers go on as that reply says; where it may not, nothing changes. After the only error, want of memory,
    /// nothing has changed either.
    pub fn allows(
        &mut self,
        alloc: Global,
        request: &Request,
        reply: &Reply,
    ) -> Result<bool, AllocError>
        ensures ok { IfOk result (λ b. Judges self.old self.new request.now reply.now b) }
        ensures err { OnErr result (self.new ≡ self.old) }
    {
        table_laws();
        match answer(alloc, self.rows.as_slice(), request)? {
            None => Ok(false),
            Some((told, change)) => {
                if !self.may(request, &told, reply) {
                    return Ok(false);
                }
                self.go_on(alloc, request, reply, change)?;
                Ok(true)
            }
        }
    }
}
