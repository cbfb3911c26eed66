ghost use Rattle.std.specs.Prelude.{
  ◌≡◌,
  ◌⊎◌,
  ◌≤◌,
  ℕ,
  IfSome,
  IsSome,
  None,
  Some,
  false,
  true,
  OnErr,
  OnOk,
  Result,
  length,
};
ghost use Rattle.std.specs.Option.{option_map};
ghost use Rattle.eden_model.specs.Limits.{most_file};
ghost use Rattle.eden_fuse_format.specs.Asked.{seen};
ghost use Rattle.eden_fuse_format.specs.Asked.{Asked as asked};
ghost use Rattle.eden_fuse_meaning.specs.declared.step.Outcome.{Outcome};
ghost use Rattle.eden_fuse_meaning.specs.Hiding.{hide, put_back};
ghost use Rattle.eden_fuse_session.specs.Turns.{IsBriefly, told};
ghost use Rattle.eden_fuse_nodes.specs.Tables.{place_of};
ghost use Rattle.eden_fuse_shown.specs.declared.mount.Unheard.{Unheard};
ghost use Rattle.eden_fuse_shown.specs.Beginning.{IsBlank};
ghost use Rattle.eden_fuse_shown.specs.Looking.{ChangesNothing};
ghost use Rattle.eden_fuse_shown.specs.Opens.{is_last, opens_of};
ghost use Rattle.eden_fuse_shown.specs.Naming.{goal_of, last_name, named_place, veiled_name};
ghost use Rattle.eden_fuse_shown.specs.Showing.{
  BridgesIf,
  Clears,
  ClearsRow,
  ClearsRows,
  ClosesFile,
  Empties,
  IsAsked,
  IsClosed,
  IsEmptied,
  Joins,
  JoinsOver,
  LetsGo,
  LooksBetween,
  Once,
  ReadsDirectory,
  RemovesHeld,
  ReplacesBy,
  ReplacesHeld,
  Restores,
  Runs,
  Settles,
  Starts,
  Starves,
  StoresAll,
  Syncs,
  Takes,
  WritesFile,
  WritesAnew,
  WritesApart,
  count,
  data_of,
  rows_in,
};
ghost use Rattle.eden_fuse_shown.specs.Waiting.{gap_of, may_wait};

use crate::changing::forget_all;
use crate::concluding::{conclude, count, failed, refuse, synced, tell_rows};
use crate::extents::{Extents, Gap};
use crate::listing::rows_in;
use crate::looking::look_before;
use crate::manner::Manner;
use crate::mount::Mount;
use crate::naming::{begin, goal_of, held, held_goal, is_reserved, named, path_of, veiled_name};
use crate::opens::Opens;
use crate::pages::Pages;
use crate::reading::gather;
use crate::running::run;
use crate::sorts::{Sort, batch_of, data_of, denial, last_name, sort_of};
use crate::storing::{store, store_all};
use crate::times::{Times, now};
use eden_fuse_format::{Answer, Header, Operation, ReadIn, RenameIn};
use eden_fuse_meaning::{Step, hidden_name, is_hidden, list_hidden};
use eden_fuse_nodes::{Nodes, Place, ROOT};
use eden_fuse_session::{Said, Service};
use eden_model::{Entries, Kind, Name, Request};
use std::alloc::{AllocError, Global};
use std::marker::Model;
use std::rt::Clock;

const EINVAL: u32 = 22;

const ENOMEM: u32 = 12;

/// A mount that is shown as a folder. Contracts see the mount, how it is shown, the nodes that the kernel was told of,
/// the directories and files that are open, and what was written and isn't stored yet.
#[derive(Drop)]
pub struct Shown<M: Mount + Drop, K: Clock + Drop> {
    alloc: Global,
    mount: M,
    clock: K,
    manner: Manner,
    nodes: Nodes,
    pages: Pages,
    opens: Opens,
    waits: Extents,
    times: Times,
}

impl<M: Mount + Drop, K: Clock + Drop> Model for Shown<M, K> {
    ghost use Rattle.eden_fuse_shown.specs.Showing.{Showing};

    ghost Value = { Showing M };

    ghost view = { λ s. record {
      mount = s.mount;
      manner = s.manner;
      nodes = s.nodes;
      pages = s.pages;
      opens = s.opens;
      waits = s.waits;
    } };
}

impl<M: Mount + Drop, K: Clock + Drop> Shown<M, K> {
    /// A mount of which the kernel knows nothing yet.
    pub fn new(alloc: Global, mount: M, clock: K, manner: Manner, times: Times) -> Self
        ensures mount { result.mount ≡ mount }
        ensures manner { result.manner ≡ manner }
        ensures blank { IsBlank result }
    {
        Shown {
            alloc,
            mount,
            clock,
            manner,
            nodes: Nodes::new(alloc),
            pages: Pages::new(alloc),
            opens: Opens::new(alloc),
            waits: Extents::new(alloc),
            times,
        }
    }

    /// Gives the mount back, once all that waits is stored. What it can't store is dropped: then the number of the
    /// first error that a store met; None only if all was stored.
    pub fn into_mount(self) -> (M, Option<u32>)
        ensures { StoresAll M.answers self.nodes self.waits self.mount result.1 result.0 }
    {
        let Shown {
            alloc,
            mut mount,
            nodes,
            waits,
            ..
        } = self;
        let unstored = store_all(alloc, &mut mount, &nodes, waits);
        (mount, unstored)
    }

    /// A look that finds what a message's turn asks the mount first, and that changes nothing. Whoever makes it before
    /// the turn, apart from it, waits then for what isn't in memory. None if the message asks for nothing, or for want
    /// of memory.
    pub fn looks_for(&self, node: u64, operation: &Operation<'_>) -> Option<Request>
        ensures { IfSome result ChangesNothing }
    {
        look_before(self.alloc, self.manner.owner, &self.nodes, node, operation)
    }

    // Answers a message that names these places, and asks the mount or needs it not. A directory is read on after the
    // last name.
    fn go(
        &mut self,
        node: u64,
        operation: &Operation<'_>,
        place: Option<Place>,
        goal: Option<Place>,
        last: Option<Name>,
        room: &mut Vec<u8>,
    ) -> Said
        requires place { place ≡ named_place node (seen operation.now) }
        requires goal { goal ≡ goal_of (seen operation.now) }
        ensures runs { Runs M.answers node (seen operation.now) last self.old (told result room.new.items) self.new }
        ensures brief { IsBriefly result room.new.items }
    {
        let Ok(step) = begin(
            self.alloc,
            self.manner.owner,
            &self.nodes,
            node,
            operation,
            &last,
        ) else {
            return refuse(ENOMEM);
        };
        let end = run(self.alloc, &mut self.mount, step);
        let now = now(&self.clock);
        if let Ok(outcome) = &end {
            self.times.note(now, node, operation, outcome);
        }
        conclude(
            self.alloc,
            self.manner,
            &mut self.nodes,
            &mut self.pages,
            &mut self.opens,
            &mut self.times,
            &self.waits,
            now,
            node,
            operation,
            place,
            goal,
            last,
            end,
            room,
        )
    }

    // Answers a message.
    fn answer(
        &mut self,
        node: u64,
        operation: &Operation<'_>,
        last: Option<Name>,
        room: &mut Vec<u8>,
    ) -> Said
        ensures runs { Runs M.answers node (seen operation.now) last self.old (told result room.new.items) self.new }
        ensures brief { IsBriefly result room.new.items }
    {
        let Ok(place) = named(self.alloc, node, operation) else {
            return refuse(ENOMEM);
        };
        let Ok(goal) = goal_of(self.alloc, operation) else {
            return refuse(ENOMEM);
        };
        self.go(node, operation, place, goal, last, room)
    }

    // Stores what waits for a node; or the number of the error, upon which it waits still.
    fn settle(&mut self, node: u64) -> Option<u32>
        ensures { Settles M.answers node self.old result self.new }
    {
        let why = match self.waits.get(node) {
            None => return None,
            Some(extent) => store(self.alloc, &mut self.mount, &self.nodes, node, extent),
        };
        if why.is_none() {
            self.waits.end(node);
        }
        why
    }

    // What is written waits with what waits.
    fn join(&mut self, node: u64, offset: u64, bytes: &[u8], room: &mut Vec<u8>) -> Said
        requires { may_wait self.old.waits node offset bytes.now ≡ true }
        ensures joins { Joins M.answers node offset bytes.now self.old (told result room.new.items) self.new
            ⊎ Starves M.answers self.old (told result room.new.items) self.new }
        ensures brief { IsBriefly result room.new.items }
    {
        if self.waits.add(self.alloc, node, offset, bytes).is_err() {
            return refuse(ENOMEM);
        }
        self.times.change(node, now(&self.clock));
        Said::Answers(count(bytes.len() as u64))
    }

    // .. where nothing waits for the node, or is stored at once.
    fn write_anew(
        &mut self,
        node: u64,
        offset: u64,
        operation: &Operation<'_>,
        room: &mut Vec<u8>,
    ) -> Said
        ensures writes { WritesAnew M.answers node offset (seen operation.now) self.old
            (told result room.new.items) self.new }
        ensures brief { IsBriefly result room.new.items }
    {
        let bytes = data_of(operation);
        if self.waits.may_wait(node, offset, bytes) {
            return self.join(node, offset, bytes, room);
        }
        self.answer(node, operation, None, room)
    }

    // What lies between what waits for a node and an offset; None if there is no such gap, or it can't be read.
    fn look_between(&mut self, node: u64, gap: Option<Gap>) -> Option<Vec<u8>>
        requires { IfSome gap (λ g. (g.from ≤ most_file) × (g.len ≤ most_file)) }
        ensures { LooksBetween M.answers node gap self.old (option_map (λ v. v.items) result) self.new }
    {
        let gap = gap?;
        let Ok(Ok(path)) = path_of(self.alloc, &self.nodes, node) else {
            return None;
        };
        gather(self.alloc, &mut self.mount, &path, gap.from, gap.len)
    }

    // What is written waits with what waits and with what lies between; false without memory, upon which nothing
    // changes.
    fn bridge(&mut self, node: u64, offset: u64, between: Vec<u8>, bytes: &[u8]) -> bool
        requires { IsSome (gap_of self.old.waits node offset bytes.now) }
        ensures joins { result ≡ true
            → JoinsOver M.answers node offset between.items bytes.now self.old (count (length bytes.now)) self.new }
        ensures same { result ≡ false → self.new ≡ self.old }
    {
        if self
            .waits
            .bridge(self.alloc, node, offset, between, bytes)
            .is_err()
        {
            return false;
        }
        self.times.change(node, now(&self.clock));
        true
    }

    // What waits is stored, and then what is written waits or is stored too.
    fn write_after(
        &mut self,
        node: u64,
        offset: u64,
        operation: &Operation<'_>,
        room: &mut Vec<u8>,
    ) -> Said
        ensures writes { Once M.answers (Some node) (WritesAnew M.answers node offset (seen operation.now)) self.old
            (told result room.new.items) self.new }
        ensures brief { IsBriefly result room.new.items }
    {
        match self.settle(node) {
            Some(errno) => refuse(errno),
            None => self.write_anew(node, offset, operation, room),
        }
    }

    // What lies between was read.
    fn write_over(
        &mut self,
        node: u64,
        offset: u64,
        between: Vec<u8>,
        operation: &Operation<'_>,
        room: &mut Vec<u8>,
    ) -> Said
        requires gap { IsSome (gap_of self.old.waits node offset (data_of (seen operation.now))) }
        ensures writes { BridgesIf M.answers (Some between.items) node offset (data_of (seen operation.now))
            (Once M.answers (Some node) (WritesAnew M.answers node offset (seen operation.now))) self.old
            (told result room.new.items) self.new }
        ensures brief { IsBriefly result room.new.items }
    {
        let bytes = data_of(operation);
        if self.bridge(node, offset, between, bytes) {
            return Said::Answers(count(bytes.len() as u64));
        }
        self.write_after(node, offset, operation, room)
    }

    // What is written doesn't join what waits.
    fn write_apart(
        &mut self,
        node: u64,
        offset: u64,
        operation: &Operation<'_>,
        room: &mut Vec<u8>,
    ) -> Said
        ensures writes { WritesApart M.answers node offset (seen operation.now) self.old
            (told result room.new.items) self.new }
        ensures brief { IsBriefly result room.new.items }
    {
        let gap = self.waits.gap(node, offset, data_of(operation));
        match self.look_between(node, gap) {
            None => self.write_after(node, offset, operation, room),
            Some(between) => { self.write_over(node, offset, between, operation, room) }
        }
    }

    // What is written waits, if it can.
    fn write(
        &mut self,
        node: u64,
        offset: u64,
        operation: &Operation<'_>,
        room: &mut Vec<u8>,
    ) -> Said
        ensures writes { WritesFile M.answers node offset (seen operation.now) self.old
            (told result room.new.items) self.new }
        ensures brief { IsBriefly result room.new.items }
    {
        let bytes = data_of(operation);
        if self.waits.may_wait(node, offset, bytes) {
            return self.join(node, offset, bytes, room);
        }
        self.write_apart(node, offset, operation, room)
    }

    // Answers a message before which what waits for its node is stored.
    fn look(&mut self, node: u64, operation: &Operation<'_>, room: &mut Vec<u8>) -> Said
        ensures looks { Once M.answers (Some node) (Runs M.answers node (seen operation.now) None) self.old
            (told result room.new.items) self.new }
        ensures brief { IsBriefly result room.new.items }
    {
        match self.settle(node) {
            Some(errno) => refuse(errno),
            None => self.answer(node, operation, None, room),
        }
    }

    // Waits for the disk.
    fn wait_for_disk(&mut self, room: &mut Vec<u8>) -> Said
        ensures syncs { Syncs M.syncs self.old (told result room.new.items) self.new }
        ensures brief { IsBriefly result room.new.items }
    {
        synced(self.mount.sync())
    }

    // Stores what waits for a node, and then waits for the disk.
    fn sync(&mut self, node: u64, room: &mut Vec<u8>) -> Said
        ensures syncs { Once M.answers (Some node) (Syncs M.syncs) self.old (told result room.new.items) self.new }
        ensures brief { IsBriefly result room.new.items }
    {
        match self.settle(node) {
            Some(errno) => refuse(errno),
            None => self.wait_for_disk(room),
        }
    }

    // Reads an open directory on.
    fn read_directory(
        &mut self,
        node: u64,
        operation: &Operation<'_>,
        read: ReadIn,
        room: &mut Vec<u8>,
    ) -> Said
        ensures runs { ReadsDirectory M.answers node (seen operation.now) read self.old (told result room.new.items)
            self.new }
        ensures brief { IsBriefly result room.new.items }
    {
        if let Some(rows) = self.pages.kept(read.fh, read.offset) {
            return tell_rows(node, &read, rows, room);
        }
        match self.pages.last(self.alloc, read.fh, read.offset) {
            Err(_) => refuse(ENOMEM),
            Ok(None) => refuse(EINVAL),
            Ok(Some(last)) => self.answer(node, operation, last, room),
        }
    }

    // Gives the node at a name in a directory its hidden name.
    fn hide(&mut self, directory: u64, name: &[u8], node: u64, room: &mut Vec<u8>) -> Said
        ensures runs { Runs M.answers directory (hide node name.now) None self.old
            (told result room.new.items) self.new }
        ensures brief { IsBriefly result room.new.items }
    {
        let Ok(hidden) = hidden_name(self.alloc, node) else {
            return refuse(ENOMEM);
        };
        let hiding = Operation::Rename(RenameIn { newdir: ROOT }, name, hidden.as_slice());
        self.answer(directory, &hiding, None, room)
    }

    // Gives a hidden node a name in a directory back.
    fn put_back(&mut self, node: u64, directory: u64, name: &[u8], room: &mut Vec<u8>) -> Said
        ensures runs { Runs M.answers 1 (put_back node directory name.now) None self.old
            (told result room.new.items) self.new }
        ensures brief { IsBriefly result room.new.items }
    {
        let Ok(hidden) = hidden_name(self.alloc, node) else {
            return refuse(ENOMEM);
        };
        let moving = Operation::Rename(RenameIn { newdir: directory }, hidden.as_slice(), name);
        self.answer(ROOT, &moving, None, room)
    }

    // Removes what has a hidden name.
    fn let_go(&mut self, name: &Name, room: &mut Vec<u8>) -> Said
        ensures runs { Runs M.answers 1 (asked.Unlink name.now) None self.old (told result room.new.items) self.new }
        ensures brief { IsBriefly result room.new.items }
    {
        let removing = Operation::Unlink(name.as_slice());
        self.answer(ROOT, &removing, None, room)
    }

    // Removes what a message names, or hides it while it is open.
    fn remove(&mut self, node: u64, operation: &Operation<'_>, room: &mut Vec<u8>) -> Said
        ensures removes { Starves M.answers self.old (told result room.new.items) self.new
            ⊎ RemovesHeld M.answers node (seen operation.now) self.old (told result room.new.items) self.new }
        ensures brief { IsBriefly result room.new.items }
    {
        match held(self.alloc, &self.nodes, &self.opens, node, operation) {
            Err(_) => refuse(ENOMEM),
            Ok(None) => self.answer(node, operation, None, room),
            Ok(Some(held)) => self.hide(node, last_name(operation), held, room),
        }
    }

    // After a rename that failed, what was to be replaced gets its name back. What is said of the rename stays.
    fn restore(
        &mut self,
        said: Said,
        held: u64,
        directory: u64,
        name: &[u8],
        room: &mut Vec<u8>,
    ) -> Said
        requires { IsBriefly said room.old.items }
        ensures restores { Restores M.answers held directory name.now (told said room.old.items) self.old self.new }
        ensures same { told result room.new.items ≡ told said room.old.items }
        ensures brief { IsBriefly result room.new.items }
    {
        if !failed(&said) {
            return said;
        }
        self.put_back(held, directory, name, room);
        said
    }

    // Moves what a message names over an open file, which is hidden first.
    fn move_over(
        &mut self,
        node: u64,
        operation: &Operation<'_>,
        directory: u64,
        held: u64,
        room: &mut Vec<u8>,
    ) -> Said
        ensures replaces { ReplacesBy M.answers (Some held) directory node (seen operation.now) self.old
            (told result room.new.items) self.new }
        ensures brief { IsBriefly result room.new.items }
    {
        let name = last_name(operation);
        let hid = self.hide(directory, name, held, room);
        if failed(&hid) {
            return hid;
        }
        let said = self.answer(node, operation, None, room);
        self.restore(said, held, directory, name, room)
    }

    // Moves what a message names, over what is at its new name in that directory.
    fn replace(
        &mut self,
        node: u64,
        operation: &Operation<'_>,
        directory: u64,
        room: &mut Vec<u8>,
    ) -> Said
        ensures replaces { Starves M.answers self.old (told result room.new.items) self.new
            ⊎ ReplacesHeld M.answers directory node (seen operation.now) self.old
            (told result room.new.items) self.new }
        ensures brief { IsBriefly result room.new.items }
    {
        match held_goal(self.alloc, &self.nodes, &self.opens, operation) {
            Err(_) => refuse(ENOMEM),
            Ok(None) => self.answer(node, operation, None, room),
            Ok(Some(held)) => self.move_over(node, operation, directory, held, room),
        }
    }

    // Removes a node that has a hidden name.
    fn let_go_of(&mut self, node: u64, room: &mut Vec<u8>)
        ensures { LetsGo M.answers (veiled_name (place_of self.old.nodes node)) self.old self.new }
    {
        match veiled_name(self.alloc, &self.nodes, node) {
            Err(_) => {}
            Ok(None) => {}
            Ok(Some(name)) => {
                self.let_go(&name, room);
            }
        }
    }

    // A file is closed once; whether it isn't open any more.
    fn lower(&mut self, node: u64) -> bool
        ensures last { result ≡ is_last (opens_of self.old.opens node) }
        ensures closed { IsClosed M.answers node self.old self.new }
    {
        self.opens.lower(node)
    }

    // Nothing waits for a node any more.
    fn end(&mut self, node: u64)
        ensures { IsEmptied M.answers node self.old self.new }
    {
        self.waits.end(node);
    }

    // Stores what waits for a node, and drops it if it can't be stored.
    fn empty(&mut self, node: u64)
        ensures { Empties M.answers node self.old self.new }
    {
        self.settle(node);
        self.end(node);
    }

    // A file is closed once. If it isn't open any more, what waits for it is stored, and it goes if it has a hidden
    // name.
    fn close(&mut self, node: u64, room: &mut Vec<u8>) -> Said
        ensures closes { ClosesFile M.answers node self.old (told result room.new.items) self.new }
        ensures brief { IsBriefly result room.new.items }
    {
        let last = self.lower(node);
        if !last {
            return Said::Answers(Answer::Done);
        }
        self.empty(node);
        self.let_go_of(node, room);
        Said::Answers(Answer::Done)
    }

    // Removes what another run left at a hidden name.
    fn clear_row(&mut self, row: &(Name, Kind), room: &mut Vec<u8>)
        ensures { ClearsRow M.answers (Some row.now) self.old self.new }
    {
        if is_hidden(row.0.as_slice()) {
            self.let_go(&row.0, room);
        }
    }

    fn clear_rows(&mut self, rows: &[(Name, Kind)], room: &mut Vec<u8>)
        ensures { ClearsRows M.answers (length rows.now) rows.now self.old self.new }
    {
        'rows: for row in rows {
            self.clear_row(row, room);
        }
    }

    // Asks for what another run left.
    fn left(&mut self, step: Step) -> Entries
        ensures { (end : Result Outcome Unheard) × IsAsked M.answers step end self.old self.new
            × (result ≡ rows_in end) }
    {
        let end = run(self.alloc, &mut self.mount, step);
        rows_in(self.alloc, end)
    }

    // Removes what another run left. The only error is want of memory, upon which nothing was asked.
    fn clear(&mut self, room: &mut Vec<u8>) -> Result<(), AllocError>
        ensures ok { OnOk result (Clears M.answers self.old self.new) }
        ensures err { OnErr result (self.new ≡ self.old) }
    {
        let step = list_hidden(self.alloc)?;
        let rows = self.left(step);
        self.clear_rows(rows.as_slice(), room);
        Ok(())
    }

    // Begins: what another run left goes.
    fn start(&mut self, node: u64, operation: &Operation<'_>, room: &mut Vec<u8>) -> Said
        ensures starts { Starts M.answers node (seen operation.now) self.old (told result room.new.items) self.new }
        ensures brief { IsBriefly result room.new.items }
    {
        match self.clear(room) {
            Err(_) => refuse(ENOMEM),
            Ok(()) => self.answer(node, operation, None, room),
        }
    }

    // Answers a message of that sort, unless it names what nobody sees.
    fn take(&mut self, sort: Sort, node: u64, operation: &Operation<'_>, room: &mut Vec<u8>) -> Said
        ensures takes { Takes M.answers M.syncs sort node (seen operation.now) self.old
            (told result room.new.items) self.new }
        ensures brief { IsBriefly result room.new.items }
    {
        if is_reserved(node, operation) {
            return refuse(denial(operation));
        }
        match sort {
            Sort::Start => self.start(node, operation, room),
            Sort::Remove => self.remove(node, operation, room),
            Sort::Replace(directory) => { self.replace(node, operation, directory, room) }
            Sort::Write(offset) => self.write(node, offset, operation, room),
            Sort::Look => self.look(node, operation, room),
            Sort::Sync => self.sync(node, room),
            Sort::One(_) | Sort::Batch | Sort::On(_) | Sort::Close | Sort::Plain => {
                self.answer(node, operation, None, room)
            }
        }
    }
}

impl<M: Mount + Drop, K: Clock + Drop> Service for Shown<M, K> {
    ghost use Rattle.eden_fuse_shown.specs.Showing.{Shows};

    ghost answers = { Shows M.answers M.syncs };

    fn call(&mut self, header: Header, operation: Operation<'_>, room: &mut Vec<u8>) -> Said {
        let node = header.nodeid;
        let sort = sort_of(&operation);
        match sort {
            Sort::One(times) => {
                self.nodes.forget(node, times);
                Said::Nothing
            }
            Sort::Batch => {
                forget_all(&mut self.nodes, batch_of(&operation));
                Said::Nothing
            }
            Sort::On(read) => self.read_directory(node, &operation, read, room),
            Sort::Close => self.close(node, room),
            Sort::Start
            | Sort::Remove
            | Sort::Replace(_)
            | Sort::Write(_)
            | Sort::Look
            | Sort::Sync
            | Sort::Plain => self.take(sort, node, &operation, room),
        }
    }
}
