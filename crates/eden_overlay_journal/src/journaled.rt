ghost use Rattle.std.specs.Prelude.{◌≡◌, ◌≢◌, Err, Some, IfOk, OnErr, OnOk};
ghost use Rattle.eden_model.specs.Failures.{Counted, one_more};
ghost use Rattle.eden_overlay.specs.Files.{with_file};
ghost use Rattle.eden_overlay.specs.declared.files.FilesFault.TheVariants as fault;
ghost use Rattle.eden_overlay_journal.specs.Changes.{at_opening, changed_files, unchanged};
ghost use Rattle.eden_overlay_journal.specs.New.{bytes_as};

use crate::journal::Journal;
use crate::new_file::NewFile;
use crate::pouring::take_in;
use crate::seen::{Standing, head, list, read, read_part, remove, replace, sync};
use eden_model::{Obstacle, World};
use eden_overlay::{Files, FilesFault, STATE_NUMBER, count_failures};
use eden_overlay_format::{Head, Identifier, header_of};
use std::alloc::Global;
use std::marker::Model;

/// Files with a journal over them. Nothing is noted in it while the state is stored, file 0.
///
/// Contracts see the files, the journal, and how many calls answered `Device`.
#[derive(Drop)]
pub struct Journaled<F, J> {
    files: F,
    journal: J,
    standing: Standing,
    failures: u64,
    /// What kept the last change from being stored, where files or journal said so.
    obstacle: Option<Obstacle>,
}

impl<F, J> Model for Journaled<F, J> {
    ghost use Rattle.eden_overlay_journal.specs.Pouring.{Journaling};

    ghost Value = { Journaling F J };

    ghost view = { λ s. record { files = s.files; journal = s.journal; failures = s.failures } };
}

impl<F, J> Journaled<F, J> {
    /// The files with that journal over them. Nothing has failed yet. Changes are noted as where no state is stored:
    /// whoever doesn't know whether one is asks `taken_in`.
    pub fn new(files: F, journal: J) -> Self
        ensures { result ≡ record { files = files; journal = journal; failures = 0 } }
    {
        Journaled {
            files,
            journal,
            standing: Standing {
                is_closed: false,
                is_promised: false,
            },
            failures: 0,
            obstacle: None,
        }
    }

    /// The files, without what the journal says.
    pub fn into_files(self) -> F
    where
        J: Drop,
        ensures { result ≡ self.files }
    {
        let Journaled { files, .. } = self;
        files
    }
}

// What kept them from storing. The files come first: where the journal can note nothing, they are to store it.
fn obstacle_of<W: World, F: Files<W>, J: Journal<W>>(files: &F, journal: &J) -> Option<Obstacle> {
    match files.obstacle() {
        Some(obstacle) => Some(obstacle),
        None => journal.obstacle(),
    }
}

impl<F, J> Journaled<F, J> {
    // Has the file of that number have that.
    fn put<W: World>(
        &mut self,
        alloc: Global,
        number: u64,
        new: NewFile<'_>,
    ) -> Result<(), FilesFault>
    where
        F: Files<W>,
        J: Journal<W>,
        ensures ok { W.honest → OnOk result (changed_files (J.changes self.new.journal) (F.stored self.new.files)
            ≡ with_file (changed_files (J.changes self.old.journal) (F.stored self.old.files)) number
            (Some (bytes_as new.entry))) }
        ensures err { W.honest → OnErr result (changed_files (J.changes self.new.journal) (F.stored self.new.files)
            ≡ changed_files (J.changes self.old.journal) (F.stored self.old.files)) }
        ensures counted { Counted (result ≡ Err fault.Device) self.old.failures self.new.failures }
    {
        self.standing.is_closed = self.standing.is_closed || number == STATE_NUMBER;
        let standing = self.standing;
        let (files, journal) = (&mut self.files, &mut self.journal);
        let answer = replace::<W, _, _>(alloc, files, journal, standing, number, new);
        self.obstacle = match answer {
            Ok(()) => None,
            Err(_) => obstacle_of::<W, _, _>(files, journal),
        };
        self.failures = count_failures(self.failures, &answer);
        answer
    }
}

impl<W: World, F: Files<W>, J: Journal<W>> Files<W> for Journaled<F, J> {
    ghost use Rattle.eden_overlay_journal.specs.Changes.{changed_files};

    ghost stored = { λ s. changed_files (J.changes s.journal) (F.stored s.files) };

    ghost failures = { λ s. s.failures };

    fn failures(&self) -> u64 {
        self.failures
    }

    fn obstacle(&self) -> Option<Obstacle> {
        self.obstacle
    }

    fn read(&mut self, alloc: Global, number: u64) -> Result<Option<Vec<u8>>, FilesFault> {
        let answer = read::<W, _, _>(alloc, &mut self.files, &mut self.journal, number);
        self.failures = count_failures(self.failures, &answer);
        answer
    }

    fn head(&mut self, number: u64) -> Result<Option<Head>, FilesFault> {
        let answer = head::<W, _, _>(&mut self.files, &mut self.journal, number);
        self.failures = count_failures(self.failures, &answer);
        answer
    }

    fn read_part(
        &mut self,
        alloc: Global,
        number: u64,
        from: u64,
        most: u64,
    ) -> Result<Option<Vec<u8>>, FilesFault> {
        let (files, journal) = (&mut self.files, &mut self.journal);
        let answer = read_part::<W, _, _>(alloc, files, journal, number, from, most);
        self.failures = count_failures(self.failures, &answer);
        answer
    }

    fn replace(&mut self, alloc: Global, number: u64, bytes: &[u8]) -> Result<(), FilesFault> {
        self.put::<W>(alloc, number, NewFile::Bytes(bytes))
    }

    fn replace_joined(
        &mut self,
        alloc: Global,
        number: u64,
        front: &[u8],
        behind: &[u8],
    ) -> Result<(), FilesFault> {
        self.put::<W>(alloc, number, NewFile::Joined(front, behind))
    }

    /// A directory is noted without its header.
    fn replace_body(
        &mut self,
        alloc: Global,
        number: u64,
        identifier: Identifier,
        body: &[u8],
    ) -> Result<(), FilesFault> {
        match identifier {
            Identifier::Directory => self.put::<W>(alloc, number, NewFile::Directory(body)),
            Identifier::File | Identifier::Numbers => {
                let header = header_of(identifier, body);
                self.put::<W>(alloc, number, NewFile::Joined(&header, body))
            }
        }
    }

    fn remove(&mut self, number: u64) -> Result<(), FilesFault> {
        let (files, journal) = (&mut self.files, &mut self.journal);
        let answer = remove::<W, _, _>(files, journal, self.standing, number);
        self.obstacle = match answer {
            Ok(()) => None,
            Err(_) => obstacle_of::<W, _, _>(files, journal),
        };
        if number == STATE_NUMBER && answer.is_ok() {
            self.standing.is_closed = false;
        }
        self.failures = count_failures(self.failures, &answer);
        answer
    }

    /// From now on the journal is let go only once the disk has what it said, since that was promised.
    fn sync(&mut self, alloc: Global) -> Result<(), FilesFault> {
        self.standing.is_promised = true;
        let answer = sync::<W, _, _>(alloc, &mut self.files, &mut self.journal);
        self.failures = count_failures(self.failures, &answer);
        answer
    }

    fn list(&mut self, alloc: Global) -> Result<Vec<u64>, FilesFault> {
        let (files, journal) = (&mut self.files, &mut self.journal);
        let answer = list::<W, _, _>(alloc, files, journal, self.standing);
        self.failures = count_failures(self.failures, &answer);
        answer
    }
}

/// Files with a journal over them that says nothing: what it said has gone into the files. So an opening begins.
///
/// Where the state is stored, as a close leaves it, a journal is from before that close, and is passed over.
/// After an error both are let go, and what was poured by then lies in the files.
pub fn taken_in<W: World, F: Files<W>, J: Journal<W>>(
    alloc: Global,
    files: F,
    journal: J,
) -> Result<Journaled<F, J>, FilesFault>
    ensures said { W.honest → IfOk result (λ s. J.changes s.journal ≡ unchanged) }
    ensures stored { W.honest → IfOk result (λ s. F.stored s.files ≡ at_opening (J.changes journal) (F.stored files)) }
    ensures failures { IfOk result (λ s. s.failures ≡ 0) }
{
    let mut files = files;
    let mut journal = journal;
    let is_closed = take_in::<W, _, _>(alloc, &mut files, &mut journal)?;
    Ok(Journaled {
        files,
        journal,
        standing: Standing {
            is_closed,
            is_promised: false,
        },
        failures: 0,
        obstacle: None,
    })
}
