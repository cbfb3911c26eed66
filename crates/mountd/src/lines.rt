//! Changes that are reported as lines.
ghost use Rattle.std.specs.Prelude.{◌≡◌};
ghost use Rattle.mountd.specs.Snapshots.{how_letter, mode_word, whole_word};

use crate::path_text::path_text;
use eden_model::{Mode, Name, Outside};
use eden_overlay::{FilesFault, count_failures};
use eden_snapshot::{Change, ChangeSink, How};
use std::alloc::Global;
use std::io::{self, BufWriter, Write};

/// What holds back some of what it is told.
pub trait HoldsBack {
    ghost use Rattle.std.specs.Prelude.{Result, ⊤};
    ghost use Rattle.std.specs.declared.io.Error.{Error};

    /// It was as the first says, and wrote out so what it held back, which left it as the last says.
    ghost writes_out: { Self → Result ⊤ Error → Self → Type 0 };

    /// Writes that out.
    fn write_out(&mut self) -> io::Result<()>
        ensures { writes_out self.old result self.new };
}

/// A line for each change, of which some are held back until they fill a buffer.
#[derive(Drop)]
pub struct LineSink<W: Write + Drop> {
    writer: BufWriter<W>,
    failures: u64,
}

impl<W: Write + Drop> LineSink<W> {
    /// No line yet. The only error is want of memory.
    pub fn new(alloc: Global, writer: W) -> io::Result<Self> {
        let writer = BufWriter::new(alloc, writer)?;
        Ok(LineSink {
            writer,
            failures: 0,
        })
    }
}

impl<W: Write + Drop> HoldsBack for LineSink<W> {
    ghost use Rattle.std.specs.Prelude.{◌≡◌};

    ghost writes_out = { λ old _ new. new.failures ≡ old.failures };

    fn write_out(&mut self) -> io::Result<()> {
        self.writer.flush()
    }
}

impl<W: Write + Drop> ChangeSink<Outside> for LineSink<W> {
    ghost use Rattle.std.specs.Prelude.{[]};

    ghost told = { λ _. [] };

    ghost failures = { λ s. s.failures };

    fn tell(&mut self, alloc: Global, path: &[Name], change: Change) -> Result<(), FilesFault> {
        let answer = write_line(&mut self.writer, alloc, path, change);
        self.failures = count_failures(self.failures, &answer);
        answer
    }
}

// Writes the line of a change.
fn write_line<W: Write + Drop>(
    writer: &mut BufWriter<W>,
    alloc: Global,
    path: &[Name],
    change: Change,
) -> Result<(), FilesFault> {
    let path = path_text(alloc, path)?;
    let how = how_letter(change.how);
    let mode = mode_word(change.mode);
    let whole = whole_word(change.whole);
    let line = format!(in alloc; "{how} {mode} {path}{whole}\n")?;
    match writer.write_all(line.as_bytes()) {
        Ok(()) => Ok(()),
        Err(_) => Err(FilesFault::Device),
    }
}

// The letter of a change, as Git has it.
fn how_letter(how: How) -> &'static str
    ensures { result.now ≡ how_letter how }
{
    match how {
        How::Added => "A",
        How::Removed => "D",
        How::Modified => "M",
        How::Retyped => "T",
    }
}

// What stands there, or stood there if nothing does.
fn mode_word(mode: Mode) -> &'static str
    ensures { result.now ≡ mode_word mode }
{
    match mode {
        Mode::File => "file",
        Mode::Exec => "exec",
        Mode::Link => "link",
        Mode::Dir => "dir",
        Mode::Gitlink => "submodule",
    }
}

// What is put after the path of a change that is reported by its top alone.
fn whole_word(whole: bool) -> &'static str
    ensures { result.now ≡ whole_word whole }
{
    if whole { " whole" } else { "" }
}
