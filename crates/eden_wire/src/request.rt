ghost use Rattle.std.specs.Prelude.{IfOk, OnErr, None};
ghost use Rattle.eden_wire.specs.Lines.{IsReadAs, AsksSome};
ghost use Rattle.eden_wire.specs.Words.{shape_of};
ghost use Rattle.eden_wire.specs.Fields.Field.{of_path};
ghost use Rattle.eden_wire.specs.Scans.{ScansFields, SpellsRequest, Takes};

use crate::field::{Fields, scan_fields};
use crate::plain::read_plain;
use crate::split::part_len;
use crate::word::{Word, read_word};
use eden_model::{Errno, Path, Request};
use std::alloc::{AllocError, Global};

/// What a line of input is.
#[derive(Debug, Drop)]
pub enum Item {
    /// A request.
    Asks(Request),
    /// Of a request's form, but a name or a path in it is none: the first refusal from the left.
    Refuses(Errno),
    /// No request.
    Bad,
}

/// The item that a line is, without its line feed. Want of memory, the only error, comes only where it is a request.
pub fn read_request(alloc: Global, line: &[u8]) -> Result<Item, AllocError>
    ensures item { IfOk result (IsReadAs line.now) }
    ensures memory { OnErr result (AsksSome line.now) }
{
    match read_plain(alloc, line) {
        Some(request) => Ok(Item::Asks(request)),
        None => read_any(alloc, line),
    }
}

// The same for every line, in two passes: nothing is read into memory before the whole line was looked through.
#[inline(never)]
fn read_any(alloc: Global, line: &[u8]) -> Result<Item, AllocError>
    ensures item { IfOk result (IsReadAs line.now) }
    ensures memory { OnErr result (AsksSome line.now) }
{
    let (first, fields) = line.split_at(part_len(line, b' '));
    let Some(word) = read_word(first) else {
        return Ok(Item::Bad);
    };
    match scan_fields(word.shape(), fields) {
        None => Ok(Item::Bad),
        Some(Some(errno)) => Ok(Item::Refuses(errno)),
        Some(None) => Ok(Item::Asks(build(alloc, word, fields)?)),
    }
}

// The path that each request begins with. The only error is want of memory.
fn first_path(alloc: Global, word: Word, fields: &mut Fields) -> Result<Path, AllocError>
    requires { ScansFields (shape_of word) fields.old.rest.now None }
    ensures { IfOk result (λ path. Takes (of_path path) fields.old.rest.now fields.new.rest.now) }
{
    match word.shape() {
        [_] => fields.only_path(alloc),
        _ => fields.path(alloc),
    }
}

// The request of the word and the fields behind it. The only error is want of memory.
fn build(alloc: Global, word: Word, text: &[u8]) -> Result<Request, AllocError>
    requires { ScansFields (shape_of word) text.now None }
    ensures { IfOk result (SpellsRequest word text.now) }
{
    let mut fields = Fields::new(text);
    let path = first_path(alloc, word, &mut fields)?;
    Ok(match word {
        Word::Kind => Request::Kind(path),
        Word::Stat => Request::Stat(path),
        Word::Read => Request::Read(path, fields.number(), fields.number()),
        Word::ReadLink => Request::ReadLink(path),
        Word::List => Request::List(path, fields.after(alloc)?, fields.number()),
        Word::Write => Request::Write(path, fields.number(), fields.data(alloc)?),
        Word::Truncate => Request::Truncate(path, fields.number()),
        Word::Create => Request::Create(path),
        Word::SetExec => Request::SetExec(path, fields.bit()),
        Word::Mkdir => Request::Mkdir(path),
        Word::Symlink => Request::Symlink(path, fields.data(alloc)?),
        Word::Unlink => Request::Unlink(path),
        Word::Rmdir => Request::Rmdir(path),
        Word::Rename => Request::Rename(path, fields.path(alloc)?),
    })
}
