// Open directories.
ghost use Rattle.std.specs.Prelude.{◌≡◌, ℕ, None, IfOk, OnErr};
ghost use Rattle.std.specs.Prelude.{option_map};
ghost use Rattle.eden_fuse_shown.specs.Listing.{
  Closes,
  IsSamePages,
  Opens,
  Turns,
  kept_at,
  last_at,
  name_at,
  page_of_handle,
  rows_at,
};

use crate::listing::DOTS;
use eden_model::{Entries, Kind, Name};
use std::alloc::{AllocError, Global};
use std::collections::BTreeMap;
use std::marker::Model;

/// What an open directory listed last.
#[derive(Drop)]
pub struct Page {
    /// How many of its entries came before, itself and the one above with them.
    pub from: u64,
    /// The name of the last of them.
    pub before: Option<Name>,
    pub rows: Entries,
    /// Whether others come after them.
    pub more: bool,
}

/// Directories that are open, by their handles. Contracts see the list of their pages.
#[derive(Drop)]
pub struct Pages {
    pages: BTreeMap<u64, Page>,
    // No handle from this one on is in use.
    next: u64,
}

impl Model for Pages {
    ghost use Rattle.std.specs.Prelude.{◌≡◌, ◌<◌, ℕ, Some};
    ghost use Rattle.eden_fuse_shown.specs.Listing.{Table, page_of_handle};
    ghost use Rattle.eden_fuse_shown.specs.declared.pages.Page.{Page};

    ghost Value = { Table };

    ghost view = { λ p. p.pages.entries };

    ghost invariant = { λ p. (i : ℕ) (page : Page) → page_of_handle p.pages.entries i ≡ Some page → i < p.next };
}

// The entries that a page has from the offset on.
fn rows_at(page: &Page, offset: u64) -> Option<&[(Name, Kind)]>
    ensures { option_map (λ rows. rows.now) result ≡ rows_at page.now offset }
{
    let rows = page.rows.as_slice();
    let at = offset.checked_sub(page.from)?;
    if at < rows.len() as u64 {
        let (_, rest) = rows.split_at(at as usize);
        return Some(rest);
    }
    if at == rows.len() as u64 && !page.more {
        return Some(&[]);
    }
    None
}

// The name after which a page is read on.
fn name_at(alloc: Global, page: &Page, offset: u64) -> Result<Option<Option<Name>>, AllocError>
    ensures { IfOk result (λ last. last ≡ name_at page.now offset) }
{
    if offset == page.from {
        return match &page.before {
            None => Ok(Some(None)),
            Some(name) => Ok(Some(Some(name.copy(alloc)?))),
        };
    }
    if offset < page.from {
        return Ok(None);
    }
    match page.rows.as_slice().get((offset - page.from - 1) as usize) {
        None => Ok(None),
        Some((name, _)) => Ok(Some(Some(name.copy(alloc)?))),
    }
}

// What was listed of a directory is let go of before all else is looked at.

// A directory is closed.
fn leave(pages: &mut BTreeMap<u64, Page>, handle: u64)
    ensures { Closes pages.old.entries pages.new.entries handle }
{
    if let Some(page) = pages.remove(&handle) {
        drop(page);
    }
}

// An open directory has listed this page.
fn put(pages: &mut BTreeMap<u64, Page>, handle: u64, page: Page)
    ensures { Turns pages.old.entries pages.new.entries handle page }
{
    if let Some(held) = pages.get_mut(&handle) {
        *held = page;
    }
}

impl Pages {
    /// None is open.
    pub fn new(alloc: Global) -> Pages
        ensures { (i : ℕ) → page_of_handle result i ≡ None }
    {
        Pages {
            pages: BTreeMap::new(alloc),
            next: 1,
        }
    }

    /// Opens a directory, by a handle that no other has. Without memory nothing changes.
    pub fn open(&mut self, alloc: Global) -> Result<u64, AllocError>
        ensures ok { IfOk result (λ handle. Opens self.old self.new handle) }
        ensures err { OnErr result (IsSamePages self.old self.new) }
    {
        let handle = self.next;
        if handle == u64::MAX {
            return Err(AllocError);
        }
        let page = Page {
            from: 0,
            before: None,
            rows: Entries::new(Vec::new(alloc)),
            more: true,
        };
        match self.pages.insert(handle, page) {
            Err(_) => Err(AllocError),
            Ok(_) => {
                self.next = handle + 1;
                Ok(handle)
            }
        }
    }

    /// Closes a directory.
    pub fn close(&mut self, handle: u64)
        ensures { Closes self.old self.new handle }
    {
        leave(&mut self.pages, handle);
    }

    /// The entries that the last listing of an open directory has from the offset on, or none where it is to be listed.
    pub fn kept(&self, handle: u64, offset: u64) -> Option<&[(Name, Kind)]>
        ensures { option_map (λ rows. rows.now) result ≡ kept_at (page_of_handle self.now handle) offset }
    {
        if offset <= DOTS {
            return None;
        }
        rows_at(self.pages.get(&handle)?, offset)
    }

    /// The name after which an open directory is read on from the offset, or none where it isn't known. The only error
    /// is want of memory.
    pub fn last(
        &self,
        alloc: Global,
        handle: u64,
        offset: u64,
    ) -> Result<Option<Option<Name>>, AllocError>
        ensures { IfOk result (λ last. last ≡ last_at (page_of_handle self.now handle) offset) }
    {
        if offset <= DOTS {
            return Ok(Some(None));
        }
        match self.pages.get(&handle) {
            None => Ok(None),
            Some(page) => name_at(alloc, page, offset),
        }
    }

    /// An open directory has listed this page.
    pub fn turn(&mut self, handle: u64, page: Page)
        ensures { Turns self.old self.new handle page }
    {
        put(&mut self.pages, handle, page);
    }
}
