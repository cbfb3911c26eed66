// Bytes that wait to be stored.
ghost use Rattle.std.specs.Prelude.{
  ◌≡◌,
  ◌≤◌,
  ◌<◌,
  ◌+◌,
  ◌-◌,
  ◌++◌,
  ℕ,
  None,
  Some,
  false,
  true,
  length,
  take,
  IfOk,
  IfSome,
  IsSome,
  OnErr,
  OnOk,
};
ghost use Rattle.std.specs.Option.{option_map};
ghost use Rattle.eden_model.specs.Limits.{most_file};
ghost use Rattle.eden_model.specs.Operations.{resized, written};
ghost use Rattle.eden_fuse_shown.specs.Waiting.{
  Adds,
  Bridges,
  Ends,
  across,
  all_of,
  bridged,
  can_join,
  extent_of,
  gap_at,
  gap_of,
  has_room,
  joined,
  may_wait,
  most_bridged,
  most_waiting,
  seen_length,
  seen_part,
};

use eden_model::{MAX_FILE, SharedBytes, change_laws};
use std::alloc::{AllocError, Global};
use std::collections::BTreeMap;
use std::marker::Model;

/// The most bytes of all extents together: 128 MiB.
const MOST_WAITING: u64 = 128 << 20;

/// The most bytes of all extents together once one has other bytes of its file in it: 64 MiB.
const MOST_BRIDGED: u64 = 64 << 20;

/// What lies between bytes that wait and others: where it begins, and how many bytes it has.
#[derive(Clone, Copy, Debug, PartialEq, Eq)]
pub struct Gap {
    pub from: u64,
    pub len: u64,
}

/// Bytes of a file, from an offset on. Contracts see both.
#[derive(Drop)]
pub struct Extent {
    from: u64,
    bytes: SharedBytes,
}

impl Model for Extent {
    ghost use Rattle.eden_fuse_shown.specs.Waiting.{Extent};

    ghost Value = { Extent };

    ghost view = { λ e. record { from = e.from; bytes = e.bytes } };
}

impl Extent {
    /// The bytes from that offset on. The only error is want of memory.
    fn new(alloc: Global, from: u64, bytes: &[u8]) -> Result<Extent, AllocError>
        ensures { IfOk result (λ e. e ≡ joined None from bytes.now) }
    {
        Ok(Extent {
            from,
            bytes: SharedBytes::new(alloc, Vec::from_slice(alloc, bytes)?)?,
        })
    }

    /// Where it begins.
    pub fn from(&self) -> u64
        ensures { result ≡ self.now.from }
    {
        self.from
    }

    /// Its bytes.
    pub fn bytes(&self) -> &[u8]
        ensures { result.now ≡ self.now.bytes }
    {
        self.bytes.as_slice()
    }

    /// Its bytes, which have one more owner then. The only error is that they have as many as can be counted.
    pub(crate) fn share(&self) -> Result<SharedBytes, AllocError>
        ensures { IfOk result (λ b. b ≡ self.now.bytes) }
    {
        self.bytes.share()
    }

    // How long its file is seen, of which the mount tells that it is so long.
    fn seen_length(&self, size: u64) -> u64
        ensures { result ≡ seen_length (Some self.now) size }
    {
        let len = self.len();
        if len == 0 || self.from > MAX_FILE || len > MAX_FILE - self.from {
            return size;
        }
        size.max(self.from + len)
    }

    // So many bytes of its file from an offset on, of which the mount tells these.
    fn seen_part(
        &self,
        alloc: Global,
        from: u64,
        count: u64,
        part: Vec<u8>,
    ) -> Result<Vec<u8>, AllocError>
        ensures { IfOk result (λ v. v.items ≡ seen_part (Some self.now) from count part.items) }
    {
        let bytes = self.bytes.as_slice();
        if self.from < from {
            let gone = from - self.from;
            let rest = bytes.get(gone as usize..).unwrap_or(&[]);
            return laid_over(alloc, 0, rest, count, part);
        }
        laid_over(alloc, self.from - from, bytes, count, part)
    }

    // How many bytes.
    fn len(&self) -> u64
        ensures { result ≡ length self.now.bytes }
    {
        self.bytes.len() as u64
    }

    // Whether bytes at an offset begin in it, or where it ends.
    fn can_join(&self, from: u64) -> bool
        ensures { result ≡ can_join (Some self.now) from }
    {
        from >= self.from && from - self.from <= self.len()
    }

    // Writes bytes into it, from an offset in it or its end on; how many bytes more it has then. Without memory nothing
    // changes.
    fn write(&mut self, alloc: Global, from: u64, bytes: &[u8]) -> Result<u64, AllocError>
        requires { can_join (Some self.old) from ≡ true }
        ensures ok { OnOk result (self.new ≡ joined (Some self.old) from bytes.now) }
        ensures more { IfOk result (λ n. length self.new.bytes ≡ length self.old.bytes + n) }
        ensures most { IfOk result (λ n. n ≤ length bytes.now) }
        ensures err { OnErr result (self.new ≡ self.old) }
    {
        let before = self.len();
        self.bytes.write(alloc, (from - self.from) as usize, bytes)?;
        Ok(self.len() - before)
    }

    // What lies between it and an offset.
    fn gap_at(&self, from: u64) -> Gap
        requires { self.now.from + length self.now.bytes ≤ most_file }
        ensures { result ≡ gap_at self.now from }
    {
        let end = self.from + self.len();
        if from < self.from {
            Gap {
                from,
                len: self.from - from,
            }
        } else {
            Gap {
                from: end,
                len: from.saturating_sub(end),
            }
        }
    }

    // Writes bytes in front of it, with what the file has between them. Without memory nothing changes.
    fn begin_at(
        &mut self,
        alloc: Global,
        from: u64,
        between: Vec<u8>,
        bytes: &[u8],
    ) -> Result<(), AllocError>
        requires { from < self.old.from }
        ensures ok { OnOk result (self.new ≡ joined (Some (bridged self.old from between.items)) from bytes.now) }
        ensures err { OnErr result (self.new ≡ self.old) }
    {
        let content = filled(between, (self.from - from) as usize, self.bytes.as_slice())?;
        let mut content = SharedBytes::new(alloc, content)?;
        content.write(alloc, 0, bytes)?;
        self.bytes = content;
        self.from = from;
        Ok(())
    }

    // .. behind it.
    fn go_on_at(
        &mut self,
        alloc: Global,
        from: u64,
        between: Vec<u8>,
        bytes: &[u8],
    ) -> Result<(), AllocError>
        requires end { self.old.from + length self.old.bytes ≤ most_file }
        requires apart { self.old.from + length self.old.bytes ≤ from }
        requires some { 0 < length bytes.now }
        ensures ok { OnOk result (self.new ≡ joined (Some (bridged self.old from between.items)) from bytes.now) }
        ensures err { OnErr result (self.new ≡ self.old) }
    {
        change_laws();
        let rest = filled(between, self.gap_at(from).len as usize, bytes)?;
        self.bytes.write(alloc, self.bytes.len(), rest.as_slice())
    }

    // Writes bytes that don't join it into it, with what the file has between them; how many bytes more it has then.
    // Without memory nothing changes.
    fn bridge(
        &mut self,
        alloc: Global,
        from: u64,
        between: Vec<u8>,
        bytes: &[u8],
    ) -> Result<u64, AllocError>
        requires apart { can_join (Some self.old) from ≡ false }
        requires end { self.old.from + length self.old.bytes ≤ most_file }
        requires some { 0 < length bytes.now }
        ensures ok { OnOk result (self.new ≡ joined (Some (bridged self.old from between.items)) from bytes.now) }
        ensures more { IfOk result (λ n. length self.new.bytes ≡ length self.old.bytes + n) }
        ensures most { IfOk result (λ n. n ≤ (gap_at self.old from).len + length bytes.now) }
        ensures err { OnErr result (self.new ≡ self.old) }
    {
        let before = self.len();
        if from < self.from {
            self.begin_at(alloc, from, between, bytes)?;
        } else {
            self.go_on_at(alloc, from, between, bytes)?;
        }
        Ok(self.len() - before)
    }
}

// What lies between, cut to so many bytes or with zeros up to them, and others behind it.
fn filled(mut between: Vec<u8>, len: usize, behind: &[u8]) -> Result<Vec<u8>, AllocError>
    ensures { IfOk result (λ v. v.items ≡ resized len between.items ++ behind.now) }
{
    between.resize(len, 0)?;
    between.extend_from_slice(behind)?;
    Ok(between)
}

// The first so many bytes of a part with others written into it.
fn laid_over(
    alloc: Global,
    at: u64,
    bytes: &[u8],
    count: u64,
    part: Vec<u8>,
) -> Result<Vec<u8>, AllocError>
    ensures { IfOk result (λ v. v.items ≡ take count (written at bytes.now part.items)) }
{
    let mut part = part;
    if bytes.is_empty() {
        part.truncate(count as usize);
        return Ok(part);
    }
    if at >= count {
        part.resize(count as usize, 0)?;
        return Ok(part);
    }
    let (at, room) = (at as usize, (count - at) as usize);
    if bytes.len() >= room {
        change_laws();
        let (bytes, _) = bytes.split_at(room);
        return filled(part, at, bytes);
    }
    let rest = Vec::from_slice(alloc, part.get(at + bytes.len()..).unwrap_or(&[]))?;
    let mut seen = filled(part, at, bytes)?;
    seen.extend_from_slice(&rest)?;
    seen.truncate(count as usize);
    Ok(seen)
}

// What waits of each node is changed at one node.

// Bytes begin an extent of a node that has none. Without memory nothing changes.
fn begin(
    extents: &mut BTreeMap<u64, Extent>,
    alloc: Global,
    node: u64,
    from: u64,
    bytes: &[u8],
) -> Result<(), AllocError>
    requires { extent_of extents.old.entries node ≡ None }
    ensures ok { OnOk result (Adds extents.old.entries extents.new.entries node from bytes.now) }
    ensures more { OnOk result (all_of extents.new.entries ≡ all_of extents.old.entries + length bytes.now) }
    ensures err { OnErr result (extents.new.entries ≡ extents.old.entries) }
{
    let extent = Extent::new(alloc, from, bytes)?;
    match extents.insert(node, extent) {
        Ok(_) => Ok(()),
        Err(_) => Err(AllocError),
    }
}

// Bytes are written into a node's extent; how many bytes more it has then. Without memory nothing changes.
fn write_into(
    extents: &mut BTreeMap<u64, Extent>,
    alloc: Global,
    node: u64,
    from: u64,
    bytes: &[u8],
) -> Result<u64, AllocError>
    requires there { IsSome (extent_of extents.old.entries node) }
    requires joins { can_join (extent_of extents.old.entries node) from ≡ true }
    ensures ok { OnOk result (Adds extents.old.entries extents.new.entries node from bytes.now) }
    ensures more { IfOk result (λ n. all_of extents.new.entries ≡ all_of extents.old.entries + n) }
    ensures most { IfOk result (λ n. n ≤ length bytes.now) }
    ensures err { OnErr result (extents.new.entries ≡ extents.old.entries) }
{
    match extents.get_mut(&node) {
        None => Ok(0),
        Some(extent) => extent.write(alloc, from, bytes),
    }
}

// Whether there is room, beside so many bytes, for others that don't join an extent and for what lies between.
fn has_room(all: u64, extent: &Extent, from: u64, bytes: &[u8]) -> bool
    requires { all ≤ most_waiting }
    ensures room { result ≡ has_room all extent.now from bytes.now }
    ensures fits { result ≡ true → (extent.now.from + length extent.now.bytes ≤ most_file) × (from ≤ most_file) }
{
    let len = bytes.len() as u64;
    if extent.can_join(from) || extent.len() == 0 || len == 0 {
        return false;
    }
    if extent.from > MAX_FILE || extent.len() > MAX_FILE - extent.from {
        return false;
    }
    if from > MAX_FILE || len > MAX_FILE - from {
        return false;
    }
    all + extent.gap_at(from).len + len <= MOST_BRIDGED
}

// Bytes are written into a node's extent that they don't join; how many bytes more it has then. Without memory nothing
// changes.
fn bridge_into(
    extents: &mut BTreeMap<u64, Extent>,
    alloc: Global,
    node: u64,
    from: u64,
    between: Vec<u8>,
    bytes: &[u8],
) -> Result<u64, AllocError>
    requires { IsSome (gap_of extents.old.entries node from bytes.now) }
    ensures ok { OnOk result (Bridges extents.old.entries extents.new.entries node from between.items bytes.now) }
    ensures more { IfOk result (λ n. all_of extents.new.entries ≡ all_of extents.old.entries + n) }
    ensures most { IfOk result (λ n. all_of extents.old.entries + n ≤ most_bridged) }
    ensures err { OnErr result (extents.new.entries ≡ extents.old.entries) }
{
    match extents.get_mut(&node) {
        None => Ok(0),
        Some(extent) => extent.bridge(alloc, from, between, bytes),
    }
}

// Nothing waits for a node any more; how many bytes did.
fn clear(extents: &mut BTreeMap<u64, Extent>, node: u64) -> u64
    ensures cleared { Ends extents.old.entries extents.new.entries node }
    ensures less { all_of extents.new.entries + result ≡ all_of extents.old.entries }
{
    match extents.remove(&node) {
        None => 0,
        Some(extent) => extent.len(),
    }
}

/// What waits to be stored, by nodes. Contracts see the list of the extents.
#[derive(Drop)]
pub struct Extents {
    extents: BTreeMap<u64, Extent>,
    // The bytes of all.
    all: u64,
}

impl Model for Extents {
    ghost use Rattle.std.specs.Prelude.{◌≡◌, ◌≤◌};
    ghost use Rattle.eden_fuse_shown.specs.Waiting.{Table, all_of, most_waiting};

    ghost Value = { Table };

    ghost view = { λ e. e.extents.entries };

    ghost invariant = { λ e. (e.all ≡ all_of e.extents.entries) × (e.all ≤ most_waiting) };
}

impl Extents {
    /// Nothing waits.
    pub fn new(alloc: Global) -> Extents
        ensures { (i : ℕ) → extent_of result i ≡ None }
    {
        Extents {
            extents: BTreeMap::new(alloc),
            all: 0,
        }
    }

    /// What waits for a node.
    pub fn get(&self, node: u64) -> Option<&Extent>
        ensures { option_map (λ e. e.now) result ≡ extent_of self.now node }
    {
        let _ = &self.all;
        self.extents.get(&node)
    }

    /// How long a node's file is seen, of which a mount tells that it is so long.
    pub fn seen_length(&self, node: u64, size: u64) -> u64
        ensures { result ≡ seen_length (extent_of self.now node) size }
    {
        match self.get(node) {
            None => size,
            Some(extent) => extent.seen_length(size),
        }
    }

    /// What is seen of so many bytes of a node's file from an offset on, of which a mount tells these.
    pub fn seen_part(
        &self,
        alloc: Global,
        node: u64,
        from: u64,
        count: u64,
        part: Vec<u8>,
    ) -> Result<Vec<u8>, AllocError>
        ensures { IfOk result (λ v. v.items ≡ seen_part (extent_of self.now node) from count part.items) }
    {
        match self.get(node) {
            None => Ok(part),
            Some(extent) => extent.seen_part(alloc, from, count, part),
        }
    }

    /// Whether bytes from an offset on may wait: they begin in the node's extent, or where it ends, or there is none;
    /// and there is room for them.
    pub fn may_wait(&self, node: u64, from: u64, bytes: &[u8]) -> bool
        ensures { result ≡ may_wait self.now node from bytes.now }
    {
        let len = bytes.len() as u64;
        if len > MOST_WAITING || self.all + len > MOST_WAITING {
            return false;
        }
        if from > MAX_FILE || from + len > MAX_FILE {
            return false;
        }
        match self.extents.get(&node) {
            None => true,
            Some(extent) => extent.can_join(from),
        }
    }

    /// Bytes wait with those of the node, in place of those that they are written over. Without memory nothing changes.
    pub fn add(
        &mut self,
        alloc: Global,
        node: u64,
        from: u64,
        bytes: &[u8],
    ) -> Result<(), AllocError>
        requires { may_wait self.old node from bytes.now ≡ true }
        ensures ok { OnOk result (Adds self.old self.new node from bytes.now) }
        ensures err { OnErr result (self.new ≡ self.old) }
    {
        if self.extents.contains_key(&node) {
            self.all += write_into(&mut self.extents, alloc, node, from, bytes)?;
        } else {
            begin(&mut self.extents, alloc, node, from, bytes)?;
            self.all += bytes.len() as u64;
        }
        Ok(())
    }

    /// What lies between what waits for a node and bytes from an offset on that don't join it. None if they do, if
    /// there are none, and if there is no room for all of that.
    pub fn gap(&self, node: u64, from: u64, bytes: &[u8]) -> Option<Gap>
        ensures gap { result ≡ gap_of self.now node from bytes.now }
        ensures fits { IfSome result (λ g. (g.from ≤ most_file) × (g.len ≤ most_file)) }
    {
        let extent = self.extents.get(&node)?;
        if has_room(self.all, extent, from, bytes) {
            Some(extent.gap_at(from))
        } else {
            None
        }
    }

    /// Bytes wait with those of the node that they don't join, and with what the file has between them. Without memory
    /// nothing changes.
    pub fn bridge(
        &mut self,
        alloc: Global,
        node: u64,
        from: u64,
        between: Vec<u8>,
        bytes: &[u8],
    ) -> Result<(), AllocError>
        requires { IsSome (gap_of self.old node from bytes.now) }
        ensures ok { OnOk result (Bridges self.old self.new node from between.items bytes.now) }
        ensures err { OnErr result (self.new ≡ self.old) }
    {
        self.all += bridge_into(&mut self.extents, alloc, node, from, between, bytes)?;
        Ok(())
    }

    /// Nothing waits for the node any more.
    pub fn end(&mut self, node: u64)
        ensures { Ends self.old self.new node }
    {
        self.all -= clear(&mut self.extents, node);
    }

    /// The map of the extents.
    pub(crate) fn into_map(self) -> BTreeMap<u64, Extent>
        ensures { result.entries ≡ self }
    {
        let Extents { extents, .. } = self;
        extents
    }
}
