//! A content that is put together from pieces.

ghost use Rattle.std.specs.Prelude.{◌≡◌, ◌≤◌, ◌<◌, ◌+◌, ◌++◌, length, IfOk, IfSome, OnErr, vec_capacity};
ghost use Rattle.eden_model.specs.Operations.{resized, written};
ghost use Rattle.eden_overlay_format.specs.Content.{content_most};

use std::alloc::AllocError;
use std::marker::Model;

/// A content that is put together from pieces, which are lent, so that none is copied before the content is stored:
/// bytes before, zeros, bytes that are put, and bytes after. Contracts see the whole content.
#[derive(Drop)]
pub struct Spliced<'a> {
    before: &'a [u8],
    zeros: usize,
    put: &'a [u8],
    after: &'a [u8],
}

impl<'a> Model for Spliced<'a> {
    ghost use Rattle.std.specs.Prelude.{ℕ, List, ◌++◌, replicate};

    ghost Value = { List ℕ };

    ghost view = { λ s. (s.before.now ++ replicate s.zeros 0) ++ s.put.now ++ s.after.now };
}

impl<'a> Spliced<'a> {
    /// Those bytes.
    pub fn whole(content: &'a [u8]) -> Spliced<'a>
        ensures { result ≡ content.now }
    {
        Spliced {
            before: &[],
            zeros: 0,
            put: content,
            after: &[],
        }
    }

    /// A content cut to a size in bytes, or filled up with zeros.
    pub fn resized(old: &'a [u8], size: usize) -> Spliced<'a>
        ensures { result ≡ resized size old.now }
    {
        Spliced {
            before: &old[..old.len().min(size)],
            zeros: size.saturating_sub(old.len()),
            put: &[],
            after: &[],
        }
    }

    /// A content with other bytes from an offset on. A gap between its end and the offset is filled with zeros; without
    /// bytes nothing changes.
    pub fn written(old: &'a [u8], offset: usize, bytes: &'a [u8]) -> Spliced<'a>
        requires fits { offset + length bytes.now ≤ content_most }
        ensures { result ≡ written offset bytes.now old.now }
    {
        if bytes.is_empty() {
            return Spliced::whole(old);
        }
        let end = offset + bytes.len();
        Spliced {
            before: &old[..old.len().min(offset)],
            zeros: offset.saturating_sub(old.len()),
            put: bytes,
            after: &old[old.len().min(end)..],
        }
    }

    /// The content, where no zeros are in it and one piece at most has bytes, which isn't the last.
    pub fn as_slice(&self) -> Option<&[u8]>
        ensures { IfSome result (λ content. content.now ≡ self.now) }
    {
        if self.zeros > 0 || !self.after.is_empty() {
            return None;
        }
        if self.put.is_empty() {
            return Some(self.before);
        }
        self.before.is_empty().then_some(self.put)
    }

    /// The content's length in bytes.
    pub(crate) fn len(&self) -> usize
        requires { length self.now ≤ content_most }
        ensures { result ≡ length self.now }
    {
        self.before.len() + self.zeros + self.put.len() + self.after.len()
    }

    /// Appends the content to bytes.
    pub(crate) fn append_to(&self, out: &mut Vec<u8>) -> Result<(), AllocError>
        requires { length self.now ≤ content_most }
        ensures items { IfOk result (λ _. out.new.items ≡ out.old.items ++ self.now) }
        ensures full { OnErr result (vec_capacity out.old < length out.old.items + length self.now) }
    {
        out.extend_from_slice(self.before)?;
        out.resize(out.len() + self.zeros, 0)?;
        out.extend_from_slice(self.put)?;
        out.extend_from_slice(self.after)
    }
}
