ghost use Rattle.std.specs.Prelude.{◌≡◌, ◌≤◌, Some, length, drop, IfOk, IfErr};
ghost use Rattle.eden_overlay_format.specs.Stored.{Refuses};
ghost use Rattle.eden_overlay_format.specs.Content.{content_most};
ghost use Rattle.eden_overlay_format.specs.Values.{content_in};
ghost use Rattle.eden_overlay_format.specs.declared.header.Identifier.TheVariants as identifier;

use eden_overlay_format::{HEADER_LEN, Refusal, decode_file};
use std::marker::Model;

/// The content of a stored file or link, as it was read: at most 2^30 bytes. Contracts see the bytes.
#[derive(Debug, Drop)]
pub struct Content {
    // The whole file, so that the content isn't copied out of it.
    file: Vec<u8>,
}

impl Model for Content {
    ghost use Rattle.std.specs.Prelude.{List, ℕ, drop, length, ◌≤◌};
    ghost use Rattle.eden_overlay_format.specs.Content.{content_most};

    ghost Value = { List ℕ };

    ghost view = { λ c. drop 64 c.file.items };

    ghost invariant = { λ c. (64 ≤ length c.file.items) × (length (drop 64 c.file.items) ≤ content_most) };
}

impl Content {
    /// The content of a stored file, or the first refusal.
    pub(crate) fn of_file(file: Vec<u8>) -> Result<Content, Refusal>
        ensures found { IfOk result (λ content. content_in file.items ≡ Some content) }
        ensures refused { IfErr result (Refuses identifier.File content_in file.items) }
    {
        let _content = decode_file(&file)?;
        Ok(Content { file })
    }

    /// The content behind room for a header.
    pub(crate) fn of_unsealed(file: Vec<u8>) -> Content
        requires room { 64 ≤ length file.items }
        requires short { length (drop 64 file.items) ≤ content_most }
        ensures { result ≡ drop 64 file.items }
    {
        Content { file }
    }

    /// The file.
    pub(crate) fn into_file(self) -> Vec<u8>
        ensures { drop 64 result.items ≡ self }
    {
        self.file
    }

    /// The bytes.
    pub fn as_slice(&self) -> &[u8]
        ensures same { result.now ≡ self.now }
        ensures short { length result.now ≤ content_most }
    {
        let (_, content) = self.file.split_at(HEADER_LEN);
        content
    }
}
