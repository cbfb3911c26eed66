//! Paths as they are spelled in lines.
use eden_model::Name;
use percent_encoding::{AsciiSet, NON_ALPHANUMERIC, ascii_set, percent_encode};
use std::alloc::{AllocError, Global};

/// All but letters, digits, `.` and `_`, as in the lines of a session.
const ESCAPED: AsciiSet = ascii_set!(NON_ALPHANUMERIC.remove(b'.').remove(b'_'));

/// A path below the root, as a session's lines have it: before each name a slash, and its bytes escaped.
pub fn path_text(alloc: Global, path: &[Name]) -> Result<String, AllocError> {
    let mut text = String::new(alloc);
    for name in path {
        text.push_str("/")?;
        percent_encode(name.as_slice(), ESCAPED).append_to(&mut text)?;
    }
    Ok(text)
}
