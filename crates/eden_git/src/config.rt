// A repository's file `config` (git-config(1), "Syntax"), as far as it says what the ids are.

/// Whether the file names no other ids than SHA-1 (`extensions.objectFormat`), and no version of the repository's
/// format beyond 1 (`core.repositoryFormatVersion`). It is read leniently: what is no setting says nothing.
pub(crate) fn is_format_known(config: &[u8]) -> bool {
    let mut section: &[u8] = b"";
    for line in config.split(|byte| *byte == b'\n') {
        let mut setting = line.trim_ascii();
        if let Some((name, rest)) = split_section(setting) {
            section = name;
            setting = rest;
        }
        if !is_known(section, setting) {
            return false;
        }
    }
    true
}

// The section's name, and what stands behind it on the line.
fn split_section(line: &[u8]) -> Option<(&[u8], &[u8])> {
    let name = line.strip_prefix(b"[")?;
    let end = name.iter().position(|byte| *byte == b']')?;
    Some((name[..end].trim_ascii(), name[end + 1..].trim_ascii()))
}

fn is_known(section: &[u8], setting: &[u8]) -> bool {
    let Some(end) = setting.iter().position(|byte| *byte == b'=') else {
        return true;
    };
    let name = setting[..end].trim_ascii();
    let value = value_of(&setting[end + 1..]);
    if section.eq_ignore_ascii_case(b"extensions") && name.eq_ignore_ascii_case(b"objectformat") {
        value == b"sha1".as_slice()
    } else if section.eq_ignore_ascii_case(b"core")
        && name.eq_ignore_ascii_case(b"repositoryformatversion")
    {
        value == b"0".as_slice() || value == b"1".as_slice()
    } else {
        true
    }
}

// The value without quotes and without a comment behind it.
fn value_of(text: &[u8]) -> &[u8] {
    let end = text.iter().position(|byte| *byte == b'#' || *byte == b';');
    let value = text[..end.unwrap_or(text.len())].trim_ascii();
    value
        .strip_prefix(b"\"")
        .and_then(|quoted| quoted.strip_suffix(b"\""))
        .unwrap_or(value)
}
