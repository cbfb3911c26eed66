// Members of structs: numbers at their offsets, names that a NUL ends, and numbers that are written one by one.
ghost use Rattle.std.specs.Prelude.{◌≡◌, ◌≤◌, ◌<◌, ◌+◌, ◌==◌, ◌++◌, length, option_map, position, IfSome, vec_capacity};
ghost use Rattle.eden_fuse_format.specs.Members.{u32_at, u64_at, behind, cut, name_in, names_in};
ghost use Rattle.eden_fuse_format.specs.Members.{member_text, members_text};

/// A number with the width of its type.
#[derive(Clone, Copy)]
pub(crate) enum Member {
    U16(u16),
    U32(u32),
    U64(u64),
}

/// The number of four bytes at this offset.
pub(crate) fn u32_at(bytes: &[u8], offset: usize) -> u32
    requires { offset + 4 ≤ length bytes.now }
    ensures { result ≡ u32_at offset bytes.now }
{
    let (_, rest) = bytes.split_at(offset);
    let (front, _) = rest.split_at(4);
    u32::from_le_bytes([front[0], front[1], front[2], front[3]])
}

/// The number of eight bytes at this offset.
pub(crate) fn u64_at(bytes: &[u8], offset: usize) -> u64
    requires { offset + 8 ≤ length bytes.now }
    ensures { result ≡ u64_at offset bytes.now }
{
    let (_, rest) = bytes.split_at(offset);
    let (front, _) = rest.split_at(8);
    u64::from_le_bytes([
        front[0], front[1], front[2], front[3], front[4], front[5], front[6], front[7],
    ])
}

/// The bytes behind a struct of this size, if there is one.
pub(crate) fn behind(size: usize, bytes: &[u8]) -> Option<&[u8]>
    ensures { option_map (λ x. x.now) result ≡ behind size bytes.now }
{
    if bytes.len() < size {
        return None;
    }
    Some(bytes.split_at(size).1)
}

// Where the first NUL is.
fn nul_at(bytes: &[u8]) -> Option<usize>
    ensures at { result ≡ position (λ b. b == 0) bytes.now }
    ensures within { IfSome result (λ k. k < length bytes.now) }
{
    bytes.iter().position(|b| *b == 0)
}

/// The bytes before the first NUL, and those behind it.
fn cut(bytes: &[u8]) -> Option<(&[u8], &[u8])>
    ensures { option_map (λ x. (x.0.now, x.1.now)) result ≡ cut bytes.now }
{
    match nul_at(bytes) {
        None => None,
        Some(at) => {
            let (front, _) = bytes.split_at(at);
            let (_, rest) = bytes.split_at(at + 1);
            Some((front, rest))
        }
    }
}

/// The one name that the bytes are.
pub(crate) fn name_in(bytes: &[u8]) -> Option<&[u8]>
    ensures { option_map (λ x. x.now) result ≡ name_in bytes.now }
{
    let (name, rest) = cut(bytes)?;
    if rest.is_empty() { Some(name) } else { None }
}

/// The two names that the bytes are.
pub(crate) fn names_in(bytes: &[u8]) -> Option<(&[u8], &[u8])>
    ensures { option_map (λ x. (x.0.now, x.1.now)) result ≡ names_in bytes.now }
{
    let (first, rest) = cut(bytes)?;
    let second = name_in(rest)?;
    Some((first, second))
}

// Appends one number, for which there is room.
fn put_member(out: &mut Vec<u8>, member: Member)
    requires { length out.old.items + length (member_text member) ≤ vec_capacity out.old }
    ensures items { out.new.items ≡ out.old.items ++ member_text member }
    ensures room { vec_capacity out.old ≤ vec_capacity out.new }
{
    match member {
        Member::U16(number) => out.extend_from_slice(&number.to_le_bytes()).unwrap(),
        Member::U32(number) => out.extend_from_slice(&number.to_le_bytes()).unwrap(),
        Member::U64(number) => out.extend_from_slice(&number.to_le_bytes()).unwrap(),
    }
}

/// Appends numbers, for which there is room.
#[tactic(auto, unfolding(crate::specs::Members::members_text))]
pub(crate) fn put_members(out: &mut Vec<u8>, members: &[Member])
    requires { length out.old.items + length (members_text members.now) ≤ vec_capacity out.old }
    ensures items { out.new.items ≡ out.old.items ++ members_text members.now }
    ensures room { vec_capacity out.old ≤ vec_capacity out.new }
{
    for member in members {
        put_member(out, *member);
    }
}
