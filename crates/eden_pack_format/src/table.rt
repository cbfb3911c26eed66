// The tables of an index: numbers of four and eight bytes, the highest byte first, and where objects begin.
ghost use Rattle.std.specs.Prelude.{◌≡◌, ◌≤◌, ◌+◌, length};
ghost use Rattle.eden_pack_format.specs.Indexes as spec;

/// Where an object begins in its pack.
#[derive(Clone, Copy)]
pub enum Place {
    /// So many bytes after the pack's beginning.
    At(u64),
    /// As the row of that number says in the table of long places.
    Long(u32),
}

/// Where an object begins by its number in a table of places. A pack's index always has a table of long places, if one
/// without rows; a multi-pack index may have none.
pub fn place_of(number: u32, has_long: bool) -> Place
    ensures { result ≡ spec.place_of has_long number }
{
    if !has_long {
        Place::At(number as u64)
    } else if number < 1 << 31 {
        Place::At(number as u64)
    } else {
        Place::Long(number - (1 << 31))
    }
}

/// The number in the four bytes from there on.
pub(crate) fn number_at(bytes: &[u8], at: usize) -> u32
    requires { at + 4 ≤ length bytes.now }
    ensures { result ≡ spec.number_at bytes.now at }
{
    let mut digits = [0; 4];
    digits.copy_from_slice(&bytes[at..at + 4]);
    u32::from_be_bytes(digits)
}

/// The number in the eight bytes from there on.
pub(crate) fn long_at(bytes: &[u8], at: usize) -> u64
    requires { at + 8 ≤ length bytes.now }
    ensures { result ≡ spec.long_at bytes.now at }
{
    let mut digits = [0; 8];
    digits.copy_from_slice(&bytes[at..at + 8]);
    u64::from_be_bytes(digits)
}
