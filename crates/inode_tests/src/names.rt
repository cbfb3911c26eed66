//! Names, and paths of letters that stand for names; a test ends if there is no memory for them.

ghost use Rattle.std.specs.Prelude.{◌≡◌};

use eden_model::Name;
use std::alloc::Global;
use std::process::Abort;

/// A path, a letter for each name.
pub(crate) type Letters = &'static [u8];

pub(crate) const ROOT: Letters = b"";

pub(crate) const BAK: Letters = b"a";

pub(crate) const NEW: Letters = b"b";

pub(crate) const TEST: Letters = b"c";

pub(crate) const BAK_TEST: Letters = b"ac";

pub(crate) fn name(rt: &impl Abort, alloc: Global, bytes: &[u8]) -> Name
    ensures { result ≡ bytes.now }
{
    let bytes = bytes.to_vec(alloc).expect(rt, "memory");
    Name::new(bytes).expect(rt, "a name")
}

/// What a letter stands for: the names of the sample commit, and others.
pub(crate) fn named(letter: u8) -> &'static [u8] {
    match letter {
        b'a' => b"bak",
        b'b' => b"new.txt",
        b'd' => b"d",
        b'l' => b"l",
        b't' => b"t",
        _ => b"test.txt",
    }
}

/// A path, name by name.
pub(crate) fn names(rt: &impl Abort, alloc: Global, letters: &[u8]) -> Vec<Name> {
    let mut names = Vec::new(alloc);
    for letter in letters {
        let name = name(rt, alloc, named(*letter));
        names.push(name).expect(rt, "memory");
    }
    names
}

/// A path with one letter more.
pub(crate) fn below(rt: &impl Abort, alloc: Global, path: &[u8], letter: u8) -> Vec<u8> {
    let mut below = Vec::from_slice(alloc, path).expect(rt, "memory");
    below.push(letter).expect(rt, "memory");
    below
}

/// A name in a directory.
#[derive(Clone, Copy)]
pub(crate) struct Place<'a> {
    pub(crate) path: &'a [u8],
    pub(crate) letter: u8,
}

/// The same in names.
#[derive(Drop)]
pub(crate) struct Spot {
    pub(crate) path: Vec<Name>,
    pub(crate) name: Name,
}

pub(crate) fn spot_of(rt: &impl Abort, alloc: Global, place: Place<'_>) -> Spot {
    Spot {
        path: names(rt, alloc, place.path),
        name: name(rt, alloc, named(place.letter)),
    }
}
