ghost use Rattle.std.specs.Prelude.{◌≡◌};
ghost use Rattle.eden_fuse_nodes.specs.Ways.{Follows, path_in};

use eden_model::{Name, Path};

const ENAMETOOLONG: u32 = 36;

const ESTALE: u32 = 116;

/// Where a node lies.
#[derive(Debug, Drop)]
pub enum Whereabouts {
    At(Path),
    /// Below more names, or longer ones, than a path may have.
    TooFar,
    /// It was removed or replaced, or what it lay below was; or it isn't known.
    Nowhere,
}

impl Whereabouts {
    /// The path, or the number of the error with which a request is refused that needs one: `ENAMETOOLONG` or `ESTALE`.
    pub fn into_path(self) -> Result<Path, u32>
        ensures { result ≡ path_in self }
    {
        match self {
            Whereabouts::At(path) => Ok(path),
            Whereabouts::TooFar => Err(ENAMETOOLONG),
            Whereabouts::Nowhere => Err(ESTALE),
        }
    }
}

// How the way from a node up ends.
#[derive(Drop)]
pub(crate) enum Way {
    /// At the root, by these names, the node's own first.
    AtRoot(Vec<Name>),
    /// After more names than a path may have.
    Far,
    /// At a node that stands nowhere.
    Lost,
}

/// Where a node lies whose way ends so.
pub(crate) fn located(way: Way) -> Whereabouts
    ensures { Follows way result }
{
    match way {
        Way::Far => Whereabouts::TooFar,
        Way::Lost => Whereabouts::Nowhere,
        Way::AtRoot(mut names) => {
            names.reverse();
            match Path::new(names) {
                Ok(path) => Whereabouts::At(path),
                Err(_) => Whereabouts::TooFar,
            }
        }
    }
}
