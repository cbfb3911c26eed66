/// Why a tree has no entry of a directory that is shown.
#[derive(Clone, Copy, Debug, PartialEq, Eq)]
pub enum LeftOut {
    /// Nothing is written in it, and Git has no empty directories.
    Empty,
    /// It is a submodule, and the commit has none at its path: so the id of its commit isn't known.
    Submodule,
}
