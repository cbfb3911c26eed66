/// The word that a framed object begins with.
#[derive(Clone, Copy, Debug, PartialEq, Eq)]
pub enum Word {
    Blob,
    Tree,
    Commit,
    Tag,
}
