use crate::blobs::blob_at;
use crate::commit::{Member, Tree};
use crate::names::{Places, below, bytes, path_of};
use crate::unmade::Unmade;
use eden_model::{Bytes, Node, Path};
use std::alloc::{AllocError, Global};

/// The most directories of a commit that are looked into.
const MOST_PLACES: u32 = 1_000;

fn blob_content(alloc: Global, index: usize) -> Result<Option<Bytes>, AllocError> {
    match blob_at(index).content {
        Ok(content) => Ok(Some(bytes(alloc, content)?)),
        Err(_) => Ok(None),
    }
}

fn content(alloc: Global, member: Member) -> Result<Option<Bytes>, AllocError> {
    match member {
        Member::File(index) | Member::Exec(index) | Member::Link(index) => {
            blob_content(alloc, index)
        }
        Member::Dir(_) | Member::Module => Ok(None),
    }
}

/// What an entry that is no directory of a tree shows.
fn node(alloc: Global, member: Member) -> Result<Node, AllocError> {
    let content = content(alloc, member)?;
    Ok(match member {
        Member::File(_) => Node::File(false, content),
        Member::Exec(_) => Node::File(true, content),
        Member::Link(_) => Node::Link(content),
        Member::Dir(_) | Member::Module => Node::Dir(true),
    })
}

/// The rows of a whole tree, and the directories whose rows are missing yet, each with its tree's index.
#[derive(Drop)]
struct Rows {
    all: Vec<(Path, Node)>,
    left: Vec<(Places, usize)>,
}

impl Rows {
    fn push(&mut self, alloc: Global, places: &[u8], node: Node) -> Result<(), Unmade> {
        let at = path_of(alloc, places)?;
        self.all.push((at, node))?;
        Ok(())
    }

    /// An entry of a directory: its row, or its place among those that are left.
    fn push_member(&mut self, alloc: Global, places: Places, member: Member) -> Result<(), Unmade> {
        if let Member::Dir(index) = member {
            self.left.push((places, index))?;
            return Ok(());
        }
        let node = node(alloc, member)?;
        self.push(alloc, &places, node)
    }

    fn push_members(
        &mut self,
        alloc: Global,
        places: &[u8],
        members: &[Option<Member>; 4],
    ) -> Result<(), Unmade> {
        for place in 0..4u8 {
            if let Some(member) = members[place as usize] {
                self.push_member(alloc, below(alloc, places, place)?, member)?;
            }
        }
        Ok(())
    }

    fn push_tree(&mut self, alloc: Global, places: &[u8], tree: &Tree) -> Result<(), Unmade> {
        let is_there = tree.is_there();
        self.push(alloc, places, Node::Dir(is_there))?;
        if is_there {
            self.push_members(alloc, places, &tree.members)?;
        }
        Ok(())
    }

    /// The next of the directories that are left, if one is.
    fn push_next(&mut self, alloc: Global, trees: &[Tree]) -> Result<(), Unmade> {
        let Some((places, index)) = self.left.pop() else {
            return Ok(());
        };
        match trees.get(index) {
            Some(tree) => self.push_tree(alloc, &places, tree),
            None => Err(Unmade::NoTree),
        }
    }
}

/// The rows of the tree of that index among these, and of all that stands below it.
pub(crate) fn rows_of(
    alloc: Global,
    trees: &[Tree],
    root: usize,
) -> Result<Vec<(Path, Node)>, Unmade> {
    let mut rows = Rows {
        all: Vec::new(alloc),
        left: Vec::new(alloc),
    };
    rows.left.push((Vec::<u8>::new(alloc), root))?;
    for _ in 0..MOST_PLACES {
        rows.push_next(alloc, trees)?;
    }
    Ok(rows.all)
}
