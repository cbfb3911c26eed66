use crate::blobs::{blob_at, blob_of};
use crate::names::{name, name_at};
use crate::unmade::Unmade;
use crate::whole::rows_of;
use eden_model::{Cause, Id, Key, Mode, ObjKind, TreeEntry};
use eden_object::{encode_tree, id_of, is_encodable};
use eden_oracle::WholeTree;
use std::alloc::Global;
use test_samples::{ONE_MODULE, random};

/// How many trees a random commit has. One names only those before it, so that no path is longer.
const TREES: u32 = 4;

/// An entry of a tree: a file or a link with its blob's index, or a directory with its tree's.
#[derive(Clone, Copy)]
pub(crate) enum Member {
    File(usize),
    Exec(usize),
    Link(usize),
    Dir(usize),
    Module,
}

/// The trees of the sample commit. In the first `test.txt` is `VERSION_1`. In the second `bak` is the first, and
/// `new.txt` and `test.txt` are `NEW_FILE` and `VERSION_2`.
static TWO_FILES: [[Option<Member>; 4]; 2] = [
    [None, None, None, Some(Member::File(1))],
    [
        Some(Member::Dir(0)),
        Some(Member::File(3)),
        None,
        Some(Member::File(2)),
    ],
];

/// A tree: what stands at each of the four names.
#[derive(Drop)]
pub(crate) struct Tree {
    id: Id,
    framed: Vec<u8>,
    pub(crate) members: [Option<Member>; 4],
}

impl Tree {
    /// Whether the repository has it. Its id decides, so that equal trees are there or lost together.
    pub(crate) fn is_there(&self) -> bool {
        self.id.bytes[0] >= 32
    }
}

/// A commit of a few trees, which may stand in several places. The repository lacks some of its objects, and some are
/// no objects of their kind.
#[derive(Drop)]
pub struct Commit {
    /// Those below before those above.
    trees: Vec<Tree>,
    root: usize,
    id: Id,
}

/// An entry or none, a directory among the trees so far.
fn some_member(trees: usize, seed: &mut u64) -> Option<Member> {
    let word = random(seed);
    let index = (word / 16 % 1_000) as usize;
    match word % 16 {
        0..=5 if trees > 0 => Some(Member::Dir(index % trees)),
        6..=8 => Some(Member::File(index % 8)),
        9..=10 => Some(Member::Exec(index % 8)),
        11..=12 => Some(Member::Link(index % 8)),
        13 => Some(Member::Module),
        _ => None,
    }
}

fn mode_of(member: Member) -> Mode {
    match member {
        Member::File(_) => Mode::File,
        Member::Exec(_) => Mode::Exec,
        Member::Link(_) => Mode::Link,
        Member::Dir(_) => Mode::Dir,
        Member::Module => Mode::Gitlink,
    }
}

fn id_in(trees: &[Tree], member: Member) -> Result<Id, Unmade> {
    match member {
        Member::File(index) | Member::Exec(index) | Member::Link(index) => {
            Ok(blob_at(index).object.id)
        }
        Member::Dir(index) => match trees.get(index) {
            Some(tree) => Ok(tree.id),
            None => Err(Unmade::NoTree),
        },
        Member::Module => Ok(ONE_MODULE.id),
    }
}

fn entry(alloc: Global, trees: &[Tree], place: u8, member: Member) -> Result<TreeEntry, Unmade> {
    Ok(TreeEntry {
        mode: mode_of(member),
        name: name(alloc, name_at(place))?,
        id: id_in(trees, member)?,
    })
}

fn entries(
    alloc: Global,
    trees: &[Tree],
    members: &[Option<Member>; 4],
) -> Result<Vec<TreeEntry>, Unmade> {
    let mut entries = Vec::new(alloc);
    for place in 0..4u8 {
        if let Some(member) = members[place as usize] {
            entries.push(entry(alloc, trees, place, member)?)?;
        }
    }
    Ok(entries)
}

fn framed(alloc: Global, entries: &[TreeEntry]) -> Result<Vec<u8>, Unmade> {
    if !is_encodable(alloc, entries)? {
        return Err(Unmade::NoTree);
    }
    Ok(encode_tree(alloc, entries)?)
}

/// The tree of these entries, whose directories are among the trees so far.
fn tree_of(alloc: Global, trees: &[Tree], members: [Option<Member>; 4]) -> Result<Tree, Unmade> {
    let entries = entries(alloc, trees, &members)?;
    let framed = framed(alloc, entries.as_slice())?;
    Ok(Tree {
        id: id_of(framed.as_slice()),
        framed,
        members,
    })
}

/// A random tree that names trees so far.
fn some_tree(alloc: Global, trees: &[Tree], seed: &mut u64) -> Result<Tree, Unmade> {
    let mut members = [None; 4];
    for place in 0..4 {
        members[place] = some_member(trees.len(), seed);
    }
    tree_of(alloc, trees, members)
}

/// The last tree that the repository has, or the first.
fn root_of(trees: &[Tree]) -> usize {
    let mut root = 0;
    for (index, tree) in trees.iter().enumerate() {
        if tree.is_there() {
            root = index;
        }
    }
    root
}

/// The commit of that tree among these.
fn commit_of(trees: Vec<Tree>, root: usize) -> Result<Commit, Unmade> {
    let id = id_in(trees.as_slice(), Member::Dir(root))?;
    Ok(Commit { trees, root, id })
}

impl Commit {
    /// A random commit.
    pub fn new(alloc: Global, seed: &mut u64) -> Result<Commit, Unmade> {
        let mut trees = Vec::new(alloc);
        for _ in 0..TREES {
            let next = some_tree(alloc, trees.as_slice(), seed)?;
            trees.push(next)?;
        }
        let root = root_of(trees.as_slice());
        commit_of(trees, root)
    }

    /// The sample commit of two trees.
    pub fn two_files(alloc: Global) -> Result<Commit, Unmade> {
        let mut trees = Vec::new(alloc);
        for members in &TWO_FILES {
            let next = tree_of(alloc, trees.as_slice(), *members)?;
            trees.push(next)?;
        }
        commit_of(trees, 1)
    }

    /// The id of its tree.
    pub fn root(&self) -> Id {
        self.id
    }

    /// The whole tree that it shows.
    pub fn whole(&self, alloc: Global) -> Result<WholeTree, Unmade> {
        let rows = rows_of(alloc, self.trees.as_slice(), self.root)?;
        match WholeTree::new(alloc, rows)? {
            Some(tree) => Ok(tree),
            None => Err(Unmade::NoTree),
        }
    }

    /// A key of the commit.
    pub fn some_key(&self, seed: &mut u64) -> Key {
        let word = random(seed);
        if word % 2 == 0 {
            return Key {
                kind: ObjKind::Blob,
                id: blob_at((word / 2 % 8) as usize).object.id,
            };
        }
        Key {
            kind: ObjKind::Tree,
            id: self.tree_id((word / 2 % TREES) as usize),
        }
    }

    /// The id of the tree of that index, or that of the root if there is none.
    fn tree_id(&self, index: usize) -> Id {
        match self.trees.get(index) {
            Some(tree) => tree.id,
            None => self.id,
        }
    }

    /// The framed bytes of a tree that the repository has.
    fn framed_tree(&self, id: Id) -> Option<&[u8]> {
        for tree in &self.trees {
            if tree.id == id && tree.is_there() {
                return Some(tree.framed.as_slice());
            }
        }
        None
    }

    /// The framed bytes that the repository has under an id. None if the object is missing.
    pub fn framed(&self, id: Id) -> Option<&[u8]> {
        match (self.framed_tree(id), blob_of(id)) {
            (Some(framed), _) => Some(framed),
            (None, Some(blob)) => blob.framed(),
            (None, None) => None,
        }
    }

    /// What is wrong with what the repository gives for a key, if something is.
    pub fn flaw(&self, key: Key) -> Option<Cause> {
        match blob_of(key.id) {
            Some(blob) if key.kind == ObjKind::Blob => blob.content.err(),
            _ => None,
        }
    }
}
