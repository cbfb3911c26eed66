//! A table of nodes over its life.
use eden_fuse_nodes::{Nodes, Place, ROOT, Whereabouts};
use eden_model::{Name, Path};
use std::process::Abort;

fn place(rt: &(impl AllocGlobal + Abort), parent: u64, name: &str) -> Place {
    let bytes = Vec::from_slice(rt.alloc(), name.as_bytes()).expect(rt, "memory");
    Place {
        parent,
        name: Name::new(bytes).expect(rt, "a name"),
    }
}

// Whether the path has that text, each name after a slash.
fn is_text(path: &Path, text: &[u8]) -> bool {
    let mut rest = text;
    for name in path.as_slice() {
        let Some(behind) = behind_name(rest, name.as_slice()) else {
            return false;
        };
        rest = behind;
    }
    rest.is_empty()
}

// What stands after a slash and that name.
fn behind_name<'a>(text: &'a [u8], name: &[u8]) -> Option<&'a [u8]> {
    text.strip_prefix(b"/")?.strip_prefix(name)
}

// Whether a node lies there, each name after a slash; `-` for nowhere, and `+` for too far.
fn lies_at(rt: &(impl AllocGlobal + Abort), nodes: &Nodes, id: u64, path: &[u8]) -> bool {
    match nodes.find(rt.alloc(), id).expect(rt, "memory") {
        Whereabouts::Nowhere => path == b"-".as_slice(),
        Whereabouts::TooFar => path == b"+".as_slice(),
        Whereabouts::At(found) => is_text(&found, path),
    }
}

fn learnt(rt: &(impl AllocGlobal + Abort), nodes: &mut Nodes, parent: u64, name: &str) -> u64 {
    nodes
        .learn(rt.alloc(), place(rt, parent, name))
        .expect(rt, "memory")
}

// What a table is asked, and says. A node is named by the place that a test gave it; the first is the root's.
#[derive(Clone, Copy)]
enum Step {
    // A name in a node is learnt, by a number that no node had before, and gets that place.
    Learns(usize, &'static str, usize),
    // .. and is the node that has that place.
    Knows(usize, &'static str, usize),
    Forgets(usize),
    Removes(usize, &'static str),
    // A name in a node becomes a name in another.
    Renames(usize, &'static str, usize, &'static str),
    Lies(usize, &'static [u8]),
}

// A table of nodes, and the numbers of those that have a place.
#[derive(Drop)]
struct Table {
    nodes: Nodes,
    numbers: [u64; 5],
}

impl Table {
    fn number(&self, at: usize) -> u64 {
        self.numbers.get(at).copied().unwrap_or(0)
    }

    fn learns(&mut self, rt: &(impl AllocGlobal + Abort), parent: usize, name: &str) -> u64 {
        let parent = self.number(parent);
        learnt(rt, &mut self.nodes, parent, name)
    }

    // Whether that number is a new one, which is at that place then.
    fn is_new(&mut self, number: u64, at: usize) -> bool {
        let is_old = self.numbers.contains(&number);
        if let Some(seat) = self.numbers.get_mut(at) {
            *seat = number;
        }
        !is_old
    }

    fn place(&self, rt: &(impl AllocGlobal + Abort), parent: usize, name: &str) -> Place {
        place(rt, self.number(parent), name)
    }

    fn removes(&mut self, rt: &(impl AllocGlobal + Abort), parent: usize, name: &str) -> bool {
        let place = self.place(rt, parent, name);
        self.nodes.remove(&place);
        true
    }

    fn renames(&mut self, rt: &(impl AllocGlobal + Abort), from: &Place, to: Place) -> bool {
        self.nodes.rename(rt.alloc(), from, to).is_ok()
    }

    // Whether the step goes as it says.
    fn goes(&mut self, rt: &(impl AllocGlobal + Abort), step: Step) -> bool {
        match step {
            Step::Learns(parent, name, at) => {
                let number = self.learns(rt, parent, name);
                self.is_new(number, at)
            }
            Step::Knows(parent, name, at) => self.learns(rt, parent, name) == self.number(at),
            Step::Forgets(at) => {
                let number = self.number(at);
                self.nodes.forget(number, 1);
                true
            }
            Step::Removes(parent, name) => self.removes(rt, parent, name),
            Step::Renames(from, old, to, new) => {
                let from = self.place(rt, from, old);
                let to = self.place(rt, to, new);
                self.renames(rt, &from, to)
            }
            Step::Lies(at, path) => lies_at(rt, &self.nodes, self.number(at), path),
        }
    }
}

fn check(rt: &(impl AllocGlobal + Abort), nodes: Nodes, steps: &[Step]) {
    let mut table = Table {
        nodes,
        numbers: [ROOT, 0, 0, 0, 0],
    };
    for (index, step) in steps.iter().enumerate() {
        assert!(rt; table.goes(rt, *step), "step {index}");
    }
}

const MOVED: &[Step] = &[
    Step::Learns(0, "a", 1),
    Step::Learns(1, "b", 2),
    Step::Learns(2, "c", 3),
    Step::Learns(0, "d", 4),
    Step::Lies(0, b""),
    Step::Lies(3, b"/a/b/c"),
    Step::Knows(2, "c", 3),
    Step::Renames(1, "b", 0, "d"),
    Step::Lies(3, b"/d/c"),
    Step::Lies(2, b"/d"),
    Step::Lies(4, b"-"),
    Step::Lies(1, b"/a"),
    Step::Knows(0, "d", 2),
];

// What lies below a directory goes where it goes; what is replaced lies nowhere.
#[test]
fn directories_move(rt: HostRuntime) {
    check(&rt, Nodes::new(rt.alloc()), MOVED);
}

const REMOVED: &[Step] = &[
    Step::Learns(0, "a", 1),
    Step::Knows(0, "a", 1),
    Step::Forgets(1),
    Step::Lies(1, b"/a"),
    Step::Removes(0, "a"),
    Step::Lies(1, b"-"),
    Step::Learns(0, "a", 2),
    Step::Lies(2, b"/a"),
    Step::Forgets(1),
    Step::Forgets(2),
    Step::Lies(2, b"-"),
    Step::Learns(0, "a", 3),
    Step::Lies(3, b"/a"),
];

// What is removed is known until it is forgotten; its name gets another number, and no number comes twice.
#[test]
fn nodes_are_removed_and_forgotten(rt: HostRuntime) {
    check(&rt, Nodes::new(rt.alloc()), REMOVED);
}

// The node below 256 names.
fn deepest(rt: &(impl AllocGlobal + Abort), nodes: &mut Nodes) -> u64 {
    let mut node = ROOT;
    for _ in 0..256 {
        node = learnt(rt, nodes, node, "n");
    }
    node
}

const ITS_OWN_CHILD: &[Step] = &[
    Step::Learns(0, "a", 1),
    Step::Renames(0, "a", 1, "a"),
    Step::Lies(1, b"-"),
];

// A directory below itself lies nowhere, and what lies below too many names lies too far.
#[test]
fn ways_end(rt: HostRuntime) {
    let mut nodes = Nodes::new(rt.alloc());
    let node = deepest(&rt, &mut nodes);
    let deeper = learnt(&rt, &mut nodes, node, "n");
    let path = b"/n".repeat(rt.alloc(), 256).expect(&rt, "memory");
    assert!(rt; lies_at(&rt, &nodes, node, &path) && lies_at(&rt, &nodes, deeper, b"+"));
    check(&rt, nodes, ITS_OWN_CHILD);
}
