use eden_fuse_format::{Operation, SetAttrIn, Time};
use eden_fuse_meaning::{Outcome, is_hidden};
use eden_fuse_nodes::ROOT;
use std::alloc::Global;
use std::collections::BTreeMap;
use std::rt::Clock;
use std::time::{SystemTime, UNIX_EPOCH};

/// A size is set.
const SIZE: u32 = 8;

/// A time of the content is set.
const MTIME: u32 = 32;

/// .. to the clock's.
const MTIME_NOW: u32 = 256;

/// The most nanoseconds of a time (POSIX.1, `timespec`). The kernel refuses more before it asks.
const MOST_NANOSECONDS: u32 = 999_999_999;

/// What the clock says; 1970 where it says nothing.
pub(crate) fn now<K: Clock>(clock: &K) -> Time {
    let none = Time {
        seconds: 0,
        nanoseconds: 0,
    };
    match SystemTime::now(clock) {
        Err(_) => none,
        Ok(time) => match time.duration_since(UNIX_EPOCH) {
            Err(_) => none,
            Ok(since) => Time {
                seconds: since.as_secs(),
                nanoseconds: since.subsec_nanos(),
            },
        },
    }
}

/// When a node was changed last.
#[derive(Clone, Copy)]
pub struct Moments {
    /// Its content.
    pub content: Time,
    /// Its content, or else its attributes or its name.
    pub entry: Time,
}

fn is_same(one: Time, other: Time) -> bool {
    one.seconds == other.seconds && one.nanoseconds == other.nanoseconds
}

/// What a session changed of a node, and when.
#[derive(Clone, Copy)]
struct Change {
    /// Its content, if that was changed.
    content: Option<Time>,
    entry: Time,
}

/// When nodes were changed. No contract says which times are told.
#[derive(Drop)]
pub struct Times {
    // Of all that was never changed.
    since: Time,
    // When contents were changed before, by the numbers of inodes.
    earlier: BTreeMap<u64, Time>,
    // What the session changed, by the numbers by which the kernel asks.
    changed: BTreeMap<u64, Change>,
}

impl Times {
    /// All was changed last at that time.
    pub fn new(alloc: Global, since: Time) -> Times {
        Times {
            since,
            earlier: BTreeMap::new(alloc),
            changed: BTreeMap::new(alloc),
        }
    }

    /// The content of the inode of that number was changed then. Without memory nothing is noted.
    pub fn note_inode(&mut self, inode: u64, time: Time) {
        let _ = self.earlier.insert(inode, time);
    }

    /// When the node was changed, whose inode has that number. What the session changed of a content stays with the
    /// inode when the kernel forgets the node.
    pub fn of(&mut self, node: u64, inode: u64) -> Moments {
        let change = self.changed.get(&node).copied();
        if let Some(
            Change {
                content: Some(content),
                entry,
            },
        ) = change
        {
            if self.earlier.insert(inode, content).is_ok() && is_same(content, entry) {
                self.changed.remove(&node);
            }
            return Moments { content, entry };
        }
        let content = match self.earlier.get(&inode) {
            Some(time) => *time,
            None => self.since,
        };
        let entry = match change {
            Some(change) => change.entry,
            None => content,
        };
        Moments { content, entry }
    }

    /// The node's content was changed. Without memory nothing is noted.
    pub fn change(&mut self, node: u64, now: Time) {
        self.set(node, Some(now), now);
    }

    // When the node's content, if that, and its entry were changed. Without memory nothing is noted.
    fn set(&mut self, node: u64, content: Option<Time>, entry: Time) {
        let _ = self.changed.insert(node, Change { content, entry });
    }

    // A name of a directory's node was changed: that of a hidden file changes nothing that is seen.
    fn change_at(&mut self, node: u64, name: &[u8], now: Time) {
        if node != ROOT || !is_hidden(name) {
            self.change(node, now);
        }
    }

    // Attributes are set.
    fn set_by(&mut self, node: u64, setting: &SetAttrIn, now: Time) {
        let content = if setting.valid & MTIME_NOW != 0 {
            Some(now)
        } else if setting.valid & MTIME != 0 {
            Some(Time {
                seconds: setting.mtime,
                nanoseconds: setting.mtimensec.min(MOST_NANOSECONDS),
            })
        } else if setting.valid & SIZE != 0 {
            Some(now)
        } else {
            match self.changed.get(&node) {
                Some(change) => change.content,
                None => None,
            }
        };
        self.set(node, content, now);
    }

    /// What a message came to is noted, but for the node that it may have made.
    pub(crate) fn note(
        &mut self,
        now: Time,
        node: u64,
        operation: &Operation<'_>,
        outcome: &Outcome,
    ) {
        match outcome {
            Outcome::Refused(_) => {}
            _ => match operation {
                Operation::Write(_, _)
                | Operation::Symlink(_, _)
                | Operation::MkNod(_, _)
                | Operation::MkDir(_, _)
                | Operation::Create(_, _)
                | Operation::RmDir(_)
                | Operation::Fallocate(_) => self.change(node, now),
                Operation::Unlink(name) => self.change_at(node, name, now),
                Operation::SetAttr(setting) => self.set_by(node, setting, now),
                Operation::Rename(head, name, new) => {
                    self.change_at(node, name, now);
                    self.change_at(head.newdir, new, now);
                }
                Operation::Rename2(head, name, new) => {
                    self.change_at(node, name, now);
                    self.change_at(head.newdir, new, now);
                }
                _ => {}
            },
        }
    }
}
