//! The threads of sessions and fetchers.
use core::thread::Stack;

/// How many bytes a session's or a fetcher's stack has.
const STACK: usize = 1 << 20;

/// How such a thread is made.
pub(crate) fn small_stack() -> Stack {
    Stack::new().stack_size(STACK)
}
