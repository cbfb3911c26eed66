ghost use Rattle.eden_fuse_session.specs.Sending.{Known};
ghost use Rattle.eden_fuse_host.specs.Hands.{taken_by};
ghost use Rattle.eden_fuse_host.specs.Lines.{IsFreshLine};

use eden_fuse_session::{Receiver, Sender};

/// Where each thread of a folder has its line to the kernel from.
pub trait Lines<V: Receiver, O: Sender> {
    /// The messages that a line from here may give, whole and in order, if they are known.
    ghost comes: { Self → Known → Type 0 };

    /// A line for one thread, of which nothing was taken and by which nothing was sent. Each of the kernel's messages
    /// comes to one of them, and any may take its answer.
    fn line(&self) -> (V, O)
        ensures whole { comes self.now (V.waiting result.0) }
        ensures unused { IsFreshLine (taken_by O.Sender result.1) };
}
