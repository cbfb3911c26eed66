ghost use Rattle.eden_fuse_session.specs.Sending.{Known, Receives};

/// What came of waiting for a message.
#[derive(Clone, Copy, Debug, PartialEq, Eq)]
pub enum Received {
    /// A message of so many bytes.
    Message(usize),
    /// None this time, as if who had asked didn't wait any more; others may come.
    Nothing,
    /// There are no more, as after an unmount.
    End,
    /// Receiving failed.
    Failed,
}

/// What gives messages, each in one piece.
pub trait Receiver {
    /// The messages that it still has to give, if they are known.
    ghost waiting: { Self → Known };

    /// Waits for one message, and puts it at the front of the room.
    fn receive(&mut self, room: &mut [u8]) -> Received
        ensures { Receives (waiting self.old) (waiting self.new) result room.new };
}
