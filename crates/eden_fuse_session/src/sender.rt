ghost use Rattle.std.specs.Prelude.{◌≡◌, ◌+◌, ℕ, OnErr, OnOk};
ghost use Rattle.eden_fuse_session.specs.Sending.{Known, Sends};

/// A message couldn't be sent.
#[derive(Clone, Copy, Debug)]
pub struct NotSent;

/// What takes messages, each in one piece.
pub trait Sender {
    /// The messages that it took, if they are known.
    ghost sent: { Self → Known };

    /// How often it failed.
    ghost failures: { Self → ℕ };

    /// Hands over one message, in one piece. An error took nothing.
    fn send(&mut self, message: &[u8]) -> Result<(), NotSent>
        ensures ok { OnOk result (Sends (sent self.old) (sent self.new) message.now) }
        ensures fine { OnOk result (failures self.new ≡ failures self.old) }
        ensures err { OnErr result (sent self.new ≡ sent self.old) }
        ensures failed { OnErr result (failures self.new ≡ failures self.old + 1) };
}
