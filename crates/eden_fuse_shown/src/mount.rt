ghost use Rattle.std.specs.Prelude.{Bool, Result};
ghost use Rattle.eden_model.specs.declared.fault.CallFault.{CallFault};
ghost use Rattle.eden_model.specs.declared.reply.Reply.{Reply};
ghost use Rattle.eden_model.specs.declared.request.Request.{Request};
ghost use Rattle.eden_fuse_shown.specs.Running.{Hears, IsUnstored};

use eden_model::{CallFault, Fault, Obstacle, Reply, Request};

/// Why no reply was heard.
#[derive(Clone, Copy, Debug, PartialEq, Eq)]
pub enum Unheard {
    /// The mount didn't serve the request.
    Fault(CallFault),
    /// The mount's reply was that stored files failed, and this kept its device from storing.
    Blocked(Obstacle),
    /// There was no memory for the reply, or for what it leads to.
    Memory,
}

/// Whether a mount may have to store something for the request.
pub fn may_store(request: &Request) -> bool {
    match request {
        Request::Kind(_)
        | Request::Stat(_)
        | Request::Read(_, _, _)
        | Request::ReadLink(_)
        | Request::List(_, _, _) => false,
        _ => true,
    }
}

/// What is heard of the reply that stored files failed, where that kept the device from storing.
pub fn unstored(obstacle: Option<Obstacle>) -> Result<Reply, Unheard>
    ensures { IsUnstored result }
{
    match obstacle {
        Some(obstacle) => Err(Unheard::Blocked(obstacle)),
        None => Ok(Reply::Fault(Fault::Overlay)),
    }
}

/// A mount that replies to requests, one after another.
pub trait Mount {
    /// The mount was as the first says, and then answered the request so, which left it as the last says.
    ghost answers: { Self → Request → Result Reply CallFault → Self → Type 0 };

    /// The mount was as the first says, and then was asked to wait for the disk, which went so or not, and left it as
    /// the last says.
    ghost syncs: { Self → Bool → Self → Type 0 };

    /// The reply to a request. At `Blocked` and `Memory` the request was served, and its reply is lost.
    fn ask(&mut self, request: Request) -> Result<Reply, Unheard>
        ensures { Hears answers self.old request result self.new };

    /// Waits until a loss of power would take nothing that was replied to. False where that isn't known.
    fn sync(&mut self) -> bool
        ensures { syncs self.old result self.new };
}
