ghost use Rattle.std.specs.Borrow.{sem};
ghost use Rattle.std.specs.Prelude.{Result};
ghost use Rattle.std.specs.Io.BufRead.{Rests};
ghost use Rattle.eden_model.specs.declared.request.Request.{Request};
ghost use Rattle.eden_model.specs.declared.reply.Reply.{Reply};
ghost use Rattle.eden_model.specs.declared.fault.CallFault.{CallFault};
ghost use Rattle.eden_wire.specs.Serving.{answered};

use eden_model::{CallFault, Reply, Request};

/// What answers the requests of a session, one after another.
pub trait Service {
    /// The service was as the first says, and then answered the request so, which left it as the last says.
    ghost answers: { Self → Request → Result Reply CallFault → Self → Type 0 };

    /// The answer to the request. A reply lies in the service until the next call.
    fn call(&mut self, request: Request) -> Result<&Reply, CallFault>
        ensures* after { sem 𝓛 (Rests Self.row self.entry (λ new. answers self.old request (answered result) new)) };
}
