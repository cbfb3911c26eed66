//! A commit's checkout: the loaded part of its tree over an overlay's files, and the objects that came.
//!
//! A checkout is opened over the files that another was closed to, or over none, or over those that a run left that was
//! killed. It is what a mount attempts requests over. `tidy` removes the orphans of what was closed.
#![tactic(auto)]

mod attempted;
mod checkout;
mod closing;
mod fault;
mod laws;
mod opening;
mod tidying;

pub use checkout::Checkout;
pub use fault::OpenFault;
pub use laws::opening_laws;
pub use opening::Opening;
pub use tidying::{TidyFault, tidy};
