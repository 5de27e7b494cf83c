//! A turn lock: callers draw tickets, and each in its turn calls the state where it lies, and passes
//! the turn on before it drops what the call is done with. The lock's contracts say what a caller
//! knows of the one history that the state keeps.
#![tactic(auto)]

mod lock;
mod logged;
mod turns;
mod view;

pub use lock::{Closed, Pass, TurnLock};
pub use logged::Logged;
pub use wg_entry::{Entry, NoMemory, Refused};
