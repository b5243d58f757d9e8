// Reception of frames, bit by bit, as far as the words of the slots.
#![tactic(auto)]

pub mod hunt;
pub mod progress;
pub mod receiver;
mod register;
pub mod service;
pub mod state;

pub use receiver::{Conclusion, FaultKind};
pub use state::{Receiver, Reception};
