// A station: a plan, a bank and the two ends of a bearer.
#![tactic(auto)]

pub mod event;
pub mod faults;
mod hear;
pub mod line;
pub mod receive;
pub mod refusal;
mod send;
mod slot;
mod station;
mod words;

pub use event::{Delivery, Event, Fault};
pub use faults::Faults;
pub use line::{ChannelRecord, Line};
pub use refusal::{ReceiveRefusal, SendRefusal};
pub use station::Station;
