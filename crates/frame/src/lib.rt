// The X.51 frame: whose each bit is, what the padding bits hold, and the check.
#![tactic(auto)]

pub mod check;
pub mod content;
pub mod mode;
pub mod padding;
pub mod place;

pub use content::Content;
pub use mode::{Justification, Mode, UnknownJustification};
pub use padding::Padding;
pub use place::Role;
