// The bytes of plan files: fields, numbers and the names line.
#![tactic(auto)]

pub mod header;
pub mod text;

pub use header::{Column, Header, UnknownColumn};
pub use text::Columns;
