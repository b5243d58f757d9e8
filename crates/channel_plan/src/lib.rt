// Channel plans: which channel owns which slot of the frame.
#![tactic(auto)]

pub mod draft;
pub mod file;
mod lines;
pub mod listing;
pub mod plan;
pub mod rate;
pub mod refusal;
pub mod report;
pub mod row;
pub mod rows;
mod table;

pub use draft::Draft;
pub use plan::Plan;
pub use rate::{Rate, UnknownRate};
pub use refusal::{FileRefusal, Reason, RowRefusal};
pub use report::report_on;
pub use row::{Assignment, Row};
pub use rows::Rows;
