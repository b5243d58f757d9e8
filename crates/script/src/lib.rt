// Scripts of the programs that compare a station with a model: cases of lines, each a word and its numbers.
#![tactic(auto)]

mod banks;
mod by_words;
mod cases;
mod plans;
#[cfg(test)]
mod tests;
mod words;

pub use banks::with_bank;
pub use by_words::{each_case, mode_of, plan_of};
pub use cases::{add_line, each_named_case, mode_at_end, mode_between};
pub use plans::{busy_plan, parsed_plan_of};
pub use words::{number, numbers, parsed_number, word};
