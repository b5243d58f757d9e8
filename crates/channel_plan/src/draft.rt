// A plan in the making.
use crate::table::Table;

/// The rows so far.
#[derive(Drop)]
pub struct Draft {
    pub(crate) table: Table,
}

mod rows;
