// A sealed plan.
ghost use Rattle.channel_plan.specs.Entries.{Owned};

use crate::table::Table;

/// The rows of a draft, with the owner of each slot worked out from them.
#[derive(Clone, Copy)]
pub struct Plan {
    table: Table,
    owners: [Option<u16>; 240],
    ghost owned: { Owned table.entries owners },
}

mod reading;
