// Making a plan, and reading it.
ghost use Rattle.std.specs.Prelude.{◌≡◌, ℕ, ◌<◌, ◌≤◌, IfSome};
ghost use Rattle.channel_plan.specs.Entries.{NextRow, row_of};
ghost use Rattle.channel_plan.specs.Tables.{OwnerIs, owner_of};

use super::Plan;
use crate::draft::Draft;
use crate::row::Row;

impl Draft {
    /// Seals the draft, which is used up.
    pub fn seal(self) -> Plan
        ensures { result.table ≡ self.table }
    {
        let table = self.table;
        let owners = table.owners();
        Plan { table, owners }
    }
}

impl Plan {
    /// The channel that owns a slot of the frame.
    pub fn owner(&self, slot: u16) -> Option<u16>
        ensures value { result ≡ owner_of self.now.table slot }
        ensures exact { (c : ℕ) → OwnerIs self.now.table.entries slot result c }
        ensures known { IfSome result (λ c. (0 < c) × (c ≤ 80)) }
    {
        *self.owners.get(usize::from(slot))?
    }

    /// The row of a channel.
    pub fn row(&self, channel: u16) -> Option<Row>
        ensures { result ≡ row_of self.now.table.entries channel }
    {
        self.table.row(channel)
    }

    /// The row of the lowest channel above this one.
    pub fn row_after(&self, channel: u16) -> Option<Row>
        ensures next { NextRow self.now.table.entries channel result }
        ensures above { IfSome result (λ row. (channel < row.channel) × (row.channel ≤ 80)) }
    {
        self.table.row_after(channel)
    }
}
