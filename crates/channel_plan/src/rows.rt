// The rows of a plan by rising channel.
ghost use Rattle.std.specs.Prelude.{◌≡◌, ◌-◌};
ghost use Rattle.channel_plan.specs.Entries.{rows_after};
ghost use Rattle.channel_plan.specs.Iterating.{Gave, to_come};
ghost use Rattle.std.specs.Iterator.{at_most};

use crate::plan::Plan;
use crate::row::Row;

/// An iterator over the rows of a plan by rising channel, past those of the channels seen.
#[derive(Drop)]
pub struct Rows<'a> {
    plan: &'a Plan,
    seen: u16,
}

impl Plan {
    pub fn rows(&self) -> Rows<'_>
        ensures { to_come result ≡ rows_after self.now.table.entries 0 }
    {
        Rows {
            plan: self,
            seen: 0,
        }
    }
}

impl Iterator for Rows<'_> {
    type Item = Row;

    ghost next_gives = { Gave };

    ghost remaining = { λ s. at_most (80 - s.seen) };

    fn next(&mut self) -> Option<Row> {
        let row = self.plan.row_after(self.seen)?;
        self.seen = row.channel;
        Some(row)
    }
}
