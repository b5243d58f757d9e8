// Rows of a draft, one by one.
ghost use Rattle.std.specs.Prelude.{◌≡◌, replicate, None};
ghost use Rattle.channel_plan.specs.Adding.{with_row};
ghost use Rattle.channel_plan.specs.Outcomes.{answer, left};

use super::Draft;
use crate::rate::Rate;
use crate::refusal::RowRefusal;
use crate::row::{self, Assignment};
use crate::table::Table;

impl Draft {
    /// A draft with no row.
    pub fn new() -> Draft
        ensures { result.table.entries ≡ replicate 80 None }
    {
        Draft {
            table: Table::new(),
        }
    }

    /// Adds a row, or refuses it and leaves the draft.
    pub fn add(&mut self, channel: u16, rate: u16, first: u16) -> Result<(), RowRefusal>
        ensures answer { result ≡ answer (with_row self.old.table.entries channel rate first) }
        ensures left { self.new.table.entries ≡ left (with_row self.old.table.entries channel rate first) self.old.table.entries }
    {
        if !row::is_channel(channel) {
            return Err(RowRefusal::NoChannel);
        }
        let rate = Rate::try_from(rate)?;
        if first >= rate.period() {
            return Err(RowRefusal::FirstSlot);
        }
        if self.table.assigned(channel).is_some() {
            return Err(RowRefusal::ChannelPresent);
        }
        let new = Assignment { rate, first };
        self.table.admits(new)?;
        self.table.assign(channel, new);
        Ok(())
    }
}
