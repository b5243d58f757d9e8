// Tables of rows by channel.
ghost use Rattle.std.specs.Prelude.{◌≡◌, ◌-◌, ◌<◌, ◌≤◌, true, length, replicate, IfSome, Some, None, Ok, slice_set};
ghost use Rattle.channel_plan.specs.Adding.{conflict, unless};
ghost use Rattle.channel_plan.specs.Entries.{Apart, Below, NextRow, OneRate, Owned, is_channel, owner_from, row_at, row_of, some_row};
ghost use Rattle.channel_plan.specs.Outcomes.{answer};
ghost use Rattle.channel_plan.specs.Rates.{period};
ghost use Rattle.channel_plan.specs.Rows.{mixes, shares};

use crate::refusal::RowRefusal;
use crate::row::{self, Assignment, Row};
use std::array;

// Entry i is what channel i + 1 is assigned. Its invariant is what makes a plan: no slot goes to two
// channels.
#[derive(Clone, Copy)]
pub(crate) struct Table {
    entries: [Option<Assignment>; 80],
    ghost below: { Below entries },
    ghost one_rate: { OneRate entries },
    ghost apart: { Apart entries },
    ghost long: { length entries ≡ 80 },
}

impl Table {
    // A table with no row.
    pub(crate) fn new() -> Table
        ensures { result.entries ≡ replicate 80 None }
    {
        Table {
            entries: [None; 80],
        }
    }

    // What the channel is assigned.
    pub(crate) fn assigned(&self, channel: u16) -> Option<Assignment>
        ensures { result ≡ row_at self.now.entries channel }
    {
        *self.entries.get(usize::from(channel).checked_sub(1)?)?
    }

    // The row of the channel.
    pub(crate) fn row(&self, channel: u16) -> Option<Row>
        ensures { result ≡ row_of self.now.entries channel }
    {
        self.assigned(channel).map(|assignment| Row {
            channel,
            assignment,
        })
    }

    // Whether a row of the assignment's group has another rate, and whether a row has a slot of it. One pass
    // tells both, since a table is asked at every row that is added.
    fn clashes(&self, new: Assignment) -> (bool, bool)
        ensures mixed { result.0 ≡ some_row (mixes new) self.now.entries }
        ensures taken { result.1 ≡ some_row (shares new) self.now.entries }
    {
        self.entries
            .iter()
            .fold((false, false), |(mixed, taken), entry| match entry {
                Some(other) => (mixed || new.mixes(*other), taken || new.shares(*other)),
                None => (mixed, taken),
            })
    }

    // Whether the assignment can stand beside the rows, or why not.
    pub(crate) fn admits(&self, new: Assignment) -> Result<(), RowRefusal>
        ensures { result ≡ answer (unless (conflict self.now.entries new) new) }
    {
        let (mixed, taken) = self.clashes(new);
        if mixed {
            Err(RowRefusal::GroupRate)
        } else if taken {
            Err(RowRefusal::SlotTaken)
        } else {
            Ok(())
        }
    }

    // Assigns to a channel what the table admits.
    pub(crate) fn assign(&mut self, channel: u16, new: Assignment)
        requires channel { is_channel channel ≡ true }
        requires below { new.first < period new.rate }
        requires admitted { answer (unless (conflict self.old.entries new) new) ≡ Ok tt }
        ensures { self.new.entries ≡ slice_set self.old.entries (channel - 1) (Some new) }
    {
        self.entries[channel as usize - 1] = Some(new);
    }

    // The lowest channel whose row owns the slot.
    #[tactic(auto, using(crate::proofs::Owners::owner_none))]
    pub(crate) fn owner(&self, slot: u16) -> Option<u16>
        ensures { result ≡ owner_from 1 self.now.entries slot }
    {
        let at = self
            .entries
            .iter()
            .position(|entry| entry.is_some_and(|row| row.owns(slot)))?;
        Some(at as u16 + 1)
    }

    // The owner of each slot of the frame.
    pub(crate) fn owners(&self) -> [Option<u16>; 240]
        ensures { Owned self.now.entries result }
    {
        array::from_fn(|slot| self.owner(slot as u16))
    }

    // The row of the lowest channel above this one.
    pub(crate) fn row_after(&self, channel: u16) -> Option<Row>
        ensures next { NextRow self.now.entries channel result }
        ensures above { IfSome result (λ row. (channel < row.channel) × (row.channel ≤ 80)) }
    {
        let seen = (channel..80).find(|seen| self.entries[usize::from(*seen)].is_some())?;
        self.entries[usize::from(seen)].map(|found| Row {
            channel: seen + 1,
            assignment: found,
        })
    }
}
