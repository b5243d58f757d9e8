// One channel's share of the frame.
ghost use Rattle.std.specs.Prelude.{◌≡◌};
ghost use Rattle.channel_plan.specs.Entries.{is_channel};
ghost use Rattle.channel_plan.specs.Rows.{group, lies_in, mixes, owns, shares, slots};

use crate::rate::Rate;

/// What a plan assigns to a channel: the slots that leave `first` when divided by the rate's period.
#[derive(Clone, Copy, Debug, PartialEq, Eq)]
pub struct Assignment {
    pub rate: Rate,
    pub first: u16,
}

/// A row of a plan.
#[derive(Clone, Copy, Debug, PartialEq, Eq)]
pub struct Row {
    pub channel: u16,
    pub assignment: Assignment,
}

// Whether there is a channel of that number. The crate of banks has the same test: neither crate stands on the other, and a
// crate of its own for one line is no plainer.
pub(crate) fn is_channel(channel: u16) -> bool
    ensures { result ≡ is_channel channel }
{
    (1..=80).contains(&channel)
}

impl Assignment {
    pub(crate) fn group(self) -> u16
        ensures { result ≡ group self }
    {
        self.first % 5
    }

    pub(crate) fn owns(self, slot: u16) -> bool
        ensures { result ≡ owns self slot }
    {
        slot % self.rate.period() == self.first
    }

    // Whether both are of one group, and of two rates.
    pub(crate) fn mixes(self, other: Assignment) -> bool
        ensures { result ≡ mixes self other }
    {
        self.group() == other.group() && self.rate != other.rate
    }

    // Whether some slot of the frame goes to both. The longer of two periods is a multiple of the
    // shorter, so the row of the longer period decides by its first slot.
    #[tactic(auto, using(crate::proofs::Sharing::lies_shares, crate::proofs::Sharing::shares_flip))]
    pub(crate) fn shares(self, other: Assignment) -> bool
        ensures { result ≡ shares self other }
    {
        if self.rate.period() <= other.rate.period() {
            other.lies_in(self)
        } else {
            self.lies_in(other)
        }
    }

    // Whether the first slot is one of the other's.
    fn lies_in(self, other: Assignment) -> bool
        ensures { result ≡ lies_in self other }
    {
        self.first < self.rate.period() && other.owns(self.first)
    }

    /// How many slots of the frame it gives.
    #[tactic(auto, using(crate::proofs::Counting::slots_below, crate::proofs::Counting::slots_above, crate::proofs::Sharing::period_range))]
    pub fn slots(self) -> u16
        ensures { result ≡ slots self }
    {
        let period = self.rate.period();
        if self.first < period { 240 / period } else { 0 }
    }
}
