// The gross rates of channels.
ghost use Rattle.std.specs.Prelude.{◌≡◌};
ghost use Rattle.std.specs.Result.{result_ok};
ghost use Rattle.channel_plan.specs.Rates.{bits, period, rate_of};

/// A gross rate, by its bit/s.
#[derive(Clone, Copy, Debug, PartialEq, Eq)]
pub enum Rate {
    Bps12000,
    Bps6000,
    Bps3000,
    Bps750,
}

/// A number of bit/s that is no gross rate.
#[derive(Clone, Copy, Debug, PartialEq, Eq)]
pub struct UnknownRate;

/// The rate of so many bit/s, if there is one.
impl TryFrom<u16> for Rate {
    type Error = UnknownRate;

    ghost try_from_gives = { λ n rate. result_ok rate ≡ rate_of n };

    fn try_from(bits: u16) -> Result<Self, UnknownRate> {
        match bits {
            12000 => Ok(Rate::Bps12000),
            6000 => Ok(Rate::Bps6000),
            3000 => Ok(Rate::Bps3000),
            750 => Ok(Rate::Bps750),
            _ => Err(UnknownRate),
        }
    }
}

/// Its bit/s.
impl From<Rate> for u16 {
    ghost from_gives = { λ rate n. n ≡ bits rate };

    fn from(rate: Rate) -> u16 {
        match rate {
            Rate::Bps12000 => 12000,
            Rate::Bps6000 => 6000,
            Rate::Bps3000 => 3000,
            Rate::Bps750 => 750,
        }
    }
}

impl Rate {
    /// How many slots lie between one slot of a channel and its next.
    pub fn period(self) -> u16
        ensures { result ≡ period self }
    {
        match self {
            Rate::Bps12000 => 5,
            Rate::Bps6000 => 10,
            Rate::Bps3000 => 20,
            Rate::Bps750 => 80,
        }
    }
}
