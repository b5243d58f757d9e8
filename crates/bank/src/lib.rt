// Envelopes, and what every bank behind the channels 1 to 80 shows.
#![tactic(auto)]

ghost use Rattle.std.specs.Prelude.{◌≡◌};
ghost use Rattle.bank.specs.Code.{code_of};
ghost use Rattle.bank.specs.Meaning.{Accounts, Meaning, Laws, is_channel, index_of, after_offer, after_collect, after_take, after_give};

use ring::Coded;

/// A status bit and an octet.
#[derive(Clone, Copy, Debug, Default, PartialEq, Eq)]
pub struct Envelope {
    pub status: bool,
    pub octet: u8,
}

impl From<Envelope> for u16 {
    ghost from_gives = { λ e code. code ≡ code_of e };

    /// The code of 16 bits: the status bit before the octet.
    fn from(e: Envelope) -> u16 {
        256 * u16::from(e.status) + u16::from(e.octet)
    }
}

impl Coded for Envelope {
    ghost coded = { code_of };

    fn code(&self) -> u16 {
        u16::from(*self)
    }
}

/// A bank means an account for each channel, a list of numbers. Each call answers, and leaves the account of
/// the channel named, by that channel, its account and the envelope handed in; every other account stays.
/// Any number may be named as a channel.
pub trait Bank {
    // What stands on each channel.
    ghost account: { Self → Accounts };

    // What each call answers and leaves.
    ghost meaning: { Meaning };

    /// Hands an envelope in for the line.
    // Yes or no is the rule for an offer.
    fn offer(&mut self, channel: u16, e: Envelope) -> bool
        ensures answer { result ≡ (meaning.offered channel (account self.old channel) e).0 }
        ensures left { account self.new ≡ after_offer meaning channel e (account self.old) };

    /// Answers an envelope that came from the line.
    fn collect(&mut self, channel: u16) -> Option<Envelope>
        ensures answer { result ≡ (meaning.collected channel (account self.old channel)).0 }
        ensures left { account self.new ≡ after_collect meaning channel (account self.old) };

    /// Answers an envelope to the line.
    fn take(&mut self, channel: u16) -> Option<Envelope>
        ensures answer { result ≡ (meaning.taken channel (account self.old channel)).0 }
        ensures left { account self.new ≡ after_take meaning channel (account self.old) };

    /// Hands an envelope in from the line.
    fn give(&mut self, channel: u16, e: Envelope)
        ensures left { account self.new ≡ after_give meaning channel e (account self.old) };

    // An offer answered no and a collect answered nothing leave the account, and so does every call outside 1 to 80.
    ghost laws: { Laws meaning };
}

/// The channels are 1 to this number.
pub const CHANNELS: usize = 80;

/// Whether a number is a channel's.
pub fn is_channel(number: u16) -> bool
    ensures { result ≡ is_channel number }
{
    index_of(number).is_some()
}

/// Where a channel's row stands among those of all channels, if the number is a channel's.
pub fn index_of(number: u16) -> Option<usize>
    ensures { result ≡ index_of number }
{
    usize::from(number).checked_sub(1).filter(|i| *i < CHANNELS)
}
