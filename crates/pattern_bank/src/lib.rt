// The pattern bank: each channel sends a pattern, and compares what comes with it.
#![tactic(auto)]

ghost use Rattle.std.specs.Prelude.{◌≡◌};
ghost use Rattle.bank.specs.Channels.{on_each};
ghost use Rattle.pattern_bank.specs.Pattern.{fresh};
ghost use Rattle.pattern_bank.specs.Meaning.{as_account, pattern_meaning, pattern_laws};
ghost use Rattle.pattern_bank.specs.Standing.{account_of, FirstTakes, LoopedBack};
ghost use Rattle.pattern_bank.specs.Called.{Called};

mod channel;
mod register;

use bank::{Bank, CHANNELS, Envelope, index_of};
use channel::Channel;

/// Test equipment behind 80 channels: take answers a pattern of octets, and give counts what differs from it.
#[derive(Drop)]
pub struct PatternBank {
    channels: [Channel; CHANNELS],
}

impl PatternBank {
    /// Every channel fresh: its registers all ones, and nothing wrong yet.
    pub fn new() -> PatternBank
        ensures account { account_of result ≡ on_each (as_account fresh) }
        ensures first { FirstTakes (account_of result) }
        ensures looped { LoopedBack (account_of result) }
    {
        PatternBank {
            channels: [Channel::FRESH; CHANNELS],
        }
    }

    // Calls `call` on a channel, and answers what it answered; nothing outside 1 to 80.
    fn on_channel<R, F: FnOnce(&mut Channel) -> R>(&mut self, channel: u16, call: F) -> Option<R>
        requires { F.IsAlwaysCallable call }
        ensures { Called F.FnOnce call channel self.old.channels result self.new.channels }
    {
        Some(call(&mut self.channels[index_of(channel)?]))
    }
}

impl Bank for PatternBank {
    ghost account = { account_of };

    ghost meaning = { pattern_meaning };

    ghost laws = { pattern_laws };

    fn offer(&mut self, channel: u16, _: Envelope) -> bool {
        self.on_channel(channel, |c| *c = Channel::FRESH).is_some()
    }

    fn collect(&mut self, channel: u16) -> Option<Envelope> {
        self.on_channel(channel, |c| c.count())
    }

    fn take(&mut self, channel: u16) -> Option<Envelope> {
        self.on_channel(channel, |c| c.take())
    }

    fn give(&mut self, channel: u16, e: Envelope) {
        self.on_channel(channel, |c| c.give(e));
    }
}
