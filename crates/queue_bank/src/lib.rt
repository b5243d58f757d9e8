// The queue bank: for each channel a queue to the line and a queue from it.
#![tactic(auto)]

ghost use Rattle.std.specs.Prelude.{◌≡◌, length};
ghost use Rattle.bank.specs.Channels.{on_each};
ghost use Rattle.bank.specs.Meaning.{after_offer, after_collect, after_take, after_give};
ghost use Rattle.queue_bank.specs.Queues.{empty_queues};
ghost use Rattle.queue_bank.specs.Account.{as_account};
ghost use Rattle.queue_bank.specs.Order.{AllInOrder};
ghost use Rattle.queue_bank.specs.Readings.{waiting_counts, code_counts, dropped_count};
ghost use Rattle.queue_bank.specs.Meaning.{queue_meaning, queue_laws};
ghost use Rattle.queue_bank.specs.Standing.{account_of, memory_of, besides, places_over};
ghost use Rattle.queue_bank.specs.Called.{Found, StaysPut, Called};

mod channel;
mod rows;

use bank::{Bank, CHANNELS, Envelope, index_of};
use channel::Channel;
use rows::Rows;

/// How many places a queue has.
pub const PLACES: usize = 64;

/// How many envelopes the memory of a queue bank has to hold: two queues for each channel, 10,240 places.
pub const MEMORY: usize = 2 * PLACES * CHANNELS;

/// For each of 80 channels 64 places each way, first in, first out. Over less memory each queue has 0 places.
#[derive(Drop)]
pub struct QueueBank<'a> {
    // Lent by the caller, since the core allocates nothing.
    memory: &'a mut [Envelope],
    rows: Rows,
}

impl<'a> QueueBank<'a> {
    /// A bank of empty queues. No memory is refused.
    pub fn new(memory: &'a mut [Envelope]) -> QueueBank<'a>
        ensures account { account_of result ≡ on_each (as_account (empty_queues (places_over (length memory.old)))) }
        ensures kept { memory_of result ≡ memory.old }
        ensures order { AllInOrder (account_of result) }
    {
        let places = if memory.len() < MEMORY { 0 } else { PLACES };
        QueueBank {
            memory,
            rows: Rows::fresh(places),
        }
    }

    /// How many envelopes wait for the line, and how many from it; 0 and 0 outside 1 to 80.
    pub fn waiting(&self, channel: u16) -> (u16, u16)
        ensures { result ≡ waiting_counts (account_of self.now channel) }
    {
        self.channel(channel)
            .map_or((0, 0), |c| c.waiting(self.memory))
    }

    /// How many of those that wait have this code, each way; 0 and 0 outside 1 to 80.
    pub fn waiting_with(&self, channel: u16, code: u16) -> (u16, u16)
        ensures { result ≡ code_counts code (account_of self.now channel) }
    {
        self.channel(channel)
            .map_or((0, 0), |c| c.waiting_with(self.memory, code))
    }

    /// How many envelopes from the line were dropped; 0 outside 1 to 80.
    pub fn dropped(&self, channel: u16) -> u16
        ensures { result ≡ dropped_count (account_of self.now channel) }
    {
        self.channel(channel).map_or(0, |c| c.dropped)
    }

    fn channel(&self, channel: u16) -> Option<Channel>
        ensures { Found channel self.now.rows.channels result }
    {
        Some(self.rows.channels[index_of(channel)?])
    }

    // Calls `call` on a channel over the memory, and answers what it answered; nothing outside 1 to 80.
    // The channel is a copy while the memory is lent, and has to lie where it lay. A pattern bank has neither, so the two
    // are not one.
    fn on_channel<R, F: FnOnce(&mut Channel, &mut [Envelope]) -> R>(
        &mut self,
        channel: u16,
        call: F,
    ) -> Option<R>
        requires callable { F.IsAlwaysCallable call }
        requires stays { StaysPut F.FnOnce call }
        ensures { Called F.FnOnce call channel self.old.rows.channels (memory_of self.old) result self.new.rows.channels (memory_of self.new) }
    {
        let i = index_of(channel)?;
        let mut c = self.rows.channels[i];
        let answer = call(&mut c, self.memory);
        self.rows.channels[i] = c;
        Some(answer)
    }
}

impl<'a> Bank for QueueBank<'a> {
    ghost account = { account_of };

    ghost meaning = { queue_meaning };

    ghost laws = { queue_laws };

    fn offer(&mut self, channel: u16, e: Envelope) -> bool
        ensures answer { result ≡ (queue_meaning.offered channel (account_of self.old channel) e).0 }
        ensures left { account_of self.new ≡ after_offer queue_meaning channel e (account_of self.old) }
        ensures outside { besides channel self.new ≡ besides channel self.old }
    {
        self.on_channel(channel, |c, memory| c.outgoing.put(memory, e))
            .unwrap_or(false)
    }

    fn collect(&mut self, channel: u16) -> Option<Envelope>
        ensures answer { result ≡ (queue_meaning.collected channel (account_of self.old channel)).0 }
        ensures left { account_of self.new ≡ after_collect queue_meaning channel (account_of self.old) }
        ensures kept { memory_of self.new ≡ memory_of self.old }
    {
        self.on_channel(channel, |c, memory| c.incoming.take(memory))
            .flatten()
    }

    fn take(&mut self, channel: u16) -> Option<Envelope>
        ensures answer { result ≡ (queue_meaning.taken channel (account_of self.old channel)).0 }
        ensures left { account_of self.new ≡ after_take queue_meaning channel (account_of self.old) }
        ensures kept { memory_of self.new ≡ memory_of self.old }
    {
        self.on_channel(channel, |c, memory| c.outgoing.take(memory))
            .flatten()
    }

    fn give(&mut self, channel: u16, e: Envelope)
        ensures left { account_of self.new ≡ after_give queue_meaning channel e (account_of self.old) }
        ensures outside { besides channel self.new ≡ besides channel self.old }
    {
        self.on_channel(channel, |c, memory| c.give(memory, e));
    }
}
