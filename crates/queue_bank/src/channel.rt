// One channel of the queue bank, and what a call does on it over the memory lent.
ghost use Rattle.std.specs.Prelude.{◌≡◌, ◌+◌, ◌≤◌};

use super::PLACES;
use bank::Envelope;
use ring::Ring;

// The queue to the line, the queue from it, 64 places further on, and how many envelopes found no place there.
#[derive(Clone, Copy)]
pub struct Channel {
    pub(super) outgoing: Ring,
    pub(super) incoming: Ring,
    pub(super) dropped: u16,
    ghost out_fits: { outgoing.places ≤ 64 },
    ghost in_fits: { incoming.places ≤ 64 },
    ghost beside: { incoming.base ≡ outgoing.base + 64 },
}

impl Channel {
    ghost use Rattle.std.specs.Prelude.{◌*◌, ◌<◌, length};
    ghost use Rattle.queue_bank.specs.Queues.{give_to};
    ghost use Rattle.queue_bank.specs.Readings.{with_code};
    ghost use Rattle.queue_bank.specs.Standing.{queues_of, Step, FreshChannel};

    // The channel of index `i`, in which nothing waits.
    pub(super) fn fresh(i: usize, places: usize) -> Channel
        requires index { i < 80 }
        requires places { places ≤ 64 }
        ensures { FreshChannel (128 * i) places result }
    {
        let base = 2 * PLACES * i;
        Channel {
            outgoing: Ring::new(base, places),
            incoming: Ring::new(base + PLACES, places),
            dropped: 0,
        }
    }

    // How many envelopes wait each way.
    pub(super) fn waiting(&self, memory: &[Envelope]) -> (u16, u16)
        ensures { let q = queues_of memory.now self.now in result ≡ (length q.outgoing.waiting, length q.incoming.waiting) }
    {
        (
            self.outgoing.waiting(memory) as u16,
            self.incoming.waiting(memory) as u16,
        )
    }

    // How many of them have this code.
    pub(super) fn waiting_with(&self, memory: &[Envelope], code: u16) -> (u16, u16)
        ensures { let q = queues_of memory.now self.now in result ≡ (with_code code q.outgoing.waiting, with_code code q.incoming.waiting) }
    {
        (
            self.outgoing.count_code(memory, code) as u16,
            self.incoming.count_code(memory, code) as u16,
        )
    }

    pub(super) fn give(&mut self, memory: &mut [Envelope], e: Envelope)
        ensures { Step self.old memory.old self.new memory.new (give_to (queues_of memory.old self.old) e) }
    {
        if !self.incoming.put(memory, e) {
            self.dropped = self.dropped.saturating_add(1);
        }
    }
}
