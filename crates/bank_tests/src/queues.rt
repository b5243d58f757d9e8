// The queue bank at its limits.
use bank::{Bank, Envelope};
use queue_bank::QueueBank;

// The k-th of the envelopes that the examples send.
fn envelope(k: u16) -> Envelope {
    Envelope {
        status: k % 3 == 0,
        octet: (k % 251) as u8,
    }
}

// Offers envelopes on channel 7 and takes as often: whether the first 64 were accepted, waited and came out in order.
fn pass(bank: &mut QueueBank, offers: u16) -> bool {
    (0..offers).all(|k| bank.offer(7, envelope(k)) == (k < 64))
        && bank.waiting(7) == (offers.min(64), 0)
        && (0..offers).all(|k| bank.take(7) == (k < 64).then(|| envelope(k)))
}

pub(crate) fn fill(memory: &mut [Envelope]) -> bool {
    let mut bank = QueueBank::new(memory);
    [0, 1, 63, 64, 65]
        .into_iter()
        .all(|offers| pass(&mut bank, offers))
}

pub(crate) fn go_round(memory: &mut [Envelope]) -> bool {
    let mut bank = QueueBank::new(memory);
    (0..500).all(|_| pass(&mut bank, 50))
}

// The envelope of code 263.
const SEVEN: Envelope = Envelope {
    status: true,
    octet: 7,
};

// Gives channel 80 that envelope so often; how many were dropped then.
fn give(bank: &mut QueueBank, count: u32) -> u16 {
    for _ in 0..count {
        bank.give(80, SEVEN);
    }
    bank.dropped(80)
}

pub(crate) fn overflow(memory: &mut [Envelope]) -> bool {
    let mut bank = QueueBank::new(memory);
    give(&mut bank, 64) == 0
        && give(&mut bank, 65_534) == 65_534
        && give(&mut bank, 1) == 65_535
        && give(&mut bank, 1) == 65_535
        && bank.dropped(79) == 0
        && bank.waiting_with(80, 263) == (0, 64)
        && bank.waiting_with(80, 7) == (0, 0)
        && bank.collect(80) == Some(SEVEN)
}

fn answers_nothing(bank: &mut QueueBank, channel: u16) -> bool {
    bank.give(channel, envelope(0));
    !bank.offer(channel, envelope(0))
        && bank.take(channel).is_none()
        && bank.collect(channel).is_none()
        && bank.waiting(channel) == (0, 0)
        && bank.dropped(channel) == 0
}

pub(crate) fn name_no_channel(memory: &mut [Envelope]) -> bool {
    let mut bank = QueueBank::new(memory);
    [0, 81, 65_535]
        .into_iter()
        .all(|channel| answers_nothing(&mut bank, channel))
}

pub(crate) fn lack_memory(memory: &mut [Envelope]) -> bool {
    let mut bank = QueueBank::new(memory);
    bank.give(1, envelope(0));
    !bank.offer(1, envelope(0)) && bank.waiting(1) == (0, 0) && bank.dropped(1) == 1
}
