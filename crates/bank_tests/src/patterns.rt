// The pattern bank from the start.
use bank::{Bank, Envelope};
use pattern_bank::PatternBank;

fn marked(octet: u8) -> Option<Envelope> {
    Some(Envelope {
        status: true,
        octet,
    })
}

pub(crate) fn begin() -> bool {
    let mut bank = PatternBank::new();
    bank.take(1) == marked(7) && bank.take(1) == marked(190) && bank.take(80) == marked(7)
}

// Gives back what take answers, with the status bit inverted or not; how many were wrong then.
fn give_back(bank: &mut PatternBank, count: u16, inverted: bool) -> Option<Envelope> {
    for _ in 0..count {
        if let Some(e) = bank.take(2) {
            let status = e.status != inverted;
            bank.give(2, Envelope { status, ..e });
        }
    }
    bank.collect(2)
}

// An offer of it is a fresh start, as one of any envelope is.
const NINE: Envelope = Envelope {
    status: false,
    octet: 9,
};

pub(crate) fn compare() -> bool {
    let mut bank = PatternBank::new();
    give_back(&mut bank, 1000, false) == marked(0)
        && give_back(&mut bank, 254, true) == marked(254)
        && give_back(&mut bank, 2, true) == marked(255)
        && bank.offer(2, NINE)
        && bank.collect(2) == marked(0)
        && bank.take(2) == marked(7)
}

pub(crate) fn name_no_channel() -> bool {
    let mut bank = PatternBank::new();
    [0, 81, 65_535].into_iter().all(|channel| bank.take(channel).is_none()
        && bank.collect(channel).is_none())
}
