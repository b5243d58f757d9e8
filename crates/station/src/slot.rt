// The ten bits of a slot.
ghost use Rattle.std.specs.Prelude.{◌≡◌};
ghost use Rattle.station.specs.Sending.{word};
ghost use Rattle.station.specs.Hearing.{slot_in};

use bank::Envelope;

// An envelope and its alignment bit. Its word has the status bit, the alignment bit and the octet.
#[derive(Clone, Copy)]
pub struct Slot {
    pub envelope: Envelope,
    pub align: bool,
}

impl From<Slot> for u16 {
    ghost from_gives = { λ s r. r ≡ word s.envelope s.align };

    fn from(slot: Slot) -> u16 {
        512 * u16::from(slot.envelope.status)
            + 256 * u16::from(slot.align)
            + u16::from(slot.envelope.octet)
    }
}

impl From<u16> for Slot {
    ghost from_gives = { λ w r. r ≡ slot_in w };

    fn from(word: u16) -> Slot {
        Slot {
            envelope: Envelope {
                status: word / 512 % 2 == 1,
                octet: (word % 256) as u8,
            },
            align: word / 256 % 2 == 1,
        }
    }
}
