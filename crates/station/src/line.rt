// What a station keeps besides its plan, its bank and its faults.
ghost use Rattle.std.specs.Prelude.{◌≡◌};
ghost use Rattle.station.specs.Hearing.{repeated, with_received};
ghost use Rattle.station.specs.Lines.{alternated_record, fresh_line};

use bank::CHANNELS;
use frame::Mode;
use reception::{Receiver, Reception};

/// What is kept of a channel.
#[derive(Clone, Copy, Debug, PartialEq, Eq)]
pub struct ChannelRecord {
    /// the alignment bit of the next envelope sent on it
    pub sending: bool,
    /// the alignment bit last received on it, since making or regaining
    pub received: Option<bool>,
}

/// The plain state of a station: its mode and number, the check bits that its next frame carries, eighty channel records
/// and its reception.
#[derive(Clone, Copy, Debug, PartialEq, Eq)]
pub struct Line {
    pub mode: Mode,
    pub number: u8,
    pub check: u16,
    pub records: [ChannelRecord; CHANNELS],
    pub receiver: Receiver,
}

impl ChannelRecord {
    // The alignment bit of the next envelope to send; the one after it has the other bit.
    pub(crate) fn alternate(&mut self) -> bool
        ensures bit { result ≡ self.old.sending }
        ensures left { self.new ≡ alternated_record self.old }
    {
        let bit = self.sending;
        self.sending = !bit;
        bit
    }

    // Takes an alignment bit, and answers whether it is the one last received.
    pub(crate) fn receive(&mut self, bit: bool) -> bool
        ensures answer { result ≡ repeated self.old.received bit }
        ensures left { self.new ≡ with_received bit self.old }
    {
        self.received.replace(bit) == Some(bit)
    }
}

impl Line {
    // The state at making.
    pub(crate) fn new(mode: Mode, number: u8, state: Reception) -> Line
        ensures { result ≡ fresh_line mode number state }
    {
        Line {
            mode,
            number,
            check: 65535,
            records: [ChannelRecord {
                sending: true,
                received: None,
            }; CHANNELS],
            receiver: Receiver::new(state),
        }
    }
}
