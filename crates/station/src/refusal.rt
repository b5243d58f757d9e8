// Why a call on a station is refused.
ghost use Rattle.std.specs.Prelude.{◌≡◌, Some};
ghost use Rattle.station.specs.Refusals.{receive_number, refused, send_number};

use std::fmt;

/// Why a frame is not sent: the first of these that holds.
#[derive(Clone, Copy, Debug, PartialEq, Eq)]
pub enum SendRefusal {
    /// not -1, 0 or 1, or not 0 in synchronous mode
    Justification,
    /// below 2,561 bytes
    Buffer,
}

impl From<SendRefusal> for u8 {
    ghost from_gives = { λ refusal r. r ≡ send_number refusal };

    fn from(refusal: SendRefusal) -> u8 {
        match refusal {
            SendRefusal::Justification => 16,
            SendRefusal::Buffer => 18,
        }
    }
}

impl fmt::Display for SendRefusal {
    ghost output = { λ r. Some (refused (send_number r)) };

    fn fmt<W: fmt::Write>(&self, f: &mut fmt::Formatter<W>) -> fmt::Result {
        write!(f, "refused {}", u8::from(*self))
    }
}

/// Why a run of bits is not received: the first of these that holds.
#[derive(Clone, Copy, Debug, PartialEq, Eq)]
pub enum ReceiveRefusal {
    /// over 65,536 bits
    TooLong,
    /// some byte is not 0 or 1
    NotABit,
}

impl From<ReceiveRefusal> for u8 {
    ghost from_gives = { λ refusal r. r ≡ receive_number refusal };

    fn from(refusal: ReceiveRefusal) -> u8 {
        match refusal {
            ReceiveRefusal::TooLong => 20,
            ReceiveRefusal::NotABit => 19,
        }
    }
}

// Written out for each: one function for both would want a clause on the formatter, and be longer than its line.
impl fmt::Display for ReceiveRefusal {
    ghost output = { λ r. Some (refused (receive_number r)) };

    fn fmt<W: fmt::Write>(&self, f: &mut fmt::Formatter<W>) -> fmt::Result {
        let number = u8::from(*self);
        write!(f, "refused {number}")
    }
}
