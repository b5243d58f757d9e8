// What a bit received concludes.
ghost use Rattle.std.specs.Prelude.{◌≡◌, ℕ, Some};
ghost use Rattle.station.specs.Events.{fault_code, fault_event, no_event};
ghost use Rattle.station.specs.Texts.{delivery_text, fault_text};

use bank::Envelope;
use frame::Justification;
use reception::FaultKind;
use ring::Coded;
use std::fmt;

/// An envelope for a channel.
#[derive(Clone, Copy, Debug, PartialEq, Eq)]
pub struct Delivery {
    pub channel: u16,
    pub envelope: Envelope,
}

/// A delivery prints as its channel, its status bit and its octet.
impl fmt::Display for Delivery {
    ghost output = { λ d. Some (delivery_text d) };

    fn fmt<W: fmt::Write>(&self, f: &mut fmt::Formatter<W>) -> fmt::Result {
        let status = u8::from(self.envelope.status);
        write!(f, "{} {status} {}", self.channel, self.envelope.octet)
    }
}

/// A fault: its kind, its channel where it is an envelope alignment and otherwise 0, and how many bits were received with
/// the one at which it showed.
// The rules give a record a channel of 0 in place of none, so it is no Option.
#[derive(Clone, Copy, Debug, PartialEq, Eq)]
pub struct Fault {
    pub kind: FaultKind,
    pub channel: u16,
    pub bits: u64,
}

/// A fault prints as the number of its kind, its channel and its count of bits.
impl fmt::Display for Fault {
    ghost output = { λ r. Some (fault_text r) };

    fn fmt<W: fmt::Write>(&self, f: &mut fmt::Formatter<W>) -> fmt::Result {
        let kind = u8::from(self.kind);
        write!(f, "{kind} {} {}", self.channel, self.bits)
    }
}

impl Coded for Fault {
    ghost coded = { fault_code };

    fn code(&self) -> u16 {
        u16::from(u8::from(self.kind))
    }
}

/// What a bit received concludes: an envelope that is given to a channel, a fault, the justification that a frame is
/// taken to have. Alignment is lost where the fault is of that kind.
#[derive(Clone, Copy, Debug, PartialEq, Eq)]
pub struct Event {
    pub given: Option<Delivery>,
    pub fault: Option<Fault>,
    pub taken: Option<Justification>,
}

impl Event {
    pub(crate) fn nothing() -> Event
        ensures { result ≡ no_event }
    {
        Event {
            given: None,
            fault: None,
            taken: None,
        }
    }
}

impl From<Fault> for Event {
    ghost from_gives = { λ f r. r ≡ fault_event f };

    fn from(fault: Fault) -> Event {
        Event {
            fault: Some(fault),
            ..Event::nothing()
        }
    }
}
