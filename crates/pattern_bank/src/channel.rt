// One channel of the pattern bank.
ghost use Rattle.std.specs.Prelude.{◌≡◌};
ghost use Rattle.pattern_bank.specs.Register.{octet_from};
ghost use Rattle.pattern_bank.specs.Pattern.{marked, take_from, give_to};
ghost use Rattle.pattern_bank.specs.Standing.{pattern_of};

use super::register::Register;
use bank::Envelope;

// The register that take reads, the register that give compares with, and how many envelopes were wrong.
#[derive(Clone, Copy)]
pub struct Channel {
    pub(super) sending: Register,
    pub(super) comparing: Register,
    pub(super) wrong: u8,
}

// An octet with S = 1.
fn marked(octet: u8) -> Envelope
    ensures { result ≡ marked octet }
{
    Envelope {
        status: true,
        octet,
    }
}

impl Channel {
    // Both registers all ones, and nothing wrong yet.
    pub(super) const FRESH: Channel = Channel {
        sending: Register::ONES,
        comparing: Register::ONES,
        wrong: 0,
    };

    // The count of wrong envelopes.
    pub(super) fn count(&self) -> Envelope
        ensures { result ≡ marked (pattern_of self.now).wrong }
    {
        marked(self.wrong)
    }

    pub(super) fn take(&mut self) -> Envelope
        ensures answer { result ≡ marked (octet_from (pattern_of self.old).sending).0 }
        ensures left { pattern_of self.new ≡ take_from (pattern_of self.old) }
    {
        marked(self.sending.next_octet())
    }

    // One more is wrong unless it is what was expected; the count stays at 255.
    pub(super) fn give(&mut self, e: Envelope)
        ensures { pattern_of self.new ≡ give_to (pattern_of self.old) e }
    {
        let expected = marked(self.comparing.next_octet());
        if e != expected {
            self.wrong = self.wrong.saturating_add(1);
        }
    }
}
