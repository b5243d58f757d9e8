// Finding the frame alignment pattern, and the subframe that it stands in.
ghost use Rattle.std.specs.Prelude.{◌≡◌, false};
ghost use Rattle.reception.specs.Hunts.{fresh, found, hunted_on, waited_on, subframe_after};

use crate::register::shift;
use crate::state::{Hunt, Wait};
use frame::content::PATTERN;

impl Hunt {
    pub(crate) fn new() -> Hunt
        ensures { result ≡ fresh }
    {
        Hunt {
            registers: [0; 16],
            count: 0,
        }
    }

    // Takes a bit, and answers whether its phase then holds the pattern.
    pub(crate) fn hear(&mut self, bit: u8) -> bool
        ensures answer { result ≡ found self.old bit }
        ensures left { self.new ≡ hunted_on self.old bit }
    {
        let phase = usize::from(self.count % 16);
        let register = shift::<14>(self.registers[phase], bit);
        self.registers[phase] = register;
        self.count = self.count.wrapping_add(1);
        register == PATTERN
    }
}

impl Wait {
    pub(crate) fn new() -> Wait
        ensures { result ≡ record { since = 0; high = false } }
    {
        Wait {
            since: 0,
            high: false,
        }
    }

    // Takes a bit; at the second that names the subframe, answers how many subframes stand before it.
    pub(crate) fn hear(&mut self, bit: u8) -> Option<u16>
        ensures answer { result ≡ subframe_after self.old bit }
        ensures left { self.new ≡ waited_on self.old bit }
    {
        match self.since {
            0..=30 => {
                if self.since == 15 {
                    self.high = bit == 1;
                }
                self.since += 1;
                None
            }
            _ => Some(2 * u16::from(self.high) + u16::from(bit)),
        }
    }
}
