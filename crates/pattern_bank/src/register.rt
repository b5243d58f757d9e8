// The shift register of nine stages.
ghost use Rattle.std.specs.Prelude.{◌≡◌, ◌<◌};
ghost use Rattle.pattern_bank.specs.Register.{stages, next_bit, shifted, octet_from};

// Stage 1 is the lowest bit.
#[derive(Clone, Copy)]
pub struct Register {
    bits: u16,
}

impl Register {
    // Nine ones.
    pub const ONES: Register = Register { bits: 511 };

    // The bit that enters next.
    fn next_bit(self) -> u16
        ensures is { result ≡ next_bit (stages self.bits) }
        ensures small { result < 2 }
    {
        (self.bits / 16 + self.bits / 256) % 2
    }

    // Every bit moves one stage up, and the next one enters.
    fn shift(&mut self)
        ensures { stages self.new.bits ≡ shifted (stages self.old.bits) }
    {
        self.bits = self.bits % 256 * 2 + self.next_bit();
    }

    // The octet that the next eight bits make. Each bit moves the register on, so this is a loop and no fold.
    pub fn next_octet(&mut self) -> u8
        ensures { (result, stages self.new.bits) ≡ octet_from (stages self.old.bits) }
    {
        let mut octet = 0;
        for _ in 0..8u8 {
            octet = octet * 2 + self.next_bit();
            self.shift();
        }
        octet as u8
    }
}
