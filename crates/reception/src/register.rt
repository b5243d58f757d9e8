// Bits that are gathered one after another.
ghost use Rattle.std.specs.Prelude.{◌≡◌, ◌≤◌};
ghost use Rattle.reception.specs.Registers.{shift};

// A register of so many bits with one bit more, the oldest going out.
pub(crate) fn shift<const BITS: u32>(register: u16, bit: u8) -> u16
    requires { BITS ≤ 16 }
    ensures { result ≡ shift BITS register bit }
{
    ((u32::from(register) * 2 + u32::from(bit)) % (1 << BITS)) as u16
}
