// The check of a frame.
ghost use Rattle.std.specs.Prelude.{◌≡◌, ◌<◌};
ghost use Rattle.frame.specs.Checks.{CheckOf, divide, remainder};

// The divisor x^16 + x^12 + x^5 + 1.
const DIVISOR: u32 = 0x11021;

/// The remainder with one bit more.
#[tactic(auto, using(crate::proofs::Division::divide_high, crate::proofs::Division::divide_low, crate::proofs::Division::divide_lt))]
pub fn divide_on(rest: u16, bit: u8) -> u16
    ensures { result ≡ divide rest bit }
{
    let dividend = u32::from(rest) * 2 + u32::from(bit % 2);
    if dividend < 65536 {
        dividend as u16
    } else {
        (dividend ^ DIVISOR) as u16
    }
}

/// The remainder of bits, one a byte, the first of the highest power.
pub fn remainder_of(bits: &[u8]) -> u16
    ensures value { result ≡ remainder bits.now }
    ensures check { CheckOf bits.now result }
{
    bits.iter().fold(0, |rest, bit| divide_on(rest, *bit))
}
