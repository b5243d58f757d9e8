// Flips: places of a frame whose bits are inverted on the line.
#![tactic(auto)]

ghost use Rattle.std.specs.Prelude.{◌≡◌, true, length};
ghost use Rattle.flips.specs.Flips.{ByPlace, inverted, rises};

/// Whether the places rise strictly and lie below `length`.
pub fn rises(flips: &[u16], length: usize) -> bool
    ensures { result ≡ rises 0 length flips.now }
{
    let mut low: usize = 0;
    for flip in flips {
        let place = usize::from(*flip);
        if place < low || place >= length {
            return false;
        }
        low = place + 1;
    }
    true
}

/// Inverts the bits at the places, one a byte. A place beyond the bits is passed over.
pub fn invert(bits: &mut [u8], flips: &[u16])
    ensures is { bits.new ≡ inverted bits.old flips.now }
    ensures places { rises 0 (length bits.old) flips.now ≡ true → ByPlace bits.old flips.now bits.new }
{
    for flip in flips {
        let place = usize::from(*flip);
        if place < bits.len() {
            bits[place] ^= 1;
        }
    }
}
